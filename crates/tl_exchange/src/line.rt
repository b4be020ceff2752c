//! Takes a line from an exchange.

ghost use Rattle.std.specs.Prelude.{◌≡◌, IfErr, IfOk, OnOk, option_map};
ghost use Rattle.tl_exchange.specs.Exchange.{SendsNothing, between};
ghost use Rattle.tl_exchange.specs.Taking.{HasNoLine, IsCause, IsLineTaken};

use crate::exchange::Exchange;
use crate::taking::TakeError;
use std::alloc::Global;

/// How many bytes a line may have, its line feed not counted.
pub const MAX_LINE_BYTES: usize = 4096;

/// Takes the next line and its line feed. Returns the line, or none where no byte is left. It is cut off where the bytes
/// end in it, or it is too long.
pub fn receive_line<E: Exchange>(
    alloc: Global,
    exchange: &mut E,
) -> Result<Option<Vec<u8>>, TakeError>
    ensures taken { IfOk result (λ line. IsLineTaken (between E.Exchange exchange.old exchange.new) (option_map (λ it. it.items) line)) }
    ensures cause { IfErr result (IsCause HasNoLine (between E.Exchange exchange.old exchange.new)) }
    ensures unsent { SendsNothing (between E.Exchange exchange.old exchange.new) }
    ensures ok_count { OnOk result (E.read_faults exchange.new ≡ E.read_faults exchange.old) }
{
    let mut line = Vec::new(alloc);
    for _ in 0..=MAX_LINE_BYTES {
        let mut byte = [0];
        if exchange.receive(&mut byte)? == 0 {
            if line.is_empty() {
                return Ok(None);
            }
            return Err(TakeError::CutOff);
        }
        if byte[0] == b'\n' {
            return Ok(Some(line));
        }
        line.push(byte[0])?;
    }
    Err(TakeError::CutOff)
}
