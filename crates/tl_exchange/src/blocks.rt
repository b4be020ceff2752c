//! Takes files of known sizes from an exchange.

ghost use Rattle.std.specs.Prelude.{◌≡◌, ◌<◌, ◌≤◌, ◌-◌, ◌^◌, IfErr, IfOk, OnOk, length, option_map};
ghost use Rattle.std.specs.Io.KnownBytes.{Consumes};
ghost use Rattle.tl_exchange.specs.declared.blocks.TheConstants.{SKIPPED_BYTES};
ghost use Rattle.tl_exchange.specs.Exchange.{SendsNothing, between};
ghost use Rattle.tl_exchange.specs.Taking.{IsCause, TakesAnyOf, TakesFile};

use crate::exchange::Exchange;
use crate::taking::TakeError;
use std::alloc::{AllocError, Global};

/// How many bytes are read over at one time.
const SKIPPED_BYTES: u32 = 4096;

/// Takes the next `size` bytes, a file, and returns the first `most + 1` of them, or all where there are fewer; none where
/// memory runs out. It is cut off where fewer than `size` are left.
pub fn receive_file<E: Exchange>(
    alloc: Global,
    exchange: &mut E,
    size: u32,
    most: u32,
) -> Result<Option<Vec<u8>>, TakeError>
    requires few { most < 2 ^ 32 - 1 }
    ensures taken { IfOk result (λ kept. TakesFile (between E.Exchange exchange.old exchange.new) size most
        (option_map (λ it. it.items) kept)) }
    ensures cause { IfErr result (IsCause (λ came. length came < size) (between E.Exchange exchange.old exchange.new)) }
    ensures unsent { SendsNothing (between E.Exchange exchange.old exchange.new) }
    ensures ok_count { OnOk result (E.read_faults exchange.new ≡ E.read_faults exchange.old) }
{
    let kept = size.min(most + 1);
    match vec![in alloc; 0; kept as usize] {
        Ok(mut bytes) => {
            fill(exchange, bytes.as_mut_slice())?;
            skip(exchange, size - kept)?;
            Ok(Some(bytes))
        }
        Err(AllocError) => {
            skip(exchange, size)?;
            Ok(None)
        }
    }
}

/// Fills the buffer with the bytes that come next.
fn fill<E: Exchange>(exchange: &mut E, buffer: &mut [u8]) -> Result<(), TakeError>
    ensures taken { OnOk result (Consumes (E.came exchange.old) (E.came exchange.new) buffer.new) }
    ensures cause { IfErr result (IsCause (λ came. length came < length buffer.new) (between E.Exchange exchange.old exchange.new)) }
    ensures unsent { SendsNothing (between E.Exchange exchange.old exchange.new) }
    ensures ok_count { OnOk result (E.read_faults exchange.new ≡ E.read_faults exchange.old) }
{
    if exchange.receive(buffer)? < buffer.len() {
        return Err(TakeError::CutOff);
    }
    Ok(())
}

/// Reads over the next `size` bytes.
fn skip<E: Exchange>(exchange: &mut E, size: u32) -> Result<(), TakeError>
    ensures taken { OnOk result (TakesAnyOf (between E.Exchange exchange.old exchange.new) size) }
    ensures cause { IfErr result (IsCause (λ came. length came < size) (between E.Exchange exchange.old exchange.new)) }
    ensures unsent { SendsNothing (between E.Exchange exchange.old exchange.new) }
    ensures ok_count { OnOk result (E.read_faults exchange.new ≡ E.read_faults exchange.old) }
{
    let mut left = size;
    while left > 0 {
        let count = left.min(SKIPPED_BYTES);
        skip_few(exchange, count)?;
        left -= count;
    }
    Ok(())
}

/// Reads over the next `size` bytes, which are few.
fn skip_few<E: Exchange>(exchange: &mut E, size: u32) -> Result<(), TakeError>
    requires few { size ≤ SKIPPED_BYTES }
    ensures taken { OnOk result (TakesAnyOf (between E.Exchange exchange.old exchange.new) size) }
    ensures cause { IfErr result (IsCause (λ came. length came < size) (between E.Exchange exchange.old exchange.new)) }
    ensures unsent { SendsNothing (between E.Exchange exchange.old exchange.new) }
    ensures ok_count { OnOk result (E.read_faults exchange.new ≡ E.read_faults exchange.old) }
{
    let mut scratch = [0; SKIPPED_BYTES as usize];
    fill(exchange, &mut scratch[..size as usize])
}
