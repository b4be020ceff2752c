//! Takes a request from an exchange.

ghost use Rattle.std.specs.Prelude.{◌≡◌, IfErr, IfNone, IfOk, IfSome, OnOk, true, false, map, string_bytes};
ghost use Rattle.tl_exchange.specs.Exchange.{SendsNothing, between};
ghost use Rattle.tl_exchange.specs.Taking.{IsCause};
ghost use Rattle.tl_request.specs.Arrivals.{IsArrived};
ghost use Rattle.tl_request.specs.Requests.{HasNoRequest};
ghost use Rattle.tl_request.specs.inner.Headings.{AsksNothing, IsHeadingOf, ReadsFile};

use crate::heading::{Heading, read_heading};
use std::alloc::{AllocError, Global};
use tl_base::{MAX_CERTIFICATE_BYTES, MAX_FILE_BYTES};
use tl_command::{Ask, Command};
use tl_exchange::{Exchange, TakeError, receive_file, receive_line};

/// What is held of a request that was taken.
#[derive(Drop)]
pub struct Arrival {
    /// The words of the command line that asks for the same, with names in the places of those that a request does not have.
    pub words: Vec<String>,
    /// The bytes of its file, of a file that is too long the first ones, by which that shows; none where memory ran out.
    pub file: Option<Vec<u8>>,
    /// Those of the certificate that is checked, no bytes where none is; none where memory ran out.
    pub text: Option<Vec<u8>>,
}

/// Takes the next request. Returns none where no byte is left. It is cut off where what came is no request, or the bytes
/// end in it. Where memory runs out for its files, they are read over.
pub fn receive_request<E: Exchange>(
    alloc: Global,
    exchange: &mut E,
) -> Result<Option<Arrival>, TakeError>
    ensures taken { IfOk result (IsArrived (between E.Exchange exchange.old exchange.new)) }
    ensures cause { IfErr result (IsCause HasNoRequest (between E.Exchange exchange.old exchange.new)) }
    ensures unsent { SendsNothing (between E.Exchange exchange.old exchange.new) }
    ensures ok_count { OnOk result (E.read_faults exchange.new ≡ E.read_faults exchange.old) }
{
    let Some(line) = receive_line(alloc, exchange)? else {
        return Ok(None);
    };
    let Some(heading) = asked(alloc, line.as_slice())? else {
        return Err(TakeError::CutOff);
    };
    let Heading {
        words,
        file,
        text,
        ..
    } = heading;
    let file = receive_file(alloc, exchange, file, MAX_FILE_BYTES as u32)?;
    let text = receive_file(alloc, exchange, text, MAX_CERTIFICATE_BYTES as u32)?;
    Ok(Some(Arrival { words, file, text }))
}

/// What the line asks for; none where it asks for nothing.
fn asked(alloc: Global, line: &[u8]) -> Result<Option<Heading>, AllocError>
    ensures some { IfOk result (λ found. IfSome found (IsHeadingOf line.now)) }
    ensures none { IfOk result (λ found. IfNone found (AsksNothing line.now)) }
{
    let Some(heading) = read_heading(alloc, line)? else {
        return Ok(None);
    };
    if !reads_file(heading.words.as_slice(), heading.names) {
        return Ok(None);
    }
    Ok(Some(heading))
}

/// Whether the command line asks for something that is done with a file, by so many names.
fn reads_file(words: &[String], names: usize) -> bool
    ensures yes { result ≡ true → ReadsFile (map string_bytes words.now) names }
    ensures no { result ≡ false → ReadsFile (map string_bytes words.now) names → ⊥ }
{
    match Ask::parse(words) {
        Some(ask) => !matches!(ask.command, Command::Demo) && ask.names.len() == names,
        None => false,
    }
}
