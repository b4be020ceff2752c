//! Delivers what a table is answered with: its page and its certificates under the names that are asked for, and
//! then the message.

ghost use Rattle.std.specs.Prelude.{◌≡◌, IfOk, map, string_bytes};
ghost use Rattle.tl_command.specs.Ask.{asked_by};
ghost use Rattle.tl_program.specs.Change.{between, as_stored};
ghost use Rattle.tl_program.specs.Deliveries.{delivery_of, files_of, texts_of};
ghost use Rattle.tl_program.specs.inner.Steps.{DeliversResult, MayDeliver};

use crate::output::{File, deliver};
use crate::report::Report;
use crate::settling::fitted_in;
use crate::status::Status;
use std::alloc::{AllocError, Global};
use tl_base::{Desk, List};
use tl_command::Ask;
use tl_lay::{Answer, Evidence};

/// Stores the page and the certificates of what a call returned, those that there are and are named, and prints the
/// message.
pub fn deliver_result<D: Desk>(
    alloc: Global,
    ask: &Ask<'_>,
    desk: &mut D,
    returned: Result<Answer, AllocError>,
) -> Status
    ensures delivered { DeliversResult (asked_by ask.now) returned result (between D.Desk desk.old desk.new) }
    ensures loads_stay { D.load_faults desk.new ≡ D.load_faults desk.old }
{
    match returned {
        Ok(answer) => deliver_answer(alloc, ask, desk, answer),
        Err(_) => Status::Memory,
    }
}

/// Stores the page and the certificates, those that there are and are named, and prints the message.
fn deliver_answer<D: Desk>(alloc: Global, ask: &Ask<'_>, desk: &mut D, answer: Answer) -> Status
    ensures delivered { MayDeliver (delivery_of (asked_by ask.now) answer) result (between D.Desk desk.old desk.new) }
    ensures loads_stay { D.load_faults desk.new ≡ D.load_faults desk.old }
{
    let report = Report::of_answer(&answer);
    let Ok(texts) = texts_of(alloc, answer) else {
        return Status::Memory;
    };
    match files_of(alloc, ask.names, texts.as_slice()) {
        Ok(files) => deliver(alloc, desk, report, fitted_in(ask), files.as_slice()),
        Err(_) => Status::Memory,
    }
}

/// The texts of an answer in the order of the names: none under the first, the page, and the certificates.
pub fn texts_of(alloc: Global, answer: Answer) -> Result<Vec<Option<List<u8>>>, AllocError>
    ensures { IfOk result (λ texts. texts.items ≡ texts_of answer) }
{
    let mut texts = Vec::new(alloc);
    texts.push(None)?;
    match answer {
        Answer::Lowest {
            page,
            certificate,
            ..
        }
        | Answer::Bounded {
            page,
            certificate,
            ..
        } => {
            texts.push(Some(page))?;
            texts.push(certificate)?;
        }
        Answer::Narrow { certificate, .. } => {
            texts.push(None)?;
            texts.push(certificate)?;
        }
        Answer::Slimmest { evidence, .. }
        | Answer::Between { evidence, .. }
        | Answer::TooTall { evidence, .. }
        | Answer::Tidy { evidence, .. }
        | Answer::Wider { evidence, .. }
        | Answer::Unchosen { evidence } => {
            let Evidence {
                page,
                kept,
                less,
                spent,
            } = evidence;
            texts.push(page)?;
            texts.push(kept)?;
            texts.push(less)?;
            texts.push(spent)?;
        }
        Answer::Refused(_) => {}
    }
    Ok(texts)
}

/// The files of these names and texts: each text that is there under the name at its place.
fn files_of<'a>(
    alloc: Global,
    names: &'a [String],
    texts: &'a [Option<List<u8>>],
) -> Result<Vec<File<'a>>, AllocError>
    ensures { IfOk result (λ files. map as_stored files.items ≡ files_of (map string_bytes names.now) texts.now) }
{
    let mut files = Vec::new(alloc);
    for place in 0..names.len().min(texts.len()) {
        if let Some(bytes) = &texts[place] {
            files.push(File {
                name: names[place].as_str(),
                bytes: bytes.as_slice(),
            })?;
        }
    }
    Ok(files)
}
