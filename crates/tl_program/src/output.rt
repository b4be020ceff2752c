//! Stores files and prints messages: all files in their order, and then the message.

ghost use Rattle.std.specs.Prelude.{◌≡◌, ◌≤◌, ◌∷◌, [], map};
ghost use Rattle.tl_program.specs.Change.{between, as_stored};
ghost use Rattle.tl_program.specs.Messages.{of_page};
ghost use Rattle.tl_program.specs.inner.Printing.{IsPrinted, IsStored, IsDelivered};

use crate::messages::message_text;
use crate::report::Report;
use crate::status::Status;
use std::alloc::Global;
use tl_base::{Desk, DeskFault};

/// A file that is to be stored.
#[derive(Clone, Copy)]
pub struct File<'a> {
    pub name: &'a str,
    pub bytes: &'a [u8],
}

/// Stores the files in their order, and prints what is reported, with the number of columns above which words may
/// break where that was found and a page is spoken of.
pub fn deliver<D: Desk>(
    alloc: Global,
    desk: &mut D,
    report: Report,
    most: Option<u32>,
    files: &[File<'_>],
) -> Status
    ensures delivered { IsDelivered result (between D.Desk desk.old desk.new)
        (record { report = report; most = of_page most report; stores = map as_stored files.now }) }
    ensures loads_stay { D.load_faults desk.new ≡ D.load_faults desk.old }
{
    let message = match message_text(alloc, report, report.of_page(most)) {
        Ok(message) => message,
        Err(_) => return Status::Memory,
    };
    if let Some(status) = store_all(desk, files) {
        return status;
    }
    print(desk, report.status(), message.as_str().as_bytes())
}

/// Stores the files in their order. The status with which the program ends where one cannot be stored,
/// and none where all are.
fn store_all<D: Desk>(desk: &mut D, files: &[File<'_>]) -> Option<Status>
    ensures stored { IsStored result (between D.Desk desk.old desk.new) (map as_stored files.now) }
    ensures loads_stay { D.load_faults desk.new ≡ D.load_faults desk.old }
    ensures said_stays { D.said desk.new ≡ D.said desk.old }
{
    for &file in files {
        if let Some(status) = store(desk, file) {
            return Some(status);
        }
    }
    None
}

/// Stores the file. The status with which the program ends where that fails, and none otherwise.
fn store<D: Desk>(desk: &mut D, file: File<'_>) -> Option<Status>
    ensures stored { IsStored result (between D.Desk desk.old desk.new) (as_stored file.entry ∷ []) }
    ensures loads_stay { D.load_faults desk.new ≡ D.load_faults desk.old }
    ensures said_stays { D.said desk.new ≡ D.said desk.old }
{
    match desk.store(file.name, file.bytes) {
        Ok(()) => None,
        Err(DeskFault::Failed) => Some(Status::WriteFault),
        Err(DeskFault::Memory(_)) => Some(Status::Memory),
    }
}

/// Prints the message of this status. Where that fails, the program ends with another status.
pub fn print<D: Desk>(desk: &mut D, status: Status, text: &[u8]) -> Status
    ensures printed { IsPrinted status result (between D.Desk desk.old desk.new) text.now }
    ensures files_stay { D.files desk.new ≡ D.files desk.old }
    ensures loads_stay { D.load_faults desk.new ≡ D.load_faults desk.old }
    ensures writes_rise { D.write_faults desk.old ≤ D.write_faults desk.new }
{
    match desk.say(text) {
        Ok(()) => status,
        Err(DeskFault::Failed) => Status::WriteFault,
        Err(DeskFault::Memory(_)) => Status::Memory,
    }
}
