//! Runs command lines over files in memory: each status with its files and its message.

mod breaking;
mod certificates;
mod checks;
mod csv;
mod faults;
mod hostile;
mod limits;
mod narrow;
mod pages;
mod refusals;
mod rounds;
mod styles;
mod tidy;
mod trying;
mod usage;
mod workers;

use std::alloc::{AllocError, Global};
use std::collections::BTreeMap;
use std::process::Abort;
use std::test::Fail as Failure;
use std::thread::Threads;
use tl_base::{Fail, List, MemoryDesk, NoGate};
use tl_program::run;

/// Three words in one cell.
const ONE: &str = "<table><tr><td>aa bb cc</table>";

/// `aaa bbb` beside `cc dd ee`: two lines in 10 columns, and three in 7.
const TWO: &str = "<table><tr><td>aaa bbb<td>cc dd ee</table>";

/// `TWO` within a table.
const NESTED: &str = "<table><tr><td><table><tr><td>aaa bbb<td>cc dd ee</table></table>";

/// A cell over two columns, of which each has a cell below.
const SPANNED: &str = "<table><tr><td colspan=2>aaaa bbbb cc<tr><td>x<td>yy</table>";

/// A command line, what the file `t.html` holds, and what is wanted of them: the status, the files
/// `p.txt` and `c.txt` where they are stored, and the message.
#[derive(Clone, Copy)]
struct Case<'a> {
    line: &'a str,
    file: &'a str,
    status: u8,
    page: Option<&'a str>,
    certificate: Option<&'a str>,
    message: &'a str,
}

/// The arguments of a command line, each separated by one space from the next: between two spaces is
/// an empty argument.
fn arguments(alloc: Global, line: &str) -> Result<Vec<String>, AllocError> {
    let mut arguments = Vec::new(alloc);
    if line.is_empty() {
        return Ok(arguments);
    }
    for argument in line.split(' ') {
        arguments.push(String::from_str(alloc, argument)?)?;
    }
    Ok(arguments)
}

/// Adds a file to the files.
fn add(
    alloc: Global,
    files: &mut BTreeMap<String, List<u8>>,
    name: &str,
    bytes: &[u8],
) -> Result<(), AllocError> {
    let name = String::from_str(alloc, name)?;
    files.insert(name, List::from_slice(alloc, bytes)?)?;
    Ok(())
}

/// A desk whose file `t.html` holds these bytes, and `c.txt` this certificate, if there is one.
fn desk_with(
    alloc: Global,
    bytes: &[u8],
    certificate: Option<&str>,
    fails: &[Fail],
) -> Result<MemoryDesk, AllocError> {
    let mut files = BTreeMap::new(alloc);
    add(alloc, &mut files, "t.html", bytes)?;
    if let Some(certificate) = certificate {
        add(alloc, &mut files, "c.txt", certificate.as_bytes())?;
    }
    Ok(MemoryDesk::new(alloc, files, List::from_slice(alloc, fails)?))
}

/// A desk whose file `t.html` holds these bytes.
fn desk(alloc: Global, bytes: &[u8], fails: &[Fail]) -> Result<MemoryDesk, AllocError> {
    desk_with(alloc, bytes, None, fails)
}

/// What the desk's file holds, or none where it has no such file.
fn held<'a>(desk: &'a MemoryDesk, name: &str) -> Option<&'a [u8]> {
    desk.files().get(name).map(|file| file.as_slice())
}

/// The status of a command line over the desk.
fn status_of(
    rt: &(impl Threads + Sync),
    alloc: Global,
    line: &str,
    desk: &mut MemoryDesk,
) -> Result<u8, AllocError> {
    let arguments = arguments(alloc, line)?;
    Ok(run(rt, alloc, arguments.as_slice(), desk, &NoGate))
}

/// What a run leaves: the status, the files `p.txt` and `c.txt`, and what was printed.
#[derive(Clone, Copy, Debug, PartialEq, Eq)]
struct Left<'a> {
    status: u8,
    page: Option<&'a [u8]>,
    certificate: Option<&'a [u8]>,
    said: &'a [u8],
    /// `t.html` is as it was, and there is no other file.
    stays: bool,
}

impl<'a> Left<'a> {
    /// What is on the desk after a run with this status, where `t.html` had these bytes.
    fn on(desk: &'a MemoryDesk, status: u8, bytes: &[u8]) -> Left<'a> {
        let page = held(desk, "p.txt");
        let certificate = held(desk, "c.txt");
        let files = match (page, certificate) {
            (None, None) => 1,
            (Some(_), Some(_)) => 3,
            _ => 2,
        };
        Left {
            status,
            page,
            certificate,
            said: desk.said(),
            stays: held(desk, "t.html") == Some(bytes) && desk.files().len() == files,
        }
    }
}

/// Runs the command line over a desk whose file `t.html` holds these bytes, and `c.txt` this
/// certificate, with these failures. It compares all that is left.
fn check_left(
    rt: &(impl Abort + AllocGlobal + Threads + Sync),
    line: &str,
    bytes: &[u8],
    certificate: Option<&str>,
    fails: &[Fail],
    wanted: &Left<'_>,
) -> Result<(), Failure> {
    let alloc = rt.alloc();
    let mut desk = desk_with(alloc, bytes, certificate, fails)?;
    let status = status_of(rt, alloc, line, &mut desk)?;
    assert_eq!(rt; Left::on(&desk, status, bytes), *wanted, "{line} {fails:?}");
    Ok(())
}

/// Runs the case over a desk with these failures, and compares all that is wanted of it.
fn check_with(
    rt: &(impl Abort + AllocGlobal + Threads + Sync),
    fails: &[Fail],
    case: &Case<'_>,
) -> Result<(), Failure> {
    let wanted = Left {
        status: case.status,
        page: case.page.map(|page| page.as_bytes()),
        certificate: case.certificate.map(|text| text.as_bytes()),
        said: case.message.as_bytes(),
        stays: true,
    };
    check_left(rt, case.line, case.file.as_bytes(), None, fails, &wanted)
}

/// Runs the case over a desk that does not fail.
fn check(rt: &(impl Abort + AllocGlobal + Threads + Sync), case: &Case<'_>) -> Result<(), Failure> {
    check_with(rt, &[], case)
}

/// The command line over the file stores nothing, with this status and this message.
fn check_refused(
    rt: &(impl Abort + AllocGlobal + Threads + Sync),
    line: &str,
    file: &[u8],
    status: u8,
    message: &str,
) -> Result<(), Failure> {
    let wanted = Left {
        status,
        page: None,
        certificate: None,
        said: message.as_bytes(),
        stays: true,
    };
    check_left(rt, line, file, None, &[], &wanted)
}

/// A text so many times, one after the other.
fn repeated(alloc: Global, text: &str, times: usize) -> Result<String, AllocError> {
    let mut whole = String::new(alloc);
    for _ in 0..times {
        whole.push_str(text)?;
    }
    Ok(whole)
}
