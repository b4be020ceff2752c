//! What `narrow` and `tidy` store and print, which both try pages of several widths.

use crate::tests::{desk, held, status_of};
use std::process::Abort;
use std::test::Fail as Failure;
use std::thread::Threads;
use tl_base::MemoryDesk;

/// A command line over a file, with its status and its message; the page where one is stored; and how the
/// files of the certificate, of that of the page one column narrower, and of that with which the search
/// ended early begin, where they are stored.
#[derive(Clone, Copy)]
pub struct Tried<'a> {
    pub line: &'a str,
    pub file: &'a str,
    pub status: u8,
    pub message: &'a str,
    pub page: Option<&'a str>,
    pub kept: Option<&'a str>,
    pub less: Option<&'a str>,
    pub spent: Option<&'a str>,
}

/// The file of this name begins so, or is not there.
fn begins(desk: &MemoryDesk, name: &str, wanted: Option<&str>) -> bool {
    match (held(desk, name), wanted) {
        (Some(text), Some(wanted)) => {
            text.starts_with(wanted.as_bytes()) && text.ends_with(b"\nend\n")
        }
        (None, None) => true,
        _ => false,
    }
}

impl Tried<'_> {
    /// The names of the certificates, and how each begins.
    fn certificates(&self) -> [(&'static str, Option<&str>); 3] {
        [
            ("c.txt", self.kept),
            ("l.txt", self.less),
            ("s.txt", self.spent),
        ]
    }

    /// The desk holds the certificates that are wanted.
    fn is_certified(&self, desk: &MemoryDesk) -> bool {
        for (name, wanted) in self.certificates() {
            if !begins(desk, name, wanted) {
                return false;
            }
        }
        true
    }

    /// Runs the case, and compares all that is wanted of it.
    fn check(&self, rt: &(impl Abort + AllocGlobal + Threads + Sync)) -> Result<(), Failure> {
        let mut desk = desk(rt.alloc(), self.file.as_bytes(), &[])?;
        let status = status_of(rt, rt.alloc(), self.line, &mut desk)?;
        let page = self.page.map(|page| page.as_bytes());
        assert_eq!(rt;
            (
                status,
                desk.said(),
                held(&desk, "p.txt"),
                self.is_certified(&desk)
            ),
            (self.status, self.message.as_bytes(), page, true),
            "{}",
            self.line
        );
        Ok(())
    }
}

/// Runs each case, and compares all that is wanted of it.
pub fn check_tried(
    rt: &(impl Abort + AllocGlobal + Threads + Sync),
    cases: &[Tried<'_>],
) -> Result<(), Failure> {
    for case in cases {
        case.check(rt)?;
    }
    Ok(())
}

/// Runs the command line over a file, and then checks of what it has stored, each with its status.
pub fn check_stored(
    rt: &(impl Abort + AllocGlobal + Threads + Sync),
    file: &str,
    line: &str,
    checks: &[(&str, u8)],
) -> Result<(), Failure> {
    let mut desk = desk(rt.alloc(), file.as_bytes(), &[])?;
    status_of(rt, rt.alloc(), line, &mut desk)?;
    for &(check, wanted) in checks {
        let status = status_of(rt, rt.alloc(), check, &mut desk)?;
        assert_eq!(rt; status, wanted, "{line}: {check}");
    }
    Ok(())
}
