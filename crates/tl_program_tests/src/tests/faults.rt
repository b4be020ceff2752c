//! Desks that fail: each call of each command, after each number of bytes. What stands is compared, byte by
//! byte, with what the run leaves where no call fails, and with what stood before it.

use crate::tests::checks::{CLOSED, LINE};
use crate::tests::{Case, NESTED, TWO, add, check_with, desk, held, status_of};
use std::alloc::{AllocError, Global};
use std::collections::BTreeMap;
use std::process::Abort;
use std::test::Fail as Failure;
use std::thread::Threads;
use tl_base::{Fail, List, MemoryDesk};

/// A command line over the file `t.html`, with what `c.txt` holds before it: how many files it loads, which
/// it stores, in their order, and its status where no call fails. Its message is printed last.
#[derive(Clone, Copy)]
struct Run<'a> {
    line: &'a str,
    file: &'a str,
    certificate: &'a str,
    loads: u32,
    stores: &'a [&'a str],
    status: u8,
}

/// The files of a desk. All of them stand before a run, so that what it does not store has to stay.
const NAMES: [&str; 5] = ["t.html", "p.txt", "c.txt", "l.txt", "s.txt"];

impl Run<'_> {
    /// A desk with all files.
    fn desk(&self, alloc: Global, fails: &[Fail]) -> Result<MemoryDesk, AllocError> {
        let mut files = BTreeMap::new(alloc);
        add(alloc, &mut files, "t.html", self.file.as_bytes())?;
        add(alloc, &mut files, "p.txt", b"a page before")?;
        add(alloc, &mut files, "c.txt", self.certificate.as_bytes())?;
        add(alloc, &mut files, "l.txt", b"a third file")?;
        add(alloc, &mut files, "s.txt", b"a fourth file")?;
        Ok(MemoryDesk::new(alloc, files, List::from_slice(alloc, fails)?))
    }

    /// The number of the call that stores the file of this name, if one does.
    fn store_of(&self, name: &str) -> Option<u32> {
        for (place, stored) in self.stores.iter().enumerate() {
            if *stored == name {
                return Some(self.loads.saturating_add(number(place)));
            }
        }
        None
    }

    /// The number of the call that prints the message.
    fn last_call(&self) -> u32 {
        self.loads.saturating_add(number(self.stores.len()))
    }

    /// The status where a call fails.
    fn failed_status(&self, call: u32) -> u8 {
        if call < self.loads {
            7
        } else if call <= self.last_call() {
            8
        } else {
            self.status
        }
    }

    /// What is printed where a call fails, and otherwise `whole`.
    fn failed_message<'a>(&self, fail: Fail, whole: &'a [u8]) -> &'a [u8] {
        if fail.call < self.loads {
            b"read fault\n"
        } else if fail.call < self.last_call() {
            b""
        } else if fail.call == self.last_call() {
            first(whole, fail.bytes)
        } else {
            whole
        }
    }
}

/// A count as calls and bytes of a desk are counted.
fn number(count: usize) -> u32 {
    u32::try_from(count).unwrap_or(u32::MAX)
}

/// The first bytes, or all where there are fewer.
fn first(bytes: &[u8], count: u32) -> &[u8] {
    bytes.get(..count as usize).unwrap_or(bytes)
}

/// What the file of this name holds.
fn bytes_of<'a>(desk: &'a MemoryDesk, name: &str) -> &'a [u8] {
    held(desk, name).unwrap_or(b"")
}

/// A run that was carried out: the files before it, and what it left.
#[derive(Clone, Copy)]
struct Whole<'a> {
    run: &'a Run<'a>,
    before: &'a MemoryDesk,
    after: &'a MemoryDesk,
}

impl Whole<'_> {
    /// What the file of this name holds where a call fails: stored whole before that call, in part by it,
    /// and not at all after it.
    fn wanted(&self, fail: Fail, name: &str) -> &[u8] {
        match self.run.store_of(name) {
            Some(call) if call < fail.call => bytes_of(self.after, name),
            Some(call) if call == fail.call => first(bytes_of(self.after, name), fail.bytes),
            _ => bytes_of(self.before, name),
        }
    }

    /// The desk holds what is wanted of each file, and no other file.
    fn is_left(&self, fail: Fail, desk: &MemoryDesk) -> bool {
        for name in NAMES {
            if bytes_of(desk, name) != self.wanted(fail, name) {
                return false;
            }
        }
        desk.files().len() == NAMES.len()
    }

    /// How many bytes a call passes where it does not fail.
    fn passed(&self, call: u32) -> u32 {
        if call == self.run.last_call() {
            return number(self.after.said().len());
        }
        for name in NAMES {
            if self.run.store_of(name) == Some(call) {
                return number(bytes_of(self.after, name).len());
            }
        }
        0
    }

    /// Carries the run out over a desk that fails, and compares all that is left.
    fn check_fail(
        &self,
        rt: &(impl Abort + AllocGlobal + Threads + Sync),
        fail: Fail,
    ) -> Result<(), Failure> {
        let alloc = rt.alloc();
        let mut desk = self.run.desk(alloc, &[fail])?;
        let status = status_of(rt, alloc, self.run.line, &mut desk)?;
        let told = desk.said() == self.run.failed_message(fail, self.after.said());
        assert!(rt;
            status == self.run.failed_status(fail.call) && told && self.is_left(fail, &desk),
            "{}: {fail:?}: {status}",
            self.run.line
        );
        Ok(())
    }

    /// The call fails after each number of bytes, and after more than it passes.
    fn check_call(
        &self,
        rt: &(impl Abort + AllocGlobal + Threads + Sync),
        call: u32,
    ) -> Result<(), Failure> {
        for bytes in 0..=self.passed(call).saturating_add(1) {
            self.check_fail(rt, Fail { call, bytes })?;
        }
        Ok(())
    }
}

/// Each call of the run fails, and then one that it does not make.
fn check_calls(
    rt: &(impl Abort + AllocGlobal + Threads + Sync),
    run: &Run<'_>,
) -> Result<(), Failure> {
    let alloc = rt.alloc();
    let before = run.desk(alloc, &[])?;
    let mut after = run.desk(alloc, &[])?;
    let status = status_of(rt, alloc, run.line, &mut after)?;
    assert_eq!(rt; status, run.status, "{}", run.line);
    let whole = Whole {
        run,
        before: &before,
        after: &after,
    };
    for call in 0..=run.last_call().saturating_add(1) {
        whole.check_call(rt, call)?;
    }
    Ok(())
}

/// Checks each of the runs.
fn check_runs(
    rt: &(impl Abort + AllocGlobal + Threads + Sync),
    runs: &[Run<'_>],
) -> Result<(), Failure> {
    for run in runs {
        check_calls(rt, run)?;
    }
    Ok(())
}

const LAID: Run<'static> = Run {
    line: "lay 12 t.html p.txt c.txt",
    file: TWO,
    certificate: "a certificate before",
    loads: 1,
    stores: &["p.txt", "c.txt"],
    status: 0,
};

const LAYOUTS: &[Run<'static>] = &[
    LAID,
    Run {
        line: "lay 12 t.html p.txt",
        stores: &["p.txt"],
        ..LAID
    },
    Run {
        line: "lay 12 t.html p.txt c.txt --budget 0",
        status: 3,
        ..LAID
    },
    Run {
        line: "lay 12 t.html p.txt c.txt --html",
        ..LAID
    },
    Run {
        line: "lay 12 t.html p.txt c.txt --workers 2",
        file: NESTED,
        ..LAID
    },
    Run {
        line: "lay 10 t.html p.txt c.txt --csv --head --least 5",
        file: "a,b\nccc,d\n",
        ..LAID
    },
    Run {
        line: "lay 11 t.html p.txt c.txt",
        file: "<table><tr><td>abcdef<td>ghij</table>",
        stores: &["c.txt"],
        status: 4,
        ..LAID
    },
    Run {
        line: "lay 11 t.html p.txt",
        file: "<table><tr><td>abcdef<td>ghij</table>",
        stores: &[],
        status: 4,
        ..LAID
    },
];

#[test]
fn a_layout_leaves_what_was_stored_before_the_failing_call(rt: HostRuntime) -> Result<(), Failure> {
    check_runs(&rt, LAYOUTS)
}

/// Nothing is stored, so that each call fails with all files as they were.
const REFUSED: Run<'static> = Run {
    line: "lay 10 t.html p.txt c.txt",
    file: "<table><tr><td>A<td rowspan=2>B<tr><td colspan=2>C</table>",
    stores: &[],
    status: 5,
    ..LAID
};

const REFUSALS: &[Run<'static>] = &[
    REFUSED,
    Run {
        line: "lay 10 t.html t.html c.txt",
        loads: 0,
        status: 2,
        ..REFUSED
    },
    Run {
        line: "lay 80 t.html p.txt c.txt --budget 100000",
        file: NESTED,
        status: 6,
        ..REFUSED
    },
    Run {
        line: "lay 10 x.html p.txt c.txt",
        status: 7,
        ..REFUSED
    },
    Run {
        line: "lay 10 t.html p.txt c.txt --csv",
        file: "a,b\nc\n",
        ..REFUSED
    },
    Run {
        line: "check 10 t.html c.txt",
        ..REFUSED
    },
    Run {
        line: "narrow 10 t.html p.txt c.txt l.txt s.txt",
        ..REFUSED
    },
    Run {
        line: "tidy 10 t.html p.txt c.txt l.txt s.txt",
        ..REFUSED
    },
    Run {
        line: "demo 4294967296",
        loads: 0,
        status: 2,
        ..REFUSED
    },
];

#[test]
fn a_refusal_leaves_all_files_whichever_call_fails(rt: HostRuntime) -> Result<(), Failure> {
    check_runs(&rt, REFUSALS)
}

const CHECKED: Run<'static> = Run {
    line: LINE,
    certificate: CLOSED,
    loads: 2,
    stores: &[],
    ..LAID
};

const CHECKS: &[Run<'static>] = &[
    CHECKED,
    Run {
        line: "check 12 t.html c.txt --budget 6 --workers 2",
        ..CHECKED
    },
    Run {
        line: "check 12 t.html c.txt --budget 0",
        certificate: "tablelayout 1 12 plain 0\nbounded 3 2\nsection 0 12 3 2 0 1\nwidths 3 2\nz0 chain\nend\n",
        status: 3,
        ..CHECKED
    },
    Run {
        line: "check 6 t.html c.txt",
        certificate: "tablelayout 1 6 plain 5000\nnarrow 7\nchain 0 0 1\nend\n",
        status: 4,
        ..CHECKED
    },
    Run {
        line: "check 12 t.html x.txt --budget 6",
        status: 7,
        ..CHECKED
    },
    Run {
        line: "check 12 t.html c.txt --budget 5",
        status: 10,
        ..CHECKED
    },
    Run {
        line: "check 5 t.html c.txt --csv",
        file: "",
        certificate: "tablelayout 1 5 plain 5000\nlowest 0\nsection 0 5 0 0 0 1\nwidths\nz0 chain\nend\n",
        ..CHECKED
    },
];

#[test]
fn a_check_leaves_all_files_whichever_call_fails(rt: HostRuntime) -> Result<(), Failure> {
    check_runs(&rt, CHECKS)
}

const SLIM: Run<'static> = Run {
    line: "narrow 2 t.html p.txt c.txt l.txt s.txt",
    stores: &["p.txt", "c.txt", "l.txt"],
    ..LAID
};

const NARROWEST: &[Run<'static>] = &[
    SLIM,
    Run {
        line: "narrow 2 t.html p.txt --html",
        stores: &["p.txt"],
        ..SLIM
    },
    Run {
        line: "narrow 0 t.html p.txt c.txt l.txt s.txt",
        stores: &["l.txt"],
        status: 12,
        ..SLIM
    },
    Run {
        line: "narrow 2 t.html p.txt c.txt l.txt s.txt --budget 0",
        stores: &["l.txt", "s.txt"],
        status: 3,
        ..SLIM
    },
    Run {
        line: "narrow 2 t.html p.txt c.txt --csv",
        file: "aaa bbb,cc dd ee\n",
        stores: &["p.txt", "c.txt"],
        ..SLIM
    },
];

#[test]
fn a_search_for_the_narrowest_page_leaves_what_was_stored_before_the_failing_call(
    rt: HostRuntime,
) -> Result<(), Failure> {
    check_runs(&rt, NARROWEST)
}

const TIDY: Run<'static> = Run {
    line: "tidy 12 t.html p.txt c.txt l.txt s.txt",
    ..SLIM
};

const TIDIEST: &[Run<'static>] = &[
    TIDY,
    Run {
        line: "tidy 12 t.html p.txt --html",
        stores: &["p.txt"],
        ..TIDY
    },
    Run {
        line: "tidy 12 t.html p.txt c.txt l.txt s.txt --budget 0",
        stores: &["p.txt", "c.txt"],
        status: 3,
        ..TIDY
    },
    Run {
        line: "tidy 6 t.html p.txt c.txt l.txt s.txt",
        stores: &["c.txt"],
        status: 4,
        ..TIDY
    },
    Run {
        line: "tidy 12 t.html p.txt c.txt --csv",
        file: "aaa bbb,cc dd ee\n",
        stores: &["p.txt", "c.txt"],
        ..TIDY
    },
];

#[test]
fn a_tidy_page_leaves_what_was_stored_before_the_failing_call(
    rt: HostRuntime,
) -> Result<(), Failure> {
    check_runs(&rt, TIDIEST)
}

const SHOWN: Run<'static> = Run {
    line: "demo 0",
    loads: 0,
    stores: &[],
    ..LAID
};

#[test]
fn a_demonstration_leaves_all_files_where_its_message_fails(
    rt: HostRuntime,
) -> Result<(), Failure> {
    check_calls(&rt, &SHOWN)
}

#[test]
fn a_lowest_page_is_stored_whole_or_in_part(rt: HostRuntime) -> Result<(), Failure> {
    let alloc = rt.alloc();
    let whole = Some(b"aaa  cc dd\nbbb  ee   \n".as_slice());
    // The call that fails, the bytes that it passes, the status, the page, whether the certificate is
    // empty where it is stored, and the message.
    let cases: [(u32, u32, u8, Option<&[u8]>, Option<bool>, &[u8]); 4] = [
        (0, 0, 7, None, None, b"read fault\n"),
        (1, 4, 8, Some(b"aaa "), None, b""),
        (2, 0, 8, whole, Some(true), b""),
        (3, 6, 8, whole, Some(false), b"lowest"),
    ];
    for (call, bytes, status, page, empty, said) in cases {
        let mut desk = desk(alloc, TWO.as_bytes(), &[Fail { call, bytes }])?;
        let found = status_of(&rt, alloc, "lay 12 t.html p.txt c.txt", &mut desk)?;
        let certificate = held(&desk, "c.txt").map(|text| text.is_empty());
        assert_eq!(rt;
            (found, held(&desk, "p.txt"), certificate, desk.said()),
            (status, page, empty, said),
            "call {call}"
        );
    }
    Ok(())
}

// The second failing call is the message of the first.
#[test]
fn a_read_fault_that_cannot_be_printed_is_a_write_fault(rt: HostRuntime) -> Result<(), Failure> {
    for (line, bytes, message) in [
        ("lay 12 t.html p.txt c.txt", 0, ""),
        ("check 12 t.html c.txt", 4, "read"),
        ("narrow 12 t.html p.txt", 11, "read fault\n"),
        ("tidy 12 t.html p.txt", 1, "r"),
    ] {
        let wanted = Case {
            line,
            file: TWO,
            status: 8,
            page: None,
            certificate: None,
            message,
        };
        check_with(
            &rt,
            &[Fail { call: 0, bytes: 0 }, Fail { call: 1, bytes }],
            &wanted,
        )?;
    }
    Ok(())
}

// What stood under a name is replaced by what is stored, and stays where nothing is.
#[test]
fn an_older_page_is_replaced_or_stays(rt: HostRuntime) -> Result<(), Failure> {
    let alloc = rt.alloc();
    let mut desk = desk(alloc, TWO.as_bytes(), &[Fail { call: 7, bytes: 2 }])?;
    for (line, status, page) in [
        ("lay 12 t.html p.txt", 0, "aaa  cc dd\nbbb  ee   \n"),
        ("lay 6 t.html p.txt", 4, "aaa  cc dd\nbbb  ee   \n"),
        ("lay 0 t.html p.txt", 2, "aaa  cc dd\nbbb  ee   \n"),
        ("lay 7 t.html p.txt", 8, "aa"),
    ] {
        let found = status_of(&rt, alloc, line, &mut desk)?;
        assert_eq!(rt;
            (found, held(&desk, "p.txt")),
            (status, Some(page.as_bytes())),
            "{line}"
        );
    }
    Ok(())
}
