//! Runs that answer requests, over a reader and a writer in memory.

use std::alloc::{AllocError, Global};
use std::io::{self, ErrorKind, Read, Write};
use std::process::Abort;
use std::test::Fail as Failure;
use std::thread::Threads;
use tl_base::NoGate;
use tl_batch::{Ending, asks_for_batch, batch};
use tl_exchange::Streams;

/// Gives a text, three bytes at a time; once so many bytes are given, it fails.
#[derive(Drop)]
struct Requests<'a> {
    text: &'a [u8],
    good: usize,
}

impl<'a> Read for Requests<'a> {
    fn read(&mut self, buf: &mut [u8]) -> io::Result<usize> {
        if self.good == 0 && !self.text.is_empty() {
            return Err(io::Error::from(ErrorKind::Other));
        }
        let count = buf.len().min(self.text.len()).min(self.good).min(3);
        buf[..count].copy_from_slice(&self.text[..count]);
        self.text = &self.text[count..];
        self.good -= count;
        Ok(count)
    }
}

/// Takes what is written; once it holds so many bytes, it fails.
#[derive(Drop)]
struct Answers {
    held: Vec<u8>,
    most: usize,
}

impl Write for Answers {
    fn write(&mut self, buf: &[u8]) -> io::Result<usize> {
        let room = self.most.saturating_sub(self.held.len());
        if room == 0 && !buf.is_empty() {
            return Err(io::Error::from(ErrorKind::Other));
        }
        let count = buf.len().min(room);
        match self.held.extend_from_slice(&buf[..count]) {
            Ok(()) => Ok(count),
            Err(AllocError) => Err(io::Error::from(ErrorKind::OutOfMemory)),
        }
    }

    fn flush(&mut self) -> io::Result<()> {
        Ok(())
    }
}

/// What comes, how many bytes of it can be read, how many bytes can be written, and what is wanted: the bytes that are
/// written, and how the run ends.
#[derive(Clone, Copy)]
struct Case<'a> {
    requests: &'a str,
    good: usize,
    room: usize,
    answers: &'a [u8],
    ending: Ending,
}

/// Enough for all that is read or written here.
const ALL: usize = 100_000;

/// Asserts that a run sends just what is wanted, and ends so.
fn is_answered<R: Threads + Sync + Abort>(
    rt: &R,
    alloc: Global,
    case: Case<'_>,
) -> Result<(), Failure> {
    let reader = Requests {
        text: case.requests.as_bytes(),
        good: case.good,
    };
    let writer = Answers {
        held: Vec::new(alloc),
        most: case.room,
    };
    let mut streams = Streams::new(reader, writer);
    let ending = batch(rt, alloc, &mut streams, &NoGate);
    let held = streams.writer().held.as_slice();
    assert!(rt;
        held == case.answers && ending == case.ending,
        "{}: {ending:?}",
        case.requests
    );
    Ok(())
}

/// Asserts that requests that can all be read have these answers, and what comes after them ends the run so.
fn are_answered(
    rt: &(impl Threads + Sync + Abort),
    alloc: Global,
    rows: &[(&str, &str)],
    ending: Ending,
) -> Result<(), Failure> {
    for &(requests, wanted) in rows {
        is_answered(
            rt,
            alloc,
            Case {
                requests,
                good: ALL,
                room: ALL,
                answers: wanted.as_bytes(),
                ending,
            },
        )?;
    }
    Ok(())
}

#[test]
fn each_command_is_answered_with_its_message_and_its_page(rt: HostRuntime) -> Result<(), Failure> {
    are_answered(
        &rt,
        rt.alloc(),
        &[
            ("", ""),
            (
                "lay 9 29\n<table><tr><td>a<td>b</table>",
                "0 5 0 0 0\nlowest height 1 width 4\na  b\n",
            ),
            (
                "lay 3 29\n<table><tr><td>a<td>b</table>",
                "4 0 0 0 0\nnarrow least 4 width 3\n",
            ),
            (
                "lay 9 --break fit 33\n<table><tr><td>src/lib.rt</table>",
                "0 14 0 0 0\nlowest height 2 width 6 break 9\nsrc/  \nlib.rt\n",
            ),
            (
                "narrow 1 29\n<table><tr><td>a<td>b</table>",
                "0 5 0 0 0\nslimmest width 4 height 1\na  b\n",
            ),
            (
                "narrow 0 29\n<table><tr><td>a<td>b</table>",
                "12 0 0 0 0\ntoo tall height 0\n",
            ),
            (
                "tidy 9 --style compact 29\n<table><tr><td>a<td>b</table>",
                "0 4 0 0 0\ntidy height 1 width 3\na b\n",
            ),
            (
                "lay 9 --csv 4\na,b\n",
                "0 5 0 0 0\nlowest height 1 width 4\na  b\n",
            ),
            ("lay 9 0\n", "5 0 0 0 0\nbad input: no table at 0\n"),
            ("check 9 0 0\n", "5 0 0 0 0\nbad input: no table at 0\n"),
            (
                "check 9 29 1\n<table><tr><td>a<td>b</table>x",
                "10 0 0 0 0\nrejected: syntax at 0\n",
            ),
        ],
        Ending::Done,
    )
}

#[test]
fn certificates_are_sent_where_they_are_asked_for(rt: HostRuntime) -> Result<(), Failure> {
    are_answered(
        &rt,
        rt.alloc(),
        &[(
            "lay 3 --cert 29\n<table><tr><td>a<td>b</table>",
            "4 0 52 0 0\nnarrow least 4 width 3\ntablelayout 1 3 plain 5000\nnarrow 4\nchain 0 0 1\nend\n",
        )],
        Ending::Done,
    )
}

#[test]
fn requests_are_answered_in_their_order(rt: HostRuntime) -> Result<(), Failure> {
    are_answered(
        &rt,
        rt.alloc(),
        &[(
            "lay 9 --csv 4\na,b\nlay 9 0\nlay 9 --csv 4\nc,d\n",
            "0 5 0 0 0\nlowest height 1 width 4\na  b\n5 0 0 0 0\nbad input: no table at 0\n\
                 0 5 0 0 0\nlowest height 1 width 4\nc  d\n",
        )],
        Ending::Done,
    )
}

#[test]
fn what_is_no_request_is_answered_last(rt: HostRuntime) -> Result<(), Failure> {
    are_answered(
        &rt,
        rt.alloc(),
        &[
            ("lay 0 3\nabc", "2 0 0 0 0\nusage\n"),
            ("lay 9 --csv 5\na,b\n", "2 0 0 0 0\nusage\n"),
            (
                "lay 9 --csv 4\na,b\nlay\nlay 9 --csv 4\na,b\n",
                "0 5 0 0 0\nlowest height 1 width 4\na  b\n2 0 0 0 0\nusage\n",
            ),
        ],
        Ending::Usage,
    )
}

/// Two requests, of 18 and 8 bytes.
const TWO: &str = "lay 9 --csv 4\na,b\nlay 9 0\n";

/// Their answers, of 39 and 35 bytes.
const TWO_ANSWERS: &str = "0 5 0 0 0\nlowest height 1 width 4\na  b\n\
                           5 0 0 0 0\nbad input: no table at 0\n";

#[test]
fn a_read_that_fails_at_any_byte_leaves_the_answers_before_it(
    rt: HostRuntime,
) -> Result<(), Failure> {
    for good in 0..26 {
        let answered = if good < 18 { 0 } else { 39 };
        is_answered(
            &rt,
            rt.alloc(),
            Case {
                requests: TWO,
                good,
                room: ALL,
                answers: &TWO_ANSWERS.as_bytes()[..answered],
                ending: Ending::ReadFault,
            },
        )?;
    }
    Ok(())
}

#[test]
fn a_write_that_fails_at_any_byte_ends_the_run(rt: HostRuntime) -> Result<(), Failure> {
    for room in 0..74 {
        is_answered(
            &rt,
            rt.alloc(),
            Case {
                requests: TWO,
                good: ALL,
                room,
                answers: &TWO_ANSWERS.as_bytes()[..room],
                ending: Ending::WriteFault,
            },
        )?;
    }
    Ok(())
}

#[test]
fn one_word_alone_asks_for_requests(rt: HostRuntime) -> Result<(), Failure> {
    for (line, wanted) in [
        ("batch", true),
        ("batches", false),
        ("batch batch", false),
        ("lay", false),
    ] {
        let mut words = Vec::new(rt.alloc());
        for word in line.split(' ') {
            words.push(String::from_str(rt.alloc(), word)?)?;
        }
        assert_eq!(&rt; asks_for_batch(words.as_slice()), wanted, "{line}");
    }
    Ok(())
}
