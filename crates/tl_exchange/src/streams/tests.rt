//! Streams of each kind, and what an exchange over them takes, sends and counts.

use super::Streams;
use crate::Exchange;
use crate::fakes::{Calls, Kind, Reader, Then, Writer};
use std::alloc::{AllocError, Global};
use std::io;
use std::test::Fail;

/// A count as a digit, 9 at most.
fn digit(count: u64) -> u8 {
    b'0' + count.min(9) as u8
}

/// Readers of some bytes, and what three buffers of four bytes are filled with: a dot after each, `!` for one that is not
/// filled since reading failed, and then the number of faults.
const RECEIVED: &[(&str, Kind, &str)] = &[
    ("", Kind(2, Calls::Plain, Then::Ends), "...0"),
    ("abcd", Kind(9, Calls::Plain, Then::Ends), "abcd...0"),
    ("abcdefg", Kind(1, Calls::Plain, Then::Ends), "abcd.efg..0"),
    (
        "abcdefgh",
        Kind(3, Calls::Plain, Then::Ends),
        "abcd.efgh..0",
    ),
    (
        "abcde",
        Kind(2, Calls::Interrupted, Then::Ends),
        "abcd.e..0",
    ),
    ("", Kind(2, Calls::Plain, Then::Fails), "!!!3"),
    ("abcd", Kind(2, Calls::Plain, Then::Fails), "abcd.!!2"),
    (
        "abcdef",
        Kind(1, Calls::Interrupted, Then::Fails),
        "abcd.!!2",
    ),
    (
        "abcdefgh",
        Kind(2, Calls::Interrupted, Then::Fails),
        "abcd.efgh.!1",
    ),
];

/// What an exchange over a reader gives, as above.
fn received(alloc: Global, bytes: &str, kind: Kind) -> Result<Vec<u8>, AllocError> {
    let mut streams = Streams::new(Reader::new(kind, bytes.as_bytes()), io::sink());
    let mut told = Vec::new(alloc);
    for _ in 0..3 {
        let mut buffer = [b'?'; 4];
        match streams.receive(&mut buffer) {
            Ok(count) => {
                told.extend_from_slice(&buffer[..count])?;
                told.push(b'.')?;
            }
            Err(_) => told.push(b'!')?,
        }
    }
    told.push(digit(streams.read_faults))?;
    Ok(told)
}

#[test]
fn buffers_are_filled_by_readers_that_give_few_bytes_at_once(rt: HostRuntime) -> Result<(), Fail> {
    for &(bytes, kind, wanted) in RECEIVED {
        let told = received(rt.alloc(), bytes, kind)?;
        assert_eq!(rt; told.as_slice(), wanted.as_bytes(), "of {bytes}");
    }
    Ok(())
}

/// Writers, how many bytes they have room for, whether they flush, and what becomes of `abc`, `de` and no byte: a dot for
/// each that is sent, `!` for one that is not, the bytes that went, and then the number of faults.
const SENT: &[(Kind, usize, bool, &str)] = &[
    (Kind(9, Calls::Plain, Then::Ends), 9, true, "...abcde0"),
    (Kind(1, Calls::Plain, Then::Ends), 9, true, "...abcde0"),
    (
        Kind(2, Calls::Interrupted, Then::Ends),
        9,
        true,
        "...abcde0",
    ),
    (
        Kind(1, Calls::Interrupted, Then::Fails),
        5,
        true,
        "...abcde0",
    ),
    (Kind(9, Calls::Plain, Then::Ends), 4, true, ".!.abcd1"),
    (Kind(2, Calls::Plain, Then::Fails), 4, true, ".!.abcd1"),
    (Kind(2, Calls::Interrupted, Then::Fails), 2, true, "!!.ab2"),
    (Kind(1, Calls::Plain, Then::Ends), 0, true, "!!.2"),
    (Kind(2, Calls::Plain, Then::Ends), 9, false, "!!!abcde3"),
];

/// What an exchange over a writer sends, as above.
fn sent(alloc: Global, kind: Kind, room: usize, flushes: bool) -> Result<Vec<u8>, AllocError> {
    let writer = Writer::new(kind, room, flushes, Vec::new(alloc));
    let mut streams = Streams::new(io::empty(), writer);
    let mut told = Vec::new(alloc);
    for bytes in ["abc", "de", ""] {
        let is_sent = streams.send(bytes.as_bytes()).is_ok();
        told.push(if is_sent { b'.' } else { b'!' })?;
    }
    told.extend_from_slice(streams.writer().held())?;
    told.push(digit(streams.write_faults))?;
    Ok(told)
}

#[test]
fn bytes_are_sent_once_by_writers_that_take_few_at_once(rt: HostRuntime) -> Result<(), Fail> {
    for &(kind, room, flushes, wanted) in SENT {
        let told = sent(rt.alloc(), kind, room, flushes)?;
        assert_eq!(rt; told.as_slice(), wanted.as_bytes(), "for {wanted}");
    }
    Ok(())
}
