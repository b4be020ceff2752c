//! A reader and a writer for the tests, which behave as slow and interrupted streams may.

use std::io::{self, ErrorKind, Read, Write};

/// What becomes of a stream after its last byte.
#[derive(Clone, Copy, PartialEq, Eq)]
pub enum Then {
    /// It gives or takes 0 bytes.
    Ends,
    /// Each call fails.
    Fails,
}

/// Whether a stream is interrupted before each call that gives or takes bytes.
#[derive(Clone, Copy, PartialEq, Eq)]
pub enum Calls {
    Plain,
    Interrupted,
}

/// What the streams of a row are like: how many bytes they give or take at once, their interruptions, and their ends.
#[derive(Clone, Copy)]
pub struct Kind(pub usize, pub Calls, pub Then);

/// Gives the bytes that are left.
#[derive(Drop)]
pub struct Reader<'a> {
    kind: Kind,
    left: &'a [u8],
    is_rested: bool,
}

impl<'a> Reader<'a> {
    /// A reader of these bytes.
    pub fn new(kind: Kind, left: &'a [u8]) -> Reader<'a> {
        Reader {
            kind,
            left,
            is_rested: false,
        }
    }
}

impl Read for Reader<'_> {
    fn read(&mut self, buf: &mut [u8]) -> io::Result<usize> {
        let Kind(most, calls, then) = self.kind;
        self.is_rested = !self.is_rested;
        if calls == Calls::Interrupted && self.is_rested {
            return Err(io::Error::from(ErrorKind::Interrupted));
        }
        let count = buf.len().min(most).min(self.left.len());
        if count == 0 && then == Then::Fails {
            return Err(io::Error::from(ErrorKind::Other));
        }
        for i in 0..count {
            buf[i] = self.left[i];
        }
        self.left = &self.left[count..];
        Ok(count)
    }
}

/// Holds the bytes that it took, for which it has room.
#[derive(Drop)]
pub struct Writer {
    kind: Kind,
    room: usize,
    flushes: bool,
    held: Vec<u8>,
    is_rested: bool,
}

impl Writer {
    /// A writer with room for so many bytes, and none in it.
    pub fn new(kind: Kind, room: usize, flushes: bool, held: Vec<u8>) -> Writer {
        Writer {
            kind,
            room,
            flushes,
            held,
            is_rested: false,
        }
    }

    /// The bytes that it took.
    pub fn held(&self) -> &[u8] {
        self.held.as_slice()
    }
}

impl Write for Writer {
    fn write(&mut self, buf: &[u8]) -> io::Result<usize> {
        let Kind(most, calls, then) = self.kind;
        self.is_rested = !self.is_rested;
        if calls == Calls::Interrupted && self.is_rested {
            return Err(io::Error::from(ErrorKind::Interrupted));
        }
        let count = buf
            .len()
            .min(most)
            .min(self.room.saturating_sub(self.held.len()));
        if count == 0 && then == Then::Fails {
            return Err(io::Error::from(ErrorKind::Other));
        }
        for &byte in &buf[..count] {
            if self.held.push(byte).is_err() {
                return Err(io::Error::from(ErrorKind::OutOfMemory));
            }
        }
        Ok(count)
    }

    fn flush(&mut self) -> io::Result<()> {
        if self.flushes {
            Ok(())
        } else {
            Err(io::Error::from(ErrorKind::Other))
        }
    }
}
