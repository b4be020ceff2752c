//! The exchange over a reader and a writer, as standard input and standard output are.

ghost use Rattle.std.specs.Prelude.{◌≡◌, ◌<◌, ◌≤◌, ◌-◌, ◌^◌, ℕ, Option, List, IfOk, IfErr, OnErr, OnOk, length, take};
ghost use Rattle.std.specs.Io.KnownBytes.{Appends, Consumes, IsAtEnd};
ghost use Rattle.tl_exchange.specs.Sent.{AppendsSome};

use crate::exchange::{Exchange, ExchangeFault};
use std::io::{self, Read, Write};

#[cfg(test)]
mod tests;

/// The exchange of what a reader gives and a writer takes. It holds what they hold, and each call that returns an error
/// raises its count.
#[derive(Drop)]
pub struct Streams<R, W> {
    reader: R,
    writer: W,
    read_faults: u64,
    write_faults: u64,
}

impl<R, W> Streams<R, W> {
    ghost use Rattle.tl_exchange.specs.Streams.{reader_of, writer_of, read_faults_of, write_faults_of};

    /// The exchange over this reader and this writer, with both counts at 0.
    pub fn new(reader: R, writer: W) -> Streams<R, W>
        ensures reader { reader_of result ≡ reader }
        ensures writer { writer_of result ≡ writer }
        ensures read_faults { read_faults_of result ≡ 0 }
        ensures write_faults { write_faults_of result ≡ 0 }
    {
        Streams {
            reader,
            writer,
            read_faults: 0,
            write_faults: 0,
        }
    }

    /// Lends the writer.
    pub fn writer(&self) -> &W
        ensures { result.now ≡ writer_of self.now }
    {
        &self.writer
    }
}

impl<R: Read, W: Write> Exchange for Streams<R, W> {
    ghost use Rattle.tl_exchange.specs.Streams.{reader_of, writer_of, read_faults_of, write_faults_of};

    ghost came = { λ streams. R.remaining (reader_of streams) };

    ghost went = { λ streams. W.contents (writer_of streams) };

    ghost read_faults = { read_faults_of };

    ghost write_faults = { write_faults_of };

    fn receive(&mut self, buffer: &mut [u8]) -> Result<usize, ExchangeFault> {
        match fill(&mut self.reader, buffer) {
            Ok(count) => Ok(count),
            Err(_) => {
                self.read_faults = self.read_faults.saturating_add(1);
                Err(ExchangeFault)
            }
        }
    }

    fn send(&mut self, bytes: &[u8]) -> Result<(), ExchangeFault> {
        match write_out(&mut self.writer, bytes) {
            Ok(()) => Ok(()),
            Err(_) => {
                self.write_faults = self.write_faults.saturating_add(1);
                Err(ExchangeFault)
            }
        }
    }
}

/// Whether the call was interrupted by a signal, and is to be made again.
fn is_interrupted(error: &io::Error) -> bool {
    matches!(error.kind(), io::ErrorKind::Interrupted)
}

/// Reads until the buffer is full or no byte is left. Returns how many bytes were read.
fn fill<R: Read>(reader: &mut R, buffer: &mut [u8]) -> io::Result<usize>
    ensures within { IfOk result (λ count. count ≤ length buffer.new) }
    ensures taken { IfOk result (λ count. Consumes (R.remaining reader.old) (R.remaining reader.new) (take count buffer.new)) }
    ensures end { IfOk result (λ count. count < length buffer.new → IsAtEnd (R.remaining reader.new)) }
{
    let mut filled = 0;
    for _ in 0..u64::MAX {
        if filled == buffer.len() {
            return Ok(filled);
        }
        match reader.read(&mut buffer[filled..]) {
            Ok(0) => return Ok(filled),
            Ok(count) => filled += count,
            Err(error) if is_interrupted(&error) => {}
            Err(error) => return Err(error),
        }
    }
    Err(io::Error::from(io::ErrorKind::TimedOut))
}

/// Writes all of the bytes and flushes.
fn write_out<W: Write>(writer: &mut W, bytes: &[u8]) -> io::Result<()>
    ensures sent { OnOk result (Appends (W.contents writer.old) (W.contents writer.new) bytes.now) }
    ensures some { OnErr result (AppendsSome (W.contents writer.old) (W.contents writer.new) bytes.now) }
{
    let mut written = 0;
    for _ in 0..u64::MAX {
        if written == bytes.len() {
            return writer.flush();
        }
        match writer.write(&bytes[written..]) {
            Ok(0) => return Err(io::Error::from(io::ErrorKind::WriteZero)),
            Ok(count) => written += count,
            Err(error) if is_interrupted(&error) => {}
            Err(error) => return Err(error),
        }
    }
    Err(io::Error::from(io::ErrorKind::TimedOut))
}
