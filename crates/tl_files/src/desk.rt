//! The desk over the files and the standard streams of the system.
ghost use Rattle.std.specs.Prelude.{◌≡◌, ◌↔◌, ◌+◌, ◌-◌, ◌^◌, ◌≤◌, ℕ, List, length, take, Option, None, Err, IsOk, IfOk, OnOk, OnErr, IfSome, alloc_error};
ghost use Rattle.std.specs.Io.KnownBytes.{Appends};
ghost use Rattle.std.specs.IoError.{error_kind};
ghost use Rattle.tl_base.specs.Desk.{Files, next_up_to};
ghost use Rattle.tl_base.specs.declared.desk.DeskFault.TheVariants.{Failed, Memory};

use crate::replacing::replace;
use crate::telling::tell;
use std::alloc::{AllocError, Global};
use std::fs::File;
use std::io::{self, ErrorKind, Read, Write};
use std::rt::Files;
use tl_base::{Desk, DeskFault, List};

/// The name of standard output. What is stored under it is printed: a file opened by this name would
/// be truncated, and what is printed next would overwrite it.
pub const STANDARD_OUTPUT: &str = "/dev/stdout";

/// The name of standard error, under which what is stored is printed too.
const STANDARD_ERROR: &str = "/dev/stderr";

/// The real outside: std's files, standard output and standard error. What is stored under the names
/// `/dev/stdout` and `/dev/stderr` is printed; a file is replaced whole or not at all, where a new one
/// can take its place. It is trusted and small: no contract says what a file or a terminal holds, so
/// it tells neither meaning. Each call that returns an error raises its count, and says on standard
/// error what the system said.
#[derive(Drop)]
pub struct RealDesk<R, E> {
    runtime: R,
    errors: E,
    load_faults: u64,
    write_faults: u64,
}

impl<R, E> RealDesk<R, E> {
    ghost use Rattle.tl_files.specs.Desk.{load_faults_of, write_faults_of};

    /// The desk over the runtime's files and standard output, and over standard error, with both
    /// counts at 0.
    pub fn new(runtime: R, errors: E) -> RealDesk<R, E>
        ensures load_faults { load_faults_of result ≡ 0 }
        ensures write_faults { write_faults_of result ≡ 0 }
    {
        RealDesk {
            runtime,
            errors,
            load_faults: 0,
            write_faults: 0,
        }
    }
}

impl<R: Files + Print + AllocGlobal, E: Print> RealDesk<R, E> {
    ghost use Rattle.tl_files.specs.Desk.{load_faults_of, write_faults_of};

    /// Writes the bytes to what has this name, in place of all that a file there holds. After an
    /// error some may have been written, so that it is never `Memory`.
    fn write(&mut self, name: &str, bytes: &[u8]) -> Result<(), DeskFault>
        ensures failed { OnErr result (result ≡ Err Failed) }
        ensures ok_count { OnOk result (write_faults_of self.new ≡ write_faults_of self.old) }
        ensures err_count { OnErr result
            (write_faults_of self.new ≡ next_up_to (2 ^ 64 - 1) (write_faults_of self.old)) }
        ensures count { write_faults_of self.old ≤ write_faults_of self.new }
        ensures load_count { load_faults_of self.new ≡ load_faults_of self.old }
    {
        let written = match name {
            STANDARD_OUTPUT => write_whole(&mut io::writer(&self.runtime), bytes),
            STANDARD_ERROR => write_whole(&mut io::writer(&self.errors), bytes),
            _ => write_opened(File::create(&self.runtime, name), bytes),
        };
        match written {
            Ok(()) => Ok(()),
            Err(error) => {
                tell(self.runtime.alloc(), &self.errors, name, &error);
                count_one(&mut self.write_faults);
                Err(DeskFault::Failed)
            }
        }
    }
}

impl<R: Files + Print + AllocGlobal, E: Print> Desk for RealDesk<R, E> {
    ghost use Rattle.tl_files.specs.Desk.{load_faults_of, write_faults_of, FailsToLoad};

    ghost files = { λ _. None };

    ghost said = { λ _. None };

    ghost load_faults = { load_faults_of };

    ghost write_faults = { write_faults_of };

    ghost fails_to_load = { FailsToLoad };

    fn load(&mut self, name: &str, most: u32) -> Result<List<u8>, DeskFault> {
        let alloc = self.runtime.alloc();
        let opened = File::open(&self.runtime, name);
        match read_most(alloc, opened, most) {
            Ok(bytes) => Ok(bytes),
            Err(error) => {
                tell(alloc, &self.errors, name, &error);
                count_one(&mut self.load_faults);
                Err(fault_of(&error))
            }
        }
    }

    fn store(&mut self, name: &str, bytes: &[u8]) -> Result<(), DeskFault> {
        if name == STANDARD_OUTPUT || name == STANDARD_ERROR {
            return self.write(name, bytes);
        }
        match replace(&self.runtime, name, bytes) {
            Ok(true) => Ok(()),
            Ok(false) => self.write(name, bytes),
            Err(error) => {
                tell(self.runtime.alloc(), &self.errors, name, &error);
                count_one(&mut self.write_faults);
                Err(fault_of(&error))
            }
        }
    }

    fn say(&mut self, bytes: &[u8]) -> Result<(), DeskFault> {
        self.write(STANDARD_OUTPUT, bytes)
    }
}

/// Counts one fault more.
fn count_one(faults: &mut u64)
    ensures next { faults.new ≡ next_up_to (2 ^ 64 - 1) faults.old }
    ensures count { faults.old ≤ faults.new }
{
    *faults = faults.saturating_add(1);
}

/// The fault of a call after which all is as it was before.
fn fault_of(error: &io::Error) -> DeskFault
    ensures memory { result ≡ Memory alloc_error ↔ error_kind error.now ≡ ErrorKind.OutOfMemory }
{
    match error.kind() {
        ErrorKind::OutOfMemory => DeskFault::Memory(AllocError),
        _ => DeskFault::Failed,
    }
}

/// Reads to the end of what was opened, or until `most + 1` bytes are read.
fn read_most<R: Read + Drop>(
    alloc: Global,
    opened: io::Result<R>,
    most: u32,
) -> io::Result<List<u8>>
    ensures short { IfOk result (λ bytes. length bytes ≤ most + 1) }
    ensures read { IfOk result (λ bytes. IfOk opened (λ reader.
        IfSome (R.remaining reader) (λ all. bytes ≡ take (most + 1) all))) }
    ensures opened { OnOk result (IsOk opened) }
{
    opened.and_then(|reader| bytes_of(alloc, reader, most))
}

/// Reads to the end, or until `most + 1` bytes are read.
fn bytes_of<R: Read + Drop>(alloc: Global, reader: R, most: u32) -> io::Result<List<u8>>
    ensures short { IfOk result (λ bytes. length bytes ≤ most + 1) }
    ensures read { IfOk result (λ bytes. IfSome (R.remaining reader) (λ all. bytes ≡ take (most + 1) all)) }
{
    let limit = u64::from(most) + 1;
    let mut bytes = Vec::new(alloc);
    reader.take(limit).read_to_end(&mut bytes)?;
    // There are no more, but std does not say so of a reader whose bytes it does not know.
    bytes.truncate(limit as usize);
    Ok(List::from_vec(bytes))
}

/// Writes all of the bytes to what was opened.
fn write_opened<W: Write + Drop>(opened: io::Result<W>, bytes: &[u8]) -> io::Result<()>
    ensures opened { OnOk result (IsOk opened) }
{
    let mut writer = opened?;
    write_whole(&mut writer, bytes)
}

/// Writes all of the bytes and flushes.
pub(crate) fn write_whole<W: Write>(writer: &mut W, bytes: &[u8]) -> io::Result<()>
    ensures written { OnOk result (Appends (W.contents writer.old) (W.contents writer.new) bytes.now) }
{
    writer.write_all(bytes)?;
    writer.flush()
}

#[cfg(test)]
mod tests {
    use super::{read_most, write_whole};
    use crate::RealDesk;
    use std::alloc::{AllocError, Global};
    use std::io::{self, ErrorKind, Read, Write};
    use std::process::Abort;
    use std::test::Fail;
    use tl_base::{Desk, DeskFault, List};

    /// `count` bytes that repeat after 251, so that a chunk lost or written twice shows.
    fn many_bytes(alloc: Global, count: u32) -> Result<List<u8>, AllocError> {
        let mut bytes = List::new(alloc);
        for i in 0..count {
            bytes.push((i % 251) as u8)?;
        }
        Ok(bytes)
    }

    /// The file that the test of long files stores and removes.
    const LONG: &str = "real_desk_long.txt";

    /// Asserts that the file `LONG` gives these bytes where `most` are read.
    fn is_loaded(
        rt: &impl Abort,
        desk: &mut impl Desk,
        most: u32,
        wanted: &[u8],
    ) -> Result<(), Fail> {
        assert!(rt; desk.load(LONG, most)?.as_slice() == wanted, "{most} bytes");
        Ok(())
    }

    #[test]
    fn a_long_file_is_stored_and_loaded_whole(rt: HostRuntime) -> Result<(), Fail> {
        let bytes = many_bytes(rt.alloc(), 200_001)?;
        let prefix = many_bytes(rt.alloc(), 200_000)?;
        is_held_whole(
            &rt,
            &mut RealDesk::new(&rt, rt.stderr()),
            bytes.as_slice(),
            prefix.as_slice(),
        )?;
        std::fs::remove_file(&rt, LONG)?;
        Ok(())
    }

    /// Asserts that the file `LONG` holds all of the bytes, whose prefix is all but the last, and then
    /// what is stored in their place.
    fn is_held_whole(
        rt: &impl Abort,
        desk: &mut impl Desk,
        bytes: &[u8],
        prefix: &[u8],
    ) -> Result<(), Fail> {
        desk.store(LONG, bytes)?;
        is_loaded(rt, desk, 200_001, bytes)?;
        is_loaded(rt, desk, 199_999, prefix)?;
        desk.store(LONG, b"short\n")?;
        is_loaded(rt, desk, 9, b"short\n")?;
        is_loaded(rt, desk, 2, b"sho")
    }

    #[test]
    fn a_missing_file_and_a_full_device_are_faults(rt: HostRuntime) -> Result<(), Fail> {
        let mut desk = RealDesk::new(&rt, rt.stderr());
        assert!(rt; matches!(desk.load("no_such_file.txt", 9), Err(DeskFault::Failed)));
        assert!(rt;
            matches!(
                desk.store("no_such_folder/x.txt", b"x"),
                Err(DeskFault::Failed)
            )
        );
        assert!(rt; matches!(desk.store("/dev/full", b"x"), Err(DeskFault::Failed)));
        Ok(())
    }

    #[test]
    fn streams_are_printed_to_under_their_names(rt: HostRuntime) -> Result<(), Fail> {
        let mut desk = RealDesk::new(&rt, rt.stderr());
        desk.store("/dev/stdout", b"printed by the real desk\n")?;
        desk.say(b"and once more\n")?;
        desk.store("/dev/stderr", b"and on standard error\n")?;
        Ok(())
    }

    /// Gives three bytes at a time, as a slow pipe may, until none are left.
    #[derive(Drop)]
    struct SlowPipe {
        left: u32,
    }

    impl Read for SlowPipe {
        fn read(&mut self, buf: &mut [u8]) -> io::Result<usize> {
            let count = buf.len().min(3).min(self.left as usize);
            for byte in &mut buf[..count] {
                *byte = b'x';
            }
            self.left -= count as u32;
            Ok(count)
        }
    }

    #[test]
    fn a_slow_pipe_is_read_to_its_end(rt: HostRuntime) -> Result<(), Fail> {
        for (left, most, want) in [(8, 20, 8), (8, 4, 5), (0, 4, 0)] {
            let bytes = read_most(rt.alloc(), Ok(SlowPipe { left }), most)?;
            assert_eq!(rt; bytes.len(), want, "{left} bytes, {most} at most");
        }
        Ok(())
    }

    /// Takes two bytes at a time, and may fail when it is flushed.
    #[derive(Drop)]
    struct SlowWriter {
        taken: u32,
        flushes: bool,
    }

    impl Write for SlowWriter {
        fn write(&mut self, buf: &[u8]) -> io::Result<usize> {
            let count = buf.len().min(2);
            self.taken = self.taken.saturating_add(count as u32);
            Ok(count)
        }

        fn flush(&mut self) -> io::Result<()> {
            if self.flushes {
                Ok(())
            } else {
                Err(io::Error::from(ErrorKind::Other))
            }
        }
    }

    #[test]
    fn all_bytes_are_written_and_then_flushed(rt: HostRuntime) {
        for flushes in [true, false] {
            let mut writer = SlowWriter { taken: 0, flushes };
            let written = write_whole(&mut writer, b"seven b");
            assert_eq!(rt; (written.is_ok(), writer.taken), (flushes, 7));
        }
    }
}
