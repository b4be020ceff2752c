//! The desk of tests, which holds its files in memory.
ghost use Rattle.std.specs.Prelude.{◌≡◌, ◌≢◌, ◌-◌, ◌+◌, ◌^◌, ◌≤◌, ℕ, [], ◌++◌, length, take};
ghost use Rattle.std.specs.Prelude.{List, Option, Some, None, Err, OnOk, OnErr, IfOk, IfSome, IfNone, IsSome, alloc_error};
ghost use Rattle.tl_base.specs.Desk.{Files, stored, longer, put, IsReadFrom, StoresPrefix, SaysPrefix, Rose, next_up_to};
ghost use Rattle.tl_base.specs.declared.desk.DeskFault.TheVariants.{Failed, Memory};

use crate::desk::{Desk, DeskFault};
use crate::items::List;
use std::alloc::{AllocError, Global};
use std::collections::BTreeMap;

/// One planned failure of a [`MemoryDesk`]: the number of the call, from 0 over `load`, `store` and
/// `say` together, and how many bytes a `store` or a `say` passes before it fails.
#[derive(Clone, Copy, Debug, PartialEq, Eq)]
pub struct Fail {
    pub call: u32,
    pub bytes: u32,
}

/// A desk in memory, for tests: it tells all that it holds, and fails at just the calls that it
/// was asked to fail at, and at loads of missing files.
pub struct MemoryDesk {
    alloc: Global,
    files: BTreeMap<String, List<u8>>,
    said: List<u8>,
    fails: List<Fail>,
    calls: u32,
    load_faults: u64,
    write_faults: u64,
}

impl Drop for MemoryDesk {
    fn drop(self) {
        let MemoryDesk {
            alloc: _alloc,
            files: _files,
            said: _said,
            fails: _fails,
            calls: _calls,
            load_faults: _load_faults,
            write_faults: _write_faults,
        } = self;
    }
}

impl MemoryDesk {
    ghost use Rattle.tl_base.specs.MemoryDesk.{file_map, files_of, said_of, planned_failures, calls_made, load_faults_of, write_faults_of, next_failure};

    /// A desk with these files, nothing printed, and no call made yet. Where two entries of `fails`
    /// name one call, the first counts.
    pub fn new(alloc: Global, files: BTreeMap<String, List<u8>>, fails: List<Fail>) -> MemoryDesk
        ensures files { file_map result ≡ files }
        ensures said { said_of result ≡ [] }
        ensures fails { planned_failures result ≡ fails }
        ensures calls { calls_made result ≡ 0 }
        ensures load_faults { load_faults_of result ≡ 0 }
        ensures write_faults { write_faults_of result ≡ 0 }
    {
        MemoryDesk {
            alloc,
            files,
            said: List::new(alloc),
            fails,
            calls: 0,
            load_faults: 0,
            write_faults: 0,
        }
    }

    /// Lends the files by name.
    pub fn files(&self) -> &BTreeMap<String, List<u8>>
        ensures { result.now ≡ file_map self.now }
    {
        &self.files
    }

    /// Lends all that was printed.
    pub fn said(&self) -> &[u8]
        ensures { result.now ≡ said_of self.now }
    {
        self.said.as_slice()
    }

    /// Counts a call, and returns the number of bytes that it passes where it is to fail.
    fn next_call(&mut self) -> Option<u32>
        ensures planned { result ≡ next_failure self.old }
        ensures counted { self.new ≡ record self.old { calls = next_up_to (2 ^ 32 - 1) self.old.calls } }
    {
        let call = self.calls;
        self.calls = call.saturating_add(1);
        self.fails
            .as_slice()
            .iter()
            .find(|fail| fail.call == call)
            .map(|fail| fail.bytes)
    }

    /// Puts the file in place of what stood under its name.
    fn put(&mut self, name: &str, bytes: &[u8]) -> Result<(), AllocError>
        ensures ok { OnOk result (files_of self.new ≡ put name.now bytes.now (files_of self.old)) }
        ensures err { OnErr result (files_of self.new ≡ files_of self.old) }
        ensures others { self.new ≡ record self.old { files = self.new.files } }
    {
        let bytes = List::from_slice(self.alloc, bytes)?;
        let name = String::from_str(self.alloc, name)?;
        self.files.insert(name, bytes)?;
        Ok(())
    }
}

/// The first `count` of the bytes, or all where there are fewer.
fn at_most(bytes: &[u8], count: u64) -> &[u8]
    ensures { result.now ≡ take count bytes.now }
{
    match usize::try_from(count) {
        Ok(count) if count < bytes.len() => &bytes[..count],
        _ => bytes,
    }
}

impl Desk for MemoryDesk {
    ghost use Rattle.tl_base.specs.MemoryDesk.{files_of, said_of, load_faults_of, write_faults_of, next_failure, CountsCall, FailsToLoad};

    ghost files = { λ desk. Some (files_of desk) };

    ghost said = { λ desk. Some (said_of desk) };

    ghost load_faults = { load_faults_of };

    ghost write_faults = { write_faults_of };

    ghost fails_to_load = { FailsToLoad };

    fn load(&mut self, name: &str, most: u32) -> Result<List<u8>, DeskFault>
        ensures short { IfOk result (λ bytes. length bytes ≤ most + 1) }
        ensures read { IfOk result (λ bytes. IsReadFrom (files_of self.old) name.now most bytes) }
        ensures failed { result ≡ Err Failed → Rose (load_faults_of self.old) (load_faults_of self.new) }
        ensures failed_name { result ≡ Err Failed → FailsToLoad self.old name.now self.new }

        ensures ok_count { OnOk result (load_faults_of self.new ≡ load_faults_of self.old) }
        ensures load_count { load_faults_of self.old ≤ load_faults_of self.new }
        ensures write_count { write_faults_of self.new ≡ write_faults_of self.old }
        ensures files_stay { files_of self.new ≡ files_of self.old }
        ensures said_stays { said_of self.new ≡ said_of self.old }

        // It fails just where it was asked to, or the file is missing.
        ensures planned { IsSome (next_failure self.old) → result ≡ Err Failed }
        ensures missing { files_of self.old name.now ≡ None → result ≡ Err Failed }
        ensures only { next_failure self.old ≡ None → IsSome (files_of self.old name.now) → result ≢ Err Failed }
        ensures fault { result ≡ Err Failed → load_faults_of self.new ≡ next_up_to (2 ^ 64 - 1) (load_faults_of self.old) }
        ensures no_fault { result ≢ Err Failed → load_faults_of self.new ≡ load_faults_of self.old }
        ensures counted { CountsCall self.old self.new }
    {
        if self.next_call().is_none()
            && let Some(file) = self.files.get(name)
        {
            let bytes = at_most(file.as_slice(), u64::from(most) + 1);
            return Ok(List::from_slice(self.alloc, bytes)?);
        }
        self.load_faults = self.load_faults.saturating_add(1);
        Err(DeskFault::Failed)
    }

    fn store(&mut self, name: &str, bytes: &[u8]) -> Result<(), DeskFault>
        ensures ok { OnOk result (Some (files_of self.new) ≡ stored (Some (files_of self.old)) name.now bytes.now) }
        ensures failed { result ≡ Err Failed → Rose (write_faults_of self.old) (write_faults_of self.new) }
        ensures prefix { result ≡ Err Failed → StoresPrefix (Some (files_of self.old)) (Some (files_of self.new)) name.now bytes.now }
        ensures memory { result ≡ Err (Memory alloc_error) → files_of self.new ≡ files_of self.old }

        ensures ok_count { OnOk result (write_faults_of self.new ≡ write_faults_of self.old) }
        ensures write_count { write_faults_of self.old ≤ write_faults_of self.new }
        ensures load_count { load_faults_of self.new ≡ load_faults_of self.old }
        ensures said_stays { said_of self.new ≡ said_of self.old }

        // It fails just where it was asked to, once it has passed so many bytes.
        ensures planned { OnOk result (next_failure self.old ≡ None) }
        ensures only { next_failure self.old ≡ None → result ≢ Err Failed }
        ensures passed { IfSome (next_failure self.old)
            (λ count. result ≡ Err Failed → files_of self.new ≡ put name.now (take count bytes.now) (files_of self.old)) }
        ensures fault { result ≡ Err Failed → write_faults_of self.new ≡ next_up_to (2 ^ 64 - 1) (write_faults_of self.old) }
        ensures no_fault { result ≢ Err Failed → write_faults_of self.new ≡ write_faults_of self.old }
        ensures counted { CountsCall self.old self.new }
    {
        let Some(count) = self.next_call() else {
            return Ok(self.put(name, bytes)?);
        };
        self.put(name, at_most(bytes, u64::from(count)))?;
        self.write_faults = self.write_faults.saturating_add(1);
        Err(DeskFault::Failed)
    }

    fn say(&mut self, bytes: &[u8]) -> Result<(), DeskFault>
        ensures ok { OnOk result (Some (said_of self.new) ≡ longer (Some (said_of self.old)) bytes.now) }
        ensures failed { result ≡ Err Failed → Rose (write_faults_of self.old) (write_faults_of self.new) }
        ensures prefix { result ≡ Err Failed → SaysPrefix (Some (said_of self.old)) (Some (said_of self.new)) bytes.now }
        ensures memory { result ≡ Err (Memory alloc_error) → said_of self.new ≡ said_of self.old }

        ensures ok_count { OnOk result (write_faults_of self.new ≡ write_faults_of self.old) }
        ensures write_count { write_faults_of self.old ≤ write_faults_of self.new }
        ensures load_count { load_faults_of self.new ≡ load_faults_of self.old }
        ensures files_stay { files_of self.new ≡ files_of self.old }

        // It fails just where it was asked to, once it has passed so many bytes.
        ensures planned { OnOk result (next_failure self.old ≡ None) }
        ensures only { next_failure self.old ≡ None → result ≢ Err Failed }
        ensures passed { IfSome (next_failure self.old)
            (λ count. result ≡ Err Failed → said_of self.new ≡ said_of self.old ++ take count bytes.now) }
        ensures fault { result ≡ Err Failed → write_faults_of self.new ≡ next_up_to (2 ^ 64 - 1) (write_faults_of self.old) }
        ensures no_fault { result ≢ Err Failed → write_faults_of self.new ≡ write_faults_of self.old }
        ensures counted { CountsCall self.old self.new }
    {
        let Some(count) = self.next_call() else {
            return Ok(self.said.extend_from_slice(bytes)?);
        };
        self.said
            .extend_from_slice(at_most(bytes, u64::from(count)))?;
        self.write_faults = self.write_faults.saturating_add(1);
        Err(DeskFault::Failed)
    }
}
