//! The one way to the outside, and what goes wrong there.
ghost use Rattle.std.specs.Prelude.{◌≡◌, ℕ, ◌+◌, ◌≤◌, length, List, Option, Err, IfOk, OnOk, IfSome, alloc_error};
ghost use Rattle.tl_base.specs.Desk.{Files, stored, longer, IsReadFrom, StoresPrefix, SaysPrefix, Rose};
ghost use Rattle.tl_base.specs.declared.desk.DeskFault.TheVariants.{Failed, Memory};

use crate::List;
use std::alloc::AllocError;
use thiserror::Error;

/// Why a call of a [`Desk`] was not carried out.
#[derive(Debug, Drop, Error)]
pub enum DeskFault {
    /// Out of memory: nothing outside has changed.
    #[error("out of memory")]
    Memory(AllocError),
    /// Reading or writing failed, and the desk's count of such faults rose.
    #[error("reading or writing failed")]
    Failed,
}

impl From<AllocError> for DeskFault {
    ghost from_gives = { λ _ fault. fault ≡ Memory alloc_error };

    fn from(error: AllocError) -> DeskFault {
        DeskFault::Memory(error)
    }
}

/// The one way to the outside: files by name, and what is printed on standard output. What a desk
/// holds has two meanings that it tells or not: `files`, the bytes of each file, and `said`, the
/// bytes printed. Two counts of faults, one of `load` and one of `store` and `say`, never fall and
/// stay at 2<sup>64</sup> - 1 once there. `fails_to_load` says of which name a `load` failed, between
/// which desks: only by a `load` of that very name can it be known.
pub trait Desk {
    ghost files: { Self → Option Files };

    ghost said: { Self → Option (List ℕ) };

    ghost load_faults: { Self → ℕ };

    ghost write_faults: { Self → ℕ };

    ghost fails_to_load: { Self → List ℕ → Self → Type 0 };

    /// The first `most + 1` bytes of the file `name`, or all where it has fewer: one byte more
    /// than `most` shows that the file is longer.
    fn load(&mut self, name: &str, most: u32) -> Result<List<u8>, DeskFault>
        ensures short { IfOk result (λ bytes. length bytes ≤ most + 1) }
        ensures read { IfOk result (λ bytes. IfSome (files self.old) (λ held. IsReadFrom held name.now most bytes)) }
        ensures failed { result ≡ Err Failed → Rose (load_faults self.old) (load_faults self.new) }
        ensures failed_name { result ≡ Err Failed → fails_to_load self.old name.now self.new }

        // The counts never fall and rise in no call that succeeds, and nothing outside changes.
        ensures ok_count { OnOk result (load_faults self.new ≡ load_faults self.old) }
        ensures load_count { load_faults self.old ≤ load_faults self.new }
        ensures write_count { write_faults self.new ≡ write_faults self.old }
        ensures files_stay { files self.new ≡ files self.old }
        ensures said_stays { said self.new ≡ said self.old };

    /// Makes the file `name` hold exactly `bytes`.
    fn store(&mut self, name: &str, bytes: &[u8]) -> Result<(), DeskFault>
        ensures ok { OnOk result (files self.new ≡ stored (files self.old) name.now bytes.now) }
        ensures failed { result ≡ Err Failed → Rose (write_faults self.old) (write_faults self.new) }
        ensures prefix { result ≡ Err Failed → StoresPrefix (files self.old) (files self.new) name.now bytes.now }
        ensures memory { result ≡ Err (Memory alloc_error) → files self.new ≡ files self.old }

        ensures ok_count { OnOk result (write_faults self.new ≡ write_faults self.old) }
        ensures write_count { write_faults self.old ≤ write_faults self.new }
        ensures load_count { load_faults self.new ≡ load_faults self.old }
        ensures said_stays { said self.new ≡ said self.old };

    /// Prints `bytes` on standard output, after what was printed before.
    fn say(&mut self, bytes: &[u8]) -> Result<(), DeskFault>
        ensures ok { OnOk result (said self.new ≡ longer (said self.old) bytes.now) }
        ensures failed { result ≡ Err Failed → Rose (write_faults self.old) (write_faults self.new) }
        ensures prefix { result ≡ Err Failed → SaysPrefix (said self.old) (said self.new) bytes.now }
        ensures memory { result ≡ Err (Memory alloc_error) → said self.new ≡ said self.old }

        ensures ok_count { OnOk result (write_faults self.new ≡ write_faults self.old) }
        ensures write_count { write_faults self.old ≤ write_faults self.new }
        ensures load_count { load_faults self.new ≡ load_faults self.old }
        ensures files_stay { files self.new ≡ files self.old };
}
