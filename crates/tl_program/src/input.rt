//! Loads the files of a command.

ghost use Rattle.std.specs.Prelude.{◌≡◌, ◌+◌, ◌≤◌, IfOk, IfNone, IfSome, length};
ghost use Rattle.tl_base.specs.Desk.{IsReadFrom, Rose};

use std::alloc::AllocError;
use tl_base::{Desk, DeskFault, List};

/// The first `most + 1` bytes of a file, or all where it has fewer; none where it could not be read.
pub fn load<D: Desk>(desk: &mut D, name: &str, most: u32) -> Result<Option<List<u8>>, AllocError>
    ensures short { IfOk result (λ found. IfSome found (λ bytes. length bytes ≤ most + 1)) }
    ensures read { IfOk result (λ found. IfSome found (λ bytes.
        IfSome (D.files desk.old) (λ held. IsReadFrom held name.now most bytes))) }
    ensures counts { IfOk result (λ found. IfSome found (λ _. D.load_faults desk.new ≡ D.load_faults desk.old)) }
    ensures none { IfOk result (λ found. IfNone found (Rose (D.load_faults desk.old) (D.load_faults desk.new))) }
    ensures fails { IfOk result (λ found. IfNone found (D.fails_to_load desk.old name.now desk.new)) }
    ensures files_stay { D.files desk.new ≡ D.files desk.old }
    ensures said_stays { D.said desk.new ≡ D.said desk.old }
    ensures writes_stay { D.write_faults desk.new ≡ D.write_faults desk.old }
{
    match desk.load(name, most) {
        Ok(bytes) => Ok(Some(bytes)),
        Err(DeskFault::Failed) => Ok(None),
        Err(DeskFault::Memory(error)) => Err(error),
    }
}
