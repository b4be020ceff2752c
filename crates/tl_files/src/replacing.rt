//! Replaces a file whole or not at all: a new file is written beside it, synchronised and given its
//! name.

ghost use Rattle.std.specs.Prelude.{◌≡◌, false, IfOk};

use crate::desk::write_whole;
use std::alloc::{AllocError, Global};
use std::fs::{self, Metadata, OpenFile, OpenOptions, Permissions};
use std::io::{self, ErrorKind};
use std::os::unix::fs::{MetadataExt, OpenOptionsExt, PermissionsExt, lchown};
use std::rt::Files;

/// How many names a new file is tried under. A name is taken while another run uses it, and stays so
/// where that was killed.
const MOST_TRIES: u32 = 100;

/// The mode with which a file is made that takes the place of none. The system takes away what the
/// caller wants taken away (umask).
const NEW_MODE: u32 = 0o666;

/// The mode with which a file is made that gets another one before it holds a byte: what is private
/// stays so.
const PRIVATE_MODE: u32 = 0o600;

/// The bits of a mode that say who may do what, without those that say what kind of file it is.
const PERMISSION_BITS: u32 = 0o7777;

/// What a new file takes the place of.
#[derive(Drop)]
enum Standing {
    /// No file.
    Nothing,
    /// A file of this name alone, whose mode and owner the new one keeps.
    File(Metadata),
}

impl Standing {
    /// What stands under this name, or `None` where no new file may take its place: it is a link, a
    /// device or a pipe, or a file with other names. The error is that of a write in place.
    fn of(rt: &impl Files, name: &str) -> io::Result<Option<Standing>> {
        match fs::symlink_metadata(rt, name) {
            Ok(held) if held.is_file() && held.nlink() == 1 => {
                // A folder that may be changed does not say that the files in it may be written.
                OpenOptions::new().write(true).open(rt, name)?;
                Ok(Some(Standing::File(held)))
            }
            Ok(_) => Ok(None),
            Err(error) if error.kind() == ErrorKind::NotFound => Ok(Some(Standing::Nothing)),
            Err(error) => Err(error),
        }
    }

    /// The mode with which the new file is made.
    fn first_mode(&self) -> u32 {
        match self {
            Standing::Nothing => NEW_MODE,
            Standing::File(_) => PRIVATE_MODE,
        }
    }
}

/// Makes the file `name` hold exactly these bytes, by a new file that takes its place. `Ok(false)` says
/// that none can: by what stands there, since it would lose the mode or the owner, or as its folder takes
/// no new file. Then, and after an error, what stands under the name is as it was.
pub(crate) fn replace<R: Files + AllocGlobal>(
    rt: &R,
    name: &str,
    bytes: &[u8],
) -> io::Result<bool> {
    let Some(standing) = Standing::of(rt, name)? else {
        return Ok(false);
    };
    let (path, mut file) = match new_beside(rt, name, standing.first_mode()) {
        Ok(made) => made,
        Err(error) => return refused(error),
    };
    let replaced = match fill(rt, path.as_str(), &mut file, &standing, bytes) {
        Ok(true) => take_place(rt, path.as_str(), name),
        unfilled => unfilled,
    };
    if !matches!(replaced, Ok(true)) {
        // It is in nobody's way, and what went wrong before is what matters.
        let _ = fs::remove_file(rt, path.as_str());
    }
    replaced
}

/// Makes a new file in the folder of this name, under a name of its own, which is returned.
fn new_beside<R: Files + AllocGlobal>(
    rt: &R,
    name: &str,
    mode: u32,
) -> io::Result<(String, R::File)> {
    for number in 0..MOST_TRIES {
        let path = name_beside(rt.alloc(), name, number)?;
        let mut options = OpenOptions::new();
        options.write(true).create_new(true).mode(mode);
        match options.open(rt, path.as_str()) {
            Ok(file) => return Ok((path, file)),
            Err(error) if error.kind() == ErrorKind::AlreadyExists => {}
            Err(error) => return Err(error),
        }
    }
    Err(io::Error::from(ErrorKind::AlreadyExists))
}

/// A name in the folder of this one. It is short, so that it is not too long where this one is not.
fn name_beside(alloc: Global, name: &str, number: u32) -> Result<String, AllocError> {
    let folder = match name.rfind('/') {
        Some(last) => name.get(..=last).unwrap_or(""),
        None => "",
    };
    format!(in alloc; "{folder}.tablelayout-{number}")
}

/// Gives the new file its mode, its owner and its bytes, and has the system keep them. `Ok(false)` says
/// that it cannot have the mode or the owner.
fn fill<R: Files>(
    rt: &R,
    path: &str,
    file: &mut R::File,
    standing: &Standing,
    bytes: &[u8],
) -> io::Result<bool> {
    if let Standing::File(held) = standing {
        if !is_made_alike(rt, path, file, held) {
            return Ok(false);
        }
    }
    write_whole(file, bytes)?;
    file.sync_all()?;
    Ok(true)
}

/// Gives the new file the owner and the mode of another, and tells whether it has them: some systems
/// of files keep neither, and say nothing.
fn is_made_alike<R: Files>(rt: &R, path: &str, file: &R::File, held: &Metadata) -> bool {
    let permissions = Permissions::from_mode(held.mode() & PERMISSION_BITS);
    // A change of the owner takes bits away from the mode, so it comes first.
    if !has_owner_of(file, held) && lchown(rt, path, Some(held.uid()), Some(held.gid())).is_err() {
        return false;
    }
    if file.set_permissions(permissions).is_err() {
        return false;
    }
    let has_mode = match file.metadata() {
        Ok(made) => made.mode() == held.mode(),
        Err(_) => false,
    };
    has_mode && has_owner_of(file, held)
}

/// Whether the open file has the owner and the group of another.
fn has_owner_of(file: &impl OpenFile, held: &Metadata) -> bool {
    match file.metadata() {
        Ok(made) => made.uid() == held.uid() && made.gid() == held.gid(),
        Err(_) => false,
    }
}

/// Gives the new file the name. `Ok(false)` says that it cannot have it.
fn take_place(rt: &impl Files, path: &str, name: &str) -> io::Result<bool> {
    match fs::rename(rt, path, name) {
        Ok(()) => Ok(true),
        Err(error) => refused(error),
    }
}

/// `Ok(false)` where the system takes no new file in this place, though it may take the bytes: the
/// folder is not the caller's to change, or the file is one that the system itself keeps there. Any
/// other error, as of a full disk, would meet the bytes too.
fn refused(error: io::Error) -> io::Result<bool>
    ensures { IfOk result (λ is_made. is_made ≡ false) }
{
    let is_refusal = matches!(
        error.kind(),
        ErrorKind::PermissionDenied
            | ErrorKind::ReadOnlyFilesystem
            | ErrorKind::ResourceBusy
            | ErrorKind::AlreadyExists
            | ErrorKind::NotFound
            | ErrorKind::IsADirectory
            | ErrorKind::NotADirectory
    );
    if is_refusal { Ok(false) } else { Err(error) }
}

#[cfg(test)]
mod tests {
    use super::{PERMISSION_BITS, replace};
    use std::fs::{self, Permissions};
    use std::os::unix::fs::{MetadataExt, PermissionsExt, symlink};
    use std::test::Fail;

    #[test]
    fn a_file_is_replaced_and_keeps_its_mode(rt: HostRuntime) -> Result<(), Fail> {
        let name = "replaced.txt";
        assert!(rt; replace(&rt, name, b"old")?);
        fs::set_permissions(&rt, name, Permissions::from_mode(0o640))?;
        let before = fs::metadata(&rt, name)?;
        assert!(rt; replace(&rt, name, b"new")?);
        let after = fs::metadata(&rt, name)?;
        assert_eq!(rt; after.mode() & PERMISSION_BITS, 0o640);
        assert!(rt; after.ino() != before.ino());
        assert_eq!(rt; fs::read_to_string(&rt, name)?.as_str(), "new");
        fs::remove_file(&rt, name)?;
        Ok(())
    }

    #[test]
    fn links_devices_and_files_with_several_names_are_left(rt: HostRuntime) -> Result<(), Fail> {
        fs::write(&rt, "kept.txt", "old")?;
        symlink(&rt, "kept.txt", "kept_link.txt")?;
        assert!(rt; !replace(&rt, "kept_link.txt", b"new")?);
        fs::hard_link(&rt, "kept.txt", "kept_too.txt")?;
        assert!(rt; !replace(&rt, "kept.txt", b"new")?);
        assert!(rt; !replace(&rt, "/dev/null", b"new")?);
        assert!(rt; !replace(&rt, "no_such_folder/x.txt", b"new")?);
        assert_eq!(rt; fs::read_to_string(&rt, "kept.txt")?.as_str(), "old");
        for name in ["kept.txt", "kept_link.txt", "kept_too.txt"] {
            fs::remove_file(&rt, name)?;
        }
        Ok(())
    }
}
