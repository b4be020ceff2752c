//! Which names are those of one file.

ghost use Rattle.std.specs.Prelude.{◌≡◌, ◌<◌, ◌↔◌, ℕ, Option, None, IsTrue, IfOk, IfSome, IfNone, length, get_or};
ghost use Rattle.tl_files.specs.Places.{IsSamePlace, AreShared};

use std::alloc::AllocError;
use std::fs;
use std::io::ErrorKind;
use std::os::unix::fs::MetadataExt;
use std::path::PathBuf;
use std::rt::Files;

/// How many links are followed from a name. The system follows as many.
const MOST_LINKS: u32 = 40;

/// Where a file is, or will be.
#[derive(Drop)]
struct Place {
    /// The device and the number of the file, or of its folder where it is still to be made.
    device: u64,
    number: u64,
    /// The name in the folder of a file that is still to be made. Otherwise it is empty.
    name: String,
}

impl Place {
    /// Whether this and the other are one place.
    fn is(&self, other: &Place) -> bool
        ensures { IsTrue result ↔ IsSamePlace self.now other.now }
    {
        self.device == other.device
            && self.number == other.number
            && self.name.as_str() == other.name.as_str()
    }

    /// The place of the file of this name. `None` says that it is no file that bytes stay in, as a
    /// device, a pipe or a folder, or that the system does not say.
    fn of<R: Files + AllocGlobal>(rt: &R, name: &str) -> Result<Option<Place>, AllocError> {
        match fs::metadata(rt, name) {
            Ok(held) if held.is_file() => Ok(Some(Place {
                device: held.dev(),
                number: held.ino(),
                name: String::new(rt.alloc()),
            })),
            Err(error) if error.kind() == ErrorKind::NotFound => Place::of_missing(rt, name),
            _ => Ok(None),
        }
    }

    /// The place of the file that will be made under this name.
    fn of_missing<R: Files + AllocGlobal>(rt: &R, name: &str) -> Result<Option<Place>, AllocError> {
        let path = followed(rt, name)?;
        let folder = match path.parent() {
            Some(folder) if !folder.as_str().is_empty() => folder.as_str(),
            _ => ".",
        };
        match (fs::metadata(rt, folder), path.file_name()) {
            (Ok(folder), Some(name)) => Ok(Some(Place {
                device: folder.dev(),
                number: folder.ino(),
                name: String::from_str(rt.alloc(), name)?,
            })),
            _ => Ok(None),
        }
    }
}

/// The name at the end of the links that begin at this one.
fn followed<R: Files + AllocGlobal>(rt: &R, name: &str) -> Result<PathBuf, AllocError> {
    let mut path = PathBuf::from_str(rt.alloc(), name)?;
    for _ in 0..MOST_LINKS {
        let Ok(target) = fs::read_link(rt, path.as_str()) else {
            return Ok(path);
        };
        path.pop();
        path.push(target.as_str())?;
    }
    Ok(path)
}

/// The first of the names that is one of a file of an earlier one, after that earlier one, both by
/// their places among the names. A file that is still to be made is told by its folder. The error
/// says that memory ran out.
pub fn shared_file<R: Files + AllocGlobal>(
    rt: &R,
    names: &[String],
) -> Result<Option<(usize, usize)>, AllocError>
    ensures order { IfOk result (λ found. IfSome found (λ pair. pair.0 < pair.1)) }
    ensures range { IfOk result (λ found. IfSome found (λ pair. pair.1 < length names.now)) }
{
    let mut places = Vec::new(rt.alloc());
    for name in names {
        places.push(Place::of(rt, name.as_str())?)?;
    }
    Ok(first_shared(places.as_slice()))
}

/// The first place that is that of an earlier one too, after that earlier one.
fn first_shared(places: &[Option<Place>]) -> Option<(usize, usize)>
    ensures order { IfSome result (λ pair. pair.0 < pair.1) }
    ensures range { IfSome result (λ pair. pair.1 < length places.now) }
    ensures shared { IfSome result (λ pair.
        AreShared (get_or places.now pair.0 None) (get_or places.now pair.1 None)) }
    ensures none { IfNone result ((one other : ℕ) → one < other → other < length places.now
        → ¬ AreShared (get_or places.now one None) (get_or places.now other None)) }
{
    for number in 0..places.len() {
        if let Some(earlier) = same_before(places, number) {
            return Some((earlier, number));
        }
    }
    None
}

/// The first place before the one of this number that is the same.
fn same_before(places: &[Option<Place>], number: usize) -> Option<usize>
    requires { number < length places.now }
    ensures range { IfSome result (λ earlier. earlier < number) }
    ensures shared { IfSome result (λ earlier.
        AreShared (get_or places.now earlier None) (get_or places.now number None)) }
    ensures none { IfNone result ((earlier : ℕ) → earlier < number
        → ¬ AreShared (get_or places.now earlier None) (get_or places.now number None)) }
{
    for earlier in 0..number {
        if are_shared(&places[earlier], &places[number]) {
            return Some(earlier);
        }
    }
    None
}

/// Whether both are known, and the same.
fn are_shared(one: &Option<Place>, other: &Option<Place>) -> bool
    ensures { IsTrue result ↔ AreShared one.now other.now }
{
    match (one, other) {
        (Some(one), Some(other)) => one.is(other),
        _ => false,
    }
}

#[cfg(test)]
mod tests {
    use super::shared_file;
    use std::alloc::{AllocError, Global};
    use std::fs;
    use std::os::unix::fs::symlink;
    use std::test::Fail;

    /// Names of files, of which there is one, `one.txt`, with the links below; and which two are
    /// those of one file.
    const NAMES: &[(&str, Option<(usize, usize)>)] = &[
        ("one.txt new.txt cert.txt", None),
        ("one.txt ./one.txt", Some((0, 1))),
        ("one.txt new.txt one_link.txt", Some((0, 2))),
        ("new.txt one_link.txt one_name.txt", Some((1, 2))),
        ("one.txt new.txt .//new.txt", Some((1, 2))),
        ("new.txt new_link.txt", Some((0, 1))),
        ("no_such_folder/new.txt no_such_folder/new.txt", None),
        ("/dev/null /dev/../dev/null . ./", None),
    ];

    /// The words of a line.
    fn words(alloc: Global, line: &str) -> Result<Vec<String>, AllocError> {
        let mut words = Vec::new(alloc);
        for word in line.split(' ') {
            words.push(String::from_str(alloc, word)?)?;
        }
        Ok(words)
    }

    #[test]
    fn two_names_of_one_file_are_found(rt: HostRuntime) -> Result<(), Fail> {
        fs::write(&rt, "one.txt", "old")?;
        symlink(&rt, "one.txt", "one_link.txt")?;
        symlink(&rt, "./new.txt", "new_link.txt")?;
        fs::hard_link(&rt, "one.txt", "one_name.txt")?;
        for (line, wanted) in NAMES {
            let names = words(rt.alloc(), line)?;
            assert_eq!(rt; shared_file(&rt, names.as_slice())?, *wanted, "{line}");
        }
        for name in ["one.txt", "one_link.txt", "new_link.txt", "one_name.txt"] {
            fs::remove_file(&rt, name)?;
        }
        Ok(())
    }
}
