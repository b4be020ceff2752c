//! Whether a command line asks for progress, which the program itself gives: no command gets
//! `--progress`.

ghost use Rattle.std.specs.Prelude.{◌≡◌, string_bytes, map};
ghost use Rattle.tl_arguments.specs.Progress.{asks_for_progress};

use crate::role::Role;

/// Whether `--progress` stands where options may stand. As the value of an option, or after `--`,
/// it asks for nothing.
pub fn asks_for_progress(words: &[String]) -> bool
    ensures { result ≡ asks_for_progress (map string_bytes words.now) }
{
    let mut role = Role::Plain;
    for word in words {
        role = role.after(word.as_str());
        if role.is_progress() {
            return true;
        }
    }
    false
}
