//! What the arguments of a command line ask for: a command, its number, the names of its files, and
//! its options.

ghost use Rattle.std.specs.Prelude.{◌≡◌, ◌∷◌, ◌<◌, ℕ, List, map, length, string_bytes, IfSome, IfNone};
ghost use Rattle.tl_command.specs.Ask.{Asked, IsAsk, AskForNothing, asked_by};
ghost use Rattle.tl_command.specs.Command.{fewest_names};
ghost use Rattle.tl_command.specs.inner.Parts.{BeginsWithCommand, IsSplit};

use crate::command::Command;
use crate::names::{are_names, plain_count};
use crate::options::Options;

/// What is asked for: docs/COMMAND.md.
#[derive(Clone, Copy)]
pub struct Ask<'a> {
    /// What is to be done.
    pub command: Command,
    /// The page width in columns, from 1 to `MAX_PAGE_WIDTH`; the height in lines, from 0 to
    /// `MAX_HEIGHT`; or the number of the demonstration.
    pub number: u32,
    /// The names of the files in the order of the arguments: none is empty, and no two are the same.
    pub names: &'a [String],
    /// How it is to be done.
    pub options: Options,
}

/// A command, its number, and the arguments after them.
#[derive(Clone, Copy)]
struct Opening<'a> {
    command: Command,
    number: u32,
    more: &'a [String],
}

impl<'a> Opening<'a> {
    fn read(words: &'a [String]) -> Option<Opening<'a>>
        ensures opening { IfSome result (λ o. BeginsWithCommand (map string_bytes words.now) o.command o.number
            (map string_bytes o.more.now)) }
        ensures none { IfNone result ((command : Command) (number : ℕ) (more : List (List ℕ))
            → BeginsWithCommand (map string_bytes words.now) command number more → ⊥) }
    {
        let [name, number, more @ ..] = words else {
            return None;
        };
        let command = Command::read(name.as_str())?;
        let number = command.number(number.as_str())?;
        Some(Opening {
            command,
            number,
            more,
        })
    }
}

/// The names that the arguments after the number begin with, and the arguments after those.
fn split_names(command: Command, words: &[String]) -> Option<(&[String], &[String])>
    ensures split { IfSome result (λ r. IsSplit command (map string_bytes words.now)
        (map string_bytes r.0.now) (map string_bytes r.1.now)) }
    ensures none { IfNone result (length (map string_bytes words.now) < fewest_names command) }
{
    let fewest = command.fewest_names();
    if words.len() < fewest {
        return None;
    }
    let (_, optional) = words.split_at(fewest);
    let count = plain_count(optional, command.most_names() - fewest);
    Some(words.split_at(fewest + count))
}

impl<'a> Ask<'a> {
    /// What the arguments ask for, or `None` where they ask for nothing.
    pub fn parse(words: &'a [String]) -> Option<Ask<'a>>
        ensures ask { IfSome result (λ ask. IsAsk (map string_bytes words.now) (asked_by ask)) }
        ensures only { IfSome result (λ ask. (asked : Asked) → IsAsk (map string_bytes words.now) asked
            → asked ≡ asked_by ask) }
        ensures none { IfNone result (AskForNothing (map string_bytes words.now)) }
    {
        let opening = Opening::read(words)?;
        let (names, after) = split_names(opening.command, opening.more)?;
        if !are_names(names) {
            return None;
        }
        let options = Options::parse(opening.command, after)?;
        Some(Ask {
            command: opening.command,
            number: opening.number,
            names,
            options,
        })
    }
}
