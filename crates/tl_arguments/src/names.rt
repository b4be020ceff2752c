//! How the names of files are spelled for a command.

ghost use Rattle.std.specs.Prelude.{◌≡◌, IfOk, string_bytes, map, get_or, []};
ghost use Rattle.tl_arguments.specs.Arranged.{stream_for, named, all_named};

use crate::role::is_dashed;
use std::alloc::{AllocError, Global};

/// The place of IN among the arguments that are no options.
pub const PLACE_OF_INPUT: usize = 2;

/// Standard input where the command reads the file of this place, otherwise standard output.
fn stream_for(command: &str, place: usize) -> &'static str
    ensures { result.now ≡ stream_for command.now place }
{
    if place == PLACE_OF_INPUT || command == "check" {
        "/dev/stdin"
    } else {
        "/dev/stdout"
    }
}

/// The argument in this place as the command takes it.
fn named(alloc: Global, command: &str, place: usize, word: &str) -> Result<String, AllocError>
    ensures { IfOk result (λ name. string_bytes name ≡ named command.now place word.now) }
{
    if place < PLACE_OF_INPUT {
        String::from_str(alloc, word)
    } else if word == "-" {
        String::from_str(alloc, stream_for(command, place))
    } else if is_dashed(word) {
        format!(in alloc; "./{word}")
    } else {
        String::from_str(alloc, word)
    }
}

/// The command: the first of the arguments, which is empty if there is none.
fn command_of(words: &[String]) -> &str
    ensures { result.now ≡ get_or (map string_bytes words.now) 0 [] }
{
    match words.first() {
        Some(word) => word.as_str(),
        None => "",
    }
}

/// The arguments that are no options as the command takes them.
pub(crate) fn all_named(alloc: Global, words: &[String]) -> Result<Vec<String>, AllocError>
    ensures { IfOk result (λ names. map string_bytes names.items ≡ all_named (map string_bytes words.now)) }
{
    let command = command_of(words);
    let mut names = Vec::new(alloc);
    for (place, word) in words.iter().enumerate() {
        names.push(named(alloc, command, place, word.as_str())?)?;
    }
    Ok(names)
}
