//! What is wrong with arguments that ask for nothing, in one line. It has no rules of its own: the
//! grammar of `tl_command` is asked about one part after the other.

ghost use Rattle.std.specs.Prelude.{◌≤◌, ◌+◌, length};

use crate::order::Side;
use crate::role::Role;
use std::alloc::{AllocError, Global};
use tl_command::Ask;

/// The commands of the program.
const COMMANDS: &[&str] = &["lay", "narrow", "tidy", "check", BATCH, "demo"];

/// The command that answers requests: it is the only word.
const BATCH: &str = "batch";

/// The options of the commands, and `--progress`, which is never among the options of a command but
/// may be meant by one.
const OPTIONS: &[&str] = &[
    "--style",
    "--break",
    "--budget",
    "--solver",
    "--workers",
    "--csv",
    "--head",
    "--least",
    "--align",
    "--trim",
    "--html",
    "--progress",
];

/// In how many characters a word may differ from the one that is meant.
const MOST_DIFFERENCES: usize = 2;

/// What is wrong with arguments that ask for nothing, in one line without its end: the first word that is
/// wrong, or what is wrong with all of them. The error says that memory ran out.
pub fn complaint(alloc: Global, words: &[String]) -> Result<String, AllocError> {
    let plain = Side::Names.pick(alloc, words)?;
    let options = Side::Options.pick(alloc, words)?;
    let command = match plain.first() {
        Some(word) => word.as_str(),
        None => return String::from_str(alloc, "no command: 'tablelayout help' lists them"),
    };
    if !COMMANDS.contains(&command) {
        return unknown(alloc, "command", command, COMMANDS);
    }
    if command == BATCH {
        return format!(in alloc; "command '{command}' takes no other words");
    }
    if let Some(text) = about_options(alloc, command, options.as_slice())? {
        return Ok(text);
    }
    about_names(alloc, command, plain.get(1), options.as_slice())
}

/// The first of the options that is wrong, if one is.
fn about_options(
    alloc: Global,
    command: &str,
    options: &[String],
) -> Result<Option<String>, AllocError> {
    let mut rest = options;
    while let Some((option, _)) = rest.split_first() {
        let option = option.as_str();
        if !OPTIONS.contains(&option) {
            return Ok(Some(unknown(alloc, "option", option, OPTIONS)?));
        }
        let count = word_count(option);
        if rest.len() < count {
            return Ok(Some(format!(in alloc; "option '{option}' needs a value")?));
        }
        let (words, later) = rest.split_at(count);
        if !is_taken(alloc, command, words)? {
            return Ok(Some(not_taken(alloc, command, words)?));
        }
        rest = later;
    }
    Ok(None)
}

/// How many words the option is: one, or two with its value.
fn word_count(option: &str) -> usize
    ensures some { 1 ≤ result }
    ensures few { result ≤ 2 }
{
    match Role::Plain.after(option) {
        Role::Valued => 2,
        _ => 1,
    }
}

/// What is wrong where each option alone is right: the number, the options together, or the names.
fn about_names(
    alloc: Global,
    command: &str,
    number: Option<&String>,
    options: &[String],
) -> Result<String, AllocError> {
    let number = match number {
        Some(number) => number.as_str(),
        None => return format!(in alloc; "command '{command}' needs a number"),
    };
    if !asks(alloc, &[command, number, "a", "b"], &[])? && !asks(alloc, &[command, number], &[])? {
        return format!(in alloc; "command '{command}' does not take the number '{number}'");
    }
    if !asks(alloc, &[command, "1", "a", "b"], options)? && !options.is_empty() {
        return String::from_str(
            alloc,
            "an option is given twice, or '--head' or '--least' without '--csv'",
        );
    }
    format!(in alloc;
        "command '{command}' does not take so many names, or one is empty, or two are the same"
    )
}

/// Whether the command takes an option, alone or with `--csv`.
fn is_taken(alloc: Global, command: &str, option: &[String]) -> Result<bool, AllocError> {
    Ok(
        asks(alloc, &[command, "1", "a", "b"], option)?
            || asks(alloc, &[command, "1", "a", "b", "--csv"], option)?,
    )
}

/// Whether the words and the options after them ask for something.
fn asks(alloc: Global, first: &[&str], options: &[String]) -> Result<bool, AllocError> {
    let mut words = Vec::new(alloc);
    for word in first {
        words.push(String::from_str(alloc, word)?)?;
    }
    for word in options {
        words.push(String::from_str(alloc, word.as_str())?)?;
    }
    Ok(Ask::parse(words.as_slice()).is_some())
}

/// That the command does not take an option, or no command takes this value of it.
fn not_taken(alloc: Global, command: &str, option: &[String]) -> Result<String, AllocError> {
    let is_right = is_taken(alloc, "lay", option)?;
    match option {
        [name, value] if !is_right => {
            format!(in alloc; "option '{name}' does not take '{value}'")
        }
        [name, ..] => format!(in alloc; "command '{command}' does not take '{name}'"),
        [] => format!(in alloc; "command '{command}' takes no options"),
    }
}

/// That there is no command or option of this name, and which is nearest to it.
fn unknown(
    alloc: Global,
    what: &str,
    word: &str,
    names: &[&'static str],
) -> Result<String, AllocError> {
    match nearest(word, names) {
        Some(name) => format!(in alloc; "unknown {what} '{word}': did you mean '{name}'?"),
        None => format!(in alloc; "unknown {what} '{word}'"),
    }
}

/// The first of the names that differ least from the word, if it is near enough.
fn nearest(word: &str, names: &[&'static str]) -> Option<&'static str> {
    let mut found = None;
    let mut least = MOST_DIFFERENCES + 1;
    for name in names {
        let differences = differences(word.as_bytes(), name.as_bytes());
        if differences < least {
            least = differences;
            found = Some(*name);
        }
    }
    found
}

/// How long the longer of the two is between what both begin with and what both end with.
fn differences(one: &[u8], other: &[u8]) -> usize
    ensures { result ≤ length one.now + length other.now }
{
    let front = one.iter().zip(other).take_while(|(x, y)| x == y).count();
    let one = one.get(front..).unwrap_or(&[]);
    let other = other.get(front..).unwrap_or(&[]);
    let back = one
        .iter()
        .rev()
        .zip(other.iter().rev())
        .take_while(|(x, y)| x == y)
        .count();
    one.len().max(other.len()).saturating_sub(back)
}
