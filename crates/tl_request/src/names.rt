//! The command line that the words of a request stand for.

ghost use Rattle.std.specs.Prelude.{◌≡◌, IfOk, filter, map, not, string_bytes};
ghost use Rattle.std.specs.List.{list_any};
ghost use Rattle.tl_request.specs.Requests.{command_line, count_of_names, is_cert, names_for};

use std::alloc::{AllocError, Global};

/// The word that asks for certificates.
const CERT: &str = "--cert";

/// How many names stand in a command line: of the file that is read, and of the page.
const FEWEST_NAMES: usize = 2;

/// The command line that the words of a request stand for.
pub fn command_line(alloc: Global, words: &[String]) -> Result<Vec<String>, AllocError>
    ensures { IfOk result (λ line. map string_bytes line.items ≡ command_line (map string_bytes words.now)) }
{
    let [command, number, options @ ..] = words else {
        return copies(alloc, words);
    };
    let mut line = Vec::new(alloc);
    line.push(copy(alloc, command.as_str())?)?;
    line.push(copy(alloc, number.as_str())?)?;
    line.append(&mut names_for(alloc, options)?)?;
    line.append(&mut without_cert(alloc, options)?)?;
    Ok(line)
}

/// How many names stand in the command line of these words.
pub fn count_of_names(words: &[String]) -> usize
    ensures { result ≡ count_of_names (map string_bytes words.now) }
{
    let [_, _, options @ ..] = words else {
        return FEWEST_NAMES;
    };
    match want_cert(options) {
        true => FEWEST_NAMES + 1,
        false => FEWEST_NAMES,
    }
}

/// Names in the places of those that a request does not have.
fn names_for(alloc: Global, options: &[String]) -> Result<Vec<String>, AllocError>
    ensures { IfOk result (λ names. map string_bytes names.items ≡ names_for (map string_bytes options.now)) }
{
    let mut names = Vec::new(alloc);
    names.push(copy(alloc, "in")?)?;
    names.push(copy(alloc, "page")?)?;
    if want_cert(options) {
        names.push(copy(alloc, "cert")?)?;
    }
    Ok(names)
}

/// Whether one of the options asks for certificates.
fn want_cert(options: &[String]) -> bool
    ensures { result ≡ list_any is_cert (map string_bytes options.now) }
{
    let mut rest = options;
    while let Some((word, later)) = rest.split_first() {
        if is_cert(word.as_str()) {
            return true;
        }
        rest = later;
    }
    false
}

/// The options that a command has too.
fn without_cert(alloc: Global, options: &[String]) -> Result<Vec<String>, AllocError>
    ensures { IfOk result (λ kept. map string_bytes kept.items
        ≡ filter (λ word. not (is_cert word)) (map string_bytes options.now)) }
{
    let mut kept = Vec::new(alloc);
    let mut rest = options;
    while let Some((word, later)) = rest.split_first() {
        if !is_cert(word.as_str()) {
            kept.push(copy(alloc, word.as_str())?)?;
        }
        rest = later;
    }
    Ok(kept)
}

/// Whether the word asks for certificates.
fn is_cert(word: &str) -> bool
    ensures { result ≡ is_cert word.now }
{
    word == CERT
}

/// A copy of each word.
fn copies(alloc: Global, words: &[String]) -> Result<Vec<String>, AllocError>
    ensures { IfOk result (λ all. map string_bytes all.items ≡ map string_bytes words.now) }
{
    let mut all = Vec::new(alloc);
    let mut rest = words;
    while let Some((word, later)) = rest.split_first() {
        all.push(copy(alloc, word.as_str())?)?;
        rest = later;
    }
    Ok(all)
}

/// A copy of the word.
fn copy(alloc: Global, word: &str) -> Result<String, AllocError>
    ensures { IfOk result (λ made. string_bytes made ≡ word.now) }
{
    String::from_str(alloc, word)
}
