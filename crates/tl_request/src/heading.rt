//! The line of a request: the command line that it stands for, and how many bytes its files have.

ghost use Rattle.std.specs.Prelude.{◌≡◌, ◌≢◌, ◌<◌, ◌^◌, ◌∷◌, ◌++◌, [], ℕ, IfNone, IfOk, IfSome, List, bytes_eq, decimal, length, map, option_map, string_bytes};
ghost use Rattle.std.specs.List.{All};
ghost use Rattle.std.specs.Str.{IsUtf8};
ghost use Rattle.tl_request.specs.Requests.{is_check, words_in};
ghost use Rattle.tl_request.specs.inner.Headings.{IsNotSplit, IsSplit, IsSplitAs, words_left};

use crate::names::{command_line, count_of_names};
use std::alloc::{AllocError, Global};
use tl_command::number_within;

/// What the line of a request stands for.
#[derive(Drop)]
pub struct Heading {
    /// The words of a command line.
    pub words: Vec<String>,
    /// How many of them are names, in the places of those that a request does not have.
    pub names: usize,
    /// How many bytes the file has.
    pub file: u32,
    /// How many bytes the certificate has that is checked, and 0 where none is.
    pub text: u32,
}

/// What the line stands for, whether or not a command takes it; none where it does not end with numbers of bytes.
pub fn read_heading(alloc: Global, line: &[u8]) -> Result<Option<Heading>, AllocError>
    ensures some { IfOk result (λ found. IfSome found (λ heading. IsSplitAs line.now (map string_bytes heading.words.items)
        heading.names heading.file heading.text)) }
    ensures none { IfOk result (λ found. IfNone found (IsNotSplit line.now)) }
{
    let Some(words) = words_in(alloc, line)? else {
        return Ok(None);
    };
    let Some((own, file, text)) = split_sizes(words.as_slice()) else {
        return Ok(None);
    };
    let names = count_of_names(own);
    let words = command_line(alloc, own)?;
    Ok(Some(Heading {
        words,
        names,
        file,
        text,
    }))
}

/// The words of a line, with a space between each two; none where one of them is not UTF-8.
fn words_in(alloc: Global, line: &[u8]) -> Result<Option<Vec<String>>, AllocError>
    ensures some { IfOk result (λ found. IfSome found (λ words. map string_bytes words.items ≡ words_in line.now)) }
    ensures none { IfOk result (λ found. IfNone found (All IsUtf8 (words_in line.now) → ⊥)) }
{
    let mut words = Vec::new(alloc);
    let mut rest = Some(line);
    while let Some(bytes) = rest {
        let (word, later) = first_word(bytes);
        let Ok(word) = str::from_utf8(word) else {
            return Ok(None);
        };
        words.push(String::from_str(alloc, word)?)?;
        rest = later;
    }
    Ok(Some(words))
}

/// The bytes before the first space, and those after it; all where there is none.
fn first_word(bytes: &[u8]) -> (&[u8], Option<&[u8]>)
    ensures first { words_in bytes.now ≡ result.0.now ∷ words_left (option_map (λ it. it.now) result.1) }
    ensures shorter { IfSome result.1 (λ later. length later.now < length bytes.now) }
{
    match bytes.iter().position(|&byte| byte == b' ') {
        Some(at) => (&bytes[..at], Some(&bytes[at + 1..])),
        None => (bytes, None),
    }
}

/// The words before the numbers of bytes, and those numbers.
fn split_sizes(words: &[String]) -> Option<(&[String], u32, u32)>
    ensures some { IfSome result (λ parts. IsSplit (map string_bytes words.now) (map string_bytes parts.0.now) parts.1 parts.2) }
    ensures none { IfNone result ((own : List (List ℕ)) (file text : ℕ) → IsSplit (map string_bytes words.now) own file text → ⊥) }
{
    if is_check(words) {
        let (more, text) = last_size(words)?;
        let (own, file) = last_size(more)?;
        return Some((own, file, text));
    }
    let (own, file) = last_size(words)?;
    Some((own, file, 0))
}

/// Whether the first word is that of a check.
fn is_check(words: &[String]) -> bool
    ensures { result ≡ is_check (map string_bytes words.now) }
{
    match words.first() {
        Some(word) => is_same(word.as_str(), "check"),
        None => false,
    }
}

/// Whether the words are the same.
fn is_same(one: &str, other: &str) -> bool
    ensures { result ≡ bytes_eq one.now other.now }
{
    one == other
}

/// The words before the last, which is a number of bytes, and this number.
fn last_size(words: &[String]) -> Option<(&[String], u32)>
    ensures some { IfSome result (λ parts. map string_bytes words.now ≡ map string_bytes parts.0.now ++ decimal parts.1 ∷ []) }
    ensures none { IfNone result ((own : List (List ℕ)) (size : ℕ) → size < 2 ^ 32
        → map string_bytes words.now ≢ own ++ decimal size ∷ []) }
{
    let (last, own) = words.split_last()?;
    let size = number_within(last.as_str(), 0, u32::MAX)?;
    Some((own, size))
}
