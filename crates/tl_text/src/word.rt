//! The words of a text, and how wide a word is.

ghost use Rattle.std.specs.Prelude.{◌≡◌, ◌*◌, ◌≤◌, [], ◌∷◌, ◌++◌, filter, string_bytes, IfOk, OnOk};
ghost use Rattle.std.specs.Str.{chars};
ghost use Rattle.tl_base.specs.Text.{byte_count};
ghost use Rattle.tl_text.specs.Words.{words_of, has_character, width_of};

use std::alloc::{AllocError, Global};
use tl_base::{List, MAX_FILE_BYTES, Text};
use unicode_width::UnicodeWidthStr;

/// The words of `text`, in order: the maximal runs of characters that are not ASCII white space
/// (tab, line feed, form feed, carriage return and space). No other character separates words,
/// so a no-break space (U+00A0) is a word's own character.
pub fn words(alloc: Global, text: &str) -> Result<List<Text>, AllocError>
    ensures { IfOk result (λ list. list ≡ words_of (chars text.now)) }
{
    let mut list = List::new(alloc);
    let mut word = String::new(alloc);
    for c in text.chars() {
        if c.is_ascii_whitespace() {
            push_word(&mut list, word)?;
            word = String::new(alloc);
        } else {
            word.push(c)?;
        }
    }
    push_word(&mut list, word)?;
    Ok(list)
}

/// Puts the word at the end, in its memory, if it has a character.
pub(crate) fn push_word(list: &mut List<Text>, word: String) -> Result<(), AllocError>
    ensures { OnOk result
        (list.new ≡ list.old ++ filter has_character (chars (string_bytes word) ∷ [])) }
{
    if !word.is_empty() {
        list.push(Text::from_string(word))?;
    }
    Ok(())
}

/// How many columns of a terminal the word takes, by the crate `unicode_width`: at most two for
/// each of its bytes.
pub fn word_width(word: &Text) -> u32
    requires { byte_count word.now ≤ MAX_FILE_BYTES }
    ensures width { result ≡ width_of word.now }
    ensures bound { result ≤ 2 * MAX_FILE_BYTES }
    ensures bytes { result ≤ 2 * byte_count word.now }
{
    word.as_str().width() as u32
}
