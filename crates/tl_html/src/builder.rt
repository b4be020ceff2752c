//! A text that grows at its end.

ghost use Rattle.std.specs.Prelude.{◌≡◌, ◌++◌, [], ◌∷◌, OnOk, true, decimal};
ghost use Rattle.std.specs.Str.{chars, encode_utf8_all, IsUtf8};
ghost use Rattle.tl_base.specs.Text.{is_ascii};

use std::alloc::{AllocError, Global};
use std::marker::Model;
use tl_base::{List, Text};

/// A text that grows at its end. Contracts see it as its characters.
#[derive(Drop)]
pub(crate) struct TextBuilder {
    string: String,
}

impl Model for TextBuilder {
    ghost use Rattle.std.specs.Prelude.{List, ℕ, string_bytes};
    ghost use Rattle.std.specs.Str.{chars};
    ghost use Rattle.std.specs.Coded.{coded_list, coded_ℕ};

    ghost Value = { List ℕ };

    ghost coded = { coded_list coded_ℕ };

    ghost view = { λ text. chars (string_bytes text.string) };
}

impl TextBuilder {
    /// A text without a character.
    pub(crate) fn new(alloc: Global) -> TextBuilder
        ensures { result ≡ [] }
    {
        TextBuilder {
            string: String::new(alloc),
        }
    }

    /// Appends a text.
    pub(crate) fn push_str(&mut self, text: &str) -> Result<(), AllocError>
        ensures { OnOk result (self.new ≡ self.old ++ chars text.now) }
    {
        self.string.push_str(text)?;
        Ok(())
    }

    /// Appends ASCII characters.
    pub(crate) fn push_ascii(&mut self, text: &str) -> Result<(), AllocError>
        requires { is_ascii text.now ≡ true }
        ensures { OnOk result (self.new ≡ self.old ++ text.now) }
    {
        self.push_str(text)
    }

    /// Appends a character.
    pub(crate) fn push(&mut self, character: char) -> Result<(), AllocError>
        ensures { OnOk result (self.new ≡ self.old ++ character ∷ []) }
    {
        self.string.push(character)?;
        Ok(())
    }

    /// Appends the decimal of a number.
    pub(crate) fn push_number(&mut self, alloc: Global, number: u32) -> Result<(), AllocError>
        ensures { OnOk result (self.new ≡ self.old ++ decimal number) }
    {
        let digits = format!(in alloc; "{number}")?;
        self.push_str(digits.as_str())
    }

    /// The text, in its memory.
    pub(crate) fn into_text(self) -> Text
        ensures { result ≡ self }
    {
        Text::from_string(self.string)
    }

    /// The text in UTF-8, in its memory.
    pub(crate) fn into_bytes(self) -> List<u8>
        ensures bytes { result ≡ encode_utf8_all self }
        ensures utf8 { IsUtf8 result }
        ensures characters { chars result ≡ self }
    {
        List::from_vec(self.string.into_bytes())
    }
}
