//! References to characters.

ghost use Rattle.std.specs.Prelude.{◌≡◌, Some, None, chars};
ghost use Rattle.tl_token.specs.Numbers.{number};
ghost use Rattle.tl_token.specs.Grammar.{named_character, numbered_character, ended_run, referred, numeric_reference, reference};
ghost use Rattle.tl_token.specs.inner.Reading.{referred_or};
ghost use Rattle.tl_token.specs.inner.Found.{found_of, Finds};

use crate::elements::is_exactly;
use crate::markup::is_control;
use crate::number::number;
use crate::piece::{Fault, Piece};
use crate::reader::{Class, Reader};

/// The character that a name stands for.
fn named_character(name: &str) -> Option<char>
    ensures { result ≡ named_character (chars name.now) }
{
    if is_exactly(name, "amp") {
        Some('&')
    } else if is_exactly(name, "lt") {
        Some('<')
    } else if is_exactly(name, "gt") {
        Some('>')
    } else if is_exactly(name, "quot") {
        Some('"')
    } else if is_exactly(name, "apos") {
        Some('\'')
    } else if is_exactly(name, "nbsp") {
        Some('\u{a0}')
    } else {
        None
    }
}

/// The character of a number, if text may have it.
fn numbered_character(number: u32) -> Option<char>
    ensures { result ≡ numbered_character number }
{
    match char::from_u32(number) {
        Some(c) if !is_control(c) => Some(c),
        _ => None,
    }
}

impl<'a> Reader<'a> {
    ghost use Rattle.tl_token.specs.inner.Reader.{unread, is_in};

    /// Reads a run of one or more characters of the class and the `;` after it.
    fn ended_run(&mut self, class: Class) -> Option<&'a str>
        ensures { Finds (λ text. chars text.now) result (unread self.new)
            (ended_run (is_in class) (unread self.old)) }
    {
        let has_some = self.is_at(class);
        let text = self.run(class);
        if has_some && self.eat(';') {
            Some(text)
        } else {
            None
        }
    }

    /// Reads a reference by a number after its `&#`: the character, if it stands for one.
    fn numeric_reference(&mut self) -> Option<Option<char>>
        ensures { Finds (λ c. c) result (unread self.new) (numeric_reference (unread self.old)) }
    {
        if self.is_at(Class::HexMark) {
            self.pass();
            let digits = self.ended_run(Class::HexDigit)?;
            Some(numbered_character(number(16, digits)))
        } else {
            let digits = self.ended_run(Class::Digit)?;
            Some(numbered_character(number(10, digits)))
        }
    }

    /// Reads a reference after its `&`: the character, if it stands for one.
    fn referred(&mut self) -> Option<Option<char>>
        ensures { Finds (λ c. c) result (unread self.new) (reference (unread self.old)) }
    {
        if self.eat('#') {
            self.numeric_reference()
        } else {
            let name = self.ended_run(Class::Alphanumeric)?;
            Some(named_character(name))
        }
    }

    /// Reads what stands at a `&`, after it.
    pub(crate) fn reference(&mut self) -> Result<Piece, Fault>
        ensures { found_of result (unread self.new)
            ≡ referred_or (unread self.old) (reference (unread self.old)) }
    {
        let mut ahead = *self;
        match ahead.referred() {
            None => Ok(Piece::Character('&')),
            Some(None) => Err(Fault::BadReference),
            Some(Some(c)) => {
                *self = ahead;
                Ok(Piece::Character(c))
            }
        }
    }
}
