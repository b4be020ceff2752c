//! Comments and doctypes, and what a `<` opens.

ghost use Rattle.std.specs.Prelude.{◌≡◌, codes};
ghost use Rattle.tl_token.specs.Characters.{is_control, opens_markup};
ghost use Rattle.tl_token.specs.inner.Reading.{in_comment, doctype_word, declaration, angle, standing};
ghost use Rattle.tl_token.specs.inner.Reader.{unread};
ghost use Rattle.tl_token.specs.inner.Found.{found_of};

use crate::piece::{Fault, Piece};
use crate::reader::{Class, Reader};

/// Whether the character is a control character that no text has.
pub fn is_control(c: char) -> bool
    ensures { result ≡ is_control c }
{
    c < ' ' && !c.is_ascii_whitespace() || '\u{7f}' <= c && c <= '\u{9f}'
}

/// Whether a `<` before the character is more than text.
fn opens_markup(c: char) -> bool
    ensures { result ≡ opens_markup c }
{
    c.is_ascii_alphabetic() || matches!(c, '/' | '!' | '?')
}

impl<'a> Reader<'a> {
    /// Reads a comment after its `<!--`.
    fn comment(&mut self) -> Result<Piece, Fault>
        ensures { found_of result (unread self.new) ≡ in_comment (unread self.old) }
    {
        self.run(Class::Not('-'));
        while self.eat('-') {
            if self.eat('-') {
                self.run(Class::Is('-'));
                if self.eat('>') {
                    return Ok(Piece::Hidden);
                }
            }
            self.run(Class::Not('-'));
        }
        Err(Fault::UnendedComment)
    }

    /// Reads a doctype after its `<!`.
    fn doctype(&mut self) -> Result<Piece, Fault>
        ensures { found_of result (unread self.new)
            ≡ doctype_word (codes "doctype") (unread self.old) }
    {
        for letter in b"doctype" {
            match self.next() {
                None => return Err(Fault::UnendedTag),
                Some(c) if c.to_ascii_lowercase() == char::from(*letter) => {}
                Some(_) => return Err(Fault::BadTag),
            }
        }
        self.run(Class::Not('>'));
        if self.eat('>') {
            Ok(Piece::Hidden)
        } else {
            Err(Fault::UnendedTag)
        }
    }

    /// Reads a comment or a doctype after its `<!`.
    fn declaration(&mut self) -> Result<Piece, Fault>
        ensures { found_of result (unread self.new) ≡ declaration (unread self.old) }
    {
        if self.eat('-') {
            if self.eat('-') {
                self.comment()
            } else {
                Err(self.tag_fault())
            }
        } else {
            self.doctype()
        }
    }

    /// Reads what a `<` opens, after it.
    fn angle(&mut self) -> Result<Piece, Fault>
        ensures { found_of result (unread self.new) ≡ angle (unread self.old) }
    {
        match self.peek() {
            None => Err(Fault::UnendedTag),
            Some('!') => {
                self.pass();
                self.declaration()
            }
            Some(c) if opens_markup(c) => self.tag(),
            Some(_) => Ok(Piece::Character('<')),
        }
    }

    /// Reads what stands at a character, after it.
    pub(crate) fn piece(&mut self, first: char) -> Result<Piece, Fault>
        ensures { found_of result (unread self.new) ≡ standing first (unread self.old) }
    {
        match first {
            '<' => self.angle(),
            '&' => self.reference(),
            c if is_control(c) => Err(Fault::BadCharacter),
            c => Ok(Piece::Character(c)),
        }
    }
}
