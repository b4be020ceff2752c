//! A text from its start to its end, a character at a time. It knows no tags.

ghost use Rattle.std.specs.Prelude.{◌≡◌, false, drop, chars};
ghost use Rattle.std.specs.Str.{IsUtf8};
ghost use Rattle.tl_base.specs.Text.{byte_count};
ghost use Rattle.tl_token.specs.Characters.{first, begins, run, past, is_name_character, is_value_character};

/// What is left of a text.
#[derive(Clone, Copy)]
pub(crate) struct Reader<'a> {
    rest: &'a str,
    ghost text: { ∥ IsUtf8 rest.now ∥₁ },
}

/// What the characters of a run have in common.
#[derive(Clone, Copy)]
pub(crate) enum Class {
    Space,
    Alphanumeric,
    Digit,
    HexDigit,
    /// The name of an attribute.
    Name,
    /// A value without quotes.
    Value,
    Sign,
    /// A letter of ASCII.
    Letter,
    /// White space and `/`, which separate attributes.
    Gap,
    /// What makes a number hexadecimal.
    HexMark,
    /// What ends the name of a tag.
    TagNameEnd,
    /// What ends a value without quotes.
    ValueEnd,
    Is(char),
    Not(char),
}

fn is_name_character(c: char) -> bool
    ensures { result ≡ is_name_character c }
{
    !(c.is_ascii_whitespace() || matches!(c, '/' | '>' | '=' | '"' | '\'' | '<'))
}

fn is_value_character(c: char) -> bool
    ensures { result ≡ is_value_character c }
{
    !(c.is_ascii_whitespace() || matches!(c, '"' | '\'' | '=' | '<' | '>' | '`'))
}

impl Class {
    ghost use Rattle.tl_token.specs.inner.Reader.{is_in};

    pub(crate) fn contains(self, c: char) -> bool
        ensures { result ≡ is_in self c }
    {
        match self {
            Class::Space => c.is_ascii_whitespace(),
            Class::Alphanumeric => c.is_ascii_alphanumeric(),
            Class::Digit => c.is_ascii_digit(),
            Class::HexDigit => c.is_ascii_hexdigit(),
            Class::Name => is_name_character(c),
            Class::Value => is_value_character(c),
            Class::Letter => c.is_ascii_alphabetic(),
            Class::Gap => c.is_ascii_whitespace() || c == '/',
            Class::HexMark => matches!(c, 'x' | 'X'),
            Class::TagNameEnd => c.is_ascii_whitespace() || c == '/' || c == '>',
            Class::ValueEnd => c.is_ascii_whitespace() || c == '>',
            Class::Sign => matches!(c, '+' | '-'),
            Class::Is(other) => c == other,
            Class::Not(other) => c != other,
        }
    }
}

impl<'a> Reader<'a> {
    ghost use Rattle.tl_token.specs.inner.Reader.{unread, is_in, Eats, NextIs};

    pub(crate) fn new(text: &'a str) -> Reader<'a>
        ensures { unread result ≡ chars text.now }
    {
        Reader { rest: text }
    }

    /// The bytes that are left.
    pub(crate) fn len(&self) -> usize
        ensures { result ≡ byte_count (unread self.now) }
    {
        self.rest.len()
    }

    /// The next character, which is not passed.
    pub(crate) fn peek(&self) -> Option<char>
        ensures { result ≡ first (unread self.now) }
    {
        self.rest.chars().next()
    }

    /// Passes the next character.
    pub(crate) fn next(&mut self) -> Option<char>
        ensures { NextIs result (unread self.old) (unread self.new) }
    {
        let mut chars = self.rest.chars();
        let next = chars.next();
        self.rest = chars.as_str();
        next
    }

    /// Passes the next character, if there is one.
    pub(crate) fn pass(&mut self)
        ensures { unread self.new ≡ drop 1 (unread self.old) }
    {
        self.next();
    }

    /// Whether the next character is of the class.
    pub(crate) fn is_at(&self, class: Class) -> bool
        ensures { result ≡ begins (is_in class) (unread self.now) }
    {
        self.peek().is_some_and(|c| class.contains(c))
    }

    /// Passes the next character, if it is this one, and returns whether it was.
    pub(crate) fn eat(&mut self, c: char) -> bool
        ensures { Eats c result (unread self.old) (unread self.new) }
    {
        let found = self.is_at(Class::Is(c));
        if found {
            self.pass();
        }
        found
    }

    /// Passes the longest run of characters of the class, and lends it.
    pub(crate) fn run(&mut self, class: Class) -> &'a str
        ensures run { chars result.now ≡ run (is_in class) (unread self.old) }
        ensures ended { begins (is_in class) (unread self.new) ≡ false }
        ensures past { unread self.new ≡ past (is_in class) (unread self.old) }
    {
        let text = self.rest;
        while self.is_at(class) {
            self.next();
        }
        &text[..text.len() - self.rest.len()]
    }
}
