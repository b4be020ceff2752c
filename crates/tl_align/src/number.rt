//! Numbers as people write them: a character at a time.

ghost use Rattle.std.specs.Prelude.{◌≡◌, ◌↔◌, IsTrue};
ghost use Rattle.std.specs.Str.{chars};
ghost use Rattle.tl_align.specs.Numbers as spec;
ghost use Rattle.tl_align.specs.Numbers.{IsNumber};

use tl_text::Atom;

/// What a character is in a number.
#[derive(Clone, Copy)]
enum Class {
    /// A digit of ASCII.
    Digit,
    /// `-` or `+`.
    Sign,
    /// `$`, `¢`, `£`, `¥` or `€`.
    Currency,
    /// `.`, `,`, `'` or `_`.
    Separator,
    /// `%`.
    Percent,
    /// `e` or `E`, with which an exponent begins.
    Letter,
    /// Any other.
    Other,
}

/// How far a number was read.
#[derive(Clone, Copy)]
enum Reading {
    /// Nothing was read.
    Start,
    /// A sign or the mark of a currency.
    Marked,
    /// Up to a digit before the tail.
    InDigits,
    /// Up to a separator.
    AfterSeparator,
    /// Up to the `%`.
    AfterPercent,
    /// Up to the letter of an exponent.
    AfterLetter,
    /// Up to the sign of an exponent.
    AfterSign,
    /// Up to a digit of an exponent.
    InPower,
    /// What was read begins no number.
    Failed,
}

/// What the character is in a number.
fn class_of(c: char) -> Class
    ensures { result ≡ spec.class_of c }
{
    match c {
        '0'..='9' => Class::Digit,
        '-' | '+' => Class::Sign,
        '$' | '¢' | '£' | '¥' | '€' => Class::Currency,
        '.' | ',' | '\'' | '_' => Class::Separator,
        '%' => Class::Percent,
        'e' | 'E' => Class::Letter,
        _ => Class::Other,
    }
}

impl Reading {
    /// How far it was read with one character more.
    fn after(self, class: Class) -> Reading
        ensures { result ≡ spec.after self class }
    {
        match (self, class) {
            (Reading::Start, Class::Sign | Class::Currency) => Reading::Marked,
            (Reading::Start | Reading::Marked, Class::Digit) => Reading::InDigits,
            (Reading::InDigits | Reading::AfterSeparator, Class::Digit) => Reading::InDigits,
            (Reading::InDigits, Class::Separator) => Reading::AfterSeparator,
            (Reading::InDigits, Class::Percent) => Reading::AfterPercent,
            (Reading::InDigits, Class::Letter) => Reading::AfterLetter,
            (Reading::AfterLetter, Class::Sign) => Reading::AfterSign,
            (Reading::AfterLetter | Reading::AfterSign, Class::Digit) => Reading::InPower,
            (Reading::InPower, Class::Digit) => Reading::InPower,
            _ => Reading::Failed,
        }
    }

    /// Whether it may end here.
    fn is_whole(self) -> bool
        ensures { result ≡ spec.is_whole self }
    {
        matches!(
            self,
            Reading::InDigits | Reading::AfterPercent | Reading::InPower
        )
    }

    /// How far it was read with this text more.
    fn through(self, text: &str) -> Reading
        ensures { result ≡ spec.through self (chars text.now) }
    {
        text.chars()
            .fold(self, |reading, c| reading.after(class_of(c)))
    }
}

/// Whether the text is a number: at most one of `-`, `+`, `$`, `¢`, `£`, `¥` and `€`, then digits with
/// single separators `.`, `,`, `'` or `_` between two of them, then at most a `%` or an exponent.
pub fn is_number(text: &str) -> bool
    ensures test { result ≡ spec.is_number (chars text.now) }
    ensures grammar { IsTrue result ↔ IsNumber (chars text.now) }
{
    Reading::Start.through(text).is_whole()
}

/// Whether the units are those of one word alone, which is a number.
pub(crate) fn is_number_word(units: &[Atom]) -> bool
    ensures { result ≡ spec.is_number_word units.now }
{
    let [Atom::Word(begun), others @ ..] = units else {
        return false;
    };
    let mut reading = Reading::Start.through(begun.as_str());
    for other in others {
        let Atom::Glue(text) = other else {
            return false;
        };
        reading = reading.through(text.as_str());
    }
    reading.is_whole()
}
