//! Numbers as they are written in attributes and references.

ghost use Rattle.std.specs.Prelude.{◌≡◌, ◌≤◌, min, chars};
ghost use Rattle.std.specs.Option.{option_map};
ghost use Rattle.std.specs.Char.{digit_value};
ghost use Rattle.tl_token.specs.Numbers.{number, unsigned, signed_number, number_of, columns_spanned, rows_spanned, floor_of};
ghost use Rattle.tl_token.specs.Characters.{◌∈◌, begins};
ghost use Rattle.tl_token.specs.inner.Reader.{unread};

use crate::reader::{Class, Reader};
use tl_base::{MAX_COLSPAN, MAX_PAGE_WIDTH, MAX_ROWSPAN};

/// The value of a digit or a letter, and 36 for any other character.
fn digit_value(c: char) -> u32
    ensures { result ≡ digit_value c }
{
    c.to_digit(36).unwrap_or(36)
}

/// The number that the digits stand for in the base, and `u32::MAX` for each number above that.
pub(crate) fn number(base: u32, digits: &str) -> u32
    requires { 1 ≤ base }
    ensures { result ≡ min (number base (chars digits.now)) 4294967295 }
{
    let mut number: u32 = 0;
    let mut digits = Reader::new(digits);
    while let Some(digit) = digits.next() {
        number = number
            .saturating_mul(base)
            .saturating_add(digit_value(digit));
    }
    number
}

/// Passes a sign, if there is one, and returns whether it is a `-`.
fn pass_sign(text: &mut Reader<'_>) -> bool
    ensures negative { result ≡ begins (λ c. c ∈ "-") (unread text.old) }
    ensures passed { unread text.new ≡ unsigned (unread text.old) }
{
    let is_negative = text.is_at(Class::Is('-'));
    if text.is_at(Class::Sign) {
        text.pass();
    }
    is_negative
}

/// The number of the digits after a sign, if there is one and it is not below 0.
fn signed_number(is_negative: bool, digits: &str) -> Option<u32>
    ensures { result
        ≡ option_map (λ n. min n 4294967295) (signed_number is_negative (chars digits.now)) }
{
    if digits.is_empty() {
        return None;
    }
    let number = number(10, digits);
    if is_negative && number > 0 {
        None
    } else {
        Some(number)
    }
}

/// The number that a value begins with, by the rules of the HTML Standard for non-negative
/// integers, and `u32::MAX` for each number above that.
pub(crate) fn read_number(value: &str) -> Option<u32>
    ensures { result ≡ option_map (λ n. min n 4294967295) (number_of (chars value.now)) }
{
    let mut value = Reader::new(value);
    value.run(Class::Space);
    let is_negative = pass_sign(&mut value);
    signed_number(is_negative, value.run(Class::Digit))
}

/// The columns that a span attribute gives, of the number in it.
pub(crate) fn columns(number: Option<u32>) -> u32
    ensures { result ≡ columns_spanned number }
{
    match number {
        Some(columns) => columns.clamp(1, MAX_COLSPAN),
        None => 1,
    }
}

/// The rows that `rowspan` gives. 0: the cell grows downward.
pub(crate) fn rows(number: Option<u32>) -> u32
    ensures { result ≡ rows_spanned number }
{
    match number {
        Some(rows) => rows.min(MAX_ROWSPAN),
        None => 1,
    }
}

/// The columns of text that `data-min` gives.
pub(crate) fn floor(number: Option<u32>) -> u32
    ensures { result ≡ floor_of number }
{
    match number {
        Some(floor) => floor.min(MAX_PAGE_WIDTH),
        None => 0,
    }
}
