//! The characters that the lines of a table are drawn with, by the sides on which a line is drawn.

ghost use Rattle.std.specs.Prelude.{◌≡◌};
ghost use Rattle.tl_page.specs.Signs.{ascii_sign, double_sign, light_sign, sign};

use tl_base::Style;

/// The character of a place with lines on these sides, which may be on the line under the head.
pub fn sign_of(style: Style, under: bool, up: bool, down: bool, left: bool, right: bool) -> char
    ensures { result ≡ sign style under up down left right }
{
    match (style, under) {
        (Style::Plain | Style::Compact, _) | (Style::Rule | Style::Apart, false) => ' ',
        (Style::Rule | Style::Apart, true) => '-',
        (Style::Grid, true) => ascii_sign('=', up, down, left, right),
        (Style::Frame | Style::Grid, _) => ascii_sign('-', up, down, left, right),
        (Style::Box, false) => light_sign(up, down, left, right),
        (Style::Box, true) => double_sign(up, down, left, right),
    }
}

/// The character in lines of `|` and `+`, and of `rule` from left to right.
fn ascii_sign(rule: char, up: bool, down: bool, left: bool, right: bool) -> char
    ensures { result ≡ ascii_sign rule up down left right }
{
    match (up, down, left, right) {
        (true, true, false, false) => '|',
        (false, false, true, true) => rule,
        _ => '+',
    }
}

/// The character in light lines.
fn light_sign(up: bool, down: bool, left: bool, right: bool) -> char
    ensures { result ≡ light_sign up down left right }
{
    match (up, down, left, right) {
        (true, true, false, false) => '│',
        (false, false, true, true) => '─',
        (false, true, false, true) => '┌',
        (false, true, true, false) => '┐',
        (true, false, false, true) => '└',
        (true, false, true, false) => '┘',
        (true, true, false, true) => '├',
        (true, true, true, false) => '┤',
        (false, true, true, true) => '┬',
        (true, false, true, true) => '┴',
        (true, true, true, true) => '┼',
        _ => ' ',
    }
}

/// The character in light lines from top to bottom and double ones from left to right.
fn double_sign(up: bool, down: bool, left: bool, right: bool) -> char
    ensures { result ≡ double_sign up down left right }
{
    match (up, down, left, right) {
        (true, true, false, false) => '│',
        (false, false, true, true) => '═',
        (false, true, false, true) => '╒',
        (false, true, true, false) => '╕',
        (true, false, false, true) => '╘',
        (true, false, true, false) => '╛',
        (true, true, false, true) => '╞',
        (true, true, true, false) => '╡',
        (false, true, true, true) => '╤',
        (true, false, true, true) => '╧',
        (true, true, true, true) => '╪',
        _ => ' ',
    }
}
