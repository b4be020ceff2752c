//! The elements that a table file may have, by their names, and the numbers of their start tags.

ghost use Rattle.std.specs.Prelude.{◌≡◌, IsTrue, chars, nat_eq};
ghost use lib.Pointwise.{pointwise};
ghost use Rattle.tl_token.specs.Elements.{is_word, is_lowercase, is_inline, is_outer, element_of};

use crate::token::Element;

/// Whether the name is the word, which is of lowercase ASCII letters and dashes, in any case.
pub(crate) fn is_word(name: &str, word: &str) -> bool
    requires { IsTrue (is_lowercase word.now) }
    ensures { result ≡ is_word (chars name.now) word.now }
{
    name.eq_ignore_ascii_case(word)
}

/// Whether the name is exactly the word.
pub(crate) fn is_exactly(name: &str, word: &str) -> bool
    requires { IsTrue (is_lowercase word.now) }
    ensures { result ≡ pointwise nat_eq (chars name.now) word.now }
{
    name == word
}

fn is_inline(name: &str) -> bool
    ensures { result ≡ is_inline (chars name.now) }
{
    is_word(name, "a")
        || is_word(name, "abbr")
        || is_word(name, "b")
        || is_word(name, "cite")
        || is_word(name, "code")
        || is_word(name, "em")
        || is_word(name, "i")
        || is_word(name, "kbd")
        || is_word(name, "mark")
        || is_word(name, "s")
        || is_word(name, "samp")
        || is_word(name, "small")
        || is_word(name, "span")
        || is_word(name, "strong")
        || is_word(name, "sub")
        || is_word(name, "sup")
        || is_word(name, "u")
        || is_word(name, "var")
}

fn is_outer(name: &str) -> bool
    ensures { result ≡ is_outer (chars name.now) }
{
    is_word(name, "html") || is_word(name, "head") || is_word(name, "body") || is_word(name, "meta")
}

impl Element {
    /// The element of that name, in any case, if it may stand in a table file.
    pub(crate) fn named(name: &str) -> Option<Element>
        ensures { result ≡ element_of (chars name.now) }
    {
        if is_word(name, "table") {
            Some(Element::Table)
        } else if is_word(name, "caption") {
            Some(Element::Caption)
        } else if is_word(name, "colgroup") {
            Some(Element::Colgroup)
        } else if is_word(name, "col") {
            Some(Element::Col)
        } else if is_word(name, "thead") {
            Some(Element::Thead)
        } else if is_word(name, "tbody") {
            Some(Element::Tbody)
        } else if is_word(name, "tfoot") {
            Some(Element::Tfoot)
        } else if is_word(name, "tr") {
            Some(Element::Tr)
        } else if is_word(name, "td") {
            Some(Element::Td)
        } else if is_word(name, "th") {
            Some(Element::Th)
        } else if is_word(name, "br") {
            Some(Element::Br)
        } else if is_word(name, "p") {
            Some(Element::P)
        } else if is_word(name, "div") {
            Some(Element::Div)
        } else if is_inline(name) {
            Some(Element::Inline)
        } else if is_outer(name) {
            Some(Element::Outer)
        } else {
            None
        }
    }
}
