//! The tags of a file, with the numbers and the side of their attributes.

ghost use Rattle.std.specs.Prelude.{◌≡◌, ◌≤◌, IsTrue, false, length, chars, List, [], Err, IfOk};
ghost use Rattle.tl_token.specs.Characters.{◌∈◌, begins, is_space, is_name_character};
ghost use Rattle.tl_token.specs.Elements.{Attribute, is_lowercase};
ghost use Rattle.tl_token.specs.inner.States.{tag_open, in_name, before_value, in_quotes, read, named_attribute};
ghost use Rattle.tl_token.specs.inner.Reading.{tag_found};
ghost use Rattle.tl_token.specs.inner.Reader.{unread};
ghost use Rattle.tl_token.specs.inner.Found.{found_of, attribute_number_after, attribute_side_after, stop, ReadsValue};
ghost use Rattle.tl_token.specs.inner.Found.{ReadsAttributes};

use crate::elements::is_word;
use crate::number::{columns, floor, read_number, rows};
use crate::piece::{Fault, Piece};
use crate::reader::{Class, Reader};
use crate::side::side_named;
use crate::token::{Element, Spans};
use tl_sides::Side;

/// The numbers and the side of a tag's attributes. Of each name the first attribute counts: `None` where
/// there is none, and `Some(None)` where it has no number or names no side.
#[derive(Clone, Copy)]
pub(crate) struct Given {
    colspan: Option<Option<u32>>,
    rowspan: Option<Option<u32>>,
    span: Option<Option<u32>>,
    least: Option<Option<u32>>,
    align: Option<Option<Side>>,
}

/// The number of the first attribute of a name, with one more attribute.
fn first_number(
    known: Option<Option<u32>>,
    word: &str,
    name: &str,
    value: &str,
) -> Option<Option<u32>>
    requires { IsTrue (is_lowercase word.now) }
    ensures { result ≡ attribute_number_after known word.now (named_attribute (chars name.now) (chars value.now)) }
{
    if known.is_some() || !is_word(name, word) {
        known
    } else {
        Some(read_number(value))
    }
}

/// The side of the first attribute `align`, with one more attribute.
fn first_side(known: Option<Option<Side>>, name: &str, value: &str) -> Option<Option<Side>>
    ensures { result ≡ attribute_side_after known (named_attribute (chars name.now) (chars value.now)) }
{
    if known.is_some() || !is_word(name, "align") {
        known
    } else {
        Some(side_named(value))
    }
}

impl Given {
    ghost use Rattle.tl_token.specs.Elements.{cell_spans, span_numbers};
    ghost use Rattle.tl_token.specs.inner.Found.{given_of, given_after};

    fn none() -> Given
        ensures { result ≡ given_of [] }
    {
        Given {
            colspan: None,
            rowspan: None,
            span: None,
            least: None,
            align: None,
        }
    }

    /// Takes one more attribute.
    fn add(&mut self, name: &str, value: &str)
        ensures { self.new ≡ given_after self.old (named_attribute (chars name.now) (chars value.now)) }
    {
        self.colspan = first_number(self.colspan, "colspan", name, value);
        self.rowspan = first_number(self.rowspan, "rowspan", name, value);
        self.span = first_number(self.span, "span", name, value);
        self.least = first_number(self.least, "data-min", name, value);
        self.align = first_side(self.align, name, value);
    }

    /// The numbers and the side of a cell.
    fn cell_spans(&self) -> Spans
        ensures { (all : List Attribute) → self.now ≡ given_of all → result ≡ cell_spans all }
    {
        Spans {
            colspan: columns(self.colspan.unwrap_or(None)),
            rowspan: rows(self.rowspan.unwrap_or(None)),
            span: 1,
            least: floor(self.least.unwrap_or(None)),
            align: self.align.unwrap_or(None),
        }
    }

    /// The numbers and the side that count for the element.
    fn spans(&self, element: Element) -> Spans
        ensures { (all : List Attribute) → self.now ≡ given_of all → result ≡ span_numbers element all }
    {
        match element {
            Element::Td | Element::Th => self.cell_spans(),
            Element::Col | Element::Colgroup => Spans {
                colspan: 1,
                rowspan: 1,
                span: columns(self.span.unwrap_or(None)),
                least: 0,
                align: None,
            },
            _ => Spans {
                colspan: 1,
                rowspan: 1,
                span: 1,
                least: 0,
                align: None,
            },
        }
    }
}

impl<'a> Reader<'a> {
    /// What is wrong with a tag that cannot go on here.
    pub(crate) fn tag_fault(&self) -> Fault
        ensures { tag_found (stop (unread self.now)) ≡ found_of (Err result) (unread self.now) }
    {
        if self.peek().is_none() {
            Fault::UnendedTag
        } else {
            Fault::BadTag
        }
    }

    /// Reads the value of an attribute after its name. It is empty where there is none.
    fn value(&mut self) -> Result<&'a str, Fault>
        requires { begins is_name_character (unread self.old) ≡ false }
        ensures value { ReadsValue in_name (λ v. chars v.now) result
            (unread self.old) (unread self.new) }
        ensures no_longer { IfOk result (λ _. length (unread self.new) ≤ length (unread self.old)) }
    {
        self.run(Class::Space);
        if self.eat('=') {
            self.run(Class::Space);
            self.given_value()
        } else {
            Ok("")
        }
    }

    /// Reads the value of an attribute after its `=`.
    fn given_value(&mut self) -> Result<&'a str, Fault>
        requires { begins is_space (unread self.old) ≡ false }
        ensures value { ReadsValue before_value (λ v. chars v.now) result
            (unread self.old) (unread self.new) }
        ensures no_longer { IfOk result (λ _. length (unread self.new) ≤ length (unread self.old)) }
    {
        if self.eat('"') {
            self.quoted('"')
        } else if self.eat('\'') {
            self.quoted('\'')
        } else {
            self.unquoted()
        }
    }

    /// Reads a value in quotes after the first quote.
    fn quoted(&mut self, quote: char) -> Result<&'a str, Fault>
        ensures value { ReadsValue (λ t n. in_quotes t n quote []) (λ v. chars v.now) result
            (unread self.old) (unread self.new) }
        ensures no_longer { IfOk result (λ _. length (unread self.new) ≤ length (unread self.old)) }
    {
        let value = self.run(Class::Not(quote));
        if self.eat(quote) {
            Ok(value)
        } else {
            Err(Fault::UnendedTag)
        }
    }

    /// Reads a value without quotes.
    fn unquoted(&mut self) -> Result<&'a str, Fault>
        requires space { begins is_space (unread self.old) ≡ false }
        requires quote { begins (λ c. c ∈ "\"'") (unread self.old) ≡ false }
        ensures value { ReadsValue before_value (λ v. chars v.now) result
            (unread self.old) (unread self.new) }
        ensures no_longer { IfOk result (λ _. length (unread self.new) ≤ length (unread self.old)) }
    {
        let is_value = self.is_at(Class::Value);
        let value = self.run(Class::Value);
        if is_value && self.is_at(Class::ValueEnd) {
            Ok(value)
        } else {
            Err(self.tag_fault())
        }
    }

    /// Reads the attributes up to and with the `>`, and gives what they ask for.
    fn attributes(&mut self) -> Result<Given, Fault>
        ensures { ReadsAttributes result (unread self.old) (unread self.new) }
    {
        let mut given = Given::none();
        self.run(Class::Gap);
        while self.is_at(Class::Name) {
            let name = self.run(Class::Name);
            let value = self.value()?;
            given.add(name, value);
            self.run(Class::Gap);
        }
        if self.eat('>') {
            Ok(given)
        } else {
            Err(self.tag_fault())
        }
    }

    /// Reads a tag after its `<`.
    pub(crate) fn tag(&mut self) -> Result<Piece, Fault>
        ensures { found_of result (unread self.new) ≡ tag_found (read tag_open (unread self.old)) }
    {
        let is_end = self.eat('/');
        if !self.is_at(Class::Letter) {
            return Err(self.tag_fault());
        }
        let name = self.run(Class::Alphanumeric);
        if !self.is_at(Class::TagNameEnd) {
            return Err(self.tag_fault());
        }
        let given = self.attributes()?;
        let Some(element) = Element::named(name) else {
            return Err(Fault::UnknownElement);
        };
        Ok(if is_end {
            Piece::End(element)
        } else {
            Piece::Start(element, given.spans(element))
        })
    }
}
