//! Tokens, and why bytes are none.

use std::alloc::{AllocError, AllocFailed};
use thiserror::Error;
use tl_base::Text;
use tl_sides::Side;

/// An element that a table file may have.
#[derive(Clone, Copy, Debug, PartialEq, Eq)]
pub enum Element {
    Table,
    Caption,
    Colgroup,
    Col,
    Thead,
    Tbody,
    Tfoot,
    Tr,
    Td,
    Th,
    Br,
    P,
    Div,
    /// An element within a line of text, as `b` or `span`, which changes no layout.
    Inline,
    /// An element around the table: `html`, `head`, `body` or `meta`.
    Outer,
}

/// The numbers that a start tag gives, and the side that it asks for.
#[derive(Clone, Copy, Debug, PartialEq, Eq)]
pub struct Spans {
    /// The columns that a cell covers, 1 to `MAX_COLSPAN`.
    pub colspan: u32,
    /// The rows that a cell covers, up to `MAX_ROWSPAN`. 0: it grows downward to its group's end.
    pub rowspan: u32,
    /// The columns that a `col` or a `colgroup` stands for, 1 to `MAX_COLSPAN`.
    pub span: u32,
    /// The columns of text that a cell is wide at least, up to `MAX_PAGE_WIDTH`.
    pub least: u32,
    /// The side of its place that a cell asks for by its attribute `align`.
    pub align: Option<Side>,
}

/// What a token is.
#[derive(Debug, Drop)]
pub enum TokenKind {
    Start(Element, Spans),
    End(Element),
    /// The characters between two tags, with references replaced. Never empty.
    Text(Text),
}

/// A tag or a text, and the bytes of the file from `first` on and before `past` that spell it,
/// counted from 0.
#[derive(Debug, Drop)]
pub struct Token {
    pub kind: TokenKind,
    pub first: u32,
    pub past: u32,
}

/// Why bytes are no tokens. Each number is a byte of the file, counted from 0, at which the named
/// thing begins; before it stand whole tags, comments, doctypes and text (before that of `NotUtf8`,
/// UTF-8).
#[derive(Debug, Drop, Error)]
pub enum TokenError {
    /// Number 0: out of memory.
    #[error("out of memory")]
    Memory(AllocError),
    /// Number 1: the bytes are not UTF-8, and the longest prefix that is has as many as this.
    #[error("not utf-8 at {0}")]
    NotUtf8(u32),
    /// Number 2: the file ends inside a tag or a doctype.
    #[error("unended tag at {0}")]
    UnendedTag(u32),
    /// Number 3: the file ends inside a comment.
    #[error("unended comment at {0}")]
    UnendedComment(u32),
    /// Number 4: a `<` that opens markup, but no tag, comment or doctype.
    #[error("bad tag at {0}")]
    BadTag(u32),
    /// Number 5: a tag of an element that no table file has.
    #[error("unknown element at {0}")]
    UnknownElement(u32),
    /// Number 6: a reference to no character, or to one that no text has.
    #[error("bad reference at {0}")]
    BadReference(u32),
    /// Number 7: a control character in text.
    #[error("bad character at {0}")]
    BadCharacter(u32),
}

impl From<AllocError> for TokenError {
    ghost use Rattle.std.specs.Prelude.{◌≡◌};
    ghost use Rattle.tl_token.specs.declared.token.TokenError.TheVariants.{Memory};

    ghost from_gives = { λ error given. given ≡ Memory error };

    fn from(error: AllocError) -> TokenError {
        TokenError::Memory(error)
    }
}

impl<T: Drop> From<AllocFailed<T>> for TokenError {
    ghost use Rattle.std.specs.Prelude.{◌≡◌, alloc_error};
    ghost use Rattle.tl_token.specs.declared.token.TokenError.TheVariants.{Memory};

    ghost from_gives = { λ _ given. given ≡ Memory alloc_error };

    fn from(_: AllocFailed<T>) -> TokenError {
        TokenError::Memory(AllocError)
    }
}
