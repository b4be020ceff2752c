//! What may stand at a place of the file, and what may be wrong there.

use crate::token::{Element, Spans};

/// What stands at a place.
#[derive(Drop)]
pub(crate) enum Piece {
    /// A comment or a doctype.
    Hidden,
    /// The start tag of a known element.
    Start(Element, Spans),
    /// The end tag of a known element.
    End(Element),
    /// A character of text, as it is or by a reference.
    Character(char),
}

/// What stands where no piece does.
#[derive(Clone, Copy)]
pub(crate) enum Fault {
    UnendedTag,
    UnendedComment,
    BadTag,
    UnknownElement,
    BadReference,
    BadCharacter,
}
