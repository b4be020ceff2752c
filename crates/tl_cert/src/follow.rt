//! What may follow a number, by its place in the text.

ghost use Rattle.std.specs.Prelude.{◌≡◌, ◌==◌};
ghost use Rattle.tl_cert.specs.inner.CertReading as read;
ghost use Rattle.tl_cert.specs.inner.Follows as follow;
ghost use Rattle.tl_cert.specs.Text.{side_sign};

use crate::areas::Areas;
use crate::log::{Bound, Side};

/// What ends a number. Which numbers there may be depends on the place too where bounds stand in
/// order, and where so many log lines are announced that one has to end by `area`.
#[derive(Clone, Copy)]
pub(crate) enum Follow {
    /// This byte.
    Byte(u8),
    /// A line feed, or a space where another number may follow.
    Item(bool),
    /// A line feed, a space where another number may follow, or a colon.
    Entry(bool),
    /// `-` or `+`, in order after the bound before.
    Sign(Option<Bound>),
    /// A line feed, after the number of log lines.
    Count(Areas),
}

impl Follow {
    /// Whether the number may stand there.
    pub(crate) fn may_be(self, number: u32) -> bool
        ensures { result ≡ follow.may_be self number }
    {
        match self {
            Follow::Sign(before) => may_follow(before, number),
            Follow::Count(Areas::Owed) => number > 0,
            _ => true,
        }
    }

    /// Whether the byte may end the number there.
    pub(crate) fn may_end(self, number: u32, byte: u8) -> bool
        ensures { result ≡ follow.may_end self number byte }
    {
        match self {
            Follow::Byte(end) => byte == end,
            Follow::Item(more) => ends_item(more, byte),
            Follow::Entry(more) => byte == b':' || ends_item(more, byte),
            Follow::Sign(before) => is_sign(before, number, byte),
            Follow::Count(areas) => byte == b'\n' && Follow::Count(areas).may_be(number),
        }
    }
}

fn ends_item(more: bool, byte: u8) -> bool
    ensures { result ≡ read.ends_item more byte }
{
    byte == b'\n' || (more && byte == b' ')
}

/// Whether a bound of this span may follow.
fn may_follow(before: Option<Bound>, span: u32) -> bool
    ensures { result ≡ read.may_follow before span }
{
    match before {
        None => true,
        Some(bound) => bound.span < span || (bound.span == span && is_most(bound.side)),
    }
}

/// Whether the byte is the sign of a bound of this span that may follow.
fn is_sign(before: Option<Bound>, span: u32, byte: u8) -> bool
    ensures { result ≡ read.is_sign before span byte }
{
    let signs = byte == b'-' || byte == b'+';
    match before {
        None => signs,
        Some(bound) => {
            let same = bound.span == span && (is_most(bound.side) && byte == b'+');
            signs && (bound.span < span || same)
        }
    }
}

fn is_most(side: Side) -> bool
    ensures { result ≡ (side_sign side == 45) }
{
    matches!(side, Side::Most)
}
