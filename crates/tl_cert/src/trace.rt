//! The cuts that a search made.

use tl_base::List;

/// One cut of a search. Zone 0 is the whole; cut `i`, counted from 0, makes the zones `2i + 1`, with
/// the classes up to `class`, and `2i + 2`, with those above it.
#[derive(Clone, Copy, Debug, PartialEq, Eq)]
pub struct CutAt {
    /// The number of the zone that is cut and stands no longer.
    pub zone: u32,
    /// The number of the column span whose classes are separated.
    pub span: u32,
    /// The last class of the span, counted from 0, in the lower part.
    pub class: u32,
}

/// The cuts of a search, in the order in which they were made.
pub type Trace = List<CutAt>;
