//! Weightings, by which the shared bound of a set of widths is found.
use tl_base::List;

/// The greatest divisor. It keeps each sum of weighted lines within 64 bits.
pub const MAX_DIVISOR: u32 = 4096;

/// The most that a span may pay for a column of room. It keeps each sum of such payments within 64 bits.
pub const MAX_MULTIPLIER: u32 = 16_777_216;

/// Weights for the cells of a problem, so that those of the cells over a row sum to at most the divisor, and for each
/// span of several columns what it pays for a column of room.
#[derive(Debug, Drop)]
pub struct Weighting {
    /// From 1 to [`MAX_DIVISOR`].
    pub divisor: u32,
    /// The weight of each cell, in the order of the cells.
    pub weights: List<u32>,
    /// The multiplier of each span, in the order of the spans: 0 for a span of one column.
    pub multipliers: List<u32>,
}
