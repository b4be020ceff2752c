//! The problem that every search and the checker reason with: a grid of cells, each with the heights
//! that it needs at its widths, on a page of some width. It knows no text and no tables. Its one
//! contract: a zone's bound is the least total height by which no layout in the zone is lower.
#![tactic(auto)]

mod agreement;
mod area;
mod axis;
mod bound;
mod cell;
mod constraints;
mod demands;
mod laws;
mod placed;
mod placing;
mod problem;
mod sound;
mod spans;
mod weighting;
mod work;
mod zone;

pub use cell::{Cell, Span};
pub use laws::{
    area_bound_is_below_layouts, bound_is_below_layouts, bound_is_below_placements,
    cuts_are_partitions, one_class_is_exact, share_bound_is_below_layouts, share_bound_rises,
    tight_once, tight_raises_nothing, whole_has_all,
};
pub use placed::{Outline, Placed};
pub use problem::Problem;
pub use weighting::{MAX_DIVISOR, MAX_MULTIPLIER, Weighting};
pub use work::Work;
pub use zone::{Range, Zone};
