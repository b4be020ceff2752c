//! Chooses one layout of a problem among those that are low enough, the same whatever search found
//! the height. It knows no tables and no text. Its one contract: `choose` gives the placement of
//! the first class vector, in the order of the spans, of a layout no higher than the height, or
//! leaves the choice open exactly where its quota is below the number of cuts that this needs.
//!
//! A zone is cut at its first span of more than one class, after the first of them, and the lower
//! part is gone through before the upper; a zone that is too high is left. So the choice takes one
//! cut for each zone that is gone through, is not too high and has more than one class. Here two
//! spans have two classes and three, and the first layout that is low enough has the vector 0 1.
//! Three cuts find it; the zones in brackets are never looked at.
//!
//! ```text
//!                    0-1 0-2
//!          0 0-2                [1 0-2]
//!    0 0         0 1-2
//!  too high    0 1   [0 2]
//!             found
//! ```
#![tactic(auto)]

mod choice;
mod laws;
mod look;
mod walk;

pub use choice::Choice;
pub use laws::{chosen_is_unique, each_zone_has_need, need_is_below_count, need_is_unique};
pub use walk::choose;
