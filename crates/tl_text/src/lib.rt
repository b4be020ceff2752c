//! Breaks paragraphs into lines. It knows words, widths and lines, and no tables. Its one contract:
//! no cutting of a paragraph that holds in a width has fewer lines than these calls return.
#![tactic(auto)]

mod cutting;
mod filling;
mod laws;
mod measure;
mod minimal;
mod paragraph;
mod parts;
mod ranges;
mod widest;
mod word;

pub use cutting::{count_lines, least_width};
pub use laws::{
    lesser_numbers_refine, numbers_between_units_break_the_same, words_above_0_are_by_clusters,
};
pub use minimal::configs;
pub use paragraph::{Atom, Para};
pub use parts::part;
pub use ranges::{Line, TextError, lines};
pub use widest::widest_within;
pub use word::{word_width, words};
