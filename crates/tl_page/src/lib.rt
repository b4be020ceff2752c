//! Writes the text page of a table in a layout: the lines of its cells, each at its side and filled to
//! their rooms, with gaps or a drawn frame between them, and nested tables as pages inside their cells. It knows no
//! search and no certificate. Its one contract: the bytes are exactly those of the drawn page.
#![tactic(auto)]

#[cfg(test)]
mod align_tests;
mod cells;
mod corner;
#[cfg(test)]
mod head_tests;
mod laws;
mod line;
mod look;
mod measure;
mod owner;
mod owners;
#[cfg(test)]
mod page_tests;
mod pages;
mod paragraph;
mod picture;
mod sign;
mod strip;
mod strips;
#[cfg(test)]
mod tests;
mod trim;
#[cfg(test)]
mod trim_tests;

pub use laws::{
    lines_are_as_wide, pages_are_as_high, pages_hold_all_text, paragraphs_are_whole,
    signs_take_a_column,
};
pub use look::Look;
pub use measure::fits;
pub use pages::page;
pub use trim::{
    trimmed_lines_end_in_text, trimmed_lines_fill_up, trimmed_page, trimming_keeps_text,
    trimming_takes_spaces,
};
