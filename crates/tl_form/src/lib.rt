//! The problem of a table, and when a certificate of a document is valid: which sections are due, what
//! those of nested tables tell, and which layout a certificate names. It searches nothing. Its one
//! contract: `problem` is the problem of the table with given steps for its nested tables, and what a valid
//! certificate claims holds of every layout.
#![tactic(auto)]

mod cell_steps;
mod chain_laws;
mod closed_laws;
mod due_laws;
mod heights;
mod laid;
mod length_laws;
mod lowered;
mod named;
mod nested_steps;
mod open_laws;
mod problem_laws;
mod problems;
mod subject;
mod tall;
mod valid_laws;
mod widths;

pub use chain_laws::chains_are_writable;
pub use closed_laws::{budget_closes, closed_tell_least};
pub use due_laws::sections_give_sound_problems;
pub use heights::InnerSteps;
pub use laid::{Laid, lay, problem_for};
pub use length_laws::valid_is_short;
pub use named::{layout, layout_with};
pub use nested_steps::inner_steps;
pub use open_laws::open_spends;
pub use problem_laws::{
    all_counts_rise, counts_exist, counts_rise, layouts_are_by_low, layouts_by_high_fit,
    least_heights_exist, least_heights_fall, placements_are_low, problem_is_determined,
    sound_problems_alone, true_problems_exist, true_steps_lie_between, true_where_bounds_meet,
};
pub use problems::{has_sound_problem, problem, sound_problem};
pub use subject::{Due, Subject};
pub use valid_laws::{
    bounded_is_between, lowest_is_least, named_layout_fits, narrow_is_too_wide,
    refused_for_one_reason, same_tables_share_certificates, valid_is_not_refused,
};
pub use widths::total_width;
