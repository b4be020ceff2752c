//! Searches a whole document: each nested table on the widths that the table around it may give it, those of
//! one depth at once, the greatest depth first, and last the document's own table on the page. It knows no
//! search: it is given one. Its one contract: `sections` gives all sections of a certificate of the
//! document, each that of an outcome of the search for its own problem, for every number of workers.
#![tactic(auto)]

mod at_once;
mod depths;
mod effort;
mod found;
mod make;
mod searching;

pub use make::{Make, laid_sections, sections};
pub use searching::{LaidSections, problem_at, sections_by};
