//! Tables from CSV: a row for each record and a column for each field. It knows no rule of CSV, which
//! the crate `csv` reads, and nothing of layouts. Its one contract: `from_csv` is the table of the
//! records, or the first thing that is wrong with them.
#![tactic(auto)]

mod cells;
mod checks;
mod columns;
mod error;
mod records;

pub use columns::from_csv;
pub use error::CsvError;
