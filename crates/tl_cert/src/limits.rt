//! How great the numbers of a certificate may be, and how many parts it may have, where no lower crate
//! knows of the limit.

use tl_base::{MAX_BUDGET, MAX_COLUMNS, MAX_PAGE_WIDTH, MAX_TABLES};

/// The greatest number of a table: there are at most [`MAX_TABLES`], the outer one counted.
pub const MAX_TABLE: u32 = MAX_TABLES as u32 - 1;

/// How many sections there may be, a round number above what a certificate needs: one section of the
/// outer table, and of each of the [`MAX_TABLE`] others at most one for each width from 0 to
/// [`MAX_PAGE_WIDTH`].
pub const MAX_SECTIONS: usize = 100_001;

/// The greatest number of a zone: each of at most [`MAX_BUDGET`] cuts makes two.
pub const MAX_ZONE: u32 = 2 * MAX_BUDGET;

/// The greatest number of a log line that is fired.
pub const MAX_LINE: u32 = 2 * MAX_BUDGET;

/// The greatest number of a column span. A span has a first column and a last one, which may be the
/// same, out of [`MAX_COLUMNS`].
pub const MAX_SPAN: u32 = (MAX_COLUMNS * (MAX_COLUMNS + 1) / 2 - 1) as u32;

/// The greatest number of a class that a cut names: a span has at most as many classes as the page
/// has columns of text.
pub const MAX_CLASS: u32 = MAX_PAGE_WIDTH - 1;

/// How many bounds a nogood that is written out may have.
pub const MAX_BOUNDS: usize = 8;

/// How many lines a log line may fire.
pub const MAX_FIRES: usize = 8;
