//! The limits that more than one crate knows. What is above one is refused, with the number that
//! passed it where it was counted.

/// How many bytes a file that is read may have, and a paragraph (the bytes of its words and its
/// forced breaks together).
pub const MAX_FILE_BYTES: usize = 1_048_576;

/// How wide a page may be, in columns.
pub const MAX_PAGE_WIDTH: u32 = 500;

/// How many columns a cell may span, and a `col` or `colgroup` (HTML Standard, 4.9.11 and 4.9.3).
pub const MAX_COLSPAN: u32 = 1_000;

/// How many columns the `col` and `colgroup` tags of one table may stand for together. No file of
/// at most [`MAX_FILE_BYTES`] bytes passes it.
pub const MAX_DECLARED_COLUMNS: u32 = 1_073_741_823;

/// How many rows a cell may span (HTML Standard, 4.9.11).
pub const MAX_ROWSPAN: u32 = 65_534;

/// How many cells, `td` and `th`, one table may have.
pub const MAX_CELLS: usize = 20_000;

/// How many columns one table may have, once those in which no cell begins are left out.
pub const MAX_COLUMNS: usize = 60;

/// How many rows one table may have, once those in which no cell begins are left out. The caption's
/// row is not counted.
pub const MAX_ROWS: usize = 2_000;

/// What the heights on one page may sum to, in lines.
pub const MAX_HEIGHT: u32 = 1_073_741_824;

/// How many tables a document may have, the outer one counted.
pub const MAX_TABLES: usize = 200;

/// How many tables may stand inside one another, the outer one counted.
pub const MAX_DEPTH: usize = 8;

/// How many cuts the search of one table at one width may be allowed.
pub const MAX_BUDGET: u32 = 100_000;

/// How many bytes a certificate that is read may have.
pub const MAX_CERTIFICATE_BYTES: usize = 1_073_741_824;

/// How many cuts the searches of a whole document may be allowed together: the budget, once for the
/// outer table and once for each nested table and each column of the page's width.
pub const MAX_REACH: u64 = 2_000_000;
