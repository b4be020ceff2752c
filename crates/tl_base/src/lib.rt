//! What every layer shares: lists and texts that contracts see as their items, canonical decimal
//! numbers, the desk through which files and standard output are reached, and the gate that
//! parallel pieces of work pass, step functions from widths to heights, styles and the sizes of
//! columns and rows, chains of cells, the names of breakings and searches, and the limits that more
//! than one crate knows. It knows no table, no text breaking and no layout. Its one contract: what the desk holds after each call, and
//! that a fault is returned only where its count of faults rose.
#![tactic(auto)]

mod breaking;
mod chain;
mod desk;
mod gate;
mod items;
mod limits;
mod memory_desk;
mod number;
mod search;
mod sizes;
mod spacing;
mod steps;
mod style;
#[cfg(test)]
mod tests;
mod text;

pub use breaking::Breaking;
pub use chain::{Chain, Entry};
pub use desk::{Desk, DeskFault};
pub use gate::{Gate, NoGate};
pub use items::List;
pub use limits::{
    MAX_BUDGET, MAX_CELLS, MAX_CERTIFICATE_BYTES, MAX_COLSPAN, MAX_COLUMNS, MAX_DECLARED_COLUMNS,
    MAX_DEPTH, MAX_FILE_BYTES, MAX_HEIGHT, MAX_PAGE_WIDTH, MAX_REACH, MAX_ROWS, MAX_ROWSPAN,
    MAX_TABLES,
};
pub use memory_desk::{Fail, MemoryDesk};
pub use number::{read_number, write_number};
pub use search::Search;
pub use sizes::{room_on_page, room_size, total_size};
pub use spacing::Spacing;
pub use steps::{Config, Steps};
pub use style::Style;
pub use text::Text;
