//! Tables with their grids formed, and what a layout of one is: when it fits a page, and which height
//! and which width are the least. It knows cells and paragraphs, and nothing of how a layout is
//! searched for. Its one contract: `table` is the table that a tree becomes, or names the first of its
//! tables without a grid; `least_width` is the least width over all layouts, those of nested tables
//! included, and `narrow_chain` is a chain of columns that weighs as much.
#![tactic(auto)]

mod apart;
mod cell;
mod count;
mod error;
mod forming;
mod head;
mod laws;
mod layout;
mod narrow;
mod numbers;
mod paragraph;
mod same_laws;
mod shape;
mod widest;
mod width;

pub use apart::{lines_beside, lines_inside, spacing};
pub use cell::{Content, Kind, Table, TableCell};
pub use count::nested;
pub use error::FormError;
pub use forming::table;
pub use head::{caption_height, head_end, head_row};
pub use laws::{
    each_number_is_of_one_table, file_spells_one_table, formed_has_few_cells,
    formed_tables_are_sound, no_cell_crosses_the_head, no_page_is_narrower_than_a_chain,
    the_first_without_a_grid_has_the_least_number,
};
pub use layout::Layout;
pub use narrow::{narrow_chain, own_width};
pub use numbers::by_number;
pub use paragraph::broken;
pub use same_laws::{same_tables_nest_as_many, same_tables_share_least_widths};
pub use width::least_width;
