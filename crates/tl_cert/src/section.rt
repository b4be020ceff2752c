//! One search of one table at one width.

use crate::{Log, Trace};
use tl_base::List;

/// What one search of one table at one width found and proved.
#[derive(Debug)]
pub struct Section {
    /// The number of the table, by the order of the start tags, from 0.
    pub table: u32,
    /// The page width that was searched, in columns of text.
    pub width: u32,
    /// The height of the placement that was found, in lines.
    pub height: u32,
    /// No layout has a height below this, in lines.
    pub lower: u32,
    /// The widths of the placement's columns, in columns of text.
    pub widths: List<u32>,
    pub trace: Trace,
    pub log: Log,
}

impl Drop for Section {
    fn drop(self) {
        let Section {
            table: _table,
            width: _width,
            height: _height,
            lower: _lower,
            widths: _widths,
            trace: _trace,
            log: _log,
        } = self;
    }
}
