//! A law of the tables that numbers make. It is the contract of a function that does nothing.

ghost use Rattle.tl_demo.specs.Fits.{DemoFits};

/// A page that holds the table of each number, in columns.
pub const DEMO_WIDTH: u32 = 60;

/// The text of each number spells a table, within all limits, that fits a page of `DEMO_WIDTH` columns.
pub fn demo_fits()
    ensures { DemoFits }
{}
