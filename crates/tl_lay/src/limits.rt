//! The limits that only a whole call knows.

/// How many cuts the search of each section may make where no budget is given, if the reach allows it.
pub const DEFAULT_BUDGET: u32 = 5_000;

/// How many cuts the search of a demonstration may make.
pub const DEMO_BUDGET: u32 = 2_000;
