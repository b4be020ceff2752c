//! What holds of a table holds of each that is the same. Each law is the contract of a function that does
//! nothing.

ghost use Rattle.tl_table.specs.SameLaws.{SameTablesNestAsMany, SameTablesShareLeastWidths};

/// Two tables that are the same have as many tables inside.
pub fn same_tables_nest_as_many()
    ensures { SameTablesNestAsMany }
{}

/// Two tables that are the same have the same least width in each style.
pub fn same_tables_share_least_widths()
    ensures { SameTablesShareLeastWidths }
{}
