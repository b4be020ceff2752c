//! Laws of the definitions in this crate's specs. Each is the contract of a function that does nothing.

ghost use Rattle.tl_html.specs.Laws.{AFittingLayoutHasColumns, PageReadsBack};

/// The page of a sound table reads back: it spells the table again, but for the numbers of tables and
/// their `thead` groups.
pub fn page_reads_back()
    ensures { PageReadsBack }
{}

/// A layout that fits some page has a width for each column, so the page of it reads back.
pub fn a_fitting_layout_has_columns()
    ensures { AFittingLayoutHasColumns }
{}
