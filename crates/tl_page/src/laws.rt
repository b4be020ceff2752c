//! Laws of the definitions in this crate's specs. Each is the contract of a function that does nothing.
ghost use Rattle.tl_page.specs.Laws.{LinesAreAsWide, PagesAreAsHigh, PagesHoldAllText, ParagraphsAreWhole, SignsTakeAColumn};

/// Each character that the lines of a table are drawn with takes one column, by the measure of its words.
pub fn signs_take_a_column()
    ensures { SignsTakeAColumn }
{}

/// A page has as many lines as its layout is high.
pub fn pages_are_as_high()
    ensures { PagesAreAsHigh }
{}

/// The lines of a paragraph have all its units, whole and in order.
pub fn paragraphs_are_whole()
    ensures { ParagraphsAreWhole }
{}

/// Each line of a page in a layout that fits is as wide as the layout: the units on it and the gaps,
/// rules and corners between them take as many columns in all.
pub fn lines_are_as_wide()
    ensures { LinesAreAsWide }
{}

/// A page in a layout that fits has all text of its table, that of nested tables included: each line of
/// a cell stands whole on the page, under the one before it, after all columns to the left of the cell.
pub fn pages_hold_all_text()
    ensures { PagesHoldAllText }
{}
