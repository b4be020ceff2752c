//! The tree of a document: tables hold groups, groups rows, rows cells, and cells paragraphs and
//! further tables. It is the table of the HTML Standard, section 4.9, before its grid is formed.

use tl_base::List;
use tl_sides::Side;
use tl_text::Para;

/// A block of a flow: a paragraph, or a table nested in it.
#[cycle(tree)]
#[derive(Debug, Drop)]
pub enum Block {
    Para(Para),
    Table(Box<TableNode>),
}

/// A cell, as its start tag and its flow give it.
#[cycle(tree)]
#[derive(Debug, Drop)]
pub struct CellNode {
    /// Whether it is a header cell (`th`).
    pub head: bool,
    /// How many columns it covers, 1 to `MAX_COLSPAN`.
    pub colspan: u32,
    /// How many rows it covers, up to `MAX_ROWSPAN`. 0: it grows downward to its group's end.
    pub rowspan: u32,
    /// How many columns of text it is wide at least, up to `MAX_PAGE_WIDTH`.
    pub least: u32,
    /// The side of its place that it asks for by its attribute `align`.
    pub align: Option<Side>,
    /// The paragraphs and nested tables, in order.
    pub flow: List<Block>,
}

/// What the rows of a group are in their table.
#[derive(Clone, Copy, Debug, PartialEq, Eq)]
pub enum Part {
    /// Rows that stand directly in the table, as many as follow one another.
    Loose,
    /// The rows of a `thead`.
    Head,
    /// The rows of a `tbody`.
    Body,
    /// The rows of a `tfoot`.
    Foot,
}

/// A group of rows. A row is the list of its cells.
#[cycle(tree)]
#[derive(Debug, Drop)]
pub struct GroupNode {
    pub part: Part,
    pub rows: List<List<CellNode>>,
}

/// A table.
#[cycle(tree)]
#[derive(Debug, Drop)]
pub struct TableNode {
    /// Its number: the tables of a document are numbered from 0 by their start tags.
    pub number: u32,
    /// The flow of its `caption`, if it has one.
    pub caption: Option<List<Block>>,
    /// How many columns its `col` and `colgroup` tags stand for, up to `MAX_DECLARED_COLUMNS`.
    pub columns: u32,
    /// Its groups of rows, in order.
    pub groups: List<GroupNode>,
}
