//! A problem: a grid of cells to be laid out on a page of some width.

ghost use Rattle.std.specs.Prelude.{◌≡◌, ◌-◌, ◌*◌, ◌<◌, ◌≤◌, ◌^◌, length, min, IfOk};
ghost use Rattle.tl_base.specs.Style.{IsSpacing};
ghost use Rattle.tl_problem.specs.Sound.{IsSound};
ghost use Rattle.tl_problem.specs.Spans.{count_of, spans_of};
ghost use Rattle.tl_problem.specs.inner.Axes.{IsOrder};
ghost use Rattle.tl_problem.specs.Zones.{classes_at, whole_zone};

use crate::axis::{Axis, Turn, order};
use crate::spans::{find_classes, find_spans};
use crate::{Cell, Range, Span, Zone};
use std::alloc::{AllocError, Global};
use std::marker::Model;
use tl_base::{List, Spacing};

/// A grid of cells on a page of `width` columns. Contracts see it as the record of its columns, rows,
/// spacing, width and cells; it is sound.
#[derive(Debug)]
pub struct Problem {
    alloc: Global,
    cols: u32,
    rows: u32,
    spacing: Spacing,
    width: u32,
    cells: List<Cell>,
    spans: Vec<Span>,
    classes: Vec<List<u32>>,
    by_left: Vec<Turn>,
    by_top: Vec<Turn>,
}

impl Drop for Problem {
    fn drop(self) {
        let Problem {
            alloc: _alloc,
            cols: _cols,
            rows: _rows,
            spacing: _spacing,
            width: _width,
            cells: _cells,
            spans: _spans,
            classes: _classes,
            by_left: _by_left,
            by_top: _by_top,
        } = self;
    }
}

impl Model for Problem {
    ghost use Rattle.tl_problem.specs.Problem.{ProblemModel};

    ghost Value = { ProblemModel };

    ghost view = { λ p. record { cols = p.cols; rows = p.rows; spacing = p.spacing; width = p.width; cells = p.cells } };

    ghost use Rattle.tl_problem.specs.inner.Parts.{HasParts};

    ghost invariant = { λ p. HasParts (record { cols = p.cols; rows = p.rows; spacing = p.spacing; width = p.width; cells = p.cells })
        p.spans.items p.classes.items p.by_left.items p.by_top.items };
}

impl Problem {
    /// The problem of these cells, which is sound: in the limits, with no two cells over one slot and
    /// a cell that begins in each column and row, and with a layout within the page. It is taken apart
    /// once, into its spans with their classes and its cells by left and by top.
    pub fn new(
        alloc: Global,
        cols: u32,
        rows: u32,
        spacing: Spacing,
        width: u32,
        cells: List<Cell>,
    ) -> Result<Problem, AllocError>
        requires { IsSound (record { cols = cols; rows = rows; spacing = spacing; width = width; cells = cells }) }
        ensures { IfOk result (λ problem. problem ≡ record { cols = cols; rows = rows; spacing = spacing; width = width; cells = cells }) }
    {
        let page_room = width.saturating_sub(spacing.edges);
        let spans = find_spans(alloc, cols, cells.as_slice())?;
        let by_left = order(alloc, cells.as_slice(), Axis::Columns)?;
        let classes = find_classes(alloc, cells.as_slice(), &by_left, &spans, page_room)?;
        let by_top = order(alloc, cells.as_slice(), Axis::Rows)?;
        Ok(Problem {
            alloc,
            cols,
            rows,
            spacing,
            width,
            cells,
            spans,
            classes,
            by_left,
            by_top,
        })
    }

    /// The number of columns.
    pub fn cols(&self) -> u32
        ensures { result ≡ self.now.cols }
    {
        self.cols
    }

    /// The number of rows.
    pub fn rows(&self) -> u32
        ensures { result ≡ self.now.rows }
    {
        self.rows
    }

    /// The width of the page, in columns.
    pub fn width(&self) -> u32
        ensures { result ≡ self.now.width }
    {
        self.width
    }

    /// How far its columns and rows stand apart.
    pub fn spacing(&self) -> Spacing
        ensures spacing { result ≡ self.now.spacing }
        ensures sound { IsSpacing self.now.spacing }
    {
        self.spacing
    }

    /// Lends the cells, in the order in which they were given.
    pub fn cells(&self) -> &[Cell]
        ensures cells { result.now ≡ self.now.cells }
        ensures sound { IsSound self.now }
    {
        self.cells.as_slice()
    }

    /// Lends the distinct spans of the cells, by left, then right.
    pub fn spans(&self) -> &[Span]
        ensures spans { result.now ≡ spans_of self.now }
        ensures sound { IsSound self.now }
    {
        self.spans.as_slice()
    }

    /// Lends the first widths of the classes of the span with number `s`, rising.
    pub fn classes(&self, s: u32) -> &[u32]
        requires { s < length (spans_of self.now) }
        ensures { result.now ≡ classes_at self.now s }
    {
        self.class_list(s as usize)
    }

    /// The first widths of the classes of the span with number `s`.
    pub(crate) fn class_list(&self, s: usize) -> &[u32]
        requires { s < length (spans_of self.now) }
        ensures { result.now ≡ classes_at self.now s }
    {
        self.classes[s].as_slice()
    }

    /// The allocator.
    pub(crate) fn alloc(&self) -> Global {
        self.alloc
    }

    /// The cells in the order in which they begin.
    pub(crate) fn order(&self, axis: Axis) -> &[Turn]
        ensures { IsOrder axis self.now.cells result.now }
    {
        match axis {
            Axis::Columns => self.by_left.as_slice(),
            Axis::Rows => self.by_top.as_slice(),
        }
    }

    /// How many ways there are to give each span one of its classes, at most `2^64 - 1`.
    pub fn count(&self) -> u64
        ensures { result ≡ count_of self.now }
    {
        let mut count: u64 = 1;
        for classes in &self.classes {
            count = capped_product(count, classes.len());
        }
        count
    }

    /// The zone of all layouts: each span has all its classes.
    pub fn whole(&self) -> Result<Zone, AllocError>
        ensures { IfOk result (λ zone. zone ≡ whole_zone self.now) }
    {
        let mut ranges = List::new(self.alloc);
        for classes in &self.classes {
            ranges.push(Range {
                first: 0,
                last: (classes.len() - 1) as u32,
            })?;
        }
        Ok(Zone::from_ranges(self.alloc, ranges))
    }
}

/// The product, at most `2^64 - 1`.
fn capped_product(count: u64, classes: usize) -> u64
    ensures { result ≡ min (count * classes) (2 ^ 64 - 1) }
{
    count.saturating_mul(classes as u64)
}
