//! How the cells of a problem lie: by their spans of columns, and by their strips of rows. It knows no zone.

ghost use Rattle.std.specs.Prelude.{◌≡◌, ◌<◌, length, max, slice_index, slice_set};
ghost use Rattle.tl_problem.specs.Spans.{spans_of};

use std::alloc::{AllocError, Global};
use tl_base::Spacing;
use tl_problem::{Cell, Problem, Span};

/// The spans and strips of a problem's cells. A strip is the rows from a top up to a bottom; each row is
/// one, and each cell lies in one.
pub(crate) struct Arrangement {
    pub(crate) cols: u32,
    pub(crate) rows: u32,
    pub(crate) spacing: Spacing,
    /// The width of the page, in columns.
    pub(crate) width: u32,
    /// The spans, by left, then right.
    pub(crate) spans: Vec<Span>,
    /// For each span the first widths of its classes, rising.
    pub(crate) classes: Vec<Vec<u32>>,
    /// For each span the numbers of its cells.
    pub(crate) cells: Vec<Vec<usize>>,
    /// The strips, by top, then bottom.
    pub(crate) strips: Vec<(u32, u32)>,
    /// For each cell the number of its strip.
    pub(crate) strip_of: Vec<usize>,
}

impl Drop for Arrangement {
    fn drop(self) {
        let Arrangement {
            cols: _cols,
            rows: _rows,
            spacing: _spacing,
            width: _width,
            spans: _spans,
            classes: _classes,
            cells: _cells,
            strips: _strips,
            strip_of: _strip_of,
        } = self;
    }
}

impl Arrangement {
    /// The arrangement of the problem.
    pub(crate) fn new(alloc: Global, problem: &Problem) -> Result<Arrangement, AllocError> {
        let cells = problem.cells();
        let strips = find_strips(alloc, problem.rows(), cells)?;
        let strip_of = strips_of_cells(alloc, &strips, cells)?;
        Ok(Arrangement {
            cols: problem.cols(),
            rows: problem.rows(),
            spacing: problem.spacing(),
            width: problem.width(),
            spans: Vec::from_slice(alloc, problem.spans())?,
            classes: class_lists(alloc, problem)?,
            cells: cells_of_spans(alloc, problem.spans(), cells)?,
            strips,
            strip_of,
        })
    }

    /// Whether some strip has several rows. Otherwise strip `k` is row `k`.
    pub(crate) fn has_tall_strips(&self) -> bool {
        self.strips.len() > self.rows as usize
    }

    /// The first widths of the classes of a span, and the numbers of its cells.
    pub(crate) fn classes_of(&self, span: usize) -> &[u32] {
        match self.classes.get(span) {
            Some(classes) => classes.as_slice(),
            None => &[],
        }
    }

    pub(crate) fn cells_of(&self, span: usize) -> &[usize] {
        match self.cells.get(span) {
            Some(cells) => cells.as_slice(),
            None => &[],
        }
    }
}

/// The number at a place, 0 where there is none.
pub(crate) fn number_at(numbers: &[u32], place: usize) -> u32 {
    numbers.get(place).copied().unwrap_or(0)
}

/// Makes the number at a place at least this. Where there is no such place, nothing changes.
pub(crate) fn raise(numbers: &mut [u32], place: usize, least: u32)
    ensures { numbers.new ≡ slice_set numbers.old place (max (slice_index numbers.old place) least) }
{
    if place < numbers.len() && numbers[place] < least {
        numbers[place] = least;
    }
}

/// The class of a room: the last one that begins at it or before.
pub(crate) fn class_of(classes: &[u32], room: u32) -> usize {
    let begun = classes.partition_point(|&first| first <= room);
    begun.saturating_sub(1)
}

/// The classes of each span.
fn class_lists(alloc: Global, problem: &Problem) -> Result<Vec<Vec<u32>>, AllocError> {
    let mut lists = Vec::new(alloc);
    for span in 0..problem.spans().len() {
        lists.push(classes_of_span(alloc, problem, span)?)?;
    }
    Ok(lists)
}

/// The classes of the span with this number.
fn classes_of_span(alloc: Global, problem: &Problem, span: usize) -> Result<Vec<u32>, AllocError>
    requires { span < length (spans_of problem.now) }
{
    match u32::try_from(span) {
        Ok(number) => Vec::from_slice(alloc, problem.classes(number)),
        Err(_) => Ok(Vec::new(alloc)),
    }
}

/// The cells of each span.
fn cells_of_spans(
    alloc: Global,
    spans: &[Span],
    cells: &[Cell],
) -> Result<Vec<Vec<usize>>, AllocError> {
    let mut lists = Vec::new(alloc);
    for _ in spans {
        lists.push(Vec::new(alloc))?;
    }
    // The spans stand by left, then right.
    for (number, cell) in cells.iter().enumerate() {
        let span = spans.partition_point(|span| (span.left, span.right) < (cell.left, cell.right));
        if let Some(list) = lists.get_mut(span) {
            list.push(number)?;
        }
    }
    Ok(lists)
}

/// Each row, and the rows of each cell of more than one, in order.
fn find_strips(alloc: Global, rows: u32, cells: &[Cell]) -> Result<Vec<(u32, u32)>, AllocError> {
    let mut strips = Vec::new(alloc);
    for row in 0..rows {
        strips.push((row, row.saturating_add(1)))?;
    }
    for cell in cells {
        if cell.top.saturating_add(1) < cell.bottom {
            strips.push((cell.top, cell.bottom))?;
        }
    }
    strips.sort_unstable();
    Ok(strips)
}

/// The strip of each cell.
fn strips_of_cells(
    alloc: Global,
    strips: &[(u32, u32)],
    cells: &[Cell],
) -> Result<Vec<usize>, AllocError> {
    let mut numbers = Vec::new(alloc);
    for cell in cells {
        let strip = match strips.binary_search(&(cell.top, cell.bottom)) {
            Ok(strip) => strip,
            Err(strip) => strip,
        };
        numbers.push(strip)?;
    }
    Ok(numbers)
}
