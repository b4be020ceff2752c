//! The distinct spans of cells, and the classes of their widths.

ghost use Rattle.std.specs.Prelude.{◌≡◌, ◌+◌, ◌<◌, ◌≤◌, length, IfOk, OnOk};
ghost use Rattle.std.specs.List.{All};
ghost use Rattle.std.specs.List.Sorted.{IsNonDecreasingBy};
ghost use Rattle.tl_problem.specs.declared.axis.Axis.TheVariants.{Columns};
ghost use Rattle.tl_problem.specs.inner.Axes.{HaveAllAt, IsOrder};
ghost use Rattle.tl_problem.specs.inner.Spanning.{AddsSteps, AreClasses, AreFirsts, AreSpans, AreTurnsAt, IsInGrid, IsSeen};
ghost use Rattle.tl_problem.specs.inner.Spanning.{cells_at, least_among};

use crate::axis::Turn;
use crate::{Cell, Span};
use std::alloc::{AllocError, Global};
use tl_base::{Config, List, MAX_COLUMNS};

/// The distinct spans of the cells, by left, then right.
pub fn find_spans(alloc: Global, cols: u32, cells: &[Cell]) -> Result<Vec<Span>, AllocError>
    requires few { cols ≤ MAX_COLUMNS }
    requires grid { All (IsInGrid cols) cells.now }
    ensures { IfOk result (λ spans. AreSpans cells.now spans.items) }
{
    let side = cols as usize + 1;
    let seen = seen_spans(alloc, side, cells)?;
    let mut spans = Vec::new(alloc);
    for slot in 0..side * side {
        if seen[slot] {
            spans.push(Span {
                left: (slot / side) as u32,
                right: (slot % side) as u32,
            })?;
        }
    }
    Ok(spans)
}

/// For each left and right edge, row by row, whether a cell spans from the one to the other.
fn seen_spans(alloc: Global, side: usize, cells: &[Cell]) -> Result<Vec<bool>, AllocError>
    requires few { side ≤ MAX_COLUMNS + 1 }
    requires grid { All (λ cell. (cell.left < side) × (cell.right < side)) cells.now }
    ensures { IfOk result (λ seen. IsSeen side cells.now (length cells.now) seen.items) }
{
    let mut seen = vec![in alloc; false; side * side]?;
    for cell in cells {
        seen[cell.left as usize * side + cell.right as usize] = true;
    }
    Ok(seen)
}

/// The first widths of the classes of each span. The cells are given by left too.
pub fn find_classes(
    alloc: Global,
    cells: &[Cell],
    by_left: &[Turn],
    spans: &[Span],
    page_room: u32,
) -> Result<Vec<List<u32>>, AllocError>
    requires { IsOrder Columns cells.now by_left.now }
    ensures { IfOk result (λ classes. AreClasses cells.now page_room spans.now (length spans.now) classes.items) }
{
    let mut classes = Vec::new(alloc);
    for span in spans {
        let turns = beginning_in(by_left, span.left);
        classes.push(first_widths(alloc, cells, turns, *span, page_room)?)?;
    }
    Ok(classes)
}

/// The turns of the cells that begin in the column.
fn beginning_in(by_left: &[Turn], column: u32) -> &[Turn]
    requires { IsNonDecreasingBy (λ t. t.start) by_left.now }
    ensures { HaveAllAt by_left.now column result.now }
{
    let before = by_left.partition_point(|turn| turn.start < column);
    let rest = &by_left[before..];
    let count = rest.partition_point(|turn| turn.start <= column);
    &rest[..count]
}

/// The first widths of the classes of one span: the greatest least width of its cells, and each
/// greater width within the page at which a step of one begins. These are the turns of the cells that begin
/// where the span does.
fn first_widths(
    alloc: Global,
    cells: &[Cell],
    turns: &[Turn],
    span: Span,
    page_room: u32,
) -> Result<List<u32>, AllocError>
    requires { AreTurnsAt cells.now span.left turns.now }
    ensures { IfOk result (AreFirsts cells.now span page_room) }
{
    let least = greatest_least(cells, turns, span);
    let mut firsts = Vec::new(alloc);
    firsts.push(least)?;
    for turn in turns {
        let cell = &cells[turn.cell as usize];
        if cell.left == span.left && cell.right == span.right {
            add_steps(&mut firsts, cell.low.configs(), least, page_room)?;
            add_steps(&mut firsts, cell.high.configs(), least, page_room)?;
        }
    }
    firsts.sort_unstable();
    firsts.dedup();
    Ok(List::from_vec(firsts))
}

/// The greatest of the least widths of the span's cells among those that have a turn.
fn greatest_least(cells: &[Cell], turns: &[Turn], span: Span) -> u32
    requires { All (λ t. t.cell < length cells.now) turns.now }
    ensures { result ≡ least_among (cells_at cells.now turns.now) span }
{
    let mut least: u32 = 0;
    for turn in turns {
        let cell = &cells[turn.cell as usize];
        if cell.left == span.left && cell.right == span.right {
            least = least.max(cell.low.least());
        }
    }
    least
}

/// Puts the widths at which steps begin, past `least` and up to `most`, at the end of `firsts`.
fn add_steps(
    firsts: &mut Vec<u32>,
    steps: &[Config],
    least: u32,
    most: u32,
) -> Result<(), AllocError>
    ensures { OnOk result (AddsSteps firsts.old.items firsts.new.items steps.now least most) }
{
    for step in steps {
        if least < step.width && step.width <= most {
            firsts.push(step.width)?;
        }
    }
    Ok(())
}
