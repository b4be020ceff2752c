//! The heights that a cell needs at each width, as steps: its blocks one under the other, all from the
//! least width of the cell on, less the lines that lie inside its place.

ghost use Rattle.std.specs.Prelude.{◌≡◌, ◌+◌, ◌<◌, ◌≤◌, ◌^◌, ◌↔◌, ℕ, Some, IfOk, IsTrue, MatchOption};
ghost use Rattle.std.specs.List.{All};
ghost use Rattle.tl_base.specs.Steps.{AreSteps, first_height, height_at, stacked_height};
ghost use Rattle.tl_table.specs.declared.cell.Content.{out-Content};
ghost use Rattle.tl_table.specs.declared.cell.TableCell.{out-TableCell};
ghost use Rattle.tl_form.specs.Problems.{AreStepsOf, BlockNeeds, CellNeeds};
ghost use Rattle.tl_table.specs.Tables.{tables_of, tables_in};
ghost use Rattle.tl_form.specs.declared.heights.HeightBound.TheVariants.{Low, High};
ghost use Rattle.tl_form.specs.inner.CellSteps.{From, HaveSteps, IsLowCell, IsPlainBlock, IsStart, NeedsBy};

use crate::heights::{HeightBound, InnerSteps, bound_for, start_of};
use crate::lowered::lowered;
use crate::tall::tall_stack;
use std::alloc::{AllocError, Global};
use tl_base::{Config, List, MAX_HEIGHT, MAX_PAGE_WIDTH, Steps};
use tl_table::{Content, TableCell};
use tl_text::{configs, least_width};

/// The least width at which the block has a height.
fn block_start(block: &Content, inner: &[InnerSteps], bound: HeightBound) -> u32
    requires { HaveSteps inner.now (tables_of (out-Content block.now)) }
    ensures { IsStart (BlockNeeds (NeedsBy bound inner.now) (out-Content block.now)) result }
{
    match block {
        Content::Para(paragraph) => least_width(paragraph),
        Content::Table(table) => start_of(bound_for(inner, table.number, bound)),
    }
}

/// The least width at which the cell has a height, however many lines lie inside it.
pub fn cell_start(cell: &TableCell, inner: &[InnerSteps], bound: HeightBound) -> u32
    requires { HaveSteps inner.now (tables_in (out-TableCell cell.now)) }
    ensures { (lines : ℕ) → IsStart (CellNeeds (NeedsBy bound inner.now) lines (out-TableCell cell.now)) result }
{
    let mut start = cell.least;
    for block in cell.blocks.as_slice() {
        start = start.max(block_start(block, inner, bound));
    }
    start
}

/// The steps from one width on and up to another.
fn between(alloc: Global, steps: &Steps, from: u32, page: u32) -> Result<Steps, AllocError>
    requires some { (h : ℕ) × (height_at steps.now from ≡ Some h) }
    requires within { from ≤ page }
    ensures { IfOk result (AreStepsOf (From from (λ w h. height_at steps.now w ≡ Some h)) page) }
{
    let mut list = List::new(alloc);
    list.push(Config {
        width: from,
        height: steps.height_at(from).unwrap(),
    })?;
    for step in steps.configs() {
        if from < step.width && step.width <= page {
            list.push(*step)?;
        }
    }
    Ok(Steps::from_list(list))
}

/// The steps of the block from one width on, at which it has a height, and up to another.
fn block_steps(
    alloc: Global,
    block: &Content,
    from: u32,
    page: u32,
    inner: &[InnerSteps],
    bound: HeightBound,
) -> Result<Steps, AllocError>
    requires steps { HaveSteps inner.now (tables_of (out-Content block.now)) }
    requires some { (h : ℕ) × BlockNeeds (NeedsBy bound inner.now) (out-Content block.now) from h }
    requires within { from ≤ page }
    requires narrow { page ≤ MAX_PAGE_WIDTH }
    ensures { IfOk result (AreStepsOf (From from (BlockNeeds (NeedsBy bound inner.now) (out-Content block.now))) page) }
{
    match block {
        Content::Para(paragraph) => {
            let steps = configs(alloc, paragraph, page)?;
            if steps.least() == from {
                return Ok(steps);
            }
            between(alloc, &steps, from, page)
        }
        Content::Table(table) => {
            let steps = bound_for(inner, table.number, bound);
            between(alloc, steps, from, page)
        }
    }
}

/// The steps that need no line from a width on.
fn flat(alloc: Global, from: u32, page: u32) -> Result<Steps, AllocError>
    requires { from ≤ page }
    ensures { IfOk result (AreStepsOf (From from (λ w h. h ≡ 0)) page) }
{
    let mut list = List::new(alloc);
    list.push(Config {
        width: from,
        height: 0,
    })?;
    Ok(Steps::from_list(list))
}

/// Whether two things one above the other need no more lines than the limit and `lines` together.
fn are_low(above: &Steps, below: &Steps, lines: u32) -> bool
    ensures { IsTrue result ↔ (first_height above.now + first_height below.now ≤ MAX_HEIGHT + lines) }
{
    let height = u64::from(above.max_height()) + u64::from(below.max_height());
    height <= u64::from(MAX_HEIGHT) + u64::from(lines)
}

/// Whether the steps need no line at any width.
fn need_no_line(steps: &Steps) -> bool
    ensures none { IsTrue result ↔ (first_height steps.now ≡ 0) }
    ensures sound { AreSteps steps.now }
{
    steps.configs()[0].height == 0
}

/// The steps of two things one above the other, which have none past `page`. Where the one above needs no
/// line they are those below.
fn stacked(alloc: Global, above: &Steps, below: Steps, page: u32) -> Result<Steps, AllocError>
    requires small { first_height above.now + first_height below < 2 ^ 32 }
    requires above { All (λ step. step.width ≤ page) above.now }
    requires below { All (λ step. step.width ≤ page) below }
    requires narrow { page ≤ MAX_PAGE_WIDTH }
    ensures decreasing { IfOk result AreSteps }
    ensures heights { IfOk result (λ steps. (w : ℕ) → height_at steps w ≡ stacked_height above.now below w) }
{
    if need_no_line(above) && above.least() <= below.least() {
        return Ok(below);
    }
    if !are_low(above, &below, 0) {
        return tall_stack(alloc, above, &below, page);
    }
    let steps = Steps::stack(alloc, above, &below)?;
    Ok(steps)
}

/// The steps of the cell on a page of `page` columns, with `lines` lines inside its place. `None` exactly
/// where it has no height there, or one above the limit.
pub fn cell_steps(
    alloc: Global,
    cell: &TableCell,
    lines: u32,
    page: u32,
    inner: &[InnerSteps],
    bound: HeightBound,
) -> Result<Option<Steps>, AllocError>
    requires steps { HaveSteps inner.now (tables_in (out-TableCell cell.now)) }
    requires few { lines ≤ MAX_HEIGHT }
    requires narrow { page ≤ MAX_PAGE_WIDTH }
    ensures { IfOk result (λ found. MatchOption found
        (IsLowCell (NeedsBy bound inner.now) page lines (out-TableCell cell.now) → ⊥)
        (AreStepsOf (CellNeeds (NeedsBy bound inner.now) lines (out-TableCell cell.now)) page)) }
{
    let start = cell_start(cell, inner, bound);
    if page < start {
        return Ok(None);
    }
    let mut steps = flat(alloc, start, page)?;
    for block in cell.blocks.as_slice() {
        let below = block_steps(alloc, block, start, page, inner, bound)?;
        if !are_low(&steps, &below, lines) {
            return Ok(None);
        }
        steps = stacked(alloc, &steps, below, page)?;
    }
    let low = lowered(alloc, steps, lines)?;
    Ok(Some(low))
}

/// Whether the block is a paragraph.
fn is_paragraph(block: &Content) -> bool
    ensures { IsTrue result ↔ IsPlainBlock block.now }
{
    matches!(block, Content::Para(_))
}

/// Whether no table is nested in the cell.
fn is_plain(cell: &TableCell) -> bool
    ensures { IsTrue result ↔ All IsPlainBlock (out-TableCell cell.now).blocks }
{
    cell.blocks.as_slice().iter().all(is_paragraph)
}

/// The steps of the cell by the upper bounds, where `low` are those by the lower ones: the same steps where
/// no table is nested in it. `None` exactly where it has no height on the page, or one above the limit.
pub fn high_steps(
    alloc: Global,
    cell: &TableCell,
    lines: u32,
    page: u32,
    inner: &[InnerSteps],
    low: &Steps,
) -> Result<Option<Steps>, AllocError>
    requires steps { HaveSteps inner.now (tables_in (out-TableCell cell.now)) }
    requires low { AreStepsOf (CellNeeds (NeedsBy Low inner.now) lines (out-TableCell cell.now)) page low.now }
    requires few { lines ≤ MAX_HEIGHT }
    requires narrow { page ≤ MAX_PAGE_WIDTH }
    ensures { IfOk result (λ found. MatchOption found
        (IsLowCell (NeedsBy High inner.now) page lines (out-TableCell cell.now) → ⊥)
        (AreStepsOf (CellNeeds (NeedsBy High inner.now) lines (out-TableCell cell.now)) page)) }
{
    if !is_plain(cell) {
        return cell_steps(alloc, cell, lines, page, inner, HeightBound::High);
    }
    let same = List::from_slice(alloc, low.configs())?;
    Ok(Some(Steps::from_list(same)))
}
