//! The least sizes of columns, or rows, that give each cell at least what it demands: heaviest paths
//! over the cells in the order in which they begin.

ghost use Rattle.std.specs.Prelude.{◌≡◌, ℕ, ◌+◌, ◌-◌, ◌*◌, ◌<◌, ◌≤◌, ◌^◌, length, slice_index, sum, IfOk};
ghost use Rattle.tl_base.specs.Sizes.{IsLeastTotal};
ghost use Rattle.tl_problem.specs.declared.axis.Axis.TheVariants.{Rows};
ghost use Rattle.tl_problem.specs.Placements.{AreLeast};
ghost use Rattle.tl_problem.specs.inner.Axes.{count_on, end_of, gap_on, start_of};
ghost use Rattle.tl_problem.specs.inner.Demands.{AreArcs, GiveDemands, HaveEnds, cell_arc, rises};

use crate::axis::Axis;
use crate::{Cell, Problem};
use std::alloc::{AllocError, Global};
use tl_base::{List, MAX_HEIGHT, MAX_ROWS};
use tl_diff::{Arc, MAX_PATH_WEIGHT, heaviest};

/// An arc that stands in a buffer until another is written over it.
pub const NO_ARC: Arc = Arc {
    from: 0,
    to: 1,
    weight: 0,
};

/// The least sizes that give each cell what it demands.
pub fn least_sizes(problem: &Problem, axis: Axis, demands: &[u32]) -> Result<List<u32>, AllocError>
    requires count { length demands.now ≡ length problem.now.cells }
    requires fits { sum demands.now ≤ MAX_PATH_WEIGHT }
    ensures least { IfOk result (AreLeast (gap_on axis problem.now)
        (GiveDemands problem.now axis demands.now)) }
    ensures small { IfOk result (λ sizes. sum sizes ≤ sum demands.now) }
{
    let mut arcs = vec![in problem.alloc(); NO_ARC; problem.cells().len()]?;
    let mut ends = vec![in problem.alloc(); 0; axis.count(problem) as usize + 1]?;
    let sizes = sizes_in(problem, axis, demands, &mut arcs, &mut ends)?;
    Ok(sizes)
}

/// The least sizes that give each cell what it demands. `arcs` and `ends` are room.
fn sizes_in(
    problem: &Problem,
    axis: Axis,
    demands: &[u32],
    arcs: &mut [Arc],
    ends: &mut [u32],
) -> Result<List<u32>, AllocError>
    requires count { length demands.now ≡ length problem.now.cells }
    requires fits { sum demands.now ≤ MAX_PATH_WEIGHT }
    requires arc_room { length arcs.old ≡ length problem.now.cells }
    requires end_room { length ends.old ≡ count_on axis problem.now + 1 }
    ensures least { IfOk result (AreLeast (gap_on axis problem.now)
        (GiveDemands problem.now axis demands.now)) }
    ensures small { IfOk result (λ sizes. sum sizes ≤ sum demands.now) }
{
    find_ends(problem, axis, demands, arcs, ends);
    let sizes = sizes_between(problem.alloc(), ends)?;
    Ok(sizes)
}

/// The least total height of rows that give each cell what it demands. `arcs` and `ends` are room.
pub fn least_height(problem: &Problem, demands: &[u32], arcs: &mut [Arc], ends: &mut [u32]) -> u32
    requires count { length demands.now ≡ length problem.now.cells }
    requires fits { sum demands.now ≤ MAX_HEIGHT }
    requires arc_room { length arcs.old ≡ length problem.now.cells }
    requires end_room { length ends.old ≡ problem.now.rows + 1 }
    ensures { IsLeastTotal problem.now.spacing.row_gap problem.now.spacing.lines
        (GiveDemands problem.now Rows demands.now) result }
{
    let spacing = problem.spacing();
    let rows = problem.rows();
    let sizes = find_ends(problem, Axis::Rows, demands, arcs, ends);
    if rows == 0 {
        return 0;
    }
    sizes + spacing.row_gap * (rows - 1) + spacing.lines
}

/// Fills `ends[k]` with the least sum of the first `k` sizes, and returns that of all.
fn find_ends(
    problem: &Problem,
    axis: Axis,
    demands: &[u32],
    arcs: &mut [Arc],
    ends: &mut [u32],
) -> u32
    requires count { length demands.now ≡ length problem.now.cells }
    requires fits { sum demands.now ≤ MAX_PATH_WEIGHT }
    requires arc_room { length arcs.old ≡ length problem.now.cells }
    requires end_room { length ends.old ≡ count_on axis problem.now + 1 }
    ensures ends { HaveEnds problem.now axis demands.now ends.new }
    ensures last { result ≡ slice_index ends.new (count_on axis problem.now) }
    ensures small { result ≤ sum demands.now }
{
    fill_arcs(problem, axis, demands, arcs);
    heaviest(axis.count(problem), arcs, ends)
}

/// Fills `arcs` with an arc for each cell, in the order in which the cells begin.
fn fill_arcs(problem: &Problem, axis: Axis, demands: &[u32], arcs: &mut [Arc])
    requires count { length demands.now ≡ length problem.now.cells }
    requires room { length arcs.old ≡ length problem.now.cells }
    ensures { AreArcs problem.now axis demands.now arcs.new }
{
    let gap = axis.gap(problem);
    let cells = problem.cells();
    let order = problem.order(axis);
    for place in 0..order.len() {
        let cell = order[place].cell as usize;
        arcs[place] = arc_of(axis, gap, &cells[cell], demands[cell]);
    }
}

/// The arc of a cell: what it demands beyond the gaps inside its span.
fn arc_of(axis: Axis, gap: u32, cell: &Cell, demand: u32) -> Arc
    requires ahead { start_of axis cell.now < end_of axis cell.now }
    requires near { end_of axis cell.now ≤ MAX_ROWS + 1 }
    requires small { gap ≤ 2 }
    ensures { result ≡ cell_arc axis gap cell.now demand }
{
    let from = axis.start(cell);
    let to = axis.end(cell);
    Arc {
        from,
        to,
        weight: demand.saturating_sub(gap * (to - from - 1)),
    }
}

/// The sizes between the ends.
fn sizes_between(alloc: Global, ends: &[u32]) -> Result<List<u32>, AllocError>
    requires some { 0 < length ends.now }
    requires rising { (k : ℕ) → k + 1 < length ends.now →
        slice_index ends.now k ≤ slice_index ends.now (k + 1) }
    ensures { IfOk result (λ sizes.
        sizes ≡ rises (λ k. slice_index ends.now k) (length ends.now - 1)) }
{
    let mut sizes = List::new(alloc);
    for k in 0..ends.len() - 1 {
        sizes.push(ends[k + 1] - ends[k])?;
    }
    Ok(sizes)
}
