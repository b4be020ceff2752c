//! The heaviest chain of demands on columns side by side, and with it the least width of a table.

ghost use Rattle.std.specs.Prelude.{◌≡◌, ◌+◌, ◌*◌, ◌-◌, ◌<◌, ◌≤◌, ◌^◌, ℕ, length, sum_by, map, IfOk, IsSomeAnd, slice_get, slice_index, vec_len};
ghost use Rattle.std.specs.List.{All, Any};
ghost use Rattle.std.specs.List.Sorted.{IsPermutation, IsNonDecreasingBy};
ghost use Rattle.tl_base.specs.Style.{gap_of};
ghost use Rattle.tl_table.specs.inner.Demands.{AreDemands, IsPlacedDemand, IsLeastFor, IsRowOf, HaveArcs, arc_of};
ghost use Rattle.tl_table.specs.inner.Demands.{most_gaps, demand_number};
ghost use Rattle.tl_diff.specs.Paths.{IsHeaviest, IsPath, InOrder, LeadForward, path_weight, total_weight};

use std::alloc::{AllocError, Global};
use tl_base::{List, MAX_COLUMNS, Style};
use tl_diff::{Arc, MAX_PATH_WEIGHT, chain, heaviest};

/// What a cell asks of the columns that it covers: a room of at least `width`, their gaps counted.
#[derive(Clone, Copy)]
pub struct Demand {
    pub left: u32,
    pub right: u32,
    pub width: u32,
}

/// The arc of the demand of this number.
#[derive(Clone, Copy, Drop)]
pub struct NumberedArc {
    pub number: u32,
    pub arc: Arc,
}

/// A heaviest chain: the numbers of its demands, and what it weighs.
#[derive(Drop)]
pub struct HeaviestChain {
    pub numbers: List<u32>,
    pub weight: u32,
}

/// What the demand asks of its columns beside the gaps between them.
fn arc_of(demand: Demand, gap: u32) -> Arc
    requires placed { IsPlacedDemand MAX_COLUMNS demand }
    requires gap { gap ≤ 2 }
    ensures { result ≡ arc_of gap demand }
{
    let gaps = gap * (demand.right - demand.left - 1);
    Arc {
        from: demand.left,
        to: demand.right,
        weight: demand.width.saturating_sub(gaps),
    }
}

/// The arcs of the demands that ask for more than their gaps.
fn numbered_arcs(
    alloc: Global,
    demands: &[Demand],
    gap: u32,
) -> Result<Vec<NumberedArc>, AllocError>
    requires placed { All (IsPlacedDemand MAX_COLUMNS) demands.now }
    requires few { length demands.now < 2 ^ 32 }
    requires gap { gap ≤ 2 }
    ensures arcs { IfOk result (λ arcs. HaveArcs gap demands.now (length demands.now) arcs.items) }
    ensures total { IfOk result (λ arcs.
        sum_by (λ one. one.arc.weight) arcs.items ≤ sum_by (λ demand. demand.width) demands.now) }
    ensures few { IfOk result (λ arcs. vec_len arcs ≤ length demands.now) }
{
    let mut arcs = Vec::new(alloc);
    for (number, demand) in demands.iter().enumerate() {
        let arc = arc_of(*demand, gap);
        if arc.weight > 0 {
            arcs.push(NumberedArc {
                number: number as u32,
                arc,
            })?;
        }
    }
    Ok(arcs)
}

/// The arcs in the order of the columns where they begin.
fn in_order(mut arcs: Vec<NumberedArc>) -> Result<Vec<NumberedArc>, AllocError>
    ensures same { IfOk result (λ sorted. IsPermutation arcs.items sorted.items) }
    ensures sorted { IfOk result (λ sorted.
        IsNonDecreasingBy (λ one. one.arc.from) sorted.items) }
    ensures few { IfOk result (λ sorted. vec_len sorted ≡ vec_len arcs) }
{
    arcs.sort_by_key(|one| one.arc.from)?;
    Ok(arcs)
}

/// The arcs without their numbers.
fn plain_arcs(alloc: Global, arcs: &[NumberedArc]) -> Result<Vec<Arc>, AllocError>
    ensures { IfOk result (λ plain. plain.items ≡ map (λ one. one.arc) arcs.now) }
{
    arcs.iter().map(|one| one.arc).collect(alloc)
}

/// The numbers of the demands along a path.
fn numbers_along(alloc: Global, path: &[u32], arcs: &[NumberedArc]) -> Result<List<u32>, AllocError>
    requires { All (λ i. i < length arcs.now) path.now }
    ensures { IfOk result (λ numbers. numbers ≡ map (demand_number arcs.now) path.now) }
{
    let mut numbers = List::new(alloc);
    for i in path {
        numbers.push(arcs[*i as usize].number)?;
    }
    Ok(numbers)
}

/// The number of the first demand that begins in the last column.
fn in_last_column(demands: &[Demand], cols: u32) -> u32
    requires few { length demands.now < 2 ^ 32 }
    requires placed { All (IsPlacedDemand MAX_COLUMNS) demands.now }
    requires there { Any (λ demand. demand.left + 1 ≡ cols) demands.now }
    ensures { IsSomeAnd (slice_get demands.now result) (λ demand. demand.left + 1 ≡ cols) }
{
    for (number, demand) in demands.iter().enumerate() {
        if demand.left + 1 == cols {
            return number as u32;
        }
    }
    unreachable!()
}

/// A heaviest path along the arcs, and what it weighs; `out` is filled with the heaviest weights.
fn heaviest_path(
    alloc: Global,
    cols: u32,
    arcs: &[Arc],
    out: &mut [u32],
) -> Result<(List<u32>, u32), AllocError>
    requires forward { LeadForward cols arcs.now }
    requires in_order { InOrder arcs.now }
    requires light { total_weight arcs.now ≤ MAX_PATH_WEIGHT }
    requires few { length arcs.now < 2 ^ 32 }
    requires room { length out.old ≡ cols + 1 }
    ensures each { (k : ℕ) → k ≤ cols → IsHeaviest arcs.now k (slice_index out.new k) }
    ensures path { IfOk result (λ found. IsPath arcs.now 0 found.0 cols) }
    ensures weight { IfOk result (λ found. path_weight arcs.now found.0 ≡ found.1) }
    ensures last { IfOk result (λ found. found.1 ≡ slice_index out.new cols) }
    ensures small { IfOk result (λ found. found.1 ≤ total_weight arcs.now) }
{
    let weight = heaviest(cols, arcs, out);
    let path = chain(alloc, cols, arcs, out)?;
    Ok((path, weight))
}

/// The arcs of the demands, in the order of the columns where they begin.
fn arcs_in_order(
    alloc: Global,
    demands: &[Demand],
    gap: u32,
) -> Result<Vec<NumberedArc>, AllocError>
    requires placed { All (IsPlacedDemand MAX_COLUMNS) demands.now }
    requires few { length demands.now < 2 ^ 32 }
    requires gap { gap ≤ 2 }
    ensures arcs { IfOk result (λ arcs. HaveArcs gap demands.now (length demands.now) arcs.items) }
    ensures sorted { IfOk result (λ arcs. IsNonDecreasingBy (λ one. one.arc.from) arcs.items) }
    ensures total { IfOk result (λ arcs.
        sum_by (λ one. one.arc.weight) arcs.items ≤ sum_by (λ demand. demand.width) demands.now) }
    ensures few { IfOk result (λ arcs. vec_len arcs ≤ length demands.now) }
{
    let numbered = numbered_arcs(alloc, demands, gap)?;
    let arcs = in_order(numbered)?;
    Ok(arcs)
}

/// A heaviest chain of demands by their arcs.
fn chain_by_arcs(
    alloc: Global,
    cols: u32,
    demands: &[Demand],
    style: Style,
    arcs: &[NumberedArc],
    plain: &[Arc],
) -> Result<HeaviestChain, AllocError>
    requires some { 0 < cols }
    requires demands { AreDemands cols demands.now }
    requires arcs { HaveArcs (gap_of style) demands.now (length demands.now) arcs.now }
    requires sorted { IsNonDecreasingBy (λ one. one.arc.from) arcs.now }
    requires light { sum_by (λ one. one.arc.weight) arcs.now ≤ sum_by (λ demand. demand.width) demands.now }
    requires few { length arcs.now < 2 ^ 32 }
    requires plain { plain.now ≡ map (λ one. one.arc) arcs.now }
    ensures least { IfOk result (λ chain. IsLeastFor style cols demands.now chain.weight) }
    ensures chain { IfOk result (λ chain. IsRowOf style cols demands.now chain.numbers chain.weight) }
    ensures small { IfOk result (λ chain. chain.weight ≤ sum_by (λ demand. demand.width) demands.now + most_gaps) }
{
    let mut out = vec![in alloc; 0u32; cols as usize + 1]?;
    let (path, heaviest) = heaviest_path(alloc, cols, plain, &mut out)?;
    let mut numbers = numbers_along(alloc, path.as_slice(), arcs)?;
    if numbers.is_empty() {
        numbers.push(in_last_column(demands, cols))?;
    }
    let weight = heaviest + style.gap() * (cols - 1) + style.edges();
    Ok(HeaviestChain { numbers, weight })
}

/// A heaviest chain of the demands in a table of so many columns. It weighs the least total width
/// of columns that give each demand its room.
pub fn heaviest_chain(
    alloc: Global,
    cols: u32,
    demands: &[Demand],
    style: Style,
) -> Result<HeaviestChain, AllocError>
    requires some { 0 < cols }
    requires demands { AreDemands cols demands.now }
    ensures least { IfOk result (λ chain. IsLeastFor style cols demands.now chain.weight) }
    ensures chain { IfOk result (λ chain. IsRowOf style cols demands.now chain.numbers chain.weight) }
    ensures small { IfOk result (λ chain. chain.weight ≤ sum_by (λ demand. demand.width) demands.now + most_gaps) }
{
    let arcs = arcs_in_order(alloc, demands, style.gap())?;
    let plain = plain_arcs(alloc, &arcs)?;
    chain_by_arcs(alloc, cols, demands, style, &arcs, &plain)
}
