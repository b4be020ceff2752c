//! The parts of a book once a piece is taken in.

ghost use Rattle.std.specs.Prelude.{◌≡◌, ◌+◌, ◌*◌, ◌<◌, ◌≤◌, length, IfOk};
ghost use Rattle.std.specs.List.{All};
ghost use Rattle.tl_cert.specs.Appended.{appended, cut_named, zone_named};
ghost use Rattle.tl_rounds.specs.Book.{lefts_after, lower_of, without};

use std::alloc::{AllocError, Global};
use tl_base::{List, MAX_BUDGET};
use tl_cert::{CutAt, MAX_ZONE, Trace};
use tl_problem::Placed;

/// The number of zone `j` of a piece of zone `z`, after so many cuts.
fn zone_named(z: u32, cuts: u32, j: u32) -> u32
    requires cuts { cuts ≤ MAX_BUDGET }
    requires there { j ≤ MAX_ZONE }
    ensures { result ≡ zone_named z cuts j }
{
    if j == 0 { z } else { 2 * cuts + j }
}

/// The cuts of the book, and after them those of a piece of zone `z`.
pub(crate) fn appended(
    alloc: Global,
    trace: &[CutAt],
    z: u32,
    piece: &[CutAt],
) -> Result<Trace, AllocError>
    requires few { length trace.now + length piece.now ≤ MAX_BUDGET }
    requires there { All (λ cut. cut.zone ≤ MAX_ZONE) piece.now }
    ensures { IfOk result (λ all. all ≡ appended trace.now z piece.now) }
{
    let cuts = trace.len() as u32;
    let mut all = List::from_slice(alloc, trace)?;
    for cut in piece {
        all.push(CutAt {
            zone: zone_named(z, cuts, cut.zone),
            span: cut.span,
            class: cut.class,
        })?;
    }
    Ok(all)
}

/// The zones that are left but for `z`, and after them those that a piece of it left, after so many cuts.
pub(crate) fn left_after(
    alloc: Global,
    lefts: &[u32],
    z: u32,
    cuts: u32,
    more: &[u32],
) -> Result<List<u32>, AllocError>
    requires cuts { cuts ≤ MAX_BUDGET }
    requires there { All (λ j. j ≤ MAX_ZONE) more.now }
    ensures { IfOk result (λ left. left ≡ lefts_after z cuts lefts.now more.now) }
{
    let mut left = others(alloc, lefts, z)?;
    for &j in more {
        left.push(zone_named(z, cuts, j))?;
    }
    Ok(left)
}

/// The zones that are left but for `z`.
fn others(alloc: Global, lefts: &[u32], z: u32) -> Result<List<u32>, AllocError>
    ensures { IfOk result (λ left. left ≡ without z lefts.now) }
{
    let mut left = List::new(alloc);
    for &zone in lefts {
        if zone != z {
            left.push(zone)?;
        }
    }
    Ok(left)
}

/// Takes the placement that was found for the best, where there is one and it is lower.
pub(crate) fn lower(best: &mut Placed, found: Option<Placed>)
    ensures { best.new ≡ lower_of best.old found }
{
    if let Some(placed) = found {
        if placed.height < best.height {
            *best = placed;
        }
    }
}
