//! Lines of a log that is made for a trace. The line of zone `z` has the number `last - z`, where
//! `last` is the greatest number of a zone, so that the lines of a zone's parts come before its own.

ghost use Rattle.std.specs.Prelude.{◌≡◌, ℕ, ◌+◌, ◌*◌, ◌<◌, ◌≤◌, length, get_or, IfOk};
ghost use Rattle.tl_cert.specs.declared.trace.CutAt.{CutAt};
ghost use Rattle.tl_solve.specs.CutsFound.{AreCutsOf};
ghost use Rattle.tl_solve.specs.inner.Shapes.{closing_line_of, firing_line_of};

use std::alloc::{AllocError, Global};
use tl_base::{List, MAX_BUDGET};
use tl_cert::{End, LogLine, MAX_ZONE, Nogood, Trace};

/// For each zone of the trace the number of the cut that cuts it, `None` where it stands.
pub fn cuts_of_zones(alloc: Global, trace: &Trace) -> Result<Vec<Option<u32>>, AllocError>
    requires few { length trace.now ≤ MAX_BUDGET }
    requires there { (i : ℕ) (d : CutAt) → i < length trace.now → (get_or trace.now i d).zone < 2 * length trace.now + 1 }
    ensures { IfOk result (λ cuts. AreCutsOf trace.now (length trace.now) cuts.items) }
{
    let made = trace.as_slice();
    let mut cuts: Vec<Option<u32>> = vec![in alloc; None; 2 * made.len() + 1]?;
    for number in 0..made.len() {
        cuts[made[number].zone as usize] = Some(number as u32);
    }
    Ok(cuts)
}

/// The line of a zone that stands: it ends by `cycle` if the zone has no widths, by `chain` if its bound is
/// at least `lower`, and otherwise by `area`.
pub(crate) fn closing_line(alloc: Global, zone: u32, bound: Option<u32>, lower: u32) -> LogLine
    ensures { result ≡ closing_line_of zone bound lower }
{
    let end = match bound {
        None => End::Cycle,
        Some(bound) => {
            if lower <= bound {
                End::Chain
            } else {
                End::Area
            }
        }
    };
    LogLine {
        nogood: Nogood::Zone(zone),
        fires: List::new(alloc),
        end,
    }
}

/// The line of a zone that is cut: it fires the lower part, and after it the upper part if that has widths.
/// If it has none, all bounds of the lower part are implied, and that line is enough.
pub(crate) fn firing_line(
    alloc: Global,
    last: u32,
    zone: u32,
    cut: u32,
    upper: Option<u32>,
) -> Result<LogLine, AllocError>
    requires small { last ≤ MAX_ZONE }
    requires there { 2 * cut + 2 ≤ last }
    ensures { IfOk result (λ line. line ≡ firing_line_of last zone cut upper) }
{
    let mut fires = List::new(alloc);
    fires.push(last - (2 * cut + 1))?;
    if upper.is_some() {
        fires.push(last - (2 * cut + 2))?;
    }
    Ok(LogLine {
        nogood: Nogood::Zone(zone),
        fires,
        end: End::Fired,
    })
}
