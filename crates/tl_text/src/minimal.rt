//! The widths that a paragraph is worth.

ghost use Rattle.std.specs.Prelude.{◌≡◌, ◌+◌, ◌-◌, ◌^◌, ◌≤◌, ◌<◌, ℕ, [], None, length, IfOk, map};
ghost use Rattle.std.specs.List.{All};
ghost use Rattle.tl_text.specs.Cuttings.{HasCutting};
ghost use Rattle.tl_text.specs.Minimal.{AreMinimal};
ghost use Rattle.tl_text.specs.inner.Measure.{measure_of, lines_after, unit_columns};

use crate::filling::Filling;
use crate::measure::{Measure, measured};
use crate::{Para, least_width};
use std::alloc::{AllocError, Global};
use tl_base::{Config, List, MAX_FILE_BYTES, MAX_PAGE_WIDTH, Steps};

/// The widths up to `most` columns that the paragraph is worth, each with its least number of
/// lines: those at which one column less takes more lines, or at which no cutting held before.
///
/// Each unit is measured once. After a width the next one worth trying is the least at which some
/// line of its greedy cutting could take one more unit.
pub fn configs(alloc: Global, p: &Para, most: u32) -> Result<Steps, AllocError>
    requires holds { HasCutting most p.now }
    requires limit { most ≤ MAX_PAGE_WIDTH }
    ensures { IfOk result (AreMinimal p.now most) }
{
    let measures = measures(alloc, p)?;
    let units = measures.as_slice();
    let width = least_width(p);
    let mut filling = filled(units, width, most);
    let mut list = List::new(alloc);
    list.push(Config {
        width,
        height: filling.lines(),
    })?;
    while filling.next <= u64::from(most) {
        let width = filling.next as u32;
        let wider = filled(units, width, most);
        if wider.lines() < filling.lines() {
            list.push(Config {
                width,
                height: wider.lines(),
            })?;
        }
        filling = wider;
    }
    Ok(Steps::new(list).unwrap())
}

/// What breaking sees of each atom.
fn measures(alloc: Global, p: &Para) -> Result<List<Measure>, AllocError>
    ensures measured { IfOk result (λ list. list ≡ map measure_of p.now) }
    ensures few { IfOk result (λ list. length list ≤ MAX_FILE_BYTES) }
{
    let atoms = p.atoms();
    let mut list = List::new(alloc);
    for atom in atoms {
        list.push(measured(atom))?;
    }
    Ok(list)
}

/// The lines of `width` columns that are filled with all of the units. At each width from `width`
/// on, up to the next one worth trying, there are as many.
fn filled(units: &[Measure], width: u32, most: u32) -> Filling
    requires fits { All (λ unit. unit_columns unit ≤ width) units.now }
    requires width { width ≤ most }
    requires few { length units.now < 2 ^ 32 - 1 }
    ensures lines { (w : ℕ) → width ≤ w → w < result.next
        → result.ended + lines_after w result.line [] ≡ lines_after w None units.now }
    ensures next { (width < result.next) × (result.next ≤ most + 1) }
    ensures ended { result.ended ≤ length units.now }
{
    let mut filling = Filling::new(u64::from(most) + 1);
    for unit in units {
        filling = filling.with(*unit, width);
    }
    filling
}
