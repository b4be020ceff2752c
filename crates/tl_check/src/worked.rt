//! Whether a search was worked to its end: at its budget, or with each zone that stands closed.

ghost use Rattle.std.specs.Prelude.{◌≡◌, ◌+◌, ◌*◌, ◌<◌, ◌≤◌, length, IsTrue, ◌↔◌, MatchOption, IsSomeAnd};
ghost use Rattle.tl_base.specs.Steps.{height_at};
ghost use Rattle.tl_problem.specs.Agreement.{DifferIn, HasOneClass};
ghost use Rattle.tl_problem.specs.Bounds.{HasNoWidths, IsBound};
ghost use Rattle.tl_problem.specs.Sound.{IsSound};
ghost use Rattle.tl_problem.specs.Spans.{spans_of};
ghost use Rattle.tl_problem.specs.Works.{HasPage};
ghost use Rattle.tl_problem.specs.Zones.{InZone, classes_at, first_in_class, last_in_class};
ghost use Rattle.tl_cert.specs.Traces.{IsTraceOf, IsZoneOf, zone_of};
ghost use Rattle.tl_cert.specs.Worked.{IsClosedZone, IsWorkedBelow};
ghost use Rattle.tl_check.specs.inner.Traces.{AllClosed, AreFlags, CellDiffers, CutsAreNeeded, HasOpening, IsEnough, SpanDiffers};

use crate::nogoods::keep_zone;
use crate::traces::stands;
use crate::zones::{span_count, zone_range};
use tl_base::{MAX_BUDGET, MAX_PAGE_WIDTH};
use tl_cert::{CutAt, Section};
use tl_problem::{Cell, Problem, Range, Work};

/// Whether a section whose lower bound is below its height was worked for the budget. `opening` is the
/// height of the opening.
pub fn is_worked(
    problem: &Problem,
    section: &Section,
    budget: u32,
    opening: u32,
    is_cut: &[bool],
    work: &mut Work,
) -> bool
    requires trace { IsTraceOf problem.now section.now.trace }
    requires few { length section.now.trace ≤ MAX_BUDGET }
    requires flags { AreFlags section.now.trace is_cut.now }
    requires opening { HasOpening problem.now opening }
    requires page { HasPage problem.now work.old }
    requires mark { length work.old.matrix.held < work.old.matrix.marks }
    ensures worked { IsTrue result ↔ IsWorkedBelow problem.now section.now.trace section.now.height section.now.lower budget }
    ensures page { HasPage problem.now work.new }
    ensures matrix { work.new.matrix ≡ work.old.matrix }
{
    let trace = section.trace.as_slice();
    if !cuts_are_needed(problem, trace, opening, work) {
        return false;
    }
    if !is_enough(problem, trace, section.lower, is_cut, work) {
        return false;
    }
    if trace.len() == budget as usize {
        return true;
    }
    are_closed(problem, trace, section.height, is_cut, work)
}

/// The bound of a zone of the trace; `None` where it has no widths.
fn zone_bound(problem: &Problem, trace: &[CutAt], z: u32, work: &mut Work) -> Option<u32>
    requires trace { IsTraceOf problem.now trace.now }
    requires zone { IsZoneOf trace.now z }
    requires page { HasPage problem.now work.old }
    requires mark { length work.old.matrix.held < work.old.matrix.marks }
    ensures bound { MatchOption result (HasNoWidths (InZone problem.now (zone_of problem.now trace.now z)))
        (IsBound problem.now (InZone problem.now (zone_of problem.now trace.now z))) }
    ensures page { HasPage problem.now work.new }
    ensures matrix { work.new.matrix ≡ work.old.matrix }
{
    work.matrix.mark();
    keep_zone(problem, trace, z, &mut work.matrix);
    let bound = problem.held_bound(work);
    work.matrix.undo();
    bound
}

/// Whether each zone that was cut had a bound below the height of the opening.
fn cuts_are_needed(problem: &Problem, trace: &[CutAt], opening: u32, work: &mut Work) -> bool
    requires trace { IsTraceOf problem.now trace.now }
    requires page { HasPage problem.now work.old }
    requires mark { length work.old.matrix.held < work.old.matrix.marks }
    ensures needed { IsTrue result ↔ CutsAreNeeded problem.now trace.now opening (length trace.now) }
    ensures page { HasPage problem.now work.new }
    ensures matrix { work.new.matrix ≡ work.old.matrix }
{
    for i in 0..trace.len() {
        if !is_below(zone_bound(problem, trace, trace[i].zone, work), opening) {
            return false;
        }
    }
    true
}

/// Whether there is a bound and it is below `height`.
fn is_below(bound: Option<u32>, height: u32) -> bool
    ensures { IsTrue result ↔ IsSomeAnd bound (λ bound. bound < height) }
{
    match bound {
        Some(bound) => bound < height,
        None => false,
    }
}

/// Whether some zone that stands has a bound of at most `lower`.
fn is_enough(
    problem: &Problem,
    trace: &[CutAt],
    lower: u32,
    is_cut: &[bool],
    work: &mut Work,
) -> bool
    requires trace { IsTraceOf problem.now trace.now }
    requires few { length trace.now ≤ MAX_BUDGET }
    requires flags { AreFlags trace.now is_cut.now }
    requires page { HasPage problem.now work.old }
    requires mark { length work.old.matrix.held < work.old.matrix.marks }
    ensures enough { IsTrue result ↔ IsEnough problem.now trace.now lower (2 * length trace.now + 1) }
    ensures page { HasPage problem.now work.new }
    ensures matrix { work.new.matrix ≡ work.old.matrix }
{
    let count = 2 * trace.len() as u32 + 1;
    for z in 0..count {
        if stands(trace, z, is_cut) && is_at_most(zone_bound(problem, trace, z, work), lower) {
            return true;
        }
    }
    false
}

/// Whether there is a bound and it is at most `lower`.
fn is_at_most(bound: Option<u32>, lower: u32) -> bool
    ensures { IsTrue result ↔ IsSomeAnd bound (λ bound. bound ≤ lower) }
{
    match bound {
        Some(bound) => bound <= lower,
        None => false,
    }
}

/// Whether each zone that stands is closed for the height.
fn are_closed(
    problem: &Problem,
    trace: &[CutAt],
    height: u32,
    is_cut: &[bool],
    work: &mut Work,
) -> bool
    requires trace { IsTraceOf problem.now trace.now }
    requires few { length trace.now ≤ MAX_BUDGET }
    requires flags { AreFlags trace.now is_cut.now }
    requires page { HasPage problem.now work.old }
    requires mark { length work.old.matrix.held < work.old.matrix.marks }
    ensures closed { IsTrue result ↔ AllClosed problem.now trace.now height (2 * length trace.now + 1) }
    ensures page { HasPage problem.now work.new }
    ensures matrix { work.new.matrix ≡ work.old.matrix }
{
    let count = 2 * trace.len() as u32 + 1;
    for z in 0..count {
        if !stands(trace, z, is_cut) {
            continue;
        }
        if !is_closed(problem, trace, z, height, work) {
            return false;
        }
    }
    true
}

/// Whether the zone is closed for the height: it has no widths, or a bound of at least the height, or
/// one class for each span while `low` and `high` of some cell differ there.
fn is_closed(problem: &Problem, trace: &[CutAt], z: u32, height: u32, work: &mut Work) -> bool
    requires trace { IsTraceOf problem.now trace.now }
    requires zone { IsZoneOf trace.now z }
    requires page { HasPage problem.now work.old }
    requires mark { length work.old.matrix.held < work.old.matrix.marks }
    ensures closed { IsTrue result ↔ IsClosedZone problem.now (zone_of problem.now trace.now z) height }
    ensures page { HasPage problem.now work.new }
    ensures matrix { work.new.matrix ≡ work.old.matrix }
{
    match zone_bound(problem, trace, z, work) {
        None => true,
        Some(bound) => {
            bound >= height || (has_one_class(problem, trace, z) && differs(problem, trace, z))
        }
    }
}

/// Whether the zone has one class for each span.
fn has_one_class(problem: &Problem, trace: &[CutAt], z: u32) -> bool
    requires sound { IsSound problem.now }
    requires trace { IsTraceOf problem.now trace.now }
    requires zone { IsZoneOf trace.now z }
    ensures { IsTrue result ↔ HasOneClass (zone_of problem.now trace.now z) }
{
    let count = span_count(problem);
    for s in 0..count {
        let range = zone_range(problem, trace, z, s);
        if range.first != range.last {
            return false;
        }
    }
    true
}

/// Whether `low` and `high` of some cell differ at a width that the zone gives its span.
fn differs(problem: &Problem, trace: &[CutAt], z: u32) -> bool
    requires sound { IsSound problem.now }
    requires trace { IsTraceOf problem.now trace.now }
    requires zone { IsZoneOf trace.now z }
    ensures { IsTrue result ↔ DifferIn problem.now (zone_of problem.now trace.now z) }
{
    let count = span_count(problem);
    for s in 0..count {
        let range = zone_range(problem, trace, z, s);
        if span_differs(problem, s, range) {
            return true;
        }
    }
    false
}

/// Whether `low` and `high` of some cell of the span differ at a width of these classes.
fn span_differs(problem: &Problem, s: u32, range: Range) -> bool
    requires sound { IsSound problem.now }
    requires span { s < length (spans_of problem.now) }
    requires first { range.first < length (classes_at problem.now s) }
    requires last { range.last < length (classes_at problem.now s) }
    ensures { IsTrue result ↔ SpanDiffers problem.now s (first_in_class problem.now s range.first)
        (last_in_class problem.now s range.last) (length problem.now.cells) }
{
    let first = problem.classes(s)[range.first as usize];
    let last = last_width(problem, s, range.last);
    some_cell_differs(problem, s, first, last)
}

/// Whether `low` and `high` of some cell of the span differ at a width from `first` to `last`.
fn some_cell_differs(problem: &Problem, s: u32, first: u32, last: u32) -> bool
    requires span { s < length (spans_of problem.now) }
    requires last { last ≤ MAX_PAGE_WIDTH }
    ensures { IsTrue result ↔ SpanDiffers problem.now s first last (length problem.now.cells) }
{
    let span = problem.spans()[s as usize];
    let cells = problem.cells();
    for number in 0..cells.len() {
        let cell = &cells[number];
        if cell.left == span.left && cell.right == span.right && cell_differs(cell, first, last) {
            return true;
        }
    }
    false
}

/// The last width of the class.
fn last_width(problem: &Problem, s: u32, class: u32) -> u32
    requires span { s < length (spans_of problem.now) }
    requires class { class < length (classes_at problem.now s) }
    ensures { result ≡ last_in_class problem.now s class }
{
    match problem.classes(s).get(class as usize + 1) {
        Some(next) => next.saturating_sub(1),
        None => problem.width().saturating_sub(problem.spacing().edges),
    }
}

/// Whether `low` and `high` of the cell differ at a width from `first` to `last`.
fn cell_differs(cell: &Cell, first: u32, last: u32) -> bool
    requires { last ≤ MAX_PAGE_WIDTH }
    ensures { IsTrue result ↔ CellDiffers cell.now first last }
{
    for w in first..last + 1 {
        if cell.low.height_at(w) != cell.high.height_at(w) {
            return true;
        }
    }
    false
}
