//! Looks at one zone: whether it may hold a layout that is low enough, and where it is cut.

ghost use Rattle.std.specs.Prelude.{◌≡◌, ◌<◌, ◌≤◌, ◌^◌, length, IfNone, IfOk, IfSome};
ghost use Rattle.tl_problem.specs.Agreement.{HasOneClass, LowIsHigh};
ghost use Rattle.tl_problem.specs.Works.{IsWorkOf};
ghost use Rattle.tl_problem.specs.Zones.{IsFirstOpen, IsZone, range_at};
ghost use Rattle.tl_tidy.specs.Needs.{HasLowBound, first_part, rest_part};
ghost use Rattle.tl_tidy.specs.inner.Looks.{IsTightIn, LooksAs};

use std::alloc::AllocError;
use tl_problem::{Placed, Problem, Range, Work, Zone};

/// What a look at a zone finds.
pub(crate) enum Look {
    /// No layout in the zone is low enough: it has no widths, or a bound above the height.
    TooHigh,
    /// Each span has one class, and a layout in the zone is low enough.
    OneClass,
    /// The zone is to be cut at the span with this number, its first of more than one class.
    Cut(u32),
}

/// Looks at the zone.
pub(crate) fn look_at(problem: &Problem, zone: &Zone, height: u32, work: &mut Work) -> Look
    requires zone { IsZone problem.now zone.now }
    requires work { IsWorkOf problem.now work.old }
    ensures looks { LooksAs problem.now height zone.now result }
    ensures work { IsWorkOf problem.now work.new }
{
    match problem.bound_of(zone, work) {
        Some(bound) if bound <= height => match first_open(zone.ranges()) {
            Some(span) => Look::Cut(span),
            None => Look::OneClass,
        },
        _ => Look::TooHigh,
    }
}

/// The number of the first range of more than one class.
fn first_open(ranges: &[Range]) -> Option<u32>
    requires { length ranges.now < 2 ^ 32 }
    ensures none { IfNone result (HasOneClass ranges.now) }
    ensures first { IfSome result (IsFirstOpen ranges.now) }
{
    for number in 0..ranges.len() {
        if ranges[number].first != ranges[number].last {
            return Some(number as u32);
        }
    }
    None
}

/// The two parts of the zone, cut at its first span of more than one class, after the first of
/// them.
pub(crate) fn cut_first(zone: &Zone, span: u32) -> Result<(Zone, Zone), AllocError>
    requires ordered { (range_at zone.now span).first ≤ (range_at zone.now span).last }
    requires first { IsFirstOpen zone.now span }
    ensures lower { IfOk result (λ parts. parts.0 ≡ first_part zone.now span) }
    ensures upper { IfOk result (λ parts. parts.1 ≡ rest_part zone.now span) }
{
    let class = zone.ranges()[span as usize].first;
    zone.cut(span, class)
}

/// The placement of the least positions of a zone of one class for each span, made tight.
pub(crate) fn place_tight(
    problem: &Problem,
    zone: &Zone,
    height: u32,
    work: &mut Work,
) -> Result<Placed, AllocError>
    requires agree { LowIsHigh problem.now }
    requires zone { IsZone problem.now zone.now }
    requires work { IsWorkOf problem.now work.old }
    requires one { HasOneClass zone.now }
    requires bound { HasLowBound problem.now height zone.now }
    ensures tight { IfOk result (IsTightIn problem.now zone.now) }
    ensures low { IfOk result (λ placed. placed.height ≤ height) }
{
    let found = problem.place_in(zone, work)?;
    let least = found.unwrap();
    let placed = problem.tight(&least)?;
    Ok(placed)
}
