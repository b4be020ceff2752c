//! The bounds of nogoods in order, each once, so that nogoods with the same bounds are one.

ghost use Rattle.std.specs.Prelude.{◌≡◌, ◌≢◌, ◌⊎◌, ℕ, ◌+◌, ◌<◌, ◌≤◌, true, false, length, get_or, IsTrue, ◌↔◌, IfOk, OnOk};
ghost use Rattle.std.specs.List.{AllPairs, Contains};
ghost use Rattle.tl_cert.specs.declared.log.Bound.{Bound as B};
ghost use Rattle.tl_cert.specs.Nogoods.{NamesAreThere, nogood_bounds};
ghost use Rattle.tl_cert.specs.Traces.{IsTraceOf};
ghost use Rattle.tl_problem.specs.Sound.{IsSound};
ghost use Rattle.tl_store.specs.Stores.{BoundComesFirst, HaveSame, bound_place};

use std::alloc::{AllocError, Global};
use tl_base::List;
use tl_cert::{Bound, Nogood, Side, Trace};
use tl_check::bounds_of_zone;
use tl_problem::Problem;

/// The bounds of the nogood, those of a zone span by span.
pub fn bounds_of(
    alloc: Global,
    problem: &Problem,
    trace: &Trace,
    nogood: &Nogood,
) -> Result<List<Bound>, AllocError>
    requires sound { IsSound problem.now }
    requires trace { IsTraceOf problem.now trace.now }
    requires names { NamesAreThere problem.now trace.now nogood.now }
    ensures { IfOk result (λ bounds. bounds ≡ nogood_bounds problem.now trace.now nogood.now) }
{
    match nogood {
        Nogood::Zone(zone) => bounds_of_zone(alloc, problem, trace.as_slice(), *zone),
        Nogood::Bounds(bounds) => List::from_slice(alloc, bounds.as_slice()),
    }
}

/// The bounds in order, each once.
pub fn key_of(alloc: Global, bounds: &[Bound]) -> Result<Vec<Bound>, AllocError>
    ensures sorted { IfOk result (λ key. AllPairs BoundComesFirst key.items) }
    ensures same { IfOk result (λ key. HaveSame bounds.now key.items) }
    ensures no_more { IfOk result (λ key. length key.items ≤ length bounds.now) }
{
    let mut key = Vec::new(alloc);
    'bounds: for bound in bounds {
        put(&mut key, *bound)?;
    }
    Ok(key)
}

/// Puts the bound at its place, where it is not there.
fn put(key: &mut Vec<Bound>, bound: Bound) -> Result<(), AllocError>
    requires sorted { AllPairs BoundComesFirst key.old.items }
    ensures sorted { AllPairs BoundComesFirst key.new.items }
    ensures has { OnOk result ((other : B) → Contains key.new.items other ↔ (Contains key.old.items other ⊎ (bound ≡ other))) }
    ensures one_more { OnOk result (length key.new.items ≤ length key.old.items + 1) }
{
    let place = place_of(key, bound);
    if is_at(key, place, bound) {
        return Ok(());
    }
    key.insert(place, bound)?;
    Ok(())
}

/// Whether the bound is at the place.
fn is_at(key: &[Bound], place: usize, bound: Bound) -> bool
    ensures yes { result ≡ true → Contains key.now bound }
    ensures no { result ≡ false → (d : B) → place < length key.now → get_or key.now place d ≢ bound }
{
    place < key.len() && is_same(key[place], bound)
}

/// Whether the bounds are one.
pub fn is_same(one: Bound, other: Bound) -> bool
    ensures { IsTrue result ↔ (one ≡ other) }
{
    one == other
}

/// The place of the first bound that does not come before this one.
fn place_of(key: &[Bound], bound: Bound) -> usize
    ensures there { result ≤ length key.now }
    ensures before { (i : ℕ) (d : B) → i < result → BoundComesFirst (get_or key.now i d) bound }
    ensures at { (d : B) → result < length key.now → BoundComesFirst (get_or key.now result d) bound → ⊥ }
{
    for place in 0..key.len() {
        if !comes_first(key[place], bound) {
            return place;
        }
    }
    key.len()
}

/// Whether the first bound comes before the second.
fn comes_first(first: Bound, second: Bound) -> bool
    ensures { IsTrue result ↔ BoundComesFirst first second }
{
    let one = place(first);
    let other = place(second);
    one < other || (one == other && first.width < second.width)
}

/// The place of a bound by its span and its side.
fn place(bound: Bound) -> u64
    ensures { result ≡ bound_place bound }
{
    let side = match bound.side {
        Side::Most => 0,
        Side::Least => 1,
    };
    2 * u64::from(bound.span) + side
}
