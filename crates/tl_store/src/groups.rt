//! The numbers of nogoods in groups by a bound that all of a group have, so that a zone is compared with those
//! groups alone whose bound it implies.

ghost use Rattle.std.specs.Prelude.{◌≡◌, ◌≢◌, ℕ, ◌+◌, ◌<◌, ◌≤◌, ◌^◌, List, false, length, get_or, IfSome, IsTrue, ◌↔◌, OnOk};
ghost use Rattle.std.specs.List.{Contains};
ghost use Rattle.std.specs.Cmp.Lexicographic.{pointwise};
ghost use Rattle.indexmap.specs.IndexSet.{contains_by};
ghost use Rattle.tl_cert.specs.contracts.log.BoundPartialEq.TheImpl.{ghosts};
ghost use Rattle.tl_cert.specs.declared.log.Bound.{Bound as B};
ghost use Rattle.tl_store.specs.declared.groups.Group.{Group as G};
ghost use Rattle.tl_store.specs.Stores.{AreOnSpans, IsHeadOf, IsListed};

use crate::keys::is_same;
use indexmap::IndexSet;
use std::alloc::{AllocError, Global};
use tl_cert::Bound;

/// Nogoods that have a bound in common.
#[derive(Drop)]
pub struct Group {
    /// The bound that each of them has; `None` for the nogood without bounds.
    pub head: Option<Bound>,
    /// Their numbers.
    pub numbers: Vec<u32>,
}

/// Puts the next number into the group of the key's last bound, where the key is not kept yet.
pub fn list_new(
    alloc: Global,
    groups: &mut Vec<Group>,
    kept: &IndexSet<Vec<Bound>>,
    key: &[Bound],
) -> Result<(), AllocError>
    requires few { length kept.now.keys < 2 ^ 32 }
    ensures more { (bounds : List B) (k : ℕ) → IsListed groups.old.items bounds k → IsListed groups.new.items bounds k }
    ensures spans { (count : ℕ) → AreOnSpans count groups.old.items → ((b : B) → Contains key.now b → b.span < count) →
        AreOnSpans count groups.new.items }
    ensures listed { OnOk result (contains_by (λ k. pointwise ghosts.eq key.now k.items) kept.now ≡ false →
        IsListed groups.new.items key.now (length kept.now.keys)) }
{
    if kept.contains(key) {
        return Ok(());
    }
    list(alloc, groups, last_of(key), kept.len() as u32)
}

/// The last of the bounds; `None` where there are none.
fn last_of(bounds: &[Bound]) -> Option<Bound>
    ensures { IsHeadOf result bounds.now }
{
    if bounds.is_empty() {
        return None;
    }
    Some(bounds[bounds.len() - 1])
}

/// Puts the number into the group of this bound, which is made where it is not there.
fn list(
    alloc: Global,
    groups: &mut Vec<Group>,
    head: Option<Bound>,
    number: u32,
) -> Result<(), AllocError>
    ensures more { (bounds : List B) (k : ℕ) → IsListed groups.old.items bounds k → IsListed groups.new.items bounds k }
    ensures spans { (count : ℕ) → AreOnSpans count groups.old.items → IfSome head (λ b. b.span < count) →
        AreOnSpans count groups.new.items }
    ensures listed { OnOk result ((bounds : List B) → IsHeadOf head bounds → IsListed groups.new.items bounds number) }
{
    let place = place_of_head(groups, head);
    if place >= groups.len() {
        let mut numbers = Vec::new(alloc);
        numbers.push(number)?;
        groups.push(Group { head, numbers })?;
        return Ok(());
    }
    groups[place].numbers.push(number)?;
    Ok(())
}

/// The place of the group of this bound, or their count where it is not there.
fn place_of_head(groups: &[Group], head: Option<Bound>) -> usize
    ensures there { result ≤ length groups.now }
    ensures before { (i : ℕ) (d : G) → i < result → (get_or groups.now i d).head ≢ head }
    ensures at { (d : G) → result < length groups.now → (get_or groups.now result d).head ≡ head }
{
    for place in 0..groups.len() {
        if is_head(groups[place].head, head) {
            return place;
        }
    }
    groups.len()
}

/// Whether both are the same bound, or both none.
fn is_head(one: Option<Bound>, other: Option<Bound>) -> bool
    ensures { IsTrue result ↔ (one ≡ other) }
{
    match (one, other) {
        (None, None) => true,
        (Some(one), Some(other)) => is_same(one, other),
        _ => false,
    }
}
