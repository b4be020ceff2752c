//! Cuts a page into strips along one axis.

ghost use Rattle.std.specs.Prelude.{◌≡◌, ◌+◌, ◌*◌, ◌<◌, ◌≤◌, ◌^◌, length, sum, get_or, ℕ, List, [], ◌∷◌, ◌++◌, IfOk, OnOk};
ghost use Rattle.tl_base.specs.Sizes.{room, total};
ghost use Rattle.tl_page.specs.Strips.{begin_in, even, strips as page_strips};
ghost use Rattle.tl_page.specs.declared.strip.Gaps.{Gaps};

use crate::strip::{Gaps, Strip};
use std::alloc::{AllocError, Global};
use tl_base::List;

/// The strips of these sizes, with a gap between two and an edge on both sides.
pub fn strips(
    alloc: Global,
    gaps: Gaps,
    edge: u32,
    sizes: &[u32],
) -> Result<List<Strip>, AllocError>
    requires gap { gaps.between ≤ 2 }
    requires edge { edge ≤ 1 }
    requires room { sum sizes.now + 3 * length sizes.now < 2 ^ 31 }
    ensures { IfOk result (λ list. list ≡ page_strips gaps edge sizes.now) }
{
    let mut list = List::new(alloc);
    if sizes.is_empty() {
        return Ok(list);
    }
    list.push(Strip {
        before: 0,
        after: 1,
        from: 0,
        size: edge,
    })?;
    let mut from = edge;
    let mut slot = 1;
    for size in sizes {
        let gap = gaps.after(slot);
        let after = if slot as usize == sizes.len() {
            edge
        } else {
            gap
        };
        push_both(&mut list, slot, from, *size, after)?;
        from = from + *size + gap;
        slot += 1;
    }
    Ok(list)
}

/// Puts the strip of a slot and the one after it at the end.
fn push_both(
    list: &mut List<Strip>,
    slot: u32,
    from: u32,
    size: u32,
    after: u32,
) -> Result<(), AllocError>
    requires slot { slot < 2 ^ 31 }
    requires from { from + size < 2 ^ 32 }
    ensures { OnOk result (list.new ≡ list.old
        ++ record { before = slot; after = slot; from = from; size = size }
        ∷ record { before = slot; after = slot + 1; from = from + size; size = after } ∷ []) }
{
    list.push(Strip {
        before: slot,
        after: slot,
        from,
        size,
    })?;
    list.push(Strip {
        before: slot,
        after: slot + 1,
        from: from + size,
        size: after,
    })?;
    Ok(())
}

/// Where the slot of this number begins, counted from 0.
pub fn begin_of(strips: &[Strip], place: u32) -> u32
    ensures { (gaps : Gaps) → (edge : ℕ) → (sizes : List ℕ) → strips.now ≡ page_strips gaps edge sizes → place < length sizes
        → result ≡ edge + begin_in gaps sizes place }
{
    strip_at(strips, 2 * u64::from(place) + 1).from
}

/// The room of a span of slots, with the gaps between them, where all gaps are the same.
pub fn room_in(strips: &[Strip], from: u32, past: u32) -> u32
    ensures { (gap edge : ℕ) → (sizes : List ℕ) → strips.now ≡ page_strips (even gap) edge sizes → from < past → past ≤ length sizes
        → result ≡ room gap sizes from past }
{
    let begin = strip_at(strips, 2 * u64::from(from) + 1).from;
    let end = strip_at(strips, 2 * u64::from(past)).from;
    end.saturating_sub(begin)
}

/// How much all slots take, with an edge on both sides, where all gaps are the same.
pub fn total_in(strips: &[Strip], edge: u32) -> u64
    ensures { (gap : ℕ) → (sizes : List ℕ) → strips.now ≡ page_strips (even gap) edge sizes → result ≡ total gap (2 * edge) sizes }
{
    if strips.is_empty() {
        return 0;
    }
    let last = strip_at(strips, strips.len() as u64 - 1);
    u64::from(last.from) + u64::from(edge)
}

/// The strip at a place, and one without size past the end.
fn strip_at(strips: &[Strip], place: u64) -> Strip
    ensures { result ≡ get_or strips.now place (record { before = 0; after = 0; from = 0; size = 0 }) }
{
    if place < strips.len() as u64 {
        strips[place as usize]
    } else {
        Strip {
            before: 0,
            after: 0,
            from: 0,
            size: 0,
        }
    }
}
