//! The zones that may still be cut, by number, the one of least bound first.

ghost use Rattle.std.specs.Prelude.{◌≡◌, ◌+◌, [], ◌∷◌, IfNone, IfSome, OnOk, OnSome, IsPermutation};
ghost use Rattle.std.specs.BinaryHeap.{IsHeap, heap_items, heap_len};
ghost use Rattle.std.proofs.Props.{props};
ghost use Rattle.tl_astar.specs.inner.Entries.{IsTakenOut, compare_entries, entry};

use std::alloc::{AllocError, Global};
use std::cmp::Reverse;
use std::collections::BinaryHeap;

/// Zones with their bounds. The first is the one of least bound, and of equals the newest.
#[derive(Drop)]
pub(crate) struct OpenZones {
    pub(crate) heap: BinaryHeap<(Reverse<u32>, u32)>,
    ghost ordered: { IsHeap compare_entries (heap_items heap) } by { Prim.hlevel props },
}

impl OpenZones {
    /// No zones.
    pub(crate) fn new(alloc: Global) -> OpenZones
        ensures { heap_items result.heap ≡ [] }
    {
        OpenZones {
            heap: BinaryHeap::new(alloc),
        }
    }

    /// Adds the zone with its bound.
    pub(crate) fn push(&mut self, zone: u32, bound: u32) -> Result<(), AllocError>
        ensures added { OnOk result (IsPermutation (entry bound zone ∷ heap_items self.old.heap) (heap_items self.new.heap)) }
        ensures len { OnOk result (heap_len self.new.heap ≡ heap_len self.old.heap + 1) }
    {
        self.heap.push((Reverse(bound), zone))?;
        Ok(())
    }

    /// Takes out the zone that comes first. `None` where there is none.
    pub(crate) fn pop(&mut self) -> Option<u32>
        ensures none { IfNone result (heap_items self.old.heap ≡ []) }
        ensures still_none { IfNone result (heap_items self.new.heap ≡ []) }
        ensures taken { IfSome result (λ zone. IsTakenOut (heap_items self.old.heap) zone (heap_items self.new.heap)) }
        ensures len { OnSome result (heap_len self.new.heap + 1 ≡ heap_len self.old.heap) }
    {
        match self.heap.pop() {
            Some((Reverse(_), zone)) => Some(zone),
            None => None,
        }
    }
}
