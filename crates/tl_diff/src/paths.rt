//! Heaviest paths along arcs that lead forward.

ghost use Rattle.std.specs.Prelude.{◌≡◌, ℕ, ◌+◌, ◌<◌, ◌≤◌, ◌^◌, length, slice_index, IfOk};
ghost use Rattle.tl_diff.specs.Paths.{IsHeaviest, IsPath, InOrder, LeadForward, path_weight, total_weight};
ghost use Rattle.tl_diff.specs.inner.Relaxing.{IsRelaxed};

use std::alloc::{AllocError, Global};
use tl_base::List;

/// What the weights of all arcs may sum to, and so no path is heavier.
pub const MAX_PATH_WEIGHT: u32 = 2_147_483_648;

/// A step from one place to a later one, at a weight.
#[derive(Clone, Copy, Debug, PartialEq, Eq)]
pub struct Arc {
    /// The place where it begins.
    pub from: u32,
    /// The place where it ends, which is a later one.
    pub to: u32,
    /// What a path along it gains.
    pub weight: u32,
}

/// Fills `out[k]` with the greatest weight of a path from place 0 to place `k`, for each place up
/// to `n`, and returns that of `n`. A path goes along arcs, and from a place to the next at no
/// weight. It takes no memory and looks at each arc once.
pub fn heaviest(n: u32, arcs: &[Arc], out: &mut [u32]) -> u32
    requires forward { LeadForward n arcs.now }
    requires in_order { InOrder arcs.now }
    requires fits { total_weight arcs.now ≤ MAX_PATH_WEIGHT }
    requires room { length out.old ≡ n + 1 }
    ensures each { (k : ℕ) → k ≤ n → IsHeaviest arcs.now k (slice_index out.new k) }
    ensures last { result ≡ slice_index out.new n }
    ensures at_most { result ≤ total_weight arcs.now }
{
    out.fill(0);
    let last = n as usize;
    let mut next = 0;
    for place in 0..last {
        next = relax(n, place, next, arcs, out);
    }
    out[last]
}

/// Takes the arcs that begin at `place`, the first of which may be `next`, and goes on to the next
/// place. Returns the number of the first arc that begins later.
fn relax(n: u32, place: usize, next: usize, arcs: &[Arc], out: &mut [u32]) -> usize
    requires there { place < n }
    requires forward { LeadForward n arcs.now }
    requires in_order { InOrder arcs.now }
    requires fits { total_weight arcs.now ≤ MAX_PATH_WEIGHT }
    requires before { IsRelaxed arcs.now n place place place next out.old }
    ensures { IsRelaxed arcs.now n (place + 1) (place + 1) (place + 1) result out.new }
{
    let mut next = next;
    while next < arcs.len() && arcs[next].from as usize == place {
        let arc = arcs[next];
        let end = arc.to as usize;
        out[end] = out[end].max(out[place] + arc.weight);
        next += 1;
    }
    out[place + 1] = out[place + 1].max(out[place]);
    next
}

/// The numbers of the arcs of a heaviest path from place 0 to place `n`, in order. `out` holds what
/// `heaviest` filled in for these arcs.
pub fn chain(alloc: Global, n: u32, arcs: &[Arc], out: &[u32]) -> Result<List<u32>, AllocError>
    requires forward { LeadForward n arcs.now }
    requires in_order { InOrder arcs.now }
    requires few { length arcs.now < 2 ^ 32 }
    requires room { length out.now ≡ n + 1 }
    requires heaviest { (k : ℕ) → k ≤ n → IsHeaviest arcs.now k (slice_index out.now k) }
    ensures path { IfOk result (λ is. IsPath arcs.now 0 is n) }
    ensures weight { IfOk result (λ is. path_weight arcs.now is ≡ slice_index out.now n) }
{
    let mut backward = Vec::new(alloc);
    let mut place = n as usize;
    for i in (0..arcs.len()).rev() {
        let arc = arcs[i];
        if arc.to as usize <= place && out[arc.from as usize] + arc.weight == out[place] {
            backward.push(i as u32)?;
            place = arc.from as usize;
        }
    }
    backward.reverse();
    Ok(List::from_vec(backward))
}
