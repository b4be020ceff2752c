//! Small graphs whose paths are counted by hand.

ghost use Rattle.std.specs.Prelude.{◌≡◌, ◌≤◌, length, IfOk};
ghost use Rattle.tl_diff.specs.Paths.{InOrder, LeadForward, total_weight};

use std::alloc::{AllocError, Global};
use std::test::Fail;
use tl_diff::{Arc, chain, heaviest};

// Of the ways to place 4 the one by places 1 and 3 weighs 2 + 4 + 7; by place 2 and a step to place 3
// it is 5 + 7.
#[test]
fn a_heaviest_path_may_begin_with_the_lighter_arc(rt: HostRuntime) -> Result<(), Fail> {
    let arcs = [
        Arc {
            from: 0,
            to: 2,
            weight: 5,
        },
        Arc {
            from: 0,
            to: 1,
            weight: 2,
        },
        Arc {
            from: 1,
            to: 3,
            weight: 4,
        },
        Arc {
            from: 2,
            to: 4,
            weight: 1,
        },
        Arc {
            from: 3,
            to: 4,
            weight: 7,
        },
    ];
    let mut out = [9; 5];
    assert_eq!(rt; heaviest(4, &arcs, &mut out), 13);
    assert_eq!(rt; out, [0, 2, 5, 6, 13]);
    let taken = chain(rt.alloc(), 4, &arcs, &out)?;
    assert_eq!(rt; taken.as_slice(), [1, 2, 4].as_slice());
    Ok(())
}

// A row of 2,000 arcs, each to the next place, weighs 2 * 2,000, and the path takes them all.
#[test]
fn a_chain_takes_every_arc_of_a_long_row(rt: HostRuntime) -> Result<(), Fail> {
    let arcs = row(rt.alloc(), 2000)?;
    let mut out = [0; 2001];
    assert_eq!(rt; taken(rt.alloc(), arcs.as_slice(), &mut out)?, 2000);
    assert_eq!(rt; out[2000], 4000);
    Ok(())
}

/// How many arcs the chain to place 2,000 has.
fn taken(alloc: Global, arcs: &[Arc], out: &mut [u32]) -> Result<usize, AllocError>
    requires forward { LeadForward 2000 arcs.now }
    requires in_order { InOrder arcs.now }
    requires weight { total_weight arcs.now ≤ 4000 }
    requires few { length arcs.now ≤ 2000 }
    requires room { length out.old ≡ 2001 }
{
    heaviest(2000, arcs, out);
    Ok(chain(alloc, 2000, arcs, out)?.as_slice().len())
}

/// Arcs of weight 2 from each place to the next.
fn row(alloc: Global, n: u32) -> Result<Vec<Arc>, AllocError>
    requires { n ≤ 2000 }
    ensures forward { IfOk result (λ arcs. LeadForward n arcs.items) }
    ensures in_order { IfOk result (λ arcs. InOrder arcs.items) }
    ensures weight { IfOk result (λ arcs. total_weight arcs.items ≤ 4000) }
    ensures few { IfOk result (λ arcs. length arcs.items ≤ 2000) }
{
    let mut arcs = Vec::new(alloc);
    for from in 0..n {
        arcs.push(Arc {
            from,
            to: from + 1,
            weight: 2,
        })?;
    }
    Ok(arcs)
}
