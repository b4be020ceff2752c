//! How deep the tables of a document lie, by their numbers from that of its own table on.

ghost use Rattle.std.specs.Prelude.{◌≡◌, ℕ, ◌+◌, ◌-◌, ◌<◌, ◌≤◌, ◌^◌, get_or, length, IfOk};
ghost use Rattle.std.specs.List.{All};
ghost use Rattle.tl_form.specs.Subjects.{IsSubject, meant};
ghost use Rattle.tl_nested.specs.inner.Depths.{AreDepths, AreSizes, IsAtDepth, IsBelow};

use std::alloc::{AllocError, Global};
use tl_form::Subject;
use tl_table::nested;

/// How many tables lie inside each table of the document.
pub fn sizes_of(alloc: Global, subject: &Subject) -> Result<Vec<u32>, AllocError>
    requires { IsSubject subject.now }
    ensures { IfOk result (λ sizes. AreSizes (meant subject.now) sizes.items (length subject.now.least.items)) }
{
    let own = subject.table.number;
    let mut sizes = Vec::new(alloc);
    for k in 0..subject.least.len() as u32 {
        sizes.push(nested(subject.table_of(own + k)))?;
    }
    Ok(sizes)
}

/// How deep the next table lies, after those whose depths these are: one deeper than the deepest of those
/// that hold it.
fn next_depth(sizes: &[u32], depths: &[u32], next: usize) -> u32
    requires next { next ≡ length depths.now }
    requires few { length depths.now < 2 ^ 32 }
    requires fewer { length depths.now ≤ length sizes.now }
    requires below { IsBelow depths.now }
    ensures deeper { (i : ℕ) → i < length depths.now → length depths.now ≤ i + get_or sizes.now i 0 →
        get_or depths.now i 0 < result }
    ensures below { result ≤ length depths.now }
{
    let mut depth = 0;
    for i in 0..next {
        if next <= i + sizes[i] as usize {
            depth = depth.max(depths[i] + 1);
        }
    }
    depth
}

/// How deep each table lies: 0 for the document's own, and for each other one more than for the table
/// directly around it.
pub fn depths_of(alloc: Global, sizes: &[u32]) -> Result<Vec<u32>, AllocError>
    requires { length sizes.now < 2 ^ 32 }
    ensures { IfOk result (λ depths. AreDepths sizes.now depths.items (length sizes.now)) }
{
    let mut depths = Vec::new(alloc);
    for next in 0..sizes.len() {
        let depth = next_depth(sizes, depths.as_slice(), next);
        depths.push(depth)?;
    }
    Ok(depths)
}

/// The greatest depth.
pub fn greatest(depths: &[u32]) -> u32 {
    let mut most = 0;
    for depth in depths {
        most = (*depth).max(most);
    }
    most
}

/// The numbers of the tables at this depth, `own` being that of the first.
pub fn at_depth(alloc: Global, own: u32, depths: &[u32], depth: u32) -> Result<Vec<u32>, AllocError>
    requires { own + length depths.now < 2 ^ 32 }
    ensures { IfOk result (λ numbers. All (IsAtDepth own depths.now depth) numbers.items) }
{
    let mut numbers = Vec::new(alloc);
    for i in 0..depths.len() {
        if depths[i] == depth {
            numbers.push(own + i as u32)?;
        }
    }
    Ok(numbers)
}
