//! Columns side by side, or rows one under the other: the room of a span of them, and how much all of
//! them take together.

ghost use Rattle.std.specs.Prelude.{◌≡◌, ◌+◌, ◌*◌, ◌<◌, ◌≤◌, ◌^◌, length, sum};
ghost use Rattle.tl_base.specs.Sizes.{room, total};

use crate::limits::{MAX_COLUMNS, MAX_PAGE_WIDTH, MAX_ROWS};

/// The columns, or the lines, that columns or rows of these sizes take: the sizes, the gap between each two,
/// and what both edges take together; 0 where there are none.
pub fn total_size(gap: u32, edges: u32, sizes: &[u32]) -> u64
    requires gap { gap ≤ 2 }
    requires edges { edges ≤ MAX_ROWS + 2 }
    requires few { length sizes.now ≤ MAX_ROWS + 1 }
    ensures total { result ≡ total gap edges sizes.now }
    ensures small { result < 2 ^ 45 }
{
    if sizes.is_empty() {
        return 0;
    }
    sum_of(sizes) + u64::from(gap) * (sizes.len() as u64 - 1) + u64::from(edges)
}

/// The room, in columns or lines, of the columns or rows from `from` on and before `past`, with the gaps
/// between them.
pub fn room_size(gap: u32, sizes: &[u32], from: u32, past: u32) -> u64
    requires gap { gap ≤ 2 }
    requires ahead { from < past }
    requires within { past ≤ length sizes.now }
    requires few { length sizes.now ≤ MAX_ROWS + 1 }
    ensures room { result ≡ room gap sizes.now from past }
    ensures small { result < 2 ^ 45 }
{
    let inside = &sizes[from as usize..past as usize];
    sum_of(inside) + u64::from(gap) * u64::from(past - from - 1)
}

/// The room, in columns, of a span of columns whose widths fit a page.
pub fn room_on_page(gap: u32, widths: &[u32], left: u32, right: u32) -> u32
    requires gap { gap ≤ 2 }
    requires sum { sum widths.now ≤ MAX_PAGE_WIDTH }
    requires ahead { left < right }
    requires within { right ≤ length widths.now }
    requires few { length widths.now ≤ MAX_COLUMNS }
    ensures { result ≡ room gap widths.now left right }
{
    room_size(gap, widths, left, right) as u32
}

/// The sum of sizes.
fn sum_of(sizes: &[u32]) -> u64
    requires { length sizes.now ≤ MAX_ROWS + 1 }
    ensures sum { result ≡ sum sizes.now }
    ensures small { result ≤ length sizes.now * 2 ^ 32 }
{
    sizes.iter().map(|&size| u64::from(size)).sum()
}
