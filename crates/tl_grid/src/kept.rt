//! Columns and rows that are kept: in order, and renumbered from 0.

ghost use Rattle.std.specs.Prelude.{◌≡◌, ◌<◌, ◌≤◌, ◌^◌, ℕ, length, vec_len};
ghost use Rattle.std.specs.List.Sorted.{IsStrictlyIncreasing};
ghost use Rattle.tl_grid.specs.Dropping.{count_below};
ghost use Rattle.tl_base.specs.Lists.{is_among};

/// The numbers in increasing order, each once.
pub fn in_order(mut numbers: Vec<u32>) -> Vec<u32>
    ensures rises { IsStrictlyIncreasing result.items }
    ensures same { (x : ℕ) → is_among result.items x ≡ is_among numbers.items x }
    ensures few { vec_len result ≤ vec_len numbers }
{
    numbers.sort_unstable();
    numbers.dedup();
    numbers
}

/// The new number, from 0, of a column or row, where those that are not `kept` are dropped. `kept`
/// is in strictly increasing order.
pub fn new_number(kept: &[u32], number: u32) -> u32
    requires rises { IsStrictlyIncreasing kept.now }
    requires few { length kept.now < 2 ^ 32 }
    ensures { result ≡ count_below (is_among kept.now) number }
{
    kept.partition_point(|&k| k < number) as u32
}
