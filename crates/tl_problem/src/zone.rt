//! Zones: for each span of columns a range of the classes of its widths.

ghost use Rattle.std.specs.Prelude.{◌≡◌, ◌+◌, ◌<◌, ◌≤◌, length, set, IfOk};
ghost use Rattle.tl_problem.specs.Zones.{lower_part, range_at, upper_part};

use std::alloc::{AllocError, Global};
use std::marker::Model;
use tl_base::List;

/// The classes of a span from `first` to `last`, both among them.
#[derive(Clone, Copy, Debug, PartialEq, Eq)]
pub struct Range {
    pub first: u32,
    pub last: u32,
}

/// A part of all layouts: for each span of the problem a range of its classes. Contracts see it as
/// the list of its ranges, in the order of the spans.
#[derive(Debug, Drop)]
pub struct Zone {
    alloc: Global,
    ranges: List<Range>,
}

impl Model for Zone {
    ghost use Rattle.std.specs.Prelude.{List};
    ghost use Rattle.tl_problem.specs.declared.zone.Range.{Range};

    ghost Value = { List Range };

    ghost view = { λ zone. zone.ranges };
}

impl Zone {
    /// The zone with these ranges, one for each span.
    pub fn from_ranges(alloc: Global, ranges: List<Range>) -> Zone
        ensures { result ≡ ranges }
    {
        Zone { alloc, ranges }
    }

    /// Lends the ranges, one for each span, in the order of the spans.
    pub fn ranges(&self) -> &[Range]
        ensures { result.now ≡ self.now }
    {
        self.ranges.as_slice()
    }

    /// Cuts the range of the span with number `s` after the class `k`: the first zone has the classes
    /// up to `k`, the second those after it. The zone itself stays as it is.
    pub fn cut(&self, s: u32, k: u32) -> Result<(Zone, Zone), AllocError>
        requires span { s < length self.now }
        requires first { (range_at self.now s).first ≤ k }
        requires last { k < (range_at self.now s).last }
        ensures lower { IfOk result (λ parts. parts.0 ≡ lower_part self.now s k) }
        ensures upper { IfOk result (λ parts. parts.1 ≡ upper_part self.now s k) }
    {
        let range = self.ranges.as_slice()[s as usize];
        let lower = self.with_range(
            s,
            Range {
                first: range.first,
                last: k,
            },
        )?;
        let upper = self.with_range(
            s,
            Range {
                first: next_class(k, range.last),
                last: range.last,
            },
        )?;
        Ok((lower, upper))
    }

    /// The zone with another range of one span.
    fn with_range(&self, s: u32, range: Range) -> Result<Zone, AllocError>
        requires { s < length self.now }
        ensures { IfOk result (λ zone. zone ≡ set self.now s range) }
    {
        let mut ranges = Vec::from_slice(self.alloc, self.ranges.as_slice())?;
        ranges[s as usize] = range;
        Ok(Zone {
            alloc: self.alloc,
            ranges: List::from_vec(ranges),
        })
    }
}

/// The class after `k`, which is not past `last`.
fn next_class(k: u32, last: u32) -> u32
    requires { k < last }
    ensures { result ≡ k + 1 }
{
    prove!(k < last);
    k + 1
}
