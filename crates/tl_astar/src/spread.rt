//! How far the columns of a zone may lie apart.

use crate::arrangement::{Arrangement, number_at};
use std::alloc::{AllocError, Global};
use tl_problem::Range;

/// More than any page is wide: what stands where there is no limit yet.
const FAR: i32 = 1_000_000;

/// For each two places of columns, `a` and `b`, the greatest `x_b - x_a` that the limits so far leave,
/// where these leave any places.
#[derive(Drop)]
pub(crate) struct Spread {
    side: usize,
    most: Vec<i32>,
}

impl Spread {
    /// No limits on so many places.
    pub(crate) fn new(alloc: Global, side: usize) -> Result<Spread, AllocError> {
        let mut most = vec![in alloc; FAR; side.saturating_mul(side)]?;
        for place in 0..side {
            if let Some(itself) = most.get_mut(place.saturating_mul(side).saturating_add(place)) {
                *itself = 0;
            }
        }
        Ok(Spread { side, most })
    }

    /// The same limits again.
    fn copy(&self, alloc: Global) -> Result<Spread, AllocError> {
        Ok(Spread {
            side: self.side,
            most: Vec::from_slice(alloc, &self.most)?,
        })
    }

    /// The greatest `x_b - x_a`.
    pub(crate) fn at(&self, a: u32, b: u32) -> i32 {
        self.entry(a as usize, b as usize)
    }

    /// The greatest `x_j - x_i` under one limit more, `x_b - x_a <= most`.
    pub(crate) fn limited(&self, a: u32, b: u32, most: i32, i: u32, j: u32) -> i32 {
        let around = self
            .at(i, a)
            .saturating_add(most)
            .saturating_add(self.at(b, j));
        self.at(i, j).min(around)
    }

    /// Adds the limit `x_b - x_a <= most`.
    pub(crate) fn limit(&mut self, a: u32, b: u32, most: i32) {
        if self.at(a, b) <= most {
            return;
        }
        for i in 0..self.side {
            let to_a = self.entry(i, a as usize);
            let to_b = to_a.saturating_add(most);
            // Where `x_b - x_i` stays, so does each `x_j - x_i`, as they are the tightest limits already.
            if to_a < FAR && to_b < self.entry(i, b as usize) {
                self.limit_row(i, b as usize, to_b);
            }
        }
    }

    /// Makes each `x_j - x_i` at most `to_b` and `x_j - x_b`.
    fn limit_row(&mut self, i: usize, b: usize, to_b: i32) {
        for j in 0..self.side {
            let on = self.entry(b, j);
            let around = to_b.saturating_add(on);
            let place = i.saturating_mul(self.side).saturating_add(j);
            if let Some(apart) = self.most.get_mut(place) {
                if on < FAR && around < *apart {
                    *apart = around;
                }
            }
        }
    }

    /// The entry of two places.
    fn entry(&self, a: usize, b: usize) -> i32 {
        let place = a.saturating_mul(self.side).saturating_add(b);
        self.most.get(place).copied().unwrap_or(0)
    }
}

/// How far the columns lie apart on the page, where each span has at least its least width.
pub(crate) fn page_spread(alloc: Global, arrangement: &Arrangement) -> Result<Spread, AllocError> {
    let gap = signed(arrangement.spacing.gap);
    let page = arrangement
        .width
        .saturating_sub(arrangement.spacing.edges)
        .saturating_add(arrangement.spacing.gap);
    let mut spread = Spread::new(alloc, (arrangement.cols as usize).saturating_add(1))?;
    // In this order the fewest limits change one that was there: a span keeps its columns a gap apart, and
    // only the page keeps them near each other.
    for span in 0..arrangement.spans.len() {
        limit_first(arrangement, span, 0, &mut spread);
    }
    for column in 0..arrangement.cols {
        spread.limit(column.saturating_add(1), column, gap.saturating_neg());
    }
    spread.limit(0, arrangement.cols, signed(page));
    Ok(spread)
}

/// How far the columns lie apart on the page and in the ranges, by how far they do on the page alone.
pub(crate) fn zone_spread(
    alloc: Global,
    arrangement: &Arrangement,
    page: &Spread,
    ranges: &[Range],
) -> Result<Spread, AllocError> {
    let mut spread = page.copy(alloc)?;
    for (span, range) in ranges.iter().enumerate() {
        if range.first > 0 {
            limit_first(arrangement, span, range.first as usize, &mut spread);
        }
        limit_last(arrangement, span, range.last as usize, &mut spread);
    }
    Ok(spread)
}

/// Gives a span no room below its class `first`.
fn limit_first(arrangement: &Arrangement, number: usize, first: usize, spread: &mut Spread) {
    if let Some(span) = arrangement.spans.get(number) {
        let least = signed(number_at(arrangement.classes_of(number), first));
        let apart = least.saturating_add(signed(arrangement.spacing.gap));
        spread.limit(span.right, span.left, apart.saturating_neg());
    }
}

/// Gives a span no room past its class `last`.
fn limit_last(arrangement: &Arrangement, number: usize, last: usize, spread: &mut Spread) {
    let next = arrangement.classes_of(number).get(last.saturating_add(1));
    if let (Some(span), Some(&next)) = (arrangement.spans.get(number), next) {
        let most = signed(next).saturating_sub(1);
        let gap = signed(arrangement.spacing.gap);
        spread.limit(span.left, span.right, most.saturating_add(gap));
    }
}

/// The least room of each span.
pub(crate) fn least_rooms(
    alloc: Global,
    arrangement: &Arrangement,
    spread: &Spread,
) -> Result<Vec<u32>, AllocError> {
    let gap = signed(arrangement.spacing.gap);
    let mut rooms = Vec::new(alloc);
    for span in &arrangement.spans {
        let back = spread.at(span.right, span.left).saturating_neg();
        rooms.push(unsigned(back.saturating_sub(gap)))?;
    }
    Ok(rooms)
}

/// The greatest room of each span.
pub(crate) fn greatest_rooms(
    alloc: Global,
    arrangement: &Arrangement,
    spread: &Spread,
) -> Result<Vec<u32>, AllocError> {
    let gap = signed(arrangement.spacing.gap);
    let mut rooms = Vec::new(alloc);
    for span in &arrangement.spans {
        let on = spread.at(span.left, span.right);
        rooms.push(unsigned(on.saturating_sub(gap)))?;
    }
    Ok(rooms)
}

/// A number as a signed one.
pub(crate) fn signed(number: u32) -> i32 {
    i32::try_from(number).unwrap_or(i32::MAX)
}

/// A number as an unsigned one, 0 where it is negative.
pub(crate) fn unsigned(number: i32) -> u32 {
    u32::try_from(number).unwrap_or(0)
}
