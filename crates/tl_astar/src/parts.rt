//! Where a cut of a zone raises the bounds of its parts most.

ghost use Rattle.std.specs.Prelude.{◌≡◌, ◌≤◌, ℕ, length, slice_index, EachIndex, OnOk};
ghost use Rattle.tl_astar.specs.inner.Rises.{AreHighEnough, Wants, rises_of};

use crate::arrangement::{Arrangement, class_of, number_at};
use crate::columns::{column_places, is_on_page};
use crate::sight::{Sight, total_height};
use crate::spread::{signed, unsigned};
use std::alloc::{AllocError, Global};
use tl_problem::Span;

/// A cut of a span after one of its classes, by the bounds of its parts.
#[derive(Clone, Copy)]
pub(crate) struct Place {
    pub(crate) span: usize,
    pub(crate) class: usize,
    /// Both bounds together.
    sum: u32,
    /// The lower of both bounds.
    lesser: u32,
}

/// The rooms and heights of a part of a cut. One is filled again for each part, so that none allocates anew.
#[derive(Drop)]
struct Part {
    /// The room of each span, in columns.
    rooms: Vec<u32>,
    /// The height of each strip, in lines.
    heights: Vec<u32>,
}

impl Part {
    /// Finds the rooms of the spans under the limit `x_b - x_a <= most`, and how high the cells of every span
    /// make the strips at these rooms.
    fn fill(
        &mut self,
        arrangement: &Arrangement,
        sight: &Sight,
        limit: (u32, u32, i32),
    ) -> Result<(), AllocError>
        ensures each_span { OnOk result (EachIndex arrangement.now.spans.items (λ span.
            AreHighEnough (Wants (rises_of sight.now.rises span) (slice_index self.new.rooms.items span))
            self.new.heights.items)) }
        ensures no_lower { OnOk result ((strip : ℕ) →
            slice_index sight.now.heights.items strip ≤ slice_index self.new.heights.items strip) }
    {
        self.find_rooms(arrangement, sight, limit)?;
        self.heights.clear();
        self.heights.extend_from_slice(&sight.heights)?;
        sight.rises.raise_all(&self.rooms, &mut self.heights);
        Ok(())
    }

    /// Finds the greatest room of each span under the limit `x_b - x_a <= most`. A span without rises makes no
    /// strip higher at any room, so it gets 0.
    fn find_rooms(
        &mut self,
        arrangement: &Arrangement,
        sight: &Sight,
        limit: (u32, u32, i32),
    ) -> Result<(), AllocError>
        ensures { OnOk result (length self.new.rooms.items ≡ length arrangement.now.spans.items) }
    {
        let (a, b, most) = limit;
        let gap = signed(arrangement.spacing.gap);
        self.rooms.clear();
        for number in 0..arrangement.spans.len() {
            if sight.rises.of_span(number).is_empty() {
                self.rooms.push(0)?;
            } else {
                let span = &arrangement.spans[number];
                let apart = sight.spread.limited(a, b, most, span.left, span.right);
                self.rooms.push(unsigned(apart.saturating_sub(gap)))?;
            }
        }
        Ok(())
    }
}

/// Of the cuts at balanced rooms the one whose parts have the greatest bounds together, each counted up to
/// `height`; of equals the one whose lesser bound is the greatest, and then the first. `None` where each
/// span has the class of its greatest room alone.
pub(crate) fn best_place(
    alloc: Global,
    arrangement: &Arrangement,
    sight: &Sight,
    height: u32,
) -> Result<Option<Place>, AllocError> {
    let rooms = balanced_rooms(alloc, arrangement, sight)?;
    let mut part = Part {
        rooms: Vec::new(alloc),
        heights: Vec::new(alloc),
    };
    let mut best: Option<Place> = None;
    for span in 0..arrangement.spans.len() {
        let classes = arrangement.classes_of(span);
        let first = class_of(classes, number_at(&sight.least, span));
        let last = class_of(classes, number_at(&sight.most, span));
        if first < last {
            let class = class_of(classes, number_at(&rooms, span)).clamp(first, last - 1);
            let place = place_at(alloc, arrangement, sight, (span, class), height, &mut part)?;
            if is_better(&place, &best) {
                best = Some(place);
            }
        }
    }
    Ok(best)
}

/// Whether the cut is better than the best so far.
fn is_better(place: &Place, best: &Option<Place>) -> bool {
    match best {
        None => true,
        Some(best) => {
            place.sum > best.sum || (place.sum == best.sum && place.lesser > best.lesser)
        }
    }
}

/// The cut of the span after the class, with the bounds of its parts. What `part` holds is lost.
fn place_at(
    alloc: Global,
    arrangement: &Arrangement,
    sight: &Sight,
    cut: (usize, usize),
    height: u32,
    part: &mut Part,
) -> Result<Place, AllocError> {
    let (span, class) = cut;
    let gap = signed(arrangement.spacing.gap);
    let Some(&Span { left, right }) = arrangement.spans.get(span) else {
        return Ok(Place {
            span,
            class,
            sum: 0,
            lesser: 0,
        });
    };
    let begins = signed(number_at(arrangement.classes_of(span), class.saturating_add(1)));
    let narrow = begins.saturating_sub(1).saturating_add(gap);
    let wide = begins.saturating_add(gap).saturating_neg();
    let lower = part_bound(
        alloc,
        arrangement,
        sight,
        (left, right, narrow),
        height,
        part,
    )?;
    let upper = part_bound(alloc, arrangement, sight, (right, left, wide), height, part)?;
    Ok(Place {
        span,
        class,
        sum: lower.saturating_add(upper),
        lesser: lower.min(upper),
    })
}

/// The bound of the part of the zone under the limit `x_b - x_a <= most`, counted up to `height`, which a
/// part without widths counts. What `part` holds is lost.
fn part_bound(
    alloc: Global,
    arrangement: &Arrangement,
    sight: &Sight,
    limit: (u32, u32, i32),
    height: u32,
    part: &mut Part,
) -> Result<u32, AllocError> {
    let (a, b, most) = limit;
    if sight.spread.at(b, a).saturating_add(most) < 0 {
        return Ok(height);
    }
    part.fill(arrangement, sight, limit)?;
    let bound = total_height(alloc, arrangement, &part.heights)?;
    Ok(bound.min(height))
}

/// Rooms as far from the least to those that are wanted as the page can hold for all spans, in 64ths.
fn balanced_rooms(
    alloc: Global,
    arrangement: &Arrangement,
    sight: &Sight,
) -> Result<Vec<u32>, AllocError> {
    // The page holds the least rooms, and no rooms that are greater than some that it does not hold.
    let (mut held, mut past) = (0u32, 65u32);
    for _ in 0..7 {
        let part = held.saturating_add(past) / 2;
        if held < part && part < past {
            let rooms = rooms_between(alloc, arrangement, sight, part)?;
            let places = column_places(alloc, arrangement, &rooms)?;
            if is_on_page(arrangement, &places) {
                held = part;
            } else {
                past = part;
            }
        }
    }
    rooms_between(alloc, arrangement, sight, held)
}

/// The least rooms with this many 64ths of what lacks to those that are wanted.
fn rooms_between(
    alloc: Global,
    arrangement: &Arrangement,
    sight: &Sight,
    part: u32,
) -> Result<Vec<u32>, AllocError> {
    let mut rooms = Vec::new(alloc);
    for span in 0..arrangement.spans.len() {
        let least = number_at(&sight.least, span);
        let lacking = number_at(&sight.wanted, span).saturating_sub(least);
        rooms.push(least.saturating_add(lacking.saturating_mul(part) / 64))?;
    }
    Ok(rooms)
}
