//! What is seen of a zone: the rooms of its spans, the heights of its rows, and what rooms its bound wants.

use crate::arrangement::{Arrangement, class_of, number_at, raise};
use crate::rises::{Rises, first_above, room_past};
use crate::spread::{Spread, greatest_rooms, least_rooms, zone_spread};
use crate::whole::Whole;
use std::alloc::{AllocError, Global};
use tl_problem::Range;

/// The rooms that a zone gives its spans, and the heights of its strips by `low` at the greatest of them.
pub(crate) struct Sight {
    pub(crate) spread: Spread,
    /// The least room of each span.
    pub(crate) least: Vec<u32>,
    /// The greatest room of each span.
    pub(crate) most: Vec<u32>,
    /// The height of each strip by `low` at the greatest rooms.
    pub(crate) heights: Vec<u32>,
    /// How much higher strips become at lesser rooms.
    pub(crate) rises: Rises,
    /// The least room of each span at which no cell of it is higher than its rows at the greatest rooms.
    pub(crate) wanted: Vec<u32>,
}

impl Drop for Sight {
    fn drop(self) {
        let Sight {
            spread: _spread,
            least: _least,
            most: _most,
            heights: _heights,
            rises: _rises,
            wanted: _wanted,
        } = self;
    }
}

impl Sight {
    /// What is seen of the zone with these ranges. Unless each cell has the same steps by `low` and by `high`,
    /// a span wants its last class.
    pub(crate) fn of_zone(
        alloc: Global,
        arrangement: &Arrangement,
        whole: &Whole,
        ranges: &[Range],
        same_steps: bool,
    ) -> Result<Sight, AllocError> {
        let spread = zone_spread(alloc, arrangement, &whole.spread, ranges)?;
        let least = least_rooms(alloc, arrangement, &spread)?;
        let most = greatest_rooms(alloc, arrangement, &spread)?;
        let heights = heights_at(alloc, whole, &most)?;
        let rises = whole.rises.within(alloc, (&least, &most), &heights)?;
        let wanted = if same_steps {
            rooms_for(alloc, arrangement, &rises, &least, &heights)?
        } else {
            last_rooms(alloc, arrangement, &least, &most)?
        };
        Ok(Sight {
            spread,
            least,
            most,
            heights,
            rises,
            wanted,
        })
    }
}

/// The height of each strip by `low` at the greatest rooms of a zone.
fn heights_at(alloc: Global, whole: &Whole, most: &[u32]) -> Result<Vec<u32>, AllocError> {
    let mut heights = Vec::from_slice(alloc, &whole.heights)?;
    whole.rises.raise_all(most, &mut heights);
    Ok(heights)
}

/// The places where rows begin, each with a gap before the next, and where the last one ends.
fn row_places(
    alloc: Global,
    arrangement: &Arrangement,
    heights: &[u32],
) -> Result<Vec<u32>, AllocError> {
    let gap = arrangement.spacing.row_gap;
    let mut places = vec![in alloc; 0; (arrangement.rows as usize).saturating_add(1)]?;
    for (number, strip) in arrangement.strips.iter().enumerate() {
        let end = number_at(&places, strip.0 as usize)
            .saturating_add(number_at(heights, number))
            .saturating_add(gap);
        raise(&mut places, strip.1 as usize, end);
    }
    Ok(places)
}

/// The total height of rows that give each strip its height.
pub(crate) fn total_height(
    alloc: Global,
    arrangement: &Arrangement,
    heights: &[u32],
) -> Result<u32, AllocError> {
    if arrangement.rows == 0 {
        return Ok(0);
    }
    let lines = arrangement.spacing.lines;
    let end = rows_end(alloc, arrangement, heights)?;
    Ok(
        end.saturating_add(lines)
            .saturating_sub(arrangement.spacing.row_gap),
    )
}

/// The place where the last row ends, with a gap after it.
fn rows_end(alloc: Global, arrangement: &Arrangement, heights: &[u32]) -> Result<u32, AllocError> {
    if arrangement.has_tall_strips() {
        let places = row_places(alloc, arrangement, heights)?;
        return Ok(number_at(&places, arrangement.rows as usize));
    }
    let gaps = u64::from(arrangement.rows).saturating_mul(u64::from(arrangement.spacing.row_gap));
    let mut lines = 0u64;
    for &height in heights {
        lines = lines.saturating_add(u64::from(height));
    }
    Ok(u32::try_from(lines.saturating_add(gaps)).unwrap_or(u32::MAX))
}

/// For each span the least room, from `least` on, at which no cell of it is higher than its rows, where the
/// strips have these heights. None of them is below those from which the rises were found.
fn rooms_for(
    alloc: Global,
    arrangement: &Arrangement,
    rises: &Rises,
    least: &[u32],
    heights: &[u32],
) -> Result<Vec<u32>, AllocError> {
    let lines = lines_of_strips(alloc, arrangement, heights)?;
    let mut rooms = Vec::from_slice(alloc, least)?;
    for span in 0..arrangement.spans.len() {
        let of_span = rises.of_span(span);
        let above = first_above(of_span, 0, &lines);
        raise(&mut rooms, span, room_past(of_span, above));
    }
    Ok(rooms)
}

/// How many lines the rows of each strip have, with the gaps between them, where strips have these heights.
pub(crate) fn lines_of_strips(
    alloc: Global,
    arrangement: &Arrangement,
    heights: &[u32],
) -> Result<Vec<u32>, AllocError> {
    if !arrangement.has_tall_strips() {
        return Vec::from_slice(alloc, heights);
    }
    let places = row_places(alloc, arrangement, heights)?;
    let mut lines = Vec::new(alloc);
    for strip in &arrangement.strips {
        let top = number_at(&places, strip.0 as usize);
        let bottom = number_at(&places, strip.1 as usize);
        lines.push(
            bottom
                .saturating_sub(top)
                .saturating_sub(arrangement.spacing.row_gap),
        )?;
    }
    Ok(lines)
}

/// For each span the first width of the class of its greatest room, or its least room where that is greater.
fn last_rooms(
    alloc: Global,
    arrangement: &Arrangement,
    least: &[u32],
    most: &[u32],
) -> Result<Vec<u32>, AllocError> {
    let mut rooms = Vec::from_slice(alloc, least)?;
    for (span, &room) in most.iter().enumerate() {
        let classes = arrangement.classes_of(span);
        raise(
            &mut rooms,
            span,
            number_at(classes, class_of(classes, room)),
        );
    }
    Ok(rooms)
}
