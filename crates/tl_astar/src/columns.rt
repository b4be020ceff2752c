//! Columns at the least places that give each span a room.

use crate::arrangement::{Arrangement, number_at, raise};
use std::alloc::{AllocError, Global};

/// The least places of columns, each with a gap before the next, that give each span at least this room.
pub(crate) fn column_places(
    alloc: Global,
    arrangement: &Arrangement,
    rooms: &[u32],
) -> Result<Vec<u32>, AllocError> {
    let gap = arrangement.spacing.gap;
    let mut places = vec![in alloc; 0; (arrangement.cols as usize).saturating_add(1)]?;
    let mut column = 0u32;
    for (number, span) in arrangement.spans.iter().enumerate() {
        // Columns that begin before the span come first.
        for before in column..span.left {
            step(&mut places, before, gap);
        }
        column = column.max(span.left);
        let end = number_at(&places, span.left as usize)
            .saturating_add(number_at(rooms, number))
            .saturating_add(gap);
        raise(&mut places, span.right as usize, end);
    }
    for last in column..arrangement.cols {
        step(&mut places, last, gap);
    }
    Ok(places)
}

/// Lets the next column begin a gap past this one at least.
fn step(places: &mut [u32], column: u32, gap: u32) {
    let next = number_at(places, column as usize).saturating_add(gap);
    raise(places, (column as usize).saturating_add(1), next);
}

/// Whether columns at these places are within the page.
pub(crate) fn is_on_page(arrangement: &Arrangement, places: &[u32]) -> bool {
    let end = number_at(places, arrangement.cols as usize).saturating_sub(arrangement.spacing.gap);
    arrangement.cols == 0 || end.saturating_add(arrangement.spacing.edges) <= arrangement.width
}

/// The widths of columns at these places.
pub(crate) fn widths_between(
    alloc: Global,
    arrangement: &Arrangement,
    places: &[u32],
) -> Result<Vec<u32>, AllocError> {
    let gap = arrangement.spacing.gap;
    let mut widths = Vec::new(alloc);
    for column in 0..arrangement.cols as usize {
        let next = number_at(places, column.saturating_add(1));
        let here = number_at(places, column).saturating_add(gap);
        widths.push(next.saturating_sub(here))?;
    }
    Ok(widths)
}

/// The spans of a longest path to the end of the columns at these places, which these rooms make.
pub(crate) fn longest_path(
    alloc: Global,
    arrangement: &Arrangement,
    rooms: &[u32],
    places: &[u32],
) -> Result<Vec<usize>, AllocError> {
    let gap = arrangement.spacing.gap;
    let mut path = Vec::new(alloc);
    let mut end = arrangement.cols;
    for number in (0..arrangement.spans.len()).rev() {
        let span = arrangement.spans[number];
        end = past_steps(places, end, gap);
        let reached = number_at(places, span.left as usize)
            .saturating_add(number_at(rooms, number))
            .saturating_add(gap);
        if span.right == end && reached == number_at(places, end as usize) {
            path.push(number)?;
            end = span.left;
        }
    }
    Ok(path)
}

/// The first of the columns up to `end` that end where only gaps lie between.
fn past_steps(places: &[u32], end: u32, gap: u32) -> u32 {
    for column in (0..end).rev() {
        let here = number_at(places, column as usize).saturating_add(gap);
        if here != number_at(places, (column as usize).saturating_add(1)) {
            return column.saturating_add(1);
        }
    }
    0
}
