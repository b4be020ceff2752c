//! What the page leaves of a problem before any cut.

use crate::arrangement::{Arrangement, number_at, raise};
use crate::rises::Rises;
use crate::spread::{Spread, greatest_rooms, least_rooms, page_spread};
use std::alloc::{AllocError, Global};
use tl_problem::Cell;

/// What the page leaves: no zone has more room for a span, nor lower rows at its greatest rooms.
pub(crate) struct Whole {
    pub(crate) spread: Spread,
    /// The height of each strip by `low` at the greatest rooms.
    pub(crate) heights: Vec<u32>,
    /// How much higher strips become at lesser rooms.
    pub(crate) rises: Rises,
}

impl Drop for Whole {
    fn drop(self) {
        let Whole {
            spread: _spread,
            heights: _heights,
            rises: _rises,
        } = self;
    }
}

impl Whole {
    /// What the page leaves of these cells.
    pub(crate) fn new(
        alloc: Global,
        arrangement: &Arrangement,
        cells: &[Cell],
    ) -> Result<Whole, AllocError> {
        let spread = page_spread(alloc, arrangement)?;
        let least = least_rooms(alloc, arrangement, &spread)?;
        let most = greatest_rooms(alloc, arrangement, &spread)?;
        let heights = heights_at(alloc, arrangement, cells, &most)?;
        let rises = Rises::of_cells(alloc, arrangement, cells, (&least, &most), &heights)?;
        Ok(Whole {
            spread,
            heights,
            rises,
        })
    }
}

/// The height of each strip by `low` at these rooms of the spans.
fn heights_at(
    alloc: Global,
    arrangement: &Arrangement,
    cells: &[Cell],
    rooms: &[u32],
) -> Result<Vec<u32>, AllocError> {
    let mut heights = vec![in alloc; 0; arrangement.strips.len()]?;
    for span in 0..arrangement.spans.len() {
        raise_to_cells(
            arrangement,
            cells,
            span,
            number_at(rooms, span),
            &mut heights,
        );
    }
    Ok(heights)
}

/// Makes each strip as high as the cells of a span need by `low` at this room.
fn raise_to_cells(
    arrangement: &Arrangement,
    cells: &[Cell],
    span: usize,
    room: u32,
    heights: &mut [u32],
) {
    for &number in arrangement.cells_of(span) {
        if let (Some(cell), Some(&strip)) = (cells.get(number), arrangement.strip_of.get(number)) {
            raise(heights, strip, cell.low.height_at(room).unwrap_or(0));
        }
    }
}
