//! How much higher rows become where spans get less room, by the `low` of their cells.

ghost use Rattle.std.specs.Prelude.{◌≡◌, ◌≤◌, ℕ, length, slice_index, EachIndex, SomeIndex, OnOk};
ghost use Rattle.tl_astar.specs.inner.Rises.{AddsRises, AreHighEnough, AreNoHigher, Raises, Wants, rises_of};

use crate::arrangement::{Arrangement, number_at, raise};
use std::alloc::{AllocError, Global};
use std::cmp::Reverse;
use tl_problem::Cell;

/// Below `width` columns of room a cell makes its strip at least `height` lines high.
#[derive(Clone, Copy)]
pub(crate) struct Rise {
    pub(crate) width: u32,
    pub(crate) strip: usize,
    pub(crate) height: u32,
}

/// The rises of each span, the widest first.
#[derive(Drop)]
pub(crate) struct Rises {
    /// Those of one span after those of the other.
    all: Vec<Rise>,
    /// Where those of each span end.
    ends: Vec<usize>,
}

impl Rises {
    /// The rises between the least and the greatest room of each span that make a strip higher than this.
    /// A cell that decides no row at any of these rooms has none.
    pub(crate) fn of_cells(
        alloc: Global,
        arrangement: &Arrangement,
        cells: &[Cell],
        rooms: (&[u32], &[u32]),
        heights: &[u32],
    ) -> Result<Rises, AllocError> {
        let mut rises = Rises::none(alloc);
        let (least, most) = rooms;
        for span in 0..arrangement.spans.len() {
            let room = (number_at(least, span), number_at(most, span));
            let found = rises_of_span(alloc, arrangement, cells, span, room, heights)?;
            rises.all.extend_from_slice(&found)?;
            rises.ends.push(rises.all.len())?;
        }
        Ok(rises)
    }

    /// Of these rises those between other rooms, and above other heights.
    pub(crate) fn within(
        &self,
        alloc: Global,
        rooms: (&[u32], &[u32]),
        heights: &[u32],
    ) -> Result<Rises, AllocError> {
        let mut rises = Rises::none(alloc);
        let (least, most) = rooms;
        for span in 0..self.ends.len() {
            let room = (number_at(least, span), number_at(most, span));
            add_within(self.of_span(span), room, heights, &mut rises.all)?;
            rises.ends.push(rises.all.len())?;
        }
        Ok(rises)
    }

    /// No rises.
    fn none(alloc: Global) -> Rises {
        Rises {
            all: Vec::new(alloc),
            ends: Vec::new(alloc),
        }
    }

    /// Makes each strip as high, in lines, as the rises of every span want it at the span's room, in columns.
    /// A cell of any span may decide a row, so the rises of each of them count.
    pub(crate) fn raise_all(&self, rooms: &[u32], heights: &mut [u32])
        ensures len { length heights.new ≡ length heights.old }
        ensures no_lower { (strip : ℕ) → slice_index heights.old strip ≤ slice_index heights.new strip }
        ensures each_span { EachIndex rooms.now (λ span.
            AreHighEnough (Wants (rises_of self.now span) (slice_index rooms.now span)) heights.new) }
        ensures no_higher { AreNoHigher (λ strip height. SomeIndex rooms.now (λ span.
            Wants (rises_of self.now span) (slice_index rooms.now span) strip height)) heights.old heights.new }
    {
        for span in 0..rooms.len() {
            raise_heights(self.of_span(span), rooms[span], heights);
        }
    }

    /// The rises of a span, the widest first.
    pub(crate) fn of_span(&self, span: usize) -> &[Rise]
        ensures { result.now ≡ rises_of self.now span }
    {
        let begin = match span {
            0 => 0,
            _ => self.end_of(span - 1),
        };
        match self.all.get(begin..self.end_of(span)) {
            Some(rises) => rises,
            None => &[],
        }
    }

    /// Where the rises of a span end.
    fn end_of(&self, span: usize) -> usize
        ensures { result ≡ slice_index self.now.ends.items span }
    {
        self.ends.get(span).copied().unwrap_or(0)
    }
}

/// Makes each strip as high as rises of a span want it at this room.
pub(crate) fn raise_heights(rises: &[Rise], room: u32, heights: &mut [u32])
    ensures { Raises (Wants rises.now room) heights.old heights.new }
{
    for rise in rises {
        if rise.width <= room {
            return;
        }
        raise(heights, rise.strip, rise.height);
    }
}

/// The number of the first of the rises of a span, from `first` on, that is above these lines of the strips.
pub(crate) fn first_above(rises: &[Rise], first: usize, lines: &[u32]) -> usize {
    for number in first..rises.len() {
        if rises[number].height > number_at(lines, rises[number].strip) {
            return number;
        }
    }
    rises.len()
}

/// The least room at which none of the rises of a span from this number on counts, 0 where there are none.
pub(crate) fn room_past(rises: &[Rise], number: usize) -> u32 {
    match rises.get(number) {
        Some(rise) => rise.width,
        None => 0,
    }
}

/// Adds the rises of a span from the least up to the greatest room that are above these heights.
fn add_within(
    rises: &[Rise],
    room: (u32, u32),
    heights: &[u32],
    found: &mut Vec<Rise>,
) -> Result<(), AllocError> {
    let (least, most) = room;
    for rise in rises {
        if rise.width <= least {
            return Ok(());
        }
        if rise.width <= most && rise.height > number_at(heights, rise.strip) {
            found.push(*rise)?;
        }
    }
    Ok(())
}

/// The rises of the cells of a span, the widest first.
fn rises_of_span(
    alloc: Global,
    arrangement: &Arrangement,
    cells: &[Cell],
    span: usize,
    room: (u32, u32),
    heights: &[u32],
) -> Result<Vec<Rise>, AllocError> {
    let mut rises = Vec::new(alloc);
    for &number in arrangement.cells_of(span) {
        if let (Some(cell), Some(&strip)) = (cells.get(number), arrangement.strip_of.get(number)) {
            add_rises(cell, strip, room, number_at(heights, strip), &mut rises)?;
        }
    }
    rises.sort_unstable_by_key(|rise| Reverse(rise.width));
    Ok(rises)
}

/// Adds the rises of a cell from the least up to the greatest room that are above the height.
fn add_rises(
    cell: &Cell,
    strip: usize,
    room: (u32, u32),
    height: u32,
    rises: &mut Vec<Rise>,
) -> Result<(), AllocError>
    ensures { OnOk result (AddsRises cell.now.low strip room.0 room.1 height rises.old.items rises.new.items) }
{
    let (least, most) = room;
    let steps = cell.low.configs();
    for number in 1..steps.len() {
        let width = steps[number].width;
        let narrow = steps[number - 1].height;
        if least < width && width <= most && narrow > height {
            rises.push(Rise {
                width,
                strip,
                height: narrow,
            })?;
        }
    }
    Ok(())
}
