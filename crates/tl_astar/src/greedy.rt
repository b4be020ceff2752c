//! Widths for a low placement: those that the bound of a zone wants, made narrower where that costs least.

use crate::arrangement::{Arrangement, class_of, number_at, raise};
use crate::columns::{column_places, is_on_page, longest_path};
use crate::rises::{Rise, first_above, raise_heights, room_past};
use crate::sight::{Sight, lines_of_strips};
use std::alloc::{AllocError, Global};

/// A narrower room for a span.
#[derive(Clone, Copy)]
struct Step {
    span: usize,
    room: u32,
    /// How many lines the rows grow.
    growth: u32,
    /// How many columns the span gives up.
    won: u32,
}

/// The cheapest step that a span offers, and the room from which it was found.
#[derive(Clone, Copy)]
struct Offer {
    room: u32,
    step: Option<Step>,
}

/// What a span offers before it was asked.
const NO_OFFER: Offer = Offer {
    room: u32::MAX,
    step: None,
};

/// The places of columns within the page. It begins with the rooms that are wanted. While the page does not
/// hold them, a span on a longest path takes the room of a lower class: that which makes the rows grow
/// least for each column won, as far as they had grown when the span took its room. Then the rows are higher,
/// and no span wants more than they leave.
pub(crate) fn greedy_places(
    alloc: Global,
    arrangement: &Arrangement,
    sight: &Sight,
) -> Result<Vec<u32>, AllocError> {
    let mut rooms = Vec::from_slice(alloc, &sight.wanted)?;
    let mut heights = Vec::from_slice(alloc, &sight.heights)?;
    let mut lines = lines_of_strips(alloc, arrangement, &heights)?;
    let mut places = column_places(alloc, arrangement, &rooms)?;
    let mut offers = vec![in alloc; NO_OFFER; arrangement.spans.len()]?;
    let mut met = vec![in alloc; 0; arrangement.spans.len()]?;
    for _ in 0..step_count(arrangement) {
        if is_on_page(arrangement, &places) {
            return Ok(places);
        }
        let path = longest_path(alloc, arrangement, &rooms, &places)?;
        for &span in &path {
            let room = number_at(&rooms, span);
            let first = met.get(span).copied().unwrap_or(0);
            renew(
                alloc,
                arrangement,
                sight,
                (span, room, first),
                &lines,
                &mut offers,
            )?;
        }
        let Some(step) = cheapest(&path, &offers) else {
            return Ok(places);
        };
        raise_heights(sight.rises.of_span(step.span), step.room, &mut heights);
        lines = lines_of_strips(alloc, arrangement, &heights)?;
        take_wanted(arrangement, sight, &lines, &mut met, &mut rooms);
        places = column_places(alloc, arrangement, &rooms)?;
    }
    Ok(places)
}

/// Gives each span the room that it wants where the strips have so many lines. The first `met` rises of a span,
/// which are the widest, were not above the lines before. Rows only become higher, so they still are not, but
/// where a tall strip had stretched a row, that may lose its lines to another one.
fn take_wanted(
    arrangement: &Arrangement,
    sight: &Sight,
    lines: &[u32],
    met: &mut [usize],
    rooms: &mut [u32],
) {
    for span in 0..rooms.len().min(met.len()) {
        let rises = sight.rises.of_span(span);
        let first = if arrangement.has_tall_strips() {
            0
        } else {
            met[span]
        };
        met[span] = first_above(rises, first, lines);
        rooms[span] = number_at(&sight.least, span).max(room_past(rises, met[span]));
    }
}

/// The number of all classes, which is more than steps can be taken.
fn step_count(arrangement: &Arrangement) -> usize {
    let mut count = 0usize;
    for classes in &arrangement.classes {
        count = count.saturating_add(classes.len());
    }
    count
}

/// Finds the cheapest step of a span anew, where its room is another than when it was found. The span is
/// given with its room, and with the number of the first of its rises that may be above the lines.
fn renew(
    alloc: Global,
    arrangement: &Arrangement,
    sight: &Sight,
    asked: (usize, u32, usize),
    lines: &[u32],
    offers: &mut [Offer],
) -> Result<(), AllocError> {
    let (span, room, _) = asked;
    if let Some(offer) = offers.get_mut(span) {
        if offer.room != room {
            let step = step_of(alloc, arrangement, sight, asked, lines)?;
            *offer = Offer { room, step };
        }
    }
    Ok(())
}

/// The cheapest step on the path.
fn cheapest(path: &[usize], offers: &[Offer]) -> Option<Step> {
    let mut best: Option<Step> = None;
    for &span in path {
        if let Some(offer) = offers.get(span) {
            if let Some(step) = offer.step {
                if is_cheaper(&step, &best) {
                    best = Some(step);
                }
            }
        }
    }
    best
}

/// The step of the span from this room with the least growth for each column won, where strips have so many
/// lines.
fn step_of(
    alloc: Global,
    arrangement: &Arrangement,
    sight: &Sight,
    asked: (usize, u32, usize),
    lines: &[u32],
) -> Result<Option<Step>, AllocError> {
    let (span, room, first) = asked;
    let classes = arrangement.classes_of(span);
    let least = number_at(&sight.least, span);
    let growths = growths_of(alloc, classes, sight.rises.of_span(span), first, lines)?;
    let mut best: Option<Step> = None;
    for class in class_of(classes, least)..class_of(classes, room) {
        let narrow = number_at(classes, class).max(least);
        let step = Step {
            span,
            room: narrow,
            growth: number_at(&growths, class),
            won: room.saturating_sub(narrow),
        };
        if is_cheaper(&step, &best) {
            best = Some(step);
        }
    }
    Ok(best)
}

/// Whether the step costs fewer lines for each column than the best so far.
fn is_cheaper(step: &Step, best: &Option<Step>) -> bool {
    match best {
        None => true,
        Some(best) => {
            u64::from(step.growth).saturating_mul(u64::from(best.won))
                < u64::from(best.growth).saturating_mul(u64::from(step.won))
        }
    }
}

/// For each class of a span, how many lines past these its strips need at the class's first width. Its rises
/// tell that without a look at the cells. Those before number `first` are not above the lines.
fn growths_of(
    alloc: Global,
    classes: &[u32],
    rises: &[Rise],
    first: usize,
    lines: &[u32],
) -> Result<Vec<u32>, AllocError> {
    let mut needed = Vec::from_slice(alloc, lines)?;
    let mut growths = vec![in alloc; 0; classes.len()]?;
    let (mut begun, mut growth) = (first, 0u32);
    for class in (0..classes.len()).rev() {
        let (next, grown) = grow(rises, begun, classes[class], &mut needed);
        begun = next;
        growth = growth.saturating_add(grown);
        raise(&mut growths, class, growth);
    }
    Ok(growths)
}

/// Makes the strips as high as the rises from number `begun` on need at this room. Returns the number of the
/// first rise whose width the room has, and how many lines the strips have grown.
fn grow(rises: &[Rise], begun: usize, room: u32, needed: &mut [u32]) -> (usize, u32) {
    let mut grown = 0u32;
    for number in begun..rises.len() {
        let rise = rises[number];
        if rise.width <= room {
            return (number, grown);
        }
        let before = number_at(needed, rise.strip);
        grown = grown.saturating_add(rise.height.saturating_sub(before));
        raise(needed, rise.strip, rise.height);
    }
    (rises.len(), grown)
}
