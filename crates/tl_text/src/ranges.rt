//! The lines of a paragraph, as ranges of its atoms.

ghost use Rattle.std.specs.Prelude.{◌≡◌, ◌<◌, ◌≤◌, length, IfOk, IfErr, OnOk, alloc_error};
ghost use Rattle.std.specs.List.{All};
ghost use Rattle.tl_text.specs.Cuttings.{LeastLines};
ghost use Rattle.tl_text.specs.Paragraph.{unit_width};
ghost use Rattle.tl_text.specs.Ranges.{ShowsGreedyCutting, NamesTooWide};
ghost use Rattle.tl_text.specs.declared.ranges.TextError.TheVariants.{Memory};

use crate::Para;
use crate::filling::Filling;
use crate::measure::measured;
use std::alloc::{AllocError, AllocFailed, Global};
use thiserror::Error;
use tl_base::List;

/// A line of a paragraph: its atoms are those from `first` on and before `past`, counted from 0. A
/// break belongs to the line that it ends.
#[derive(Clone, Copy, Debug, PartialEq, Eq)]
pub struct Line {
    pub first: u32,
    pub past: u32,
}

/// Why a paragraph was not cut into lines.
#[derive(Debug, Drop, Error)]
pub enum TextError {
    /// Number 0: out of memory.
    #[error("out of memory")]
    Memory(AllocError),
    /// Number 1: the atom at this place, counted from 0, is the first unit wider than the width.
    #[error("the unit at {0} is wider than the width")]
    TooWide(u32),
}

impl From<AllocError> for TextError {
    ghost from_gives = { λ _ error. error ≡ Memory alloc_error };

    fn from(error: AllocError) -> TextError {
        TextError::Memory(error)
    }
}

impl<T: Drop> From<AllocFailed<T>> for TextError {
    ghost from_gives = { λ _ error. error ≡ Memory alloc_error };

    fn from(_failed: AllocFailed<T>) -> TextError {
        TextError::Memory(AllocError)
    }
}

/// The greedy cutting into lines of `width` columns, which has the least number of lines: each line
/// has as many units of its piece as fit. `TooWide` exactly where a unit is wider than `width`.
pub fn lines(alloc: Global, p: &Para, width: u32) -> Result<List<Line>, TextError>
    ensures greedy { IfOk result (ShowsGreedyCutting width p.now) }
    ensures least { IfOk result (λ lines. LeastLines width p.now (length lines)) }
    ensures fits { OnOk result (All (λ atom. unit_width atom ≤ width) p.now) }
    ensures too_wide { IfErr result (NamesTooWide width p.now) }
{
    let atoms = p.atoms();
    let mut lines = List::new(alloc);
    let mut first = 0;
    let mut filling = Filling::new(u64::from(width) + 1);
    for (at, atom) in atoms.iter().enumerate() {
        let at = at as u32;
        let measure = measured(atom);
        let too_wide = measure.width() > width;
        if too_wide {
            return Err(TextError::TooWide(at));
        }
        let ended = filling.ended;
        filling = filling.with(measure, width);
        if filling.line.is_none() {
            let past = at + 1;
            lines.push(Line { first, past })?;
            first = past;
        } else if filling.ended > ended {
            lines.push(Line { first, past: at })?;
            first = at;
        }
    }
    if filling.line.is_some() {
        let past = atoms.len() as u32;
        lines.push(Line { first, past })?;
    }
    Ok(lines)
}
