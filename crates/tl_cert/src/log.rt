//! The lines by which it is proved that nothing lower exists.

ghost use Rattle.std.specs.Prelude.{◌≡◌, IfOk};

use std::alloc::{AllocError, Global};
use tl_base::List;

/// On which side of its width a bound keeps a span's room.
#[derive(Clone, Copy, Debug, PartialEq, Eq, Hash)]
pub enum Side {
    /// The room is at most the width.
    Most,
    /// The room is at least the width.
    Least,
}

/// A bound on the room of a column span: "at most" or "at least" so many columns of text.
#[derive(Clone, Copy, Debug, PartialEq, Eq, Hash)]
pub struct Bound {
    /// The number of the column span.
    pub span: u32,
    /// Whether the room is at most or at least the width.
    pub side: Side,
    /// Columns of text.
    pub width: u32,
}

/// Bounds that no layout below the claimed height meets together.
#[derive(Debug, Drop)]
pub enum Nogood {
    /// The bounds of a zone of the trace, by its number; zone 0 has none.
    Zone(u32),
    /// Bounds written out: at least one and at most [`crate::MAX_BOUNDS`], by span, "at most" before "at least", each at most once.
    Bounds(List<Bound>),
}

impl Nogood {
    /// A copy of the nogood.
    pub fn copy(&self, alloc: Global) -> Result<Nogood, AllocError>
        ensures { IfOk result (λ nogood. nogood ≡ self.now) }
    {
        match self {
            Nogood::Zone(zone) => Ok(Nogood::Zone(*zone)),
            Nogood::Bounds(bounds) => {
                let bounds = List::from_slice(alloc, bounds.as_slice())?;
                Ok(Nogood::Bounds(bounds))
            }
        }
    }
}

/// How a log line is brought to its end.
#[derive(Clone, Copy, Debug, PartialEq, Eq)]
pub enum End {
    /// All bounds of the line that was fired last hold, so this line's bounds fail as that line's do.
    Fired,
    /// No widths are left.
    Cycle,
    /// The rows need at least the claimed lower bound, by their heaviest chain.
    Chain,
    /// The cells need at least the claimed lower bound, by their area.
    Area,
}

/// One line of a log: its nogood, the earlier lines that it fires, by their numbers from 0, and its
/// end.
#[derive(Debug)]
pub struct LogLine {
    pub nogood: Nogood,
    pub fires: List<u32>,
    pub end: End,
}

impl LogLine {
    /// A copy of the line.
    pub fn copy(&self, alloc: Global) -> Result<LogLine, AllocError>
        ensures { IfOk result (λ line. line ≡ self.now) }
    {
        let nogood = self.nogood.copy(alloc)?;
        let fires = List::from_slice(alloc, self.fires.as_slice())?;
        Ok(LogLine {
            nogood,
            fires,
            end: self.end,
        })
    }
}

impl Drop for LogLine {
    fn drop(self) {
        let LogLine {
            nogood: _nogood,
            fires: _fires,
            end: _end,
        } = self;
    }
}

/// Log lines in order. The last one has a nogood without bounds, so that nothing lower exists at all.
pub type Log = List<LogLine>;
