//! Lines that are filled from the left, an atom at a time.

ghost use Rattle.std.specs.Prelude.{◌≡◌, ◌+◌, ◌-◌, ◌<◌, ◌≤◌, ◌^◌, ℕ, List, [], ◌∷◌, None, IfSome, if◌then◌else◌};
ghost use Rattle.std.specs.Option.{ForSome};
ghost use Rattle.tl_text.specs.declared.measure.Measure.{Measure};
ghost use Rattle.tl_text.specs.inner.Measure.{lines_after, next_line, ends_line, unit_columns};

use crate::measure::Measure;

/// Lines that are filled from the left, each with as many units as fit.
#[derive(Clone, Copy)]
pub struct Filling {
    /// How many lines are ended.
    pub ended: u32,
    /// The columns of the line that is open, if a unit stands on it.
    pub line: Option<u32>,
    /// The least width at which a line that is ended could have taken one more unit.
    pub next: u64,
}

impl Filling {
    /// No line, before any atom. `next` is above every width that is asked for.
    pub fn new(next: u64) -> Filling
        ensures ended { result.ended ≡ 0 }
        ensures line { result.line ≡ None }
        ensures next { result.next ≡ next }
    {
        Filling {
            ended: 0,
            line: None,
            next,
        }
    }

    /// Puts an atom after those so far, in lines of `width` columns.
    pub fn with(self, measure: Measure, width: u32) -> Filling
        requires fits { unit_columns measure ≤ width }
        requires line { ForSome self.line (λ used. used ≤ width) }
        requires room { self.ended < 2 ^ 32 - 1 }
        requires next { width < self.next }

        // Up to the next width, what was and what comes are as they would be at that width.
        ensures lines { (w : ℕ) (measures : List Measure) → width ≤ w → w < result.next
            → result.ended + lines_after w result.line measures
            ≡ self.ended + lines_after w self.line (measure ∷ measures) }
        ensures next { (width < result.next) × (result.next ≤ self.next) }
        ensures line { IfSome result.line (λ used. used ≤ width) }
        ensures next_line { result.line ≡ next_line width self.line measure }
        ensures ended { result.ended
            ≡ (if ends_line width self.line measure then self.ended + 1 else self.ended) }
    {
        match (measure, self.line) {
            (Measure::Break, _) => Filling {
                ended: self.ended + 1,
                line: None,
                next: self.next,
            },
            (Measure::Columns { width: unit, .. }, None) => Filling {
                ended: self.ended,
                line: Some(unit),
                next: self.next,
            },
            (Measure::Columns { width: unit, gap }, Some(used)) => {
                let filled = u64::from(used) + u64::from(gap) + u64::from(unit);
                if filled <= u64::from(width) {
                    Filling {
                        ended: self.ended,
                        line: Some(filled as u32),
                        next: self.next,
                    }
                } else {
                    Filling {
                        ended: self.ended + 1,
                        line: Some(unit),
                        next: self.next.min(filled),
                    }
                }
            }
        }
    }

    /// How many lines there are once the open one is ended.
    pub fn lines(self) -> u32
        requires { self.ended < 2 ^ 32 - 1 }
        ensures { (w : ℕ) → result ≡ self.ended + lines_after w self.line [] }
    {
        match self.line {
            None => self.ended,
            Some(_) => self.ended + 1,
        }
    }
}
