//! Reads the lines of a log and the cuts of a trace.

ghost use Rattle.std.specs.Prelude.{◌≡◌, ◌≤◌, IfSome, IfOk};
ghost use Rattle.tl_cert.specs.inner.Gives.{Gives};
ghost use Rattle.tl_cert.specs.inner.CertReading as read;
ghost use Rattle.tl_cert.specs.Text as text;
ghost use Rattle.tl_cert.specs.inner.reading.Lists.{listing};

use crate::areas::Areas;
use crate::follow::Follow;
use crate::limits::{MAX_BOUNDS, MAX_CLASS, MAX_FIRES, MAX_LINE, MAX_SPAN, MAX_ZONE};
use crate::log::{Bound, End, Log, LogLine, Nogood, Side};
use crate::reader::{Fault, Reader};
use crate::trace::{CutAt, Trace};
use std::alloc::Global;
use tl_base::{List, MAX_PAGE_WIDTH};

impl<'a> Reader<'a> {
    /// How a log line ends, its line feed with it.
    #[tactic(auto, unfolding(crate::specs::inner::CertReading::end_at, // and how readings follow one another
    crate::specs::inner::reading::Readings::followed, crate::specs::inner::reading::Readings::either, crate::specs::inner::reading::Readings::give))]
    fn end(&mut self, areas: Areas) -> Result<End, Fault>
        ensures { Gives (λ x. x) result self.new.rest.now (read.end_at areas self.old.rest.now) }
    {
        match areas {
            Areas::Never => self.end_without_area(),
            Areas::Free if !self.next_is(b'a') => self.end_without_area(),
            Areas::Free | Areas::Owed => {
                self.word(b"area\n")?;
                Ok(End::Area)
            }
        }
    }

    #[tactic(auto, unfolding(crate::specs::inner::reading::Readings::followed, // and how readings follow one another
    crate::specs::inner::reading::Readings::either, crate::specs::inner::reading::Readings::give))]
    fn end_without_area(&mut self) -> Result<End, Fault>
        ensures { Gives (λ x. x) result self.new.rest.now (read.plain_end_at self.old.rest.now) }
    {
        if self.next_is(b'f') {
            self.word(b"fired\n")?;
            return Ok(End::Fired);
        }
        self.word(b"c")?;
        if self.next_is(b'y') {
            self.word(b"ycle\n")?;
            return Ok(End::Cycle);
        }
        self.word(b"hain\n")?;
        Ok(End::Chain)
    }

    /// The number of a line that is fired, and the space after it.
    #[tactic(auto, unfolding(crate::specs::inner::CertReading::fire_at, crate::specs::inner::reading::Readings::followed))]
    fn fire(&mut self) -> Result<u32, Fault>
        ensures { Gives (λ x. x) result self.new.rest.now (read.fire_at self.old.rest.now) }
    {
        self.word(b"@")?;
        self.field(0, MAX_LINE, b' ')
    }

    /// The lines that are fired, and the end.
    fn fires(&mut self, alloc: Global, areas: Areas) -> Result<(List<u32>, End), Fault>
        ensures { Gives (λ x. listing x.0 x.1) result self.new.rest.now (read.fires_at areas self.old.rest.now) }
    {
        let mut fires = List::new(alloc);
        'fires: while fires.len() < MAX_FIRES && self.next_is(b'@') {
            let line = self.fire()?;
            fires.push(line)?;
        }
        let end = self.end(areas)?;
        Ok((fires, end))
    }

    /// A bound that may follow the one before it, and the space after it.
    #[tactic(auto, unfolding(crate::specs::inner::CertReading::bound_reading, // and how readings follow one another
    crate::specs::inner::reading::Readings::followed, crate::specs::inner::reading::Readings::give))]
    fn bound(&mut self, before: Option<Bound>) -> Result<Bound, Fault>
        requires { IfSome before (λ bound. bound.span ≤ MAX_SPAN) }
        ensures gives { Gives (λ x. x) result self.new.rest.now (read.bound_reading before self.old.rest.now) }
        ensures most { IfOk result (λ bound. bound.span ≤ MAX_SPAN) }
    {
        let (span, sign) = self.number(0, MAX_SPAN, Follow::Sign(before))?;
        let side = if sign == b'-' {
            Side::Most
        } else {
            Side::Least
        };
        let width = self.field(0, MAX_PAGE_WIDTH, b' ')?;
        Ok(Bound { span, side, width })
    }

    /// Bounds in order, the lines that are fired, and the end.
    fn bounds(
        &mut self,
        alloc: Global,
        areas: Areas,
    ) -> Result<(List<Bound>, List<u32>, End), Fault>
        ensures { Gives (λ x. listing x.0 (listing x.1 x.2)) result self.new.rest.now (read.bounds_at areas self.old.rest.now) }
    {
        let mut bounds = List::new(alloc);
        let mut before = self.bound(None)?;
        bounds.push(before)?;
        'bounds: while bounds.len() < MAX_BOUNDS && self.next_is_digit() {
            let bound = self.bound(Some(before))?;
            bounds.push(bound)?;
            before = bound;
        }
        let (fires, end) = self.fires(alloc, areas)?;
        Ok((bounds, fires, end))
    }

    /// A line with the number of a zone.
    #[tactic(auto, unfolding(crate::specs::inner::reading::Readings::followed, crate::specs::inner::reading::Readings::give))]
    fn zone_line(&mut self, alloc: Global, areas: Areas) -> Result<LogLine, Fault>
        ensures { Gives (λ x. x) result self.new.rest.now (read.zone_line_at areas self.old.rest.now) }
    {
        self.word(b"z")?;
        let zone = self.field(0, MAX_ZONE, b' ')?;
        let (fires, end) = self.fires(alloc, areas)?;
        Ok(LogLine {
            nogood: Nogood::Zone(zone),
            fires,
            end,
        })
    }

    /// A line with bounds that are written out.
    #[tactic(auto, unfolding(crate::specs::inner::reading::Readings::followed, crate::specs::inner::reading::Readings::give))]
    fn bounds_line(&mut self, alloc: Global, areas: Areas) -> Result<LogLine, Fault>
        ensures { Gives (λ x. x) result self.new.rest.now (read.bounds_line_at areas self.old.rest.now) }
    {
        let (bounds, fires, end) = self.bounds(alloc, areas)?;
        Ok(LogLine {
            nogood: Nogood::Bounds(bounds),
            fires,
            end,
        })
    }

    /// One log line.
    #[tactic(auto, unfolding(crate::specs::inner::CertReading::line_at, crate::specs::inner::reading::Readings::either))]
    fn line(&mut self, alloc: Global, areas: Areas) -> Result<LogLine, Fault>
        ensures { Gives (λ x. x) result self.new.rest.now (read.line_at areas self.old.rest.now) }
    {
        if self.next_is(b'z') {
            self.zone_line(alloc, areas)
        } else {
            self.bounds_line(alloc, areas)
        }
    }

    /// So many log lines.
    pub(crate) fn lines(&mut self, alloc: Global, count: u32, areas: Areas) -> Result<Log, Fault>
        ensures { Gives (λ x. listing x tt) result self.new.rest.now (read.lines_at count areas self.old.rest.now) }
    {
        let mut lines = List::new(alloc);
        let mut asked = areas;
        'lines: for number in 0..count {
            let others = (count - 1 - number) as usize;
            let line = self.line(alloc, asked.for_part(others))?;
            asked = asked.after(is_area(line.end));
            lines.push(line)?;
        }
        Ok(lines)
    }

    /// One cut.
    #[tactic(auto, unfolding(crate::specs::inner::CertReading::cut_at, // and how readings follow one another
    crate::specs::inner::reading::Readings::followed, crate::specs::inner::reading::Readings::give))]
    fn cut(&mut self) -> Result<CutAt, Fault>
        ensures { Gives (λ x. x) result self.new.rest.now (read.cut_at self.old.rest.now) }
    {
        self.word(b"cut ")?;
        let zone = self.field(0, MAX_ZONE, b' ')?;
        let span = self.field(0, MAX_SPAN, b' ')?;
        let class = self.field(0, MAX_CLASS, b'\n')?;
        Ok(CutAt { zone, span, class })
    }

    /// So many cuts.
    pub(crate) fn cuts(&mut self, alloc: Global, count: u32) -> Result<Trace, Fault>
        ensures { Gives (λ x. listing x tt) result self.new.rest.now (read.cuts_at count self.old.rest.now) }
    {
        let mut cuts = List::new(alloc);
        'cuts: for _ in 0..count {
            let cut = self.cut()?;
            cuts.push(cut)?;
        }
        Ok(cuts)
    }
}

/// Whether a line ends by `area`.
pub(crate) fn is_area(end: End) -> bool
    ensures { result ≡ text.is_area end }
{
    matches!(end, End::Area)
}
