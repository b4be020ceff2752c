//! Reads the sections of a certificate.

ghost use Rattle.std.specs.Prelude.{◌≡◌, ◌≤◌};
ghost use Rattle.tl_cert.specs.inner.Gives.{Gives};
ghost use Rattle.tl_cert.specs.inner.CertReading as read;
ghost use Rattle.tl_cert.specs.Text as text;
ghost use Rattle.tl_cert.specs.inner.reading.Lists.{listing, comes};

use crate::areas::Areas;
use crate::follow::Follow;
use crate::limits::{MAX_SECTIONS, MAX_TABLE};
use crate::log::LogLine;
use crate::log_text::is_area;
use crate::reader::{Fault, Reader};
use crate::section::Section;
use std::alloc::Global;
use tl_base::{List, MAX_BUDGET, MAX_COLUMNS, MAX_HEIGHT, MAX_PAGE_WIDTH};

impl<'a> Reader<'a> {
    /// A width, and whether another follows.
    #[tactic(auto, unfolding(crate::specs::inner::CertReading::width_at, // and how readings follow one another
    crate::specs::inner::reading::Readings::followed, crate::specs::inner::reading::Readings::give))]
    fn width(&mut self, more: bool) -> Result<(u32, bool), Fault>
        ensures { Gives (λ x. (x.0, x.1)) result self.new.rest.now (read.width_at more self.old.rest.now) }
    {
        let (width, end) = self.number(0, MAX_PAGE_WIDTH, Follow::Item(more))?;
        Ok((width, end == b' '))
    }

    /// Widths, the first one included.
    fn some_widths(&mut self, alloc: Global) -> Result<List<u32>, Fault>
        ensures { Gives (λ x. listing x tt) result self.new.rest.now (read.some_widths_at self.old.rest.now) }
    {
        let mut widths = List::new(alloc);
        let mut more = true;
        'widths: while more && widths.len() < MAX_COLUMNS {
            let others = MAX_COLUMNS - 1 - widths.len();
            let (width, follows) = self.width(others > 0)?;
            widths.push(width)?;
            more = follows;
        }
        Ok(widths)
    }

    /// The line of the widths.
    #[tactic(auto, unfolding(crate::specs::inner::CertReading::widths_at, // and how readings follow one another
    crate::specs::inner::reading::Readings::followed, crate::specs::inner::reading::Readings::either, crate::specs::inner::reading::Readings::give))]
    fn widths(&mut self, alloc: Global) -> Result<List<u32>, Fault>
        ensures { Gives (λ x. listing x tt) result self.new.rest.now (read.widths_at self.old.rest.now) }
    {
        self.word(b"widths")?;
        if self.next_is(b' ') {
            self.word(b" ")?;
            return self.some_widths(alloc);
        }
        self.word(b"\n")?;
        Ok(List::new(alloc))
    }

    /// How many log lines there are, for so many cuts.
    #[tactic(auto, unfolding(crate::specs::inner::CertReading::count_at, // and how readings follow one another
    crate::specs::inner::reading::Readings::followed, crate::specs::inner::reading::Readings::give))]
    fn count(&mut self, areas: Areas, cuts: u32) -> Result<u32, Fault>
        requires { cuts ≤ MAX_BUDGET }
        ensures { Gives (λ x. x) result self.new.rest.now (read.count_at areas cuts self.old.rest.now) }
    {
        let (lines, _) = self.number(1, 2 * cuts + 1, Follow::Count(areas))?;
        Ok(lines)
    }

    /// One section.
    #[tactic(auto, unfolding(crate::specs::inner::CertReading::section_at, // and how readings follow one another
    crate::specs::inner::reading::Readings::followed, crate::specs::inner::reading::Readings::give))]
    fn section(&mut self, alloc: Global, areas: Areas) -> Result<Section, Fault>
        ensures { Gives (λ x. x) result self.new.rest.now (read.section_at areas self.old.rest.now) }
    {
        self.word(b"section ")?;
        let table = self.field(0, MAX_TABLE, b' ')?;
        let width = self.field(0, MAX_PAGE_WIDTH, b' ')?;
        let height = self.field(0, MAX_HEIGHT, b' ')?;
        let lower = self.field(0, MAX_HEIGHT, b' ')?;
        let cuts = self.field(0, MAX_BUDGET, b' ')?;
        let lines = self.count(areas, cuts)?;
        let widths = self.widths(alloc)?;
        let trace = self.cuts(alloc, cuts)?;
        let log = self.lines(alloc, lines, areas)?;
        Ok(Section {
            table,
            width,
            height,
            lower,
            widths,
            trace,
            log,
        })
    }

    /// Whether a section comes, or has to: where none was read, or a line with `area` is owed.
    fn section_comes(&self, first: bool, areas: Areas) -> bool
        ensures { result ≡ comes (read.sections_turn first areas) self.now.rest.now }
    {
        first || matches!(areas, Areas::Owed) || self.next_is(b's')
    }

    /// The sections, and the last line.
    pub(crate) fn sections(&mut self, alloc: Global, areas: Areas) -> Result<List<Section>, Fault>
        ensures { Gives (λ x. listing x tt) result self.new.rest.now (read.sections_at areas self.old.rest.now) }
    {
        let mut sections = List::new(alloc);
        let mut first = true;
        let mut asked = areas;
        'sections: while sections.len() < MAX_SECTIONS && self.section_comes(first, asked) {
            let others = MAX_SECTIONS - 1 - sections.len();
            let section = self.section(alloc, asked.for_part(others))?;
            asked = asked.after(has_area(section.log.as_slice()));
            sections.push(section)?;
            first = false;
        }
        self.word(b"end\n")?;
        Ok(sections)
    }
}

/// Whether a line of the log ends by `area`.
pub(crate) fn has_area(log: &[LogLine]) -> bool
    ensures { result ≡ text.log_has_area log.now }
{
    log.iter().any(|line| is_area(line.end))
}
