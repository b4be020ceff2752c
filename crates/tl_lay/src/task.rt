//! What is asked of a table.

ghost use Rattle.std.specs.Prelude.{◌≡◌, ◌≤◌};

use crate::format::Format;
use std::alloc::Global;
use tl_base::{Search, Style};
use tl_fan::Run;
use tl_read::Source;

/// What is asked of a table.
#[derive(Clone, Copy)]
pub struct Task {
    /// The width of the page in columns, from 1 to `MAX_PAGE_WIDTH`, or the most that it may be.
    pub width: u32,
    pub style: Style,
    pub source: Source,
    /// How many cuts each search may make, up to `MAX_BUDGET`. Without one it is [`crate::DEFAULT_BUDGET`], or
    /// less where there are many nested tables.
    pub budget: Option<u32>,
    pub search: Search,
    /// How many workers there are, from 1 to `MAX_WORKERS`.
    pub workers: u32,
    /// How the page is written.
    pub format: Format,
    /// Whether texts of certificates are wanted.
    pub certified: bool,
}

impl Task {
    /// What the work for the task runs with: as many workers as it has.
    pub(crate) fn run<'a, R, G>(&self, rt: &'a R, alloc: Global, gate: &'a G) -> Run<'a, R, G>
        requires { 1 ≤ self.now.workers }
        ensures { result.workers ≡ self.now.workers }
    {
        Run {
            rt,
            alloc,
            workers: self.workers,
            gate,
        }
    }
}
