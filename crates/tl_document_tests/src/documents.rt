//! The table of a file, and what the searches of a document are made by, run with and pass.

ghost use Rattle.std.specs.Prelude.{◌≤◌, IfOk};
ghost use Rattle.tl_solve.specs.Plain.{IsPlainOutcome};
ghost use Rattle.tl_table.specs.FewCells.{HasFewCells};
ghost use Rattle.tl_table.specs.Sound.{IsSound};

use std::alloc::{AllocError, Global};
use std::sync::Mutex;
use std::test::Fail;
use tl_base::{Breaking, Gate, MAX_FILE_BYTES, NoGate};
use tl_fan::Run;
use tl_nested::Make;
use tl_solve::{Plain, Progress, Watcher};
use tl_table::{Table, formed_has_few_cells, table};
use tl_token::tokens;
use tl_tree::tree;

/// How often a thread tries to get hold of a count.
const TURNS: u32 = 100_000_000;

/// A number that the threads of a test share. It begins with 0.
#[derive(Drop)]
pub(crate) struct Count {
    number: Mutex<u32>,
}

impl Count {
    pub(crate) fn new() -> Count {
        Count {
            number: Mutex::new(0),
        }
    }

    /// Adds so many, and returns the number before, or `None` if other threads hold it at all turns.
    pub(crate) fn add(&self, more: u32) -> Option<u32> {
        for _ in 0..TURNS {
            if let Some(mut number) = self.number.try_lock() {
                let before = *number;
                *number = before.wrapping_add(more);
                return Some(before);
            }
        }
        None
    }

    /// The number, or `None` if other threads hold it at all turns.
    pub(crate) fn number(&self) -> Option<u32> {
        self.add(0)
    }

    /// Whether the number is `least` or more at one of the turns.
    pub(crate) fn reaches(&self, least: u32) -> bool {
        for _ in 0..TURNS {
            if let Some(number) = self.number.try_lock() {
                if *number >= least {
                    return true;
                }
            }
        }
        false
    }
}

/// Makes plain searches, and counts them.
#[derive(Drop)]
pub(crate) struct MakePlain {
    pub(crate) made: Count,
}

impl MakePlain {
    pub(crate) fn new() -> MakePlain {
        MakePlain { made: Count::new() }
    }
}

impl Make for MakePlain {
    ghost besides = { λ _ problem _ outcome. IsPlainOutcome problem outcome };

    type Made = Plain;

    fn make(&self, alloc: Global) -> Result<Plain, AllocError> {
        self.made.add(1);
        Ok(Plain::new(alloc))
    }
}

/// So many workers, and no gate.
pub(crate) fn run_by<R>(rt: &R, alloc: Global, workers: u32) -> Run<'_, R, NoGate>
    requires { 1 ≤ workers }
{
    Run {
        rt,
        alloc,
        workers,
        gate: &NoGate,
    }
}

/// A gate at which two pieces with numbers one apart meet: each comes, and looks for the other.
#[derive(Drop)]
pub(crate) struct Meeting {
    come: [Count; 2],
    met: [Count; 2],
}

impl Meeting {
    pub(crate) fn new() -> Meeting {
        Meeting {
            come: [Count::new(), Count::new()],
            met: [Count::new(), Count::new()],
        }
    }

    /// Whether each of the two has seen the other.
    pub(crate) fn both_met(&self) -> bool {
        self.met[0].reaches(1) && self.met[1].reaches(1)
    }
}

impl Gate for Meeting {
    fn pass(&self, piece: u32) {
        let own = (piece % 2) as usize;
        self.come[own].add(1);
        if self.come[1 - own].reaches(1) {
            self.met[own].add(1);
        }
    }
}

impl Watcher for Meeting {
    fn wants(&self, _before: u32, _cuts: u32) -> bool {
        false
    }

    fn see(&self, _progress: Progress) {}
}

/// The table of a file, or why it has none.
pub(crate) fn table_of(alloc: Global, file: &str) -> Result<Table, Fail>
    ensures sound { IfOk result IsSound }
    ensures cells { IfOk result HasFewCells }
{
    let bytes = file.as_bytes();
    if bytes.len() > MAX_FILE_BYTES {
        return Err("the file is too long".into());
    }
    formed_has_few_cells();
    let list = tokens(alloc, bytes)?;
    let node = tree(alloc, list.as_slice())?;
    Ok(table(alloc, node, Breaking::Words)?)
}
