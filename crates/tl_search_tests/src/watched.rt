//! What a watcher sees of searches, and that they find the same without one.

use crate::problems::{UNWATCHED, numbers, two_rows};
use std::alloc::{AllocError, Global};
use std::process::Abort;
use std::sync::Mutex;
use std::test::Fail;
use tl_astar::Best;
use tl_base::Gate;
use tl_branch::Learn;
use tl_solve::{Plain, Progress, Solver, Watch, Watcher};

/// A watcher that looks where one of the cuts from the first on is a multiple of `every`, and keeps what it sees.
#[derive(Drop)]
pub(crate) struct Witness {
    every: u32,
    seen: Mutex<Vec<Progress>>,
}

impl Witness {
    pub(crate) fn new(alloc: Global, every: u32) -> Witness {
        Witness {
            every,
            seen: Mutex::new(Vec::new(alloc)),
        }
    }

    /// The witness, as the searches of a table have it.
    pub(crate) fn of_table(&self, table: u32) -> Watch<'_, Witness> {
        Watch {
            watcher: self,
            table,
        }
    }

    /// What was seen: the table, the cuts, the height and the lower bound, each time.
    pub(crate) fn seen(&self, alloc: Global) -> Result<String, AllocError> {
        let mut text = String::new(alloc);
        if let Some(seen) = self.seen.try_lock() {
            for each in seen.iter() {
                let Progress {
                    table,
                    cuts,
                    height,
                    lower,
                } = *each;
                text.push_str(format!(in alloc; "{table} {cuts} {height} {lower};")?.as_str())?;
            }
        }
        Ok(text)
    }
}

// Pieces of work are let through.
impl Gate for Witness {
    fn pass(&self, _piece: u32) {}
}

impl Watcher for Witness {
    fn wants(&self, before: u32, cuts: u32) -> bool {
        cuts / self.every.max(1) > before / self.every.max(1)
    }

    fn see(&self, progress: Progress) {
        if let Some(mut seen) = self.seen.try_lock() {
            let _ = seen.push(progress);
        }
    }
}

/// Compares what a witness sees of a search of the two rows, as that of table 7, with what is wanted. The search
/// finds the same without it.
fn witnessed<S: Solver>(
    rt: &impl Abort,
    alloc: Global,
    solver: &mut S,
    every: u32,
    wanted: &str,
) -> Result<(), Fail>
    requires { S.can_solve solver.old }
{
    let problem = two_rows(alloc)?;
    let witness = Witness::new(alloc, every);
    let watched = solver.solve(&problem, 16, &witness.of_table(7))?;
    let alone = solver.solve(&problem, 16, &UNWATCHED)?;
    assert_eq!(rt;
        (witness.seen(alloc)?.as_str(), numbers(&watched)),
        (wanted, numbers(&alone))
    );
    Ok(())
}

// The opening has four lines, and some zone keeps a bound of three up to the seventh cut.
#[test]
fn each_cut_of_a_plain_search_is_seen(rt: HostRuntime) -> Result<(), Fail> {
    let mut plain = Plain::new(rt.alloc());
    let wanted = "7 1 4 3;7 2 4 3;7 3 4 3;7 4 4 3;7 5 4 3;7 6 4 3;7 7 4 4;";
    witnessed(&rt, rt.alloc(), &mut plain, 1, wanted)
}

#[test]
fn a_search_is_seen_only_where_the_watcher_wants_to(rt: HostRuntime) -> Result<(), Fail> {
    let mut plain = Plain::new(rt.alloc());
    witnessed(&rt, rt.alloc(), &mut plain, 3, "7 3 4 3;7 6 4 3;")?;
    witnessed(&rt, rt.alloc(), &mut plain, 8, "")
}

// One cut shows that three lines are too few.
#[test]
fn the_one_cut_of_a_best_first_search_is_seen(rt: HostRuntime) -> Result<(), Fail> {
    let mut best = Best::new(rt.alloc());
    witnessed(&rt, rt.alloc(), &mut best, 1, "7 1 4 4;")
}

// It makes the first three cuts of the plain search, and then its lines show what bounds alone do not.
#[test]
fn each_cut_of_a_search_that_learns_is_seen(rt: HostRuntime) -> Result<(), Fail> {
    let mut learn = Learn::new(rt.alloc());
    witnessed(&rt, rt.alloc(), &mut learn, 1, "7 1 4 3;7 2 4 3;7 3 4 3;")
}
