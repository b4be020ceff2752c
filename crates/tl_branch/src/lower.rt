//! The lower bound of a search that ends with zones that have no line.

ghost use Rattle.std.specs.Prelude.{◌≡◌, length, IfOk};
ghost use Rattle.tl_branch.specs.inner.Learnings.{IsLearning};
ghost use Rattle.tl_branch.specs.inner.Opens.{AreClosers, IsLeastOpen};

use crate::learning::Learning;
use std::alloc::{AllocError, Global};
use tl_problem::Problem;
use tl_solve::{cuts_of_zones, least_standing};

impl Learning {
    /// The least of the best height and of the bounds of the zones that stand and have no line. The others prove
    /// the best height.
    pub(crate) fn lower(&self, problem: &Problem) -> Result<u32, AllocError>
        requires { IsLearning problem.now self.now }
        ensures { IfOk result (IsLeastOpen problem.now self.now.arena.trace self.now.lines.items self.now.arena.best.height) }
    {
        let cuts = cuts_of_zones(self.alloc, self.arena.trace())?;
        let closers = closers_of(self.alloc, &cuts, &self.lines)?;
        Ok(least_standing(&closers, self.arena.bounds(), self.arena.best().height))
    }
}

/// What closes each zone: its cut, or where it has none its line.
fn closers_of(
    alloc: Global,
    cuts: &[Option<u32>],
    lines: &[Option<u32>],
) -> Result<Vec<Option<u32>>, AllocError>
    requires { length lines.now ≡ length cuts.now }
    ensures { IfOk result (λ closers. AreClosers cuts.now lines.now (length cuts.now) closers.items) }
{
    let mut closers = Vec::new(alloc);
    for zone in 0..cuts.len() {
        closers.push(cuts[zone].or(lines[zone]))?;
    }
    Ok(closers)
}
