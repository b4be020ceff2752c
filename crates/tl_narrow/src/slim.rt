//! The narrowest page for a height, by bisection over widths.

ghost use Rattle.std.specs.Prelude.{◌≡◌, ◌≤◌, ℕ, IfOk, IfSome};
ghost use Rattle.tl_base.specs.declared.limits.TheConstants.{MAX_BUDGET, MAX_PAGE_WIDTH};
ghost use Rattle.tl_table.specs.FewCells.{HasFewCells};
ghost use Rattle.tl_table.specs.Least.{IsLeastWidth};
ghost use Rattle.tl_table.specs.Sound.{IsSound};
ghost use Rattle.tl_nested.specs.Searched.{AreSectionsOf};
ghost use Rattle.tl_narrow.specs.Trials.{IsBisection};
ghost use Rattle.tl_narrow.specs.Slims.{AreSearched, IsLowCertificate, IsSlim};

use crate::aim::Aim;
use crate::trials::{begin, tried};
use std::alloc::AllocError;
use std::thread::Threads;
use tl_base::Gate;
use tl_cert::Certificate;
use tl_fan::Run;
use tl_nested::Make;
use tl_solve::Watcher;
use tl_table::Table;

/// Between which widths the narrowest page lies on which a table is low enough, and what shows it. Where
/// `width` is `least`, it is that width; where `least` is above the widest page, there is none.
pub struct Slim {
    /// The least width, in columns of text, of a page that was found to be low enough; 0 where none was.
    pub width: u32,
    /// No narrower page is low enough, in columns of text: from 1 to one more than the widest page.
    pub least: u32,
    /// The certificate of a page of `width` columns; none where `width` is 0.
    pub kept: Option<Certificate>,
    /// The certificate that a page one column narrower than `least` is not low enough; none where there is
    /// no such page.
    pub less: Option<Certificate>,
    /// The certificate of the trial with which the search ended early, as its budget told neither; none
    /// where the search came to its end.
    pub spent: Option<Certificate>,
}

impl Drop for Slim {
    fn drop(self) {
        let Slim {
            width: _width,
            least: _least,
            kept: _kept,
            less: _less,
            spent: _spent,
        } = self;
    }
}

/// Finds the narrowest page, of 1 to `aim.most` columns, on which some layout of the table has at most
/// `aim.height` lines. First the widest page is tried, unless `kept` is its certificate; then, while there are
/// narrower pages that may be low enough, the one in the middle. A trial searches each section with at most
/// `aim.budget` cuts, by a solver of its own, and as many workers as the run has search nested tables at one
/// time. A page whose height was found to be low enough is the next widest; below one whose lower bound is too
/// high no page is low enough; a trial that tells neither ends the search. There are at most ten trials, and the
/// sections of one are given up before the next, but for those of the certificates that are answered. The
/// error is out of memory.
pub fn slimmest<R: Threads + Sync, M: Make, G: Gate + Watcher>(
    run: &Run<'_, R, G>,
    table: &Table,
    aim: Aim,
    kept: Option<Certificate>,
    maker: &M,
) -> Result<Slim, AllocError>
    requires ready { M.can_make maker.now }
    requires sound { IsSound table.now }
    requires cells { HasFewCells table.now }
    requires some { 1 ≤ aim.most }
    requires narrow { aim.most ≤ MAX_PAGE_WIDTH }
    requires cuts { aim.budget ≤ MAX_BUDGET }
    requires kept { IfSome kept (IsLowCertificate table.now aim.style aim.height aim.most aim.budget) }
    ensures slim { IfOk result (IsSlim table.now aim.style aim.height aim.most aim.budget) }
    ensures searched { IfOk result (AreSearched (λ width certificate.
        AreSectionsOf (λ problem outcome. M.besides maker.now problem aim.budget outcome) table.now aim.style width aim.budget
        certificate.sections) aim.most kept) }
    ensures order { IfOk result (λ slim. (own : ℕ) → IsLeastWidth table.now aim.style own → IsBisection (λ width certificate.
        AreSectionsOf (λ problem outcome. M.besides maker.now problem aim.budget outcome) table.now aim.style width aim.budget
        certificate.sections) table.now aim.style aim.height aim.most aim.budget kept own slim.least slim.width) }
{
    let mut slim = begin(run.alloc, table, aim.style, aim.most, kept, aim.budget)?;
    while let Some(width) = slim.next_trial(aim.most) {
        let trial = tried(run, table, aim.style, width, aim.budget, maker)?;
        slim.take(aim.height, width, trial);
    }
    Ok(slim)
}
