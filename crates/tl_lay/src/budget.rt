//! How many cuts each search may make, within the limit of all together.

ghost use Rattle.std.specs.Prelude.{◌≡◌, ◌<◌, ◌≤◌, ◌*◌, ◌+◌, IfOk, IfErr, IfSome};
ghost use Rattle.tl_base.specs.declared.limits.TheConstants.{MAX_BUDGET, MAX_PAGE_WIDTH, MAX_REACH, MAX_TABLES};
ghost use Rattle.tl_table.specs.Sound.{IsSound};
ghost use Rattle.tl_lay.specs.Budgets.{budget_in, budget_of, reach, searches};
ghost use Rattle.tl_lay.specs.inner.Steps.{IsTooFar};

use crate::limits::DEFAULT_BUDGET;
use crate::task::Task;
use tl_base::MAX_REACH;
use tl_read::{Limit, Refusal};
use tl_table::{Table, nested};

/// How many searches there may be: one of the table, and one of each nested table at each width.
fn searches(table: &Table, width: u32) -> u64
    requires sound { IsSound table.now }
    requires narrow { width ≤ MAX_PAGE_WIDTH }
    ensures count { result ≡ searches table.now width }
    ensures some { 0 < result }
    ensures few { result ≤ 1 + MAX_TABLES * MAX_PAGE_WIDTH }
{
    1 + u64::from(nested(table)) * u64::from(width)
}

/// The budget of each of so many searches.
fn budget_of(budget: Option<u32>, count: u64) -> u32
    requires { 0 < count }
    ensures budget { result ≡ budget_of budget count }
{
    match budget {
        Some(budget) => budget,
        None => (MAX_REACH / count).min(u64::from(DEFAULT_BUDGET)) as u32,
    }
}

/// How many cuts each search for the table may make. It is refused where all of them together may make
/// more than [`MAX_REACH`].
pub fn budget_within(task: &Task, table: &Table) -> Result<u32, Refusal>
    requires sound { IsSound table.now }
    requires narrow { task.now.width ≤ MAX_PAGE_WIDTH }
    requires cuts { IfSome task.now.budget (λ budget. budget ≤ MAX_BUDGET) }
    ensures budget { IfOk result (λ budget. budget ≡ budget_in task.now table.now) }
    ensures small { IfOk result (λ budget. budget ≤ MAX_BUDGET) }
    ensures within { IfOk result (λ _. reach task.now table.now ≤ MAX_REACH) }
    ensures far { IfErr result (IsTooFar task.now table.now) }
{
    let count = searches(table, task.width);
    let budget = budget_of(task.budget, count);
    let reach = count * u64::from(budget);
    if reach > MAX_REACH {
        return Err(Refusal::Limit(Limit::Reach, reach));
    }
    Ok(budget)
}
