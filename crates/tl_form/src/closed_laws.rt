//! Laws of closed sections. Each is the contract of a function that does nothing.

ghost use Rattle.tl_form.specs.ClosedLaws.{BudgetCloses, ClosedTellLeast};

use crate::problem_laws::{
    counts_rise, layouts_are_by_low, layouts_by_high_fit, true_where_bounds_meet,
};

/// Good sections of a nested table, all closed, tell its least height at each width of the page.
pub fn closed_tell_least()
    ensures { ClosedTellLeast }
{
    layouts_are_by_low();
    layouts_by_high_fit();
}

/// Good sections are closed where the budget is at least the greatest count of the document's tables.
pub fn budget_closes()
    ensures { BudgetCloses }
{
    layouts_are_by_low();
    layouts_by_high_fit();
    true_where_bounds_meet();
    counts_rise();
}
