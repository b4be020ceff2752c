//! A law of open sections: the contract of a function that does nothing.

ghost use Rattle.tl_form.specs.OpenLaws.{OpenSpends};

use crate::problem_laws::{layouts_are_by_low, layouts_by_high_fit, true_where_bounds_meet};

/// Where a good section is open, some section has made all cuts of the budget.
pub fn open_spends()
    ensures { OpenSpends }
{
    layouts_are_by_low();
    layouts_by_high_fit();
    true_where_bounds_meet();
}
