//! What the answers of the calls say, by what the calls come to. Each law is the contract of a function that does
//! nothing.

ghost use Rattle.tl_lay.specs.Laws.{LaidIsLowest, NarrowedIsNarrowest, TidiedIsTidiest};

use tl_form::{all_counts_rise, budget_closes, counts_exist, counts_rise};
use tl_narrow::{kept_has_slimmest, met_is_slimmest, slimmest_is_no_less};

/// What `lay` comes to says that no page is lower.
pub fn laid_is_lowest()
    ensures { LaidIsLowest }
{}

/// What `narrow` comes to says that no page is narrower.
pub fn narrowed_is_narrowest()
    ensures { NarrowedIsNarrowest }
{
    met_is_slimmest();
    slimmest_is_no_less();
    kept_has_slimmest();
}

/// What `tidy` comes to says that no page is lower, and none as low is narrower.
pub fn tidied_is_tidiest()
    ensures { TidiedIsTidiest }
{
    met_is_slimmest();
    slimmest_is_no_less();
    kept_has_slimmest();
    budget_closes();
    counts_exist();
    counts_rise();
    all_counts_rise();
}
