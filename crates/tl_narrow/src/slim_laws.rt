//! What a search for the narrowest page proves of it. Each law is the contract of a function that does
//! nothing.

ghost use Rattle.tl_narrow.specs.SlimLaws.{EnoughIsNotSpent, KeptHasSlimmest, MetIsSlimmest, SlimmestIsNoLess};

use tl_form::{
    all_counts_rise, bounded_is_between, least_heights_exist, lowest_is_least, narrow_is_too_wide,
};

/// Where the width that was found is the least that may be low enough, it is that of the narrowest page.
pub fn met_is_slimmest()
    ensures { MetIsSlimmest }
{
    lowest_is_least();
    bounded_is_between();
    narrow_is_too_wide();
    least_heights_exist();
}

/// The narrowest page is no narrower than the least width that may be low enough.
pub fn slimmest_is_no_less()
    ensures { SlimmestIsNoLess }
{
    lowest_is_least();
    bounded_is_between();
    narrow_is_too_wide();
}

/// Where a page was found that is low enough, there is a narrowest one, and it is no wider.
pub fn kept_has_slimmest()
    ensures { KeptHasSlimmest }
{
    lowest_is_least();
    bounded_is_between();
    least_heights_exist();
}

/// With a budget of at least the greatest count on the widest page, no search ends early.
pub fn enough_is_not_spent()
    ensures { EnoughIsNotSpent }
{
    all_counts_rise();
}
