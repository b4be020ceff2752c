//! What a valid certificate proves, and laws of validity. Each is the contract of a function that does
//! nothing.

ghost use Rattle.tl_form.specs.ValidLaws.{BoundedIsBetween, LowestIsLeast, NamedLayoutFits, NarrowIsTooWide};
ghost use Rattle.tl_form.specs.ValidLaws.{RefusedForOneReason, SameTablesShareCertificates, ValidIsNotRefused};

use crate::problem_laws::{layouts_are_by_low, layouts_by_high_fit, problem_is_determined};
use tl_table::no_page_is_narrower_than_a_chain;

/// The height that a valid certificate claims to be the lowest is the least of all layouts on the page.
pub fn lowest_is_least()
    ensures { LowestIsLeast }
{
    layouts_are_by_low();
    layouts_by_high_fit();
}

/// Of the two heights that a valid certificate claims, a layout on the page has the first, and none is
/// below the second.
pub fn bounded_is_between()
    ensures { BoundedIsBetween }
{
    layouts_are_by_low();
    layouts_by_high_fit();
}

/// No layout fits a page that is narrower than the width that a valid certificate claims, as the page is.
pub fn narrow_is_too_wide()
    ensures { NarrowIsTooWide }
{
    no_page_is_narrower_than_a_chain();
}

/// A certificate is refused for one reason at most.
pub fn refused_for_one_reason()
    ensures { RefusedForOneReason }
{
    problem_is_determined();
}

/// A valid certificate is not refused.
pub fn valid_is_not_refused()
    ensures { ValidIsNotRefused }
{
    problem_is_determined();
}

/// The layout that a valid certificate names fits the page, with the height that it claims.
pub fn named_layout_fits()
    ensures { NamedLayoutFits }
{
    layouts_are_by_low();
    layouts_by_high_fit();
}

/// Two tables that are the same have the same valid certificates.
pub fn same_tables_share_certificates()
    ensures { SameTablesShareCertificates }
{}
