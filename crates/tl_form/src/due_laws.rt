//! A law of the section that is due next. It is the contract of a function that does nothing.

ghost use Rattle.tl_form.specs.DueProblems.{SectionsGiveSoundProblems};

use crate::problem_laws::{
    layouts_are_by_low, layouts_by_high_fit, placements_are_low, problem_is_determined,
    sound_problems_alone,
};

/// Good sections of a document, on a page that some layout of its table fits, give the next section that
/// is due a problem, and sound problems alone.
pub fn sections_give_sound_problems()
    ensures { SectionsGiveSoundProblems }
{
    layouts_are_by_low();
    layouts_by_high_fit();
    problem_is_determined();
    sound_problems_alone();
    placements_are_low();
}
