//! Laws of the problem of a table. Each is the contract of a function that does nothing.

ghost use Rattle.tl_form.specs.CountLaws.{AllCountsRise, CountsExist, CountsRise, LeastHeightsExist, LeastHeightsFall, TrueProblemsExist};
ghost use Rattle.tl_form.specs.ProblemLaws.{LayoutsAreByLow, LayoutsByHighFit, ProblemIsDetermined, TrueStepsLieBetween, TrueWhereBoundsMeet};
ghost use Rattle.tl_form.specs.SoundProblems.{PlacementsAreLow, SoundProblemsAlone};

/// A table has one problem with the same steps for its nested tables.
pub fn problem_is_determined()
    ensures { ProblemIsDetermined }
{}

/// Where `low` is below the layouts of nested tables, each layout of the table that fits the page is
/// one of the problem by `low`.
pub fn layouts_are_by_low()
    ensures { LayoutsAreByLow }
{}

/// Where `high` is above some layouts of nested tables, each layout of the problem by `high` is one of
/// the table that fits.
pub fn layouts_by_high_fit()
    ensures { LayoutsByHighFit }
{}

/// A cell's `low` is at most what it needs truly, and its `high` at least that.
pub fn true_steps_lie_between()
    ensures { TrueStepsLieBetween }
{}

/// Where `low` and `high` of nested tables meet, the problem is the true one, and its least height is
/// that of the table.
pub fn true_where_bounds_meet()
    ensures { TrueWhereBoundsMeet }
{}

/// The problem of a sound table that fits the page is sound, where the steps of its nested tables are
/// sound.
pub fn sound_problems_alone()
    ensures { SoundProblemsAlone }
{}

/// No placement of the problem of a sound table that fits the page needs more than two lines for all
/// that the table holds, where the steps of its nested tables are sound.
pub fn placements_are_low()
    ensures { PlacementsAreLow }
{}

/// On a wider page a table has at least as many ways to give each span a class.
pub fn counts_rise()
    ensures { CountsRise }
{}

/// A sound table that fits a page has a least height there.
pub fn least_heights_exist()
    ensures { LeastHeightsExist }
{}

/// A sound table that fits a page has a true problem there.
pub fn true_problems_exist()
    ensures { TrueProblemsExist }
{}

/// For a sound table that fits a page there is a greatest count of it and of all tables nested in it.
pub fn counts_exist()
    ensures { CountsExist }
{}

/// On a wider page the greatest count of a table and of all tables nested in it is at least as great. So
/// there is only one on each page.
pub fn all_counts_rise()
    ensures { AllCountsRise }
{
    counts_rise();
}

/// On a wider page the least height of a table is no greater.
pub fn least_heights_fall()
    ensures { LeastHeightsFall }
{}
