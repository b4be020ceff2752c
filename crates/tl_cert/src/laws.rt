//! Laws of the definitions in this crate's specs. Each is the contract of a function that does nothing.
ghost use Rattle.tl_cert.specs.Laws.{EnoughBudgetCloses, GoodLogsAreSound, NogoodsAreTrue};
ghost use Rattle.tl_cert.specs.Laws.{PiecesCanBeAppended, TracesPartVectors, ZonesMeetTheirBounds};

/// No layout by `low` is lower than what a log is good for.
pub fn good_logs_are_sound()
    ensures { GoodLogsAreSound }
{}

/// Each nogood of a good log is true: no layout by `low` meets its bounds that is lower than what the
/// log is good for.
pub fn nogoods_are_true()
    ensures { NogoodsAreTrue }
{}

/// A trace with so many cuts has one standing zone more. The standing zones partition the class vectors
/// of the problem, each having one, so that there are fewer cuts than the problem counts.
pub fn traces_part_vectors()
    ensures { TracesPartVectors }
{}

/// Where `low` is `high` for every cell and the budget is at least the count, the lower bound of a
/// worked trace is its height.
pub fn enough_budget_closes()
    ensures { EnoughBudgetCloses }
{}

/// The widths of a zone are those within the page that meet the bounds that its cuts made.
pub fn zones_meet_their_bounds()
    ensures { ZonesMeetTheirBounds }
{}

/// The cuts of a piece, which begins with a zone that stands, can stand after those of the trace: both are
/// a trace again, with the zones of both.
pub fn pieces_can_be_appended()
    ensures { PiecesCanBeAppended }
{}
