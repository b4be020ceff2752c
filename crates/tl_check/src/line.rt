//! One line of a log: its bounds are given, its fires are fired, and its end is looked at.

ghost use Rattle.std.specs.Prelude.{◌≡◌, ◌<◌, ◌≤◌, length, IsTrue, IsSomeAnd, ◌↔◌, true, false};
ghost use Rattle.std.specs.List.{All};
ghost use Rattle.tl_problem.specs.Works.{HasPage, AreAllowed, IsWorkOf};
ghost use Rattle.tl_cert.specs.Lines.{LineEndsBy, IsGoodLine, fired, nogood_at};
ghost use Rattle.tl_cert.specs.Nogoods.{NamesAreThere};
ghost use Rattle.tl_cert.specs.Traces.{IsTraceOf};
ghost use Rattle.tl_cert.specs.declared.log.End.TheVariants.{Fired};
ghost use Rattle.tl_check.specs.inner.Firing.{LeadsToEnd};
ghost use Rattle.tl_check.specs.Matrices.{IsMatrixOf, KeepsMarks};

use crate::firing::fire_all;
use crate::left::{is_nothing, left_of};
use crate::nogoods::{keep_nogood, names_are_there};
use tl_cert::{CutAt, End, LogLine};
use tl_problem::{Problem, Work};

/// Whether the line would be good after the first `k` lines of the log.
pub fn is_good_line(
    problem: &Problem,
    trace: &[CutAt],
    log: &[LogLine],
    k: usize,
    line: &LogLine,
    lower: u32,
    work: &mut Work,
) -> bool
    requires trace { IsTraceOf problem.now trace.now }
    requires number { k ≤ length log.now }
    requires page { HasPage problem.now work.old }
    requires mark { length work.old.matrix.held < work.old.matrix.marks }
    ensures good { IsTrue result ↔ IsGoodLine problem.now trace.now log.now lower k line.now }
    ensures page { HasPage problem.now work.new }
    ensures matrix { work.new.matrix ≡ work.old.matrix }
{
    if !names_are_there(problem, trace, &line.nogood) {
        return false;
    }
    if !are_earlier(problem, trace, log, k, line) {
        return false;
    }
    work.matrix.mark();
    let good = leads_to_end(problem, trace, log, line, lower, work);
    work.matrix.undo();
    good
}

/// Whether each line that is fired is one of the first `k`, and what its nogood names is there.
fn are_earlier(
    problem: &Problem,
    trace: &[CutAt],
    log: &[LogLine],
    k: usize,
    line: &LogLine,
) -> bool
    requires number { k ≤ length log.now }
    ensures { IsTrue result ↔ All (λ f. (f < k) × NamesAreThere problem.now trace.now (nogood_at log.now f)) line.now.fires }
{
    let fires = line.fires.as_slice();
    'fires: for fire in fires {
        let number = *fire as usize;
        if number >= k || !names_are_there(problem, trace, &log[number].nogood) {
            return false;
        }
    }
    true
}

/// Whether the line's bounds and fires lead to its end.
fn leads_to_end(
    problem: &Problem,
    trace: &[CutAt],
    log: &[LogLine],
    line: &LogLine,
    lower: u32,
    work: &mut Work,
) -> bool
    requires trace { IsTraceOf problem.now trace.now }
    requires names { NamesAreThere problem.now trace.now line.now.nogood }
    requires lines { All (λ f. (f < length log.now) × NamesAreThere problem.now trace.now (nogood_at log.now f)) line.now.fires }
    requires page { HasPage problem.now work.old }
    ensures good { IsTrue result ↔ LeadsToEnd problem.now trace.now log.now line.now lower }
    ensures work_of { IsWorkOf problem.now work.new }
    ensures marks { KeepsMarks work.old.matrix work.new.matrix }
{
    keep_nogood(problem, trace, &line.nogood, &mut work.matrix);
    fire_all(problem, trace, log, line, &mut work.matrix)
        && ends(problem, trace, log, line, lower, work)
}

/// Whether the line's end is that of what the work leaves.
fn ends(
    problem: &Problem,
    trace: &[CutAt],
    log: &[LogLine],
    line: &LogLine,
    lower: u32,
    work: &mut Work,
) -> bool
    requires trace { IsTraceOf problem.now trace.now }
    requires lines { All (λ f. (f < length log.now) × NamesAreThere problem.now trace.now (nogood_at log.now f)) line.now.fires }
    requires work_of { IsWorkOf problem.now work.old }
    ensures ends { IsTrue result ↔ LineEndsBy problem.now (AreAllowed problem.now work.old.matrix.bounds)
        (fired problem.now trace.now log.now line.now) lower line.now.end }
    ensures work_of { IsWorkOf problem.now work.new }
    ensures matrix { work.new.matrix ≡ work.old.matrix }
{
    match line.end {
        End::Cycle => !work.matrix.holds(),
        End::Chain => is_at_least(problem.held_bound(work), lower),
        End::Area => is_at_least(problem.held_area(work), lower),
        End::Fired => last_is_implied(problem, trace, log, line, work),
    }
}

/// Whether there is a bound and it is at least `lower`.
fn is_at_least(bound: Option<u32>, lower: u32) -> bool
    ensures { IsTrue result ↔ IsSomeAnd bound (λ bound. lower ≤ bound) }
{
    match bound {
        Some(bound) => bound >= lower,
        None => false,
    }
}

/// Whether a line is fired, and all bounds of the last one are implied.
fn last_is_implied(
    problem: &Problem,
    trace: &[CutAt],
    log: &[LogLine],
    line: &LogLine,
    work: &Work,
) -> bool
    requires trace { IsTraceOf problem.now trace.now }
    requires lines { All (λ f. (f < length log.now) × NamesAreThere problem.now trace.now (nogood_at log.now f)) line.now.fires }
    requires keeps { IsMatrixOf problem.now work.now.matrix.bounds }
    ensures { IsTrue result ↔ LineEndsBy problem.now (AreAllowed problem.now work.now.matrix.bounds)
        (fired problem.now trace.now log.now line.now) 0 Fired }
{
    let fires = line.fires.as_slice();
    let count = fires.len();
    if count == 0 {
        return false;
    }
    let number = fires[count - 1] as usize;
    let last = &log[number];
    is_nothing(left_of(problem, trace, &last.nogood, &work.matrix))
}
