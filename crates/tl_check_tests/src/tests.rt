//! Logs, traces and sections of four small tables, worked by hand.

ghost use Rattle.std.specs.Prelude.{length, IfOk};
ghost use Rattle.tl_cert.specs.Traces.{IsTraceOf};
ghost use Rattle.tl_check.specs.Checkers.{IsReserved};

use std::alloc::Global;
use std::test::Fail;
use tl_base::{Config, List, MAX_BUDGET, Steps, Style};
use tl_cert::{Bound, CutAt, End, Log, LogLine, Nogood, Section, Side, Trace};
use tl_check::Checker;
use tl_problem::{Cell, Problem};

/// `aaa bbb` beside `cc dd ee`.
const TWO_COLUMNS: &str = "0-1 0-1 = 3:2 7:1; 1-2 0-1 = 2:3 5:2 8:1";

/// `a a`, `b b` and `c`, `c` above `p`, `q`, `cccc cccc` and `dddd dddd`.
const FOUR_COLUMNS: &str = "0-1 0-1 = 1:2 3:1; 1-2 0-1 = 1:2 3:1; 2-3 0-1 = 1:2; \
    0-1 1-2 = 1:1; 1-2 1-2 = 1:1; 2-3 1-2 = 4:2 9:1; 3-4 1-2 = 4:2 9:1";

/// `a a` beside `b b`.
const NARROW_COLUMNS: &str = "0-1 0-1 = 1:2 3:1; 1-2 0-1 = 1:2 3:1";

/// Two numbers with a character between them.
fn pair(text: &str, between: char) -> Result<(u32, u32), Fail> {
    let (first, second) = text.split_once(between).ok_or("no pair")?;
    let first = first.parse::<u32>().ok().ok_or("no number")?;
    let second = second.parse::<u32>().ok().ok_or("no number")?;
    Ok((first, second))
}

/// The step function with these widths and heights.
fn steps(alloc: Global, text: &str) -> Result<Steps, Fail> {
    let mut list = List::new(alloc);
    for step in text.split(' ') {
        let (width, height) = pair(step, ':')?;
        list.push(Config { width, height })?;
    }
    Ok(Steps::new(list).ok_or("no steps")?)
}

/// The cell that is written as its columns, its rows and its steps: `0-2 0-1 = 4:3 7:2` covers two columns
/// of the first row, and needs three lines from 4 columns on, two from 7. Where `high` differs from `low`,
/// its steps follow ` / `.
fn cell(alloc: Global, text: &str) -> Result<Cell, Fail> {
    let (place, both) = text.split_once(" = ").ok_or("no steps")?;
    let (columns, rows) = place.split_once(' ').ok_or("no rows")?;
    let (low, high) = both.split_once(" / ").unwrap_or((both, both));
    let (left, right) = pair(columns, '-')?;
    let (top, bottom) = pair(rows, '-')?;
    let low = steps(alloc, low)?;
    let high = steps(alloc, high)?;
    Ok(Cell {
        left,
        right,
        top,
        bottom,
        low,
        high,
    })
}

/// The problem in plain style of the cells that are written with `; ` between two.
fn problem(alloc: Global, cols: u32, rows: u32, width: u32, text: &str) -> Result<Problem, Fail> {
    let mut cells = List::new(alloc);
    for text in text.split("; ") {
        cells.push(cell(alloc, text)?)?;
    }
    if !Problem::is_sound(cols, rows, Style::Plain.spacing(0), width, cells.as_slice()) {
        return Err("the cells make no sound problem".into());
    }
    Ok(Problem::new(alloc, cols, rows, Style::Plain.spacing(0), width, cells)?)
}

/// On 12 columns there are two lines at 3 and 5 columns, and never one.
fn two_columns(alloc: Global) -> Result<Problem, Fail> {
    problem(alloc, 2, 1, 12, TWO_COLUMNS)
}

fn four_columns(alloc: Global) -> Result<Problem, Fail> {
    problem(alloc, 4, 2, 25, FOUR_COLUMNS)
}

/// The trace with these cuts of a zone at a span after a class.
fn trace(alloc: Global, cuts: &[(u32, u32, u32)]) -> Result<Trace, Fail> {
    let mut trace = List::new(alloc);
    for &(zone, span, class) in cuts {
        trace.push(CutAt { zone, span, class })?;
    }
    Ok(trace)
}

/// The line with the bounds of a zone.
fn zone_line(alloc: Global, zone: u32, fires: &[u32], end: End) -> Result<LogLine, Fail> {
    Ok(LogLine {
        nogood: Nogood::Zone(zone),
        fires: List::from_slice(alloc, fires)?,
        end,
    })
}

/// The line with one bound that ends by its chain.
fn bound_line(alloc: Global, span: u32, side: Side, width: u32) -> Result<LogLine, Fail> {
    Ok(LogLine {
        nogood: Nogood::Bounds(List::from_slice(alloc, &[Bound { span, side, width }])?),
        fires: List::new(alloc),
        end: End::Chain,
    })
}

/// The log with one line of the whole.
fn one_line(alloc: Global, fires: &[u32], end: End) -> Result<Log, Fail> {
    let mut log = List::new(alloc);
    log.push(zone_line(alloc, 0, fires, end)?)?;
    Ok(log)
}

/// Whether the cuts are a trace.
fn is_trace(alloc: Global, problem: &Problem, trace: &Trace) -> Result<bool, Fail> {
    if trace.len() > MAX_BUDGET as usize {
        return Err("too many cuts".into());
    }
    let mut checker = Checker::reserve(alloc, problem, trace.len() as u32)?;
    Ok(checker.trace(problem, trace))
}

/// A checker that is reserved for the problem and the trace, which is one of at most ten cuts.
fn checker_of(alloc: Global, problem: &Problem, trace: &Trace) -> Result<Checker, Fail>
    ensures reserved { IfOk result (IsReserved problem.now (length trace.now)) }
    ensures trace { IfOk result (λ checker. IsTraceOf problem.now trace.now) }
{
    if trace.len() > 10 {
        return Err("too many cuts".into());
    }
    let mut checker = Checker::reserve(alloc, problem, trace.len() as u32)?;
    if !checker.trace(problem, trace) {
        return Err("no trace".into());
    }
    Ok(checker)
}

/// What is found of the log.
fn verdict(
    alloc: Global,
    problem: &Problem,
    trace: &Trace,
    log: &Log,
    lower: u32,
) -> Result<Result<(), u32>, Fail> {
    if log.len() > 10 {
        return Err("too many lines".into());
    }
    let mut checker = checker_of(alloc, problem, trace)?;
    Ok(checker.log(problem, trace, log, lower))
}

/// Whether the first line of the log is good.
fn first_is_good(
    alloc: Global,
    problem: &Problem,
    trace: &Trace,
    log: &Log,
    lower: u32,
) -> Result<bool, Fail> {
    if log.is_empty() {
        return Err("no line".into());
    }
    let mut checker = checker_of(alloc, problem, trace)?;
    Ok(checker.line(problem, trace, log, 0, lower))
}

/// Whether the line would be good at the end of the log.
fn tries(
    alloc: Global,
    problem: &Problem,
    trace: &Trace,
    log: &Log,
    line: &LogLine,
) -> Result<bool, Fail> {
    let mut checker = checker_of(alloc, problem, trace)?;
    Ok(checker.tries(problem, trace, log, line, 4))
}

/// Whether the section was worked for the budget.
fn is_worked(
    alloc: Global,
    problem: &Problem,
    section: &Section,
    budget: u32,
) -> Result<bool, Fail> {
    if section.trace.len() > 10 {
        return Err("too many cuts".into());
    }
    let mut checker = Checker::reserve(alloc, problem, section.trace.len() as u32)?;
    Ok(checker.worked(problem, section, budget))
}

#[test]
fn the_whole_ends_by_its_chain(rt: HostRuntime) -> Result<(), Fail> {
    let problem = two_columns(rt.alloc())?;
    let none = List::new(rt.alloc());
    for (fires, end, lower, want) in [
        ([].as_slice(), End::Chain, 2, Ok(())),
        // At the greatest rooms, 8 and 7, the cells need one line and two. At the least they need
        // two and three, which is no bound.
        ([].as_slice(), End::Chain, 3, Err(0)),
        ([].as_slice(), End::Area, 2, Ok(())),
        ([].as_slice(), End::Area, 3, Err(0)),
        ([].as_slice(), End::Cycle, 2, Err(0)),
        ([].as_slice(), End::Fired, 2, Err(0)),
        // A line fires no line that is not before it.
        ([0].as_slice(), End::Fired, 2, Err(0)),
        ([1].as_slice(), End::Fired, 2, Err(0)),
    ] {
        let log = one_line(rt.alloc(), fires, end)?;
        let found = verdict(rt.alloc(), &problem, &none, &log, lower)?;
        let first = first_is_good(rt.alloc(), &problem, &none, &log, lower)?;
        assert_eq!(rt; (found, first), (want, want.is_ok()), "{lower}");
    }
    Ok(())
}

#[test]
fn an_area_ends_what_no_chain_does(rt: HostRuntime) -> Result<(), Fail> {
    // By their areas the cells need two lines on 7 columns.
    let problem = problem(rt.alloc(), 2, 1, 7, NARROW_COLUMNS)?;
    let none = List::new(rt.alloc());
    for (end, lower, want) in [
        (End::Area, 2, Ok(())),
        (End::Area, 3, Err(0)),
        (End::Chain, 2, Err(0)),
        (End::Chain, 1, Ok(())),
    ] {
        let log = one_line(rt.alloc(), &[], end)?;
        assert_eq!(rt;
            verdict(rt.alloc(), &problem, &none, &log, lower)?,
            want,
            "{lower}"
        );
    }
    Ok(())
}

// Each cut is of a zone that stands, and leaves both parts some classes.
#[test]
fn a_cut_separates_the_classes_of_a_standing_zone(rt: HostRuntime) -> Result<(), Fail> {
    let problem = two_columns(rt.alloc())?;
    for (cuts, want) in [
        ([].as_slice(), true),
        ([(0, 0, 0)].as_slice(), true),
        ([(0, 0, 1)].as_slice(), false),
        ([(0, 2, 0)].as_slice(), false),
        ([(1, 0, 0)].as_slice(), false),
        ([(0, 0, 0), (0, 1, 0)].as_slice(), false),
        ([(0, 0, 0), (1, 0, 0)].as_slice(), false),
        ([(0, 1, 0), (2, 1, 1), (3, 0, 0)].as_slice(), true),
        ([(0, 1, 0), (2, 1, 0)].as_slice(), false),
        ([(0, 1, 1), (1, 1, 0), (1, 0, 0)].as_slice(), false),
        ([(0, 1, 1), (1, 1, 0), (2, 0, 0)].as_slice(), true),
    ] {
        let trace = trace(rt.alloc(), cuts)?;
        assert_eq!(rt;
            is_trace(rt.alloc(), &problem, &trace)?,
            want,
            "{}",
            cuts.len()
        );
    }
    Ok(())
}

// There is room for as many cuts as a budget allows. After the first of these the whole stands no more.
#[test]
fn the_most_cuts_of_one_zone_are_no_trace(rt: HostRuntime) -> Result<(), Fail> {
    let problem = two_columns(rt.alloc())?;
    let mut cuts = List::new(rt.alloc());
    for _ in 0..MAX_BUDGET {
        cuts.push(CutAt {
            zone: 0,
            span: 0,
            class: 0,
        })?;
    }
    assert!(rt; !is_trace(rt.alloc(), &problem, &cuts)?);
    Ok(())
}

/// The first two lines of the log of four columns, or so many of them: both are on the third column.
fn lines_of_third(alloc: Global, count: usize) -> Result<Log, Fail> {
    let mut log = List::new(alloc);
    for (side, width) in [(Side::Most, 8), (Side::Least, 9)] {
        if log.len() < count {
            log.push(bound_line(alloc, 2, side, width)?)?;
        }
    }
    Ok(log)
}

/// The log of four columns: two lines on the third one, and a last line that fires these.
fn four_columns_log(alloc: Global, last: &[u32]) -> Result<Log, Fail> {
    let mut log = lines_of_third(alloc, 2)?;
    log.push(zone_line(alloc, 0, last, End::Fired)?)?;
    Ok(log)
}

#[test]
fn a_line_fires_lines_before_it(rt: HostRuntime) -> Result<(), Fail> {
    let problem = four_columns(rt.alloc())?;
    let cuts = trace(rt.alloc(), &[(0, 0, 0), (1, 1, 0), (3, 2, 0)])?;
    for (fires, lower, want) in [
        ([0, 1].as_slice(), 4, Ok(())),
        ([1, 0].as_slice(), 4, Ok(())),
        ([0, 2].as_slice(), 4, Err(2)),
        ([0].as_slice(), 4, Err(2)),
        ([0, 1].as_slice(), 5, Err(0)),
    ] {
        let log = four_columns_log(rt.alloc(), fires)?;
        assert_eq!(rt;
            verdict(rt.alloc(), &problem, &cuts, &log, lower)?,
            want,
            "{lower}"
        );
    }
    Ok(())
}

// All its lines are good, but the last one has a bound, so that the number of lines is given.
#[test]
fn a_log_ends_with_a_nogood_without_bounds(rt: HostRuntime) -> Result<(), Fail> {
    let problem = four_columns(rt.alloc())?;
    let none = List::new(rt.alloc());
    for (count, lower, want) in [(0, 0, Err(0)), (1, 4, Err(1)), (2, 4, Err(2))] {
        let log = lines_of_third(rt.alloc(), count)?;
        assert_eq!(rt; verdict(rt.alloc(), &problem, &none, &log, lower)?, want);
    }
    let log = four_columns_log(rt.alloc(), &[0, 1])?;
    assert_eq!(rt; verdict(rt.alloc(), &problem, &none, &log, 4)?, Ok(()));
    Ok(())
}

#[test]
fn a_line_is_tried_at_the_end_of_a_log(rt: HostRuntime) -> Result<(), Fail> {
    let problem = four_columns(rt.alloc())?;
    let none = List::new(rt.alloc());
    let log = lines_of_third(rt.alloc(), 2)?;
    for (zone, fired, want) in [(0, 1, true), (0, 2, false), (1, 1, false)] {
        let line = zone_line(rt.alloc(), zone, &[0, fired], End::Fired)?;
        let found = tries(rt.alloc(), &problem, &none, &log, &line)?;
        assert_eq!(rt; found, want, "{zone} {fired}");
    }
    Ok(())
}

/// A section of the first table with this height and lower bound, and these cuts.
fn section(
    alloc: Global,
    height: u32,
    lower: u32,
    cuts: &[(u32, u32, u32)],
) -> Result<Section, Fail> {
    Ok(Section {
        table: 0,
        width: 12,
        height,
        lower,
        widths: List::new(alloc),
        trace: trace(alloc, cuts)?,
        log: List::new(alloc),
    })
}

// The opening of the two columns has 3 lines, and the whole has a bound of 2.
#[test]
fn a_search_ends_at_its_budget_or_with_each_zone_closed(rt: HostRuntime) -> Result<(), Fail> {
    let problem = two_columns(rt.alloc())?;
    for (height, lower, cuts, budget, want) in [
        (2, 2, [].as_slice(), 6, true),
        (2, 3, [].as_slice(), 6, false),
        (3, 2, [].as_slice(), 0, true),
        (3, 2, [].as_slice(), 6, false),
        (2, 1, [].as_slice(), 6, false),
        (3, 1, [].as_slice(), 0, false),
        (2, 2, [(0, 0, 1)].as_slice(), 6, false),
        (2, 2, [(0, 0, 0)].as_slice(), 0, false),
        (3, 2, [(0, 0, 0)].as_slice(), 1, true),
        (3, 2, [(0, 0, 0)].as_slice(), 2, false),
        // Where the second column has 2 to 4 columns its cell needs 3 lines.
        (3, 2, [(0, 1, 0)].as_slice(), 1, true),
        (3, 3, [(0, 1, 0), (1, 0, 0)].as_slice(), 2, true),
        (4, 3, [(0, 1, 0), (1, 0, 0)].as_slice(), 2, false),
    ] {
        let section = section(rt.alloc(), height, lower, cuts)?;
        let worked = is_worked(rt.alloc(), &problem, &section, budget)?;
        assert_eq!(rt; worked, want, "{height} {lower} {budget}");
    }
    Ok(())
}

// One class is closed only where what the cell needs and what is enough for it differ.
#[test]
fn one_class_is_closed_where_low_and_high_differ(rt: HostRuntime) -> Result<(), Fail> {
    for (cell, height, lower, want) in [
        ("0-1 0-1 = 1:1 / 1:2", 2, 1, true),
        ("0-1 0-1 = 1:1 / 1:2", 3, 1, true),
        ("0-1 0-1 = 1:2", 3, 2, false),
        ("0-1 0-1 = 1:1", 2, 1, false),
    ] {
        let problem = problem(rt.alloc(), 1, 1, 1, cell)?;
        let section = section(rt.alloc(), height, lower, &[])?;
        let worked = is_worked(rt.alloc(), &problem, &section, 5)?;
        assert_eq!(rt; worked, want, "{cell}");
    }
    Ok(())
}

/// Takes what may be sent to other threads and shared between them.
fn share<T: Send + Sync + Drop>(_value: Option<T>) {}

#[test]
fn a_checker_may_go_to_other_threads() {
    share::<Checker>(None);
}
