//! Problems that are counted by hand, problems that are drawn from a number, and what is asked of searches of them.

ghost use Rattle.std.specs.Prelude.{◌+◌, ◌<◌, ◌≤◌, ◌^◌, IfOk};
ghost use Rattle.tl_problem.specs.Zones.{IsZone};

use std::alloc::Global;
use std::test::Fail;
use tl_base::{Config, List, MAX_BUDGET, NoGate, Steps, Style};
use tl_cert::{Bound, CutAt, End, Log, Nogood, Side};
use tl_check::Checker;
use tl_problem::{Cell, Problem, Zone};
use tl_solve::{Outcome, Watch};

/// A search that nobody sees.
pub(crate) const UNWATCHED: Watch<'static, NoGate> = Watch {
    watcher: &NoGate,
    table: 0,
};

/// Takes what may be sent to other threads and shared between them.
pub(crate) fn share<T: Send + Sync + Drop>(_value: T) {}

pub(crate) fn config(width: u32, height: u32) -> Config {
    Config { width, height }
}

fn steps(alloc: Global, configs: &[Config]) -> Result<Steps, Fail> {
    let list = List::from_slice(alloc, configs)?;
    let Some(steps) = Steps::new(list) else {
        return Err("the configurations are no steps".into());
    };
    Ok(steps)
}

/// A cell of one row and one column or more.
pub(crate) fn cell(
    alloc: Global,
    columns: (u32, u32),
    row: u32,
    low: &[Config],
    high: &[Config],
) -> Result<Cell, Fail>
    requires { row < 1000 }
{
    Ok(Cell {
        left: columns.0,
        right: columns.1,
        top: row,
        bottom: row + 1,
        low: steps(alloc, low)?,
        high: steps(alloc, high)?,
    })
}

/// Puts a cell of one row after the others, which has the same steps by `low` and by `high`.
pub(crate) fn add(
    alloc: Global,
    cells: &mut List<Cell>,
    columns: (u32, u32),
    row: u32,
    configs: &[Config],
) -> Result<(), Fail>
    requires { row < 1000 }
{
    cells.push(cell(alloc, columns, row, configs, configs)?)?;
    Ok(())
}

/// The problem in style plain, where it is sound.
pub(crate) fn problem(
    alloc: Global,
    cols: u32,
    rows: u32,
    width: u32,
    cells: List<Cell>,
) -> Result<Problem, Fail> {
    let spacing = Style::Plain.spacing(Style::Plain.edges());
    if !Problem::is_sound(cols, rows, spacing, width, cells.as_slice()) {
        return Err("the cells are no sound problem".into());
    }
    Ok(Problem::new(alloc, cols, rows, spacing, width, cells)?)
}

/// Four columns on a page of 25: `a a`, `b b` and a `c` of two lines in the upper row; `p`, `q`,
/// `cccc cccc` and `dddd dddd` in the lower.
pub(crate) fn two_rows(alloc: Global) -> Result<Problem, Fail> {
    let short = [config(1, 2), config(3, 1)];
    let long = [config(4, 2), config(9, 1)];
    let high = [config(1, 2)];
    let low = [config(1, 1)];
    let mut cells = List::new(alloc);
    add(alloc, &mut cells, (0, 1), 0, &short)?;
    add(alloc, &mut cells, (1, 2), 0, &short)?;
    add(alloc, &mut cells, (2, 3), 0, &high)?;
    add(alloc, &mut cells, (0, 1), 1, &low)?;
    add(alloc, &mut cells, (1, 2), 1, &low)?;
    add(alloc, &mut cells, (2, 3), 1, &long)?;
    add(alloc, &mut cells, (3, 4), 1, &long)?;
    problem(alloc, 4, 2, 25, cells)
}

/// `aaa bbb` beside `cc dd ee` on a page of this width.
pub(crate) fn two_cells(alloc: Global, width: u32) -> Result<Problem, Fail> {
    let left = [config(3, 2), config(7, 1)];
    let right = [config(2, 3), config(5, 2), config(8, 1)];
    let mut cells = List::new(alloc);
    add(alloc, &mut cells, (0, 1), 0, &left)?;
    add(alloc, &mut cells, (1, 2), 0, &right)?;
    problem(alloc, 2, 1, width, cells)
}

/// So many columns and rows, with a cell where both numbers are the same: one line in 3 columns, two in one.
pub(crate) fn diagonal(alloc: Global, count: u32, width: u32) -> Result<Problem, Fail>
    requires { count < 100 }
{
    let pair = [config(1, 2), config(3, 1)];
    let mut cells = List::new(alloc);
    for number in 0..count {
        add(alloc, &mut cells, (number, number + 1), number, &pair)?;
    }
    problem(alloc, count, count, width, cells)
}

/// The whole.
pub(crate) fn whole_of(problem: &Problem) -> Result<Zone, Fail>
    ensures { IfOk result (IsZone problem.now) }
{
    let whole = problem.whole()?;
    Ok(whole)
}

/// The cut of a zone at a span, after this class.
pub(crate) fn cut_at(zone: u32, span: u32, class: u32) -> CutAt {
    CutAt { zone, span, class }
}

pub(crate) fn at_most(span: u32, width: u32) -> Bound {
    Bound {
        span,
        side: Side::Most,
        width,
    }
}

pub(crate) fn at_least(span: u32, width: u32) -> Bound {
    Bound {
        span,
        side: Side::Least,
        width,
    }
}

/// Whether the nogood has these bounds written out, or is zone 0 where there are none.
pub(crate) fn has_bounds(nogood: &Nogood, bounds: &[Bound]) -> bool {
    match nogood {
        Nogood::Zone(number) => *number == 0 && bounds.is_empty(),
        Nogood::Bounds(written) => written.as_slice() == bounds,
    }
}

/// Whether the line with this number is of the zone, fires these lines and ends so.
pub(crate) fn is_line(log: &Log, number: usize, zone: u32, fires: &[u32], end: End) -> bool {
    match log.as_slice().get(number) {
        Some(line) => is_of(&line.nogood, zone)
            && line.fires.as_slice() == fires
            && line.end == end,
        None => false,
    }
}

/// Whether the nogood is the zone with this number.
fn is_of(nogood: &Nogood, zone: u32) -> bool {
    match nogood {
        Nogood::Zone(number) => *number == zone,
        Nogood::Bounds(_) => false,
    }
}

/// The height of the best placement, the lower bound and the number of cuts.
pub(crate) fn numbers(outcome: &Outcome) -> (u32, u32, usize) {
    (outcome.best.height, outcome.lower, outcome.trace.len())
}

/// The numbers of an outcome, the widths of its best placement, and how many lines its log has.
pub(crate) fn found(outcome: &Outcome) -> ((u32, u32, usize), &[u32], usize) {
    let widths = outcome.best.widths.as_slice();
    (numbers(outcome), widths, outcome.log.len())
}

/// Whether the checker finds the log good for the lower bound.
pub(crate) fn is_accepted(
    alloc: Global,
    problem: &Problem,
    outcome: &Outcome,
) -> Result<bool, Fail> {
    let cuts = outcome.trace.len();
    if cuts > MAX_BUDGET as usize || outcome.log.len() > 2 * cuts + 1 {
        return Ok(false);
    }
    let mut checker = Checker::reserve(alloc, problem, cuts as u32)?;
    if !checker.trace(problem, &outcome.trace) {
        return Ok(false);
    }
    let found = checker.log(problem, &outcome.trace, &outcome.log, outcome.lower);
    Ok(found.is_ok())
}

/// Numbers that are drawn by `s * 1103515245 + 12345` modulo 2^31.
#[derive(Drop)]
struct Draws {
    state: u64,
    ghost small: { state < 2 ^ 31 },
}

impl Draws {
    /// The next number below `k`.
    fn draw(&mut self, k: u64) -> u32
        requires some { 0 < k }
        requires few { k < 10 }
        ensures { result < k }
    {
        self.state = (self.state * 1_103_515_245 + 12_345) % 2_147_483_648;
        (self.state / 65_536 % k) as u32
    }
}

#[test]
fn numbers_are_drawn_one_from_the_other(rt: HostRuntime) {
    let wanted: [u64; 10] = [
        12345, 1406932606, 654583775, 1449466924, 229283573, 1109335178, 1051550459, 1293799192,
        794471793, 551188310,
    ];
    let mut draws = Draws { state: 0 };
    for state in wanted {
        let drawn = draws.draw(7);
        assert_eq!(rt;
            (draws.state, u64::from(drawn)),
            (state, state / 65_536 % 7)
        );
    }
}

/// The lines of words of these widths in so many columns; `None` where one is wider.
fn lines_in(words: &[u32], width: u32) -> Option<u32> {
    let mut lines = 1u32;
    let mut used = 0u32;
    for &word in words {
        if word > width {
            return None;
        }
        let joined = if used == 0 {
            word
        } else {
            used.saturating_add(1).saturating_add(word)
        };
        if joined > width {
            lines = lines.saturating_add(1);
            used = word;
        } else {
            used = joined;
        }
    }
    Some(lines)
}

/// The steps of words of these widths, at most 59 columns in all.
fn text_steps(alloc: Global, words: &[u32]) -> Result<Steps, Fail> {
    let mut configs = List::new(alloc);
    let mut last = u32::MAX;
    for width in 1..60u32 {
        let lines = lines_in(words, width).unwrap_or(last);
        if lines < last {
            configs.push(Config {
                width,
                height: lines,
            })?;
            last = lines;
        }
    }
    steps(alloc, configs.as_slice())
}

/// How much is drawn: so many rows and columns, cells of `least` words and up to `more` besides.
#[derive(Clone, Copy)]
pub(crate) struct Size {
    pub(crate) rows: u32,
    pub(crate) cols: u32,
    pub(crate) least: u32,
    pub(crate) more: u64,
    ghost small: { (rows < 1000) × (cols < 100) × (least < 100) × (more < 9) },
}

/// 30 rows over so many columns, of cells of one word to six.
pub(crate) fn thirty_rows(cols: u32) -> Size
    requires { cols < 100 }
{
    Size {
        rows: 30,
        cols,
        least: 1,
        more: 5,
    }
}

/// The widths of a cell's words, of one to eight columns each.
fn drawn_words(alloc: Global, draws: &mut Draws, size: Size) -> Result<Vec<u32>, Fail> {
    let count = size.least + draws.draw(size.more + 1);
    let mut words = Vec::new(alloc);
    for _ in 0..count {
        words.push(1 + draws.draw(8))?;
    }
    Ok(words)
}

/// A row of cells, each over one column or two.
fn drawn_row(
    alloc: Global,
    draws: &mut Draws,
    row: u32,
    size: Size,
    cells: &mut List<Cell>,
) -> Result<(), Fail>
    requires { row < 1000 }
{
    let cols = size.cols;
    let mut column = 0u32;
    while column < cols {
        let wide = draws.draw(5) == 0 && column + 1 < cols;
        let span = if wide { 2 } else { 1 };
        let words = drawn_words(alloc, draws, size)?;
        cells.push(Cell {
            left: column,
            right: column + span,
            top: row,
            bottom: row + 1,
            low: text_steps(alloc, &words)?,
            high: text_steps(alloc, &words)?,
        })?;
        column += span;
    }
    Ok(())
}

/// A table on a page of this width, drawn from this number.
pub(crate) fn drawn_table(
    alloc: Global,
    number: u32,
    size: Size,
    width: u32,
) -> Result<Problem, Fail>
    requires { number < 2 ^ 31 }
{
    let mut draws = Draws {
        state: u64::from(number),
    };
    let mut cells = List::new(alloc);
    for row in 0..size.rows {
        drawn_row(alloc, &mut draws, row, size, &mut cells)?;
    }
    problem(alloc, size.cols, size.rows, width, cells)
}
