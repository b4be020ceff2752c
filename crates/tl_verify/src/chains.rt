//! Walks the chains of a certificate along the table: nothing is searched.

ghost use Rattle.std.specs.Prelude.{◌≡◌, ◌+◌, ◌-◌, ◌*◌, ◌<◌, ◌≤◌, drop, length, IsTrue, ◌↔◌, MatchOption};
ghost use Rattle.tl_base.specs.declared.limits.TheConstants.{MAX_COLUMNS, MAX_HEIGHT};
ghost use Rattle.tl_base.specs.Style.{edges_of, gap_of};
ghost use Rattle.tl_table.specs.declared.cell.Content.{out-Content};
ghost use Rattle.tl_table.specs.declared.cell.Table.{out-Table};
ghost use Rattle.tl_table.specs.declared.cell.TableCell.{out-TableCell};
ghost use Rattle.tl_table.specs.Sound.{IsSound, IsSoundBlock, IsSoundCell};
ghost use Rattle.tl_table.specs.Tables.{tables_in, tables_of};
ghost use Rattle.tl_form.specs.Valid.{AreTooWide};
ghost use Rattle.tl_form.specs.Subjects.{IsSubject, meant};
ghost use Rattle.tl_verify.specs.inner.Walks.{HasNoRow, HasNoStep, HasNoWalk, HasNoWalkIn, IsRow, IsStep, IsWalk, IsWalkIn};

use tl_base::{Chain, Entry, Style};
use tl_form::Subject;
use tl_table::{Content, Table, TableCell, own_width};

/// What a walk came to: what the walked chain weighs, in columns of text, and the first chain past it
/// and those that it rests on.
#[derive(Clone, Copy)]
pub struct Walked {
    pub weight: u32,
    pub past: usize,
}

/// The entries of a chain walked so far: the column past the last one, how many columns they cover,
/// their widths, and the first chain past those that they rest on.
#[derive(Clone, Copy)]
pub struct Row {
    pub right: u32,
    pub covered: u32,
    pub width: u32,
    pub past: usize,
}

/// What the entries weigh in a table of so many columns.
fn row_weight(row: Row, count: usize, cols: u32, style: Style) -> u64
    requires inside { row.covered ≤ cols }
    requires few { cols ≤ MAX_COLUMNS }
    requires some { 1 ≤ count }
    requires many { count ≤ cols }
    requires light { row.width ≤ MAX_HEIGHT }
    ensures { result ≡ row.width + gap_of style * (count + (cols - row.covered) - 1) + edges_of style }
{
    let bare = u64::from(cols - row.covered);
    let gaps = count as u64 + bare - 1;
    u64::from(row.width) + u64::from(style.gap()) * gaps + u64::from(style.edges())
}

/// Whether the walk came to the end of so many chains, they weigh `least`, and that is above the page.
fn is_whole(walked: Walked, count: usize, least: u32, page: u32) -> bool
    ensures { IsTrue result ↔ ((walked.past ≡ count) × (walked.weight ≡ least) × (page < least)) }
{
    walked.past == count && walked.weight == least && page < least
}

/// Whether the chains are one of the subject's table with those that it rests on, weigh `least`, and
/// are wider than the page.
pub fn are_too_wide(subject: &Subject, chains: &[Chain], least: u32) -> bool
    requires subject { IsSubject subject.now }
    requires most { least ≤ MAX_HEIGHT }
    ensures { IsTrue result ↔ AreTooWide (meant subject.now) chains.now least }
{
    match walk(subject.table, subject.style, chains, 0, least) {
        Some(walked) => is_whole(walked, chains.len(), least, subject.page),
        None => false,
    }
}

/// Walks a chain of the table from place `at` on, and those that it rests on. `None` exactly where none
/// stands there that weighs at most `most`.
#[cycle(chains)]
fn walk(table: &Table, style: Style, chains: &[Chain], at: usize, most: u32) -> Option<Walked>
    requires sound { IsSound table.now }
    requires most { most ≤ MAX_HEIGHT }
    ensures { MatchOption result (HasNoWalk style table.now chains.now at most) (IsWalk style table.now chains.now at most) }
{
    let chain = chains.get(at)?;
    let entries = chain.entries.as_slice();
    if chain.table != table.number || entries.is_empty() {
        return None;
    }
    let row = walk_row(table, entries, style, chains, at + 1, most)?;
    let weight = row_weight(row, entries.len(), table.cols, style);
    if weight > u64::from(most) {
        return None;
    }
    Some(Walked {
        weight: weight as u32,
        past: row.past,
    })
}

/// Walks the entries of a chain of the table: cells side by side, from left to right.
#[cycle(chains)]
fn walk_row(
    table: &Table,
    entries: &[Entry],
    style: Style,
    chains: &[Chain],
    at: usize,
    most: u32,
) -> Option<Row>
    requires sound { IsSound table.now }
    requires within { at ≤ length chains.now }
    requires most { most ≤ MAX_HEIGHT }
    ensures { MatchOption result (HasNoRow style (out-Table table.now) entries.now (drop at chains.now) most)
        (IsRow style (out-Table table.now) entries.now chains.now at most) }
{
    let cells = table.cells.as_slice();
    let mut row = Row {
        right: 0,
        covered: 0,
        width: 0,
        past: at,
    };
    for entry in entries {
        let cell = cells.get(entry.cell as usize)?;
        if cell.place.left < row.right {
            return None;
        }
        let step = step(cell, entry.inner, style, chains, row.past, most)?;
        if step.weight > most - row.width {
            return None;
        }
        row = Row {
            right: cell.place.right,
            covered: row.covered + (cell.place.right - cell.place.left),
            width: row.width + step.weight,
            past: step.past,
        };
    }
    Some(row)
}

/// Walks what gives an entry its width: nothing more than its cell, or a chain of a table nested in it.
#[cycle(chains)]
fn step(
    cell: &TableCell,
    inner: Option<u32>,
    style: Style,
    chains: &[Chain],
    at: usize,
    most: u32,
) -> Option<Walked>
    requires sound { IsSoundCell (out-TableCell cell.now) }
    requires within { at ≤ length chains.now }
    requires most { most ≤ MAX_HEIGHT }
    ensures { MatchOption result (HasNoStep style (out-TableCell cell.now) inner chains.now at most)
        (IsStep style (out-TableCell cell.now) inner chains.now at) }
{
    match inner {
        None => Some(Walked {
            weight: own_width(cell),
            past: at,
        }),
        Some(number) => walk_inner(cell, number, style, chains, at, most),
    }
}

/// Walks a chain of the table with this number, nested directly in the cell.
#[cycle(chains)]
fn walk_inner(
    cell: &TableCell,
    number: u32,
    style: Style,
    chains: &[Chain],
    at: usize,
    most: u32,
) -> Option<Walked>
    requires sound { IsSoundCell (out-TableCell cell.now) }
    requires most { most ≤ MAX_HEIGHT }
    ensures { MatchOption result (HasNoWalkIn style (tables_in (out-TableCell cell.now)) number chains.now at most)
        (IsWalkIn style (tables_in (out-TableCell cell.now)) number chains.now at most) }
{
    for block in cell.blocks.as_slice() {
        if let Some(walked) = walk_block(block, number, style, chains, at, most) {
            return Some(walked);
        }
    }
    None
}

/// Walks a chain of the table that the block is, where it has this number.
#[cycle(chains)]
fn walk_block(
    block: &Content,
    number: u32,
    style: Style,
    chains: &[Chain],
    at: usize,
    most: u32,
) -> Option<Walked>
    requires sound { IsSoundBlock (out-Content block.now) }
    requires most { most ≤ MAX_HEIGHT }
    ensures { MatchOption result (HasNoWalkIn style (tables_of (out-Content block.now)) number chains.now at most)
        (IsWalkIn style (tables_of (out-Content block.now)) number chains.now at most) }
{
    match block {
        Content::Para(_) => None,
        Content::Table(table) => {
            if table.number != number {
                return None;
            }
            walk(table, style, chains, at, most)
        }
    }
}
