//! Forms the table of a tree: its grid, its caption's row and its cells by top, then left.

ghost use Rattle.std.specs.Prelude.{◌≡◌, ◌+◌, ◌<◌, ◌≤◌, ◌++◌, [], length, map, take, IfOk, IfErr, Some, alloc_error};
ghost use Rattle.std.specs.List.{All, flat_map};
ghost use Rattle.std.specs.List.Sorted.{IsPermutation, IsNonDecreasingBy};
ghost use Rattle.tl_base.specs.Returned.{ReturnsError, IsMemoryOr};
ghost use Rattle.tl_base.specs.declared.limits.TheConstants.{MAX_ROWS};
ghost use Rattle.tl_grid.specs.declared.shape.Place.{Place};
ghost use Rattle.tl_grid.specs.Form.{HasGrid};
ghost use Rattle.tl_tree.specs.declared.node.Block.{out-Block};
ghost use Rattle.tl_tree.specs.declared.node.CellNode.{out-CellNode};
ghost use Rattle.tl_tree.specs.declared.node.GroupNode.{out-GroupNode};
ghost use Rattle.tl_tree.specs.declared.node.TableNode.{out-TableNode};
ghost use Rattle.tl_tree.specs.Outline.{block_outline, cell_outline, group_outline, outline, blocks_outline, cells_outline};
ghost use Rattle.tl_tree.specs.Sound.{AreSound, IsSound};
ghost use Rattle.tl_table.specs.declared.cell.Content.{out-Content};
ghost use Rattle.tl_table.specs.declared.cell.Table.{Table};
ghost use Rattle.tl_table.specs.declared.cell.TableCell.{out-TableCell};
ghost use Rattle.tl_table.specs.declared.error.FormError.{FormError};
ghost use Rattle.tl_table.specs.declared.error.FormError.TheVariants.{Memory};
ghost use Rattle.tl_table.specs.Formed.{Becomes, BecomesContent, BecomeContents, BecomesCell, BecomeCaption, Writes, slot_number};
ghost use Rattle.tl_table.specs.Formed.{is_thead, marks_of_group, marks_of_groups};
ghost use Rattle.tl_table.specs.Formed.{caption_rows, cells_of_group, cells_of_groups, header_kind, lowered, shape_of};
ghost use Rattle.tl_table.specs.Refused.{AreRefused, HasNoGrid, tables_in_block, part_of_cell, part_of_group};
ghost use Rattle.tl_table.specs.Same.{ReturnsTable};
ghost use Rattle.tl_table.specs.Sound.{IsSound as IsSoundTable, place_of};
ghost use Rattle.tl_table.specs.Tables.{is_in_head};
ghost use Rattle.tl_table.specs.Spellable.{IsSpellable};
ghost use Rattle.tl_table.specs.inner.Forming.{IsOwnError, refusal};
ghost use Rattle.tl_table.specs.Refused.{tables_in_cells, tables_in_flow, tables_in_groups};

use crate::cell::{Content, Kind, Table, TableCell};
use crate::error::FormError;
use crate::paragraph::broken;
use crate::shape::shape_of;
use std::alloc::{AllocError, Global};
use tl_base::{Breaking, List, MAX_COLUMNS};
use tl_grid::{Grid, GridError, Place, form};
use tl_tree::{Block, CellNode, GroupNode, Part, TableNode};

/// The grid of the table itself.
fn grid_of(alloc: Global, node: &TableNode) -> Result<Grid, FormError>
    requires { AreSound (outline node.now) }
    ensures ok { IfOk result (HasGrid (shape_of (out-TableNode node.now))) }
    ensures err { IfErr result (IsMemoryOr (Memory alloc_error) (IsOwnError (out-TableNode node.now))) }
{
    let shape = shape_of(alloc, node)?;
    match form(alloc, &shape) {
        Ok(grid) => Ok(grid),
        Err(cause) => Err(refusal(node.number, cause)),
    }
}

/// The error of a table that has no grid for this cause.
fn refusal(number: u32, cause: GridError) -> FormError
    ensures { result ≡ refusal number cause }
{
    match cause {
        GridError::Memory(error) => FormError::Memory(error),
        GridError::TooManyCells(_)
        | GridError::Overlap { .. }
        | GridError::TooManyColumns(_)
        | GridError::TooManyRows(_) => FormError::Grid(number, cause),
    }
}

/// How many rows the table's caption takes.
fn caption_rows(node: &TableNode) -> u32
    ensures { result ≡ caption_rows (out-TableNode node.now).caption }
{
    match &node.caption {
        None => 0,
        Some(_) => 1,
    }
}

/// The places, so many rows below.
fn lowered(alloc: Global, places: List<Place>, down: u32) -> Result<List<Place>, AllocError>
    requires high { All (λ place. place.bottom ≤ MAX_ROWS) places }
    requires low { All (λ place. place.top < place.bottom) places }
    requires few { down ≤ 1 }
    ensures { IfOk result (λ below. below ≡ map (lowered down) places) }
{
    let mut below = List::new(alloc);
    for place in places.as_slice() {
        below.push(Place {
            top: place.top + down,
            bottom: place.bottom + down,
            ..*place
        })?;
    }
    Ok(below)
}

/// The number of a cell's first slot, where the slots are counted row by row.
fn slot_number(cell: &TableCell) -> u64
    ensures { result ≡ slot_number cell.now }
{
    let top = cell.place.top as u64;
    let left = cell.place.left as u64;
    top * MAX_COLUMNS as u64 + left
}

/// The cells by top, then left.
fn in_order(mut cells: Vec<TableCell>) -> Result<Vec<TableCell>, AllocError>
    ensures same { IfOk result (λ sorted. IsPermutation cells.items sorted.items) }
    ensures sorted { IfOk result (λ sorted. IsNonDecreasingBy slot_number sorted.items) }
{
    cells.sort_by_key(|cell| slot_number(cell))?;
    Ok(cells)
}

/// What a cell is by its tag: a header cell, or any other.
fn kind_of(head: bool) -> Kind
    ensures { result ≡ header_kind head }
{
    if head { Kind::Head } else { Kind::Plain }
}

/// Whether a group of rows is a `thead`.
fn is_thead(part: Part) -> bool
    ensures { result ≡ is_thead part }
{
    match part {
        Part::Head => true,
        Part::Loose | Part::Body | Part::Foot => false,
    }
}

/// The block of a tree as a block of a table.
#[cycle(forming)]
fn content(alloc: Global, block: Block, breaking: Breaking) -> Result<Content, FormError>
    requires { AreSound (block_outline block) }
    ensures ok { IfOk result (λ content.
        BecomesContent (Becomes breaking) breaking (out-Block block) (out-Content content)) }
    ensures err { IfErr result (IsMemoryOr (Memory alloc_error) (AreRefused (tables_in_block block))) }
{
    match block {
        Block::Para(paragraph) => {
            let units = broken(alloc, paragraph, breaking)?;
            Ok(Content::Para(units))
        }
        Block::Table(node) => {
            let table = formed(alloc, Box::into_inner(node), breaking)?;
            let inner = Box::new(alloc, table)?;
            Ok(Content::Table(inner))
        }
    }
}

/// The blocks of a flow.
#[cycle(forming)]
fn contents(
    alloc: Global,
    flow: List<Block>,
    breaking: Breaking,
) -> Result<List<Content>, FormError>
    requires { AreSound (blocks_outline flow) }
    ensures ok { IfOk result (BecomeContents (Becomes breaking) breaking flow) }
    ensures err { IfErr result (IsMemoryOr (Memory alloc_error) (AreRefused (tables_in_flow flow))) }
{
    let mut blocks = Vec::with_capacity(alloc, flow.len())?;
    for block in flow.into_vec() {
        let made = content(alloc, block, breaking)?;
        blocks.push(made)?;
    }
    Ok(List::from_vec(blocks))
}

/// The cell of a tree, at its place.
#[cycle(forming)]
fn cell(
    alloc: Global,
    node: CellNode,
    in_head: bool,
    place: Place,
    breaking: Breaking,
) -> Result<TableCell, FormError>
    requires { AreSound (cell_outline node) }
    ensures ok { IfOk result (λ cell.
        BecomesCell (Becomes breaking) breaking (out-CellNode node) (out-TableCell cell)) }
    ensures marked { IfOk result (λ cell. is_in_head cell ≡ in_head) }
    ensures place { IfOk result (λ cell. place_of cell ≡ place) }
    ensures err { IfErr result (IsMemoryOr (Memory alloc_error) (AreRefused (part_of_cell node).inner)) }
{
    let CellNode {
        head,
        colspan: _,
        rowspan: _,
        least,
        align,
        flow,
    } = node;
    let blocks = contents(alloc, flow, breaking)?;
    Ok(TableCell {
        kind: kind_of(head),
        in_head,
        place,
        least,
        align,
        blocks,
    })
}

/// The cell of a caption of this flow, over all columns of the first row.
#[cycle(forming)]
fn caption_cells(
    alloc: Global,
    flow: List<Block>,
    cols: u32,
    breaking: Breaking,
) -> Result<Vec<TableCell>, FormError>
    requires { AreSound (blocks_outline flow) }
    ensures ok { IfOk result (λ cells. BecomeCaption (Becomes breaking) breaking cols (Some flow) cells.items) }
    ensures err { IfErr result (IsMemoryOr (Memory alloc_error) (AreRefused (tables_in_flow flow))) }
{
    let mut cells = Vec::new(alloc);
    let blocks = contents(alloc, flow, breaking)?;
    let place = Place {
        left: 0,
        right: cols,
        top: 0,
        bottom: 1,
    };
    cells.push(TableCell {
        kind: Kind::Caption,
        in_head: false,
        place,
        least: 0,
        align: None,
        blocks,
    })?;
    Ok(cells)
}

/// The cells of a row, after those written before it, each at the place of its number.
#[cycle(forming)]
fn row_cells(
    alloc: Global,
    row: List<CellNode>,
    in_head: bool,
    places: &[Place],
    breaking: Breaking,
    mut written: Vec<TableCell>,
) -> Result<Vec<TableCell>, FormError>
    requires sound { AreSound (cells_outline row) }
    requires placed { map place_of written.items ≡ take (length written.items) places.now }
    requires room { length written.items + length row ≤ length places.now }
    ensures ok { IfOk result (λ after.
        Writes breaking row (map (λ node. in_head) row) places.now written.items after.items) }
    ensures err { IfErr result (IsMemoryOr (Memory alloc_error) (AreRefused (tables_in_cells row))) }
{
    for node in row.into_vec() {
        let made = cell(alloc, node, in_head, places[written.len()], breaking)?;
        written.push(made)?;
    }
    Ok(written)
}

/// The cells of a group, row by row, after those written before it.
#[cycle(forming)]
fn group_cells(
    alloc: Global,
    group: GroupNode,
    places: &[Place],
    breaking: Breaking,
    mut written: Vec<TableCell>,
) -> Result<Vec<TableCell>, FormError>
    requires sound { AreSound (group_outline group) }
    requires placed { map place_of written.items ≡ take (length written.items) places.now }
    requires room { length written.items + length (cells_of_group (out-GroupNode group)) ≤ length places.now }
    ensures ok { IfOk result (λ after.
        Writes breaking (cells_of_group (out-GroupNode group)) (marks_of_group (out-GroupNode group)) places.now
        written.items after.items) }
    ensures err { IfErr result (IsMemoryOr (Memory alloc_error) (AreRefused (part_of_group group).inner)) }
{
    let GroupNode { part, rows } = group;
    let in_head = is_thead(part);
    for row in rows.into_vec() {
        written = row_cells(alloc, row, in_head, places, breaking, written)?;
    }
    Ok(written)
}

/// The cells of a table as they are written, over all its groups.
#[cycle(forming)]
fn written_cells(
    alloc: Global,
    groups: List<GroupNode>,
    places: &[Place],
    breaking: Breaking,
) -> Result<Vec<TableCell>, FormError>
    requires sound { AreSound (flat_map group_outline groups) }
    requires room { length (cells_of_groups groups) ≡ length places.now }
    ensures ok { IfOk result (λ cells.
        Writes breaking (cells_of_groups groups) (marks_of_groups groups) places.now [] cells.items) }
    ensures err { IfErr result (IsMemoryOr (Memory alloc_error) (AreRefused (tables_in_groups groups))) }
{
    let mut written = Vec::with_capacity(alloc, places.len())?;
    for group in groups.into_vec() {
        written = group_cells(alloc, group, places, breaking, written)?;
    }
    Ok(written)
}

/// The cells of `first`, and after them those of `second`.
fn joined(
    mut first: Vec<TableCell>,
    mut second: Vec<TableCell>,
) -> Result<Vec<TableCell>, AllocError>
    ensures { IfOk result (λ cells. cells.items ≡ first.items ++ second.items) }
{
    first.append(&mut second)?;
    Ok(first)
}

/// The cells of both by top, then left.
fn arranged(first: Vec<TableCell>, second: Vec<TableCell>) -> Result<Vec<TableCell>, AllocError>
    ensures same { IfOk result (λ sorted. IsPermutation (first.items ++ second.items) sorted.items) }
    ensures sorted { IfOk result (λ sorted. IsNonDecreasingBy slot_number sorted.items) }
{
    let cells = joined(first, second)?;
    let sorted = in_order(cells)?;
    Ok(sorted)
}

/// The table of a part of a tree.
#[cycle(forming)]
fn formed(alloc: Global, node: TableNode, breaking: Breaking) -> Result<Table, FormError>
    requires { AreSound (outline node) }
    ensures ok { IfOk result (Becomes breaking node) }
    ensures err { IfErr result (IsMemoryOr (Memory alloc_error) (HasNoGrid node)) }
{
    let grid = grid_of(alloc, &node)?;
    let down = caption_rows(&node);
    let cols = grid.cols.max(down);
    let rows = grid.rows + down;
    let TableNode {
        number,
        caption,
        columns: _,
        groups,
    } = node;
    let caption = match caption {
        None => Vec::new(alloc),
        Some(flow) => caption_cells(alloc, flow, cols, breaking)?,
    };
    let places = lowered(alloc, grid.places, down)?;
    let written = written_cells(alloc, groups, places.as_slice(), breaking)?;
    let cells = arranged(caption, written)?;
    Ok(Table {
        number,
        cols,
        rows,
        cells: List::from_vec(cells),
    })
}

/// The table that a tree becomes: its grid by the HTML Standard's "Forming a table" (section 4.9.12.1)
/// without the columns and rows in which no cell begins, its caption in a row of its own on top, its
/// cells by top, then left, and their paragraphs with words as they are or separated into units. The
/// first of its tables that has no grid is named, with the cause. The table takes its text from the
/// tree, which is given up for it. The time and the memory grow with the number of cells, words and
/// tables.
pub fn table(alloc: Global, node: TableNode, breaking: Breaking) -> Result<Table, FormError>
    requires { IsSound node }
    // The table is what the tree becomes, and whatever table it becomes is returned.
    ensures ok { IfOk result (Becomes breaking node) }
    ensures each_ok { (table : Table) → Becomes breaking node table → ReturnsTable table result }
    // What every call that takes a table may count on; a file can spell it by the same breaking.
    ensures sound { IfOk result IsSoundTable }
    ensures spellable { IfOk result (IsSpellable breaking) }
    // Each error comes exactly where its cause is so.
    ensures err { IfErr result (IsMemoryOr (Memory alloc_error) (HasNoGrid node)) }
    ensures each_err { (error : FormError) → HasNoGrid node error
        → ReturnsError (Memory alloc_error) error result }
{
    formed(alloc, node, breaking)
}
