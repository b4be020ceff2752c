//! The heights that nested tables need, as bounds of them.

ghost use Rattle.std.specs.Prelude.{◌≡◌, ◌↔◌, Some, IsSome, IsSomeAnd, IsTrue};
ghost use Rattle.tl_base.specs.Steps.{height_at};
ghost use Rattle.tl_form.specs.Problems.{steps_for};
ghost use Rattle.tl_table.specs.Tables.{inner_tables, tables_in, tables_of};
ghost use Rattle.tl_table.specs.declared.cell.Content.{out-Content};
ghost use Rattle.tl_table.specs.declared.cell.Table.{out-Table};
ghost use Rattle.tl_table.specs.declared.cell.TableCell.{out-TableCell};
ghost use Rattle.tl_form.specs.inner.CellSteps.{HaveSteps, IsStart, bound_of};

use tl_base::Steps;
use tl_table::{Content, Table, TableCell};

/// The heights in lines that a nested table needs at each width in columns: at least `low`, and no
/// more than `high`.
#[derive(Debug, Drop)]
pub struct InnerSteps {
    /// The table's number.
    pub table: u32,
    /// Heights that it needs at least.
    pub low: Steps,
    /// Heights that are enough.
    pub high: Steps,
}

/// Which bound of a nested table's heights is meant.
#[derive(Clone, Copy)]
pub enum HeightBound {
    Low,
    High,
}

impl InnerSteps {
    /// The steps that are this bound.
    fn steps(&self, bound: HeightBound) -> &Steps
        ensures { result.now ≡ bound_of bound self.now }
    {
        match bound {
            HeightBound::Low => &self.low,
            HeightBound::High => &self.high,
        }
    }
}

/// Whether there are steps of the table with this number.
fn has_steps(inner: &[InnerSteps], number: u32) -> bool
    ensures { IsTrue result ↔ IsSome (steps_for inner.now number) }
{
    for one in inner {
        if one.table == number {
            return true;
        }
    }
    false
}

/// Whether there are steps of the table that the block is, if it is one.
fn block_has_steps(block: &Content, inner: &[InnerSteps]) -> bool
    ensures { IsTrue result ↔ HaveSteps inner.now (tables_of (out-Content block.now)) }
{
    match block {
        Content::Para(_) => true,
        Content::Table(table) => has_steps(inner, table.number),
    }
}

/// Whether there are steps of each table nested directly in the cell.
fn cell_has_steps(cell: &TableCell, inner: &[InnerSteps]) -> bool
    ensures { IsTrue result ↔ HaveSteps inner.now (tables_in (out-TableCell cell.now)) }
{
    for block in cell.blocks.as_slice() {
        if !block_has_steps(block, inner) {
            return false;
        }
    }
    true
}

/// Whether there are steps of each table nested directly in this one.
pub fn have_steps(table: &Table, inner: &[InnerSteps]) -> bool
    ensures { IsTrue result ↔ HaveSteps inner.now (inner_tables (out-Table table.now)) }
{
    for cell in table.cells.as_slice() {
        if !cell_has_steps(cell, inner) {
            return false;
        }
    }
    true
}

/// The first steps of the table with this number.
fn steps_for(inner: &[InnerSteps], number: u32) -> &InnerSteps
    requires { IsSome (steps_for inner.now number) }
    ensures { steps_for inner.now number ≡ Some result.now }
{
    for one in inner {
        if one.table == number {
            return one;
        }
    }
    unreachable!()
}

/// The least width at which the steps have a height.
pub fn start_of(steps: &Steps) -> u32
    ensures { IsStart (λ w h. height_at steps.now w ≡ Some h) result }
{
    steps.configs()[0].width
}

/// A bound of the table with this number.
pub fn bound_for(inner: &[InnerSteps], number: u32, bound: HeightBound) -> &Steps
    requires { IsSome (steps_for inner.now number) }
    ensures { IsSomeAnd (steps_for inner.now number) (λ one. result.now ≡ bound_of bound one) }
{
    steps_for(inner, number).steps(bound)
}
