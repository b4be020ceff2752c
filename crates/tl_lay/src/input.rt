//! What bytes give a call: a table with the budget of each search, or a refusal that says why there is none.
//! Every call on bytes begins here.

ghost use Rattle.std.specs.Prelude.{IfOk};
ghost use Rattle.tl_lay.specs.Inputs.{GivesInput, IsTaskInRange, IsUsable};

use crate::budget::budget_within;
use crate::task::Task;
use std::alloc::{AllocError, Global};
use tl_read::{Reading, Refusal, read};
use tl_table::Table;

/// A table, and how many cuts each search for it may make.
#[derive(Drop)]
pub struct Given {
    pub table: Table,
    pub budget: u32,
}

/// What bytes give a call.
#[derive(Drop)]
pub enum Input {
    /// The table that the bytes are.
    Table(Given),
    /// The bytes are refused, or the reach of their table is.
    Refused(Refusal),
}

/// What these bytes give a call with this task. Where they are refused, they are so for every call.
pub fn read_input(alloc: Global, task: &Task, bytes: &[u8]) -> Result<Input, AllocError>
    requires range { IsTaskInRange task.now }
    ensures given { IfOk result (GivesInput task.now bytes.now) }
    ensures usable { IfOk result (IsUsable task.now) }
{
    let table = match read(alloc, bytes, task.source)? {
        Reading::Table(table) => table,
        Reading::Refused(refusal) => return Ok(Input::Refused(refusal)),
    };
    match budget_within(task, &table) {
        Ok(budget) => Ok(Input::Table(Given { table, budget })),
        Err(refusal) => Ok(Input::Refused(refusal)),
    }
}
