//! The open blocks of a row group, and the walk of a row over them. A row meets the blocks between
//! the end of a run of blocks from column 0 on and its last cell, and drops the ended ones.

ghost use Rattle.std.specs.Prelude.{◌≡◌, ◌⊎◌, ◌+◌, ◌<◌, ◌≤◌, ◌^◌, [], ◌∷◌, ◌++◌, length, take};
ghost use Rattle.std.specs.Prelude.{drop, IfOk, IfErr, MatchResult, IsTrue};
ghost use Rattle.std.specs.Prelude.{alloc_error};
ghost use Rattle.tl_grid.specs.declared.error.GridError.TheVariants.{Memory};
ghost use Rattle.tl_grid.specs.inner.OpenBlocks.{reaches, pass_taken, hit, HoldsRun};

use crate::block::Block;
use crate::error::GridError;
use std::alloc::Global;
use std::collections::VecDeque;
use std::marker::Model;

/// Whether a block that begins in `row` or above it takes that row.
fn reaches_row(block: &Block, row: u32) -> bool
    ensures { result ≡ reaches row block.now }
{
    block.grows || row < block.bottom
}

/// The first of the blocks that a walk has passed, where they lie side by side from column 0 on. A
/// row above `until` begins its walk after them.
#[derive(Drop, Clone, Copy)]
pub struct Run {
    /// How many blocks they are.
    pub count: usize,
    /// The column after the last of them.
    pub column: u32,
    /// The row below the last one that all of them take.
    pub until: u32,
}

/// No block.
const NO_RUN: Run = Run {
    count: 0,
    column: 0,
    until: 0,
};

/// The open blocks of a row group, those that may take rows to come, and a walk over them from left
/// to right. Contracts see the column that the walk has come to, and the blocks to its left and to
/// its right, each from left to right.
pub struct OpenBlocks {
    column: u32,
    passed: Vec<Block>,
    ahead: VecDeque<Block>,
    run: Run,
}

impl Drop for OpenBlocks {
    fn drop(self) {
        let OpenBlocks {
            column: _column,
            passed: _passed,
            ahead: _ahead,
            run: _run,
        } = self;
    }
}

impl Model for OpenBlocks {
    ghost use Rattle.tl_grid.specs.inner.OpenBlocks.{Walk, HoldsRun};

    ghost Value = { Walk };

    ghost view = { λ open_blocks. record {
      column = open_blocks.column;
      passed = open_blocks.passed.items;
      ahead = open_blocks.ahead.items;
    } };

    ghost invariant = { λ open_blocks.
        HoldsRun open_blocks.column open_blocks.passed.items open_blocks.run };
}

/// The row below the last one that the block is sure to take: a growing one takes all to come.
fn end_of(block: Block) -> u32
    ensures { IsTrue block.grows ⊎ (result ≤ block.bottom) }
{
    if block.grows { u32::MAX } else { block.bottom }
}

/// The run after a block that a walk has passed at the column to which the run and the blocks in
/// `passed` come. A block that ends above the others of the run is left out of it.
fn run_after(run: Run, passed: &[Block], column: u32, block: Block) -> Run
    requires run { HoldsRun column passed.now run }
    requires few { length passed.now < 2 ^ 60 }
    requires taken { block.left ≤ column }
    ensures { HoldsRun block.right (passed.now ++ block ∷ []) result }
{
    if passed.len() != run.count {
        return run;
    }
    let end = end_of(block);
    let longer = Run {
        count: run.count + 1,
        column: block.right,
        until: run.until,
    };
    if run.count == 0 {
        return Run {
            until: end,
            ..longer
        };
    }
    if run.until <= end { longer } else { run }
}

/// The run, if the row lies above its end, or no block.
fn run_at(run: Run, passed: &[Block], column: u32, row: u32) -> Run
    requires { HoldsRun column passed.now run }
    ensures holds { HoldsRun column passed.now result }
    ensures passes { pass_taken row 0 [] (take result.count passed.now)
        ≡ record { column = result.column; passed = take result.count passed.now; ahead = [] } }
{
    if row < run.until {
        return run;
    }
    NO_RUN
}

/// Moves the blocks from `count` on, of those passed, back before those ahead.
fn rewind(
    passed: &mut Vec<Block>,
    ahead: &mut VecDeque<Block>,
    count: usize,
) -> Result<(), GridError>
    requires { count ≤ length passed.old.items }
    ensures passed { IfOk result (λ _. passed.new.items ≡ take count passed.old.items) }
    ensures ahead { IfOk result (λ _.
        ahead.new.items ≡ drop count passed.old.items ++ ahead.old.items) }
    ensures err { IfErr result (λ e. e ≡ Memory alloc_error) }
{
    while passed.len() > count {
        if let Some(block) = passed.pop() {
            ahead.push_front(block)?;
        }
    }
    Ok(())
}

impl OpenBlocks {
    pub fn new(alloc: Global) -> OpenBlocks
        ensures { result ≡ record { column = 0; passed = []; ahead = [] } }
    {
        OpenBlocks {
            column: 0,
            passed: Vec::new(alloc),
            ahead: VecDeque::new(alloc),
            run: NO_RUN,
        }
    }

    /// The column that the walk has come to.
    pub fn column(&self) -> u32
        ensures { result ≡ self.now.column }
    {
        self.column
    }

    /// The first block ahead, if it begins before the column `right`.
    pub fn first_hit(&self, right: u32) -> Option<Block>
        ensures { result ≡ hit self.now.ahead right }
    {
        let block = *self.ahead.front()?;
        if block.left < right {
            Some(block)
        } else {
            None
        }
    }

    /// Passes the blocks that take the columns from the walk's on in `row`, one after another.
    pub fn pass_taken(self, row: u32) -> Result<OpenBlocks, GridError>
        ensures { MatchResult result
            (λ after. after ≡ pass_taken row self.column self.passed self.ahead)
            (λ e. e ≡ Memory alloc_error) }
    {
        let OpenBlocks {
            mut column,
            mut passed,
            mut ahead,
            mut run,
        } = self;
        while let Some(&block) = ahead.front() {
            let taken = reaches_row(&block, row);
            if taken && column < block.left {
                break;
            }
            ahead.pop_front();
            if taken {
                run = run_after(run, passed.as_slice(), column, block);
                passed.push(block)?;
                column = block.right;
            }
        }
        Ok(OpenBlocks {
            column,
            passed,
            ahead,
            run,
        })
    }

    /// Begins the walk of `row`, which is below all rows before it, and passes the blocks that take
    /// the columns from 0 on.
    pub fn begin_row(self, row: u32) -> Result<OpenBlocks, GridError>
        ensures { MatchResult result
            (λ after. after ≡ pass_taken row 0 [] (self.passed ++ self.ahead))
            (λ e. e ≡ Memory alloc_error) }
    {
        let OpenBlocks {
            column,
            mut passed,
            mut ahead,
            run,
        } = self;
        let run = run_at(run, passed.as_slice(), column, row);
        rewind(&mut passed, &mut ahead, run.count)?;
        let begun = OpenBlocks {
            column: run.column,
            passed,
            ahead,
            run,
        };
        begun.pass_taken(row)
    }

    /// Puts a block where the walk has come to, and goes on after it.
    pub fn place(self, block: Block) -> Result<OpenBlocks, GridError>
        ensures { MatchResult result
            (λ after. after ≡ record {
              column = block.right;
              passed = self.passed ++ block ∷ [];
              ahead = self.ahead;
            })
            (λ e. e ≡ Memory alloc_error) }
    {
        let OpenBlocks {
            column: _column,
            mut passed,
            ahead,
            run,
        } = self;
        passed.push(block)?;
        Ok(OpenBlocks {
            column: block.right,
            passed,
            ahead,
            run,
        })
    }
}
