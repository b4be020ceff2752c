//! Steps that are so many lines lower: what a cell needs of its rows, where lines lie between them.

ghost use Rattle.std.specs.Prelude.{IfOk};
ghost use Rattle.tl_form.specs.inner.CellSteps.{AreLowered};

use std::alloc::{AllocError, Global};
use tl_base::{Config, List, Steps};

/// The steps so many lines lower, and none below no line. Of those that come to no line the first alone
/// stays, so that the heights still fall.
pub fn lowered(alloc: Global, steps: Steps, lines: u32) -> Result<Steps, AllocError>
    ensures { IfOk result (AreLowered lines steps) }
{
    if lines == 0 {
        return Ok(steps);
    }
    let mut list = List::new(alloc);
    for step in steps.configs() {
        let height = step.height.saturating_sub(lines);
        list.push(Config {
            width: step.width,
            height,
        })?;
        if height == 0 {
            return Ok(Steps::from_list(list));
        }
    }
    Ok(Steps::from_list(list))
}
