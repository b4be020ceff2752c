//! What is asked of the bytes of a file: with `--break fit` it is found for them which words may break.

ghost use Rattle.std.specs.Prelude.{◌≡◌, ℕ, IfOk};
ghost use Rattle.tl_command.specs.Ask.{asked_by};
ghost use Rattle.tl_lay.specs.Inputs.{IsTaskInRange};
ghost use Rattle.tl_program.specs.Asks.{fitted_in};
ghost use Rattle.tl_program.specs.Settled.{Settles, rule_of, widest_page};
ghost use Rattle.tl_program.specs.Tasks.{task_on};

use crate::task::task_on;
use std::alloc::{AllocError, Global};
use tl_base::{Breaking, MAX_PAGE_WIDTH};
use tl_command::{Ask, BreakRule, Command};
use tl_fit::fit;

/// What is asked of the bytes: as few words as can be may break so that the widest page that is asked for
/// holds their table, where `fit` is asked for; and else what is asked for. The error is out of memory.
pub fn settled<'a>(alloc: Global, ask: &Ask<'a>, bytes: &[u8]) -> Result<Ask<'a>, AllocError>
    ensures settles { IfOk result (λ settled. Settles bytes.now (asked_by ask.now) (asked_by settled)) }
    ensures same { IfOk result (λ settled. (settled.command ≡ ask.now.command)
        × (settled.number ≡ ask.now.number) × (settled.names.now ≡ ask.now.names.now)) }
    ensures range { IfOk result (λ settled. (width : ℕ) → IsTaskInRange (task_on width (asked_by ask.now))
        → IsTaskInRange (task_on width (asked_by settled))) }
{
    let mut options = ask.options;
    if let Some(BreakRule::Fit) = options.breaking {
        let task = task_on(ask, widest_page(ask));
        let breaking = fit(alloc, bytes, &task.source, task.style, task.width)?;
        options.breaking = Some(rule_of(breaking));
    }
    Ok(Ask {
        command: ask.command,
        number: ask.number,
        names: ask.names,
        options,
    })
}

/// How wide the widest page is that is asked for.
fn widest_page(ask: &Ask<'_>) -> u32
    ensures { result ≡ widest_page (asked_by ask.now) }
{
    match ask.command {
        Command::Narrow => MAX_PAGE_WIDTH,
        _ => ask.number,
    }
}

/// The rule for a breaking that was found.
fn rule_of(breaking: Breaking) -> BreakRule
    ensures { result ≡ rule_of breaking }
{
    match breaking {
        Breaking::Words => BreakRule::Words,
        Breaking::Wider(most) => BreakRule::Fitted(most),
    }
}

/// The number of columns above which words may break, where it was found for the file.
pub fn fitted_in(ask: &Ask<'_>) -> Option<u32>
    ensures { result ≡ fitted_in (asked_by ask.now) }
{
    match ask.options.breaking {
        Some(BreakRule::Fitted(most)) => Some(most),
        _ => None,
    }
}
