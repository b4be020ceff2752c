//! What a request is answered with.

ghost use Rattle.std.specs.Prelude.{◌≡◌, ◌≢◌, ◌≤◌, IfOk, List, ℕ, map, string_bytes};
ghost use Rattle.tl_base.specs.declared.limits.TheConstants.{MAX_HEIGHT, MAX_PAGE_WIDTH};
ghost use Rattle.tl_batch.specs.Replies.{AnswersAsked, AnswersCommand, TellsChecked, TellsLaid, TellsNarrowed, TellsTidied, answer_bytes};
ghost use Rattle.tl_batch.specs.inner.Turns.{AnswersArrival, AnswersFiles};
ghost use Rattle.tl_command.specs.declared.command.Command.TheVariants.{Demo};
ghost use Rattle.tl_command.specs.Ask.{Asked, IsAsk, asked_by};
ghost use Rattle.tl_command.specs.Command.{IsNumberOf};
ghost use Rattle.tl_lay.specs.Inputs.{IsTaskInRange};
ghost use Rattle.tl_program.specs.Tasks.{slim_task, task_of, task_on};

use crate::reply::reply_of;
use std::alloc::{AllocError, Global};
use std::thread::Threads;
use tl_base::{Gate, MAX_PAGE_WIDTH};
use tl_command::{Ask, Command};
use tl_lay::{Answer, check, lay, narrow, tidy};
use tl_program::{Report, fitted_in, settled, task_of, task_on, texts_of};
use tl_request::Arrival;
use tl_solve::Watcher;

/// The answer to a request that was taken. The error says that memory ran out.
pub fn answer_to<R: Threads + Sync, G: Gate + Watcher>(
    rt: &R,
    alloc: Global,
    arrival: &Arrival,
    gate: &G,
) -> Result<Vec<u8>, AllocError>
    requires asks { (asked : Asked) × IsAsk (map string_bytes arrival.now.words.items) asked × (asked.command ≢ Demo) }
    ensures { IfOk result (λ bytes. AnswersArrival arrival.now bytes.items) }
{
    match Ask::parse(arrival.words.as_slice()) {
        Some(ask) => answer_files(rt, alloc, &ask, arrival, gate),
        None => unreachable!(),
    }
}

/// The answer to what is asked of the files of a request; out of memory where one of them is not held.
fn answer_files<R: Threads + Sync, G: Gate + Watcher>(
    rt: &R,
    alloc: Global,
    ask: &Ask<'_>,
    arrival: &Arrival,
    gate: &G,
) -> Result<Vec<u8>, AllocError>
    requires asks { (words : List (List ℕ)) × IsAsk words (asked_by ask.now) }
    requires reads { ask.now.command ≢ Demo }
    ensures { IfOk result (λ bytes. AnswersFiles (asked_by ask.now) arrival.now bytes.items) }
{
    let Some(file) = &arrival.file else {
        return Err(AllocError);
    };
    let Some(text) = &arrival.text else {
        return Err(AllocError);
    };
    answer_asked(rt, alloc, ask, file.as_slice(), text.as_slice(), gate)
}

/// The answer to what is asked of the bytes of a file: with `fit` the breaking is found for them.
fn answer_asked<R: Threads + Sync, G: Gate + Watcher>(
    rt: &R,
    alloc: Global,
    ask: &Ask<'_>,
    file: &[u8],
    text: &[u8],
    gate: &G,
) -> Result<Vec<u8>, AllocError>
    requires asks { (words : List (List ℕ)) × IsAsk words (asked_by ask.now) }
    requires reads { ask.now.command ≢ Demo }
    ensures { IfOk result (λ bytes. AnswersAsked (asked_by ask.now) file.now text.now bytes.items) }
{
    let Ok(ask) = settled(alloc, ask, file) else {
        return Err(AllocError);
    };
    answer_command(rt, alloc, &ask, file, text, gate)
}

/// The answer to what is asked of the bytes of a file, and of those of a certificate, if it is a check.
fn answer_command<R: Threads + Sync, G: Gate + Watcher>(
    rt: &R,
    alloc: Global,
    ask: &Ask<'_>,
    file: &[u8],
    text: &[u8],
    gate: &G,
) -> Result<Vec<u8>, AllocError>
    requires number { IsNumberOf ask.now.command ask.now.number }
    requires range { (width : ℕ) → 1 ≤ width → width ≤ MAX_PAGE_WIDTH → IsTaskInRange (task_on width (asked_by ask.now)) }
    requires reads { ask.now.command ≢ Demo }
    ensures { IfOk result (λ bytes. AnswersCommand ask.now.command (asked_by ask.now) file.now text.now bytes.items) }
{
    match ask.command {
        Command::Lay => answer_lay(rt, alloc, ask, file, gate),
        Command::Narrow => answer_narrow(rt, alloc, ask, file, gate),
        Command::Tidy => answer_tidy(rt, alloc, ask, file, gate),
        Command::Check => answer_check(rt, alloc, ask, file, text, gate),
        Command::Demo => unreachable!(),
    }
}

/// What `lay` answers.
fn answer_lay<R: Threads + Sync, G: Gate + Watcher>(
    rt: &R,
    alloc: Global,
    ask: &Ask<'_>,
    file: &[u8],
    gate: &G,
) -> Result<Vec<u8>, AllocError>
    requires range { IsTaskInRange (task_of (asked_by ask.now)) }
    ensures { IfOk result (λ bytes. TellsLaid (asked_by ask.now) file.now bytes.items) }
{
    let task = task_of(ask);
    let answer = lay(rt, alloc, &task, file, gate)?;
    tell(alloc, ask, answer)
}

/// What `narrow` answers.
fn answer_narrow<R: Threads + Sync, G: Gate + Watcher>(
    rt: &R,
    alloc: Global,
    ask: &Ask<'_>,
    file: &[u8],
    gate: &G,
) -> Result<Vec<u8>, AllocError>
    requires range { IsTaskInRange (slim_task (asked_by ask.now)) }
    requires lines { ask.now.number ≤ MAX_HEIGHT }
    ensures { IfOk result (λ bytes. TellsNarrowed (asked_by ask.now) file.now bytes.items) }
{
    let task = task_on(ask, MAX_PAGE_WIDTH);
    let answer = narrow(rt, alloc, &task, ask.number, file, gate)?;
    tell(alloc, ask, answer)
}

/// What `tidy` answers.
fn answer_tidy<R: Threads + Sync, G: Gate + Watcher>(
    rt: &R,
    alloc: Global,
    ask: &Ask<'_>,
    file: &[u8],
    gate: &G,
) -> Result<Vec<u8>, AllocError>
    requires range { IsTaskInRange (task_of (asked_by ask.now)) }
    ensures { IfOk result (λ bytes. TellsTidied (asked_by ask.now) file.now bytes.items) }
{
    let task = task_of(ask);
    let answer = tidy(rt, alloc, &task, file, gate)?;
    tell(alloc, ask, answer)
}

/// What `check` finds.
fn answer_check<R: Threads + Sync, G: Gate + Watcher>(
    rt: &R,
    alloc: Global,
    ask: &Ask<'_>,
    file: &[u8],
    text: &[u8],
    gate: &G,
) -> Result<Vec<u8>, AllocError>
    requires range { IsTaskInRange (task_of (asked_by ask.now)) }
    ensures { IfOk result (λ bytes. TellsChecked (asked_by ask.now) file.now text.now bytes.items) }
{
    let task = task_of(ask);
    let verdict = check(rt, alloc, &task, file, text, gate)?;
    reply_of(alloc, Report::of_verdict(verdict), fitted_in(ask), &[])
}

/// The bytes of an answer with its page and its certificates.
fn tell(alloc: Global, ask: &Ask<'_>, answer: Answer) -> Result<Vec<u8>, AllocError>
    ensures { IfOk result (λ bytes. bytes.items ≡ answer_bytes (asked_by ask.now) answer) }
{
    let report = Report::of_answer(&answer);
    let texts = texts_of(alloc, answer)?;
    reply_of(alloc, report, fitted_in(ask), texts.as_slice())
}
