//! Judges the text of a certificate: what it shows of a table, or why it is rejected. No search is called.

ghost use Rattle.std.specs.Prelude.{◌≡◌, ◌≤◌, ℕ, List, IfOk, Some};
ghost use Rattle.std.specs.List.{last_or};
ghost use Rattle.tl_cert.specs.Text.{IsWritable};
ghost use Rattle.tl_lay.specs.declared.rejection.Rejection.{Rejection as R};
ghost use Rattle.tl_lay.specs.declared.verdict.Verdict.TheVariants as verdicts;
ghost use Rattle.tl_lay.specs.Checks.{IsChecked, IsJudged, page_columns};
ghost use Rattle.tl_lay.specs.Inputs.{GivesInput, IsTaskInRange, IsUsable, IsUsableTable};
ghost use Rattle.tl_lay.specs.inner.Claims.{HasFewColumns, verdict_of};
ghost use Rattle.tl_lay.specs.inner.Steps.{IsReadAs};

use crate::input::{Given, Input, read_input};
use crate::rejection::{Rejection, step_rejection, text_rejection};
use crate::task::Task;
use crate::verdict::Verdict;
use std::alloc::{AllocError, Global};
use std::thread;
use std::thread::Threads;
use tl_base::{Gate, Style};
use tl_cert::{CertError, Certificate, Claim, Section, read};
use tl_fan::Run;
use tl_form::{
    bounded_is_between, budget_closes, lowest_is_least, narrow_is_too_wide, open_spends,
    total_width,
};
use tl_table::Table;
use tl_verify::verify;

/// Judges the text of a certificate for the table that the bytes are, as the task asks of it: what it shows, why
/// it is rejected, or why the bytes are refused. Where they are many, both are read at one time. What workers
/// judge at one time passes the gate, section by section, once before it begins. The error says that memory ran
/// out.
pub fn check<R: Threads + Sync, G: Gate>(
    rt: &R,
    alloc: Global,
    task: &Task,
    bytes: &[u8],
    text: &[u8],
    gate: &G,
) -> Result<Verdict, AllocError>
    requires range { IsTaskInRange task.now }
    ensures checked { IfOk result (IsChecked task.now bytes.now text.now) }
{
    let run = task.run(rt, alloc, gate);
    let (input, certificate) = read_both(&run, task, bytes, text);
    match input? {
        Input::Table(given) => {
            let verdict = judge(&run, task, &given, &certificate);
            give_back(rt, !are_small(bytes, text), given, certificate);
            verdict
        }
        Input::Refused(refusal) => Ok(Verdict::Refused(refusal)),
    }
}

/// Judges the text of a certificate for a table that [`read_input`] gave for this task. The error says that
/// memory ran out.
pub fn judge_text<R: Threads + Sync, G: Gate>(
    rt: &R,
    alloc: Global,
    task: &Task,
    given: &Given,
    text: &[u8],
    gate: &G,
) -> Result<Verdict, AllocError>
    requires usable { IsUsableTable task.now given.now.table given.now.budget }
    ensures judged { IfOk result (IsJudged task.now given.now.table text.now) }
{
    let certificate = read(alloc, text);
    judge(&task.run(rt, alloc, gate), task, given, &certificate)
}

/// What is rejected, or out of memory.
fn rejected(rejection: Option<Rejection>) -> Result<Verdict, AllocError>
    ensures { IfOk result (λ verdict. (found : R) × (rejection ≡ Some found) × (verdict ≡ verdicts.Rejected found)) }
{
    match rejection {
        Some(rejection) => Ok(Verdict::Rejected(rejection)),
        None => Err(AllocError),
    }
}

/// The columns of the page that the placement of the last section takes, 0 where there is no section.
fn page_columns(style: Style, sections: &[Section]) -> u64
    requires { HasFewColumns (last_or None sections.now) }
    ensures { result ≡ page_columns style (last_or None sections.now) }
{
    match sections.last() {
        Some(last) => total_width(style, last.widths.as_slice()),
        None => 0,
    }
}

/// What a certificate shows that is valid for what is asked.
fn shown(task: &Task, certificate: &Certificate) -> Verdict
    requires { HasFewColumns (last_or None certificate.now.sections) }
    ensures { result ≡ verdict_of task.now.width certificate.now.claim
        (page_columns task.now.style (last_or None certificate.now.sections)) }
{
    let width = page_columns(task.style, certificate.sections.as_slice());
    verdict_of(task.width, certificate.claim, width)
}

/// The verdict of a claim that is shown, for a page of `most` columns, of which the layout takes `width`.
fn verdict_of(most: u32, claim: Claim, width: u64) -> Verdict
    ensures { result ≡ verdict_of most claim width }
{
    match claim {
        Claim::Lowest(height) => Verdict::Lowest { height, width },
        Claim::Bounded(height, lower) => Verdict::Bounded {
            height,
            lower,
            width,
        },
        Claim::Narrow(least) => Verdict::Narrow { least, width: most },
    }
}

/// Judges what the text of a certificate was read as, for what is asked of the table.
fn judge<R: Threads + Sync, G: Gate>(
    run: &Run<'_, R, G>,
    task: &Task,
    given: &Given,
    certificate: &Result<Certificate, CertError>,
) -> Result<Verdict, AllocError>
    requires usable { IsUsableTable task.now given.now.table given.now.budget }
    requires written { IfOk certificate.now IsWritable }
    ensures { IfOk result (λ verdict. (text : List ℕ) → IsReadAs text certificate.now
        → IsJudged task.now given.now.table text verdict) }
{
    let Given { table, budget } = given;
    let certificate = match certificate {
        Ok(certificate) => certificate,
        Err(error) => return rejected(text_rejection(error)),
    };
    match verify(run, table, task.style, task.width, *budget, certificate) {
        Ok(_) => {
            lowest_is_least();
            bounded_is_between();
            narrow_is_too_wide();
            budget_closes();
            open_spends();
            Ok(shown(task, certificate))
        }
        Err(reject) => rejected(step_rejection(reject)),
    }
}

/// Bytes and the text of their certificate of fewer bytes than these together are small: to read them, or to give back their
/// memory, takes less than a thread costs.
const SMALL_BYTES: usize = 65_536;

/// Whether the bytes and the text of their certificate are small.
fn are_small(bytes: &[u8], text: &[u8]) -> bool {
    bytes.len().saturating_add(text.len()) < SMALL_BYTES
}

/// Reads the bytes and the text of a certificate, at one time unless they are small.
fn read_both<R: Threads + Sync, G: Gate>(
    run: &Run<'_, R, G>,
    task: &Task,
    bytes: &[u8],
    text: &[u8],
) -> (Result<Input, AllocError>, Result<Certificate, CertError>)
    requires { IsTaskInRange task.now }
    ensures given { IfOk result.0 (GivesInput task.now bytes.now) }
    ensures usable { IfOk result.0 (IsUsable task.now) }
    ensures read { IsReadAs text.now result.1 }
{
    let alloc = run.alloc;
    if are_small(bytes, text) {
        return (read_input(alloc, task, bytes), read(alloc, text));
    }
    let input = || -> Result<Input, AllocError>
        requires { IsTaskInRange task.now }
        ensures { IfOk result (λ input. GivesInput task.entry.now bytes.entry.now input × IsUsable task.entry.now input) }
    { read_input(alloc, task, bytes) };
    let certificate = || -> Result<Certificate, CertError>
        ensures { IsReadAs text.entry.now result }
    { read(alloc, text) };
    thread::join(run.rt, input, certificate)
}

/// Gives back the memory of a table and of what its certificate was read as, both at one time if it is worth a
/// thread.
fn give_back<R: Threads>(
    rt: &R,
    at_once: bool,
    given: Given,
    certificate: Result<Certificate, CertError>,
) {
    if at_once {
        thread::join(rt, move || drop(given), move || drop(certificate));
    }
}
