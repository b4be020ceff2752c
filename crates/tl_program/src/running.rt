//! Carries out a command over a desk: one on a file begins with the bytes of the file, and goes on with its own
//! part.

ghost use Rattle.std.specs.Prelude.{◌≡◌, ◌+◌, ◌≤◌, ℕ, IfErr, IfOk, IfSome, List, length, map, string_bytes};
ghost use Rattle.tl_base.specs.declared.limits.TheConstants.{MAX_FILE_BYTES, MAX_HEIGHT};
ghost use Rattle.tl_base.specs.Desk.{IsReadFrom};
ghost use Rattle.tl_command.specs.declared.command.Command.TheVariants as commands;
ghost use Rattle.tl_command.specs.Ask.{asked_by, IsAsk};
ghost use Rattle.tl_lay.specs.Inputs.{IsTaskInRange};
ghost use Rattle.tl_program.specs.declared.status.Status.TheVariants as statuses;
ghost use Rattle.tl_program.specs.Accepts.{AcceptsSlim, AcceptsTidy};
ghost use Rattle.tl_program.specs.Alike.{ChecksAlike, LowestAlike, RefusalsAlike, TidyAlike};
ghost use Rattle.tl_program.specs.Answered.{LaysFile, NarrowsFile, TidiesFile};
ghost use Rattle.tl_program.specs.Asks.{input_name};
ghost use Rattle.tl_program.specs.Change.{between};
ghost use Rattle.tl_program.specs.Complete.{AcceptsLaid, IsAcceptedSo, IsComplete, IsRefusedSo, IsRejectedSo};
ghost use Rattle.tl_program.specs.Complete.{FindsTidy, FindsWidth, RefusesSlim, RefusesTidy};
ghost use Rattle.tl_program.specs.Headline.{Ends};
ghost use Rattle.tl_program.specs.Messages.{status_number};
ghost use Rattle.tl_program.specs.ReadFaults.{FailsToLoad, FailsToRead, IsReadFault};
ghost use Rattle.tl_program.specs.Tasks.{slim_task, task_of};
ghost use Rattle.tl_program.specs.inner.Steps.{EndsUnread};

use crate::answers::deliver_result;
use crate::check::checked;
use crate::input::load;
use crate::names::input_name;
use crate::output::{deliver, print};
use crate::report::Report;
use crate::settling::{fitted_in, settled};
use crate::status::Status;
use crate::task::{task_of, task_on};
use std::alloc::Global;
use std::thread::Threads;
use tl_base::{Desk, Gate, List, MAX_FILE_BYTES, MAX_PAGE_WIDTH};
use tl_command::{Ask, Command};
use tl_lay::{
    demonstrate, laid_is_lowest, lay, narrow, narrowed_is_narrowest, tidied_is_tidiest, tidy,
};
use tl_narrow::met_is_slimmest;
use tl_solve::Watcher;

/// Carries out the arguments of the command line over the desk, and returns the exit status; where memory
/// runs out that is 9. What workers search or judge at one time passes the gate, piece by piece, once before it
/// begins.
pub fn run<R: Threads + Sync, D: Desk, G: Gate + Watcher>(
    rt: &R,
    alloc: Global,
    words: &[String],
    desk: &mut D,
    gate: &G,
) -> u8
    ensures lays { LaysFile (map string_bytes words.now) (between D.Desk desk.old desk.new) result }
    ensures narrows { NarrowsFile (map string_bytes words.now) (between D.Desk desk.old desk.new) result }
    ensures tidies { TidiesFile (map string_bytes words.now) (between D.Desk desk.old desk.new) result }
    ensures ends { Ends (map string_bytes words.now) (between D.Desk desk.old desk.new) result }
    ensures read_fault { IsReadFault D.Desk desk.old desk.new (map string_bytes words.now) result }
    ensures complete { IsComplete (map string_bytes words.now) (between D.Desk desk.old desk.new) result }
    ensures refused { IsRefusedSo (map string_bytes words.now) (between D.Desk desk.old desk.new) result }
    ensures accepted { IsAcceptedSo (map string_bytes words.now) (between D.Desk desk.old desk.new) result }
    ensures rejected { IsRejectedSo (map string_bytes words.now) (between D.Desk desk.old desk.new) result }
    ensures accepts_laid { AcceptsLaid (map string_bytes words.now) (between D.Desk desk.old desk.new) result }
    ensures finds { FindsWidth (map string_bytes words.now) (between D.Desk desk.old desk.new) result }
    ensures refuses_slim { RefusesSlim (map string_bytes words.now) (between D.Desk desk.old desk.new) result }
    ensures accepts_slim { AcceptsSlim (map string_bytes words.now) (between D.Desk desk.old desk.new) result }
    ensures finds_tidy { FindsTidy (map string_bytes words.now) (between D.Desk desk.old desk.new) result }
    ensures refuses_tidy { RefusesTidy (map string_bytes words.now) (between D.Desk desk.old desk.new) result }
    ensures accepts_tidy { AcceptsTidy (map string_bytes words.now) (between D.Desk desk.old desk.new) result }
    ensures checks_alike { ChecksAlike (map string_bytes words.now) (between D.Desk desk.old desk.new) result }
    ensures refusals_alike { RefusalsAlike (map string_bytes words.now) (between D.Desk desk.old desk.new) result }
    ensures tidy_alike { TidyAlike (map string_bytes words.now) (between D.Desk desk.old desk.new) result }
    ensures lowest_alike { LowestAlike (map string_bytes words.now) (between D.Desk desk.old desk.new) result }
{
    laid_is_lowest();
    narrowed_is_narrowest();
    tidied_is_tidiest();
    met_is_slimmest();
    carry_out(rt, alloc, words, desk, gate).number()
}

/// Carries out the command that the arguments ask for.
fn carry_out<R: Threads + Sync, D: Desk, G: Gate + Watcher>(
    rt: &R,
    alloc: Global,
    words: &[String],
    desk: &mut D,
    gate: &G,
) -> Status
    ensures ends { Ends (map string_bytes words.now)
        (between D.Desk desk.old desk.new) (status_number result) }
    ensures read_fault { IsReadFault D.Desk desk.old desk.new (map string_bytes words.now) (status_number result) }
{
    let Some(ask) = Ask::parse(words) else {
        return print(desk, Status::Usage, b"usage\n");
    };
    match ask.command {
        Command::Lay => lay_file(rt, alloc, &ask, desk, gate),
        Command::Narrow => narrow_file(rt, alloc, &ask, desk, gate),
        Command::Tidy => tidy_file(rt, alloc, &ask, desk, gate),
        Command::Check => check_file(rt, alloc, &ask, desk, gate),
        Command::Demo => demonstrate_table(rt, alloc, &ask, desk, gate),
    }
}

/// Lays out the table of the file.
fn lay_file<R: Threads + Sync, D: Desk, G: Gate + Watcher>(
    rt: &R,
    alloc: Global,
    ask: &Ask<'_>,
    desk: &mut D,
    gate: &G,
) -> Status
    requires command { ask.now.command ≡ commands.Lay }
    requires names { 2 ≤ length ask.now.names.now }
    requires range { IsTaskInRange (task_of (asked_by ask.now)) }
    ensures ends { (words : List (List ℕ)) → IsAsk words (asked_by ask.now) → Ends words
        (between D.Desk desk.old desk.new) (status_number result) }
    ensures read_fault { result ≡ statuses.ReadFault → FailsToRead D.Desk desk.old desk.new (asked_by ask.now) }
{
    match load_input(alloc, ask, desk) {
        Ok(bytes) => {
            let bytes = bytes.as_slice();
            let Ok(ask) = settled(alloc, ask, bytes) else {
                return Status::Memory;
            };
            let task = task_of(&ask);
            let answer = lay(rt, alloc, &task, bytes, gate);
            deliver_result(alloc, &ask, desk, answer)
        }
        Err(status) => status,
    }
}

/// Looks for the narrowest page of the table of the file that has at most so many lines.
fn narrow_file<R: Threads + Sync, D: Desk, G: Gate + Watcher>(
    rt: &R,
    alloc: Global,
    ask: &Ask<'_>,
    desk: &mut D,
    gate: &G,
) -> Status
    requires command { ask.now.command ≡ commands.Narrow }
    requires names { 2 ≤ length ask.now.names.now }
    requires range { IsTaskInRange (slim_task (asked_by ask.now)) }
    requires lines { ask.now.number ≤ MAX_HEIGHT }
    ensures ends { (words : List (List ℕ)) → IsAsk words (asked_by ask.now) → Ends words
        (between D.Desk desk.old desk.new) (status_number result) }
    ensures read_fault { result ≡ statuses.ReadFault → FailsToRead D.Desk desk.old desk.new (asked_by ask.now) }
{
    match load_input(alloc, ask, desk) {
        Ok(bytes) => {
            let bytes = bytes.as_slice();
            let Ok(ask) = settled(alloc, ask, bytes) else {
                return Status::Memory;
            };
            let task = task_on(&ask, MAX_PAGE_WIDTH);
            let answer = narrow(rt, alloc, &task, ask.number, bytes, gate);
            deliver_result(alloc, &ask, desk, answer)
        }
        Err(status) => status,
    }
}

/// Lays out the table of the file as low and then as narrow as can be.
fn tidy_file<R: Threads + Sync, D: Desk, G: Gate + Watcher>(
    rt: &R,
    alloc: Global,
    ask: &Ask<'_>,
    desk: &mut D,
    gate: &G,
) -> Status
    requires command { ask.now.command ≡ commands.Tidy }
    requires names { 2 ≤ length ask.now.names.now }
    requires range { IsTaskInRange (task_of (asked_by ask.now)) }
    ensures ends { (words : List (List ℕ)) → IsAsk words (asked_by ask.now) → Ends words
        (between D.Desk desk.old desk.new) (status_number result) }
    ensures read_fault { result ≡ statuses.ReadFault → FailsToRead D.Desk desk.old desk.new (asked_by ask.now) }
{
    match load_input(alloc, ask, desk) {
        Ok(bytes) => {
            let bytes = bytes.as_slice();
            let Ok(ask) = settled(alloc, ask, bytes) else {
                return Status::Memory;
            };
            let task = task_of(&ask);
            let answer = tidy(rt, alloc, &task, bytes, gate);
            deliver_result(alloc, &ask, desk, answer)
        }
        Err(status) => status,
    }
}

/// Judges the certificate of the table of the file.
fn check_file<R: Threads + Sync, D: Desk, G: Gate + Watcher>(
    rt: &R,
    alloc: Global,
    ask: &Ask<'_>,
    desk: &mut D,
    gate: &G,
) -> Status
    requires command { ask.now.command ≡ commands.Check }
    requires names { 2 ≤ length ask.now.names.now }
    requires range { IsTaskInRange (task_of (asked_by ask.now)) }
    ensures ends { (words : List (List ℕ)) → IsAsk words (asked_by ask.now) → Ends words
        (between D.Desk desk.old desk.new) (status_number result) }
    ensures read_fault { result ≡ statuses.ReadFault → FailsToRead D.Desk desk.old desk.new (asked_by ask.now) }
{
    match load_input(alloc, ask, desk) {
        Ok(bytes) => {
            let bytes = bytes.as_slice();
            let Ok(ask) = settled(alloc, ask, bytes) else {
                return Status::Memory;
            };
            match checked(rt, alloc, &ask, bytes, desk, gate) {
                Ok(report) => deliver(alloc, desk, report, fitted_in(&ask), &[]),
                Err(_) => Status::Memory,
            }
        }
        Err(status) => status,
    }
}

/// Loads the file of the command that is read. Where it cannot be loaded, the status with which the program ends.
fn load_input<D: Desk>(alloc: Global, ask: &Ask<'_>, desk: &mut D) -> Result<List<u8>, Status>
    requires names { 2 ≤ length ask.now.names.now }
    ensures short { IfOk result (λ bytes. length bytes ≤ MAX_FILE_BYTES + 1) }
    ensures read { IfOk result (λ bytes. IfSome (D.files desk.old)
        (λ held. IsReadFrom held (input_name (asked_by ask.now)) MAX_FILE_BYTES bytes)) }
    ensures counts { IfOk result (λ _. D.load_faults desk.new ≡ D.load_faults desk.old) }
    ensures files_stay { IfOk result (λ _. D.files desk.new ≡ D.files desk.old) }
    ensures said_stays { IfOk result (λ _. D.said desk.new ≡ D.said desk.old) }
    ensures writes_stay { IfOk result (λ _. D.write_faults desk.new ≡ D.write_faults desk.old) }
    ensures ends { IfErr result (EndsUnread (between D.Desk desk.old desk.new)) }
    ensures fault { IfErr result (λ status. status ≡ statuses.ReadFault
        → FailsToLoad D.Desk desk.old desk.new (input_name (asked_by ask.now))) }
{
    match load(desk, input_name(ask), MAX_FILE_BYTES as u32) {
        Ok(Some(bytes)) => Ok(bytes),
        Ok(None) => Err(deliver(alloc, desk, Report::ReadFault, None, &[])),
        Err(_) => Err(Status::Memory),
    }
}

/// Lays out the table of this number, checks its certificate, and prints its numbers.
fn demonstrate_table<R: Threads + Sync, D: Desk, G: Gate + Watcher>(
    rt: &R,
    alloc: Global,
    ask: &Ask<'_>,
    desk: &mut D,
    gate: &G,
) -> Status
    requires command { ask.now.command ≡ commands.Demo }
    ensures ends { (words : List (List ℕ)) → IsAsk words (asked_by ask.now) → Ends words
        (between D.Desk desk.old desk.new) (status_number result) }
    ensures read_fault { result ≡ statuses.ReadFault → FailsToRead D.Desk desk.old desk.new (asked_by ask.now) }
{
    match demonstrate(rt, alloc, ask.number, gate) {
        Ok(summary) => deliver(alloc, desk, Report::Summary(summary), None, &[]),
        Err(_) => Status::Memory,
    }
}
