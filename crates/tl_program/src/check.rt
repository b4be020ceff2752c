//! The own part of `check`: what the certificate in its file comes to for the bytes of the other file.

ghost use Rattle.std.specs.Prelude.{◌≡◌, ◌⊎◌, ◌≤◌, IfOk, length};
ghost use Rattle.tl_base.specs.Desk.{Rose};
ghost use Rattle.tl_command.specs.Ask.{asked_by};
ghost use Rattle.tl_lay.specs.Inputs.{IsTaskInRange, IsUsableTable};
ghost use Rattle.tl_program.specs.declared.report.Report.TheVariants as reports;
ghost use Rattle.tl_program.specs.Asks.{judged_name};
ghost use Rattle.tl_program.specs.Checks.{IsJudgedIn};
ghost use Rattle.tl_program.specs.ReadFaults.{FailsToJudge, FailsToLoad};
ghost use Rattle.tl_program.specs.Tasks.{task_of};
ghost use Rattle.tl_program.specs.inner.Steps.{ReportsOn};

use crate::input::load;
use crate::names::judged_name;
use crate::report::Report;
use crate::task::task_of;
use std::alloc::{AllocError, Global};
use std::thread::Threads;
use tl_base::{Desk, Gate, MAX_CERTIFICATE_BYTES};
use tl_command::Ask;
use tl_lay::{Given, Input, Task, check, judge_text, read_input};

/// What is reported of bytes and the certificate in the file that is named. One worker loads that file once the
/// bytes are read; where there are more, both are loaded before either is read.
pub fn checked<R: Threads + Sync, D: Desk, G: Gate>(
    rt: &R,
    alloc: Global,
    ask: &Ask<'_>,
    bytes: &[u8],
    desk: &mut D,
    gate: &G,
) -> Result<Report, AllocError>
    requires names { 2 ≤ length ask.now.names.now }
    requires range { IsTaskInRange (task_of (asked_by ask.now)) }
    ensures report { IfOk result (λ report.
        ((report ≡ reports.ReadFault) × Rose (D.load_faults desk.old) (D.load_faults desk.new))
        ⊎ ReportsOn (task_of (asked_by ask.now)) (λ table. IsJudgedIn (task_of (asked_by ask.now)) table
        (D.files desk.old) (judged_name (asked_by ask.now)) report) bytes.now report) }
    ensures fault { IfOk result (λ report. report ≡ reports.ReadFault
        → FailsToJudge D.Desk desk.old desk.new (task_of (asked_by ask.now)) bytes.now (judged_name (asked_by ask.now))) }
    ensures files_stay { D.files desk.new ≡ D.files desk.old }
    ensures said_stays { D.said desk.new ≡ D.said desk.old }
    ensures writes_stay { D.write_faults desk.new ≡ D.write_faults desk.old }
{
    let task = task_of(ask);
    if task.workers > 1 {
        return checked_at_once(rt, alloc, ask, bytes, desk, gate);
    }
    match read_input(alloc, &task, bytes)? {
        Input::Table(given) => judged_file(rt, alloc, ask, &given, desk, gate),
        Input::Refused(refusal) => Ok(Report::Refused(refusal)),
    }
}

/// What is reported of the certificate in the file that is named, for a table.
fn judged_file<R: Threads + Sync, D: Desk, G: Gate>(
    rt: &R,
    alloc: Global,
    ask: &Ask<'_>,
    given: &Given,
    desk: &mut D,
    gate: &G,
) -> Result<Report, AllocError>
    requires names { 2 ≤ length ask.now.names.now }
    requires usable { IsUsableTable (task_of (asked_by ask.now)) given.now.table given.now.budget }
    ensures report { IfOk result (λ report.
        ((report ≡ reports.ReadFault) × Rose (D.load_faults desk.old) (D.load_faults desk.new))
        ⊎ IsJudgedIn (task_of (asked_by ask.now)) given.now.table (D.files desk.old) (judged_name (asked_by ask.now)) report) }
    ensures fault { IfOk result (λ report. report ≡ reports.ReadFault
        → FailsToLoad D.Desk desk.old desk.new (judged_name (asked_by ask.now))) }
    ensures files_stay { D.files desk.new ≡ D.files desk.old }
    ensures said_stays { D.said desk.new ≡ D.said desk.old }
    ensures writes_stay { D.write_faults desk.new ≡ D.write_faults desk.old }
{
    let Some(text) = load(desk, judged_name(ask), MAX_CERTIFICATE_BYTES as u32)? else {
        return Ok(Report::ReadFault);
    };
    let verdict = judge_text(rt, alloc, &task_of(ask), given, text.as_slice(), gate)?;
    Ok(Report::of_verdict(verdict))
}

/// What is reported of bytes and the certificate in the file that is named, where that is loaded before the bytes
/// are read.
fn checked_at_once<R: Threads + Sync, D: Desk, G: Gate>(
    rt: &R,
    alloc: Global,
    ask: &Ask<'_>,
    bytes: &[u8],
    desk: &mut D,
    gate: &G,
) -> Result<Report, AllocError>
    requires names { 2 ≤ length ask.now.names.now }
    requires range { IsTaskInRange (task_of (asked_by ask.now)) }
    ensures report { IfOk result (λ report.
        ((report ≡ reports.ReadFault) × Rose (D.load_faults desk.old) (D.load_faults desk.new))
        ⊎ ReportsOn (task_of (asked_by ask.now)) (λ table. IsJudgedIn (task_of (asked_by ask.now)) table
        (D.files desk.old) (judged_name (asked_by ask.now)) report) bytes.now report) }
    ensures fault { IfOk result (λ report. report ≡ reports.ReadFault
        → FailsToJudge D.Desk desk.old desk.new (task_of (asked_by ask.now)) bytes.now (judged_name (asked_by ask.now))) }
    ensures files_stay { D.files desk.new ≡ D.files desk.old }
    ensures said_stays { D.said desk.new ≡ D.said desk.old }
    ensures writes_stay { D.write_faults desk.new ≡ D.write_faults desk.old }
{
    let task = task_of(ask);
    let Some(text) = load(desk, judged_name(ask), MAX_CERTIFICATE_BYTES as u32)? else {
        return unread(alloc, &task, bytes);
    };
    let verdict = check(rt, alloc, &task, bytes, text.as_slice(), gate)?;
    Ok(Report::of_verdict(verdict))
}

/// What is reported of bytes whose certificate could not be loaded.
fn unread(alloc: Global, task: &Task, bytes: &[u8]) -> Result<Report, AllocError>
    requires { IsTaskInRange task.now }
    ensures { IfOk result (λ report. ReportsOn task.now (λ table. report ≡ reports.ReadFault) bytes.now report) }
{
    match read_input(alloc, task, bytes)? {
        Input::Table(_) => Ok(Report::ReadFault),
        Input::Refused(refusal) => Ok(Report::Refused(refusal)),
    }
}
