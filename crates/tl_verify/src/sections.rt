//! Judges the sections of a certificate: first their order, and then each of those that are in order, so
//! many at once.

ghost use Rattle.std.specs.Prelude.{◌≡◌, ℕ, ◌+◌, ◌<◌, ◌≤◌, ◌↔◌, length, take, get_or, IfOk, IfErr, IsTrue, alloc_error, option_map, vec_len};
ghost use Rattle.tl_base.specs.Returned.{IsMemoryOr};
ghost use Rattle.tl_cert.specs.declared.certificate.Certificate.{Certificate};
ghost use Rattle.tl_cert.specs.declared.section.Section.{Section};
ghost use Rattle.tl_cert.specs.Text.{IsWritable};
ghost use Rattle.tl_form.specs.Expected.{AreDueInOrder};
ghost use Rattle.tl_form.specs.Failures.{IsGoodUpTo};
ghost use Rattle.tl_form.specs.Valid.{AreWhole, HasLog, HasTrace};
ghost use Rattle.tl_verify.specs.declared.reject.Reject.TheVariants.{Memory};
ghost use Rattle.tl_verify.specs.Verdicts.{IsReason};
ghost use Rattle.tl_verify.specs.inner.Sections.{AreJudged, IsFirstRefusal, IsInOrderTo, IsSectionJudged, IsDueOrder, IsUnshown};
ghost use Rattle.tl_form.specs.Nested.{IsSectionInRange};
ghost use Rattle.tl_form.specs.Subjects.{IsSubject, due_of, meant};

use crate::reject::Reject;
use std::alloc::Global;
use std::thread::Threads;
use tl_base::Gate;
use tl_cert::{Certificate, Section};
use tl_check::Checker;
use tl_fan::{Run, fan_out, places};
use tl_form::{Due, Subject, lay};
use tl_problem::Problem;

/// How far the sections are in order: so many from the first on are each the one that is due, and this is
/// due after them.
#[derive(Clone, Copy)]
struct Order {
    count: u32,
    due: Option<Due>,
}

/// How far the sections of a certificate are in order.
fn in_order(subject: &Subject, certificate: &Certificate) -> Order
    requires subject { IsSubject subject.now }
    requires written { IsWritable certificate.now }
    requires start { (budget : ℕ) × IsGoodUpTo (meant subject.now) budget certificate.now 0 }
    ensures { IsDueOrder (meant subject.now) certificate.now.sections result.count (option_map due_of result.due) }
{
    let sections = certificate.sections.as_slice();
    let count = sections.len() as u32;
    let mut due = Some(subject.first_due());
    for number in 0..count {
        let Some(now) = due else {
            return Order { count: number, due };
        };
        let section = &sections[number as usize];
        if section.table != now.table || section.width != now.width {
            return Order { count: number, due };
        }
        due = subject.due_after(section);
    }
    Order { count, due }
}

/// Checks the trace and the log of the section with this number.
fn check(
    alloc: Global,
    problem: &Problem,
    section: &Section,
    budget: u32,
    number: u32,
) -> Result<(), Reject>
    requires { IsSectionInRange section.now }
    ensures traced { IfOk result (λ _. HasTrace budget section.now problem.now) }
    ensures logged { IfOk result (λ _. HasLog section.now problem.now) }
    ensures wrong { IfErr result (IsMemoryOr (Memory alloc_error) (IsUnshown problem.now section.now budget number)) }
{
    let cuts = section.trace.len() as u32;
    let mut checker = Checker::reserve(alloc, problem, cuts)?;
    if !checker.worked(problem, section, budget) {
        return Err(Reject::Trace(number));
    }
    match checker.log(problem, &section.trace, &section.log, section.lower) {
        Ok(()) => Ok(()),
        Err(line) => Err(Reject::Line(number, line)),
    }
}

/// Judges the section with this number, which is the one that is due, on those before it as they are
/// written: it has a placement, a trace and a log. An error names what it lacks, where all those before
/// it are good; else it may name anything, as an error of one of them comes first.
fn judge(
    alloc: Global,
    subject: &Subject,
    budget: u32,
    certificate: &Certificate,
    number: u32,
) -> Result<(), Reject>
    requires subject { IsSubject subject.now }
    requires small { (d : Section) → IsSectionInRange (get_or certificate.now.sections number d) }
    requires there { number < length certificate.now.sections }
    requires start { IsGoodUpTo (meant subject.now) budget certificate.now 0 }
    requires order { AreDueInOrder (meant subject.now) certificate.now.sections (number + 1) }
    ensures { IsSectionJudged (meant subject.now) budget certificate.now number result }
{
    let sections = certificate.sections.as_slice();
    let section = &sections[number as usize];
    let before = &sections[..number as usize];
    let table = subject.table_of(section.table);
    let Some(laid) = lay(alloc, table, subject.style, before, section)? else {
        return Err(Reject::Layout(number));
    };
    check(alloc, &laid.problem, section, budget, number)
}

/// The first error among the results, if there is one.
fn first_refusal(judged: Vec<Result<(), Reject>>) -> Result<(), Reject>
    ensures { IsFirstRefusal judged.items result }
{
    for one in judged {
        match one {
            Ok(()) => {}
            Err(error) => return Err(error),
        }
    }
    Ok(())
}

/// About how many nanoseconds a section takes for each place of its page, and each cut and line that it has, as
/// measured on sections of 30 rows.
const SIZE_TIME: u64 = 50;

/// About how many microseconds it takes to judge so many sections from the first on, as far as their sizes
/// tell it. No contract depends on it: it tells only whether they are small enough to be judged one after
/// the other.
fn effort_of(certificate: &Certificate, count: u32) -> u64
    requires { count ≤ length certificate.now.sections }
{
    let mut size = 0u64;
    for section in &certificate.sections.as_slice()[..count as usize] {
        let page = u64::from(section.height).saturating_mul(u64::from(section.width));
        let lines = section.trace.len().saturating_add(section.log.len()) as u64;
        size = size.saturating_add(page).saturating_add(lines);
    }
    size.saturating_mul(SIZE_TIME) / 1000
}

/// Judges so many sections from the first on, which are in order, as many at once as the run has workers: the
/// error of the first one that is not good, if there is one.
fn judge_each<R: Threads + Sync, G: Gate>(
    run: &Run<'_, R, G>,
    subject: &Subject,
    budget: u32,
    certificate: &Certificate,
    count: u32,
) -> Result<(), Reject>
    requires subject { IsSubject subject.now }
    requires written { IsWritable certificate.now }
    requires start { IsGoodUpTo (meant subject.now) budget certificate.now 0 }
    requires there { count ≤ length certificate.now.sections }
    requires order { AreDueInOrder (meant subject.now) certificate.now.sections count }
    ensures good { IfOk result (λ _. IsGoodUpTo (meant subject.now) budget certificate.now count) }
    ensures wrong { IfErr result (IsMemoryOr (Memory alloc_error) (IsReason (meant subject.now) budget certificate.now)) }
{
    let piece = |number: u32| -> Result<(), Reject>
        requires { (number < length certificate.now.sections) × IsSubject subject.now × IsWritable certificate.now
            × IsGoodUpTo (meant subject.now) budget certificate.now 0
            × AreDueInOrder (meant subject.now) certificate.now.sections (number + 1) }
        ensures { IsSectionJudged (meant subject.entry.now) budget certificate.entry.now number result }
    { judge(run.alloc, subject, budget, certificate, number) };
    let numbers = places(run.alloc, count)?;
    let effort = effort_of(certificate, count);
    let judged = fan_out(run, numbers.as_slice(), effort, &piece)?;
    first_refusal(judged)
}

/// Judges all sections: each is the one that is due and good, and none is missing or left. As many of them are
/// judged at once as the run has workers, each behind the gate by its number.
pub fn judge_all<R: Threads + Sync, G: Gate>(
    run: &Run<'_, R, G>,
    subject: &Subject,
    budget: u32,
    certificate: &Certificate,
) -> Result<(), Reject>
    requires subject { IsSubject subject.now }
    requires written { IsWritable certificate.now }
    requires start { IsGoodUpTo (meant subject.now) budget certificate.now 0 }
    ensures whole { IfOk result (λ _. AreWhole (meant subject.now) budget certificate.now.sections) }
    ensures wrong { IfErr result (IsMemoryOr (Memory alloc_error) (IsReason (meant subject.now) budget certificate.now)) }
{
    let Order { count, due } = in_order(subject, certificate);
    judge_each(run, subject, budget, certificate, count)?;
    if let Some(now) = due {
        return Err(Reject::Missing(now.table));
    }
    if (count as usize) < certificate.sections.len() {
        return Err(Reject::Extra(count));
    }
    Ok(())
}
