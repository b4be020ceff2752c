//! The checker of one problem: room for its traces and logs, made once.

ghost use Rattle.std.specs.Prelude.{◌+◌, ◌*◌, ◌<◌, ◌≤◌, ◌^◌, length, IfOk, IfErr, IsOk, IsTrue, ◌↔◌};
ghost use Rattle.tl_cert.specs.Lines.{IsGoodLine, IsGoodLog};
ghost use Rattle.tl_cert.specs.Traces.{IsTraceOf};
ghost use Rattle.tl_cert.specs.Worked.{IsWorked};
ghost use Rattle.tl_check.specs.Checkers.{IsReserved, StaysReserved};
ghost use Rattle.tl_check.specs.Verdicts.{IsFirstBad, IsGoodAt};

use crate::line::is_good_line;
use crate::nogoods::is_empty_nogood;
use crate::traces::is_trace;
use crate::worked::is_worked;
use std::alloc::{AllocError, Global};
use tl_base::MAX_BUDGET;
use tl_cert::{Log, LogLine, Section, Trace};
use tl_problem::{Problem, Work};

/// A checker of traces and logs of one problem. `reserve` makes all its room; no other call takes
/// memory. What it keeps between calls is the same for every trace and log.
#[derive(Debug)]
pub struct Checker {
    /// The constraints of the problem's page, and buffers.
    work: Work,
    /// The height of the opening, in lines.
    opening: u32,
    /// For each zone of a trace whether it was cut.
    is_cut: Vec<bool>,
}

impl Drop for Checker {
    fn drop(self) {
        let Checker {
            work: _work,
            opening: _opening,
            is_cut: _is_cut,
        } = self;
    }
}

impl Checker {
    /// A checker of the problem, with room for traces of so many cuts.
    pub fn reserve(alloc: Global, problem: &Problem, cuts: u32) -> Result<Checker, AllocError>
        requires { cuts ≤ MAX_BUDGET }
        ensures { IfOk result (IsReserved problem.now cuts) }
    {
        let work = Work::new(problem)?;
        let opening = problem.opening()?.height;
        let is_cut = vec![in alloc; false; 2 * cuts as usize + 1]?;
        Ok(Checker {
            work,
            opening,
            is_cut,
        })
    }

    /// Whether each cut is of a zone that stands then, and splits its classes of a span in two that have
    /// some. The checker is reserved for this problem and at least so many cuts, as for each call.
    pub fn trace(&mut self, problem: &Problem, trace: &Trace) -> bool
        requires { IsReserved problem.now (length trace.now) self.old }
        ensures trace { IsTrue result ↔ IsTraceOf problem.now trace.now }
        ensures stays { StaysReserved problem.now self.old self.new }
    {
        is_trace(problem, trace.as_slice(), &mut self.is_cut)
    }

    /// Whether the line with number `k` of the log is good for `lower`: no layout that is lower meets
    /// the bounds of its nogood.
    pub fn line(&mut self, problem: &Problem, trace: &Trace, log: &Log, k: u32, lower: u32) -> bool
        requires reserved { IsReserved problem.now (length trace.now) self.old }
        requires trace { IsTraceOf problem.now trace.now }
        requires number { k < length log.now }
        ensures good { IsTrue result ↔ IsGoodAt problem.now trace.now log.now lower k }
        ensures stays { StaysReserved problem.now self.old self.new }
    {
        let lines = log.as_slice();
        let number = k as usize;
        is_good_line(
            problem,
            trace.as_slice(),
            lines,
            number,
            &lines[number],
            lower,
            &mut self.work,
        )
    }

    /// Whether the line would be good for `lower` at the end of the log.
    pub fn tries(
        &mut self,
        problem: &Problem,
        trace: &Trace,
        log: &Log,
        line: &LogLine,
        lower: u32,
    ) -> bool
        requires reserved { IsReserved problem.now (length trace.now) self.old }
        requires trace { IsTraceOf problem.now trace.now }
        ensures good { IsTrue result ↔ IsGoodLine problem.now trace.now log.now lower (length log.now) line.now }
        ensures stays { StaysReserved problem.now self.old self.new }
    {
        let lines = log.as_slice();
        is_good_line(
            problem,
            trace.as_slice(),
            lines,
            lines.len(),
            line,
            lower,
            &mut self.work,
        )
    }

    /// Whether the log is good for `lower`: it has a line, each is good, and the nogood of the last has
    /// no bounds, so that no layout at all is lower. Otherwise the number of the first line that is not
    /// good, or the number of lines where all are.
    pub fn log(
        &mut self,
        problem: &Problem,
        trace: &Trace,
        log: &Log,
        lower: u32,
    ) -> Result<(), u32>
        requires reserved { IsReserved problem.now (length trace.now) self.old }
        requires trace { IsTraceOf problem.now trace.now }
        requires count { length log.now < 2 ^ 32 }
        ensures good { IsOk result ↔ IsGoodLog problem.now trace.now log.now lower }
        ensures bad { IfErr result (IsFirstBad problem.now trace.now log.now lower) }
        ensures stays { StaysReserved problem.now self.old self.new }
    {
        let count = log.len() as u32;
        for k in 0..count {
            if !self.line(problem, trace, log, k, lower) {
                return Err(k);
            }
        }
        match log.as_slice().last() {
            Some(line) if is_empty_nogood(problem, trace.as_slice(), &line.nogood) => Ok(()),
            _ => Err(count),
        }
    }

    /// Whether the trace of the section, with its height and its lower bound, was worked for the
    /// budget: the search ended at the budget, or with each zone closed.
    pub fn worked(&mut self, problem: &Problem, section: &Section, budget: u32) -> bool
        requires reserved { IsReserved problem.now (length section.now.trace) self.old }
        ensures worked { IsTrue result ↔ IsWorked problem.now section.now.trace section.now.height section.now.lower budget }
        ensures stays { StaysReserved problem.now self.old self.new }
    {
        let trace = section.trace.as_slice();
        if !is_trace(problem, trace, &mut self.is_cut) {
            return false;
        }
        if trace.len() > budget as usize {
            return false;
        }
        if section.lower > section.height {
            return false;
        }
        if section.lower == section.height {
            return true;
        }
        is_worked(
            problem,
            section,
            budget,
            self.opening,
            &self.is_cut,
            &mut self.work,
        )
    }
}
