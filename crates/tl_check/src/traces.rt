//! Traces: whether each cut is of a zone that stands, and splits the classes of a span in two.

ghost use Rattle.std.specs.Prelude.{◌≡◌, ◌+◌, ◌*◌, ◌<◌, ◌≤◌, length, IsTrue, ◌↔◌, true};
ghost use Rattle.tl_problem.specs.Zones.{whole_zone};
ghost use Rattle.tl_cert.specs.Traces.{IsCut, IsTraceOf, Stands};
ghost use Rattle.tl_check.specs.inner.Traces.{AreFlags};

use crate::nogoods::is_zone_of;
use crate::zones::zone_range;
use tl_cert::CutAt;
use tl_problem::Problem;

/// Whether the cuts are a trace. If so, the flags tell of each zone whether it was cut.
pub fn is_trace(problem: &Problem, trace: &[CutAt], is_cut: &mut [bool]) -> bool
    requires room { 2 * length trace.now + 1 ≤ length is_cut.old }
    ensures trace { IsTrue result ↔ IsTraceOf problem.now trace.now }
    ensures flags { result ≡ true → AreFlags trace.now is_cut.new }
{
    is_cut.fill(false);
    for i in 0..trace.len() {
        let cut = trace[i];
        if !is_cut_after(problem, &trace[..i], cut, is_cut) {
            return false;
        }
        is_cut[cut.zone as usize] = true;
    }
    true
}

/// Whether the cut is one after those before it.
fn is_cut_after(problem: &Problem, before: &[CutAt], cut: CutAt, is_cut: &[bool]) -> bool
    requires trace { IsTraceOf problem.now before.now }
    requires flags { AreFlags before.now is_cut.now }
    ensures { IsTrue result ↔ IsCut (whole_zone problem.now) before.now cut }
{
    if !stands(before, cut.zone, is_cut) || cut.span as usize >= problem.spans().len() {
        return false;
    }
    let range = zone_range(problem, before, cut.zone, cut.span);
    range.first <= cut.class && cut.class < range.last
}

/// Whether the zone is there and not cut.
pub fn stands(trace: &[CutAt], zone: u32, is_cut: &[bool]) -> bool
    requires flags { AreFlags trace.now is_cut.now }
    ensures { IsTrue result ↔ Stands trace.now zone }
{
    is_zone_of(trace, zone) && !is_cut[zone as usize]
}
