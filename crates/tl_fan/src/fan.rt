//! Pieces of work in groups. The pieces of one group run at once, and the next group begins after their join.

ghost use Rattle.std.specs.Prelude.{◌≡◌, ◌≤◌, IfOk, Ok};
ghost use denote.Param.Send.{IsSync, IsSend};
ghost use Rattle.std.specs.List.{All, AllZip, range_with_len};

use crate::Run;
use std::alloc::{AllocError, Global};
use std::thread;
use std::thread::Threads;
use tl_base::Gate;

/// The numbers of so many pieces, from 0.
pub fn places(alloc: Global, count: u32) -> Result<Vec<u32>, AllocError>
    ensures { IfOk result (λ numbers. numbers.items ≡ range_with_len 0 count) }
{
    let mut numbers = Vec::new(alloc);
    for number in 0..count {
        numbers.push(number)?;
    }
    Ok(numbers)
}

/// What one piece gives. It passes the gate once, before it begins.
fn done<G: Gate, X: Drop, F: Fn(u32) -> X>(gate: &G, number: u32, piece: &F) -> X
    requires { F.pre piece.now number }
    ensures { F.post piece.now number result }
{
    gate.pass(number);
    piece(number)
}

/// What the pieces of one group give, in the order of their numbers. All of them run at once: the first in
/// this thread, and each other in one of its own, the last begun first. This thread begins all others, one
/// after the other. Two that are begun by two threads at one time may be given the same processor, and
/// keep it for some 30 milliseconds while another has nothing to do.
#[cycle(threads)]
fn at_once<R: Threads + Sync, G: Gate, X: Send + Drop, F: Fn(u32) -> X + Sync>(
    run: &Run<'_, R, G>,
    numbers: &[u32],
    piece: &F,
) -> Result<Vec<X>, AllocError>
    requires { All (λ number. F.pre piece.now number) numbers.now }
    ensures { IfOk result (λ found. AllZip (λ number one. F.post piece.now number one) numbers.now found.items) }
{
    let mut found = Vec::new(run.alloc);
    let Some((&last, others)) = numbers.split_last() else {
        return Ok(found);
    };
    if others.is_empty() {
        found.push(done(run.gate, last, piece))?;
        return Ok(found);
    }
    let one = || -> X
        requires { F.pre piece.now last }
        ensures { F.post piece.entry.now last result }
    { done(run.gate, last, piece) };
    let before = || -> Result<Vec<X>, AllocError>
        requires { IsSync R.row × IsSync F.row × IsSend X.row × All (λ number. F.pre piece.now number) others.now }
        ensures { IfOk result (λ found. AllZip (λ number one. F.post piece.entry.now number one) others.entry.now found.items) }
    { at_once(run, others, piece) };
    let (one, before) = thread::join(run.rt, one, before);
    let mut found = before?;
    found.push(one)?;
    Ok(found)
}

/// How many microseconds a thread costs the one that starts it and waits for its end.
const THREAD_COST: u64 = 50;

/// How many microseconds a group costs beside its pieces: until the last of its threads has begun, and the one
/// that waits for them goes on. Measured with groups of two and of four.
const GROUP_COST: u64 = 200;

/// Whether pieces that take so many microseconds on average are done sooner one after the other than in
/// groups of `workers`.
fn are_small(average: u64, workers: u32) -> bool {
    let others = u64::from(workers).saturating_sub(1);
    average < THREAD_COST || average.saturating_mul(others) < GROUP_COST
}

/// How many pieces each group after the first has: `workers`, or one where so many pieces, which take about
/// so many microseconds together, are small.
fn later_group(count: usize, effort: u64, workers: u32) -> usize
    requires { 1 ≤ workers }
    ensures { 1 ≤ result }
{
    if are_small(effort / (count as u64).max(1), workers) {
        1
    } else {
        workers as usize
    }
}

/// What the pieces of these numbers give, in their order. They run in groups of as many as the run has workers:
/// those of one group at once, where so many threads can be made, and the next group begins when all of them have
/// ended.
/// Where the pieces are small, those after the first group run one after the other, as a thread costs more.
/// `effort` tells how many microseconds all of them take, as far as it is known before. Each piece passes
/// the gate once, before it begins, by its number.
pub fn fan_out<R: Threads + Sync, G: Gate, X: Send + Drop, F: Fn(u32) -> X + Sync>(
    run: &Run<'_, R, G>,
    numbers: &[u32],
    effort: u64,
    piece: &F,
) -> Result<Vec<X>, AllocError>
    requires { All (λ number. F.pre piece.now number) numbers.now }
    ensures { IfOk result (λ found. AllZip (λ number one. F.post piece.now number one) numbers.now found.items) }
{
    let later = later_group(numbers.len(), effort, run.workers);
    let mut group = run.workers as usize;
    let mut found = Vec::new(run.alloc);
    let mut from = 0;
    while from < numbers.len() {
        let upto = from + group.min(numbers.len() - from);
        let mut more = at_once(run, &numbers[from..upto], piece)?;
        found.append(&mut more)?;
        from = upto;
        group = later;
    }
    Ok(found)
}

/// The same for pieces that may run out of memory: what they give, or out of memory where one of them is.
pub fn gather<
    R: Threads + Sync,
    G: Gate,
    X: Send + Drop,
    F: Fn(u32) -> Result<X, AllocError> + Sync,
>(run: &Run<'_, R, G>, numbers: &[u32], effort: u64, piece: &F) -> Result<Vec<X>, AllocError>
    requires { All (λ number. F.pre piece.now number) numbers.now }
    ensures { IfOk result (λ found. AllZip (λ number one. F.post piece.now number (Ok one)) numbers.now found.items) }
{
    let results = fan_out(run, numbers, effort, piece)?;
    let mut found = Vec::new(run.alloc);
    for result in results {
        found.push(result?)?;
    }
    Ok(found)
}
