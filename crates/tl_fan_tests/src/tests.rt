//! Pieces of work behind gates that see them.

ghost use Rattle.std.specs.Prelude.{◌≤◌};

use std::alloc::{AllocError, Global};
use std::process::Abort;
use std::sync::Mutex;
use std::test::Fail;
use std::thread::Threads;
use tl_base::{Gate, NoGate};
use tl_fan::{Run, fan_out, gather, places};

/// Microseconds that no pieces here take: none of them is small.
const LONG: u64 = 1_000_000_000;

/// How often a thread tries to get hold of a count.
const TURNS: u32 = 100_000_000;

/// A number that the threads of a test share. It begins with 0.
#[derive(Drop)]
struct Count {
    number: Mutex<u32>,
}

impl Count {
    fn new() -> Count {
        Count {
            number: Mutex::new(0),
        }
    }

    /// Adds so many, and returns the number before, or `None` if other threads hold it at all turns.
    fn add(&self, more: u32) -> Option<u32> {
        for _ in 0..TURNS {
            if let Some(mut number) = self.number.try_lock() {
                let before = *number;
                *number = before.wrapping_add(more);
                return Some(before);
            }
        }
        None
    }

    /// The number, or `None` if other threads hold it at all turns.
    fn number(&self) -> Option<u32> {
        self.add(0)
    }

    /// Whether the number is `least` or more at one of the turns.
    fn reaches(&self, least: u32) -> bool {
        for _ in 0..TURNS {
            if let Some(number) = self.number.try_lock() {
                if *number >= least {
                    return true;
                }
            }
        }
        false
    }
}

/// A gate at which the pieces of a group of so many meet: each comes, and waits until all of them have come.
/// The pieces from `past` on pass.
#[derive(Drop)]
struct Together {
    size: u32,
    past: u32,
    come: Count,
    met: Count,
}

impl Gate for Together {
    fn pass(&self, piece: u32) {
        if piece >= self.past {
            return;
        }
        let size = self.size.max(1);
        let all = (piece - piece % size).saturating_add(size);
        self.come.add(1);
        if self.come.reaches(all) {
            self.met.add(1);
        }
    }
}

/// A gate that counts the passes, of every fourth piece together.
#[derive(Drop)]
struct Counting {
    passed: [Count; 4],
}

impl Gate for Counting {
    fn pass(&self, piece: u32) {
        self.passed[(piece % 4) as usize].add(1);
    }
}

/// A gate that counts the passes, and the groups of so many pieces in which one comes before the group
/// before has ended.
#[derive(Drop)]
struct Grouped {
    size: u32,
    ended: Count,
    early: Count,
}

impl Gate for Grouped {
    fn pass(&self, piece: u32) {
        let before = piece - piece % self.size.max(1);
        if self.ended.number() < Some(before) {
            self.early.add(1);
        }
    }
}

/// Ten times each of the numbers, by so many workers.
fn tenfold(
    rt: &(impl Abort + Threads + Sync),
    alloc: Global,
    workers: u32,
    numbers: &[u32],
    wanted: &[u32],
) -> Result<(), Fail>
    requires { 1 ≤ workers }
{
    let run = Run {
        rt,
        alloc,
        workers,
        gate: &NoGate,
    };
    let piece = |number: u32| -> u32 { number.wrapping_mul(10) };
    let found = fan_out(&run, numbers, LONG, &piece)?;
    assert_eq!(rt; found.as_slice(), wanted);
    let small = fan_out(&run, numbers, 0, &piece)?;
    assert_eq!(rt; small.as_slice(), wanted);
    Ok(())
}

#[test]
fn results_come_in_the_order_of_the_numbers(rt: HostRuntime) -> Result<(), Fail> {
    let (rt, alloc) = (&rt, rt.alloc());
    tenfold(rt, alloc, 1, &[7, 3, 5, 3, 9], &[70, 30, 50, 30, 90])?;
    tenfold(rt, alloc, 2, &[7, 3, 5, 3, 9], &[70, 30, 50, 30, 90])?;
    tenfold(rt, alloc, 3, &[7, 3, 5, 3, 9], &[70, 30, 50, 30, 90])?;
    tenfold(rt, alloc, 16, &[7, 3, 5, 3, 9], &[70, 30, 50, 30, 90])?;
    tenfold(rt, alloc, 2, &[], &[])
}

/// So many pieces by so many workers, where those before `past` see all others of their group at work.
fn meet_at_work(
    rt: &(impl Abort + Threads + Sync),
    alloc: Global,
    workers: u32,
    count: u32,
    past: u32,
    effort: u64,
) -> Result<(), Fail>
    requires { 1 ≤ workers }
{
    let gate = Together {
        size: workers,
        past,
        come: Count::new(),
        met: Count::new(),
    };
    let piece = |number: u32| -> u32 { number };
    let numbers = places(alloc, count)?;
    let run = Run {
        rt,
        alloc,
        workers,
        gate: &gate,
    };
    let found = fan_out(&run, numbers.as_slice(), effort, &piece)?;
    assert_eq!(rt; found.as_slice(), numbers.as_slice());
    assert_eq!(rt; gate.met.number(), Some(past));
    Ok(())
}

#[test]
fn the_pieces_of_a_group_are_at_work_at_one_time(rt: HostRuntime) -> Result<(), Fail> {
    let alloc = rt.alloc();
    meet_at_work(&rt, alloc, 2, 2, 2, LONG)?;
    meet_at_work(&rt, alloc, 3, 3, 3, LONG)?;
    meet_at_work(&rt, alloc, 16, 16, 16, LONG)
}

#[test]
fn in_each_group_all_pieces_are_at_work_at_one_time(rt: HostRuntime) -> Result<(), Fail> {
    let alloc = rt.alloc();
    meet_at_work(&rt, alloc, 2, 201, 200, LONG)?;
    meet_at_work(&rt, alloc, 3, 10, 9, LONG)?;
    meet_at_work(&rt, alloc, 4, 40, 40, LONG)
}

#[test]
fn the_first_small_pieces_are_at_work_at_one_time(rt: HostRuntime) -> Result<(), Fail> {
    let alloc = rt.alloc();
    meet_at_work(&rt, alloc, 2, 16, 2, 0)?;
    meet_at_work(&rt, alloc, 3, 3, 3, 0)
}

#[test]
fn each_piece_passes_the_gate_once(rt: HostRuntime) -> Result<(), Fail> {
    let gate = Counting {
        passed: [Count::new(), Count::new(), Count::new(), Count::new()],
    };
    let piece = |number: u32| -> u32 { number };
    let numbers = places(rt.alloc(), 40)?;
    let run = Run {
        rt: &rt,
        alloc: rt.alloc(),
        workers: 3,
        gate: &gate,
    };
    fan_out(&run, &numbers.as_slice()[..4], LONG, &piece)?;
    for passed in &gate.passed {
        assert_eq!(&rt; passed.number(), Some(1));
    }
    fan_out(&run, numbers.as_slice(), LONG, &piece)?;
    for passed in &gate.passed {
        assert_eq!(&rt; passed.number(), Some(11));
    }
    fan_out(&run, numbers.as_slice(), 0, &piece)?;
    for passed in &gate.passed {
        assert_eq!(&rt; passed.number(), Some(21));
    }
    Ok(())
}

/// So many pieces by so many workers: none begins before the group before has ended.
fn groups(
    rt: &(impl Abort + Threads + Sync),
    alloc: Global,
    count: u32,
    workers: u32,
) -> Result<(), Fail>
    requires { 1 ≤ workers }
{
    let gate = Grouped {
        size: workers,
        ended: Count::new(),
        early: Count::new(),
    };
    let piece = |number: u32| -> u32 {
        gate.ended.add(1);
        number
    };
    let numbers = places(alloc, count)?;
    let run = Run {
        rt,
        alloc,
        workers,
        gate: &gate,
    };
    let found = fan_out(&run, numbers.as_slice(), LONG, &piece)?;
    assert_eq!(rt; found.as_slice(), numbers.as_slice());
    assert_eq!(rt; gate.early.number(), Some(0));
    Ok(())
}

#[test]
fn a_group_begins_after_the_one_before_has_ended(rt: HostRuntime) -> Result<(), Fail> {
    groups(&rt, rt.alloc(), 7, 1)?;
    groups(&rt, rt.alloc(), 4, 2)?;
    groups(&rt, rt.alloc(), 20, 3)?;
    groups(&rt, rt.alloc(), 201, 16)
}

#[test]
fn a_piece_out_of_memory_ends_all(rt: HostRuntime) -> Result<(), Fail> {
    let piece = |number: u32| -> Result<u32, AllocError> {
        if number == 2 {
            Err(AllocError)
        } else {
            Ok(number)
        }
    };
    let run = Run {
        rt: &rt,
        alloc: rt.alloc(),
        workers: 2,
        gate: &NoGate,
    };
    let found = gather(&run, &[0, 1, 3], LONG, &piece)?;
    assert_eq!(&rt; found.as_slice(), [0, 1, 3].as_slice());
    assert!(&rt; gather(&run, &[0, 1, 2, 3], LONG, &piece).is_err());
    Ok(())
}
