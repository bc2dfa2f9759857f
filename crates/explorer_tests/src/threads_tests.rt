//! Threads that share a table, and the command `threads`.

ghost use Rattle.std.specs.Prelude.{◌≡◌, ◌<◌, ◌∷◌, [], length, IfOk};

use crate::assertion::holds;
use crate::machine::text_tests::is_printed;
use explorer::{Closed, Gate, IoFault, Open, ThreadsRefused, run_threads};
use std::alloc::Global;
use std::process::Abort;
use std::sync::Wait;
use std::sync::atomic::Ordering::SeqCst;
use std::sync::atomic::{AtomicBool, AtomicU64};
use std::thread;
use std::thread::Threads;
use step_core::{CounterId, SeatId};

/// Words for two workers of three rounds each.
pub(crate) const TWO_BY_THREE: [&str; 5] = ["threads", "--workers", "2", "--rounds", "3"];

/// What is told of them: two times three, and nothing is left.
pub(crate) const THREE_LINES: &str = "releases 6\nacquires 6\nvalue 0\n";

/// How often one looks for the other's flag.
const TURNS: u32 = 10_000_000;

/// In round 0 seats 0 and 1 each set a flag, and pass once they see the other's: so workers that run one
/// after the other don't.
#[derive(Drop)]
struct TwoFlags {
    first: AtomicBool,
    second: AtomicBool,
    has_failed: AtomicBool,
}

impl TwoFlags {
    fn new() -> TwoFlags {
        TwoFlags {
            first: AtomicBool::new(false),
            second: AtomicBool::new(false),
            has_failed: AtomicBool::new(false),
        }
    }

    /// Both have set their flags, and each has seen the other's.
    fn was_passed(&self, rt: &impl Abort) {
        let are_set = self.first.load(SeqCst) && self.second.load(SeqCst);
        holds(rt, are_set && !self.has_failed.load(SeqCst));
    }
}

impl Gate for TwoFlags {
    fn pass(&self, seat: SeatId, round: u32) {
        let (mine, other) = match (seat.number(), round) {
            (0, 0) => (&self.first, &self.second),
            (1, 0) => (&self.second, &self.first),
            _ => return,
        };
        mine.store(true, SeqCst);
        for _ in 0..TURNS {
            if other.load(SeqCst) {
                return;
            }
            thread::yield_now();
        }
        self.has_failed.store(true, SeqCst);
    }
}

/// What is left of the table once it is closed. It is asked for once more where memory was refused.
fn run_again<R: Threads + Wait + Sync>(
    rt: &R,
    alloc: Global,
    workers: u32,
    rounds: u32,
) -> Result<Closed, ThreadsRefused>
    ensures { IfOk result (λ closed. closed.values ≡ 0 ∷ []) }
{
    match run_threads(rt, alloc, workers, rounds, &Open) {
        Err(ThreadsRefused::NoMemory) => run_threads(rt, alloc, workers, rounds, &Open),
        outcome => outcome,
    }
}

/// So many units were added and were given, and none is left.
fn counts(rt: &impl Abort, closed: &Closed, units: u64)
    requires { 0 < length closed.now.values }
{
    let (added, given) = (closed.releases(), closed.acquires());
    holds(
        rt,
        (added, given, closed.value(CounterId::new(0))) == (units, units, 0),
    );
}

/// Two workers pass each other's flags, if threads could be made.
fn pass_flags<R: Abort + Threads + Wait + Sync>(rt: &R, alloc: Global) -> bool {
    let gate = TwoFlags::new();
    let Ok(closed) = run_threads(rt, alloc, 2, 1, &gate) else {
        return false;
    };
    counts(rt, &closed, 2);
    gate.was_passed(rt);
    true
}

#[test]
fn workers_run_at_once(rt: HostRuntime) {
    let alloc = rt.alloc();
    holds(&rt, pass_flags(&rt, alloc) || pass_flags(&rt, alloc));
}

/// Counts how often it is asked.
#[derive(Drop)]
struct Counting {
    asked: AtomicU64,
}

impl Gate for Counting {
    fn pass(&self, _seat: SeatId, _round: u32) {
        self.asked.fetch_add(1, SeqCst);
    }
}

/// Whether three workers of five rounds each run, and ask the gate fifteen times.
fn ask_each_time<R: Threads + Wait + Sync>(rt: &R, alloc: Global) -> bool {
    let gate = Counting {
        asked: AtomicU64::new(0),
    };
    run_threads(rt, alloc, 3, 5, &gate).is_ok() && gate.asked.load(SeqCst) == 15
}

#[test]
fn the_gate_is_asked_before_each_round(rt: HostRuntime) {
    let alloc = rt.alloc();
    holds(&rt, ask_each_time(&rt, alloc) || ask_each_time(&rt, alloc));
}

/// How many workers run how many rounds.
static RUNS: [(u32, u32); 3] = [(1, 1), (4, 1_000), (64, 2)];

#[test]
fn workers_lose_no_unit(rt: HostRuntime) {
    for row in &RUNS {
        let (workers, rounds) = *row;
        let closed = run_again(&rt, rt.alloc(), workers, rounds).expect(&rt, "threads");
        counts(&rt, &closed, u64::from(workers) * u64::from(rounds));
    }
}

/// Numbers of workers and rounds that are outside their limits.
static OUTSIDE: [(u32, u32); 5] = [
    (0, 1),
    (65, 1),
    (1, 0),
    (1, 1_000_001),
    (u32::MAX, u32::MAX),
];

#[test]
fn limits_are_kept(rt: HostRuntime) {
    for row in &OUTSIDE {
        let (workers, rounds) = *row;
        let outcome = run_threads(&rt, rt.alloc(), workers, rounds, &Open);
        holds(&rt, matches!(outcome, Err(ThreadsRefused::OutOfLimits)));
    }
}

#[test]
fn refusals_have_their_numbers(rt: HostRuntime) {
    let threads = (
        ThreadsRefused::OutOfLimits as u8,
        ThreadsRefused::NoMemory as u8,
    );
    let streams = (IoFault::Read as u8, IoFault::Write as u8);
    holds(&rt, threads == (1, 2) && streams == (1, 2));
}

#[test]
fn refusals_have_their_texts(rt: HostRuntime) {
    let alloc = rt.alloc();
    is_printed(&rt, alloc, &ThreadsRefused::OutOfLimits, "out of limits");
    is_printed(&rt, alloc, &ThreadsRefused::NoMemory, "no memory");
    is_printed(&rt, alloc, &IoFault::Read, "read failed");
    is_printed(&rt, alloc, &IoFault::Write, "write failed");
}
