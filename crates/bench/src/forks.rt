//! A wait group: by one thread, and workers that are let begin and waited for.
ghost use Rattle.std.specs.Prelude.{◌≡◌, ◌<◌, All, length};

use crate::crew;
use crate::crew::{Job, Seats};
use crate::plan::Plan;
use crate::tables::new_table;
use anyhow::{Result, bail};
use sema_table::{Seat, SemaTable};
use sema_table_crew::tell;
use std::sync::Wait;
use std::thread::Threads;
use std::time::{Clock, Instant};
use sync_parts::{GroupSeat, WaitGroup};
use waiters::CounterId;

/// How many releases a seat may still have to make for one add: one for each wait that a word can count.
const MOST_WAITS: u64 = 4_294_967_295;

/// Adds 1, takes it off and waits, so many times.
#[inline(never)]
fn rounds<R: Wait>(rt: &R, group: &WaitGroup, seat: GroupSeat, turns: u32)
    requires { seat.group ≡ group.now }
{
    let mut seat = seat;
    for _ in 0..turns {
        seat = add(rt, group, seat, 1);
        seat = add(rt, group, seat, -1);
        (seat, _) = group.wait(rt, seat);
    }
}

/// Adds, as long as the seat may make any releases that this asks for.
#[inline]
fn add<R: Wait>(rt: &R, group: &WaitGroup, seat: GroupSeat, d: i32) -> GroupSeat
    requires { seat.group ≡ group.now }
    ensures { result.group ≡ group.now }
{
    if seat.left() < MOST_WAITS {
        return seat;
    }
    group.add(rt, seat, d).0
}

/// A release of each counter.
fn release_all<R: Wait>(rt: &R, table: &SemaTable, seat: Seat) -> Seat
    requires { seat.table ≡ table.now }
    ensures { result.table ≡ table.now }
{
    let mut seat = seat;
    for counter in 0..table.counters() {
        seat = match table.release(rt, seat, CounterId::new(counter), false) {
            Ok((seat, _)) => seat,
            Err((seat, _)) => seat,
        };
    }
    seat
}

/// Lets so many workers begin, each by a counter of its own, and waits until all are done, so many times.
fn fork<R: Wait>(
    rt: &R,
    group: &WaitGroup,
    seat: GroupSeat,
    table: &SemaTable,
    starts: Seat,
    workers: u16,
    turns: u32,
)
    requires { (seat.group ≡ group.now) × (starts.table ≡ table.now) }
{
    let (mut seat, mut starts) = (seat, starts);
    for _ in 0..turns {
        seat = add(rt, group, seat, i32::from(workers));
        starts = release_all(rt, table, starts);
        (seat, _) = group.wait(rt, seat);
    }
}

/// Begins whenever the counter is released, and is done each time.
fn work<R: Wait>(
    rt: &R,
    group: &WaitGroup,
    seat: GroupSeat,
    table: &SemaTable,
    begins: Seat,
    counter: CounterId,
    turns: u32,
)
    requires { (seat.group ≡ group.now) × (begins.table ≡ table.now)
        × (counter < length table.now.setting.starts) }
{
    let (mut seat, mut begins) = (seat, begins);
    for _ in 0..turns {
        begins = table.acquire(rt, begins, counter, false);
        seat = add(rt, group, seat, -1);
    }
}

/// A thread with a seat of a group, and one of a table.
#[derive(Drop)]
struct Member<'b> {
    group: &'b WaitGroup,
    seat: GroupSeat,
    table: &'b SemaTable,
    own: Seat,
    workers: u16,
    /// The first lets the workers begin, and waits for them; each of these begins by a counter of its own.
    number: u32,
    ghost ties: { (seat.group ≡ group.now) × (own.table ≡ table.now) },
}

impl<'b> Job for Member<'b> {
    /// So many forks and joins.
    fn turns<R: Wait>(self, rt: &R, turns: u32) {
        let Member {
            group,
            seat,
            table,
            own,
            workers,
            number,
        } = self;
        let Some(counter) = number.checked_sub(1) else {
            fork(rt, group, seat, table, own, workers, turns);
            return;
        };
        if counter < table.counters() {
            work(rt, group, seat, table, own, CounterId::new(counter), turns);
        }
    }
}

/// The seats of a group, and of a table with a counter for each worker.
#[derive(Drop)]
struct ForkSeats<'b> {
    group: &'b WaitGroup,
    members: Vec<GroupSeat>,
    table: &'b SemaTable,
    seats: Vec<Seat>,
    workers: u16,
    ghost grouped: { All (λ s. s.group ≡ group.now) members.items },
    ghost seated: { All (λ s. s.table ≡ table.now) seats.items },
}

impl<'b> Seats<Member<'b>> for ForkSeats<'b> {
    /// The one that forks, and then the workers.
    fn job(&mut self, number: u32) -> Option<Member<'b>> {
        let seat = self.members.pop()?;
        let own = self.seats.pop()?;
        Some(Member {
            group: self.group,
            seat,
            table: self.table,
            own,
            workers: self.workers,
            number,
        })
    }
}

/// Times what a seat alone adds and takes off.
fn time_rounds(
    rt: &(impl Clock + Print + Wait),
    plan: &Plan<'_>,
    group: &WaitGroup,
    seat: GroupSeat,
) -> Result<()>
    requires { seat.group ≡ group.now }
{
    let start = Instant::now(rt)?;
    rounds(rt, group, seat, plan.turns);
    tell(rt, plan.case, &start, u64::from(plan.turns))
}

/// Times a group by one thread.
pub fn time_alone(rt: &(impl Clock + Print + Wait), plan: &Plan<'_>) -> Result<()> {
    let (group, mut seats) = WaitGroup::with_seats(plan.alloc, 1)?;
    let Some(seat) = seats.pop() else {
        bail!("no seat")
    };
    time_rounds(rt, plan, &group, seat)
}

/// Times workers that are let begin by the counters of this table.
fn time_forks<R: Clock + Print + Threads + Wait + Sync>(
    rt: &R,
    plan: &Plan<'_>,
    table: &SemaTable,
    seats: Vec<Seat>,
) -> Result<()>
    requires { All (λ s. s.table ≡ table.now) seats.items }
{
    let all = u32::from(plan.workers) + 1;
    let (group, members) = WaitGroup::with_seats(plan.alloc, all)?;
    let seats = ForkSeats {
        group: &group,
        members,
        table,
        seats,
        workers: plan.workers,
    };
    crew::time(rt, plan, seats, all, u64::from(plan.turns))
}

/// Times one thread that lets the workers begin, and waits until all are done.
pub fn time<R: Clock + Print + Threads + Wait + Sync>(rt: &R, plan: &Plan<'_>) -> Result<()> {
    let counters = usize::from(plan.workers);
    let all = u32::from(plan.workers) + 1;
    let (table, seats) = new_table(plan.alloc, counters, 0, all, 1 << 40)?;
    time_forks(rt, plan, &table, seats)
}
