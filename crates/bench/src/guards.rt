//! A guarded number that many threads raise.
ghost use Rattle.std.specs.Prelude.{◌≡◌, false, All};
ghost use Rattle.sync_guarded.specs.Seats.{is_held};

use crate::crew;
use crate::crew::{Job, Seats};
use crate::plan::Plan;
use anyhow::{Result, bail};
use std::sync::Wait;
use std::thread::Threads;
use std::time::Clock;
use sync_guarded::{Guard, GuardSeat, Guarded};

/// One of the threads.
#[derive(Drop)]
struct Keeper<'b> {
    guard: Guard<'b, u64>,
    ghost free: { is_held guard ≡ false },
}

impl<'b> Job for Keeper<'b> {
    /// So often adds one to the number.
    fn turns<R: Wait>(self, rt: &R, turns: u32) {
        let Keeper { mut guard } = self;
        for _ in 0..turns {
            guard.hold(rt, |number| *number = number.wrapping_add(1));
        }
    }
}

/// The seats of the number.
#[derive(Drop)]
struct KeeperSeats<'b> {
    guarded: &'b Guarded<u64>,
    seats: Vec<GuardSeat<u64>>,
    ghost own: { All (λ s. s.guarded ≡ guarded.now) seats.items },
}

impl<'b> Seats<Keeper<'b>> for KeeperSeats<'b> {
    /// One who adds.
    fn job(&mut self, _number: u32) -> Option<Keeper<'b>> {
        let seat = self.seats.pop()?;
        Some(Keeper {
            guard: Guard::over(self.guarded, seat),
        })
    }
}

/// Times how the workers raise the number, and counts whether each was alone with it.
fn time_keepers<R: Clock + Print + Threads + Wait + Sync>(
    rt: &R,
    plan: &Plan<'_>,
    guarded: Guarded<u64>,
    seats: Vec<GuardSeat<u64>>,
) -> Result<()>
    requires { All (λ s. s.guarded ≡ guarded) seats.items }
{
    let mut seats = seats;
    let Some(last) = seats.pop() else {
        bail!("no seats")
    };
    let keepers = KeeperSeats {
        guarded: &guarded,
        seats,
    };
    let times = plan.turns_of_all();
    crew::time(rt, plan, keepers, u32::from(plan.workers), times)?;
    if guarded.into_value(last) != times {
        bail!("two had the number")
    }
    Ok(())
}

/// Times a guarded number, with a seat for each worker and one for the end.
pub fn time<R: Clock + Print + Threads + Wait + Sync>(rt: &R, plan: &Plan<'_>) -> Result<()> {
    match Guarded::with_seats(plan.alloc, u32::from(plan.workers) + 1, 0u64) {
        Ok((guarded, seats)) => time_keepers(rt, plan, guarded, seats),
        Err(_refused) => bail!("no such number"),
    }
}
