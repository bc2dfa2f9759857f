//! Searches of a long road, on which one seat can go at each place. Then it forks, twelve times.

ghost use Rattle.std.specs.Prelude.{◌≡◌, ◌≤◌, ◌<◌, ℕ, IfOk};
ghost use Rattle.search.specs.Found.{IsRight};
ghost use Rattle.explorer_tests.specs.Road.{rules_of, bounded, may_go, next_place};

use crate::assertion::holds;
use crate::searches::given::{goes_by, write_over};
use search::{Found, Machine, Team, search, search_by};
use std::alloc::Global;
use std::num::NonZeroU16;
use std::process::Abort;
use std::thread::Threads;
use waiters::{NoMemory, SeatId};

/// The place where the road forks for the first time: behind more steps than two pasts have.
const FORK: u64 = 2_100;

/// The first place from which no step leads.
const END: u64 = 6_195;

/// The place that is looked for, behind the twelfth fork.
const GOAL: u64 = 9_568;

/// The ways that lead there.
const WAYS: [u16; 12] = [1, 1, 0, 1, 0, 0, 1, 0, 1, 1, 0, 1];

/// Where the road is gone to.
#[derive(Drop)]
struct Road {
    place: u64,
}

impl Machine for Road {
    type Kind = u64;

    ghost World = { ℕ };

    ghost world = { λ road. road.place };

    ghost rules = { rules_of };

    ghost holds = { λ road. road.place ≤ 20000 };

    fn try_clone(&self, _alloc: Global) -> Result<Road, NoMemory> {
        Ok(Road { place: self.place })
    }

    fn try_clone_over(mut self, other: &Road) -> Result<Road, NoMemory> {
        self.place = other.place;
        Ok(self)
    }

    fn seats(&self) -> u16 {
        7
    }

    fn enabled(&self, seat: SeatId) -> bool {
        is_open(self.place, u64::from(seat.number()))
    }

    fn commute(&self, _early: SeatId, _late: SeatId) -> bool {
        false
    }

    fn tied(&self, _early: SeatId, _late: SeatId) -> bool {
        false
    }

    fn step(&mut self, seat: SeatId) -> Result<(), NoMemory> {
        self.place = behind(self.place, u64::from(seat.number()));
        Ok(())
    }

    fn key_into(&mut self, key: &mut Vec<u64>) -> Result<(), NoMemory> {
        write_over(key, &[self.place])
    }

    fn alike(&mut self) -> Result<u128, NoMemory> {
        Ok(1)
    }

    fn bad(&self) -> Option<u64> {
        if self.place == GOAL { Some(GOAL) } else { None }
    }

    ghost seats_bound = { bounded };
}

/// Whether the seat can go on from this place.
fn is_open(place: u64, seat: u64) -> bool
    ensures { result ≡ may_go place seat }
{
    if place < FORK {
        seat == place % 7
    } else {
        seat < 2 && place < END
    }
}

/// The place behind the seat's step from this one.
fn behind(place: u64, seat: u64) -> u64
    requires place { place ≤ 20000 }
    requires seat { seat < 65536 }
    ensures { result ≡ next_place place seat }
{
    if place < FORK {
        place + 1
    } else {
        2 * place + seat + 1 - FORK
    }
}

/// Looks for the goal, by so many threads; by no team where there are none.
fn look<R: Threads + Sync>(rt: &R, alloc: Global, threads: u16) -> Result<Found<u64>, NoMemory>
    ensures { IfOk result (IsRight rules_of 0 3000 200000) }
{
    let start = Road { place: 0 };
    let told = match NonZeroU16::new(threads) {
        Some(threads) => {
            let team = Team::new(rt, threads);
            search_by(&team, alloc, &start, 3_000, 200_000, &mut ())?
        }
        None => search(alloc, &start, 3_000, 200_000, &mut ())?,
    };
    Ok(told.found)
}

/// The same. Where memory is wanting it is looked for once more.
fn found<R: Abort + Threads + Sync>(rt: &R, alloc: Global, threads: u16) -> Found<u64> {
    match look(rt, alloc, threads) {
        Ok(found) => found,
        Err(NoMemory) => look(rt, alloc, threads).expect(rt, "memory"),
    }
}

/// Whether the schedule is the only one that leads to the goal.
fn is_way(schedule: &[SeatId]) -> bool {
    let fork = FORK as usize;
    if schedule.len() < fork {
        return false;
    }
    for place in 0..fork {
        if usize::from(schedule[place].number()) != place % 7 {
            return false;
        }
    }
    goes_by(&schedule[fork..], &WAYS)
}

/// Whether the goal was found by the one way.
fn is_whole(found: &Found<u64>) -> bool {
    match found {
        Found::Bad { schedule, kind } => *kind == GOAL && is_way(schedule.as_slice()),
        _ => false,
    }
}

// The schedule has more steps than two pasts. The last layers are wide: they have more schedules than
// machines are kept of, and the last one is shared by a team.
#[test]
fn tells_a_long_schedule_whole(rt: HostRuntime) {
    for threads in [0, 4] {
        holds(&rt, is_whole(&found(&rt, rt.alloc(), threads)));
    }
}
