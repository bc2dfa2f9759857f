//! Waits for a group until a time.

ghost use Rattle.std.specs.Prelude.{◌≡◌, All};
ghost use Rattle.std.specs.Option.{ForSome};

use crate::parts::actor::reaches;
use crate::parts::group_given::made;
use crate::tables::given::holds;
use std::alloc::Global;
use std::process::Abort;
use std::sync::Wait;
use std::sync::atomic::{AtomicU64, Ordering};
use std::thread;
use std::thread::{Scope, Threads};
use std::time::{Clock, Duration, Instant};
use sync_parts::{GroupSeat, Misuse, WaitGroup};

/// How many releases a seat may still have to make for one add.
const MOST_WAITS: u64 = 4_294_967_295;

const ROUNDS: u64 = 400;

/// A seat, with its group.
#[derive(Drop)]
struct Member<'g> {
    group: &'g WaitGroup,
    /// Always there between two calls.
    seat: Option<GroupSeat>,
    ghost own: { ForSome seat (λ s. s.group ≡ group.now) },
}

impl<'g> Member<'g> {
    /// Adds, and tells how many waits that let come back.
    fn adds<R: Abort + Wait>(&mut self, rt: &R, d: i32) -> u32 {
        let seat = self.seat.take().expect(rt, "a seat");
        assert!(rt; seat.left() >= MOST_WAITS);
        let (seat, answer) = self.group.add(rt, seat, d);
        self.seat = Some(seat);
        answer.expect(rt, "no misuse")
    }

    /// Waits for so long: what that answers.
    fn waits_for<R: Abort + Clock + Wait>(
        &mut self,
        rt: &R,
        longest: Duration,
    ) -> Result<bool, Misuse> {
        let seat = self.seat.take().expect(rt, "a seat");
        assert!(rt; 0 < seat.left());
        let now = Instant::now(rt).expect(rt, "a clock");
        let deadline = now.checked_add(longest).expect(rt, "a deadline");
        let (seat, answer) = self.group.wait_until(rt, seat, deadline);
        self.seat = Some(seat);
        answer
    }

    fn left(&self, rt: &impl Abort) -> u64 {
        match &self.seat {
            Some(seat) => seat.left(),
            None => panic!(rt; "no seat"),
        }
    }

    /// Waits in each round for a while, for longer from round to round: no round is a misuse.
    fn gives_up_or_not<R: Abort + Clock + Wait>(
        self,
        rt: &R,
        begun: &AtomicU64,
        ended: &AtomicU64,
    ) {
        let mut member = self;
        for round in 0..ROUNDS {
            reaches(rt, begun, round + 1);
            let answer = member.waits_for(rt, Duration::from_nanos(round * 50));
            holds(rt, answer.is_ok());
            ended.fetch_add(1, Ordering::SeqCst);
        }
    }

    /// Leads the rounds, each of one who is to be waited for.
    fn leads<R: Abort + Wait>(self, rt: &R, begun: &AtomicU64, ended: &AtomicU64) {
        let mut member = self;
        for round in 0..ROUNDS {
            holds(rt, member.adds(rt, 1) == 0);
            begun.fetch_add(1, Ordering::SeqCst);
            holds(rt, member.adds(rt, -1) <= 1);
            reaches(rt, ended, round + 1);
        }
    }
}

/// Takes the last seat.
fn take_member<'g>(rt: &impl Abort, group: &'g WaitGroup, seats: &mut Vec<GroupSeat>) -> Member<'g>
    requires { All (λ s. s.group ≡ group.now) seats.old.items }
    ensures { All (λ s. s.group ≡ group.now) seats.new.items }
{
    let seat = seats.pop().expect(rt, "a seat");
    Member {
        group,
        seat: Some(seat),
    }
}

/// A wait for nobody comes back at once, and so does one whose time has passed. After that the last who is done
/// lets nobody come back.
fn end_as_known<R: Abort + Clock + Wait>(rt: &R, alloc: Global) {
    let (group, mut seats) = made(rt, alloc, 2);
    let mut one = take_member(rt, &group, &mut seats);
    let mut other = take_member(rt, &group, &mut seats);
    holds(rt, other.waits_for(rt, Duration::ZERO) == Ok(true));
    holds(rt, one.adds(rt, 2) == 0);
    let before = other.left(rt);
    holds(rt, other.waits_for(rt, Duration::ZERO) == Ok(false));
    holds(
        rt,
        other.waits_for(rt, Duration::from_millis(2)) == Ok(false),
    );
    holds(rt, other.left(rt).wrapping_add(2) == before);
    holds(rt, one.adds(rt, -1) == 0 && one.adds(rt, -1) == 0);
    holds(rt, other.waits_for(rt, Duration::ZERO) == Ok(true));
}

fn race<'s, E, R: Abort + Clock + Wait + Sync>(
    rt: &'s R,
    scope: &'s Scope<'s, E>,
    one: Member<'s>,
    other: Member<'s>,
    begun: &'s AtomicU64,
    ended: &'s AtomicU64,
) {
    if let Err(refused) = scope.spawn(move || other.gives_up_or_not(rt, begun, ended)) {
        holds(rt, scope.spawn(refused.value).is_ok());
    }
    one.leads(rt, begun, ended);
}

fn all_end<R: Abort + Clock + Threads + Wait + Sync>(rt: &R, alloc: Global) {
    let (group, mut seats) = made(rt, alloc, 2);
    let one = take_member(rt, &group, &mut seats);
    let other = take_member(rt, &group, &mut seats);
    let (begun, ended) = (&AtomicU64::new(0), &AtomicU64::new(0));
    thread::scope(
        thread::scope_env(),
        rt,
        move |scope| race(rt, scope, one, other, begun, ended),
    );
}

#[test]
fn waits_for_a_group_end_as_known(rt: HostRuntime) {
    end_as_known(&rt, rt.alloc());
}

#[test]
fn a_wait_gives_up_beside_the_last_who_is_done(rt: HostRuntime) {
    all_end(&rt, rt.alloc());
}
