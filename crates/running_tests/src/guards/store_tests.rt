//! Two put in, and two take out: each unit once.
ghost use Rattle.std.specs.Prelude.{◌≡◌, All};

use crate::guards::call_tests::last_seat;
use crate::guards::store::{Store, Worker};
use std::process::Abort;
use std::sync::Wait;
use std::test::Fail;
use std::thread::{Threads, join};
use sync_guarded::{GuardSeat, Guarded};
use sync_parts::{Cond, ListSeat};

/// Each puts 1 up to so many units in.
const MOST: u64 = 2_000;

fn last_own(rt: &impl Abort, cond: &Cond, owns: &mut Vec<ListSeat>) -> ListSeat
    requires { All (λ s. s.list ≡ cond.now) owns.old.items }
    ensures own { result.list ≡ cond.now }
    ensures rest { All (λ s. s.list ≡ cond.now) owns.new.items }
{
    owns.pop().expect(rt, "a seat of the condition variable")
}

/// One by the last seats.
fn hire<'t>(
    rt: &impl Abort,
    guarded: &'t Guarded<Store>,
    cond: &'t Cond,
    seats: &mut Vec<GuardSeat<Store>>,
    owns: &mut Vec<ListSeat>,
) -> Worker<'t>
    requires seats { All (λ s. s.guarded ≡ guarded.now) seats.old.items }
    requires owns { All (λ s. s.list ≡ cond.now) owns.old.items }
    ensures seats { All (λ s. s.guarded ≡ guarded.now) seats.new.items }
    ensures owns { All (λ s. s.list ≡ cond.now) owns.new.items }
{
    let seat = last_seat(rt, guarded, seats);
    let own = last_own(rt, cond, owns);
    Worker::new(guarded, cond, seat, own)
}

/// One who puts and one who takes, each in a thread: what they put and took.
fn pair<R: Abort + Threads + Wait + Sync>(
    rt: &R,
    puts: Worker<'_>,
    takes: Worker<'_>,
) -> (u64, u64) {
    join(rt, move || puts.puts(rt, MOST), move || takes.takes(rt))
}

/// Two pairs: what was put and what was taken.
fn exchange<R: Abort + Threads + Wait + Sync>(
    rt: &R,
    guarded: &Guarded<Store>,
    cond: &Cond,
    seats: &mut Vec<GuardSeat<Store>>,
    owns: &mut Vec<ListSeat>,
) -> (u64, u64)
    requires seats { All (λ s. s.guarded ≡ guarded.now) seats.old.items }
    requires owns { All (λ s. s.list ≡ cond.now) owns.old.items }
    ensures { All (λ s. s.guarded ≡ guarded.now) seats.new.items }
{
    let first = hire(rt, guarded, cond, seats, owns);
    let second = hire(rt, guarded, cond, seats, owns);
    let third = hire(rt, guarded, cond, seats, owns);
    let fourth = hire(rt, guarded, cond, seats, owns);
    let (one, other) = join(
        rt,
        move || pair(rt, first, second),
        move || pair(rt, third, fourth),
    );
    (one.0.wrapping_add(other.0), one.1.wrapping_add(other.1))
}

#[test]
fn two_put_in_and_two_take_out(rt: HostRuntime) -> Result<(), Fail> {
    let Ok((guarded, mut seats)) = Guarded::with_seats(rt.alloc(), 5, Store::open_for(2)) else {
        panic!(&rt; "no memory")
    };
    let Ok((cond, mut owns)) = Cond::with_seats(rt.alloc(), 4) else {
        panic!(&rt; "no memory")
    };
    let sums = exchange(&rt, &guarded, &cond, &mut seats, &mut owns);
    let seat = last_seat(&rt, &guarded, &mut seats);
    assert!(rt; sums == (4_002_000, 4_002_000));
    assert!(rt; guarded.into_value(seat).sums() == (4_002_000, 4_002_000, 0));
    Ok(())
}
