//! Each call once, in one thread.
ghost use Rattle.std.specs.Prelude.{◌≡◌, All};

use std::alloc::Global;
use std::process::Abort;
use std::sync::Wait;
use std::test::Fail;
use sync_guarded::{Guard, GuardSeat, Guarded};
use sync_parts::SetupError;

pub(crate) fn last_seat<T: Drop>(
    rt: &impl Abort,
    guarded: &Guarded<T>,
    seats: &mut Vec<GuardSeat<T>>,
) -> GuardSeat<T>
    requires { All (λ s. s.guarded ≡ guarded.now) seats.old.items }
    ensures own { result.guarded ≡ guarded.now }
    ensures rest { All (λ s. s.guarded ≡ guarded.now) seats.new.items }
{
    seats.pop().expect(rt, "a seat")
}

/// Locks twice, one after the other, and adds each time: what was there before each. It holds the value
/// between its calls.
fn takes_twice<R: Abort + Wait>(
    rt: &R,
    guarded: &Guarded<u32>,
    seat: GuardSeat<u32>,
) -> (u32, u32, GuardSeat<u32>)
    requires { seat.guarded ≡ guarded.now }
    ensures { result.2.guarded ≡ guarded.now }
{
    let mut guard = Guard::over(guarded, seat);
    assert!(rt; !guard.held());
    guard.acquire(rt);
    assert!(rt; guard.held());
    let first = guard.lend(|value| {
        let was = *value;
        *value = was.wrapping_add(1);
        was
    });
    guard.release();
    assert!(rt; !guard.held());
    let second = guard.hold(rt, |value| {
        let was = *value;
        *value = was.wrapping_add(10);
        was
    });
    (first, second, guard.into_seat())
}

#[test]
fn one_thread_takes_the_value_twice(rt: HostRuntime) -> Result<(), Fail> {
    let Ok((guarded, mut seats)) = Guarded::with_seats(rt.alloc(), 2, 7u32) else {
        panic!(&rt; "no memory")
    };
    let seat = last_seat(&rt, &guarded, &mut seats);
    let (first, second, seat) = takes_twice(&rt, &guarded, seat);
    assert!(rt; (first, second) == (7, 8));
    assert!(rt; guarded.into_value(seat) == 18);
    Ok(())
}

/// How many seats are made, or the value that comes back.
fn made(alloc: Global, seats: u32) -> Result<usize, (u32, SetupError)> {
    match Guarded::with_seats(alloc, seats, 5u32) {
        Ok((_guarded, seats)) => Ok(seats.len()),
        Err(refused) => Err((refused.value, refused.why)),
    }
}

#[test]
fn a_value_has_1_to_65536_seats(rt: HostRuntime) {
    assert!(rt; made(rt.alloc(), 0) == Err((5, SetupError::Seats)));
    assert!(rt; made(rt.alloc(), 65_537) == Err((5, SetupError::Seats)));
    assert!(rt;
        matches!(
            made(rt.alloc(), 65_536),
            Ok(65_536) | Err((5, SetupError::NoMemory))
        )
    );
}
