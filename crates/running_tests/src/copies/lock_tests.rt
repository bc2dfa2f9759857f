//! Two locks over one counter, in one thread: what is held when they meet, and what the table ends with.

ghost use Rattle.std.specs.Prelude.{◌≡◌, ◌<◌, length};

use crate::copies::mutex_tests::last_seat;
use crate::tables::given::holds;
use examples::are_both_held;
use sema_table::{Seat, SemaTable, Settings};
use std::process::Abort;
use std::sync::Wait;
use std::test::Fail;
use sync_parts::SemaLock;
use waiters::CounterId;

/// Each is locked and released, one after the other; they meet before, in between and after.
fn lock_in_turn<R: Abort + Wait>(
    rt: &R,
    table: &SemaTable,
    first: Seat,
    second: Seat,
) -> (Seat, Seat)
    requires own { (first.table ≡ table.now) × (second.table ≡ table.now) }
    requires there { 0 < length table.now.setting.starts }
    ensures { (result.0.table ≡ table.now) × (result.1.table ≡ table.now) }
{
    let mut one = SemaLock::over(table, first, CounterId::new(0));
    let mut other = SemaLock::over(table, second, CounterId::new(0));
    holds(rt, !are_both_held(&mut one, &mut other));
    assert!(rt; !one.held() && !other.held());
    one.acquire(rt);
    holds(rt, !are_both_held(&mut one, &mut other));
    assert!(rt; one.held() && !other.held() && one.left() == 10);
    one.release(rt);
    assert!(rt; !one.held() && !other.held() && one.left() == 9);
    other.acquire(rt);
    holds(rt, !are_both_held(&mut one, &mut other));
    assert!(rt; !one.held() && other.held() && other.left() == 10);
    other.release(rt);
    holds(rt, !one.held() && !other.held() && other.left() == 9);
    (one.into_seat(), other.into_seat())
}

#[test]
fn of_two_locks_over_a_unit_one_is_held(rt: HostRuntime) -> Result<(), Fail> {
    let mut all = Vec::with_capacity(rt.alloc(), 2)?;
    let settings = Settings {
        starts: vec![in rt.alloc(); 1]?,
        seats: 2,
        roots: 1,
        seed: 0,
        release_limit: 10,
    };
    let (table, mut seats) = SemaTable::new(rt.alloc(), settings)?;
    assert!(rt; table.counters() == 1 && table.seats() == 2);
    let second = last_seat(&rt, &table, &mut seats);
    let first = last_seat(&rt, &table, &mut seats);
    let (first, second) = lock_in_turn(&rt, &table, first, second);
    all.push_reserved(first);
    all.push_reserved(second);
    let closed = table.close(all);
    holds(&rt, closed.value(CounterId::new(0)) == 1);
    holds(&rt, closed.releases() == 2 && closed.acquires() == 2);
    Ok(())
}
