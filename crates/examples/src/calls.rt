//! Calls of the running parts, made as they have to be.
//!
//! What a caller could do wrong and no type can refuse, a call asks in a `requires`: a seat of this very
//! table, list or group, a counter that is there, 1 to 256 units, room enough, a lock that is held or isn't,
//! releases enough. Here each of these is kept, and in `mutants` each is broken once, and refused. That a seat amid
//! a call, or a ticket, can't be let go is a matter of types, and shown in [`spent`](crate::spent).
//!
//! The answers in `proofs` name the fact that carries each `requires`. The prover would find it, but where a
//! call is broken it would search for long before it gave up.
ghost use Rattle.std.specs.Prelude.{◌≡◌, ◌<◌, ◌≤◌, true, false, [], length, All, IfSome, IfNone};
ghost use Rattle.step_law_lists.specs.ListLawful.{IsGranted};
ghost use Rattle.sync_parts.specs.ListCalls.{AllGranted};
ghost use Rattle.sync_parts.specs.ListCallers.{IsSeatAfter};

use std::sync::Wait;
use sync_parts::{
    Closed, Cond, CounterId, GroupSeat, Holding, ListSeat, Misuse, NotifiedAll, NotifyList,
    OwingAll, PostRefused, PostedMany, Seat, SemaLock, SemaTable, Tried, WaitGroup, Waited,
};

/// Tries to take a unit of each table, with a seat of each.
pub fn tries_both(
    one: &SemaTable,
    other: &SemaTable,
    mine: &mut Seat,
    theirs: &mut Seat,
) -> (Tried, Tried)
    requires seats { (mine.old.table ≡ one.now) × (theirs.old.table ≡ other.now) }
    requires counters { (0 < length one.now.setting.starts) × (0 < length other.now.setting.starts) }
{
    let first = one.try_acquire(mine, CounterId::new(0));
    let second = other.try_acquire(theirs, CounterId::new(0));
    (first, second)
}

/// Adds as many units at once as may be added.
pub fn adds_most(table: &SemaTable, seat: Seat) -> Result<PostedMany, (Seat, PostRefused)>
    requires { (seat.table ≡ table.now) × (0 < length table.now.setting.starts) }
{
    table.post_many(seat, CounterId::new(0), 256)
}

/// Grants all tickets of a list of at most 16 seats, and names the seats that wait.
pub fn names_all(
    list: &NotifyList,
    seat: ListSeat,
    woken: &mut [u32; 16],
) -> Result<(ListSeat, NotifiedAll), OwingAll>
    requires seat { seat.list ≡ list.now }
    requires few { list.now.setting.seats ≤ 16 }
{
    list.try_all(seat, woken)
}

/// Waits with a ticket of one list, and then notifies one on the next. The ticket is granted then; and where
/// none is to be granted on the next list, the notifier has told nothing, and all are granted of which it
/// knew.
pub fn passes_on<R: Wait>(
    rt: &R,
    list: &NotifyList,
    next: &NotifyList,
    holding: Holding,
    notifier: &mut ListSeat,
) -> (ListSeat, Option<u64>)
    requires { (holding.list ≡ list.now) × (notifier.old.list ≡ next.now) }
    ensures waited { IfSome holding.sight.stands.ticket
        (λ ticket. IsGranted ticket.number result.0.sight.seen) }
    ensures told { IfNone result.1 (IsSeatAfter notifier.old [] notifier.new) }
    ensures granted { IfNone result.1 (AllGranted notifier.old notifier.new) }
{
    let (seat, _) = list.wait(rt, holding);
    let granted = next.one(rt, notifier);
    (seat, granted)
}

/// Waits for a signal under the lock that is held, and then takes the other, too.
pub fn waits_and_locks<R: Wait>(
    rt: &R,
    cond: &Cond,
    seat: ListSeat,
    held: &mut SemaLock<'_>,
    free: &mut SemaLock<'_>,
) -> (ListSeat, Waited)
    requires seat { seat.list ≡ cond.now }
    requires held { (held.old.held ≡ true) × (0 < held.old.seat.left) }
    requires free { (free.old.held ≡ false) × (0 < free.old.seat.left) }
{
    let waited = cond.wait(rt, seat, held);
    free.acquire(rt);
    waited
}

/// The first lock meets another of its counter.
pub fn meets_one(
    first: &mut SemaLock<'_>,
    second: &mut SemaLock<'_>,
    third: &mut SemaLock<'_>,
) -> bool
    requires table { (second.old.seat.table ≡ first.old.seat.table)
        × (third.old.seat.table ≡ first.old.seat.table) }
    requires counter { second.old.counter ≡ first.old.counter }
{
    first.meet(second);
    first.held() && second.held() && third.held()
}

/// Adds one to a group, if the seat may yet release as many as could wait.
pub fn adds_one<R: Wait>(
    rt: &R,
    group: &WaitGroup,
    seat: GroupSeat,
) -> (GroupSeat, Option<Result<u32, Misuse>>)
    requires { seat.group ≡ group.now }
{
    if seat.left() < u64::from(u32::MAX) {
        return (seat, None);
    }
    let (seat, woken) = group.add(rt, seat, 1);
    (seat, Some(woken))
}

/// Closes a table, where these are all its seats.
pub fn closes(table: SemaTable, seats: Vec<Seat>) -> Option<Closed>
    requires { All (λ s. s.table ≡ table) seats.items }
{
    if seats.len() != table.seats() as usize {
        return None;
    }
    Some(table.close(seats))
}
