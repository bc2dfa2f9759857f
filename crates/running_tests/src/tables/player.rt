//! A seat with its table, at rest or amid a call: each call that it may make, and what that told.
//!
//! A seat that is amid a call can't be let go: so a call that it can't make now ends the test.

ghost use Rattle.std.specs.Prelude.{◌≡◌, All};
ghost use Rattle.sema_table.specs.Seats.{SeatModel};
ghost use Rattle.sema_table.specs.CallersLeaving.{GivesUp};

use crate::tables::given::{counter, last_seat, tried, value, waiters};
use sema_table::{
    Entered, GaveUp, Owing, OwingMany, Polled, PostRefused, Posted, PostedMany, Retried, Roused,
    Seat, SemaTable, Sleeping, Tried, Wake, Woken,
};
use std::process::Abort;
use std::sync::Wait;

/// A call of a seat: with whether its wait comes in as the first, or whether it hands its unit over.
#[derive(Clone, Copy, Drop)]
pub(crate) enum Call {
    Value,
    Waiters,
    Counts,
    Try,
    Spin,
    Post,
    PostMany(u32),
    Release(bool),
    ReleaseMany(u32),
    Acquire(bool),
    AcquireSpinning,
    Enter(bool),
    TryEnter(bool),
    Poll,
    Sleep,
    Leave,
    TryLeave,
    Retry,
    RetryAtOnce,
    Wake(bool),
    TryWake(bool),
    WakeSome,
    TryWakeSome,
}

/// What a call told. A wait is told by its seat and turn.
#[derive(Clone, Copy, PartialEq, Eq, Drop)]
pub(crate) enum Told {
    Nothing,
    /// The seat may not add so many.
    Refused,
    /// The counter's number, or how many wait, or were woken.
    Number(u64),
    /// How many units the seat may spend, and how many it was given.
    Counts(u64, u64),
    Tried(Tried),
    Taken,
    Zero,
    Asleep(u16, u64),
    Still,
    Woken,
    Handed,
    Left,
    /// Its wait has left, and its grant isn't stored yet.
    Coming,
    LimitReached,
    Owes,
    WakesNobody,
    Wakes(u16, u64),
    Hands(u16, u64),
    /// The waits of these two seats were woken, in this order.
    WakesBoth(u16, u16),
}

/// Between two calls.
#[derive(Drop)]
pub(crate) struct Rests<'t> {
    table: &'t SemaTable,
    seat: Seat,
    ghost own: { seat.table ≡ table.now },
}

pub(crate) struct Sleeps<'t> {
    table: &'t SemaTable,
    sleeping: Sleeping,
    ghost own: { sleeping.table ≡ table.now },
}

/// Woken without a unit.
pub(crate) struct Wakes<'t> {
    table: &'t SemaTable,
    woken: Woken,
    ghost own: { woken.table ≡ table.now },
}

pub(crate) struct Owes<'t> {
    table: &'t SemaTable,
    owing: Owing,
    ghost own: { owing.table ≡ table.now },
}

pub(crate) struct OwesMany<'t> {
    table: &'t SemaTable,
    owing: OwingMany,
    ghost own: { owing.table ≡ table.now },
}

pub(crate) enum Player<'t> {
    /// In the middle of another's turn.
    Away,
    Rests(Rests<'t>),
    Sleeps(Sleeps<'t>),
    Wakes(Wakes<'t>),
    Owes(Owes<'t>),
    OwesMany(OwesMany<'t>),
}

/// The player after a call, and what it told.
type Played<'t> = (Player<'t>, Told);

fn at_rest<'t>(table: &'t SemaTable, seat: Seat, told: Told) -> Played<'t>
    requires { seat.table ≡ table.now }
{
    (Player::Rests(Rests { table, seat }), told)
}

fn asleep<'t>(table: &'t SemaTable, sleeping: Sleeping) -> Played<'t>
    requires { sleeping.table ≡ table.now }
{
    let id = sleeping.id();
    let told = Told::Asleep(id.seat.number(), id.turn);
    (Player::Sleeps(Sleeps { table, sleeping }), told)
}

fn woken_up<'t>(table: &'t SemaTable, woken: Woken) -> Played<'t>
    requires { woken.table ≡ table.now }
{
    (Player::Wakes(Wakes { table, woken }), Told::Woken)
}

/// Whom a release woke.
fn told_of(wake: Wake) -> Told {
    match wake {
        Wake::Nobody => Told::WakesNobody,
        Wake::One(id) => Told::Wakes(id.seat.number(), id.turn),
        Wake::Handed(id) => Told::Hands(id.seat.number(), id.turn),
    }
}

impl<'t> Player<'t> {
    /// The last of the seats.
    pub(crate) fn of(rt: &impl Abort, table: &'t SemaTable, seats: &mut Vec<Seat>) -> Player<'t>
        requires { All (λ s. s.table ≡ table.now) seats.old.items }
        ensures { All (λ s. s.table ≡ table.now) seats.new.items }
    {
        let seat = last_seat(rt, table, seats);
        Player::Rests(Rests { table, seat })
    }

    pub(crate) fn calls<R: Abort + Wait>(self, rt: &R, number: u32, call: Call) -> Played<'t> {
        match self {
            Player::Rests(rests) => rests.calls(rt, number, call),
            Player::Sleeps(sleeps) => sleeps.calls(rt, call),
            Player::Wakes(wakes) => wakes.calls(rt, call),
            Player::Owes(owes) => owes.calls(rt, call),
            Player::OwesMany(owes) => owes.calls(rt, call),
            Player::Away => panic!(rt; "nobody is there"),
        }
    }

    pub(crate) fn ends(self, rt: &impl Abort) {
        match self {
            Player::Rests(_) => {}
            _other => panic!(rt; "amid a call"),
        }
    }
}

fn looked(rt: &impl Abort, table: &SemaTable, seat: &mut Seat, number: u32, call: Call) -> Told
    requires { seat.old.table ≡ table.now }
    ensures { seat.new.table ≡ table.now }
{
    match call {
        Call::Value => Told::Number(value(rt, table, seat, number)),
        Call::Waiters => Told::Number(waiters(rt, table, seat, number)),
        Call::Counts => Told::Counts(seat.left(), seat.taken()),
        Call::Try => Told::Tried(tried(rt, table, seat, number)),
        Call::Spin => {
            table.spin(counter(rt, table, number));
            Told::Nothing
        }
        _other => panic!(rt; "it rests"),
    }
}

impl<'t> Rests<'t> {
    fn calls<R: Abort + Wait>(self, rt: &R, number: u32, call: Call) -> Played<'t> {
        match call {
            Call::Post => self.posts(rt, number),
            Call::PostMany(units) => self.posts_many(rt, number, units),
            Call::Release(handoff) => self.releases(rt, number, handoff),
            Call::ReleaseMany(units) => self.releases_many(rt, number, units),
            Call::Acquire(lifo) => self.acquires(rt, number, lifo),
            Call::AcquireSpinning => self.acquires_spinning(rt, number),
            Call::Enter(lifo) => self.enters(rt, number, lifo),
            Call::TryEnter(lifo) => self.tries_to_enter(rt, number, lifo),
            look => self.looks(rt, number, look),
        }
    }

    fn looks(self, rt: &impl Abort, number: u32, look: Call) -> Played<'t> {
        let Rests { table, mut seat } = self;
        let told = looked(rt, table, &mut seat, number, look);
        at_rest(table, seat, told)
    }

    fn posts(self, rt: &impl Abort, number: u32) -> Played<'t> {
        let Rests { table, seat } = self;
        match table.post(seat, counter(rt, table, number)) {
            Ok(Posted::Done(seat)) => at_rest(table, seat, Told::Nothing),
            Ok(Posted::Owes(owing)) => (Player::Owes(Owes { table, owing }), Told::Owes),
            Err((seat, PostRefused::LimitReached)) => at_rest(table, seat, Told::Refused),
        }
    }

    fn posts_many(self, rt: &impl Abort, number: u32, units: u32) -> Played<'t> {
        let Rests { table, seat } = self;
        assert!(rt; 1 <= units && units <= 256);
        match table.post_many(seat, counter(rt, table, number), units) {
            Ok(PostedMany::Done(seat)) => at_rest(table, seat, Told::Nothing),
            Ok(PostedMany::Owes(owing)) => {
                (Player::OwesMany(OwesMany { table, owing }), Told::Owes)
            }
            Err((seat, PostRefused::LimitReached)) => at_rest(table, seat, Told::Refused),
        }
    }

    fn releases<R: Abort + Wait>(self, rt: &R, number: u32, handoff: bool) -> Played<'t> {
        let Rests { table, seat } = self;
        match table.release(rt, seat, counter(rt, table, number), handoff) {
            Ok((seat, wake)) => at_rest(table, seat, told_of(wake)),
            Err((seat, PostRefused::LimitReached)) => at_rest(table, seat, Told::Refused),
        }
    }

    fn releases_many<R: Abort + Wait>(self, rt: &R, number: u32, units: u32) -> Played<'t> {
        let Rests { table, seat } = self;
        assert!(rt; 1 <= units && units <= 256);
        match table.release_many(rt, seat, counter(rt, table, number), units) {
            Ok((seat, woken)) => at_rest(table, seat, Told::Number(u64::from(woken))),
            Err((seat, PostRefused::LimitReached)) => at_rest(table, seat, Told::Refused),
        }
    }

    fn acquires<R: Abort + Wait>(self, rt: &R, number: u32, lifo: bool) -> Played<'t> {
        let Rests { table, seat } = self;
        let seat = table.acquire(rt, seat, counter(rt, table, number), lifo);
        at_rest(table, seat, Told::Nothing)
    }

    fn acquires_spinning<R: Abort + Wait>(self, rt: &R, number: u32) -> Played<'t> {
        let Rests { table, seat } = self;
        let seat = table.acquire_spinning(rt, seat, counter(rt, table, number));
        at_rest(table, seat, Told::Nothing)
    }

    fn enters<R: Abort + Wait>(self, rt: &R, number: u32, lifo: bool) -> Played<'t> {
        let Rests { table, seat } = self;
        match table.enter(rt, seat, counter(rt, table, number), lifo) {
            Entered::Taken(seat) => at_rest(table, seat, Told::Taken),
            Entered::Asleep(sleeping) => asleep(table, sleeping),
        }
    }

    /// Alone in its table it finds the lock free, as each that tries for it.
    fn tries_to_enter(self, rt: &impl Abort, number: u32, lifo: bool) -> Played<'t> {
        let Rests { table, seat } = self;
        match table.try_enter(seat, counter(rt, table, number), lifo) {
            Ok(Entered::Taken(seat)) => at_rest(table, seat, Told::Taken),
            Ok(Entered::Asleep(sleeping)) => asleep(table, sleeping),
            Err(_seat) => panic!(rt; "the lock was held"),
        }
    }
}

impl<'t> Sleeps<'t> {
    fn calls<R: Abort + Wait>(self, rt: &R, call: Call) -> Played<'t> {
        match call {
            Call::Poll => self.polls(),
            Call::Sleep => self.sleeps(rt),
            Call::Leave => self.leaves(rt),
            Call::TryLeave => self.tries_to_leave(rt),
            _other => panic!(rt; "it sleeps"),
        }
    }

    fn polls(self) -> Played<'t> {
        let Sleeps { table, sleeping } = self;
        match table.poll(sleeping) {
            Polled::Still(sleeping) => (Player::Sleeps(Sleeps { table, sleeping }), Told::Still),
            Polled::Woken(woken) => woken_up(table, woken),
            Polled::Handed(seat) => at_rest(table, seat, Told::Handed),
        }
    }

    /// Its grant is there before its thread sleeps.
    fn sleeps<R: Wait>(self, rt: &R) -> Played<'t> {
        let Sleeps { table, sleeping } = self;
        match table.sleep(rt, sleeping) {
            Roused::Woken(woken) => woken_up(table, woken),
            Roused::Handed(seat) => at_rest(table, seat, Told::Handed),
        }
    }

    fn leaves<R: Wait>(self, rt: &R) -> Played<'t> {
        let Sleeps { table, sleeping } = self;
        given_up(table, table.leave(rt, sleeping))
    }

    fn tries_to_leave(self, rt: &impl Abort) -> Played<'t> {
        let Sleeps { table, sleeping } = self;
        match table.try_leave(sleeping) {
            Ok(gave_up) => given_up(table, gave_up),
            Err(_sleeping) => panic!(rt; "the lock was held"),
        }
    }
}

/// What the giving up of a seat came to.
fn given_up<'t>(table: &'t SemaTable, gave_up: GaveUp) -> Played<'t>
    requires { (s : SeatModel) × (s.table ≡ table.now) × GivesUp s gave_up }
{
    match gave_up {
        GaveUp::Left(seat) => at_rest(table, seat, Told::Left),
        GaveUp::Coming(sleeping) => (Player::Sleeps(Sleeps { table, sleeping }), Told::Coming),
        GaveUp::Woken(woken) => woken_up(table, woken),
        GaveUp::Handed(seat) => at_rest(table, seat, Told::Handed),
        GaveUp::LimitReached(sleeping) => {
            (
                Player::Sleeps(Sleeps { table, sleeping }),
                Told::LimitReached,
            )
        }
    }
}

impl<'t> Wakes<'t> {
    fn calls<R: Abort + Wait>(self, rt: &R, call: Call) -> Played<'t> {
        match call {
            Call::Retry => self.retries(rt),
            Call::RetryAtOnce => self.retries_at_once(),
            _other => panic!(rt; "it was woken"),
        }
    }

    fn retries<R: Wait>(self, rt: &R) -> Played<'t> {
        let Wakes { table, woken } = self;
        match table.retry(rt, woken) {
            Entered::Taken(seat) => at_rest(table, seat, Told::Taken),
            Entered::Asleep(sleeping) => asleep(table, sleeping),
        }
    }

    fn retries_at_once(self) -> Played<'t> {
        let Wakes { table, woken } = self;
        match table.retry_at_once(woken) {
            Retried::Taken(seat) => at_rest(table, seat, Told::Taken),
            Retried::Zero(seat) => at_rest(table, seat, Told::Zero),
        }
    }
}

impl<'t> Owes<'t> {
    fn calls<R: Abort + Wait>(self, rt: &R, call: Call) -> Played<'t> {
        match call {
            Call::Wake(handoff) => self.wakes(rt, handoff),
            Call::TryWake(handoff) => self.tries_to_wake(rt, handoff),
            _other => panic!(rt; "it has to look for a wait"),
        }
    }

    fn wakes<R: Wait>(self, rt: &R, handoff: bool) -> Played<'t> {
        let Owes { table, owing } = self;
        let (seat, wake) = table.wake(rt, owing, handoff);
        at_rest(table, seat, told_of(wake))
    }

    fn tries_to_wake(self, rt: &impl Abort, handoff: bool) -> Played<'t> {
        let Owes { table, owing } = self;
        match table.try_wake(owing, handoff) {
            Ok((seat, wake)) => at_rest(table, seat, told_of(wake)),
            Err(_owing) => panic!(rt; "the lock was held"),
        }
    }
}

impl<'t> OwesMany<'t> {
    fn calls<R: Abort + Wait>(self, rt: &R, call: Call) -> Played<'t> {
        match call {
            Call::WakeSome => self.wakes_some(rt),
            Call::TryWakeSome => self.tries_to_wake_some(rt),
            _other => panic!(rt; "it has to look for waits"),
        }
    }

    fn wakes_some<R: Wait>(self, rt: &R) -> Played<'t> {
        let OwesMany { table, owing } = self;
        let (seat, woken) = table.wake_some(rt, owing);
        at_rest(table, seat, Told::Number(u64::from(woken)))
    }

    fn tries_to_wake_some(self, rt: &impl Abort) -> Played<'t> {
        let OwesMany { table, owing } = self;
        match table.try_wake_some(owing) {
            Ok((seat, woken)) => at_rest(table, seat, told_of_both(rt, woken.as_slice())),
            Err(_owing) => panic!(rt; "the lock was held"),
        }
    }
}

fn told_of_both(rt: &impl Abort, woken: &[u16]) -> Told {
    match *woken {
        [first, second] => Told::WakesBoth(first, second),
        _ => panic!(rt; "not two waits were woken"),
    }
}
