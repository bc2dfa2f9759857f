//! What a seat does, turn after turn. Each work is a loop of its own: what stands in it besides the calls of
//! the table would be measured with them.

ghost use Rattle.std.specs.Prelude.{◌≡◌, ◌%◌, ◌<◌, length};
ghost use Rattle.sema_table_crew.specs.Turns.{Releases, ReleasesTwo, GoesRound, HasRun, HasRunOut, HasDone};

use sema_table::{PostedMany, Seat, SemaTable, Tried};
use std::sync::Wait;
use waiters::CounterId;

/// By what the first seat's counters are drawn.
const FIRST_DRAWN: u64 = 88_172_645_463_325_252;

/// How a seat acquires and releases.
#[derive(Clone, Copy, Drop)]
pub struct Way {
    pub lifo: bool,
    pub handoff: bool,
}

const PLAIN: Way = Way {
    lifo: false,
    handoff: false,
};

/// That of each second round. Rounds go by twos, since one that asked which way it goes would keep a number
/// for it, which is one move more between an exchange and the next add.
const ODD: Way = Way {
    lifo: true,
    handoff: true,
};

/// What each seat of a table does in a turn. Counters are taken modulo how many there are. `Rounds` and
/// `Spread` are measured beside others: a unit that is there is taken by a try, and the release limit ends
/// them, so that no look of a second loop counter, nor one whether a call that may wait came back, stands
/// between an exchange and the next add.
#[derive(Clone, Copy, Drop)]
pub enum Work {
    /// Adds a unit to counter 0.
    Adds,
    /// Takes a unit from the counter of its own number, and gives one to the next.
    Hands(Way),
    /// Takes two units from the counter of its own number, and gives two to the next by one add.
    HandsTwo,
    /// Releases counter 0, and then takes a unit of it, until it may release no more; with handoff and with
    /// lifo in each second turn.
    Rounds,
    /// Releases a counter and takes a unit of it, which changes with each turn and seat, until it may release
    /// no more; without handoff and lifo.
    Spread,
    /// Acquires a counter and releases it again, as a lock: in each turn the next, the first being that of
    /// its own number.
    Locks,
}

/// The counter of this number, modulo how many the table has.
fn counter(table: &SemaTable, number: u32) -> CounterId
    requires { 0 < length table.now.setting.starts }
    ensures inside { result < length table.now.setting.starts }
    ensures is { result ≡ number % length table.now.setting.starts }
{
    CounterId::new(number % table.counters())
}

/// A whole release, whomever it wakes.
#[inline]
fn release<R: Wait>(
    rt: &R,
    table: &SemaTable,
    seat: Seat,
    counter: CounterId,
    handoff: bool,
) -> Seat
    requires { (seat.table ≡ table.now) × (counter < length table.now.setting.starts) }
    ensures same { (result.table ≡ seat.table) × (result.number ≡ seat.number) }
    ensures released { Releases seat counter handoff result }
{
    match table.release(rt, seat, counter, handoff) {
        Ok((seat, _)) => seat,
        Err((seat, _)) => seat,
    }
}

/// A release of two units, whomever it wakes.
#[inline]
fn release_two<R: Wait>(rt: &R, table: &SemaTable, seat: Seat, counter: CounterId) -> Seat
    requires { (seat.table ≡ table.now) × (counter < length table.now.setting.starts) }
    ensures same { (result.table ≡ seat.table) × (result.number ≡ seat.number) }
    ensures released { ReleasesTwo seat counter result }
{
    match table.post_many(seat, counter, 2) {
        Ok(PostedMany::Done(seat)) => seat,
        Ok(PostedMany::Owes(owing)) => table.wake_some(rt, owing).0,
        Err((seat, _)) => seat,
    }
}

fn adds<R: Wait>(rt: &R, table: &SemaTable, seat: Seat, turns: u32) -> Seat
    requires { (seat.table ≡ table.now) × (0 < length table.now.setting.starts) }
    ensures same { (result.table ≡ seat.table) × (result.number ≡ seat.number) }
    ensures ran { HasRun Work.Adds seat turns result }
{
    let mut seat = seat;
    for _turn in 0..turns {
        seat = release(rt, table, seat, CounterId::new(0), false);
    }
    seat
}

fn hands<R: Wait>(rt: &R, table: &SemaTable, seat: Seat, way: Way, turns: u32) -> Seat
    requires { (seat.table ≡ table.now) × (0 < length table.now.setting.starts) }
    ensures same { (result.table ≡ seat.table) × (result.number ≡ seat.number) }
    ensures ran { HasRun (Work.Hands way) seat turns result }
{
    let own = u32::from(seat.id().number());
    let takes = counter(table, own);
    let gives = counter(table, own + 1);
    let mut seat = seat;
    for _turn in 0..turns {
        seat = table.acquire(rt, seat, takes, way.lifo);
        seat = release(rt, table, seat, gives, way.handoff);
    }
    seat
}

fn hands_two<R: Wait>(rt: &R, table: &SemaTable, seat: Seat, turns: u32) -> Seat
    requires { (seat.table ≡ table.now) × (0 < length table.now.setting.starts) }
    ensures same { (result.table ≡ seat.table) × (result.number ≡ seat.number) }
    ensures ran { HasRun Work.HandsTwo seat turns result }
{
    let own = u32::from(seat.id().number());
    let takes = counter(table, own);
    let gives = counter(table, own + 1);
    let mut seat = seat;
    for _turn in 0..turns {
        seat = table.acquire(rt, seat, takes, false);
        seat = table.acquire(rt, seat, takes, false);
        seat = release_two(rt, table, seat, gives);
    }
    seat
}

/// A release, and then a unit taken: by a try, and by an acquire where that took nothing.
#[inline(always)]
fn round<R: Wait>(rt: &R, table: &SemaTable, seat: Seat, counter: CounterId, way: Way) -> Seat
    requires { (seat.table ≡ table.now) × (counter < length table.now.setting.starts) }
    ensures same { (result.table ≡ seat.table) × (result.number ≡ seat.number) }
    ensures went { GoesRound seat counter way result }
    ensures fewer { 0 < seat.left → result.left < seat.left }
{
    let mut seat = release(rt, table, seat, counter, way.handoff);
    match table.try_acquire(&mut seat, counter) {
        Tried::Taken => seat,
        Tried::Zero | Tried::Lost => table.acquire(rt, seat, counter, way.lifo),
    }
}

fn rounds<R: Wait>(rt: &R, table: &SemaTable, seat: Seat) -> Seat
    requires { (seat.table ≡ table.now) × (0 < length table.now.setting.starts) }
    ensures same { (result.table ≡ seat.table) × (result.number ≡ seat.number) }
    ensures out { HasRunOut Work.Rounds seat result }
{
    let first = CounterId::new(0);
    let mut seat = seat;
    while seat.left() > 0 {
        seat = round(rt, table, seat, first, PLAIN);
        if seat.left() == 0 {
            return seat;
        }
        seat = round(rt, table, seat, first, ODD);
    }
    seat
}

/// The number that is drawn after this one (Marsaglia's xorshift of 64 bits).
fn draw(drawn: u64) -> u64 {
    let drawn = drawn ^ (drawn << 13);
    let drawn = drawn ^ (drawn >> 7);
    drawn ^ (drawn << 17)
}

/// One of so many, by a number that was drawn. There is no division in it, which takes as long as a step.
fn one_of(drawn: u64, many: u32) -> u32
    requires { 0 < many }
    ensures { result < many }
{
    let high = (drawn >> 32) as u32;
    ((u64::from(high) * u64::from(many)) >> 32) as u32
}

fn spread<R: Wait>(rt: &R, table: &SemaTable, seat: Seat) -> Seat
    requires { (seat.table ≡ table.now) × (0 < length table.now.setting.starts) }
    ensures same { (result.table ≡ seat.table) × (result.number ≡ seat.number) }
    ensures out { HasRunOut Work.Spread seat result }
{
    let many = table.counters();
    let mut drawn = FIRST_DRAWN.wrapping_add(u64::from(seat.id().number()));
    let mut seat = seat;
    while seat.left() > 0 {
        drawn = draw(drawn);
        let counter = CounterId::new(one_of(drawn, many));
        seat = round(rt, table, seat, counter, PLAIN);
    }
    seat
}

fn locks<R: Wait>(rt: &R, table: &SemaTable, seat: Seat, turns: u32) -> Seat
    requires { (seat.table ≡ table.now) × (0 < length table.now.setting.starts) }
    ensures same { (result.table ≡ seat.table) × (result.number ≡ seat.number) }
    ensures ran { HasRun Work.Locks seat turns result }
{
    let own = u32::from(seat.id().number());
    let mut seat = seat;
    for turn in 0..turns {
        let counter = counter(table, own.wrapping_add(turn));
        seat = table.acquire(rt, seat, counter, false);
        seat = release(rt, table, seat, counter, false);
    }
    seat
}

impl Work {
    /// How many units a turn adds.
    pub fn adds(self) -> u64 {
        match self {
            Work::HandsTwo => 2,
            _ => 1,
        }
    }

    /// How many it takes.
    pub fn takes(self) -> u64 {
        match self {
            Work::Adds => 0,
            other => other.adds(),
        }
    }

    /// So many turns of a seat; of `Rounds` and `Spread` as many as its limit lets it do.
    pub(crate) fn turns<R: Wait>(self, rt: &R, table: &SemaTable, seat: Seat, turns: u32) -> Seat
        requires { (seat.table ≡ table.now) × (0 < length table.now.setting.starts) }
        ensures same { (result.table ≡ seat.table) × (result.number ≡ seat.number) }
        ensures done { HasDone self seat turns result }
    {
        match self {
            Work::Adds => adds(rt, table, seat, turns),
            Work::Hands(way) => hands(rt, table, seat, way, turns),
            Work::HandsTwo => hands_two(rt, table, seat, turns),
            Work::Rounds => rounds(rt, table, seat),
            Work::Spread => spread(rt, table, seat),
            Work::Locks => locks(rt, table, seat, turns),
        }
    }
}
