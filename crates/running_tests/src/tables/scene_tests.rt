//! Scenes of a table, in one thread: rows of calls, and what they tell.

ghost use Rattle.std.specs.Prelude.{◌≡◌, All};

use crate::tables::given::{Sizes, holds, made};
use crate::tables::player::{Call, Player, Told};
use sema_table::{Seat, SemaTable, Tried};
use std::alloc::Global;
use std::mem;
use std::process::Abort;
use std::sync::Wait;

/// A wait comes in as the last.
pub(crate) const FIFO: bool = false;
/// A wait comes in as the first.
pub(crate) const LIFO: bool = true;
/// A release wakes without a unit.
pub(crate) const PLAIN: bool = false;
/// A release wakes with a unit, where there is one.
pub(crate) const HANDOFF: bool = true;

/// The number of a seat, its call on this counter, and what the call tells.
pub(crate) type Row = (usize, u32, Call, Told);

/// A try at zero takes nothing.
const TRIES_AT_ZERO: &[Row] = &[
    (0, 0, Call::Value, Told::Number(0)),
    (0, 0, Call::Try, Told::Tried(Tried::Zero)),
    (1, 0, Call::Post, Told::Nothing),
    (1, 0, Call::Value, Told::Number(1)),
];

/// A spin ends and takes nothing.
const SPINS_IN_VAIN: &[Row] = &[
    (0, 0, Call::Spin, Told::Nothing),
    (0, 0, Call::Post, Told::Nothing),
    (0, 0, Call::Spin, Told::Nothing),
    (0, 0, Call::Value, Told::Number(1)),
    (0, 0, Call::Counts, Told::Counts(9, 0)),
];

/// An acquire that spins takes a unit that is there.
const SPINS_AND_TAKES: &[Row] = &[
    (0, 0, Call::Post, Told::Nothing),
    (0, 0, Call::AcquireSpinning, Told::Nothing),
    (0, 0, Call::Value, Told::Number(0)),
    (0, 0, Call::Counts, Told::Counts(9, 1)),
];

/// Of two units one is taken by a try, and one under the lock.
const TAKES_TWO: &[Row] = &[
    (0, 0, Call::Try, Told::Tried(Tried::Taken)),
    (0, 0, Call::Counts, Told::Counts(10, 1)),
    (0, 0, Call::Value, Told::Number(1)),
    (0, 0, Call::Enter(FIFO), Told::Taken),
    (0, 0, Call::Value, Told::Number(0)),
    (0, 0, Call::Counts, Told::Counts(10, 2)),
    (0, 0, Call::Waiters, Told::Number(0)),
];

/// A seat sleeps until it is woken.
const SLEEPS_UNTIL_WOKEN: &[Row] = &[
    (0, 0, Call::Enter(FIFO), Told::Asleep(0, 0)),
    (1, 0, Call::Waiters, Told::Number(1)),
    (0, 0, Call::Poll, Told::Still),
    (1, 0, Call::Post, Told::Owes),
    (1, 0, Call::Wake(PLAIN), Told::Wakes(0, 0)),
    (1, 0, Call::Value, Told::Number(1)),
    (0, 0, Call::Poll, Told::Woken),
    (0, 0, Call::Retry, Told::Taken),
    (1, 0, Call::Value, Told::Number(0)),
    (1, 0, Call::Waiters, Told::Number(0)),
];

/// The third seat takes the unit of the second before the first is woken.
const LOSES_ITS_UNIT: &[Row] = &[
    (0, 0, Call::Enter(FIFO), Told::Asleep(0, 0)),
    (1, 0, Call::Post, Told::Owes),
    (2, 0, Call::Try, Told::Tried(Tried::Taken)),
    (1, 0, Call::Wake(PLAIN), Told::Wakes(0, 0)),
    (0, 0, Call::Poll, Told::Woken),
    (0, 0, Call::Retry, Told::Asleep(0, 1)),
    (2, 0, Call::Value, Told::Number(0)),
    (1, 0, Call::Release(PLAIN), Told::Wakes(0, 1)),
    (0, 0, Call::Poll, Told::Woken),
    (0, 0, Call::Retry, Told::Taken),
];

/// The third seat hands its unit to the first, and then releases once more, to the second.
const HANDS_OVER: &[Row] = &[
    (0, 0, Call::Enter(FIFO), Told::Asleep(0, 0)),
    (1, 0, Call::Enter(FIFO), Told::Asleep(1, 0)),
    (2, 0, Call::Release(HANDOFF), Told::Hands(0, 0)),
    (2, 0, Call::Value, Told::Number(0)),
    (2, 0, Call::Waiters, Told::Number(1)),
    (0, 0, Call::Poll, Told::Handed),
    (0, 0, Call::Counts, Told::Counts(10, 1)),
    (1, 0, Call::Poll, Told::Still),
    (2, 0, Call::Release(PLAIN), Told::Wakes(1, 0)),
    (1, 0, Call::Poll, Told::Woken),
    (1, 0, Call::Retry, Told::Taken),
];

/// Two sleep at the end of the queue and two at its front: the first of it is woken.
const IN_ORDER: &[Row] = &[
    (0, 0, Call::Enter(FIFO), Told::Asleep(0, 0)),
    (1, 0, Call::Enter(FIFO), Told::Asleep(1, 0)),
    (2, 0, Call::Enter(LIFO), Told::Asleep(2, 0)),
    (3, 0, Call::Enter(LIFO), Told::Asleep(3, 0)),
    (4, 0, Call::Release(PLAIN), Told::Wakes(3, 0)),
    (4, 0, Call::Release(PLAIN), Told::Wakes(2, 0)),
    (4, 0, Call::Release(PLAIN), Told::Wakes(0, 0)),
    (4, 0, Call::Release(PLAIN), Told::Wakes(1, 0)),
    (4, 0, Call::Value, Told::Number(4)),
    (0, 0, Call::Poll, Told::Woken),
    (0, 0, Call::Retry, Told::Taken),
    (1, 0, Call::Poll, Told::Woken),
    (1, 0, Call::Retry, Told::Taken),
    (2, 0, Call::Poll, Told::Woken),
    (2, 0, Call::Retry, Told::Taken),
    (3, 0, Call::Poll, Told::Woken),
    (3, 0, Call::Retry, Told::Taken),
];

/// An acquire takes what is there: two units, one with lifo.
const TAKES_WHAT_IS_THERE: &[Row] = &[
    (1, 0, Call::Post, Told::Nothing),
    (1, 0, Call::Release(HANDOFF), Told::WakesNobody),
    (0, 0, Call::Acquire(FIFO), Told::Nothing),
    (0, 0, Call::Acquire(LIFO), Told::Nothing),
    (0, 0, Call::Counts, Told::Counts(10, 2)),
    (1, 0, Call::Counts, Told::Counts(8, 0)),
    (0, 0, Call::Value, Told::Number(0)),
];

/// A sleep ends at once where its grant is there: with a unit, and without.
const FINDS_ITS_GRANT: &[Row] = &[
    (0, 0, Call::Enter(FIFO), Told::Asleep(0, 0)),
    (1, 0, Call::Release(HANDOFF), Told::Hands(0, 0)),
    (0, 0, Call::Sleep, Told::Handed),
    (0, 0, Call::Counts, Told::Counts(10, 1)),
    (0, 0, Call::Enter(LIFO), Told::Asleep(0, 1)),
    (1, 0, Call::Release(PLAIN), Told::Wakes(0, 1)),
    (0, 0, Call::Sleep, Told::Woken),
    (0, 0, Call::Retry, Told::Taken),
    (0, 0, Call::Counts, Told::Counts(10, 2)),
    (1, 0, Call::Counts, Told::Counts(8, 0)),
    (0, 0, Call::Value, Told::Number(0)),
];

/// More units than waits wake each wait.
const MORE_UNITS_THAN_WAITS: &[Row] = &[
    (0, 0, Call::Enter(FIFO), Told::Asleep(0, 0)),
    (1, 0, Call::PostMany(5), Told::Owes),
    (1, 0, Call::WakeSome, Told::Number(1)),
    (1, 0, Call::Value, Told::Number(5)),
    (1, 0, Call::Waiters, Told::Number(0)),
    (0, 0, Call::Poll, Told::Woken),
    (0, 0, Call::Retry, Told::Taken),
    (1, 0, Call::Value, Told::Number(4)),
];

/// A whole release of many wakes each wait.
const MANY_AT_ONCE: &[Row] = &[
    (0, 0, Call::Enter(FIFO), Told::Asleep(0, 0)),
    (1, 0, Call::ReleaseMany(5), Told::Number(1)),
    (1, 0, Call::Value, Told::Number(5)),
    (1, 0, Call::Waiters, Told::Number(0)),
    (0, 0, Call::Poll, Told::Woken),
    (0, 0, Call::Retry, Told::Taken),
];

/// A seat adds at once no more than its limit.
const POSTS_TO_ITS_LIMIT: &[Row] = &[
    (0, 0, Call::PostMany(11), Told::Refused),
    (0, 0, Call::Counts, Told::Counts(10, 0)),
    (0, 0, Call::Value, Told::Number(0)),
    (0, 0, Call::PostMany(10), Told::Nothing),
    (0, 0, Call::Counts, Told::Counts(0, 0)),
    (0, 0, Call::Value, Told::Number(10)),
];

/// A whole release of many adds no more than its limit.
const RELEASES_TO_ITS_LIMIT: &[Row] = &[
    (0, 0, Call::ReleaseMany(11), Told::Refused),
    (0, 0, Call::Value, Told::Number(0)),
    (0, 0, Call::ReleaseMany(10), Told::Number(0)),
    (0, 0, Call::Counts, Told::Counts(0, 0)),
    (0, 0, Call::Value, Told::Number(10)),
];

/// As many waits are woken as units were added.
const TWO_OF_THREE: &[Row] = &[
    (0, 0, Call::Enter(FIFO), Told::Asleep(0, 0)),
    (1, 0, Call::Enter(FIFO), Told::Asleep(1, 0)),
    (2, 0, Call::Enter(FIFO), Told::Asleep(2, 0)),
    (3, 0, Call::PostMany(2), Told::Owes),
    (3, 0, Call::WakeSome, Told::Number(2)),
    (3, 0, Call::Value, Told::Number(2)),
    (3, 0, Call::Waiters, Told::Number(1)),
    (2, 0, Call::Poll, Told::Still),
    (0, 0, Call::Poll, Told::Woken),
    (0, 0, Call::Retry, Told::Taken),
    (1, 0, Call::Poll, Told::Woken),
    (1, 0, Call::Retry, Told::Taken),
    (3, 0, Call::Release(PLAIN), Told::Wakes(2, 0)),
    (2, 0, Call::Poll, Told::Woken),
    (2, 0, Call::Retry, Told::Taken),
];

/// A release wakes nobody of another counter: here of 0, whose root counter 251 has too.
const WAKES_NOBODY: &[Row] = &[
    (0, 0, Call::Enter(FIFO), Told::Asleep(0, 0)),
    (1, 251, Call::Release(PLAIN), Told::WakesNobody),
    (1, 251, Call::Value, Told::Number(1)),
    (1, 0, Call::Value, Told::Number(0)),
    (1, 251, Call::Waiters, Told::Number(1)),
    (1, 0, Call::Release(PLAIN), Told::Wakes(0, 0)),
    (0, 0, Call::Poll, Told::Woken),
    (0, 0, Call::Retry, Told::Taken),
];

/// Calls that leave a held lock: a woken seat loses the unit to a try, sleeps in front, and is handed the next.
const LOSES_AND_IS_HANDED: &[Row] = &[
    (0, 0, Call::TryEnter(FIFO), Told::Asleep(0, 0)),
    (1, 0, Call::Post, Told::Owes),
    (1, 0, Call::TryWake(PLAIN), Told::Wakes(0, 0)),
    (1, 0, Call::Try, Told::Tried(Tried::Taken)),
    (0, 0, Call::Poll, Told::Woken),
    (0, 0, Call::RetryAtOnce, Told::Zero),
    (0, 0, Call::TryEnter(LIFO), Told::Asleep(0, 1)),
    (1, 0, Call::Post, Told::Owes),
    (1, 0, Call::TryWake(HANDOFF), Told::Hands(0, 1)),
    (1, 0, Call::Value, Told::Number(0)),
    (0, 0, Call::Poll, Told::Handed),
    (0, 0, Call::Counts, Told::Counts(10, 1)),
    (1, 0, Call::Counts, Told::Counts(8, 1)),
];

/// Three units wake two, in the order of the queue; each takes one, and the third is taken under the lock.
const TWO_ARE_NAMED: &[Row] = &[
    (0, 0, Call::TryEnter(FIFO), Told::Asleep(0, 0)),
    (1, 0, Call::TryEnter(LIFO), Told::Asleep(1, 0)),
    (2, 0, Call::PostMany(3), Told::Owes),
    (2, 0, Call::TryWakeSome, Told::WakesBoth(1, 0)),
    (2, 0, Call::Value, Told::Number(3)),
    (0, 0, Call::Poll, Told::Woken),
    (0, 0, Call::RetryAtOnce, Told::Taken),
    (1, 0, Call::Poll, Told::Woken),
    (1, 0, Call::RetryAtOnce, Told::Taken),
    (2, 0, Call::TryEnter(FIFO), Told::Taken),
    (2, 0, Call::Value, Told::Number(0)),
];

/// A seat adds up to its limit of two.
const ADDS_TO_ITS_LIMIT: &[Row] = &[
    (0, 0, Call::Post, Told::Nothing),
    (0, 0, Call::Value, Told::Number(1)),
    (0, 0, Call::Post, Told::Nothing),
    (0, 0, Call::Post, Told::Refused),
    (0, 0, Call::Counts, Told::Counts(0, 0)),
    (0, 0, Call::Value, Told::Number(2)),
];

/// The same past the highest start.
const ADDS_PAST_THE_HIGHEST_START: &[Row] = &[
    (0, 0, Call::Post, Told::Nothing),
    (0, 0, Call::Value, Told::Number(4_294_967_296)),
    (0, 0, Call::Post, Told::Nothing),
    (0, 0, Call::Post, Told::Refused),
    (0, 0, Call::Counts, Told::Counts(0, 0)),
    (0, 0, Call::Value, Told::Number(4_294_967_297)),
];

/// The number at which its counters start, how many counters and roots there are, and its release limit.
pub(crate) type Scene = (u32, usize, u32, u64, &'static [Row]);

static SCENES: [Scene; 20] = [
    (0, 1, 1, 10, TRIES_AT_ZERO),
    (0, 1, 1, 10, SPINS_IN_VAIN),
    (0, 1, 1, 10, SPINS_AND_TAKES),
    (2, 1, 1, 10, TAKES_TWO),
    (0, 1, 1, 10, SLEEPS_UNTIL_WOKEN),
    (0, 1, 1, 10, LOSES_ITS_UNIT),
    (0, 1, 1, 10, HANDS_OVER),
    (0, 1, 1, 10, IN_ORDER),
    (0, 1, 1, 10, TAKES_WHAT_IS_THERE),
    (0, 1, 1, 10, FINDS_ITS_GRANT),
    (0, 1, 1, 10, MORE_UNITS_THAN_WAITS),
    (0, 1, 1, 10, MANY_AT_ONCE),
    (0, 1, 1, 10, POSTS_TO_ITS_LIMIT),
    (0, 1, 1, 10, RELEASES_TO_ITS_LIMIT),
    (0, 1, 1, 10, TWO_OF_THREE),
    (0, 252, 251, 10, WAKES_NOBODY),
    (0, 1, 1, 10, LOSES_AND_IS_HANDED),
    (0, 1, 1, 10, TWO_ARE_NAMED),
    (0, 1, 1, 2, ADDS_TO_ITS_LIMIT),
    (4_294_967_295, 1, 1, 2, ADDS_PAST_THE_HIGHEST_START),
];

const SEATS: u32 = 5;

/// The seats of a table, by their numbers.
struct Players<'t> {
    first: Player<'t>,
    second: Player<'t>,
    third: Player<'t>,
    fourth: Player<'t>,
    fifth: Player<'t>,
}

impl<'t> Players<'t> {
    fn player(&mut self, rt: &impl Abort, who: usize) -> &mut Player<'t> {
        match who {
            0 => &mut self.first,
            1 => &mut self.second,
            2 => &mut self.third,
            3 => &mut self.fourth,
            4 => &mut self.fifth,
            _ => panic!(rt; "no such seat"),
        }
    }
}

/// The seat of the row makes its call.
fn makes<R: Abort + Wait>(rt: &R, players: &mut Players<'_>, row: &Row) {
    let (who, number, call, told) = *row;
    let player = mem::replace(players.player(rt, who), Player::Away);
    let (player, answer) = player.calls(rt, number, call);
    holds(rt, answer == told);
    match mem::replace(players.player(rt, who), player) {
        Player::Away => {}
        _other => panic!(rt; "another seat is there"),
    }
}

/// The seats make the calls in their order, and rest then.
fn play<R: Abort + Wait>(rt: &R, table: &SemaTable, seats: Vec<Seat>, rows: &[Row])
    requires { All (λ s. s.table ≡ table.now) seats.items }
{
    let mut seats = seats;
    let fifth = Player::of(rt, table, &mut seats);
    let fourth = Player::of(rt, table, &mut seats);
    let third = Player::of(rt, table, &mut seats);
    let second = Player::of(rt, table, &mut seats);
    let first = Player::of(rt, table, &mut seats);
    let mut players = Players {
        first,
        second,
        third,
        fourth,
        fifth,
    };
    for row in rows {
        makes(rt, &mut players, row);
    }
    let Players {
        first,
        second,
        third,
        fourth,
        fifth,
    } = players;
    first.ends(rt);
    second.ends(rt);
    third.ends(rt);
    fourth.ends(rt);
    fifth.ends(rt);
}

/// The scene in a new table.
pub(crate) fn play_in_a_table<R: Abort + Wait>(rt: &R, alloc: Global, scene: &Scene) {
    let (start, counters, roots, release_limit, rows) = *scene;
    let sizes = Sizes {
        counters,
        start,
        seats: SEATS,
        roots,
        release_limit,
    };
    let (table, seats) = made(rt, alloc, &sizes);
    play(rt, &table, seats, rows);
}

#[test]
fn scenes_of_a_table_end_as_known(rt: HostRuntime) {
    for scene in &SCENES {
        play_in_a_table(&rt, rt.alloc(), scene);
    }
}
