//! Scenes of a table in which seats give up, in one thread: rows of calls, and what they tell.

use crate::tables::player::{Call, Told};
use crate::tables::scene_tests::{FIFO, HANDOFF, LIFO, PLAIN, Row, Scene, play_in_a_table};
use sema_table::Tried;

/// A seat that gave up rests: it is woken by nobody, and may try.
const LEAVES_ALONE: &[Row] = &[
    (0, 0, Call::Enter(FIFO), Told::Asleep(0, 0)),
    (0, 0, Call::Leave, Told::Left),
    (1, 0, Call::Waiters, Told::Number(0)),
    (1, 0, Call::Post, Told::Nothing),
    (0, 0, Call::Try, Told::Tried(Tried::Taken)),
    (0, 0, Call::Counts, Told::Counts(9, 1)),
];

/// A release that has added its unit wakes the next.
const LEAVES_BEFORE_IT_IS_WOKEN: &[Row] = &[
    (0, 0, Call::Enter(FIFO), Told::Asleep(0, 0)),
    (1, 0, Call::Enter(FIFO), Told::Asleep(1, 0)),
    (2, 0, Call::Post, Told::Owes),
    (0, 0, Call::Leave, Told::Left),
    (2, 0, Call::Wake(PLAIN), Told::Wakes(1, 0)),
    (1, 0, Call::Poll, Told::Woken),
    (1, 0, Call::Retry, Told::Taken),
];

/// A unit that was handed is not lost.
const FINDS_ITS_UNIT: &[Row] = &[
    (0, 0, Call::Enter(FIFO), Told::Asleep(0, 0)),
    (1, 0, Call::Release(HANDOFF), Told::Hands(0, 0)),
    (0, 0, Call::Leave, Told::Handed),
    (0, 0, Call::Value, Told::Number(0)),
    (0, 0, Call::Counts, Told::Counts(10, 1)),
];

/// One that was woken has to look.
const FINDS_ITS_GRANT: &[Row] = &[
    (0, 0, Call::Enter(FIFO), Told::Asleep(0, 0)),
    (1, 0, Call::Release(PLAIN), Told::Wakes(0, 0)),
    (0, 0, Call::Leave, Told::Woken),
    (0, 0, Call::Retry, Told::Taken),
];

/// Each wait has a turn of its own, and another that sleeps stays.
const LEAVES_TEN_TIMES: &[Row] = &[
    (1, 0, Call::Enter(FIFO), Told::Asleep(1, 0)),
    (0, 0, Call::Enter(FIFO), Told::Asleep(0, 0)),
    (0, 0, Call::Leave, Told::Left),
    (0, 0, Call::Enter(FIFO), Told::Asleep(0, 1)),
    (0, 0, Call::Leave, Told::Left),
    (0, 0, Call::Enter(FIFO), Told::Asleep(0, 2)),
    (0, 0, Call::Leave, Told::Left),
    (0, 0, Call::Enter(FIFO), Told::Asleep(0, 3)),
    (0, 0, Call::Leave, Told::Left),
    (0, 0, Call::Enter(FIFO), Told::Asleep(0, 4)),
    (0, 0, Call::Leave, Told::Left),
    (0, 0, Call::Enter(FIFO), Told::Asleep(0, 5)),
    (0, 0, Call::Leave, Told::Left),
    (0, 0, Call::Enter(FIFO), Told::Asleep(0, 6)),
    (0, 0, Call::Leave, Told::Left),
    (0, 0, Call::Enter(FIFO), Told::Asleep(0, 7)),
    (0, 0, Call::Leave, Told::Left),
    (0, 0, Call::Enter(FIFO), Told::Asleep(0, 8)),
    (0, 0, Call::Leave, Told::Left),
    (0, 0, Call::Enter(FIFO), Told::Asleep(0, 9)),
    (0, 0, Call::Leave, Told::Left),
    (2, 0, Call::Waiters, Told::Number(1)),
    (2, 0, Call::Release(PLAIN), Told::Wakes(1, 0)),
    (1, 0, Call::Poll, Told::Woken),
    (1, 0, Call::Retry, Told::Taken),
];

/// One leaves from the middle: the others keep their order.
const LEAVES_FROM_THE_MIDDLE: &[Row] = &[
    (0, 0, Call::Enter(FIFO), Told::Asleep(0, 0)),
    (1, 0, Call::Enter(FIFO), Told::Asleep(1, 0)),
    (2, 0, Call::Enter(FIFO), Told::Asleep(2, 0)),
    (1, 0, Call::Leave, Told::Left),
    (3, 0, Call::Waiters, Told::Number(2)),
    (3, 0, Call::Release(PLAIN), Told::Wakes(0, 0)),
    (3, 0, Call::Release(PLAIN), Told::Wakes(2, 0)),
    (0, 0, Call::Poll, Told::Woken),
    (0, 0, Call::Retry, Told::Taken),
    (2, 0, Call::Poll, Told::Woken),
    (2, 0, Call::Retry, Told::Taken),
];

/// The call that leaves a held lock: the wait is queued, was handed a unit, or was woken.
const TRIES_TO_LEAVE: &[Row] = &[
    (0, 0, Call::TryEnter(LIFO), Told::Asleep(0, 0)),
    (0, 0, Call::TryLeave, Told::Left),
    (1, 0, Call::Waiters, Told::Number(0)),
    (0, 0, Call::TryEnter(FIFO), Told::Asleep(0, 1)),
    (1, 0, Call::Release(HANDOFF), Told::Hands(0, 1)),
    (0, 0, Call::TryLeave, Told::Handed),
    (0, 0, Call::TryEnter(FIFO), Told::Asleep(0, 2)),
    (1, 0, Call::Release(PLAIN), Told::Wakes(0, 2)),
    (0, 0, Call::TryLeave, Told::Woken),
    (0, 0, Call::RetryAtOnce, Told::Taken),
    (0, 0, Call::Counts, Told::Counts(9, 2)),
];

/// A seat that has no unit left to spend sleeps on; where a grant has come it finds that.
const SPENDS_ITS_LIMIT: &[Row] = &[
    (0, 0, Call::Enter(FIFO), Told::Asleep(0, 0)),
    (0, 0, Call::Leave, Told::Left),
    (0, 0, Call::Counts, Told::Counts(1, 0)),
    (0, 0, Call::Post, Told::Nothing),
    (0, 0, Call::Counts, Told::Counts(0, 0)),
    (0, 0, Call::Try, Told::Tried(Tried::Taken)),
    (0, 0, Call::Enter(FIFO), Told::Asleep(0, 1)),
    (0, 0, Call::Leave, Told::LimitReached),
    (0, 0, Call::TryLeave, Told::LimitReached),
    (1, 0, Call::Waiters, Told::Number(1)),
    (1, 0, Call::Release(PLAIN), Told::Wakes(0, 1)),
    (0, 0, Call::Leave, Told::Woken),
    (0, 0, Call::Retry, Told::Taken),
    (0, 0, Call::Counts, Told::Counts(0, 2)),
];

static SCENES: [Scene; 8] = [
    (0, 1, 1, 10, LEAVES_ALONE),
    (0, 1, 1, 10, LEAVES_BEFORE_IT_IS_WOKEN),
    (0, 1, 1, 10, FINDS_ITS_UNIT),
    (0, 1, 1, 10, FINDS_ITS_GRANT),
    (0, 1, 1, 10, LEAVES_TEN_TIMES),
    (0, 1, 1, 10, LEAVES_FROM_THE_MIDDLE),
    (0, 1, 1, 10, TRIES_TO_LEAVE),
    (0, 1, 1, 2, SPENDS_ITS_LIMIT),
];

#[test]
fn scenes_of_seats_that_give_up_end_as_known(rt: HostRuntime) {
    for scene in &SCENES {
        play_in_a_table(&rt, rt.alloc(), scene);
    }
}
