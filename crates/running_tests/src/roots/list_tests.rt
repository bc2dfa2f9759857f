//! What is written, and the lists by a table of calls.
//!
//! A call that answers want of memory is made once more. So each test passes whichever single allocation is
//! refused (`rt try --test --fail-alloc N`, for each N), and shows that a refused call can be made again.

use crate::roots::given::{has_text, holds};
use std::alloc::Global;
use std::process::Abort;
use waiters::{CounterId, ListKey, Lists, NoMemory, SeatId, Wait, WaitId};

#[test]
fn numbers_are_written(rt: HostRuntime) {
    let alloc = rt.alloc();
    let wait = WaitId {
        seat: SeatId::new(0),
        turn: 1,
    };
    has_text(&rt, alloc, &wait, "0.1");
    let counter = CounterId::new(4294967295);
    has_text(&rt, alloc, &counter, "4294967295");
    has_text(&rt, alloc, &NoMemory, "no memory");
}

fn wait(seat: u16, ticket: u64) -> Wait {
    Wait {
        id: WaitId {
            seat: SeatId::new(seat),
            turn: 0,
        },
        ticket,
    }
}

/// The wait of this seat and ticket, if there is one.
fn wait_of(told: Option<(u16, u64)>) -> Option<Wait> {
    match told {
        Some((seat, ticket)) => Some(wait(seat, ticket)),
        None => None,
    }
}

/// A call on one list.
enum Call {
    PushBack(u16, u64),
    PushFront(u16, u64),
    First,
    PopFront,
    TakeTicket(u64),
}

/// A call, the seat and ticket of the wait that it answers, and the length of the list and the room after it.
struct Row(Call, Option<(u16, u64)>, usize, usize);

fn answer(rt: &impl Abort, lists: &mut Lists, key: ListKey, call: &Call) -> Option<Wait> {
    assert!(rt; lists.is_open(key));
    match *call {
        Call::PushBack(seat, ticket) => {
            assert!(rt; lists.room() > 0);
            lists.push_back(key, wait(seat, ticket));
            None
        }
        Call::PushFront(seat, ticket) => {
            assert!(rt; lists.room() > 0);
            lists.push_front(key, wait(seat, ticket));
            None
        }
        Call::First => lists.first(key),
        Call::PopFront => lists.pop_front(key),
        Call::TakeTicket(ticket) => lists.take_ticket(key, ticket),
    }
}

fn answers_row(rt: &impl Abort, lists: &mut Lists, key: ListKey, row: &Row) {
    let answered = answer(rt, lists, key, &row.0);
    holds(rt, answered == wait_of(row.1));
    assert!(rt; lists.is_open(key));
    holds(rt, (lists.len(key), lists.room()) == (row.2, row.3));
}

fn answers_as_written(rt: &impl Abort, lists: &mut Lists, key: ListKey, rows: &[Row]) {
    for row in rows {
        answers_row(rt, lists, key, row);
    }
}

/// The seats are copied into a buffer of so many of two places: how many, and what stands there then.
fn has_seats(lists: &Lists, key: ListKey, room: usize, copied: usize, expected: [u16; 2]) -> bool {
    let mut seats = [SeatId::new(9); 2];
    if !lists.is_open(key) || room > 2 {
        return false;
    }
    let told = lists.copy_into(key, &mut seats[..room]);
    told == copied && seats == [SeatId::new(expected[0]), SeatId::new(expected[1])]
}

fn has_ids(
    alloc: Global,
    lists: &Lists,
    key: ListKey,
    expected: &[WaitId],
) -> Result<bool, NoMemory> {
    if !lists.is_open(key) {
        return Ok(false);
    }
    let ids = lists.ids(alloc, key)?;
    Ok(ids.as_slice() == expected)
}

fn has_ids_again(alloc: Global, lists: &Lists, key: ListKey, expected: &[WaitId]) -> bool {
    match has_ids(alloc, lists, key, expected) {
        Ok(told) => told,
        Err(NoMemory) => has_ids(alloc, lists, key, expected) == Ok(true),
    }
}

fn open(rt: &impl Abort, lists: &mut Lists) -> ListKey {
    assert!(rt; lists.list_room() > 0);
    lists.open()
}

fn close(rt: &impl Abort, lists: &mut Lists, key: ListKey) {
    assert!(rt; lists.is_open(key) && lists.len(key) == 0);
    lists.close(key);
}

fn copied(rt: &impl Abort, lists: &Lists) -> Lists {
    match lists.clone() {
        Ok(copy) => copy,
        Err(_) => lists.clone().expect(rt, "memory"),
    }
}

fn made(rt: &impl Abort, alloc: Global, waits: usize, lists: usize) -> Lists {
    match Lists::with_room(alloc, waits, lists) {
        Ok(made) => made,
        Err(NoMemory) => Lists::with_room(alloc, waits, lists).expect(rt, "memory"),
    }
}

// Each test is in parts, since a body with many steps is slow to prove, above all where it owns lists.

/// There is room for so many waits, and for so many more lists.
fn has_room(rt: &impl Abort, lists: &Lists, waits: usize, more: usize) {
    holds(rt, lists.room() == waits);
    holds(rt, lists.list_room() == more);
}

/// Waits come in at both ends.
static COMES_IN: [Row; 3] = [
    Row(Call::PushBack(0, 5), None, 1, 2),
    Row(Call::PushBack(1, 7), None, 2, 1),
    Row(Call::PushFront(2, 5), None, 3, 0),
];

/// One is taken out by its ticket.
static TAKES: [Row; 3] = [
    Row(Call::TakeTicket(5), Some((2, 5)), 2, 1),
    Row(Call::TakeTicket(9), None, 2, 1),
    Row(Call::First, Some((0, 5)), 2, 1),
];

static GIVES: [Row; 4] = [
    Row(Call::PopFront, Some((0, 5)), 1, 2),
    Row(Call::PopFront, Some((1, 7)), 0, 3),
    Row(Call::PopFront, None, 0, 3),
    Row(Call::First, None, 0, 3),
];

/// A list is opened where there is room for two, answers, shows the two waits that are left, and is closed.
fn answers(rt: &impl Abort, alloc: Global, lists: &mut Lists) {
    has_room(rt, lists, 3, 2);
    let key = open(rt, lists);
    holds(rt, lists.is_open(key));
    has_room(rt, lists, 3, 1);
    answers_as_written(rt, lists, key, &COMES_IN);
    holds(rt, has_seats(lists, key, 2, 2, [2, 0]));
    answers_as_written(rt, lists, key, &TAKES);
    holds(rt, has_seats(lists, key, 1, 1, [0, 9]));
    holds(rt, has_seats(lists, key, 2, 2, [0, 1]));
    let ids = [wait(0, 5).id, wait(1, 7).id];
    holds(rt, has_ids_again(alloc, lists, key, ids.as_slice()));
    answers_as_written(rt, lists, key, &GIVES);
    close(rt, lists, key);
    holds(rt, !lists.is_open(key));
    has_room(rt, lists, 3, 2);
}

static OF_A_COPY: [Row; 5] = [
    Row(Call::PushBack(1, 7), None, 2, 1),
    Row(Call::PushBack(2, 7), None, 3, 0),
    Row(Call::PopFront, Some((0, 5)), 2, 1),
    Row(Call::TakeTicket(7), Some((1, 7)), 1, 2),
    Row(Call::First, Some((2, 7)), 1, 2),
];

/// The copy goes on.
fn copy_answers(rt: &impl Abort, copy: &mut Lists, key: ListKey) {
    has_room(rt, copy, 2, 1);
    answers_as_written(rt, copy, key, &OF_A_COPY);
    let another = open(rt, copy);
    answers_row(rt, copy, another, &Row(Call::First, None, 0, 2));
    answers_row(rt, copy, key, &Row(Call::First, Some((2, 7)), 1, 2));
}

/// The copy goes on, and the lists stay as they were.
fn is_copied(rt: &impl Abort, lists: &mut Lists) {
    let key = open(rt, lists);
    answers_row(rt, lists, key, &Row(Call::PushBack(0, 5), None, 1, 2));
    copy_answers(rt, &mut copied(rt, lists), key);
    answers_row(rt, lists, key, &Row(Call::First, Some((0, 5)), 1, 2));
}

static ONE_LEFT: [Row; 3] = [
    Row(Call::PushBack(0, 5), None, 1, 2),
    Row(Call::PushBack(1, 7), None, 2, 1),
    Row(Call::PopFront, Some((0, 5)), 1, 2),
];

/// One list with a wait, whose record is not the first.
fn one_list(rt: &impl Abort, lists: &mut Lists) -> ListKey {
    let key = open(rt, lists);
    answers_as_written(rt, lists, key, &ONE_LEFT);
    key
}

/// Empties the list of `one_list` by calls that see each of its waits.
static EMPTIES: [Row; 3] = [
    Row(Call::PushFront(2, 5), None, 2, 1),
    Row(Call::TakeTicket(7), Some((1, 7)), 1, 2),
    Row(Call::PopFront, Some((2, 5)), 0, 3),
];

/// The list of `one_list`, as it was.
const LEFT: Row = Row(Call::First, Some((1, 7)), 1, 2);

/// Where there were two lists, of which the second has a wait in place of the first's, the lists become as
/// the others are, twice, and need no memory for that.
fn copy_over_others(rt: &impl Abort, lists: &mut Lists, over: &mut Lists) {
    let key = one_list(rt, lists);
    let first = open(rt, over);
    let second = open(rt, over);
    answers_row(rt, over, first, &Row(Call::PushBack(2, 9), None, 1, 2));
    answers_row(rt, over, second, &Row(Call::PushBack(3, 9), None, 1, 1));
    answers_row(rt, over, first, &Row(Call::PopFront, Some((2, 9)), 0, 2));
    holds(rt, over.copy_from(lists).is_ok());
    has_room(rt, over, 2, 1);
    answers_as_written(rt, over, key, &EMPTIES);
    answers_row(rt, lists, key, &LEFT);
    holds(rt, over.copy_from(lists).is_ok());
    answers_row(rt, over, key, &LEFT);
}

/// The lists become as the others are, at the second time where memory was refused.
fn copy_over_smaller(rt: &impl Abort, lists: &mut Lists, over: &mut Lists) {
    let key = one_list(rt, lists);
    if over.copy_from(lists).is_err() {
        holds(rt, over.room() == 0);
        holds(rt, over.copy_from(lists).is_ok());
    }
    answers_as_written(rt, over, key, &EMPTIES);
}

/// What the lists do.
#[derive(Clone, Copy, Drop)]
enum Scene {
    Answer,
    /// A copy answers for itself.
    Copied,
    /// A copy over other lists takes no memory.
    CopiedOverOthers,
    /// A copy over smaller lists takes memory.
    CopiedOverSmaller,
}

/// The scene with new lists.
fn plays(rt: &impl Abort, alloc: Global, scene: Scene) {
    let mut lists = made(rt, alloc, 3, 2);
    match scene {
        Scene::Answer => answers(rt, alloc, &mut lists),
        Scene::Copied => is_copied(rt, &mut lists),
        Scene::CopiedOverOthers => {
            copy_over_others(rt, &mut lists, &mut made(rt, alloc, 3, 2));
        }
        Scene::CopiedOverSmaller => {
            copy_over_smaller(rt, &mut lists, &mut made(rt, alloc, 0, 0));
        }
    }
}

static SCENES: [Scene; 4] = [
    Scene::Answer,
    Scene::Copied,
    Scene::CopiedOverOthers,
    Scene::CopiedOverSmaller,
];

#[test]
fn lists_and_their_copies_answer_as_written(rt: HostRuntime) {
    for scene in &SCENES {
        plays(&rt, rt.alloc(), *scene);
    }
}
