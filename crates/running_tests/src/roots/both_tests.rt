//! Each root by one table of calls, whose answers are known by hand, and the copies of a treap.
//!
//! A refused call is made once more. So each test passes whichever single allocation is refused
//! (`rt try --test --fail-alloc N`, for each N), and shows that after a refusal the memory can still be had.

use crate::roots::calls::{
    COMES_IN, COMES_OUT, Call, counter, has, has_ids_again, make_call, make_calls, queue, wait,
};
use crate::roots::given::{holds, sorted, treap};
use sema_root::{RootStore, TreapPlace, TreapRoot};
use std::alloc::Global;
use std::process::Abort;
use waiters::{CounterId, NoMemory, SeatId, Wait, WaitId};

fn exercise<R: RootStore>(rt: &impl Abort, alloc: Global, root: &mut R) {
    make_calls(rt, root, &COMES_IN);
    let ids = [wait(3).id, wait(1).id];
    holds(rt, has_ids_again(alloc, root, 3, ids.as_slice()));
    make_calls(rt, root, &COMES_OUT);
    holds(rt, has_ids_again(alloc, root, 3, &[]));
}

fn copied(rt: &impl Abort, root: &TreapRoot) -> TreapRoot {
    match root.clone() {
        Ok(copy) => copy,
        Err(_) => root.clone().expect(rt, "memory"),
    }
}

#[test]
fn a_sorted_root_answers_as_written(rt: HostRuntime) {
    let mut root = sorted(&rt, rt.alloc(), 4);
    exercise(&rt, rt.alloc(), &mut root);
}

/// How many of the counters are met, of which so many were met before: those of the nodes below this one have
/// to be the next ones, left to right, in so many levels at most.
fn walk(
    root: &TreapRoot,
    at: Option<CounterId>,
    levels: u32,
    counters: &[u32],
    before: usize,
) -> Option<usize> {
    if levels == 0 {
        return Some(before);
    }
    let Some(at) = at else {
        return Some(before);
    };
    let Some(place) = root.place(at) else {
        return Some(before);
    };
    let here = walk(root, place.left, levels - 1, counters, before)?;
    if here >= counters.len() || counters[here] != at.number() {
        return None;
    }
    walk(root, place.right, levels - 1, counters, here + 1)
}

/// The counters of the tree, left to right.
fn has_counters(rt: &impl Abort, root: &TreapRoot, counters: &[u32]) {
    let met = walk(root, root.top(), 4, counters, 0);
    holds(rt, met == Some(counters.len()));
}

/// The root has this counter alone, at an odd ticket.
fn stands_alone(root: &TreapRoot, at: CounterId) -> bool {
    match root.place(at) {
        Some(
            TreapPlace {
                ticket,
                left: None,
                right: None,
            },
        ) => ticket % 2 == 1 && root.top() == Some(at),
        _ => false,
    }
}

/// A call, and the counters of the tree after it.
type Row = (Call, &'static [u32]);

static COMES_AND_GOES: [Row; 6] = [
    (Call::Queue(3, 1, false), &[3, 5]),
    (Call::Queue(9, 2, false), &[3, 5, 9]),
    (Call::Queue(3, 3, true), &[3, 5, 9]),
    (Call::Dequeue(3, Some(3)), &[3, 5, 9]),
    (Call::Dequeue(3, Some(1)), &[5, 9]),
    (Call::Dequeue(9, Some(2)), &[5]),
];

/// A wait comes in at an empty treap, whose counter stands alone then.
fn comes_first(rt: &impl Abort, root: &mut TreapRoot, number: u32, seat: u16) {
    holds(rt, root.top() == None);
    queue(root, number, seat, false);
    holds(rt, stands_alone(root, counter(number)));
}

fn places(rt: &impl Abort, root: &mut TreapRoot) {
    comes_first(rt, root, 5, 0);
    has_counters(rt, root, &[5]);
    for row in &COMES_AND_GOES {
        make_call(rt, root, &row.0);
        has_counters(rt, root, row.1);
        holds(rt, root.place(counter(7)).is_none());
    }
    make_call(rt, root, &Call::Dequeue(5, Some(0)));
    comes_first(rt, root, 7, 2);
}

/// A counter, and how many waits there are once one came in there.
type Counted = (u32, usize);

/// Whether a counter stands in two treaps alike, or in neither.
fn are_alike(one: Option<TreapPlace>, other: Option<TreapPlace>) -> bool {
    match (one, other) {
        (Some(one), Some(other)) => {
            one.ticket == other.ticket && one.left == other.left && one.right == other.right
        }
        (None, None) => true,
        _ => false,
    }
}

/// Waits of one seat come in at both roots, whose places are the same then; at the end they are full.
fn queue_all(
    rt: &impl Abort,
    root: &mut TreapRoot,
    copy: &mut TreapRoot,
    rows: &[Counted],
    seat: u16,
) {
    for row in rows {
        queue(root, row.0, seat, false);
        queue(copy, row.0, seat, false);
        let at = counter(row.0);
        holds(rt, are_alike(copy.place(at), root.place(at)));
        holds(rt, copy.count() == row.1);
    }
    holds(rt, copy.is_full());
    holds(rt, copy.top() == root.top());
}

fn copy_answers(rt: &impl Abort, root: &mut TreapRoot, copy: &mut TreapRoot) {
    queue_all(rt, root, copy, &[(3, 2), (9, 3), (7, 4)], 1);
    make_call(rt, copy, &Call::Dequeue(5, Some(0)));
    has(rt, copy, 5, 0, None);
    has(rt, root, 5, 1, Some(wait(0)));
}

fn copy_goes_on(rt: &impl Abort, root: &mut TreapRoot) {
    queue(root, 5, 0, false);
    let mut copy = copied(rt, root);
    copy_answers(rt, root, &mut copy);
}

static OF_ONE: [Call; 3] = [
    Call::Queue(5, 0, false),
    Call::Queue(3, 1, false),
    Call::Dequeue(5, Some(0)),
];

static OF_ANOTHER: [Call; 4] = [
    Call::Queue(2, 3, false),
    Call::Queue(8, 3, false),
    Call::Queue(5, 3, false),
    Call::Dequeue(2, Some(3)),
];

/// Another root, with other counters and tickets, becomes as this one is, and needs no memory for that.
fn copy_over_another(rt: &impl Abort, root: &mut TreapRoot, over: &mut TreapRoot) {
    make_calls(rt, root, &OF_ONE);
    make_calls(rt, over, &OF_ANOTHER);
    holds(rt, over.copy_from(root).is_ok());
    holds(rt, over.count() == 1);
    has(rt, over, 3, 1, Some(wait(1)));
    queue_all(rt, root, over, &[(9, 2), (5, 3), (7, 4)], 2);
}

/// The root becomes as the other is, at the second time where memory was refused.
fn becomes_larger(rt: &impl Abort, root: &mut TreapRoot, over: &mut TreapRoot) {
    queue(root, 5, 0, false);
    if over.copy_from(root).is_err() {
        holds(rt, over.is_full());
        holds(rt, over.copy_from(root).is_ok());
    }
    has(rt, over, 5, 1, Some(wait(0)));
    holds(rt, !over.is_full());
}

/// What a treap does.
#[derive(Clone, Copy, Drop)]
enum Scene {
    Answers,
    /// Its places are in the order of counters.
    HasPlaces,
    /// A copy draws the same tickets.
    Copied,
    /// A copy over another root takes no memory.
    CopiedOverAnother,
    /// A copy over a smaller root takes memory.
    CopiedOverSmaller,
}

/// The scene with a new treap.
fn plays(rt: &impl Abort, alloc: Global, scene: Scene) {
    let mut root = treap(rt, alloc, 4, 1);
    match scene {
        Scene::Answers => exercise(rt, alloc, &mut root),
        Scene::HasPlaces => places(rt, &mut root),
        Scene::Copied => copy_goes_on(rt, &mut root),
        Scene::CopiedOverAnother => {
            copy_over_another(rt, &mut root, &mut treap(rt, alloc, 4, 2));
        }
        Scene::CopiedOverSmaller => {
            becomes_larger(rt, &mut root, &mut treap(rt, alloc, 0, 2));
        }
    }
}

static SCENES: [Scene; 5] = [
    Scene::Answers,
    Scene::HasPlaces,
    Scene::Copied,
    Scene::CopiedOverAnother,
    Scene::CopiedOverSmaller,
];

#[test]
fn a_treap_root_and_its_copies_answer_as_written(rt: HostRuntime) {
    for scene in &SCENES {
        plays(&rt, rt.alloc(), *scene);
    }
}
