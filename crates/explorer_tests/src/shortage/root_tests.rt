//! Lists of waits, and the roots that keep them: how they are made, and what is told of their waits.

ghost use Rattle.waiters.specs.Lists.{IsOpen};

use crate::shortage::rounds::{Attempt, Call, FINE, answered, is_refused_then_answers};
use sema_root::{RootStore, SortedRoot, TreapRoot};
use std::alloc::Global;
use std::process::Abort;
use waiters::{CounterId, ListKey, Lists, NoMemory, SeatId, Wait, WaitId};

#[derive(Drop)]
struct NewLists;

impl Call for NewLists {
    fn attempt(&mut self, alloc: Global) -> Attempt {
        match Lists::with_room(alloc, 3, 2) {
            Ok(lists) => answered(lists.room() == 3 && lists.list_room() == 2),
            Err(NoMemory) => Attempt::Refused,
        }
    }
}

#[test]
fn lists_are_refused_or_made(rt: HostRuntime) {
    is_refused_then_answers(&rt, rt.alloc(), FINE, &mut NewLists);
}

/// The wait of a root that has room for one.
const WAIT: Wait = Wait {
    id: WaitId {
        seat: SeatId(3),
        turn: 0,
    },
    ticket: 8,
};

/// An empty root takes one wait, and is full.
fn takes_one<R: RootStore>(root: &mut R) -> bool {
    if root.count() != 0 || root.is_full() {
        return false;
    }
    let counter = CounterId(5);
    root.queue(counter, WAIT, false);
    root.is_full() && root.dequeue(counter) == Some(WAIT)
}

#[derive(Drop)]
struct NewSorted;

impl Call for NewSorted {
    fn attempt(&mut self, alloc: Global) -> Attempt {
        match SortedRoot::with_room(alloc, 1) {
            Ok(mut root) => answered(takes_one(&mut root)),
            Err(NoMemory) => Attempt::Refused,
        }
    }
}

#[test]
fn a_sorted_root_is_refused_or_made(rt: HostRuntime) {
    is_refused_then_answers(&rt, rt.alloc(), FINE, &mut NewSorted);
}

#[derive(Drop)]
struct NewTreap;

impl Call for NewTreap {
    fn attempt(&mut self, alloc: Global) -> Attempt {
        match TreapRoot::with_room(alloc, 1, 7) {
            Ok(mut root) => answered(takes_one(&mut root)),
            Err(NoMemory) => Attempt::Refused,
        }
    }
}

#[test]
fn a_treap_root_is_refused_or_made(rt: HostRuntime) {
    is_refused_then_answers(&rt, rt.alloc(), FINE, &mut NewTreap);
}

/// The waits of a root's counter, told.
#[derive(Drop)]
struct TellingRoot<'r, R>(&'r R);

impl<R: RootStore> Call for TellingRoot<'_, R> {
    fn attempt(&mut self, alloc: Global) -> Attempt {
        match self.0.ids(alloc, CounterId(5)) {
            Ok(ids) => answered(ids.as_slice() == [WAIT.id].as_slice()),
            Err(NoMemory) => Attempt::Refused,
        }
    }
}

/// The seats of a root's waits, written behind other words.
#[derive(Drop)]
struct WritingRoot<'r>(&'r TreapRoot);

impl Call for WritingRoot<'_> {
    fn attempt(&mut self, alloc: Global) -> Attempt {
        let mut words = Vec::new(alloc);
        match self.0.write_seats(CounterId(5), &mut words) {
            Ok(()) => answered(words.as_slice() == [3].as_slice()),
            Err(NoMemory) if words.is_empty() => Attempt::Refused,
            Err(NoMemory) => Attempt::Wrong,
        }
    }
}

fn queue_one<R: RootStore>(rt: &impl Abort, root: &mut R) {
    assert!(rt; !root.is_full());
    root.queue(CounterId(5), WAIT, false);
}

#[test]
fn waits_of_a_sorted_root_are_refused_or_told(rt: HostRuntime) {
    let mut root = SortedRoot::with_room(rt.alloc(), 1).expect(&rt, "a root");
    queue_one(&rt, &mut root);
    is_refused_then_answers(&rt, rt.alloc(), FINE, &mut TellingRoot(&root));
}

#[test]
fn waits_of_a_treap_root_are_refused_or_told(rt: HostRuntime) {
    let mut root = TreapRoot::with_room(rt.alloc(), 1, 7).expect(&rt, "a root");
    queue_one(&rt, &mut root);
    is_refused_then_answers(&rt, rt.alloc(), FINE, &mut TellingRoot(&root));
    is_refused_then_answers(&rt, rt.alloc(), FINE, &mut WritingRoot(&root));
}

/// What is told of the waits of a list.
#[derive(Clone, Copy, Drop)]
enum Told {
    Ids,
    Seats,
    Waits,
}

fn is_told(lists: &Lists, key: ListKey, told: Told, alloc: Global) -> Result<bool, NoMemory>
    requires { IsOpen lists.now key }
{
    let mut words = Vec::new(alloc);
    match told {
        Told::Ids => {
            let ids = lists.ids(alloc, key)?;
            Ok(ids.as_slice() == [WAIT.id].as_slice())
        }
        Told::Seats => {
            lists.write_seats(key, &mut words)?;
            Ok(words.as_slice() == [3].as_slice())
        }
        Told::Waits => {
            lists.write_waits(key, &mut words)?;
            Ok(words.as_slice() == [3, 8].as_slice())
        }
    }
}

#[derive(Drop)]
struct TellingList<'l> {
    lists: &'l Lists,
    key: ListKey,
    told: Told,
}

impl Call for TellingList<'_> {
    fn attempt(&mut self, alloc: Global) -> Attempt {
        if !self.lists.is_open(self.key) {
            return Attempt::Wrong;
        }
        match is_told(self.lists, self.key, self.told, alloc) {
            Ok(told) => answered(told),
            Err(NoMemory) => Attempt::Refused,
        }
    }
}

/// A list with one wait.
fn one_list(rt: &impl Abort, lists: &mut Lists) -> ListKey {
    assert!(rt; lists.list_room() > 0 && lists.room() > 0);
    let key = lists.open();
    lists.push_back(key, WAIT);
    key
}

fn tells_list(rt: &impl Abort, alloc: Global, lists: &Lists, key: ListKey) {
    for told in [Told::Ids, Told::Seats, Told::Waits] {
        is_refused_then_answers(rt, alloc, FINE, &mut TellingList { lists, key, told });
    }
}

#[test]
fn waits_of_a_list_are_refused_or_told(rt: HostRuntime) {
    let mut lists = Lists::with_room(rt.alloc(), 1, 1).expect(&rt, "lists");
    let key = one_list(&rt, &mut lists);
    tells_list(&rt, rt.alloc(), &lists, key);
}
