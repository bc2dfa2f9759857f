//! Both roots beside each other, by calls drawn at random: what the one answers the other does, though their
//! tickets differ.

ghost use Rattle.std.specs.Prelude.{◌<◌};

use crate::roots::given::{holds, sorted, treap};
use rand_core::{Rng, SeedableRng};
use rand_xoshiro::Xoshiro256PlusPlus;
use sema_root::{RootStore, SortedRoot, TreapRoot};
use std::process::Abort;
use waiters::{CounterId, SeatId, Wait, WaitId};

const CALLS: u64 = 10_000;

const COUNTERS: u32 = 5;

const SEATS: usize = 8;

/// A call that was drawn: a wait of this seat comes in at the counter, or one comes out there.
#[derive(Drop)]
struct Drawn {
    counter: CounterId,
    seat: usize,
    comes_in: bool,
    lifo: bool,
}

fn draw(draws: &mut Xoshiro256PlusPlus) -> Drawn
    ensures { result.seat < 8 }
{
    let word = draws.next_u64();
    Drawn {
        counter: CounterId::new((word % u64::from(COUNTERS)) as u32),
        seat: (word / 256 % 8) as usize,
        comes_in: word / 65536 % 2 == 0,
        lifo: word / 131072 % 2 == 0,
    }
}

/// The wait of the seat comes in at both roots, which have room for one of each seat.
fn queue_both(
    rt: &impl Abort,
    sorted: &mut SortedRoot,
    treap: &mut TreapRoot,
    drawn: &Drawn,
    turn: u64,
)
    requires { drawn.now.seat < 8 }
{
    let id = WaitId {
        seat: SeatId::new(drawn.seat as u16),
        turn,
    };
    let wait = Wait { id, ticket: 0 };
    assert!(rt; !sorted.is_full() && !treap.is_full());
    sorted.queue(drawn.counter, wait, drawn.lifo);
    treap.queue(drawn.counter, wait, drawn.lifo);
}

/// The wait that comes out of both roots at the counter, if one waits there.
fn dequeue_both(
    rt: &impl Abort,
    sorted: &mut SortedRoot,
    treap: &mut TreapRoot,
    counter: CounterId,
) -> Option<Wait> {
    let wait = sorted.dequeue(counter);
    holds(rt, treap.dequeue(counter) == wait);
    wait
}

/// Both have as many waits, on each counter and on all together.
fn are_alike(rt: &impl Abort, sorted: &SortedRoot, treap: &TreapRoot) {
    holds(rt, sorted.count() == treap.count());
    for number in 0..COUNTERS {
        let counter = CounterId::new(number);
        holds(rt, sorted.waiting(counter) == treap.waiting(counter));
    }
}

/// The call is made of both roots. A wait comes in only where none of its seat is in: else one comes out.
fn call_both(
    rt: &impl Abort,
    sorted: &mut SortedRoot,
    treap: &mut TreapRoot,
    waits: &mut [bool; SEATS],
    drawn: &Drawn,
    turn: u64,
)
    requires { drawn.now.seat < 8 }
{
    if drawn.comes_in && !waits[drawn.seat] {
        queue_both(rt, sorted, treap, drawn, turn);
        waits[drawn.seat] = true;
    } else if let Some(wait) = dequeue_both(rt, sorted, treap, drawn.counter) {
        let seat = wait.id.seat.number() as usize;
        assert!(rt; seat < SEATS);
        waits[seat] = false;
    }
}

fn answer_alike(rt: &impl Abort, sorted: &mut SortedRoot, treap: &mut TreapRoot) {
    let mut draws = Xoshiro256PlusPlus::seed_from_u64(7);
    let mut waits = [false; SEATS];
    for turn in 0..CALLS {
        let drawn = draw(&mut draws);
        call_both(rt, sorted, treap, &mut waits, &drawn, turn);
        are_alike(rt, sorted, treap);
    }
}

#[test]
fn both_roots_answer_each_call_alike(rt: HostRuntime) {
    let mut sorted = sorted(&rt, rt.alloc(), 8);
    answer_alike(&rt, &mut sorted, &mut treap(&rt, rt.alloc(), 8, 1));
}
