//! What the tests of wait groups start from: a group, and its seats with what each of their calls answers.
//!
//! What answers want of memory is made once more.

ghost use Rattle.std.specs.Prelude.{◌≡◌, All, IfOk};
ghost use Rattle.std.specs.Option.{ForSome};

use crate::tables::given::holds;
use std::alloc::Global;
use std::process::Abort;
use std::sync::Wait;
use sync_parts::{GroupSeat, Misuse, SetupError, WaitGroup};

/// How many releases a seat may still have to make for one add: one for each wait that a word can count.
const MOST_WAITS: u64 = 4_294_967_295;

/// A call of a wait group.
#[derive(Clone, Copy, Drop)]
pub(crate) enum Call {
    Add(i32),
    Done,
    Wait,
}

/// What a call answers: a wait that comes back, 0.
pub(crate) type Answer = Result<u32, Misuse>;

/// The group and its seats, asked for once more where memory was refused.
pub(crate) fn new_again(
    alloc: Global,
    seats: u32,
) -> Result<(WaitGroup, Vec<GroupSeat>), SetupError>
    ensures { IfOk result (λ t. All (λ s. s.group ≡ t.0) t.1.items) }
{
    match WaitGroup::with_seats(alloc, seats) {
        Err(SetupError::NoMemory) => WaitGroup::with_seats(alloc, seats),
        answer => answer,
    }
}

/// The same, of so many seats that there can be.
pub(crate) fn made(rt: &impl Abort, alloc: Global, seats: u32) -> (WaitGroup, Vec<GroupSeat>)
    ensures { All (λ s. s.group ≡ result.0) result.1.items }
{
    new_again(alloc, seats).expect(rt, "a group")
}

fn add<R: Abort + Wait>(rt: &R, group: &WaitGroup, seat: GroupSeat, d: i32) -> (GroupSeat, Answer)
    requires { seat.group ≡ group.now }
    ensures { result.0.group ≡ group.now }
{
    assert!(rt; seat.left() >= MOST_WAITS);
    group.add(rt, seat, d)
}

fn done<R: Abort + Wait>(rt: &R, group: &WaitGroup, seat: GroupSeat) -> (GroupSeat, Answer)
    requires { seat.group ≡ group.now }
    ensures { result.0.group ≡ group.now }
{
    assert!(rt; seat.left() >= MOST_WAITS);
    group.done(rt, seat)
}

fn wait<R: Wait>(rt: &R, group: &WaitGroup, seat: GroupSeat) -> (GroupSeat, Answer)
    requires { seat.group ≡ group.now }
    ensures { result.0.group ≡ group.now }
{
    let (seat, answer) = group.wait(rt, seat);
    (seat, answer.and(Ok(0)))
}

/// A seat, with its group.
#[derive(Drop)]
pub(crate) struct Member<'g> {
    group: &'g WaitGroup,
    /// Always there between two calls: the group's calls take a seat by value.
    seat: Option<GroupSeat>,
    ghost own: { ForSome seat (λ s. s.group ≡ group.now) },
}

impl<'g> Member<'g> {
    /// A call, and its answer.
    pub(crate) fn calls<R: Abort + Wait>(&mut self, rt: &R, call: Call) -> Answer {
        let seat = self.seat.take().expect(rt, "a seat");
        let (seat, answer) = match call {
            Call::Add(d) => add(rt, self.group, seat, d),
            Call::Done => done(rt, self.group, seat),
            Call::Wait => wait(rt, self.group, seat),
        };
        self.seat = Some(seat);
        answer
    }

    /// A call that is answered so.
    pub(crate) fn answers<R: Abort + Wait>(&mut self, rt: &R, call: Call, expected: Answer) {
        holds(rt, self.calls(rt, call) == expected);
    }

    /// A `done` that is no misuse: how many it released.
    pub(crate) fn finishes<R: Abort + Wait>(&mut self, rt: &R) -> u32 {
        self.calls(rt, Call::Done).expect(rt, "no misuse")
    }

    /// How many releases more it may make.
    pub(crate) fn left(&self, rt: &impl Abort) -> u64 {
        match &self.seat {
            Some(seat) => seat.left(),
            None => panic!(rt; "no seat"),
        }
    }
}

/// A group, and those of its seats that nobody has taken.
#[derive(Drop)]
pub(crate) struct Team<'g> {
    group: &'g WaitGroup,
    seats: Vec<GroupSeat>,
    ghost own: { All (λ s. s.group ≡ group.now) seats.items },
}

impl<'g> Team<'g> {
    pub(crate) fn new(group: &'g WaitGroup, seats: Vec<GroupSeat>) -> Team<'g>
        requires { All (λ s. s.group ≡ group.now) seats.items }
    {
        Team { group, seats }
    }

    /// Takes the last seat. A new group's seats are in the order of their numbers.
    pub(crate) fn member(&mut self, rt: &impl Abort) -> Member<'g> {
        let seat = self.seats.pop().expect(rt, "a seat");
        Member {
            group: self.group,
            seat: Some(seat),
        }
    }
}
