//! A seat between two calls, and what it is in the middle of one.
ghost use Rattle.std.specs.Prelude.{◌≡◌, ◌+◌, ◌^◌, ◌<◌};
ghost use Rattle.step_table.specs.Journal.{takes};
ghost use Rattle.step_law_semaphores.specs.Balances.{added_by, withdrawn_by};
ghost use Rattle.sema_table.specs.Seats.{IsWaitOf};

use crate::rows::Token;
use std::marker::Model;
use step_table::Acquire;
use waiters::{CounterId, SeatId, WaitId};

/// A seat between two calls.
#[derive(Drop)]
pub struct Seat {
    pub(crate) token: Token,
    pub(crate) numbers: Numbers,
}

/// What a seat counts.
#[derive(Clone, Copy, Drop)]
pub(crate) struct Numbers {
    /// Its own number, as wide as the others: bytes between them that no field has would be copied through
    /// memory.
    pub(crate) seat: u64,
    /// How many units more it may spend: a unit that it adds is one, and so is a wait that it withdraws.
    pub(crate) left: u64,
    /// How many waits it has withdrawn.
    pub(crate) withdrawn: u64,
    /// How many waits it has queued.
    pub(crate) turns: u64,
    /// How many units it was given.
    pub(crate) taken: u64,
}

impl Numbers {
    /// The seat that these are of.
    #[inline]
    pub(crate) fn id(&self) -> SeatId
        requires { self.now.seat < 2 ^ 16 }
        ensures { result ≡ self.now.seat }
    {
        SeatId::new(self.seat as u16)
    }
}

/// A seat that has added a unit, and has yet to look for a wait. It must be spent, by `wake`.
pub struct Owing {
    pub(crate) token: Token,
    pub(crate) numbers: Numbers,
    pub(crate) counter: CounterId,
}

/// A seat whose wait is queued. It must be spent, by `poll`.
pub struct Sleeping {
    pub(crate) token: Token,
    pub(crate) numbers: Numbers,
    pub(crate) call: Acquire,
    pub(crate) turn: u64,
}

/// A seat that gives up and holds its root's lock, in which its wait is queued. It must be spent, by `end_leave`
/// or `stay_asleep`.
pub struct Leaver {
    pub(crate) token: Token,
    pub(crate) numbers: Numbers,
    pub(crate) call: Acquire,
    pub(crate) turn: u64,
}

/// A seat that was woken without a unit. It must be spent, by `retry`.
pub struct Woken {
    pub(crate) token: Token,
    pub(crate) numbers: Numbers,
    pub(crate) call: Acquire,
}

impl Model for Seat {
    ghost use Rattle.sema_table.specs.Seats.{SeatModel, seat_of, IsSeat};

    ghost Value = { SeatModel };

    ghost view = { λ s. seat_of s.token s.numbers };

    ghost invariant = { λ s. IsSeat s.token s.numbers };
}

impl Model for Owing {
    ghost use Rattle.sema_table.specs.Seats.{SeatModel, seat_of, IsOwing};

    ghost Value = { SeatModel };

    ghost view = { λ s. seat_of s.token s.numbers };

    ghost invariant = { λ s. IsOwing s.token s.numbers s.counter };
}

impl Model for Sleeping {
    ghost use Rattle.sema_table.specs.Seats.{SeatModel, seat_of, IsSleeping};

    ghost Value = { SeatModel };

    ghost view = { λ s. seat_of s.token s.numbers };

    ghost invariant = { λ s. IsSleeping s.token s.numbers s.call s.turn };
}

impl Model for Leaver {
    ghost use Rattle.sema_table.specs.Seats.{SeatModel, seat_of};
    ghost use Rattle.sema_table.specs.Leavers.{IsLeaving};

    ghost Value = { SeatModel };

    ghost view = { λ s. seat_of s.token s.numbers };

    ghost invariant = { λ s. IsLeaving s.token s.numbers s.call s.turn };
}

impl Model for Woken {
    ghost use Rattle.sema_table.specs.Seats.{SeatModel, seat_of, IsWoken};

    ghost Value = { SeatModel };

    ghost view = { λ s. seat_of s.token s.numbers };

    ghost invariant = { λ s. IsWoken s.token s.numbers s.call };
}

impl Seat {
    /// Which seat it is.
    pub fn id(&self) -> SeatId
        ensures { result ≡ self.now.number }
    {
        self.numbers.id()
    }

    /// How many units more the seat may spend: its release limit less the units that the journal tells it has
    /// added, and less one for each wait that it has withdrawn.
    pub fn left(&self) -> u64
        ensures left { result ≡ self.now.left }
        ensures spent { result + added_by self.now.number self.now.sight.seen
            + withdrawn_by self.now.number self.now.sight.seen ≡ self.now.table.setting.limit }
    {
        self.numbers.left
    }

    /// How many units the seat was given: those that the journal tells were taken for it.
    pub fn taken(&self) -> u64
        ensures taken { result ≡ self.now.taken }
        ensures counted { result ≡ takes self.now.number self.now.sight.seen }
    {
        self.numbers.taken
    }

    /// The same seat, put together anew. A caller whose rare half is a function that isn't inlined hands the
    /// seat over so: where the rare half isn't called, the seat then stays in registers.
    #[inline]
    pub fn rebuilt(self) -> Seat
        ensures { result ≡ self }
    {
        let Seat { token, numbers } = self;
        let Numbers {
            seat,
            left,
            withdrawn,
            turns,
            taken,
        } = numbers;
        Seat {
            token,
            numbers: Numbers {
                seat,
                left,
                withdrawn,
                turns,
                taken,
            },
        }
    }
}

impl Sleeping {
    /// The wait that is queued.
    pub fn id(&self) -> WaitId
        ensures { IsWaitOf self.now result }
    {
        WaitId {
            seat: self.numbers.id(),
            turn: self.turn,
        }
    }
}
