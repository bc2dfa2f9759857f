//! What a Go programmer knows by name, over the running semaphore table and the running notify list: a lock
//! over a counter, a condition variable, and a wait group.
//!
//! A [`SemaLock`] locks by an acquire of one unit and unlocks by a release of one (`semacquire1` and
//! `semrelease1` of Go's `runtime/sema.go`). Where another holds it, it looks for some two hundred
//! microseconds at most before it sleeps, as Go's `sync.Mutex` spins, and doesn't give its processor away. Its
//! counter is to start at 1 and to be used by such locks alone: then of two locks that meet at most one is held.
//!
//! A lock keeps a seat of the table, so there are as many locks as seats, 65,536 at most, and each unlocks as
//! often as its seat may release, 2^54 times at most: [`SemaLock::left`] tells how often yet. One that is
//! dropped while it is held stays locked. [`SemaLock::try_lock_until`] and [`SemaLock::try_lock_for`] give up
//! once a time is over, and the lock may then unlock once less. No call takes memory, and none answers an
//! error. `acquire` may wait for another lock's release, those two for a while and for a root's lock, and
//! `release` for a root's lock; all other calls end.
//!
//! A [`Cond`] is a notify list, after Go's `sync.Cond`. [`Cond::wait`] takes a ticket, unlocks a [`Locker`],
//! waits with the ticket, and locks it again; [`Cond::wait_until`] and [`Cond::wait_for`] do so too, and give
//! the ticket up once a time is over. [`Cond::signal`] grants the least ticket that isn't granted, and
//! [`Cond::broadcast`] all. A `Cond` has 1 to 65,536 seats, and [`Cond::with_seats`] takes all memory that it ever
//! takes. All its other calls may wait for its list's lock, and the waits for a grant and for the locker too.
//!
//! A [`WaitGroup`] counts what is still to be done, after Go's `sync.WaitGroup`. [`WaitGroup::add`] adds to
//! the counter, below 0 too, [`WaitGroup::done`] takes 1 off, and [`WaitGroup::wait`] comes back where the
//! counter is 0, and sleeps until then. One word of 64 bits has the counter, of 32 bits with a sign, in its
//! high half and the number of waits in its low half; the waits sleep on a semaphore of the group's own, and
//! the add that leads to 0 releases each of them. Each atomic step on the word is one row of the step table,
//! in every schedule, and a call's clause `rows` has the rows that it ran, each with the word that it found,
//! and what it did on the semaphore: a wait that was counted one acquire, an add that leads to 0 one release
//! for each wait, and any other call nothing. Nobody but the seats that `with_seats` handed out runs a row on
//! the word.
//!
//! A group has 1 to 65,536 seats, and a seat makes at most 2^40 releases. [`WaitGroup::with_seats`] takes all
//! memory that the group ever takes. A misuse is answered where the step table says: [`Misuse::Negative`]
//! where an add led below 0, [`Misuse::AddWithWait`] where an add ran beside a wait from 0 up,
//! [`Misuse::Reused`] where the group was used again before a wait had come back. The word stays as the
//! misused step left it, and the seat may begin another call. `add` and `done` may wait for the lock of the
//! semaphore's root, and `wait` for a grant too, and for a word that others keep changing.
#![tactic(auto)]

mod cond;
mod cond_timed;
mod group;
mod group_adds;
mod group_make;
mod group_rows;
mod group_timed;
mod group_view;
mod group_waits;
mod laws;
mod limit;
mod locker;
mod locker_call;
mod sema_lock;
mod state_word;

pub use cond::Cond;
pub use group::{GroupSeat, WaitGroup};
pub use laws::{law_of_the_groups, law_of_the_locks};
pub use locker::Locker;
pub use locker_call::LockerCall;
pub use notify_list::{
    Busy as ListBusy, Entered as ListEntered, Holding, ListClosed, ListSeat, Notified, NotifiedAll,
    NotifyList, OwingAll, Parked, Polled as ListPolled, SetupError as ListSetupError, Waited,
    WaitedUntil,
};
pub use sema_lock::SemaLock;
pub use sema_table::{
    Closed, Entered, Owing, OwingMany, Polled, PostRefused, Posted, PostedMany, Retried, Roused,
    Seat, SemaTable, Settings, SetupError, Sleeping, Tried, Wake, Woken, WokenSeats,
};
pub use step_table::Misuse;
pub use waiters::{CounterId, NoMemory};
