//! The running semaphore table: counters on which the callers' own threads sleep and wake each other, over
//! shared words, after `semacquire1` and `semrelease1` of Go's `runtime/sema.go`.
//!
//! A counter holds units. [`SemaTable::acquire`] takes one, and sleeps while there is none;
//! [`SemaTable::release`] adds one, and wakes the first that waits. Each can be gone in parts.
//! [`SemaTable::try_acquire`] takes a unit where there is one; [`SemaTable::enter`] goes to the lock of the
//! counter's root and queues the seat's wait there, [`SemaTable::poll`] looks whether the wait was granted,
//! [`SemaTable::sleep`] waits for that, and [`SemaTable::retry`] tries once it was. By [`SemaTable::leave`]
//! a seat that sleeps gives up, and takes its own wait out of the queue; [`SemaTable::acquire_until`] and
//! [`SemaTable::acquire_for`] do so once a time is over. [`SemaTable::post`] adds a unit, and
//! [`SemaTable::wake`] takes the first wait out and grants it. [`SemaTable::release_many`] does the same for
//! many units, and for as many waits; its parts are [`SemaTable::post_many`] and [`SemaTable::wake_some`].
//! Where more is to be done under the lock before a wait leaves, as for a wait group,
//! [`SemaTable::acquire_or_begin_leave`] hands out the lock in a [`Leaver`]; [`SemaTable::begin_leave`],
//! [`SemaTable::end_leave`] and [`SemaTable::stay_asleep`] are the parts of that. A caller that must not wait, as
//! a scheduler, has [`SemaTable::try_enter`], [`SemaTable::try_leave`], [`SemaTable::retry_at_once`],
//! [`SemaTable::try_wake`] and [`SemaTable::try_wake_some`]: where a lock stays held the seat comes back as it
//! was. A [`TaskTable`] is
//! for tasks whose threads somebody else parks: none of its calls waits or calls the kernel, and its seats
//! are of one type wherever they stand. [`SemaTable::spin`] looks for a unit for a while, as a lock does
//! before it acquires; it takes none, and nothing is promised of it. By [`SemaTable::meet`] two seats come
//! to have seen one journal. Each atomic step is one row of the step table, in every schedule, and the
//! contract of a call has a path of such rows and the entries of the journal that they told (`rows`), and
//! says what the call is to its caller, without rows (`caller`); [`law_of_the_table`] says that the table is
//! lawful between any two of them, and [`law_of_the_sleepers`] that no thread sleeps on that should be woken.
//!
//! A table has 1 to 65,536 counters, 1 to 65,536 seats and 1 to 251 roots; a counter starts below 2^32, and a
//! seat spends at most 2^54 units, and all together 2^62: those that it adds, and one for each wait that it takes
//! out of its queue as it gives up. [`SemaTable::new`] names the first of these limits that isn't kept, or want of
//! memory, and takes all memory that the table ever takes. After it the refusals are [`PostRefused::LimitReached`],
//! [`GaveUp::LimitReached`] and [`Acquired::LimitReached`]. A seat is used by one thread at a time, since it is
//! moved or lent. `enter`, `leave`, `retry`, `wake`, `release`, `wake_some` and `release_many` may wait for a
//! root's lock, `sleep` for a grant, `acquire` for both, and `sleep_until`, `acquire_until` and `acquire_for`
//! for a while; all other calls end. None waits for a counter that others keep changing: a try is lost only
//! where they have changed it, and a counter changes only so often.
#![tactic(auto)]

mod acquires;
mod answers;
mod attempts;
mod closed;
mod closing;
mod giving_up;
mod laws;
mod leaves;
mod locks;
mod make;
mod many_seat;
mod meeting;
mod polls;
mod posts;
mod posts_many;
mod queueing;
mod records;
mod releases;
mod releases_many;
mod rows;
mod seat;
mod sema_table;
mod settings;
mod setup_error;
mod sleeps;
mod spins;
mod stride;
mod task_answers;
mod task_calls;
mod task_seat;
mod tasks;
mod timed;
mod tries;
mod view;
mod waking;
mod waking_many;

pub use answers::{
    Acquired, Entered, GaveUp, Polled, PostRefused, Posted, Retried, Roused, Tried, Wake,
};
pub use closed::Closed;
pub use laws::{law_of_the_sleepers, law_of_the_table};
pub use many_seat::{OwingMany, PostedMany};
pub use seat::{Leaver, Owing, Seat, Sleeping, Woken};
pub use sema_table::SemaTable;
pub use settings::{Settings, TableKey};
pub use setup_error::SetupError;
pub use task_answers::{TaskEntered, TaskGaveUp, TaskPolled, TaskPosted, TaskRefused, TaskRetried};
pub use task_seat::{TaskSeat, TaskStage};
pub use tasks::TaskTable;
pub use waiters::CounterId;
pub use waking_many::WokenSeats;
