//! The running notify list: tickets on which the callers' own threads wait and which they grant, over shared
//! words, after `notifyList` of Go's `runtime/sema.go`.
//!
//! [`NotifyList::add`] takes the next ticket. [`NotifyList::wait`] waits with it, and comes back once it is
//! granted: at once, where it was granted before, or after its seat has slept. [`NotifyList::wait_until`] and
//! [`NotifyList::wait_for`] leave once a time is over. [`NotifyList::one`] grants the least ticket that isn't
//! granted, [`NotifyList::all`] grants all that aren't, and [`NotifyList::quiet`] looks whether all are. By
//! [`NotifyList::meet`] two seats come to have seen one journal, and [`NotifyList::close`] ends the list with
//! all its seats. Each atomic step is one row of the step table, in every schedule, and the contract of a call
//! is the rows that it ran and the entries of the journal that they told; beside it stands what it says of
//! tickets, and in a clause `caller` what the call is to one who knows no rows: the seat before and after, the
//! entries that it told, and what the answer means. A wait with a time-out has that clause alone.
//! [`law_of_the_list`] says that the list is lawful between any two steps, and [`law_of_the_sleepers`] that no
//! thread that sleeps in the kernel is lost.
//!
//! A caller that must not wait, as a scheduler, has [`NotifyList::try_wait`], [`NotifyList::try_one`] and
//! [`NotifyList::try_all`], which find the list's lock free or give the seat back, and tell whom they granted.
//! A seat that is parked looks by [`NotifyList::poll`] whether its ticket is granted, and gives up by
//! [`NotifyList::leave`] or [`NotifyList::try_leave`]; one that has looked for a notification of all goes on by
//! [`NotifyList::retry_all`]. A [`TaskList`] is for tasks whose threads
//! somebody else parks: none of its calls waits, so nobody sleeps there, and its seats are of one type wherever
//! they stand.
//!
//! A list has 1 to 65,536 seats. Its tickets are words of 64 bits that wrap: the first is what the list starts
//! at, and a ticket comes before another where it is up to 2^63 behind. [`NotifyList::starting_at`] refuses
//! any other number of seats, or answers want of memory, and takes all memory that the list ever takes. After
//! it no call is refused. A seat is used by one thread at a time, since it is moved or lent. `one`, `all` and
//! `leave` may wait for the list's lock, and `wait`, with a time-out or without, for its grant too; all other
//! calls end.
#![tactic(auto)]

mod closed;
mod closing;
mod grant_one;
mod heirs;
mod laws;
mod leaves;
mod live;
mod locks;
mod make;
mod meeting;
mod notified;
mod notify_all;
mod notify_list;
mod notify_one;
mod polls;
mod records;
mod rows;
mod seat;
mod setup_error;
mod stride;
mod task_answers;
mod task_seat;
mod tasks;
mod tickets;
mod timed;
mod view;
mod waited;
mod waits;

pub use closed::ListClosed;
pub use laws::{law_of_the_list, law_of_the_sleepers};
pub use notified::{Busy, Notified, NotifiedAll};
pub use notify_list::NotifyList;
pub use seat::{Holding, ListSeat, OwingAll, Parked};
pub use setup_error::SetupError;
pub use task_answers::{TaskEntered, TaskGaveUp, TaskPolled, TaskRefused};
pub use task_seat::{TaskListSeat, TaskStage};
pub use tasks::TaskList;
pub use waited::{Entered, GaveUp, Polled, Waited, WaitedUntil};
