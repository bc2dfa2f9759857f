//! The base of the running parts: words that threads share, and that change by the rows of one family alone.
//!
//! A seat has a [`Token`], whose view keeps all strides that the seat has gone. [`Running`] owns the words
//! and makes the steps: each call of [`Running::load`], [`Running::exchange`], [`Running::add`] and their
//! like is one atomic step of one word, and one stride more in the view, which read what the step found.
//! Words, tokens' views and what a step tells are private to this crate: a crate above can neither make a
//! step that is no stride nor count a stride that no step made, but for what is named here: looks at a lock
//! that is held, at a grant before a sleep, and at a word for a while ([`Running::is_above_zero_soon`]); the
//! loads by which tokens are parted and joined ([`Running::make_seat`], [`Running::seat_alone`],
//! [`Running::seat_with`], and beside its look [`Running::meet`]); and words set aside
//! ([`Running::set_aside`]), of which the world knows nothing.
//!
//! [`Rows`] says what the family is; [`OneWorld`] is the rule that the words keep.
#![tactic(auto)]

mod breaks;
mod closing;
mod deadlines;
mod families;
mod futexes;
mod joins;
mod kernel;
mod laws;
mod lends;
mod locks;
mod making;
mod meeting;
mod parking;
mod plays;
mod rule;
mod running;
mod sleeping;
mod steps;
mod tries;
mod view;

pub use atomic_table::{Closed, Refused, TableRule};
pub use breaks::{BREAKS_END, FIRST_BREAK, make_break};
pub use deadlines::time_left;
pub use families::{Here, Rows, Start};
pub use kernel::{Futexes, Kernel, NoThreads};
pub use laws::law_of_the_sleepers;
pub use parking::{Mark, Parking, Stage};
pub use rule::OneWorld;
pub use running::Running;
pub use sleeping::{GivesWay, Patience};
pub use view::{Seated, Token, View};
