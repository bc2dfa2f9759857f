//! A root: which waits stand on which counter, first to last, as in Go's `semaRoot`.
//!
//! To whoever uses it a root is a finite map from counters to nonempty queues of waits ([`RootStore`]). Two
//! keep it: [`SortedRoot`] as a sorted vector, and [`TreapRoot`] as a treap with Go's tickets. In both a
//! queue is a list of `waiters::Lists`, so a wait stands in one record from the time it comes in until it
//! leaves, and appending takes constant time however many wait.
//!
//! A root is made for so many seats, at most 65,535, and holds at most a wait for each. `with_room` takes all
//! its memory, and a copy of a `TreapRoot` as much again. Else only `copy_from` of a larger root takes
//! memory, and `ids` and `write_seats` do, for what they answer or write.
#![tactic(auto)]

mod branches;
mod listed;
mod nodes;
mod place;
mod push;
mod sorted_root;
mod store;
mod tickets;
mod treap;
mod treap_root;
mod which;

pub use place::TreapPlace;
pub use sorted_root::SortedRoot;
pub use store::RootStore;
pub use treap_root::TreapRoot;
