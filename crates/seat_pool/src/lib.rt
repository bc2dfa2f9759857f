//! Free seats of a table or a list, which threads share while it lives: a thread or a task takes a seat when it
//! comes, and gives it back when it goes.
//!
//! A [`SeatPool`] is made with all seats, by [`pooled_table`], [`pooled_task_table`], [`pooled_list`] or
//! [`pooled_task_list`], or of any [`Lendable`] by [`SeatPool::new`]; making it takes all memory that it ever
//! takes, and can fail for want of that alone. [`SeatPool::take_seat`] lends the seat that is free the longest, to
//! who shows a [`Borrower`], and gives a [`Loan`] beside it; [`SeatPool::give_seat`] takes both back, of whichever
//! thread. They take turns at a ring as Rust's `crossbeam` has it, and may wait for a thread that is in the middle
//! of a step there. Each seat is free, or lent once: [`SeatPool::are_of_two`] says so of two loans.
//!
//! That a free seat is found, and that a seat given back is free, no clause says: tests do.
#![tactic(auto)]

mod lendable;
mod loans;
mod made;
mod pool;
#[cfg(test)]
mod tests;

pub use lendable::Lendable;
pub use made::{pooled_list, pooled_table, pooled_task_list, pooled_task_table};
pub use pool::{Borrower, Loan, SeatPool};
