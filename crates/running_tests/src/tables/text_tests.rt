//! What the refusals print, and their numbers. A call that answers want of memory is made once more.

use crate::tables::given::holds;
use notify_list::SetupError as ListSetupError;
use sema_table::{PostRefused, SetupError};
use std::alloc::Global;
use std::fmt::Display;
use std::process::Abort;

/// Whether this is how it is written, where there is memory.
fn is_written(alloc: Global, refused: &impl Display, text: &str) -> Option<bool> {
    match format!(in alloc; "{refused}") {
        Ok(written) => Some(written.as_str() == text),
        Err(_) => None,
    }
}

pub(crate) fn has_text(rt: &impl Abort, alloc: Global, refused: &impl Display, text: &str) {
    let told = match is_written(alloc, refused, text) {
        Some(told) => told,
        None => is_written(alloc, refused, text) == Some(true),
    };
    holds(rt, told);
}

static REFUSALS: [(SetupError, u8, &str); 5] = [
    (SetupError::Counters, 1, "counters"),
    (SetupError::Seats, 2, "seats"),
    (SetupError::Roots, 3, "roots"),
    (SetupError::ReleaseLimit, 4, "release limit"),
    (SetupError::NoMemory, 5, "no memory"),
];

static REFUSALS_OF_A_LIST: [(ListSetupError, u8, &str); 2] = [
    (ListSetupError::Seats, 2, "seats"),
    (ListSetupError::NoMemory, 5, "no memory"),
];

#[test]
fn refusals_have_their_numbers_and_texts(rt: HostRuntime) {
    for (refused, number, text) in &REFUSALS {
        holds(&rt, (*refused as u8) == *number);
        has_text(&rt, rt.alloc(), refused, text);
    }
    holds(&rt, (PostRefused::LimitReached as u8) == 1);
    for (refused, number, text) in &REFUSALS_OF_A_LIST {
        holds(&rt, (*refused as u8) == *number);
        has_text(&rt, rt.alloc(), refused, text);
    }
}
