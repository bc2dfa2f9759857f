//! What is asked of a search, and what is told beside its answer.

use crate::on_program::beside::{NeverMet, beside};
use explorer_answers::Stats;
use program_retrace::Layout;
use program_search::Aims;
use program_steps::BadKind;
use search::{FoundInAll, Searched};
use std::alloc::Global;
use waiters::NoMemory;

/// What is asked of a search.
#[derive(Clone, Copy)]
pub(crate) struct Search {
    /// How many worlds may be kept at most.
    pub(crate) worlds: u32,
    /// What is asked where nothing is bad.
    pub(crate) aims: Aims,
    /// How the schedule that is found is told.
    pub(crate) layout: Layout,
    /// It is told how far the search came.
    pub(crate) counted: bool,
}

/// What is told beside the answer: what the search has never come to, where that is told, and how far it came, where
/// that is asked for.
///
/// It is an `Err` where memory is short.
pub(crate) fn counted_beside(
    alloc: Global,
    search: Search,
    searched: &Searched<FoundInAll<BadKind>>,
    millis: u64,
    never_met: Option<&NeverMet<'_>>,
) -> Result<Option<String>, NoMemory> {
    let stats = Stats::of_found_in_all(searched, search.worlds, millis);
    beside(
        alloc,
        never_met,
        if search.counted { Some(&stats) } else { None },
    )
}
