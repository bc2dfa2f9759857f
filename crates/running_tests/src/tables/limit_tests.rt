//! Settings at the limits of a table, and past them.

use crate::tables::given::{Sizes, counts, holds, made, new_again};
use sema_table::{Seat, SemaTable};
use std::alloc::Global;
use std::process::Abort;

const MOST_RELEASES: u64 = 1 << 54;

/// So many counters, seats and roots, and a release limit.
struct Sized(usize, u32, u32, u64);

fn sizes_of(sized: &Sized) -> Sizes {
    Sizes {
        counters: sized.0,
        start: 0,
        seats: sized.1,
        roots: sized.2,
        release_limit: sized.3,
    }
}

/// Settings, and the number of their refusal.
struct Judged(Sized, u8);

fn is_refused(rt: &impl Abort, alloc: Global, row: &Judged) {
    match new_again(alloc, &sizes_of(&row.0)) {
        Ok(_) => panic!(rt; "a table was made"),
        Err(refused) => holds(rt, (refused as u8) == row.1),
    }
}

static PAST_A_LIMIT: [Judged; 22] = [
    Judged(Sized(0, 2, 251, 10), 1),
    Judged(Sized(65_537, 2, 251, 10), 1),
    Judged(Sized(1, 0, 251, 10), 2),
    Judged(Sized(1, 65_537, 251, 10), 2),
    Judged(Sized(1, 2, 0, 10), 3),
    Judged(Sized(1, 2, 252, 10), 3),
    Judged(Sized(1, 2, 251, 0), 4),
    Judged(Sized(1, 2, 251, MOST_RELEASES + 1), 4),
    // all seats together may spend no more than 2^62
    Judged(Sized(1, 257, 251, MOST_RELEASES), 4),
    Judged(Sized(1, 65_536, 251, (1 << 46) + 1), 4),
    // past two limits the lower number is told
    Judged(Sized(0, 0, 251, 10), 1),
    Judged(Sized(65_537, 65_537, 251, 10), 1),
    Judged(Sized(0, 2, 0, 10), 1),
    Judged(Sized(65_537, 2, 252, 10), 1),
    Judged(Sized(0, 2, 251, 0), 1),
    Judged(Sized(65_537, 2, 251, MOST_RELEASES + 1), 1),
    Judged(Sized(1, 0, 0, 10), 2),
    Judged(Sized(1, 65_537, 252, 10), 2),
    Judged(Sized(1, 0, 251, 0), 2),
    Judged(Sized(1, 65_537, 251, MOST_RELEASES + 1), 2),
    Judged(Sized(1, 2, 0, 0), 3),
    Judged(Sized(1, 2, 252, MOST_RELEASES + 1), 3),
];

#[test]
fn settings_past_a_limit_are_refused(rt: HostRuntime) {
    for row in &PAST_A_LIMIT {
        is_refused(&rt, rt.alloc(), row);
    }
}

/// Seats that have run nothing, in the order of their numbers.
fn are_new(rt: &impl Abort, seats: &[Seat], limit: u64) {
    for (number, seat) in seats.iter().enumerate() {
        holds(rt, usize::from(seat.id().number()) == number);
        counts(rt, seat, limit, 0);
    }
}

fn has_sizes(rt: &impl Abort, table: &SemaTable, seats: &[Seat], sized: &Sized) {
    holds(rt, table.counters() as usize == sized.0);
    holds(rt, seats.len() == sized.1 as usize);
    are_new(rt, seats, sized.3);
}

fn is_made(rt: &impl Abort, alloc: Global, sized: &Sized) {
    let (table, seats) = made(rt, alloc, &sizes_of(sized));
    has_sizes(rt, &table, seats.as_slice(), sized);
}

#[test]
fn the_least_and_the_most_are_made(rt: HostRuntime) {
    is_made(&rt, rt.alloc(), &Sized(1, 1, 1, 1));
    is_made(&rt, rt.alloc(), &Sized(65_536, 256, 251, MOST_RELEASES));
    is_made(&rt, rt.alloc(), &Sized(1, 65_536, 2, 1 << 46));
}
