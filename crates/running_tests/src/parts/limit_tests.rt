//! How many seats a condition variable and a wait group may have.

use crate::parts::{cond_given, group_given};
use crate::tables::given::holds;
use std::alloc::Global;
use sync_parts::{GroupSeat, ListSetupError, SetupError};

const MOST_LEFT: u64 = 1 << 40;

/// How many seats of a condition variable are made, and the refusal by its number.
fn of_a_cond(alloc: Global, seats: u32) -> Result<usize, u8> {
    match cond_given::new_again(alloc, seats) {
        Ok((_cond, seats)) => Ok(seats.len()),
        Err(refused) => Err(refused as u8),
    }
}

/// How many seats there are, if each has all its releases to make.
fn count(seats: &[GroupSeat]) -> usize {
    for seat in seats {
        if seat.left() != MOST_LEFT {
            return 0;
        }
    }
    seats.len()
}

/// The same of a wait group.
fn of_a_group(alloc: Global, seats: u32) -> Result<usize, u8> {
    match group_given::new_again(alloc, seats) {
        Ok((_group, seats)) => Ok(count(&seats)),
        Err(refused) => Err(refused as u8),
    }
}

/// A number of seats, and how many are made, of a condition variable and of a group, or the refusal by its number.
static SEATS: [(u32, Result<usize, u8>, Result<usize, u8>); 7] = [
    (
        0,
        Err(ListSetupError::Seats as u8),
        Err(SetupError::Seats as u8),
    ),
    (257, Ok(257), Ok(257)),
    (65_537, Err(2), Err(2)),
    (u32::MAX, Err(2), Err(2)),
    (1, Ok(1), Ok(1)),
    (256, Ok(256), Ok(256)),
    (65_536, Ok(65_536), Ok(65_536)),
];

#[test]
fn a_condition_variable_and_a_group_have_1_to_65536_seats(rt: HostRuntime) {
    for (seats, of_cond, of_group) in &SEATS {
        holds(&rt, of_a_cond(rt.alloc(), *seats) == *of_cond);
        holds(&rt, of_a_group(rt.alloc(), *seats) == *of_group);
    }
}
