//! The semaphore table and the notify list for programs in C, C++ and Rust: each call of `c_calls` as an
//! export, `parklot_` of a table and `parklot_list_` of a list. `bindings/parklot.h` and `parklot_list.h`
//! declare them, and say what a caller keeps.
//!
//! No export has a `requires`: a handle without a seat, or with one of the other kind, a counter that isn't
//! there and a call out of turn have a code (`NO_SEAT`, `NO_COUNTER`, `OTHER_CALL`), and nothing is done.
//! Limits are those of the table and the list: 1 to 65,536 counters, 1 to 65,536 seats, 1 to 251 roots,
//! 1 to 2^54 units that a seat may spend, 2^62 that all may. No call waits, and none calls the kernel.
#![tactic(auto)]

ghost use Rattle.sema_table.specs.Tasks.{TriesByTask, PostsByTask};
ghost use Rattle.sema_table.specs.Tasks.{ReadsByTask, CountsByTask, PostsManyByTask};
ghost use Rattle.sema_table.specs.Tasks.{EntersByTask, PollsByTask};
ghost use Rattle.sema_table.specs.Tasks.{LeavesByTask, RetriesByTask, WakesByTask, WakesSomeByTask};
ghost use Rattle.sema_table.specs.declared.task_seat.TaskStage.TheVariants.{Resting};
ghost use Rattle.std.specs.Prelude.{◌≡◌, ◌⊎◌};
ghost use Rattle.c_calls.specs.Handles.{table_seat, list_seat};
ghost use Rattle.c_calls.specs.Codes.{refused_code, tried_code, entered_code, polled_code};
ghost use Rattle.c_calls.specs.Codes.{gave_up_code, retried_code, posted_code, wake_code};
ghost use Rattle.c_calls.specs.Codes.{told, done, IsOk, IsOneOrHanded};
ghost use Rattle.c_calls.specs.Answers.{Answers, Telling, NamesWoken};
ghost use Rattle.c_calls.specs.Answers.{NamesEach, LacksRoom, TellsNumber, Frees};
ghost use Rattle.c_calls.specs.Answers.{WritesOnlyWith, WritesSeats};
ghost use Rattle.c_calls.specs.Deals.{DealsTable, DealsToEmpty};

use c_calls::codes::NO_SEAT;
use c_calls::{KeptSeat, SeatHandle, deal};
use std::alloc::Global;

mod list;
#[cfg(test)]
mod list_tests;
#[cfg(test)]
mod script;
#[cfg(test)]
mod tests;

/// Makes a table, and gives each of `seats` one of its seats, in the order of their numbers. Where it
/// answers anything but OK it has done nothing.
#[unsafe(no_mangle)]
pub extern "C" fn parklot_new(
    alloc: Global,
    starts: &[u32],
    roots: u32,
    seed: u64,
    release_limit: u64,
    seats: &mut [SeatHandle],
) -> u32
    ensures { DealsToEmpty (DealsTable starts.now roots seed release_limit) seats.old result seats.new }
{
    deal::deal_table(alloc, starts, roots, seed, release_limit, seats)
}

/// Frees a seat that rests. The table goes with the last of its seats.
#[unsafe(no_mangle)]
pub extern "C" fn parklot_free(alloc: Global, seat: &mut SeatHandle) -> u32
    ensures other { list_seat seat.new ≡ list_seat seat.old }
    ensures answer { Frees (λ s. s.stage) Resting (table_seat seat.old) result (table_seat seat.new) }
{
    seat.free_table_seat(alloc)
}

/// Which seat of its table it is.
#[unsafe(no_mangle)]
pub extern "C" fn parklot_number(seat: &mut SeatHandle, number: &mut u32) -> u32
    ensures other { list_seat seat.new ≡ list_seat seat.old }
    ensures same { table_seat seat.new ≡ table_seat seat.old }
    ensures told { TellsNumber (λ s. s.seat.number) (table_seat seat.old) result number.new }
    ensures kept { WritesOnlyWith IsOk result number.old number.new }
{
    if !seat.is_full {
        return NO_SEAT;
    }
    let KeptSeat::OfTable(place) = seat.cell.place() else {
        return NO_SEAT;
    };
    place.number(number)
}

/// Takes a unit if there is one: TAKEN, ZERO or LOST.
#[unsafe(no_mangle)]
pub extern "C" fn parklot_try_acquire(seat: &mut SeatHandle, counter: u32) -> u32
    ensures other { list_seat seat.new ≡ list_seat seat.old }
    ensures answer { Answers refused_code tried_code (λ s. TriesByTask s counter)
        (table_seat seat.old) result (table_seat seat.new) }
{
    if !seat.is_full {
        return NO_SEAT;
    }
    let KeptSeat::OfTable(place) = seat.cell.place() else {
        return NO_SEAT;
    };
    place.try_acquire(counter)
}

/// Goes to the lock of the counter's root, and sleeps if there is no unit: TAKEN, ASLEEP or BUSY.
#[unsafe(no_mangle)]
pub extern "C" fn parklot_enter(seat: &mut SeatHandle, counter: u32, lifo: bool) -> u32
    ensures other { list_seat seat.new ≡ list_seat seat.old }
    ensures answer { Answers refused_code entered_code (λ s. EntersByTask s counter lifo)
        (table_seat seat.old) result (table_seat seat.new) }
{
    if !seat.is_full {
        return NO_SEAT;
    }
    let KeptSeat::OfTable(place) = seat.cell.place() else {
        return NO_SEAT;
    };
    place.enter(counter, lifo)
}

/// Looks whether the wait of a seat that sleeps was granted: ASLEEP, WOKEN or HANDED.
#[unsafe(no_mangle)]
pub extern "C" fn parklot_poll(seat: &mut SeatHandle) -> u32
    ensures other { list_seat seat.new ≡ list_seat seat.old }
    ensures answer { Answers refused_code polled_code PollsByTask
        (table_seat seat.old) result (table_seat seat.new) }
{
    if !seat.is_full {
        return NO_SEAT;
    }
    let KeptSeat::OfTable(place) = seat.cell.place() else {
        return NO_SEAT;
    };
    place.poll()
}

/// Gives up the wait of a seat that sleeps: LEFT or COMING; where it was granted WOKEN or HANDED; or BUSY or LIMIT.
#[unsafe(no_mangle)]
pub extern "C" fn parklot_leave(seat: &mut SeatHandle) -> u32
    ensures other { list_seat seat.new ≡ list_seat seat.old }
    ensures answer { Answers refused_code gave_up_code LeavesByTask
        (table_seat seat.old) result (table_seat seat.new) }
{
    if !seat.is_full {
        return NO_SEAT;
    }
    let KeptSeat::OfTable(place) = seat.cell.place() else {
        return NO_SEAT;
    };
    place.leave()
}

/// The try of a seat that was woken: TAKEN, or ZERO, and then it enters again.
#[unsafe(no_mangle)]
pub extern "C" fn parklot_retry(seat: &mut SeatHandle) -> u32
    ensures other { list_seat seat.new ≡ list_seat seat.old }
    ensures answer { Answers refused_code retried_code RetriesByTask
        (table_seat seat.old) result (table_seat seat.new) }
{
    if !seat.is_full {
        return NO_SEAT;
    }
    let KeptSeat::OfTable(place) = seat.cell.place() else {
        return NO_SEAT;
    };
    place.retry()
}

/// Adds a unit: DONE, OWES or LIMIT.
#[unsafe(no_mangle)]
pub extern "C" fn parklot_post(seat: &mut SeatHandle, counter: u32) -> u32
    ensures other { list_seat seat.new ≡ list_seat seat.old }
    ensures answer { Answers refused_code posted_code (λ s. PostsByTask s counter)
        (table_seat seat.old) result (table_seat seat.new) }
{
    if !seat.is_full {
        return NO_SEAT;
    }
    let KeptSeat::OfTable(place) = seat.cell.place() else {
        return NO_SEAT;
    };
    place.post(counter)
}

/// Adds so many units at once: DONE, OWES, LIMIT or UNITS.
#[unsafe(no_mangle)]
pub extern "C" fn parklot_post_many(seat: &mut SeatHandle, counter: u32, units: u32) -> u32
    ensures other { list_seat seat.new ≡ list_seat seat.old }
    ensures answer { Answers refused_code posted_code (λ s. PostsManyByTask s counter units)
        (table_seat seat.old) result (table_seat seat.new) }
{
    if !seat.is_full {
        return NO_SEAT;
    }
    let KeptSeat::OfTable(place) = seat.cell.place() else {
        return NO_SEAT;
    };
    place.post_many(counter, units)
}

/// The rest of a release: takes the first wait out and wakes its seat, whose number is told. NOBODY, ONE,
/// HANDED or BUSY.
#[unsafe(no_mangle)]
pub extern "C" fn parklot_wake(seat: &mut SeatHandle, handoff: bool, woken: &mut u32) -> u32
    ensures other { list_seat seat.new ≡ list_seat seat.old }
    ensures answer { Answers refused_code wake_code
        (Telling (NamesWoken woken.new) (λ s. WakesByTask s handoff))
        (table_seat seat.old) result (table_seat seat.new) }
    ensures kept { WritesOnlyWith IsOneOrHanded result woken.old woken.new }
{
    if !seat.is_full {
        return NO_SEAT;
    }
    let KeptSeat::OfTable(place) = seat.cell.place() else {
        return NO_SEAT;
    };
    place.wake(handoff, woken)
}

/// The rest of a release of many units: takes as many waits out, or fewer if there are no more, and wakes
/// their seats, whose numbers are told. DONE or BUSY.
#[unsafe(no_mangle)]
pub extern "C" fn parklot_wake_some(
    seat: &mut SeatHandle,
    woken: &mut [u32],
    count: &mut u32,
) -> u32
    ensures other { list_seat seat.new ≡ list_seat seat.old }
    ensures answer { LacksRoom woken.old (table_seat seat.old) result (table_seat seat.new)
        ⊎ Answers refused_code done (Telling (NamesEach woken.new count.new) WakesSomeByTask)
        (table_seat seat.old) result (table_seat seat.new) }
    ensures kept { WritesSeats result woken.old woken.new count.old count.new }
{
    if !seat.is_full {
        return NO_SEAT;
    }
    let KeptSeat::OfTable(place) = seat.cell.place() else {
        return NO_SEAT;
    };
    place.wake_some(woken, count)
}

/// The number of a counter.
#[unsafe(no_mangle)]
pub extern "C" fn parklot_value(seat: &mut SeatHandle, counter: u32, value: &mut u64) -> u32
    ensures other { list_seat seat.new ≡ list_seat seat.old }
    ensures answer { Answers refused_code told (Telling (λ n. value.new ≡ n) (λ s. ReadsByTask s counter))
        (table_seat seat.old) result (table_seat seat.new) }
    ensures kept { WritesOnlyWith IsOk result value.old value.new }
{
    if !seat.is_full {
        return NO_SEAT;
    }
    let KeptSeat::OfTable(place) = seat.cell.place() else {
        return NO_SEAT;
    };
    place.value(counter, value)
}

/// How many waits are queued at a counter's root.
#[unsafe(no_mangle)]
pub extern "C" fn parklot_waiters_of_root(
    seat: &mut SeatHandle,
    counter: u32,
    waits: &mut u64,
) -> u32
    ensures other { list_seat seat.new ≡ list_seat seat.old }
    ensures answer { Answers refused_code told (Telling (λ n. waits.new ≡ n) (λ s. CountsByTask s counter))
        (table_seat seat.old) result (table_seat seat.new) }
    ensures kept { WritesOnlyWith IsOk result waits.old waits.new }
{
    if !seat.is_full {
        return NO_SEAT;
    }
    let KeptSeat::OfTable(place) = seat.cell.place() else {
        return NO_SEAT;
    };
    place.waiters_of_root(counter, waits)
}
