//! The exports of a list: tickets on which tasks wait, and which they grant.
ghost use Rattle.std.specs.Prelude.{◌≡◌, ◌⊎◌};
ghost use Rattle.notify_list.specs.Tasks.{AddsByTask, LooksByTask};
ghost use Rattle.notify_list.specs.Tasks.{EntersByTask, PollsByTask, LeavesByTask, NotifiesOneByTask};
ghost use Rattle.notify_list.specs.declared.task_seat.TaskStage.TheVariants.{Resting};
ghost use Rattle.c_calls.specs.Handles.{table_seat, list_seat};
ghost use Rattle.c_calls.specs.Codes.{told, done, IsOk, IsOne};
ghost use Rattle.c_calls.specs.ListCodes.{refused_code, entered_code, polled_code, gave_up_code, one_code};
ghost use Rattle.c_calls.specs.Answers.{Answers, Telling, TellsNumber, Frees};
ghost use Rattle.c_calls.specs.Answers.{WritesOnlyWith, WritesSeats};
ghost use Rattle.c_calls.specs.ListAnswers.{NotifiesOrGoesOn, NamesGranted, CountsAll, LacksSeats};
ghost use Rattle.c_calls.specs.Deals.{DealsList, DealsToEmpty};

use c_calls::codes::NO_SEAT;
use c_calls::{KeptSeat, SeatHandle, deal};
use std::alloc::Global;

/// Makes a list whose first ticket is this one, and gives each of `seats` one of its seats, in the order of
/// their numbers. Where it answers anything but OK it has done nothing.
#[unsafe(no_mangle)]
pub extern "C" fn parklot_list_new(alloc: Global, first: u64, seats: &mut [SeatHandle]) -> u32
    ensures { DealsToEmpty (DealsList first) seats.old result seats.new }
{
    deal::deal_list(alloc, first, seats)
}

/// Frees a seat that rests. The list goes with the last of its seats.
#[unsafe(no_mangle)]
pub extern "C" fn parklot_list_free(alloc: Global, seat: &mut SeatHandle) -> u32
    ensures other { table_seat seat.new ≡ table_seat seat.old }
    ensures answer { Frees (λ s. s.stage) Resting (list_seat seat.old) result (list_seat seat.new) }
{
    seat.free_list_seat(alloc)
}

/// Which seat of its list it is.
#[unsafe(no_mangle)]
pub extern "C" fn parklot_list_number(seat: &mut SeatHandle, number: &mut u32) -> u32
    ensures other { table_seat seat.new ≡ table_seat seat.old }
    ensures same { list_seat seat.new ≡ list_seat seat.old }
    ensures told { TellsNumber (λ s. s.seat.number) (list_seat seat.old) result number.new }
    ensures kept { WritesOnlyWith IsOk result number.old number.new }
{
    if !seat.is_full {
        return NO_SEAT;
    }
    let KeptSeat::OfList(place) = seat.cell.place() else {
        return NO_SEAT;
    };
    place.number(number)
}

/// Takes the next ticket, which is told: the seat's next call is `parklot_list_try_wait`.
#[unsafe(no_mangle)]
pub extern "C" fn parklot_list_add(seat: &mut SeatHandle, ticket: &mut u64) -> u32
    ensures other { table_seat seat.new ≡ table_seat seat.old }
    ensures answer { Answers refused_code told (Telling (λ word. ticket.new ≡ word) AddsByTask)
        (list_seat seat.old) result (list_seat seat.new) }
    ensures kept { WritesOnlyWith IsOk result ticket.old ticket.new }
{
    if !seat.is_full {
        return NO_SEAT;
    }
    let KeptSeat::OfList(place) = seat.cell.place() else {
        return NO_SEAT;
    };
    place.add(ticket)
}

/// Waits with the ticket: AT_ONCE, PARKED or BUSY, and then the seat has its ticket still.
#[unsafe(no_mangle)]
pub extern "C" fn parklot_list_try_wait(seat: &mut SeatHandle) -> u32
    ensures other { table_seat seat.new ≡ table_seat seat.old }
    ensures answer { Answers refused_code entered_code EntersByTask
        (list_seat seat.old) result (list_seat seat.new) }
{
    if !seat.is_full {
        return NO_SEAT;
    }
    let KeptSeat::OfList(place) = seat.cell.place() else {
        return NO_SEAT;
    };
    place.try_wait()
}

/// Looks whether the wait of a seat that is parked was granted: ASLEEP or WOKEN.
#[unsafe(no_mangle)]
pub extern "C" fn parklot_list_poll(seat: &mut SeatHandle) -> u32
    ensures other { table_seat seat.new ≡ table_seat seat.old }
    ensures answer { Answers refused_code polled_code PollsByTask
        (list_seat seat.old) result (list_seat seat.new) }
{
    if !seat.is_full {
        return NO_SEAT;
    }
    let KeptSeat::OfList(place) = seat.cell.place() else {
        return NO_SEAT;
    };
    place.poll()
}

/// Gives up the wait of a seat that is parked: LEFT or COMING; where its ticket was granted WOKEN; or BUSY or LIMIT.
#[unsafe(no_mangle)]
pub extern "C" fn parklot_list_leave(seat: &mut SeatHandle) -> u32
    ensures other { table_seat seat.new ≡ table_seat seat.old }
    ensures answer { Answers refused_code gave_up_code LeavesByTask
        (list_seat seat.old) result (list_seat seat.new) }
{
    if !seat.is_full {
        return NO_SEAT;
    }
    let KeptSeat::OfList(place) = seat.cell.place() else {
        return NO_SEAT;
    };
    place.leave()
}

/// Grants the least ticket that isn't granted. Where a seat is parked with it, that one is woken, and its
/// number told. NOBODY, GRANTED, ONE or BUSY.
#[unsafe(no_mangle)]
pub extern "C" fn parklot_list_one(seat: &mut SeatHandle, woken: &mut u32) -> u32
    ensures other { table_seat seat.new ≡ table_seat seat.old }
    ensures answer { Answers refused_code one_code (Telling (NamesGranted woken.new) NotifiesOneByTask)
        (list_seat seat.old) result (list_seat seat.new) }
    ensures kept { WritesOnlyWith IsOne result woken.old woken.new }
{
    if !seat.is_full {
        return NO_SEAT;
    }
    let KeptSeat::OfList(place) = seat.cell.place() else {
        return NO_SEAT;
    };
    place.one(woken)
}

/// Grants all tickets, and tells the numbers of the seats that were parked with them, which are woken. DONE or
/// BUSY: then it is called again, and goes on.
#[unsafe(no_mangle)]
pub extern "C" fn parklot_list_all(seat: &mut SeatHandle, woken: &mut [u32], count: &mut u32) -> u32
    ensures other { table_seat seat.new ≡ table_seat seat.old }
    ensures answer { LacksSeats woken.old (list_seat seat.old) result (list_seat seat.new)
        ⊎ Answers refused_code done (Telling (CountsAll count.new) (NotifiesOrGoesOn woken.new))
        (list_seat seat.old) result (list_seat seat.new) }
    ensures kept { WritesSeats result woken.old woken.new count.old count.new }
{
    if !seat.is_full {
        return NO_SEAT;
    }
    let KeptSeat::OfList(place) = seat.cell.place() else {
        return NO_SEAT;
    };
    place.all(woken, count)
}

/// Looks whether all tickets are granted.
#[unsafe(no_mangle)]
pub extern "C" fn parklot_list_quiet(seat: &mut SeatHandle, quiet: &mut bool) -> u32
    ensures other { table_seat seat.new ≡ table_seat seat.old }
    ensures answer { Answers refused_code told (Telling (λ equal. quiet.new ≡ equal) LooksByTask)
        (list_seat seat.old) result (list_seat seat.new) }
    ensures kept { WritesOnlyWith IsOk result quiet.old quiet.new }
{
    if !seat.is_full {
        return NO_SEAT;
    }
    let KeptSeat::OfList(place) = seat.cell.place() else {
        return NO_SEAT;
    };
    place.quiet(quiet)
}
