//! The call of the layer that a line begins, or why its seat fails.

ghost use Rattle.std.specs.Prelude.{◌≡◌, ◌<◌, ◌+◌, ◌^◌, ◌&&◌, ℕ, pos, nat_lt, int_le, length, cond};
ghost use Rattle.std.specs.Prelude.{Ok, Err, Some, IfSome};
ghost use Rattle.program_machine.specs.Calling.{HasAll, FitsCall};
ghost use Rattle.program_machine.specs.Shared.{world_at};
ghost use Rattle.program_rows.specs.Fitting.{FitsPlace};
ghost use Rattle.program_rows.specs.Stored.{Stored, seats_of};
ghost use Rattle.program_steps.specs.declared.failure.Failure.TheVariants.{Ticket as NoTicket};
ghost use Rattle.program_steps.specs.Calls.{call_of, unless_over, many_of, release_of, holds_ticket};
ghost use Rattle.program_steps.specs.Reading.{place_of};
ghost use Rattle.step_core.specs.State.{HasListSeat};

use program_code::{CodePlace, Instruction, Share};
use program_rows::ProgramState;
use program_steps::Failure;
use step_core::WholeMachine;
use step_table::{Call, ListId};
use waiters::{CounterId, SeatId};

/// The least number that is too much for a counter.
const TOO_MUCH: u64 = 1 << 32;

/// A call that adds so many units to the counter, unless that is too much for it.
fn unless_over(
    layer: &WholeMachine,
    counter: CounterId,
    units: u64,
    call: Call,
) -> Result<Call, Failure>
    requires { counter < length layer.now.semaphores.stored.numbers }
    ensures { (own : Stored) → result ≡ unless_over (world_at layer.now own) counter units call }
{
    if has_room(layer.number(counter), units) {
        Ok(call)
    } else {
        Err(Failure::Overflow)
    }
}

/// Whether a counter at this number has room for so many units more.
fn has_room(number: u64, units: u64) -> bool
    ensures { result ≡ nat_lt (number + units) (2 ^ 32) }
{
    match number.checked_add(units) {
        Some(sum) => sum < TOO_MUCH,
        None => false,
    }
}

/// Whether a release of many may be of so many units.
fn is_many(units: i64) -> bool
    ensures { result ≡ (int_le (pos 1) units && int_le units (pos 256)) }
{
    1 <= units && units <= 256
}

/// A release of so many units at once.
fn many_of(layer: &WholeMachine, counter: CounterId, units: i64) -> Result<Call, Failure>
    requires { counter < length layer.now.semaphores.stored.numbers }
    ensures { (own : Stored) → result ≡ many_of (world_at layer.now own) counter units }
{
    if !is_many(units) {
        return Err(Failure::Many);
    }
    let units = units.unsigned_abs();
    unless_over(
        layer,
        counter,
        units,
        Call::ReleaseMany(counter, units as u32),
    )
}

/// The release that a line makes of this counter.
fn release_of(
    layer: &WholeMachine,
    own: &ProgramState,
    seat: SeatId,
    counter: CounterId,
    share: &Share,
) -> Result<Call, Failure>
    requires seat { seat < length own.now.seats }
    requires counter { counter < length layer.now.semaphores.stored.numbers }
    ensures { result ≡ release_of (world_at layer.now own.now) seat
        (seats_of own.now.seats seat).registers counter share.now }
{
    match share {
        Share::One => unless_over(layer, counter, 1, Call::Release(counter, false)),
        Share::Handoff => unless_over(layer, counter, 1, Call::Release(counter, true)),
        Share::Many(operand) => many_of(layer, counter, own.value(seat, operand)),
    }
}

/// The counter of a place, of which there are fewer than 2^32, where its index is within the array.
fn counter_of(own: &ProgramState, seat: SeatId, place: &CodePlace) -> Option<CounterId>
    requires seat { seat < length own.now.seats }
    requires place { FitsPlace (2 ^ 32) place.now }
    ensures found { result ≡ place_of seat (seats_of own.now.seats seat).registers place.now }
    ensures within { (n : ℕ) → FitsPlace n place.now → IfSome result (λ k. k < n) }
{
    match own.place(seat, place) {
        Some(counter) => Some(CounterId::new(counter as u32)),
        None => None,
    }
}

/// A call that takes a ticket of the list, where the seat holds none.
fn ticket_of(layer: &WholeMachine, seat: SeatId, list: ListId) -> Result<Call, Failure>
    requires { HasListSeat layer.now list seat }
    ensures { (own : Stored) → result
        ≡ cond (holds_ticket (world_at layer.now own) seat list) (Err NoTicket) (Ok (Call.Add list)) }
{
    if layer.holds_ticket(list, seat) {
        Err(Failure::Ticket)
    } else {
        Ok(Call::Add(list))
    }
}

/// A call that waits with the ticket of the list that the seat holds.
fn wait_of(layer: &WholeMachine, seat: SeatId, list: ListId) -> Result<Call, Failure>
    requires { HasListSeat layer.now list seat }
    ensures { (own : Stored) → result
        ≡ cond (holds_ticket (world_at layer.now own) seat list) (Ok (Call.Wait list)) (Err NoTicket) }
{
    if layer.holds_ticket(list, seat) {
        Ok(Call::Wait(list))
    } else {
        Err(Failure::Ticket)
    }
}

/// The call that the line begins, if it is one of the layer; or why its seat fails.
pub(crate) fn call_of(
    layer: &WholeMachine,
    own: &ProgramState,
    seat: SeatId,
    instruction: &Instruction,
) -> Option<Result<Call, Failure>>
    requires all { HasAll layer.now own.now seat }
    requires fits { FitsCall (length layer.now.semaphores.stored.numbers)
        (length layer.now.lists) instruction.now }
    ensures { result ≡ call_of (world_at layer.now own.now) seat instruction.now }
{
    match instruction {
        Instruction::Acquire(place, lifo) => Some(match counter_of(own, seat, place) {
            None => Err(Failure::Index),
            Some(counter) => Ok(Call::Acquire(counter, *lifo)),
        }),
        Instruction::Release(place, share) => Some(match counter_of(own, seat, place) {
            None => Err(Failure::Index),
            Some(counter) => release_of(layer, own, seat, counter, share),
        }),
        Instruction::Ticket(list) => Some(ticket_of(layer, seat, ListId::new(*list as u32))),
        Instruction::Wait(list) => Some(wait_of(layer, seat, ListId::new(*list as u32))),
        Instruction::One(list) => Some(Ok(Call::One(ListId::new(*list as u32)))),
        Instruction::All(list) => Some(Ok(Call::All(ListId::new(*list as u32)))),
        _ => None,
    }
}
