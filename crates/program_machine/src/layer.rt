//! The sleeping layer below a lock program: the call that a line begins, and its rows.

ghost use Rattle.std.specs.Prelude.{◌≡◌, ◌<◌, ◌^◌, ℕ, ℤ, List, length, cond};
ghost use Rattle.std.specs.Prelude.{Some, None, Ok, Err, IfSome, IfOk, IfErr, OnErr};
ghost use Rattle.program_machine.specs.Beginning.{CanBegin, HasCall, HasListOf, MayRun, MayRunFirst};
ghost use Rattle.program_machine.specs.LayerRows.{HasLayerRow, HasNoLayerRow, as_it_is, with_call};
ghost use Rattle.program_steps.specs.Steps.{after_call, after_row, settled};
ghost use Rattle.step_core.specs.State.{Becomes, HasSeat, MayBegin, AreSameSize, core_of};
ghost use Rattle.step_table.specs.declared.entry.Entry.{Entry};

use program_steps::{Stand, Then};
use step_core::WholeMachine;
use step_table::{Call, ListWord, Standing, StepRefused};
use waiters::SeatId;

/// What comes after a row of the layer at this line: once its seat is at rest there the call has ended.
fn after_call(line: usize, standing: Standing) -> Then
    ensures { result ≡ after_call line standing }
{
    match standing {
        Standing::Rest => Then::OnFromNext,
        _ => Then::Stands(Stand::Within(line)),
    }
}

/// What comes after a row of the layer at this line: who is to begin an acquire anew, since its exchange was
/// lost, gives it up and is before its line again.
fn after_row(layer: &mut WholeMachine, seat: SeatId, line: usize) -> Then
    requires { HasSeat layer.old seat }
    ensures settled { Becomes (λ m s. settled seat s) layer.old layer.new }
    ensures next { (journal : List Entry) → result ≡ after_row line seat (core_of layer.old journal) }
{
    if layer.is_to_acquire(seat) {
        layer.give_up(seat);
        return Then::Stands(Stand::Before(line));
    }
    after_call(line, layer.doing(seat))
}

/// Runs the row of the layer at which the seat stands, if it can. A refusal changes nothing.
pub(crate) fn run_row(
    layer: &mut WholeMachine,
    seat: SeatId,
    line: usize,
) -> Result<Then, StepRefused>
    requires { MayRun layer.old seat }
    ensures row { IfOk result (HasLayerRow layer.old seat line as_it_is layer.new) }
    ensures size { AreSameSize layer.old layer.new }
    ensures err { OnErr result (layer.new ≡ layer.old) }
    ensures why { IfErr result (λ cause. HasNoLayerRow layer.old seat line as_it_is) }
{
    match layer.step(seat) {
        Ok(_) => Ok(after_row(layer, seat, line)),
        Err(cause) => Err(cause),
    }
}

/// Whether the first row of the call can run: that of a wait takes its list's lock, and all others can.
pub(crate) fn can_begin(layer: &WholeMachine, call: &Call) -> bool
    requires { HasListOf layer.now call.now }
    ensures { CanBegin layer.now call.now result }
{
    match call {
        Call::Wait(list) | Call::WaitOrLeave(list, _) => {
            layer.list_number(*list, &ListWord::Lock) == 0
        }
        _ => true,
    }
}

/// The call begins and its first row runs, if that can run. A refusal changes nothing.
pub(crate) fn begin(
    layer: &mut WholeMachine,
    seat: SeatId,
    line: usize,
    call: Call,
) -> Result<Then, StepRefused>
    requires seat { HasSeat layer.old seat }
    requires may { HasCall layer.old seat call }
    requires call { MayBegin layer.old seat call }
    requires first { MayRunFirst layer.old seat call }
    ensures row { IfOk result (HasLayerRow layer.old seat line (with_call seat call) layer.new) }
    ensures size { AreSameSize layer.old layer.new }
    ensures err { OnErr result (layer.new ≡ layer.old) }
    ensures why { IfErr result (λ cause. HasNoLayerRow layer.old seat line (with_call seat call)) }
{
    if !can_begin(layer, &call) {
        return Err(StepRefused::LockHeld);
    }
    layer.call(seat, call);
    run_row(layer, seat, line)
}
