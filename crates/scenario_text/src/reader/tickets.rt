//! Which tickets a seat holds, call after call, whichever calls are left out.

ghost use Rattle.std.specs.Prelude.{◌≡◌, ◌≤◌, [], length, take, drop};
ghost use Rattle.std.specs.List.{list_any};
ghost use Rattle.scenario_text.specs.Causes as causes;

use crate::reader::call::SpelledCall;

/// Whether a seat holds a ticket of the list after the call, where it held one before or not.
fn held_after(list: u128, held: bool, call: &SpelledCall) -> bool
    ensures { result ≡ causes.held_after list held call.now }
{
    match call {
        SpelledCall::Add(other) => held || *other == list,
        SpelledCall::Wait(other) | SpelledCall::WaitOrLeave(other, _) => held && *other != list,
        _ => held,
    }
}

/// Whether a seat that made these calls holds a ticket of the list.
fn holds_ticket(list: u128, calls: &[SpelledCall]) -> bool
    ensures { result ≡ causes.has_ticket list calls.now }
{
    let mut held = false;
    for call in calls {
        held = held_after(list, held, call);
    }
    held
}

/// How many of the next calls are left out where the call is given up.
fn skips_of(call: &SpelledCall) -> u128
    ensures { result ≡ causes.skips_of call.now }
{
    match call {
        SpelledCall::AcquireOrLeave(_, _, how) | SpelledCall::WaitOrLeave(_, how) => how.skips(),
        SpelledCall::GroupWaitOrLeave(_, skips) => skips.unwrap_or(0),
        _ => 0,
    }
}

/// Whether the call names a list of which the seat holds a ticket before or after, and not both.
fn is_changed(before: &[SpelledCall], after: &[SpelledCall], call: &SpelledCall) -> bool
    ensures { result ≡ causes.is_changed before.now after.now call.now }
{
    match call {
        SpelledCall::Add(list) | SpelledCall::Wait(list) | SpelledCall::WaitOrLeave(list, _) => {
            holds_ticket(*list, before) != holds_ticket(*list, after)
        }
        _ => false,
    }
}

fn is_any_changed(before: &[SpelledCall], after: &[SpelledCall], calls: &[SpelledCall]) -> bool
    ensures { result ≡ list_any (causes.is_changed before.now after.now) calls.now }
{
    calls.iter().any(|call| is_changed(before, after, call))
}

/// Whether the seat holds other tickets after so many calls more than after those up to here.
fn changes_tickets(calls: &[SpelledCall], here: usize, more: u128) -> bool
    requires { here ≤ length calls.now }
    ensures { result ≡ causes.changes_tickets (take here calls.now) (take more (drop here calls.now)) }
{
    let left = calls.len() - here;
    let end = if more < left as u128 {
        here + more as usize
    } else {
        calls.len()
    };
    is_any_changed(&calls[..here], &calls[..end], &calls[here..end])
}

/// Whether the call takes a second ticket of a list, or waits without one, after these calls.
fn is_wrong_after(before: &[SpelledCall], call: &SpelledCall) -> bool
    ensures { result ≡ causes.is_wrong_after before.now call.now }
{
    match call {
        SpelledCall::Add(list) => holds_ticket(*list, before),
        SpelledCall::Wait(list) | SpelledCall::WaitOrLeave(list, _) => !holds_ticket(*list, before),
        _ => false,
    }
}

/// Whether one of the calls takes a second ticket of a list, waits without one, or leaves out calls without
/// which the seat would hold other tickets.
pub(crate) fn misuses_ticket(calls: &[SpelledCall]) -> bool
    ensures { result ≡ causes.misuses_ticket [] calls.now }
{
    for (i, call) in calls.iter().enumerate() {
        if is_wrong_after(&calls[..i], call) || changes_tickets(calls, i + 1, skips_of(call)) {
            return true;
        }
    }
    false
}
