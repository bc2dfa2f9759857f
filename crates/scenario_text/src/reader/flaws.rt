//! What is wrong with a line that is spelled well, after the lines before it.

ghost use Rattle.std.specs.Prelude.{◌≡◌, map};
ghost use Rattle.std.specs.List.{list_any};
ghost use Rattle.scenario_text.specs.Phrases.{line_of};
ghost use Rattle.scenario_text.specs.Causes as causes;
ghost use Rattle.scenario_text.specs.Reader.{flaw_of};

use crate::read_fault::Cause;
use crate::reader::call::{Change, SpelledCall};
use crate::reader::kind::{LineKind, count, count_later};
use crate::reader::line::Line;
use crate::reader::tickets::misuses_ticket;
use step_table::{
    MAX_CALLS, MAX_COUNTERS, MAX_GROUPS, MAX_LISTS, MAX_ROOTS, MAX_SEATS, MAX_SKIPS, MAX_UNITS,
    MIN_UNITS,
};

/// The least of the causes 4 to 8 that holds of the line.
pub(crate) fn flaw(before: &[Line], line: &Line) -> Option<Cause>
    ensures { result ≡ flaw_of (map line_of before.now) (line_of line.now) }
{
    if is_misplaced(before, line) {
        return Some(Cause::Place);
    }
    if is_out_of_range(line) {
        return Some(Cause::Range);
    }
    if is_too_many(before, line) {
        return Some(Cause::TooMany);
    }
    if is_undeclared(before, line) {
        return Some(Cause::Undeclared);
    }
    if has_wrong_ticket(line) {
        return Some(Cause::Ticket);
    }
    None
}

fn is_early_property(before: &[Line]) -> bool
    ensures { result ≡ causes.is_early_property (map line_of before.now) }
{
    count(before, LineKind::Seat) == 0 || count(before, LineKind::Property) > 0
}

fn is_out_of_turn(before: &[Line], line: &Line) -> bool
    ensures { result ≡ causes.is_out_of_turn (map line_of before.now) (line_of line.now) }
{
    match line {
        Line::Roots(_) => count(before, LineKind::Roots) > 0,
        Line::Seat(number, _) => *number != count(before, LineKind::Seat) as u128,
        Line::Settled | Line::Value(_, _) | Line::NoMisuse | Line::NoLost => {
            is_early_property(before)
        }
        _ => false,
    }
}

fn is_misplaced(before: &[Line], line: &Line) -> bool
    ensures { result ≡ causes.is_misplaced (map line_of before.now) (line_of line.now) }
{
    count_later(before, LineKind::of(line)) > 0 || is_out_of_turn(before, line)
}

fn is_wide_skip(skips: Option<u128>) -> bool
    ensures { result ≡ causes.is_wide_skip skips }
{
    match skips {
        Some(skips) => skips > MAX_SKIPS as u128,
        None => false,
    }
}

fn is_wide(call: &SpelledCall) -> bool
    ensures { result ≡ causes.is_wide call.now }
{
    match call {
        SpelledCall::AcquireOrLeave(_, _, how) | SpelledCall::WaitOrLeave(_, how) => {
            is_wide_skip(how.skips)
        }
        SpelledCall::GroupWaitOrLeave(_, skips) => is_wide_skip(*skips),
        SpelledCall::ReleaseMany(_, units) => *units < MIN_UNITS as u128
            || *units > MAX_UNITS as u128,
        SpelledCall::GroupAdd(_, Change::Up(size)) => *size > i32::MAX as u128,
        SpelledCall::GroupAdd(_, Change::Down(size)) => *size > i32::MAX as u128 + 1,
        _ => false,
    }
}

fn is_any_wide(calls: &[SpelledCall]) -> bool
    ensures { result ≡ list_any causes.is_wide calls.now }
{
    calls.iter().any(|call| is_wide(call))
}

fn is_out_of_range(line: &Line) -> bool
    ensures { result ≡ causes.is_out_of_range (line_of line.now) }
{
    match line {
        Line::Roots(roots) => *roots == 0 || *roots > MAX_ROOTS as u128,
        Line::Counter(start) => *start > u32::MAX as u128,
        Line::NotifyList(first) => *first > u64::MAX as u128,
        Line::Seat(_, calls) => is_any_wide(calls),
        Line::Value(_, number) => *number > u32::MAX as u128,
        _ => false,
    }
}

fn is_too_many(before: &[Line], line: &Line) -> bool
    ensures { result ≡ causes.is_too_many (map line_of before.now) (line_of line.now) }
{
    match line {
        Line::Counter(_) => count(before, LineKind::Counter) >= MAX_COUNTERS,
        Line::NotifyList(_) => count(before, LineKind::NotifyList) >= MAX_LISTS,
        Line::Group => count(before, LineKind::Group) >= MAX_GROUPS as usize,
        Line::Seat(_, calls) => count(before, LineKind::Seat) >= MAX_SEATS
            || calls.len() > MAX_CALLS,
        _ => false,
    }
}

fn is_missing(before: &[Line], kind: LineKind, number: u128) -> bool
    ensures { result ≡ causes.is_missing (map line_of before.now) kind number }
{
    number >= count(before, kind) as u128
}

fn names_missing(before: &[Line], call: &SpelledCall) -> bool
    ensures { result ≡ causes.names_missing (map line_of before.now) call.now }
{
    match call {
        SpelledCall::Acquire(counter)
        | SpelledCall::AcquireLifo(counter)
        | SpelledCall::AcquireOrLeave(counter, _, _)
        | SpelledCall::Release(counter)
        | SpelledCall::ReleaseHandoff(counter)
        | SpelledCall::ReleaseMany(counter, _) => is_missing(before, LineKind::Counter, *counter),
        SpelledCall::Add(list)
        | SpelledCall::Wait(list)
        | SpelledCall::WaitOrLeave(list, _)
        | SpelledCall::One(list)
        | SpelledCall::All(list) => is_missing(before, LineKind::NotifyList, *list),
        SpelledCall::GroupAdd(group, _)
        | SpelledCall::GroupWait(group)
        | SpelledCall::GroupWaitOrLeave(group, _) => is_missing(before, LineKind::Group, *group),
    }
}

fn is_any_missing(before: &[Line], calls: &[SpelledCall]) -> bool
    ensures { result ≡ list_any (causes.names_missing (map line_of before.now)) calls.now }
{
    calls.iter().any(|call| names_missing(before, call))
}

fn is_undeclared(before: &[Line], line: &Line) -> bool
    ensures { result ≡ causes.is_undeclared (map line_of before.now) (line_of line.now) }
{
    match line {
        Line::Seat(_, calls) => is_any_missing(before, calls),
        Line::Value(counter, _) => is_missing(before, LineKind::Counter, *counter),
        _ => false,
    }
}

fn has_wrong_ticket(line: &Line) -> bool
    ensures { result ≡ causes.has_wrong_ticket (line_of line.now) }
{
    match line {
        Line::Seat(_, calls) => misuses_ticket(calls),
        _ => false,
    }
}
