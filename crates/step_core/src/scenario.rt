//! A scenario: how many roots, where the counters start, and the calls of each seat.

ghost use Rattle.std.specs.Prelude.{◌≡◌, ◌<◌, ◌≤◌, ◌↔◌, ◌+◌, ◌-◌, ◌*◌, ◌^◌, ℕ, IsTrue, All, IfOk, ◌∷◌, []};
ghost use Rattle.std.specs.Prelude.{List, length, slice_index, slice_index_or};
ghost use Rattle.step_table.specs.Run.{AllRun, call_of};
ghost use Rattle.step_table.specs.Scenario.{IsWithinLimits, IsDeclared, KeepsTickets, AreTicketsKept};
ghost use Rattle.step_table.specs.Scenario.{IsTicketCall, IsScript, IsOfFewUnits, IsCallOn, holds_ticket};
ghost use Rattle.step_table.specs.Scenario.{holding_after, skips_of, SkipsKeepTickets};
ghost use Rattle.step_core.specs.Skips.{IsHeldAlike};
ghost use Rattle.step_law_whole.specs.RunInvariant.{IsScenario};
ghost use Rattle.step_law_whole.specs.CoreWeight.{call_cost, late_weight, late_on_list_weight};
ghost use Rattle.step_law_whole.specs.RunWeight.{calls_cost, most_steps};

use std::marker::Model;
use step_table::{
    Call, Items, Late, ListId, MAX_CALLS, MAX_COUNTERS, MAX_GROUPS, MAX_LISTS, MAX_ROOTS,
    MAX_SEATS, MAX_SKIPS, MAX_UNITS, MIN_UNITS, Parts, ScenarioRefused,
};

/// Parts that keep the limits, whose calls name what is declared, and whose seats take and spend tickets in
/// turn.
#[derive(Drop)]
pub struct Scenario {
    parts: Parts,
}

impl Model for Scenario {
    ghost use Rattle.step_table.specs.declared.parts.Parts.{Parts};
    ghost use Rattle.step_table.specs.Run.{call_of};
    ghost use Rattle.step_law_whole.specs.RunInvariant.{IsScenario};

    ghost Value = { Parts };

    ghost view = { λ s. s.parts };

    ghost invariant = { λ s. IsScenario s.parts };
}

/// Whether a release of many is of as many units as it may be, and a call that may give up leaves out as few
/// calls.
fn is_of_few_units(call: &Call) -> bool
    ensures { IsTrue result ↔ IsOfFewUnits call.now }
{
    match *call {
        Call::ReleaseMany(_, units) => MIN_UNITS <= units && units <= MAX_UNITS,
        Call::AcquireOrLeave(_, _, how) | Call::WaitOrLeave(_, how) => how.skips <= MAX_SKIPS,
        Call::GroupWaitOrLeave(_, skips) => skips <= MAX_SKIPS,
        _ => true,
    }
}

/// Whether the call names a counter, list or group of these parts.
fn is_on(call: &Call, parts: &Parts) -> bool
    ensures { IsTrue result ↔ IsCallOn parts.now call.now }
{
    match *call {
        Call::Acquire(counter, _)
        | Call::AcquireOrLeave(counter, _, _)
        | Call::Release(counter, _)
        | Call::ReleaseMany(counter, _) => (counter.number() as usize) < parts.starts.len(),
        Call::Add(list)
        | Call::Wait(list)
        | Call::WaitOrLeave(list, _)
        | Call::One(list)
        | Call::All(list) => (list.number() as usize) < parts.firsts.len(),
        Call::GroupAdd(group, _) | Call::GroupWait(group) | Call::GroupWaitOrLeave(group, _) =>
            group.number() < parts.groups,
    }
}

/// Whether a seat that made this call holds a ticket of the list, where it held one before or not.
fn leaves_ticket(call: &Call, list: ListId, held: bool) -> bool
    ensures { result ≡ holding_after list held (call.now ∷ []) }
{
    match *call {
        Call::Add(other) if other.number() == list.number() => true,
        Call::Wait(other) | Call::WaitOrLeave(other, _) if other.number() == list.number() => false,
        _ => held,
    }
}

/// Whether the call, made after these, takes a ticket where none of its list is held, and waits where one is.
fn is_ticket_call(call: &Call, before: &[Call]) -> bool
    ensures { IsTrue result ↔ IsTicketCall before.now call.now }
{
    match *call {
        Call::Add(list) => !holds_ticket(before, list),
        Call::Wait(list) | Call::WaitOrLeave(list, _) => holds_ticket(before, list),
        _ => true,
    }
}

/// Whether a seat that made these calls holds a ticket of the list.
fn holds_ticket(calls: &[Call], list: ListId) -> bool
    ensures { result ≡ holds_ticket list calls.now }
{
    let mut held = false;
    for call in calls {
        held = leaves_ticket(call, list, held);
    }
    held
}

/// How many calls are left out after this one, where it is given up.
fn skips_of(call: &Call) -> usize
    ensures { result ≡ skips_of call.now }
{
    match *call {
        Call::AcquireOrLeave(_, _, how) | Call::WaitOrLeave(_, how) => how.skips as usize,
        Call::GroupWaitOrLeave(_, skips) => skips as usize,
        _ => 0,
    }
}

/// Whether of the list of this call, if it is one of a list, a seat holds a ticket after these calls where it
/// held one after those.
fn is_held_alike(call: &Call, before: &[Call], after: &[Call]) -> bool
    ensures { IsTrue result ↔ IsHeldAlike before.now after.now call.now }
{
    match *call {
        Call::Add(list) | Call::Wait(list) | Call::WaitOrLeave(list, _) => {
            holds_ticket(after, list) == holds_ticket(before, list)
        }
        _ => true,
    }
}

/// The same of each of these calls.
fn are_held_alike(calls: &[Call], before: &[Call], after: &[Call]) -> bool
    ensures { IsTrue result ↔ All (IsHeldAlike before.now after.now) calls.now }
{
    calls.iter().all(|call| is_held_alike(call, before, after))
}

/// Whether the seat holds the same tickets before the calls that are left out with this one and after them.
fn keep_skips_tickets(calls: &[Call], i: usize, call: &Call) -> bool
    requires within { i < length calls.now }
    ensures { IsTrue result ↔ SkipsKeepTickets calls.now i call.now }
{
    let next = i + 1;
    let rest = &calls[next..];
    let skips = skips_of(call).min(rest.len());
    are_held_alike(&rest[..skips], &calls[..next], &calls[..next + skips])
}

fn are_tickets_kept(calls: &Items<Call>) -> bool
    ensures { IsTrue result ↔ AreTicketsKept calls.now }
{
    let calls = calls.as_slice();
    for (i, call) in calls.iter().enumerate() {
        if !is_ticket_call(call, &calls[..i]) || !keep_skips_tickets(calls, i, call) {
            return false;
        }
    }
    true
}

fn is_script(calls: &Items<Call>) -> bool
    ensures { IsTrue result ↔ IsScript calls.now }
{
    0 < calls.len()
        && calls.len() <= MAX_CALLS
        && calls.as_slice().iter().all(|call| is_of_few_units(call))
}

fn are_on(calls: &Items<Call>, parts: &Parts) -> bool
    ensures { IsTrue result ↔ All (IsCallOn parts.now) calls.now }
{
    calls.as_slice().iter().all(|call| is_on(call, parts))
}

fn are_within_limits(parts: &Parts) -> bool
    ensures { IsTrue result ↔ IsWithinLimits parts.now }
{
    0 < parts.roots
        && parts.roots <= MAX_ROOTS
        && parts.starts.len() <= MAX_COUNTERS
        && parts.firsts.len() <= MAX_LISTS
        && parts.groups <= MAX_GROUPS
        && 0 < parts.calls.len()
        && parts.calls.len() <= MAX_SEATS
        && parts.calls.as_slice().iter().all(|calls| is_script(calls))
}

fn are_declared(parts: &Parts) -> bool
    ensures { IsTrue result ↔ IsDeclared parts.now }
{
    parts
        .calls
        .as_slice()
        .iter()
        .all(|calls| are_on(calls, parts))
}

fn keep_tickets(parts: &Parts) -> bool
    ensures { IsTrue result ↔ KeepsTickets parts.now }
{
    parts
        .calls
        .as_slice()
        .iter()
        .all(|calls| are_tickets_kept(calls))
}

/// What the releases cost that an add to a wait group may make: one for each other seat.
fn releases_cost(seats: u64) -> u64
    requires seats { (1 ≤ seats) × (seats ≤ 16) }
    ensures cost { result ≡ (seats - 1) * (2 * seats + 11) }
    ensures low { result ≤ 645 }
{
    (seats - 1) * (2 * seats + 11)
}

/// What it costs to give back a unit that comes too late.
fn late_cost(late: Late, seats: u64) -> u64
    requires seats { (1 ≤ seats) × (seats ≤ 16) }
    ensures cost { result ≡ late_weight seats late }
    ensures low { result ≤ 43 }
{
    match late {
        Late::Kept => 0,
        Late::GivenBack => 2 * seats + 11,
    }
}

/// What it costs to make a notification in place of one that comes too late.
fn late_on_list_cost(late: Late) -> u64
    ensures cost { result ≡ late_on_list_weight late }
    ensures low { result ≤ 7 }
{
    match late {
        Late::Kept => 0,
        Late::GivenBack => 7,
    }
}

/// What a call of one of so many seats costs: how many steps it may make the seats take, its own among them.
fn call_cost(call: &Call, seats: u64) -> u64
    requires seats { (1 ≤ seats) × (seats ≤ 16) }
    ensures cost { result ≡ call_cost seats call.now }
    ensures low { result ≤ 708 }
{
    match *call {
        Call::Acquire(..) => 2 * seats + 5,
        Call::AcquireOrLeave(_, _, how) => 2 * seats + 8 + late_cost(how.late, seats),
        Call::Release(_, false) => 2 * seats + 11,
        Call::Release(_, true) => 4 * seats + 10,
        Call::ReleaseMany(_, units) => 2 * seats + 8 * u64::from(units).min(seats - 1) + 3,
        Call::Add(_) => 1,
        Call::Wait(_) => 5,
        Call::WaitOrLeave(_, how) => 8 + late_on_list_cost(how.late),
        Call::One(_) | Call::All(_) => 7,
        Call::GroupAdd(..) => 4 * seats - 1 + releases_cost(seats),
        Call::GroupWait(_) => 4 * seats + 6,
        Call::GroupWaitOrLeave(_, _) => 4 * seats + 10,
    }
}

/// What all calls of a seat cost.
fn calls_cost(calls: &Items<Call>, seats: u64) -> u64
    requires seats { (1 ≤ seats) × (seats ≤ 16) }
    requires few { length calls.now ≤ 32 }
    ensures cost { result ≡ calls_cost seats calls.now }
    ensures low { result ≤ 32 * 708 }
{
    let mut cost = 0;
    for call in calls.as_slice() {
        cost += call_cost(call, seats);
    }
    cost
}

impl Scenario {
    /// The scenario of these parts. It takes no memory.
    pub fn of(parts: Parts) -> Result<Self, ScenarioRefused>
        ensures ok { IfOk result (λ scenario. (scenario ≡ parts) × IsScenario parts) }
        ensures limits { (result ≡ Err ScenarioRefused.OutOfLimits) ↔ (¬ IsWithinLimits parts) }
        ensures undeclared { (result ≡ Err ScenarioRefused.Undeclared) ↔
            (IsWithinLimits parts × (¬ IsDeclared parts)) }
        ensures tickets { (result ≡ Err ScenarioRefused.Ticket)
            ↔ (IsWithinLimits parts × IsDeclared parts × (¬ KeepsTickets parts)) }
    {
        if !are_within_limits(&parts) {
            return Err(ScenarioRefused::OutOfLimits);
        }
        if !are_declared(&parts) {
            return Err(ScenarioRefused::Undeclared);
        }
        if !keep_tickets(&parts) {
            return Err(ScenarioRefused::Ticket);
        }
        Ok(Scenario { parts })
    }

    /// The scenario of parts that are known to keep the limits, as those of a text that was read. They aren't
    /// tested again.
    pub fn from_checked(parts: Parts) -> Self
        requires { IsScenario parts }
        ensures { result ≡ parts }
    {
        Scenario { parts }
    }

    /// The parts that it was made of.
    pub fn parts(&self) -> &Parts
        ensures value { result.now ≡ self.now }
        ensures scenario { IsScenario self.now }
    {
        &self.parts
    }

    /// The number at which each counter starts.
    pub fn starts(&self) -> &[u32]
        ensures value { result.now ≡ self.now.starts }
        ensures fits { (c : ℕ) → slice_index self.now.starts c < 2 ^ 32 }
    {
        let starts = self.parts.starts.as_slice();
        starts
    }

    /// How many counters there are.
    pub fn counters(&self) -> usize
        ensures { result ≡ length self.now.starts }
    {
        self.parts.starts.len()
    }

    /// How many counters there are, with those of the wait groups, which come after the others.
    pub fn semaphores(&self) -> usize
        ensures { result ≡ length self.now.starts + self.now.groups }
    {
        self.parts.starts.len() + self.parts.groups as usize
    }

    /// How many seats there are.
    pub fn seats(&self) -> usize
        ensures { result ≡ length self.now.calls }
    {
        self.parts.calls.len()
    }

    /// The call of this number of the seat, if it has so many.
    pub fn call(&self, seat: usize, number: usize) -> Option<Call>
        requires { seat < length self.now.calls }
        ensures { result ≡ call_of self.now seat number }
    {
        let calls = &self.parts.calls.as_slice()[seat];
        calls.as_slice().get(number).copied()
    }

    /// How many calls the seat has.
    pub fn calls(&self, seat: usize) -> usize
        requires { seat < length self.now.calls }
        ensures { result ≡ length (slice_index_or self.now.calls seat []) }
    {
        self.parts.calls.as_slice()[seat].len()
    }

    /// No schedule of the scenario has more steps: what all calls of all seats cost.
    pub fn most_steps(&self) -> u64
        ensures cost { result ≡ most_steps self.now }
        ensures steps { (schedule : List ℕ) → AllRun self.now schedule → length schedule ≤ result }
    {
        let seats = self.parts.calls.len() as u64;
        let mut most = 0;
        for calls in self.parts.calls.as_slice() {
            most += calls_cost(calls, seats);
        }
        most
    }
}
