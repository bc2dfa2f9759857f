//! What the lines that were read so far ask for.

ghost use Rattle.std.specs.Prelude.{◌≡◌, ◌<◌, ◌+◌, ◌^◌, map, All, IfOk, OnOk, None};
ghost use Rattle.scenario_text.specs.Fitting.{FitsChange, FitsGivingUp, FitsCall, FitsLine};
ghost use Rattle.scenario_text.specs.Phrases.{line_of};
ghost use Rattle.scenario_text.specs.ScenarioText.{change_of as change_value, call_of as call_value};
ghost use Rattle.scenario_text.specs.ScenarioText.{giving_up_of as giving_up_value};
ghost use Rattle.scenario_text.specs.ScenarioText.{no_parts, with_line, with_property};

use crate::reader::call::{Change, SpelledCall, SpelledGivingUp};
use crate::reader::line::Line;
use crate::request::Property;
use std::alloc::{AllocError, Global};
use step_table::{Call, GivingUp, GroupId, Items, ListId, MAX_ROOTS, Parts};
use waiters::CounterId;

/// A request whose property may still be missing.
#[derive(Drop)]
pub(crate) struct Draft {
    pub(crate) parts: Parts,
    pub(crate) property: Option<Property>,
}

fn change_of(change: &Change) -> i32
    requires { FitsChange change.now }
    ensures { result ≡ change_value change.now }
{
    match change {
        Change::Up(size) => *size as i32,
        Change::Down(size) => (-(*size as i64)) as i32,
    }
}

fn giving_up_of(how: &SpelledGivingUp) -> GivingUp
    requires { FitsGivingUp how.now }
    ensures { result ≡ giving_up_value how.now }
{
    GivingUp {
        late: how.late,
        skips: how.skips() as u32,
    }
}

fn call_of(call: &SpelledCall) -> Call
    requires { FitsCall call.now }
    ensures { result ≡ call_value call.now }
{
    match call {
        SpelledCall::Acquire(counter) => Call::Acquire(CounterId::new(*counter as u32), false),
        SpelledCall::AcquireLifo(counter) => Call::Acquire(CounterId::new(*counter as u32), true),
        SpelledCall::AcquireOrLeave(counter, lifo, how) => {
            Call::AcquireOrLeave(CounterId::new(*counter as u32), *lifo, giving_up_of(how))
        }
        SpelledCall::Release(counter) => Call::Release(CounterId::new(*counter as u32), false),
        SpelledCall::ReleaseHandoff(counter) => {
            Call::Release(CounterId::new(*counter as u32), true)
        }
        SpelledCall::ReleaseMany(counter, units) => {
            Call::ReleaseMany(CounterId::new(*counter as u32), *units as u32)
        }
        SpelledCall::Add(list) => Call::Add(ListId::new(*list as u32)),
        SpelledCall::Wait(list) => Call::Wait(ListId::new(*list as u32)),
        SpelledCall::WaitOrLeave(list, how) => {
            Call::WaitOrLeave(ListId::new(*list as u32), giving_up_of(how))
        }
        SpelledCall::One(list) => Call::One(ListId::new(*list as u32)),
        SpelledCall::All(list) => Call::All(ListId::new(*list as u32)),
        SpelledCall::GroupAdd(group, change) => {
            Call::GroupAdd(GroupId::new(*group as u32), change_of(change))
        }
        SpelledCall::GroupWait(group) => Call::GroupWait(GroupId::new(*group as u32)),
        SpelledCall::GroupWaitOrLeave(group, skips) => {
            Call::GroupWaitOrLeave(GroupId::new(*group as u32), skips.unwrap_or(0) as u32)
        }
    }
}

fn calls_of(alloc: Global, spelled: &[SpelledCall]) -> Result<Items<Call>, AllocError>
    requires { All FitsCall spelled.now }
    ensures { IfOk result (λ calls. calls ≡ map call_value spelled.now) }
{
    let mut calls = Vec::with_capacity(alloc, spelled.len())?;
    for call in spelled {
        calls.push_reserved(call_of(call));
    }
    Ok(Items::new(calls))
}

impl Draft {
    /// What no lines ask for.
    pub(crate) fn new(alloc: Global) -> Self
        ensures parts { result.parts ≡ no_parts }
        ensures property { result.property ≡ None }
    {
        let parts = Parts {
            roots: MAX_ROOTS,
            starts: Items::empty(alloc),
            firsts: Items::empty(alloc),
            groups: 0,
            calls: Items::empty(alloc),
        };
        Draft {
            parts,
            property: None,
        }
    }

    /// Takes one line more.
    ///
    /// It is an `Err` where memory is short.
    pub(crate) fn add(&mut self, alloc: Global, line: &Line) -> Result<(), AllocError>
        requires fits { FitsLine (line_of line.now) }
        requires groups { self.old.parts.groups + 1 < 2 ^ 32 }
        ensures parts { OnOk result (self.new.parts ≡ with_line self.old.parts (line_of line.now)) }
        ensures property { OnOk result
            (self.new.property ≡ with_property self.old.property (line_of line.now)) }
    {
        match line {
            Line::Roots(roots) => self.parts.roots = *roots as u32,
            Line::Counter(start) => return self.parts.starts.push_back(*start as u32),
            Line::NotifyList(first) => return self.parts.firsts.push_back(*first as u64),
            Line::Group => self.parts.groups += 1,
            Line::Seat(_, spelled) => return self.parts.calls.push_back(calls_of(alloc, spelled)?),
            Line::Settled => self.property = Some(Property::Settled),
            Line::Value(counter, number) => {
                let counter = CounterId::new(*counter as u32);
                self.property = Some(Property::Value(counter, *number as u32));
            }
            Line::NoMisuse => self.property = Some(Property::NoMisuse),
            Line::NoLost => self.property = Some(Property::NoLost),
        }
        Ok(())
    }
}
