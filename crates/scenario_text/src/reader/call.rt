//! The calls of a seat's line.
//!
//! Behind `acquire C`, `acquire C lifo` and `wait L` the word `leave` or `quit` lets the seat give up while it
//! sleeps. After `leave` it keeps what comes too late, after `quit` it gives that back. A number behind the word
//! says how many of the seat's next calls are left out then. Behind `gwait G` there is no `quit`.

ghost use Rattle.std.specs.Prelude.{◌≡◌, IsTrue, IfOk, false};
ghost use Rattle.std.specs.Option.{option_map};
ghost use Rattle.scenario_text.specs.Line.{skips};
ghost use Rattle.scenario_text.specs.Phrases.{ReadsAs, IsKeyedSome, IsChange, IsGroupAdd, IsGivingUp, IsOrLeave};
ghost use Rattle.scenario_text.specs.Phrases.{IsGroupLeave, IsCall, IsCallOrLeave, IsSomeCall, AreCalls};

use crate::reader::number::{DIGITS, flagged, keyed, numbered, pair, short_number};
use std::alloc::{AllocError, Global};
use step_table::Late;

/// By how much a group's counter changes, as the text spells it.
#[derive(Clone, Copy)]
pub(crate) enum Change {
    Up(u128),
    Down(u128),
}

/// How a call may give up while its seat sleeps, as the text spells it.
#[derive(Clone, Copy)]
pub(crate) struct SpelledGivingUp {
    /// What becomes of what comes too late.
    pub(crate) late: Late,
    /// How many of the seat's next calls are left out then, where the text says it.
    pub(crate) skips: Option<u128>,
}

impl SpelledGivingUp {
    /// How many of the seat's next calls are left out: none where the text says nothing.
    pub(crate) fn skips(self) -> u128
        ensures { result ≡ skips self }
    {
        self.skips.unwrap_or(0)
    }
}

/// A call of a seat, as the text spells it: its numbers may be of things that aren't there.
#[derive(Clone, Copy)]
pub(crate) enum SpelledCall {
    Acquire(u128),
    AcquireLifo(u128),
    AcquireOrLeave(u128, bool, SpelledGivingUp),
    Release(u128),
    ReleaseHandoff(u128),
    ReleaseMany(u128, u128),
    Add(u128),
    Wait(u128),
    WaitOrLeave(u128, SpelledGivingUp),
    One(u128),
    All(u128),
    GroupAdd(u128, Change),
    GroupWait(u128),
    GroupWaitOrLeave(u128, Option<u128>),
}

/// A number, or a minus and a number that isn't 0.
fn read_change(text: &str) -> Option<Change>
    ensures { ReadsAs (IsChange text.now) result }
{
    if let Some(size) = short_number(text) {
        return Some(Change::Up(size));
    }
    let size = keyed(text, "-", DIGITS)?;
    if size == 0 {
        return None;
    }
    Some(Change::Down(size))
}

fn read_group_add(text: &str) -> Option<(u128, Change)>
    ensures { ReadsAs (IsGroupAdd text.now) result }
{
    let (group, size) = numbered(text, "gadd ")?;
    let size = read_change(size)?;
    Some((group, size))
}

/// How many of the next calls are left out, behind a word: where none is, nothing is written.
fn read_skips(text: &str, word: &str) -> Option<u128>
    ensures { ReadsAs (IsKeyedSome word.now text.now) result }
{
    let skips = keyed(text, word, DIGITS)?;
    if skips == 0 {
        return None;
    }
    Some(skips)
}

/// How a call may give up: a word, and a number that may follow it.
fn read_giving_up(text: &str) -> Option<SpelledGivingUp>
    ensures { ReadsAs (IsGivingUp text.now) result }
{
    if text == "leave" {
        return Some(SpelledGivingUp {
            late: Late::Kept,
            skips: None,
        });
    }
    if text == "quit" {
        return Some(SpelledGivingUp {
            late: Late::GivenBack,
            skips: None,
        });
    }
    if let Some(skips) = read_skips(text, "leave ") {
        return Some(SpelledGivingUp {
            late: Late::Kept,
            skips: Some(skips),
        });
    }
    let skips = read_skips(text, "quit ")?;
    Some(SpelledGivingUp {
        late: Late::GivenBack,
        skips: Some(skips),
    })
}

/// The number behind a keyword, and how the call may give up, behind a flag.
fn read_or_leave(text: &str, keyword: &str, flag: &str) -> Option<(u128, SpelledGivingUp)>
    ensures { ReadsAs (IsOrLeave keyword.now flag.now text.now) result }
{
    let (number, rest) = numbered(text, keyword)?;
    let how = read_giving_up(rest.strip_prefix(flag)?)?;
    Some((number, how))
}

/// A group's number, and how many of the seat's next calls are left out where its wait there is given up.
fn read_group_leave(text: &str) -> Option<(u128, Option<u128>)>
    ensures { ReadsAs (IsGroupLeave text.now) result }
{
    let (group, how) = read_or_leave(text, "gwait ", "")?;
    match how.late {
        Late::Kept => Some((group, how.skips)),
        Late::GivenBack => None,
    }
}

/// The one call that the text spells, where its seat may give up.
fn read_call_or_leave(text: &str) -> Option<SpelledCall>
    ensures { ReadsAs (IsCallOrLeave text.now) result }
{
    if let Some((counter, how)) = read_or_leave(text, "acquire ", "") {
        return Some(SpelledCall::AcquireOrLeave(counter, false, how));
    }
    if let Some((counter, how)) = read_or_leave(text, "acquire ", "lifo ") {
        return Some(SpelledCall::AcquireOrLeave(counter, true, how));
    }
    if let Some((list, how)) = read_or_leave(text, "wait ", "") {
        return Some(SpelledCall::WaitOrLeave(list, how));
    }
    let (group, skips) = read_group_leave(text)?;
    Some(SpelledCall::GroupWaitOrLeave(group, skips))
}

/// The one call that the text spells.
fn read_call(text: &str) -> Option<SpelledCall>
    ensures { ReadsAs (IsCall text.now) result }
{
    if let Some(counter) = keyed(text, "acquire ", DIGITS) {
        return Some(SpelledCall::Acquire(counter));
    }
    if let Some(counter) = flagged(text, "acquire ", " lifo") {
        return Some(SpelledCall::AcquireLifo(counter));
    }
    if let Some(counter) = keyed(text, "release ", DIGITS) {
        return Some(SpelledCall::Release(counter));
    }
    if let Some(counter) = flagged(text, "release ", " handoff") {
        return Some(SpelledCall::ReleaseHandoff(counter));
    }
    if let Some((counter, units)) = pair(text, "release ", "many ") {
        return Some(SpelledCall::ReleaseMany(counter, units));
    }
    if let Some(list) = keyed(text, "add ", DIGITS) {
        return Some(SpelledCall::Add(list));
    }
    if let Some(list) = keyed(text, "wait ", DIGITS) {
        return Some(SpelledCall::Wait(list));
    }
    if let Some(list) = keyed(text, "one ", DIGITS) {
        return Some(SpelledCall::One(list));
    }
    if let Some(list) = keyed(text, "all ", DIGITS) {
        return Some(SpelledCall::All(list));
    }
    if let Some((group, change)) = read_group_add(text) {
        return Some(SpelledCall::GroupAdd(group, change));
    }
    if let Some(group) = keyed(text, "gwait ", DIGITS) {
        return Some(SpelledCall::GroupWait(group));
    }
    read_call_or_leave(text)
}

/// Whether the text spells a call.
pub fn is_call(text: &str) -> bool
    ensures yes { IsTrue result → IsSomeCall text.now }
    ensures no { result ≡ false → IsSomeCall text.now → ⊥ }
{
    match read_call(text) {
        Some(_) => true,
        None => false,
    }
}

/// The calls that the text spells, in order.
pub(crate) fn read_calls(alloc: Global, text: &str) -> Result<Option<Vec<SpelledCall>>, AllocError>
    ensures { IfOk result (λ o. ReadsAs (AreCalls text.now) (option_map (λ v. v.items) o)) }
{
    let mut calls = Vec::new(alloc);
    let mut rest = text;
    while let Some((first, others)) = rest.split_once(';') {
        let Some(next) = read_call(first) else {
            return Ok(None);
        };
        let Some(after) = others.strip_prefix(" ") else {
            return Ok(None);
        };
        calls.push(next)?;
        rest = after;
    }
    match read_call(rest) {
        Some(last) => {
            calls.push(last)?;
            Ok(Some(calls))
        }
        None => Ok(None),
    }
}
