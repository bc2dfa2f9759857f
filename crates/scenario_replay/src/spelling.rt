//! Calls, waits and words as text.

use std::alloc::{AllocError, Global};
use step_core::{Call, CounterId, GroupWord, ListId, Misuse, WaitId, WordFound};
use step_table::{GivingUp, Late};

/// A call of a counter: its word, the counter, and what stands behind.
fn spell_on_counter(
    text: &mut String,
    word: &str,
    counter: CounterId,
    behind: &str,
) -> Result<(), AllocError> {
    write!(text, "{word} {counter}{behind}")
}

/// A call of a list: its word and the list.
fn spell_on_list(text: &mut String, word: &str, list: ListId) -> Result<(), AllocError> {
    write!(text, "{word} {list}")
}

/// How many calls are left out where the call was given up, if some are.
fn spell_skips(text: &mut String, skips: u32) -> Result<(), AllocError> {
    if skips == 0 {
        return Ok(());
    }
    write!(text, " {skips}")
}

/// How the call may give up.
fn spell_giving_up(text: &mut String, how: GivingUp) -> Result<(), AllocError> {
    text.push_str(match how.late {
        Late::Kept => " leave",
        Late::GivenBack => " quit",
    })?;
    spell_skips(text, how.skips)
}

/// An acquire: the counter, and whether it goes to the front.
fn spell_acquire(text: &mut String, counter: CounterId, lifo: bool) -> Result<(), AllocError> {
    let behind = if lifo { " lifo" } else { "" };
    spell_on_counter(text, "acquire", counter, behind)
}

/// The call as a scenario's text has it.
pub(crate) fn spell_call(text: &mut String, call: &Call) -> Result<(), AllocError> {
    match *call {
        Call::Acquire(counter, lifo) => spell_acquire(text, counter, lifo),
        Call::AcquireOrLeave(counter, lifo, how) => {
            spell_acquire(text, counter, lifo)?;
            spell_giving_up(text, how)
        }
        Call::Release(counter, false) => spell_on_counter(text, "release", counter, ""),
        Call::Release(counter, true) => spell_on_counter(text, "release", counter, " handoff"),
        Call::ReleaseMany(counter, units) => write!(text, "release {counter} many {units}"),
        Call::Add(list) => spell_on_list(text, "add", list),
        Call::Wait(list) => spell_on_list(text, "wait", list),
        Call::WaitOrLeave(list, how) => {
            spell_on_list(text, "wait", list)?;
            spell_giving_up(text, how)
        }
        Call::One(list) => spell_on_list(text, "one", list),
        Call::All(list) => spell_on_list(text, "all", list),
        Call::GroupAdd(group, delta) => write!(text, "gadd {group} {delta}"),
        Call::GroupWait(group) => write!(text, "gwait {group}"),
        Call::GroupWaitOrLeave(group, skips) => {
            write!(text, "gwait {group} leave")?;
            spell_skips(text, skips)
        }
    }
}

/// What a row found.
pub(crate) fn spell_found(text: &mut String, found: &WordFound) -> Result<(), AllocError> {
    match *found {
        WordFound::Number(number) => write!(text, "found {number}"),
        WordFound::State(word) => {
            text.push_str("found ")?;
            spell_group(text, word)
        }
        WordFound::Won => text.push_str("won"),
        WordFound::Lost => text.push_str("lost"),
    }
}

/// The counter of a group's word, and its number of waits.
pub(crate) fn spell_group(text: &mut String, word: GroupWord) -> Result<(), AllocError> {
    let GroupWord { counter, waits } = word;
    write!(text, "{counter} {waits}")
}

/// The name of a misuse.
pub(crate) fn misuse_name(misuse: Misuse) -> &'static str {
    match misuse {
        Misuse::Negative => "Negative",
        Misuse::AddWithWait => "AddWithWait",
        Misuse::Reused => "Reused",
    }
}

/// Spells the waits in order, one space apart, or a hyphen.
fn spell_waits(text: &mut String, waits: &[WaitId]) -> Result<(), AllocError> {
    for wait in waits {
        if !text.is_empty() {
            text.push(' ')?;
        }
        write!(text, "{wait}")?;
    }
    if text.is_empty() {
        text.push('-')?;
    }
    Ok(())
}

/// The waits in order, one space apart, or a hyphen.
pub(crate) fn waits_text(alloc: Global, waits: &[WaitId]) -> Result<String, AllocError> {
    let mut text = String::new(alloc);
    spell_waits(&mut text, waits)?;
    Ok(text)
}
