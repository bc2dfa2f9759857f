//! Waits, `do` lines and failures as text.

use program_steps::Failure;
use std::alloc::AllocError;
use step_core::WaitId;

/// Writes the seats of these waits in order, where there are any.
pub(crate) fn spell_queue(text: &mut String, waits: &[WaitId]) -> Result<(), AllocError> {
    if waits.is_empty() {
        return Ok(());
    }
    text.push_str(" waiting")?;
    for wait in waits {
        let seat = wait.seat;
        write!(text, " {seat}")?;
    }
    Ok(())
}

/// Writes the `do` lines that led to a line, the innermost first, where there are any.
pub(crate) fn spell_within(text: &mut String, within: &[usize]) -> Result<(), AllocError> {
    if within.is_empty() {
        return Ok(());
    }
    text.push_str(" (from")?;
    for line in within.iter().rev() {
        write!(text, " {line}")?;
    }
    text.push(')')
}

/// Why a seat failed.
pub(crate) fn failure_name(failure: Failure) -> &'static str {
    match failure {
        Failure::Assert => "assert",
        Failure::Fail => "fail",
        Failure::Endless => "endless",
        Failure::Index => "index",
        Failure::Overflow => "overflow",
        Failure::Many => "many",
        Failure::Ticket => "ticket",
    }
}
