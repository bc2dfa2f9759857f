//! The schedule that stands in an answer, as `explore`, `check` and `try` tell it.

ghost use Rattle.std.specs.Prelude.{◌≡◌, ◌↔◌, IfOk, IsErr, IsTrue, false};
ghost use Rattle.explorer.specs.Asked.{IsWithinLimits};

use crate::invocation::Invocation;
use explorer_answers::{IoFault, MAX_TEXT, Source, read_all, read_at_most};
use explorer_commands::Command;
use std::alloc::{AllocError, Global};

/// An answer that tells no schedule is replayed as this, which is none.
const NO_SCHEDULE: &str = "-";

/// What stands behind `schedule: ` in the second line of an answer.
fn told_schedule(answer: &str) -> Option<&str> {
    let (_, behind) = answer.split_once('\n')?;
    let (line, _) = behind.split_once('\n')?;
    line.strip_prefix("schedule: ")
}

/// The answer as far as it is read: that of a lock program may have a schedule of any length, any other has a
/// short one.
///
/// It is an `Err` where a read fails.
fn read_answer<R: Source>(
    alloc: Global,
    asked: &Invocation<'_>,
    reader: &mut R,
) -> Result<Result<Vec<u8>, AllocError>, IoFault>
    requires { R.has_failed reader.old ≡ false }
    ensures { IsErr result ↔ IsTrue (R.has_failed reader.new) }
{
    match asked {
        Invocation::OfText {
            command: Command::OnProgram(_),
            ..
        } => read_all(alloc, reader),
        _ => read_at_most(alloc, reader, MAX_TEXT),
    }
}

/// What is asked, with the schedule that the answer tells which is read to its end into this room.
///
/// It is an `Err` where a read fails.
pub(crate) fn scheduled_by<'w, R: Source>(
    alloc: Global,
    asked: Invocation<'w>,
    reader: &mut R,
    room: &'w mut Vec<u8>,
) -> Result<Invocation<'w>, IoFault>
    requires limits { IsWithinLimits asked }
    requires readable { R.has_failed reader.old ≡ false }
    ensures limits { IfOk result IsWithinLimits }
    ensures failed { IsErr result ↔ IsTrue (R.has_failed reader.new) }
{
    match read_answer(alloc, &asked, reader)? {
        Ok(answer) => *room = answer,
        Err(_) => return Ok(Invocation::NoMemory),
    }
    let schedule = str::from_utf8(room).ok().and_then(told_schedule);
    Ok(asked.with_schedule(schedule.unwrap_or(NO_SCHEDULE)))
}
