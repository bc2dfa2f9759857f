//! One line of a text: what it says, or what is wrong with it.

ghost use Rattle.program_text.specs.Answers.{Judges};

use crate::cause::ProgramCause;
use crate::lines::SpelledLine;
use crate::reader::line::read_line;
use scenario_text::printable;
use std::alloc::Global;

/// What the bytes of one line say, or what is wrong with them.
///
/// For who reads a text line by line, since a line that is right alone may not be so behind those before it.
pub fn judge<'t>(
    alloc: Global,
    bytes: &'t [u8],
    ended: bool,
) -> Result<SpelledLine<'t>, ProgramCause>
    ensures { Judges (record { text = bytes.now; ended = ended }) result }
{
    if !ended {
        return Err(ProgramCause::Cut);
    }
    let Some(text) = printable(bytes) else {
        return Err(ProgramCause::Byte);
    };
    match read_line(alloc, text) {
        Ok(read) => read.ok_or(ProgramCause::Form),
        Err(_) => Err(ProgramCause::NoMemory),
    }
}
