//! The reader of a lock program's text, line by line.

ghost use Rattle.std.specs.Prelude.{IfOk, IfErr, OnOk, Err};
ghost use Rattle.scenario_text.specs.Reader.{IsOnly, IsNone};
ghost use Rattle.program_text.specs.Text.{AreLinesOf, IsFaultOf};
ghost use Rattle.program_text.specs.Answers.{IsReadFault, IsWithLine, Judges};

pub(crate) mod judge;
pub(crate) mod pieces;

use crate::cause::ProgramCause;
use crate::fault::ProgramFault;
use crate::lines::SpelledLine;
use crate::text_reader::judge::judge;
use crate::text_reader::pieces::first_line;
use std::alloc::Global;

/// Puts what one line says behind the lines, or tells what is wrong with it.
fn push_line<'t>(
    alloc: Global,
    lines: &mut Vec<SpelledLine<'t>>,
    bytes: &'t [u8],
    ended: bool,
) -> Result<(), ProgramCause>
    ensures put { OnOk result
        (IsWithLine (record { text = bytes.now; ended = ended }) lines.old.items lines.new.items) }
    ensures fault { IfErr result (λ cause. Judges (record { text = bytes.now; ended = ended }) (Err cause)) }
{
    let line = judge(alloc, bytes, ended)?;
    let Ok(()) = lines.push(line) else {
        return Err(ProgramCause::NoMemory);
    };
    Ok(())
}

/// What the lines of the text say, in order, or the first line that is faulty.
///
/// Want of memory is told with the line that was read then.
pub fn read_lines<'t>(alloc: Global, text: &'t [u8]) -> Result<Vec<SpelledLine<'t>>, ProgramFault>
    ensures lines { IfOk result (λ lines. IsOnly (AreLinesOf text.now) lines.items) }
    ensures faultless { IfOk result (λ _. IsNone (IsFaultOf text.now)) }
    ensures fault { IfErr result (IsReadFault text.now) }
{
    let mut lines = Vec::new(alloc);
    let mut rest = text;
    while !rest.is_empty() {
        let (bytes, after, ended) = first_line(rest);
        let number = lines.len() + 1;
        match push_line(alloc, &mut lines, bytes, ended) {
            Ok(()) => rest = after,
            Err(cause) => return Err(ProgramFault {
                line: number,
                cause,
            }),
        }
    }
    Ok(lines)
}
