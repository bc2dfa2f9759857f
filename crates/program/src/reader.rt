//! The reader of a lock program's text.

ghost use Rattle.std.specs.Prelude.{IfOk, IfErr, OnOk};
ghost use Rattle.scenario_text.specs.Reader.{IsOnly, IsNone};
ghost use Rattle.program_code.specs.WellFormed.{IsFew, IsWellFormed};
ghost use Rattle.program.specs.Answers.{IsReadFault, Judges};
ghost use Rattle.program.specs.Causes.{map_ok};
ghost use Rattle.program.specs.Fitting.{IsFitting};
ghost use Rattle.program.specs.Text.{IsFaultOf, IsProgramOf};

use crate::draft::ProgramDraft;
use crate::named_program::NamedProgram;
use program_text::{ProgramCause, ProgramFault, first_line, judge};
use std::alloc::Global;

/// Has the draft take the line of these bytes, or tells what is wrong with them.
fn read_line<'t>(
    alloc: Global,
    draft: &mut ProgramDraft<'t>,
    number: usize,
    bytes: &'t [u8],
    ended: bool,
) -> Result<(), ProgramCause>
    requires { IsFitting draft.old }
    ensures judged { Judges draft.old number (record { text = bytes.now; ended = ended })
        (map_ok (λ _. draft.new) result) }
    ensures fitting { OnOk result (IsFitting draft.new) }
{
    match judge(alloc, bytes, ended) {
        Ok(line) => draft.take(alloc, number, line),
        Err(cause) => Err(cause),
    }
}

/// The program that the text says, or the first line that is faulty.
///
/// A jump to no label is told only where all lines are else right, and then want of any seats, at the line
/// behind the last one. Want of memory is told with the line that was read then.
pub fn read_program<'t>(alloc: Global, text: &'t [u8]) -> Result<NamedProgram<'t>, ProgramFault>
    ensures program { IfOk result (λ program. IsOnly (IsProgramOf text.now) program) }
    ensures faultless { IfOk result (λ _. IsNone (IsFaultOf text.now)) }
    ensures formed { IfOk result (λ program. IsWellFormed program.program) }
    ensures few { IfOk result (λ program. IsFew program.program) }
    ensures fault { IfErr result (IsReadFault text.now) }
{
    let mut draft = ProgramDraft::new(alloc);
    let mut number = 1;
    let mut rest = text;
    while !rest.is_empty() {
        let (bytes, after, ended) = first_line(rest);
        if let Err(cause) = read_line(alloc, &mut draft, number, bytes, ended) {
            return Err(ProgramFault {
                line: number,
                cause,
            });
        }
        rest = after;
        number += 1;
    }
    draft.finished(alloc, number)
}
