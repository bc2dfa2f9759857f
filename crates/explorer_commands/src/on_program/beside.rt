//! What is told beside the answer of a search.

use explorer_answers::Stats;
use program::DeclaredNames;
use program_code::{Program, ProgramProperty};
use program_search::Ran;
use std::alloc::{AllocError, Global};
use std::fmt;
use waiters::NoMemory;

/// What a search that found nothing bad has never come to, so that its answer says nothing of it.
#[derive(Drop)]
pub(crate) struct NeverMet<'a> {
    /// Lines of the text, by their numbers, that no step has run.
    lines: Vec<usize>,
    /// Sections of which something is asked, by their numbers, that no seat has entered.
    sections: Vec<usize>,
    /// The text asks for something where all seats have ended, and they never have.
    end: bool,
    names: &'a DeclaredNames<'a>,
}

/// Whether the program asks for something where all seats have ended.
fn asks_at_end(program: &Program) -> bool {
    program
        .properties
        .as_slice()
        .iter()
        .any(|asked| match asked.property {
            ProgramProperty::FinallyWord(..) | ProgramProperty::FinallyCounter(..) => true,
            ProgramProperty::Most(..) | ProgramProperty::Apart(..) | ProgramProperty::Passed(..) =>
                false,
        })
}

impl<'a> NeverMet<'a> {
    /// What a search of the program that ran so far has never come to.
    pub(crate) fn of(
        alloc: Global,
        ran: &Ran,
        program: &Program,
        names: &'a DeclaredNames<'a>,
    ) -> Result<NeverMet<'a>, AllocError> {
        Ok(NeverMet {
            lines: ran.never_run(alloc, program)?,
            sections: ran.never_entered(alloc, program)?,
            end: asks_at_end(program) && !ran.has_ended(),
            names,
        })
    }
}

impl fmt::Display for NeverMet<'_> {
    fn fmt<W: fmt::Write>(&self, f: &mut fmt::Formatter<W>) -> fmt::Result {
        if !self.lines.is_empty() {
            f.write_str("never run: lines")?;
            for line in self.lines.iter() {
                write!(f, " {line}")?;
            }
            f.write_str("\n")?;
        }
        for section in self.sections.iter() {
            if let Some(name) = self.names.sections.as_slice().get(*section) {
                writeln!(f, "never entered: {}", name.as_str())?;
            }
        }
        if self.end {
            f.write_str("no schedule ends: finally was not asked\n")?;
        }
        Ok(())
    }
}

/// What may be there to be told.
#[derive(Clone, Copy)]
struct Optional<'a, T>(Option<&'a T>);

impl<T: fmt::Display> fmt::Display for Optional<'_, T> {
    fn fmt<W: fmt::Write>(&self, f: &mut fmt::Formatter<W>) -> fmt::Result {
        match self.0 {
            Some(told) => write!(f, "{told}"),
            None => Ok(()),
        }
    }
}

/// What is told beside the answer: what the search has never come to, and how far it came, where these are told.
///
/// It is an `Err` where memory is short.
pub(crate) fn beside(
    alloc: Global,
    never_met: Option<&NeverMet<'_>>,
    stats: Option<&Stats>,
) -> Result<Option<String>, NoMemory> {
    let never_met = Optional(never_met);
    let stats = Optional(stats);
    let told = format!(in alloc; "{never_met}{stats}")?;
    Ok(if told.is_empty() { None } else { Some(told) })
}
