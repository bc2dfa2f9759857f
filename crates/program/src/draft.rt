//! What the lines that were read so far declare and say.

ghost use Rattle.std.specs.Prelude.{◌≡◌, [], ◌++◌, replicate, length, Ok, Err, IfErr, OnOk};
ghost use Rattle.program.specs.Drafts as drafts;
ghost use Rattle.program.specs.Answers.{AnswersTo, Finishes};
ghost use Rattle.program.specs.Fitting.{IsFitting, FitsMeant};
ghost use Rattle.program.specs.Limits as limits;
ghost use Rattle.program.specs.Meanings as meanings;
ghost use Rattle.program.specs.Causes.{map_ok, too_if};

use crate::codes::{code_of, first_lost};
use crate::limits::{is_again, is_too_many};
use crate::meanings::meant_of;
use crate::meant::Meant;
use crate::named_program::NamedProgram;
use crate::names::{CellSpan, Cells, Constant, DeclaredNames};
use crate::results::too_if;
use crate::stage::{LineGroup, Stage};
use crate::statement::Written;
use program_code::{Asked, CodeLine, Program};
use program_text::{Name, ProgramCause, ProgramFault, SpelledLine};
use std::alloc::{AllocError, Global};
use std::mem;
use step_table::Items;

/// A program of which lines may still be missing.
#[derive(Drop)]
pub(crate) struct ProgramDraft<'t> {
    /// Where the next line may stand.
    pub(crate) stage: Stage,
    /// The names that are declared.
    pub(crate) names: DeclaredNames<'t>,
    /// What each word starts at.
    pub(crate) words: Items<i64>,
    /// What each counter starts at.
    pub(crate) counters: Items<u32>,
    /// The programs whose lines have ended.
    pub(crate) codes: Items<Items<CodeLine>>,
    /// The lines so far of the program that is open.
    pub(crate) body: Items<Written<'t>>,
    /// The first line of an ended program that jumps to no label of its program.
    pub(crate) lost: Option<usize>,
    /// Which program each seat runs.
    pub(crate) seats: Items<usize>,
    /// What must hold.
    pub(crate) properties: Items<Asked>,
}

/// Puts the item behind the others so many times.
fn push_times<T: Copy + Drop>(items: &mut Items<T>, count: usize, item: T) -> Result<(), AllocError>
    ensures { OnOk result (items.new ≡ items.old ++ replicate count item) }
{
    for _i in 0..count {
        items.push_back(item)?;
    }
    Ok(())
}

/// Puts the names behind the others.
fn push_names<'t>(names: &mut Items<Name<'t>>, more: Items<Name<'t>>) -> Result<(), AllocError>
    ensures { OnOk result (names.new ≡ names.old ++ more.entry) }
{
    for name in more.into_vec() {
        names.push_back(name)?;
    }
    Ok(())
}

/// The words or counters of a name, the first of which has this number.
fn cells<'t>(name: Name<'t>, first: usize, length: Option<usize>) -> Cells<'t>
    ensures { result ≡ drafts.one_cells name.entry first length }
{
    Cells {
        name,
        span: CellSpan { first, length },
    }
}

/// The first of both lines, of which the second comes later.
fn first_of(first: Option<usize>, later: Option<usize>) -> Option<usize>
    ensures { result ≡ drafts.first_of first later }
{
    match first {
        Some(line) => Some(line),
        None => later,
    }
}

impl<'t> ProgramDraft<'t> {
    /// No lines.
    pub(crate) fn new(alloc: Global) -> Self
        ensures { result ≡ drafts.no_lines }
    {
        ProgramDraft {
            stage: Stage::Declarations,
            names: DeclaredNames {
                constants: Items::empty(alloc),
                words: Items::empty(alloc),
                counters: Items::empty(alloc),
                lists: Items::empty(alloc),
                registers: Items::empty(alloc),
                sections: Items::empty(alloc),
                programs: Items::empty(alloc),
            },
            words: Items::empty(alloc),
            counters: Items::empty(alloc),
            codes: Items::empty(alloc),
            body: Items::empty(alloc),
            lost: None,
            seats: Items::empty(alloc),
            properties: Items::empty(alloc),
        }
    }

    /// The lines of the program that is open have ended.
    fn close(&mut self, alloc: Global) -> Result<(), AllocError>
        requires { IsFitting self.old }
        ensures { OnOk result (self.new ≡ drafts.closed self.old) }
    {
        let code = code_of(alloc, self.codes.as_slice(), self.body.as_slice())?;
        self.codes.push_back(code)?;
        let body = mem::replace(&mut self.body, Items::empty(alloc));
        self.lost = first_of(self.lost, first_lost(body.as_slice()));
        Ok(())
    }

    /// Behind a program's lines the next program, or seats, end it.
    fn close_by(&mut self, alloc: Global, group: LineGroup) -> Result<(), AllocError>
        requires { IsFitting self.old }
        ensures closed { OnOk result (self.new ≡ drafts.closed_by self.old.stage group self.old) }
        ensures fitting { OnOk result (IsFitting self.new) }
    {
        match (self.stage, group) {
            (Stage::Programs, LineGroup::Program | LineGroup::Seats) => self.close(alloc),
            _ => Ok(()),
        }
    }

    /// Takes what the line of this number means.
    fn add(&mut self, line: usize, meant: Meant<'t>) -> Result<(), AllocError>
        requires fitting { IsFitting self.old }
        requires room { FitsMeant self.old meant }
        ensures with { OnOk result (self.new ≡ drafts.with_meant self.old line meant.entry) }
        ensures fitting { OnOk result (IsFitting self.new) }
    {
        match meant {
            Meant::Nothing => Ok(()),
            Meant::Constant(name, value) => self
                .names
                .constants
                .push_back(Constant { name, value }),
            Meant::Words(name, length, start) => {
                let cells = cells(name, self.words.len(), length);
                self.names.words.push_back(cells)?;
                push_times(&mut self.words, length.unwrap_or(1), start)
            }
            Meant::Counters(name, length, start) => {
                let cells = cells(name, self.counters.len(), length);
                self.names.counters.push_back(cells)?;
                push_times(&mut self.counters, length.unwrap_or(1), start)
            }
            Meant::List(name) => self.names.lists.push_back(name),
            Meant::Registers(names) => push_names(&mut self.names.registers, names),
            Meant::Section(name) => self.names.sections.push_back(name),
            Meant::Program(name) => self.names.programs.push_back(name),
            Meant::Seats(count, program) => push_times(&mut self.seats, count, program),
            Meant::Property(property) => self.properties.push_back(Asked { line, property }),
            Meant::Statement(statement) => self.body.push_back(Written { line, statement }),
        }
    }

    /// What the line means, or the least of what is wrong with it where it may stand.
    fn meaning(&self, line: SpelledLine<'t>) -> Result<Meant<'t>, ProgramCause>
        requires { IsFitting self.now }
        ensures { result ≡ too_if (limits.is_too_many self.now line.entry) ProgramCause.TooMany
            (too_if (limits.is_again self.now line.entry) ProgramCause.Twice
            (meanings.meant_of self.now.names (length self.now.codes) line.entry)) }
    {
        let over = is_too_many(self, &line);
        let again = is_again(self, &line);
        let meant = meant_of(&self.names, self.codes.len(), line);
        too_if(
            over,
            ProgramCause::TooMany,
            too_if(again, ProgramCause::Twice, meant),
        )
    }

    /// Takes what the line of this number and group means.
    fn take_meant(
        &mut self,
        alloc: Global,
        number: usize,
        group: LineGroup,
        meant: Meant<'t>,
    ) -> Result<(), AllocError>
        requires fitting { IsFitting self.old }
        requires room { FitsMeant (drafts.closed_by self.old.stage group self.old) meant }
        ensures made { OnOk result (self.new ≡ drafts.made_of self.old number group meant.entry) }
        ensures fitting { OnOk result (IsFitting self.new) }
    {
        let stage = self.stage;
        self.close_by(alloc, group)?;
        self.add(number, meant)?;
        self.stage = group.stage_after(stage);
        Ok(())
    }

    /// Takes the line of this number, or tells the least of what is wrong with it.
    pub(crate) fn take(
        &mut self,
        alloc: Global,
        number: usize,
        line: SpelledLine<'t>,
    ) -> Result<(), ProgramCause>
        requires { IsFitting self.old }
        ensures answer { AnswersTo (drafts.next self.old number line.entry)
            (map_ok (λ _. self.new) result) }
        ensures fitting { OnOk result (IsFitting self.new) }
    {
        let group = LineGroup::of(&line);
        if !group.may_stand(self.stage) {
            return Err(ProgramCause::Place);
        }
        let meant = self.meaning(line)?;
        self.take_meant(alloc, number, group, meant)?;
        Ok(())
    }

    /// The lines have ended, behind the last of which the line of this number would be. Tells what is wrong
    /// with them together.
    fn end(&mut self, alloc: Global, number: usize) -> Result<(), ProgramFault>
        requires { IsFitting self.old }
        ensures said { OnOk result (drafts.finished self.old number ≡ Ok (drafts.program_said self.new)) }
        ensures fault { IfErr result (λ fault. Finishes self.old number (Err fault)) }
    {
        if self.close_by(alloc, LineGroup::Seats).is_err() {
            return Err(ProgramFault {
                line: number,
                cause: ProgramCause::NoMemory,
            });
        }
        if let Some(line) = self.lost {
            return Err(ProgramFault {
                line,
                cause: ProgramCause::Label,
            });
        }
        if self.seats.len() == 0 {
            return Err(ProgramFault {
                line: number,
                cause: ProgramCause::End,
            });
        }
        Ok(())
    }

    /// What the lines say together, behind the last of which the line of this number would be.
    pub(crate) fn finished(
        mut self,
        alloc: Global,
        number: usize,
    ) -> Result<NamedProgram<'t>, ProgramFault>
        requires { IsFitting self }
        ensures { Finishes self.entry number result }
    {
        match self.end(alloc, number) {
            Ok(()) => Ok(self.said()),
            Err(fault) => Err(fault),
        }
    }

    /// What the lines say together.
    fn said(self) -> NamedProgram<'t>
        ensures { result ≡ drafts.program_said self.entry }
    {
        let ProgramDraft {
            names,
            words,
            counters,
            codes,
            seats,
            properties,
            ..
        } = self;
        let program = Program {
            words,
            counters,
            lists: names.lists.len(),
            registers: names.registers.len(),
            sections: names.sections.len(),
            codes,
            seats,
            properties,
        };
        NamedProgram { names, program }
    }
}
