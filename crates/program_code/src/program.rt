//! A whole lock program.

use crate::instruction::Instruction;
use crate::relation::Relation;
use step_table::Items;

/// A line of a program, and where the text has it.
#[derive(Drop)]
pub struct CodeLine {
    /// The number of its line in the text, from 1 on.
    pub line: usize,
    /// The `do` lines that led there, the outermost first.
    pub within: Items<usize>,
    /// What it does.
    pub instruction: Instruction,
}

/// What must hold.
#[derive(Clone, Copy, Drop)]
pub enum ProgramProperty {
    /// At most so many seats are in the section.
    Most(usize, u64),
    /// No seat is in the one section while another is in the other.
    Apart(usize, usize),
    /// So the word is where each seat has ended.
    FinallyWord(usize, Relation, i64),
    /// So the counter is where each seat has ended.
    FinallyCounter(usize, Relation, i64),
    /// While a seat asks for the section, others come into it by a step at most so many times.
    Passed(usize, u64),
}

/// What must hold, and where the text asks for it.
#[derive(Clone, Copy, Drop)]
pub struct Asked {
    /// The number of its line in the text, from 1 on.
    pub line: usize,
    /// What must hold.
    pub property: ProgramProperty,
}

/// What seats share, what they run, and what must hold.
#[derive(Drop)]
pub struct Program {
    /// What each word starts at.
    pub words: Items<i64>,
    /// What each counter starts at.
    pub counters: Items<u32>,
    /// How many notify lists there are.
    pub lists: usize,
    /// How many registers each seat has.
    pub registers: usize,
    /// How many sections there are.
    pub sections: usize,
    /// The lines of each program. The line behind a program's last one is its end.
    pub codes: Items<Items<CodeLine>>,
    /// Which of the programs each seat runs.
    pub seats: Items<usize>,
    /// What must hold, in the text's order.
    pub properties: Items<Asked>,
}
