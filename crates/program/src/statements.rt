//! What the lines of a program say.

ghost use Rattle.std.specs.Prelude.{◌≡◌};
ghost use Rattle.program.specs.Causes.{map_ok};
ghost use Rattle.program.specs.Statements as statements;

use crate::names::DeclaredNames;
use crate::parts::{counter_of, operand_of, result_of, share_of, word_of};
use crate::results::both;
use crate::statement::Statement;
use program_code::{CodePlace, Instruction, Operand, Relation};
use program_text::{Name, ProgramCause, SpelledLine, SpelledOperand, SpelledPlace};

/// A place and an operand, and a register that may be left out.
fn access_of<'t>(
    names: &DeclaredNames<'t>,
    word: &SpelledPlace<'t>,
    operand: &SpelledOperand<'t>,
    register: &Option<Name<'t>>,
) -> Result<(CodePlace, (Operand, Option<usize>)), ProgramCause>
    ensures { result ≡ statements.access_of names.now word.now operand.now register.now }
{
    both(
        word_of(names, word),
        both(operand_of(names, operand), result_of(names, register)),
    )
}

/// A place and an operand.
fn place_and_operand<'t>(
    names: &DeclaredNames<'t>,
    word: &SpelledPlace<'t>,
    operand: &SpelledOperand<'t>,
) -> Result<(CodePlace, Operand), ProgramCause>
    ensures { result ≡ statements.place_and_operand names.now word.now operand.now }
{
    both(word_of(names, word), operand_of(names, operand))
}

/// Two operands.
fn two_of<'t>(
    names: &DeclaredNames<'t>,
    first: &SpelledOperand<'t>,
    second: &SpelledOperand<'t>,
) -> Result<(Operand, Operand), ProgramCause>
    ensures { result ≡ statements.two_of names.now first.now second.now }
{
    both(operand_of(names, first), operand_of(names, second))
}

/// The program of this name, where so many have ended and it is one of them.
fn done_of<'t>(
    names: &DeclaredNames<'t>,
    ended: usize,
    program: &Name<'t>,
) -> Result<usize, ProgramCause>
    ensures { result ≡ statements.done_of names.now ended program.now }
{
    let number = names.program(program)?;
    if number >= ended {
        return Err(ProgramCause::Undeclared);
    }
    Ok(number)
}

/// What a line that reads or writes a word does.
fn access_line<'t>(
    names: &DeclaredNames<'t>,
    line: &SpelledLine<'t>,
) -> Result<Instruction, ProgramCause>
    ensures { result ≡ statements.access_line names.now line.now }
{
    match line {
        SpelledLine::Load(word, register) => {
            let (word, register) = both(word_of(names, word), names.register(register))?;
            Ok(Instruction::Load(word, register))
        }
        SpelledLine::Store(word, operand) => {
            let (word, operand) = place_and_operand(names, word, operand)?;
            Ok(Instruction::Store(word, operand))
        }
        SpelledLine::Swap(word, operand, register) => {
            let (word, (operand, register)) = access_of(names, word, operand, register)?;
            Ok(Instruction::Swap(word, operand, register))
        }
        SpelledLine::Add(word, operand, register) => {
            let (word, (operand, register)) = access_of(names, word, operand, register)?;
            Ok(Instruction::Add(word, operand, register))
        }
        SpelledLine::Exchange(word, old, new, register) => {
            let ((word, (old, register)), new) = both(
                access_of(names, word, old, register),
                operand_of(names, new),
            )?;
            Ok(Instruction::Exchange(word, old, new, register))
        }
        SpelledLine::Await(word, relation, operand, register) => {
            let (word, (operand, register)) = access_of(names, word, operand, register)?;
            Ok(Instruction::Await(word, *relation, operand, register))
        }
        _ => layer_line(names, line),
    }
}

/// What a line that calls the sleeping layer does.
fn layer_line<'t>(
    names: &DeclaredNames<'t>,
    line: &SpelledLine<'t>,
) -> Result<Instruction, ProgramCause>
    ensures { result ≡ statements.layer_line names.now line.now }
{
    match line {
        SpelledLine::Acquire(counter, lifo) => {
            let counter = counter_of(names, counter)?;
            Ok(Instruction::Acquire(counter, *lifo))
        }
        SpelledLine::Release(counter, share) => {
            let (counter, share) = both(counter_of(names, counter), share_of(names, share))?;
            Ok(Instruction::Release(counter, share))
        }
        SpelledLine::Ticket(list) => names.list(list).map(Instruction::Ticket),
        SpelledLine::Wait(list) => names.list(list).map(Instruction::Wait),
        SpelledLine::One(list) => names.list(list).map(Instruction::One),
        SpelledLine::All(list) => names.list(list).map(Instruction::All),
        SpelledLine::Park(word, operand) => {
            let (word, operand) = place_and_operand(names, word, operand)?;
            Ok(Instruction::Park(word, operand))
        }
        SpelledLine::Unpark(word, operand) => {
            let (word, operand) = place_and_operand(names, word, operand)?;
            Ok(Instruction::Unpark(word, operand))
        }
        _ => seat_line(names, line),
    }
}

/// What a line does that changes nothing but the seat.
fn seat_line<'t>(
    names: &DeclaredNames<'t>,
    line: &SpelledLine<'t>,
) -> Result<Instruction, ProgramCause>
    ensures { result ≡ statements.seat_line names.now line.now }
{
    match line {
        SpelledLine::Out(section) => names.section(section).map(Instruction::Out),
        SpelledLine::In(section) => names.section(section).map(Instruction::In),
        SpelledLine::Ask(section) => names.section(section).map(Instruction::Ask),
        SpelledLine::Let(register, operand) => {
            let (register, operand) = both(names.register(register), operand_of(names, operand))?;
            Ok(Instruction::Let(register, operand))
        }
        SpelledLine::Compute(register, first, operator, second) => {
            let (register, (first, second)) = both(
                names.register(register),
                two_of(names, first, second),
            )?;
            Ok(Instruction::Compute(register, first, *operator, second))
        }
        SpelledLine::Assert(first, relation, second) => {
            let (first, second) = two_of(names, first, second)?;
            Ok(Instruction::Assert(first, *relation, second))
        }
        SpelledLine::Fail => Ok(Instruction::Fail),
        _ => Err(ProgramCause::Place),
    }
}

/// A jump to the label, if this holds.
fn jump_of<'t>(
    names: &DeclaredNames<'t>,
    first: &SpelledOperand<'t>,
    relation: Relation,
    second: &SpelledOperand<'t>,
    label: Name<'t>,
) -> Result<Statement<'t>, ProgramCause>
    ensures { result ≡ map_ok (λ x. Statement.If x.0 relation x.1 label.entry)
        (statements.two_of names.now first.now second.now) }
{
    let (first, second) = two_of(names, first, second)?;
    Ok(Statement::If(first, relation, second, label))
}

/// What a line of a program says, where so many programs have ended.
pub fn statement_of<'t>(
    names: &DeclaredNames<'t>,
    ended: usize,
    line: SpelledLine<'t>,
) -> Result<Statement<'t>, ProgramCause>
    ensures { result ≡ statements.statement_of names.now ended line.entry }
{
    match line {
        SpelledLine::If(first, relation, second, label) => {
            jump_of(names, &first, relation, &second, label)
        }
        SpelledLine::Goto(label) => Ok(Statement::Goto(label)),
        SpelledLine::Label(label) => Ok(Statement::Label(label)),
        SpelledLine::Do(program) => match done_of(names, ended, &program) {
            Ok(number) => Ok(Statement::Do(number)),
            Err(cause) => Err(cause),
        },
        SpelledLine::Return => Ok(Statement::Return),
        line => match access_line(names, &line) {
            Ok(instruction) => Ok(Statement::Plain(instruction)),
            Err(cause) => Err(cause),
        },
    }
}
