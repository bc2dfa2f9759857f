//! Which registers a line reads, and which it writes: by the operands that it names.

ghost use Rattle.std.specs.Prelude.{◌≡◌};
ghost use Rattle.program_steps.specs.Reading.{reads, writes, operand_reads, place_reads, share_reads, names};

use program_code::{CodePlace, Instruction, Operand, Share};

/// Whether the line reads the register.
pub fn reads(register: usize, instruction: &Instruction) -> bool
    ensures { result ≡ reads register instruction.now }
{
    match *instruction {
        Instruction::Load(place, _) | Instruction::Acquire(place, _) => place_reads(
            register, place,
        ),
        Instruction::Store(place, operand)
        | Instruction::Swap(place, operand, _)
        | Instruction::Add(place, operand, _)
        | Instruction::Await(place, _, operand, _)
        | Instruction::Park(place, operand)
        | Instruction::Unpark(place, operand) => {
            place_reads(register, place) || operand_reads(register, operand)
        }
        Instruction::Exchange(place, first, second, _) => {
            place_reads(register, place)
                || operand_reads(register, first)
                || operand_reads(register, second)
        }
        Instruction::Release(place, share) => {
            place_reads(register, place) || share_reads(register, share)
        }
        Instruction::Let(_, operand) => operand_reads(register, operand),
        Instruction::Compute(_, first, _, second)
        | Instruction::If(first, _, second, _)
        | Instruction::Assert(first, _, second) => {
            operand_reads(register, first) || operand_reads(register, second)
        }
        Instruction::Ticket(_)
        | Instruction::Wait(_)
        | Instruction::One(_)
        | Instruction::All(_)
        | Instruction::Out(_)
        | Instruction::Goto(_)
        | Instruction::In(_)
        | Instruction::Ask(_)
        | Instruction::Fail => false,
    }
}

/// Whether the line writes the register.
pub fn writes(register: usize, instruction: &Instruction) -> bool
    ensures { result ≡ writes register instruction.now }
{
    match *instruction {
        Instruction::Load(_, written)
        | Instruction::Let(written, _)
        | Instruction::Compute(written, _, _, _) => register == written,
        Instruction::Swap(_, _, written)
        | Instruction::Add(_, _, written)
        | Instruction::Exchange(_, _, _, written)
        | Instruction::Await(_, _, _, written) => is_named(register, written),
        _ => false,
    }
}

/// Whether the operand is the register.
fn operand_reads(register: usize, operand: Operand) -> bool
    ensures { result ≡ operand_reads register operand }
{
    match operand {
        Operand::Register(number) => register == number,
        Operand::Number(_) | Operand::Me => false,
    }
}

/// Whether the place's index is the register.
fn place_reads(register: usize, place: CodePlace) -> bool
    ensures { result ≡ place_reads register place }
{
    match place {
        CodePlace::Single(_) => false,
        CodePlace::Member(_, _, index) => operand_reads(register, index),
    }
}

/// Whether the register says how many units are released.
fn share_reads(register: usize, share: Share) -> bool
    ensures { result ≡ share_reads register share }
{
    match share {
        Share::Many(units) => operand_reads(register, units),
        Share::One | Share::Handoff => false,
    }
}

/// Whether the register is the one that is named, if one is.
fn is_named(register: usize, named: Option<usize>) -> bool
    ensures { result ≡ names register named }
{
    match named {
        Some(number) => register == number,
        None => false,
    }
}
