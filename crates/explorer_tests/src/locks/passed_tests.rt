//! The lines without a step that a seat ran.

use crate::locks::scene_tests::program_of;
use program_machine::{Prepared, ProgramMachine};
use program_rows::LineSet;
use std::alloc::Global;
use waiters::{NoMemory, SeatId};

/// The lines of numbers 0, 2 and 3 make no step, and 3 is jumped over.
static TEXT: &str =
    "word w 0\nregister r\nprogram p\nlet r 1\nstore w r\nif r == 1 goto e\nlet r 2\ne:\nstore w r\nseats 1 p\n";

/// Whether these of the program's five lines are in the set, and no others.
fn holds(lines: &LineSet, told: [bool; 5]) -> bool {
    (0..5).all(|line| lines.has(line) == told[line])
}

/// Whether the lines are told that the first seat passes at its start and after a step.
fn passes(machine: &mut ProgramMachine<'_>) -> bool {
    if machine.seats() == 0 {
        return false;
    }
    let seat = SeatId::new(0);
    let mut all = machine.passed_first(seat);
    let first = holds(&all, [true, false, false, false, false]);
    if machine.step(seat).is_err() {
        return false;
    }
    let next = holds(machine.passed(), [false, false, true, false, false]);
    all.add_all(machine.passed());
    first && next && holds(&all, [true, false, true, false, false])
}

/// The same of a machine that runs the program.
fn is_passed(alloc: Global, program: &Prepared) -> Result<bool, NoMemory> {
    let mut machine = ProgramMachine::new(alloc, program)?;
    Ok(passes(&mut machine))
}

/// The same of the program that the text says.
fn tells(alloc: Global) -> Result<bool, NoMemory> {
    match program_of(alloc, TEXT)? {
        Some(program) => is_passed(alloc, &program),
        None => Ok(false),
    }
}

#[test]
fn passed_lines_are_told(rt: HostRuntime) {
    let alloc = rt.alloc();
    assert!(rt;
        match tells(alloc) {
            Ok(so) => so,
            Err(_) => tells(alloc) == Ok(true),
        }
    );
}
