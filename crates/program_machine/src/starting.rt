//! The layer of a lock program at its start, and its seats before their first lines.

ghost use Rattle.std.specs.Prelude.{◌≡◌, ◌<◌, ◌^◌, [], length, replicate, IfOk};
ghost use Rattle.step_table.specs.Core.{first_core};
ghost use Rattle.program_code.specs.WellFormed.{IsWellFormed, IsFew};
ghost use Rattle.program_machine.specs.Layer.{parts_of};
ghost use Rattle.program_machine.specs.Starting.{HaveStarted};
ghost use Rattle.program_steps.specs.World.{layer_of};
ghost use Rattle.step_core.specs.Key.{HasForm};
ghost use Rattle.step_core.specs.State.{core_of};

use crate::prepared::Prepared;
use program_code::Program;
use program_rows::ProgramState;
use std::alloc::{AllocError, Global};
use step_core::WholeMachine;
use step_table::{Call, Items, Parts};
use waiters::{NoMemory, SeatId};

/// So many seats without calls of their own.
fn no_calls(alloc: Global, seats: usize) -> Result<Items<Items<Call>>, AllocError>
    ensures { IfOk result (λ calls. calls ≡ replicate seats []) }
{
    let mut calls = Items::empty(alloc);
    for _ in 0..seats {
        calls.push_back(Items::empty(alloc))?;
    }
    Ok(calls)
}

/// The first tickets of so many lists.
fn first_tickets(alloc: Global, lists: usize) -> Result<Vec<u64>, AllocError>
    ensures { IfOk result (λ firsts. firsts.items ≡ replicate lists 0) }
{
    vec![in alloc; 0; lists]
}

/// The parts of the program's layer.
pub fn layer_parts(alloc: Global, program: &Program) -> Result<Parts, NoMemory>
    requires { length program.now.counters < 2 ^ 32 }
    ensures { IfOk result (λ parts. parts ≡ parts_of program.now) }
{
    let starts = program.counters.as_slice().to_vec(alloc)?;
    Ok(Parts {
        roots: (starts.len() as u32).max(1),
        starts: Items::new(starts),
        firsts: Items::new(first_tickets(alloc, program.lists)?),
        groups: 0,
        calls: no_calls(alloc, program.seats.len())?,
    })
}

/// The layer at its start.
pub(crate) fn first_layer(alloc: Global, program: &Prepared) -> Result<WholeMachine, NoMemory>
    ensures formed { IsWellFormed program.now }
    ensures few { IsFew program.now }
    ensures form { IfOk result (HasForm (parts_of program.now)) }
    ensures core { IfOk result (λ layer. core_of layer [] ≡ first_core (layer_of program.now)) }
{
    let parts = layer_parts(alloc, program.program())?;
    WholeMachine::new(alloc, &parts)
}

/// The words, and each seat gone on from its first line.
pub(crate) fn first_state(alloc: Global, program: &Prepared) -> Result<ProgramState, NoMemory>
    ensures { IfOk result (λ own. HaveStarted program.now (length program.now.seats) own) }
{
    let seats = program.program().seats.len();
    let mut own = ProgramState::new(alloc, program.program().words.as_slice(), seats)?;
    for i in 0..seats {
        let seat = SeatId::new(i as u16);
        own.start(seat, program.code(seat), program.in_use(seat));
    }
    Ok(own)
}
