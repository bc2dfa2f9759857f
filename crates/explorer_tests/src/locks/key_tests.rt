//! The keys of worlds to which schedules lead.

use crate::locks::scene_tests::program_of;
use program_machine::{Prepared, ProgramMachine, layer_parts, write_key};
use std::alloc::Global;
use waiters::{NoMemory, SeatId};

/// No program here has more counters.
const MOST_COUNTERS: usize = 1;

/// A program, a schedule, and the key of the world to which it leads.
struct Known {
    text: &'static str,
    schedule: &'static [u16],
    key: &'static [u64],
}

/// One seat keeps what the word is.
const LOADS: &str = "word w -1\nregister r\nprogram p\nload w r\nstore w r\nseats 1 p\n";

/// One seat sleeps in a section until the other wakes it.
const SLEEPS: &str =
    "word w 0\nsection a\nprogram p\nin a\npark w 0\nprogram q\nunpark w 1\nseats 1 p\nseats 1 q\n";

/// One seat asks for each of two sections, and enters one.
const ASKS: &str =
    "word w 0\nsection a\nsection b\nprogram p\nask b\nstore w 1\nin b\nask a\nstore w 2\nseats 1 p\n";

static KEYS: [Known; 9] = [
    // the word, the seat's stand, line and register, no sleeper; and the layer's seat, which does nothing
    Known {
        text: LOADS,
        schedule: &[],
        key: &[1, 0, 0, 0, 0, 0, 0],
    },
    Known {
        text: LOADS,
        schedule: &[0],
        key: &[1, 0, 1, 1, 0, 0, 0],
    },
    // in its first section before its line; it sleeps there; and it has a grant
    Known {
        text: SLEEPS,
        schedule: &[],
        key: &[0, 2, 1, 128, 0, 0, 0, 0, 0, 0, 0],
    },
    Known {
        text: SLEEPS,
        schedule: &[0],
        key: &[0, 18, 1, 128, 0, 0, 1, 0, 0, 0, 0, 0, 0],
    },
    Known {
        text: SLEEPS,
        schedule: &[0, 1],
        key: &[0, 22, 1, 1, 128, 24, 0, 0, 0, 0, 0, 0],
    },
    // it asks for its second section; it is in that and asks for its first; and it has ended, and asks for none
    Known {
        text: ASKS,
        schedule: &[],
        key: &[0, 1, 1, 64, 0, 0, 0],
    },
    Known {
        text: ASKS,
        schedule: &[0],
        key: &[2, 3, 4, 64, 128, 0, 0, 0],
    },
    Known {
        text: ASKS,
        schedule: &[0, 0],
        key: &[4, 26, 0, 64, 0, 0, 0],
    },
    // a unit was taken: then the counter, its waits and its root
    Known {
        text: "counter c 3\nprogram p\nacquire c\nseats 1 p\n",
        schedule: &[0, 0],
        key: &[24, 0, 0, 2, 0, 0, 0, 0, 0],
    },
];

/// The key of the machine's world, in place of what a buffer had.
fn key_of(alloc: Global, machine: &ProgramMachine<'_>) -> Result<Option<Vec<u64>>, NoMemory> {
    let program = machine.program();
    if program.counters.len() > MOST_COUNTERS {
        return Ok(None);
    }
    let parts = layer_parts(alloc, program)?;
    let mut key = vec![in alloc; 7; 3]?;
    write_key(machine, &parts, &mut key)?;
    Ok(Some(key))
}

/// Whether the machine goes on by the schedule.
fn goes_on(machine: &mut ProgramMachine<'_>, schedule: &[u16]) -> bool {
    for number in schedule {
        if machine.step(SeatId::new(*number)).is_err() {
            return false;
        }
    }
    true
}

/// Whether the world to which the schedule leads has that key.
fn leads_to(alloc: Global, program: &Prepared, known: &Known) -> Result<bool, NoMemory> {
    let mut machine = ProgramMachine::new(alloc, program)?;
    if !goes_on(&mut machine, known.schedule) {
        return Ok(false);
    }
    match key_of(alloc, &machine)? {
        Some(key) => Ok(key.as_slice() == known.key),
        None => Ok(false),
    }
}

/// The same of the program that its text says.
fn has_key(alloc: Global, known: &Known) -> Result<bool, NoMemory> {
    match program_of(alloc, known.text)? {
        Some(program) => leads_to(alloc, &program, known),
        None => Ok(false),
    }
}

/// The same, twice where memory was short.
fn has_key_twice(alloc: Global, known: &Known) -> bool {
    match has_key(alloc, known) {
        Ok(so) => so,
        Err(_) => has_key(alloc, known) == Ok(true),
    }
}

#[test]
fn keys_are_as_told(rt: HostRuntime) {
    for known in &KEYS {
        assert!(rt; has_key_twice(rt.alloc(), known));
    }
}
