//! Where a schedule leads a program's seat, and whether it can step there.

use program::{NamedProgram, ProgramCause, read_program};
use program_machine::{Prepared, ProgramMachine};
use program_steps::{Failure, Stand};
use std::alloc::Global;
use step_table::StepRefused;
use waiters::{NoMemory, SeatId};

/// A program, a schedule, and what is known of one seat then.
struct Scene {
    text: &'static str,
    schedule: &'static [u16],
    seat: u16,
    stand: Stand,
    /// Why the seat can't step, if it can't.
    refused: Option<StepRefused>,
    /// What the first word is, where there is one.
    word: Option<i64>,
}

static SCENES: [Scene; 17] = [
    // a swap keeps what the word was
    Scene {
        text: "word w 5\nregister r\nprogram p\nswap w 7 r\nassert r == 5\nseats 1 p\n",
        schedule: &[0],
        seat: 0,
        stand: Stand::Ended,
        refused: Some(StepRefused::SeatEnded),
        word: Some(7),
    },
    // asleep on a counter
    Scene {
        text: "counter c 0\nprogram p\nacquire c\nseats 1 p\n",
        schedule: &[0, 0, 0, 0, 0],
        seat: 0,
        stand: Stand::Within(0),
        refused: Some(StepRefused::Asleep),
        word: None,
    },
    // sums wrap
    Scene {
        text: "word w 9223372036854775807\nregister r\nprogram p\nadd w 1 r\nassert r > 0\nseats 1 p\n",
        schedule: &[0],
        seat: 0,
        stand: Stand::Ended,
        refused: Some(StepRefused::SeatEnded),
        word: Some(-9223372036854775808),
    },
    // an update is lost
    Scene {
        text: "word w 0\nregister r\nprogram p\nload w r\nlet r r + 1\nstore w r\nseats 2 p\n",
        schedule: &[0, 1, 0, 1],
        seat: 1,
        stand: Stand::Ended,
        refused: Some(StepRefused::SeatEnded),
        word: Some(1),
    },
    // waits for a word
    Scene {
        text: "word w 0\nprogram p\nawait w == 1\nseats 1 p\n",
        schedule: &[],
        seat: 0,
        stand: Stand::Before(0),
        refused: Some(StepRefused::Asleep),
        word: Some(0),
    },
    // an exchange is lost
    Scene {
        text: "word w 0\nregister r\nprogram p\nexchange w 0 1 r\nassert r == 0\nseats 2 p\n",
        schedule: &[0, 1],
        seat: 1,
        stand: Stand::FailedAt(1, Failure::Assert),
        refused: Some(StepRefused::SeatFailed),
        word: Some(1),
    },
    // nobody wakes it
    Scene {
        text: "word w 0\nprogram p\npark w 0\nprogram q\nunpark w 1\nseats 1 p\nseats 1 q\n",
        schedule: &[1, 0],
        seat: 0,
        stand: Stand::Asleep(0),
        refused: Some(StepRefused::Asleep),
        word: Some(0),
    },
    // it is woken
    Scene {
        text: "word w 0\nprogram p\npark w 0\nprogram q\nunpark w 1\nseats 1 p\nseats 1 q\n",
        schedule: &[0, 1, 0],
        seat: 0,
        stand: Stand::Ended,
        refused: Some(StepRefused::SeatEnded),
        word: Some(0),
    },
    // the first sleeper is woken
    Scene {
        text: "word w 0\nprogram p\npark w 0\nprogram q\nunpark w 1\nseats 2 p\nseats 1 q\n",
        schedule: &[1, 0, 2, 1],
        seat: 0,
        stand: Stand::Asleep(0),
        refused: Some(StepRefused::Asleep),
        word: Some(0),
    },
    // lines without end
    Scene {
        text: "word w 0\nprogram p\nstore w 1\na:\ngoto a\nseats 1 p\n",
        schedule: &[0],
        seat: 0,
        stand: Stand::FailedAt(1, Failure::Endless),
        refused: Some(StepRefused::SeatFailed),
        word: Some(1),
    },
    // no such member
    Scene {
        text: "word w[2] 0\nprogram p\nstore w[me] 1\nseats 3 p\n",
        schedule: &[2],
        seat: 2,
        stand: Stand::FailedAt(0, Failure::Index),
        refused: Some(StepRefused::SeatFailed),
        word: Some(0),
    },
    // takes and gives
    Scene {
        text: "counter c 1\nprogram lock\nacquire c\nreturn\nrelease c\nprogram p\ndo lock\nrelease c\nseats 2 p\n",
        schedule: &[0, 0, 0, 0],
        seat: 0,
        stand: Stand::Ended,
        refused: Some(StepRefused::SeatEnded),
        word: None,
    },
    // waits without a ticket
    Scene {
        text: "list l\nprogram p\nwait l\nseats 1 p\n",
        schedule: &[0],
        seat: 0,
        stand: Stand::FailedAt(0, Failure::Ticket),
        refused: Some(StepRefused::SeatFailed),
        word: None,
    },
    // releases none
    Scene {
        text: "counter c 0\nprogram p\nrelease c many 0\nseats 1 p\n",
        schedule: &[0],
        seat: 0,
        stand: Stand::FailedAt(0, Failure::Many),
        refused: Some(StepRefused::SeatFailed),
        word: None,
    },
    // releases too much
    Scene {
        text: "counter c 4294967295\nprogram p\nrelease c\nseats 1 p\n",
        schedule: &[0],
        seat: 0,
        stand: Stand::FailedAt(0, Failure::Overflow),
        refused: Some(StepRefused::SeatFailed),
        word: None,
    },
    // its ticket is called
    Scene {
        text: "list l\nprogram p\nticket l\nwait l\nprogram q\none l\nseats 1 p\nseats 1 q\n",
        schedule: &[0, 0, 0, 0, 1, 1, 1, 1, 1, 1, 1, 1, 0],
        seat: 0,
        stand: Stand::Ended,
        refused: Some(StepRefused::SeatEnded),
        word: None,
    },
    // the list is held
    Scene {
        text: "list l\nprogram p\nticket l\nwait l\nseats 2 p\n",
        schedule: &[0, 1, 0],
        seat: 1,
        stand: Stand::Before(1),
        refused: Some(StepRefused::LockHeld),
        word: None,
    },
];

/// The program of a text: `None` where it has a fault.
pub(crate) fn program_of(alloc: Global, text: &'static str) -> Result<Option<Prepared>, NoMemory> {
    let NamedProgram { program, .. } = match read_program(alloc, text.as_bytes()) {
        Ok(read) => read,
        Err(fault) if fault.cause == ProgramCause::NoMemory => return Err(NoMemory),
        Err(_) => return Ok(None),
    };
    Ok(Some(Prepared::new(alloc, program)?))
}

/// Whether the seat stands as the scene says, and can step or not, as the machine says beforehand.
fn is_as_told(machine: &mut ProgramMachine, scene: &Scene) -> bool {
    let seat = SeatId::new(scene.seat);
    if machine.seats() <= scene.seat as usize || machine.stand(seat) != scene.stand {
        return false;
    }
    machine.enabled(seat) == scene.refused.is_none() && machine.step(seat).err() == scene.refused
}

/// Whether the seat makes a step, as the machine says beforehand.
fn steps(machine: &mut ProgramMachine, number: u16) -> bool {
    let seat = SeatId::new(number);
    (number as usize) < machine.seats() && machine.enabled(seat) && machine.step(seat).is_ok()
}

/// Whether the first word is this, where something is told of it.
fn has_word(machine: &ProgramMachine, word: Option<i64>) -> bool {
    match word {
        None => true,
        Some(number) => 0 < machine.words() && machine.number(0) == number,
    }
}

/// A copy of the machine behind the schedule, made over one of each moment before: none where a seat can't make
/// its step.
fn copy_behind<'p>(
    alloc: Global,
    machine: &mut ProgramMachine<'p>,
    schedule: &[u16],
) -> Result<Option<ProgramMachine<'p>>, NoMemory> {
    let mut copy = machine.try_clone(alloc)?;
    for number in schedule {
        if !steps(machine, *number) {
            return Ok(None);
        }
        copy = copy.try_clone_over(alloc, machine)?;
    }
    Ok(Some(copy))
}

/// Whether the scene goes as it says, and so it does on a copy.
fn goes_by(alloc: Global, program: &Prepared, scene: &Scene) -> Result<bool, NoMemory> {
    let mut machine = ProgramMachine::new(alloc, program)?;
    match copy_behind(alloc, &mut machine, scene.schedule)? {
        Some(mut copy) => Ok(
            has_word(&copy, scene.word)
                && is_as_told(&mut machine, scene)
                && is_as_told(&mut copy, scene),
        ),
        None => Ok(false),
    }
}

/// The same of the program that its text says.
fn goes(alloc: Global, scene: &Scene) -> Result<bool, NoMemory> {
    match program_of(alloc, scene.text)? {
        Some(program) => goes_by(alloc, &program, scene),
        None => Ok(false),
    }
}

/// The same, twice where memory was short.
fn goes_twice(alloc: Global, scene: &Scene) -> bool {
    match goes(alloc, scene) {
        Ok(so) => so,
        Err(_) => goes(alloc, scene) == Ok(true),
    }
}

#[test]
fn scenes_end_as_told(rt: HostRuntime) {
    for scene in &SCENES {
        assert!(rt; goes_twice(rt.alloc(), scene));
    }
}
