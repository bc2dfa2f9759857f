//! What a command writes for a text, and how it ends, whichever single allocation is refused. What is answered
//! of many more programs is compared by `gallery`.

use explorer_answers::{Answered, Exit, Flagged, NO_MEMORY};
use explorer_commands::{Aims, Command, Layout, ProgramCommand, Wanted, command_io};
use search::Team;
use std::alloc::{AllocError, Global};
use std::num::NonZeroU16;
use std::thread::Threads;

/// A program, a command, and its answer.
struct AnsweredText {
    text: &'static str,
    command: ProgramCommand<'static>,
    out: &'static str,
    exit: Exit,
}

/// A test, and then a set.
const TEST_AND_SET: &str = "\
word taken 0
register was
section held

program user
again:
  load taken was
  if was != 0 goto again
  store taken 1
  in held
  out held
  store taken 0

seats 2 user
most held 1
";

const TRY: ProgramCommand<'static> = ProgramCommand::Try {
    worlds: 2_000_000,
    aims: Aims {
        dead_ends: Wanted {
            no_end: false,
            lost: false,
        },
        starved: false,
        passes: false,
    },
    layout: Layout::Lines,
    counted: false,
    live: false,
};

const RETRACE: ProgramCommand<'static> = ProgramCommand::Retrace {
    schedule: "0 1 0 1",
    layout: Layout::Table,
};

static ANSWERED: [AnsweredText; 3] = [
    AnsweredText {
        text: TEST_AND_SET,
        command: RETRACE,
        out: "\
step  seat 0 user                          seat 1 user                          taken
0     7 load taken was: found 0                                                 0
1                                          7 load taken was: found 0            0
2     9 store taken 1: found 0 -> in held                                       1
3                                          9 store taken 1: found 1 -> in held  1
seat 0 user: stands at line 11; in held
seat 1 user: stands at line 11; in held
taken 1
verdict: crowded, line 15
",
        exit: Exit::BadFound,
    },
    // loops come back to worlds that were met
    AnsweredText {
        text: "word w 0\nprogram p\na:\nstore w 1\nstore w 0\ngoto a\nseats 2 p\n",
        command: TRY,
        out: "none\nworlds 6, deepest 3\n",
        exit: Exit::NothingBad,
    },
    // a counter that nobody adds to
    AnsweredText {
        text: "counter c 0\nprogram p\nacquire c\nseats 1 p\n",
        command: TRY,
        out: "\
bad: stuck
schedule: 0 0 0 0 0
0-4: seat 0 p:3 acquire c, A1 A3 A4 A5 A7: found 0 0 0 0 1 -> c 0 waiting 0
",
        exit: Exit::BadFound,
    },
];

/// What is written for this text, and how the command ends.
fn told<R: Threads + Sync>(
    rt: &R,
    alloc: Global,
    text: &[u8],
    command: ProgramCommand<'_>,
) -> (Vec<u8>, Option<Answered>) {
    let team = Team::new(rt, NonZeroU16::MIN);
    let mut reader = Flagged::new(text);
    let mut writer = Flagged::new(Vec::new(alloc));
    let ended = command_io(
        &team,
        alloc,
        &mut reader,
        &mut writer,
        &Command::OnProgram(command),
        &mut (),
    );
    (writer.into_inner(), ended.ok())
}

/// The same, once more where memory was short.
fn told_twice<R: Threads + Sync>(
    rt: &R,
    alloc: Global,
    text: &[u8],
    command: ProgramCommand<'_>,
) -> (Vec<u8>, Option<Answered>) {
    let (out, ended) = told(rt, alloc, text, command);
    if ended.is_some() && out.as_slice() != NO_MEMORY.as_bytes() {
        return (out, ended);
    }
    told(rt, alloc, text, command)
}

/// Whether the answer begins so, and the command ended so.
fn begins(answer: &(Vec<u8>, Option<Answered>), out: &str, exit: Exit) -> bool {
    let (written, ended) = answer;
    match ended {
        Some(outcome) => written.starts_with(out.as_bytes()) && outcome.exit == exit,
        None => false,
    }
}

#[test]
fn programs_are_answered(rt: HostRuntime) {
    for row in &ANSWERED {
        let answer = told_twice(&rt, rt.alloc(), row.text.as_bytes(), row.command);
        assert!(rt; begins(&answer, row.out, row.exit));
    }
}

/// A text of so many bytes that says nothing.
fn blank(alloc: Global, length: usize) -> Result<Vec<u8>, AllocError> {
    vec![in alloc; b'\n'; length]
}

#[test]
fn a_text_is_too_long_from_65537_bytes_on(rt: HostRuntime) {
    for (length, out) in [
        (65_536, "refused: line 65537: end\n"),
        (65_537, "refused: too long\n"),
    ] {
        let Ok(text) = blank(rt.alloc(), length).or_else(|_| blank(rt.alloc(), length)) else {
            continue;
        };
        let answer = told_twice(&rt, rt.alloc(), &text, TRY);
        assert!(rt; begins(&answer, out, Exit::Refused));
    }
}
