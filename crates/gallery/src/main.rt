//! The gallery: each text of `crates/gallery/data` goes through the program, with the words that stand beside
//! it, and what the program answers is compared with what stands there.
//!
//! `NAME.txt` is a scenario, a journal, or an answer whose schedule is replayed. In `NAME.answers` a line
//! that begins with `$ parklot ` has the words, and the lines after it are what is written, and `exit` with
//! the status. `locks/NAME.lock` is a lock program, and `locks/NAME.answer` what `try` writes of it, what it
//! tells beside, and `exit` with the status. `cases/NAME.cases` has many small inputs, with words and answers.
#![tactic(auto)]

mod cases;

use anyhow::Result;
use explorer::{Flagged, UNKNOWN, parklot_io};
use std::alloc::{AllocError, Global};
use std::fs;
use std::rt::Files;
use std::sync::Wait;
use std::thread::Threads;
use std::time::Clock;

/// How a line with the words of a command begins.
const PROMPT: &str = "$ parklot ";

/// The scenarios, from the simple to the odd, the journals, and the answers.
static NAMES: [&str; 34] = [
    "lonely_sleeper",
    "lost_wake_up",
    "newest_first",
    "handed_over",
    "stolen_unit",
    "two_counters_of_one_root",
    "units_for_two",
    "last_value",
    "three_for_three",
    "lock",
    "five_seats_and_a_mutex",
    "eight_seats_and_a_mutex",
    "exclusion_asserted",
    "exclusion_broken",
    "nested_reader",
    "slot_freed_in_time",
    "slot_freed_too_early",
    "notify_one_before_the_wait",
    "notified_without_the_lock",
    "notified_under_the_lock",
    "cond_wait_in_full",
    "broadcast",
    "wrapped_ticket",
    "group",
    "group_misused",
    "go_mutex",
    "go_mutex_out_of_turn",
    "go_wait_group",
    "answer_of_a_sleeper",
    "answer_of_none",
    "answer_of_check",
    "answer_without_steps",
    "answer_of_nothing",
    "answer_with_a_table",
];

/// The lock programs each of which is searched in about a second or less.
static LOCKS: [&str; 69] = [
    "barrier",
    "barrier_w1",
    "buffer_w1",
    "dekker",
    "dekker_w2",
    "drepper_2",
    "drepper_2_w3",
    "drepper_3",
    "drepper_3_w1",
    "go_cond",
    "go_cond_w1",
    "go_cond_w3",
    "go_futexlock",
    "go_futexlock_w1",
    "go_mutex_forever",
    "go_mutex_spin_w1",
    "go_mutex_w1",
    "go_once",
    "go_once_w2",
    "go_rwmutex",
    "go_rwmutex_w1",
    "go_rwmutex_w2",
    "go_waitgroup",
    "go_waitgroup_w1",
    "mcs",
    "mcs_w1",
    "parklot_grant",
    "parklot_grant_w1",
    "parklot_grant_w2",
    "parklot_grant_w3",
    "parklot_grant_w4",
    "parklot_grant_w5",
    "parklot_grant_w6",
    "parklot_grant_w7",
    "parklot_heirs",
    "parklot_heirs_of_sleepers",
    "parklot_heirs_w1",
    "parklot_heirs_w2",
    "parklot_heirs_w3",
    "parklot_lock",
    "parklot_lock_tried",
    "parklot_lock_w1",
    "parklot_lock_w2",
    "parklot_lock_w3",
    "parklot_lock_w4",
    "parklot_lock_w5",
    "parklot_lock_w6",
    "parklot_lock_w7",
    "parklot_lock_w8",
    "parklot_lock_w9",
    "parklot_poller",
    "parklot_poller_w1",
    "parklot_table",
    "parklot_table_w1",
    "parklot_table_w2",
    "parklot_table_w3",
    "parklot_table_w4",
    "parklot_table_w5",
    "peterson",
    "peterson_w1",
    "rust_condvar",
    "rust_condvar_w1",
    "rw_lbs_w2",
    "seqlock",
    "seqlock_w1",
    "tas",
    "tas_w1",
    "ticket",
    "ticket_w1",
];

/// The files of cases.
static CASES: [&str; 19] = [
    "replays",
    "replays_of_lists",
    "replays_of_leaves",
    "searches",
    "leaves",
    "changed_tables",
    "asked_of_worlds",
    "tables",
    "journals",
    "faults",
    "faults_explained",
    "schedules",
    "words",
    "requests",
    "lock_faults",
    "lock_schedules",
    "lock_searches",
    "lock_dead_ends",
    "lock_liveness",
];

/// Adds the words of a command. What stands in quotes is one word.
fn add_words(alloc: Global, words: &mut Vec<String>, command: &str) -> Result<(), AllocError> {
    for (i, part) in command.split('"').enumerate() {
        if i % 2 == 1 {
            words.push(String::from_str(alloc, part)?)?;
        } else {
            for word in part.split_whitespace() {
                words.push(String::from_str(alloc, word)?)?;
            }
        }
    }
    Ok(())
}

/// The words of a command.
fn words_of(alloc: Global, command: &str) -> Result<Vec<String>, AllocError> {
    let mut words = Vec::new(alloc);
    add_words(alloc, &mut words, command)?;
    Ok(words)
}

/// What the program writes to a text for these words, what it tells beside, and the status with which it ends.
#[derive(Drop)]
struct Ended {
    text: String,
    aside: String,
    status: u8,
}

/// Runs the program on its words and a text.
fn run<R: Files + Threads + Wait + Clock + Sync>(
    team: &R,
    alloc: Global,
    words: Vec<String>,
    input: &str,
) -> Result<Ended> {
    let mut input = Flagged::new(input.as_bytes());
    let mut out = Flagged::new(Vec::new(alloc));
    let mut err = Flagged::new(Vec::new(alloc));
    let status = parklot_io(team, alloc, words, UNKNOWN, &mut input, &mut out, &mut err);
    Ok(Ended {
        text: String::from_utf8(out.into_inner())?,
        aside: String::from_utf8(err.into_inner())?,
        status,
    })
}

/// Adds what the program answers to a command.
fn add_answer<R: Files + Threads + Wait + Clock + Sync>(
    team: &R,
    alloc: Global,
    answers: &mut String,
    command: &str,
    scenario: &str,
) -> Result<()> {
    let ended = run(team, alloc, words_of(alloc, command)?, scenario)?;
    let (text, status) = (&ended.text, ended.status);
    Ok(write!(answers, "{PROMPT}{command}\n{text}exit {status}\n")?)
}

/// The commands that are told, each with what the program answers.
fn answers<R: Files + Threads + Wait + Clock + Sync>(
    team: &R,
    alloc: Global,
    scenario: &str,
    told: &str,
) -> Result<String> {
    let mut answers = String::new(alloc);
    for line in told.lines() {
        if let Some(command) = line.strip_prefix(PROMPT) {
            add_answer(team, alloc, &mut answers, command, scenario)?;
        }
    }
    Ok(answers)
}

/// What the program answers to a lock program, and what it tells beside.
fn tried<R: Files + Threads + Wait + Clock + Sync>(
    team: &R,
    alloc: Global,
    program: &str,
) -> Result<String> {
    let ended = run(team, alloc, words_of(alloc, "try")?, program)?;
    let (text, aside, status) = (&ended.text, &ended.aside, ended.status);
    Ok(format!(in alloc; "{text}{aside}exit {status}\n")?)
}

/// Tells whether the answers are those that are told, and where they aren't, what they are.
fn tell(rt: &HostRuntime, name: &str, answers: &str, told: &str) -> Result<()> {
    if answers == told {
        println!(rt; "{name}: as told")?;
    } else {
        print!(rt; "{name}: otherwise\n{answers}")?;
    }
    Ok(())
}

/// The text of a file.
fn text_of(rt: &HostRuntime, folder: &str, name: &str, ending: &str) -> Result<String> {
    let path = format!(in rt.alloc(); "{folder}{name}{ending}")?;
    Ok(fs::read_to_string(rt, path)?)
}

/// Puts a text through the program, with the words that stand beside it.
fn try_text<R: Files + Threads + Wait + Clock + Sync>(
    rt: &HostRuntime,
    team: &R,
    name: &str,
) -> Result<()> {
    let scenario = text_of(rt, "", name, ".txt")?;
    let told = text_of(rt, "", name, ".answers")?;
    tell(
        rt,
        name,
        &answers(team, rt.alloc(), &scenario, &told)?,
        &told,
    )
}

/// Tries the cases of a file.
fn try_cases<R: Files + Threads + Wait + Clock + Sync>(
    rt: &HostRuntime,
    team: &R,
    name: &str,
) -> Result<()> {
    let told = text_of(rt, "cases/", name, ".cases")?;
    let (count, otherwise) = cases::answers(team, rt.alloc(), &told)?;
    if otherwise.is_empty() {
        println!(rt; "{name}: {count} cases as told")?;
    } else {
        print!(rt; "{name}: otherwise\n{otherwise}")?;
    }
    Ok(())
}

/// Tries a lock program.
fn try_lock<R: Files + Threads + Wait + Clock + Sync>(
    rt: &HostRuntime,
    team: &R,
    name: &str,
) -> Result<()> {
    let program = text_of(rt, "locks/", name, ".lock")?;
    let told = text_of(rt, "locks/", name, ".answer")?;
    tell(rt, name, &tried(team, rt.alloc(), &program)?, &told)
}

fn main(rt: HostRuntime) -> Result<()> {
    for name in &NAMES {
        try_text(&rt, &rt, name)?;
    }
    for name in &CASES {
        try_cases(&rt, &rt, name)?;
    }
    for name in &LOCKS {
        try_lock(&rt, &rt, name)?;
    }
    Ok(())
}
