//! Devices that fail at each of their calls.

use crate::asked::{ALL_SOUND, Devices, Host, Told, tells_over};
use crate::devices::{BROKEN, CLOSED, Calls, SOUND};
use crate::program_tests::FIVE_LINES;
use crate::reading::ONE_ACQUIRE;
use crate::threads_tests::{THREE_LINES, TWO_BY_THREE};
use std::alloc::Global;

/// Words, all that is told of them where the input has one acquire, and the status.
type Command = (&'static [&'static str], &'static str, u8);

/// They read the input.
static READING: [Command; 3] = [
    (
        &["explore", "--depth", "32"],
        "bad: stuck\nschedule: 0 0 0 0 0\n",
        1,
    ),
    (
        &["explore", "--depth", "32", "--variant", "no-look"],
        "bad: stuck\nschedule: 0 0 0 0\n",
        1,
    ),
    (
        &["replay", "--schedule", "0 0"],
        "0: seat 0 A1\n1: seat 0 A3\ncounter 0: value 0, waiting -\nverdict: not bad\n",
        0,
    ),
];

/// They read nothing.
static TELLING: [Command; 2] = [(&["once"], FIVE_LINES, 0), (&TWO_BY_THREE, THREE_LINES, 0)];

const READ_FAILED: &str = "parklot: read failed\n";

const WRITE_FAILED: &str = "parklot: write failed\n";

/// Over these devices this goes to the two streams, and the program ends so.
fn ends(rt: &impl Host, alloc: Global, words: &[&str], devices: Devices, told: (&[u8], &str, u8)) {
    let (out, err, status) = told;
    let told = Told {
        out,
        err: err.as_bytes(),
        status,
        helped: false,
    };
    tells_over(rt, alloc, words, ONE_ACQUIRE, devices, told);
}

/// How many bytes a read gives at most, and how many reads the whole input takes, its end included.
static READS: [(usize, u32); 4] = [(1, 37), (3, 13), (35, 3), (usize::MAX, 2)];

fn a_read_fails_of(rt: &impl Host, alloc: Global, command: &Command) {
    let (words, told, status) = *command;
    for row in &READS {
        let (at_once, reads) = *row;
        for left in 0..reads + 1 {
            let devices = Devices {
                input: Calls {
                    at_once,
                    left,
                    ..SOUND
                },
                ..ALL_SOUND
            };
            let told = if left < reads {
                (b"".as_slice(), READ_FAILED, 2)
            } else {
                (told.as_bytes(), "", status)
            };
            ends(rt, alloc, words, devices, told);
        }
    }
}

#[test]
fn each_read_can_fail(rt: HostRuntime) {
    for command in &READING {
        a_read_fails_of(&rt, rt.alloc(), command);
    }
}

fn a_write_fails_of(rt: &impl Host, alloc: Global, command: &Command, at_once: usize) {
    let (words, told, status) = *command;
    let told = told.as_bytes();
    for left in 0..u32::MAX {
        let devices = Devices {
            out: Calls {
                at_once,
                left,
                ..SOUND
            },
            ..ALL_SOUND
        };
        let sent = at_once.saturating_mul(left as usize).min(told.len());
        if sent == told.len() {
            return ends(rt, alloc, words, devices, (told, "", status));
        }
        ends(rt, alloc, words, devices, (&told[..sent], WRITE_FAILED, 2));
    }
}

#[test]
fn each_write_can_fail(rt: HostRuntime) {
    for commands in [READING.as_slice(), TELLING.as_slice()] {
        for command in commands {
            for at_once in [1, 4, usize::MAX] {
                a_write_fails_of(&rt, rt.alloc(), command, at_once);
            }
        }
    }
}

/// A sink that takes nothing.
const FULL: Calls = Calls {
    at_once: 0,
    ..SOUND
};

const UNREAD: Devices = Devices {
    input: BROKEN,
    ..ALL_SOUND
};

const UNWRITTEN: Devices = Devices {
    out: FULL,
    ..ALL_SOUND
};

/// Nobody reads the output.
const CLOSED_OUTPUT: Devices = Devices {
    out: CLOSED,
    ..ALL_SOUND
};

/// Nothing can be told beside.
const UNTOLD: Devices = Devices {
    err: BROKEN,
    ..ALL_SOUND
};

const UNREAD_AND_UNTOLD: Devices = Devices {
    input: BROKEN,
    ..UNTOLD
};

const UNWRITTEN_AND_UNTOLD: Devices = Devices {
    out: BROKEN,
    ..UNTOLD
};

/// The answer stands on standard input, and the scenario isn't there.
const ANSWER_ALONE: &[&str] = &["replay", "--schedule-of", "-", "--scenario", "no_such.txt"];

const TO_FOUR: &[&str] = &["explore", "--depth", "4"];

/// Words, the devices, what goes to the two streams, and the status.
static BESIDES: [(&[&str], Devices, &str, &str, u8); 10] = [
    (ANSWER_ALONE, UNREAD, "", READ_FAILED, 2),
    // what reads nothing doesn't fail by its input
    (&["once"], UNREAD, FIVE_LINES, "", 0),
    // a write that takes nothing is a fault
    (&["once"], UNWRITTEN, "", WRITE_FAILED, 2),
    (
        &["explore", "--depth", "32"],
        UNWRITTEN,
        "",
        WRITE_FAILED,
        2,
    ),
    // of a pipe that is closed nothing is told
    (&["once"], CLOSED_OUTPUT, "", "", 2),
    (TO_FOUR, CLOSED_OUTPUT, "", "", 2),
    // what can't be told beside changes nothing
    (TO_FOUR, UNTOLD, "none up to depth 4\n", "", 0),
    (&["explore"], UNTOLD, "", "", 2),
    (TO_FOUR, UNREAD_AND_UNTOLD, "", "", 2),
    (TO_FOUR, UNWRITTEN_AND_UNTOLD, "", "", 2),
];

#[test]
fn other_devices_fail(rt: HostRuntime) {
    for (words, devices, out, err, status) in &BESIDES {
        let told = (out.as_bytes(), *err, *status);
        ends(&rt, rt.alloc(), words, *devices, told);
    }
}
