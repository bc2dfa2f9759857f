//! What the program says of where it runs, before it begins.

use crate::asked::{ALL_SOUND, Host, ask_within};
use crate::assertion::holds_for;
use crate::reading::ONE_ACQUIRE;
use explorer::{Surroundings, UNKNOWN};
use std::alloc::Global;

/// Somebody types, and sees what is told beside.
const TYPED: Surroundings = Surroundings {
    is_typed: true,
    is_seen: true,
    ..UNKNOWN
};

/// A GiB of memory is left.
const A_GIBIBYTE: Surroundings = Surroundings {
    free: Some(1_048_576),
    ..UNKNOWN
};

/// Just the memory that a million worlds take is left, in KiB.
const ENOUGH: Surroundings = Surroundings {
    free: Some(107_421),
    ..UNKNOWN
};

const TOO_LITTLE: Surroundings = Surroundings {
    free: Some(107_420),
    ..UNKNOWN
};

/// Where the program runs, its words, and what it tells beside.
type Row = (Surroundings, &'static [&'static str], &'static str);

static ROWS: [Row; 10] = [
    (
        TYPED,
        &["replay", "--schedule", "0"],
        "parklot: reads standard input, to its end (Ctrl-D); a file is named as the last word\n",
    ),
    (
        TYPED,
        &["replay", "--schedule-of", "-", "lost.txt"],
        "parklot: reads standard input, to its end (Ctrl-D); a file is named as the last word\n\
         parklot: cannot read lost.txt: there is no such file\n",
    ),
    (
        TYPED,
        &["check", "lost.txt"],
        "parklot: cannot read lost.txt: there is no such file\n",
    ),
    (TYPED, &["once"], ""),
    (
        Surroundings {
            is_seen: false,
            ..TYPED
        },
        &["replay", "--schedule", "0"],
        "",
    ),
    (
        Surroundings {
            is_typed: false,
            ..TYPED
        },
        &["replay", "--schedule", "0"],
        "",
    ),
    (
        A_GIBIBYTE,
        &["check", "--worlds", "1000000000"],
        "parklot: 1000000000 worlds take 110000 MB and more, and the machine has 1073 MB: where it reaches as \
         many, the search ends for want of memory\n",
    ),
    (
        TOO_LITTLE,
        &["check", "--worlds", "1000000"],
        "parklot: 1000000 worlds take 110 MB and more, and the machine has 109 MB: where it reaches as many, \
         the search ends for want of memory\n",
    ),
    (ENOUGH, &["check", "--worlds", "1000000"], ""),
    (TOO_LITTLE, &["check"], ""),
];

/// Whether that is told beside.
fn is_told(rt: &impl Host, alloc: Global, row: &Row) -> bool {
    let (surroundings, words, told) = *row;
    let (_, err, _) = ask_within(rt, alloc, words, surroundings, ONE_ACQUIRE, ALL_SOUND);
    err.as_slice() == told.as_bytes()
}

#[test]
fn what_is_known_of_the_machine_is_told_before(rt: HostRuntime) {
    for row in &ROWS {
        // once more, where memory was refused
        let told = is_told(&rt, rt.alloc(), row) || is_told(&rt, rt.alloc(), row);
        holds_for(&rt, told, row.1);
    }
}
