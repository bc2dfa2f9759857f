//! Want of memory is told alone, and only where memory was refused.

use crate::asked::{ALL_SOUND, ask};
use crate::assertion::{holds, holds_for};
use crate::program_tests::FIVE_LINES;
use crate::reading::ONE_ACQUIRE;
use crate::threads_tests::{THREE_LINES, TWO_BY_THREE};
use explorer::{Cause, NO_MEMORY, ReadFault, read_scenario};

/// What clap tells of a word after `once`.
const EXTRA_WORD: &str = "\
error: unexpected argument 'more' found

Usage: parklot once

For more information, try '--help'.
";

/// What stands beside the whole of a search that finds nothing.
const GOOD_BESIDE: &str = "asked: settled, value 0 1, no-misuse, no-lost\n";

/// Words, an input, all that is told, how what is told beside begins, and the status.
type Row = (
    &'static [&'static str],
    &'static [u8],
    &'static str,
    &'static str,
    u8,
);

/// One of each kind.
static ANSWERS: [Row; 11] = [
    (
        &["explore", "--depth", "32"],
        ONE_ACQUIRE,
        "bad: stuck\nschedule: 0 0 0 0 0\n",
        "",
        1,
    ),
    (
        &["explore", "--depth", "32", "--variant", "no-look"],
        ONE_ACQUIRE,
        "bad: stuck\nschedule: 0 0 0 0\n",
        "",
        1,
    ),
    (
        &["check", "--every"],
        b"counter 1\nseat 0: acquire 0; release 0\nvalue 0 1\n",
        "none\nworlds 5, deepest 4\n",
        GOOD_BESIDE,
        0,
    ),
    (
        &["replay", "--schedule", "0 0"],
        ONE_ACQUIRE,
        "0: seat 0 A1\n1: seat 0 A3\ncounter 0: value 0, waiting -\nverdict: not bad\n",
        "",
        0,
    ),
    (
        &["replay", "--table", "--schedule", "7"],
        b"counter 0\nseat 0: acquire 0\nseat 1: release 0\nsettled\n",
        "step  seat 0  seat 1  counter 0\n0: refused 1 NoSuchSeat\n",
        "",
        2,
    ),
    (
        &["judge"],
        b"counter 1\ntake 0 0\ntake 0 1\nadd 0 0\n",
        "unlawful: line 3: no unit\n",
        "line 3: take 0 1\n",
        1,
    ),
    (&["once"], b"", FIVE_LINES, "", 0),
    (&["once", "more"], b"", "", EXTRA_WORD, 2),
    (&TWO_BY_THREE, b"", THREE_LINES, "", 0),
    (&["--version"], b"", "parklot 0.1.0\n", "", 0),
    (
        &["explore", "--depth", "1"],
        b"\n",
        "refused: line 1: form\n",
        "line ",
        2,
    ),
];

/// The answer is this one, or memory was short: nothing went out, or that alone was told.
#[test]
fn each_answer_is_told_or_short(rt: HostRuntime) {
    for (words, input, told, beside, status) in &ANSWERS {
        let (out, err, ended) = ask(&rt, rt.alloc(), words, input, ALL_SOUND);
        let is_told = ended == *status
            && out.as_slice() == told.as_bytes()
            && err.starts_with(beside.as_bytes())
            && err.is_empty() == beside.is_empty();
        let is_short = ended == 2 && (out.is_empty() || out.as_slice() == NO_MEMORY.as_bytes());
        holds_for(&rt, is_told || is_short, words);
    }
}

#[test]
fn a_short_read_names_its_line(rt: HostRuntime) {
    let is_read_or_short = match read_scenario(rt.alloc(), ONE_ACQUIRE) {
        Ok(_) => true,
        Err(ReadFault { line, cause }) => cause == Cause::NoMemory && (1..=3).contains(&line),
    };
    holds(&rt, is_read_or_short);
}
