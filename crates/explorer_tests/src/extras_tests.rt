//! What a search tells beside what it found: its statistics.

use crate::asked::{ALL_SOUND, Host, run};
use crate::assertion::holds;
use crate::reading::ONE_ACQUIRE;
use explorer::{Extent, StopWatch, Watch, read_words};
use std::alloc::Global;

/// Four seats with two releases each: 625 worlds, and more than 63,000,000 schedules.
const TWO_EACH: &[u8] = b"\
counter 0
seat 0: release 0; release 0
seat 1: release 0; release 0
seat 2: release 0; release 0
seat 3: release 0; release 0
settled
";

/// A scenario, words, what is told, what is told beside, and the status.
type Row = (
    &'static [u8],
    &'static [&'static str],
    &'static str,
    &'static str,
    u8,
);

/// Searches whose worlds were counted by hand: 625 within 16 steps, all but one of them within 15, and 70
/// where it makes no difference who of four stands where. Nobody takes the time.
static COUNTED: [Row; 5] = [
    (
        TWO_EACH,
        &["check", "--stats"],
        "none\nworlds 625, deepest 16\n",
        "asked: settled. not asked: value C N, no-misuse, no-lost\nworlds 625, classes 70, depth 16, complete\n\
         seconds 0.000, classes a second 70000\n",
        0,
    ),
    (
        TWO_EACH,
        &["check", "--stats", "--worlds", "69"],
        "gave up\nworlds 69, complete up to depth 15\n",
        "classes 69, depth 15, cut at worlds\nseconds 0.000, classes a second 69000\n",
        3,
    ),
    (
        TWO_EACH,
        &["explore", "--depth", "15", "--stats"],
        "none up to depth 15\n",
        "asked: settled. not asked: value C N, no-misuse, no-lost\nworlds 624, classes 69, depth 15, cut at depth\n\
         seconds 0.000, classes a second 69000\n",
        0,
    ),
    (
        TWO_EACH,
        &["explore", "--stats", "--depth", "64"],
        "none up to depth 64\n",
        "asked: settled. not asked: value C N, no-misuse, no-lost\nworlds 625, classes 70, depth 16, complete\n\
         seconds 0.000, classes a second 70000\n",
        0,
    ),
    // one seat: a world for each of its steps but the last
    (
        ONE_ACQUIRE,
        &["check", "--stats"],
        "bad: stuck\nschedule: 0 0 0 0 0\n",
        "worlds 5, depth 4, ended at a bad world\nseconds 0.000, worlds a second 5000\n",
        1,
    ),
];

/// What goes to the two streams, and the status, where nobody takes the time.
fn untimed(rt: &impl Host, alloc: Global, words: &[&str], input: &[u8]) -> (Vec<u8>, Vec<u8>, u8) {
    let asked = read_words(alloc, words);
    run(rt, alloc, &asked, input, ALL_SOUND, &mut ())
}

/// Whether the search is told so, where memory isn't short.
fn is_counted(rt: &impl Host, alloc: Global, row: &Row) -> bool {
    let (input, words, told, told_beside, ended) = *row;
    let (out, err, status) = untimed(rt, alloc, words, input);
    let is_told = out.as_slice() == told.as_bytes() && err.as_slice() == told_beside.as_bytes();
    is_told && status == ended
}

#[test]
fn statistics_are_told_beside(rt: HostRuntime) {
    let alloc = rt.alloc();
    for row in &COUNTED {
        holds(
            &rt,
            is_counted(&rt, alloc, row) || is_counted(&rt, alloc, row),
        );
    }
}

/// Counts how often it is told how far a search has come, and then shows that this took a second and a
/// quarter.
#[derive(Drop)]
struct Listening {
    told: u32,
}

impl Watch for Listening {
    fn pass(&mut self, _extent: Extent) {
        self.told = self.told.saturating_add(1);
    }
}

impl StopWatch for Listening {
    fn stop(&mut self) -> u64 {
        1_250
    }
}

/// Whether who watches a search of 625 worlds is told of it before each of its 17 lengths, and asked how long
/// it took, where memory isn't short.
fn is_listened_to(rt: &impl Host, alloc: Global) -> bool {
    let asked = read_words(alloc, &["check", "--stats"]);
    let mut watch = Listening { told: 0 };
    let (_, beside, _) = run(rt, alloc, &asked, TWO_EACH, ALL_SOUND, &mut watch);
    let stats = b"\
asked: settled. not asked: value C N, no-misuse, no-lost
worlds 625, classes 70, depth 16, complete
seconds 1.250, classes a second 56
";
    watch.told == 17 && beside.as_slice() == stats.as_slice()
}

#[test]
fn who_watches_is_told(rt: HostRuntime) {
    let alloc = rt.alloc();
    holds(
        &rt,
        is_listened_to(&rt, alloc) || is_listened_to(&rt, alloc),
    );
}
