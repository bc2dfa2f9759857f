//! Texts and schedules as long as they may be, and longer by one.

use crate::asked::{ALL_SOUND, Devices, Host, Told, tells_over};
use crate::devices::{Calls, SOUND};
use crate::reading::ONE_ACQUIRE;
use crate::repeated::{Repeated, bytes_again};
use std::alloc::Global;

/// A right text of 36 bytes, and so many bytes that make it wrong.
const fn and_bytes(times: usize) -> Repeated<'static> {
    Repeated {
        before: ONE_ACQUIRE,
        again: b"x",
        times,
        behind: b"",
    }
}

/// Only the first read succeeds, and it gives all.
const ONE_READ: Devices = Devices {
    input: Calls { left: 1, ..SOUND },
    ..ALL_SOUND
};

const CUT: Told<'static> = Told {
    out: b"refused: line 4: cut\n",
    err: b"line ",
    status: 2,
    helped: true,
};

const TOO_LONG: Told<'static> = Told {
    out: b"refused: too long\n",
    err: b"the text has more than 65536 bytes\n",
    status: 2,
    helped: false,
};

const UNREAD: Told<'static> = Told {
    out: b"",
    err: b"parklot: read failed\n",
    status: 2,
    helped: false,
};

/// By how many bytes the text is longer, words, the devices, and what is told: a text that is too long isn't
/// read on.
type Long = (usize, &'static [&'static str], Devices, Told<'static>);

static LENGTHS: [Long; 7] = [
    (65_500, &["replay", "--schedule", "0"], ALL_SOUND, CUT),
    (65_501, &["replay", "--schedule", "0"], ALL_SOUND, TOO_LONG),
    (100_000, &["replay", "--schedule", "0"], ALL_SOUND, TOO_LONG),
    (65_501, &["replay", "--schedule", "x"], ALL_SOUND, TOO_LONG),
    (65_500, &["explore", "--depth", "32"], ONE_READ, UNREAD),
    (65_501, &["explore", "--depth", "32"], ONE_READ, TOO_LONG),
    (70_000, &["explore", "--depth", "32"], ONE_READ, TOO_LONG),
];

fn is_long(rt: &impl Host, alloc: Global, row: &Long) {
    let (times, words, devices, told) = *row;
    let input = bytes_again(rt, alloc, &and_bytes(times));
    tells_over(rt, alloc, words, &input, devices, told);
}

#[test]
fn a_text_has_its_greatest_length(rt: HostRuntime) {
    for row in &LENGTHS {
        is_long(&rt, rt.alloc(), row);
    }
}

/// A schedule of 70,001 numbers.
const ZEROS: Repeated<'static> = Repeated {
    before: b"0",
    again: b" 0",
    times: 70_000,
    behind: b"",
};

const NO_SCHEDULE: Told<'static> = Told {
    out: b"refused: schedule\n",
    err: b"a schedule is 0 to 256 numbers of seats",
    status: 2,
    helped: true,
};

#[test]
fn a_long_schedule_is_refused(rt: HostRuntime) {
    let spelled = bytes_again(&rt, rt.alloc(), &ZEROS);
    let spelled = str::from_utf8(&spelled).expect(&rt, "a text");
    let words = ["replay", "--schedule", spelled];
    tells_over(&rt, rt.alloc(), &words, ONE_ACQUIRE, ALL_SOUND, NO_SCHEDULE);
}
