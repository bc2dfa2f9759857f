//! `explore` and `replay` as calls, over values and over readers and writers. A call that answers want of
//! memory is made once more.

ghost use Rattle.std.specs.Prelude.{◌≡◌, false};

use crate::assertion::holds;
use crate::devices::{Calls, Giving, SOUND, Taking};
use crate::reading::ONE_ACQUIRE;
use explorer::{
    Cause, Exit, Flagged, Found, IoFault, Kind, NO_MEMORY, Property, ReadFault, Sink, Source,
    explore, explore_io, explore_variant, explore_variant_io, read_scenario, replay_io,
};
use std::alloc::Global;
use step_core::Variant;

/// One of the calls.
#[derive(Clone, Copy)]
enum Asked {
    Explore(u32),
    ExploreVariant(u32, Variant),
    Replay(&'static str),
}

/// A call, how the writer behaves, what went out, and how it ended.
type Row = (Asked, Calls, &'static str, Result<Exit, IoFault>);

/// A writer that takes four bytes, and then fails.
const FOUR_BYTES: Calls = Calls {
    at_once: 4,
    left: 1,
    ..SOUND
};

static ENDED: [Row; 7] = [
    (
        Asked::Explore(32),
        SOUND,
        "bad: stuck\nschedule: 0 0 0 0 0\n",
        Ok(Exit::BadFound),
    ),
    (
        Asked::Explore(4),
        SOUND,
        "none up to depth 4\n",
        Ok(Exit::NothingBad),
    ),
    (Asked::Explore(32), FOUR_BYTES, "bad:", Err(IoFault::Write)),
    (
        Asked::ExploreVariant(32, Variant::NoLook),
        SOUND,
        "bad: stuck\nschedule: 0 0 0 0\n",
        Ok(Exit::BadFound),
    ),
    (
        Asked::ExploreVariant(3, Variant::NoLook),
        SOUND,
        "none up to depth 3\n",
        Ok(Exit::NothingBad),
    ),
    (
        Asked::Replay("0 0"),
        SOUND,
        "0: seat 0 A1\n1: seat 0 A3\ncounter 0: value 0, waiting -\nverdict: not bad\n",
        Ok(Exit::NothingBad),
    ),
    (
        Asked::Replay("-"),
        SOUND,
        "refused: schedule\n",
        Ok(Exit::Refused),
    ),
];

/// The call over these streams, and how it ends.
fn ended<R: Source, W: Sink>(
    alloc: Global,
    reader: &mut R,
    writer: &mut W,
    asked: Asked,
) -> Result<Exit, IoFault>
    requires readable { R.has_failed reader.old ≡ false }
    requires writable { W.has_failed writer.old ≡ false }
{
    match asked {
        Asked::Explore(depth) => explore_io(alloc, reader, writer, depth.min(64)),
        Asked::ExploreVariant(depth, variant) => {
            explore_variant_io(alloc, reader, writer, depth.min(64), variant)
        }
        Asked::Replay(schedule) => replay_io(alloc, reader, writer, schedule),
    }
}

/// What goes out, and how the call ends, of a counter with one acquire.
fn ends(alloc: Global, asked: Asked, calls: Calls) -> (Vec<u8>, Result<Exit, IoFault>) {
    let mut reader = Flagged::new(Giving::new(ONE_ACQUIRE, SOUND));
    let mut out = Flagged::new(Taking::new(alloc, calls));
    let ended = ended(alloc, &mut reader, &mut out, asked);
    (out.into_inner().into_taken(), ended)
}

/// Whether this goes out and the call ends so. There is none where memory was refused.
fn ends_so(alloc: Global, row: &Row) -> Option<bool> {
    let (asked, calls, told, wanted) = row;
    let (out, ended) = ends(alloc, *asked, *calls);
    if !out.is_empty() && NO_MEMORY.as_bytes().starts_with(&out) {
        return None;
    }
    Some(out.as_slice() == told.as_bytes() && ended == *wanted)
}

#[test]
fn calls_over_a_reader_and_a_writer_end_so(rt: HostRuntime) {
    let alloc = rt.alloc();
    for row in &ENDED {
        holds(
            &rt,
            ends_so(alloc, row).or(ends_so(alloc, row)) == Some(true),
        );
    }
}

/// The length of the schedule that is found of the counter with one acquire, which leads to a sleeper: all
/// its steps are of seat 0. It is 0 where nothing is found, and there is none where memory was refused.
fn steps_to_sleep(alloc: Global, depth: u32, variant: Option<Variant>) -> Option<usize> {
    let request = read_scenario(alloc, ONE_ACQUIRE).ok()?;
    let found = match variant {
        None => explore(alloc, &request, depth.min(64)),
        Some(variant) => explore_variant(alloc, &request, depth.min(64), variant),
    };
    match found {
        Ok(
            Found::Bad {
                schedule,
                kind: Kind::Stuck,
            },
        ) => schedule
            .iter()
            .all(|seat| seat.0 == 0)
            .then_some(schedule.len()),
        Ok(Found::None) => Some(0),
        _ => None,
    }
}

/// A depth, a change of the table, and how many steps lead to a sleeper then.
static DEPTHS: [(u32, Option<Variant>, usize); 3] = [
    (32, None, 5),
    (32, Some(Variant::NoLook), 4),
    (3, Some(Variant::NoLook), 0),
];

#[test]
fn a_sleeper_is_found(rt: HostRuntime) {
    let alloc = rt.alloc();
    for row in &DEPTHS {
        let (depth, variant, steps) = *row;
        let found = steps_to_sleep(alloc, depth, variant);
        let found = found.or(steps_to_sleep(alloc, depth, variant));
        holds(&rt, found == Some(steps));
    }
}

/// Whether a request shows what it was read from. There is none where memory was refused.
fn is_read(alloc: Global) -> Option<bool> {
    let request = read_scenario(alloc, ONE_ACQUIRE).ok()?;
    Some(request.property() == Property::Settled && request.scenario().seats() == 1)
}

#[test]
fn a_request_shows_what_it_was_read_from(rt: HostRuntime) {
    let alloc = rt.alloc();
    holds(&rt, is_read(alloc).or(is_read(alloc)) == Some(true));
    let fault = ReadFault {
        line: 1,
        cause: Cause::End,
    };
    holds(&rt, read_scenario(alloc, b"").err() == Some(fault));
}
