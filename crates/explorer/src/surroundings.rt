//! What the program knows of where it runs, and what it says of that before it begins.

ghost use Rattle.std.specs.Prelude.{◌≡◌, ◌<◌, ◌≤◌, ◌*◌, ◌/◌, Option, Some, MatchOption};
ghost use Rattle.explorer.specs.Surroundings.{memory_text};

use crate::invocation::Invocation;
use std::io::Read;
use std::rt::Files;
use std::{fmt, fs};

/// How many bytes a class of worlds takes at least.
const BYTES_OF_A_CLASS: u64 = 110;

/// How many bytes are read of what the machine tells of its memory: the line stands among the first.
const MOST_OF_MEMORY: usize = 512;

/// What is said to who types a command without a file, and sits before an empty line.
pub(crate) const HINT: &str =
    "parklot: reads standard input, to its end (Ctrl-D); a file is named as the last word\n";

/// What the program knows of where it runs.
#[derive(Clone, Copy, Drop)]
pub struct Surroundings {
    /// Standard input is a terminal.
    pub is_typed: bool,
    /// Standard error is a terminal.
    pub is_seen: bool,
    /// How many KiB of memory the machine has left, where it tells that.
    pub free: Option<u64>,
}

/// Nothing is known.
pub const UNKNOWN: Surroundings = Surroundings {
    is_typed: false,
    is_seen: false,
    free: None,
};

/// Whether a command reads standard input: its text, where it names no file, or the answer that it replays.
fn reads_input(asked: &Invocation<'_>) -> bool {
    match asked {
        Invocation::OfText { file, answer, .. } => file.is_none() || *answer == Some("-"),
        Invocation::Judge { file, .. } => file.is_none(),
        _ => false,
    }
}

impl Surroundings {
    /// Whether somebody is to be told that standard input is read.
    pub(crate) fn is_hint_wanted(&self, asked: &Invocation<'_>) -> bool {
        self.is_typed && self.is_seen && reads_input(asked)
    }

    /// The want of memory, where so many worlds need more than the machine has left.
    pub(crate) fn shortage(&self, worlds: Option<u32>) -> Option<Shortage> {
        Shortage::of(worlds?, self.free?)
    }
}

/// The machine has less memory left than so many worlds take at least.
#[derive(Clone, Copy, Drop)]
pub(crate) struct Shortage {
    worlds: u32,
    /// How many KiB it has left.
    free: u64,
}

impl Shortage {
    /// What is wanting to so many worlds where so many KiB are left, if anything is.
    fn of(worlds: u32, free: u64) -> Option<Shortage>
        ensures { MatchOption result (worlds * 110 / 1024 ≤ free)
            (λ short. (free < worlds * 110 / 1024) × (short.worlds ≡ worlds) × (short.free ≡ free)) }
    {
        if u64::from(worlds) * BYTES_OF_A_CLASS / 1024 > free {
            Some(Shortage { worlds, free })
        } else {
            None
        }
    }
}

impl fmt::Display for Shortage {
    ghost output = { λ short. Some (memory_text short.worlds short.free) };

    fn fmt<W: fmt::Write>(&self, f: &mut fmt::Formatter<W>) -> fmt::Result {
        let worlds = self.worlds;
        let needed = u64::from(worlds) * BYTES_OF_A_CLASS / 1_000_000;
        let free = u128::from(self.free) * 1024 / 1_000_000;
        write!(
            f,
            "parklot: {worlds} worlds take {needed} MB and more, and the machine has {free} MB: where it \
             reaches as many, the search ends for want of memory"
        )
    }
}

/// The number of KiB that the line of this name tells.
fn told_of(text: &str, name: &str) -> Option<u64> {
    let (_, behind) = text.split_once(name)?;
    let (line, _) = behind.split_once('\n')?;
    line.trim().strip_suffix(" kB")?.parse::<u64>().ok()
}

/// How many KiB of memory the machine has left, where it tells that.
pub fn free_memory<T: Files>(rt: &T) -> Option<u64> {
    let mut file = fs::open(rt, "/proc/meminfo").ok()?;
    let mut bytes = [0u8; MOST_OF_MEMORY];
    let count = file.read(&mut bytes).ok()?;
    let text = str::from_utf8(&bytes[..count]).ok()?;
    told_of(text, "\nMemAvailable:")
}
