//! The line that tells, while a search runs, how far it has come.

ghost use Rattle.std.specs.Prelude.{Some};
ghost use Rattle.explorer.specs.ProgressText.{progress_text};

use explorer_answers::{Sink, StopWatch, write_all};
use scenario_search::{Extent, Watch};
use std::alloc::Global;
use std::fmt;
use std::time::{Clock, Instant};

/// How many milliseconds a search runs before anything is told of it.
const FIRST: u64 = 1000;
/// How many milliseconds a line stands at least.
const BETWEEN: u64 = 100;

/// How far a search has come, as it is told while it runs.
#[derive(Clone, Copy, Drop)]
struct Progress {
    kept: usize,
    /// How many may be kept.
    most: u32,
    depth: u32,
    seconds: u64,
    /// How many were kept in a second.
    rate: u128,
}

impl Progress {
    /// A search that may keep so many worlds came so far in so many milliseconds.
    fn of(extent: Extent, most: u32, millis: u64) -> Progress {
        Progress {
            kept: extent.worlds,
            most,
            depth: extent.depth,
            seconds: millis / 1000,
            rate: extent.worlds as u128 * 1000 / u128::from(millis.max(1)),
        }
    }
}

impl fmt::Display for Progress {
    ghost output = { λ progress. Some (progress_text progress) };

    fn fmt<W: fmt::Write>(&self, f: &mut fmt::Formatter<W>) -> fmt::Result {
        let Progress {
            kept,
            most,
            depth,
            seconds,
            rate,
        } = self;
        write!(
            f,
            "none up to depth {depth}, {kept} worlds of at most {most}, {seconds} s, {rate} a second"
        )
    }
}

/// Takes the time of a search, and tells how far it has come where that is asked for: on one line, which it
/// keeps up to date and takes away at the end. What can't be told is left out.
#[derive(Drop)]
pub struct Ticker<'r, T, E> {
    clock: &'r T,
    alloc: Global,
    err: &'r mut E,
    /// How many worlds the search may keep, where it is told how far it has come.
    told: Option<u32>,
    began: Option<Instant>,
    /// From when on a line may be told.
    next: u64,
    /// A line stands there.
    stands: bool,
}

impl<'r, T: Clock, E: Sink> Ticker<'r, T, E> {
    /// The time begins with the search. It is told how far it has come of so many worlds at most, or the line is
    /// left out.
    pub fn new(clock: &'r T, alloc: Global, err: &'r mut E, told: Option<u32>) -> Ticker<'r, T, E> {
        Ticker {
            clock,
            alloc,
            err,
            told,
            began: None,
            next: FIRST,
            stands: false,
        }
    }

    /// How many milliseconds it is since the search began: now, where it hadn't.
    fn elapsed(&mut self) -> u64 {
        let Ok(now) = Instant::now(self.clock) else {
            return 0;
        };
        let Some(began) = self.began else {
            self.began = Some(now);
            return 0;
        };
        let millis = now.duration_since(began).as_millis();
        millis.min(u64::MAX as u128) as u64
    }

    /// Puts this in place of the line.
    fn tell(&mut self, progress: Progress) {
        if let Ok(line) = format!(in self.alloc; "\r\x1b[K{progress}") {
            self.stands = write_all(self.err, line.as_bytes()).is_ok();
        }
    }
}

impl<T: Clock, E: Sink> Watch for Ticker<'_, T, E> {
    fn pass(&mut self, extent: Extent) {
        let elapsed = self.elapsed();
        if let Some(most) = self.told {
            if elapsed >= self.next {
                self.next = elapsed.saturating_add(BETWEEN);
                self.tell(Progress::of(extent, most, elapsed));
            }
        }
    }
}

impl<T: Clock, E: Sink> StopWatch for Ticker<'_, T, E> {
    fn stop(&mut self) -> u64 {
        if self.stands {
            self.stands = false;
            let _ = write_all(self.err, b"\r\x1b[K");
        }
        self.elapsed()
    }
}
