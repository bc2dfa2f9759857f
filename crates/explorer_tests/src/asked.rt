//! The program over memory. It is asked once more where memory was refused.

ghost use Rattle.explorer.specs.Asked.{IsWithinLimits};

use crate::assertion::holds_for;
use crate::devices::{Calls, Giving, SOUND, Taking};
use explorer::{
    Flagged, Invocation, NO_MEMORY, StopWatch, Surroundings, UNKNOWN, asked_io, parklot_io,
};
use std::alloc::{AllocError, Global};
use std::process::Abort;
use std::rt::Files;
use std::sync::Wait;
use std::thread::Threads;
use std::time::Clock;

/// What the program asks of its runtime, and a test beside.
pub(crate) trait Host: Abort + Files + Threads + Wait + Clock + Sync {}

impl<R: Abort + Files + Threads + Wait + Clock + Sync> Host for R {}

/// How the program's input and its two streams behave.
#[derive(Clone, Copy, Drop)]
pub(crate) struct Devices {
    pub(crate) input: Calls,
    pub(crate) out: Calls,
    pub(crate) err: Calls,
}

/// Nothing fails.
pub(crate) const ALL_SOUND: Devices = Devices {
    input: SOUND,
    out: SOUND,
    err: SOUND,
};

/// What goes to the two streams of the program for what is asked, with this input, and its status.
pub(crate) fn run(
    rt: &(impl Threads + Wait + Sync),
    alloc: Global,
    asked: &Invocation<'_>,
    input: &[u8],
    devices: Devices,
    watch: &mut impl StopWatch,
) -> (Vec<u8>, Vec<u8>, u8)
    requires { IsWithinLimits asked.now }
{
    let mut reader = Flagged::new(Giving::new(input, devices.input));
    let mut out = Flagged::new(Taking::new(alloc, devices.out));
    let mut err = Flagged::new(Taking::new(alloc, devices.err));
    let status = asked_io(rt, alloc, asked, &mut reader, &mut out, &mut err, watch);
    (
        out.into_inner().into_taken(),
        err.into_inner().into_taken(),
        status,
    )
}

/// The words, to be handed over.
fn owned(alloc: Global, words: &[&str]) -> Result<Vec<String>, AllocError> {
    let mut owned = Vec::new(alloc);
    for word in words {
        owned.push(String::from_str(alloc, word)?)?;
    }
    Ok(owned)
}

/// What goes to the two streams of the program for these words, with this input, and its status.
pub(crate) fn ask(
    rt: &impl Host,
    alloc: Global,
    words: &[&str],
    input: &[u8],
    devices: Devices,
) -> (Vec<u8>, Vec<u8>, u8) {
    ask_within(rt, alloc, words, UNKNOWN, input, devices)
}

/// The same in these surroundings.
pub(crate) fn ask_within(
    rt: &impl Host,
    alloc: Global,
    words: &[&str],
    surroundings: Surroundings,
    input: &[u8],
    devices: Devices,
) -> (Vec<u8>, Vec<u8>, u8) {
    let mut reader = Flagged::new(Giving::new(input, devices.input));
    let mut out = Flagged::new(Taking::new(alloc, devices.out));
    let mut err = Flagged::new(Taking::new(alloc, devices.err));
    let status = match owned(alloc, words) {
        Ok(words) => parklot_io(
            rt,
            alloc,
            words,
            surroundings,
            &mut reader,
            &mut out,
            &mut err,
        ),
        // where memory is short nothing is told
        Err(_) => 2,
    };
    (
        out.into_inner().into_taken(),
        err.into_inner().into_taken(),
        status,
    )
}

/// Whether memory may have been short: at most that went out, or a beginning of it.
pub(crate) fn is_short(out: &[u8], status: u8) -> bool {
    status == 2 && NO_MEMORY.as_bytes().starts_with(out)
}

/// What goes to the two streams, and the status.
#[derive(Clone, Copy, Drop)]
pub(crate) struct Told<'t> {
    pub(crate) out: &'t [u8],
    pub(crate) err: &'t [u8],
    pub(crate) status: u8,
    /// Of what is told beside only the beginning is given.
    pub(crate) helped: bool,
}

impl Told<'_> {
    pub(crate) fn fits(&self, out: &[u8], err: &[u8], status: u8) -> bool {
        (status, out) == (self.status, self.out)
            && (err == self.err || self.helped && err.starts_with(self.err))
    }
}

/// How what the program told is like what it is to tell.
#[derive(Clone, Copy, Drop, PartialEq)]
enum Outcome {
    Fits,
    /// Memory may have been short.
    Short,
}

/// The program tells this over these devices, and ends so, or memory may have been short.
fn has_told(
    rt: &impl Host,
    alloc: Global,
    words: &[&str],
    input: &[u8],
    devices: Devices,
    told: &Told<'_>,
) -> Outcome {
    let (out, err, status) = ask(rt, alloc, words, input, devices);
    if told.fits(&out, &err, status) {
        return Outcome::Fits;
    }
    holds_for(rt, is_short(&out, status), words);
    Outcome::Short
}

/// This is what the program tells over these devices, and it ends so.
pub(crate) fn tells_over(
    rt: &impl Host,
    alloc: Global,
    words: &[&str],
    input: &[u8],
    devices: Devices,
    told: Told<'_>,
) {
    if has_told(rt, alloc, words, input, devices, &told) == Outcome::Short {
        let again = has_told(rt, alloc, words, input, devices, &told);
        holds_for(rt, again == Outcome::Fits, words);
    }
}
