//! The whole program, on its words. The files that they name are opened through the runtime.

ghost use Rattle.std.specs.Prelude.{◌≡◌, IfOk, IfSome, IsTrue, false};
ghost use Rattle.explorer.specs.Asked.{IsFromOne, IsWithinLimits};
ghost use Rattle.explorer.specs.Invocation.{HasDone, HasDoneSome};

use crate::answered::scheduled_by;
use crate::command_line::CommandLine;
use crate::cut::shown_answer_io;
use crate::file_fault::FileFault;
use crate::invocation::Invocation;
use crate::streams::{beside, fault_text, status_after, tell_beside};
use crate::surroundings::{HINT, Surroundings};
use crate::ticker::Ticker;
use crate::words::{no_file, read_line};
use explorer_answers::{Exit, Flagged, IoFault, Sink, Source, write_all};
use std::alloc::Global;
use std::fs;
use std::rt::Files;
use std::sync::Wait;
use std::thread::Threads;
use std::time::Clock;

/// The file of this name, to be read. A folder can be opened and not read: so it is told before.
fn open_file<T: Files>(rt: &T, name: &str) -> Result<T::File, FileFault> {
    if let Ok(told) = fs::metadata(rt, name) {
        if told.is_dir() {
            return Err(FileFault::Folder);
        }
    }
    match fs::open(rt, name) {
        Ok(file) => Ok(file),
        Err(error) => Err(FileFault::of(&error)),
    }
}

/// What is asked, with the schedule of the answer that it names, which is read into this room.
///
/// It is an `Err` where a read fails.
fn scheduled<'w, T: Files, R: Source>(
    rt: &T,
    alloc: Global,
    asked: Invocation<'w>,
    reader: &mut R,
    room: &'w mut Vec<u8>,
) -> Result<Invocation<'w>, IoFault>
    requires limits { IsWithinLimits asked }
    requires readable { R.has_failed reader.old ≡ false }
    ensures limits { IfOk result IsWithinLimits }
    ensures readable { IfOk result (λ _. R.has_failed reader.new ≡ false) }
{
    match asked.answer() {
        None => Ok(asked),
        Some("-") => scheduled_by(alloc, asked, reader, room),
        Some(name) => match open_file(rt, name) {
            Ok(file) => scheduled_by(alloc, asked, &mut Flagged::new(file), room),
            Err(fault) => Ok(no_file(alloc, name, fault)),
        },
    }
}

/// How many worlds the search that is asked for may keep, where it is to be told how far it has come: where
/// that is asked for, or somebody sees it.
fn bound_told(asked: &Invocation<'_>, is_seen: bool) -> Option<u32> {
    if !is_seen && !asked.is_watched() {
        return None;
    }
    match asked {
        Invocation::OfText { command, .. } => command.worlds(),
        _ => None,
    }
}

/// How what is asked is shown.
#[derive(Clone, Copy, Drop)]
struct Showing {
    /// Its tables have so many columns at most, where that is told.
    columns: Option<u16>,
    /// Somebody sees what is told beside.
    is_seen: bool,
}

/// Does what is asked, and tells on `err` how far a search has come, where that is asked for, and what is
/// told beside.
fn shown_io<T: Threads + Wait + Clock + Sync, R: Source, O: Sink, E: Sink>(
    rt: &T,
    alloc: Global,
    asked: &Invocation<'_>,
    view: Showing,
    reader: &mut R,
    out: &mut O,
    err: &mut E,
) -> u8
    requires limits { IsWithinLimits asked.now }
    requires readable { R.has_failed reader.old ≡ false }
    requires writable { O.has_failed out.old ≡ false }
    ensures { HasDone asked.now view.columns (R.contents reader.old) (R.contents reader.new) (R.has_failed reader.new)
        (O.contents out.old) (O.contents out.new) (O.has_failed out.new) result }
{
    let Showing { columns, is_seen } = view;
    let mut without = Vec::new(alloc);
    let outcome = {
        let mut watch = Ticker::new(rt, alloc, err, bound_told(asked, is_seen));
        shown_answer_io(
            rt,
            alloc,
            asked,
            columns,
            reader,
            out,
            &mut watch,
            &mut without,
        )
    };
    tell_beside(beside(asked, &outcome, out.is_closed()), err);
    let _ = write_all(err, &without);
    status_after(&outcome)
}

/// Does what is asked, on the file that it names or on the reader.
fn opened_io<T: Files + Threads + Wait + Clock + Sync, R: Source, O: Sink, E: Sink>(
    rt: &T,
    alloc: Global,
    asked: &Invocation<'_>,
    view: Showing,
    reader: &mut R,
    out: &mut O,
    err: &mut E,
) -> u8
    requires limits { IsWithinLimits asked.now }
    requires columns { IfSome view.columns (IsFromOne 9999) }
    requires readable { R.has_failed reader.old ≡ false }
    requires writable { O.has_failed out.old ≡ false }
    ensures done { HasDoneSome (O.contents out.old) (O.contents out.new) (O.has_failed out.new) result }
    ensures unread { IsTrue (R.has_failed reader.new)
        → (result ≡ 2) × (O.contents out.new ≡ O.contents out.old) }
    ensures cut { IsTrue (O.has_failed out.new) → result ≡ 2 }
{
    let Some(name) = asked.file() else {
        return shown_io(rt, alloc, asked, view, reader, out, err);
    };
    match open_file(rt, name) {
        Ok(file) => shown_io(rt, alloc, asked, view, &mut Flagged::new(file), out, err),
        Err(fault) => shown_io(
            rt,
            alloc,
            &no_file(alloc, name, fault),
            view,
            reader,
            out,
            err,
        ),
    }
}

/// Tells on `err` what is to be known before anything is done: that standard input is read, where it is typed
/// there, and that the machine lacks the memory for as many worlds as are asked for. The search goes on all the
/// same: it may reach fewer.
fn tell_before<E: Sink>(
    alloc: Global,
    line: &CommandLine<'_>,
    surroundings: Surroundings,
    err: &mut E,
) {
    if let Some(shortage) = surroundings.shortage(line.worlds) {
        if let Ok(text) = format!(in alloc; "{shortage}\n") {
            let _ = write_all(err, text.as_bytes());
        }
    }
    if surroundings.is_hint_wanted(&line.asked) {
        let _ = write_all(err, HINT.as_bytes());
    }
}

/// Runs the program on its words, without its own name: reads what they ask for, opens the files that they
/// name, writes the answer to `out`, and tells on `err`, as far as that takes it, what is told beside and what
/// its surroundings give cause to say. The result is the status to end with.
///
/// It is 2 where the words ask for no command, where the input, the schedule or one of its steps is refused,
/// where memory is short, where a file can't be opened, and where a read or a write to `out` fails; 1 where
/// something bad was found, and 3 where a search gave up.
pub fn parklot_io<T: Files + Threads + Wait + Clock + Sync, R: Source, O: Sink, E: Sink>(
    rt: &T,
    alloc: Global,
    words: Vec<String>,
    surroundings: Surroundings,
    reader: &mut R,
    out: &mut O,
    err: &mut E,
) -> u8
    requires readable { R.has_failed reader.old ≡ false }
    requires writable { O.has_failed out.old ≡ false }
    ensures done { HasDoneSome (O.contents out.old) (O.contents out.new) (O.has_failed out.new) result }
    ensures unread { IsTrue (R.has_failed reader.new)
        → (result ≡ 2) × (O.contents out.new ≡ O.contents out.old) }
    ensures cut { IsTrue (O.has_failed out.new) → result ≡ 2 }
{
    let mut room = Vec::new(alloc);
    let line = read_line(alloc, words.as_slice());
    tell_before(alloc, &line, surroundings, err);
    let view = Showing {
        columns: line.columns,
        is_seen: surroundings.is_seen,
    };
    match scheduled(rt, alloc, line.asked, reader, &mut room) {
        Ok(asked) => opened_io(rt, alloc, &asked, view, reader, out, err),
        Err(fault) => {
            tell_beside(Some(fault_text(fault)), err);
            Exit::Refused.status()
        }
    }
}
