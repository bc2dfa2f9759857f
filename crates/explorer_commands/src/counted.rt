//! The command `threads`: what was counted.

ghost use Rattle.std.specs.Prelude.{◌≡◌, ◌↔◌, ◌<◌, false, length, slice_index, Some, string_bytes};
ghost use Rattle.std.specs.Prelude.{IsTrue, IsErr, IfOk, IfErr, OnErr};
ghost use Rattle.explorer_answers.specs.Told.{TellsAll, TellsBeginning};
ghost use Rattle.explorer_commands.specs.Threads.{AreWithin};
ghost use Rattle.explorer_commands.specs.ThreadsText.{threads_lines, IsThreadsAnswer};

use crate::gate::Open;
use crate::threads::run_threads;
use explorer_answers::{Answer, Exit, IoFault, Sink, tell};
use sema_table::Closed;
use std::alloc::Global;
use std::fmt;
use std::sync::Wait;
use std::thread::Threads;
use waiters::{CounterId, NoMemory};

/// What a table has counted that was closed.
#[derive(Clone, Copy, Drop)]
struct Counted {
    releases: u64,
    acquires: u64,
    /// What is left on the counter.
    value: u64,
}

impl fmt::Display for Counted {
    ghost output = { λ counted. Some (threads_lines counted.releases counted.acquires counted.value) };

    fn fmt<W: fmt::Write>(&self, f: &mut fmt::Formatter<W>) -> fmt::Result {
        let Counted {
            releases,
            acquires,
            value,
        } = *self;
        write!(
            f,
            "releases {releases}\nacquires {acquires}\nvalue {value}\n"
        )
    }
}

/// What the table has counted, of which counter 0 is the only one.
fn count(closed: &Closed) -> Counted
    requires { 0 < length closed.now.values }
    ensures { result ≡ record {
      releases = closed.now.releases;
      acquires = closed.now.acquires;
      value = slice_index closed.now.values 0;
    } }
{
    Counted {
        releases: closed.releases(),
        acquires: closed.acquires(),
        value: closed.value(CounterId::new(0)),
    }
}

/// What `threads` answers: the lines of what was closed, and that nothing bad was found.
///
/// It is an `Err` where memory is short or a thread can't be made.
fn threads_answer<R: Threads + Wait + Sync>(
    rt: &R,
    alloc: Global,
    workers: u32,
    rounds: u32,
) -> Result<Answer, NoMemory>
    requires { AreWithin workers rounds }
    ensures { IfOk result (λ answer. IsThreadsAnswer workers rounds (string_bytes answer.text) answer.exit) }
{
    let Ok(closed) = run_threads(rt, alloc, workers, rounds, &Open) else {
        return Err(NoMemory);
    };
    let counted = count(&closed);
    Ok(Answer {
        text: format!(in alloc; "{counted}")?,
        exit: Exit::NothingBad,
    })
}

/// Runs `parklot threads`: writes the lines of what was closed, or the refusal alone where memory was short
/// or a thread couldn't be made.
///
/// It is an `Err` where a write fails. The text is whole before the first write.
pub fn threads_io<R: Threads + Wait + Sync, S: Sink>(
    rt: &R,
    alloc: Global,
    workers: u32,
    rounds: u32,
    out: &mut S,
) -> Result<Exit, IoFault>
    requires limits { AreWithin workers rounds }
    requires writable { S.has_failed out.old ≡ false }
    ensures whole { IfOk result
        (TellsAll (IsThreadsAnswer workers rounds) (S.contents out.old) (S.contents out.new)) }
    ensures begun { OnErr result
        (TellsBeginning (IsThreadsAnswer workers rounds) (S.contents out.old) (S.contents out.new)) }
    ensures failed { IsErr result ↔ IsTrue (S.has_failed out.new) }
    ensures fault { IfErr result (λ e. e ≡ IoFault.Write) }
{
    tell(threads_answer(rt, alloc, workers, rounds), out)
}
