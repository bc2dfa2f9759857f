//! What the calls of `parklot once` answered, and the lines that tell it.

ghost use Rattle.std.specs.Prelude.{Some};
ghost use Rattle.explorer_commands.specs.Answer.{retried_text, released_lines, once_lines};

use sema_table::{Tried, Wake};
use std::fmt;

/// What seat 1's release answered, made while seat 0 slept.
#[derive(Clone, Copy, Drop)]
pub enum Released {
    /// The post found nobody who waits, and the release has ended.
    Done,
    /// The post found that somebody may wait, and the wake answered this.
    Owed(Wake),
}

/// What seat 0's retry answered, made once its wait was woken.
#[derive(Clone, Copy, Drop)]
pub enum OnceRetried {
    /// The seat has its unit.
    Taken,
    /// The seat sleeps again.
    Asleep,
}

/// What the calls of `parklot once` answered, up to the one after which there was nothing more to call.
#[derive(Clone, Copy, Drop)]
pub enum OnceAnswers {
    /// Seat 0's try didn't find 0, and answered this.
    Tried(Tried),
    /// Seat 0's try found 0, and it took a unit under the lock.
    Entered,
    /// Seat 0's try found 0, and it slept; seat 1 released, and seat 0 made its retry, if it wasn't handed a
    /// unit.
    Slept(Released, Option<OnceRetried>),
}

impl fmt::Display for Released {
    ghost output = { λ released. Some (released_lines released) };

    fn fmt<W: fmt::Write>(&self, f: &mut fmt::Formatter<W>) -> fmt::Result {
        match self {
            Released::Done => writeln!(f, "seat 1 post: Done"),
            Released::Owed(wake) => write!(f, "seat 1 post: Owes\nseat 1 wake: {wake}\n"),
        }
    }
}

impl fmt::Display for OnceRetried {
    ghost output = { λ retried. Some (retried_text retried) };

    fn fmt<W: fmt::Write>(&self, f: &mut fmt::Formatter<W>) -> fmt::Result {
        f.write_str(match self {
            OnceRetried::Taken => "Taken",
            OnceRetried::Asleep => "Asleep",
        })
    }
}

impl fmt::Display for OnceAnswers {
    ghost output = { λ answers. Some (once_lines answers) };

    fn fmt<W: fmt::Write>(&self, f: &mut fmt::Formatter<W>) -> fmt::Result {
        match self {
            OnceAnswers::Tried(tried) => writeln!(f, "seat 0 try: {tried}"),
            OnceAnswers::Entered => f.write_str("seat 0 try: Zero\nseat 0 enter: Taken\n"),
            OnceAnswers::Slept(released, retried) => {
                write!(f, "seat 0 try: Zero\nseat 0 enter: Asleep\n{released}")?;
                match retried {
                    Some(retried) => writeln!(f, "seat 0 retry: {retried}"),
                    None => Ok(()),
                }
            }
        }
    }
}
