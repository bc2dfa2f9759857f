//! The program where no command could be read, or no file opened.

ghost use Rattle.explorer.specs.Asked.{IsWithinLimits};

use crate::asked::{ALL_SOUND, Host, run};
use crate::assertion::holds;
use explorer::{FileFault, Invocation, NO_MEMORY, no_file, no_words};
use std::alloc::Global;
use std::io::{self, ErrorKind};

/// The five lines of `once`, as they were worked out by hand from the rows of the table.
pub(crate) const FIVE_LINES: &str = "\
seat 0 try: Zero
seat 0 enter: Asleep
seat 1 post: Owes
seat 1 wake: One 0.0
seat 0 retry: Taken
";

/// What goes to the two streams where no command could be read from the words, or no file opened.
fn without_a_command(
    rt: &impl Host,
    alloc: Global,
    asked: &Invocation<'_>,
    told: &str,
    told_beside: &str,
)
    requires { IsWithinLimits asked.now }
{
    let (out, err, status) = run(rt, alloc, asked, b"", ALL_SOUND, &mut ());
    let is_told = out.as_slice() == told.as_bytes() && err.as_slice() == told_beside.as_bytes();
    holds(rt, status == 2 && is_told);
}

#[test]
fn words_that_are_no_text_are_a_mistake(rt: HostRuntime) {
    let alloc = rt.alloc();
    let no_text = "error: invalid UTF-8 was detected in one or more arguments\n";
    let asked = no_words(&io::Error::from(ErrorKind::InvalidData));
    without_a_command(&rt, alloc, &asked, "", no_text);
    let asked = no_words(&io::Error::from(ErrorKind::OutOfMemory));
    without_a_command(&rt, alloc, &asked, NO_MEMORY, "");
}

/// What is asked where this file can't be opened. Where memory is wanting it is asked once more.
fn asked_without<'w>(alloc: Global, file: &str, fault: FileFault) -> Invocation<'w>
    ensures { IsWithinLimits result }
{
    match no_file(alloc, file, fault) {
        Invocation::NoMemory => no_file(alloc, file, fault),
        asked => asked,
    }
}

/// Why a file can't be opened, and what is told.
static UNOPENED: [(ErrorKind, &str); 5] = [
    (
        ErrorKind::NotFound,
        "parklot: cannot read lost.txt: there is no such file\n",
    ),
    (
        ErrorKind::PermissionDenied,
        "parklot: cannot read lost.txt: permission denied\n",
    ),
    (
        ErrorKind::IsADirectory,
        "parklot: cannot read lost.txt: it is a folder\n",
    ),
    (
        ErrorKind::NotADirectory,
        "parklot: cannot read lost.txt: its path leads through a file\n",
    ),
    (
        ErrorKind::Other,
        "parklot: cannot read lost.txt: it can't be opened\n",
    ),
];

#[test]
fn a_file_that_cannot_be_opened_is_told(rt: HostRuntime) {
    let alloc = rt.alloc();
    for (kind, told) in &UNOPENED {
        let fault = FileFault::of(&io::Error::from(*kind));
        let asked = asked_without(alloc, "lost.txt", fault);
        without_a_command(&rt, alloc, &asked, "", told);
    }
}
