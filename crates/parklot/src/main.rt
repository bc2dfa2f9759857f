//! The program: its words and its streams, handed to `explorer`.
#![tactic(auto)]

use explorer::{Flagged, Surroundings, asked_io, free_memory, no_words, parklot_io};
use std::io::IsTerminal;
use std::process::ExitCode;
use std::{env, io};

fn main(rt: HostRuntime) -> ExitCode {
    let alloc = rt.alloc();
    let surroundings = Surroundings {
        is_typed: rt.stdin().is_terminal(),
        is_seen: rt.stderr().is_terminal(),
        free: free_memory(&rt),
    };
    let mut input = Flagged::new(rt.stdin());
    let mut out = Flagged::new(rt.stdout());
    let mut err = Flagged::new(rt.stderr());
    let words: io::Result<Vec<String>> = env::args(&rt).and_then(|all| all
        .skip(1)
        .collect(alloc)
        .map_err(io::Error::from));
    ExitCode::from(match words {
        Ok(words) => parklot_io(
            &rt,
            alloc,
            words,
            surroundings,
            &mut input,
            &mut out,
            &mut err,
        ),
        Err(error) => {
            let asked = no_words(&error);
            asked_io(&rt, alloc, &asked, &mut input, &mut out, &mut err, &mut ())
        }
    })
}
