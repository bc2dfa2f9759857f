//! Cases: many small inputs and words, each with what is written to the output and beside it, and the status.

use crate::{Ended, run, words_of};
use anyhow::Result;
use explorer::read_words;
use scenario_text::read_scenario;
use std::alloc::{AllocError, Global};
use std::rt::Files;
use std::sync::Wait;
use std::thread::Threads;
use std::time::Clock;

/// What a line with words asks for.
#[derive(Clone, Copy, Drop)]
enum Prompt {
    /// What the program answers.
    Run,
    /// What the words ask for.
    Asked,
    /// What the scenario asks for that is the input.
    Request,
}

const PROMPTS: [Prompt; 3] = [Prompt::Run, Prompt::Asked, Prompt::Request];

impl Prompt {
    /// How such a line begins.
    fn text(self) -> &'static str {
        match self {
            Prompt::Run => "$ parklot",
            Prompt::Asked => "$ asked",
            Prompt::Request => "$ request",
        }
    }
}

/// How a line of the input begins.
const INPUT: &str = "< ";

/// How a line begins that is told beside.
const BESIDE: &str = "! ";

/// How the line with the status begins, the last of a case.
const STATUS: &str = "exit ";

/// How a line begins that says why a case stands there.
const REMARK: &str = "# ";

/// What stands for any text, also for none.
const ANY: &str = "…";

/// The text, in which some bytes are spelled as in a program. A backslash before a line feed takes that away.
fn spelled(alloc: Global, text: &str) -> Result<String, AllocError> {
    text.replace(alloc, "\\\n", "")?
        .replace(alloc, "\\n", "\n")?
        .replace(alloc, "\\r", "\r")?
        .replace(alloc, "\\t", "\t")?
        .replace(alloc, "\\x7f", "\x7f")
}

/// Whether the text is what is told of it.
fn is_told(text: &str, told: &str) -> bool {
    match told.split_once(ANY) {
        Some((begin, end)) => text
            .strip_prefix(begin)
            .is_some_and(|rest| rest.ends_with(end)),
        None => text == told,
    }
}

/// A case, as far as it is read. Words without an input of their own have that of those before them.
#[derive(Drop)]
struct Case {
    input: String,
    /// None while the input is read.
    prompt: Option<Prompt>,
    command: String,
    text: String,
    aside: String,
}

impl Case {
    fn new(alloc: Global) -> Case {
        Case {
            input: String::new(alloc),
            prompt: None,
            command: String::new(alloc),
            text: String::new(alloc),
            aside: String::new(alloc),
        }
    }

    /// The words of the case.
    fn begin(&mut self, alloc: Global, prompt: Prompt, command: &str) -> Result<(), AllocError> {
        self.prompt = Some(prompt);
        self.command = String::from_str(alloc, command)?;
        self.text.clear();
        self.aside.clear();
        Ok(())
    }

    /// A line of the input. The first one behind a case begins a new input.
    fn give(&mut self, alloc: Global, line: &str) -> Result<(), AllocError> {
        if self.prompt.take().is_some() {
            self.input.clear();
        }
        self.input
            .push_str(&spelled(alloc, &format!(in alloc; "{line}\n")?)?)
    }

    /// Takes in any line but that of the status.
    fn read(&mut self, alloc: Global, line: &str) -> Result<(), AllocError> {
        for prompt in PROMPTS {
            if let Some(command) = line.strip_prefix(prompt.text()) {
                return self.begin(alloc, prompt, command);
            }
        }
        if let Some(given) = line.strip_prefix(INPUT) {
            self.give(alloc, given)
        } else if let Some(aside) = line.strip_prefix(BESIDE) {
            self.aside
                .push_str(&spelled(alloc, &format!(in alloc; "{aside}\n")?)?)
        } else if line.starts_with(REMARK) {
            Ok(())
        } else {
            self.text.push_str(line)?;
            self.text.push_str("\n")
        }
    }

    /// What the words of the case lead to.
    fn ended<R: Files + Threads + Wait + Clock + Sync>(
        &self,
        team: &R,
        alloc: Global,
    ) -> Result<Ended> {
        let words = words_of(alloc, &spelled(alloc, &self.command)?)?;
        match self.prompt {
            Some(Prompt::Asked) => Ok(asked(alloc, &words)?),
            Some(Prompt::Request) => Ok(request(alloc, &self.input)?),
            _ => run(team, alloc, words, &self.input),
        }
    }

    fn fits(&self, ended: &Ended, status: &str) -> bool {
        is_told(&ended.text, &self.text)
            && is_told(&ended.aside, &self.aside)
            && status
                .parse::<u8>()
                .is_ok_and(|status| status == ended.status)
    }
}

/// A text that is all that is told.
fn ended_well(alloc: Global, text: String) -> Ended {
    Ended {
        text,
        aside: String::new(alloc),
        status: 0,
    }
}

/// What the words ask for, the file that they name, and whether somebody is told how far a search has come.
fn asked(alloc: Global, words: &[String]) -> Result<Ended, AllocError> {
    let asked = read_words(alloc, words);
    let (file, watched) = (asked.file(), asked.is_watched());
    let text = format!(in alloc; "{asked:?}\nfile {file:?}, watched {watched}\n")?;
    Ok(ended_well(alloc, text))
}

/// What the scenario asks for, as it is written for those who look for mistakes.
fn request(alloc: Global, scenario: &str) -> Result<Ended, AllocError> {
    let request = read_scenario(alloc, scenario.as_bytes()).ok();
    Ok(ended_well(alloc, format!(in alloc; "{request:?}\n")?))
}

/// Adds what is answered to a case whose status is told to be this, where that isn't what is told.
fn add_otherwise<R: Files + Threads + Wait + Clock + Sync>(
    team: &R,
    alloc: Global,
    otherwise: &mut String,
    case: &Case,
    status: &str,
) -> Result<()> {
    let ended = case.ended(team, alloc)?;
    if case.fits(&ended, status) {
        return Ok(());
    }
    let (command, status) = (&case.command, ended.status);
    let (text, aside) = (&ended.text, &ended.aside);
    Ok(write!(otherwise, "${command}\n{text}{aside}{STATUS}{status}\n")?)
}

/// How many cases there are, and what is answered where that isn't what is told.
pub(crate) fn answers<R: Files + Threads + Wait + Clock + Sync>(
    team: &R,
    alloc: Global,
    cases: &str,
) -> Result<(usize, String)> {
    let mut case = Case::new(alloc);
    let mut otherwise = String::new(alloc);
    let mut count = 0_usize;
    for line in cases.lines() {
        if let Some(status) = line.strip_prefix(STATUS) {
            count = count.saturating_add(1);
            add_otherwise(team, alloc, &mut otherwise, &case, status)?;
        } else {
            case.read(alloc, line)?;
        }
    }
    Ok((count, otherwise))
}
