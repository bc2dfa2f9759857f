ghost use Rattle.std.specs.Prelude.{◌≡◌, option_map};
ghost use Rattle.explorer.specs.Asked.{file_of, answer_named, is_watched, with_schedule};

use explorer_commands::{Command, ProgramCommand, ScenarioCommand};
use journal::Demands;

/// The most worlds that a search may be asked to keep.
pub const MAX_WORLDS: u32 = 1_000_000_000;
/// The most lines of a journal of which a number is told.
pub const MAX_LINES: u32 = 1_000_000;
/// The most threads that share a search.
pub const MAX_THREADS: u16 = 64;

/// What the program's words ask for.
#[derive(Debug, Drop)]
pub enum Invocation<'w> {
    /// The command `once`.
    Once,
    /// A command that reads a text, in this file or on standard input. So many threads share its search. Where
    /// an answer is named its schedule is replayed or retraced: it stands in this file or, where that is `-`, on
    /// standard input.
    OfText {
        command: Command<'w>,
        file: Option<&'w str>,
        answer: Option<&'w str>,
        threads: u16,
    },
    /// The command `judge` of the journal in this file or on standard input, of which this is asked. Where so
    /// many lines are told, no more of them are read.
    Judge {
        file: Option<&'w str>,
        demands: Demands,
        most: Option<u32>,
    },
    /// The command `threads`: so many workers, of so many rounds each.
    Threads {
        workers: u32,
        rounds: u32,
    },
    /// Help, the version or the format: this text.
    Help(String),
    /// No command: this text says what is wrong with the words, or with the file that they name.
    Mistake(String),
    /// No command: one of the words is no text.
    NoText,
    /// Nothing is known of the words: memory was short.
    NoMemory,
}

impl<'w> Invocation<'w> {
    /// The file that the command reads in place of standard input, if it reads one.
    pub fn file(&self) -> Option<&'w str>
        ensures { option_map (λ file. file.now) result ≡ file_of self.now }
    {
        match self {
            Invocation::OfText { file, .. } | Invocation::Judge { file, .. } => *file,
            _ => None,
        }
    }

    /// The answer whose schedule is replayed or retraced, if one is named: its file, or `-` for standard input.
    pub fn answer(&self) -> Option<&'w str>
        ensures { option_map (λ answer. answer.now) result ≡ answer_named self.now }
    {
        match self {
            Invocation::OfText { answer, .. } => *answer,
            _ => None,
        }
    }

    /// Whether it is to be told how far a search has come, while it runs.
    pub fn is_watched(&self) -> bool
        ensures { result ≡ is_watched self.now }
    {
        match self {
            Invocation::OfText {
                command: Command::OnScenario(
                    ScenarioCommand::Explore { extras, .. } | ScenarioCommand::Check { extras, .. },
                ),
                ..
            } => extras.live,
            Invocation::OfText {
                command: Command::OnProgram(ProgramCommand::Try { live, .. }),
                ..
            } => *live,
            _ => false,
        }
    }

    /// The same with this schedule, which its answer has told, where `replay` or `retrace` is asked for.
    pub fn with_schedule(self, schedule: &'w str) -> Invocation<'w>
        ensures { result ≡ with_schedule self.entry schedule.entry }
    {
        match self {
            Invocation::OfText {
                command: Command::OnScenario(
                    ScenarioCommand::Replay {
                        table,
                        every,
                        drawn,
                        ..
                    },
                ),
                file,
                threads,
                ..
            } => Invocation::OfText {
                command: Command::OnScenario(ScenarioCommand::Replay {
                    schedule,
                    table,
                    every,
                    drawn,
                }),
                file,
                answer: None,
                threads,
            },
            Invocation::OfText {
                command: Command::OnProgram(ProgramCommand::Retrace { layout, .. }),
                file,
                threads,
                ..
            } => Invocation::OfText {
                command: Command::OnProgram(ProgramCommand::Retrace { schedule, layout }),
                file,
                answer: None,
                threads,
            },
            _ => self,
        }
    }
}
