ghost use Rattle.std.specs.Prelude.{◌≡◌, Option};

use crate::invocation::Invocation;

/// The most columns of characters to which a table may be cut.
pub const MAX_COLUMNS: u32 = 9999;

/// What the program's words say: what they ask for, and how it is to be told.
#[derive(Debug, Drop)]
pub struct CommandLine<'w> {
    /// What is asked for.
    pub asked: Invocation<'w>,
    /// Of a table no more columns are told than fit into so many characters, where that is said.
    pub columns: Option<u16>,
    /// How many worlds the search may keep, where that is said.
    pub worlds: Option<u32>,
}

impl<'w> CommandLine<'w> {
    /// This is asked for, and nothing said of how it is to be told.
    pub(crate) fn plain(asked: Invocation<'w>) -> CommandLine<'w>
        ensures asked { result.asked ≡ asked.entry }
        ensures columns { result.columns ≡ Option.None }
    {
        CommandLine {
            asked,
            columns: None,
            worlds: None,
        }
    }
}
