//! A command on the text of a lock program: what it replies to an input.

ghost use Rattle.std.specs.Prelude.{IfOk, string_bytes};
ghost use Rattle.explorer_commands.specs.ProgramCommands.{RepliesOnProgram, RepliesToProgram};

use crate::on_program::reading::{ReadText, Unread, read_text};
use crate::on_program::refusal::refused;
use crate::on_program::retracing::retraced;
use crate::on_program::searched::Search;
use crate::on_program::trying::tried;
use explorer_answers::{
    Answered, IoFault, MOST_READ, Reply, Sink, Source, StopWatch, read_at_most, tell_reply,
};
use program_retrace::Layout;
use program_search::Aims;
use search::Team;
use std::alloc::Global;
use std::thread::Threads;
use waiters::NoMemory;

/// A command that reads the text of a lock program.
#[derive(Clone, Copy, Debug)]
pub enum ProgramCommand<'w> {
    /// Searches all schedules, among so many worlds at most; where nothing is bad, for what is asked.
    Try {
        worlds: u32,
        aims: Aims,
        /// How the schedule that is found is told.
        layout: Layout,
        /// Beside the answer it is told how far the search came, and how long it took.
        counted: bool,
        /// While it runs it is told how far it has come: for who watches to see to.
        live: bool,
    },
    /// Tells in this layout what the schedule with this text does.
    Retrace {
        schedule: &'w str,
        layout: Layout,
    },
}

impl ProgramCommand<'_> {
    /// What the command replies to a lock program.
    ///
    /// It is an `Err` where memory is short.
    fn reply_to<T: Threads + Sync, V: StopWatch>(
        &self,
        team: &Team<T>,
        alloc: Global,
        read: &ReadText<'_>,
        watch: &mut V,
    ) -> Result<Reply, NoMemory>
        ensures { IfOk result (λ reply.
            RepliesToProgram self.now read.now.names read.now.program (string_bytes reply.answer.text) reply.answer.exit) }
    {
        match *self {
            ProgramCommand::Try {
                worlds,
                aims,
                layout,
                counted,
                ..
            } => {
                let search = Search {
                    worlds,
                    aims,
                    layout,
                    counted,
                };
                tried(team, alloc, read, search, watch)
            }
            ProgramCommand::Retrace { schedule, layout } => retraced(alloc, read, schedule, layout),
        }
    }

    /// What the command replies to an input.
    ///
    /// It is an `Err` where memory is short.
    pub(crate) fn reply<T: Threads + Sync, V: StopWatch>(
        &self,
        team: &Team<T>,
        alloc: Global,
        input: &[u8],
        watch: &mut V,
    ) -> Result<Reply, NoMemory>
        ensures { IfOk result (λ reply.
            RepliesOnProgram self.now input.now (string_bytes reply.answer.text) reply.answer.exit) }
    {
        match read_text(alloc, input) {
            Ok(read) => self.reply_to(team, alloc, &read, watch),
            Err(Unread::Refused(refusal)) => refused(alloc, input, refusal),
            Err(Unread::NoMemory) => Err(NoMemory),
        }
    }
}
