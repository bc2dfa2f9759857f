//! The law of `explore` and `replay`, as a function.

ghost use Rattle.explorer_commands.specs.Replays.{CommandsAgree};

/// What `explore` finds to be bad by the step table, `replay` of that schedule tells to be bad in the same
/// way. It does so of the same input, with the seats as `explore` has told them.
pub fn law_of_the_replays()
    ensures { CommandsAgree }
{}
