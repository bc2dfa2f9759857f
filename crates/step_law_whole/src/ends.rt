//! The laws of ends, as functions.

ghost use Rattle.step_law_whole.specs.CoreEnds.{TheCoreEnds};
ghost use Rattle.step_law_whole.specs.Endless.{NoneHasWeight};
ghost use Rattle.step_law_whole.specs.ListEnds.{TheListEnds};
ghost use Rattle.step_law_whole.specs.RunEnds.{TheRunEnds};
ghost use Rattle.step_law_whole.specs.SemaEnds.{TheSemaEnds};

/// The ends of semaphores, for any number of seats, counters and roots: each row lowers the weight of its
/// world, and a call raises it by what it costs. So rows end, and where they end each sleeper sleeps on a
/// counter at 0.
pub fn law_of_the_semaphores_ends()
    ensures { TheSemaEnds }
{}

/// The ends of one notify list, whose weight doesn't depend on how many seats there are. While its journal is
/// in reach rows end, and where they end each sleeper is in the list, its ticket neither granted nor gone,
/// unless a seat has looked at a late one.
pub fn law_of_the_lists_ends()
    ensures { TheListEnds }
{}

/// The ends of semaphores, lists and wait groups together, whatever is called: no call makes the others run
/// for ever.
pub fn law_of_the_core_ends()
    ensures { TheCoreEnds }
{}

/// The ends of a scenario's runs: no schedule has more steps than all calls cost, and each can be gone on
/// with to an end, within that bound, where each seat has ended, has failed, or sleeps on a counter at 0 or
/// with a ticket that isn't granted.
pub fn law_of_the_runs_ends()
    ensures { TheRunEnds }
{}

/// All four: of semaphores, of one list, of the whole, and of a scenario's runs.
pub fn law_of_the_ends()
    ensures semaphores { TheSemaEnds }
    ensures lists { TheListEnds }
    ensures core { TheCoreEnds }
    ensures runs { TheRunEnds }
{
    law_of_the_semaphores_ends();
    law_of_the_lists_ends();
    law_of_the_core_ends();
    law_of_the_runs_ends();
}

/// Three tables, each the step table but for one row, have no weight at all: a retry that reads 0 and looks
/// again, a try that loses for no reason, and a release that finds nobody and looks again. So no bound as
/// those above is true of them.
pub fn law_of_the_endless_tables()
    ensures { NoneHasWeight }
{}
