//! The laws of the whole and of runs, as functions.

ghost use Rattle.step_law_whole.specs.RunLaw.{TheRunLaw};
ghost use Rattle.step_law_whole.specs.TheCore.{TheCoreLaw};

/// Semaphores, lists and wait groups together, and each run of a scenario: each part stays lawful, one
/// journal tells of all, and where each add to a wait group is fair no seat fails.
pub fn law_of_the_core()
    ensures { TheCoreLaw }
{}

/// Each run of a scenario, in which no ticket is ever late: what is promised of it has no premise on late
/// tickets. And each of its steps that grants tickets grants the least that is neither granted nor gone alone,
/// or all such that were handed out when its L5 read the wait word.
pub fn law_of_the_runs()
    ensures { TheRunLaw }
{}
