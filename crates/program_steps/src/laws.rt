//! The laws of lock programs, as functions.

ghost use Rattle.program_steps.specs.AlikeWorlds.{AlikeBehaveAlike};
ghost use Rattle.program_steps.specs.Counting.{NumbersGrowByOne};
ghost use Rattle.program_steps.specs.LayerLaw.{LayersAreLawful};

/// In every world of every lock program, for any number of seats up to 2^63, the semaphores and the notify
/// lists are a lawful world: the laws of the step table hold whatever words, registers and branches a program
/// has of its own.
pub fn law_of_the_layers()
    ensures { LayersAreLawful }
{}

/// In a world that so many steps have led to, no seat has queued more waits on counters than that, no list has
/// handed out more tickets or passed one that it didn't hand out, no ticket has gone, and each counter's number
/// has 32 bits.
pub fn law_of_the_numbers()
    ensures { NumbersGrowByOne }
{}

/// Worlds that differ at most in what no row of the layer looks at behave alike: the same seats can step,
/// steps of one seat lead to two such worlds, and the one is bad as the other is.
pub fn law_of_the_alike_worlds()
    ensures { AlikeBehaveAlike }
{}
