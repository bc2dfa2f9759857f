//! A whole schedule, step after step.

ghost use Rattle.std.specs.Prelude.{◌≡◌, ◌≤◌, IfOk, IfErr, OnOk, length};
ghost use Rattle.step_table.specs.Run.{AllRun, start, reached, IsRefusedRun};
ghost use Rattle.step_law_whole.specs.Misused.{AllFairFrom, IsUnmisused};
ghost use Rattle.step_law_whole.specs.RunGrants.{EachStepGrantsLeast};
ghost use Rattle.step_law_whole.specs.RunWeight.{most_steps};
ghost use Rattle.step_core.specs.State.{run_of, ShowsLawful, RestsAtEnd};

use crate::scenario::Scenario;
use crate::world::World;
use std::alloc::Global;
use step_table::{RunRefused, StepRefused};
use waiters::SeatId;

/// Runs the seats in the order of the schedule, from the start of the scenario. The world is that of the
/// schedule, it is lawful, and where no seat can run it is at rest. Where each add to a wait group is fair,
/// no seat has failed, and each group's counter is the sum of its adds. Each step that grants tickets grants
/// the least ungranted one alone, or all that were handed out when its L5 read the wait word. The schedule
/// has no more steps than `Scenario::most_steps` tells. It is refused at its first step that can't be run,
/// want of memory for its entry among the causes; want of memory for the start is told of step 0.
pub fn run<'s>(
    alloc: Global,
    scenario: &'s Scenario,
    schedule: &[SeatId],
) -> Result<World<'s>, RunRefused>
    ensures enabled { OnOk result (AllRun scenario.now schedule.now) }
    ensures world { IfOk result
        (λ world. (world.parts ≡ scenario.now) × (run_of world ≡ reached scenario.now schedule.now)) }
    ensures lawful { IfOk result ShowsLawful }
    ensures ends { IfOk result RestsAtEnd }
    ensures unmisused { OnOk result (AllFairFrom scenario.now (start scenario.now) schedule.now
        → IsUnmisused scenario.now schedule.now) }
    ensures least { OnOk result (EachStepGrantsLeast scenario.now schedule.now) }
    ensures few { OnOk result (length schedule.now ≤ most_steps scenario.now) }
    ensures refused { IfErr result (λ refused. IsRefusedRun refused scenario.now schedule.now) }
{
    let Ok(mut world) = World::new(alloc, scenario) else {
        return Err(RunRefused {
            at: 0,
            cause: StepRefused::NoMemory,
        });
    };
    for (at, seat) in schedule.iter().enumerate() {
        if let Err(cause) = world.step(*seat) {
            return Err(RunRefused { at, cause });
        }
    }
    // what is ensured of the parts and of the journal says that they make a scenario, and that the world is
    // lawful
    let _ = scenario.parts();
    let _ = world.journal();
    Ok(world)
}
