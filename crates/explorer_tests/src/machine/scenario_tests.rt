//! What a scenario shows of its parts.

use crate::assertion::holds;
use crate::machine::given::scenario;
use step_core::Scenario;

const TEXT: &str = "\
roots 1
counter 3
counter 4294967295
list 7
group
group
seat 0: acquire 0; release 0
seat 1: release 0
seat 2: acquire 0; release 0
settled
";

fn shows_parts(scenario: &Scenario) -> bool {
    // two groups have a semaphore each
    scenario.counters() == 2
        && scenario.semaphores() == 4
        && scenario.seats() == 3
        && scenario.starts() == [3, u32::MAX].as_slice()
        && scenario.parts().firsts.as_slice() == [7].as_slice()
}

#[test]
fn a_scenario_shows_its_parts(rt: HostRuntime) {
    let scenario = scenario(&rt, rt.alloc(), TEXT);
    holds(&rt, shows_parts(&scenario));
}

/// Each kind of call, in a turn that keeps its tickets.
const EVERY_CALL: &str = "\
counter 0
list 7
group
seat 0: acquire 0 lifo; release 0; release 0 many 256; add 0; one 0; wait 0; all 0; gadd 0 -1; gwait 0
settled
";

#[test]
fn a_seat_may_make_each_call(rt: HostRuntime) {
    let scenario = scenario(&rt, rt.alloc(), EVERY_CALL);
    holds(&rt, scenario.seats() == 1 && scenario.semaphores() == 2);
}
