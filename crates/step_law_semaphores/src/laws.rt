//! The laws of the semaphores, as functions.

ghost use Rattle.step_law_semaphores.specs.Accounts.{TheAccounts};
ghost use Rattle.step_law_semaphores.specs.Law.{TheLaw};
ghost use Rattle.step_law_semaphores.specs.SemaPath.{TheSemaPaths};

/// The rows of semaphores, for any number of seats, counters and roots: one invariant holds at every start,
/// every step keeps it, and it gives the whole lawful world.
pub fn law_of_the_rows()
    ensures { TheLaw }
{}

/// The accounts: whose each entry of the journal is, what was added and taken, who may change which word, for
/// whom units were taken, and that nothing is left where all seats rest.
pub fn law_of_the_accounts()
    ensures { TheAccounts }
{}

/// The path of one seat, between whose rows others do anything: rows and looks that follow each other make a
/// path, what is seen only grows; each read of a counter follows from what was seen alone, and each lead from
/// what was read and seen.
pub fn law_of_the_paths()
    ensures { TheSemaPaths }
{}
