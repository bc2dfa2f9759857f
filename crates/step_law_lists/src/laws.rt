//! The laws of one notify list, as functions.

ghost use Rattle.step_law_lists.specs.ListAccounts.{TheListAccounts};
ghost use Rattle.step_law_lists.specs.ListLaw.{TheListLaw};
ghost use Rattle.step_law_lists.specs.ListPath.{TheListPaths};

/// The rows of one notify list, for any number of seats, with tickets that wrap at 64 bits, while the numbers
/// handed out and passed are at most 2^63 apart and no seat leaves whose ticket was passed: one invariant holds
/// at every start, every step keeps it, and it gives the whole lawful list; and what the list's calls may
/// conclude. Each ticket is granted or goes with its seat, which left, never both.
pub fn law_of_the_lists()
    ensures { TheListLaw }
{}

/// The accounts of one notify list: whose each entry is, who may change which word, how many waits and
/// runs of gone tickets there are, whom a grant reaches, and that nothing is left where all seats rest.
pub fn law_of_the_list_accounts()
    ensures { TheListAccounts }
{}

/// The path of one seat on a notify list, between whose rows others do anything: rows and looks that follow
/// each other make a path, and what is seen only grows; each read of the wait and notify words follows from
/// what was seen alone, and each lead from what was read and seen, and for E1, O8 and L7 from some list of waits,
/// which no journal tells.
pub fn law_of_the_list_paths()
    ensures { TheListPaths }
{}
