//! Searches of a machine with alike worlds: two seats each raise a number of their own, and whose is whose
//! makes no difference.

ghost use Rattle.std.specs.Prelude.{◌≡◌, IfOk, IsTrue, ⊤};
ghost use Rattle.search.specs.Alike.{IsCount, IsReached};
ghost use Rattle.search.specs.Extent.{IsExtent};
ghost use Rattle.search.specs.FoundInAll.{IsRightInAll};
ghost use Rattle.explorer_tests.specs.Twins.{Pair, rules_of, bounded};
ghost use Rattle.explorer_tests.specs.declared.searches.twin_tests.Twins.{Twins as Both};

use crate::assertion::holds;
use crate::searches::given::write_over;
use search::{Extent, FoundInAll, Machine, Searched, search_all};
use std::alloc::Global;
use waiters::{NoMemory, SeatId};

/// The greatest number.
const TOP: u64 = 3;

/// The numbers of the two seats.
#[derive(Drop)]
struct Twins {
    first: u64,
    second: u64,
}

impl Machine for Twins {
    type Kind = u64;

    ghost World = { Pair };

    ghost world = { λ twins. (twins.first, twins.second) };

    ghost rules = { rules_of };

    ghost holds = { λ twins. ⊤ };

    fn try_clone(&self, _alloc: Global) -> Result<Twins, NoMemory> {
        Ok(Twins {
            first: self.first,
            second: self.second,
        })
    }

    fn try_clone_over(self, other: &Twins) -> Result<Twins, NoMemory> {
        Ok(Twins {
            first: other.first,
            second: other.second,
        })
    }

    fn seats(&self) -> u16 {
        2
    }

    fn enabled(&self, seat: SeatId) -> bool {
        (seat.number() == 0 && self.first < TOP) || (seat.number() == 1 && self.second < TOP)
    }

    fn commute(&self, _early: SeatId, _late: SeatId) -> bool {
        false
    }

    // Where the numbers are the same, either seat leads to the same two.
    fn tied(&self, early: SeatId, late: SeatId) -> bool {
        if early.number() != 0 || late.number() != 1 {
            return false;
        }
        self.first == self.second
    }

    fn step(&mut self, seat: SeatId) -> Result<(), NoMemory> {
        if seat.number() == 0 {
            self.first += 1;
        } else {
            self.second += 1;
        }
        Ok(())
    }

    fn key_into(&mut self, key: &mut Vec<u64>) -> Result<(), NoMemory> {
        if self.first <= self.second {
            write_over(key, &[self.first, self.second])
        } else {
            write_over(key, &[self.second, self.first])
        }
    }

    fn alike(&mut self) -> Result<u128, NoMemory> {
        Ok(if self.first == self.second { 1 } else { 2 })
    }

    fn bad(&self) -> Option<u64> {
        None
    }

    ghost seats_bound = { bounded };
}

/// Searches all ways to raise the two numbers from this one.
fn raise_all(alloc: Global, from: u64) -> Result<Searched<FoundInAll<u64>>, NoMemory>
    ensures found { IfOk result (λ told. IsRightInAll rules_of (from, from) 100 told.found) }
    ensures extent { IfOk result (λ told.
        IsExtent (λ (twins : Both). ⊤) (λ twins. (twins.first, twins.second)) rules_of (from, from) told.extent) }
    ensures counted { IfOk result (λ told. IsTrue told.extent.complete
        → IsCount (IsReached rules_of (from, from)) told.extent.counted) }
{
    let twins = Twins {
        first: from,
        second: from,
    };
    search_all(alloc, &twins, 100, &mut ())
}

// Of two numbers up to three there are 16 pairs, and 10 where it makes no difference whose is whose.
#[test]
fn counts_alike_worlds_once_and_each(rt: HostRuntime) {
    if let Ok(told) = raise_all(rt.alloc(), 0) {
        let extent = Extent {
            worlds: 10,
            counted: Some(16),
            depth: 6,
            complete: true,
        };
        holds(&rt, told.extent == extent);
        holds(
            &rt,
            told.found
                == FoundInAll::None {
                    worlds: 10,
                    deepest: 6,
                },
        );
    }
}
