//! A seat whose wait is queued looks whether it was granted.
ghost use Rattle.std.specs.Prelude.{◌≡◌, [], ◌∷◌, MatchBool};
ghost use Rattle.step_table.specs.declared.entry.Entry.TheVariants.{Take};
ghost use Rattle.step_table.specs.declared.place.Place.TheVariants.{Rest, Acquiring};
ghost use Rattle.step_table.specs.declared.place.AcquireRow.TheVariants.{A3, A10};
ghost use Rattle.sema_table.specs.Walks.{Stands, Walked, Moves, Changed, moved_to};
ghost use Rattle.sema_table.specs.Outcomes.{MatchTried};
ghost use Rattle.sema_table.specs.Waking.{IsPolled, IsRetried, TriesWoken};
ghost use Rattle.sema_table.specs.Callers.{PollsGrant, TriesAgain, TriesOnce};

use crate::answers::{Entered, Polled, Retried, Tried};
use crate::rows::Token;
use crate::seat::{Numbers, Seat, Sleeping, Woken};
use crate::sema_table::{MOST_TRIES, SemaTable, counter_word};
use running_rows::Here;
use std::sync::Wait;
use step_table::Acquire;

impl SemaTable {
    /// Looks at the seat's grant word once, and takes what is granted. Each look writes the word: a caller
    /// that waits lets other threads run between two of them.
    pub fn poll(&self, sleeping: Sleeping) -> Polled
        requires { sleeping.table ≡ self.now }
        ensures rows { IsPolled sleeping result }
        ensures caller { PollsGrant sleeping result }
    {
        let Sleeping {
            mut token,
            numbers,
            call,
            turn,
        } = sleeping;
        let word = self.grant_word(numbers.id().number());
        // Taken in the same step: a grant that stayed would wake the seat's next wait too.
        let found = self.words.take_grant(&mut token, word);
        if found == 0 {
            return Polled::Still(Sleeping {
                token,
                numbers,
                call,
                turn,
            });
        }
        if found == 1 {
            return Polled::Woken(Woken {
                token,
                numbers,
                call,
            });
        }
        let numbers = Numbers {
            taken: numbers.taken + 1,
            ..numbers
        };
        Polled::Handed(Seat { token, numbers })
    }

    /// The try of a seat that was woken without a unit, and where it finds none, the way to the lock again,
    /// with the same counter and lifo (Go's `semacquire1` after `goparkunlock`). It may wait for that lock,
    /// and for nothing else.
    pub fn retry<R: Wait>(&self, rt: &R, woken: Woken) -> Entered
        requires { woken.table ≡ self.now }
        ensures rows { IsRetried woken result }
        ensures caller { TriesAgain woken result }
    {
        let Woken {
            mut token,
            numbers,
            call,
        } = woken;
        if self.try_again(&mut token, &call) {
            let numbers = Numbers {
                taken: numbers.taken + 1,
                ..numbers
            };
            return Entered::Taken(Seat { token, numbers });
        }
        self.enter_at_lock(rt, token, numbers, call)
    }

    /// The same up to the lock, to which it doesn't go: so it never waits.
    pub fn retry_at_once(&self, woken: Woken) -> Retried
        requires { woken.table ≡ self.now }
        ensures rows { TriesWoken woken result }
        ensures caller { TriesOnce woken result }
    {
        let Woken {
            mut token,
            numbers,
            call,
        } = woken;
        if self.try_again(&mut token, &call) {
            let numbers = Numbers {
                taken: numbers.taken + 1,
                ..numbers
            };
            return Retried::Taken(Seat { token, numbers });
        }
        Retried::Zero(Seat { token, numbers })
    }

    /// A10, and A11 where A10 read more than 0, until one of them settles it: whether a unit was taken. It
    /// ends whatever others do.
    fn try_again(&self, token: &mut Token, call: &Acquire) -> bool
        requires { Stands self.now token.old (Acquiring call.now A10) }
        ensures slots { token.new.me.1 ≡ token.old.me.1 }
        ensures settled { MatchBool result
            (Walked token.old (Acquiring call.now A10) token.new (moved_to token.old Rest)
            (Take call.now.counter token.old.me.0.own.number ∷ []) 1)
            (Moves token.old (Acquiring call.now A10) token.new (Acquiring call.now A3)) }
    {
        for _ in 0..MOST_TRIES {
            match self.try_woken(token, call) {
                Tried::Taken => return true,
                Tried::Zero => return false,
                Tried::Lost => {}
            }
        }
        unreachable!()
    }

    /// A10, and A11 where A10 read more than 0.
    #[inline]
    fn try_woken(&self, token: &mut Token, call: &Acquire) -> Tried
        requires { Stands self.now token.old (Acquiring call.now A10) }
        ensures slots { token.new.me.1 ≡ token.old.me.1 }
        ensures tried { MatchTried result
            (Walked token.old (Acquiring call.now A10) token.new (moved_to token.old Rest)
            (Take call.now.counter token.old.me.0.own.number ∷ []) 1)
            (Moves token.old (Acquiring call.now A10) token.new (Acquiring call.now A3))
            (Moves token.old (Acquiring call.now A10) token.new (Acquiring call.now A10)
            × Changed call.now.counter token.old token.new) }
    {
        let word = counter_word(call.counter.number());
        let found = self.words.load::<Here>(token, word);
        // On 0 the seat goes to the lock, and does not look again: it would miss what is told to those who
        // wait.
        if found == 0 {
            return Tried::Zero;
        }
        if self.words.exchange::<Here>(token, word, found, found - 1) != found {
            return Tried::Lost;
        }
        Tried::Taken
    }
}
