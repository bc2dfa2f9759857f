//! A wait for a group.
ghost use Rattle.std.specs.Prelude.{◌≡◌, ◌<◌, true, MatchBool, false, length};
ghost use Rattle.step_table.specs.declared.standing.GroupNext.TheVariants.{Acquires, Goes};
ghost use Rattle.step_table.specs.declared.standing.GroupRow.TheVariants.{V2};
ghost use Rattle.step_table.specs.declared.standing.Ending.TheVariants.{NextCall};
ghost use Rattle.step_table.specs.GroupBits.{IsGroupWord};
ghost use Rattle.sync_parts.specs.GroupCalls.{IsWaited};
ghost use Rattle.sync_parts.specs.GroupCallers.{WaitsForZero};
ghost use Rattle.sync_parts.specs.GroupWalks.{FindsZero, GetsCounted, Waits};

use crate::group::{GroupSeat, WaitGroup};
use crate::group_rows::StateToken;
use crate::state_word::StateWord;
use sema_table::Seat;
use std::sync::Wait;
use step_table::{GroupWord, Misuse};
use waiters::CounterId;

/// Nobody is counted, and nobody waits.
pub(crate) const EMPTY: GroupWord = GroupWord {
    counter: 0,
    waits: 0,
};

impl StateWord {
    /// V2 for the word that V1 found, and V1 again where V2 is lost, until one of them settles it: whether
    /// the wait is counted.
    pub(crate) fn count_unless_zero<R: Wait>(
        &self,
        rt: &R,
        token: &mut StateToken,
        word: GroupWord,
    ) -> bool
        requires own { token.old.table_id ≡ self.now.id }
        requires some { 0 < token.old.me.0.own.knows.seats }
        requires looked { (token.old.me.0.own.knows.next ≡ Goes (V2 NextCall word)) × IsGroupWord word }
        ensures { MatchBool result
            (GetsCounted token.old (V2 NextCall word) token.new)
            (FindsZero token.old (V2 NextCall word) token.new) }
    {
        let mut word = word;
        for _ in rt.forever() {
            // Counted by an exchange for the word that was looked at: the add that leads to 0 may have come
            // since, and would not release a wait that is counted after it.
            if self.count_wait(token, word) {
                return true;
            }
            word = self.load(token);
            if word.counter == 0 {
                return false;
            }
        }
        unreachable!()
    }
}

impl WaitGroup {
    /// Comes back where the counter is 0, and sleeps until then (Go's `WaitGroup.Wait`). `Reused` says that
    /// the group was used again before this wait had come back. The seat comes back in either case.
    #[inline]
    pub fn wait<R: Wait>(&self, rt: &R, seat: GroupSeat) -> (GroupSeat, Result<(), Misuse>)
        requires { seat.group ≡ self.now }
        ensures rows { IsWaited seat result.0 result.1 }
        ensures caller { WaitsForZero seat result.0 result.1 }
    {
        let mut seat = seat;
        let word = self.word.load(&mut seat.token);
        if word.counter == 0 {
            return (seat, Ok(()));
        }
        let GroupSeat { token, sema } = seat;
        self.finish_wait(rt, token, sema, word)
    }

    /// The rest of a wait that has found this word. What it keeps of a seat in memory is cleared and written
    /// in here, and not before each wait.
    #[inline]
    fn finish_wait<R: Wait>(
        &self,
        rt: &R,
        token: StateToken,
        sema: Seat,
        word: GroupWord,
    ) -> (GroupSeat, Result<(), Misuse>)
        requires own { (token.table_id ≡ self.now.word) × (sema.table ≡ self.now.sema) }
        requires some { 0 < token.me.0.own.knows.seats }
        requires one { token.me.0.own.number ≡ sema.number }
        requires looked { (token.me.0.own.knows.next ≡ Goes (V2 NextCall word)) × IsGroupWord word }
        ensures { Waits token sema word result.0 result.1 }
    {
        self.wait_until_zero(rt, token, sema.rebuilt(), word)
    }

    /// The same, apart: in the caller's own code it would take registers.
    #[inline(never)]
    fn wait_until_zero<R: Wait>(
        &self,
        rt: &R,
        token: StateToken,
        sema: Seat,
        word: GroupWord,
    ) -> (GroupSeat, Result<(), Misuse>)
        requires own { (token.table_id ≡ self.now.word) × (sema.table ≡ self.now.sema) }
        requires some { 0 < token.me.0.own.knows.seats }
        requires one { token.me.0.own.number ≡ sema.number }
        requires looked { (token.me.0.own.knows.next ≡ Goes (V2 NextCall word)) × IsGroupWord word }
        ensures { Waits token sema word result.0 result.1 }
    {
        let mut token = token;
        if !self.word.count_unless_zero(rt, &mut token, word) {
            return (GroupSeat { token, sema }, Ok(()));
        }
        let sema = self.sema.acquire(rt, sema, CounterId::new(0), false);
        // Looked at again: the add that released this wait had emptied the word before, so another word is
        // that of a new round.
        if self.word.load(&mut token) == EMPTY {
            return (GroupSeat { token, sema }, Ok(()));
        }
        (GroupSeat { token, sema }, Err(Misuse::Reused))
    }
}
