//! A wait for a group with a time-out.
ghost use Rattle.std.specs.Prelude.{◌≡◌, ◌<◌, MatchBool};
ghost use Rattle.step_table.specs.declared.standing.GroupNext.TheVariants.{Acquires};
ghost use Rattle.step_table.specs.declared.standing.Ending.TheVariants.{NextCall};
ghost use Rattle.sema_table.specs.Seats.{SeatModel};
ghost use Rattle.sync_parts.specs.GroupPlays.{Token};
ghost use Rattle.sync_parts.specs.GroupCalls.{IsWaitedInTime};
ghost use Rattle.sync_parts.specs.GroupCallers.{WaitsForZeroInTime};
ghost use Rattle.sync_parts.specs.GroupWalks.{GetsUncounted, StaysCounted, IsToLookLast, IsToTakeBack};
ghost use Rattle.sync_parts.specs.GroupWalks.{WaitsInTime};

use crate::group::{GroupSeat, WaitGroup};
use crate::group_rows::StateToken;
use crate::group_waits::EMPTY;
use crate::state_word::StateWord;
use sema_table::{Leaver, Seat};
use std::sync::Wait;
use std::time::{Clock, Duration, Instant};
use step_table::Misuse;
use waiters::CounterId;

impl StateWord {
    /// V4, and V5 for the word that it found, until one of them settles it: whether the wait is counted no more.
    /// The lock that the seat holds is what keeps a unit from reaching the wait in between.
    fn uncount_unless_zero<R: Wait>(
        &self,
        rt: &R,
        token: &mut StateToken,
        _giving_up: &Leaver,
    ) -> bool
        requires own { token.old.table_id ≡ self.now.id }
        requires some { 0 < token.old.me.0.own.knows.seats }
        requires counted { token.old.me.0.own.knows.next ≡ Acquires NextCall }
        ensures { MatchBool result (GetsUncounted token.old token.new) (StaysCounted token.old token.new) }
    {
        for _ in rt.forever() {
            let word = self.load_to_leave(token);
            // At 0 the add that led there releases each wait that is counted, and nobody may change the word.
            if word.counter == 0 || word.waits == 0 {
                return false;
            }
            if self.uncount_wait(token, word) {
                return true;
            }
        }
        unreachable!()
    }
}

impl WaitGroup {
    /// As `wait`, until the deadline: whether the counter was 0. Where it isn't, the wait is counted no more. A
    /// clock that can't be read ends the wait.
    pub fn wait_until<R: Wait + Clock>(
        &self,
        rt: &R,
        seat: GroupSeat,
        deadline: Instant,
    ) -> (GroupSeat, Result<bool, Misuse>)
        requires own { seat.group ≡ self.now }
        requires left { 0 < seat.sema.left }
        ensures rows { IsWaitedInTime seat result.0 result.1 }
        ensures caller { WaitsForZeroInTime seat result.0 result.1 }
    {
        let mut seat = seat;
        let word = self.word.load(&mut seat.token);
        if word.counter == 0 {
            return (seat, Ok(true));
        }
        let GroupSeat { mut token, sema } = seat;
        if !self.word.count_unless_zero(rt, &mut token, word) {
            return (GroupSeat { token, sema }, Ok(true));
        }
        match self
            .sema
            .acquire_or_begin_leave(rt, sema, CounterId::new(0), false, deadline)
        {
            Ok(sema) => self.look_last(token, sema),
            Err(giving_up) => self.take_wait_back(rt, token, giving_up),
        }
    }

    /// V3, for a wait that was counted and has a unit.
    fn look_last(&self, token: StateToken, sema: Seat) -> (GroupSeat, Result<bool, Misuse>)
        requires own { (token.table_id ≡ self.now.word) × (sema.table ≡ self.now.sema) }
        requires some { 0 < token.me.0.own.knows.seats }
        requires last { (s : Token) × (a : SeatModel) × IsToLookLast s a token sema }
        ensures { (s : Token) (a : SeatModel) → IsToLookLast s a token sema → WaitsInTime s a result.0 result.1 }
    {
        let mut token = token;
        if self.word.load(&mut token) == EMPTY {
            return (GroupSeat { token, sema }, Ok(true));
        }
        (GroupSeat { token, sema }, Err(Misuse::Reused))
    }

    /// A seat that gives up, with the lock: its wait is counted no more, and leaves; or its release is on the way.
    #[inline(never)]
    fn take_wait_back<R: Wait>(
        &self,
        rt: &R,
        token: StateToken,
        giving_up: Leaver,
    ) -> (GroupSeat, Result<bool, Misuse>)
        requires own { (token.table_id ≡ self.now.word) × (giving_up.table ≡ self.now.sema) }
        requires some { 0 < token.me.0.own.knows.seats }
        requires late { (s : Token) × (a : SeatModel) × IsToTakeBack s a token giving_up }
        ensures { (s : Token) (a : SeatModel) → IsToTakeBack s a token giving_up
            → WaitsInTime s a result.0 result.1 }
    {
        let mut token = token;
        if self.word.uncount_unless_zero(rt, &mut token, &giving_up) {
            let sema = self.sema.end_leave(giving_up);
            return (GroupSeat { token, sema }, Ok(false));
        }
        let sema = self.sema.stay_until_taken(rt, giving_up);
        self.look_last(token, sema)
    }
}
