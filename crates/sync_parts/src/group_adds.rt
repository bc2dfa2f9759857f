//! What adds to a group, and takes off it.
ghost use Rattle.std.specs.Prelude.{◌≡◌, ◌<◌, ◌≤◌, ◌-◌, ◌^◌, negsuc, true, if◌then◌else◌, false, MatchResult};
ghost use Rattle.step_table.specs.declared.standing.GroupNext.TheVariants.{Ends, Fails, Goes, Releases};
ghost use Rattle.step_table.specs.declared.standing.GroupRow.TheVariants.{G2};
ghost use Rattle.step_table.specs.Group.{after_add};
ghost use Rattle.sema_table.specs.declared.answers.Wake.{Wake};
ghost use Rattle.sema_table.specs.Whole.{IsReleased};
ghost use Rattle.sync_parts.specs.GroupCalls.{HasReleased, IsAdded};
ghost use Rattle.sync_parts.specs.GroupCallers.{AddsToGroup};
ghost use Rattle.sync_parts.specs.GroupWalks.{Settles};

use crate::group::{GroupSeat, WaitGroup};
use crate::group_rows::StateToken;
use sema_table::Seat;
use std::sync::Wait;
use step_table::{GroupWord, Misuse};
use waiters::CounterId;

/// What an add of `d` came to that left this word: a misuse, or whether there are waits to release.
#[inline]
fn after_add(d: i32, left: GroupWord) -> Result<bool, Misuse>
    ensures { MatchResult result
        (λ wakes. after_add d left ≡ (if wakes then Goes (G2 left) else Ends))
        (λ misuse. after_add d left ≡ Fails misuse) }
{
    if left.counter < 0 {
        return Err(Misuse::Negative);
    }
    if left.waits != 0 && 0 < d && left.counter == d {
        return Err(Misuse::AddWithWait);
    }
    if 0 < left.counter || left.waits == 0 {
        return Ok(false);
    }
    Ok(true)
}

/// Whether nobody waits and the counter isn't below 0, so that there is nothing more to do.
#[inline]
fn is_quiet(left: GroupWord) -> bool
    ensures { result ≡ true → (d : _) → after_add d left ≡ Ends }
{
    left.waits == 0 && 0 <= left.counter
}

impl WaitGroup {
    /// Adds `d`, which may be below 0, and where that leads to 0 releases each wait: how many (Go's
    /// `WaitGroup.Add`). `Negative` says that it led below 0, `AddWithWait` that it ran beside a wait. The
    /// seat comes back in either case.
    #[inline]
    pub fn add<R: Wait>(&self, rt: &R, seat: GroupSeat, d: i32) -> (GroupSeat, Result<u32, Misuse>)
        requires own { seat.group ≡ self.now }
        requires left { 2 ^ 32 - 1 ≤ seat.sema.left }
        ensures rows { IsAdded seat d result.0 result.1 }
        ensures caller { AddsToGroup seat d result.0 result.1 }
    {
        let mut seat = seat;
        let word = self.word.add(&mut seat.token, d);
        if is_quiet(word) {
            return (seat, Ok(0));
        }
        let GroupSeat { token, sema } = seat;
        self.finish_add(rt, token, sema, d, word)
    }

    /// The rest of an add that has left this word. What it keeps of a seat in memory is cleared and written
    /// in here, and not before each add.
    #[inline]
    fn finish_add<R: Wait>(
        &self,
        rt: &R,
        token: StateToken,
        sema: Seat,
        d: i32,
        word: GroupWord,
    ) -> (GroupSeat, Result<u32, Misuse>)
        requires own { (token.table_id ≡ self.now.word) × (sema.table ≡ self.now.sema) }
        requires some { 0 < token.me.0.own.knows.seats }
        requires one { token.me.0.own.number ≡ sema.number }
        requires leads { token.me.0.own.knows.next ≡ after_add d word }
        requires left { word.waits ≤ sema.left }
        ensures { Settles token sema d word result.0 result.1 }
    {
        self.settle(rt, token, sema.rebuilt(), d, word)
    }

    /// The same, apart: in the caller's own code it would take registers.
    #[inline(never)]
    fn settle<R: Wait>(
        &self,
        rt: &R,
        token: StateToken,
        sema: Seat,
        d: i32,
        word: GroupWord,
    ) -> (GroupSeat, Result<u32, Misuse>)
        requires own { (token.table_id ≡ self.now.word) × (sema.table ≡ self.now.sema) }
        requires some { 0 < token.me.0.own.knows.seats }
        requires one { token.me.0.own.number ≡ sema.number }
        requires leads { token.me.0.own.knows.next ≡ after_add d word }
        requires left { word.waits ≤ sema.left }
        ensures { Settles token sema d word result.0 result.1 }
    {
        let mut token = token;
        match after_add(d, word) {
            Err(misuse) => return (GroupSeat { token, sema }, Err(misuse)),
            Ok(false) => return (GroupSeat { token, sema }, Ok(0)),
            Ok(true) => {}
        }
        // Looked at again: an add or a wait that came since has begun a round beside waits that haven't come
        // back.
        if self.word.load(&mut token) != word {
            return (GroupSeat { token, sema }, Err(Misuse::AddWithWait));
        }
        self.word.empty(&mut token, word);
        let sema = self.release_waits(rt, &token, sema, word.waits);
        (GroupSeat { token, sema }, Ok(word.waits))
    }

    /// Takes 1 off, and where that leads to 0 releases each wait (Go's `WaitGroup.Done`).
    #[inline]
    pub fn done<R: Wait>(&self, rt: &R, seat: GroupSeat) -> (GroupSeat, Result<u32, Misuse>)
        requires own { seat.group ≡ self.now }
        requires left { 2 ^ 32 - 1 ≤ seat.sema.left }
        ensures rows { IsAdded seat (negsuc 0) result.0 result.1 }
        ensures caller { AddsToGroup seat (negsuc 0) result.0 result.1 }
    {
        self.add(rt, seat, -1)
    }

    /// Releases so many waits. The word was emptied before: a wait that was released earlier would find the
    /// old word, and take it for that of a new round.
    #[inline(never)]
    fn release_waits<R: Wait>(&self, rt: &R, _emptied: &StateToken, sema: Seat, waits: u32) -> Seat
        requires emptied { _emptied.now.me.0.own.knows.next ≡ Releases waits }
        requires own { sema.table ≡ self.now.sema }
        requires left { waits ≤ sema.left }
        ensures { HasReleased waits sema result }
    {
        let mut sema = sema;
        for _wait in 0..waits {
            sema = self.release_one(rt, sema);
        }
        sema
    }

    /// Releases one wait.
    fn release_one<R: Wait>(&self, rt: &R, sema: Seat) -> Seat
        requires own { sema.table ≡ self.now.sema }
        requires left { 0 < sema.left }
        ensures { (wake : Wake) × IsReleased sema 0 false result wake }
    {
        match self.sema.release(rt, sema, CounterId::new(0), false) {
            Ok((sema, _)) => sema,
            Err(_) => unreachable!(),
        }
    }
}
