//! Sleeping until a grant.
ghost use Rattle.std.specs.Prelude.{◌≡◌, ◌<◌};
ghost use Rattle.sema_table.specs.Whole.{IsRoused, SleepsInTime};
ghost use Rattle.sema_table.specs.Callers.{PollsGrant, SleepsUntilRoused};
ghost use Rattle.sema_table.specs.Walks.{IsSame};

use crate::answers::{Polled, Roused};
use crate::rows::Token;
use crate::seat::Sleeping;
use crate::sema_table::SemaTable;
use running_rows::{GivesWay, Patience, time_left};
use std::sync::Wait;
use std::time::{Clock, Duration, Instant};

/// How often a seat looks for its grant before its thread sleeps.
const PATIENCE: Patience = Patience {
    rounds: 1,
    looks: 2_000,
    gives_way: GivesWay::Never,
};

impl SemaTable {
    /// Waits until the seat's wait is granted: looks for a while, and then sleeps (Go's `goparkunlock` and
    /// what follows it).
    pub fn sleep<R: Wait>(&self, rt: &R, sleeping: Sleeping) -> Roused
        requires { sleeping.table ≡ self.now }
        ensures rows { IsRoused sleeping result }
        ensures caller { SleepsUntilRoused sleeping result }
    {
        let mut sleeping = sleeping;
        for _ in rt.forever() {
            let Sleeping {
                mut token,
                numbers,
                call,
                turn,
            } = sleeping;
            self.await_grant(rt, &mut token, numbers.id().number(), None);
            let awake = Sleeping {
                token,
                numbers,
                call,
                turn,
            };
            match self.poll(awake) {
                Polled::Still(still) => sleeping = still,
                Polled::Woken(woken) => return Roused::Woken(woken),
                Polled::Handed(seat) => return Roused::Handed(seat),
            }
        }
        unreachable!()
    }

    /// The same until the deadline: `Still` says that nothing was granted at a look after it. A clock that
    /// can't be read ends the sleep.
    pub fn sleep_until<R: Wait + Clock>(
        &self,
        rt: &R,
        sleeping: Sleeping,
        deadline: Instant,
    ) -> Polled
        requires { sleeping.table ≡ self.now }
        ensures rows { SleepsInTime sleeping result }
        ensures caller { PollsGrant sleeping result }
    {
        let mut sleeping = sleeping;
        for _ in rt.forever() {
            let longest = time_left(rt, deadline);
            let Sleeping {
                mut token,
                numbers,
                call,
                turn,
            } = sleeping;
            self.await_grant_for(rt, &mut token, numbers.id().number(), longest);
            let awake = Sleeping {
                token,
                numbers,
                call,
                turn,
            };
            match self.poll(awake) {
                Polled::Still(still) => {
                    if longest.is_zero() {
                        return Polled::Still(still);
                    }
                    sleeping = still;
                }
                Polled::Woken(woken) => return Polled::Woken(woken),
                Polled::Handed(seat) => return Polled::Handed(seat),
            }
        }
        unreachable!()
    }

    /// Returns once something is granted to the seat or so much time is over, and perhaps before; at once
    /// where it is none.
    fn await_grant_for<R: Wait>(&self, rt: &R, token: &mut Token, seat: u16, longest: Duration)
        requires own { token.old.table_id ≡ self.now.id }
        requires there { seat < self.now.setting.seats }
        ensures { IsSame token.old token.new }
    {
        if longest.is_zero() {
            return;
        }
        self.await_grant(rt, token, seat, Some(longest));
    }

    /// Returns once something is granted to the seat, and perhaps before; where a longest time is given, once
    /// that is over too.
    #[tactic(auto, using(crate::proofs::Owned::grant_sleeps, crate::proofs::Owned::misses_aside))]
    fn await_grant<R: Wait>(&self, rt: &R, token: &mut Token, seat: u16, longest: Option<Duration>)
        requires own { token.old.table_id ≡ self.now.id }
        requires there { seat < self.now.setting.seats }
        ensures { IsSame token.old token.new }
    {
        let word = self.grant_word(seat);
        let asleep = self.asleep_word(seat);
        let misses = self.misses_word(seat);
        self.words
            .await_grant(rt, token, word, asleep, misses, &PATIENCE, longest);
    }
}
