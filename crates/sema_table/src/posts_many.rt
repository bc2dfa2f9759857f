//! A release of many units up to its look for waits.
ghost use Rattle.std.specs.Prelude.{◌≡◌, ◌<◌, ◌≤◌, length, MatchResult};
ghost use Rattle.sema_table.specs.Many.{release_of, IsPostedMany};
ghost use Rattle.sema_table.specs.CallersReleasing.{PostsUnits};

use crate::answers::PostRefused;
use crate::many_seat::{OwingMany, PostedMany};
use crate::rows::AtAddMany;
use crate::seat::{Numbers, Seat};
use crate::sema_table::{SemaTable, counter_word};
use running_rows::Here;
use step_table::ReleaseMany;
use waiters::CounterId;

impl SemaTable {
    /// Adds many units by one step, and looks whether somebody waits at the counter's root. The seat comes
    /// back with nothing changed exactly where it may not add so many.
    #[inline]
    pub fn post_many(
        &self,
        seat: Seat,
        counter: CounterId,
        units: u32,
    ) -> Result<PostedMany, (Seat, PostRefused)>
        requires seat { (seat.table ≡ self.now) × (counter < length self.now.setting.starts) }
        requires units { (1 ≤ units) × (units ≤ 256) }
        ensures rows { MatchResult result
            (λ posted. (units ≤ seat.left) × IsPostedMany seat (release_of counter units) posted)
            (λ refused. (seat.left < units) × (refused.0 ≡ seat)) }
        ensures caller { PostsUnits seat counter units result }
    {
        let added = u64::from(units);
        if seat.numbers.left < added {
            return Err((seat, PostRefused::LimitReached));
        }
        let Seat { mut token, numbers } = seat;
        // By one add: by many, others would see only some of the units in between.
        self.words
            .add::<AtAddMany>(&mut token, counter_word(counter.number()), added);
        let numbers = Numbers {
            left: numbers.left - added,
            ..numbers
        };
        let word = self.waiter_word(counter);
        if self.words.load::<Here>(&mut token, word) == 0 {
            return Ok(PostedMany::Done(Seat { token, numbers }));
        }
        let call = ReleaseMany { counter, units };
        Ok(PostedMany::Owes(OwingMany {
            token,
            numbers,
            call,
        }))
    }
}
