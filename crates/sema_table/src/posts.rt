//! A release up to its look for a wait.
ghost use Rattle.std.specs.Prelude.{◌≡◌, ◌<◌, length, MatchResult, Ok};
ghost use Rattle.sema_table.specs.declared.answers.Posted.TheVariants.{Done, Owes};
ghost use Rattle.sema_table.specs.Seats.{IsSeat, IsOwing, table_of, seat_of};
ghost use Rattle.sema_table.specs.Tries.{IsPosted};
ghost use Rattle.sema_table.specs.CallersReleasing.{PostsUnit};
ghost use Rattle.sema_table.specs.Tasks.{MatchPosted};

use crate::answers::{PostRefused, Posted};
use crate::rows::{AtAdd, Token};
use crate::seat::{Numbers, Owing, Seat};
use crate::sema_table::{SemaTable, counter_word};
use crate::task_answers::TaskPosted;
use running_rows::Here;
use waiters::CounterId;

impl SemaTable {
    /// Adds a unit, and looks whether somebody waits at the counter's root (Go's `semrelease1` up to its
    /// `nwait`). The seat comes back with nothing changed exactly where it may add no more.
    #[inline]
    pub fn post(&self, seat: Seat, counter: CounterId) -> Result<Posted, (Seat, PostRefused)>
        requires { (seat.table ≡ self.now) × (counter < length self.now.setting.starts) }
        ensures rows { MatchResult result
            (λ posted. (0 < seat.left) × IsPosted seat counter posted)
            (λ refused. (seat.left ≡ 0) × (refused.0 ≡ seat)) }
        ensures caller { PostsUnit seat counter result }
    {
        if seat.numbers.left == 0 {
            return Err((seat, PostRefused::LimitReached));
        }
        let Seat {
            mut token,
            mut numbers,
        } = seat;
        match self.post_in_place(&mut token, &mut numbers, counter) {
            TaskPosted::Done => Ok(Posted::Done(Seat { token, numbers })),
            TaskPosted::Owes => Ok(Posted::Owes(Owing {
                token,
                numbers,
                counter,
            })),
        }
    }

    /// The same of the parts of a seat, which may add a unit.
    #[inline]
    pub(crate) fn post_in_place(
        &self,
        token: &mut Token,
        numbers: &mut Numbers,
        counter: CounterId,
    ) -> TaskPosted
        requires seat { IsSeat token.old numbers.old × (table_of token.old ≡ self.now) }
        requires counter { counter < length self.now.setting.starts }
        requires some { 0 < numbers.old.left }
        ensures seat { MatchPosted result (IsSeat token.new numbers.new)
            (IsOwing token.new numbers.new counter) }
        ensures rows { MatchPosted result
            (IsPosted (seat_of token.old numbers.old) counter (Done (seat_of token.new numbers.new)))
            (IsPosted (seat_of token.old numbers.old) counter (Owes (seat_of token.new numbers.new))) }
        ensures caller { MatchPosted result
            (PostsUnit (seat_of token.old numbers.old) counter (Ok (Done (seat_of token.new numbers.new))))
            (PostsUnit (seat_of token.old numbers.old) counter (Ok (Owes (seat_of token.new numbers.new)))) }
    {
        // Added before the look: a look that came first could read 0 while an acquire is about to read 0 and
        // sleep.
        self.words
            .add::<AtAdd>(token, counter_word(counter.number()), 1);
        numbers.left -= 1;
        let word = self.waiter_word(counter);
        if self.words.load::<Here>(token, word) == 0 {
            return TaskPosted::Done;
        }
        TaskPosted::Owes
    }
}
