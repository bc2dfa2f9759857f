//! The record of a root, edited in its slot by the seat that holds the root's lock.
ghost use Rattle.std.specs.Prelude.{◌≡◌, ◌<◌, drop, length, [], ◌∷◌, IfSome, IfNone, MatchBool};
ghost use Rattle.step_table.specs.World.{put, insert_wait, stands_in, without};
ghost use Rattle.sema_table.specs.Seats.{table_of};
ghost use Rattle.sema_table.specs.Walks.{HasRecord, HasRoom, Edited, lists_of};

use crate::rows::Token;
use crate::sema_table::SemaTable;
use crate::view::Record;
use running_rows::Running;
use sema_root::RootStore;
use step_table::Acquire;
use waiters::{CounterId, SeatId, Wait, WaitId};

impl SemaTable {
    /// Puts a wait into the list of the call's counter, at the end that the call asks for.
    pub(crate) fn insert(&self, token: &mut Token, call: &Acquire, wait: Wait)
        requires seat { (table_of token.old ≡ self.now) × HasRecord token.old call.now.counter
            × HasRoom token.old call.now.counter }
        requires call { call.now.counter < length self.now.setting.starts }
        ensures { let c = call.now.counter in let lists = lists_of token.old in
            Edited token.old c (put lists c (insert_wait call.now.lifo wait.id (lists c))) token.new }
    {
        let slot = self.root_of(call.counter);
        let Record::Root(root) = Running::record_mut(token, &self.words, slot) else {
            unreachable!()
        };
        root.queue(call.counter, wait, call.lifo);
    }

    /// Takes the first wait out of the list of a counter.
    pub(crate) fn remove_first(&self, token: &mut Token, counter: CounterId) -> Option<WaitId>
        requires { (table_of token.old ≡ self.now) × HasRecord token.old counter
            × (counter < length self.now.setting.starts) }
        ensures some { let lists = lists_of token.old in IfSome result (λ w.
            (lists counter ≡ w ∷ drop 1 (lists counter))
            × Edited token.old counter (put lists counter (drop 1 (lists counter))) token.new) }
        ensures none { IfNone result
            ((lists_of token.old counter ≡ []) × Edited token.old counter (lists_of token.old) token.new) }
    {
        let slot = self.root_of(counter);
        let Record::Root(root) = Running::record_mut(token, &self.words, slot) else {
            unreachable!()
        };
        let first = root.dequeue(counter)?;
        Some(first.id)
    }

    /// Takes the wait of a seat out of the list of a counter, wherever it stands there: whether it was in.
    pub(crate) fn remove_own(&self, token: &mut Token, counter: CounterId, seat: SeatId) -> bool
        requires { (table_of token.old ≡ self.now) × HasRecord token.old counter
            × (counter < length self.now.setting.starts) }
        ensures found { result ≡ stands_in seat (lists_of token.old counter) }
        ensures removed { let lists = lists_of token.old in MatchBool result
            (Edited token.old counter (put lists counter (without seat (lists counter))) token.new)
            (Edited token.old counter lists token.new) }
    {
        let slot = self.root_of(counter);
        let Record::Root(root) = Running::record_mut(token, &self.words, slot) else {
            unreachable!()
        };
        root.withdraw_seat(counter, seat).is_some()
    }

    /// Whether the wait of a seat is in the list of a counter.
    pub(crate) fn holds_own(&self, token: &mut Token, counter: CounterId, seat: SeatId) -> bool
        requires { (table_of token.old ≡ self.now) × HasRecord token.old counter
            × (counter < length self.now.setting.starts) }
        ensures found { result ≡ stands_in seat (lists_of token.old counter) }
        ensures same { (token.new.table_id ≡ token.old.table_id) × (token.new.me.0 ≡ token.old.me.0) }
        ensures has_record { HasRecord token.new counter }
    {
        let slot = self.root_of(counter);
        let Record::Root(root) = Running::record_mut(token, &self.words, slot) else {
            unreachable!()
        };
        root.holds(counter, seat)
    }
}
