//! The rows that grant one ticket, under the lock.
ghost use Rattle.std.specs.Prelude.{ℕ};
ghost use Rattle.notify_list.specs.Granting.{MayGrant, MayStore, GrantedOne, GrantsLast};

use crate::notify_list::{LOCK, NOTIFY, NotifyList, grant_word};
use crate::rows::Token;
use running_rows::{Here, Kernel};

impl NotifyList {
    /// O7 and O8, and O9 where the ticket's wait is in the list: its seat, which is woken.
    pub(crate) fn grant_one<N: Kernel>(&self, token: &mut Token, ticket: u64) -> Option<u16>
        requires kernel { N.serves self.now.setting.has_threads }
        requires seat { (h : ℕ) × MayGrant self.now token.old h ticket }
        ensures rows { (h : ℕ) → MayGrant self.now token.old h ticket
            → GrantedOne token.old h ticket token.new }
        ensures wait { GrantsLast self.now ticket result token.new }
    {
        let next = self.pass(token, ticket);
        self.grant_passed::<N>(token, ticket, next)
    }

    /// The same, where the record tells that the ticket is passed and this the next one.
    fn grant_passed<N: Kernel>(&self, token: &mut Token, ticket: u64, next: u64) -> Option<u16>
        requires kernel { N.serves self.now.setting.has_threads }
        requires seat { (h : ℕ) × MayStore self.now token.old h ticket next }
        ensures rows { (h : ℕ) → MayStore self.now token.old h ticket next
            → GrantedOne token.old h ticket token.new }
        ensures wait { GrantsLast self.now ticket result token.new }
    {
        // Granted before the wait is looked for: its seat may not have come to the lock yet, and will find
        // the grant there.
        self.words.store::<Here>(token, NOTIFY, next);
        let waiter = self.remove(token, ticket);
        // Given back before the waiter is told: told earlier, it would run into the lock that is still held.
        self.words.give_lock::<N>(token, LOCK, self.sleepers_word());
        if let Some(seat) = waiter {
            let seat = u32::from(seat);
            self.words
                .grant::<N>(token, grant_word(seat), self.asleep_word(seat), 1);
        }
        waiter
    }
}
