//! Whom a seat wakes after a notification of all.
//!
//! A call of the kernel takes longer than all else of a grant. If who grants made one for each of many, the
//! first would run into the lock that the caller may still hold, and the last would wait for all the calls.
//! So who grants wakes the first three alone, once all are granted; and each seat, once it has its grant,
//! wakes two more, its heirs, whom two words beside its grant name.
//!
//! The heirs are named before any seat is granted. A seat that didn't sleep may have its grant before its
//! heirs have theirs: it takes their names away, then looks whether they are granted, and sleep; who grants
//! stores a grant, then looks whether its seat is still named. All four are in one order, the same for all
//! threads: either the seat finds its heir granted, or its name was taken away before the granter's look, and
//! the granter wakes the heir. So each that was granted is woken. A seat gets heirs only where its thread
//! sleeps, in a wait: if it polled, they would sleep until its caller comes to that. A wait whose time ends
//! just then was taken out of the list before, so its seat can't leave: it comes by its grant, and wakes them.
//!
//! A notification that must not wait names no heirs, and wakes each seat as it grants it.
ghost use Rattle.std.specs.Prelude.{◌≡◌, ◌<◌, List};
ghost use Rattle.step_law_lists.specs.ListPath.{ListStride};
ghost use Rattle.notify_list.specs.Seats.{list_of};
ghost use Rattle.notify_list.specs.Heirs.{IsSame, NamesHeir};
ghost use Rattle.notify_list.specs.NotifyingAll.{StoresGrants};

use crate::notify_list::{NotifyList, grant_word};
use crate::rows::Token;
use crate::seat::ListSeat;

/// How many who grants wakes itself: more would meet at the caller's lock.
const FIRST: usize = 3;

/// The word that names this seat, and 0 for nobody.
fn name_of(seat: Option<u32>) -> u64 {
    match seat {
        Some(number) => u64::from(number) + 1,
        None => 0,
    }
}

/// The seat so far behind twice this place.
fn heir(seats: &[u32], place: usize, behind: usize) -> Option<u32> {
    let at = place.checked_mul(2)?.checked_add(behind)?;
    seats.get(at).copied()
}

impl NotifyList {
    /// Names the heirs of those of these seats whose threads sleep: of the first seat the two behind the first
    /// three, and so on.
    pub(crate) fn name_heirs(&self, token: &mut Token, seats: &[u32])
        requires { list_of token.old ≡ self.now }
        ensures { IsSame token.old token.new }
    {
        for place in 0..seats.len() {
            if let Some(seat) = seats.get(place) {
                let one = heir(seats, place, FIRST);
                let other = heir(seats, place, FIRST + 1);
                self.name_both(token, *seat, one, other);
            }
        }
    }

    /// Names the heirs of a seat, where its thread sleeps.
    fn name_both(&self, token: &mut Token, seat: u32, one: Option<u32>, other: Option<u32>)
        requires { list_of token.old ≡ self.now }
        ensures { IsSame token.old token.new }
    {
        if seat < self.seats && self.words.aside(token, self.asleep_word(seat)) != 0 {
            self.name(token, self.heir_word(seat), one);
            self.name(token, self.other_heir_word(seat), other);
        }
    }

    /// Names a seat in a word, or nobody.
    fn name(&self, token: &mut Token, word: usize, heir: Option<u32>)
        requires own { list_of token.old ≡ self.now }
        requires names { NamesHeir self.now.setting word }
        ensures { IsSame token.old token.new }
    {
        let name = name_of(heir);
        if self.words.aside(token, word) != name {
            self.words.set_aside(token, word, name);
        }
    }

    /// Wakes the first of these seats, which are all granted, and those whose names are taken away.
    pub(crate) fn wake_first(&self, token: &Token, seats: &[u32])
        requires { (gone : List ListStride) × StoresGrants seats.now gone token.now.me.0.own.gone }
    {
        for place in FIRST..seats.len() {
            self.wake_unnamed(token, seats, place - FIRST);
        }
        for seat in seats.iter().take(FIRST) {
            self.wake_seat(token, *seat);
        }
    }

    /// Wakes the seat so far behind the first, unless it is still named.
    fn wake_unnamed(&self, token: &Token, seats: &[u32], behind: usize) {
        let (Some(by), Some(at)) = (seats.get(behind / 2), behind.checked_add(FIRST)) else {
            return;
        };
        if *by >= self.seats {
            return;
        }
        let word = if behind % 2 == 0 {
            self.heir_word(*by)
        } else {
            self.other_heir_word(*by)
        };
        if let Some(seat) = seats.get(at) {
            if self.words.aside(token, word) != name_of(Some(*seat)) {
                self.wake_seat(token, *seat);
            }
        }
    }

    /// Wakes the heirs of a seat that has its grant.
    pub(crate) fn wake_heirs(&self, token: &mut Token, seat: u32)
        requires own { list_of token.old ≡ self.now }
        requires there { seat < self.now.setting.seats }
        ensures { IsSame token.old token.new }
    {
        self.wake_heir(token, self.heir_word(seat));
        self.wake_heir(token, self.other_heir_word(seat));
    }

    /// The same of a seat that took its grant by a poll.
    pub(crate) fn with_heirs_awake(&self, seat: ListSeat) -> ListSeat
        requires { seat.list ≡ self.now }
        ensures { result ≡ seat }
    {
        let ListSeat { mut token, number } = seat;
        self.wake_heirs(&mut token, u32::from(number));
        ListSeat { token, number }
    }

    /// Wakes whom the word names, and names nobody there.
    fn wake_heir(&self, token: &mut Token, word: usize)
        requires own { list_of token.old ≡ self.now }
        requires names { NamesHeir self.now.setting word }
        ensures { IsSame token.old token.new }
    {
        let name = self.words.aside(token, word);
        if name != 0 {
            // First the name, then the looks at the heir's words: whoever grants it meanwhile finds it
            // unnamed.
            self.words.set_aside(token, word, 0);
            self.wake_named(token, name);
        }
    }

    fn wake_named(&self, token: &Token, name: u64) {
        if let Ok(seat) = u32::try_from(name.wrapping_sub(1)) {
            self.wake_seat(token, seat);
        }
    }

    /// Wakes a seat that was granted, where its thread sleeps.
    pub(crate) fn wake_seat(&self, token: &Token, seat: u32) {
        if seat < self.seats {
            self.words
                .wake(token, grant_word(seat), self.asleep_word(seat));
        }
    }
}
