//! How a list is made.
ghost use Rattle.std.specs.Prelude.{◌≡◌, ℕ, ◌+◌, ◌^◌, ◌<◌, [], ◌∷◌, replicate, All, IfOk, IfErr};
ghost use Rattle.notify_list.specs.declared.view.Setting.{Setting as Made};
ghost use Rattle.notify_list.specs.declared.view.Record.{Record as Emptied};
ghost use Rattle.running_rows.specs.Rule.{fresh_seat};
ghost use Rattle.notify_list.specs.Rule.{IsRecord, nothing_guarded};
ghost use Rattle.notify_list.specs.Rows.{list_rows};
ghost use Rattle.notify_list.specs.Seats.{list_of};
ghost use Rattle.notify_list.specs.Making.{AreAllowed, IsRefused, IsMade, IsMadeWith};
ghost use Rattle.notify_list.specs.Making as making;

use crate::live::Live;
use crate::notify_list::NotifyList;
use crate::rows::Token;
use crate::seat::ListSeat;
use crate::setup_error::SetupError;
use crate::view::{Record, Setting};
use running_rows::Running;
use std::alloc::{AllocError, Global};
use waiters::{Lists, NoMemory};

/// The most seats of a list.
const MAX_SEATS: u32 = 65_536;

/// A seat that has run nothing.
fn new_seat(token: Token, number: u16) -> ListSeat
    requires own { (z : Made) × (token.me.0.own ≡ fresh_seat list_rows z number) × (number < z.seats)
        × AreAllowed z.seats }
    requires bare { token.me.1 ≡ [] }
    ensures { result ≡ making.new_seat (list_of token) number }
{
    ListSeat { token, number }
}

/// The first ticket in the wait word and in the notify word, and a 0 for each other word.
fn first_words(alloc: Global, setting: Setting) -> Result<Vec<u64>, AllocError>
    requires { AreAllowed setting.seats }
    ensures { IfOk result (λ words. words.items
        ≡ setting.first ∷ setting.first
        ∷ replicate (2 + setting.seats + setting.seats + setting.seats + setting.seats + setting.seats) 0) }
{
    let seats = setting.seats as usize;
    let all = 4 + seats + seats + seats + seats + seats;
    let mut words = Vec::with_capacity(alloc, all)?;
    words.push_reserved(setting.first);
    words.push_reserved(setting.first);
    words.resize(all, 0)?;
    Ok(words)
}

/// The one slot: a record in which nobody waits and no ticket is gone, with room for a wait of each seat.
fn first_slots(alloc: Global, setting: Setting) -> Result<Vec<Record>, NoMemory>
    requires { setting.first < 2 ^ 64 }
    ensures { IfOk result (λ slots. (y : Emptied) × (slots.items ≡ y ∷ []) × IsRecord setting y nothing_guarded) }
{
    let mut slots = Vec::with_capacity(alloc, 1)?;
    let seats = setting.seats as usize;
    let mut lists = Lists::with_seats(alloc, seats, 1, seats)?;
    let key = lists.open();
    let live = Live::with_room(alloc, setting.first, seats)?;
    slots.push_reserved(Record {
        lists,
        key,
        live,
        early: true,
    });
    Ok(slots)
}

/// A list and its seats, in the order of their numbers.
fn make(alloc: Global, setting: Setting) -> Result<(NotifyList, Vec<ListSeat>), NoMemory>
    requires { AreAllowed setting.seats × (setting.first < 2 ^ 64) }
    ensures { IfOk result (λ t. IsMadeWith setting t.0 t.1.items) }
{
    let seats = setting.seats;
    let starts = first_words(alloc, setting)?;
    let slots = first_slots(alloc, setting)?;
    let mut made = Vec::with_capacity(alloc, seats as usize)?;
    let Ok((words, mut first)) = Running::new(alloc, starts.as_slice(), slots, &setting) else {
        return Err(NoMemory);
    };
    for number in 1..seats {
        let token = words.make_seat(&mut first);
        made.push_reserved(new_seat(token, number as u16));
    }
    let Ok(()) = made.insert(0, new_seat(first, 0)) else {
        unreachable!()
    };
    let list = NotifyList {
        words,
        seats,
        first: setting.first,
    };
    Ok((list, made))
}

/// A list made so, and its seats in the order of their numbers.
pub(crate) fn make_with(
    alloc: Global,
    setting: Setting,
) -> Result<(NotifyList, Vec<ListSeat>), SetupError>
    ensures ok { IfOk result (λ t. IsMadeWith setting t.0 t.1.items) }
    ensures own { IfOk result (λ t. All (λ s. s.list ≡ t.0) t.1.items) }
    ensures err { IfErr result (λ refused. IsRefused setting.seats refused) }
{
    if setting.seats == 0 || setting.seats > MAX_SEATS {
        return Err(SetupError::Seats);
    }
    match make(alloc, setting) {
        Ok(made) => Ok(made),
        Err(NoMemory) => Err(SetupError::NoMemory),
    }
}

impl NotifyList {
    /// A list whose first ticket is this one, and its seats in the order of their numbers. An error has made
    /// nothing: there are not 1 to 65,536 seats, or no memory for them.
    pub fn starting_at(
        alloc: Global,
        first: u64,
        seats: u32,
    ) -> Result<(NotifyList, Vec<ListSeat>), SetupError>
        ensures ok { IfOk result (λ t. IsMade first seats t.0 t.1.items) }
        ensures own { IfOk result (λ t. All (λ s. s.list ≡ t.0) t.1.items) }
        ensures err { IfErr result (λ refused. IsRefused seats refused) }
    {
        make_with(
            alloc,
            Setting {
                first,
                seats,
                has_threads: true,
            },
        )
    }
}
