//! How a guarded value is made, and ends.
ghost use Rattle.std.specs.Prelude.{◌≡◌, ◌<◌, ◌≤◌, [], All, IfOk, IfErr, map};
ghost use Rattle.std.specs.List.{range_with_len};
ghost use Rattle.running_rows.specs.Rule.{making};
ghost use Rattle.sync_guarded.specs.Making.{has_made, new_seat, IsMade, IsRefused};

use crate::guarded::{GuardSeat, Guarded, VALUE};
use crate::rows::GuardToken;
use running_rows::{Refused as NotLaid, Running};
use std::alloc::Global;
use sync_parts::SetupError;

/// The most seats of a guarded value.
const MAX_SEATS: u32 = 65_536;

/// Why no guarded value was made, and the value.
#[derive(Drop)]
pub struct Refused<T> {
    pub value: T,
    pub why: SetupError,
}

impl<T> Guarded<T> {
    /// The value in its slot, and the token of the seat 0. Without memory the value comes back.
    fn lay(alloc: Global, seats: u32, value: T) -> Result<(Guarded<T>, GuardToken<T>), T>
        requires { 0 < seats }
        ensures ok { IfOk result
            (λ t. (t.0.seats ≡ seats) × (t.1.table_id ≡ t.0.id) × (t.1.me ≡ (has_made seats 1, []))) }
        ensures err { IfErr result (λ v. v ≡ value) }
    {
        let mut slots = match Vec::with_capacity(alloc, 1) {
            Ok(slots) => slots,
            Err(_) => return Err(value),
        };
        slots.push_reserved(value);
        match Running::new(alloc, &[0, 0], slots, &seats) {
            Ok((words, token)) => Ok((Guarded { words }, token)),
            Err(refused) => {
                let NotLaid { mut slots } = refused;
                let Some(value) = slots.pop() else {
                    unreachable!()
                };
                slots.destroy_empty();
                Err(value)
            }
        }
    }

    /// The next seat, made by the token of the seat 0.
    fn next_seat(&self, first: &mut GuardToken<T>) -> GuardSeat<T>
        requires own { first.old.table_id ≡ self.now.id }
        requires makes { (0 < first.old.me.0.made) × (first.old.me.0.made < first.old.me.0.own.knows.seats) }
        requires same { first.old.me.0.own.knows.seats ≡ self.now.seats }
        ensures first { (first.new.table_id ≡ self.now.id)
            × (first.new.me ≡ (making first.old.me.0, first.old.me.1)) }
        ensures made { result ≡ new_seat self.now first.old.me.0.made }
    {
        let token = self.words.make_seat(first);
        GuardSeat { token }
    }

    /// The seats, in the order of their numbers, into a list that has room for them.
    fn seat_all(&self, seats: u32, first: GuardToken<T>, made: &mut Vec<GuardSeat<T>>)
        requires seats { (self.now.seats ≡ seats) × (0 < seats) }
        requires first { (first.table_id ≡ self.now.id) × (first.me ≡ (has_made seats 1, [])) }
        requires room { (made.old.items ≡ []) × (seats ≤ made.old.cap) }
        ensures { made.new.items ≡ map (new_seat self.now) (range_with_len 0 seats) }
    {
        let mut first = first;
        for _number in 1..seats {
            let seat = self.next_seat(&mut first);
            made.push_reserved(seat);
        }
        // The seat 0 makes the others, and goes before them in the end.
        let Ok(()) = made.insert(0, GuardSeat { token: first }) else {
            unreachable!()
        };
    }

    /// A value with so many seats, in the order of their numbers. An error has made nothing, and gives the
    /// value back: there are not 1 to 65,536 seats, or memory was refused.
    pub fn with_seats(
        alloc: Global,
        seats: u32,
        value: T,
    ) -> Result<(Guarded<T>, Vec<GuardSeat<T>>), Refused<T>>
        ensures ok { IfOk result (λ t. IsMade seats t.0 t.1.items) }
        ensures own { IfOk result (λ t. All (λ s. s.guarded ≡ t.0) t.1.items) }
        ensures err { IfErr result (λ r. (r.value ≡ value) × IsRefused seats r.why) }
    {
        if seats == 0 || seats > MAX_SEATS {
            let why = SetupError::Seats;
            return Err(Refused { value, why });
        }
        let why = SetupError::NoMemory;
        // Before the value is laid: it would be there already.
        let mut made = match Vec::with_capacity(alloc, seats as usize) {
            Ok(made) => made,
            Err(_) => return Err(Refused { value, why }),
        };
        let (guarded, first) = match Guarded::lay(alloc, seats, value) {
            Ok(laid) => laid,
            Err(value) => return Err(Refused { value, why }),
        };
        guarded.seat_all(seats, first, &mut made);
        Ok((guarded, made))
    }

    /// Ends the guarded value: the value, as it lies in its slot.
    pub fn into_value(self, seat: GuardSeat<T>) -> T
        requires { seat.guarded ≡ self }
    {
        let GuardSeat { token } = seat;
        let Guarded { words } = self;
        let mut closed = words.close_with(token);
        let value = closed.take(VALUE);
        closed.free();
        value
    }
}
