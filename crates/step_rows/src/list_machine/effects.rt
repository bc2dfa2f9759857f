//! The effects of a row: what it does to the tickets, the queue and the seat's hand.

ghost use Rattle.std.specs.Prelude.{◌≡◌, ◌<◌, ◌+◌, ◌^◌, ℕ, [], length};
ghost use Rattle.step_rows.specs.ListStored.{moment_of, made, Allows, HasGoneRoom};

use super::ListMachine;
use super::gone::{Order, first_left, forget, put_in_order};
use step_table::{ListEffect, Ticket};
use waiters::{SeatId, Sought, Wait};

impl ListMachine {
    /// Makes an effect of the seat's row, which leaves this in its word.
    pub(super) fn apply_effect(&mut self, seat: SeatId, effect: &ListEffect, becomes: u64)
        requires seat { seat < length self.old.seats }
        requires allowed { Allows (moment_of self.old) seat effect.now }
        ensures { moment_of self.new ≡ made (moment_of self.old) seat effect.now becomes }
    {
        match *effect {
            ListEffect::Nothing => {}
            ListEffect::HandsOut(ticket) => self.hand_out(seat, ticket),
            ListEffect::Grants(upto) => self.pass(upto, becomes),
            ListEffect::Forgoes(wait) => self.forgo(wait, becomes),
            ListEffect::Queues(wait) => self.waits.push_back(self.queue, wait),
            ListEffect::TakesOut(ticket) => self.take_out(seat, ticket),
            ListEffect::TakesAll => self.take_all(seat),
            ListEffect::Gives => self.give(seat),
        }
    }

    /// The tickets up to there are passed, and the gone ones behind them.
    fn pass(&mut self, upto: u64, becomes: u64)
        requires { upto + length self.old.gone_numbers < 2 ^ 64 }
        ensures { (seat : ℕ) → moment_of self.new ≡ made (moment_of self.old) seat (ListEffect.Grants upto) becomes }
    {
        let passed = first_left(&self.gone_numbers, None, upto);
        forget(&mut self.gone_numbers, Order::Number, passed);
        forget(&mut self.gone, Order::Word, becomes);
        self.passed = passed;
    }

    /// The wait of the seat leaves the queue, and its ticket is gone.
    fn forgo(&mut self, wait: Wait, becomes: u64)
        requires room { HasGoneRoom (length self.old.seats) (moment_of self.old).words }
        requires fits { self.old.passed + length self.old.gone_numbers + 1 < 2 ^ 64 }
        ensures { (seat : ℕ) → moment_of self.new ≡ made (moment_of self.old) seat (ListEffect.Forgoes wait) becomes }
    {
        put_in_order(&mut self.gone_numbers, Order::Number, wait.id.turn);
        put_in_order(&mut self.gone, Order::Word, wait.ticket);
        let _ = self.waits.take(self.queue, Sought::Seat(wait.id.seat));
        let passed = self.passed;
        self.pass(passed, becomes);
    }

    /// The seat gets the ticket.
    fn hand_out(&mut self, seat: SeatId, ticket: Ticket)
        requires seat { seat < length self.old.seats }
        requires room { self.old.handed + 1 < 2 ^ 64 }
        ensures { (becomes : ℕ) → moment_of self.new ≡ made (moment_of self.old) seat (ListEffect.HandsOut ticket) becomes }
    {
        self.handed += 1;
        self.seats[seat.number() as usize].ticket = Some(ticket);
    }

    /// The first wait with this ticket goes from the queue to the end of the seat's hand.
    fn take_out(&mut self, seat: SeatId, ticket: u64)
        requires { seat < length self.old.seats }
        ensures { (becomes : ℕ) → moment_of self.new ≡ made (moment_of self.old) seat (ListEffect.TakesOut ticket) becomes }
    {
        let hand = self.seats[seat.number() as usize].hand;
        if let Some(wait) = self.waits.take_ticket(self.queue, ticket) {
            self.waits.push_back(hand, wait);
        }
    }

    /// All waits go from the queue into the seat's hand, which is empty: the two lists change places.
    fn take_all(&mut self, seat: SeatId)
        requires seat { seat < length self.old.seats }
        requires empty { ((moment_of self.old).seats seat).hand ≡ [] }
        ensures { (becomes : ℕ) → moment_of self.new ≡ made (moment_of self.old) seat ListEffect.TakesAll becomes }
    {
        let record = &mut self.seats[seat.number() as usize];
        let hand = record.hand;
        record.hand = self.queue;
        self.queue = hand;
    }

    /// The first wait leaves the seat's hand.
    fn give(&mut self, seat: SeatId)
        requires { seat < length self.old.seats }
        ensures { (becomes : ℕ) → moment_of self.new ≡ made (moment_of self.old) seat ListEffect.Gives becomes }
    {
        let hand = self.seats[seat.number() as usize].hand;
        let _ = self.waits.pop_front(hand);
    }
}
