//! The pool, those who borrow from it, and their loans.
ghost use Rattle.std.specs.Prelude.{◌≡◌, ◌≢◌, Some, IfOk, IfErr, IfSome, All};
ghost use Rattle.seat_pool.specs.Pools.{AreAllOf, IsLent};

use crate::lendable::Lendable;
use crate::loans::{Apart, Both, EachOnce, Fills, Gives, Loans, NewLoan, Takes};
use crossbeam_queue::{Pass, RuledArrayQueue};
use std::alloc::Global;
use std::marker::Model;
use std::sync::Wait;

/// The free seats in a ring. Threads share it by reference, or in an `Arc`, each with a borrower of its own.
#[derive(Drop)]
pub struct SeatPool<T: Lendable<H>, H> {
    ring: RuledArrayQueue<T, Loans<H>, EachOnce>,
}

/// Who borrows seats: used by one thread at a time. It has no bytes.
#[derive(Drop)]
pub struct Borrower<T: Lendable<H>, H> {
    pass: Pass<T, Loans<H>>,
}

/// The right to give a seat back. It has no bytes, and goes wherever the seat goes.
#[derive(Drop)]
pub struct Loan<T: Lendable<H>, H> {
    pass: Pass<T, Loans<H>>,
}

impl<T: Lendable<H>, H> Model for SeatPool<T, H> {
    ghost use Rattle.seat_pool.specs.Pools.{PoolModel};

    ghost Value = { PoolModel };

    ghost view = { λ p. record { id = p.ring.table.shared.table_id; places = p.ring.cap } };
}

impl<T: Lendable<H>, H> Model for Borrower<T, H> {
    ghost use Rattle.seat_pool.specs.Pools.{Lender, lender_of, IsBorrower};

    ghost Value = { Lender H };

    ghost view = { λ b. lender_of T.count b.pass };

    ghost invariant = { λ b. IsBorrower b.pass };
}

impl<T: Lendable<H>, H> Model for Loan<T, H> {
    ghost use Rattle.seat_pool.specs.Pools.{LoanModel, loan_of, IsLoan};

    ghost Value = { LoanModel H };

    ghost view = { λ l. loan_of T.count l.pass };

    ghost invariant = { λ l. IsLoan l.pass };
}

impl<T: Lendable<H> + Drop, H> SeatPool<T, H> {
    /// A pool of all seats of a table or a list, and who borrows from it. An error gives the seats back: there is
    /// no memory for so many places.
    pub fn new<R: Wait>(
        rt: &R,
        alloc: Global,
        seats: Vec<T>,
    ) -> Result<(SeatPool<T, H>, Borrower<T, H>), Vec<T>>
        requires { (h : H) × AreAllOf T.home T.number T.rests T.count h seats.items }
        ensures home { IfOk result (λ made. All (λ x. made.1.home ≡ Some (T.home x)) seats.items) }
        ensures pool { IfOk result (λ made. made.1.pool ≡ made.0) }
        ensures err { IfErr result (λ back. back.items ≡ seats.items) }
    {
        let Ok((ring, mut pass)) = RuledArrayQueue::ruled(alloc, seats.len()) else {
            return Err(seats);
        };
        let mut seats = seats;
        while let Some(seat) = seats.pop() {
            let Ok(()) = ring.push_as::<Fills, R>(rt, &mut pass, seat) else {
                unreachable!()
            };
        }
        Ok((SeatPool { ring }, Borrower { pass }))
    }

    /// One more who borrows.
    pub fn another(&self, borrower: &mut Borrower<T, H>) -> Borrower<T, H>
        requires { borrower.old.pool ≡ self.now }
        ensures { (result ≡ borrower.old) × (borrower.new ≡ borrower.old) }
    {
        let pass = self.ring.another::<NewLoan>(&mut borrower.pass);
        Borrower { pass }
    }

    /// A free seat, the one that was given back first; or `None`, where none was free at one moment.
    pub fn take_seat<R: Wait>(
        &self,
        rt: &R,
        borrower: &mut Borrower<T, H>,
    ) -> Option<(T, Loan<T, H>)>
        requires { borrower.old.pool ≡ self.now }
        ensures same { borrower.new ≡ borrower.old }
        ensures lent { IfSome result (λ lent. IsLent T.home T.number T.rests borrower.old lent.0 lent.1) }
    {
        let mut pass = self.ring.another::<NewLoan>(&mut borrower.pass);
        let seat = self.ring.pop_as::<Takes, R>(rt, &mut pass)?;
        Some((seat, Loan { pass }))
    }

    /// Gives a seat back, which is between two calls.
    pub fn give_seat<R: Wait>(&self, rt: &R, seat: T, loan: Loan<T, H>)
        requires pool { loan.lender.pool ≡ self.now }
        requires lent { IsLent T.home T.number T.rests loan.lender seat loan }
    {
        let Loan { mut pass } = loan;
        let Ok(()) = self.ring.push_as::<Gives, R>(rt, &mut pass, seat) else {
            unreachable!()
        };
    }

    /// Two loans are of two seats.
    pub fn are_of_two(&self, one: &mut Loan<T, H>, other: Loan<T, H>) -> Loan<T, H>
        requires { (one.old.lender.pool ≡ self.now) × (other.lender ≡ one.old.lender) }
        ensures same { (one.new ≡ one.old) × (result ≡ other) }
        ensures two { one.old.number ≢ other.number }
    {
        let Loan { pass } = other;
        self.ring.absorb::<Both>(&mut one.pass, pass);
        self.ring.learn_as::<Both>(&mut one.pass);
        let pass = self.ring.another::<Apart>(&mut one.pass);
        Loan { pass }
    }
}
