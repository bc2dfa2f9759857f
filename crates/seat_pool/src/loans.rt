//! What each who shares a pool has borrowed, and the pool's rule: each seat is free, or lent once.

use crate::lendable::Lendable;
use crossbeam_queue::protocol::{Join, Lesson, Outcome, Protocol, Split};
use std::collections::LinkedList;

/// What a pass of the pool's queue knows. No value of it is made.
pub enum Loans<H> {
    /// No seat was put in yet: it is the only pass.
    Unfilled,
    /// The seats are of this, and those of these numbers are lent to it.
    Lent(H, LinkedList<u64>),
    /// What it knew went to another.
    Joined,
}

/// The rule: each seat is free, or lent once.
pub struct EachOnce;

impl<H, T: Lendable<H>> Protocol<T, Loans<H>> for EachOnce {
    ghost use Rattle.seat_pool.specs.declared.loans.Loans.TheVariants.{Unfilled};
    ghost use Rattle.seat_pool.specs.Rule.{AreEachOnce};

    ghost holds = { AreEachOnce T.home T.number T.rests T.count };

    ghost first = { Unfilled };
}

/// A seat is put in. Those below it are yet to come: until then they are lent to who puts them in.
pub struct Fills;

impl<H, T: Lendable<H>> Outcome<T, Loans<H>> for Fills {
    ghost use Rattle.std.specs.Prelude.{◌≡◌};
    ghost use Rattle.seat_pool.specs.declared.loans.Loans.TheVariants.{Lent};
    ghost use Rattle.seat_pool.specs.Rule.{numbers_below};

    ghost then = { λ v x w. w ≡ Lent (T.home x) (numbers_below (T.number x)) };
}

impl<H, T: Lendable<H>> Lesson<T, Loans<H>> for Fills {
    ghost use Rattle.seat_pool.specs.Rule.{HasRoom};

    ghost fact = { λ v items. HasRoom T.count v items };
}

/// A seat is lent.
pub struct Takes;

impl<H, T: Lendable<H>> Outcome<T, Loans<H>> for Takes {
    ghost use Rattle.seat_pool.specs.Rule.{HasTaken};

    ghost then = { HasTaken T.home T.number T.rests };
}

impl<H, T: Lendable<H>> Lesson<T, Loans<H>> for Takes {
    ghost use Rattle.seat_pool.specs.Rule.{HasRoom};

    ghost fact = { λ v items. HasRoom T.count v items };
}

/// A seat comes back.
pub struct Gives;

impl<H, T: Lendable<H>> Outcome<T, Loans<H>> for Gives {
    ghost use Rattle.std.specs.Prelude.{◌≡◌, []};
    ghost use Rattle.seat_pool.specs.declared.loans.Loans.TheVariants.{Lent};

    ghost then = { λ v x w. w ≡ Lent (T.home x) [] };
}

impl<H, T: Lendable<H>> Lesson<T, Loans<H>> for Gives {
    ghost use Rattle.seat_pool.specs.Rule.{HasRoom};

    ghost fact = { λ v items. HasRoom T.count v items };
}

/// A pass that knows what the seats are of, and to which none is lent.
pub struct NewLoan;

impl<H> Split<Loans<H>> for NewLoan {
    ghost use Rattle.seat_pool.specs.Rule.{without_loans};

    ghost left = { λ v. v };

    ghost right = { without_loans };
}

/// Two loans as one.
pub struct Both;

impl<H> Join<Loans<H>> for Both {
    ghost use Rattle.seat_pool.specs.declared.loans.Loans.TheVariants.{Joined};
    ghost use Rattle.seat_pool.specs.Rule.{together};

    ghost both = { together };

    ghost spent = { Joined };
}

/// And as two again.
pub struct Apart;

impl<H> Split<Loans<H>> for Apart {
    ghost use Rattle.seat_pool.specs.Rule.{first_loan, other_loans};

    ghost left = { first_loan };

    ghost right = { other_loans };
}

/// That they are of different seats.
impl<H, T: Lendable<H>> Lesson<T, Loans<H>> for Both {
    ghost use Rattle.seat_pool.specs.Rule.{AreApart};

    ghost fact = { λ v items. AreApart v };
}
