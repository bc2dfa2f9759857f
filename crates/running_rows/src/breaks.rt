//! Breaks between two looks of one who wants a unit or a lock.
ghost use Rattle.std.specs.Prelude.{◌<◌};

use std::hint;

/// The first break is of 2 to this power pauses. In a shorter one, who has the unit gives it back and takes it
/// again a few times only, and the word goes from processor to processor for each.
pub const FIRST_BREAK: u32 = 7;
/// The last break, before one queues or sleeps, is of half as many as 2 to this power.
pub const BREAKS_END: u32 = 12;

/// A break before the next look: twice as long each time, so that those who want one unit don't keep its
/// cache line from who gives it back.
pub fn make_break(turn: u32)
    requires { turn < 12 }
{
    for _ in 0..1_u32 << turn {
        hint::spin_loop();
    }
}
