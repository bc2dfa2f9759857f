//! What the calls answer, by number: each number means one thing, whichever call answers it.

/// It was done as asked, and there is nothing more to say.
pub const OK: u32 = 0;
/// A unit was taken.
pub const TAKEN: u32 = 1;
/// There was no unit.
pub const ZERO: u32 = 2;
/// There was a unit, and another changed the counter between the look and the exchange.
pub const LOST: u32 = 3;
/// The units were added, or the waits woken, and nothing is left to do.
pub const DONE: u32 = 4;
/// The units were added, and the seat has yet to look whom to wake.
pub const OWES: u32 = 5;
/// The seat's wait is queued, and nothing was granted.
pub const ASLEEP: u32 = 6;
/// The seat was woken without a unit, and has to try.
pub const WOKEN: u32 = 7;
/// Nobody waited.
pub const NOBODY: u32 = 8;
/// The first wait was taken out, and its seat woken.
pub const ONE: u32 = 9;
/// A unit was taken for the seat that was woken.
pub const HANDED: u32 = 10;
/// Of a list: the ticket was granted before its wait.
pub const AT_ONCE: u32 = 11;
/// Of a list: the seat's wait is queued.
pub const PARKED: u32 = 12;
/// Of a list: a ticket was granted whose wait isn't queued, so that nobody is woken.
pub const GRANTED: u32 = 13;
/// The seat gave up: its wait was taken out, and it rests.
pub const LEFT: u32 = 14;
/// The seat gave up where a release has its wait: its grant is on the way, and it sleeps on.
pub const COMING: u32 = 15;

/// The handle has no seat.
pub const NO_SEAT: u32 = 100;
/// The seat stands where another call is the next.
pub const OTHER_CALL: u32 = 101;
/// The table has no such counter.
pub const NO_COUNTER: u32 = 102;
/// The lock stayed held, of the counter's root or of the list.
pub const BUSY: u32 = 103;
/// The seat may not add so many units more.
pub const LIMIT: u32 = 104;
/// A handle has a seat already.
pub const FULL: u32 = 105;
/// Not 1 to 256 units.
pub const UNITS: u32 = 106;
/// There is no room for the numbers of all seats that may be woken.
pub const ROOM: u32 = 107;
/// Not 1 to 65,536 counters.
pub const COUNTERS: u32 = 110;
/// Not 1 to 65,536 seats.
pub const SEATS: u32 = 111;
/// Not 1 to 251 roots.
pub const ROOTS: u32 = 112;
/// Not 1 to 2^54 units that a seat may spend, or more than 2^62 for all seats together.
pub const RELEASE_LIMIT: u32 = 113;
/// There was no memory.
pub const NO_MEMORY: u32 = 114;
