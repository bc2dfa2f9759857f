//! The numbers of the seats that a call woke, as a caller gets them.
ghost use Rattle.std.specs.Prelude.{◌≡◌, ◌≤◌, length, take};

/// A release of many wakes no more seats: it adds no more units.
pub(crate) const MOST_WOKEN: usize = 256;

/// Writes the numbers to the beginning of the room.
pub(crate) fn write(seats: &[u16], room: &mut [u32])
    requires { length seats.now ≤ length room.old }
    ensures { take (length seats.now) room.new ≡ seats.now }
{
    for at in 0..seats.len() {
        room[at] = u32::from(seats[at]);
    }
}
