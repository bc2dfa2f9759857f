//! Stack that is had before all addresses are taken.

/// Far more than the calls of a test go down.
const DEPTH: usize = 1 << 20;

#[inline(never)]
fn is_clear(room: &[u8]) -> bool {
    for byte in room {
        if *byte != 0 {
            return false;
        }
    }
    true
}

/// Goes down the stack once, and finds it as it should be. Its pages are the process's from then on: where no
/// address is free beside them, it can't grow.
#[inline(never)]
pub(crate) fn goes_deep() -> bool {
    let room = [0; DEPTH];
    is_clear(room.as_slice())
}
