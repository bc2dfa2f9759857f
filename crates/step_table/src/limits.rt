//! How large a scenario may be.

/// The most roots.
pub const MAX_ROOTS: u32 = 251;
/// The most counters of a scenario.
pub const MAX_COUNTERS: usize = 16;
/// The most notify lists.
pub const MAX_LISTS: usize = 16;
/// The most wait groups.
pub const MAX_GROUPS: u32 = 16;
/// The most seats.
pub const MAX_SEATS: usize = 16;
/// The most calls of a seat.
pub const MAX_CALLS: usize = 32;
/// The most calls of a seat that are left out where a call is given up.
pub const MAX_SKIPS: u32 = 31;
/// The fewest units of a release of many.
pub const MIN_UNITS: u32 = 1;
/// The most units of a release of many.
pub const MAX_UNITS: u32 = 256;
