//! Until when a call waits.
use std::time::{Duration, Instant};

/// When a wait is to end.
pub(crate) enum Limit {
    At(Instant),
    After(Duration),
}
