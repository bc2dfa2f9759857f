//! Deadlines.
use std::time::{Clock, Duration, Instant};

/// How much time is left until the deadline: none where the clock can't be read.
pub fn time_left<C: Clock>(rt: &C, deadline: Instant) -> Duration {
    match Instant::now(rt) {
        Ok(now) => deadline.saturating_duration_since(now),
        Err(_) => Duration::ZERO,
    }
}
