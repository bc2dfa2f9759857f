//! The tests of `sync_parts`.

pub(crate) mod actor;
mod cast;
mod cond_given;
mod cond_tests;
mod group_barrier_tests;
mod group_given;
mod group_parts;
mod group_races;
mod group_scene_tests;
mod group_tests;
mod limit_tests;
mod locker_tests;
mod play;
mod sleepers;
mod timed_cond_tests;
mod timed_group_tests;
mod timed_lock_tests;
mod wakers;
