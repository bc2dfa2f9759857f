//! The tests of `search`, over machines of their own.

mod given;
mod key_tests;
mod light_tests;
mod long_tests;
mod relay_tests;
mod stair_tests;
mod team_tests;
mod twin_tests;
