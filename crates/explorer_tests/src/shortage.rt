//! The calls that answer want of memory, where memory is really short.
//!
//! A test goes rounds, in each of which a little more memory is left (`scarce`). So each allocation of its
//! call is in some round the first that is refused, but for those that a block serves which the call gave
//! back itself. Then the call says so; in the last round it answers as it should, and in none anything else.
//! What is compared is made before memory is short, or needs none.

mod blocks;
mod moment_tests;
mod part_tests;
mod root_tests;
mod rounds;
mod scarce;
mod scenario_tests;
mod search_tests;
mod stack;
mod text_tests;
mod world_tests;
