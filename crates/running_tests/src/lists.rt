//! The tests of `notify_list`.

mod attempt_tests;
mod crew;
mod given;
mod hurried_crew_tests;
mod leave_tests;
mod many_tests;
mod order_tests;
mod poller_tests;
mod thread_tests;
mod ticket_tests;
mod timed_tests;
