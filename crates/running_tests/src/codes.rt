//! The codes of `c_calls` that need a second thread: its other codes are seen by the tests of `parklot_c`, which
//! as a static library can start none.

mod thread_tests;
