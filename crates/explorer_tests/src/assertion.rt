//! Assertions in functions of their own. There each is proved once: `assert!` makes each body larger, above
//! all one that owns something.

use std::process::Abort;

pub(crate) fn holds(rt: &impl Abort, told: bool) {
    assert!(rt; told);
}

/// The same, for these words.
pub(crate) fn holds_for(rt: &impl Abort, told: bool, words: &[&str]) {
    assert!(rt; told, "{words:?}");
}
