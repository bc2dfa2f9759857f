//! What is other than before, of texts that stand in one order.

use std::alloc::AllocError;

/// What stands at this place now, if it is other than before.
pub(crate) fn changed_at<'t>(
    before: &[String],
    after: &'t [String],
    place: usize,
) -> Option<&'t str> {
    match (before.get(place), after.get(place)) {
        (Some(was), Some(is)) if was.as_str() != is.as_str() => Some(is.as_str()),
        _ => None,
    }
}

/// Writes what keeps the next one apart from those that stand there.
pub(crate) fn set_apart(text: &mut String) -> Result<(), AllocError> {
    if text.is_empty() {
        return Ok(());
    }
    text.push_str(", ")
}
