//! A text that is read in many tests.

/// One counter, one acquire, and the property.
pub(crate) const ONE_ACQUIRE: &[u8] = b"counter 0\nseat 0: acquire 0\nsettled\n";
