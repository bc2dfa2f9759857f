use crate::entry::Entry;

/// What a row's event does beside its word.
#[derive(Clone, Copy, Drop)]
pub enum Effect {
    /// Nothing.
    Nothing,
    /// The journal tells it, and the lists and the seat's hand change as it says.
    Tells(Entry),
    /// The first wait in the seat's hand was granted, and leaves the hand.
    Wakes,
}
