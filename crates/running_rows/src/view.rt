//! What a token of a seat knows. A clause reads an array as a list, of any length.
use crate::parking::Parking;

/// One seat: its number, what it knows, and all strides that it has gone. No value of it is made.
pub struct Seated<V, T> {
    pub number: u64,
    pub knows: V,
    pub gone: [T; 0],
}

/// The view of a token: its seat, and the seats that sit with it, mostly none. No value of it is made.
pub struct View<V, T> {
    pub own: Seated<V, T>,
    pub guests: [Seated<V, T>; 0],
    /// Of the seat that makes the others, how many were made; of another 0.
    pub made: u64,
    /// What its thread has to do with those that sleep in the kernel.
    pub parking: Parking,
}

/// A seat of the words. It has no bytes, and without the words no step can be made with it.
pub type Token<S, V, T> = atomic_table::Seat<S, View<V, T>>;
