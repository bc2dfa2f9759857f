/// What a seat may still let out: the counter of its last release, and the units that have let nobody out
/// yet.
#[derive(Clone, Copy, Drop)]
pub(crate) struct Budget {
    pub(crate) counter: usize,
    pub(crate) units: u128,
}
