use crate::call::Call;
use crate::items::Items;

/// What a scenario is made of.
#[derive(Debug, Drop)]
pub struct Parts {
    /// The number of roots: the root of counter `c` is `c` modulo it.
    pub roots: u32,
    /// The number at which each counter starts.
    pub starts: Items<u32>,
    /// The first ticket of each notify list.
    pub firsts: Items<u64>,
    /// The number of wait groups.
    pub groups: u32,
    /// The calls of each seat, in their order.
    pub calls: Items<Items<Call>>,
}
