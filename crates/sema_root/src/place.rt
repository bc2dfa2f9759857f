use waiters::CounterId;

/// Where the node of a counter stands in a treap: its ticket, and the two counters right below it.
#[derive(Clone, Copy, Drop)]
pub struct TreapPlace {
    pub ticket: u32,
    pub left: Option<CounterId>,
    pub right: Option<CounterId>,
}
