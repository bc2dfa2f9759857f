use step_table::Parts;
use waiters::CounterId;

/// What is asked of the worlds that a scenario reaches.
#[derive(Clone, Copy, Debug, PartialEq, Eq, Drop)]
pub enum Property {
    /// Where no seat can run, none sleeps.
    Settled,
    /// Where each seat has ended, the counter has this number.
    Value(CounterId, u32),
    /// No seat fails.
    NoMisuse,
    /// No wake-up is lost.
    NoLost,
}

/// What a scenario's text asks for.
#[derive(Debug, Drop)]
pub struct SpelledRequest {
    /// What the scenario is made of.
    pub parts: Parts,
    /// What is asked of its worlds.
    pub property: Property,
}
