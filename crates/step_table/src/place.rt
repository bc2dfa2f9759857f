ghost use Rattle.std.specs.Prelude.{◌≡◌};
ghost use Rattle.step_table.specs.Counting.{counter_at};
ghost use Rattle.step_table.specs.Row.{row_of, acquire_row_name, parked_row_name, release_row_name, many_row_name};

use crate::row::Row;
use waiters::CounterId;

/// What an acquire was called with.
#[derive(Clone, Copy, Drop)]
pub struct Acquire {
    pub counter: CounterId,
    /// Whether its wait goes to the front of the list.
    pub lifo: bool,
}

/// What a release was called with.
#[derive(Clone, Copy, Drop)]
pub struct Release {
    pub counter: CounterId,
    /// Whether it tries to take a unit for the wait that it wakes.
    pub handoff: bool,
}

/// What a release of many units was called with.
#[derive(Clone, Copy, Drop)]
pub struct ReleaseMany {
    pub counter: CounterId,
    /// How many units it adds.
    pub units: u32,
}

/// A row of an acquire, with what the seat carries to it. An exchange carries the number that it would leave:
/// one less than was read.
#[derive(Clone, Copy, Drop)]
pub enum AcquireRow {
    A1,
    A2(u64),
    A3,
    A4,
    A5,
    A6(u64),
    A7,
    A8,
    A9,
    A10,
    A11(u64),
    D4,
    /// Its wait of this turn is queued, in a hand or granted.
    Parked(u64, ParkedRow),
}

/// A row of a seat that is parked: it looks for its grant, or gives up its sleep.
#[derive(Clone, Copy, Drop)]
pub enum ParkedRow {
    P,
    D2,
    D3,
    D5,
}

/// A row of a release, with what the seat carries to it.
#[derive(Clone, Copy, Drop)]
pub enum ReleaseRow {
    R1,
    R2,
    R3,
    R4,
    R5,
    R6,
    R7,
    R8(u64),
    R9,
    R10,
}

/// A row of a release of many units. The waits that it took out are in the seat's hand.
#[derive(Clone, Copy, Drop)]
pub enum ManyRow {
    M1,
    M2,
    M3,
    M4,
    M5,
    M6,
    M7,
}

/// Where a seat stands: at rest, or before a row of its call.
#[derive(Clone, Copy, Drop)]
pub enum Place {
    Rest,
    Acquiring(Acquire, AcquireRow),
    Releasing(Release, ReleaseRow),
    ReleasingMany(ReleaseMany, ManyRow),
}

impl Place {
    /// The name of the row, if the seat stands before one.
    pub fn row(self) -> Option<Row>
        ensures { result ≡ row_of self }
    {
        match self {
            Place::Rest => None,
            Place::Acquiring(_, row) => Some(row.name()),
            Place::Releasing(_, row) => Some(row.name()),
            Place::ReleasingMany(_, row) => Some(row.name()),
        }
    }

    /// The counter of the seat's call, or any where it has none.
    pub fn counter(&self) -> CounterId
        ensures { result ≡ counter_at self.now }
    {
        match *self {
            Place::Rest => CounterId::new(0),
            Place::Acquiring(acquire, _) => acquire.counter,
            Place::Releasing(release, _) => release.counter,
            Place::ReleasingMany(release, _) => release.counter,
        }
    }
}

impl AcquireRow {
    fn name(self) -> Row
        ensures { result ≡ acquire_row_name self }
    {
        match self {
            AcquireRow::A1 => Row::A1,
            AcquireRow::A2(_) => Row::A2,
            AcquireRow::A3 => Row::A3,
            AcquireRow::A4 => Row::A4,
            AcquireRow::A5 => Row::A5,
            AcquireRow::A6(_) => Row::A6,
            AcquireRow::A7 => Row::A7,
            AcquireRow::A8 => Row::A8,
            AcquireRow::A9 => Row::A9,
            AcquireRow::A10 => Row::A10,
            AcquireRow::A11(_) => Row::A11,
            AcquireRow::D4 => Row::D4,
            AcquireRow::Parked(_, row) => row.name(),
        }
    }
}

impl ParkedRow {
    fn name(self) -> Row
        ensures { result ≡ parked_row_name self }
    {
        match self {
            ParkedRow::P => Row::P,
            ParkedRow::D2 => Row::D2,
            ParkedRow::D3 => Row::D3,
            ParkedRow::D5 => Row::D5,
        }
    }
}

impl ReleaseRow {
    fn name(self) -> Row
        ensures { result ≡ release_row_name self }
    {
        match self {
            ReleaseRow::R1 => Row::R1,
            ReleaseRow::R2 => Row::R2,
            ReleaseRow::R3 => Row::R3,
            ReleaseRow::R4 => Row::R4,
            ReleaseRow::R5 => Row::R5,
            ReleaseRow::R6 => Row::R6,
            ReleaseRow::R7 => Row::R7,
            ReleaseRow::R8(_) => Row::R8,
            ReleaseRow::R9 => Row::R9,
            ReleaseRow::R10 => Row::R10,
        }
    }
}

impl ManyRow {
    fn name(self) -> Row
        ensures { result ≡ many_row_name self }
    {
        match self {
            ManyRow::M1 => Row::M1,
            ManyRow::M2 => Row::M2,
            ManyRow::M3 => Row::M3,
            ManyRow::M4 => Row::M4,
            ManyRow::M5 => Row::M5,
            ManyRow::M6 => Row::M6,
            ManyRow::M7 => Row::M7,
        }
    }
}
