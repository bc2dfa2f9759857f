//! How a table is made.
ghost use Rattle.std.specs.Prelude.{◌↔◌, IsTrue};
ghost use Rattle.std.specs.Prelude.{◌≡◌, ℕ, ◌+◌, ◌^◌, ◌<◌, ◌≤◌, ◌++◌, [], replicate, All, IfOk, OnOk, IfErr};
ghost use Rattle.sema_table.specs.declared.view.Setting.{Setting};
ghost use Rattle.sema_table.specs.Setting.{apart};
ghost use Rattle.running_rows.specs.Rule.{fresh_seat};
ghost use Rattle.sema_table.specs.Rows.{semaphore_rows};
ghost use Rattle.sema_table.specs.Seats.{table_of};
ghost use Rattle.sema_table.specs.Making.{AreAllowed, IsRefused, MaySpend, IsMade, IsMadeWith, new_root, new_roots};
ghost use Rattle.sema_table.specs.Making as making;

use crate::rows::Token;
use crate::seat::{Numbers, Seat};
use crate::sema_table::SemaTable;
use crate::settings::{Settings, TableKey};
use crate::setup_error::SetupError;
use crate::view::Record;
use running_rows::Running;
use sema_root::TreapRoot;
use std::alloc::{AllocError, Global};
use waiters::NoMemory;

/// The most counters of a table.
const MAX_COUNTERS: usize = 65_536;
/// The most seats.
const MAX_SEATS: u32 = 65_536;
/// The most roots.
pub(crate) const MAX_ROOTS: u32 = 251;
/// The most units that each seat may spend.
const MAX_RELEASE_LIMIT: u64 = 1 << 54;
/// And that all may together: so no number and no sum wraps.
const MOST_SPENT: u64 = 1 << 62;

/// Whether so many seats may spend so much each.
fn may_spend(seats: u32, limit: u64) -> bool
    ensures { IsTrue result ↔ MaySpend seats limit }
{
    match u64::from(seats).checked_mul(limit) {
        Some(all) => limit != 0 && limit <= MAX_RELEASE_LIMIT && all <= MOST_SPENT,
        None => false,
    }
}

/// Whether the settings are within all limits, or else the first that isn't kept.
fn check(settings: &Settings) -> Result<(), SetupError>
    ensures ok { OnOk result (AreAllowed settings.now) }
    ensures err { IfErr result (λ refused. IsRefused settings.now refused) }
{
    let counters = settings.starts.len();
    if counters == 0 || counters > MAX_COUNTERS {
        return Err(SetupError::Counters);
    }
    if settings.seats == 0 || settings.seats > MAX_SEATS {
        return Err(SetupError::Seats);
    }
    if settings.roots == 0 || settings.roots > MAX_ROOTS {
        return Err(SetupError::Roots);
    }
    if !may_spend(settings.seats, settings.release_limit) {
        return Err(SetupError::ReleaseLimit);
    }
    Ok(())
}

/// A seat that has run nothing.
fn new_seat(token: Token, number: u16, limit: u64) -> Seat
    requires fresh { (z : Setting) × (token.me.0.own ≡ fresh_seat semaphore_rows z number)
        × (token.me.1 ≡ []) × (z.limit ≡ limit)
        × (number < z.seats) }
    requires limit { limit ≤ 2 ^ 54 }
    ensures { result ≡ making.new_seat (table_of token) number }
{
    Seat {
        token,
        numbers: Numbers {
            seat: u64::from(number),
            left: limit,
            withdrawn: 0,
            turns: 0,
            taken: 0,
        },
    }
}

/// The number at which each counter starts, a cache line apart, and a 0 for each other word.
fn first_words(alloc: Global, settings: &Settings) -> Result<Vec<u64>, AllocError>
    requires { AreAllowed settings.now }
    ensures words { IfOk result (λ words. words.items
        ≡ apart settings.now.starts.items
        ++ replicate (settings.now.roots + settings.now.roots + settings.now.seats + settings.now.seats + settings.now.seats
        + settings.now.roots) 0) }
    ensures starts { OnOk result (All (λ start. start < 2 ^ 32) settings.now.starts.items) }
{
    let roots = settings.roots as usize;
    let seats = settings.seats as usize;
    let others = roots + roots + seats + seats + seats + roots;
    let all = 8 * settings.starts.len() + others;
    let mut words = Vec::with_capacity(alloc, all)?;
    for start in &settings.starts {
        words.extend_from_slice(&[u64::from(*start), 0, 0, 0, 0, 0, 0, 0])?;
    }
    words.resize(all, 0)?;
    Ok(words)
}

/// A root where nobody waits.
fn empty_root(alloc: Global, seats: u32, seed: u64) -> Result<Record, NoMemory>
    ensures { IfOk result (λ root. root ≡ new_root seats seed) }
{
    Ok(Record::Root(TreapRoot::with_room_for(alloc, seats, seed)?))
}

/// The roots in the order of their numbers. Each draws its tickets from the seed plus its number.
fn empty_roots(alloc: Global, seats: u32, roots: u32, seed: u64) -> Result<Vec<Record>, NoMemory>
    ensures { IfOk result (λ made. made.items ≡ new_roots seats seed roots) }
{
    let mut made = Vec::with_capacity(alloc, roots as usize)?;
    for root in 0..roots {
        made.push_reserved(empty_root(alloc, seats, seed.wrapping_add(u64::from(root)))?);
    }
    Ok(made)
}

/// A table and its seats, in the order of their numbers.
fn make(alloc: Global, key: &TableKey) -> Result<(SemaTable, Vec<Seat>), NoMemory>
    requires { AreAllowed key.now.settings }
    ensures { IfOk result (λ t. IsMadeWith key.now t.0 t.1.items) }
{
    let settings = &key.settings;
    let seats = settings.seats;
    let limit = settings.release_limit;
    let numbers = first_words(alloc, settings)?;
    let slots = empty_roots(alloc, seats, settings.roots, settings.seed)?;
    let mut made = Vec::with_capacity(alloc, seats as usize)?;
    let Ok((words, mut first)) = Running::new(alloc, numbers.as_slice(), slots, key) else {
        return Err(NoMemory);
    };
    for number in 1..seats {
        let token = words.make_seat(&mut first);
        made.push_reserved(new_seat(token, number as u16, limit));
    }
    let Ok(()) = made.insert(0, new_seat(first, 0, limit)) else {
        unreachable!()
    };
    let table = SemaTable {
        words,
        counters: settings.starts.len() as u32,
        roots: settings.roots,
        seats: settings.seats,
        limit,
    };
    Ok((table, made))
}

/// A table of such words, and its seats in the order of their numbers.
pub(crate) fn make_with(alloc: Global, key: TableKey) -> Result<(SemaTable, Vec<Seat>), SetupError>
    ensures ok { IfOk result (λ t. IsMadeWith key t.0 t.1.items) }
    ensures own { IfOk result (λ t. All (λ s. s.table ≡ t.0) t.1.items) }
    ensures err { IfErr result (λ refused. IsRefused key.settings refused) }
{
    check(&key.settings)?;
    match make(alloc, &key) {
        Ok(made) => Ok(made),
        Err(NoMemory) => Err(SetupError::NoMemory),
    }
}

impl SemaTable {
    /// A table with these settings, and its seats in the order of their numbers. An error has made nothing:
    /// settings out of their limits, or no memory for what they ask.
    pub fn new(alloc: Global, settings: Settings) -> Result<(SemaTable, Vec<Seat>), SetupError>
        ensures ok { IfOk result (λ t. IsMade settings t.0 t.1.items) }
        ensures own { IfOk result (λ t. All (λ s. s.table ≡ t.0) t.1.items) }
        ensures err { IfErr result (λ refused. IsRefused settings refused) }
    {
        make_with(
            alloc,
            TableKey {
                settings,
                has_threads: true,
            },
        )
    }
}
