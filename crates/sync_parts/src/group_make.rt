//! How a wait group is made.
ghost use Rattle.std.specs.Prelude.{◌≡◌, ◌<◌, [], All, IfOk, IfErr, map};
ghost use Rattle.std.specs.List.{range_with_len};
ghost use Rattle.sync_parts.specs.GroupRule.{group_rows};
ghost use Rattle.running_rows.specs.Rule.{first_view, making, fresh_seat};
ghost use Rattle.running_rows.specs.Sitting.{lone};
ghost use Rattle.sema_table.specs.Rule.{for_threads, setting_of};
ghost use Rattle.sema_table.specs.Making.{IsFromOne, most_seats};
ghost use Rattle.sync_parts.specs.GroupSeats.{group_setting};
ghost use Rattle.sync_parts.specs.GroupMaking.{seat_on, IsGroupMade, IsGroupRefused};

use crate::group::{GroupSeat, WaitGroup};
use crate::group_rows::StateToken;
use crate::state_word::StateWord;
use running_rows::Running;
use sema_table::{Seat, SemaTable, Settings, SetupError};
use std::alloc::{AllocError, Global};

/// The most seats of a group.
const MAX_SEATS: u32 = 65_536;
/// How many releases each seat may make.
const RELEASE_LIMIT: u64 = 1 << 40;

impl StateWord {
    /// A word that nobody is counted in, of so many seats, and its seat 0.
    fn new(alloc: Global, seats: u32) -> Result<(StateWord, StateToken), AllocError>
        requires { 0 < seats }
        ensures word { IfOk result (λ t. (t.1.table_id ≡ t.0.id) × (t.0.seats ≡ seats)) }
        ensures first { IfOk result (λ t. t.1.me ≡ (first_view group_rows seats, [])) }
    {
        let Ok((words, token)) = Running::new(alloc, &[0], Vec::new(alloc), &seats) else {
            return Err(AllocError);
        };
        Ok((StateWord { words }, token))
    }

    /// The next seat of the word, made by its seat 0 while not all are made.
    fn split(&self, first: &mut StateToken) -> StateToken
        requires own { first.old.table_id ≡ self.now.id }
        requires makes { (0 < first.old.me.0.made) × (first.old.me.0.made < first.old.me.0.own.knows.seats) }
        ensures first { (first.new.table_id ≡ self.now.id)
            × (first.new.me ≡ (making first.old.me.0, first.old.me.1)) }
        ensures made { (result.table_id ≡ self.now.id)
            × (result.me ≡ (lone (fresh_seat group_rows first.old.me.0.own.knows.seats first.old.me.0.made), [])) }
    {
        self.words.make_seat(first)
    }
}

/// What the semaphore of a group with so many seats is made with.
fn settings(alloc: Global, seats: u32) -> Result<Settings, AllocError>
    ensures { IfOk result (λ s. setting_of (for_threads s) ≡ group_setting seats) }
{
    let mut starts = Vec::with_capacity(alloc, 1)?;
    starts.push_reserved(0);
    Ok(Settings {
        starts,
        seats,
        roots: 1,
        seed: 0,
        release_limit: RELEASE_LIMIT,
    })
}

/// Gives each seat of the semaphore that of the state word which has its number.
fn seat_all(
    alloc: Global,
    word: &StateWord,
    first: StateToken,
    seats: Vec<Seat>,
) -> Result<Vec<GroupSeat>, AllocError>
    requires first { (first.table_id ≡ word.now.id)
        × (first.me ≡ (first_view group_rows word.now.seats, [])) }
    requires some { 0 < word.now.seats }
    requires numbers { map (λ s. s.number) seats.items ≡ range_with_len 0 word.now.seats }
    ensures { IfOk result (λ made. made.items ≡ map (seat_on word.now.id) seats.items) }
{
    let mut first = first;
    let mut rest = seats;
    // Taken off the end, so the first seat comes first.
    rest.reverse();
    let mut made = Vec::with_capacity(alloc, rest.len())?;
    // The seat 0 makes the others, and goes before them in the end.
    let Some(own) = rest.pop() else {
        return Ok(made);
    };
    while let Some(sema) = rest.pop() {
        let token = word.split(&mut first);
        made.push_reserved(GroupSeat { token, sema });
    }
    let seat = GroupSeat {
        token: first,
        sema: own,
    };
    let Ok(()) = made.insert(0, seat) else {
        unreachable!()
    };
    Ok(made)
}

/// A group with so many seats, for which memory alone may be refused.
fn make(alloc: Global, seats: u32) -> Result<(WaitGroup, Vec<GroupSeat>), AllocError>
    requires { IsFromOne most_seats seats }
    ensures { IfOk result (λ t. IsGroupMade seats t.0 t.1.items) }
{
    let settings = settings(alloc, seats)?;
    let Ok((sema, sema_seats)) = SemaTable::new(alloc, settings) else {
        return Err(AllocError);
    };
    let (word, first) = StateWord::new(alloc, seats)?;
    let made = seat_all(alloc, &word, first, sema_seats)?;
    Ok((WaitGroup { word, sema }, made))
}

impl WaitGroup {
    /// A group with so many seats, in the order of their numbers, in which nobody is counted. An error has
    /// made nothing: there are not 1 to 65,536 seats, or memory was refused.
    pub fn with_seats(alloc: Global, seats: u32) -> Result<(WaitGroup, Vec<GroupSeat>), SetupError>
        ensures ok { IfOk result (λ t. IsGroupMade seats t.0 t.1.items) }
        ensures own { IfOk result (λ t. All (λ s. s.group ≡ t.0) t.1.items) }
        ensures err { IfErr result (λ refused. IsGroupRefused seats refused) }
    {
        if seats == 0 || seats > MAX_SEATS {
            return Err(SetupError::Seats);
        }
        let Ok(made) = make(alloc, seats) else {
            return Err(SetupError::NoMemory);
        };
        Ok(made)
    }
}
