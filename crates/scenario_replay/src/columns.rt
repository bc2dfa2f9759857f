//! What a column of words shows: its head and its cells.

ghost use Rattle.std.specs.Prelude.{◌↔◌, IsTrue};
ghost use Rattle.step_core.specs.Picture.{HasWordOf, HasListWordOf};
ghost use Rattle.scenario_replay.specs.Columns.{IsColumnOf};

use crate::spelling::{spell_group, waits_text};
use std::alloc::{AllocError, Global};
use step_core::{CounterId, GroupId, ListId, ListWord, NoMemory, Picture, Scenario, SeatId, Word};

/// What a column shows.
#[derive(Clone, Copy, Drop)]
pub(crate) enum Shown {
    /// The number in a word of the semaphores.
    Number(Word),
    /// The waits of a counter.
    Waits(CounterId),
    /// The number in a word of a list.
    OnList(ListId, ListWord),
    /// The waits of a list.
    Queue(ListId),
    /// The ticket of a list that a seat holds.
    Ticket(ListId, SeatId),
    /// The state word of a group.
    Group(GroupId),
}

fn has_word(scenario: &Scenario, word: &Word) -> bool
    ensures { IsTrue result ↔ HasWordOf scenario.now word.now }
{
    match *word {
        Word::Counter(counter) | Word::Lock(counter) | Word::Waiters(counter) =>
            (counter.number() as usize) < scenario.semaphores(),
        Word::Grant(seat) => (seat.number() as usize) < scenario.seats(),
    }
}

fn has_list_word(scenario: &Scenario, word: &ListWord) -> bool
    ensures { IsTrue result ↔ HasListWordOf scenario.now word.now }
{
    match *word {
        ListWord::Grant(seat) => (seat.number() as usize) < scenario.seats(),
        _ => true,
    }
}

fn ticket_text(
    alloc: Global,
    picture: &Picture<'_>,
    list: ListId,
    seat: SeatId,
) -> Result<String, AllocError>
    requires { IsColumnOf picture.now.parts (Shown.Ticket list seat) }
{
    let mut text = String::new(alloc);
    match picture.ticket(list, seat) {
        Some(ticket) => {
            let word = ticket.word;
            write!(text, "{word}")?;
        }
        None => text.push('-')?,
    }
    Ok(text)
}

fn group_text(alloc: Global, picture: &Picture<'_>, group: GroupId) -> Result<String, AllocError>
    requires { IsColumnOf picture.now.parts (Shown.Group group) }
{
    let mut text = String::new(alloc);
    spell_group(&mut text, picture.group(group))?;
    Ok(text)
}

/// The waits of a counter.
fn counter_waits(
    alloc: Global,
    picture: &Picture<'_>,
    counter: CounterId,
) -> Result<String, NoMemory>
    requires { IsColumnOf picture.now.parts (Shown.Waits counter) }
{
    let waits = picture.waiting(alloc, counter)?;
    Ok(waits_text(alloc, &waits)?)
}

/// The waits of a list.
fn list_waits(alloc: Global, picture: &Picture<'_>, list: ListId) -> Result<String, NoMemory>
    requires { IsColumnOf picture.now.parts (Shown.Queue list) }
{
    let waits = picture.queued(alloc, list)?;
    Ok(waits_text(alloc, &waits)?)
}

fn list_head(alloc: Global, list: ListId, word: &ListWord) -> Result<String, AllocError> {
    let name = match *word {
        ListWord::Wait => "wait",
        ListWord::Notify => "notify",
        ListWord::Lock => "lock",
        ListWord::Grant(seat) => return format!(in alloc; "list {list} grant of {seat}"),
    };
    format!(in alloc; "list {list} {name}")
}

fn head_of(alloc: Global, word: &Word) -> Result<String, AllocError> {
    let (name, counter) = match *word {
        Word::Counter(counter) => ("counter", counter),
        Word::Lock(counter) => ("lock", counter),
        Word::Waiters(counter) => ("waiters", counter),
        Word::Grant(seat) => return format!(in alloc; "grant {seat}"),
    };
    format!(in alloc; "{name} {counter}")
}

impl Shown {
    /// Whether the scenario has it.
    fn is_of(&self, scenario: &Scenario) -> bool
        ensures { IsTrue result ↔ IsColumnOf scenario.now self.now }
    {
        let parts = scenario.parts();
        match self {
            Shown::Number(word) => has_word(scenario, word),
            Shown::Waits(counter) => (counter.number() as usize) < scenario.semaphores(),
            Shown::OnList(list, word) => {
                (list.number() as usize) < parts.firsts.len() && has_list_word(scenario, word)
            }
            Shown::Queue(list) => (list.number() as usize) < parts.firsts.len(),
            Shown::Ticket(list, seat) => {
                (list.number() as usize) < parts.firsts.len()
                    && (seat.number() as usize) < scenario.seats()
            }
            Shown::Group(group) => group.number() < parts.groups,
        }
    }

    /// Whether it is shown where it never changes too: a counter that is no group's, and the word of a group.
    pub fn is_always_shown(&self, scenario: &Scenario) -> bool {
        match self {
            Shown::Number(Word::Counter(counter)) => {
                (counter.number() as usize) < scenario.counters()
            }
            Shown::Group(_) => true,
            _ => false,
        }
    }

    /// The head of its column.
    pub fn head(&self, alloc: Global) -> Result<String, AllocError> {
        match self {
            Shown::Number(word) => head_of(alloc, word),
            Shown::Waits(counter) => format!(in alloc; "waits {counter}"),
            Shown::OnList(list, word) => list_head(alloc, *list, word),
            Shown::Queue(list) => format!(in alloc; "list {list} queue"),
            Shown::Ticket(list, seat) => format!(in alloc; "list {list} ticket of {seat}"),
            Shown::Group(group) => format!(in alloc; "group {group}"),
        }
    }

    fn cell_of(&self, alloc: Global, picture: &Picture<'_>) -> Result<String, NoMemory>
        requires { IsColumnOf picture.now.parts self.now }
    {
        match self {
            Shown::Number(word) => {
                let number = picture.number(word);
                Ok(format!(in alloc; "{number}")?)
            }
            Shown::Waits(counter) => counter_waits(alloc, picture, *counter),
            Shown::OnList(list, word) => {
                let number = picture.list_number(*list, word);
                Ok(format!(in alloc; "{number}")?)
            }
            Shown::Queue(list) => list_waits(alloc, picture, *list),
            Shown::Ticket(list, seat) => Ok(ticket_text(alloc, picture, *list, *seat)?),
            Shown::Group(group) => Ok(group_text(alloc, picture, *group)?),
        }
    }

    /// What the picture has of it.
    pub fn cell(&self, alloc: Global, picture: &Picture<'_>) -> Result<String, NoMemory> {
        if self.is_of(picture.scenario()) {
            return self.cell_of(alloc, picture);
        }
        Ok(format!(in alloc; "-")?)
    }
}
