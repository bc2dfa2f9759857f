//! What the judge keeps of the entries that it has seen.

ghost use Rattle.std.specs.Prelude.{◌≡◌, ◌<◌, ◌+◌, ◌^◌, ℕ, Bool, [], length, OnOk, IfOk, MatchOption};
ghost use Rattle.std.specs.Prelude.{slice_index, slice_index_or, vec_len};
ghost use Rattle.waiters.specs.declared.wait.WaitId.{WaitId};
ghost use Rattle.step_table.specs.declared.entry.Entry.TheVariants as law;
ghost use Rattle.step_law_lists.specs.ListLawful.{none_told};
ghost use Rattle.journal.specs.LawfulJournal.{entry_of, wait_of};
ghost use Rattle.journal.specs.Account.{HasRoom, IsAsleepBeside, account, after, first_broken};
ghost use Rattle.journal.specs.Account.{has_unit};
ghost use Rattle.journal.specs.Shown.{HasSizesOf, IsReady, shown};

use crate::budget::Budget;
use crate::entry::{JournalEntry, JournalWait};
use crate::queue::Queue;
use crate::rule::Rule;
use crate::tickets::Tickets;
use std::alloc::{AllocError, Global};
use std::collections::{HashMap, HashSet};

/// Numbers and lists of the counters, tickets of the lists, what each seat may still let out, which waits
/// were queued.
#[derive(Drop)]
pub(crate) struct Ledger {
    pub(crate) numbers: Vec<u128>,
    pub(crate) queues: Vec<Queue>,
    pub(crate) tickets: Vec<Tickets>,
    pub(crate) budgets: HashMap<u128, Budget>,
    pub(crate) queued: HashSet<JournalWait>,
}

/// So many lists of waits, in which nobody waits.
fn no_waits(alloc: Global, count: usize) -> Result<Vec<Queue>, AllocError>
    ensures len { IfOk result (λ queues. vec_len queues ≡ count) }
    ensures empty { IfOk result (λ queues. (k : ℕ) → slice_index_or queues.items k [] ≡ []) }
{
    let mut queues = Vec::with_capacity(alloc, count)?;
    for _ in 0..count {
        queues.push(Queue::new(alloc))?;
    }
    Ok(queues)
}

/// So many lists, of which no ticket was handed out.
fn no_tickets(alloc: Global, count: usize) -> Result<Vec<Tickets>, AllocError>
    ensures len { IfOk result (λ tickets. vec_len tickets ≡ count) }
    ensures none { IfOk result (λ tickets. (k : ℕ) → slice_index_or tickets.items k none_told ≡ none_told) }
{
    let mut tickets = Vec::with_capacity(alloc, count)?;
    for _ in 0..count {
        tickets.push(Tickets::new(alloc))?;
    }
    Ok(tickets)
}

impl Ledger {
    /// The ledger of counters that start at these numbers, and of so many lists, before the first entry.
    pub(crate) fn new(alloc: Global, starts: &[u128], lists: usize) -> Result<Self, AllocError>
        ensures shown { IfOk result (λ ledger. shown ledger ≡ account starts.now []) }
        ensures numbers { IfOk result (λ ledger. vec_len ledger.numbers ≡ length starts.now) }
        ensures queues { IfOk result (λ ledger. vec_len ledger.queues ≡ length starts.now) }
        ensures tickets { IfOk result (λ ledger. vec_len ledger.tickets ≡ lists) }
    {
        let numbers = Vec::from_slice(alloc, starts)?;
        let queues = no_waits(alloc, starts.len())?;
        let tickets = no_tickets(alloc, lists)?;
        Ok(Ledger {
            numbers,
            queues,
            tickets,
            budgets: HashMap::new(alloc),
            queued: HashSet::new(alloc),
        })
    }

    /// What the seat may still let out.
    fn budget(&self, seat: u128) -> Budget
        ensures counter { result.counter ≡ ((shown self.now).budgets seat).counter }
        ensures units { result.units ≡ ((shown self.now).budgets seat).units }
    {
        match self.budgets.get(&seat) {
            Some(budget) => *budget,
            None => Budget {
                counter: 0,
                units: 0,
            },
        }
    }

    /// Whether a unit of the seat's own last release, on this counter, is left.
    fn owes(&self, seat: u128, counter: usize) -> bool
        ensures { result ≡ has_unit ((shown self.now).budgets seat) counter }
    {
        let budget = self.budget(seat);
        budget.counter == counter && budget.units > 0
    }

    /// A release by the seat added so many units.
    fn add(&mut self, counter: usize, seat: u128, units: u128) -> Result<(), AllocError>
        requires counter { counter < vec_len self.old.numbers }
        requires room { slice_index self.old.numbers.items counter + units < 2 ^ 128 }
        ensures shown { OnOk result
            (shown self.new ≡ after (shown self.old) (law.AddMany counter units seat)) }
        ensures sizes { HasSizesOf self.old self.new }
    {
        self.numbers[counter] += units;
        self.budgets.insert(seat, Budget { counter, units })?;
        Ok(())
    }

    /// One unit was taken.
    fn take(&mut self, counter: usize)
        requires { counter < vec_len self.old.numbers }
        ensures shown { (seat : ℕ) → shown self.new ≡ after (shown self.old) (law.Take counter seat) }
        ensures sizes { HasSizesOf self.old self.new }
    {
        self.numbers[counter] = self.numbers[counter].saturating_sub(1);
    }

    /// The wait was queued.
    fn queue(&mut self, counter: usize, wait: JournalWait, lifo: bool) -> Result<(), AllocError>
        requires { counter < vec_len self.old.queues }
        ensures shown { OnOk result
            (shown self.new ≡ after (shown self.old) (law.Queue counter (wait_of wait) lifo)) }
        ensures sizes { HasSizesOf self.old self.new }
    {
        self.queues[counter].insert(wait, lifo)?;
        self.queued.insert(wait)?;
        Ok(())
    }

    /// The first wait left for a release by the seat.
    fn leave(&mut self, counter: usize, seat: u128) -> Result<(), AllocError>
        requires { counter < vec_len self.old.queues }
        ensures shown { OnOk result ((wait : WaitId)
            → shown self.new ≡ after (shown self.old) (law.Leave counter wait seat)) }
        ensures sizes { HasSizesOf self.old self.new }
    {
        self.queues[counter].remove_first();
        let Budget { counter, units } = self.budget(seat);
        self.budgets.insert(
            seat,
            Budget {
                counter,
                units: units.saturating_sub(1),
            },
        )?;
        Ok(())
    }

    /// The wait was taken out, wherever it stood.
    fn withdraw(&mut self, counter: usize, wait: JournalWait)
        requires { counter < vec_len self.old.queues }
        ensures shown { shown self.new ≡ after (shown self.old) (law.Withdraw counter (wait_of wait)) }
        ensures sizes { HasSizesOf self.old self.new }
    {
        self.queues[counter].remove(wait);
    }

    /// The seat took a ticket.
    fn hand_out(&mut self, list: usize)
        requires list { list < vec_len self.old.tickets }
        requires room { ((shown self.old).told list).handed + 1 < 2 ^ 128 }
        ensures shown { (seat : ℕ) → shown self.new ≡ after (shown self.old) (law.Ticket list seat) }
        ensures sizes { HasSizesOf self.old self.new }
    {
        self.tickets[list].hand_out();
    }

    /// The tickets below this one are granted, but for those that are gone.
    fn grant(&mut self, list: usize, upto: u128)
        requires list { list < vec_len self.old.tickets }
        requires room { upto + 2 ^ 64 < 2 ^ 128 }
        ensures shown { (seat : ℕ) → shown self.new ≡ after (shown self.old) (law.Grant list upto seat) }
        ensures sizes { HasSizesOf self.old self.new }
    {
        self.tickets[list].grant(upto);
    }

    /// The ticket of this number is gone.
    fn forgo(&mut self, list: usize, number: u128) -> Result<(), AllocError>
        requires list { list < vec_len self.old.tickets }
        requires room { ((shown self.old).told list).passed + 2 ^ 64 < 2 ^ 128 }
        ensures shown { OnOk result ((seat : ℕ)
            → shown self.new ≡ after (shown self.old) (law.Forgo list number seat)) }
        ensures sizes { HasSizesOf self.old self.new }
    {
        self.tickets[list].forgo(number)
    }

    /// The first rule that the grant breaks.
    fn broken_by_grant(&self, list: usize, upto: u128) -> Option<Rule>
        requires { list < vec_len self.now.tickets }
        ensures { (seat : ℕ) → result ≡ first_broken (shown self.now) (law.Grant list upto seat) }
    {
        let tickets = &self.tickets[list];
        if tickets.passed() >= upto {
            Some(Rule::GrantedBefore)
        } else if tickets.handed() < upto {
            Some(Rule::NotHandedOut)
        } else {
            None
        }
    }

    /// The first rule that the going of the ticket breaks.
    fn broken_by_forgo(&self, list: usize, number: u128) -> Option<Rule>
        requires { list < vec_len self.now.tickets }
        ensures { (seat : ℕ) → result ≡ first_broken (shown self.now) (law.Forgo list number seat) }
    {
        let tickets = &self.tickets[list];
        if number < tickets.passed() {
            Some(Rule::PassedBefore)
        } else if tickets.has_gone(number) {
            Some(Rule::GoneBefore)
        } else if number < tickets.handed() {
            None
        } else {
            Some(Rule::NotHandedOut)
        }
    }

    /// The first rule that the leaving of the wait breaks.
    fn broken_by_leave(&self, counter: usize, wait: JournalWait, seat: u128) -> Option<Rule>
        requires { counter < vec_len self.now.queues }
        ensures { result ≡ first_broken (shown self.now) (law.Leave counter (wait_of wait) seat) }
    {
        if !self.queues[counter].begins(wait) {
            Some(Rule::NotFirst)
        } else if self.owes(seat, counter) {
            None
        } else {
            Some(Rule::NoRelease)
        }
    }

    /// The first rule that the withdrawal of the wait breaks.
    fn broken_by_withdraw(&self, counter: usize, wait: JournalWait) -> Option<Rule>
        requires { counter < vec_len self.now.queues }
        ensures { result ≡ first_broken (shown self.now) (law.Withdraw counter (wait_of wait)) }
    {
        if self.queues[counter].contains(wait) {
            None
        } else {
            Some(Rule::NotQueued)
        }
    }

    /// The first rule that the taking of a unit breaks.
    fn broken_by_take(&self, counter: usize) -> Option<Rule>
        requires { counter < vec_len self.now.numbers }
        ensures { (seat : ℕ) → result ≡ first_broken (shown self.now) (law.Take counter seat) }
    {
        if self.numbers[counter] == 0 {
            Some(Rule::NoUnit)
        } else {
            None
        }
    }

    /// The rule that the queueing of the wait breaks.
    fn broken_by_queue(&self, wait: JournalWait) -> Option<Rule>
        ensures { (counter : ℕ) (lifo : Bool)
            → result ≡ first_broken (shown self.now) (law.Queue counter (wait_of wait) lifo) }
    {
        if self.queued.contains(&wait) {
            Some(Rule::QueuedTwice)
        } else {
            None
        }
    }

    /// The first rule that the entry breaks.
    pub(crate) fn broken(&self, entry: &JournalEntry) -> Option<Rule>
        requires { IsReady self.now entry.now }
        ensures { result ≡ first_broken (shown self.now) (entry_of entry.now) }
    {
        match *entry {
            JournalEntry::Take { counter, .. } => self.broken_by_take(counter),
            JournalEntry::Queue { wait, .. } => self.broken_by_queue(wait),
            JournalEntry::Leave {
                counter,
                wait,
                seat,
            } => self.broken_by_leave(counter, wait, seat),
            JournalEntry::Withdraw { counter, wait } => self.broken_by_withdraw(counter, wait),
            JournalEntry::Grant { list, upto, .. } => self.broken_by_grant(list, upto),
            JournalEntry::Forgo { list, number, .. } => self.broken_by_forgo(list, number),
            JournalEntry::Add { .. } | JournalEntry::AddMany { .. } | JournalEntry::Ticket { .. } =>
                None,
        }
    }

    /// Takes in one entry more.
    pub(crate) fn enter(&mut self, entry: &JournalEntry) -> Result<(), AllocError>
        requires ready { IsReady self.old entry.now }
        requires room { HasRoom (shown self.old) }
        ensures shown { OnOk result (shown self.new ≡ after (shown self.old) (entry_of entry.now)) }
        ensures sizes { HasSizesOf self.old self.new }
    {
        match *entry {
            JournalEntry::Add { counter, seat } => self.add(counter, seat, 1),
            JournalEntry::AddMany {
                counter,
                seat,
                units,
            } => self.add(counter, seat, units),
            JournalEntry::Queue {
                counter,
                wait,
                lifo,
            } => self.queue(counter, wait, lifo),
            JournalEntry::Leave { counter, seat, .. } => self.leave(counter, seat),
            JournalEntry::Forgo { list, number, .. } => self.forgo(list, number),
            JournalEntry::Take { counter, .. } => {
                self.take(counter);
                Ok(())
            }
            JournalEntry::Withdraw { counter, wait } => {
                self.withdraw(counter, wait);
                Ok(())
            }
            JournalEntry::Ticket { list, .. } => {
                self.hand_out(list);
                Ok(())
            }
            JournalEntry::Grant { list, upto, .. } => {
                self.grant(list, upto);
                Ok(())
            }
        }
    }

    /// The first counter that has a unit and on which a wait is queued.
    pub(crate) fn left_asleep(&self) -> Option<usize>
        requires { vec_len self.now.queues ≡ vec_len self.now.numbers }
        ensures { MatchOption result ((c : ℕ) → IsAsleepBeside (shown self.now) c → ⊥)
            (IsAsleepBeside (shown self.now)) }
    {
        for (counter, number) in self.numbers.iter().enumerate() {
            if *number > 0 && !self.queues[counter].is_empty() {
                return Some(counter);
            }
        }
        None
    }
}
