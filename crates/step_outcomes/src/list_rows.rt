//! The rows of a notify list: Go's `notifyList`.
//!
//! Who gives up looks for its wait under the lock (E1): it takes it out and its ticket is gone (E3), or a
//! notification has done so, and its grant comes (E5). Go has no such rows.
//!
//! A wait takes its ticket first and queues later, so a notification that comes between grants a ticket whose
//! wait isn't in the list yet: the wait sees that under the lock (W2), and doesn't sleep. Grants are stored
//! after the lock was given back (O9, L8).

ghost use Rattle.std.specs.Prelude.{◌≡◌, ◌<◌, ◌+◌, ◌^◌, ℕ, List, slice_get, IfSome};
ghost use Rattle.waiters.specs.declared.wait.Wait.{Wait};
ghost use Rattle.step_table.specs.ListWorld.{ListWords, ListSeat};
ghost use Rattle.step_table.specs.ListEvent.{take_ticket};
ghost use Rattle.step_table.specs.ListTable.{wait_for, parked_event, wait_event, one_event, all_event, list_event_at};
ghost use Rattle.step_outcomes.specs.ListOutcomes.{IsSeen, ListDoes, HasListWord};

use crate::list_outcome::{ListOutcome, ListSight, does, goes};
use step_table::{
    AllRow, ListEffect, ListParkedRow, ListPlace, ListWord, OneRow, Reach, Ticket, WaitRow, less,
    minus, next_word,
};
use waiters::{SeatId, Wait, WaitId};

/// The word of the event of the row at this place.
pub fn word_of(seat: SeatId, place: ListPlace, sight: &ListSight) -> ListWord
    ensures within { (seats : ℕ) → seat < seats → IfSome sight.now.in_hand (λ wait. wait.id.seat < seats)
        → HasListWord seats result }
    ensures word { (g : ListWords) (stand : ListSeat) → slice_get stand.hand 0 ≡ sight.now.in_hand
        → result ≡ (list_event_at seat stand g place).word }
{
    match place {
        ListPlace::Rest => ListWord::Grant(seat),
        ListPlace::Adding => ListWord::Wait,
        ListPlace::Waiting(_, row) => match row {
            WaitRow::W1 | WaitRow::W3 | WaitRow::W4 | WaitRow::E4 => ListWord::Lock,
            WaitRow::W2 => ListWord::Notify,
            WaitRow::Parked(row) => match row {
                ListParkedRow::P => ListWord::Grant(seat),
                ListParkedRow::E1 | ListParkedRow::E5 => ListWord::Lock,
                ListParkedRow::E2 | ListParkedRow::E3(_) => ListWord::Notify,
            },
        },
        ListPlace::NotifyingOne(_, row) => match row {
            OneRow::O1 | OneRow::O5(_) => ListWord::Wait,
            OneRow::O2(_) | OneRow::O4 | OneRow::O7(_) => ListWord::Notify,
            OneRow::O3 | OneRow::O6 | OneRow::O8(_) => ListWord::Lock,
            OneRow::O9 => ListWord::Grant(sight.waiter(seat)),
        },
        ListPlace::NotifyingAll(_, row) => match row {
            AllRow::L1 | AllRow::L5(_) => ListWord::Wait,
            AllRow::L2(_) | AllRow::L4 | AllRow::L6(_) => ListWord::Notify,
            AllRow::L3 | AllRow::L7(_) => ListWord::Lock,
            AllRow::L8 => ListWord::Grant(sight.waiter(seat)),
        },
    }
}

/// The wait of the seat for the ticket.
fn wait_for(seat: SeatId, ticket: Ticket) -> Wait
    ensures { result ≡ wait_for seat ticket }
{
    let turn = ticket.number;
    Wait {
        id: WaitId { seat, turn },
        ticket: ticket.word,
    }
}

/// What a row of a seat does that is parked, where its word is `found`.
fn parked_outcome(
    seat: SeatId,
    ticket: Ticket,
    row: ListParkedRow,
    sight: &ListSight,
    found: u64,
) -> Option<ListOutcome>
    ensures { (g : ListWords) (hand : List Wait)
        → IsSeen seat g hand (ListPlace.Waiting ticket (WaitRow.Parked row)) sight.now
        → ListDoes (parked_event seat ticket g row) found result }
{
    let at = |row| ListPlace::Waiting(ticket, WaitRow::Parked(row));
    match row {
        ListParkedRow::P => match found {
            0 => None,
            _ => goes(0, ListPlace::Rest),
        },
        ListParkedRow::E1 => match found {
            0 if sight.waits => goes(1, at(ListParkedRow::E2)),
            0 => goes(1, at(ListParkedRow::E5)),
            _ => None,
        },
        ListParkedRow::E2 => goes(found, at(ListParkedRow::E3(found))),
        ListParkedRow::E3(_) => does(
            sight.next,
            ListPlace::Waiting(ticket, WaitRow::E4),
            ListEffect::Forgoes(wait_for(seat, ticket)),
        ),
        ListParkedRow::E5 => goes(0, at(ListParkedRow::P)),
    }
}

/// What a row of a wait does where its word is `found`; `None` where its condition doesn't hold.
fn wait_outcome(
    seat: SeatId,
    ticket: Ticket,
    row: WaitRow,
    sight: &ListSight,
    found: u64,
) -> Option<ListOutcome>
    ensures { (g : ListWords) (hand : List Wait) → IsSeen seat g hand (ListPlace.Waiting ticket row) sight.now
        → ListDoes (wait_event seat ticket g row) found result }
{
    let at = |row| ListPlace::Waiting(ticket, row);
    match row {
        WaitRow::W1 => match found {
            0 => goes(1, at(WaitRow::W2)),
            _ => None,
        },
        WaitRow::W2 if less(ticket.word, found) => goes(found, at(WaitRow::W3)),
        WaitRow::W2 => goes(found, at(WaitRow::W4)),
        WaitRow::W3 | WaitRow::E4 => goes(0, ListPlace::Rest),
        WaitRow::W4 => does(
            0,
            at(WaitRow::Parked(ListParkedRow::P)),
            ListEffect::Queues(wait_for(seat, ticket)),
        ),
        WaitRow::Parked(row) => parked_outcome(seat, ticket, row, sight, found),
    }
}

/// The same of a row of a notification of one, at whose first look `handed` tickets were handed out.
fn one_outcome(handed: u64, row: OneRow, sight: &ListSight, found: u64) -> Option<ListOutcome>
    requires { sight.now.passed + 1 < 2 ^ 64 }
    ensures { (seat : ℕ) (g : ListWords) (hand : List Wait)
        → IsSeen seat g hand (ListPlace.NotifyingOne handed row) sight.now
        → ListDoes (one_event seat hand g handed row) found result }
{
    let at = |row| ListPlace::NotifyingOne(handed, row);
    match row {
        OneRow::O1 => goes(
            found,
            ListPlace::NotifyingOne(sight.handed, OneRow::O2(found)),
        ),
        OneRow::O2(waited) if waited == found => goes(found, ListPlace::Rest),
        OneRow::O2(_) => goes(found, at(OneRow::O3)),
        OneRow::O3 => match found {
            0 => goes(1, at(OneRow::O4)),
            _ => None,
        },
        OneRow::O4 => goes(found, at(OneRow::O5(found))),
        OneRow::O5(notified) if found == notified => goes(found, at(OneRow::O6)),
        OneRow::O5(notified) => goes(found, at(OneRow::O7(notified))),
        OneRow::O6 => goes(0, ListPlace::Rest),
        OneRow::O7(notified) => does(
            sight.next,
            at(OneRow::O8(notified)),
            ListEffect::Grants(sight.passed + 1),
        ),
        OneRow::O8(notified) => match sight.asked {
            None => goes(0, ListPlace::Rest),
            Some(_) => does(0, at(OneRow::O9), ListEffect::TakesOut(notified)),
        },
        OneRow::O9 => does(1, ListPlace::Rest, ListEffect::Gives),
    }
}

/// The same of a row of a notification of all.
fn all_outcome(handed: u64, row: AllRow, sight: &ListSight, found: u64) -> Option<ListOutcome>
    ensures { (seat : ℕ) (g : ListWords) (hand : List Wait)
        → IsSeen seat g hand (ListPlace.NotifyingAll handed row) sight.now
        → ListDoes (all_event seat hand g handed row) found result }
{
    let at = |row| ListPlace::NotifyingAll(handed, row);
    match row {
        AllRow::L1 => goes(
            found,
            ListPlace::NotifyingAll(sight.handed, AllRow::L2(found)),
        ),
        AllRow::L2(waited) if waited == found => goes(found, ListPlace::Rest),
        AllRow::L2(_) => goes(found, at(AllRow::L3)),
        AllRow::L3 => match found {
            0 => goes(1, at(AllRow::L4)),
            _ => None,
        },
        AllRow::L4 => goes(found, at(AllRow::L5(found))),
        AllRow::L5(notified) => {
            let reach = Reach {
                notified,
                waited: found,
                handed: sight.handed,
            };
            goes(found, at(AllRow::L6(reach)))
        }
        AllRow::L6(reach) => {
            let passed = minus(reach.waited, reach.notified);
            let next = at(AllRow::L7(passed.saturating_sub(sight.gone as u64)));
            if reach.notified == reach.waited {
                goes(reach.waited, next)
            } else {
                does(reach.waited, next, ListEffect::Grants(reach.handed))
            }
        }
        AllRow::L7(_) => match sight.queued {
            None => does(0, ListPlace::Rest, ListEffect::TakesAll),
            Some(_) => does(0, at(AllRow::L8), ListEffect::TakesAll),
        },
        AllRow::L8 if 1 < sight.held => does(1, at(AllRow::L8), ListEffect::Gives),
        AllRow::L8 => does(1, ListPlace::Rest, ListEffect::Gives),
    }
}

/// What the row at this place does where its word is `found`; `None` where its condition doesn't hold.
pub fn outcome_of(
    seat: SeatId,
    place: ListPlace,
    sight: &ListSight,
    found: u64,
) -> Option<ListOutcome>
    requires { sight.now.passed + 1 < 2 ^ 64 }
    ensures { (g : ListWords) (stand : ListSeat) → IsSeen seat g stand.hand place sight.now
        → ListDoes (list_event_at seat stand g place) found result }
{
    match place {
        ListPlace::Rest => None,
        ListPlace::Adding => {
            let ticket = Ticket {
                word: found,
                number: sight.handed,
            };
            does(
                next_word(found),
                ListPlace::Rest,
                ListEffect::HandsOut(ticket),
            )
        }
        ListPlace::Waiting(ticket, row) => wait_outcome(seat, ticket, row, sight, found),
        ListPlace::NotifyingOne(handed, row) => one_outcome(handed, row, sight, found),
        ListPlace::NotifyingAll(handed, row) => all_outcome(handed, row, sight, found),
    }
}
