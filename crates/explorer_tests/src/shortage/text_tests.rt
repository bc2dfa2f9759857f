//! Schedules, journals and streams, and what is said of faulty texts.

use crate::shortage::rounds::{Attempt, Call, FINE, Rounds, answered, is_refused_then_answers};
use explorer_answers::{Flagged, IoFault, explain, explain_journal, read_all, read_at_most};
use journal::{Journal, JournalEntry, JournalFault, Verdict, judge, read_journal};
use scenario_text::{Cause, ReadFault, read_schedule};
use std::alloc::{AllocError, Global};
use waiters::SeatId;

const SEATS: [SeatId; 5] = [SeatId(0), SeatId(1), SeatId(15), SeatId(0), SeatId(2)];

#[derive(Drop)]
struct ReadingSchedule;

impl Call for ReadingSchedule {
    fn attempt(&mut self, alloc: Global) -> Attempt {
        match read_schedule(alloc, "0 1 15 0 2") {
            Ok(Some(seats)) => answered(seats.as_slice() == SEATS.as_slice()),
            Ok(None) => Attempt::Wrong,
            Err(AllocError) => Attempt::Refused,
        }
    }
}

#[test]
fn a_schedule_is_refused_or_read(rt: HostRuntime) {
    is_refused_then_answers(&rt, rt.alloc(), FINE, &mut ReadingSchedule);
}

/// What came of a text that is told.
fn told(answer: Result<String, AllocError>, expected: &str) -> Attempt {
    match answer {
        Ok(text) => answered(text.as_str() == expected),
        Err(AllocError) => Attempt::Refused,
    }
}

const NO_LINE: &str =
    "line 2: no line is spelled \"foo\": roots N, counter S, list F, group, seat K: CALLS, settled, \
                       value C N, no-misuse, no-lost\n";

#[derive(Drop)]
struct Explaining;

impl Call for Explaining {
    fn attempt(&mut self, alloc: Global) -> Attempt {
        let fault = ReadFault {
            line: 2,
            cause: Cause::Form,
        };
        told(explain(alloc, b"counter 0\nfoo\n", fault), NO_LINE)
    }
}

const NO_ENTRY: &str =
    "line 2: no line is spelled \"takee 0 1\" here: counter N and list F come first, and then add C S, \
                        add C S many N, take C S, queue C S.T, queue C S.T lifo, leave C S.T R, withdraw C S.T, \
                        ticket L S, grant L UPTO S, forgo L N S, each of a counter or list that is declared; a line feed ends each line\n";

#[derive(Drop)]
struct ExplainingJournal;

impl Call for ExplainingJournal {
    fn attempt(&mut self, alloc: Global) -> Attempt {
        told(
            explain_journal(alloc, b"counter 1\ntakee 0 1\n", 2),
            NO_ENTRY,
        )
    }
}

#[test]
fn faults_are_refused_or_explained(rt: HostRuntime) {
    is_refused_then_answers(&rt, rt.alloc(), FINE, &mut Explaining);
    is_refused_then_answers(&rt, rt.alloc(), FINE, &mut ExplainingJournal);
}

/// Seat 0 takes the unit that seat 1 would have needed.
const JOURNAL: &[u8] = b"counter 1\nlist 9\ntake 0 0\ntake 0 1\n";

fn is_the_journal(journal: &Journal) -> bool {
    let [
        JournalEntry::Take {
            counter: 0,
            seat: 0,
        },
        JournalEntry::Take {
            counter: 0,
            seat: 1,
        },
    ] = journal.entries.as_slice()
    else {
        return false;
    };
    journal.starts.as_slice() == [1].as_slice() && journal.lists == 1 && journal.heads == 2
}

#[derive(Drop)]
struct ReadingJournal;

impl Call for ReadingJournal {
    fn attempt(&mut self, alloc: Global) -> Attempt {
        match read_journal(alloc, JOURNAL) {
            Ok(journal) => answered(is_the_journal(&journal)),
            Err(JournalFault::NoMemory) => Attempt::Refused,
            Err(_) => Attempt::Wrong,
        }
    }
}

#[test]
fn a_journal_is_refused_or_read(rt: HostRuntime) {
    is_refused_then_answers(&rt, rt.alloc(), FINE, &mut ReadingJournal);
}

/// A journal, and the line that no lawful one has there, if there is one.
#[derive(Drop)]
struct Judging(&'static [u8], Option<usize>);

impl Call for Judging {
    fn attempt(&mut self, alloc: Global) -> Attempt {
        let Ok(journal) = read_journal(alloc, self.0) else {
            return Attempt::Unasked;
        };
        match judge(alloc, &journal) {
            Ok(Verdict::Lawful) => answered(self.1 == None),
            Ok(Verdict::Unlawful { line, .. }) => answered(self.1 == Some(line)),
            Err(_) => Attempt::Refused,
        }
    }
}

/// Seat 0 sleeps, and leaves for a release by seat 1. Seat 2 takes a ticket, and seat 1 grants it.
const LAWFUL: &[u8] =
    b"counter 0\nlist 0\nqueue 0 0.0\nadd 0 1\nleave 0 0.0 1\nticket 0 2\ngrant 0 1 1\n";

#[test]
fn a_journal_is_refused_or_judged(rt: HostRuntime) {
    is_refused_then_answers(&rt, rt.alloc(), FINE, &mut Judging(JOURNAL, Some(4)));
    is_refused_then_answers(&rt, rt.alloc(), FINE, &mut Judging(LAWFUL, None));
}

/// What came of a read of these bytes.
fn read(answer: Result<Result<Vec<u8>, AllocError>, IoFault>, expected: &[u8]) -> Attempt {
    match answer {
        Ok(Ok(bytes)) => answered(bytes.as_slice() == expected),
        Ok(Err(AllocError)) => Attempt::Refused,
        Err(_) => Attempt::Wrong,
    }
}

#[derive(Drop)]
struct ReadingAtMost;

impl Call for ReadingAtMost {
    fn attempt(&mut self, alloc: Global) -> Attempt {
        let mut reader = Flagged::new(b"0123".as_slice());
        read(read_at_most(alloc, &mut reader, 3), b"012")
    }
}

#[derive(Drop)]
struct ReadingAll;

impl Call for ReadingAll {
    fn attempt(&mut self, alloc: Global) -> Attempt {
        let mut reader = Flagged::new(b"0123".as_slice());
        read(read_all(alloc, &mut reader), b"0123")
    }
}

/// Two steps are one piece of 65,536 bytes, and nothing more.
const HALF_PIECES: Rounds = Rounds {
    most: 5,
    step: 32776,
};

#[test]
fn a_stream_is_refused_or_read(rt: HostRuntime) {
    is_refused_then_answers(&rt, rt.alloc(), FINE, &mut ReadingAtMost);
    is_refused_then_answers(&rt, rt.alloc(), HALF_PIECES, &mut ReadingAll);
}
