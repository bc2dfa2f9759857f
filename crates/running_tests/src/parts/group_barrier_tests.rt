//! Sixteen workers that end a first wait group, and then wait for a second one.

use crate::parts::actor::reaches;
use crate::parts::group_given::{Call, Member, Team, made};
use crate::tables::given::holds;
use std::alloc::Global;
use std::process::Abort;
use std::sync::Wait;
use std::sync::atomic::{AtomicU64, Ordering};
use std::thread;
use std::thread::{Scope, Threads};

const WORKERS: u32 = 16;

const ROUNDS: u64 = 8;

/// A member of the first group and one of the second, and how far all have come.
#[derive(Drop)]
struct Worker<'g> {
    work: Member<'g>,
    barrier: Member<'g>,
    /// How many rounds have begun.
    begun: &'g AtomicU64,
    /// How often a worker has come through.
    through: &'g AtomicU64,
}

impl Worker<'_> {
    /// A worker's part in each round.
    fn comes_through<R: Abort + Wait>(self, rt: &R) {
        let mut worker = self;
        for before in 0..ROUNDS {
            reaches(rt, worker.begun, before + 1);
            worker.work.finishes(rt);
            worker.barrier.answers(rt, Call::Wait, Ok(0));
            worker.through.fetch_add(1, Ordering::SeqCst);
        }
    }

    /// Nobody comes through before the last `done` of the barrier.
    fn opens<R: Abort + Wait>(&mut self, rt: &R, before: u64) {
        for _ in 1..WORKERS {
            self.barrier.answers(rt, Call::Done, Ok(0));
            holds(rt, self.through.load(Ordering::SeqCst) == before);
        }
        holds(rt, self.barrier.finishes(rt) <= WORKERS);
    }

    /// Leads the rounds: all workers are back before the next.
    fn leads<R: Abort + Wait>(self, rt: &R) {
        let mut worker = self;
        for round in 0..ROUNDS {
            worker.work.answers(rt, Call::Add(16), Ok(0));
            worker.barrier.answers(rt, Call::Add(16), Ok(0));
            worker.begun.fetch_add(1, Ordering::SeqCst);
            worker.work.answers(rt, Call::Wait, Ok(0));
            let before = round * u64::from(WORKERS);
            worker.opens(rt, before);
            let after = before + u64::from(WORKERS);
            reaches(rt, worker.through, after);
            holds(rt, worker.through.load(Ordering::SeqCst) == after);
        }
    }
}

/// Those who haven't begun.
#[derive(Drop)]
struct Crew<'g> {
    works: Team<'g>,
    barriers: Team<'g>,
    begun: &'g AtomicU64,
    through: &'g AtomicU64,
}

impl<'g> Crew<'g> {
    fn next(&mut self, rt: &impl Abort) -> Worker<'g> {
        Worker {
            work: self.works.member(rt),
            barrier: self.barriers.member(rt),
            begun: self.begun,
            through: self.through,
        }
    }
}

/// Makes the workers, each asked for once more where none was made, and leads the rounds.
fn come_through<'s, E, R: Abort + Wait + Sync>(rt: &'s R, scope: &'s Scope<'s, E>, crew: Crew<'s>) {
    let mut crew = crew;
    for _ in 0..WORKERS {
        let worker = crew.next(rt);
        if let Err(refused) = scope.spawn(move || worker.comes_through(rt)) {
            holds(rt, scope.spawn(refused.value).is_ok());
        }
    }
    crew.next(rt).leads(rt);
}

fn all_come_through<R: Abort + Threads + Wait + Sync>(rt: &R, alloc: Global) {
    let (work, seats) = made(rt, alloc, WORKERS + 1);
    let (barrier, others) = made(rt, alloc, WORKERS + 1);
    let (begun, through) = (&AtomicU64::new(0), &AtomicU64::new(0));
    let crew = Crew {
        works: Team::new(&work, seats),
        barriers: Team::new(&barrier, others),
        begun,
        through,
    };
    thread::scope(
        thread::scope_env(),
        rt,
        move |scope| come_through(rt, scope, crew),
    );
}

#[test]
fn sixteen_wait_at_a_barrier(rt: HostRuntime) {
    all_come_through(&rt, rt.alloc());
}
