//! What is played around a wait group by threads.

use crate::parts::group_given::{Call, Member, Team, made};
use crate::parts::group_parts::{Part, begin};
use crate::parts::group_races::{begins_anew, races};
use crate::tables::given::holds;
use std::alloc::Global;
use std::process::Abort;
use std::sync::Wait;
use std::sync::atomic::{AtomicU64, Ordering};
use std::thread;
use std::thread::{Scope, Threads};

#[derive(Clone, Copy, Drop)]
enum Scene {
    /// An add may run beside a wait.
    Race,
    /// A round is begun before the wait of the last one is back.
    Anew,
    /// Three workers are waited for.
    Fork,
    /// Two are waited for that set a flag each, and see the other's.
    Flags,
}

/// What the threads of a scene share beside the group.
#[derive(Drop)]
struct Words {
    sum: AtomicU64,
    left: AtomicU64,
    right: AtomicU64,
}

impl Words {
    fn new() -> Words {
        Words {
            sum: AtomicU64::new(0),
            left: AtomicU64::new(0),
            right: AtomicU64::new(0),
        }
    }
}

/// What each of the workers adds.
static SHARES: [u64; 3] = [1, 20, 300];

/// Forks three workers and waits for them: each has added its share then.
fn forks_and_joins<'s, E, R: Abort + Threads + Wait + Sync>(
    rt: &'s R,
    scope: &'s Scope<'s, E>,
    first: &mut Member<'s>,
    team: &mut Team<'s>,
    sum: &'s AtomicU64,
) {
    first.answers(rt, Call::Add(3), Ok(0));
    for share in &SHARES {
        begin(rt, scope, team.member(rt), Part::Works(*share, sum));
    }
    first.answers(rt, Call::Wait, Ok(0));
    holds(rt, sum.load(Ordering::SeqCst) == 321);
}

/// Waits for two who can't end one after the other: each is done once it sees the flag of the other.
fn sets_two_flags<'s, E, R: Abort + Threads + Wait + Sync>(
    rt: &'s R,
    scope: &'s Scope<'s, E>,
    first: &mut Member<'s>,
    team: &mut Team<'s>,
    words: &'s Words,
) {
    first.answers(rt, Call::Add(2), Ok(0));
    begin(
        rt,
        scope,
        team.member(rt),
        Part::Signals(&words.left, &words.right),
    );
    begin(
        rt,
        scope,
        team.member(rt),
        Part::Signals(&words.right, &words.left),
    );
    first.answers(rt, Call::Wait, Ok(0));
    holds(
        rt,
        words.left.load(Ordering::SeqCst) == 1 && words.right.load(Ordering::SeqCst) == 1,
    );
}

impl Scene {
    fn seats(self) -> u32 {
        match self {
            Scene::Anew => 2,
            Scene::Race | Scene::Flags => 3,
            Scene::Fork => 4,
        }
    }

    fn plays<'s, E, R: Abort + Threads + Wait + Sync>(
        self,
        rt: &'s R,
        scope: &'s Scope<'s, E>,
        team: Team<'s>,
        words: &'s Words,
    ) {
        let mut team = team;
        let mut first = team.member(rt);
        match self {
            Scene::Race => races(rt, scope, &mut first, &mut team),
            Scene::Anew => begins_anew(rt, scope, &mut first, &mut team),
            Scene::Fork => forks_and_joins(rt, scope, &mut first, &mut team, &words.sum),
            Scene::Flags => sets_two_flags(rt, scope, &mut first, &mut team, words),
        }
    }
}

fn in_scope<R: Abort + Threads + Wait + Sync>(rt: &R, scene: Scene, team: Team<'_>, words: &Words) {
    thread::scope(
        thread::scope_env(),
        rt,
        move |scope| scene.plays(rt, scope, team, words),
    );
}

/// Scenes, and how often each is played.
static SCENES: [(Scene, u32); 4] = [
    (Scene::Race, 500),
    (Scene::Anew, 500),
    (Scene::Fork, 200),
    (Scene::Flags, 1),
];

/// The scene in a new group.
fn play<R: Abort + Threads + Wait + Sync>(rt: &R, alloc: Global, scene: Scene) {
    let (group, seats) = made(rt, alloc, scene.seats());
    let words = Words::new();
    in_scope(rt, scene, Team::new(&group, seats), &words);
}

/// One round of all scenes.
fn play_all<R: Abort + Threads + Wait + Sync>(rt: &R, alloc: Global, round: u32) {
    for row in &SCENES {
        if round < row.1 {
            play(rt, alloc, row.0);
        }
    }
}

#[test]
fn scenes_end_as_known(rt: HostRuntime) {
    // round after round, so that the first allocations are those of each scene
    for round in 0..500 {
        play_all(&rt, rt.alloc(), round);
    }
}
