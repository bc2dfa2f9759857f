//! Sleeping until a grant, and waking who sleeps.
//!
//! Each grant word has a word beside it, which counts the threads that sleep there, or are about to: one, or
//! none. Who sleeps counts itself, then looks at the grant, then sleeps; who grants stores the grant, then looks
//! at the count. All four are in one order, the same for all threads: either the sleeper's look finds the grant,
//! or it was counted before the granter's look, which finds it and calls the kernel. So no grant is missed, and
//! where nobody sleeps the kernel isn't called.
//!
//! A notification of all stores many grants, and leaves most wake-ups to those that it woke
//! ([`Running::pass_grant`], [`Running::wake`]).
ghost use Rattle.std.specs.Prelude.{◌≡◌, ◌<◌, ◌≤◌, ◌^◌};
ghost use mathlib.Core.Option.{none};
ghost use Rattle.atomic_table.specs.Table.{step};
ghost use Rattle.running_rows.specs.Strides.{grants, runs_grant, runs_take_or_nothing, RanRow, here};
ghost use Rattle.running_rows.specs.Rule.{IsSomeones};
ghost use Rattle.running_rows.specs.Owing.{Owes, IsAside, IsGrant, IsPlain};
ghost use Rattle.running_rows.specs.Futex.{grant_at};
ghost use Rattle.running_rows.specs.Parking.{IsOwing};
ghost use Rattle.running_rows.specs.Sleeping.{AreThere, IsShort};

use crate::families::Rows;
use crate::kernel::Kernel;
use crate::plays::{PassesGrant, RunsGrant, RunsTakeOrNothing, SetsAside};
use crate::rule::OneWorld;
use crate::running::Running;
use crate::view::{Token, View};
use std::hint;
use std::marker::PhantomData;
use std::sync::Wait;
use std::time::Duration;

/// How long a thread looks for its grant before it sleeps: a grant that comes meanwhile costs no call of the
/// kernel. After waits in which it looked in vain it looks the less, and from time to time as long as at
/// first: on a busy machine who grants may be off its processor for longer than anybody should look.
pub struct Patience {
    /// At most 16.
    pub rounds: u32,
    /// How many looks a round has, at most 4,096.
    pub looks: u64,
    /// When the thread sleeps at once.
    pub gives_way: GivesWay,
}

/// When a thread sleeps with no look before.
pub enum GivesWay {
    /// It looks each time.
    Never,
    /// Where the number of the first word is above that of the second by more than 2: many that look would
    /// keep those that they wait for off the processors. By 2 it is for a moment where two wait for each
    /// other in turn.
    Crowded { ahead: usize, behind: usize },
}

/// What came of looking for a grant.
#[derive(Drop)]
enum Looked {
    Granted,
    InVain,
    /// Others wait too.
    Crowded,
}

/// Of so many waits in vain, one after the other, one looks as long as the first.
const PROBE: u64 = 256;
/// So often halved, the looks are few.
const HALVINGS: u64 = 8;
/// So many waits are no crowd.
const FEW: u64 = 2;

impl Patience {
    /// How many looks a round has after so many waits in vain.
    fn looks_after(&self, missed: u64) -> u64
        ensures { result ≤ self.now.looks }
    {
        if missed % PROBE == 0 {
            self.looks
        } else {
            self.looks >> missed.min(HALVINGS)
        }
    }
}

impl<S, V, T, K, R: Rows<S, V, T, K>> Running<S, View<V, T>, K, OneWorld<R>> {
    /// Whether the word is above 0 at one of so many looks, 4,096 at most. The first argument has no bytes: it names the
    /// type of views, for whose size a caller answers.
    #[inline]
    pub fn is_above_zero_soon(
        &self,
        _views: PhantomData<View<V, T>>,
        word: usize,
        looks: u64,
    ) -> bool
        requires word { word < self.now.table.shared.table_id.words }
        requires few { looks ≤ 2 ^ 12 }
    {
        for _ in 0..looks {
            if self.table.shared.peek(word) != 0 {
                return true;
            }
            hint::spin_loop();
        }
        false
    }

    /// Whether the numbers of two words, which go round, are more than [`FEW`] apart.
    fn is_crowded(&self, _token: &Token<S, V, T>, ahead: usize, behind: usize) -> bool
        requires { (ahead < self.now.table.shared.table_id.words)
            × (behind < self.now.table.shared.table_id.words) }
    {
        let last = self.table.shared.peek(behind);
        self.table.shared.peek(ahead).wrapping_sub(last) > FEW
    }

    /// Looks at a grant for as long as the thread has patience after so many waits in vain.
    fn look_for_grant(
        &self,
        token: &Token<S, V, T>,
        word: usize,
        patience: &Patience,
        missed: u64,
    ) -> Looked
        requires there { (word < self.now.table.shared.table_id.words)
            × AreThere self.now.table.shared.table_id.words patience.now.gives_way }
        requires short { IsShort patience.now }
    {
        let looks = patience.looks_after(missed);
        for _ in 0..patience.rounds {
            // Asked in each round: others may come while the thread looks.
            let crowded = match patience.gives_way {
                GivesWay::Never => false,
                GivesWay::Crowded { ahead, behind } => self.is_crowded(token, ahead, behind),
            };
            if crowded {
                return Looked::Crowded;
            }
            if self.is_above_zero_soon(PhantomData, word, looks) {
                return Looked::Granted;
            }
        }
        Looked::InVain
    }

    /// Returns once the grant is above 0, and perhaps before; where a longest time is given, once that is over
    /// too. Nobody but the seat takes what is granted, so it looks with no row.
    pub fn await_grant<W: Wait>(
        &self,
        rt: &W,
        token: &mut Token<S, V, T>,
        word: usize,
        asleep: usize,
        misses: usize,
        patience: &Patience,
        longest: Option<Duration>,
    )
        requires own { token.old.table_id ≡ self.now.table.shared.table_id }
        requires words { (word < self.now.table.shared.table_id.words)
            × (asleep < self.now.table.shared.table_id.words)
            × (misses < self.now.table.shared.table_id.words) }
        requires there { AreThere self.now.table.shared.table_id.words patience.now.gives_way }
        requires short { IsShort patience.now }
        requires futex { R.family.IsFutex (R.family.key self.now.table.shared.key) (grant_at word asleep) }
        requires aside { IsAside R.family (R.family.key self.now.table.shared.key) misses
            × IsPlain R.family (R.family.key self.now.table.shared.key) misses }
        ensures same { (token.new.table_id ≡ token.old.table_id) × (token.new.me ≡ token.old.me) }
    {
        let missed = self.table.shared.peek(misses);
        let looked = self.look_for_grant(token, word, patience, missed);
        self.learn(token, misses, missed, &looked);
        if let Looked::Granted = looked {
            return;
        }
        self.begin_sleep(rt, token, asleep);
        self.sleep_at_grant(rt, token, word, asleep, longest);
        self.end_sleep(token, asleep);
    }

    /// Counts the waits in vain, one after the other. A thread that gave way to others has learnt nothing.
    fn learn(&self, token: &mut Token<S, V, T>, misses: usize, missed: u64, looked: &Looked)
        requires own { token.old.table_id ≡ self.now.table.shared.table_id }
        requires low { misses < self.now.table.shared.table_id.words }
        requires aside { IsAside R.family (R.family.key self.now.table.shared.key) misses
            × IsPlain R.family (R.family.key self.now.table.shared.key) misses }
        ensures same { (token.new.table_id ≡ token.old.table_id) × (token.new.me ≡ token.old.me) }
    {
        let now = match looked {
            Looked::Granted => 0,
            Looked::InVain => missed.wrapping_add(1),
            Looked::Crowded => missed,
        };
        if now != missed {
            self.set_aside(token, misses, now);
        }
    }

    /// Waits until there is a grant, and takes it, which is one row: a look that finds none is no stride.
    pub fn take_when_granted<W: Wait>(
        &self,
        rt: &W,
        token: &mut Token<S, V, T>,
        word: usize,
        asleep: usize,
        misses: usize,
        patience: &Patience,
    ) -> u64
        requires own { (token.old.table_id ≡ self.now.table.shared.table_id)
            × IsSomeones R.family token.old.me.0 }
        requires words { (word < self.now.table.shared.table_id.words)
            × (asleep < self.now.table.shared.table_id.words)
            × (misses < self.now.table.shared.table_id.words) }
        requires there { AreThere self.now.table.shared.table_id.words patience.now.gives_way }
        requires short { IsShort patience.now }
        requires futex { R.family.IsFutex (R.family.key self.now.table.shared.key) (grant_at word asleep) }
        requires aside { IsAside R.family (R.family.key self.now.table.shared.key) misses
            × IsPlain R.family (R.family.key self.now.table.shared.key) misses }
        requires owes { Owes R.family (R.family.key self.now.table.shared.key) token.old.me word (λ _. 0)
            (runs_take_or_nothing R.family (step self.now.table.shared.table_id.slots word 0 0 none)
            token.old.me) }
        ensures own { token.new.table_id ≡ token.old.table_id }
        ensures some { 0 < result }
        ensures went { RanRow R.family here token.old.me result token.new.me }
    {
        for _ in rt.forever() {
            self.await_grant(rt, token, word, asleep, misses, patience, None);
            // Taken in the same step: a grant that stayed would wake the seat's next wait too.
            let found = self
                .table
                .shared
                .swap::<RunsTakeOrNothing<R, K>>(token, word, 0);
            if found != 0 {
                return found;
            }
        }
        unreachable!()
    }

    /// A row that stores a grant; the thread that sleeps until then is woken.
    #[inline]
    pub fn grant<N: Kernel>(
        &self,
        token: &mut Token<S, V, T>,
        word: usize,
        asleep: usize,
        units: u64,
    )
        requires own { (token.old.table_id ≡ self.now.table.shared.table_id)
            × IsSomeones R.family token.old.me.0 }
        requires words { (word < self.now.table.shared.table_id.words)
            × (asleep < self.now.table.shared.table_id.words) }
        requires kernel { N.serves (R.family.has_threads (R.family.key self.now.table.shared.key)) }
        requires futex { R.family.IsFutex (R.family.key self.now.table.shared.key) (grant_at word asleep) }
        requires owes { Owes R.family (R.family.key self.now.table.shared.key) token.old.me word (λ _. units)
            (λ _. runs_grant R.family (step self.now.table.shared.table_id.slots word units 0 none)
            token.old.me units) }
        ensures own { token.new.table_id ≡ token.old.table_id }
        ensures went { runs_grant R.family
            (step self.now.table.shared.table_id.slots word units 0 none) token.old.me units token.new.me }
    {
        self.store_grant(token, word, asleep, units);
        // Looked at after the grant is stored: who was counted later finds it, and doesn't sleep.
        self.rouse_at_grant::<N>(token, word, asleep);
    }

    /// The row alone: the thread owes a look for who sleeps there.
    #[inline]
    fn store_grant(&self, token: &mut Token<S, V, T>, word: usize, _asleep: usize, units: u64)
        requires own { (token.old.table_id ≡ self.now.table.shared.table_id)
            × IsSomeones R.family token.old.me.0 }
        requires low { word < self.now.table.shared.table_id.words }
        requires futex { R.family.IsFutex (R.family.key self.now.table.shared.key) (grant_at word _asleep) }
        requires owes { Owes R.family (R.family.key self.now.table.shared.key) token.old.me word (λ _. units)
            (λ _. runs_grant R.family (step self.now.table.shared.table_id.slots word units 0 none)
            token.old.me units) }
        ensures own { token.new.table_id ≡ token.old.table_id }
        ensures went { grants R.family (step self.now.table.shared.table_id.slots word units 0 none)
            token.old.me units token.new.me }
        ensures owing { IsOwing word token.new.me.0.parking }
    {
        self.table
            .shared
            .store::<RunsGrant<R, K>>(token, word, units);
    }

    /// The same row, and nobody is woken: that is for another, by [`Running::wake`] behind it.
    #[inline]
    pub fn pass_grant(&self, token: &mut Token<S, V, T>, word: usize, units: u64)
        requires own { (token.old.table_id ≡ self.now.table.shared.table_id)
            × IsSomeones R.family token.old.me.0 }
        requires low { word < self.now.table.shared.table_id.words }
        requires grant { IsGrant R.family (R.family.key self.now.table.shared.key) word }
        requires passes { R.family.MayPass token.old.me.0.own.knows }
        requires owes { Owes R.family (R.family.key self.now.table.shared.key) token.old.me word (λ _. units)
            (λ _. runs_grant R.family (step self.now.table.shared.table_id.slots word units 0 none)
            token.old.me units) }
        ensures own { token.new.table_id ≡ token.old.table_id }
        ensures went { runs_grant R.family
            (step self.now.table.shared.table_id.slots word units 0 none) token.old.me units token.new.me }
    {
        self.table
            .shared
            .store::<PassesGrant<R, K>>(token, word, units);
    }

    /// Wakes the thread that sleeps at a grant, where one does and the grant is there: a call of the kernel
    /// costs more than the rest of a release.
    pub fn wake(&self, _token: &Token<S, V, T>, word: usize, asleep: usize)
        requires { (word < self.now.table.shared.table_id.words)
            × (asleep < self.now.table.shared.table_id.words) }
    {
        if self.table.shared.peek(asleep) != 0 && self.table.shared.peek(word) != 0 {
            self.table.shared.wake_one(word);
        }
    }

    /// Sets a number aside, in a word of which the world knows nothing.
    pub fn set_aside(&self, token: &mut Token<S, V, T>, word: usize, number: u64)
        requires own { token.old.table_id ≡ self.now.table.shared.table_id }
        requires low { word < self.now.table.shared.table_id.words }
        requires aside { IsAside R.family (R.family.key self.now.table.shared.key) word
            × IsPlain R.family (R.family.key self.now.table.shared.key) word }
        ensures same { (token.new.table_id ≡ token.old.table_id) × (token.new.me ≡ token.old.me) }
    {
        self.table.shared.store::<SetsAside>(token, word, number);
    }

    /// The number that was set aside there.
    pub fn aside(&self, _token: &Token<S, V, T>, word: usize) -> u64
        requires low { word < self.now.table.shared.table_id.words }
        requires aside { IsAside R.family (R.family.key self.now.table.shared.key) word }
    {
        self.table.shared.peek(word)
    }
}
