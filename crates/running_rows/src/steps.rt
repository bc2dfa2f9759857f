//! The steps: each is one atomic step of one word, and one stride.
ghost use Rattle.std.specs.Prelude.{◌≡◌, ◌==◌, ◌+◌, ◌-◌, ◌%◌, ◌^◌, ◌<◌};
ghost use mathlib.Core.Option.{none};
ghost use prog.Atomic.{either};
ghost use Rattle.atomic_table.specs.Table.{step};
ghost use Rattle.running_rows.specs.Strides.{looks_at, runs_access, runs_store, runs_take_or_look};
ghost use Rattle.running_rows.specs.Rule.{IsSomeones};
ghost use Rattle.running_rows.specs.Owing.{Owes, IsSeen, IsPlain, IsGrant};

use crate::families::{Rows, Start};
use crate::plays::{Looks, RunsAccess, RunsStore, RunsTakeOrLook};
use crate::rule::OneWorld;
use crate::running::Running;
use crate::view::{Token, View};

impl<S, V, T, K, R: Rows<S, V, T, K>> Running<S, View<V, T>, K, OneWorld<R>> {
    /// A look at a word, which is no row.
    #[inline]
    pub fn look(&self, token: &mut Token<S, V, T>, word: usize) -> u64
        requires own { (token.old.table_id ≡ self.now.table.shared.table_id)
            × IsSomeones R.family token.old.me.0 }
        requires word { word < self.now.table.shared.table_id.words }
        requires seen { IsSeen R.family (R.family.key self.now.table.shared.key) word }
        ensures own { token.new.table_id ≡ token.old.table_id }
        ensures went { looks_at R.family
            (step self.now.table.shared.table_id.slots word 0 0 none) token.old.me result token.new.me }
    {
        self.table.shared.load::<Looks<R, K>>(token, word)
    }

    /// A row that loads.
    #[inline]
    pub fn load<A: Start<S, V>>(&self, token: &mut Token<S, V, T>, word: usize) -> u64
        requires own { (token.old.table_id ≡ self.now.table.shared.table_id)
            × IsSomeones R.family token.old.me.0 }
        requires word { word < self.now.table.shared.table_id.words }
        requires owes { Owes R.family (R.family.key self.now.table.shared.key) token.old.me word (λ n. n)
            (runs_access R.family A.at (step self.now.table.shared.table_id.slots word 0 0 none)
            token.old.me) }
        ensures own { token.new.table_id ≡ token.old.table_id }
        ensures went { runs_access R.family A.at
            (step self.now.table.shared.table_id.slots word 0 0 none) token.old.me result token.new.me }
    {
        self.table.shared.load::<RunsAccess<A, R, K>>(token, word)
    }

    /// A row that writes `new` where it finds `old`: what it found.
    #[inline]
    pub fn exchange<A: Start<S, V>>(
        &self,
        token: &mut Token<S, V, T>,
        word: usize,
        old: u64,
        new: u64,
    ) -> u64
        requires own { (token.old.table_id ≡ self.now.table.shared.table_id)
            × IsSomeones R.family token.old.me.0 }
        requires word { word < self.now.table.shared.table_id.words }
        requires plain { IsPlain R.family (R.family.key self.now.table.shared.key) word }
        requires owes { Owes R.family (R.family.key self.now.table.shared.key) token.old.me word
            (λ n. either (n == old) new n)
            (runs_access R.family A.at (step self.now.table.shared.table_id.slots word old new none)
            token.old.me) }
        ensures own { token.new.table_id ≡ token.old.table_id }
        ensures went { runs_access R.family A.at
            (step self.now.table.shared.table_id.slots word old new none) token.old.me result token.new.me }
    {
        self.table
            .shared
            .compare_exchange::<RunsAccess<A, R, K>>(token, word, old, new)
    }

    /// A row that adds: what it found.
    #[inline]
    pub fn add<A: Start<S, V>>(&self, token: &mut Token<S, V, T>, word: usize, more: u64) -> u64
        requires own { (token.old.table_id ≡ self.now.table.shared.table_id)
            × IsSomeones R.family token.old.me.0 }
        requires word { word < self.now.table.shared.table_id.words }
        requires plain { IsPlain R.family (R.family.key self.now.table.shared.key) word }
        requires owes { Owes R.family (R.family.key self.now.table.shared.key) token.old.me word
            (λ n. (n + more) % 2 ^ 64)
            (runs_access R.family A.at (step self.now.table.shared.table_id.slots word more 0 none)
            token.old.me) }
        ensures own { token.new.table_id ≡ token.old.table_id }
        ensures went { runs_access R.family A.at
            (step self.now.table.shared.table_id.slots word more 0 none) token.old.me result token.new.me }
    {
        self.table
            .shared
            .fetch_add::<RunsAccess<A, R, K>>(token, word, more)
    }

    /// A row that takes off: what it found.
    #[inline]
    pub fn subtract<A: Start<S, V>>(
        &self,
        token: &mut Token<S, V, T>,
        word: usize,
        less: u64,
    ) -> u64
        requires own { (token.old.table_id ≡ self.now.table.shared.table_id)
            × IsSomeones R.family token.old.me.0 }
        requires word { word < self.now.table.shared.table_id.words }
        requires plain { IsPlain R.family (R.family.key self.now.table.shared.key) word }
        requires owes { Owes R.family (R.family.key self.now.table.shared.key) token.old.me word
            (λ n. (n + (2 ^ 64 - less)) % 2 ^ 64)
            (runs_access R.family A.at (step self.now.table.shared.table_id.slots word less 0 none)
            token.old.me) }
        ensures own { token.new.table_id ≡ token.old.table_id }
        ensures went { runs_access R.family A.at
            (step self.now.table.shared.table_id.slots word less 0 none) token.old.me result token.new.me }
    {
        self.table
            .shared
            .fetch_sub::<RunsAccess<A, R, K>>(token, word, less)
    }

    /// A row that stores.
    #[inline]
    pub fn store<A: Start<S, V>>(&self, token: &mut Token<S, V, T>, word: usize, new: u64)
        requires own { (token.old.table_id ≡ self.now.table.shared.table_id)
            × IsSomeones R.family token.old.me.0 }
        requires word { word < self.now.table.shared.table_id.words }
        requires plain { IsPlain R.family (R.family.key self.now.table.shared.key) word }
        requires owes { Owes R.family (R.family.key self.now.table.shared.key) token.old.me word (λ _. new)
            (λ _. runs_store R.family A.at (step self.now.table.shared.table_id.slots word new 0 none)
            token.old.me new) }
        ensures own { token.new.table_id ≡ token.old.table_id }
        ensures went { runs_store R.family A.at
            (step self.now.table.shared.table_id.slots word new 0 none) token.old.me new token.new.me }
    {
        self.table
            .shared
            .store::<RunsStore<A, R, K>>(token, word, new);
    }

    /// A look at a grant where it is 0, and else the row that takes it: what it found.
    #[inline]
    pub fn take_grant(&self, token: &mut Token<S, V, T>, word: usize) -> u64
        requires own { (token.old.table_id ≡ self.now.table.shared.table_id)
            × IsSomeones R.family token.old.me.0 }
        requires word { word < self.now.table.shared.table_id.words }
        requires grant { IsGrant R.family (R.family.key self.now.table.shared.key) word }
        requires owes { Owes R.family (R.family.key self.now.table.shared.key) token.old.me word (λ _. 0)
            (runs_take_or_look R.family (step self.now.table.shared.table_id.slots word 0 0 none)
            token.old.me) }
        ensures own { token.new.table_id ≡ token.old.table_id }
        ensures went { runs_take_or_look R.family
            (step self.now.table.shared.table_id.slots word 0 0 none) token.old.me result token.new.me }
    {
        self.table
            .shared
            .swap::<RunsTakeOrLook<R, K>>(token, word, 0)
    }
}
