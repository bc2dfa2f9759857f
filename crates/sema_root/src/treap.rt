//! Which list each counter's waits stand in, as a treap: a search tree by counters that is a heap by tickets.
ghost use Rattle.std.specs.Prelude.{◌≡◌, ◌↔◌, ℕ, ◌<◌, MatchOption, IfOk, IsTrue, OnOk, OnErr, Some};
ghost use Rattle.waiters.specs.Lists.{IsOpen};
ghost use Rattle.sema_root.specs.Tree.{IsTreap, leaf, sought, top_counter, top_place, top_value};
ghost use Rattle.sema_root.specs.Planted.{Enters, IsFound, Leaves};

use crate::branches::{Branches, leave, list_for};
use crate::listed::Listed;
use crate::nodes::{counter_at, list_of, place_of};
use crate::place::TreapPlace;
use slab::Slab;
use std::alloc::{AllocError, Global};
use std::marker::Model;
use waiters::slabs::{copy_values, reserve_as};
use waiters::{CounterId, ListKey, Lists, NoMemory};

/// Counters with their lists and tickets, in nodes that are reserved once.
#[derive(Drop)]
pub(crate) struct Treap {
    branches: Branches,
    reserved: usize,
}

impl Model for Treap {
    ghost use Rattle.std.specs.Prelude.{◌-◌};
    ghost use Rattle.slab.specs.Slab.{slab_len};
    ghost use Rattle.sema_root.specs.Planted.{Planted, planted_code};
    ghost use Rattle.sema_root.specs.Linked.{tree_at};
    ghost use Rattle.sema_root.specs.Hanging.{IsPlanted};

    ghost Value = { Planted };

    ghost coded = { planted_code };

    ghost view = { λ t. record {
      tree = tree_at t.branches.nodes t.branches.top;
      room = t.reserved - slab_len t.branches.nodes;
    } };

    ghost invariant = { λ t. IsPlanted t.branches t.reserved };
}

impl Treap {
    /// An empty treap with memory for so many nodes. No later call takes memory.
    pub(crate) fn with_room(alloc: Global, nodes: usize) -> Result<Treap, NoMemory>
        ensures empty { IfOk result (λ made. made.tree ≡ leaf) }
        ensures room { IfOk result (λ made. made.room ≡ nodes) }
    {
        let branches = Branches {
            nodes: Slab::with_capacity(alloc, nodes)?,
            top: None,
        };
        Ok(Treap {
            branches,
            reserved: nodes,
        })
    }

    /// How many more nodes fit.
    pub(crate) fn room(&self) -> usize
        ensures { result ≡ self.now.room }
    {
        self.reserved - self.branches.nodes.len()
    }

    /// Whether no counter is in.
    #[inline]
    pub(crate) fn is_empty(&self) -> bool
        ensures { IsTrue result ↔ (self.now.tree ≡ leaf) }
    {
        self.branches.top.is_none()
    }

    /// The list of a counter, if it is in.
    pub(crate) fn find(&self, counter: CounterId) -> Option<ListKey>
        ensures list { result ≡ top_value (sought counter self.now.tree) }
        ensures treap { IsTreap self.now.tree }
    {
        list_of(&self.branches.nodes, self.branches.top, counter)
    }

    /// The topmost counter.
    pub(crate) fn top(&self) -> Option<CounterId>
        ensures counter { result ≡ top_counter self.now.tree }
        ensures treap { IsTreap self.now.tree }
    {
        counter_at(&self.branches.nodes, self.branches.top)
    }

    /// Where the node of a counter stands, if it is in.
    pub(crate) fn place(&self, counter: CounterId) -> Option<TreapPlace>
        ensures place { result ≡ top_place (sought counter self.now.tree) }
        ensures treap { IsTreap self.now.tree }
    {
        place_of(&self.branches.nodes, self.branches.top, counter)
    }

    /// The list of a counter. One that isn't in gets a node with this ticket, and a list, which is opened.
    pub(crate) fn list_for(&mut self, counter: CounterId, ticket: u32, lists: &mut Lists) -> Listed
        requires room { 0 < self.old.room }
        requires list_room { 0 < lists.old.list_room }
        ensures list { MatchOption (top_value (sought counter self.old.tree))
            (Enters self.old self.new counter ticket lists.old lists.new result)
            (IsFound self.old self.new lists.old lists.new result) }
        ensures treap { IsTreap self.new.tree }
    {
        list_for(&mut self.branches, counter, ticket, lists)
    }

    /// The list of a counter, if it is in. The counter goes where only one wait is left in its list.
    pub(crate) fn leave(&mut self, counter: CounterId, lists: &Lists) -> Option<ListKey>
        requires { (key : ℕ) → top_value (sought counter self.old.tree) ≡ Some key → IsOpen lists.now key }
        ensures list { result ≡ top_value (sought counter self.old.tree) }
        ensures leaves { MatchOption result (self.new ≡ self.old)
            (Leaves self.old self.new counter lists.now) }
        ensures treap { IsTreap self.new.tree }
    {
        leave(&mut self.branches, counter, lists)
    }

    /// Becomes as the other treap is, and the lists as the other's lists are; or both stay as they were. No
    /// memory is taken where there is as much as the other has.
    pub(crate) fn copy_from(
        &mut self,
        other: &Treap,
        lists: &mut Lists,
        other_lists: &Lists,
    ) -> Result<(), NoMemory>
        ensures treap { OnOk result (self.new ≡ other.now) }
        ensures lists { OnOk result (lists.new ≡ other_lists.now) }
        ensures treap_stays { OnErr result (self.new ≡ self.old) }
        ensures lists_stay { OnErr result (lists.new ≡ lists.old) }
    {
        reserve_as(&mut self.branches.nodes, &other.branches.nodes)?;
        lists.copy_from(other_lists)?;
        copy_values(&mut self.branches.nodes, &other.branches.nodes);
        self.branches.top = other.branches.top;
        self.reserved = other.reserved;
        Ok(())
    }
}

impl Clone for Treap {
    ghost is_clone = { λ treap copy. copy ≡ treap };

    // The copy has memory for as many nodes.
    fn clone(&self) -> Result<Self, AllocError> {
        let mut nodes = self.branches.nodes.clone()?;
        nodes.reserve_exact(self.room())?;
        let branches = Branches {
            nodes,
            top: self.branches.top,
        };
        Ok(Treap {
            branches,
            reserved: self.reserved,
        })
    }
}
