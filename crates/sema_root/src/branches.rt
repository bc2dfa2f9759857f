//! How a treap takes a counter in and gives one up: one walk goes down to where its node is or belongs, and
//! what becomes of the tree there is hung at the one link that the walk came through. A counter that would
//! come in above others is first looked for below them.
ghost use Rattle.std.specs.Prelude.{◌≡◌, ◌≢◌, ◌<◌, ◌≤◌, MatchBool, MatchOption, true};
ghost use Rattle.slab.specs.Slab.{HasRoomFor};
ghost use Rattle.sema_root.specs.Tree.{size, sought, top_value};
ghost use Rattle.sema_root.specs.Linked.{sprig, tree_at};
ghost use Rattle.sema_root.specs.Hanging.{ComesTo, Enters, Hangs, HangsNew, IsEnd, IsFoundInBranches};
ghost use Rattle.sema_root.specs.Hanging.{IsListed, IsThere, Leaves, SeeksTo, toward};
ghost use Rattle.sema_root.specs.Planted.{Opens};

use crate::listed::Listed;
use crate::nodes::{Node, list_of, merge, set_left, set_right, split};
use slab::Slab;
use waiters::{CounterId, ListKey, Lists};

/// Nodes, and the topmost one.
#[derive(Drop)]
pub(crate) struct Branches {
    pub(crate) nodes: Slab<Node>,
    pub(crate) top: Option<usize>,
}

/// Where a tree hangs: above all, or on one side of a node.
#[derive(Clone, Copy, Drop)]
pub(crate) enum Link {
    Top,
    Left(usize),
    Right(usize),
}

// Hangs another tree at a link.
#[inline]
fn hang(branches: &mut Branches, link: Link, tree: Option<usize>)
    requires { IsThere branches.old link }
    ensures { Hangs branches.old branches.new link tree }
{
    match link {
        Link::Top => branches.top = tree,
        Link::Left(at) => set_left(&mut branches.nodes, at, tree),
        Link::Right(at) => set_right(&mut branches.nodes, at, tree),
    }
}

// The side of a node on which a counter must be, and what hangs there.
#[inline]
fn toward(counter: CounterId, key: usize, node: &Node) -> (Link, Option<usize>)
    ensures { result ≡ toward counter key node.now }
{
    if counter < node.counter {
        (Link::Left(key), node.left)
    } else {
        (Link::Right(key), node.right)
    }
}

// Whether a walk for a counter ends at a node: it is the counter's, or has a larger ticket.
#[inline]
fn is_end(counter: CounterId, ticket: u32, node: &Node) -> bool
    ensures { MatchBool result (IsEnd counter ticket (sprig node.now))
        ((counter ≢ node.now.counter) × (node.now.ticket ≤ ticket)) }
{
    counter == node.counter || ticket < node.ticket
}

// Where a walk for a counter ends: at its node, or where a node with this ticket belongs.
#[inline(always)]
fn seek(branches: &Branches, counter: CounterId, ticket: u32) -> (Link, Option<usize>)
    requires { ComesTo branches.now Link.Top branches.now.top counter }
    ensures { SeeksTo branches.now counter ticket result.0 result.1 }
{
    let mut link = Link::Top;
    let mut here = branches.top;
    while let Some(key) = here {
        let node = branches.nodes[key];
        if is_end(counter, ticket, &node) {
            return (link, here);
        }
        let (side, next) = toward(counter, key, &node);
        link = side;
        here = next;
    }
    (link, here)
}

// Opens a list, and hangs a new node for it, with these two trees below it.
#[inline(always)]
fn enter(
    branches: &mut Branches,
    link: Link,
    sides: (Option<usize>, Option<usize>),
    counter: CounterId,
    ticket: u32,
    lists: &mut Lists,
) -> Listed
    requires room { HasRoomFor branches.old.nodes 1 }
    requires there { IsThere branches.old link }
    requires list_room { 0 < lists.old.list_room }
    ensures is_new { result.is_new ≡ true }
    ensures hangs { HangsNew branches.old branches.new link sides.0 sides.1
        (record { counter = counter; ticket = ticket; value = result.list }) }
    ensures opens { Opens lists.old lists.new result.list }
{
    let list = lists.open();
    let (left, right) = sides;
    let node = Node {
        counter,
        ticket,
        list,
        left,
        right,
    };
    let key = branches.nodes.insert_reserved(node);
    hang(branches, link, Some(key));
    Listed { list, is_new: true }
}

/// The list of a counter, which is opened under a new node where there is none.
#[inline]
pub(crate) fn list_for(
    branches: &mut Branches,
    counter: CounterId,
    ticket: u32,
    lists: &mut Lists,
) -> Listed
    requires comes { ComesTo branches.old Link.Top branches.old.top counter }
    requires room { HasRoomFor branches.old.nodes 1 }
    requires fits { size (tree_at branches.old.nodes branches.old.top) < branches.old.nodes.capacity }
    requires list_room { 0 < lists.old.list_room }
    ensures { let tree = tree_at branches.old.nodes branches.old.top in
        MatchOption (top_value (sought counter tree))
        (Enters branches.old branches.new tree counter ticket lists.old lists.new result)
        (IsFoundInBranches branches.old branches.new lists.old lists.new result) }
{
    let (link, at) = seek(branches, counter, ticket);
    let Some(_) = at else {
        return enter(branches, link, (None, None), counter, ticket, lists);
    };
    if let Some(list) = list_of(&branches.nodes, at, counter) {
        return Listed {
            list,
            is_new: false,
        };
    }
    let sides = split(&mut branches.nodes, at, counter);
    enter(branches, link, sides, counter, ticket, lists)
}

/// The list of a counter. Its node goes where only one wait is left in the list.
pub(crate) fn leave(branches: &mut Branches, counter: CounterId, lists: &Lists) -> Option<ListKey>
    requires comes { ComesTo branches.old Link.Top branches.old.top counter }
    requires listed { IsListed (tree_at branches.old.nodes branches.old.top) counter lists.now }
    ensures list { result ≡ top_value (sought counter (tree_at branches.old.nodes branches.old.top)) }
    ensures leaves { let tree = tree_at branches.old.nodes branches.old.top in
        MatchOption result (branches.new ≡ branches.old) (Leaves branches.old branches.new tree counter lists.now) }
{
    let (link, at) = seek(branches, counter, u32::MAX);
    let Some(key) = at else {
        return None;
    };
    let node = branches.nodes[key];
    if lists.len(node.list) == 1 {
        branches.nodes.remove(key);
        let rest = merge(&mut branches.nodes, node.left, node.right);
        hang(branches, link, rest);
    }
    Some(node.list)
}
