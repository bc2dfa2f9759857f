//! The nodes of a treap, in records that are reserved once and linked by index, and three walks over them.
//!
//! Removal goes as by Go's rotations: of a node's two children the one with the smaller ticket comes up until
//! the node is a leaf. [`merge`] leaves that very tree and writes one link a turn where a rotation writes
//! three; with [`split`] the same holds of a leaf that comes up while its parent's ticket is larger.
ghost use Rattle.std.specs.Prelude.{◌≡◌, Some};
ghost use Rattle.slab.specs.Slab.{get, slab_len, ContainsKey, Updates};
ghost use Rattle.sema_root.specs.declared.nodes.Node.{Node};
ghost use Rattle.sema_root.specs.Tree.{sought, top_counter, top_place, top_value};
ghost use Rattle.sema_root.specs.Linked.{tree_at, AreMergeable, Holds, IsSearchable, Merges, Splits};

use crate::place::TreapPlace;
use slab::Slab;
use waiters::{CounterId, ListKey};

/// A counter that has waits, their list, and the two nodes right below.
#[derive(Clone, Copy, Drop)]
pub(crate) struct Node {
    pub(crate) counter: CounterId,
    pub(crate) ticket: u32,
    pub(crate) list: ListKey,
    pub(crate) left: Option<usize>,
    pub(crate) right: Option<usize>,
}

/// Where the counter's node is, in the tree below `top`.
#[inline]
pub(crate) fn find(nodes: &Slab<Node>, top: Option<usize>, counter: CounterId) -> Option<usize>
    requires { Holds nodes.now top (tree_at nodes.now top) }
    ensures { Holds nodes.now result (sought counter (tree_at nodes.now top)) }
{
    let mut here = top;
    while let Some(at) = here {
        let node = nodes[at];
        if counter == node.counter {
            return here;
        }
        here = if counter < node.counter {
            node.left
        } else {
            node.right
        };
    }
    None
}

/// The list of a counter, if it is in the tree below `top`.
#[inline]
pub(crate) fn list_of(nodes: &Slab<Node>, top: Option<usize>, counter: CounterId) -> Option<ListKey>
    requires { Holds nodes.now top (tree_at nodes.now top) }
    ensures { result ≡ top_value (sought counter (tree_at nodes.now top)) }
{
    let Some(at) = find(nodes, top, counter) else {
        return None;
    };
    Some(nodes[at].list)
}

/// The counter of the topmost node.
pub(crate) fn counter_at(nodes: &Slab<Node>, top: Option<usize>) -> Option<CounterId>
    requires { Holds nodes.now top (tree_at nodes.now top) }
    ensures { result ≡ top_counter (tree_at nodes.now top) }
{
    let Some(at) = top else {
        return None;
    };
    Some(nodes[at].counter)
}

/// Where the node of a counter stands, if it is in the tree below `top`.
pub(crate) fn place_of(
    nodes: &Slab<Node>,
    top: Option<usize>,
    counter: CounterId,
) -> Option<TreapPlace>
    requires { Holds nodes.now top (tree_at nodes.now top) }
    ensures { result ≡ top_place (sought counter (tree_at nodes.now top)) }
{
    let Some(at) = find(nodes, top, counter) else {
        return None;
    };
    let node = &nodes[at];
    Some(TreapPlace {
        ticket: node.ticket,
        left: counter_at(nodes, node.left),
        right: counter_at(nodes, node.right),
    })
}

/// Puts another tree to the left of a node.
#[inline]
pub(crate) fn set_left(nodes: &mut Slab<Node>, at: usize, link: Option<usize>)
    requires { ContainsKey nodes.old at }
    ensures left { (node : Node) → get nodes.old at ≡ Some node
        → Updates nodes.old nodes.new at (Some (record node { left = link })) }
    ensures len { slab_len nodes.new ≡ slab_len nodes.old }
    ensures capacity { nodes.new.capacity ≡ nodes.old.capacity }
{
    nodes[at].left = link;
}

/// Puts another tree to the right of a node.
#[inline]
pub(crate) fn set_right(nodes: &mut Slab<Node>, at: usize, link: Option<usize>)
    requires { ContainsKey nodes.old at }
    ensures right { (node : Node) → get nodes.old at ≡ Some node
        → Updates nodes.old nodes.new at (Some (record node { right = link })) }
    ensures len { slab_len nodes.new ≡ slab_len nodes.old }
    ensures capacity { nodes.new.capacity ≡ nodes.old.capacity }
{
    nodes[at].right = link;
}

/// Two trees as one, where all counters of the first are below those of the second.
pub(crate) fn merge(
    nodes: &mut Slab<Node>,
    first: Option<usize>,
    second: Option<usize>,
) -> Option<usize>
    requires { AreMergeable nodes.old first second }
    ensures merges { Merges nodes.old nodes.new (tree_at nodes.old first) (tree_at nodes.old second) result }
    ensures len { slab_len nodes.new ≡ slab_len nodes.old }
{
    let Some(left) = first else {
        return second;
    };
    let Some(right) = second else {
        return first;
    };
    let upper = nodes[left];
    let lower = nodes[right];
    if upper.ticket < lower.ticket {
        let below = merge(nodes, upper.right, second);
        set_right(nodes, left, below);
        first
    } else {
        let below = merge(nodes, first, lower.left);
        set_left(nodes, right, below);
        second
    }
}

/// A tree as two: the counters below this one, and those above it.
pub(crate) fn split(
    nodes: &mut Slab<Node>,
    top: Option<usize>,
    counter: CounterId,
) -> (Option<usize>, Option<usize>)
    requires { IsSearchable nodes.old top }
    ensures splits { Splits nodes.old nodes.new (tree_at nodes.old top) counter result.0 result.1 }
    ensures len { slab_len nodes.new ≡ slab_len nodes.old }
{
    let Some(at) = top else {
        return (None, None);
    };
    let node = nodes[at];
    if counter < node.counter {
        let (below, above) = split(nodes, node.left, counter);
        set_left(nodes, at, above);
        (below, top)
    } else {
        let (below, above) = split(nodes, node.right, counter);
        set_right(nodes, at, below);
        (top, above)
    }
}
