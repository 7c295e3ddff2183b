//! One node, the ends of one list, and functions that write one field of a node.

ghost use Rattle.std.specs.Prelude.{◌≡◌, ⊤};
ghost use Rattle.slab.specs.Slab.{get, ContainsKey, slab_len};
ghost use Rattle.st_arena.specs.Chain.{SetsNext, SetsPrevious, SetsItem};

use slab::Slab;

/// The key where there is no node: at both ends of an empty list, as the previous of a first node
/// and as the next of a last one. No walk follows it, since the list's length ends the walk.
pub(crate) const NONE: usize = usize::MAX;

/// A value of a list, and the keys of the nodes next to it in that list.
#[derive(Drop)]
pub(crate) struct Node<T> {
    pub value: T,
    pub next: usize,
    pub previous: usize,
}

/// The keys of a list's first and last nodes, and the number of its nodes. If there are none, the
/// keys mean nothing.
#[derive(Clone, Copy)]
pub(crate) struct Ends {
    pub first: usize,
    pub last: usize,
    pub len: u64,
}

/// Links the node under `key` to the node under `next`.
pub(crate) fn set_next<T>(nodes: &mut Slab<Node<T>>, key: usize, next: usize)
    requires { ContainsKey nodes.old key }
    ensures links { SetsNext (get nodes.old) (get nodes.new) ⊤ key next }
    ensures len { slab_len nodes.new ≡ slab_len nodes.old }
    ensures capacity { nodes.new.capacity ≡ nodes.old.capacity }
{
    nodes[key].next = next;
}

/// Links the node under `key` back to the node under `previous`.
pub(crate) fn set_previous<T>(nodes: &mut Slab<Node<T>>, key: usize, previous: usize)
    requires { ContainsKey nodes.old key }
    ensures links { SetsPrevious (get nodes.old) (get nodes.new) ⊤ key previous }
    ensures len { slab_len nodes.new ≡ slab_len nodes.old }
    ensures capacity { nodes.new.capacity ≡ nodes.old.capacity }
{
    nodes[key].previous = previous;
}

/// Replaces the value of the node under `key`.
pub(crate) fn set_value<T: Drop>(nodes: &mut Slab<Node<T>>, key: usize, value: T)
    requires { ContainsKey nodes.old key }
    ensures item { SetsItem (get nodes.old) (get nodes.new) key value }
    ensures len { slab_len nodes.new ≡ slab_len nodes.old }
    ensures capacity { nodes.new.capacity ≡ nodes.old.capacity }
{
    nodes[key].value = value;
}
