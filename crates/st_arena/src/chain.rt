//! The chain of one list: how it is walked, and how a node joins and leaves it. Each function
//! takes the slab and the ends of one list, and changes only nodes of that list; `lists` stores
//! the new ends.

ghost use Rattle.std.specs.Prelude.{◌≡◌, ◌+◌, ◌<◌, ◌≤◌, ℕ, suc, length, Some, None, true, false};
ghost use Rattle.std.specs.Prelude.{IfSome, IfNone};
ghost use Rattle.std.specs.Fn.{FnReturnsAt};
ghost use Rattle.slab.specs.Slab.{get, ContainsKey, slab_len, HasRoomFor};
ghost use Rattle.st_arena.specs.Calls.{IsAnswered, IsFirstAnswered};
ghost use Rattle.st_arena.specs.Chain.{values_of, key_after, IsChained, SetsNext, SetsPrevious};
ghost use Rattle.st_arena.specs.Chain.{Appends, Unlinks, ChangesItems};

use crate::node::{Ends, NONE, Node, set_next, set_previous, set_value};
use slab::Slab;

/// The greatest length at which a list is searched from the front alone. Most items that are
/// looked for are near the front, where a search from both ends reads more items.
const FEW: u64 = 512;

/// Returns the key of the node at a place, by a walk from the nearer end.
pub(crate) fn key_at<T>(nodes: &Slab<Node<T>>, ends: Ends, place: u64) -> usize
    requires chained { IsChained (get nodes.now) ends }
    requires in_range { place < ends.len }
    ensures { result ≡ key_after (get nodes.now) ends.first place }
{
    if place <= ends.len / 2 {
        key_from_first(nodes, ends, place)
    } else {
        key_from_last(nodes, ends, place)
    }
}

fn key_from_first<T>(nodes: &Slab<Node<T>>, ends: Ends, place: u64) -> usize
    requires chained { IsChained (get nodes.now) ends }
    requires in_range { place < ends.len }
    ensures { result ≡ key_after (get nodes.now) ends.first place }
{
    let mut key = ends.first;
    for _ in 0..place {
        key = nodes[key].next;
    }
    key
}

fn key_from_last<T>(nodes: &Slab<Node<T>>, ends: Ends, place: u64) -> usize
    requires chained { IsChained (get nodes.now) ends }
    requires in_range { place < ends.len }
    ensures { result ≡ key_after (get nodes.now) ends.first place }
{
    let mut key = ends.last;
    let mut at = ends.len - 1;
    while at > place {
        key = nodes[key].previous;
        at -= 1;
    }
    key
}

/// Adds a node with `value` after the last one, and returns the list's new ends.
pub(crate) fn append<T>(nodes: &mut Slab<Node<T>>, ends: Ends, value: T) -> Ends
    requires room { HasRoomFor nodes.old 1 }
    requires last { 0 < ends.len → ContainsKey nodes.old ends.last }
    requires counted { ends.len ≤ slab_len nodes.old }
    ensures appends { Appends (get nodes.old) (get nodes.new) ends result value }
    ensures len { slab_len nodes.new ≡ slab_len nodes.old + 1 }
    ensures capacity { nodes.new.capacity ≡ nodes.old.capacity }
{
    let key = nodes.insert_reserved(Node {
        value,
        next: NONE,
        previous: ends.last,
    });
    // Reads the number of nodes: only then is it known to be a `usize`. No list is longer, so a
    // list's length plus 1 fits.
    let _node_count = nodes.len();
    if ends.len == 0 {
        return Ends {
            first: key,
            last: key,
            len: 1,
        };
    }
    set_next(nodes, ends.last, key);
    Ends {
        first: ends.first,
        last: key,
        len: ends.len + 1,
    }
}

/// Removes the node at a place, and returns the list's new ends and the node's value.
pub(crate) fn unlink<T>(nodes: &mut Slab<Node<T>>, ends: Ends, place: u64, key: usize) -> (Ends, T)
    requires chained { IsChained (get nodes.old) ends }
    requires in_range { place < ends.len }
    requires at_place { key ≡ key_after (get nodes.old) ends.first place }
    ensures unlinks { Unlinks (get nodes.old) (get nodes.new) ends result.0 place key result.1 }
    ensures len { slab_len nodes.new + 1 ≡ slab_len nodes.old }
    ensures room { HasRoomFor nodes.new 1 }
    ensures capacity { nodes.new.capacity ≡ nodes.old.capacity }
{
    let Node {
        value,
        next,
        previous,
    } = nodes.remove(key);
    let first = mend_next(nodes, ends, place, previous, next);
    let last = mend_previous(nodes, ends, place, previous, next);
    let ends = Ends {
        first,
        last,
        len: ends.len - 1,
    };
    (ends, value)
}

// Links the node before the removed one, if there is one, to the node after it, and returns the
// list's first key.
fn mend_next<T>(
    nodes: &mut Slab<Node<T>>,
    ends: Ends,
    place: u64,
    previous: usize,
    next: usize,
) -> usize
    requires { 0 < place → ContainsKey nodes.old previous }
    ensures links { SetsNext (get nodes.old) (get nodes.new) (0 < place) previous next }
    ensures first_moves { place ≡ 0 → result ≡ next }
    ensures first_stays { 0 < place → result ≡ ends.first }
    ensures len { slab_len nodes.new ≡ slab_len nodes.old }
    ensures capacity { nodes.new.capacity ≡ nodes.old.capacity }
{
    if place == 0 {
        return next;
    }
    set_next(nodes, previous, next);
    ends.first
}

// Links the node after the removed one, if there is one, back to the node before it, and returns
// the list's last key.
fn mend_previous<T>(
    nodes: &mut Slab<Node<T>>,
    ends: Ends,
    place: u64,
    previous: usize,
    next: usize,
) -> usize
    requires in_range { place < ends.len }
    requires there { suc place < ends.len → ContainsKey nodes.old next }
    ensures links { SetsPrevious (get nodes.old) (get nodes.new)
        (suc place < ends.len) next previous }
    ensures last_moves { suc place ≡ ends.len → result ≡ previous }
    ensures last_stays { suc place < ends.len → result ≡ ends.last }
    ensures len { slab_len nodes.new ≡ slab_len nodes.old }
    ensures capacity { nodes.new.capacity ≡ nodes.old.capacity }
{
    if place == ends.len - 1 {
        return previous;
    }
    set_previous(nodes, next, previous);
    ends.last
}

/// Returns the least place whose item `pred` returns true for.
pub(crate) fn first_answered<T, F: Fn(&T) -> bool>(
    nodes: &Slab<Node<T>>,
    ends: Ends,
    pred: &F,
) -> Option<u64>
    requires whole { length (values_of (get nodes.now) ends) ≡ ends.len }
    requires callable { F.IsAlwaysCallable pred.now }
    ensures found { IfSome result (
        IsFirstAnswered (FnReturnsAt F.Fn pred.now) (values_of (get nodes.now) ends)) }
    ensures absent { IfNone result ((place : ℕ) → place < ends.len →
        IsAnswered (FnReturnsAt F.Fn pred.now) (values_of (get nodes.now) ends) place false) }
{
    let mut key = ends.first;
    for place in 0..ends.len {
        let node = &nodes[key];
        if pred(&node.value) {
            return Some(place);
        }
        key = node.next;
    }
    None
}

/// Returns a place whose item `pred` returns true for, by a search from the front if the list is
/// short, and otherwise from both ends at once.
pub(crate) fn any_answered<T, F: Fn(&T) -> bool>(
    nodes: &Slab<Node<T>>,
    ends: Ends,
    pred: &F,
) -> Option<u64>
    requires chained { IsChained (get nodes.now) ends }
    requires callable { F.IsAlwaysCallable pred.now }
    ensures found { IfSome result (λ place.
        IsAnswered (FnReturnsAt F.Fn pred.now) (values_of (get nodes.now) ends) place true) }
    ensures absent { IfNone result ((place : ℕ) → place < ends.len →
        IsAnswered (FnReturnsAt F.Fn pred.now) (values_of (get nodes.now) ends) place false) }
{
    if ends.len <= FEW {
        first_answered(nodes, ends, pred)
    } else {
        answered_from_ends(nodes, ends, pred)
    }
}

fn answered_from_ends<T, F: Fn(&T) -> bool>(
    nodes: &Slab<Node<T>>,
    ends: Ends,
    pred: &F,
) -> Option<u64>
    requires chained { IsChained (get nodes.now) ends }
    requires callable { F.IsAlwaysCallable pred.now }
    ensures found { IfSome result (λ place.
        IsAnswered (FnReturnsAt F.Fn pred.now) (values_of (get nodes.now) ends) place true) }
    ensures absent { IfNone result ((place : ℕ) → place < ends.len →
        IsAnswered (FnReturnsAt F.Fn pred.now) (values_of (get nodes.now) ends) place false) }
{
    let mut front = ends.first;
    let mut back = ends.last;
    for place in 0..ends.len - ends.len / 2 {
        let near = &nodes[front];
        if pred(&near.value) {
            return Some(place);
        }
        front = near.next;
        let far = &nodes[back];
        if pred(&far.value) {
            return Some(ends.len - 1 - place);
        }
        back = far.previous;
    }
    None
}

/// Replaces each item by `change(&item)`, from the first on.
pub(crate) fn change_items<T: Drop, F: Fn(&T) -> T>(
    nodes: &mut Slab<Node<T>>,
    ends: Ends,
    change: &F,
)
    requires chained { IsChained (get nodes.old) ends }
    requires callable { F.IsAlwaysCallable change.now }
    ensures changed { ChangesItems (get nodes.old) (get nodes.new)
        (FnReturnsAt F.Fn change.now) ends.first ends.len }
    ensures len { slab_len nodes.new ≡ slab_len nodes.old }
    ensures capacity { nodes.new.capacity ≡ nodes.old.capacity }
{
    let mut key = ends.first;
    for _ in 0..ends.len {
        let node = &nodes[key];
        let next = node.next;
        let value = change(&node.value);
        set_value(nodes, key, value);
        key = next;
    }
}
