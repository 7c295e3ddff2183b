//! The ladders of long lists: the keys of a list's nodes by place, each found in few steps. If
//! memory for a ladder runs out, the list is walked.

ghost use Rattle.std.specs.Prelude.{◌≡◌, ◌<◌, [], ◌∷◌, ◌++◌, map, remove, slice_get, nat_eq};
ghost use Rattle.std.specs.Prelude.{Some, None, IfSome, IfOk, OnOk};
ghost use Rattle.std.specs.HashMap.{get as get_in};
ghost use Rattle.slab.specs.Slab.{get};
ghost use Rattle.st_arena.specs.Chain.{IsChained, key_after, node_keys, KeepsLadder};

use crate::chain::key_at;
use crate::node::{Ends, Node};
use crate::slots::Ranks;
use slab::Slab;
use std::alloc::{AllocError, Global};
use std::collections::HashMap;
use std::marker::Model;

/// The least distance from both ends at which a take gives its list a ladder: a shorter walk costs
/// less than a ladder does. So a list that only loses items near its ends never has one.
const FAR: u64 = 256;

/// The least length at which a list keeps its ladder: in a shorter list no walk is far.
const SHORT: u64 = 256;

/// The distance from either end up to which a walk costs less than the ladder.
const NEAR: u64 = 8;

/// A ladder is dropped if less than one in `SPARSE` of its slots is live, so that the list's
/// length bounds its memory.
const SPARSE: u64 = 8;

/// The ladders by the numbers of their lists.
pub(crate) type Ladders = HashMap<usize, Ladder>;

/// The keys of one list's nodes, from the first on. A contract sees the list of keys.
///
/// Each key has a slot, in the order in which the nodes joined the list. When a node leaves, its
/// slot becomes empty and dead, and stays so. So the rank of a live slot is the place of its node.
#[derive(Drop)]
pub(crate) struct Ladder {
    slots: Vec<Option<usize>>,
    ranks: Ranks,
}

impl Model for Ladder {
    ghost use Rattle.std.specs.Prelude.{ℕ, List};
    ghost use Rattle.st_arena.specs.Queue.{kept, AreRanksOf};

    ghost Value = { List ℕ };

    ghost view = { λ l. kept l.slots.items };

    ghost invariant = { λ l. AreRanksOf l.ranks l.slots.items };
}

impl Ladder {
    // Makes the ladder of a list, with slots for at least half as many nodes more.
    fn new<T>(alloc: Global, nodes: &Slab<Node<T>>, ends: Ends) -> Result<Ladder, AllocError>
        requires chained { IsChained (get nodes.now) ends }
        ensures { IfOk result (λ ladder. ladder ≡ node_keys (get nodes.now) ends) }
    {
        let len = ends.len as usize;
        let slot_count = len.saturating_add(len / 2);
        let mut slots = Vec::with_capacity(alloc, slot_count)?;
        let ranks = Ranks::new(alloc, slot_count, len)?;
        push_keys(&mut slots, nodes, ends)?;
        Ok(Ladder { slots, ranks })
    }

    // Returns the key of the node at a place.
    fn key_at(&self, place: u64) -> Option<usize>
        ensures { result ≡ slice_get self.now place }
    {
        let slot = self.ranks.select(place)?;
        self.slots[slot]
    }

    // Returns the ladder with `key` at its end, or nothing if no slot is left.
    fn add(mut self, key: usize) -> Option<Ladder>
        ensures { IfSome result (λ ladder. ladder ≡ self ++ key ∷ []) }
    {
        let slot = self.slots.len();
        if slot >= self.ranks.len() {
            return None;
        }
        let Ok(()) = self.slots.push(Some(key)) else {
            return None;
        };
        self.ranks.mark_live(slot);
        Some(self)
    }

    // Returns the ladder without the key at a place, or nothing if too few slots are live for it
    // to be worth keeping.
    fn remove(mut self, place: u64) -> Option<Ladder>
        ensures { IfSome result (λ ladder. ladder ≡ remove self place) }
    {
        if self.ranks.live() < self.ranks.len() as u64 / SPARSE {
            return None;
        }
        let slot = self.ranks.select(place)?;
        self.slots[slot] = None;
        self.ranks.mark_dead(slot);
        Some(self)
    }
}

fn push_keys<T>(
    slots: &mut Vec<Option<usize>>,
    nodes: &Slab<Node<T>>,
    ends: Ends,
) -> Result<(), AllocError>
    requires empty { slots.old.items ≡ [] }
    requires chained { IsChained (get nodes.now) ends }
    ensures { OnOk result (slots.new.items
        ≡ map (λ key. Some key) (node_keys (get nodes.now) ends)) }
{
    let mut key = ends.first;
    for _ in 0..ends.len {
        slots.push(Some(key))?;
        key = nodes[key].next;
    }
    Ok(())
}

/// Returns the key of the node at a place of a list: by the list's ladder, or by a walk if there
/// is none or the nearer end is close.
pub(crate) fn find_key<T>(
    ladders: &Ladders,
    list: usize,
    nodes: &Slab<Node<T>>,
    ends: Ends,
    place: u64,
) -> usize
    requires chained { IsChained (get nodes.now) ends }
    requires in_range { place < ends.len }
    requires ladder { IfSome (get_in nat_eq ladders.now list)
        (λ ladder. ladder ≡ node_keys (get nodes.now) ends) }
    ensures { result ≡ key_after (get nodes.now) ends.first place }
{
    let is_near = place < NEAR || ends.len - place <= NEAR || ends.len < SHORT;
    if is_near {
        return key_at(nodes, ends, place);
    }
    let found = match ladders.get(&list) {
        Some(ladder) => ladder.key_at(place),
        None => None,
    };
    match found {
        Some(key) => key,
        None => key_at(nodes, ends, place),
    }
}

/// Adds the key of a list's last node, which has just joined the list, to the list's ladder.
pub(crate) fn follow_push<T>(
    ladders: &mut Ladders,
    list: usize,
    alloc: Global,
    nodes: &Slab<Node<T>>,
    ends: Ends,
)
    requires chained { IsChained (get nodes.now) ends }
    requires ladder { IfSome (get_in nat_eq ladders.old list)
        (λ ladder. ladder ++ ends.last ∷ [] ≡ node_keys (get nodes.now) ends) }
    ensures { KeepsLadder (get_in nat_eq ladders.old) (get_in nat_eq ladders.new)
        list (node_keys (get nodes.now) ends) }
{
    if ladders.is_empty() {
        return;
    }
    let ladder = match ladders.remove(&list) {
        Some(ladder) => ladder.add(ends.last),
        None => None,
    };
    keep_ladder(ladders, list, ladder, false, alloc, nodes, ends);
}

/// Removes the key of the node that has just left a place of a list from the list's ladder.
pub(crate) fn follow_take<T>(
    ladders: &mut Ladders,
    list: usize,
    place: u64,
    alloc: Global,
    nodes: &Slab<Node<T>>,
    ends: Ends,
)
    requires chained { IsChained (get nodes.now) ends }
    requires ladder { IfSome (get_in nat_eq ladders.old list)
        (λ ladder. remove ladder place ≡ node_keys (get nodes.now) ends) }
    ensures { KeepsLadder (get_in nat_eq ladders.old) (get_in nat_eq ladders.new)
        list (node_keys (get nodes.now) ends) }
{
    let is_far = place >= FAR && ends.len.saturating_sub(place) >= FAR;
    if !is_far && ladders.is_empty() {
        return;
    }
    let ladder = match ladders.remove(&list) {
        Some(ladder) => ladder.remove(place),
        None => None,
    };
    keep_ladder(ladders, list, ladder, is_far, alloc, nodes, ends);
}

// Stores `ladder` as the list's, or a new one if it is `None` and `is_wanted` is true. If memory
// runs out, the list has none.
//
// A list that lost its ladder gets one at the next take that walks far. It loses its ladder if the
// list becomes short, if all slots are used or if most are dead, which takes at least half as many
// pushes or takes as the ladder had keys when it was made. So while there is memory, the steps for
// all ladders grow as the number of calls.
fn keep_ladder<T>(
    ladders: &mut Ladders,
    list: usize,
    ladder: Option<Ladder>,
    is_wanted: bool,
    alloc: Global,
    nodes: &Slab<Node<T>>,
    ends: Ends,
)
    requires chained { IsChained (get nodes.now) ends }
    requires ladder { IfSome ladder (λ ladder. ladder ≡ node_keys (get nodes.now) ends) }
    requires absent { get_in nat_eq ladders.old list ≡ None }
    ensures { KeepsLadder (get_in nat_eq ladders.old) (get_in nat_eq ladders.new)
        list (node_keys (get nodes.now) ends) }
{
    if ends.len < SHORT || ladders.reserve(1).is_err() {
        return;
    }
    let ladder = match ladder {
        None if is_wanted => Ladder::new(alloc, nodes, ends).ok(),
        _ => ladder,
    };
    if let Some(ladder) = ladder {
        ladders.insert(list, ladder).ok();
    }
}
