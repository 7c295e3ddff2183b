//! How the messages of one queue are found: by a walk, or by an index of the keys that long walks
//! looked for.

ghost use Rattle.std.specs.Prelude.{◌≡◌, ◌≤◌, ◌↔◌, ◌++◌, [], ◌∷◌, List, Some, IfSome, length};
ghost use Rattle.std.specs.Prelude.{remove, true, slice_get};
ghost use Rattle.st_arena.specs.Arena.{list_at};
ghost use Rattle.st_core.specs.declared.types.Message.{Message};

use crate::index::Index;
use crate::keys::{Keys, SearchKey};
use st_arena::Lists;
use st_core::{Message, Want};
use std::alloc::{AllocError, Global};

/// The least number of messages passed at which a walk counts: a shorter walk costs no more than
/// an index does for each message that joins and leaves the queue.
const SHORT_WALK: u64 = 256;

/// An index is made after walks have passed this many times as many messages as the queue has,
/// since making it takes about as long.
const WALKS_AN_INDEX: u64 = 16;

/// A walk through a queue in search of a message.
#[derive(Clone, Copy)]
pub(crate) struct Walk {
    /// The key of the search.
    pub(crate) key: SearchKey,
    /// The number of messages that the walk passed.
    pub(crate) passed: u64,
}

/// How the message of a receive was searched for.
#[derive(Clone, Copy)]
pub(crate) enum Search {
    /// Without a search.
    Nothing,
    /// By the key, from the front.
    Front(SearchKey),
    /// By the stamp of the message's token, if it has one, from the front.
    StampFromFront,
    /// By the stamp of the message's token, if it has one, from both ends at once.
    StampFromEnds,
}

impl Search {
    /// Returns the search before a receive with this pattern. A receive by place may follow a
    /// search for the stamp: from both ends (`place_of_one`), or from the front after messages
    /// were wiped (`place_of`).
    pub(crate) fn of(want: &Want, was_wiped: bool) -> Search
        ensures { result ≡ Search.Nothing ↔ want.now ≡ Want.First }
    {
        match want {
            Want::First => Search::Nothing,
            Want::From(_) => Search::Front(SearchKey::Sender),
            Want::Value(_) => Search::Front(SearchKey::Value),
            Want::Both(..) => Search::Front(SearchKey::Both),
            Want::Place(_) if was_wiped => Search::StampFromFront,
            Want::Place(_) => Search::StampFromEnds,
        }
    }

    /// Returns the walk to a message that was at `place` of a queue with `others` other messages,
    /// if the search walked.
    fn to_place(self, place: u64, others: u64, message: &Message) -> Option<Walk>
        ensures { IfSome result (λ walk. walk.passed ≤ place) }
    {
        let (key, passed) = match self {
            Search::Nothing => return None,
            Search::Front(key) => (key, place),
            Search::StampFromFront => (SearchKey::Stamp, place),
            Search::StampFromEnds => (SearchKey::Stamp, place.min(others.saturating_sub(place))),
        };
        if key == SearchKey::Stamp && message.token.is_none() {
            return None;
        }
        Some(Walk { key, passed })
    }

    /// Returns the walk through a queue of length `len` that found nothing, if the search walked
    /// from the front.
    pub(crate) fn to_end(self, len: u64) -> Option<Walk>
        ensures { IfSome result (λ walk. walk.passed ≡ len) }
    {
        match self {
            Search::Front(key) => Some(Walk { key, passed: len }),
            _ => None,
        }
    }
}

/// The numbers of messages that long walks have passed, by the key of the search.
#[derive(Clone, Copy, Default)]
struct Walks {
    value: u64,
    sender: u64,
    both: u64,
    stamp: u64,
}

impl Walks {
    /// Adds a walk, and returns how many messages the walks with its key have passed.
    fn count(&mut self, walk: Walk) -> u64
        ensures { walk.passed ≤ result }
    {
        let passed = match walk.key {
            SearchKey::Value => &mut self.value,
            SearchKey::Sender => &mut self.sender,
            SearchKey::Both => &mut self.both,
            SearchKey::Stamp => &mut self.stamp,
        };
        *passed = passed.saturating_add(walk.passed);
        *passed
    }
}

/// How the messages of one queue are found.
#[derive(Drop)]
pub(crate) struct Finder {
    walks: Walks,
    // An index of the queue by the keys of long walks, if there were enough of them. Few queues
    // have one, so it lies on the heap.
    index: Option<Box<Index>>,
}

impl Finder {
    ghost use Rattle.st_mail.specs.Index.{IsIndexOf, keys_of};
    ghost use Rattle.st_mail.specs.Keys.{has};
    ghost use Rattle.st_mail.specs.Found.{Finds, IsFinder};

    /// Returns the finder of a queue in which no walk was counted yet.
    pub(crate) fn new() -> Finder
        ensures { (queue : List Message) → Finds result queue }
    {
        Finder {
            walks: Walks::default(),
            index: None,
        }
    }

    /// Returns the index of the queue, if there is one by `key`.
    pub(crate) fn index_by(&self, key: SearchKey) -> Option<&Index>
        ensures kept { IfSome result (λ index. has (keys_of index.now) key ≡ true) }
        ensures index { IfSome result (λ index. (queue : List Message) → Finds self.now queue →
            IsIndexOf index.now queue) }
    {
        match &self.index {
            Some(index) if index.keys().has(key) => Some(index),
            _ => None,
        }
    }

    /// Makes a new index by `keys`. If memory runs out, the queue has no index and its walks are
    /// counted from 0 again, so failed tries take no longer than the walks.
    fn make_index(&mut self, alloc: Global, lists: &Lists<Message>, list: usize, keys: Keys)
        requires { list < length lists.now.lists }
        ensures { Finds self.new (list_at lists.now list) }
    {
        match index_over(alloc, lists, list, keys) {
            Ok(index) => self.index = Some(index),
            Err(AllocError) => *self = Finder::new(),
        }
    }

    /// Adds a message that has joined the list at its end. An index that runs out of memory is
    /// dropped, and a full one is made anew.
    pub(crate) fn push(
        &mut self,
        alloc: Global,
        lists: &Lists<Message>,
        list: usize,
        message: &Message,
    )
        requires within { list < length lists.now.lists }
        requires finder { IsFinder self.old }
        ensures { (queue : List Message) → Finds self.old queue →
            list_at lists.now list ≡ queue ++ message.now ∷ []
            → Finds self.new (list_at lists.now list) }
    {
        if let Some(index) = &mut self.index {
            if index.room() == 0 {
                let keys = index.keys();
                self.make_index(alloc, lists, list, keys);
            } else if index.push(message).is_err() {
                *self = Finder::new();
            }
        }
    }

    /// Removes the message that has left `place` of the list, and counts the walk that searched
    /// for it. An empty list loses its index, since it needs none.
    pub(crate) fn remove(
        &mut self,
        alloc: Global,
        lists: &Lists<Message>,
        list: usize,
        place: u64,
        message: &Message,
        search: Search,
    )
        requires within { list < length lists.now.lists }
        requires finder { IsFinder self.old }
        ensures { (queue : List Message) → Finds self.old queue →
            slice_get queue place ≡ Some message.now → list_at lists.now list ≡ remove queue place →
            Finds self.new (list_at lists.now list) }
    {
        if lists.len(list) == 0 {
            *self = Finder::new();
            return;
        }
        if let Some(index) = &mut self.index {
            index.remove(place, message);
        }
        if let Some(walk) = search.to_place(place, lists.len(list), message) {
            self.count_walk(alloc, lists, list, walk);
        }
    }

    /// Counts a long walk in the list by a key that no index has, and makes an index if enough
    /// messages were passed.
    pub(crate) fn count_walk(
        &mut self,
        alloc: Global,
        lists: &Lists<Message>,
        list: usize,
        walk: Walk,
    )
        requires { list < length lists.now.lists }
        ensures { Finds self.old (list_at lists.now list)
            → Finds self.new (list_at lists.now list) }
    {
        let keys = match &self.index {
            Some(index) => index.keys(),
            None => Keys::default(),
        };
        if walk.passed < SHORT_WALK || keys.has(walk.key) {
            return;
        }
        if self.walks.count(walk) / WALKS_AN_INDEX >= lists.len(list) {
            self.make_index(alloc, lists, list, keys.with(walk.key));
        }
    }
}

ghost use Rattle.std.specs.Prelude.{◌<◌, IfOk};
ghost use Rattle.st_mail.specs.Index.{IsIndexOf};

// Makes an index of the list by `keys`, with room for at least as many more messages as the list
// has.
fn index_over(
    alloc: Global,
    lists: &Lists<Message>,
    list: usize,
    keys: Keys,
) -> Result<Box<Index>, AllocError>
    requires { list < length lists.now.lists }
    ensures { IfOk result (λ index. IsIndexOf index.value (list_at lists.now list)) }
{
    let room = lists.len(list).checked_mul(2).ok_or(AllocError)?;
    let mut index = Index::new(alloc, room as usize, keys)?;
    for message in lists.walk(list) {
        index.push(message)?;
    }
    Ok(Box::new(alloc, index)?)
}
