//! The stored queues. A queue in which calls have walked far has an index.

ghost use Rattle.std.specs.Prelude.{◌≡◌, ◌+◌, ◌<◌, ◌≤◌, ◌==◌, ◌&&◌, ◌++◌, [], ◌∷◌, true, IfNone};
ghost use Rattle.std.specs.Prelude.{IfOk, IfSome, IsOk, OnOk, OnErr, OnSome, drop, length};
ghost use Rattle.std.specs.Prelude.{option_map, position, remove, replicate, slice_get, slice_set};
ghost use Rattle.std.specs.Prelude.{option_copied};
ghost use Rattle.st_core.specs.Pid.{pid_eq};
ghost use Rattle.st_arena.specs.Arena.{list_at};
ghost use Rattle.st_arena.specs.Calls.{PassesOnce};
ghost use Rattle.st_mail.specs.Index.{IsIndex, IsIndexOf, keys_of};
ghost use Rattle.st_mail.specs.Keys.{has};
ghost use Rattle.st_mail.specs.Mail.{bears_stamp};

use crate::finder::{Finder, Search};
use crate::index::Index;
use crate::keys::SearchKey;
use st_arena::Lists;
use st_core::{Message, Pid, Token};
use std::alloc::{AllocError, Global};
use std::marker::Model;

/// The queues' lists of messages. A contract sees the lists of `st_arena`, and not how their
/// messages are found.
#[derive(Drop)]
pub(crate) struct Queues {
    alloc: Global,
    lists: Lists<Message>,
    // How the messages of each list are found.
    finders: Vec<Finder>,
}

impl Model for Queues {
    ghost use Rattle.st_arena.specs.Arena.{Arena};
    ghost use Rattle.st_core.specs.declared.types.Message.{Message};
    ghost use Rattle.st_mail.specs.Found.{AllFound};

    ghost Value = { Arena Message };

    ghost view = { λ a. a.lists };

    ghost invariant = { λ a. AllFound a.finders.items a.lists.lists };
}

/// Returns whether the token has the from `from` and the own count `this`.
fn is_stamp(from: Pid, this: u64, token: &Option<Token>) -> bool
    ensures { result ≡ bears_stamp from this token.now }
{
    match token {
        None => false,
        Some(token) => token.from == from && token.serial.this == this,
    }
}

impl Queues {
    /// Makes `count` empty queues, without room for messages. Fails if memory runs out.
    pub(crate) fn new(alloc: Global, count: usize) -> Result<Queues, AllocError>
        ensures empty { IfOk result (λ queues. queues.lists ≡ replicate count []) }
        ensures spare { IfOk result (λ queues. queues.spare ≡ 0) }
    {
        let lists = Lists::new(alloc, count)?;
        let mut finders = Vec::with_capacity(alloc, count)?;
        for _ in 0..count {
            finders.push(Finder::new())?;
        }
        Ok(Queues {
            alloc,
            lists,
            finders,
        })
    }

    /// Makes room for `count` more messages, in any queues, and changes nothing if there is room
    /// already. Fails if memory runs out.
    pub(crate) fn reserve(&mut self, count: usize) -> Result<(), AllocError>
        ensures room { OnOk result (count ≤ self.new.spare) }
        ensures succeeds { count ≤ self.old.spare → IsOk result }
        ensures had_room { count ≤ self.old.spare → self.new ≡ self.old }
        ensures spare { self.old.spare ≤ self.new.spare }
        ensures lists_stay { self.new.lists ≡ self.old.lists }
    {
        self.lists.reserve(count)
    }

    pub(crate) fn len(&self, queue: usize) -> u64
        requires { queue < length self.now.lists }
        ensures { result ≡ length (list_at self.now queue) }
    {
        self.lists.len(queue)
    }

    /// Returns the message at `place` of the queue, if the queue is that long.
    pub(crate) fn get(&self, queue: usize, place: u64) -> Option<&Message>
        requires { queue < length self.now.lists }
        ensures { option_copied result ≡ slice_get (list_at self.now queue) place }
    {
        self.lists.get(queue, place)
    }

    /// Adds a message at the end of the queue. Fails only if there is no room and memory runs out.
    pub(crate) fn push_back(&mut self, queue: usize, message: Message) -> Result<(), AllocError>
        requires { queue < length self.old.lists }
        ensures pushed { OnOk result (
            self.new.lists ≡ slice_set self.old.lists queue
            (list_at self.old queue ++ message ∷ [])) }
        ensures succeeds { 0 < self.old.spare → IsOk result }
        ensures had_room { 0 < self.old.spare → self.old.spare ≡ self.new.spare + 1 }
        ensures lists_stay { OnErr result (self.new.lists ≡ self.old.lists) }
    {
        self.reserve(1)?;
        self.push_reserved(queue, message);
        Ok(())
    }

    /// Adds a message at the end of the queue, for which there must be room.
    pub(crate) fn push_reserved(&mut self, queue: usize, message: Message)
        requires in_range { queue < length self.old.lists }
        requires room { 0 < self.old.spare }
        ensures pushed { self.new.lists
            ≡ slice_set self.old.lists queue (list_at self.old queue ++ message ∷ []) }
        ensures spare { self.old.spare ≡ self.new.spare + 1 }
    {
        self.lists.push_reserved(queue, message);
        self.finders[queue].push(self.alloc, &self.lists, queue, &message);
    }

    /// Removes the message at `place` of the queue and returns it, if the queue is that long.
    /// `search` is how the message was found. Its room serves the next message of any queue.
    pub(crate) fn take_at(&mut self, queue: usize, place: u64, search: Search) -> Option<Message>
        requires { queue < length self.old.lists }
        ensures value { result ≡ slice_get (list_at self.old queue) place }
        ensures taken { OnSome result (
            self.new.lists ≡ slice_set self.old.lists queue
            (remove (list_at self.old queue) place)) }
        ensures spare { OnSome result (self.new.spare ≡ self.old.spare + 1) }
        ensures nothing_there { IfNone result (self.new ≡ self.old) }
    {
        let message = self.lists.take_at(queue, place)?;
        self.finders[queue].remove(self.alloc, &self.lists, queue, place, &message, search);
        Some(message)
    }

    /// Counts the walk of a search that passed the whole queue and found nothing. After enough
    /// such walks the queue gets an index.
    pub(crate) fn count_miss(&mut self, queue: usize, search: Search)
        requires { queue < length self.old.lists }
        ensures { self.new ≡ self.old }
    {
        if let Some(walk) = search.to_end(self.lists.len(queue)) {
            self.finders[queue].count_walk(self.alloc, &self.lists, queue, walk);
        }
    }

    /// Returns the index of the queue, if there is one by `key`.
    #[inline]
    fn index_of(&self, queue: usize, key: SearchKey) -> Option<&Index>
        requires { queue < length self.now.lists }
        ensures kept { IfSome result (λ index. has (keys_of index.now) key ≡ true) }
        ensures index { IfSome result (λ index. IsIndex index.now) }
        ensures queue { IfSome result (λ index. IsIndexOf index.now (list_at self.now queue)) }
    {
        self.finders[queue].index_by(key)
    }

    pub(crate) fn find_from(&self, queue: usize, from: Pid) -> Option<u64>
        requires { queue < length self.now.lists }
        ensures { result ≡ position (λ m. pid_eq m.from from) (list_at self.now queue) }
    {
        if let Some(index) = self.index_of(queue, SearchKey::Sender) {
            return index.find_from(from);
        }
        let matches = |message: &Message| -> bool
            ensures { result ≡ pid_eq message.now.from from }
        { message.from == from };
        self.lists.find_first(queue, &matches)
    }

    pub(crate) fn find_value(&self, queue: usize, value: u64) -> Option<u64>
        requires { queue < length self.now.lists }
        ensures { result ≡ position (λ m. m.value == value) (list_at self.now queue) }
    {
        if let Some(index) = self.index_of(queue, SearchKey::Value) {
            return index.find_value(value);
        }
        let matches = |message: &Message| -> bool
            ensures { result ≡ (message.now.value == value) }
        { message.value == value };
        self.lists.find_first(queue, &matches)
    }

    pub(crate) fn find_both(&self, queue: usize, from: Pid, value: u64) -> Option<u64>
        requires { queue < length self.now.lists }
        ensures { result ≡ position (λ m. pid_eq m.from from && m.value == value)
            (list_at self.now queue) }
    {
        if let Some(index) = self.index_of(queue, SearchKey::Both) {
            return index.find_both(from, value);
        }
        let matches = |message: &Message| -> bool
            ensures { result ≡ (pid_eq message.now.from from && message.now.value == value) }
        { message.from == from && message.value == value };
        self.lists.find_first(queue, &matches)
    }

    /// Returns the least place from `start` on whose message's token has the from `from` and the
    /// own count `this`.
    pub(crate) fn find_stamp(&self, queue: usize, from: Pid, this: u64, start: u64) -> Option<u64>
        requires { queue < length self.now.lists }
        ensures { result ≡ option_map (λ k. start + k)
            (position (λ m. bears_stamp from this m.token) (drop start (list_at self.now queue))) }
    {
        if let Some(index) = self.index_of(queue, SearchKey::Stamp) {
            return index.find_stamp(from, this, start);
        }
        let mut kept = self.lists.walk(queue).skip(start as usize);
        let place = kept.position(|message| is_stamp(from, this, &message.token))?;
        Some(start + place as u64)
    }

    /// Returns the place of the message with the stamp, of which the queue has at most one.
    /// Without an index it searches from both ends at once.
    pub(crate) fn find_one_stamp(&self, queue: usize, from: Pid, this: u64) -> Option<u64>
        requires within { queue < length self.now.lists }
        requires one { PassesOnce (λ m. bears_stamp from this m.token) (list_at self.now queue) }
        ensures { result ≡ position (λ m. bears_stamp from this m.token) (list_at self.now queue) }
    {
        if let Some(index) = self.index_of(queue, SearchKey::Stamp) {
            return index.find_stamp(from, this, 0);
        }
        let bears = |message: &Message| -> bool
            ensures { result ≡ bears_stamp from this message.now.token }
        { is_stamp(from, this, &message.token) };
        self.lists.find_any(queue, &bears)
    }
}
