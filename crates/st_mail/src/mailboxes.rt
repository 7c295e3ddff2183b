//! The mailboxes. A call on one of them, by its number, leaves the others as they are.

ghost use Rattle.std.specs.Prelude.{◌≡◌, ◌<◌, ◌≤◌, ◌+◌, ◌==◌, ◌&&◌, if◌then◌else◌, is_some, nat_lt};
ghost use Rattle.std.specs.Prelude.{[], ◌∷◌, ◌++◌, length, map, option_map, position, replicate};
ghost use Rattle.std.specs.Prelude.{set, slice_get, IfOk, IsOk, OnOk, OnErr};
ghost use Rattle.st_core.specs.Pick.{pick};
ghost use Rattle.st_core.specs.Pid.{pid_eq};
ghost use Rattle.st_core.specs.Step.{untraced};
ghost use Rattle.st_arena.specs.Calls.{PassesOnce};
ghost use Rattle.st_mail.specs.Mail.{queue_in, queue_without, bears_stamp};

use crate::finder::Search;
use crate::queues::Queues;
use st_core::{Message, Pid, Want};
use std::alloc::{AllocError, Global};
use std::marker::Model;

/// The queues of the mailboxes 0, 1, 2 and so on.
#[derive(Drop)]
pub struct Mailboxes {
    queues: Queues,

    // How many messages at the front of each mailbox were wiped. They may still be stored with
    // their tokens, which count for nothing. A wipe takes all tokens in the mailbox, so the wiped
    // messages are those at the front.
    wiped: Vec<u64>,

    // Whether messages of any mailbox were wiped.
    was_wiped: bool,
}

impl Model for Mailboxes {
    ghost use Rattle.st_mail.specs.Mail.{Mail};
    ghost use Rattle.st_mail.specs.Wiped.{fronts_wiped, AreFronts};

    ghost Value = { Mail };

    ghost view = { λ a. record {
      boxes = fronts_wiped a.wiped.items a.queues.lists;
      spare = a.queues.spare;
    } };

    ghost invariant = { λ a. AreFronts a.wiped.items a.queues.lists };
}

fn without_token(message: Message) -> Message
    ensures { result ≡ untraced message }
{
    Message {
        token: None,
        ..message
    }
}

impl Mailboxes {
    /// Makes `count` empty mailboxes, without room for messages. Fails if memory runs out.
    pub fn new(alloc: Global, count: usize) -> Result<Mailboxes, AllocError>
        ensures empty { IfOk result (λ mail. mail.boxes ≡ replicate count []) }
        ensures spare { IfOk result (λ mail. mail.spare ≡ 0) }
    {
        let queues = Queues::new(alloc, count)?;
        let wiped = vec![in alloc; 0; count]?;
        Ok(Mailboxes {
            queues,
            wiped,
            was_wiped: false,
        })
    }

    /// Makes room for `count` more messages, in any mailboxes, and changes nothing if there is
    /// room already. Fails if memory runs out.
    pub fn reserve(&mut self, count: usize) -> Result<(), AllocError>
        ensures room { OnOk result (count ≤ self.new.spare) }
        ensures succeeds { count ≤ self.old.spare → IsOk result }
        ensures had_room { count ≤ self.old.spare → self.new ≡ self.old }
        ensures spare { self.old.spare ≤ self.new.spare }
        ensures boxes { self.new.boxes ≡ self.old.boxes }
    {
        self.queues.reserve(count)
    }

    /// Returns how many messages are in the mailbox.
    pub fn len(&self, mailbox: usize) -> u64
        requires { mailbox < length self.now.boxes }
        ensures { result ≡ length (queue_in self.now.boxes mailbox) }
    {
        self.queues.len(mailbox)
    }

    /// Returns the message at `place` of the mailbox, in which the oldest is at place 0.
    pub fn get(&self, mailbox: usize, place: u64) -> Option<Message>
        requires { mailbox < length self.now.boxes }
        ensures { result ≡ slice_get (queue_in self.now.boxes mailbox) place }
    {
        let message = *self.queues.get(mailbox, place)?;
        if place < self.wiped[mailbox] {
            Some(without_token(message))
        } else {
            Some(message)
        }
    }

    /// Puts a message at the end of the mailbox. Fails only if there is no room and memory runs
    /// out.
    pub fn put(&mut self, mailbox: usize, message: Message) -> Result<(), AllocError>
        requires { mailbox < length self.old.boxes }
        ensures ok { OnOk result (
            self.new.boxes ≡ set self.old.boxes mailbox
            (queue_in self.old.boxes mailbox ++ message ∷ [])) }
        ensures err { OnErr result (self.new.boxes ≡ self.old.boxes) }
        ensures succeeds { 0 < self.old.spare → IsOk result }
        ensures had_room { 0 < self.old.spare → self.old.spare ≡ self.new.spare + 1 }
    {
        self.queues.push_back(mailbox, message)?;
        Ok(())
    }

    /// Puts a message at the end of the mailbox, for which there must be room.
    pub fn put_reserved(&mut self, mailbox: usize, message: Message)
        requires within { mailbox < length self.old.boxes }
        requires room { 0 < self.old.spare }
        ensures boxes { self.new.boxes
            ≡ set self.old.boxes mailbox (queue_in self.old.boxes mailbox ++ message ∷ []) }
        ensures spare { self.old.spare ≡ self.new.spare + 1 }
    {
        self.queues.push_reserved(mailbox, message);
    }

    /// Returns the place of the message that a receive with this pattern takes, if there is one. A
    /// pattern by place, or for the first message, needs no walk.
    pub fn find(&self, mailbox: usize, want: &Want) -> Option<u64>
        requires { mailbox < length self.now.boxes }
        ensures { result ≡ option_map (λ found. found.0)
            (pick want.now (queue_in self.now.boxes mailbox)) }
    {
        match *want {
            Want::First => self.within(mailbox, 0),
            Want::Place(place) => self.within(mailbox, place),
            Want::From(from) => self.find_from(mailbox, from),
            Want::Value(value) => self.find_value(mailbox, value),
            Want::Both(from, value) => self.find_both(mailbox, from, value),
        }
    }

    /// Returns the place if a message lies there.
    fn within(&self, mailbox: usize, place: u64) -> Option<u64>
        requires { mailbox < length self.now.boxes }
        ensures { result ≡ (if nat_lt place (length (queue_in self.now.boxes mailbox))
            then Some place else None) }
    {
        if place < self.len(mailbox) {
            Some(place)
        } else {
            None
        }
    }

    fn find_from(&self, mailbox: usize, from: Pid) -> Option<u64>
        requires { mailbox < length self.now.boxes }
        ensures { result ≡ position (λ m. pid_eq m.from from) (queue_in self.now.boxes mailbox) }
    {
        self.queues.find_from(mailbox, from)
    }

    fn find_value(&self, mailbox: usize, value: u64) -> Option<u64>
        requires { mailbox < length self.now.boxes }
        ensures { result ≡ position (λ m. m.value == value) (queue_in self.now.boxes mailbox) }
    {
        self.queues.find_value(mailbox, value)
    }

    fn find_both(&self, mailbox: usize, from: Pid, value: u64) -> Option<u64>
        requires { mailbox < length self.now.boxes }
        ensures { result ≡ position (λ m. pid_eq m.from from && m.value == value)
            (queue_in self.now.boxes mailbox) }
    {
        self.queues.find_both(mailbox, from, value)
    }

    /// Removes the message that a receive with this pattern takes, and returns its place and the
    /// message. Its room serves the next put on any mailbox.
    pub fn take(&mut self, mailbox: usize, want: &Want) -> Option<(u64, Message)>
        requires { mailbox < length self.old.boxes }
        ensures took { result ≡ pick want.now (queue_in self.old.boxes mailbox) }
        ensures boxes { self.new.boxes
            ≡ set self.old.boxes mailbox (queue_without result (queue_in self.old.boxes mailbox)) }
        ensures spare { self.new.spare ≡ self.old.spare + (if is_some result then 1 else 0) }
    {
        let search = Search::of(want, self.was_wiped);
        let Some(place) = self.find(mailbox, want) else {
            self.queues.count_miss(mailbox, search);
            return None;
        };
        let wiped = self.wiped[mailbox];
        let message = self.queues.take_at(mailbox, place, search).unwrap();
        if place >= wiped {
            return Some((place, message));
        }
        self.wiped[mailbox] = wiped - 1;
        Some((place, without_token(message)))
    }

    /// Returns the least place of the mailbox whose message's token has the from `from` and the
    /// own count `this`.
    pub fn place_of(&self, mailbox: usize, from: Pid, this: u64) -> Option<u64>
        requires { mailbox < length self.now.boxes }
        ensures { result ≡ position (λ m. bears_stamp from this m.token)
            (queue_in self.now.boxes mailbox) }
    {
        self.queues
            .find_stamp(mailbox, from, this, self.wiped[mailbox])
    }

    /// Returns what `place_of` does, if no two messages of the mailbox have the stamp. Unless
    /// messages of the mailbox were wiped, it searches from both ends at once, so that a reply at
    /// the end of a long queue is found as soon as the oldest message.
    pub fn place_of_one(&self, mailbox: usize, from: Pid, this: u64) -> Option<u64>
        requires within { mailbox < length self.now.boxes }
        requires one { PassesOnce (λ m. bears_stamp from this m.token)
            (queue_in self.now.boxes mailbox) }
        ensures { result ≡ position (λ m. bears_stamp from this m.token)
            (queue_in self.now.boxes mailbox) }
    {
        if self.wiped[mailbox] > 0 {
            return self.place_of(mailbox, from, this);
        }
        self.queues.find_one_stamp(mailbox, from, this)
    }

    /// Takes the tokens from the messages in the mailbox, and leaves the messages. It takes the
    /// same time for any number of messages.
    pub fn wipe_tokens(&mut self, mailbox: usize)
        requires { mailbox < length self.old.boxes }
        ensures boxes { self.new.boxes
            ≡ set self.old.boxes mailbox (map untraced (queue_in self.old.boxes mailbox)) }
        ensures spare { self.new.spare ≡ self.old.spare }
    {
        self.wiped[mailbox] = self.len(mailbox);
        self.was_wiped = true;
    }
}
