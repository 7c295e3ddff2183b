//! The log of one process.

ghost use Rattle.std.specs.Prelude.{◌≡◌, ◌+◌, ◌-◌, ◌<◌, ◌≤◌, ◌↔◌, [], ◌∷◌, ◌++◌, length, slice_get};
ghost use Rattle.std.specs.Prelude.{slice_index_or, vec_len, IfOk, OnOk, IsOk, IsTrue};
ghost use Rattle.std.specs.List.Sorted.{IsBinarySearchResult, IsSearchInRange};
ghost use Rattle.std.specs.Ordering.{nat_cmp};
ghost use Rattle.std.specs.Vec.{vec_capacity};
ghost use Rattle.st_core.specs.Step.{actor};
ghost use Rattle.st_log.specs.Entries.{entry_at, is_wide, last_rank};
ghost use Rattle.st_log.specs.Rows.{without_rank_in, HasGrown, HasPlace, HasRoomInAll};
ghost use Rattle.st_log.specs.TracedActs.{without_rank};

use crate::calls::CallLog;
use crate::entry::Entry;
use crate::row::{Content, LogRow, Unranked, content_of};
use crate::same::is_same_entry;
use crate::traced_act::{TracedAct, is_same_form, traced_of};
use st_core::{Act, Event, Pid, Reply};
use std::alloc::{AllocError, Global};
use std::marker::Model;

/// The most entries of one form: a row has 32 bits for a place.
const MOST_PLACES: usize = 4_294_967_295;

/// The entries of the acts that touched one process, in order. The entry of a reset or a tracer
/// change takes 16 bytes, and at most 16 more as room to grow. The entry of a frequent act takes
/// 40 bytes if it wasn't reported and carried no token (`calls`), else 56 (`traced`); any other
/// takes at most 192.
#[derive(Drop)]
pub struct Log {
    rows: Vec<LogRow>,
    calls: CallLog,
    traced: Vec<TracedAct>,
    apart: Vec<Unranked>,
    // The number of further entries for which each list has room.
    reserved: usize,
}

impl Model for Log {
    ghost use Rattle.std.specs.Vec.{vec_capacity};
    ghost use Rattle.st_log.specs.Entries.{Logged};

    ghost Value = { Logged };

    ghost use Rattle.st_log.specs.Rows.{entries_of, IsLog};

    ghost view = { λ l. record {
      entries = entries_of l.calls.calls l.traced.items l.apart.items l.rows.items;
      spare = l.reserved;
    } };

    ghost invariant = { λ l.
        IsLog l.rows.items l.calls l.traced.items l.apart.items
        (vec_capacity l.rows) (vec_capacity l.traced) (vec_capacity l.apart) l.reserved };
}

impl Log {
    /// Makes an empty log with room for `capacity` entries. Fails if memory runs out, or if
    /// `capacity` is above 4,294,967,295.
    pub fn with_capacity(alloc: Global, capacity: usize) -> Result<Log, AllocError>
        ensures entries { IfOk result (λ log. log.entries ≡ []) }
        ensures room { IfOk result (λ log. log.spare ≡ capacity) }
    {
        if capacity > MOST_PLACES {
            return Err(AllocError);
        }
        Ok(Log {
            rows: Vec::with_capacity(alloc, capacity)?,
            calls: CallLog::with_capacity(alloc, capacity)?,
            traced: Vec::with_capacity(alloc, capacity)?,
            apart: Vec::with_capacity(alloc, capacity)?,
            reserved: capacity,
        })
    }

    /// Returns the number of entries.
    pub fn len(&self) -> usize
        ensures { result ≡ length self.now.entries }
    {
        self.rows.len()
    }

    /// Returns whether there are no entries.
    pub fn is_empty(&self) -> bool
        ensures { IsTrue result ↔ (self.now.entries ≡ []) }
    {
        self.rows.is_empty()
    }

    /// Returns the entry at `place`, counted from 0, if there is one.
    pub fn get(&self, place: usize) -> Option<Entry>
        ensures { result ≡ slice_get self.now.entries place }
    {
        if place < self.len() {
            Some(self.at(place))
        } else {
            None
        }
    }

    /// Returns the first entry, if there is one.
    pub fn first(&self) -> Option<Entry>
        ensures { result ≡ slice_get self.now.entries 0 }
    {
        self.get(0)
    }

    /// Returns the last entry, if there is one.
    pub fn last(&self) -> Option<Entry>
        ensures { result ≡ slice_get self.now.entries (length self.now.entries - 1) }
    {
        self.get(self.len().saturating_sub(1))
    }

    /// Returns the entry at `place`.
    pub fn at(&self, place: usize) -> Entry
        requires { place < length self.now.entries }
        ensures { result ≡ slice_index_or self.now.entries place result }
    {
        let row = self.rows[place];
        row.content
            .without_rank(&self.calls, self.traced.as_slice(), self.apart.as_slice())
            .with_rank(row.rank)
    }

    /// Returns the rank of the entry at `place`.
    pub fn rank_at(&self, place: usize) -> u64
        requires { place < length self.now.entries }
        ensures { result ≡ (entry_at self.now.entries place).rank }
    {
        self.rows[place].rank
    }

    /// Returns the act of the entry at `place`.
    pub fn act_at(&self, place: usize) -> Act
        requires { place < length self.now.entries }
        ensures { result ≡ (entry_at self.now.entries place).act }
    {
        let content = self.rows[place].content;
        content.act(&self.calls, self.traced.as_slice(), self.apart.as_slice())
    }

    /// Returns the actor of the entry at `place`.
    #[inline(always)]
    pub fn actor_at(&self, place: usize) -> Pid
        requires { place < length self.now.entries }
        ensures { result ≡ actor (entry_at self.now.entries place).act }
    {
        let content = self.rows[place].content;
        content.actor(&self.calls, self.traced.as_slice(), self.apart.as_slice())
    }

    /// Returns whether the entry at `place` is of a reset or a tracer change, which touches a
    /// whole node.
    #[inline(always)]
    pub fn is_wide_at(&self, place: usize) -> bool
        requires { place < length self.now.entries }
        ensures { result ≡ is_wide (entry_at self.now.entries place).act }
    {
        let content = self.rows[place].content;
        content.is_wide(&self.calls, self.traced.as_slice(), self.apart.as_slice())
    }

    /// Returns the reply of the entry at `place`.
    pub fn reply_at(&self, place: usize) -> Reply
        requires { place < length self.now.entries }
        ensures { result ≡ (entry_at self.now.entries place).reply }
    {
        let content = self.rows[place].content;
        content.reply(&self.calls, self.traced.as_slice(), self.apart.as_slice())
    }

    /// Returns the event that the entry at `place` reported, if it did.
    pub fn report_at(&self, place: usize) -> Option<Event>
        requires { place < length self.now.entries }
        ensures { result ≡ (entry_at self.now.entries place).report }
    {
        let content = self.rows[place].content;
        content.report(&self.calls, self.traced.as_slice(), self.apart.as_slice())
    }

    /// Returns true only if the entry at `place` is equal to the entry at `there` of `other`. If
    /// it returns false, they may still be equal.
    pub fn is_seen_same(&self, place: usize, other: &Log, there: usize) -> bool
        requires here { place < length self.now.entries }
        requires there { there < length other.now.entries }
        ensures { IsTrue result
            → entry_at self.now.entries place ≡ entry_at other.now.entries there }
    {
        let (mine, theirs) = (self.rows[place], other.rows[there]);
        if mine.rank != theirs.rank {
            return false;
        }
        match (mine.content, theirs.content) {
            (Content::Reset(actor), Content::Reset(same)) => actor == same,
            (Content::Tracer(actor, on, was), Content::Tracer(same, turned, before)) => {
                actor == same && on == turned && was == before
            }
            (Content::Call(call), Content::Call(same)) => {
                self.calls
                    .is_seen_same(call as usize, &other.calls, same as usize)
            }
            (Content::Traced(form), Content::Traced(same)) => {
                is_same_form(&self.traced[form as usize], &other.traced[same as usize])
            }
            _ => is_same_entry(&self.at(place), &other.at(there)),
        }
    }

    /// Returns the rank of the last entry, which is the greatest if ranks rise; 0 if the log is
    /// empty.
    pub fn last_rank(&self) -> u64
        ensures { result ≡ last_rank 0 self.now.entries }
    {
        match self.rows.last() {
            Some(row) => row.rank,
            None => 0,
        }
    }

    /// Searches for `rank` by halves. If ranks rise, returns the place of the entry with the rank,
    /// or as the error the place at which it would stand.
    pub fn search(&self, rank: u64) -> Result<usize, usize>
        ensures range { IsSearchInRange result (length self.now.entries) }
        ensures position { IsBinarySearchResult (λ e. nat_cmp e.rank rank) self.now.entries result }
    {
        self.rows.binary_search_by_key(&rank, |row| row.rank)
    }

    /// Makes room for one more entry, if there is none. Fails if memory runs out, or if
    /// 4,294,967,295 entries are of one form.
    pub fn reserve(&mut self) -> Result<(), AllocError>
        ensures entries { self.new.entries ≡ self.old.entries }
        ensures spare { self.old.spare ≤ self.new.spare }
        ensures room { OnOk result (0 < self.new.spare) }
        ensures succeeds { 0 < self.old.spare → IsOk result }
    {
        if self.reserved > 0 {
            return Ok(());
        }
        if self.traced.len() >= MOST_PLACES || self.apart.len() >= MOST_PLACES {
            return Err(AllocError);
        }
        self.rows.reserve(1)?;
        self.calls.reserve()?;
        self.traced.reserve(1)?;
        self.apart.reserve(1)?;
        self.reserved = 1;
        Ok(())
    }

    /// Appends an entry into reserved room.
    pub fn push_reserved(&mut self, entry: &Entry)
        requires { 0 < self.old.spare }
        ensures entries { self.new.entries ≡ self.old.entries ++ entry.now ∷ [] }
        ensures spare { self.old.spare ≡ self.new.spare + 1 }
    {
        let content = keep_content(&mut self.calls, &mut self.traced, &mut self.apart, entry);
        self.rows.push_reserved(LogRow {
            rank: entry.rank,
            content,
        });
        self.reserved -= 1;
    }
}

/// Makes the content of the entry's row. If a row can't say the whole entry, keeps the rest in the
/// smallest form that can.
fn keep_content(
    calls: &mut CallLog,
    traced: &mut Vec<TracedAct>,
    apart: &mut Vec<Unranked>,
    entry: &Entry,
) -> Content
    requires { HasRoomInAll calls.old.spare (vec_len traced.old) (vec_capacity traced.old)
        (vec_len apart.old) (vec_capacity apart.old) }
    ensures says { without_rank_in calls.new.calls traced.new.items apart.new.items result
        ≡ without_rank entry.now }
    ensures placed { HasPlace (length calls.new.calls) (length traced.new.items)
        (length apart.new.items) result }
    ensures calls { HasGrown calls.old.calls calls.new.calls }
    ensures spare { calls.old.spare ≤ calls.new.spare + 1 }
    ensures traced { HasGrown traced.old.items traced.new.items }
    ensures traced_capacity { vec_capacity traced.new ≡ vec_capacity traced.old }
    ensures apart { HasGrown apart.old.items apart.new.items }
    ensures capacity { vec_capacity apart.new ≡ vec_capacity apart.old }
{
    if let Some(content) = content_of(entry) {
        return content;
    }
    if let (None, None) = (entry.report, entry.carried) {
        return Content::Call(calls.push_reserved(&entry.act, &entry.reply));
    }
    if let Some(form) = traced_of(entry) {
        let place = traced.len() as u32;
        traced.push_reserved(form);
        return Content::Traced(place);
    }
    let place = apart.len() as u32;
    apart.push_reserved(Unranked::of(entry));
    Content::Apart(place)
}
