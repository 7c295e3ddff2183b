//! The arena of lists, and all calls on it.

use crate::chain::{any_answered, append, change_items, first_answered, unlink};
use crate::ladder::{Ladders, find_key, follow_push, follow_take};
use crate::node::{Ends, NONE, Node};
use crate::walk::Walk;
use slab::Slab;
use std::alloc::{AllocError, AllocFailed, Global};
use std::collections::HashMap;
use std::marker::Model;

/// A fixed number of lists whose nodes lie in one arena.
///
/// A contract sees the lists and `spare`, the number of values for which there is room already.
#[derive(Drop)]
pub struct Lists<T> {
    alloc: Global,
    nodes: Slab<Node<T>>,
    ends: Vec<Ends>,
    ladders: Ladders,
}

impl<T> Model for Lists<T> {
    ghost use Rattle.std.specs.Prelude.{map, ◌-◌};
    ghost use Rattle.slab.specs.Slab.{get, slab_len};
    ghost use Rattle.st_arena.specs.Arena.{Arena, arena_code};

    ghost Value = { Arena T };

    ghost coded = { arena_code T.code };

    ghost use Rattle.std.specs.Prelude.{nat_eq};
    ghost use Rattle.std.specs.HashMap.{get as get_in};
    ghost use Rattle.st_arena.specs.Chain.{values_of, AreChains, AreLadders};

    ghost view = { λ a. record {
      lists = map (values_of (get a.nodes)) a.ends.items;
      spare = a.nodes.capacity - slab_len a.nodes;
    } };

    ghost invariant = { λ a. AreChains (get a.nodes) a.ends.items
        (slab_len a.nodes) a.nodes.capacity
        × AreLadders (get a.nodes) a.ends.items (get_in nat_eq a.ladders) };
}

impl<T> Lists<T> {
    ghost use Rattle.std.specs.Prelude.{◌≡◌, ◌+◌, ◌<◌, ◌≤◌, ℕ, Bool, [], ◌∷◌, ◌++◌, map, length};
    ghost use Rattle.std.specs.Prelude.{replicate, remove, position, slice_get, slice_set, Some};
    ghost use Rattle.std.specs.Prelude.{None, true, false, IsOk, IfOk, IfErr, OnOk, OnErr, OnSome};
    ghost use Rattle.std.specs.Prelude.{IfSome, IfNone, option_copied};
    ghost use Rattle.std.specs.List.{AllZip};
    ghost use Rattle.std.specs.Fn.{FnReturnsAt};
    ghost use Rattle.st_arena.specs.Arena.{list_at};
    ghost use Rattle.st_arena.specs.Calls.{Computes, IsAnswered, IsFirstAnswered, PassesOnce};

    /// Makes `lists` empty lists, without room for values. Fails if memory runs out.
    pub fn new(alloc: Global, lists: usize) -> Result<Lists<T>, AllocError>
        ensures empty { IfOk result (λ arena. arena.lists ≡ replicate lists []) }
        ensures spare { IfOk result (λ arena. arena.spare ≡ 0) }
    {
        let empty = Ends {
            first: NONE,
            last: NONE,
            len: 0,
        };
        let ends = vec![in alloc; empty; lists]?;
        Ok(Lists {
            alloc,
            nodes: Slab::new(alloc),
            ends,
            ladders: HashMap::new(alloc),
        })
    }

    /// Makes room for `additional` more values, on any lists, and changes nothing if there is room
    /// already. Fails if memory runs out.
    pub fn reserve(&mut self, additional: usize) -> Result<(), AllocError>
        ensures room { OnOk result (additional ≤ self.new.spare) }
        ensures succeeds { additional ≤ self.old.spare → IsOk result }
        ensures had_room { additional ≤ self.old.spare → self.new ≡ self.old }
        ensures spare { self.old.spare ≤ self.new.spare }
        ensures lists_stay { self.new.lists ≡ self.old.lists }
    {
        self.nodes.reserve(additional)
    }

    /// Adds `value` at the end of a list. If memory runs out, the error has the value.
    pub fn push_back(&mut self, list: usize, value: T) -> Result<(), AllocFailed<T>>
        requires { list < length self.old.lists }
        ensures pushed { OnOk result (
            self.new.lists ≡ slice_set self.old.lists list (list_at self.old list ++ value ∷ [])) }

        // It fails only if nothing was spare, and then no list changes.
        ensures succeeds { 0 < self.old.spare → IsOk result }
        ensures lists_stay { OnErr result (self.new.lists ≡ self.old.lists) }
        ensures value_returned { IfErr result (λ failed. failed.value ≡ value) }

        // The push uses one spare place. If nothing was spare, the arena may grow by several
        // places.
        ensures had_room { 0 < self.old.spare → self.old.spare ≡ self.new.spare + 1 }
    {
        let Ok(()) = self.reserve(1) else {
            return Err(AllocFailed { value });
        };
        self.push_reserved(list, value);
        Ok(())
    }

    /// Adds `value` at the end of a list, in a spare place.
    pub fn push_reserved(&mut self, list: usize, value: T)
        requires in_range { list < length self.old.lists }
        requires room { 0 < self.old.spare }
        ensures pushed { self.new.lists
            ≡ slice_set self.old.lists list (list_at self.old list ++ value ∷ []) }
        ensures spare { self.old.spare ≡ self.new.spare + 1 }
    {
        let ends = append(&mut self.nodes, self.ends[list], value);
        self.ends[list] = ends;
        follow_push(&mut self.ladders, list, self.alloc, &self.nodes, ends);
    }

    /// Returns how many items a list has.
    pub fn len(&self, list: usize) -> u64
        requires { list < length self.now.lists }
        ensures { result ≡ length (list_at self.now list) }
    {
        self.ends[list].len
    }

    /// Returns the item at a place of a list, if the list is that long.
    pub fn get(&self, list: usize, place: u64) -> Option<&T>
        requires { list < length self.now.lists }
        ensures { option_copied result ≡ slice_get (list_at self.now list) place }
    {
        let ends = self.ends[list];
        if place >= ends.len {
            return None;
        }
        let key = find_key(&self.ladders, list, &self.nodes, ends, place);
        Some(&self.nodes[key].value)
    }

    /// Removes the item at a place of a list and returns it, if the list is that long. Its node
    /// becomes spare.
    pub fn take_at(&mut self, list: usize, place: u64) -> Option<T>
        requires { list < length self.old.lists }
        ensures value { result ≡ slice_get (list_at self.old list) place }
        ensures taken { OnSome result (
            self.new.lists ≡ slice_set self.old.lists list (remove (list_at self.old list) place)) }
        ensures spare { OnSome result (self.new.spare ≡ self.old.spare + 1) }
        ensures nothing_there { IfNone result (self.new ≡ self.old) }
    {
        let ends = self.ends[list];
        if place >= ends.len {
            return None;
        }
        let key = find_key(&self.ladders, list, &self.nodes, ends, place);
        let (ends, value) = unlink(&mut self.nodes, ends, place, key);
        self.ends[list] = ends;
        follow_take(
            &mut self.ladders,
            list,
            place,
            self.alloc,
            &self.nodes,
            ends,
        );
        Some(value)
    }

    /// Returns the least place of a list whose item `pred` returns true for.
    pub fn find_first<F: Fn(&T) -> bool>(&self, list: usize, pred: &F) -> Option<u64>
        requires in_range { list < length self.now.lists }
        requires callable { F.IsAlwaysCallable pred.now }
        ensures found { IfSome result (
            IsFirstAnswered (FnReturnsAt F.Fn pred.now) (list_at self.now list)) }
        ensures absent { IfNone result ((place : ℕ) → place < length (list_at self.now list) →
            IsAnswered (FnReturnsAt F.Fn pred.now) (list_at self.now list) place false) }

        // If `pred` computes a test, the result is the test's position in the list.
        ensures position { (test : T → Bool) →
            Computes (FnReturnsAt F.Fn pred.now) test (list_at self.now list) →
            result ≡ position test (list_at self.now list) }
    {
        first_answered(&self.nodes, self.ends[list], pred)
    }

    /// Returns a place of a list whose item `pred` returns true for: the least if the list has at
    /// most 512 items, and otherwise the nearest to either end, in as many steps as it is away
    /// from there.
    pub fn find_any<F: Fn(&T) -> bool>(&self, list: usize, pred: &F) -> Option<u64>
        requires in_range { list < length self.now.lists }
        requires callable { F.IsAlwaysCallable pred.now }
        ensures found { IfSome result (λ place.
            IsAnswered (FnReturnsAt F.Fn pred.now) (list_at self.now list) place true) }
        ensures absent { IfNone result ((place : ℕ) → place < length (list_at self.now list) →
            IsAnswered (FnReturnsAt F.Fn pred.now) (list_at self.now list) place false) }

        // If `pred` computes a test that at most one item passes, the result is the test's
        // position in the list.
        ensures position { (test : T → Bool) →
            Computes (FnReturnsAt F.Fn pred.now) test (list_at self.now list) →
            PassesOnce test (list_at self.now list)
            → result ≡ position test (list_at self.now list) }
    {
        any_answered(&self.nodes, self.ends[list], pred)
    }

    /// Replaces each item of a list by `change(&item)`, from the first on.
    pub fn change_all<F: Fn(&T) -> T>(&mut self, list: usize, change: &F)
    where
        T: Drop,
        requires in_range { list < length self.old.lists }
        requires callable { F.IsAlwaysCallable change.now }
        ensures others_stay { self.new.lists
            ≡ slice_set self.old.lists list (list_at self.new list) }
        ensures changed { AllZip (FnReturnsAt F.Fn change.now)
            (list_at self.old list) (list_at self.new list) }

        // If `change` computes a function, the list is mapped by that function.
        ensures mapped { (function : T → T) →
            Computes (FnReturnsAt F.Fn change.now) function (list_at self.old list) →
            self.new.lists ≡ slice_set self.old.lists list (map function (list_at self.old list)) }
        ensures spare { self.new.spare ≡ self.old.spare }
    {
        change_items(&mut self.nodes, self.ends[list], change)
    }

    /// Returns an iterator over a list's items, from the first on.
    pub fn walk(&self, list: usize) -> Walk<'_, T>
        requires { list < length self.now.lists }
        ensures { result ≡ list_at self.now list }
    {
        let ends = self.ends[list];
        Walk::new(&self.nodes, ends.first, ends.len)
    }
}
