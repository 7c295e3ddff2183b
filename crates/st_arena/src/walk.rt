//! The iterator over one list.

ghost use Rattle.std.specs.Prelude.{◌≡◌, length};
ghost use Rattle.std.specs.Iterator.{YieldsFirstRef, item_count};

use crate::node::Node;
use slab::Slab;
use std::marker::Model;

/// The items of one list, from the first on. A contract sees the list of items left.
#[derive(Drop)]
pub struct Walk<'a, T> {
    nodes: &'a Slab<Node<T>>,
    // The key of the first node left, and the number of nodes left.
    key: usize,
    left: u64,
}

impl<'a, T> Model for Walk<'a, T> {
    ghost use Rattle.std.specs.Prelude.{◌≡◌, List, length};
    ghost use Rattle.slab.specs.Slab.{get};

    ghost Value = { List T };

    ghost use Rattle.st_arena.specs.Chain.{values_from};

    ghost view = { λ w. values_from (get w.nodes.now) w.left w.key };

    ghost invariant = { λ w. length (values_from (get w.nodes.now) w.left w.key) ≡ w.left };
}

impl<'a, T> Walk<'a, T> {
    ghost use Rattle.slab.specs.Slab.{get};
    ghost use Rattle.st_arena.specs.Chain.{values_from};

    pub(crate) fn new(nodes: &'a Slab<Node<T>>, key: usize, left: u64) -> Walk<'a, T>
        requires { length (values_from (get nodes.now) left key) ≡ left }
        ensures { result ≡ values_from (get nodes.now) left key }
    {
        Walk { nodes, key, left }
    }
}

impl<'a, T> Iterator for Walk<'a, T> {
    type Item = &'a T;

    ghost next_gives = { YieldsFirstRef (λ rest. rest) };

    ghost remaining = { item_count (λ rest. rest) };

    fn next(&mut self) -> Option<&'a T> {
        if self.left == 0 {
            return None;
        }
        let node = &self.nodes[self.key];
        self.key = node.next;
        self.left -= 1;
        Some(&node.value)
    }
}
