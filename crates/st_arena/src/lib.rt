//! Lists linked by index, all in one arena.
//!
//! [`Lists`] holds a fixed number of lists. Each value lies in a node of one `slab`, so a node
//! that leaves one list serves the next push on any list. Each call changes what its contract
//! names and no other list. If memory runs out, no list changes, and `push_back` hands the value
//! back.
//!
//! A list in which a take has walked far gets a ladder: the keys of its nodes by place, in a tree
//! of [`Ranks`], which each later push and take keeps up to date. If memory for it runs out, the
//! list is walked, until a later take that walks far finds memory.
//!
//! | Call | Cost | Memory |
//! |---|---|---|
//! | `new`, `reserve` | a step for each list, or for each value held | takes some |
//! | `push_back` | as `push_reserved`, unless the arena grows | takes some if nothing is spare |
//! | `push_reserved`, `take_at` | a step for each bit of the length, on average | for a ladder |
//! | `get` | as `take_at` with a ladder, else the place's distance from the nearer end | none |
//! | `len` | constant | none |
//! | `find_any` | the distance of the place from the nearer end, and at most 512 more | none |
//! | `find_first`, `change_all` | a step for each item of the list | none |
//! | `walk` | constant, and so is each of its steps | none |
//!
//! A node is its value and two indexes. Places and lengths are `u64`, and lists are numbered from
//! 0. Each call requires a list's number below the number of lists, which never changes.
#![tactic(auto)]

mod block;
mod blocks;
mod chain;
mod ladder;
mod lists;
mod node;
mod slots;
mod tree;
mod walk;

pub use lists::Lists;
pub use slots::Ranks;
pub use walk::Walk;
