//! Tests of processes on threads, and of calls with much to do.
//!
//! | Module | Tests |
//! |---|---|
//! | `runtime` | `st_runtime`: replies, refusals, and calls that run out of memory |
//! | `runs` | `st_runtime`: threads that meet, and scripts that are driven |
//! | `systems` | `st_runtime`: systems of 100,000 processes, by one thread |
//! | `commands` | `st_commands`: many words |
//! | `sizes` | many crates: calls with 100,000 of what they take |
//! | `helpers` | none: helpers that several of the modules call |
#![tactic(auto)]

#[cfg(test)]
mod commands;
#[cfg(test)]
mod helpers;
#[cfg(test)]
mod runs;
#[cfg(test)]
mod runtime;
#[cfg(test)]
mod sizes;
#[cfg(test)]
mod systems;
