//! Tests of the auditor: of what is checked, found, completed and drawn.
//!
//! | Module | Tests |
//! |---|---|
//! | `checks` | `st_check`: checks and replays |
//! | `completes` | `lack_decide` |
//! | `memory` | the other crates, if memory runs out |
//! | `helpers` | none: helpers that several of the modules call |
#![tactic(auto)]

#[cfg(test)]
mod checks;
#[cfg(test)]
mod completes;
#[cfg(test)]
mod helpers;
#[cfg(test)]
mod memory;
