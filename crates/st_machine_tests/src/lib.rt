//! Tests of the machine, of what it is made of, and of its text form.
//!
//! | Module | Tests |
//! |---|---|
//! | `machine` | `st_core`: sequences, streams, devices |
//! | `text`, `reads` | `st_text`; `reads`: if memory runs out |
//! | `ranks` | `st_arena` |
//! | `lists` | `st_arena` |
//! | `index` | `st_mail` |
//! | `mailboxes` | `st_mail` |
//! | `world` | `st_world` |
//! | `helpers` | none: what several of these take |
#![tactic(auto)]

#[cfg(test)]
mod helpers;
#[cfg(test)]
mod index;
#[cfg(test)]
mod lists;
#[cfg(test)]
mod machine;
#[cfg(test)]
mod mailboxes;
#[cfg(test)]
mod ranks;
#[cfg(test)]
mod reads;
#[cfg(test)]
mod text;
#[cfg(test)]
mod world;
