//! Laws on completions, and no code: which streams have a run without a reset.
//!
//! Full streams tell every stamp and every receive of a token. All that a run without a reset
//! does, reported or not, makes full streams. So streams have a run without a reset exactly if
//! they can be completed to full ones. `closed_world` asks for a run of the listed processes
//! alone, `open_world` for a run with any others that report nothing.
#![tactic(auto)]

pub mod closed_world;
pub mod open_world;
