//! Completions; the flaws that an event may have; what streams need, and what they certainly lost.
//!
//! A send or print is a need if the events before it don't leave its prev and no new trace has it,
//! so that a receive is missing.
#![tactic(auto)]

mod completion;
mod first_flaws;
mod flaws;
mod losses;
mod ranks;
mod silent;
mod unfounded_stamps;

pub use completion::{Completion, completion_of, is_marked, marks_at};
pub use first_flaws::find_flaw;
pub use flaws::{Flaw, Left, is_stamp, prev_left};
pub use losses::{is_sent, receive_of, shows_loss};
pub use ranks::{counts_of, renumbered};
pub use silent::{is_unlisted, pids_with, with_silent};
pub use unfounded_stamps::find_unfounded;
