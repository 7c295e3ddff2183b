//! The commands of `seqtool` on any reader and writer: each reads all bytes, writes its output and
//! returns the exit status. `check` and `audit` are those of `st_commands`, within the greater
//! limits; `check --node` goes by the rules of a standard node.
//!
//! `specs/` defines what they write, and which command the words of a command line ask for.
#![tactic(auto)]

mod answer;
mod check_node;
mod complete;
mod completion_lines;
pub mod line_laws;
mod line_numbers;
mod lines;
mod parts;
mod premise;
mod premise_lines;
mod program;
mod question;
mod renumber;
mod text;
mod trace;
mod why;
mod why_answer;
mod words;

pub use check_node::run_check_node;
pub use complete::{Form, run_complete};
pub use completion_lines::{send_added, send_never};
pub use line_numbers::LineNumbers;
pub use program::{run, tell_usage, tell_version};
pub use question::{Direction, Question};
pub use renumber::run_renumber;
pub use why::run_why;
pub use words::{ToolTask, asks_version, read_words};
