//! The command line: which command the words ask for. `clap` reads them; nothing here reads the
//! input or writes.

ghost use Rattle.std.specs.Prelude.{◌≡◌, Some, IfOk, IfErr, map};
ghost use Rattle.clap.specs.Words.{app_of, found_of, kind_of, rows_of};
ghost use Rattle.st_commands.specs.Words.{task_asked, chart_line, chart_of, command_line, task_of};
ghost use Rattle.st_commands.specs.Words.{IsRefusal, IsRefusalOf};

use clap::error::ErrorKind;
use clap::{Arg, ArgMatches, Command};
use st_core::Label;
use std::alloc::{AllocError, Global};
use std::convert::AsStr;
use thiserror::Error;

/// A command of the program.
#[derive(Clone, Copy, Debug, PartialEq, Eq)]
pub enum Task {
    /// `check`: is the input's certificate a run that shows its streams?
    Check,
    /// `audit`: is there a certificate for the input's streams?
    Audit,
    /// `replay`: what do the input's acts report?
    Replay,
    /// `drive`: what do the input's acts come to, each process's on a thread of its own?
    Drive,
    /// `chart --label N`: which messages have this label, and what caused each?
    Chart(Label),
}

/// Why the words ask for no command.
#[derive(Clone, Copy, Debug, PartialEq, Eq, Error)]
pub enum Refusal {
    /// Memory ran out. It can come in place of any other result.
    #[error("no memory")]
    Memory,
    /// The words aren't the program's name and one command, or they ask for help.
    #[error("the words ask for no command")]
    Usage,
}

/// Describes `chart` to `clap`: its label is a number of 32 bits, and has to be given.
fn chart_line<'a>(alloc: Global) -> Result<Command<'a>, AllocError>
    ensures { IfOk result (λ command. app_of command ≡ chart_line) }
{
    let label = Arg::new(alloc, "label")
        .long("label")
        .required(true)
        .value_parser(clap::value_parser!(u32));
    let chart = Command::new(alloc, "chart").arg(label)?;
    Ok(chart)
}

/// Describes the command line to `clap`.
fn command_line<'a>(alloc: Global) -> Result<Command<'a>, AllocError>
    ensures { IfOk result (λ command. app_of command ≡ command_line) }
{
    let check = Command::new(alloc, "check");
    let audit = Command::new(alloc, "audit");
    let replay = Command::new(alloc, "replay");
    let drive = Command::new(alloc, "drive");
    let chart = chart_line(alloc)?;
    let program = Command::new(alloc, "seqaudit");
    let one = program.subcommand(check)?;
    let two = one.subcommand(audit)?;
    let three = two.subcommand(replay)?;
    let four = three.subcommand(drive)?;
    let all = four.subcommand(chart)?;
    Ok(all)
}

/// The chart that the words of `chart` ask for.
fn chart_of(found: &ArgMatches) -> Option<Task>
    ensures { result ≡ chart_of (rows_of (found_of found.now)) }
{
    match found.get_one::<u32>("label") {
        Some(number) => Some(Task::Chart(Label(number))),
        None => None,
    }
}

/// Returns the command with this name, by what `clap` found in the command's own words.
fn task_of(name: &str, found: &ArgMatches) -> Option<Task>
    ensures { result ≡ task_of name.now (rows_of (found_of found.now)) }
{
    if name == "check" {
        return Some(Task::Check);
    }
    if name == "audit" {
        return Some(Task::Audit);
    }
    if name == "replay" {
        return Some(Task::Replay);
    }
    if name == "drive" {
        return Some(Task::Drive);
    }
    if name == "chart" {
        return chart_of(found);
    }
    None
}

fn why_refused(error: &clap::Error) -> Refusal
    ensures { IsRefusalOf (kind_of error.now) result }
{
    match error.kind() {
        ErrorKind::OutOfMemory => Refusal::Memory,
        _ => Refusal::Usage,
    }
}

/// The command that the words ask for. The first word is the program's name.
pub fn read_words<S: AsStr>(alloc: Global, words: &[S]) -> Result<Task, Refusal>
    ensures task { IfOk result (λ task. task_asked (map S.text words.now) ≡ Some task) }
    ensures refusal { IfErr result (λ refusal. IsRefusal (map S.text words.now) refusal) }
{
    let Ok(program) = command_line(alloc) else {
        return Err(Refusal::Memory);
    };
    match program.try_get_matches_from(words) {
        Ok(matches) => match matches.subcommand() {
            Some((name, found)) => task_of(name, found).ok_or(Refusal::Usage),
            None => Err(Refusal::Usage),
        },
        Err(error) => Err(why_refused(&error)),
    }
}
