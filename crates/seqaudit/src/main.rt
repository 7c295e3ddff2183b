//! The program `seqaudit`: audits, checks, replays, drives and charts the texts of collected
//! sequential traces.
//!
//! It only joins `st_commands` to the outside: what it writes and returns is said there, by `run`.
#![tactic(auto)]

ghost use Rattle.std.specs.IoError.{error_kind};
ghost use Rattle.std.specs.Prelude.{◌≡◌, ◌≢◌};

use st_commands::{Pipe, Refusal, run, tell_refusal};
use st_core::{ReadFrom, WriteTo};
use std::io::ErrorKind;
use std::process::ExitCode;
use std::{env, io};

/// Returns why the words of the command line can't be read: memory ran out, or a word isn't UTF-8
/// and so is no word of a command.
fn why_unread(error: &io::Error) -> Refusal
    ensures memory { error_kind error.now ≡ ErrorKind.OutOfMemory → result ≡ Refusal.Memory }
    ensures usage { error_kind error.now ≢ ErrorKind.OutOfMemory → result ≡ Refusal.Usage }
{
    match error.kind() {
        ErrorKind::OutOfMemory => Refusal::Memory,
        _ => Refusal::Usage,
    }
}

/// Reads the words of the command line.
fn words_of(rt: &HostRuntime) -> io::Result<Vec<String>> {
    let words = env::args(rt)?.collect(rt.alloc())?;
    Ok(words)
}

fn main(rt: HostRuntime) -> ExitCode {
    let mut reader = ReadFrom::new(rt.stdin());
    let mut output = Pipe::new(rt.stdout());
    let mut writer = WriteTo::new(&mut output);
    let status = match words_of(&rt) {
        Ok(words) => run(&rt, words.as_slice(), &mut reader, &mut writer),
        Err(error) => tell_refusal(&mut writer, why_unread(&error)),
    };
    ExitCode::from(output.status_of(status))
}
