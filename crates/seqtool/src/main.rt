//! The program `seqtool`: the commands that read more than `seqaudit` does, and those on what a
//! trace lacks and what an event follows.
//!
//! It only joins `seqtool_commands` to the outside: what it writes and returns is said there, by
//! `read_words` and `run`.
#![tactic(auto)]

use seqtool_commands::{ToolTask, asks_version, read_words, run, tell_usage, tell_version};
use st_commands::{Pipe, tell_fault};
use st_core::{ByteSink, ReadFrom, WriteTo};
use st_text::ReadFault;
use std::io::ErrorKind;
use std::process::ExitCode;
use std::thread::Threads;
use std::{env, fs, io};

/// Reads the words of the command line.
fn words_of(rt: &HostRuntime) -> io::Result<Vec<String>> {
    let words = env::args(rt)?.collect(rt.alloc())?;
    Ok(words)
}

/// Does the task on the file of this path, or on standard input if there is none. A file that can't
/// be opened is a device that fails.
fn serve_task<H: AllocGlobal + Threads + Sync, W: ByteSink>(
    rt: &HostRuntime,
    threads: &H,
    task: ToolTask,
    path: Option<&str>,
    writer: &mut W,
) -> u8 {
    let Some(path) = path else {
        return run(threads, task, &mut ReadFrom::new(rt.stdin()), writer);
    };
    match fs::open(rt, path) {
        Ok(file) => run(threads, task, &mut ReadFrom::new(file), writer),
        Err(_) => tell_fault(writer, ReadFault::Device),
    }
}

/// Does what the words ask for. The runtime comes twice: only as a type parameter may it start
/// threads outside of `main`.
fn serve<H: AllocGlobal + Threads + Sync, W: ByteSink>(
    rt: &HostRuntime,
    threads: &H,
    words: &[String],
    writer: &mut W,
) -> u8 {
    if asks_version(words) {
        return tell_version(writer);
    }
    match read_words(words) {
        Some((task, path)) => serve_task(rt, threads, task, path, writer),
        None => tell_usage(writer),
    }
}

/// Writes that there was no memory for the words, or that a word isn't UTF-8 and so is no word of
/// a command.
fn tell_unread<W: ByteSink>(error: &io::Error, writer: &mut W) -> u8 {
    match error.kind() {
        ErrorKind::OutOfMemory => tell_fault(writer, ReadFault::Memory),
        _ => tell_usage(writer),
    }
}

fn main(rt: HostRuntime) -> ExitCode {
    let mut output = Pipe::new(rt.stdout());
    let mut writer = WriteTo::new(&mut output);
    let status = match words_of(&rt) {
        Ok(words) => serve(&rt, &rt, words.as_slice(), &mut writer),
        Err(error) => tell_unread(&error, &mut writer),
    };
    ExitCode::from(output.status_of(status))
}
