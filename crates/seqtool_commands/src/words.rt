//! Reads the command line: the task that the words ask for, and its file. Nothing here reads the
//! input, writes or takes memory.

ghost use Rattle.std.specs.Prelude.{◌≡◌, map, option_map};
ghost use Rattle.seqtool_commands.specs.Words.{begins_with_minus, check_asked, direction_asked};
ghost use Rattle.seqtool_commands.specs.Words.{file_asked, file_named, form_asked, form_named};
ghost use Rattle.seqtool_commands.specs.Words.{named_form, question_asked, request_asked};
ghost use Rattle.seqtool_commands.specs.Words.{task_named, version_asked, words_behind};

use crate::complete::Form;
use crate::question::{Direction, Question};
use node_hops::Reach;
use st_text::{read_number, read_pid};
use std::convert::AsStr;

/// A task of the program.
#[derive(Clone, Copy)]
pub enum ToolTask {
    /// `check`: is the input's certificate a run that shows its streams?
    Check,
    /// `check --node`: is it a run of a standard node?
    CheckNode,
    /// `audit`: is there a certificate for the input's streams?
    Audit,
    /// `complete`: what do the input's streams lack?
    Complete(Form),
    /// `renumber`: what are the input's streams with small counts?
    Renumber,
    /// `why`: what does an event follow, or what follows it?
    Why(Question),
}

fn words_behind<'a, S: AsStr>(word: &str, words: &'a [S]) -> Option<&'a [S]>
    ensures { option_map (λ rest. map S.text rest.now) result
        ≡ words_behind word.now (map S.text words.now) }
{
    match words {
        [first, rest @ ..] if first.as_str() == word => Some(rest),
        _ => None,
    }
}

fn form_named(name: &str) -> Option<Form>
    ensures { result ≡ form_named name.now }
{
    if name == "added" {
        return Some(Form::Added);
    }
    if name == "streams" {
        return Some(Form::Streams);
    }
    if name == "acts" {
        return Some(Form::Acts);
    }
    None
}

/// Returns the form that the words after `--as` begin with, and the words after it.
fn named_form<S: AsStr>(words: &[S]) -> Option<(Form, &[S])>
    ensures { option_map (λ x. (x.0, map S.text x.1.now)) result
        ≡ named_form (map S.text words.now) }
{
    match words {
        [name, rest @ ..] => match form_named(name.as_str()) {
            Some(form) => Some((form, rest)),
            None => None,
        },
        [] => None,
    }
}

/// Returns the form that words begin with, and the words after it.
fn form_asked<S: AsStr>(words: &[S]) -> Option<(Form, &[S])>
    ensures { option_map (λ x. (x.0, map S.text x.1.now)) result
        ≡ form_asked (map S.text words.now) }
{
    match words_behind("--as", words) {
        None => Some((Form::Added, words)),
        Some(rest) => named_form(rest),
    }
}

/// Returns the task of `check` that words begin with, and the words after it.
fn check_asked<S: AsStr>(words: &[S]) -> (ToolTask, &[S])
    ensures { (result.0, map S.text result.1.now) ≡ check_asked (map S.text words.now) }
{
    match words_behind("--node", words) {
        None => (ToolTask::Check, words),
        Some(rest) => (ToolTask::CheckNode, rest),
    }
}

fn direction_asked<S: AsStr>(words: &[S]) -> (Direction, &[S])
    ensures { (result.0, map S.text result.1.now) ≡ direction_asked (map S.text words.now) }
{
    match words_behind("--effects", words) {
        None => (Direction::Back, words),
        Some(rest) => (Direction::Forth, rest),
    }
}

/// Returns the question that words begin with, and the words after it.
fn question_asked<S: AsStr>(words: &[S]) -> Option<(Question, &[S])>
    ensures { option_map (λ x. (x.0, map S.text x.1.now)) result
        ≡ question_asked (map S.text words.now) }
{
    match words {
        [pid, index, rest @ ..] => {
            let pid = read_pid(pid.as_str().as_bytes())?;
            let index = read_number(index.as_str().as_bytes())?;
            let (direction, rest) = direction_asked(rest);
            let question = Question {
                place: (pid, index),
                direction,
                reach: Reach::LABEL,
            };
            Some((question, rest))
        }
        _ => None,
    }
}

/// Returns the task of the command with the name, by the words after it, and the words that are
/// left.
fn task_named<'a, S: AsStr>(name: &str, words: &'a [S]) -> Option<(ToolTask, &'a [S])>
    ensures { option_map (λ x. (x.0, map S.text x.1.now)) result
        ≡ task_named name.now (map S.text words.now) }
{
    if name == "check" {
        return Some(check_asked(words));
    }
    if name == "audit" {
        return Some((ToolTask::Audit, words));
    }
    if name == "renumber" {
        return Some((ToolTask::Renumber, words));
    }
    if name == "complete" {
        let (form, rest) = form_asked(words)?;
        return Some((ToolTask::Complete(form), rest));
    }
    if name == "why" {
        let (question, rest) = question_asked(words)?;
        return Some((ToolTask::Why(question), rest));
    }
    None
}

fn begins_with_minus(word: &str) -> bool
    ensures { result ≡ begins_with_minus word.now }
{
    match word.as_bytes() {
        [first, ..] => *first == b'-',
        [] => false,
    }
}

/// Returns the file that a word names, `Some(None)` for standard input.
fn file_named<'a>(word: &'a str) -> Option<Option<&'a str>>
    ensures { option_map (λ file. option_map (λ path. path.now) file) result ≡ file_named word.now }
{
    if word == "-" {
        return Some(None);
    }
    if begins_with_minus(word) {
        return None;
    }
    Some(Some(word))
}

/// Returns the file that is the only word left, `Some(None)` for standard input.
fn file_asked<'a, S: AsStr>(words: &'a [S]) -> Option<Option<&'a str>>
    ensures { option_map (λ file. option_map (λ path. path.now) file) result
        ≡ file_asked (map S.text words.now) }
{
    match words {
        [] => Some(None),
        [word] => file_named(word.as_str()),
        _ => None,
    }
}

/// Returns the task that the words ask for, and the path of its file unless it is standard input,
/// or none if they ask for no task. The first word is the program's name.
pub fn read_words<'a, S: AsStr>(words: &'a [S]) -> Option<(ToolTask, Option<&'a str>)>
    ensures { option_map (λ x. (x.0, option_map (λ path. path.now) x.1)) result
        ≡ request_asked (map S.text words.now) }
{
    match words {
        [_, name, rest @ ..] => {
            let (task, left) = task_named(name.as_str(), rest)?;
            let file = file_asked(left)?;
            Some((task, file))
        }
        _ => None,
    }
}

/// Returns whether the words ask for the version.
pub fn asks_version<S: AsStr>(words: &[S]) -> bool
    ensures { result ≡ version_asked (map S.text words.now) }
{
    match words {
        [_, word] => word.as_str() == "--version",
        _ => false,
    }
}
