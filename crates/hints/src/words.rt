//! The words of a command line: what is wrong with them, and the inputs among them.

use crate::catalog::found;
use crate::lines::is;
use crate::message::{Found, nowhere};
use command_line::{Asked, Request, read_words};
use graph_file::literal;
use std::convert::AsStr;

/// A word that is looked for among those after a command.
#[derive(Clone, Copy)]
pub enum Sought {
    /// An integer below 0 before `--` that is not the value of an option.
    Negative,
    /// An input that is no integer, after `exec`, where there is no mistake.
    Input,
}

/// Whether the next word may be the value of this option.
fn waits(word: &str) -> bool {
    word.starts_with("--") && found("alone/", word).is_none() && !word.contains('=')
}

/// Whether this word is sought, which may be the value of an option, or is after `--`.
fn is_sought(sought: Sought, word: &str, is_value: bool, is_ended: bool) -> bool {
    let is_option = word.starts_with('-');
    let is_integer = literal(word.as_bytes()).is_some();
    match sought {
        Sought::Negative => is_option && is_integer && !is_value && !is_ended,
        Sought::Input => !is_integer && (is_ended || !is_value && (!is_option || is(word, "-"))),
    }
}

/// The first word that is sought.
pub fn first_of<'a, S: AsStr>(sought: Sought, words: &'a [S]) -> Option<&'a str> {
    let (mut is_value, mut is_ended) = (false, false);
    for word in words {
        let word = word.as_str();
        if is_sought(sought, word, is_value, is_ended) {
            return Some(word);
        }
        // An input is no option, though it looks so, where an option waits for a value.
        let is_taken = is_value && matches!(sought, Sought::Input);
        is_value = !is_taken && waits(word);
        is_ended = is_ended || is(word, "--");
    }
    None
}

/// The plain word with this number, from 0, of those after a command that names a file: a word that is neither an option nor the
/// value of one, or is after `--`.
pub fn plain_at<'a, S: AsStr>(words: &'a [S], number: u64) -> Option<&'a str> {
    let (mut is_value, mut is_ended, mut count) = (false, false, 0u64);
    for word in words {
        let word = word.as_str();
        let is_option = word.starts_with('-') && !is(word, "-");
        let is_plain = is_ended || !is_value && !is_option;
        if is_plain && count == number {
            return Some(word);
        }
        count = count.saturating_add(u64::from(is_plain));
        is_value = !is_plain && !is_value && waits(word);
        is_ended = is_ended || is(word, "--");
    }
    None
}

/// Whether this request is of a command that runs the graph that it reads.
pub fn runs_graph(request: &Request) -> bool {
    use Request::{Mean, Orders, Profile, Run, RunEnough, Trace};
    matches!(
        request,
        Run(_) | RunEnough(_) | Mean { .. } | Trace { .. } | Profile { .. } | Orders { .. }
    )
}

/// What is wrong with the words after a command, which alone is this request.
fn after_command<'a, S: AsStr>(request: &Request, command: &'a str, words: &'a [S]) -> Found<'a> {
    let (word, cause) = match request {
        Request::Exec { .. } => (first_of(Sought::Negative, words), "negative-input"),
        _ if runs_graph(request) => (first_of(Sought::Negative, words), "negative-given"),
        _ => (plain_at(words, 1), "one-word-more"),
    };
    match word {
        None => {
            let cause = found("options/", command);
            nowhere(cause.unwrap_or("no-options"), [command; 2])
        }
        Some(word) => nowhere(cause, [command, word]),
    }
}

/// What is wrong with the words, which are those after the program's name.
pub fn mistake<'a, S: AsStr>(words: &'a [S]) -> Found<'a> {
    let Some((first, rest)) = words.split_first() else {
        return nowhere("no-command", [""; 2]);
    };
    let word = first.as_str();
    match read_words(words.get(..1).unwrap_or(words)) {
        Asked::Request(request) => after_command(&request, word, rest),
        _ => no_command(word),
    }
}

/// What is wrong with a first word that is no command.
fn no_command(word: &str) -> Found<'_> {
    let (cause, reads) = match word {
        "help" => ("help", ""),
        _ if word.starts_with('-') => ("no-command", ""),
        _ if word.ends_with(".etsobject") => ("file", "dis"),
        _ if word.contains('.') || word.contains('/') => ("file", "run"),
        _ => ("commands", ""),
    };
    nowhere(cause, [reads, word])
}
