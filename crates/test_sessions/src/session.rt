//! One session.

use crate::tally::Tally;
use driver::resources::Resources;
use hints::Hint;
use outcomes::Outcome;
use process::{Explain, SystemFiles, run_words};
use rounds::Open;
use std::alloc::{AllocError, Allocator, Global};
use std::convert::AsStr;
use std::io::{self, Write};
use std::rt::Files;
use std::sync::Wait;
use std::thread::Threads;
use test_inputs::pieces::{append, append_repeated, changed, overwrite};

/// A session, up to the line that was read last.
#[derive(Drop)]
pub struct Session<'a> {
    alloc: Global,
    /// The number of its first line in the file.
    line: u64,
    /// The command lines that are tried, one after another.
    commands: Vec<&'a str>,
    /// Whether a line follows its command lines.
    has_more: bool,
    input: Vec<u8>,
    /// On how many bytes of the input it is played at first, and at last; else it is played on all of them.
    lengths: Option<(usize, usize)>,
    /// What should be printed; where lines are left out, what should be printed before them.
    wanted: Vec<u8>,
    /// What should be printed after the lines that are left out, if any are.
    last: Option<Vec<u8>>,
    /// The exit statuses that the last of the commands should have, in their order; those before them should have 0.
    statuses: Vec<u8>,
}

/// What the last command of a line printed, and the exit statuses of all of them.
#[derive(Drop)]
struct Ran {
    text: Vec<u8>,
    statuses: Vec<u8>,
}

/// The words of a command.
fn words_of<'a>(alloc: Global, command: &'a str) -> Result<Vec<&'a str>, AllocError> {
    let mut words = Vec::new(alloc);
    if command.is_empty() {
        return Ok(words);
    }
    for word in command.split(' ') {
        if word == "<" {
            break;
        }
        words.push(word)?;
    }
    Ok(words)
}

/// Explains nothing: a session has what is on standard output.
struct Silent;

impl Explain for Silent {
    ghost use Rattle.std.specs.Prelude.{⊤};

    ghost accounts = { λ words input outcome text. ⊤ };

    fn explain<S: AsStr, A: Allocator + Clone>(
        &self,
        _alloc: A,
        _words: &[S],
        _program: Option<&[u8]>,
        _input: Option<&[u8]>,
        _outcome: Option<Outcome>,
    ) -> Result<Option<Hint<A>>, AllocError> {
        Ok(None)
    }
}

/// Runs the command of these words, which reads this input, and the file that they name. Gives what it prints, and its exit status.
fn run<R: Files + Threads + Wait + Sync>(
    rt: &R,
    alloc: Global,
    words: &[&str],
    input: &[u8],
) -> io::Result<(Vec<u8>, u8)> {
    let mut errors = Vec::new(alloc);
    let folder = SystemFiles { rt };
    let resources = Resources {
        alloc,
        rt,
        gate: &Open,
    };
    let ended = run_words(
        words,
        input,
        Vec::new(alloc),
        &mut errors,
        &Silent,
        &folder,
        resources,
    )?;
    Ok((ended.writer, ended.status))
}

/// Runs the commands, where the first one reads this input.
fn run_commands<R: Files + Threads + Wait + Sync>(
    rt: &R,
    alloc: Global,
    commands: &str,
    input: &[u8],
) -> io::Result<Ran> {
    let mut ran = Ran {
        text: Vec::from_slice(alloc, input)?,
        statuses: Vec::new(alloc),
    };
    for command in commands.split(" | ") {
        let words = words_of(alloc, command)?;
        let (text, status) = run(rt, alloc, &words, &ran.text)?;
        ran.text = text;
        ran.statuses.push(status)?;
    }
    Ok(ran)
}

/// Whether the last of these statuses are the wanted ones, and those before them 0.
fn are_wanted(statuses: &[u8], wanted: &[u8]) -> bool {
    match statuses.strip_suffix(wanted) {
        Some(others) => others.iter().all(|status| *status == 0),
        None => false,
    }
}

/// Writes exit statuses, each after a space.
fn write_statuses<W: Write>(out: &mut W, statuses: &[u8]) -> io::Result<()> {
    for status in statuses {
        write!(out, " {status}")?;
    }
    writeln!(out)
}

/// A number, and what follows it and a space.
fn split_number(words: &str) -> Option<(usize, &str)> {
    let (number, rest) = words.split_once(' ')?;
    Some((number.parse().ok()?, rest))
}

/// Appends a line, and its end.
fn push_line(lines: &mut Vec<u8>, line: &[u8]) -> Result<(), AllocError> {
    lines.extend_from_slice(line)?;
    lines.push(b'\n')?;
    Ok(())
}

/// Writes a text, and ends its last line.
fn write_lines<W: Write>(out: &mut W, text: &[u8]) -> io::Result<()> {
    out.write_all(text)?;
    if !text.is_empty() && !text.ends_with(b"\n") {
        out.write_all(b"\n")?;
    }
    Ok(())
}

impl<'a> Session<'a> {
    /// A session that begins in this line of its file.
    pub fn new(alloc: Global, line: u64) -> Session<'a> {
        Session {
            alloc,
            line,
            commands: Vec::new(alloc),
            has_more: false,
            input: Vec::new(alloc),
            lengths: None,
            wanted: Vec::new(alloc),
            last: None,
            statuses: Vec::new(alloc),
        }
    }

    /// Whether more command lines may follow.
    pub fn is_new(&self) -> bool {
        !self.has_more
    }

    /// Takes a command line. The bytes are those of the file that it reads. Says whether the command lines before it read the same.
    pub fn take_commands(&mut self, commands: &'a str, bytes: Vec<u8>) -> Result<bool, AllocError> {
        let is_same = self.commands.is_empty() || self.input.as_slice() == bytes.as_slice();
        self.commands.push(commands)?;
        self.input = bytes;
        Ok(is_same)
    }

    /// Takes the next line. Says whether it has one of the forms that a line may have.
    pub fn take(&mut self, line: &str) -> Result<bool, AllocError> {
        self.has_more = true;
        match line {
            "..." if self.last.is_none() => {
                self.last = Some(Vec::new(self.alloc));
                Ok(true)
            }
            ">" => self.want(b""),
            "|" => {
                self.input.push(b'\n')?;
                Ok(true)
            }
            _ => match line.split_once(' ') {
                Some((mark, rest)) => self.take_marked(mark, rest),
                None => Ok(false),
            },
        }
    }

    /// Takes a line with this mark.
    fn take_marked(&mut self, mark: &str, rest: &str) -> Result<bool, AllocError> {
        let bytes = rest.as_bytes();
        match mark {
            "|" => {
                append(&mut self.input, bytes, 0)?;
                self.input.push(b'\n')?;
            }
            "!" => append(&mut self.input, bytes, 0)?,
            "*" => append_repeated(&mut self.input, bytes)?,
            ">" => return self.want(bytes),
            "change" => return self.change(rest),
            "at" => return self.take_bytes(rest),
            "first" => return Ok(self.take_lengths(rest)),
            "=" => return self.take_statuses(rest),
            _ => return Ok(false),
        }
        Ok(true)
    }

    /// Takes a line that should be printed.
    fn want(&mut self, line: &[u8]) -> Result<bool, AllocError> {
        match &mut self.last {
            Some(last) => push_line(last, line)?,
            None => push_line(&mut self.wanted, line)?,
        }
        Ok(true)
    }

    /// Takes the exit statuses.
    fn take_statuses(&mut self, words: &str) -> Result<bool, AllocError> {
        for word in words.split(' ') {
            let Ok(status) = word.parse() else {
                return Ok(false);
            };
            self.statuses.push(status)?;
        }
        Ok(true)
    }

    /// Changes the text of the input as these words say, if what they name is in it.
    fn change(&mut self, words: &str) -> Result<bool, AllocError> {
        let Some((old, new)) = words.split_once(" -> ") else {
            return Ok(false);
        };
        match changed(self.alloc, &self.input, old.as_bytes(), new.as_bytes())? {
            Some(input) => {
                self.input = input;
                Ok(true)
            }
            None => Ok(false),
        }
    }

    /// Overwrites the input as these words say.
    fn take_bytes(&mut self, words: &str) -> Result<bool, AllocError> {
        let Some((place, piece)) = split_number(words) else {
            return Ok(false);
        };
        let mut bytes = Vec::new(self.alloc);
        append(&mut bytes, piece.as_bytes(), 0)?;
        Ok(overwrite(&mut self.input, place, &bytes))
    }

    /// Takes the lengths of the input on which the session is played. Says whether there are any, and the input is as long.
    fn take_lengths(&mut self, words: &str) -> bool {
        let Some((first, last)) = split_number(words) else {
            return false;
        };
        let Ok(last) = last.parse() else {
            return false;
        };
        self.lengths = Some((first, last));
        first <= last && last <= self.input.len()
    }

    /// Whether this is what should be printed.
    fn is_wanted(&self, ran: &Ran) -> bool {
        let text = ran.text.as_slice();
        let is_text_wanted = match &self.last {
            None => text == self.wanted.as_slice(),
            Some(last) => match text.strip_prefix(self.wanted.as_slice()) {
                Some(rest) => rest.ends_with(last),
                None => false,
            },
        };
        is_text_wanted && are_wanted(&ran.statuses, &self.statuses)
    }

    /// Writes what was printed, and what should have been.
    fn write_out<W: Write>(
        &self,
        out: &mut W,
        name: &str,
        commands: &str,
        ran: &Ran,
    ) -> io::Result<()> {
        let line = self.line;
        writeln!(out, "{name}:{line}: {commands}")?;
        out.write_all(b"wanted, with statuses that end with")?;
        write_statuses(out, &self.statuses)?;
        write_lines(out, &self.wanted)?;
        if let Some(last) = &self.last {
            out.write_all(b"...\n")?;
            write_lines(out, last)?;
        }
        out.write_all(b"came, with statuses")?;
        write_statuses(out, &ran.statuses)?;
        write_lines(out, &ran.text)
    }

    /// Plays the session with these commands, once on each of its lengths of the input. Says whether all is as it should be, and
    /// reports the first time that it is not.
    fn play_commands<R: Files + Threads + Wait + Sync, W: Write>(
        &self,
        rt: &R,
        out: &mut W,
        name: &str,
        commands: &str,
    ) -> io::Result<bool> {
        let (first, last) = match self.lengths {
            Some(lengths) => lengths,
            None => (self.input.len(), self.input.len()),
        };
        for length in first..last.saturating_add(1) {
            let input = self.input.get(..length).unwrap_or(&self.input);
            let ran = run_commands(rt, self.alloc, commands, input)?;
            if !self.is_wanted(&ran) {
                self.write_out(out, name, commands, &ran)?;
                return Ok(false);
            }
        }
        Ok(true)
    }

    /// Plays the session with each of its command lines, and counts them.
    pub fn play<R: Files + Threads + Wait + Sync, W: Write>(
        &self,
        rt: &R,
        out: &mut W,
        tally: &mut Tally,
        name: &str,
    ) -> io::Result<()> {
        for commands in &self.commands {
            tally.add(self.play_commands(rt, out, name, commands)?);
        }
        Ok(())
    }
}
