//! One case: command lines with one input.

use crate::given::outcome_of;
use files::{Unread, read_bytes};
use hints::explain;
use process::{Folder, run_program};
use std::alloc::{AllocError, Global};
use std::io::{self, ErrorKind, Write};
use std::str;
use std::sync::Wait;
use std::thread::Threads;
use test_inputs::pieces::{append, append_repeated, append_word};

/// A case, up to the line that was read last.
#[derive(Drop)]
pub struct Case {
    alloc: Global,
    /// The command lines, each with a line feed after it.
    lines: Vec<u8>,
    input: Vec<u8>,
    /// What the file has that the words may name.
    file: Vec<u8>,
    /// The bytes that the table gives in place of what the program writes.
    output: Vec<u8>,
    /// The outcome, as the table gives it. It is empty where the program is run.
    outcome: Vec<u8>,
}

/// The only file that there is, by whatever name, unless it is empty.
#[derive(Clone, Copy)]
struct OneFile<'a> {
    bytes: &'a [u8],
}

impl Folder for OneFile<'_> {
    ghost use Rattle.std.specs.Prelude.{⊤};

    ghost has = { λ name bytes. ⊤ };

    fn read_file(&self, alloc: Global, _name: &str) -> Result<Vec<u8>, Unread> {
        if self.bytes.is_empty() {
            return Err(Unread::of(ErrorKind::NotFound));
        }
        let mut reader = self.bytes;
        read_bytes(alloc, &mut reader)
    }
}

/// The words of a line.
fn words_of(alloc: Global, line: &[u8]) -> Result<Vec<&str>, AllocError> {
    let mut words = Vec::new(alloc);
    for word in line.split(|byte| *byte == b' ') {
        words.push(str::from_utf8(word).unwrap_or("?"))?;
    }
    Ok(words)
}

/// The line of an output that says what happened: the first line of a refusal or of a mistake, else the last line, of a
/// report.
fn telling_line(output: &[u8]) -> &[u8] {
    let output = output.strip_suffix(b"\n".as_slice()).unwrap_or(output);
    let mut lines = output.split(|byte| *byte == b'\n');
    let line = if output.starts_with(b"refused") || output.starts_with(b"error") {
        lines.next()
    } else {
        lines.last()
    };
    line.unwrap_or(b"")
}

impl Case {
    /// No case yet.
    pub fn new(alloc: Global) -> Case {
        Case {
            alloc,
            lines: Vec::new(alloc),
            input: Vec::new(alloc),
            file: Vec::new(alloc),
            output: Vec::new(alloc),
            outcome: Vec::new(alloc),
        }
    }

    /// Begins a new case, without a command line.
    pub fn begin(&mut self) {
        self.lines.clear();
        self.input.clear();
        self.file.clear();
        self.output.clear();
        self.outcome.clear();
    }

    /// Takes these words for a further command line.
    pub fn add(&mut self, words: &[u8]) -> Result<(), AllocError> {
        self.lines.extend_from_slice(words)?;
        Ok(self.lines.push(b'\n')?)
    }

    /// Takes one line of the case.
    pub fn take(&mut self, line: &[u8]) -> Result<(), AllocError> {
        match line {
            [b'|', piece @ ..] => {
                append(&mut self.input, piece, 0)?;
                self.input.push(b'\n')?;
            }
            [b'^', piece @ ..] => {
                append(&mut self.file, piece, 0)?;
                self.file.push(b'\n')?;
            }
            [b'!', piece @ ..] => append(&mut self.input, piece, 0)?,
            [b'*', repeated @ ..] => append_repeated(&mut self.input, repeated)?,
            [b'@', digits @ ..] => append_word(&mut self.input, digits)?,
            [b'=', outcome @ ..] => self.outcome.extend_from_slice(outcome)?,
            [b'>', piece @ ..] => {
                append(&mut self.output, piece, 0)?;
                self.output.push(b'\n')?;
            }
            _ => (),
        }
        Ok(())
    }

    /// Writes the line of the output that says what happened, and what explains it.
    fn show<W: Write>(&self, output: &[u8], hint: &[u8], out: &mut W) -> io::Result<()> {
        out.write_all(telling_line(output))?;
        out.write_all(b"\n")?;
        out.write_all(if hint.is_empty() { b"no hint\n" } else { hint })
    }

    /// Explains the outcome, as the table gives it, and writes the explanation.
    fn explain_given<W: Write>(&self, words: &[&str], out: &mut W) -> io::Result<()> {
        let input = Some(self.input.as_slice());
        let outcome = outcome_of(str::from_utf8(&self.outcome).unwrap_or("?"));
        let mut hint = Vec::new(self.alloc);
        if let Some(lines) = explain(self.alloc, words, input, outcome)? {
            lines.write(&mut hint)?;
        }
        self.show(&self.output, &hint, out)
    }

    /// Runs a command line, and writes what was reported. Gives the exit status, if it was run.
    fn write_out<R: Threads + Wait + Sync, W: Write>(
        &self,
        rt: &R,
        line: &[u8],
        out: &mut W,
    ) -> io::Result<Option<u8>> {
        let words = words_of(self.alloc, line)?;
        if !self.outcome.is_empty() {
            self.explain_given(&words, out)?;
            return Ok(None);
        }
        let mut errors = Vec::new(self.alloc);
        let output = Vec::new(self.alloc);
        let input = self.input.as_slice();
        let folder = OneFile { bytes: &self.file };
        let ended = run_program(&words, input, output, &mut errors, &folder, self.alloc, rt)?;
        self.show(&ended.writer, &errors, out)?;
        Ok(Some(ended.status))
    }

    /// Runs each command line of the case, and writes what was reported: once for all that follow one another and have the
    /// same report.
    pub fn try_out<R: Threads + Wait + Sync, W: Write>(
        &self,
        rt: &R,
        out: &mut W,
    ) -> io::Result<()> {
        let mut printed = Vec::new(self.alloc);
        let lines = self.lines.strip_suffix(b"\n".as_slice());
        let Some(lines) = lines else {
            return Ok(());
        };
        for line in lines.split(|byte| *byte == b'\n') {
            let mut text = Vec::new(self.alloc);
            let status = self.write_out(rt, line, &mut text)?;
            if printed.is_empty() {
                out.write_all(b"$ ")?;
            } else if printed == text {
                out.write_all(b"& ")?;
            } else {
                out.write_all(&printed)?;
                out.write_all(b"\n$ ")?;
            }
            out.write_all(line)?;
            if let Some(status) = status {
                write!(out, ": {status}")?;
            }
            out.write_all(b"\n")?;
            printed = text;
        }
        out.write_all(&printed)?;
        out.write_all(b"\n")
    }
}
