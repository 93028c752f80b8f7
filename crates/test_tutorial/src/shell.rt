//! The commands of a page: as much of a shell's language as it needs.
//!
//! A command is a list of stages with ` | ` between them. They may be followed by ` > FILE`, for a file that has to contain
//! what is written to it, and by `; echo $?`, which prints the exit status. A stage is one of
//!
//! - `cat FILE`;
//! - `sed '/^main /q' FILE`, the graph of a file, without the inputs after it;
//! - `sed 's/OLD/NEW/' FILE`, a file with NEW in place of OLD, which occurs in it once and has no sign of a pattern;
//! - `(sed '/^main /q' FILE; printf '5\n7\n')`, the graph with these inputs;
//! - `ets WORDS` and `ets WORDS < FILE`.
//!
//! `dot -Tsvg FILE > DRAWING` is a command too. The drawing has to have the nodes and edges of the file.

use crate::drawings::is_drawn;
use anyhow::{Context, bail};
use commands::input::split_at_main;
use std::alloc::Global;
use std::fs;
use std::io::Write;
use std::sync::Wait;
use std::thread::Threads;
use test_inputs::pieces::changed;
use test_served::{Outcome, answer};

/// The folder in which the page says that its files lie.
const FOLDER: &str = "tutorial/";

/// The beginning of a stage that gives the graph of a file.
const GRAPH_OF: &str = "sed '/^main /q' ";

/// The beginning of a stage that gives a file with a change.
const CHANGED: &str = "sed 's/";

/// Runs commands. What they write to files is stored, and compared with those files.
#[derive(Drop)]
pub struct Shell<'a> {
    files: &'a HostRuntime,
    /// The files that commands wrote, each after a line with its name.
    pub written: Vec<u8>,
    /// What is wrong with the first file that differs from what a command writes to it.
    pub fault: Option<String>,
}

impl<'a> Shell<'a> {
    pub fn new(files: &'a HostRuntime) -> Shell<'a> {
        Shell {
            files,
            written: Vec::new(files.alloc()),
            fault: None,
        }
    }

    pub fn alloc(&self) -> Global {
        self.files.alloc()
    }

    /// What the command prints.
    pub fn run<R: Threads + Wait + Sync>(
        &mut self,
        rt: &R,
        command: &str,
    ) -> anyhow::Result<Vec<u8>> {
        let (command, is_reported) = match command.strip_suffix("; echo $?") {
            Some(command) => (command, true),
            None => (command, false),
        };
        let mut printed = match command.split_once(" > ") {
            Some((stages, file)) => self.write_file(rt, stages, file)?,
            None => self.run_stages(rt, command)?,
        };
        if is_reported {
            let status = printed.status;
            writeln!(printed.text, "{status}")?;
        }
        Ok(printed.text)
    }

    /// Runs a command that writes to a file, and prints nothing.
    fn write_file<R: Threads + Wait + Sync>(
        &mut self,
        rt: &R,
        stages: &str,
        file: &str,
    ) -> anyhow::Result<Outcome> {
        if let Some(dot) = stages.strip_prefix("dot -Tsvg ") {
            let picture = self.read(dot)?;
            let drawing = self.read(file)?;
            if !is_drawn(self.alloc(), &picture, &drawing)? {
                self.blame(file, dot)?;
            }
            return Ok(self.nothing());
        }
        let ran = self.run_stages(rt, stages)?;
        writeln!(self.written, "== {file}")?;
        self.written.extend_from_slice(&ran.text)?;
        if self.read(file)?.as_slice() != ran.text.as_slice() {
            self.blame(file, stages)?;
        }
        let mut nothing = self.nothing();
        nothing.status = ran.status;
        Ok(nothing)
    }

    fn nothing(&self) -> Outcome {
        Outcome {
            text: Vec::new(self.alloc()),
            status: 0,
        }
    }

    /// Records that a file differs from what the command writes, if it is the first such file.
    fn blame(&mut self, file: &str, command: &str) -> anyhow::Result<()> {
        if self.fault.is_none() {
            let fault = format!(in self.alloc(); "{file} is old: {command}")?;
            self.fault = Some(fault);
        }
        Ok(())
    }

    /// Runs stages. Each but the last has to have status 0.
    fn run_stages<R: Threads + Wait + Sync>(
        &self,
        rt: &R,
        stages: &str,
    ) -> anyhow::Result<Outcome> {
        let mut ran = self.nothing();
        for stage in stages.split(" | ") {
            if ran.status != 0 {
                bail!("refused before {stage}: {stages}");
            }
            let next = self.run_stage(rt, stage, ran.text.as_slice())?;
            ran = next;
        }
        Ok(ran)
    }

    fn run_stage<R: Threads + Wait + Sync>(
        &self,
        rt: &R,
        stage: &str,
        input: &[u8],
    ) -> anyhow::Result<Outcome> {
        if let Some(words) = stage.strip_prefix("ets ") {
            return match words.split_once(" < ") {
                Some((words, file)) => self.serve(rt, words, self.read(file)?.as_slice()),
                None => self.serve(rt, words, input),
            };
        }
        let text = if let Some(file) = stage.strip_prefix("cat ") {
            self.read(file)?
        } else if let Some(file) = stage.strip_prefix(GRAPH_OF) {
            self.graph_of(file)?
        } else if let Some(words) = stage.strip_prefix(CHANGED) {
            self.with_change(words)?
        } else if let Some(group) = stage.strip_prefix("(") {
            self.graph_with_inputs(group)?
        } else {
            bail!("not known: {stage}")
        };
        Ok(Outcome { text, status: 0 })
    }

    /// Runs the program on these words and this input.
    fn serve<R: Threads + Wait + Sync>(
        &self,
        rt: &R,
        words: &str,
        input: &[u8],
    ) -> anyhow::Result<Outcome> {
        let alloc = self.alloc();
        let mut list: Vec<&str> = Vec::new(alloc);
        list.push("ets")?;
        for word in words.split(' ') {
            list.push(word)?;
        }
        Ok(answer(rt, alloc, &list, input))
    }

    /// The bytes of a file of the page; empty where there is no such file.
    fn read(&self, file: &str) -> anyhow::Result<Vec<u8>> {
        let name = file.strip_prefix(FOLDER).context("another folder")?;
        match fs::read(self.files, name) {
            Ok(bytes) => Ok(bytes),
            Err(_fault) => Ok(Vec::new(self.alloc())),
        }
    }

    /// The text of a file, up to the end of its graph.
    fn graph_of(&self, file: &str) -> anyhow::Result<Vec<u8>> {
        let bytes = self.read(file)?;
        let (graph, _inputs) = split_at_main(bytes.as_slice());
        let mut text = Vec::new(self.alloc());
        text.extend_from_slice(graph)?;
        Ok(text)
    }

    /// The graph of a file with other inputs. `group` is what follows the opening parenthesis, the closing one included.
    fn graph_with_inputs(&self, group: &str) -> anyhow::Result<Vec<u8>> {
        let rest = group.strip_prefix(GRAPH_OF).context("no graph")?;
        let (file, inputs) = rest.split_once("; printf '").context("no inputs")?;
        let inputs = inputs.strip_suffix("')").context("no end")?;
        let mut text = self.graph_of(file)?;
        for input in inputs.split("\\n") {
            if !input.is_empty() {
                text.extend_from_slice(input.as_bytes())?;
                text.push(b'\n')?;
            }
        }
        Ok(text)
    }

    /// A file with a change. `words` are the old text, the new one and the file, as `sed` has them.
    fn with_change(&self, words: &str) -> anyhow::Result<Vec<u8>> {
        let (change, file) = words.split_once("/' ").context("no file")?;
        let (old, new) = change.split_once('/').context("no change")?;
        let text = self.read(file)?;
        changed(self.alloc(), &text, old.as_bytes(), new.as_bytes())?.context("nothing is changed")
    }
}
