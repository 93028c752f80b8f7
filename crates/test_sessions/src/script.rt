//! Files of sessions.

use crate::session::Session;
use crate::tally::Tally;
use anyhow::{Context, bail};
use std::fs;
use std::io::Write;
use std::rt::Files;
use std::sync::Wait;
use std::thread::Threads;

/// The file that the first of the commands reads.
fn file_of(commands: &str) -> Option<&str> {
    let (_command, rest) = commands.split_once(" < ")?;
    Some(match rest.split_once(" | ") {
        Some((file, _commands)) => file,
        None => rest,
    })
}

/// The bytes of the file that the first of the commands reads. There are none where it reads no file.
fn bytes_of(files: &HostRuntime, commands: &str) -> anyhow::Result<Vec<u8>> {
    match file_of(commands) {
        Some(file) => Ok(fs::read(files, file).context("a file of a session")?),
        None => Ok(Vec::new(files.alloc())),
    }
}

/// The commands of a line that begins a session.
fn commands_of(line: &str) -> Option<&str> {
    if line == "$" {
        return Some("");
    }
    line.strip_prefix("$ ")
}

/// Plays the sessions of a file with this name and this text.
pub fn play<R: Files + Threads + Wait + Sync, W: Write>(
    rt: &R,
    files: &HostRuntime,
    out: &mut W,
    tally: &mut Tally,
    name: &str,
    text: &str,
) -> anyhow::Result<()> {
    let mut session = Session::new(files.alloc(), 0);
    let mut number = 0u64;
    for line in text.lines() {
        number = number.wrapping_add(1);
        if let Some(commands) = commands_of(line) {
            if !session.is_new() {
                session.play(rt, out, tally, name)?;
                session = Session::new(files.alloc(), number);
            }
            if !session.take_commands(commands, bytes_of(files, commands)?)? {
                bail!("{name}:{number}: reads another file than the line before it");
            }
        } else if !line.is_empty() && !line.starts_with("#") && !session.take(line)? {
            bail!("{name}:{number}: not known: {line}");
        }
    }
    session.play(rt, out, tally, name)?;
    Ok(())
}
