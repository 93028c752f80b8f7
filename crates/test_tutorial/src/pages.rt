//! Pages with commands and with what these print.
//!
//! In a block of code that begins with a line "```console", each line that begins with `$ ` is a command. The lines up to the
//! next command, or up to the end of the block, are what it prints.

use crate::shell::Shell;
use anyhow::Context;
use std::sync::Wait;
use std::thread::Threads;
use std::{fmt, str};

/// The page, with what its commands print now.
pub fn made_page<R: Threads + Wait + Sync>(
    rt: &R,
    shell: &mut Shell<'_>,
    page: &str,
) -> anyhow::Result<String> {
    let mut made = String::new(shell.alloc());
    let mut is_console = false;
    for line in page.lines() {
        let is_fence = line.starts_with("```");
        if is_fence {
            is_console = line == "```console";
        }
        let command = line.strip_prefix("$ ");
        if is_fence || !is_console || command.is_some() {
            made.push_str(line)?;
            made.push_str("\n")?;
        }
        if let Some(command) = command {
            let printed = shell.run(rt, command)?;
            made.push_str(str::from_utf8(printed.as_slice()).context("no text")?)?;
        }
    }
    Ok(made)
}

/// The first place where two pages differ.
#[derive(Clone, Copy)]
pub struct Difference<'a> {
    line: usize,
    found: &'a str,
    wanted: &'a str,
}

impl fmt::Display for Difference<'_> {
    fn fmt<W: fmt::Write>(&self, f: &mut fmt::Formatter<W>) -> fmt::Result {
        let line = self.line;
        let found = self.found;
        let wanted = self.wanted;
        write!(f, "line {line} has: {found}\nit has to be: {wanted}")
    }
}

/// The first place where `page` differs from `wanted`.
pub fn first_difference<'a>(page: &'a str, wanted: &'a str) -> Option<Difference<'a>> {
    let mut last = 0usize;
    for (number, (found, wanted)) in page.lines().zip(wanted.lines()).enumerate() {
        last = number.wrapping_add(1);
        if found != wanted {
            return Some(Difference {
                line: last,
                found,
                wanted,
            });
        }
    }
    if page == wanted {
        return None;
    }
    Some(Difference {
        line: last,
        found: "this line, and the page or what is wanted ends",
        wanted: "",
    })
}
