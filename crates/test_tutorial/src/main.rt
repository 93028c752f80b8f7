//! Checks that the tutorial is as the program would have it now. The first word of the command line names the file of the page; `make` may
//! follow it. The page lies with the files that it names. Each command of the page is run again, and has to print what is below it. Each
//! program that the page lowers has to report, in each mode and on up to 16 elements, what the graph of the same name reports. Prints
//! `agree`, or the first line that differs, with status 1. With `make` it prints the page as it should be, and each file that a command
//! writes.
#![tactic(auto)]

mod drawings;
mod pages;
mod programs;
mod shell;

use pages::{first_difference, made_page};
use shell::Shell;
use std::io::{self, Write};
use std::process::ExitCode;
use std::{env, fs};

fn main(rt: HostRuntime) -> anyhow::Result<ExitCode> {
    let words: Vec<String> = env::args(&rt)?.collect(rt.alloc())?;
    let name = match words.get(1) {
        Some(word) => word.as_str(),
        None => "TUTORIAL.md",
    };
    let page = fs::read_to_string(&rt, name)?;
    let mut shell = Shell::new(&rt);
    let made = made_page(&rt, &mut shell, page.as_str())?;
    let mut out = io::writer(&rt);
    if words.len() > 2 {
        out.write_all(made.as_bytes())?;
        out.write_all(shell.written.as_slice())?;
        return Ok(ExitCode::SUCCESS);
    }
    if let Some(difference) = first_difference(page.as_str(), made.as_str()) {
        writeln!(out, "{name} {difference}")?;
        return Ok(ExitCode::FAILURE);
    }
    if let Some(fault) = &shell.fault {
        writeln!(out, "{fault}")?;
        return Ok(ExitCode::FAILURE);
    }
    if let Some(fault) = programs::first_fault(&rt, &rt, page.as_str())? {
        writeln!(out, "{fault}")?;
        return Ok(ExitCode::FAILURE);
    }
    writeln!(out, "agree")?;
    Ok(ExitCode::SUCCESS)
}
