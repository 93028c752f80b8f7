//! Makes every command fail in the middle: part `streams` lets each call of a reader and each byte of a writer fail in turn, part
//! `growths` each growth. The words of the command line name the parts; after `growths`, any word makes it print also how often a growth
//! was refused. Prints what each part found, and `agree`, or the first answer that differs, with status 1.
#![tactic(auto)]

mod growths;
mod streams;

use growths::Detail;
use std::alloc::Global;
use std::env;
use std::io::{self, Write};
use std::process::ExitCode;
use std::sync::Wait;
use std::thread::Threads;
use test_inputs::parts::{Named, named_parts};

/// The names of the parts.
const PARTS: [&str; 2] = ["streams", "growths"];

/// Whether all answers of a part agree. Prints what was found.
fn part_agrees<R: Threads + Wait + Sync, W: Write>(
    rt: &R,
    alloc: Global,
    out: &mut W,
    part: Named<'_>,
) -> io::Result<bool> {
    if part.name == "streams" {
        return streams::agree(rt, alloc, out);
    }
    let detail = if part.words.is_empty() {
        Detail::Reports
    } else {
        Detail::Figures
    };
    growths::agree(rt, alloc, out, detail)
}

fn main(rt: HostRuntime) -> io::Result<ExitCode> {
    let alloc = rt.alloc();
    let words: Vec<String> = env::args(&rt)?.collect(alloc)?;
    let mut out = io::writer(&rt);
    let parts = named_parts(alloc, &words, &PARTS)?;
    if parts.is_empty() {
        writeln!(out, "words: streams, growths, or both")?;
        return Ok(ExitCode::FAILURE);
    }
    for part in &parts {
        if !part_agrees(&rt, alloc, &mut out, *part)? {
            return Ok(ExitCode::FAILURE);
        }
    }
    Ok(ExitCode::SUCCESS)
}
