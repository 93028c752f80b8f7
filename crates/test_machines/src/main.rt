//! Plays scripts of calls of the machine and of its parts, and compares the answers with those in the scripts. The words of this program's
//! command line name files of scripts, which lie in `data`. Empty lines separate the sections of a script:
//!
//! ```text
//! # the frame manager of two frames
//! frames 2
//! request host 1 -> frame 1
//! request host 2 -> waits
//! release 1 -> frame 1 for host 2
//! ```
//!
//! - A line is an operation, and after ` -> ` the expected answer. Without it the operation should say nothing.
//! - The first line makes what the section is about: a `queue`, `slots`, `frames N`, `cells N ELEMENT ELEMENTS`, an `object NAME`, the
//!   `order ELEMENTS` of blocks, a `run NAME ELEMENTS FRAMES STEPS INPUT ..`, or `refusals NAME ELEMENTS FRAMES INPUT EVENTS` of memory to a
//!   run. In `packing` and `instructions` each line is independent of the others, and `threads` is alone. What the other lines may be is
//!   said in the module of the part, at `act`.
//! - `refuse FIRST LAST` before the first line has the section played once for each number from FIRST to LAST, on memory that refuses the
//!   growth of this number. FIRST is not above LAST.
//! - `quietly` before an operation, but the first, has `, and took memory` after the answer if the part asked for a growth.
//! - A value is a number, or `zero` or `range` with the origin of the fault: `untold`, or a block and a node. A continuation is `host PORT`,
//!   or a frame, an instruction and a port. A word is a value, `frame N`, or `back` and a continuation.
//! - A slot is `empty`, `left WORD`, `right WORD`, `credits N`, `waiter CONTINUATION` or `draining N`.
//! - `# WORDS` is a heading.
//!
//! Each answer that differs is reported, with its place, and then the exit status is 1. At the end the program prints how many answers were
//! as expected; the answer of a line that is played several times counts each time.
#![tactic(auto)]

mod banks;
mod cells;
mod firing;
mod frames;
mod loading;
mod objects;
mod operations;
mod orders;
mod part;
mod queue;
mod refusing;
mod reports;
mod running;
mod script;
mod shown;
mod slots;
mod tally;
mod words;

use script::play_file;
use std::process::ExitCode;
use std::{env, fs};
use tally::Tally;

fn main(rt: HostRuntime) -> anyhow::Result<ExitCode> {
    let names: Vec<String> = env::args(&rt)?.collect(rt.alloc())?;
    let mut tally = Tally::new(rt.alloc());
    for name in names.iter().skip(1) {
        let text = fs::read_to_string(&rt, name.as_str())?;
        play_file(&rt, &mut tally, name.as_str(), text.as_str())?;
    }
    println!(rt; "{tally}")?;
    if tally.differing > 0 {
        return Ok(ExitCode::FAILURE);
    }
    Ok(ExitCode::SUCCESS)
}
