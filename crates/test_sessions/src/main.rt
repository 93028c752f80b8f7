//! Plays sessions of the command line, and compares what the program prints with what it should print. The words of this
//! program's command line name files of sessions, which lie in `data`. A session in them looks as it would in a shell:
//!
//! ```text
//! # the factorial, in as many frames as it needs
//! $ ets run --frames 21 < factorial.ets
//! | 20
//! > output 0 2432902008176640000
//! > deferred 0
//! > waiting 0 0
//! > frames 0
//! > end Rest
//! ```
//!
//! - `$ COMMANDS` begins a session: `ets` and its words, which may name a file of `data`, with ` < FILE` where it reads one, and with ` | ` before a
//!   command that reads what the one before it printed. `$` alone stands for a command line without any word. Where more such
//!   lines follow at once, all of them read the same input, and should print the same.
//! - `| LINE` is a line of the input. The lines of the input follow the file, if there is one.
//! - `! PIECE` is a piece of the input, without a line's end.
//! - `* FIRST LAST PIECE` is that piece, once for each number from FIRST to LAST.
//! - `change OLD -> PIECE` puts the piece in the first place where OLD occurs in the input.
//! - `at PLACE PIECE` overwrites the input from byte PLACE on, counted from 0.
//! - `first FIRST LAST` has the session played once for each number N from FIRST to LAST, on the first N bytes of the input. FIRST is
//!   not above LAST, and the input that the lines before it give has LAST bytes.
//! - `> LINE` is a line that should be printed, and no other should be. But in place of `...` there may be any lines.
//! - `= STATUS` is the exit status of the last command, where it should not be 0. The commands before it should have 0, too; of those
//!   that should not, the statuses are before the last one, with spaces between them.
//! - `# WORDS` is a heading.
//!
//! In a line or a piece of the input `%` is the number (in a line 0), and `\HH` the byte that these two hexadecimal digits are.
//! Each session that does not go as it should is reported, with its place, and then the exit status is 1. At the end the program
//! prints how many sessions there were.
#![tactic(auto)]

mod script;
mod session;
mod tally;

use script::play;
use std::io::{self, Write};
use std::process::ExitCode;
use std::{env, fs};
use tally::Tally;

fn main(rt: HostRuntime) -> anyhow::Result<ExitCode> {
    let names: Vec<String> = env::args(&rt)?.collect(rt.alloc())?;
    let mut out = io::writer(&rt);
    let mut tally = Tally::new();
    for name in names.iter().skip(1) {
        let text = fs::read_to_string(&rt, name.as_str())?;
        play(&rt, &rt, &mut out, &mut tally, name.as_str(), text.as_str())?;
    }
    writeln!(out, "{tally}")?;
    if tally.differing > 0 {
        return Ok(ExitCode::FAILURE);
    }
    Ok(ExitCode::SUCCESS)
}
