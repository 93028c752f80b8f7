//! The program `ets`: compiles dataflow graphs for an explicit token store machine, and runs them.
#![tactic(auto)]

use process::{SystemFiles, run_program};
use std::io::{ErrorKind, Write};
use std::process::ExitCode;
use std::{env, io};

/// The exit status where memory for the words, or for the buffer of standard output, was refused.
const REFUSED: u8 = 1;

/// Says that memory was refused before anything was read or written.
fn refused<E: Write>(errors: &mut E) -> ExitCode {
    let _is_told = errors.write_all(b"ets: out of memory\n").is_ok();
    ExitCode::from(REFUSED)
}

fn main(rt: HostRuntime) -> io::Result<ExitCode> {
    let given = match env::args(&rt) {
        Ok(given) => given,
        Err(fault) if fault.kind() == ErrorKind::OutOfMemory => {
            return Ok(refused(&mut rt.stderr()));
        }
        Err(fault) => return Err(fault),
    };
    let Ok(words): Result<Vec<String>, _> = given.collect(rt.alloc()) else {
        return Ok(refused(&mut rt.stderr()));
    };
    let ended = run_program(
        &words,
        rt.stdin(),
        io::writer(&rt),
        &mut rt.stderr(),
        &SystemFiles { rt: &rt },
        rt.alloc(),
        &rt,
    );
    match ended {
        Ok(ended) => Ok(ExitCode::from(ended.status)),
        Err(_) => Ok(refused(&mut rt.stderr())),
    }
}
