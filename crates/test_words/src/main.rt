//! Tries thousands of command lines. `clap`, with the command line as `command_texts` has it, and `read_words` have to
//! agree on what each of them asks for, with all its values, and on its text.
#![tactic(auto)]

mod agreement;

use agreement::{Tally, agree_on};
use std::alloc::Global;

/// What may follow `ets`: units of one or more words, with a space between two words.
const FIRST: [&str; 34] = [
    "run",
    "mean",
    "check",
    "compile",
    "dis",
    "upgrade",
    "help",
    "-h",
    "--help",
    "-V",
    "--version",
    "--help=x",
    "--version=x",
    "-hx",
    "-Vx",
    "-xh",
    "-x",
    "--",
    "-",
    "",
    "ru",
    "RUN",
    "runs",
    "--elements",
    "--elements=4",
    "--steps 7",
    "4",
    "-4",
    "--hel",
    "--vers",
    "--run",
    "help run",
    "run --frames 21",
    "hé",
];

/// What may follow `run`.
const OPTIONS: [&str; 29] = [
    "--frames",
    "--frames enough",
    "--frames=enough",
    "--frames=enoughs",
    "--take depth",
    "--take=",
    "--elements",
    "--elements 4",
    "--elements=4",
    "--turn=21",
    "--steps",
    "7",
    "--mode rounds",
    "--mode=free",
    "--mode=",
    "--mode=x=y",
    "--elements=",
    "--steps=+7",
    "--",
    "-",
    "-h",
    "--help",
    "-V",
    "--version",
    "-4",
    "--elem=4",
    "--help=x",
    "x",
    "",
];

/// Options with their values, to be given in any order; some of them are refused.
const VALUES: [&str; 12] = [
    "--elements 4",
    "--elements=16",
    "--frames 21",
    "--frames=0",
    "--steps 18446744073709551615",
    "--steps=1000000",
    "--mode rounds",
    "--mode=Rounds",
    "--frames=enough",
    "--take=oldest",
    "--",
    "--help",
];

/// Words; all short lists of them are tried.
const WORDS: [&str; 8] = [
    "--elements",
    "--elements=4",
    "4",
    "--frames 21",
    "--",
    "-h",
    "--mode",
    "rounds",
];

/// What may follow `exec`.
const INPUTS: [&str; 18] = [
    "2",
    "-",
    "",
    "--",
    "-4",
    "07",
    "x",
    "help",
    "--elements=4",
    "--turn",
    "--mode rounds",
    "--frames=enough",
    "--take=depth",
    "--code",
    "--help",
    "-h",
    "-V",
    "1 2 3 4 5 6 7 8 9",
];

/// What may follow `trace`, `profile` and `orders`.
const MEASURES: [&str; 22] = [
    "--last 3",
    "--last=x",
    "--format chrome",
    "--format=text",
    "--format=Text",
    "--elements 4",
    "--elements=1,2,16",
    "--elements=1,,2",
    "--elements=,",
    "--elements 3,3,+07,99",
    "--frames=21",
    "--frames enough",
    "--take depth",
    "--mode free",
    "--svg",
    "--svg=x",
    "--count 7",
    "--seed=0",
    "--code",
    "--",
    "--help",
    "4",
];

/// Options of a file, and what may be between them.
const FILE_OPTIONS: [&str; 20] = [
    "--cells",
    "--cells A",
    "--cells=A,B",
    "--cells=",
    "--grid A=8",
    "--grid=A=8,B=4",
    "--grid=A",
    "--grid=A=0",
    "--grid=",
    "--quiet",
    "--quiet=x",
    "--map",
    "--format json",
    "--format=text",
    "--format=html",
    "--frames=21",
    "--",
    "3",
    "p.df",
    "--help",
];

/// Words before them.
const BEFORE_FILE_OPTIONS: [&str; 12] = [
    "ets run",
    "ets run p.df",
    "ets mean p.df",
    "ets orders p.df",
    "ets check",
    "ets lower p.df",
    "ets compile p.df",
    "ets dis p.df",
    "ets trace",
    "ets trace p.df",
    "ets exec",
    "ets exec p.o",
];

/// What may follow `dis` and `dot`.
const FLAGS: [&str; 13] = [
    "--literals",
    "--map",
    "--literals=x",
    "--literals=",
    "--lit",
    "--code",
    "--",
    "-",
    "",
    "x",
    "-h",
    "--help",
    "-V",
];

/// Words for a number.
const NUMBERS: [&str; 26] = [
    "0",
    "1",
    "16",
    "007",
    "+4",
    "+",
    "++4",
    "-4",
    "-0",
    "4.0",
    "4e3",
    "0x10",
    " 4",
    "4 ",
    "4_0",
    "18446744073709551615",
    "18446744073709551616",
    "+18446744073709551615",
    "00000000000000000000000018446744073709551615",
    "99999999999999999999999",
    "one",
    "",
    "-",
    "--",
    "--help",
    "é",
];

/// Commands without options.
const LEAVES: [&str; 5] = [
    "ets check",
    "ets compile",
    "ets asm",
    "ets upgrade",
    "ets help",
];

fn try_lists<'a>(
    tally: &mut Tally,
    alloc: Global,
    units: &[&'a str],
    words: &mut Vec<&'a str>,
    more: u8,
) -> anyhow::Result<()> {
    tally.add(agree_on(alloc, words.as_slice())?);
    if more == 0 {
        return Ok(());
    }
    for unit in units {
        let before = words.len();
        for word in unit.split(' ') {
            words.push(word)?;
        }
        try_lists(tally, alloc, units, words, more - 1)?;
        words.truncate(before);
    }
    Ok(())
}

fn words_of<'a>(alloc: Global, line: &'a str) -> anyhow::Result<Vec<&'a str>> {
    let mut words = Vec::new(alloc);
    for word in line.split(' ') {
        words.push(word)?;
    }
    Ok(words)
}

/// Tries all lists of at most `more` units after the words of `front`.
fn try_after<'a>(
    alloc: Global,
    front: &'a str,
    units: &[&'a str],
    more: u8,
) -> anyhow::Result<Tally> {
    let mut words = words_of(alloc, front)?;
    let mut tally = Tally::new();
    try_lists(&mut tally, alloc, units, &mut words, more)?;
    Ok(tally)
}

fn try_none(alloc: Global) -> anyhow::Result<Tally> {
    let mut tally = Tally::new();
    tally.add(agree_on(alloc, &[])?);
    Ok(tally)
}

fn try_number(tally: &mut Tally, alloc: Global, number: &str) -> anyhow::Result<()> {
    let joined = format!(in alloc; "--steps={number}")?;
    for command in ["run", "mean", "check"] {
        let mut words = Vec::new(alloc);
        words.push("ets")?;
        words.push(command)?;
        words.push(joined.as_str())?;
        tally.add(agree_on(alloc, words.as_slice())?);
        words.truncate(2);
        words.push("--steps")?;
        words.push(number)?;
        tally.add(agree_on(alloc, words.as_slice())?);
    }
    Ok(())
}

fn try_numbers(alloc: Global) -> anyhow::Result<Tally> {
    let mut tally = Tally::new();
    for number in NUMBERS {
        try_number(&mut tally, alloc, number)?;
    }
    Ok(tally)
}

fn main(rt: HostRuntime) -> anyhow::Result<()> {
    let alloc = rt.alloc();
    let first = FIRST.as_slice();
    let options = OPTIONS.as_slice();
    println!(rt; "no words: {}", try_none(alloc)?)?;
    println!(rt; "ets: {}", try_after(alloc, "ets", first, 2)?)?;
    println!(rt; "ets run: {}", try_after(alloc, "ets run", options, 2)?)?;
    println!(rt;
        "ets run, values: {}",
        try_after(alloc, "ets run", VALUES.as_slice(), 3)?
    )?;
    println!(rt;
        "ets run, words: {}",
        try_after(alloc, "ets run", WORDS.as_slice(), 4)?
    )?;
    println!(rt; "ets mean: {}", try_after(alloc, "ets mean", options, 2)?)?;
    for command in LEAVES {
        println!(rt; "{command}: {}", try_after(alloc, command, options, 1)?)?;
    }
    for command in ["ets dis", "ets dot", "ets lower"] {
        println!(rt;
            "{command}: {}",
            try_after(alloc, command, FLAGS.as_slice(), 2)?
        )?;
    }
    println!(rt;
        "ets exec: {}",
        try_after(alloc, "ets exec", INPUTS.as_slice(), 2)?
    )?;
    for command in ["ets trace", "ets profile", "ets orders"] {
        println!(rt;
            "{command}: {}",
            try_after(alloc, command, MEASURES.as_slice(), 2)?
        )?;
    }
    for front in BEFORE_FILE_OPTIONS {
        println!(rt;
            "{front}, options of a file: {}",
            try_after(alloc, front, FILE_OPTIONS.as_slice(), 2)?
        )?;
    }
    println!(rt; "numbers: {}", try_numbers(alloc)?)?;
    Ok(())
}
