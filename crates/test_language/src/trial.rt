//! One text: it is refused, or it is lowered, evaluated and run.

use crate::runs::{Subject, Way, Ways, first_other};
use crate::tally::Tally;
use graph::Name;
use graph_file::write;
use lowered_text::fault::LowerFault;
use lowered_text::programs::{Made, make, read_good};
use lowering::{Named, Places};
use source::fault::ProgramFault;
use source::program::Program;
use source::word::Word;
use std::alloc::{AllocError, Global};
use std::sync::Wait;
use std::thread::Threads;
use std::{fmt, io};
use tags::value::Origin;
use test_inputs::random_graphs::dice::Dice;
use test_random_programs::damage::Changed;
use test_random_programs::evaluation::layout::{Function, Layout};
use test_random_programs::evaluation::{Meaning, MeantEnd, evaluate};

/// Inputs besides small ones.
const INPUTS: [i64; 4] = [-1, 100, i64::MIN, i64::MAX];

/// A text, and inputs for its program.
#[derive(Drop)]
pub struct Sample {
    pub changed: Changed,
    pub inputs: Vec<i64>,
}

/// As many inputs as a program may have.
pub fn some_inputs(alloc: Global, dice: &mut Dice) -> Result<Vec<i64>, AllocError> {
    let mut inputs = Vec::new(alloc);
    for _ in 0..16 {
        let small = dice.integer(10);
        let other = INPUTS.get(dice.throw(4) as usize).copied().unwrap_or(0);
        inputs.push(if dice.throw(4) == 0 { other } else { small })?;
    }
    Ok(inputs)
}

/// What is wrong with a text.
#[derive(Clone, Copy)]
pub enum Wrong {
    /// It is refused, or refused before its change.
    Refused(ProgramFault),
    Run(Way),
    /// It reports something else where a growth is refused.
    Growth,
}

impl fmt::Display for Wrong {
    fn fmt<W: fmt::Write>(&self, f: &mut fmt::Formatter<W>) -> fmt::Result {
        match self {
            Wrong::Refused(fault) => write!(f, "is refused: {fault}"),
            Wrong::Run(way) => write!(f, "differs {way}"),
            Wrong::Growth => f.write_str("differs where a growth is refused"),
        }
    }
}

/// A program that was lowered: its graph's text, and what it means.
#[derive(Drop)]
pub struct Lowered {
    pub graph: Vec<u8>,
    pub meaning: Meaning,
}

/// The outcome of a text.
#[derive(Drop)]
pub enum Reading {
    Refused(ProgramFault),
    Lowered(Lowered),
}

fn refused(fault: LowerFault) -> io::Result<Reading> {
    match fault {
        LowerFault::Program(refusal) => Ok(Reading::Refused(refusal.fault)),
        LowerFault::Memory => Err(io::Error::from(AllocError)),
    }
}

/// The function `main`.
fn main_of(layout: &Layout<'_>, names: &[Name<'_>]) -> Option<Function> {
    for function in &layout.functions {
        if let Some(name) = names.get(function.name) {
            if name.bytes == b"main".as_slice() {
                return Some(*function);
            }
        }
    }
    None
}

/// The origin of a fault that is made at each place of a text.
fn origins_of(
    alloc: Global,
    len: usize,
    places: &[Places<Global>],
) -> Result<Vec<Origin>, AllocError> {
    let mut origins = Vec::new(alloc);
    for _ in 0..len {
        origins.push(Origin::Untold)?;
    }
    for (block, places) in places.iter().enumerate() {
        for (line, at) in places.nodes.iter().enumerate() {
            let node = u64::from(places.inputs).wrapping_add(line as u64);
            let code = (block as u64).wrapping_mul(1024).wrapping_add(node);
            let origin = Origin::from_code(code.wrapping_add(1));
            if let (Some(origin), Some(place)) = (origin, origins.get_mut(*at)) {
                *place = origin;
            }
        }
    }
    Ok(origins)
}

/// A graph's text, and the origin of a fault that is made at each place of its program's text.
#[derive(Drop)]
struct Written {
    graph: Vec<u8>,
    origins: Vec<Origin>,
}

fn text_and_origins(alloc: Global, len: usize, made: &Made<'_, Global>) -> io::Result<Written> {
    let mut graph = Vec::new(alloc);
    write(&made.graph, &mut graph)?;
    let origins = origins_of(alloc, len, &made.places)?;
    Ok(Written { graph, origins })
}

/// What a program means on these inputs. Only as many stay as it has.
fn meaning_of(
    alloc: Global,
    words: &[Word<usize>],
    names: &[Name<'_>],
    origins: &[Origin],
    inputs: &mut Vec<i64>,
) -> io::Result<Meaning> {
    let layout = Layout::of(alloc, words)?;
    let Some(main) = main_of(&layout, names) else {
        return Err(io::Error::from(AllocError));
    };
    inputs.truncate(main.params);
    Ok(evaluate(alloc, &layout, main, origins, inputs)?)
}

/// What is found of a program that was lowered.
fn lowered_of(
    alloc: Global,
    tally: &mut Tally,
    program: &Program<'_, Global>,
    written: Written,
    inputs: &mut Vec<i64>,
) -> io::Result<Reading> {
    let Written { graph, origins } = written;
    tally.count_forms(&program.words)?;
    let meaning = meaning_of(alloc, &program.words, &program.names, &origins, inputs)?;
    Ok(Reading::Lowered(Lowered { graph, meaning }))
}

/// Lowers a program, and works out what it means on these inputs. Only as many stay as it has.
fn lower_named(
    alloc: Global,
    tally: &mut Tally,
    text: &[u8],
    named: Named<'_, Global>,
    inputs: &mut Vec<i64>,
) -> io::Result<Reading> {
    let written = match make(&alloc, text, &named) {
        Ok(made) => text_and_origins(alloc, text.len(), &made)?,
        Err(fault) => return refused(fault),
    };
    lowered_of(alloc, tally, &named.checked.program, written, inputs)
}

/// Reads the program of a text, lowers it, and works out what it means on these inputs.
pub fn lower_text(
    alloc: Global,
    tally: &mut Tally,
    text: &[u8],
    inputs: &mut Vec<i64>,
) -> io::Result<Reading> {
    match read_good(&alloc, text) {
        Ok((named, parts)) => lower_named(alloc, tally, parts.program, named, inputs),
        Err(fault) => refused(fault),
    }
}

/// The first that is wrong with a text, if anything is. Of the inputs only as many stay as the program has.
pub fn first_wrong<R: Threads + Wait + Sync>(
    rt: &R,
    alloc: Global,
    tally: &mut Tally,
    dice: &mut Dice,
    sample: &mut Sample,
    ways: Ways,
) -> io::Result<Option<Wrong>> {
    let lowered = match lower_text(alloc, tally, &sample.changed.text, &mut sample.inputs)? {
        Reading::Lowered(lowered) => lowered,
        Reading::Refused(fault) => {
            tally.count_refusal(fault.kind)?;
            return Ok((!sample.changed.admits(fault)).then_some(Wrong::Refused(fault)));
        }
    };
    tally.count_meaning(&lowered.meaning)?;
    if lowered.meaning.end == MeantEnd::Long {
        return Ok(None);
    }
    let subject = Subject {
        text: &sample.changed.text,
        graph: &lowered.graph,
        inputs: sample.inputs.as_slice(),
        meaning: &lowered.meaning,
    };
    match first_other(rt, alloc, tally, subject, dice, ways)? {
        Some(way) => Ok(Some(Wrong::Run(way))),
        None => Ok(None),
    }
}
