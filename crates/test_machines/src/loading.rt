//! Objects made ready to be run.

use crate::firing::push_dest;
use crate::objects::object_named;
use crate::operations::operation_of;
use crate::part::{Heap, Part};
use crate::words::Words;
use element::instructions::{Instruction, Instructions};
use loaded::Loaded;
use object_view::Object;
use schedule::main_code::MainCode;
use semantics::program::Op;
use std::alloc::AllocError;

/// An object that is ready.
#[derive(Drop)]
pub struct LoadedPart<'h> {
    loaded: Loaded<'static, Heap<'h>>,
}

impl<'h> LoadedPart<'h> {
    /// The object of this name. `None` where there is none or no memory.
    pub fn new(heap: Heap<'h>, name: &str) -> Option<LoadedPart<'h>> {
        let object = Object::open(object_named(name)?).ok()?;
        match Loaded::new(heap, object) {
            Ok(loaded) => Some(LoadedPart { loaded }),
            Err(_refused) => None,
        }
    }
}

/// The operation of an instruction, of any code.
fn op_at<I: Instructions>(code: &I, ip: u32) -> Option<Op> {
    match code.instr(ip) {
        Some(instr) => Some(instr.op),
        None => None,
    }
}

fn push_is(answer: &mut String, held: Option<Op>, op: Op) -> Result<(), AllocError> {
    answer.push_str(match held {
        Some(held) if held == op => "yes",
        Some(_) => "no",
        None => "none",
    })
}

/// Writes the destinations of an instruction, and the half words that give them.
fn push_destinations(answer: &mut String, instr: Option<Instruction>) -> Result<(), AllocError> {
    let Some(instr) = instr else {
        return answer.push_str("none");
    };
    let (first, second) = (instr.first(), instr.second());
    push_dest(answer, first)?;
    answer.push_str(", ")?;
    push_dest(answer, second)?;
    write!(answer, ", from {first} {second}")
}

/// Does what a line says that has a number.
fn on_number(
    loaded: &Loaded<'_, Heap<'_>>,
    operation: &str,
    words: &mut Words<'_>,
    answer: &mut String,
) -> Option<()> {
    match operation {
        "is" => {
            let held = op_at(loaded, words.number()?);
            push_is(answer, held, operation_of(words)?).ok()
        }
        "destinations" => push_destinations(answer, loaded.instr(words.number()?)).ok(),
        "entry" => {
            let entry = loaded.entry(words.short()?);
            write!(answer, "{entry}").ok()
        }
        "array" => {
            let array = loaded.array(words.byte()?);
            let base = array.base;
            let len = array.len;
            write!(answer, "{base} {len}").ok()
        }
        _ => None,
    }
}

impl Part for LoadedPart<'_> {
    fn act(&mut self, words: &mut Words<'_>, answer: &mut String) -> Option<()> {
        let loaded = &self.loaded;
        let operation = words.word();
        let number = match operation {
            "main-entry" => loaded.main_entry(),
            "inputs" => loaded.inputs(),
            "outputs" => loaded.outputs(),
            "cells" => loaded.cells(),
            "slots" => loaded.slots(),
            _ => return on_number(loaded, operation, words, answer),
        };
        write!(answer, "{number}").ok()
    }
}
