//! Objects that the compiler wrote.

use crate::hostile_objects::object::words_of;
use driver::compiling::compile;
use std::alloc::{AllocError, Global};
use test_inputs::graph_texts::{
    ADD, FACTORIAL, INNER_FAULT, LATE_RESULT, READERS, SECOND_STORE, SIGN, SUM_LOOP,
};

/// Graphs with sums, arms in arms, recursion, a loop, readers of a cell, two stores of a cell, a strict call, and a fault that says
/// where it was made.
const TEXTS: [&[u8]; 8] = [
    ADD,
    SIGN,
    FACTORIAL,
    SUM_LOOP,
    READERS,
    SECOND_STORE,
    LATE_RESULT,
    INNER_FAULT,
];

/// The words of each object. Where a text was not compiled there are none.
pub fn bases(alloc: Global) -> Result<Vec<Vec<u64>>, AllocError> {
    let mut bases = Vec::new(alloc);
    for text in TEXTS {
        let words = match compile(alloc, text) {
            Ok(compiled) => words_of(alloc, compiled.object.bytes())?,
            Err(_fault) => Vec::new(alloc),
        };
        bases.push(words)?;
    }
    Ok(bases)
}
