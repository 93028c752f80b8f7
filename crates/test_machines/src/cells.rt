//! The cells of an element.

use crate::part::{Heap, Part};
use crate::shown::{push_cont, push_value};
use crate::words::Words;
use istructure::{Cells, FetchAnswer, StoreAnswer};
use std::alloc::AllocError;
use tags::token::Cont;

/// Cells, and the readers that were answered.
#[derive(Drop)]
pub struct CellsPart<'h> {
    cells: Cells<Heap<'h>>,
    answered: Vec<Cont, Heap<'h>>,
}

impl<'h> CellsPart<'h> {
    /// Those of so many cells that this element of so many has. `None` where there is no such element or no memory.
    pub fn new(heap: Heap<'h>, cells: u32, element: u32, elements: u32) -> Option<CellsPart<'h>> {
        if element >= elements {
            return None;
        }
        match Cells::new(heap, cells, element, elements) {
            Ok(cells) => Some(CellsPart {
                cells,
                answered: Vec::new(heap),
            }),
            Err(_refused) => None,
        }
    }
}

fn push_fetched(answer: &mut String, fetched: FetchAnswer) -> Result<(), AllocError> {
    match fetched {
        FetchAnswer::Now(value) => push_value(answer, value),
        FetchAnswer::Deferred => answer.push_str("deferred"),
        FetchAnswer::NotHere => answer.push_str("not here"),
        FetchAnswer::Memory => answer.push_str("no memory"),
    }
}

fn push_stored(answer: &mut String, stored: StoreAnswer) -> Result<(), AllocError> {
    answer.push_str(match stored {
        StoreAnswer::Stored => "stored",
        StoreAnswer::Second => "second",
        StoreAnswer::NotHere => "not here",
        StoreAnswer::Memory => "no memory",
    })
}

/// Writes continuations, separated by commas.
fn push_conts(answer: &mut String, conts: &[Cont]) -> Result<(), AllocError> {
    for cont in conts {
        if !answer.is_empty() {
            answer.push_str(", ")?;
        }
        push_cont(answer, *cont)?;
    }
    Ok(())
}

impl Part for CellsPart<'_> {
    fn act(&mut self, words: &mut Words<'_>, answer: &mut String) -> Option<()> {
        let cells = &mut self.cells;
        let operation = words.word();
        if operation == "answered" {
            return push_conts(answer, self.answered.as_slice()).ok();
        }
        let cell = words.number()?;
        match operation {
            "fetch" => push_fetched(answer, cells.fetch(cell, words.cont()?)).ok(),
            "fetch-within" => push_fetched(answer, cells.fetch_within(cell, words.cont()?)).ok(),
            "store" => {
                let Some(value) = words.value() else {
                    return None;
                };
                let stored = cells.store(cell, value, &mut self.answered);
                push_stored(answer, stored).ok()
            }
            "readers" => {
                let readers = cells.readers(cell);
                write!(answer, "{readers}").ok()
            }
            "value" => match cells.value(cell) {
                Some(value) => push_value(answer, value).ok(),
                None => answer.push_str("none").ok(),
            },
            _ => None,
        }
    }
}
