//! What a program means, worked out word by word from its text's program, without a graph. A fetch reads what the memory has in the end: so
//! the program is evaluated again and again, each time over the cells that were filled so far, until no more are. What waits for a cell
//! that nothing fills has no value, and neither has what waits for that.

mod evaluator;
pub mod layout;
pub mod memory;

use crate::evaluation::evaluator::Evaluator;
use crate::evaluation::layout::{Function, Layout};
use crate::evaluation::memory::Memory;
use std::alloc::{AllocError, Global};
use tags::value::{Origin, Value};

/// The most words of a pass, and the most passes.
const STEPS: u64 = 6_000;

const PASSES: u64 = 64;

/// How an evaluation ends.
#[derive(Clone, Copy, PartialEq, Eq)]
pub enum MeantEnd {
    Rest,
    /// A cell is stored to twice.
    Clash,
    /// It is too long to be followed.
    Long,
}

/// What a program means on its inputs.
#[derive(Drop)]
pub struct Meaning {
    pub end: MeantEnd,
    pub outputs: Vec<Option<Value>>,
    pub memory: Memory,
}

/// Evaluates a program once. Says whether its end was reached.
fn goes_over(
    evaluator: &mut Evaluator<'_>,
    main: Function,
    inputs: &[i64],
) -> Result<bool, AllocError> {
    evaluator.begin();
    evaluator.enter_main(main.first_param, inputs)?;
    let mut place = main.body;
    for _ in 0..STEPS {
        match evaluator.step(place)? {
            Some(next) => place = next,
            None => return Ok(true),
        }
    }
    Ok(false)
}

/// Evaluates a program until no more cells are filled.
fn end_of(
    evaluator: &mut Evaluator<'_>,
    main: Function,
    inputs: &[i64],
) -> Result<MeantEnd, AllocError> {
    for _ in 0..PASSES {
        let is_whole = goes_over(evaluator, main, inputs)?;
        if evaluator.memory.has_clash {
            return Ok(MeantEnd::Clash);
        }
        if !is_whole {
            break;
        }
        if !evaluator.memory.is_changed {
            return Ok(MeantEnd::Rest);
        }
    }
    Ok(MeantEnd::Long)
}

/// What `main` means on these inputs. A fault that is made at a place of the text has the origin that is there.
pub fn evaluate(
    alloc: Global,
    layout: &Layout<'_>,
    main: Function,
    origins: &[Origin],
    inputs: &[i64],
) -> Result<Meaning, AllocError> {
    let memory = Memory::new(alloc, layout.cells())?;
    let mut evaluator = Evaluator::new(alloc, layout, origins, memory);
    let end = end_of(&mut evaluator, main, inputs)?;
    let Evaluator { memory, values, .. } = evaluator;
    Ok(Meaning {
        end,
        outputs: values,
        memory,
    })
}
