//! The tables that are made once.

ghost use Rattle.std.specs.Prelude.{◌≡◌, IfOk, sum};
ghost use Rattle.loaded.specs.Ready.{entries_in, arrays_in, widest};

use element::instructions::Array;
use object_view::Object;
use std::alloc::{AllocError, Allocator};

/// The number of each block's first instruction.
pub fn entries_of<A: Allocator>(alloc: A, object: &Object<'_>) -> Result<Vec<u32, A>, AllocError>
    ensures { IfOk result (λ v. v.items ≡ entries_in 0 object.now.code.program.blocks) }
{
    let mut entries = Vec::with_capacity(alloc, object.block_count() as usize)?;
    for number in 0..object.block_count() {
        let Some(entry) = object.entry(number) else {
            return Ok(entries);
        };
        entries.push(entry)?;
    }
    Ok(entries)
}

/// The place of each array among the cells.
pub fn arrays_of<A: Allocator>(alloc: A, object: &Object<'_>) -> Result<Vec<Array, A>, AllocError>
    ensures { IfOk result (λ v. v.items ≡ arrays_in 0 object.now.code.program.arrays) }
{
    // What the bytes promise: there are few cells.
    let _bytes = object.bytes();
    let mut arrays = Vec::with_capacity(alloc, object.array_count() as usize)?;
    let mut base = 0;
    for number in 0..object.array_count() {
        let Some(len) = object.array(number) else {
            return Ok(arrays);
        };
        arrays.push(Array {
            base,
            len: len as u32,
        })?;
        base += len as u32;
    }
    Ok(arrays)
}

/// How many cells all arrays have together.
pub fn cells_of(object: &Object<'_>) -> u32
    ensures { result ≡ sum object.now.code.program.arrays }
{
    // What the bytes promise: there are few cells.
    let _bytes = object.bytes();
    let mut cells = 0;
    for number in 0..object.array_count() {
        let Some(len) = object.array(number) else {
            return cells;
        };
        cells += len as u32;
    }
    cells
}

/// The most slots of any block, and at least 1.
pub fn most_slots(object: &Object<'_>) -> u32
    ensures { result ≡ widest object.now.code.program.blocks }
{
    let mut most = 1;
    for number in 0..object.block_count() {
        let Some(block) = object.block(number) else {
            return most;
        };
        most = most.max(block.slots);
    }
    most
}
