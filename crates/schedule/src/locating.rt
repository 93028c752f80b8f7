//! Where a cell lies.

ghost use Rattle.std.specs.Prelude.{◌≡◌, ◌+◌, ◌<◌, ◌≤◌, IfSome, IfNone, length, sum};
ghost use Rattle.semantics.specs.Rule.{array_base, array_len};

use crate::main_code::MainCode;

/// An array and a place in it.
#[derive(Clone, Copy)]
pub struct Place {
    pub array: u8,
    pub index: u32,
}

/// The array that a cell is in, and its place there.
pub fn locate<C: MainCode>(code: &C, cell: u32) -> Option<Place>
    ensures some { IfSome result (λ at. (at.array < length (C.program code.now).arrays) × (at.index < array_len (C.program code.now) at.array)
        × (array_base (C.program code.now) at.array + at.index ≡ cell)) }
    ensures none { IfNone result (sum (C.program code.now).arrays ≤ cell) }
{
    for number in 0..code.arrays() {
        let array = code.array(number);
        if cell < array.base + array.len {
            return Some(Place {
                array: number,
                index: cell - array.base,
            });
        }
    }
    None
}
