//! Whether an element has others beside it, and how many.

ghost use Rattle.std.specs.Prelude.{ℕ, Bool, true, false};

/// What is known, where the code of an element is compiled, of how many elements there are. Where it has none beside it, each frame and
/// each cell lies on it, and its code asks for no element. Where their number is known and is a power of two, the place of a frame among
/// those of its element is one shift.
pub trait Company {
    ghost COUNT: { ℕ };

    ghost HOLDS: { Bool };

    /// How many elements there are, or 0 where it is not known.
    const COUNT: u32;

    /// Whether requests for frames are held back: then none is done at once.
    const HOLDS: bool;
}

/// There are no other elements.
pub struct Alone;

impl Company for Alone {
    ghost COUNT = { 1 };

    ghost HOLDS = { false };

    const COUNT: u32 = 1;

    const HOLDS: bool = false;
}

/// There are no other elements, and requests for frames are held back.
pub struct AloneByDepth;

impl Company for AloneByDepth {
    ghost COUNT = { 1 };

    ghost HOLDS = { true };

    const COUNT: u32 = 1;

    const HOLDS: bool = true;
}

/// There are two elements.
pub struct Two;

impl Company for Two {
    ghost COUNT = { 2 };

    ghost HOLDS = { false };

    const COUNT: u32 = 2;

    const HOLDS: bool = false;
}

/// There are four elements.
pub struct Four;

impl Company for Four {
    ghost COUNT = { 4 };

    ghost HOLDS = { false };

    const COUNT: u32 = 4;

    const HOLDS: bool = false;
}

/// There may be any number of other elements.
pub struct Together;

impl Company for Together {
    ghost COUNT = { 0 };

    ghost HOLDS = { false };

    const COUNT: u32 = 0;

    const HOLDS: bool = false;
}
