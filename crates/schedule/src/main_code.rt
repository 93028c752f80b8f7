//! The code that a machine runs, with what it says of main and of its sizes.

ghost use Rattle.std.specs.Prelude.{◌≡◌, ◌<◌, ◌≤◌, ◌^◌, length, sum};
ghost use Rattle.semantics.specs.Program.{first_of};
ghost use Rattle.semantics.specs.Machine.{outputs_of};
ghost use Rattle.schedule.specs.Setting.{inputs_of, FitsSlots};

use element::instructions::Instructions;

/// Code with its sizes.
pub trait MainCode: Instructions {
    /// How many inputs main has.
    fn inputs(&self) -> u32
        ensures exact { result ≡ inputs_of (Self.program self.now) }
        ensures few { result ≤ 16 };

    /// How many outputs main has.
    fn outputs(&self) -> u32
        ensures exact { result ≡ outputs_of (Self.program self.now) }
        ensures few { result ≤ 16 };

    /// The number of main's first instruction.
    fn main_entry(&self) -> u32
        ensures exact { result ≡ first_of (Self.program self.now) (Self.program self.now).main }
        ensures short { result < 2 ^ 30 };

    /// How many arrays there are.
    fn arrays(&self) -> u8
        ensures { result ≡ length (Self.program self.now).arrays };

    /// How many cells all arrays have.
    fn cells(&self) -> u32
        ensures { result ≡ sum (Self.program self.now).arrays };

    /// How many slots a frame has: 1 to 512.
    fn slots(&self) -> u32
        ensures exact { result ≡ Self.width self.now }
        ensures some { 0 < result }
        ensures few { result ≤ 512 }
        ensures fits { FitsSlots (Self.program self.now) (Self.width self.now) };
}
