//! How many events an element makes in a turn.

ghost use Rattle.std.specs.Prelude.{◌≡◌, ◌≤◌};
ghost use Rattle.schedule.specs.State.{setting_in};
ghost use Rattle.schedule.specs.Setting.{IsGoodSetting};
ghost use Rattle.machine.specs.Blocks.{turn_of};

use schedule::main_code::MainCode;
use schedule::shape::Shape;

/// How many events an element that has enough tokens makes between two looks at the mailboxes: those in which it takes what
/// others posted, and those in which it posts what it has for others.
pub const LOOK: u64 = 128;

// How many times shorter turns are on an element that others ask for frames.
const SHORTER: u64 = 8;

/// How many events the element makes in a turn at most. Others ask element 0 for frames, and wait for them, so its turns are the
/// shortest; but where turns are shorter than what lies between two looks at the mailboxes, all are alike.
pub fn turn_of<C: MainCode>(shape: &Shape<'_, C>, element: u32) -> u64
    requires { IsGoodSetting (setting_in C.program C.width shape.now) }
    ensures exact { result ≡ turn_of (setting_in C.program C.width shape.now) element }
    ensures some { 1 ≤ result }
    ensures within { result ≤ shape.now.turn }
{
    if element == 0 && 1 < shape.elements && LOOK <= shape.turn {
        return shape.turn / SHORTER;
    }
    shape.turn
}
