//! What folding keeps of a plan that is sound.

ghost use Rattle.folding.specs.Sound.{StillSound};

/// A sound plan stays sound: each operand names what exists, each instruction has as many destinations as it should have,
/// each destination leads forward out of its row to a port that its instruction has, and holders, marks and loops agree.
pub fn folding_keeps_plans_sound()
    ensures { StillSound }
{}
