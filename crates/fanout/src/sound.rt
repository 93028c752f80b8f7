//! Sound plans, narrowed.

ghost use Rattle.fanout.specs.Sound.{SoundKeepsClear, StaysSound, SoundHasDests};

/// A sound plan stays sound when it is narrowed, and then each of its instructions has as many destinations as its kind
/// has in an object. Each destination of a sound plan leaves the row of the instruction that names it, as narrowing determines
/// the rows.
pub fn narrowing_keeps_plans_sound()
    ensures clear { SoundKeepsClear }
    ensures sound { StaysSound }
    ensures dests { SoundHasDests }
{}
