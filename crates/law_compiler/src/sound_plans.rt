//! Sound plans, up to an object.

ghost use Rattle.law_compiler.specs.ObjectsSound.{SoundHaveObjects};

/// A sound plan has an object when it is narrowed and has good slots, except where its sizes are refused.
pub fn sound_plans_have_objects()
    ensures { SoundHaveObjects }
{}
