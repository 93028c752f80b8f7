//! What the elements of a run ask before they go on.

ghost use Rattle.std.specs.Prelude.{◌≡◌, Bool, true, false};

/// Is asked by each element, in the thread in which it makes its turn. Each gate says whether it may stop a run.
pub trait Gate {
    /// Whether `go_on` may answer false.
    ghost may_stop: { Bool };

    /// The element begins its turn.
    fn enter(&self, element: u32);

    /// Whether an element that has a token, and has made this number of blocks of events, may make one more.
    fn go_on(&self, _element: u32, _blocks: u64) -> bool
        ensures { result ≡ false → may_stop ≡ true }
    {
        true
    }
}

/// Lets every element go on.
pub struct Open;

impl Gate for Open {
    ghost use Rattle.std.specs.Prelude.{false};

    ghost may_stop = { false };

    fn enter(&self, _element: u32) {}
}
