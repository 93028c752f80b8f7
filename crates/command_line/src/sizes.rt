//! Numbers of elements.

ghost use Rattle.std.specs.Prelude.{◌≡◌, ◌<◌, true, false};
ghost use Rattle.command_line.specs.Words.{has_size, usual_sizes, with_size};

/// A set of numbers of elements. Numbers above 62 are one.
#[derive(Clone, Copy, Debug, PartialEq, Eq)]
pub struct Sizes {
    /// Bit n stands for n, and bit 63 for each number above 62.
    bits: u64,
}

impl Sizes {
    pub(crate) fn none() -> Sizes
        ensures { result ≡ record { bits = 0 } }
    {
        Sizes { bits: 0 }
    }

    /// 1, 2, 4, 8 and 16.
    pub(crate) fn usual() -> Sizes
        ensures { result ≡ usual_sizes }
    {
        Sizes { bits: 65_814 }
    }

    /// With this number too.
    pub(crate) fn with(self, number: u64) -> Sizes
        ensures { result ≡ with_size self number }
    {
        Sizes {
            bits: self.bits | (1 << number.min(63)),
        }
    }

    /// Whether the number, below 64, is among them.
    pub fn has(self, number: u64) -> bool
        requires { number < 64 }
        ensures { result ≡ has_size self number }
    {
        (self.bits >> number) & 1 == 1
    }
}
