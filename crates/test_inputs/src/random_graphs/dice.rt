//! Pseudorandom numbers, which a seed chooses.

/// Gives one pseudorandom number after another.
#[derive(Drop)]
pub struct Dice {
    state: u64,
}

impl Dice {
    /// The numbers that this seed chooses.
    pub fn new(seed: u64) -> Dice {
        Dice { state: seed }
    }

    /// A number below `count`.
    pub fn throw(&mut self, count: u64) -> u64 {
        self.state = self
            .state
            .wrapping_mul(6_364_136_223_846_793_005)
            .wrapping_add(1_442_695_040_888_963_407);
        if count == 0 {
            0
        } else {
            (self.state >> 33) % count
        }
    }

    /// The same number, as an integer.
    pub fn integer(&mut self, count: u64) -> i64 {
        i64::from((self.throw(count) % 65_536) as u32)
    }
}
