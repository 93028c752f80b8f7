//! Which elements have begun. Where a thread cannot be started its element begins only after another one has left, so nobody waits for it.

use std::sync::atomic::{AtomicBool, AtomicU64, Ordering};

/// How often an element without a token looks for one while other elements have not begun.
const PATIENCE: u64 = 1 << 14;

/// How many elements have begun, and whether one of them has waited for the others in vain.
#[derive(Drop)]
pub struct Attendance {
    begun: AtomicU64,
    is_in_vain: AtomicBool,
}

impl Attendance {
    /// No element has begun.
    pub fn new() -> Attendance {
        Attendance {
            begun: AtomicU64::new(0),
            is_in_vain: AtomicBool::new(false),
        }
    }

    /// One more element has begun.
    pub fn begin(&self) {
        let _before = self.begun.fetch_add(1, Ordering::SeqCst);
    }

    /// Whether an element that has looked this often, and has no token, waits on: not where one of the elements has not begun for long, or had not.
    pub fn may_wait(&self, elements: u32, looks: u64) -> bool {
        if self.is_in_vain.load(Ordering::SeqCst) {
            return false;
        }
        if looks < PATIENCE || self.begun.load(Ordering::SeqCst) >= u64::from(elements) {
            return true;
        }
        self.is_in_vain.store(true, Ordering::SeqCst);
        false
    }
}
