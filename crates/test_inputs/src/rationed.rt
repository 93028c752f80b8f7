//! An allocator, a reader and a writer for tests, each with a ration. The allocator gives out what another does, counts the growths, and
//! refuses one; the reader fails at one of its calls, and the writer at one of its bytes.

pub mod reader;
pub mod writer;

use std::alloc::{AllocError, Allocator};
use std::sync::atomic::{AtomicU64, Ordering};

/// An allocator that gives out what another does, as often as its ration says, and then refuses.
pub struct Rationed<B: Allocator> {
    inner: B,
    left: AtomicU64,
}

impl<B: Allocator> Rationed<B> {
    pub fn new(inner: B, ration: u64) -> Rationed<B> {
        Rationed {
            inner,
            left: AtomicU64::new(ration),
        }
    }

    /// What is left of its ration. Each growth that it is asked for takes one, so a call that leaves this as it was took no memory.
    pub fn left(&self) -> u64 {
        self.left.load(Ordering::SeqCst)
    }
}

impl<B: Allocator> Drop for Rationed<B> {
    fn drop(self) {
        let Self { inner: _, left: _ } = self;
    }
}

/// Whether this allocator refuses the next growth, which it is asked for. One of `Rationed` refuses one growth and grants all after it,
/// so after a run over it this says that the run had exactly one growth fewer than were needed for a refusal: none was refused.
pub fn is_next_refused<A: Allocator>(alloc: A) -> bool {
    let mut probe: Vec<u64, A> = Vec::new(alloc);
    probe.push(0).is_err()
}

fn admits(left: &AtomicU64) -> bool {
    left.fetch_sub(1, Ordering::SeqCst) != 1
}

unsafe impl<B: Allocator> Allocator for Rationed<B> {
    ghost dealloc_token = { λ heap ty ptr. B.dealloc_token heap.inner ty ptr };

    fn allocate(&self, size: usize, align: usize) -> Result<*mut u8, AllocError> {
        if admits(&self.left) {
            self.inner.allocate(size, align)
        } else {
            Err(AllocError)
        }
    }

    unsafe fn deallocate(&self, ptr: *mut u8, size: usize, align: usize) {
        self.inner.deallocate(ptr, size, align);
    }
}
