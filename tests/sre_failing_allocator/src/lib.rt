//! An allocator for tests, which passes each request on to another one and refuses a single request.
//!
//! A test runs with the first request refused, then the second, and so on, until a run makes fewer requests: then
//! [`Refusing::left`] is not 0 at its end. The allocator is owned, and a `&Refusing` is an allocator that is `Copy`.
//! The number of the refused request is in a cell, so no contract can state it; tests check it.
#![tactic(auto)]

use std::alloc::{AllocError, Allocator};
use std::cell::Cell;

/// Refuses one request, and passes all others on to an inner allocator.
pub struct Refusing<B: Allocator> {
    inner: B,
    left: Cell<u64>,
}

impl<B: Allocator> Refusing<B> {
    /// Passes requests on to `inner`, but for the one of this number. Requests count from 1, and 0 refuses none.
    pub fn new(inner: B, refused: u64) -> Refusing<B> {
        Refusing {
            inner,
            left: Cell::new(refused),
        }
    }

    /// The number of requests up to the refused one, that one included. 0 once it was refused.
    pub fn left(&self) -> u64 {
        self.left.get()
    }
}

impl<B: Allocator> Drop for Refusing<B> {
    fn drop(self) {
        let Self { inner: _, left: _ } = self;
    }
}

// Counts a request, and returns whether it is the one to refuse.
fn tick(left: &Cell<u64>) -> bool {
    let now = left.get();
    left.set(now.saturating_sub(1));
    now == 1
}

unsafe impl<B: Allocator> Allocator for Refusing<B> {
    // A block is freed by the allocator that it came from.
    ghost dealloc_token = { λ heap ty ptr. B.dealloc_token heap.inner ty ptr };

    fn allocate(&self, size: usize, align: usize) -> Result<*mut u8, AllocError> {
        if tick(&self.left) {
            return Err(AllocError);
        }
        self.inner.allocate(size, align)
    }

    unsafe fn deallocate(&self, ptr: *mut u8, size: usize, align: usize) {
        self.inner.deallocate(ptr, size, align);
    }
}
