//! Memory requests at intervals, by which an allocator can stop a run.
//!
//! A run may go on for hours without a request of its own. So it makes a small one once for many steps, and frees the
//! memory at once: an allocator that refuses it ends the run.

use sre_growth::{Refusal, push};
use std::alloc::Allocator;

// How many steps lie between two requests. 64 characters of a long stretch count as one step.
const BETWEEN: usize = 4096;

/// When the next request is due.
#[derive(Drop)]
pub(crate) struct Requests<A: Allocator> {
    steps_left: usize,
    // what is requested; empty but for the moment of a request
    requested: Vec<u8, A>,
}

impl<A: Allocator> Requests<A> {
    /// The first request is due after as many steps as lie between two. It allocates nothing.
    #[inline(always)]
    pub(crate) fn new(alloc: A) -> Requests<A> {
        Requests {
            steps_left: BETWEEN,
            requested: Vec::new(alloc),
        }
    }

    /// Notes a stretch of so many characters.
    #[inline(always)]
    pub(crate) fn pass(&mut self, characters: usize) {
        self.steps_left = self.steps_left.saturating_sub(characters / 64);
    }

    /// Counts a step, and makes the request if it is due.
    #[inline(always)]
    pub(crate) fn step(&mut self) -> Result<(), Refusal<A>> {
        if self.steps_left != 0 {
            self.steps_left -= 1;
            return Ok(());
        }
        self.request()
    }

    #[inline(never)]
    fn request(&mut self) -> Result<(), Refusal<A>> {
        self.steps_left = BETWEEN;
        push(&mut self.requested, 0)?;
        self.requested.clear();
        self.requested.shrink_to_fit();
        Ok(())
    }
}
