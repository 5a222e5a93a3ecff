//! The trail: captures whose changes can be undone.
//!
//! The present captures are stored once, and each change says what its slot held before. So a choice stores its
//! captures as a length of the trail.

ghost use Rattle.std.specs.Prelude.{◌≡◌, ◌+◌, ◌<◌, ◌≤◌, [], length, take, IfOk};
ghost use Rattle.sre_board.specs.Terms.{no_marks, set_mark};
ghost use Rattle.sre_board.specs.Choices.{states, SetsMark};

use crate::marks::{Change, Marks};
use sre_growth::Refusal;
use std::alloc::Allocator;
use std::marker::Model;

/// Captures, and the changes that can be undone, oldest first.
#[derive(Drop)]
pub(crate) struct Trail<A: Allocator> {
    marks: Marks<A>,
    changes: Vec<Change, A>,
}

impl<A: Allocator> Model for Trail<A> {
    ghost use Rattle.sre_board.specs.Choices.{Trail, trail_of};

    ghost Value = { Trail };

    ghost view = { λ t. trail_of t.changes.items t.marks };
}

impl<A: Allocator + Copy> Trail<A> {
    /// No captures. It allocates nothing.
    #[inline(always)]
    pub(crate) fn new(alloc: A) -> Trail<A>
        ensures { result ≡ record { past = []; now = no_marks } }
    {
        Trail {
            marks: Marks::new(alloc),
            changes: Vec::new(alloc),
        }
    }
}

impl<A: Allocator> Trail<A> {
    /// The present captures.
    #[inline(always)]
    pub(crate) fn marks(&self) -> &Marks<A>
        ensures { result.now ≡ self.now.now }
    {
        &self.marks
    }

    /// The number of changes that can be undone.
    #[inline(always)]
    pub(crate) fn length(&self) -> usize
        ensures { result ≡ length self.now.past }
    {
        self.changes.len()
    }

    /// How many changes or capture slots there is room for, whichever is more.
    pub(crate) fn capacity(&self) -> usize {
        self.changes.capacity().max(self.marks.capacity())
    }

    /// Drops all captures for good, and keeps the memory.
    #[inline(always)]
    pub(crate) fn clear(&mut self)
        ensures { self.new ≡ record { past = []; now = no_marks } }
    {
        self.marks.clear();
        self.changes.clear();
    }

    // Sets slot `n` to `position`.
    #[inline(always)]
    fn set(&mut self, n: u32, position: usize) -> Result<(), Refusal<A>>
        ensures set { IfOk result
            (λ _. self.new ≡ record { past = states self.old; now = set_mark self.old.now n position }) }
        ensures kept { length self.old.past ≤ length self.new.past }
    {
        sre_growth::push(&mut self.changes, self.marks.change(n))?;
        self.marks.set(n, position)
    }

    /// Sets slot `n` to `position`. All states up to the first `needed` changes stay restorable. A slot that already
    /// holds the position adds no change, unless it is an end and no later change can restore the last index. So a
    /// group that matches repeatedly at one position takes no memory.
    #[inline(always)]
    pub(crate) fn set_behind(
        &mut self,
        n: u32,
        position: usize,
        needed: usize,
    ) -> Result<(), Refusal<A>>
        requires { needed ≤ length self.old.past }
        ensures set { IfOk result (λ _. SetsMark n position needed self.old self.new) }
        ensures kept { length self.old.past ≤ length self.new.past }
    {
        if self.marks.stands_at(n, position) {
            if n % 2 == 0 {
                return Ok(());
            }
            if needed < self.changes.len() {
                return self.marks.set(n, position);
            }
        }
        self.set(n, position)
    }

    /// Sets slot `n` to `position` for good, and drops all changes.
    #[inline(always)]
    pub(crate) fn set_for_good(&mut self, n: u32, position: usize) -> Result<(), Refusal<A>>
        ensures { IfOk result (λ _. self.new ≡ record { past = []; now = set_mark self.old.now n position }) }
    {
        self.changes.clear();
        self.marks.set(n, position)
    }

    // Undoes the newest change.
    #[inline(always)]
    fn undo(&mut self)
        requires { 0 < length self.old.past }
        ensures { states self.new ≡ self.old.past }
    {
        if let Some(change) = self.changes.pop() {
            self.marks.undo(change);
        }
    }

    /// Undoes changes, newest first, until `keep` are left. It allocates nothing.
    #[inline(always)]
    pub(crate) fn back(&mut self, keep: usize)
        requires { keep ≤ length self.old.past }
        ensures { states self.new ≡ take (keep + 1) (states self.old) }
    {
        'back: while self.length() > keep {
            self.undo();
        }
    }
}
