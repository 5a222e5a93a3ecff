//! Failures that are memoized under live captures.

ghost use Rattle.std.specs.Prelude.{ℕ, ◌≡◌, ◌⊎◌, ◌+◌, ◌*◌, ◌<◌, true};
ghost use Rattle.sre_machine.specs.Terms.{is_inside, Asks, spot_at, AreIdle, items_of, Refused};
ghost use Rattle.sre_machine.specs.Terms.{HoldsNone, HoldsNoMore, HoldsOneMore};
ghost use Rattle.sre_machine.specs.Memos.{EndsStay, MarkedStays};

use crate::marked::Marked;
use crate::memo::Memo;
use sre_board::Board;
use sre_code::Code;
use sre_turns::Point;
use std::alloc::Allocator;

impl<A: Allocator> Memo<A> {
    // The failures under live captures.
    #[inline(always)]
    pub(crate) fn marked(&self) -> &Marked<A>
        ensures { result.now ≡ self.now.marked }
    {
        &self.marked
    }

    // Notes that other live captures were met, and adopts them once that happened often enough. The first time it
    // computes the addresses at which no capture is live.
    #[inline(never)]
    pub(crate) fn meets(&mut self, code: &Code<'_>, raw: &[Option<usize>])
        ensures marked { MarkedStays self.old.marked self.new.marked ⊎ HoldsNone self.new.marked.kept }
        ensures idle { (self.new.marked.idle ≡ self.old.marked.idle)
            ⊎ AreIdle (items_of code.now) self.new.marked.idle }
        ensures end { (self.new.marked.end ≡ self.old.marked.end)
            ⊎ ((g : ℕ) → Asks (items_of code.now) g → 2 * g + 1 < self.new.marked.end) }
        ensures kept { self.new.kept ≡ self.old.kept }
        ensures ends { EndsStay self.old self.new }
        ensures still { self.old.is_open ≡ true → self.new.is_open ≡ true ⊎ Refused A }
    {
        self.is_used = true;
        if let Err(refusal) = self.marked.meet(code, raw) {
            self.close(refusal);
        }
    }

    // Makes room for the failures of a point under live captures, if there is none.
    #[inline(always)]
    pub(crate) fn prepare_marked(
        &mut self,
        words: &[u32],
        board: &Board<A>,
        point: Point,
        end: usize,
    )
        ensures no_more { HoldsNoMore self.old.marked.kept self.new.marked.kept }
        ensures kept { self.new.kept ≡ self.old.kept }
        ensures marks { self.new.marked.marks ≡ self.old.marked.marks }
        ensures end { self.new.marked.end ≡ self.old.marked.end }
        ensures idle { self.new.marked.idle ≡ self.old.marked.idle }
        ensures ends { EndsStay self.old self.new }
        ensures still { self.old.is_open ≡ true → self.new.is_open ≡ true ⊎ Refused A }
    {
        self.is_used = true;
        if let Err(refusal) = self.marked.prepare(words, board, point, self.first, end) {
            self.close(refusal);
        }
    }

    // Memoizes that a point fails at a position under live captures and the present stack.
    #[inline(always)]
    pub(crate) fn keep_marked(
        &mut self,
        words: &[u32],
        board: &Board<A>,
        point: Point,
        position: usize,
    )
        ensures more { HoldsOneMore words.now (is_inside board.now.choices)
            (spot_at point board.now.frames position board.now.marks) self.old.marked.kept
            self.new.marked.kept }
        ensures marks { self.new.marked.marks ≡ self.old.marked.marks }
        ensures end { self.new.marked.end ≡ self.old.marked.end }
        ensures idle { self.new.marked.idle ≡ self.old.marked.idle }
        ensures same { self.new ≡ record self.old { marked = self.new.marked } }
    {
        self.note_failure(board);
        self.is_used = true;
        self.marked.keep(words, board, point, position);
    }
}
