//! Failures that are memoized under live captures.
//!
//! All of them hold under one state of the live captures, of which there is a copy. They are used as long as the live
//! captures equal it. If others are met often, the memo adopts those and drops its failures. Slots after the last group
//! that the code reads make no difference. A search computes that end once.
//!
//! Nor do slots make a difference at an address where none is live. A search lists such addresses once, when it first
//! meets other captures.

ghost use Rattle.std.specs.Prelude.{[], ℕ, ◌≡◌, ◌⊎◌, ◌+◌, ◌-◌, ◌*◌, ◌^◌, ◌<◌, ◌≤◌, IfOk, None, slice_index_or, true};
ghost use Rattle.std.specs.Prelude.{false};
ghost use Rattle.sre_machine.specs.Terms.{mark_at, SreOpcode, role, Asks, AreIdle, SaysOf, is_inside, spot_at};
ghost use Rattle.sre_machine.specs.Terms.{HoldsNone, HoldsNoMore, HoldsOneMore, Tells, items_of, opcode_number, Named};
ghost use Rattle.sre_machine.specs.Terms.{asks};
ghost use Rattle.sre_machine.specs.Memos.{MarkedStays};

use crate::asked_places::{AskedPlace, list_idle, says_of};
use sre_board::{Board, Failures, Known};
use sre_chars::constants::SreOpcode;
use sre_code::Code;
use sre_growth::Refusal;
use sre_turns::Point;
use std::alloc::Allocator;
use std::convert::TryFrom;
use std::marker::Model;

// How often other captures are met before they are adopted, plus once for each word of failures that is then dropped.
const PATIENCE: usize = 64;

/// Failures, and the captures under which they are memoized.
#[derive(Drop)]
pub(crate) struct Marked<A: Allocator> {
    marks: Vec<Option<usize>, A>,
    failures: Failures<A>,
    // the slot from which on none is read; unknown while it is the greatest number
    end: usize,
    // how often other captures were met
    strange: usize,
    // the live slots of each address, and the addresses at which none is live, once they are computed
    asked: Vec<AskedPlace, A>,
    idle: Vec<bool, A>,
}

impl<A: Allocator> Model for Marked<A> {
    ghost use Rattle.sre_machine.specs.Memos.{MarkedValue, marked_of};

    ghost Value = { MarkedValue };

    ghost view = { λ m. marked_of m.marks.items m.end m.failures m.idle.items };
}

// The position of a slot; `None` if it is not set, or past the end.
#[inline(always)]
fn entry_of(raw: &[Option<usize>], entry: usize) -> Option<usize>
    ensures { result ≡ slice_index_or raw.now entry None }
{
    if entry < raw.len() { raw[entry] } else { None }
}

// Whether two lists of slots agree from an entry on, up to another.
#[inline(always)]
fn agree(kept: &[Option<usize>], raw: &[Option<usize>], from: usize, most: usize) -> bool
    ensures { result ≡ true → (k : ℕ) → from ≤ k → k < most
        → slice_index_or kept.now k None ≡ slice_index_or raw.now k None }
{
    let end = kept.len().max(raw.len()).min(most);
    let mut entry = from;
    'entry: while entry < end {
        if entry_of(kept, entry) != entry_of(raw, entry) {
            return false;
        }
        entry += 1;
    }
    true
}

// Whether an opcode reads a group.
fn is_asking(code: SreOpcode) -> bool
    ensures { result ≡ asks (role code) }
{
    matches!(
        code,
        SreOpcode::GROUPREF
            | SreOpcode::GROUPREF_EXISTS
            | SreOpcode::GROUPREF_IGNORE
            | SreOpcode::GROUPREF_LOC_IGNORE
            | SreOpcode::GROUPREF_UNI_IGNORE
    )
}

// Whether a word is the number of an opcode that reads a group.
#[tactic(auto, using(crate::proofs::Analyses::asks_as, sre_model::proofs::Opcodes::opcode_low))]
fn may_ask(word: u32) -> bool
    ensures { result ≡ false → (o : SreOpcode) → opcode_number o ≡ word → asks (role o) ≡ false }
{
    match SreOpcode::try_from(word) {
        Ok(code) => is_asking(code),
        Err(_) => false,
    }
}

// The end with one group more, if a word is such a number.
fn end_with(end: usize, word: u32, group: u32) -> usize
    ensures grows { end ≤ result }
    ensures told { (o : SreOpcode) → opcode_number o ≡ word → asks (role o) ≡ true → 2 * group + 1 < result }
{
    if may_ask(word) {
        return end.max(2 * group as usize + 2);
    }
    end
}

// The slot from which on none is named. It reads the word after each that may be such an opcode, so it may be too
// great.
fn named_end(words: &[u32]) -> usize
    ensures { (g : ℕ) → Named words.now g → 2 * g + 1 < result }
{
    let mut end = 0;
    let mut place = 1;
    'word: while place < words.len() {
        end = end_with(end, words[place - 1], words[place]);
        place += 1;
    }
    end
}

// The slot from which on none is read. The code knows it, except with a conditional, which counts as reading every
// group; then it is estimated from single words.
fn asked_end(code: &Code<'_>) -> usize
    ensures { (g : ℕ) → Asks (items_of code.now) g → 2 * g + 1 < result }
{
    let last = code.asked_to();
    if last == u32::MAX {
        return named_end(code.items());
    }
    2 * last as usize + 2
}

// The same slot, computed if it is not known yet.
fn known_end(end: usize, code: &Code<'_>) -> usize
    ensures { (result ≡ end) ⊎ ((g : ℕ) → Asks (items_of code.now) g → 2 * g + 1 < result) }
{
    if end == usize::MAX {
        return asked_end(code);
    }
    end
}

// Copies slots into a list, and reuses its memory.
fn copy<A: Allocator>(
    list: &mut Vec<Option<usize>, A>,
    raw: &[Option<usize>],
) -> Result<(), Refusal<A>>
    ensures { IfOk result (λ _. list.new.items ≡ raw.now) }
{
    list.clear();
    'mark: for &mark in raw {
        sre_growth::push(list, mark)?;
    }
    Ok(())
}

impl<A: Allocator + Copy> Marked<A> {
    /// No failures. It allocates nothing.
    pub(crate) fn new(alloc: A) -> Marked<A>
        ensures none { HoldsNone result.kept }
        ensures end { result.end ≡ 2 ^ 64 - 1 }
        ensures idle { result.idle ≡ [] }
    {
        Marked {
            marks: Vec::new(alloc),
            failures: Failures::new(alloc),
            end: usize::MAX,
            strange: 0,
            asked: Vec::new(alloc),
            idle: Vec::new(alloc),
        }
    }
}

impl<A: Allocator> Marked<A> {
    /// Drops all failures, and keeps the memory.
    #[inline(always)]
    pub(crate) fn forget(&mut self)
        ensures none { HoldsNone self.new.kept }
        ensures end { self.new.end ≡ self.old.end }
        ensures idle { self.new.idle ≡ self.old.idle }
    {
        self.failures.forget();
        self.strange = 0;
    }

    /// Begins a search: drops all failures, and the knowledge of which slots are read.
    #[inline(always)]
    pub(crate) fn begin(&mut self)
        ensures none { HoldsNone self.new.kept }
        ensures end { self.new.end ≡ 2 ^ 64 - 1 }
        ensures idle { self.new.idle ≡ [] }
    {
        self.failures.forget();
        self.strange = 0;
        self.end = usize::MAX;
        self.idle.clear();
    }

    /// Lists the addresses at which no slot is live, unless this search already did.
    ///
    /// # Errors
    ///
    /// [`Refusal`] if an allocation fails. What is listed by then is right.
    fn tell_places(&mut self, words: &[u32]) -> Result<(), Refusal<A>>
        ensures idle { (self.new.idle ≡ self.old.idle) ⊎ AreIdle words.now self.new.idle }
        ensures marks { self.new.marks ≡ self.old.marks }
        ensures end { self.new.end ≡ self.old.end }
        ensures kept { self.new.kept ≡ self.old.kept }
    {
        if !self.idle.is_empty() {
            return Ok(());
        }
        list_idle(words, &mut self.asked, &mut self.idle)
    }

    /// Whether it is listed that no slot is live at an address, nor in a further body of a loop in progress.
    #[inline(always)]
    pub(crate) fn is_idle(&self, board: &Board<A>, place: usize) -> bool
        ensures { result ≡ true → SaysOf self.now.idle board.now.frames place }
    {
        let idle = self.idle.as_slice();
        says_of(idle, place) && board.are_bodies_in(idle)
    }

    /// Whether slots from an entry on are those under which failures are memoized.
    #[inline(always)]
    pub(crate) fn agrees(&self, raw: &[Option<usize>], from: usize) -> bool
        ensures { result ≡ true → (k : ℕ) → from ≤ k → k < self.now.end
            → mark_at self.now.marks k ≡ slice_index_or raw.now k None }
    {
        agree(self.marks.as_slice(), raw, from, self.end)
    }

    /// Notes that other captures were met, and returns whether that was often enough to adopt them.
    #[inline(always)]
    fn is_worn(&mut self) -> bool
        ensures { self.new ≡ self.old }
    {
        self.strange = self.strange.saturating_add(1);
        self.strange > self.failures.words().saturating_add(PATIENCE)
    }

    /// Adopts captures, with no failure under them.
    ///
    /// # Errors
    ///
    /// [`Refusal`] if an allocation fails. No failure is memoized then, either.
    fn adopt(&mut self, code: &Code<'_>, raw: &[Option<usize>]) -> Result<(), Refusal<A>>
        ensures none { HoldsNone self.new.kept }
        ensures end { (self.new.end ≡ self.old.end)
            ⊎ ((g : ℕ) → Asks (items_of code.now) g → 2 * g + 1 < self.new.end) }
        ensures idle { self.new.idle ≡ self.old.idle }
        ensures marks { IfOk result (λ _. self.new.marks.raw ≡ raw.now) }
    {
        self.failures.forget();
        self.strange = 0;
        self.end = known_end(self.end, code);
        copy(&mut self.marks, raw)
    }

    /// Notes that other captures were met, and adopts them once that happened often enough. The first time it lists the
    /// addresses at which no slot is live.
    ///
    /// # Errors
    ///
    /// [`Refusal`] if an allocation fails. What is memoized and listed by then is right.
    pub(crate) fn meet(&mut self, code: &Code<'_>, raw: &[Option<usize>]) -> Result<(), Refusal<A>>
        ensures stays { MarkedStays self.old self.new ⊎ HoldsNone self.new.kept }
        ensures end { (self.new.end ≡ self.old.end)
            ⊎ ((g : ℕ) → Asks (items_of code.now) g → 2 * g + 1 < self.new.end) }
        ensures idle { (self.new.idle ≡ self.old.idle) ⊎ AreIdle (items_of code.now) self.new.idle }
    {
        self.tell_places(code.items())?;
        if !self.is_worn() {
            return Ok(());
        }
        self.adopt(code, raw)
    }

    /// Makes room for the failures of a point, if there is none.
    ///
    /// # Errors
    ///
    /// [`Refusal`] if an allocation fails. All failures stay memoized.
    #[inline(always)]
    pub(crate) fn prepare(
        &mut self,
        words: &[u32],
        board: &Board<A>,
        point: Point,
        first: usize,
        end: usize,
    ) -> Result<(), Refusal<A>>
        ensures no_more { HoldsNoMore self.old.kept self.new.kept }
        ensures marks { self.new.marks ≡ self.old.marks }
        ensures end { self.new.end ≡ self.old.end }
        ensures idle { self.new.idle ≡ self.old.idle }
    {
        self.failures.prepare(words, board, point, first, end)
    }

    /// What is known of a point at a position, under the present stack.
    #[inline(always)]
    pub(crate) fn known(
        &self,
        words: &[u32],
        board: &Board<A>,
        point: Point,
        position: usize,
    ) -> Known
        ensures { Tells result self.now.kept words.now (is_inside board.now.choices)
            (spot_at point board.now.frames position board.now.marks) }
    {
        self.failures.known(words, board, point, position)
    }

    /// Memoizes that a point fails at a position, under the present stack.
    #[inline(always)]
    pub(crate) fn keep(&mut self, words: &[u32], board: &Board<A>, point: Point, position: usize)
        ensures more { HoldsOneMore words.now (is_inside board.now.choices)
            (spot_at point board.now.frames position board.now.marks) self.old.kept self.new.kept }
        ensures marks { self.new.marks ≡ self.old.marks }
        ensures end { self.new.end ≡ self.old.end }
        ensures idle { self.new.idle ≡ self.old.idle }
    {
        self.failures.keep(words, board, point, position);
    }
}
