//! Memoized failures: configurations that failed, so that the machine backtracks at once from an equivalent one.
//!
//! An address that is prepared has a row of bits. It has one for each position, inside and outside of atomic scopes,
//! and each slot. A slot is a counter state of the loops in progress, as one number. For each loop it has the count, up
//! to where a further body makes no difference, and whether the last body began at that position.
//!
//! A row is for the loops that were in progress when it was made. A configuration under other loops has no bit. With
//! many slots a row may be a part, and a configuration past its end has no bit. Nothing is assumed of the bytecode: if
//! a word is missing, there is no bit either.

ghost use Rattle.std.specs.Prelude.{◌≡◌, ◌≢◌, ℕ, ◌+◌, ◌-◌, ◌*◌, ◌^◌, ◌<◌, ◌≤◌, true, false, [], ◌∷◌, ◌++◌, length};
ghost use Rattle.std.specs.Prelude.{if◌then◌else◌, is_ok, MatchOption, Some, IfOk, slice_get, slice_index_or, cond};
ghost use Rattle.std.specs.Prelude.{◌/◌, ◌%◌, IfSome, replicate};
ghost use Rattle.sre_board.specs.Terms.{Marks, spot_at, repeats, slots, place_under};
ghost use Rattle.sre_turns.specs.Fruit.{is_inside};
ghost use Rattle.sre_board.specs.Ends.{NumberOf};
ghost use Rattle.sre_board.specs.Failures.{Entry, HoldsNone, HoldsNoMore, HoldsOneMore, HasBit, HasNoRow, HasSlots};
ghost use Rattle.sre_board.specs.Failures.{HoldsStill, BitsStay, BitsKept, Grows, Sets, Tells, Roomy, OneRowMore, Laid};
ghost use Rattle.sre_board.specs.Failures.{ones, most_words, Capacity, HasRow, NewRow, kept_of};

use crate::board::Board;
use crate::chains::Chains;
use crate::places::{is_again, place_under};
use crate::slots::{add_shape, slot_of};
use sre_growth::Refusal;
use sre_turns::Point;
use std::alloc::Allocator;
use std::marker::Model;

/// The bits of an address, either of an instruction or, with `again`, of a possessive loop's first operand. The row has
/// `positions` positions from `first` on, in `length` words from `base` on. The addresses of its loops are the shapes
/// from `shape` to `end`, innermost first.
#[derive(Clone, Copy)]
pub(crate) struct Row {
    pub place: usize,
    pub first: usize,
    pub positions: usize,
    pub shape: usize,
    pub end: usize,
    pub base: usize,
    pub length: usize,
    pub again: bool,
}

/// What is known of a configuration: it failed, its bit is not set yet, or it has no bit.
#[derive(Clone, Copy)]
pub enum Known {
    Failed,
    Open,
    NoBit,
}

/// The memoized failures.
#[derive(Drop)]
pub struct Failures<A: Allocator> {
    // by address: the number of its row, or any number if it has none
    numbers: Vec<u32, A>,
    rows: Vec<Row, A>,
    shapes: Vec<usize, A>,
    bits: Vec<u64, A>,
}

impl<A: Allocator> Model for Failures<A> {
    ghost use Rattle.sre_board.specs.Failures.{Kept, kept_of, Laid, Numbered};

    ghost Value = { Kept };

    ghost view = { λ f. kept_of f.rows.items f.shapes.items f.bits.items };

    ghost invariant = { λ f.
        Laid (kept_of f.rows.items f.shapes.items f.bits.items) × Numbered f.rows.items f.numbers.items };
}

// A row has fewer positions, so that their bits can be counted.
const MOST_POSITIONS: usize = 34359738368;

// A row with more slots is a part, if all would take more words than a part may have. It has the slots of least counts.
const FEW_SLOTS: usize = 4096;

// The number of words of such a part.
const MOST_WORDS_IN_PART: usize = 16777216;

// The most words of a row: 2^36 bits.
const MOST_WORDS_IN_ROW: usize = 1073741824;

// The most words of all rows, as many as `resize` allows.
const MOST_WORDS: usize = 4294967296;

// Sets the number of an address's row, in a list for so many addresses.
#[tactic(auto, using(std::proofs::lemmas::Grind::elements))]
#[inline(always)]
fn set_number<A: Allocator>(
    numbers: &mut Vec<u32, A>,
    places: usize,
    place: usize,
    number: u32,
) -> Result<(), Refusal<A>>
    requires { (place < places) × (places ≤ 2 ^ 32) }
    ensures set { IfOk result (λ _. slice_get numbers.new.items place ≡ Some number) }
    ensures others { (i n : ℕ) → i ≢ place → slice_get numbers.old.items i ≡ Some n
        → slice_get numbers.new.items i ≡ Some n }
{
    if place >= numbers.len() {
        sre_growth::resize(numbers, places, 0)?;
    }
    numbers[place] = number;
    Ok(())
}

// Appends a row, and words for its bits behind those there are. On an error nothing is appended.
#[inline(always)]
fn append<A: Allocator>(
    rows: &mut Vec<Row, A>,
    bits: &mut Vec<u64, A>,
    row: Row,
) -> Result<(), Refusal<A>>
    requires { (row.base ≡ length bits.old.items) × (row.base + row.length ≤ 2 ^ 32) }
    ensures rows { rows.new.items
        ≡ (if is_ok result then rows.old.items ++ row ∷ [] else rows.old.items) }
    ensures bits { bits.new.items
        ≡ (if is_ok result then bits.old.items ++ replicate row.length 0 else bits.old.items) }
{
    sre_growth::resize(bits, row.base + row.length, 0)?;
    if let Err(refusal) = sre_growth::push(rows, row) {
        bits.truncate(row.base);
        return Err(refusal);
    }
    Ok(())
}

// The words of a row that would have `length` of them: with many slots it is a part.
#[inline(always)]
fn in_part(slots: usize, length: usize) -> usize
    ensures few { result ≤ length }
    ensures whole { (4096 < slots → length ≤ 2 ^ 24) → result ≡ length }
{
    if slots > FEW_SLOTS {
        return length.min(MOST_WORDS_IN_PART);
    }
    length
}

// The number of positions from `first` to `end`, and of the words that their bits take after those taken; 0 if they are
// too many.
#[inline(always)]
fn room(slots: usize, first: usize, end: usize, taken: usize) -> (usize, usize)
    requires { (slots ≤ 2 ^ 24) × (taken ≤ 2 ^ 32) }
    ensures all { taken + result.1 ≤ 2 ^ 32 }
    ensures few { result.1 ≤ most_words slots first end }
    ensures enough { 1 ≤ slots → first ≤ end → most_words slots first end ≤ 2 ^ 30
        → taken + most_words slots first end ≤ 2 ^ 32 → (4096 < slots → most_words slots first end ≤ 2 ^ 24)
        → (result.0 ≡ end + 1 - first) × (slots * 2 * result.0 ≤ 64 * result.1) }
{
    if slots == 0 || first > end || end - first >= MOST_POSITIONS {
        return (0, 0);
    }
    let positions = end - first + 1;
    let length = in_part(slots, (slots * 2).saturating_mul(positions) / 64 + 1);
    if length > MOST_WORDS_IN_ROW.min(MOST_WORDS - taken) {
        return (0, 0);
    }
    (positions, length)
}

// The index of a bit in its row, by its slot, its side and its position, if it is within the row.
#[inline(always)]
fn index_in(row: Row, slot: usize, inside: bool, position: usize) -> Option<usize>
    requires { (slot < 2 ^ 24) × (row.first ≤ position) × (row.length ≤ 2 ^ 32) }
    ensures { let index = (slot * 2 + cond inside 1 0) * row.positions + (position - row.first) in
        MatchOption result (row.length ≤ index / 64) (λ i. (i ≡ index) × (i / 64 < row.length)) }
{
    let index = (slot * 2 + usize::from(inside))
        .checked_mul(row.positions)?
        .checked_add(position - row.first)?;
    if index / 64 >= row.length {
        return None;
    }
    Some(index)
}

impl<A: Allocator + Copy> Failures<A> {
    /// No failures. It allocates nothing.
    #[inline(always)]
    pub fn new(alloc: A) -> Failures<A>
        ensures none { HoldsNone result }
        ensures empty { result ≡ kept_of [] [] [] }
    {
        Failures {
            numbers: Vec::new(alloc),
            rows: Vec::new(alloc),
            shapes: Vec::new(alloc),
            bits: Vec::new(alloc),
        }
    }
}

impl<A: Allocator> Failures<A> {
    /// The number of words of bits.
    #[inline(always)]
    pub fn words(&self) -> usize
        ensures { result ≡ length self.now.bits }
    {
        self.bits.len()
    }

    /// Drops all failures, and keeps the memory.
    #[inline(always)]
    pub fn forget(&mut self)
        ensures none { HoldsNone self.new }
        ensures empty { self.new ≡ kept_of [] [] [] }
    {
        self.rows.clear();
        self.shapes.clear();
        self.bits.clear();
    }

    /// Makes a row for the address of a point, under the loops of a stack and for the positions from `first` to `end`,
    /// unless it has one. A row that would be too large is left out.
    ///
    /// # Errors
    ///
    /// [`Refusal`] if an allocation fails. All failures stay memoized.
    #[inline(always)]
    pub fn prepare(
        &mut self,
        words: &[u32],
        board: &Board<A>,
        point: Point,
        first: usize,
        end: usize,
    ) -> Result<(), Refusal<A>>
        ensures no_more { HoldsNoMore self.old self.new }
        ensures still { HoldsStill self.old self.new }
        ensures stay { BitsStay self.old self.new }
        ensures ones { ones self.new ≡ ones self.old }
        ensures laid { Laid self.new }
        ensures bits { BitsKept self.old self.new }
        ensures roomy { (n : ℕ) → HasSlots words.now (repeats board.now.frames) n
            → Roomy words.now n first end self.old → Roomy words.now n first end self.new }
        ensures rows { NewRow words.now first end point (repeats board.now.frames) self.old self.new }
        ensures there { IfOk result (λ _. (n : ℕ) → place_under point (repeats board.now.frames) ≡ Some n
            → Capacity words.now first end n (repeats board.now.frames) self.old → HasRow self.new n) }
    {
        let _rows = self.rows.len(); // which are laid out
        let (chains, innermost) = board.loops();
        let Some(place) = place_under(words, point, chains, innermost) else {
            return Ok(());
        };
        if self.row(place).is_some() {
            return Ok(());
        }
        self.add_row(words, board, point, place, first, end)
    }

    // Makes a row for the address of a point that has none.
    #[inline(never)]
    fn add_row(
        &mut self,
        words: &[u32],
        board: &Board<A>,
        point: Point,
        place: usize,
        first: usize,
        end: usize,
    ) -> Result<(), Refusal<A>>
        requires none { HasNoRow self.old place }
        requires place { place_under point (repeats board.now.frames) ≡ Some place }
        ensures grows { Grows self.old self.new }
        ensures laid { Laid self.new }
        ensures roomy { (n : ℕ) → HasSlots words.now (repeats board.now.frames) n
            → Roomy words.now n first end self.old → Roomy words.now n first end self.new }
        ensures rows { NewRow words.now first end point (repeats board.now.frames) self.old self.new }
        ensures there { IfOk result (λ _. Capacity words.now first end place (repeats board.now.frames) self.old
            → HasRow self.new place) }
    {
        let number = self.rows.len();
        let base = self.bits.len();
        if place >= words.len()
            || words.len() > MOST_WORDS
            || number >= words.len()
            || base > MOST_WORDS
        {
            return Ok(());
        }
        let shape = self.shapes.len();
        let (chains, innermost) = board.loops();
        let slots = add_shape(&mut self.shapes, words, chains, innermost)?;
        let (positions, length) = room(slots, first, end, base);
        let row = Row {
            place,
            first,
            positions,
            shape,
            end: self.shapes.len(),
            base,
            length,
            again: is_again(point),
        };
        self.push_row(row, words.len())
    }

    // Appends the row of an address that has none, among `places` addresses, with its own bits.
    #[inline(always)]
    fn push_row(&mut self, row: Row, places: usize) -> Result<(), Refusal<A>>
        requires base { row.base ≡ length self.old.bits }
        requires room { row.base + row.length ≤ 2 ^ 32 }
        requires end { row.end ≤ length self.old.shapes }
        requires place { (row.place < places) × (length self.old.rows < places) × (places ≤ 2 ^ 32) }
        requires none { HasNoRow self.old row.place }
        ensures grows { Grows self.old self.new }
        ensures laid { Laid self.new }
        ensures size { OneRowMore row.length self.old self.new }
        ensures rows { self.new.rows ≡ (if is_ok result then self.old.rows ++ row ∷ [] else self.old.rows) }
        ensures shapes { self.new.shapes ≡ self.old.shapes }
    {
        let number = self.rows.len();
        set_number(&mut self.numbers, places, row.place, number as u32)?;
        append(&mut self.rows, &mut self.bits, row)
    }

    // The row of an address, if it has one.
    #[inline(always)]
    fn row(&self, place: usize) -> Option<Row>
        ensures laid { Laid self.now }
        ensures found { MatchOption result (HasNoRow self.now place)
            (λ r. (r.place ≡ place) × (n : ℕ) × (slice_get self.now.rows n ≡ Some r)) }
    {
        if place >= self.numbers.len() {
            return None;
        }
        let number = self.numbers[place] as usize;
        if number >= self.rows.len() {
            return None;
        }
        let row = self.rows[number];
        if row.place != place {
            return None;
        }
        Some(row)
    }

    // The number, among all bits, of the bit of a configuration, if it has one, under the loops of a chain, inside or
    // outside of an atomic scope.
    #[inline(always)]
    pub(crate) fn bit_under(
        &self,
        words: &[u32],
        chains: &Chains<A>,
        innermost: usize,
        inside: bool,
        point: Point,
        position: usize,
    ) -> Option<usize>
        requires { innermost < length chains.now }
        ensures number { (m : Marks)
            → let spot = spot_at point (slice_index_or chains.now innermost []) position m in
            MatchOption result (HasBit self.now words.now inside spot → ⊥)
            (λ n. NumberOf self.now words.now inside spot n) }
        ensures bit { (m : Marks)
            → let spot = spot_at point (slice_index_or chains.now innermost []) position m in
            IfSome result (λ n. (n / 64 < length self.now.bits)
            × Entry self.now words.now inside spot (n / 64) (n % 64)) }
        ensures laid { Laid self.now }
    {
        let _words = self.bits.len(); // in which the rows lie
        let place = place_under(words, point, chains, innermost)?;
        let row = self.row(place)?;
        if row.again != is_again(point) {
            return None;
        }
        if position < row.first || position - row.first >= row.positions {
            return None;
        }
        let slot = slot_of(words, &self.shapes, row, chains, innermost, position)?;
        let index = index_in(row, slot, inside, position)?;
        Some(row.base * 64 + index)
    }

    // The number of the bit of a configuration under the loops and the scopes of a stack.
    #[inline(always)]
    fn bit(&self, words: &[u32], board: &Board<A>, point: Point, position: usize) -> Option<usize>
        ensures number { let spot = spot_at point board.now.frames position board.now.marks in
            MatchOption result (HasBit self.now words.now (is_inside board.now.choices) spot → ⊥)
            (λ n. NumberOf self.now words.now (is_inside board.now.choices) spot n) }
        ensures bit { let spot = spot_at point board.now.frames position board.now.marks in
            IfSome result (λ n. (n / 64 < length self.now.bits)
            × Entry self.now words.now (is_inside board.now.choices) spot (n / 64) (n % 64)) }
        ensures laid { Laid self.now }
    {
        let (chains, innermost) = board.loops();
        self.bit_under(words, chains, innermost, board.is_inside(), point, position)
    }

    /// The number, among all bits, of the bit of the configuration at a point and a position, under the loops and the
    /// scopes of a stack. `None` if it has no bit.
    #[inline(never)]
    pub fn number(
        &self,
        words: &[u32],
        board: &Board<A>,
        point: Point,
        position: usize,
    ) -> Option<usize>
        ensures number { let spot = spot_at point board.now.frames position board.now.marks in
            MatchOption result (HasBit self.now words.now (is_inside board.now.choices) spot → ⊥)
            (λ n. NumberOf self.now words.now (is_inside board.now.choices) spot n) }
        ensures laid { Laid self.now }
    {
        self.bit(words, board, point, position)
    }

    /// What is known of the configuration at a point and a position, under the loops and the scopes of a stack.
    #[inline(always)]
    pub fn known(&self, words: &[u32], board: &Board<A>, point: Point, position: usize) -> Known
        ensures told { Tells result self.now words.now (is_inside board.now.choices)
            (spot_at point board.now.frames position board.now.marks) }
        ensures laid { Laid self.now }
    {
        match self.bit(words, board, point, position) {
            None => Known::NoBit,
            Some(bit) => {
                if (self.bits[bit / 64] >> (bit % 64)) & 1 == 1 {
                    Known::Failed
                } else {
                    Known::Open
                }
            }
        }
    }

    /// Memoizes that a configuration failed, if it has a bit. Returns whether it has one.
    #[inline(always)]
    pub fn keep(&mut self, words: &[u32], board: &Board<A>, point: Point, position: usize) -> bool
        ensures more { HoldsOneMore words.now (is_inside board.now.choices)
            (spot_at point board.now.frames position board.now.marks) self.old self.new }
        ensures still { HoldsStill self.old self.new }
        ensures stay { BitsStay self.old self.new }
        ensures rows { self.new.rows ≡ self.old.rows }
        ensures shapes { self.new.shapes ≡ self.old.shapes }
        ensures words { length self.new.bits ≡ length self.old.bits }
        ensures laid { Laid self.new }
        ensures bits { BitsKept self.old self.new }
        ensures set { result ≡ true → Sets words.now (is_inside board.now.choices)
            (spot_at point board.now.frames position board.now.marks) self.old self.new }
        ensures none { result ≡ false → self.new ≡ self.old }
        ensures no_bit { result ≡ false → HasBit self.old words.now (is_inside board.now.choices)
            (spot_at point board.now.frames position board.now.marks) → ⊥ }
    {
        match self.bit(words, board, point, position) {
            None => false,
            Some(bit) => {
                self.bits[bit / 64] |= 1 << (bit % 64);
                true
            }
        }
    }
}
