//! Lists of numbers as texts: each number is a character, also a surrogate, and a cursor's offset is its position.

ghost use Rattle.std.specs.Prelude.{◌≡◌, ◌↔◌, ◌+◌, ◌<◌, ◌≤◌, IsTrue, true, false, length, IfSome, MatchOption};
ghost use Rattle.std.proofs.Props.{props};
ghost use Rattle.sre_chars.specs.Texts.{StandsInBytes};
ghost use Rattle.sre_c.specs.Given.{Lacks, IsFirstFrom};

use sre_engine::{StrDrive, StringCursor};

/// Code points of 32 bits.
#[derive(Clone, Copy)]
pub struct Points<'a> {
    pub points: &'a [u32],
}

/// Code units of 16 bits.
#[derive(Clone, Copy)]
pub struct Units<'a> {
    pub units: &'a [u16],
}

// The cursor at a position.
#[inline(always)]
fn cursor_at(position: usize) -> StringCursor
    ensures position { result.position ≡ position }
    ensures offset { result.offset ≡ position }
{
    StringCursor::new(position, position)
}

// A number that is a character.
trait Number: Copy {
    // Whether two numbers are the same.
    fn is(self, other: Self) -> bool
        ensures { IsTrue result ↔ self ≡ other };
}

impl Number for u16 {
    #[inline(always)]
    fn is(self, other: u16) -> bool {
        self == other
    }
}

impl Number for u32 {
    #[inline(always)]
    fn is(self, other: u32) -> bool {
        self == other
    }
}

// The numbers of a long block, and of a short one. A character is sought in long blocks, then in short ones, then
// number by number.
const LONG: usize = 32;

const SHORT: usize = 8;

// Whether a character is in the block from a place on. It compares all numbers, so that vectors can.
#[inline(always)]
fn is_in_block<T: Number, const N: usize>(numbers: &[T], from: usize, character: T) -> bool
    requires { from + N ≤ length numbers.now }
    ensures { result ≡ false → Lacks numbers.now character from (from + N) }
{
    let mut is_there = false;
    for i in 0..N {
        is_there = is_there | numbers[from + i].is(character);
    }
    is_there
}

// The place after whole blocks that lack a character, up to one that has it or to fewer numbers than a block.
#[inline(always)]
fn pass_blocks<T: Number, const N: usize>(numbers: &[T], from: usize, character: T) -> usize
    requires some { 0 < N }
    requires in_bounds { from ≤ length numbers.now }
    ensures not_before { from ≤ result }
    ensures in_bounds { result ≤ length numbers.now }
    ensures none { Lacks numbers.now character from result }
{
    let mut at = from;
    'blocks: while N <= numbers.len() - at && !is_in_block::<T, N>(numbers, at, character) {
        at += N;
    }
    at
}

// The first place of a character.
#[inline(always)]
fn first_from<T: Number>(numbers: &[T], from: usize, character: T) -> Option<usize>
    requires { from ≤ length numbers.now }
    ensures { IsFirstFrom numbers.now character from result }
{
    let behind_long = pass_blocks::<T, LONG>(numbers, from, character);
    let mut at = pass_blocks::<T, SHORT>(numbers, behind_long, character);
    while at < numbers.len() {
        if numbers[at].is(character) {
            return Some(at);
        }
        at += 1;
    }
    None
}

// The first place of a character among units.
#[inline(always)]
fn first_unit(units: &[u16], from: usize, character: u32) -> Option<usize>
    requires { from ≤ length units.now }
    ensures { IsFirstFrom units.now character from result }
{
    if 0x10000 <= character {
        return None;
    }
    first_from(units, from, character as u16)
}

// Moves behind the first place of a character, or to `end` if there is none.
#[inline(always)]
fn pass(cursor: &mut StringCursor, first: Option<usize>, end: usize) -> bool
    requires { IfSome first (λ at. at < end) }
    ensures position { MatchOption first ((result ≡ false) × (cursor.new.position ≡ end))
        (λ at. (result ≡ true) × (cursor.new.position ≡ at + 1)) }
    ensures offset { cursor.new.offset ≡ cursor.new.position }
{
    match first {
        Some(at) => {
            *cursor = cursor_at(at + 1);
            true
        }
        None => {
            *cursor = cursor_at(end);
            false
        }
    }
}

impl<'a> StrDrive for Points<'a> {
    ghost text = { λ s. s.points.now };

    ghost stands = { λ s c p. StandsInBytes s.points.now c p };

    ghost stands_at = { λ s c p h. (h.0, h.2) };

    ghost stands_once = { λ s c p. Prim.hlevel props };

    #[inline(always)]
    fn count(&self) -> usize {
        self.points.len()
    }

    #[inline(always)]
    fn create_cursor(&self, n: usize) -> StringCursor {
        cursor_at(n)
    }

    #[inline(always)]
    fn adjust_cursor(&self, cursor: &mut StringCursor, n: usize) {
        *cursor = cursor_at(n);
    }

    #[inline(always)]
    fn advance(&self, cursor: &mut StringCursor) -> u32 {
        let at = cursor.position();
        *cursor = cursor_at(at + 1);
        self.points[at]
    }

    #[inline(always)]
    fn peek(&self, cursor: &StringCursor) -> u32 {
        self.points[cursor.position()]
    }

    #[inline(always)]
    fn skip(&self, cursor: &mut StringCursor, n: usize) {
        *cursor = cursor_at(cursor.position() + n);
    }

    #[inline(always)]
    fn back_advance(&self, cursor: &mut StringCursor) -> u32 {
        let at = cursor.position() - 1;
        *cursor = cursor_at(at);
        self.points[at]
    }

    #[inline(always)]
    fn back_peek(&self, cursor: &StringCursor) -> u32 {
        self.points[cursor.position() - 1]
    }

    #[inline(always)]
    fn back_skip(&self, cursor: &mut StringCursor, n: usize) {
        *cursor = cursor_at(cursor.position() - n);
    }

    #[inline]
    fn seek(&self, cursor: &mut StringCursor, character: u32, end: usize) -> bool {
        let first = first_from(&self.points[..end], cursor.position(), character);
        pass(cursor, first, end)
    }
}

impl<'a> StrDrive for Units<'a> {
    ghost text = { λ s. s.units.now };

    ghost stands = { λ s c p. StandsInBytes s.units.now c p };

    ghost stands_at = { λ s c p h. (h.0, h.2) };

    ghost stands_once = { λ s c p. Prim.hlevel props };

    #[inline(always)]
    fn count(&self) -> usize {
        self.units.len()
    }

    #[inline(always)]
    fn create_cursor(&self, n: usize) -> StringCursor {
        cursor_at(n)
    }

    #[inline(always)]
    fn adjust_cursor(&self, cursor: &mut StringCursor, n: usize) {
        *cursor = cursor_at(n);
    }

    #[inline(always)]
    fn advance(&self, cursor: &mut StringCursor) -> u32 {
        let at = cursor.position();
        *cursor = cursor_at(at + 1);
        u32::from(self.units[at])
    }

    #[inline(always)]
    fn peek(&self, cursor: &StringCursor) -> u32 {
        u32::from(self.units[cursor.position()])
    }

    #[inline(always)]
    fn skip(&self, cursor: &mut StringCursor, n: usize) {
        *cursor = cursor_at(cursor.position() + n);
    }

    #[inline(always)]
    fn back_advance(&self, cursor: &mut StringCursor) -> u32 {
        let at = cursor.position() - 1;
        *cursor = cursor_at(at);
        u32::from(self.units[at])
    }

    #[inline(always)]
    fn back_peek(&self, cursor: &StringCursor) -> u32 {
        u32::from(self.units[cursor.position() - 1])
    }

    #[inline(always)]
    fn back_skip(&self, cursor: &mut StringCursor, n: usize) {
        *cursor = cursor_at(cursor.position() - n);
    }

    #[inline]
    fn seek(&self, cursor: &mut StringCursor, character: u32, end: usize) -> bool {
        let first = first_unit(&self.units[..end], cursor.position(), character);
        pass(cursor, first, end)
    }
}
