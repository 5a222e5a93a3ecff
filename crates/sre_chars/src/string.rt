//! Texts, and cursors in them.
//!
//! The engine reads a text only around a cursor. Any type with the laws of `StrDrive` can be matched, such as `&[u8]`
//! and `&str`. A position counts characters, and an offset counts bytes.

ghost use Rattle.std.specs.Prelude.{◌≡◌, ◌≢◌, ◌+◌, ◌-◌, ◌^◌, ◌<◌, ◌≤◌, ℕ, List, length, slice_index, true, false};
ghost use Rattle.sre_chars.specs.declared.string.StringCursor.{StringCursor};
ghost use Rattle.sre_chars.specs.Texts.{Sought};

pub use crate::category::category;
pub use crate::table::{
    LentTable, UniError, UniPair, UniTable, lower_ascii, lower_unicode, upper_ascii, upper_unicode,
};
pub use crate::text::cursor_at;
use std::marker::Model;

/// A position in a text: the number of characters before it, and the number of bytes.
///
/// A cursor does not know its text. `StrDrive` says at which position of which text it is.
#[derive(Clone, Copy, PartialEq, Eq, Debug)]
pub struct StringCursor {
    position: usize,
    offset: usize,
}

impl Model for StringCursor {
    ghost use Rattle.sre_chars.specs.Texts.{Cursor};

    ghost Value = { Cursor };

    ghost view = { λ c. record { position = c.position; offset = c.offset } };

    ghost inverse = { λ c. record { position = c.position; offset = c.offset } };
}

impl Default for StringCursor {
    ghost is_default = { λ cursor. (cursor.position ≡ 0) × (cursor.offset ≡ 0) };

    /// The cursor at position 0 and offset 0.
    fn default() -> StringCursor {
        StringCursor {
            position: 0,
            offset: 0,
        }
    }
}

impl StringCursor {
    /// The cursor after `position` characters, which take `offset` bytes. It is not compared with any text.
    #[inline(always)]
    pub fn new(position: usize, offset: usize) -> StringCursor
        ensures position { result.position ≡ position }
        ensures offset { result.offset ≡ offset }
    {
        StringCursor { position, offset }
    }

    /// The number of characters before the cursor.
    #[inline(always)]
    pub fn position(&self) -> usize
        ensures { result ≡ self.now.position }
    {
        self.position
    }

    /// The number of bytes before the cursor.
    #[inline(always)]
    pub fn offset(&self) -> usize
        ensures { result ≡ self.now.offset }
    {
        self.offset
    }
}

/// A text: a list of 32-bit characters, and the cursors at its positions.
///
/// A step reads or moves a cursor of this text. The engine takes a step for each character, so steps should be cheap.
/// `create_cursor` and `adjust_cursor` may scan the text.
pub trait StrDrive: Copy {
    // The characters.
    ghost text: { Self → List ℕ };

    // Whether a cursor is at a position.
    ghost stands: { Self → StringCursor → ℕ → Type 0 };

    /// The number of characters, below 2^63.
    fn count(&self) -> usize
        ensures value { result ≡ length (text self.now) }
        ensures bound { result < 2 ^ 63 };

    /// A cursor at position `n`, which is at most the number of characters.
    fn create_cursor(&self, n: usize) -> StringCursor
        requires { n ≤ length (text self.now) }
        ensures { stands self.now result n };

    /// Moves the cursor to position `n`, from any position of any text.
    fn adjust_cursor(&self, cursor: &mut StringCursor, n: usize)
        requires { n ≤ length (text self.now) }
        ensures { stands self.now cursor.new n };

    /// Moves past the next character, and returns it.
    fn advance(&self, cursor: &mut StringCursor) -> u32
        requires at { stands self.now cursor.old cursor.old.position }
        requires before_end { cursor.old.position < length (text self.now) }
        ensures value { result ≡ slice_index (text self.now) cursor.old.position }
        ensures after { stands self.now cursor.new (cursor.old.position + 1) };

    /// The next character. The cursor must not be at the end.
    fn peek(&self, cursor: &StringCursor) -> u32
        requires at { stands self.now cursor.now cursor.now.position }
        requires before_end { cursor.now.position < length (text self.now) }
        ensures { result ≡ slice_index (text self.now) cursor.now.position };

    /// Moves past `n` characters.
    fn skip(&self, cursor: &mut StringCursor, n: usize)
        requires at { stands self.now cursor.old cursor.old.position }
        requires within { cursor.old.position + n ≤ length (text self.now) }
        ensures { stands self.now cursor.new (cursor.old.position + n) };

    /// Moves back over the character before the cursor, and returns it.
    fn back_advance(&self, cursor: &mut StringCursor) -> u32
        requires at { stands self.now cursor.old cursor.old.position }
        requires after_start { 0 < cursor.old.position }
        ensures value { result ≡ slice_index (text self.now) (cursor.old.position - 1) }
        ensures after { stands self.now cursor.new (cursor.old.position - 1) };

    /// Moves back over the character before the cursor, and returns whether it is `character`.
    ///
    /// A text need not implement it. `&str` does, since it can exclude a character before it has decoded it.
    fn back_over(&self, cursor: &mut StringCursor, character: u32) -> bool
        requires at { stands self.now cursor.old cursor.old.position }
        requires after_start { 0 < cursor.old.position }
        ensures same { result ≡ true → slice_index (text self.now) (cursor.old.position - 1) ≡ character }
        ensures other { result ≡ false → slice_index (text self.now) (cursor.old.position - 1) ≢ character }
        ensures after { stands self.now cursor.new (cursor.old.position - 1) }
    {
        self.back_advance(cursor) == character
    }

    /// The character before the cursor, which must not be at the start.
    fn back_peek(&self, cursor: &StringCursor) -> u32
        requires at { stands self.now cursor.now cursor.now.position }
        requires after_start { 0 < cursor.now.position }
        ensures { result ≡ slice_index (text self.now) (cursor.now.position - 1) };

    /// Moves back over `n` characters.
    fn back_skip(&self, cursor: &mut StringCursor, n: usize)
        requires at { stands self.now cursor.old cursor.old.position }
        requires within { n ≤ cursor.old.position }
        ensures { stands self.now cursor.new (cursor.old.position - n) };

    /// Moves past the next `character` before the position `end` and returns `true`, or moves to `end` and returns
    /// `false` if there is none.
    ///
    /// A text need not implement it. `&[u8]` and `&str` do, since they find a character faster than step by step.
    fn seek(&self, cursor: &mut StringCursor, character: u32, end: usize) -> bool
        requires at { stands self.now cursor.old cursor.old.position }
        requires before { cursor.old.position ≤ end }
        requires within { end ≤ length (text self.now) }
        ensures after { stands self.now cursor.new cursor.new.position }
        ensures sought { Sought (text self.now) character cursor.old.position end result cursor.new.position }
    {
        'character: while cursor.position() < end {
            if self.advance(cursor) == character {
                return true;
            }
        }
        false
    }

    /// The number of characters, at least 1, to test one by one before `seek` is called for the rest. A `seek` over
    /// fewer costs more. It affects only the time.
    fn few(&self) -> usize
        ensures { 0 < result }
    {
        16
    }

    // A cursor at a position has it as its `position`, and the text is at least that long.
    ghost stands_at: { (s : Self) (c : StringCursor) (p : ℕ) → stands s c p
        → (c.position ≡ p) × (p ≤ length (text s)) };

    // This fact has at most one proof, so a type may store it in a ghost field.
    ghost stands_once: { (s : Self) (c : StringCursor) (p : ℕ) → IsProp (stands s c p) };
}
