//! A text that counts the reads of its characters.

ghost use Rattle.std.proofs.Props.{props};
ghost use Rattle.sre_chars.specs.Texts.{StandsInBytes};

use sre_engine::{StrDrive, StringCursor};
use std::cell::Cell;

/// Bytes, each of them a character, and the number of characters read.
#[derive(Clone, Copy)]
pub(crate) struct Counted<'a> {
    pub(crate) bytes: &'a [u8],
    pub(crate) read: &'a Cell<u64>,
}

impl<'a> Counted<'a> {
    fn count_one(&self) {
        self.read.set(self.read.get().wrapping_add(1));
    }
}

// Only the required calls of the trait.
impl<'a> StrDrive for Counted<'a> {
    ghost text = { λ s. s.bytes.now };

    ghost stands = { λ s c p. StandsInBytes s.bytes.now c p };

    ghost stands_at = { λ s c p h. (h.0, h.2) };

    ghost stands_once = { λ s c p. Prim.hlevel props };

    fn count(&self) -> usize {
        self.bytes.count()
    }

    fn create_cursor(&self, n: usize) -> StringCursor {
        self.bytes.create_cursor(n)
    }

    fn adjust_cursor(&self, cursor: &mut StringCursor, n: usize) {
        self.bytes.adjust_cursor(cursor, n);
    }

    fn advance(&self, cursor: &mut StringCursor) -> u32 {
        self.count_one();
        self.bytes.advance(cursor)
    }

    fn peek(&self, cursor: &StringCursor) -> u32 {
        self.count_one();
        self.bytes.peek(cursor)
    }

    fn skip(&self, cursor: &mut StringCursor, n: usize) {
        self.bytes.skip(cursor, n);
    }

    fn back_advance(&self, cursor: &mut StringCursor) -> u32 {
        self.count_one();
        self.bytes.back_advance(cursor)
    }

    fn back_peek(&self, cursor: &StringCursor) -> u32 {
        self.count_one();
        self.bytes.back_peek(cursor)
    }

    fn back_skip(&self, cursor: &mut StringCursor, n: usize) {
        self.bytes.back_skip(cursor, n);
    }
}
