//! Bytes as a text: each byte is a character, so a cursor's offset is its position.

ghost use Rattle.std.specs.Prelude.{◌≡◌, ◌<◌, length, slice_index, MatchOption};
ghost use Rattle.std.proofs.Props.{props};
ghost use Rattle.sre_chars.specs.Texts.{StandsInBytes, NoneIs};

use crate::string::{StrDrive, StringCursor};
use memchr::memchr;

// The offset of the first such byte.
#[inline(always)]
pub(crate) fn first_byte(bytes: &[u8], character: u32) -> Option<usize>
    ensures { MatchOption result (NoneIs bytes.now character 0 (length bytes.now)) (λ first. (first < length bytes.now)
        × (slice_index bytes.now first ≡ character) × NoneIs bytes.now character 0 first) }
{
    if 0x100 <= character {
        return None;
    }
    memchr(character as u8, bytes)
}

impl<'a> StrDrive for &'a [u8] {
    ghost text = { λ s. s.now };

    ghost stands = { λ s c p. StandsInBytes s.now c p };

    ghost stands_at = { λ s c p h. (h.0, h.2) };

    ghost stands_once = { λ s c p. Prim.hlevel props };

    #[inline(always)]
    fn count(&self) -> usize {
        self.len()
    }

    #[inline(always)]
    fn create_cursor(&self, n: usize) -> StringCursor {
        StringCursor::new(n, n)
    }

    #[inline(always)]
    fn adjust_cursor(&self, cursor: &mut StringCursor, n: usize) {
        *cursor = StringCursor::new(n, n);
    }

    #[inline(always)]
    fn advance(&self, cursor: &mut StringCursor) -> u32 {
        let at = cursor.position();
        *cursor = StringCursor::new(at + 1, at + 1);
        u32::from(self[at])
    }

    #[inline(always)]
    fn peek(&self, cursor: &StringCursor) -> u32 {
        u32::from(self[cursor.position()])
    }

    #[inline(always)]
    fn skip(&self, cursor: &mut StringCursor, n: usize) {
        let at = cursor.position() + n;
        *cursor = StringCursor::new(at, at);
    }

    #[inline(always)]
    fn back_advance(&self, cursor: &mut StringCursor) -> u32 {
        let at = cursor.position() - 1;
        *cursor = StringCursor::new(at, at);
        u32::from(self[at])
    }

    #[inline(always)]
    fn back_peek(&self, cursor: &StringCursor) -> u32 {
        u32::from(self[cursor.position() - 1])
    }

    #[inline(always)]
    fn back_skip(&self, cursor: &mut StringCursor, n: usize) {
        let at = cursor.position() - n;
        *cursor = StringCursor::new(at, at);
    }

    #[inline]
    fn seek(&self, cursor: &mut StringCursor, character: u32, end: usize) -> bool {
        let from = cursor.position();
        match first_byte(&self[from..end], character) {
            Some(passed) => {
                let behind = from + passed + 1;
                *cursor = StringCursor::new(behind, behind);
                true
            }
            None => {
                *cursor = StringCursor::new(end, end);
                false
            }
        }
    }
}
