//! UTF-8 as a text: each Unicode scalar value is a character of one to four bytes (RFC 3629).
//!
//! A `str` is always well-formed, and a cursor's offset is always between characters. So a step never searches for the
//! edge of a character.

ghost use Rattle.std.specs.Prelude.{◌≡◌, ◌+◌, ◌-◌, ◌^◌, ◌<◌, ◌≤◌, length, slice_index, count_by};
ghost use Rattle.std.specs.Prelude.{IfSome, None};
ghost use Rattle.std.specs.Str.{chars, IsCharBoundary};
ghost use Rattle.std.proofs.Props.{props};
ghost use Rattle.sre_chars.specs.Texts.{StandsInText, offset_of, begins_char, begun, Sought};

use crate::bytes::first_byte;
use crate::string::{StrDrive, StringCursor};

// The character after a cursor, and the offset of its end.
#[inline(always)]
fn char_after(s: &str, cursor: &StringCursor) -> (char, usize)
    requires at { StandsInText s.now cursor.now cursor.now.position }
    requires before_end { cursor.now.position < length (chars s.now) }
    ensures value { result.0 ≡ slice_index (chars s.now) cursor.now.position }
    ensures offset { result.1 ≡ offset_of s.now (cursor.now.position + 1) }
    ensures in_bounds { cursor.now.position < 2 ^ 63 }
{
    let offset = cursor.offset();
    let byte = s.as_bytes()[offset];
    if byte < 0x80 {
        return (char::from(byte), offset + 1);
    }
    let mut rest = s[offset..].chars();
    match rest.next() {
        Some(c) => (c, s.len() - rest.as_str().len()),
        None => unreachable!(),
    }
}

// The character before a cursor, and the offset of its beginning.
#[inline(always)]
fn char_before(s: &str, cursor: &StringCursor) -> (char, usize)
    requires at { StandsInText s.now cursor.now cursor.now.position }
    requires after_start { 0 < cursor.now.position }
    ensures value { result.0 ≡ slice_index (chars s.now) (cursor.now.position - 1) }
    ensures offset { result.1 ≡ offset_of s.now (cursor.now.position - 1) }
{
    let offset = cursor.offset();
    let byte = s.as_bytes()[offset - 1];
    if byte < 0x80 {
        return (char::from(byte), offset - 1);
    }
    let (before, _) = s.split_at(offset);
    let mut front = before.chars();
    match front.next_back() {
        Some(c) => (c, front.as_str().len()),
        None => unreachable!(),
    }
}

// The bytes of a long block, and of a short one. Characters are counted in long blocks, then in short ones, then by
// bytes.
const LONG: usize = 64;

const SHORT: usize = 16;

// Whether a character begins with the byte: all others are `10xxxxxx` (RFC 3629, section 3).
#[inline(always)]
fn is_beginning(byte: u8) -> bool
    ensures { result ≡ begins_char byte }
{
    byte < 0x80 || 0xc0 <= byte
}

// The number of characters that begin in a block. It fits a byte, so each lane of a vector can hold a sum.
#[inline(always)]
fn beginnings_in_block<const N: usize>(block: &[u8; N]) -> usize
    requires { N ≤ 64 }
    ensures value { result ≡ count_by begins_char block.now }
    ensures bound { result ≤ N }
{
    let mut count: u8 = 0;
    for i in 0..N {
        count += u8::from(is_beginning(block[i]));
    }
    usize::from(count)
}

// The number of characters that begin in the whole blocks at the front, and the bytes after these blocks.
#[inline(always)]
fn beginnings_in_blocks<const N: usize>(bytes: &[u8]) -> (usize, &[u8])
    requires some { 0 < N }
    requires few { N ≤ 64 }
    ensures { result.0 + count_by begins_char result.1.now ≡ count_by begins_char bytes.now }
{
    let mut count = 0;
    let mut left = bytes;
    'blocks: while let Some((block, rest)) = left.split_first_chunk::<N>() {
        count += beginnings_in_block(block);
        left = rest;
    }
    (count, left)
}

// The number of characters that begin in the bytes.
fn beginnings(bytes: &[u8]) -> usize
    ensures { result ≡ count_by begins_char bytes.now }
{
    let (in_long, rest) = beginnings_in_blocks::<LONG>(bytes);
    let (in_short, left) = beginnings_in_blocks::<SHORT>(rest);
    let mut count = in_long + in_short;
    for i in 0..left.len() {
        count += usize::from(is_beginning(left[i]));
    }
    count
}

// Skips blocks of N bytes while at most `n` characters can begin in one. Returns the offset after them, and how many
// characters are left to skip.
fn pass_blocks<const N: usize>(bytes: &[u8], mut offset: usize, mut n: usize) -> (usize, usize)
    requires some { 0 < N }
    requires few { N ≤ 64 }
    requires in_bounds { offset ≤ length bytes.now }
    ensures in_bounds { result.0 ≤ length bytes.now }
    ensures passed { begun bytes.now result.0 + result.1 ≡ begun bytes.now offset + n }
{
    'blocks: while N <= n {
        let Some((block, _)) = bytes[offset..].split_first_chunk::<N>() else {
            break;
        };
        offset += N;
        n -= beginnings_in_block(block);
    }
    (offset, n)
}

// The offset of the character before which `n` more characters begin than before `offset`, or that of the end.
fn pass_bytes(bytes: &[u8], mut offset: usize, mut n: usize) -> usize
    requires in_bounds { offset ≤ length bytes.now }
    requires within { begun bytes.now offset + n ≤ count_by begins_char bytes.now }
    ensures at { IsCharBoundary bytes.now result }
    ensures passed { begun bytes.now result ≡ begun bytes.now offset + n }
{
    while offset < bytes.len() {
        if is_beginning(bytes[offset]) {
            if n == 0 {
                break;
            }
            n -= 1;
        }
        offset += 1;
    }
    offset
}

// Skips blocks of N bytes backwards while fewer than `n` characters can begin in one.
fn pass_blocks_back<const N: usize>(bytes: &[u8], mut offset: usize, mut n: usize) -> (usize, usize)
    requires some { 0 < N }
    requires few { N ≤ 64 }
    requires in_bounds { offset ≤ length bytes.now }
    ensures in_bounds { result.0 ≤ offset }
    ensures passed { begun bytes.now result.0 + n ≡ begun bytes.now offset + result.1 }
    ensures some_left { result.1 ≡ 0 → result.0 ≡ offset }
{
    'blocks: while N < n {
        let Some((_, block)) = bytes[..offset].split_last_chunk::<N>() else {
            break;
        };
        offset -= N;
        n -= beginnings_in_block(block);
    }
    (offset, n)
}

// The offset of the `n`th character before `offset`.
#[inline(always)]
fn pass_bytes_back(bytes: &[u8], mut offset: usize, mut n: usize) -> usize
    requires in_bounds { offset ≤ length bytes.now }
    requires within { n ≤ begun bytes.now offset }
    requires at { n ≡ 0 → IsCharBoundary bytes.now offset }
    ensures at { IsCharBoundary bytes.now result }
    ensures passed { begun bytes.now result + n ≡ begun bytes.now offset }
{
    while 0 < n {
        offset -= 1;
        if is_beginning(bytes[offset]) {
            n -= 1;
        }
    }
    offset
}

/// The cursor at a byte offset that is not before `from`, or `None` if the offset is inside a character. It scans the
/// text between the two.
pub fn cursor_at(text: &str, from: StringCursor, offset: usize) -> Option<StringCursor>
    requires at { StandsInText text.now from from.position }
    requires behind { from.offset ≤ offset }
    requires within { offset ≤ length text.now }
    ensures stands { IfSome result (λ there. StandsInText text.now there there.position) }
    ensures offset { IfSome result (λ there. there.offset ≡ offset) }
    ensures none { result ≡ None → ¬ (IsCharBoundary text.now offset) }
{
    if !text.is_char_boundary(offset) {
        return None;
    }
    let between = beginnings(&text.as_bytes()[from.offset()..offset]);
    Some(StringCursor::new(from.position() + between, offset))
}

// The cursor after the characters that begin in the next `n` bytes. It decodes the last one from its first byte, so it
// reads no byte after it.
fn behind_begun(s: &str, cursor: &StringCursor, n: usize) -> StringCursor
    requires at { StandsInText s.now cursor.now cursor.now.position }
    requires some { 0 < n }
    requires within { cursor.now.offset + n ≤ length s.now }
    ensures at { StandsInText s.now result result.position }
    ensures begun { result.position ≡ begun s.now (cursor.now.offset + n) }
{
    let bytes = s.as_bytes();
    let from = cursor.offset();
    let position = cursor.position() + beginnings(&bytes[from..from + n]);
    let last = StringCursor::new(position - 1, pass_bytes_back(bytes, from + n, 1));
    let (_, offset) = char_after(s, &last);
    StringCursor::new(position, offset)
}

// Seeks an ASCII character, whose byte is in no other character (RFC 3629, section 3). A round searches as many bytes
// as there are characters before `end`, so it never reaches past `end`. The next round begins after the characters that
// begin in these bytes.
#[inline(always)]
fn seek_ascii(s: &str, cursor: &mut StringCursor, character: u32, end: usize) -> bool
    requires ascii { character < 128 }
    requires at { StandsInText s.now cursor.old cursor.old.position }
    requires before { cursor.old.position ≤ end }
    requires within { end ≤ length (chars s.now) }
    ensures after { StandsInText s.now cursor.new cursor.new.position }
    ensures sought { Sought (chars s.now) character cursor.old.position end result cursor.new.position }
{
    'round: while cursor.position() < end {
        let offset = cursor.offset();
        let left = end - cursor.position();
        let rest = s[offset..].as_bytes();
        match first_byte(&rest[..left], character) {
            Some(passed) => {
                let position = cursor.position() + beginnings(&rest[..passed]);
                *cursor = StringCursor::new(position + 1, offset + passed + 1);
                return true;
            }
            None => *cursor = behind_begun(s, cursor, left),
        }
    }
    false
}

// Seeks any other character, step by step.
fn seek_other(s: &str, cursor: &mut StringCursor, character: u32, end: usize) -> bool
    requires at { StandsInText s.now cursor.old cursor.old.position }
    requires before { cursor.old.position ≤ end }
    requires within { end ≤ length (chars s.now) }
    ensures after { StandsInText s.now cursor.new cursor.new.position }
    ensures sought { Sought (chars s.now) character cursor.old.position end result cursor.new.position }
{
    'character: while cursor.position() < end {
        let (passed, behind) = char_after(s, cursor);
        *cursor = StringCursor::new(cursor.position() + 1, behind);
        if u32::from(passed) == character {
            return true;
        }
    }
    false
}

impl<'a> StrDrive for &'a str {
    ghost text = { λ s. chars s.now };

    ghost stands = { λ s c p. StandsInText s.now c p };

    ghost stands_at = { λ s c p h. (h.0, h.2) };

    ghost stands_once = { λ s c p. Prim.hlevel props };

    #[inline]
    fn count(&self) -> usize {
        beginnings(self.as_bytes())
    }

    #[inline]
    fn create_cursor(&self, n: usize) -> StringCursor {
        let mut cursor = StringCursor::new(0, 0);
        self.skip(&mut cursor, n);
        cursor
    }

    #[inline]
    fn adjust_cursor(&self, cursor: &mut StringCursor, n: usize) {
        *cursor = self.create_cursor(n);
    }

    #[inline(always)]
    fn advance(&self, cursor: &mut StringCursor) -> u32 {
        let (passed, offset) = char_after(self, cursor);
        *cursor = StringCursor::new(cursor.position() + 1, offset);
        u32::from(passed)
    }

    #[inline(always)]
    fn peek(&self, cursor: &StringCursor) -> u32 {
        u32::from(char_after(self, cursor).0)
    }

    #[inline]
    fn skip(&self, cursor: &mut StringCursor, n: usize) {
        let bytes = self.as_bytes();
        let (behind_long, rest) = pass_blocks::<LONG>(bytes, cursor.offset(), n);
        let (behind_short, left) = pass_blocks::<SHORT>(bytes, behind_long, rest);
        let end = pass_bytes(bytes, behind_short, left);
        *cursor = StringCursor::new(cursor.position() + n, end);
    }

    #[inline(always)]
    fn back_advance(&self, cursor: &mut StringCursor) -> u32 {
        let (passed, offset) = char_before(self, cursor);
        *cursor = StringCursor::new(cursor.position() - 1, offset);
        u32::from(passed)
    }

    // Passes a non-ASCII character by its bytes, and decodes it only if it may be the given one.
    #[inline(always)]
    fn back_over(&self, cursor: &mut StringCursor, character: u32) -> bool {
        let bytes = self.as_bytes();
        let offset = cursor.offset();
        let byte = bytes[offset - 1];
        if byte >= 0x80 && character < 0x80 {
            let start = pass_bytes_back(bytes, offset, 1);
            *cursor = StringCursor::new(cursor.position() - 1, start);
            return false;
        }
        self.back_advance(cursor) == character
    }

    #[inline(always)]
    fn back_peek(&self, cursor: &StringCursor) -> u32 {
        u32::from(char_before(self, cursor).0)
    }

    #[inline]
    fn back_skip(&self, cursor: &mut StringCursor, n: usize) {
        let bytes = self.as_bytes();
        let (behind_long, rest) = pass_blocks_back::<LONG>(bytes, cursor.offset(), n);
        let (behind_short, left) = pass_blocks_back::<SHORT>(bytes, behind_long, rest);
        let start = pass_bytes_back(bytes, behind_short, left);
        *cursor = StringCursor::new(cursor.position() - n, start);
    }

    // After a hit the characters before it have to be counted, too.
    #[inline(always)]
    fn few(&self) -> usize {
        64
    }

    #[inline]
    fn seek(&self, cursor: &mut StringCursor, character: u32, end: usize) -> bool {
        if character < 0x80 {
            seek_ascii(self, cursor, character, end)
        } else {
            seek_other(self, cursor, character, end)
        }
    }
}
