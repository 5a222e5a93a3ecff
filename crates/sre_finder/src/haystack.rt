//! Texts whose bytes a DFA can read: bytes and UTF-8.

ghost use Rattle.std.specs.Prelude.{◌≡◌, ◌≤◌, ◌<◌, ℕ, IfSome, length};
ghost use Rattle.sre_patterns.specs.declared.encoding.Encoding.TheVariants.{Bytes, Ascii, Utf8};
ghost use Rattle.std.specs.Str.{chars};
ghost use Rattle.sre_chars.specs.Texts.{StandsInText, offset_of};
ghost use Rattle.sre_finder.specs.Views.{SeenAs};

use sre_chars::string::{StrDrive, StringCursor, cursor_at};
use sre_patterns::Encoding;

/// A text whose bytes a DFA can read.
pub trait Haystack: StrDrive {
    // The byte offset of a position.
    ghost place: { Self → ℕ → ℕ };

    /// Returns the encoding in which DFAs read the text up to a position, at most its number of characters. In another
    /// encoding they exclude no start. A `str` that has as many bytes is ASCII. Of any other `str` bytes are read to
    /// tell, up to the first that is not ASCII.
    fn encoding(&self, end: usize) -> Encoding;

    /// Returns the bytes up to a cursor if they have this encoding, else `None`. A text of bytes has `Encoding::Bytes`,
    /// and a `str` has `Encoding::Utf8`. A `str` also has `Encoding::Ascii` if all characters up to the cursor are
    /// ASCII.
    fn hay(&self, encoding: Encoding, end: StringCursor) -> Option<&[u8]>
        requires { Self.stands self.now end end.position }
        ensures { IfSome result
            (λ hay. SeenAs encoding (Self.text self.now) (place self.now) end.position hay.now) };

    /// Returns the byte offset of a cursor.
    fn place_of(&self, cursor: StringCursor) -> usize
        requires { Self.stands self.now cursor cursor.position }
        ensures { result ≡ place self.now cursor.position };

    /// Returns a cursor from `from` to `end`. If a character begins at the byte offset `offset`, the cursor is at that
    /// character. Every position from `from` up to the cursor, itself excluded, has a byte offset below `offset`.
    fn cursor_up_to(&self, from: StringCursor, offset: usize, end: StringCursor) -> StringCursor
        requires from { Self.stands self.now from from.position }
        requires end { Self.stands self.now end end.position }
        requires ordered { from.position ≤ end.position }
        requires behind { place self.now from.position ≤ offset }
        requires within { offset ≤ place self.now end.position }
        ensures stands { Self.stands self.now result result.position }
        ensures after { from.position ≤ result.position }
        ensures inside { result.position ≤ end.position }
        ensures passed { (q : ℕ) → from.position ≤ q → q < result.position → place self.now q < offset }
        ensures there { (q : ℕ) → from.position ≤ q → q ≤ end.position → place self.now q ≡ offset
            → place self.now result.position ≡ offset };
}

// The bytes up to a position.
#[inline(always)]
fn bytes_up_to(bytes: &[u8], end: usize) -> &[u8]
    requires { end ≤ length bytes.now }
    ensures { SeenAs Bytes bytes.now (λ p. p) end result.now }
{
    &bytes[..end]
}

// The UTF-8 bytes up to a cursor.
#[inline(always)]
fn text_up_to(text: &str, end: StringCursor) -> &[u8]
    requires { StandsInText text.now end end.position }
    ensures { SeenAs Utf8 (chars text.now) (offset_of text.now) end.position result.now }
{
    &text.as_bytes()[..end.offset()]
}

// The bytes up to a cursor, if each character before it is one byte.
#[inline(always)]
fn ascii_up_to(text: &str, end: StringCursor) -> Option<&[u8]>
    requires { StandsInText text.now end end.position }
    ensures { IfSome result (λ hay. SeenAs Ascii (chars text.now) (offset_of text.now) end.position hay.now) }
{
    if end.offset() == end.position() {
        Some(text_up_to(text, end))
    } else {
        None
    }
}

// The cursor at a byte offset between `from` and `end`, or `from` if no character begins there. If `end` has as many
// bytes as characters before it, each character is one byte, so no character is counted.
fn text_cursor(text: &str, from: StringCursor, offset: usize, end: StringCursor) -> StringCursor
    requires from { StandsInText text.now from from.position }
    requires end { StandsInText text.now end end.position }
    requires ordered { from.position ≤ end.position }
    requires behind { from.offset ≤ offset }
    requires within { offset ≤ end.offset }
    ensures stands { StandsInText text.now result result.position }
    ensures after { from.position ≤ result.position }
    ensures inside { result.position ≤ end.position }
    ensures passed { (q : ℕ) → from.position ≤ q → q < result.position → offset_of text.now q < offset }
    ensures there { (q : ℕ) → from.position ≤ q → q ≤ end.position → offset_of text.now q ≡ offset
        → offset_of text.now result.position ≡ offset }
{
    let _bytes = text.len();
    if end.offset() == end.position() {
        return StringCursor::new(offset, offset);
    }
    match cursor_at(text, from, offset) {
        Some(there) => there,
        None => from,
    }
}

impl<'a> Haystack for &'a [u8] {
    ghost place = { λ _ p. p };

    #[inline(always)]
    fn encoding(&self, _end: usize) -> Encoding {
        Encoding::Bytes
    }

    #[inline(always)]
    fn hay(&self, encoding: Encoding, end: StringCursor) -> Option<&[u8]> {
        match encoding {
            Encoding::Bytes => Some(bytes_up_to(self, end.offset())),
            Encoding::Ascii => None,
            Encoding::Utf8 => None,
        }
    }

    #[inline(always)]
    fn place_of(&self, cursor: StringCursor) -> usize {
        cursor.offset()
    }

    #[inline(always)]
    fn cursor_up_to(&self, _from: StringCursor, offset: usize, _end: StringCursor) -> StringCursor {
        StringCursor::new(offset, offset)
    }
}

impl<'a> Haystack for &'a str {
    ghost place = { λ s p. offset_of s.now p };

    fn encoding(&self, end: usize) -> Encoding {
        if end == self.len() || self.is_ascii() {
            Encoding::Ascii
        } else {
            Encoding::Utf8
        }
    }

    #[inline(always)]
    fn hay(&self, encoding: Encoding, end: StringCursor) -> Option<&[u8]> {
        match encoding {
            Encoding::Bytes => None,
            Encoding::Ascii => ascii_up_to(self, end),
            Encoding::Utf8 => Some(text_up_to(self, end)),
        }
    }

    #[inline(always)]
    fn place_of(&self, cursor: StringCursor) -> usize {
        cursor.offset()
    }

    #[inline(always)]
    fn cursor_up_to(&self, from: StringCursor, offset: usize, end: StringCursor) -> StringCursor {
        text_cursor(self, from, offset, end)
    }
}
