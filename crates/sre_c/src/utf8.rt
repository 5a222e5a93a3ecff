//! UTF-8 from C.

ghost use Rattle.sre_c.specs.Given.{ReadsUtf8};

use simdutf8::basic::from_utf8;

/// What bytes are as UTF-8.
#[derive(Clone, Copy)]
pub enum Utf8<'a> {
    /// ASCII, whose bytes are its characters.
    Ascii(&'a [u8]),
    Text(&'a str),
    Invalid,
}

/// Reads UTF-8. With `tells_ascii`, ASCII remains bytes: then nothing is validated, and no characters are counted.
#[inline(always)]
pub fn read_utf8(bytes: &[u8], tells_ascii: bool) -> Utf8<'_>
    ensures { ReadsUtf8 bytes.now result }
{
    if tells_ascii && bytes.is_ascii() {
        return Utf8::Ascii(bytes);
    }
    match from_utf8(bytes) {
        Ok(text) => Utf8::Text(text),
        Err(_) => Utf8::Invalid,
    }
}
