//! How the characters of a text are encoded in bytes.

/// The encoding of a text's characters.
#[derive(Clone, Copy, PartialEq, Eq, Debug)]
pub enum Encoding {
    /// Each character is one byte.
    Bytes,
    /// Each character is one byte below 128.
    Ascii,
    /// Each character is encoded in UTF-8.
    Utf8,
}
