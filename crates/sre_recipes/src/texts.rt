//! The texts that recipes work on: bytes and UTF-8.

ghost use Rattle.std.specs.Prelude.{◌≡◌, ◌++◌, ◌≤◌, ℕ, List, [], length, true, false, ◌<◌, slice_range, ⊤, IfOk, OnErr};
ghost use Rattle.sre_recipes.specs.Terms.{chars, Refused, IsUtf8};
ghost use Rattle.sre_chars.specs.Texts.{StandsInText};

use sre_engine::{SreError, StrDrive, StringCursor};
use std::alloc::{Allocator, Global};

/// A text that recipes can slice and copy to a byte buffer.
pub trait Text: StrDrive {
    // Whether bytes encode a text of this type, and the characters that they encode.
    ghost IsText: { List ℕ → Type 0 };

    ghost characters: { List ℕ → List ℕ };

    /// Returns the slice of the text from one cursor to another.
    fn between(&self, start: &StringCursor, end: &StringCursor) -> Self
        requires start { Self.stands self.now start.now start.now.position }
        requires end { Self.stands self.now end.now end.now.position }
        requires forward { start.now.position ≤ end.now.position }
        ensures { Self.text result ≡ slice_range (Self.text self.now) start.now.position end.now.position };

    /// Returns whether a cursor is at the end of the text.
    fn is_end(&self, cursor: &StringCursor) -> bool
        requires { Self.stands self.now cursor.now cursor.now.position }
        ensures end { result ≡ true → cursor.now.position ≡ length (Self.text self.now) }
        ensures before { result ≡ false → cursor.now.position < length (Self.text self.now) };

    /// Appends the text's bytes to a buffer that already encodes a text of this type, perhaps an empty one.
    ///
    /// # Errors
    ///
    /// [`SreError::Memory`] if an allocation failed.
    fn append_to<A: Allocator>(&self, output: &mut Vec<u8, A>) -> Result<(), SreError>
        requires { IsText output.old.items }
        ensures ok { IfOk result (λ _.
            characters output.new.items ≡ characters output.old.items ++ Self.text self.now) }
        ensures written { IfOk result (λ _. IsText output.new.items) }
        ensures refused { OnErr result (Refused A) };

    // The empty list of bytes encodes the empty text.
    ghost none: { IsText [] };

    ghost none_characters: { characters [] ≡ [] };
}

/// A text whose replacements have an owned type: `String` for `&str`, `Vec<u8>` for `&[u8]`.
pub trait Rewritten: Text {
    /// The owned text.
    type New: Drop;

    // The characters of an owned text.
    ghost shown: { Self.New → List ℕ };

    /// Converts a buffer that encodes a text of this type to an owned text.
    fn from_output(output: Vec<u8>) -> Self::New
        requires { Self.IsText output.items }
        ensures { shown result ≡ Self.characters output.items };

    /// Appends the bytes of an owned text to a buffer that encodes a text of this type.
    ///
    /// # Errors
    ///
    /// [`SreError::Memory`] if an allocation failed.
    fn append_new(new: &Self::New, output: &mut Vec<u8>) -> Result<(), SreError>
        requires { Self.IsText output.old.items }
        ensures ok { IfOk result (λ _.
            Self.characters output.new.items ≡ Self.characters output.old.items ++ shown new.now) }
        ensures written { IfOk result (λ _. Self.IsText output.new.items) }
        ensures refused { OnErr result (Refused Global) };
}

// The slice of a `str` from one cursor to another.
fn cut<'t>(text: &'t str, start: &StringCursor, end: &StringCursor) -> &'t str
    requires start { StandsInText text.now start.now start.now.position }
    requires end { StandsInText text.now end.now end.now.position }
    requires forward { start.now.position ≤ end.now.position }
    ensures { chars result.now ≡ slice_range (chars text.now) start.now.position end.now.position }
{
    &text[start.offset()..end.offset()]
}

// Whether a cursor is at the end of a `str`.
fn at_end(text: &str, cursor: &StringCursor) -> bool
    requires { StandsInText text.now cursor.now cursor.now.position }
    ensures end { result ≡ true → cursor.now.position ≡ length (chars text.now) }
    ensures before { result ≡ false → cursor.now.position < length (chars text.now) }
{
    cursor.offset() == text.len()
}

// Appends bytes one by one with `sre_growth`, whose errors prove that an allocation failed.
fn append_bytes<A: Allocator>(output: &mut Vec<u8, A>, bytes: &[u8]) -> Result<(), SreError>
    ensures ok { IfOk result (λ _. output.new.items ≡ output.old.items ++ bytes.now) }
    ensures refused { OnErr result (Refused A) }
{
    for byte in bytes {
        sre_growth::push(output, *byte)?;
    }
    Ok(())
}

// Appends a `str` to UTF-8.
fn append_text<A: Allocator>(output: &mut Vec<u8, A>, text: &str) -> Result<(), SreError>
    requires { IsUtf8 output.old.items }
    ensures ok { IfOk result (λ _. chars output.new.items ≡ chars output.old.items ++ chars text.now) }
    ensures utf8 { IfOk result (λ _. IsUtf8 output.new.items) }
    ensures refused { OnErr result (Refused A) }
{
    append_bytes(output, text.as_bytes())?;
    Ok(())
}

impl<'t> Text for &'t str {
    ghost use Rattle.std.proofs.lemmas.Str.{chars-nil, IsUtf8-nil};

    ghost IsText = { IsUtf8 };

    ghost characters = { chars };

    ghost none = { IsUtf8-nil };

    ghost none_characters = { chars-nil };

    fn between(&self, start: &StringCursor, end: &StringCursor) -> &'t str {
        cut(self, start, end)
    }

    fn is_end(&self, cursor: &StringCursor) -> bool {
        at_end(self, cursor)
    }

    fn append_to<A: Allocator>(&self, output: &mut Vec<u8, A>) -> Result<(), SreError> {
        append_text(output, self)
    }
}

impl<'t> Text for &'t [u8] {
    ghost use Rattle.std.specs.Prelude.{refl};

    ghost IsText = { λ _. ⊤ };

    ghost characters = { λ bytes. bytes };

    ghost none = { tt };

    ghost none_characters = { refl };

    fn between(&self, start: &StringCursor, end: &StringCursor) -> &'t [u8] {
        &self[start.offset()..end.offset()]
    }

    fn is_end(&self, cursor: &StringCursor) -> bool {
        cursor.offset() == self.len()
    }

    fn append_to<A: Allocator>(&self, output: &mut Vec<u8, A>) -> Result<(), SreError> {
        append_bytes(output, self)
    }
}

impl<'t> Rewritten for &'t str {
    ghost use Rattle.sre_recipes.specs.Terms.{string_bytes};

    type New = String;

    ghost shown = { λ new. chars (string_bytes new) };

    fn from_output(output: Vec<u8>) -> String
        requires { IsUtf8 output.items }
        ensures { chars (string_bytes result) ≡ chars output.items }
    {
        String::from_utf8(output).unwrap()
    }

    fn append_new(new: &String, output: &mut Vec<u8>) -> Result<(), SreError>
        requires { IsUtf8 output.old.items }
        ensures ok { IfOk result (λ _.
            chars output.new.items ≡ chars output.old.items ++ chars (string_bytes new.now)) }
        ensures written { IfOk result (λ _. IsUtf8 output.new.items) }
        ensures refused { OnErr result (Refused Global) }
    {
        append_text(output, new.as_str())
    }
}

impl<'t> Rewritten for &'t [u8] {
    type New = Vec<u8>;

    ghost shown = { λ new. new.items };

    fn from_output(output: Vec<u8>) -> Vec<u8>
        ensures { result.items ≡ output.items }
    {
        output
    }

    fn append_new(new: &Vec<u8>, output: &mut Vec<u8>) -> Result<(), SreError>
        ensures ok { IfOk result (λ _. output.new.items ≡ output.old.items ++ new.now.items) }
        ensures written { IfOk result (λ _. ⊤) }
        ensures refused { OnErr result (Refused Global) }
    {
        append_bytes(output, new.as_slice())
    }
}
