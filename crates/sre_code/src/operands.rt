//! Operands of checked bytecode, which a proof knows to exist.

ghost use Rattle.std.specs.Prelude.{◌≡◌, ◌+◌, ◌<◌, ◌^◌, length};
ghost use Rattle.sre_code.specs.Terms.{category_number, Word, word, AreWords, HasCategory};

use sre_chars::constants::SreCatCode;
use std::convert::TryFrom;

/// The word at `place`.
#[inline(always)]
pub fn word(words: &[u32], place: usize) -> u32
    requires { place < length words.now }
    ensures word { Word words.now place result }
    ensures room { place + 2 ^ 33 < 2 ^ 64 }
{
    let _length = words.len(); // bounds the length of the slice, so no address overflows
    words[place]
}

/// The word at `place`, or 0 past the end.
pub fn word_or_zero(words: &[u32], place: usize) -> u32
    ensures { result ≡ word words.now place }
{
    match words.get(place) {
        Some(word) => *word,
        None => 0,
    }
}

/// The word at `place + offset`.
#[inline(always)]
pub fn operand(words: &[u32], place: usize, offset: usize) -> u32
    requires { place + offset < length words.now }
    ensures word { Word words.now (place + offset) result }
    ensures room { place + 2 ^ 33 < 2 ^ 64 }
{
    let _length = words.len(); // bounds the length of the slice, so no address overflows
    words[place + offset]
}

/// The category code at `place`.
#[inline(always)]
pub fn category_code(words: &[u32], place: usize) -> SreCatCode
    requires { HasCategory words.now place }
    ensures { Word words.now place (category_number result) }
{
    match SreCatCode::try_from(word(words, place)) {
        Ok(code) => code,
        Err(_) => unreachable!(),
    }
}

/// States that words are below 2^32. It does nothing.
#[inline(always)]
pub fn know_words(words: &[u32])
    ensures { AreWords words.now }
{
    let _length = words.len(); // a call on a slice yields what its items are
}
