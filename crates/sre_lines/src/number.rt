//! Numbers and bytes as digits in the fields of a case.

ghost use Rattle.std.specs.Prelude.{◌≡◌, ◌≢◌, ℕ, ◌+◌, ◌/◌, ◌%◌, ◌^◌, ◌<◌, List, All, IfSome, IfNone, OnOk, false};
ghost use Rattle.std.specs.Prelude.{IsTrue, ◌↔◌, Err, ◌*◌};
ghost use Rattle.sre_lines.specs.Terms.{decimal, digit_glyph, Refused};
ghost use Rattle.sre_lines.specs.Fields.{hex_text, BeginsAsNumber};

use crate::line::LineFault;
use std::alloc::Allocator;

/// The number that a field denotes in decimal, without sign and without leading zeros. `None` if it denotes none.
pub fn decimal_number(digits: &[u8]) -> Option<u64>
    ensures written { IfSome result (λ n. decimal n ≡ digits.now) }
    ensures refused { IfNone result ((n : ℕ) → n < 2 ^ 64 → decimal n ≢ digits.now) }
{
    if !begins_as_number(digits) {
        return None;
    }
    let Ok(text) = str::from_utf8(digits) else {
        return None;
    };
    match text.parse::<u64>() {
        Ok(number) => Some(number),
        Err(_) => None,
    }
}

// Excludes a plus sign and leading zeros, which `parse` accepts.
fn begins_as_number(digits: &[u8]) -> bool
    ensures { IsTrue result ↔ BeginsAsNumber digits.now }
{
    match digits.first() {
        Some(b'0') => digits.len() == 1,
        Some(first) => b'1' <= *first && *first <= b'9',
        None => false,
    }
}

/// Replaces the content of `bytes` by the bytes that pairs of lower-case hexadecimal digits denote, perhaps none.
pub fn read_hex<A: Allocator>(digits: &[u8], bytes: &mut Vec<u8, A>) -> Result<(), LineFault>
    ensures read { OnOk result (hex_text bytes.new.items ≡ digits.now) }
    ensures fit { OnOk result (All (λ b. b < 256) bytes.new.items) }
    ensures refused { result ≡ Err LineFault.NotACase → (bs : List ℕ) → All (λ b. b < 256) bs
        → hex_text bs ≢ digits.now }
    ensures memory { result ≡ Err LineFault.NoMemory → Refused A }
{
    bytes.clear();
    if digits.len() % 2 != 0 {
        return Err(LineFault::NotACase);
    }
    for i in 0..digits.len() / 2 {
        let Some(byte) = hex_byte(digits[2 * i], digits[2 * i + 1]) else {
            return Err(LineFault::NotACase);
        };
        sre_growth::push(bytes, byte)?;
    }
    Ok(())
}

// The byte that two hexadecimal digits denote.
fn hex_byte(high: u8, low: u8) -> Option<u8>
    ensures read { IfSome result (λ b. (high ≡ digit_glyph false (b / 16)) × (low ≡ digit_glyph false (b % 16))) }
    ensures refused { IfNone result
        ((b : ℕ) → b < 256 → high ≡ digit_glyph false (b / 16) → low ≢ digit_glyph false (b % 16)) }
{
    Some(16 * hex_digit(high)? + hex_digit(low)?)
}

/// The value of a lower-case hexadecimal digit. `None` for any other byte.
pub fn hex_digit(digit: u8) -> Option<u8>
    ensures read { IfSome result (λ n. (n < 16) × (digit ≡ digit_glyph false n)) }
    ensures refused { IfNone result ((n : ℕ) → n < 16 → digit ≢ digit_glyph false n) }
{
    match digit {
        b'0'..=b'9' => Some(digit - b'0'),
        b'a'..=b'f' => Some(digit - b'a' + 10),
        _ => None,
    }
}
