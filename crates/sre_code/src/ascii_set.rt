//! Sets of ASCII characters, as two words of 64 bits.
//!
//! A membership test is a shift and a mask, instead of a loop over a set's items. The definition `contains` in `specs/`
//! says which characters a set has, and each contract uses it. No set has a character past ASCII.

ghost use Rattle.std.specs.Prelude.{◌≡◌, ◌<◌, ◌/◌, ◌%◌, ◌^◌, ◌&&◌, ◌||◌, ℕ, false, nat_eq, nat_lt, slice_index};
ghost use Rattle.std.specs.Prelude.{if◌then◌else◌, not};
ghost use Rattle.sre_code.specs.Terms.{bit_at, Table, is_between, category, category_number};
ghost use Rattle.sre_code.specs.AsciiSet.{contains};

use sre_chars::constants::SreCatCode;

/// A set of ASCII characters.
#[derive(Clone, Copy, PartialEq, Eq, Debug)]
pub struct AsciiSet {
    // Bit `c` is for the character `c`.
    low: u64,
    // Bit `c - 64` is for the character `c`.
    high: u64,
}

impl AsciiSet {
    // 0 to 9.
    const DIGITS: AsciiSet = AsciiSet {
        low: 0x03ff_0000_0000_0000,
        high: 0,
    };

    // Tab, newline, vertical tab, form feed, carriage return, space.
    const SPACES: AsciiSet = AsciiSet {
        low: 0x0000_0001_0000_3e00,
        high: 0,
    };

    // Letters, digits and the underscore.
    const WORDS: AsciiSet = AsciiSet {
        low: 0x03ff_0000_0000_0000,
        high: 0x07ff_fffe_87ff_fffe,
    };

    // Newline alone.
    const LINEBREAKS: AsciiSet = AsciiSet {
        low: 0x0000_0000_0000_0400,
        high: 0,
    };

    // The ASCII whitespace, and the four information separators.
    const UNICODE_SPACES: AsciiSet = AsciiSet {
        low: 0x0000_0001_f000_3e00,
        high: 0,
    };

    // Newline to carriage return, and three of the information separators.
    const UNICODE_LINEBREAKS: AsciiSet = AsciiSet {
        low: 0x0000_0000_7000_3c00,
        high: 0,
    };

    /// The empty set.
    #[inline(always)]
    pub fn new() -> AsciiSet
        ensures { (c : ℕ) → contains result c ≡ false }
    {
        AsciiSet { low: 0, high: 0 }
    }

    /// The set of one character. It is empty for a character past ASCII.
    #[inline(always)]
    pub fn of_character(ch: u32) -> AsciiSet
        ensures { (c : ℕ) → contains result c ≡ nat_lt c 128 && nat_eq c ch }
    {
        if ch < 64 {
            AsciiSet {
                low: 1 << ch,
                high: 0,
            }
        } else if ch < 128 {
            AsciiSet {
                low: 0,
                high: 1 << (ch - 64),
            }
        } else {
            AsciiSet::new()
        }
    }

    // The set of the ASCII characters below `end`.
    #[inline(always)]
    fn below(end: u32) -> AsciiSet
        ensures { (c : ℕ) → contains result c ≡ nat_lt c 128 && nat_lt c end }
    {
        if end < 64 {
            AsciiSet {
                low: (1 << end) - 1,
                high: 0,
            }
        } else if end < 128 {
            AsciiSet {
                low: u64::MAX,
                high: (1 << (end - 64)) - 1,
            }
        } else {
            AsciiSet {
                low: u64::MAX,
                high: u64::MAX,
            }
        }
    }

    /// The set of the ASCII characters from `low` to `high`, both included. It is empty if `low` is above `high`.
    #[inline(always)]
    pub fn of_range(low: u32, high: u32) -> AsciiSet
        ensures { (c : ℕ) → contains result c ≡ nat_lt c 128 && is_between low high c }
    {
        let end = if high < 128 { high + 1 } else { 128 };
        AsciiSet::below(end).difference(AsciiSet::below(low))
    }

    /// The set of the ASCII characters in a category. It is the same for every Unicode table.
    #[inline(always)]
    pub fn of_category(code: SreCatCode) -> AsciiSet
        ensures { (t : Table) (c : ℕ) → contains result c ≡ nat_lt c 128 && category t (category_number code) c }
    {
        match code {
            SreCatCode::DIGIT | SreCatCode::UNI_DIGIT => AsciiSet::DIGITS,
            SreCatCode::NOT_DIGIT | SreCatCode::UNI_NOT_DIGIT => AsciiSet::DIGITS.complement(),
            SreCatCode::SPACE => AsciiSet::SPACES,
            SreCatCode::NOT_SPACE => AsciiSet::SPACES.complement(),
            SreCatCode::WORD | SreCatCode::LOC_WORD | SreCatCode::UNI_WORD => AsciiSet::WORDS,
            SreCatCode::NOT_WORD | SreCatCode::LOC_NOT_WORD | SreCatCode::UNI_NOT_WORD => {
                AsciiSet::WORDS.complement()
            }
            SreCatCode::LINEBREAK => AsciiSet::LINEBREAKS,
            SreCatCode::NOT_LINEBREAK => AsciiSet::LINEBREAKS.complement(),
            SreCatCode::UNI_SPACE => AsciiSet::UNICODE_SPACES,
            SreCatCode::UNI_NOT_SPACE => AsciiSet::UNICODE_SPACES.complement(),
            SreCatCode::UNI_LINEBREAK => AsciiSet::UNICODE_LINEBREAKS,
            SreCatCode::UNI_NOT_LINEBREAK => AsciiSet::UNICODE_LINEBREAKS.complement(),
        }
    }

    /// The set of the characters whose bits are set in four words. The lowest bit of the first word is for the
    /// character 0.
    #[inline(always)]
    pub fn of_bits(words: [u32; 4]) -> AsciiSet
        ensures { (c : ℕ) → contains result c
            ≡ nat_lt c 128 && nat_eq (slice_index words (c / 32) / 2 ^ (c % 32) % 2) 1 }
    {
        AsciiSet {
            low: join(words[0], words[1]),
            high: join(words[2], words[3]),
        }
    }

    /// The set of the characters that are in either set.
    #[inline(always)]
    pub fn union(self, other: AsciiSet) -> AsciiSet
        ensures { (c : ℕ) → contains result c ≡ contains self c || contains other c }
    {
        AsciiSet {
            low: self.low | other.low,
            high: self.high | other.high,
        }
    }

    /// The set of the characters that are in the first set and not in the other.
    #[inline(always)]
    pub fn difference(self, other: AsciiSet) -> AsciiSet
        ensures { (c : ℕ) → contains result c ≡ contains self c && not (contains other c) }
    {
        AsciiSet {
            low: self.low & !other.low,
            high: self.high & !other.high,
        }
    }

    /// The set of all ASCII characters that are not in this set.
    #[inline(always)]
    pub fn complement(self) -> AsciiSet
        ensures { (c : ℕ) → contains result c ≡ nat_lt c 128 && not (contains self c) }
    {
        AsciiSet {
            low: !self.low,
            high: !self.high,
        }
    }

    /// Whether the set has a character. It is `false` for every character past ASCII.
    #[inline(always)]
    pub fn contains(&self, ch: u32) -> bool
        ensures { result ≡ contains self.now ch }
    {
        if ch < 128 {
            let half = if ch < 64 { self.low } else { self.high };
            (half >> (ch % 64)) % 2 == 1
        } else {
            false
        }
    }
}

// The 64-bit word of two: `low` has the lower 32 bits.
#[inline(always)]
fn join(low: u32, high: u32) -> u64
    ensures { (k : ℕ) → k < 64 → bit_at result k ≡ bit_at (if nat_lt k 32 then low else high) (k % 32) }
{
    u64::from(low) | (u64::from(high) << 32)
}
