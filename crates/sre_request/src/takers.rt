//! Tests of one character with their operands at hand, for the loops of repeats.

ghost use Rattle.std.specs.Prelude.{⊤, ◌≡◌, ℕ, ◌+◌, ◌<◌, ◌≤◌, Bool, List, length, slice_range};
ghost use Rattle.sre_request.specs.Terms.{category, Table, is_between, SetItem, Charset, item_holds, is_member};
ghost use Rattle.sre_request.specs.Terms.{SetStands, contains};
ghost use Rattle.sre_chars.specs.Numbers.{category_number};
ghost use Rattle.sre_request.specs.AsciiSets.{IsAsciiPart};

use sre_chars::constants::SreCatCode;
use sre_chars::string::LentTable;
use sre_code::ascii_set::AsciiSet;
use sre_code::members::{has_bit, is_between, is_in_category, is_member};

/// A test with its operands at hand.
pub(crate) trait Taker {
    // What is known of its operands.
    ghost fits: { Self → Type 0 };
    // Whether it takes a character.
    ghost says: { Self → ℕ → Bool → Type 0 };

    fn takes(&self, character: u32) -> bool
        requires { fits self.now }
        ensures { says self.now character result };
}

/// Takes the characters from low to high.
#[derive(Clone, Copy)]
pub(crate) struct Between {
    pub(crate) low: u32,
    pub(crate) high: u32,
}

impl Taker for Between {
    ghost fits = { λ b. ⊤ };

    ghost says = { λ b c taken. taken ≡ is_between b.low b.high c };

    #[inline(always)]
    fn takes(&self, character: u32) -> bool {
        is_between(self.low, self.high, character)
    }
}

/// Takes the characters below 256 whose bit is set in the eight words after a CHARSET.
#[derive(Clone, Copy)]
pub(crate) struct Bits<'a> {
    pub(crate) words: &'a [u32],
    pub(crate) place: usize,
}

impl<'a> Taker for Bits<'a> {
    ghost fits = { λ b. b.place + 9 ≤ length b.words.now };

    ghost says = { λ b c taken. (table : Table)
        → taken ≡ item_holds table (Charset (slice_range b.words.now (b.place + 1) (b.place + 9))) c };

    #[inline(always)]
    fn takes(&self, character: u32) -> bool {
        has_bit(self.words, self.place, character)
    }
}

/// Takes the characters of a category; the ASCII ones are at hand.
#[derive(Clone, Copy)]
pub(crate) struct OfCategory<'a> {
    pub(crate) uni: &'a LentTable<'a>,
    pub(crate) code: SreCatCode,
    pub(crate) ascii: AsciiSet,
}

impl<'a> Taker for OfCategory<'a> {
    ghost fits = { λ o. (c : ℕ) → c < 128 → contains o.ascii c ≡ category o.uni.now (category_number o.code) c };

    ghost says = { λ o c taken. taken ≡ category o.uni.now (category_number o.code) c };

    #[inline(always)]
    fn takes(&self, character: u32) -> bool {
        if character < 128 {
            return self.ascii.contains(character);
        }
        is_in_category(self.uni, self.code, character)
    }
}

/// Takes the characters of a set; the ASCII ones are at hand.
#[derive(Clone, Copy)]
pub(crate) struct OfSet<'a> {
    pub(crate) words: &'a [u32],
    pub(crate) uni: &'a LentTable<'a>,
    pub(crate) set: usize,
    pub(crate) ascii: AsciiSet,
}

impl<'a> Taker for OfSet<'a> {
    ghost fits = { λ o. IsAsciiPart o.words.now o.uni.now o.set o.ascii };

    ghost says = { λ o c taken. (j : ℕ) (set : List SetItem) → SetStands o.words.now o.set j set
        → taken ≡ is_member o.uni.now set c };

    #[inline(always)]
    fn takes(&self, character: u32) -> bool {
        if character < 128 {
            return self.ascii.contains(character);
        }
        is_member(self.words, self.uni, self.set, character)
    }
}
