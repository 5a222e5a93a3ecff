//! Tests whose ASCII characters are known.
//!
//! Most characters are ASCII. For these one bit decides, instead of the test or a scan of a set's items.

ghost use Rattle.std.specs.Prelude.{◌≡◌, ℕ, ◌<◌, nat_eq, true, IfSome, IsSome};
ghost use Rattle.sre_request.specs.Terms.{contains, lower_ascii, Opcode};
ghost use Rattle.sre_model.specs.Standing.{HasTest};
ghost use Rattle.sre_request.specs.AsciiSets.{TakesAscii, is_told};

use sre_chars::constants::SreOpcode;
use sre_chars::string::{lower_ascii, upper_ascii};
use sre_code::ascii_members::ascii_members;
use sre_code::ascii_set::AsciiSet;
use sre_code::operands::{category_code, operand, word};
use std::convert::TryFrom;

// The ASCII characters that have a character as their lower case.
fn either_case(character: u32) -> AsciiSet
    ensures { (c : ℕ) → c < 128 → contains result c ≡ nat_eq character (lower_ascii c) }
{
    if lower_ascii(character) != character {
        return AsciiSet::new();
    }
    AsciiSet::of_character(character).union(AsciiSet::of_character(upper_ascii(character)))
}

/// The ASCII characters that the test at an address takes. They are known for ANY, a literal, one that ignores case by
/// ASCII's or Unicode's rules, a negated literal and a category. They are known for a set if each item is a LITERAL, a
/// RANGE, a CATEGORY, a CHARSET or a NEGATE. For other tests the result is `None`.
pub fn ascii_taken(words: &[u32], place: usize) -> Option<AsciiSet>
    requires { HasTest words.now place }
    ensures taken { IfSome result (λ taken. TakesAscii words.now place taken) }
    ensures told { (o : SreOpcode) → Opcode words.now place o → is_told o ≡ true → IsSome result }
{
    match SreOpcode::try_from(word(words, place)).ok()? {
        SreOpcode::ANY => Some(AsciiSet::of_character(10).complement()),
        SreOpcode::LITERAL => Some(AsciiSet::of_character(operand(words, place, 1))),
        SreOpcode::LITERAL_IGNORE | SreOpcode::LITERAL_UNI_IGNORE => {
            Some(either_case(operand(words, place, 1)))
        }
        SreOpcode::NOT_LITERAL => {
            Some(AsciiSet::of_character(operand(words, place, 1)).complement())
        }
        SreOpcode::CATEGORY => Some(AsciiSet::of_category(category_code(words, place + 1))),
        SreOpcode::IN => ascii_members(words, place + 2),
        _ => None,
    }
}
