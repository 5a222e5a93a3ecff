//! Tests of one character: which characters a test takes, and where its words end.
//!
//! A caller that knows the opcode passes it as a constant, so that the match on opcodes is compiled away.

ghost use Rattle.std.specs.Prelude.{◌≡◌, ℕ, List};
ghost use Rattle.sre_request.specs.Terms.{Test, Locale, SetItem, is_literal, in_set, SetStands, HasSet};
ghost use Rattle.sre_request.specs.Runs.{OpcodeAt, TestAt};
ghost use Rattle.sre_request.specs.Reads.{TestStandsAt, test_takes};

use crate::Request;
use crate::words::word;
use sre_chars::constants::SreOpcode;
use sre_chars::string::{LentTable, StrDrive, lower_ascii, lower_unicode, upper_ascii};
use sre_code::members::{is_in_category, is_member};
use sre_code::operands::{category_code, operand};
use std::convert::TryFrom;

// Whether a value is a character or one of its ASCII cases.
#[inline(always)]
fn is_any_case(uni: &LentTable, value: u32, character: u32) -> bool
    ensures { result ≡ is_literal uni.now Locale value character }
{
    value == character || value == lower_ascii(character) || value == upper_ascii(character)
}

// Whether a set takes one of a character's ASCII cases.
#[inline(always)]
fn takes_a_case(words: &[u32], uni: &LentTable, place: usize, character: u32) -> bool
    requires { HasSet words.now place }
    ensures { (j : ℕ) (set : List SetItem) → SetStands words.now place j set
        → result ≡ in_set uni.now Locale set character }
{
    is_member(words, uni, place, lower_ascii(character))
        || is_member(words, uni, place, upper_ascii(character))
}

/// The opcode of the test at an address.
#[inline(always)]
pub fn opcode<S: StrDrive>(req: &Request<'_, S>, place: usize) -> SreOpcode
    requires { TestAt req.now place }
    ensures { OpcodeAt req.now place result }
{
    match SreOpcode::try_from(word(req, place)) {
        Ok(opcode) => opcode,
        Err(_) => unreachable!(),
    }
}

/// Whether the test at an address takes a character.
#[tactic(auto, using(std::proofs::lemmas::Grind::elements))]
#[inline(always)]
pub fn takes<S: StrDrive>(
    req: &Request<'_, S>,
    place: usize,
    opcode: SreOpcode,
    character: u32,
) -> bool
    requires code { OpcodeAt req.now place opcode }
    requires stands { TestAt req.now place }
    ensures { (j : ℕ) (t : Test) → TestStandsAt req.now place j t
        → result ≡ test_takes req.now t character }
{
    let words = req.pattern_codes().items();
    let uni = req.pattern_codes().uni();
    // A row for each case folding except the locale's: its opcodes, and the folded character.
    macro_rules! takes_folded {
        ($($literal:ident $not_literal:ident $set:ident: $folded:expr,)*) => {
            match opcode {
                SreOpcode::ANY => character != 10,
                SreOpcode::ANY_ALL => true,
                SreOpcode::CATEGORY => is_in_category(uni, category_code(words, place + 1), character),
                $(
                    SreOpcode::$literal => operand(words, place, 1) == $folded,
                    SreOpcode::$not_literal => operand(words, place, 1) != $folded,
                    SreOpcode::$set => is_member(words, uni, place + 2, $folded),
                )*
                SreOpcode::LITERAL_LOC_IGNORE => {
                    is_any_case(uni, operand(words, place, 1), character)
                }
                SreOpcode::NOT_LITERAL_LOC_IGNORE => {
                    !is_any_case(uni, operand(words, place, 1), character)
                }
                SreOpcode::IN_LOC_IGNORE => takes_a_case(words, uni, place + 2, character),
                _ => unreachable!(),
            }
        };
    }
    takes_folded!(
        LITERAL NOT_LITERAL IN: character,
        LITERAL_IGNORE NOT_LITERAL_IGNORE IN_IGNORE: lower_ascii(character),
        LITERAL_UNI_IGNORE NOT_LITERAL_UNI_IGNORE IN_UNI_IGNORE: lower_unicode(uni, character),
    )
}

/// The same as `takes`, out of line, for rare tests.
#[inline(never)]
pub fn takes_seldom<S: StrDrive>(
    req: &Request<'_, S>,
    place: usize,
    opcode: SreOpcode,
    character: u32,
) -> bool
    requires code { OpcodeAt req.now place opcode }
    requires stands { TestAt req.now place }
    ensures { (j : ℕ) (t : Test) → TestStandsAt req.now place j t
        → result ≡ test_takes req.now t character }
{
    takes(req, place, opcode, character)
}

/// The address after the words of the test at an address.
#[tactic(auto, using(std::proofs::lemmas::Grind::elements))]
#[inline(always)]
pub fn test_end<S: StrDrive>(req: &Request<'_, S>, place: usize, opcode: SreOpcode) -> usize
    requires code { OpcodeAt req.now place opcode }
    requires stands { TestAt req.now place }
    ensures { (j : ℕ) (t : Test) → TestStandsAt req.now place j t → result ≡ j }
{
    let words = req.pattern_codes().items();
    match opcode {
        SreOpcode::ANY | SreOpcode::ANY_ALL => place + 1,
        SreOpcode::IN
        | SreOpcode::IN_IGNORE
        | SreOpcode::IN_LOC_IGNORE
        | SreOpcode::IN_UNI_IGNORE => place + 1 + operand(words, place, 1) as usize,
        _ => place + 2,
    }
}
