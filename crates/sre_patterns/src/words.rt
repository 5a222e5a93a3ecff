//! Reads code words where the tree determines what they are.

ghost use Rattle.std.specs.Prelude.{◌≡◌, ◌+◌, ◌<◌, ◌^◌, length};
ghost use Rattle.sre_patterns.specs.Terms.{Word, Opcode, HasTest, items_of, at_number};
ghost use Rattle.sre_patterns.specs.Patterns.{HasItem};
ghost use Rattle.sre_model.specs.Grammar as grammar;

use sre_chars::constants::{SreAtCode, SreOpcode};
use sre_code::{Code, operands};
use sre_request::Request;
use sre_request::one_character::opcode;
use std::convert::TryFrom;

/// The code word at an address.
pub(crate) fn word(code: &Code<'_>, place: usize) -> u32
    requires { place < length (items_of code.now) }
    ensures word { Word (items_of code.now) place result }
    ensures room { place + 2 ^ 33 < 2 ^ 64 }
{
    operands::word(code.items(), place)
}

/// The code word at `place + offset`.
pub(crate) fn operand(code: &Code<'_>, place: usize, offset: usize) -> u32
    requires { place + offset < length (items_of code.now) }
    ensures word { Word (items_of code.now) (place + offset) result }
    ensures room { place + 2 ^ 33 < 2 ^ 64 }
{
    operands::operand(code.items(), place, offset)
}

/// The target of the skip word at `place + offset`. A skip counts from the word after the opcode.
pub(crate) fn skip(code: &Code<'_>, place: usize, offset: usize) -> usize
    requires { place + offset < length (items_of code.now) }
    ensures to { result ≡ place + 1 + grammar.word (items_of code.now) (place + offset) }
    ensures room { place + 2 ^ 33 < 2 ^ 64 }
{
    let skip = operand(code, place, offset) as usize;
    place + 1 + skip
}

/// The opcode of the item at an address.
pub(crate) fn item_opcode(code: &Code<'_>, place: usize) -> SreOpcode
    requires { HasItem (items_of code.now) place }
    ensures word { Opcode (items_of code.now) place result }
    ensures room { place + 2 ^ 33 < 2 ^ 64 }
{
    match SreOpcode::try_from(word(code, place)) {
        Ok(opcode) => opcode,
        Err(_) => unreachable!(),
    }
}

/// The opcode of the test at an address.
pub(crate) fn test_opcode(code: &Code<'_>, place: usize) -> SreOpcode
    requires { HasTest (items_of code.now) place }
    ensures { Opcode (items_of code.now) place result }
{
    opcode(&Request::new(b"".as_slice(), 0, 0, *code, false), place)
}

/// The position code of the AT instruction at an address.
pub(crate) fn at_code(code: &Code<'_>, place: usize) -> SreAtCode
    requires opcode { Opcode (items_of code.now) place SreOpcode.AT }
    requires item { HasItem (items_of code.now) place }
    ensures word { Word (items_of code.now) (place + 1) (at_number result) }
    ensures room { place + 2 ^ 33 < 2 ^ 64 }
{
    match SreAtCode::try_from(operand(code, place, 1)) {
        Ok(code) => code,
        Err(_) => unreachable!(),
    }
}
