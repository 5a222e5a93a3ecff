//! From which character on a test has a constant result.
//!
//! Then the results up to that character determine the class of all characters. The bound is unknown if a Unicode table
//! decides: for case, and for Unicode's letters and digits.

ghost use Rattle.std.specs.Prelude.{◌≡◌, ◌+◌, ℕ, IfSome};
ghost use Rattle.sre_patterns.specs.Terms.{Table, Test, Opcode, HasSet, HasTest, TestStands, holds, items_of, uni_of};
ghost use Rattle.sre_patterns.specs.Terms.{category_number};
ghost use Rattle.sre_chars.specs.Categories.{category};
ghost use Rattle.sre_patterns.specs.Settling.{SettledFrom, SettledSet, SettlesBehind};

use sre_chars::constants::{SreCatCode, SreOpcode};
use sre_code::Code;
use sre_code::members::opcode;
use sre_code::operands::{category_code, operand};

// From which character on an item of a set is constant, and the address of the next item.
#[derive(Clone, Copy)]
struct SettledItem {
    from: u32,
    next: usize,
}

// The next number.
fn behind(value: u32) -> Option<u32>
    ensures { IfSome result (λ n. n ≡ value + 1) }
{
    value.checked_add(1)
}

// From which character on a category is constant.
fn settled_category(code: SreCatCode) -> Option<u32>
    ensures { IfSome result (λ from. (table : Table) → SettledFrom from (category table (category_number code))) }
{
    match code {
        SreCatCode::UNI_SPACE | SreCatCode::UNI_NOT_SPACE => Some(12289),
        SreCatCode::UNI_LINEBREAK | SreCatCode::UNI_NOT_LINEBREAK => Some(8234),
        SreCatCode::UNI_DIGIT
        | SreCatCode::UNI_NOT_DIGIT
        | SreCatCode::UNI_WORD
        | SreCatCode::UNI_NOT_WORD => None,
        _ => Some(128),
    }
}

// From which character on an item of a set is constant.
#[tactic(auto, using(crate::proofs::Tests::item_laws))]
fn settled_item(words: &[u32], place: usize, opcode: SreOpcode) -> Option<SettledItem>
    requires opcode { Opcode words.now place opcode }
    requires stands { HasSet words.now place }
    ensures { IfSome result (λ item. SettlesBehind words.now place item.next item.from) }
{
    let _length = words.len(); // a slice is short enough that no address overflows
    match opcode {
        SreOpcode::LITERAL => Some(SettledItem {
            from: behind(operand(words, place, 1))?,
            next: place + 2,
        }),
        SreOpcode::RANGE => Some(SettledItem {
            from: behind(operand(words, place, 2))?,
            next: place + 3,
        }),
        SreOpcode::CATEGORY => Some(SettledItem {
            from: settled_category(category_code(words, place + 1))?,
            next: place + 2,
        }),
        SreOpcode::CHARSET => Some(SettledItem {
            from: 256,
            next: place + 9,
        }),
        SreOpcode::NEGATE => Some(SettledItem {
            from: 0,
            next: place + 1,
        }),
        _ => None,
    }
}

// From which character on the set with items from `start` on is constant.
#[tactic(auto, using(sre_model::proofs::Opcodes::opcode_within))]
fn settled_set(words: &[u32], start: usize) -> Option<u32>
    requires { HasSet words.now start }
    ensures { IfSome result (λ from. SettledSet words.now start from) }
{
    let mut place = start;
    let mut from: u32 = 0;
    'item: loop {
        match opcode(words, place) {
            SreOpcode::FAILURE => return Some(from),
            code => {
                let item = settled_item(words, place, code)?;
                from = from.max(item.from);
                place = item.next;
            }
        }
    }
}

/// From which character on the test at an address is constant, if that is known.
pub(crate) fn settled_from(code: &Code<'_>, place: usize, opcode: SreOpcode) -> Option<u32>
    requires code { Opcode (items_of code.now) place opcode }
    requires stands { HasTest (items_of code.now) place }
    ensures { IfSome result (λ from. (j : ℕ) (t : Test) → TestStands (items_of code.now) place j t
        → SettledFrom from (holds (uni_of code.now) t)) }
{
    let words = code.items();
    let _length = words.len(); // a slice is short enough that no address overflows
    match opcode {
        SreOpcode::ANY => Some(11),
        SreOpcode::ANY_ALL => Some(0),
        SreOpcode::CATEGORY => settled_category(category_code(words, place + 1)),
        SreOpcode::LITERAL
        | SreOpcode::LITERAL_IGNORE
        | SreOpcode::LITERAL_LOC_IGNORE
        | SreOpcode::NOT_LITERAL
        | SreOpcode::NOT_LITERAL_IGNORE
        | SreOpcode::NOT_LITERAL_LOC_IGNORE => Some(behind(operand(words, place, 1))?.max(128)),
        SreOpcode::IN | SreOpcode::IN_IGNORE | SreOpcode::IN_LOC_IGNORE => {
            Some(settled_set(words, place + 2)?.max(128))
        }
        _ => None,
    }
}
