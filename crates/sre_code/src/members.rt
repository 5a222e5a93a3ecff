//! Sets: whether the set at an address has a character.
//!
//! A set is items, then FAILURE. The first item that holds for a character decides, and each NEGATE before it inverts
//! the result. For each kind of item a function returns whether it holds, and the address of the next one.

ghost use Rattle.std.specs.Prelude.{◌≡◌, ℕ, ◌+◌, ◌*◌, ◌/◌, ◌%◌, ◌^◌, ◌<◌, ◌≤◌, ◌≢◌, List, length, nat_eq, slice_index};
ghost use Rattle.std.specs.Prelude.{slice_range};
ghost use Rattle.sre_code.specs.Terms.{category_number, category, Table, is_between, SetItem, Charset, item_holds};
ghost use Rattle.sre_code.specs.Terms.{is_member, Opcode, word, BlocksBelow, SetStands, HasSet, ItemSays, flat_map};
ghost use Rattle.sre_code.specs.Terms.{RangeUniIgnore, BigCharset, bytes_of};

use crate::ascii_set::AsciiSet;
use crate::operands::{category_code, operand, word};
use sre_chars::constants::{SreCatCode, SreOpcode};
use sre_chars::string::{LentTable, category, upper_unicode};
use std::convert::TryFrom;

// An item of a set: whether it holds for the character, and the address of the next one.
#[derive(Clone, Copy)]
struct Item {
    holds: bool,
    next: usize,
}

// The opcode of an item, or the FAILURE that ends the set.
#[inline(always)]
pub fn opcode(words: &[u32], place: usize) -> SreOpcode
    requires { HasSet words.now place }
    ensures { Opcode words.now place result }
{
    match SreOpcode::try_from(word(words, place)) {
        Ok(opcode) => opcode,
        Err(_) => unreachable!(),
    }
}

// Whether a character is from `low` to `high`, both included.
#[inline(always)]
pub fn is_between(low: u32, high: u32, character: u32) -> bool
    ensures { result ≡ is_between low high character }
{
    low <= character && character <= high
}

// Bit k of a word, where 0 is the least significant.
#[inline(always)]
fn bit(word: u32, k: u32) -> bool
    requires { k < 32 }
    ensures { result ≡ nat_eq (word / 2 ^ k % 2) 1 }
{
    (word >> k) % 2 == 1
}

/// `LITERAL value`: holds for the value.
#[inline(always)]
fn literal(words: &[u32], uni: &LentTable, place: usize, character: u32) -> Item
    requires opcode { Opcode words.now place SreOpcode.LITERAL }
    requires stands { HasSet words.now place }
    ensures { ItemSays words.now uni.now place character result.holds result.next }
{
    let value = operand(words, place, 1);
    Item {
        holds: character == value,
        next: place + 2,
    }
}

/// `RANGE low high`: holds from low to high.
#[inline(always)]
fn range(words: &[u32], uni: &LentTable, place: usize, character: u32) -> Item
    requires opcode { Opcode words.now place SreOpcode.RANGE }
    requires stands { HasSet words.now place }
    ensures { ItemSays words.now uni.now place character result.holds result.next }
{
    let low = operand(words, place, 1);
    let high = operand(words, place, 2);
    Item {
        holds: is_between(low, high, character),
        next: place + 3,
    }
}

// Whether a character or its upper case is from `low` to `high`. It is not inlined, since it would take registers from
// the loop over the items.
#[inline(never)]
fn is_between_ignoring_case(uni: &LentTable, low: u32, high: u32, character: u32) -> bool
    ensures { result ≡ item_holds uni.now (RangeUniIgnore low high) character }
{
    is_between(low, high, character) || is_between(low, high, upper_unicode(uni, character))
}

/// `RANGE_UNI_IGNORE low high`: holds if the character or its upper case is from low to high.
#[inline(always)]
fn range_ignoring_case(words: &[u32], uni: &LentTable, place: usize, character: u32) -> Item
    requires opcode { Opcode words.now place SreOpcode.RANGE_UNI_IGNORE }
    requires stands { HasSet words.now place }
    ensures { ItemSays words.now uni.now place character result.holds result.next }
{
    let low = operand(words, place, 1);
    let high = operand(words, place, 2);
    Item {
        holds: is_between_ignoring_case(uni, low, high, character),
        next: place + 3,
    }
}

/// Whether a character is in a category. An ASCII character is looked up as a bit, any other one in the table. It is
/// not inlined, for the same reason.
#[inline(never)]
pub fn is_in_category(uni: &LentTable, code: SreCatCode, character: u32) -> bool
    ensures { result ≡ category uni.now (category_number code) character }
{
    if character < 128 {
        return AsciiSet::of_category(code).contains(character);
    }
    category(uni, code, character)
}

/// `CATEGORY code`: holds for the characters of the category.
#[inline(always)]
fn in_category(words: &[u32], uni: &LentTable, place: usize, character: u32) -> Item
    requires opcode { Opcode words.now place SreOpcode.CATEGORY }
    requires stands { HasSet words.now place }
    ensures { ItemSays words.now uni.now place character result.holds result.next }
{
    let code = category_code(words, place + 1);
    Item {
        holds: is_in_category(uni, code, character),
        next: place + 2,
    }
}

// Whether a character's bit is set in the eight words after a CHARSET.
#[inline(always)]
pub fn has_bit(words: &[u32], place: usize, character: u32) -> bool
    requires { place + 9 ≤ length words.now }
    ensures { (table : Table)
        → result ≡ item_holds table (Charset (slice_range words.now (place + 1) (place + 9))) character }
{
    if character >= 256 {
        return false;
    }
    let word = words[place + 1 + (character / 32) as usize];
    bit(word, character % 32)
}

/// `CHARSET`, then eight words: holds below 256 if the character's bit is set.
#[inline(always)]
fn charset(words: &[u32], uni: &LentTable, place: usize, character: u32) -> Item
    requires opcode { Opcode words.now place SreOpcode.CHARSET }
    requires stands { HasSet words.now place }
    ensures { ItemSays words.now uni.now place character result.holds result.next }
{
    Item {
        holds: has_bit(words, place, character),
        next: place + 9,
    }
}

// The block number of a character. Each word has four, the least significant byte first.
#[inline(always)]
fn block(words: &[u32], place: usize, character: u32) -> usize
    requires below { character < 65536 }
    requires room { place + 66 ≤ length words.now }
    requires blocks { BlocksBelow (word words.now (place + 1)) (slice_range words.now (place + 2) (place + 66)) }
    ensures below { result < word words.now (place + 1) }
    ensures number { result
        ≡ slice_index (flat_map bytes_of (slice_range words.now (place + 2) (place + 66))) (character / 256) }
{
    let k = character / 256;
    let numbers = words[place + 2 + (k / 4) as usize];
    ((numbers >> (8 * (k % 4))) % 256) as usize
}

// Whether a character's bit is set in its block of a BIGCHARSET. It is not inlined, for the same reason.
#[inline(never)]
fn has_bit_in_block(words: &[u32], place: usize, character: u32) -> bool
    requires room { place + 66 + word words.now (place + 1) * 8 ≤ length words.now }
    requires blocks { BlocksBelow (word words.now (place + 1)) (slice_range words.now (place + 2) (place + 66)) }
    ensures { (table : Table)
        → result ≡ item_holds table (BigCharset (flat_map bytes_of (slice_range words.now (place + 2) (place + 66)))
        (slice_range words.now (place + 66) (place + 66 + word words.now (place + 1) * 8))) character }
{
    if character >= 65536 {
        return false;
    }
    let _length = words.len(); // bounds the length of the slice, so no address overflows
    let start = place + 66 + 8 * block(words, place, character);
    let word = words[start + (character % 256 / 32) as usize];
    bit(word, character % 32)
}

/// `BIGCHARSET count`, 64 words of block numbers, then eight words a block: holds below 65536 if the character's bit is
/// set in its block.
#[inline(always)]
fn big_charset(words: &[u32], uni: &LentTable, place: usize, character: u32) -> Item
    requires opcode { Opcode words.now place SreOpcode.BIGCHARSET }
    requires stands { HasSet words.now place }
    ensures { ItemSays words.now uni.now place character result.holds result.next }
{
    let count = operand(words, place, 1) as usize;
    Item {
        holds: has_bit_in_block(words, place, character),
        next: place + 66 + count * 8,
    }
}

// An item other than NEGATE.
#[inline(always)]
fn one_item(words: &[u32], uni: &LentTable, place: usize, opcode: SreOpcode, character: u32) -> Item
    requires opcode { Opcode words.now place opcode }
    requires stands { HasSet words.now place }
    requires holds { opcode ≢ SreOpcode.FAILURE }
    requires turns { opcode ≢ SreOpcode.NEGATE }
    ensures { ItemSays words.now uni.now place character result.holds result.next }
{
    match opcode {
        SreOpcode::LITERAL => literal(words, uni, place, character),
        SreOpcode::RANGE => range(words, uni, place, character),
        SreOpcode::RANGE_UNI_IGNORE => range_ignoring_case(words, uni, place, character),
        SreOpcode::CATEGORY => in_category(words, uni, place, character),
        SreOpcode::CHARSET => charset(words, uni, place, character),
        SreOpcode::BIGCHARSET => big_charset(words, uni, place, character),
        _ => unreachable!(),
    }
}

/// Whether the set whose items begin at `start` has a character. It is not inlined, since many tests call it.
#[inline(never)]
pub fn is_member(words: &[u32], uni: &LentTable, start: usize, character: u32) -> bool
    requires { HasSet words.now start }
    ensures { (j : ℕ) (set : List SetItem) → SetStands words.now start j set
        → result ≡ is_member uni.now set character }
{
    let _length = words.len(); // bounds the length of the slice, so no address overflows
    let mut place = start;
    let mut taken = true;
    'item: loop {
        match opcode(words, place) {
            SreOpcode::FAILURE => return !taken,
            SreOpcode::NEGATE => {
                taken = !taken;
                place += 1;
            }
            code => {
                let item = one_item(words, uni, place, code, character);
                if item.holds {
                    return taken;
                }
                place = item.next;
            }
        }
    }
}
