//! The ASCII characters of a set, as an [`AsciiSet`].
//!
//! Most characters are ASCII. For these a test of one bit replaces a loop over the set's items.

ghost use Rattle.std.specs.Prelude.{◌≡◌, ℕ, ◌+◌, ◌<◌, ◌≤◌, ◌&&◌, ◌||◌, List, length, slice_range, IfSome};
ghost use Rattle.sre_code.specs.Terms.{Table, SetItem, Charset, item_holds, is_member, Opcode, SetStands, HasSet};
ghost use Rattle.sre_code.specs.AsciiSet.{contains};
ghost use Rattle.sre_code.specs.AsciiSets.{HoldsFor};

use crate::ascii_set::AsciiSet;
use crate::members::opcode;
use crate::operands::{category_code, operand};
use sre_chars::constants::SreOpcode;

// The ASCII characters for which an item of a set holds, and the address of the next item.
#[derive(Clone, Copy)]
struct AsciiItem {
    members: AsciiSet,
    next: usize,
}

// The ASCII characters whose bits are set in the words after a CHARSET.
#[inline(always)]
fn ascii_bits(words: &[u32], place: usize) -> AsciiSet
    requires { place + 9 ≤ length words.now }
    ensures { (table : Table) (c : ℕ) → c < 128
        → contains result c ≡ item_holds table (Charset (slice_range words.now (place + 1) (place + 9))) c }
{
    let _length = words.len(); // bounds the length of the slice, so no address overflows
    AsciiSet::of_bits([
        words[place + 1],
        words[place + 2],
        words[place + 3],
        words[place + 4],
    ])
}

// The ASCII characters for which the item at `place` holds. `None` for RANGE_UNI_IGNORE and BIGCHARSET.
#[inline(always)]
fn ascii_item(words: &[u32], place: usize, opcode: SreOpcode) -> Option<AsciiItem>
    requires opcode { Opcode words.now place opcode }
    requires stands { HasSet words.now place }
    ensures { IfSome result (λ item. HoldsFor words.now place item.members item.next) }
{
    match opcode {
        SreOpcode::LITERAL => Some(AsciiItem {
            members: AsciiSet::of_character(operand(words, place, 1)),
            next: place + 2,
        }),
        SreOpcode::RANGE => Some(AsciiItem {
            members: AsciiSet::of_range(operand(words, place, 1), operand(words, place, 2)),
            next: place + 3,
        }),
        SreOpcode::CATEGORY => Some(AsciiItem {
            members: AsciiSet::of_category(category_code(words, place + 1)),
            next: place + 2,
        }),
        SreOpcode::CHARSET => Some(AsciiItem {
            members: ascii_bits(words, place),
            next: place + 9,
        }),
        _ => None,
    }
}

// The members of a set, and those of another one if they are wanted.
#[inline(always)]
fn union_if(members: AsciiSet, others: AsciiSet, wanted: bool) -> AsciiSet
    ensures { (c : ℕ) → contains result c ≡ contains members c || (wanted && contains others c) }
{
    if wanted {
        members.union(others)
    } else {
        members
    }
}

/// The ASCII characters of the set whose items begin at `start`, or `None` if it has a RANGE_UNI_IGNORE or a BIGCHARSET
/// item before its FAILURE.
#[inline(never)]
pub fn ascii_members(words: &[u32], start: usize) -> Option<AsciiSet>
    requires { HasSet words.now start }
    ensures { (table : Table) (j : ℕ) (set : List SetItem) → SetStands words.now start j set
        → IfSome result (λ members. (c : ℕ) → c < 128 → contains members c ≡ is_member table set c) }
{
    let mut place = start;
    let mut taken = true;
    let mut members = AsciiSet::new();
    // The characters for which no item holds so far.
    let mut left = AsciiSet::new().complement();
    'item: loop {
        match opcode(words, place) {
            SreOpcode::FAILURE => {
                return Some(union_if(members, left, !taken));
            }
            SreOpcode::NEGATE => {
                taken = !taken;
                place += 1;
            }
            code => {
                let item = ascii_item(words, place, code)?;
                let rest = left.difference(item.members);
                members = union_if(members, left.difference(rest), taken);
                left = rest;
                place = item.next;
            }
        }
    }
}
