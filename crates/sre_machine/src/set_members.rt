//! The ASCII characters that sets take, computed for all addresses in one pass.
//!
//! What a set's items take follows from the item at an address and from what the items after it take. So one pass from
//! the last word to the first computes each set, with one visit to each word. Nothing is assumed of the bytecode. The
//! result for an address holds for each set whose items begin there.

ghost use Rattle.std.specs.Prelude.{◌≡◌, ℕ, ◌+◌, ◌<◌, ◌≤◌, length, slice_range, slice_get, Some, IfOk, IfSome};
ghost use Rattle.sre_machine.specs.Terms.{Table, Charset, item_holds, Word, Opcode, contains, HoldsFor, AreTold};
ghost use Rattle.sre_machine.specs.AskedLists.{AllTold};

use sre_chars::constants::{SreCatCode, SreOpcode};
use sre_code::ascii_set::AsciiSet;
use sre_code::operands::word;
use sre_growth::Refusal;
use sre_request::words::word_at;
use std::alloc::Allocator;
use std::convert::TryFrom;

// The ASCII characters that an item of a set matches, and the address of the next item.
#[derive(Clone, Copy)]
struct Item {
    members: AsciiSet,
    next: usize,
}

// The ASCII characters whose bits are set in the words after a CHARSET.
fn ascii_bits(words: &[u32], place: usize) -> AsciiSet
    requires { place + 9 ≤ length words.now }
    ensures { (table : Table) (c : ℕ) → c < 128
        → contains result c ≡ item_holds table (Charset (slice_range words.now (place + 1) (place + 9))) c }
{
    let _length = words.len(); // a slice has few items, so no address overflows
    AsciiSet::of_bits([
        words[place + 1],
        words[place + 2],
        words[place + 3],
        words[place + 4],
    ])
}

// The item of a CHARSET, if its words exist.
fn charset(words: &[u32], place: usize) -> Option<Item>
    requires { Opcode words.now place SreOpcode.CHARSET }
    ensures { IfSome result (λ item. HoldsFor words.now place item.members item.next) }
{
    let length = words.len();
    if length < 9 || place > length - 9 {
        return None;
    }
    Some(Item {
        members: ascii_bits(words, place),
        next: place + 9,
    })
}

// The item at an address, if it is a LITERAL, a RANGE, a CATEGORY or a CHARSET whose operands exist.
fn item_at(words: &[u32], place: usize, opcode: SreOpcode) -> Option<Item>
    requires { Opcode words.now place opcode }
    ensures { IfSome result (λ item. HoldsFor words.now place item.members item.next) }
{
    let _length = words.len(); // a slice has few items, so no address overflows
    match opcode {
        SreOpcode::LITERAL => {
            let value = word_at(words, place + 1)?;
            Some(Item {
                members: AsciiSet::of_character(value),
                next: place + 2,
            })
        }
        SreOpcode::RANGE => {
            let low = word_at(words, place + 1)?;
            let high = word_at(words, place + 2)?;
            Some(Item {
                members: AsciiSet::of_range(low, high),
                next: place + 3,
            })
        }
        SreOpcode::CATEGORY => {
            let number = word_at(words, place + 1)?;
            match SreCatCode::try_from(number) {
                Ok(code) => Some(Item {
                    members: AsciiSet::of_category(code),
                    next: place + 2,
                }),
                Err(_) => None,
            }
        }
        SreOpcode::CHARSET => charset(words, place),
        _ => None,
    }
}

/// The entry of an address, if it is known.
pub(crate) fn members_at(words: &[u32], list: &[Option<AsciiSet>], place: usize) -> Option<AsciiSet>
    requires { AllTold words.now list.now }
    ensures { AreTold words.now place result }
{
    match list.get(place) {
        Some(members) => *members,
        None => None,
    }
}

// The ASCII characters of a set whose items begin at an address, from those that the items after it take.
#[tactic(auto, using(crate::proofs::ByPlace::members_laws))]
fn members(words: &[u32], list: &[Option<AsciiSet>], place: usize) -> Option<AsciiSet>
    requires there { place < length words.now }
    requires told { AllTold words.now list.now }
    ensures { AreTold words.now place result }
{
    let opcode = SreOpcode::try_from(word(words, place)).ok()?;
    match opcode {
        SreOpcode::FAILURE => Some(AsciiSet::new()),
        SreOpcode::NEGATE => {
            let others = members_at(words, list, place + 1)?;
            Some(others.complement())
        }
        _ => {
            let first = item_at(words, place, opcode)?;
            let others = members_at(words, list, first.next)?;
            Some(first.members.union(others))
        }
    }
}

/// A list of so many equal items.
pub(crate) fn filled<T: Copy + Drop, A: Allocator>(
    alloc: A,
    count: usize,
    value: T,
) -> Result<Vec<T, A>, Refusal<A>>
    ensures length { IfOk result (λ list. length list.items ≡ count) }
    ensures each { IfOk result (λ list. (i : ℕ) (x : T) → slice_get list.items i ≡ Some x → x ≡ value) }
{
    let mut list = Vec::new(alloc);
    fill(&mut list, count, value)?;
    Ok(list)
}

/// Fills a list with so many equal items, and reuses its memory.
pub(crate) fn fill<T: Copy + Drop, A: Allocator>(
    list: &mut Vec<T, A>,
    count: usize,
    value: T,
) -> Result<(), Refusal<A>>
    ensures length { IfOk result (λ _. length list.new.items ≡ count) }
    ensures each { IfOk result (λ _. (i : ℕ) (x : T) → slice_get list.new.items i ≡ Some x → x ≡ value) }
{
    list.clear();
    'item: for _item in 0..count {
        sre_growth::push(list, value)?;
    }
    Ok(())
}

/// For each address, the ASCII characters of a set whose items begin there, if they are known. They are known if each
/// item is a LITERAL, a RANGE, a CATEGORY, a CHARSET or a NEGATE.
///
/// # Errors
///
/// [`Refusal`] if an allocation fails.
pub(crate) fn set_members<A: Allocator>(
    alloc: A,
    words: &[u32],
) -> Result<Vec<Option<AsciiSet>, A>, Refusal<A>>
    ensures { IfOk result (λ list. AllTold words.now list.items) }
{
    let mut list = filled(alloc, words.len(), None)?;
    let mut place = words.len();
    'place: while place > 0 {
        place -= 1;
        list[place] = members(words, &list, place);
    }
    Ok(list)
}
