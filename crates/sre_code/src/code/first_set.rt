//! A first set: the items of a set and FAILURE, from address 5 up to the end of the INFO block.
//!
//! After MARK items, the code has to begin with a literal in the set, or with an IN of the same words. Or it begins
//! with a branch whose alternatives all begin like this.

ghost use Rattle.std.specs.Prelude.{◌≡◌, ◌≤◌, ◌↔◌, IsTrue, List, length, slice_range};
ghost use Rattle.sre_code.specs.Terms.{Decides, Tree, SetItem, is_member, WholeItems, behind_marks, HasFirstSet};
ghost use Rattle.sre_code.specs.Terms.{TestIn, EachTestIn, FirstIn};
ghost use Rattle.sre_code.specs.Hints.{HasBlock, Ends, HasBlockSet, IsSetUpTo, Tells, TellsEach};

use crate::ascii_members::ascii_members;
use crate::ascii_set::AsciiSet;
use crate::code::prefix::behind_marks;
use crate::code::{set, words};
use crate::members;
use crate::operands::know_words;
use sre_chars::constants::SreOpcode;
use sre_chars::string::LentTable;

/// The set in an INFO block that ends at `end`, and its ASCII members if they are known.
#[derive(Clone, Copy)]
pub(crate) struct BlockSet<'a> {
    words: &'a [u32],
    end: usize,
    uni: &'a LentTable<'a>,
    ascii: Option<AsciiSet>,
}

/// Whether a character is in the set.
fn has(block: &BlockSet<'_>, character: u32) -> bool
    requires set { HasBlockSet block.now.end block.now.words.now block.now.ascii }
    ensures { (set : List SetItem) → IsSetUpTo block.now.end block.now.words.now set
        → result ≡ is_member block.now.uni.now set character }
{
    if let Some(members) = block.ascii {
        if character < 128 {
            return members.contains(character);
        }
    }
    members::is_member(block.words, block.uni, 5, character)
}

/// Whether the words from `start` to `tail` are those of the set, with its FAILURE.
fn are_words_of_set(block: &BlockSet<'_>, items: &[u32], start: usize, tail: usize) -> bool
    requires set { HasBlockSet block.now.end block.now.words.now block.now.ascii }
    ensures { IsTrue result ↔ ((start ≤ tail) × (tail ≤ length items.now)
        × (slice_range items.now start tail ≡ slice_range block.now.words.now 5 block.now.end)) }
{
    if start > tail || tail > items.len() {
        return false;
    }
    items[start..tail] == block.words[5..block.end]
}

/// Whether the test at `place` matches only characters of the set.
#[tactic(auto, using(crate::proofs::FirstSets::test_laws))]
fn is_test_in(block: &BlockSet<'_>, items: &[u32], place: usize) -> bool
    requires set { HasBlockSet block.now.end block.now.words.now block.now.ascii }
    ensures { (set : List SetItem) → IsSetUpTo block.now.end block.now.words.now set
        → Tells items.now place result (TestIn block.now.uni.now set) }
{
    know_words(block.words);
    know_words(items);
    let _length = items.len(); // bounds the length of the slice, so no address overflows
    let Ok(code) = words::opcode(items, place) else {
        return false;
    };
    let Ok(operand) = words::operand(items, place + 1) else {
        return false;
    };
    match code {
        SreOpcode::LITERAL => has(block, operand),
        SreOpcode::IN => are_words_of_set(block, items, place + 2, place + 1 + operand as usize),
        _ => false,
    }
}

/// Whether such a test follows the MARK items at `place`.
#[tactic(auto, using(crate::proofs::FirstSets::passed_told))]
fn begins_in(block: &BlockSet<'_>, items: &[u32], place: usize) -> bool
    requires set { HasBlockSet block.now.end block.now.words.now block.now.ascii }
    requires place { place ≤ length items.now }
    ensures { (set : List SetItem) → IsSetUpTo block.now.end block.now.words.now set
        → Tells items.now place result (λ (t : Tree). TestIn block.now.uni.now set (behind_marks t)) }
{
    is_test_in(block, items, behind_marks(items, place))
}

/// Whether each alternative begins with such a test, from the one whose length is at `start`.
#[tactic(auto, using(crate::proofs::FirstSets::alternatives_laws))]
fn each_begins_in(block: &BlockSet<'_>, items: &[u32], start: usize) -> bool
    requires set { HasBlockSet block.now.end block.now.words.now block.now.ascii }
    ensures { (set : List SetItem) → IsSetUpTo block.now.end block.now.words.now set
        → TellsEach items.now start result (EachTestIn block.now.uni.now set) }
{
    let _length = items.len(); // bounds the length of the slice, so no address overflows
    let mut place = start;
    'alternative: loop {
        let Ok(span) = words::operand(items, place) else {
            return false;
        };
        if span == 0 {
            return true;
        }
        if !begins_in(block, items, place + 1) {
            return false;
        }
        place += span as usize;
    }
}

/// Whether such a test is at `place`, or a branch whose alternatives all begin with one.
#[tactic(auto, using(crate::proofs::FirstSets::first_laws))]
fn first_in(block: &BlockSet<'_>, items: &[u32], place: usize) -> bool
    requires set { HasBlockSet block.now.end block.now.words.now block.now.ascii }
    ensures { (set : List SetItem) → IsSetUpTo block.now.end block.now.words.now set
        → Tells items.now place result (FirstIn block.now.uni.now set) }
{
    let Ok(code) = words::opcode(items, place) else {
        return false;
    };
    let _length = items.len(); // bounds the length of the slice, so no address overflows
    match code {
        SreOpcode::BRANCH => each_begins_in(block, items, place + 1),
        _ => is_test_in(block, items, place),
    }
}

/// Whether the INFO block has a first set that the items confirm.
#[tactic(auto, using(crate::proofs::FirstSets::set_laws))]
pub fn is_confirmed(words: &[u32], end: usize, uni: &LentTable, items: &[u32]) -> bool
    requires block { HasBlock words.now end }
    requires ends { Ends items.now }
    ensures { (tree : Tree) → WholeItems items.now tree → Decides result (HasFirstSet words.now uni.now tree) }
{
    if words[2] % 2 == 1 || words[2] / 4 % 2 == 0 || end < 6 {
        return false;
    }
    if words[end - 1] != SreOpcode::FAILURE as u32 {
        return false;
    }
    let Ok(()) = set::items(words, 5, end - 1) else {
        return false;
    };
    let block = BlockSet {
        words,
        end,
        uni,
        ascii: ascii_members(words, 5),
    };
    first_in(&block, items, behind_marks(items, 0))
}
