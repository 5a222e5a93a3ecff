//! Search hints: which claims of the INFO block the items confirm.
//!
//! The block is `<INFO> <skip> <flags> <least width> <greatest width>`, then a prefix or a set, as the flags say.

ghost use Rattle.std.specs.Prelude.{◌≡◌, ◌≤◌};
ghost use Rattle.sre_code.specs.Terms.{Tree, WholeItems, width, confirmed_width, behind_prefix, is_literal};
ghost use Rattle.sre_code.specs.Hints.{Fronts, HasBlock, Ends, LeftAt};
ghost use Rattle.sre_code.specs.Hinted.{Confirmed};

use crate::code::{Hints, first_set, prefix};
use sre_chars::string::LentTable;

/// The least width that the block claims, if it is at most that of the items.
fn width(words: &[u32], length: usize, least: u32) -> Option<u32>
    requires { HasBlock words.now length }
    ensures { (tree : Tree) → least ≡ width tree → result ≡ confirmed_width words.now tree }
{
    if words[3] <= least {
        Some(words[3])
    } else {
        None
    }
}

/// Whether no item follows the prefix, which ends at `place`, and none of its literals need be tested again.
#[tactic(auto, using(crate::proofs::Claimed::literal_laws))]
fn is_literal(words: &[u32], length: usize, items: &[u32], place: usize) -> bool
    requires block { HasBlock words.now length }
    requires long { 9 ≤ length }
    requires left { LeftAt items.now 0 place (behind_prefix words.now) }
    ensures { (tree : Tree) → WholeItems items.now tree → result ≡ is_literal words.now tree }
{
    if words[2] / 2 % 2 == 0 || words[5] != words[6] {
        return false;
    }
    let _length = items.len(); // bounds the length of the slice, so no address overflows
    place + 1 == items.len()
}

/// The confirmed hints of a code whose INFO block has `length` words, and whose items have the least width `least`.
#[tactic(auto, using(crate::proofs::Claimed::hints_laws))]
pub fn confirmed(words: &[u32], length: usize, uni: &LentTable, items: &[u32], least: u32) -> Hints
    requires front { Fronts words.now length }
    requires ends { Ends items.now }
    ensures { (tree : Tree) → WholeItems items.now tree → least ≡ width tree
        → Confirmed words.now uni.now tree result }
{
    if length == 0 {
        return Hints {
            width: None,
            prefix: None,
            literal: false,
            first_set: false,
        };
    }
    let width = width(words, length, least);
    match prefix::behind(words, length, items) {
        Some(place) => Hints {
            width,
            prefix: Some((words[5], words[6])),
            literal: is_literal(words, length, items, place),
            first_set: false,
        },
        None => Hints {
            width,
            prefix: None,
            literal: false,
            first_set: first_set::is_confirmed(words, length, uni, items),
        },
    }
}
