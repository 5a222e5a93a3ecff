//! A literal prefix: `<length> <skip>`, its words, and the border length of each of its beginnings.
//!
//! The items have to begin with LITERAL items of its words. The first ones, as many as the skip says, follow each other
//! directly; the others have only MARK items before and between them.

ghost use Rattle.std.specs.Prelude.{◌≡◌, ◌+◌, ◌*◌, ◌<◌, ◌≤◌, ◌↔◌, IsTrue, true, false, length, MatchOption, OnSome};
ghost use Rattle.sre_model.specs.Claims.{behind_adjacent, behind_spread, behind_literals, behind_prefix, has_prefix};
ghost use Rattle.sre_model.specs.Claims.{prefix_words};
ghost use Rattle.sre_code.specs.Hints.{HasBlock, Ends, IsLiteralAt, MarksPassed, LeftBehind};

use crate::code::borders;
use sre_chars::constants::SreOpcode;

/// Whether a LITERAL of this value is at `place`.
#[tactic(auto, using(crate::proofs::Claimed::literal_there, crate::proofs::Claimed::literal_words))]
fn is_literal(words: &[u32], place: usize, value: u32) -> bool
    requires { place ≤ length words.now }
    ensures { IsTrue result ↔ IsLiteralAt words.now place value }
{
    place + 1 < words.len()
        && words[place] == SreOpcode::LITERAL as u32
        && words[place + 1] == value
}

/// The address after the MARK items at `start`.
#[tactic(auto, using(crate::proofs::Claimed::marks_laws))]
pub fn behind_marks(words: &[u32], start: usize) -> usize
    requires { start ≤ length words.now }
    ensures { MarksPassed words.now start result }
{
    let mut place = start;
    'mark: while place + 1 < words.len() && words[place] == SreOpcode::MARK as u32 {
        place += 2;
    }
    place
}

/// The address after these literals, if the items begin with them, one directly after the other.
#[tactic(auto, using(crate::proofs::Claimed::adjacent_laws))]
fn behind_adjacent(words: &[u32], literals: &[u32]) -> Option<usize>
    requires { Ends words.now }
    ensures { LeftBehind words.now 0 (behind_adjacent literals.now) result }
{
    let mut place = 0;
    'literal: for literal in literals {
        if !is_literal(words, place, *literal) {
            return None;
        }
        place += 2;
    }
    Some(place)
}

/// The address after these literals, if they follow at `start`, with only MARK items before or between them.
#[tactic(auto, using(crate::proofs::Claimed::spread_laws))]
fn behind_spread(words: &[u32], start: usize, literals: &[u32]) -> Option<usize>
    requires ends { Ends words.now }
    requires within { start ≤ length words.now }
    ensures { LeftBehind words.now start (behind_spread literals.now) result }
{
    let mut place = start;
    'literal: for literal in literals {
        let ahead = behind_marks(words, place);
        if !is_literal(words, ahead, *literal) {
            return None;
        }
        place = ahead + 2;
    }
    Some(place)
}

/// The address after the literals of a prefix, if the items begin with them.
#[tactic(auto, using(crate::proofs::Claimed::literals_laws))]
fn behind_literals(words: &[u32], prefix: &[u32], skip: usize) -> Option<usize>
    requires ends { Ends words.now }
    requires skip { skip ≤ length prefix.now }
    ensures { LeftBehind words.now 0 (behind_literals skip prefix.now) result }
{
    let (adjacent, spread) = prefix.split_at(skip);
    match behind_adjacent(words, adjacent) {
        Some(place) => behind_spread(words, place, spread),
        None => None,
    }
}

/// The words of the prefix in the INFO block, if it has one.
#[tactic(auto, using(crate::proofs::Claimed::prefix_laws))]
fn prefix_words(words: &[u32], length: usize) -> Option<&[u32]>
    requires { HasBlock words.now length }
    ensures claim { MatchOption result (has_prefix words.now ≡ false)
        (λ prefix. (has_prefix words.now ≡ true) × (prefix.now ≡ prefix_words words.now)) }
    ensures long { OnSome result (9 ≤ length) }
{
    if words[2] % 2 == 0 || length < 9 {
        return None;
    }
    let count = words[5] as usize;
    if words[6] as usize > count || length != 7 + 2 * count {
        return None;
    }
    let prefix = &words[7..7 + count];
    let overlaps = &words[7 + count..length];
    if !borders::are_overlaps(prefix, overlaps) {
        return None;
    }
    Some(prefix)
}

/// The address after the prefix in the INFO block, if it has one and the items begin with it.
#[tactic(auto, using(crate::proofs::Claimed::behind_laws))]
pub fn behind(words: &[u32], length: usize, items: &[u32]) -> Option<usize>
    requires block { HasBlock words.now length }
    requires ends { Ends items.now }
    ensures left { LeftBehind items.now 0 (behind_prefix words.now) result }
    ensures long { OnSome result (9 ≤ length) }
{
    match prefix_words(words, length) {
        Some(prefix) => behind_literals(items, prefix, words[6] as usize),
        None => None,
    }
}
