//! Codes that begin with a group of one character and a back-reference to it, as those of `(\w)\1` and `(\w)\1+`. Each
//! match begins where a character comes twice.

ghost use Rattle.std.specs.Prelude.{◌≡◌, ◌≢◌, ◌≤◌, ◌⊎◌, List, true, false, IfSome};
ghost use Rattle.sre_engine.specs.Terms.{SetItem, is_member, Word, words_of, uni_of, hints_of, end_of, code_of};
ghost use Rattle.sre_engine.specs.Terms.{asked_of, run_of, Standing};
ghost use Rattle.sre_engine.specs.Members.{IsFirstSet};
ghost use Rattle.sre_engine.specs.Doubled.{EndsTest, LeadsInside, IsDoubled, IsOutside, NextDouble};

use crate::engine::members::takes;
use sre_chars::constants::SreOpcode;
use sre_chars::string::{StrDrive, StringCursor};
use sre_request::Request;
use sre_request::text::read;
use sre_request::words::word_at;
use std::convert::TryFrom;

// Returns something if a word is there and is this one.
fn is_at(words: &[u32], place: usize, word: u32) -> Option<()>
    ensures { IfSome result (λ _. Word words.now place word) }
{
    if word_at(words, place)? == word {
        Some(())
    } else {
        None
    }
}

// The address after the test at address 2, if it is one of any character or of a set.
fn behind_test(words: &[u32]) -> Option<usize>
    ensures ends { IfSome result (λ behind. EndsTest words.now behind) }
    ensures near { IfSome result (λ behind. behind ≤ 4294967300) }
{
    match SreOpcode::try_from(word_at(words, 2)?).ok()? {
        SreOpcode::ANY | SreOpcode::ANY_ALL => Some(3),
        SreOpcode::IN => Some(3 + word_at(words, 3)? as usize),
        _ => None,
    }
}

// The address of the first item of a loop's body, if a REPEAT with a least count above 0 is at an address, else that
// address.
fn first_inside(words: &[u32], place: usize) -> Option<usize>
    requires { place ≤ 4294967302 }
    ensures leads { IfSome result (λ first. LeadsInside words.now place first) }
    ensures near { IfSome result (λ first. first ≤ 4294967306) }
{
    let least = word_at(words, place + 2)?;
    if least == 0 || is_at(words, place, SreOpcode::REPEAT as u32).is_none() {
        return Some(place);
    }
    Some(place + 4)
}

// Returns something if words begin so: MARK, the test, MARK, and GROUPREF or a loop whose body begins with it.
fn begins_doubled(words: &[u32]) -> Option<()>
    ensures { IfSome result (λ _. IsDoubled words.now) }
{
    is_at(words, 0, SreOpcode::MARK as u32)?;
    let behind = behind_test(words)?;
    is_at(words, behind, SreOpcode::MARK as u32)?;
    let reference = first_inside(words, behind + 2)?;
    is_at(words, reference, SreOpcode::GROUPREF as u32)?;
    let group = word_at(words, reference + 1)?;
    let opening = group.checked_mul(2)?;
    is_at(words, 1, opening)?;
    is_at(words, behind + 1, opening + 1)?;
    Some(())
}

/// Whether the code of a request begins so.
#[inline(always)]
pub(crate) fn is_doubled<S: StrDrive>(req: &Request<'_, S>) -> bool
    ensures { result ≡ true → IsDoubled (run_of req.now).words }
{
    let code = req.pattern_codes();
    code.refers() && begins_doubled(code.items()).is_some()
}

// Whether a match may begin with a character that this one follows: they are the same, and a member of the confirmed
// first set if there is one.
#[inline(always)]
fn may_begin<S: StrDrive>(req: &Request<'_, S>, character: u32, next: u32) -> bool
    ensures no { result ≡ false → (next ≢ character) ⊎ IsOutside (code_of req.now) character }
    ensures member { result ≡ true → (hints_of (code_of req.now)).first_set ≡ true → (set : List SetItem)
        → IsFirstSet (words_of (code_of req.now)) set → is_member (uni_of (code_of req.now)) set character ≡ true }
{
    if next != character {
        return false;
    }
    !req.pattern_codes().hints().first_set || takes(req, None, character)
}

/// The first cursor, from a given one on, at which a character comes twice that may begin a match, if there is one.
#[inline(never)]
pub(crate) fn next_double<S: StrDrive>(
    req: &Request<'_, S>,
    start: StringCursor,
) -> Option<StringCursor>
    requires stands { Standing req.now start }
    requires inside { start.position ≤ end_of req.now }
    ensures next { NextDouble (asked_of req.now) (code_of req.now) start.position result }
    ensures stands { IfSome result (λ next. Standing req.now next) }
{
    if start.position() >= req.end() {
        return None;
    }
    let mut cursor = start;
    let (mut character, mut after) = read(req, cursor);
    'character: while after.position() < req.end() {
        let (next, behind) = read(req, after);
        if may_begin(req, character, next) {
            return Some(cursor);
        }
        cursor = after;
        character = next;
        after = behind;
    }
    None
}
