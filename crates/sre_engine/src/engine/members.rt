//! Members of a confirmed first set: a match begins only at one of them.

ghost use Rattle.std.specs.Prelude.{◌≡◌, ◌≤◌, List, true, IfSome};
ghost use Rattle.sre_engine.specs.Terms.{SetItem, is_member, AreTold, words_of, uni_of, hints_of, end_of, code_of};
ghost use Rattle.sre_engine.specs.Terms.{asked_of, Standing};
ghost use Rattle.sre_engine.specs.Members.{IsFirstSet, NextMember};

use sre_chars::string::{StrDrive, StringCursor};
use sre_code::ascii_members::ascii_members;
use sre_code::ascii_set::AsciiSet;
use sre_code::members::is_member;
use sre_request::Request;
use sre_request::text::read;

// The ASCII characters of the first set, if its items define them directly.
#[inline(always)]
fn first_set_members<S: StrDrive>(req: &Request<'_, S>) -> Option<AsciiSet>
    requires { (hints_of (code_of req.now)).first_set ≡ true }
    ensures { AreTold (words_of (code_of req.now)) 5 result }
{
    ascii_members(req.pattern_codes().words(), 5)
}

// Whether a character is a member of the first set.
#[inline(always)]
pub(crate) fn takes<S: StrDrive>(
    req: &Request<'_, S>,
    told: Option<AsciiSet>,
    character: u32,
) -> bool
    requires set { (hints_of (code_of req.now)).first_set ≡ true }
    requires told { AreTold (words_of (code_of req.now)) 5 told }
    ensures { (set : List SetItem) → IsFirstSet (words_of (code_of req.now)) set
        → result ≡ is_member (uni_of (code_of req.now)) set character }
{
    if let Some(members) = told {
        if character < 128 {
            return members.contains(character);
        }
    }
    let code = req.pattern_codes();
    is_member(code.words(), code.uni(), 5, character)
}

// The next member from a cursor on, by the known ASCII characters.
#[inline(always)]
fn next_taken<S: StrDrive>(
    req: &Request<'_, S>,
    told: Option<AsciiSet>,
    start: StringCursor,
) -> Option<StringCursor>
    requires set { (hints_of (code_of req.now)).first_set ≡ true }
    requires told { AreTold (words_of (code_of req.now)) 5 told }
    requires stands { Standing req.now start }
    requires inside { start.position ≤ end_of req.now }
    ensures next { NextMember (asked_of req.now) (words_of (code_of req.now)) start.position result }
    ensures stands { IfSome result (λ next. Standing req.now next) }
{
    let mut cursor = start;
    'character: while cursor.position() < req.end() {
        let (character, after) = read(req, cursor);
        if takes(req, told, character) {
            return Some(cursor);
        }
        cursor = after;
    }
    None
}

/// The first cursor, from a given one on, whose character is a member of the confirmed first set, if there is one. The
/// set's ASCII characters are told once the first character of a call is no member, since most steps of an iteration
/// end there; later calls of the search then have them.
#[inline(always)]
pub(crate) fn next_member<S: StrDrive>(
    req: &Request<'_, S>,
    told: &mut Option<AsciiSet>,
    start: StringCursor,
) -> Option<StringCursor>
    requires set { (hints_of (code_of req.now)).first_set ≡ true }
    requires told { AreTold (words_of (code_of req.now)) 5 told.old }
    requires stands { Standing req.now start }
    requires inside { start.position ≤ end_of req.now }
    ensures told { AreTold (words_of (code_of req.now)) 5 told.new }
    ensures next { NextMember (asked_of req.now) (words_of (code_of req.now)) start.position result }
    ensures stands { IfSome result (λ next. Standing req.now next) }
{
    if start.position() >= req.end() {
        return None;
    }
    if told.is_none() {
        if takes(req, None, read(req, start).0) {
            return Some(start);
        }
        *told = first_set_members(req);
    }
    next_taken(req, *told, start)
}
