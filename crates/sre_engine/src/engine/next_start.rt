//! The next start at which a match may begin, by what must come first. The search skips all others without a run.

ghost use Rattle.std.specs.Prelude.{◌≡◌, ◌-◌, ◌≤◌};
ghost use Rattle.sre_engine.specs.Terms.{end_of, run_of, Standing};
ghost use Rattle.sre_engine.specs.Starts.{TestsThere, WantedFrom, NextStart, NextHeld};

use crate::engine::first_characters::{First, Wanted};
use sre_chars::constants::SreAtCode;
use sre_chars::string::{StrDrive, StringCursor};
use sre_code::ascii_set::AsciiSet;
use sre_request::Request;
use sre_request::position::holds_at;
use sre_request::runs::first_taken;
use sre_request::text::{back_by, cursor_at, read};

// The cursor `back` characters back. The text is not read if `back` is 0.
#[inline(always)]
pub(super) fn looked_at<S: StrDrive>(
    req: &Request<'_, S>,
    cursor: StringCursor,
    back: usize,
) -> StringCursor
    requires stands { Standing req.now cursor }
    requires past { back ≤ cursor.position }
    ensures position { result.position ≡ cursor.position - back }
    ensures stands { Standing req.now result }
{
    if back == 0 {
        return cursor;
    }
    back_by(req, cursor, back)
}

// The first cursor, from a given one on, whose character is in a set or past ASCII; else the one at the end of the
// range.
#[inline(always)]
fn first_among<S: StrDrive>(
    req: &Request<'_, S>,
    characters: AsciiSet,
    start: StringCursor,
) -> StringCursor
    requires stands { Standing req.now start }
    requires inside { start.position ≤ end_of req.now }
    ensures { WantedFrom (run_of req.now) (Wanted.Characters characters) start result }
{
    let mut cursor = start;
    'character: while cursor.position() < req.end() {
        let (character, after) = read(req, cursor);
        if character >= 128 || characters.contains(character) {
            return cursor;
        }
        cursor = after;
    }
    cursor
}

// The first cursor, from a given one on, whose character a set takes, or the one at the end of the range. `characters`
// are the ASCII characters of the set. From the first character past ASCII on, the set itself is tested.
#[inline(always)]
fn first_in_set<S: StrDrive>(
    req: &Request<'_, S>,
    place: usize,
    characters: AsciiSet,
    start: StringCursor,
) -> StringCursor
    requires test { TestsThere (run_of req.now).words (Wanted.Set place characters) }
    requires stands { Standing req.now start }
    requires inside { start.position ≤ end_of req.now }
    ensures { WantedFrom (run_of req.now) (Wanted.Set place characters) start result }
{
    let mut cursor = start;
    'character: while cursor.position() < req.end() {
        let (character, after) = read(req, cursor);
        if character >= 128 {
            return first_taken(req, place, cursor);
        }
        if characters.contains(character) {
            return cursor;
        }
        cursor = after;
    }
    cursor
}

// The first cursor, from a given one on, at which the wanted character is, or the one at the end of the range.
#[inline(always)]
fn first_wanted<S: StrDrive>(
    req: &Request<'_, S>,
    wanted: &Wanted,
    start: StringCursor,
) -> StringCursor
    requires test { TestsThere (run_of req.now).words wanted.now }
    requires stands { Standing req.now start }
    requires inside { start.position ≤ end_of req.now }
    ensures { WantedFrom (run_of req.now) wanted.now start result }
{
    match *wanted {
        Wanted::Anything => start,
        Wanted::Test(place) => first_taken(req, place, start),
        Wanted::Set(place, characters) => first_in_set(req, place, characters, start),
        Wanted::Characters(characters) => first_among(req, characters, start),
    }
}

// The first cursor, from a given one on, with the wanted character `back` characters before it.
#[inline(always)]
fn next_wanted<S: StrDrive>(
    req: &Request<'_, S>,
    first: &First,
    start: StringCursor,
) -> Option<StringCursor>
    requires test { TestsThere (run_of req.now).words first.now.wanted }
    requires stands { Standing req.now start }
    requires inside { start.position ≤ end_of req.now }
    ensures { NextStart (run_of req.now) first.now start.position result }
{
    if first.back > req.end() {
        return None;
    }
    let from = if start.position() < first.back {
        cursor_at(req, start, first.back)
    } else {
        start
    };
    if let Wanted::Anything = first.wanted {
        return Some(from);
    }
    let found = first_wanted(req, &first.wanted, looked_at(req, from, first.back));
    if found.position() >= req.end() {
        return None;
    }
    if first.back == 0 {
        return Some(found);
    }
    if req.end() - found.position() < first.back {
        return None;
    }
    let mut after = found;
    req.string().skip(&mut after, first.back);
    Some(after)
}

// The cursor at the start of the next line, if there is one.
#[inline(always)]
#[tactic(auto, using(crate::proofs::Starting::line_sought, crate::proofs::Starting::no_line_sought))]
fn next_line<S: StrDrive>(req: &Request<'_, S>, cursor: StringCursor) -> Option<StringCursor>
    requires stands { Standing req.now cursor }
    requires inside { cursor.position ≤ end_of req.now }
    ensures { NextHeld (run_of req.now) SreAtCode.BEGINNING_LINE cursor.position result }
{
    let mut next = cursor;
    if req.string().seek(&mut next, u32::from('\n'), req.end()) {
        return Some(next);
    }
    None
}

// The next cursor after a given one at which a position code may hold, if there is one.
#[inline(always)]
fn next_held<S: StrDrive>(
    req: &Request<'_, S>,
    code: SreAtCode,
    cursor: StringCursor,
) -> Option<StringCursor>
    requires { Standing req.now cursor }
    ensures { NextHeld (run_of req.now) code cursor.position result }
{
    if cursor.position() >= req.end() {
        return None;
    }
    match code {
        SreAtCode::BEGINNING | SreAtCode::BEGINNING_STRING => None,
        SreAtCode::BEGINNING_LINE => next_line(req, cursor),
        _ => Some(read(req, cursor).1),
    }
}

/// The first cursor, from a given one on, at which a match may begin, if there is one.
#[inline(never)]
pub(crate) fn next_start<S: StrDrive>(
    req: &Request<'_, S>,
    first: &First,
    start: StringCursor,
) -> Option<StringCursor>
    requires test { TestsThere (run_of req.now).words first.now.wanted }
    requires stands { Standing req.now start }
    requires inside { start.position ≤ end_of req.now }
    ensures { NextStart (run_of req.now) first.now start.position result }
{
    let mut cursor = start;
    'start: loop {
        let wanted = next_wanted(req, first, cursor)?;
        let Some(code) = first.at else {
            return Some(wanted);
        };
        if holds_at(req, code, wanted) {
            return Some(wanted);
        }
        cursor = next_held(req, code, wanted)?;
    }
}
