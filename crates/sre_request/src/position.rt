//! Positions: whether a position code holds at a cursor.
//!
//! It reads characters before the start of the range, and none from its end on. Word characters of the locale are
//! ASCII's.

ghost use Rattle.std.specs.Prelude.{◌≡◌, ◌+◌, nat_eq, ◌&&◌};
ghost use Rattle.sre_request.specs.Terms.{category, is_linebreak};
ghost use Rattle.sre_chars.specs.Numbers.{category_number};
ghost use Rattle.sre_model.specs.Subject.{before, after, is_on_nothing, bars_non_boundary, is_boundary, holds_at};
ghost use Rattle.sre_request.specs.Requests.{end_of};
ghost use Rattle.sre_request.specs.Runs.{run_of, Standing};

use crate::Request;
use sre_chars::constants::{EmptyRule, SreAtCode, SreCatCode};
use sre_chars::string::{LentTable, StrDrive, StringCursor, category};
use sre_code::ascii_set::AsciiSet;

// Whether a character is in a category. A bit decides for an ASCII one, if that is cheaper than comparing.
#[inline(always)]
fn is_in(uni: &LentTable, code: SreCatCode, character: u32) -> bool
    ensures { result ≡ category uni.now (category_number code) character }
{
    if character < 128 && code != SreCatCode::LINEBREAK {
        return AsciiSet::of_category(code).contains(character);
    }
    category(uni, code, character)
}

// Whether the character before a cursor is in a category. Before the start of the text there is none.
#[inline(always)]
fn is_behind<S: StrDrive>(req: &Request<'_, S>, code: SreCatCode, cursor: StringCursor) -> bool
    requires { Standing req.now cursor }
    ensures { result ≡ before (run_of req.now).subject (category (run_of req.now).subject.table (category_number code))
        cursor.position }
{
    if cursor.position() == 0 {
        return false;
    }
    let character = req.string().back_peek(&cursor);
    is_in(req.pattern_codes().uni(), code, character)
}

// Whether the character at a cursor is in a category. At the end of the range there is none.
#[inline(always)]
fn is_ahead<S: StrDrive>(req: &Request<'_, S>, code: SreCatCode, cursor: StringCursor) -> bool
    requires { Standing req.now cursor }
    ensures { result ≡ after (run_of req.now).subject (category (run_of req.now).subject.table (category_number code))
        cursor.position }
{
    if cursor.position() >= req.end() {
        return false;
    }
    let character = req.string().peek(&cursor);
    is_in(req.pattern_codes().uni(), code, character)
}

// Whether a linebreak at a cursor is the last character of the range.
#[inline(always)]
fn is_last_linebreak<S: StrDrive>(req: &Request<'_, S>, cursor: StringCursor) -> bool
    requires { Standing req.now cursor }
    ensures { result
        ≡ (nat_eq (cursor.position + 1) (end_of req.now)
        && after (run_of req.now).subject is_linebreak cursor.position) }
{
    let position = cursor.position();
    position < req.end()
        && position + 1 == req.end()
        && is_ahead(req, SreCatCode::LINEBREAK, cursor)
}

// Whether the range ends at 0, and the cursor is there.
#[inline(always)]
fn is_on_nothing<S: StrDrive>(req: &Request<'_, S>, cursor: StringCursor) -> bool
    ensures { result ≡ is_on_nothing (run_of req.now).subject cursor.position }
{
    cursor.position() == 0 && req.end() == 0
}

// Whether the request's rule excludes `\B` at a cursor: the range ends at 0, and the rule is `Never`.
#[inline(always)]
fn bars_non_boundary<S: StrDrive>(req: &Request<'_, S>, cursor: StringCursor) -> bool
    ensures { result ≡ bars_non_boundary (run_of req.now).subject cursor.position }
{
    is_on_nothing(req, cursor) && req.empty_rule() == EmptyRule::Never
}

// Whether exactly one of the characters on both sides is of a category. Out of line: the machine's step is inlined in
// its loop only while it is small.
#[inline(never)]
fn is_boundary<S: StrDrive>(req: &Request<'_, S>, word: SreCatCode, cursor: StringCursor) -> bool
    requires { Standing req.now cursor }
    ensures { result ≡ is_boundary (run_of req.now).subject
        (category (run_of req.now).subject.table (category_number word)) cursor.position }
{
    is_behind(req, word, cursor) != is_ahead(req, word, cursor)
}

/// Whether a position code holds at a cursor.
#[inline(always)]
pub fn holds_at<S: StrDrive>(req: &Request<'_, S>, code: SreAtCode, cursor: StringCursor) -> bool
    requires { Standing req.now cursor }
    ensures { result ≡ holds_at (run_of req.now).subject code cursor.position }
{
    let position = cursor.position();
    match code {
        SreAtCode::BEGINNING | SreAtCode::BEGINNING_STRING => position == 0,
        SreAtCode::BEGINNING_LINE => {
            position == 0 || is_behind(req, SreCatCode::LINEBREAK, cursor)
        }
        SreAtCode::END => { position == req.end() || is_last_linebreak(req, cursor) }
        SreAtCode::END_LINE => {
            position == req.end() || is_ahead(req, SreCatCode::LINEBREAK, cursor)
        }
        SreAtCode::END_STRING => position == req.end(),
        SreAtCode::BOUNDARY | SreAtCode::LOC_BOUNDARY => {
            !is_on_nothing(req, cursor) && is_boundary(req, SreCatCode::WORD, cursor)
        }
        SreAtCode::NON_BOUNDARY | SreAtCode::LOC_NON_BOUNDARY => {
            !bars_non_boundary(req, cursor) && !is_boundary(req, SreCatCode::WORD, cursor)
        }
        SreAtCode::UNI_BOUNDARY => {
            !is_on_nothing(req, cursor) && is_boundary(req, SreCatCode::UNI_WORD, cursor)
        }
        SreAtCode::UNI_NON_BOUNDARY => {
            !bars_non_boundary(req, cursor) && !is_boundary(req, SreCatCode::UNI_WORD, cursor)
        }
    }
}
