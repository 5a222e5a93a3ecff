//! Moves over the text of a request, by one character or by some.

ghost use Rattle.std.specs.Prelude.{◌≡◌, ◌≢◌, ◌+◌, ◌-◌, ◌<◌, ◌≤◌, length, true, false};
ghost use Rattle.sre_request.specs.Requests.{end_of};
ghost use Rattle.sre_request.specs.Runs.{run_of, Standing};
ghost use Rattle.sre_request.specs.Reads.{character_at};

use crate::Request;
use sre_chars::string::{StrDrive, StringCursor};

/// The character at a cursor before the end of the range, and the cursor after it.
#[inline(always)]
pub fn read<S: StrDrive>(req: &Request<'_, S>, cursor: StringCursor) -> (u32, StringCursor)
    requires stands { Standing req.now cursor }
    requires inside { cursor.position < end_of req.now }
    ensures character { result.0 ≡ character_at req.now cursor.position }
    ensures position { result.1.position ≡ cursor.position + 1 }
    ensures stands { (run_of req.now).stands result.1 (cursor.position + 1) }
{
    read_in_text(req, cursor)
}

/// The character at a cursor before the end of the text, inside the range or not, and the cursor after it.
#[inline(always)]
pub fn read_in_text<S: StrDrive>(req: &Request<'_, S>, cursor: StringCursor) -> (u32, StringCursor)
    requires stands { Standing req.now cursor }
    requires inside { cursor.position < length (run_of req.now).subject.text }
    ensures character { result.0 ≡ character_at req.now cursor.position }
    ensures position { result.1.position ≡ cursor.position + 1 }
    ensures stands { (run_of req.now).stands result.1 (cursor.position + 1) }
{
    let mut after = cursor;
    let character = req.string().advance(&mut after);
    (character, after)
}

/// Whether the character before a cursor is a given one, and the cursor before it.
#[inline(always)]
pub fn back_over<S: StrDrive>(
    req: &Request<'_, S>,
    cursor: StringCursor,
    character: u32,
) -> (bool, StringCursor)
    requires stands { Standing req.now cursor }
    requires past { 1 ≤ cursor.position }
    ensures position { cursor.position ≡ result.1.position + 1 }
    ensures same { result.0 ≡ true → character_at req.now result.1.position ≡ character }
    ensures other { result.0 ≡ false → character_at req.now result.1.position ≢ character }
    ensures stands { Standing req.now result.1 }
{
    let mut before = cursor;
    let is_same = req.string().back_over(&mut before, character);
    (is_same, before)
}

/// The cursor one character back.
#[inline(always)]
pub fn back_one<S: StrDrive>(req: &Request<'_, S>, cursor: StringCursor) -> StringCursor
    requires stands { Standing req.now cursor }
    requires past { 1 ≤ cursor.position }
    ensures position { cursor.position ≡ result.position + 1 }
    ensures stands { Standing req.now result }
{
    let mut before = cursor;
    let _ = req.string().back_advance(&mut before);
    before
}

/// The cursor some characters back.
#[inline(always)]
pub fn back_by<S: StrDrive>(
    req: &Request<'_, S>,
    cursor: StringCursor,
    count: usize,
) -> StringCursor
    requires stands { Standing req.now cursor }
    requires past { count ≤ cursor.position }
    ensures position { result.position ≡ cursor.position - count }
    ensures stands { Standing req.now result }
{
    let mut before = cursor;
    req.string().back_skip(&mut before, count);
    before
}

/// The cursor at a position of the text, reached from a given cursor. Out of line: only back-references need it.
#[inline(never)]
pub fn cursor_at<S: StrDrive>(
    req: &Request<'_, S>,
    cursor: StringCursor,
    position: usize,
) -> StringCursor
    requires stands { Standing req.now cursor }
    requires in_text { position ≤ length (run_of req.now).subject.text }
    ensures position { result.position ≡ position }
    ensures stands { Standing req.now result }
{
    let from = cursor.position();
    if position < from {
        return back_by(req, cursor, from - position);
    }
    let mut after = cursor;
    req.string().skip(&mut after, position - from);
    after
}
