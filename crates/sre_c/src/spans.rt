//! The iteration over spans, which writes them in rows, with captures if the rows have room for them.

ghost use Rattle.std.specs.Prelude.{◌≡◌, ◌<◌, ◌≤◌, ◌+◌, ℕ, length, slice_index, true, false, IfOk, OnErr};
ghost use Rattle.sre_c.specs.Terms.{Refused, Marks, items_of, SetsOf, string_of, start_of, code_of, stands_in};
ghost use Rattle.sre_c.specs.Terms.{match_with, EndStands, FindsNone};
ghost use Rattle.sre_c.specs.Walked.{entry_of, IsRow};
ghost use Rattle.sre_c.specs.Rows.{Writes, WritesSpan};

use crate::status::Status;
use crate::types::SreWalked;
use crate::walk::{note_next, write_row};
use sre_engine::{Request, SreError, StringCursor};
use sre_finder::{Haystack, Memory, SpanFinder};
use std::alloc::Global;

/// The greatest width of a row without room for the last group and captures.
const NARROW: usize = 2;

// One number of the row of a span.
fn entry(start: usize, end: usize, place: usize) -> usize
    requires { place < 2 }
    ensures { (marks : Marks) → result ≡ entry_of (match_with start end marks) place }
{
    if place == 0 { start } else { end }
}

// Writes the row of a span.
fn write_span(start: usize, end: usize, rows: &mut [usize], at: usize, width: usize)
    requires room { at + width ≤ length rows.old }
    requires narrow { width ≤ 2 }
    ensures row { (marks : Marks) → IsRow (match_with start end marks) at width rows.new }
    ensures before { (i : ℕ) → i < at → slice_index rows.new i ≡ slice_index rows.old i }
{
    for place in 0..width {
        rows[at + place] = entry(start, end, place);
    }
}

// Writes the row of the next match: of its span, or if there is room for captures, as the memory's state shows it.
// Returns whether there is one.
#[inline(always)]
fn write_next<S: Haystack>(
    finder: &mut SpanFinder<'_>,
    request: &mut Request<'_, S>,
    memory: &mut Memory,
    cursor: &mut StringCursor,
    rows: &mut [usize],
    at: usize,
    width: usize,
) -> Result<bool, SreError>
    requires own { finder.old.code ≡ code_of request.old }
    requires known { EndStands (S.stands (string_of request.old)) finder.old.end }
    requires stands { stands_in request.old cursor.old (start_of request.old) }
    requires sets { SetsOf (items_of (code_of request.old)) memory.old.sets }
    requires room { at + width ≤ length rows.old }
    ensures code { finder.new.code ≡ finder.old.code }
    ensures own { finder.new.code ≡ code_of request.new }
    ensures known { EndStands (S.stands (string_of request.new)) finder.new.end }
    ensures here { stands_in request.new cursor.new (start_of request.new) }
    ensures sets { SetsOf (items_of (code_of request.new)) memory.new.sets }
    ensures row { IfOk result (λ b. b ≡ true → WritesSpan request.old request.new at width rows.old rows.new) }
    ensures none { IfOk result (λ b. b ≡ false → FindsNone request.old) }
    ensures unwritten { IfOk result (λ b. b ≡ false → rows.new ≡ rows.old) }
    ensures kept { OnErr result (rows.new ≡ rows.old) }
    ensures refused { OnErr result (Refused Global) }
{
    let shows = width > NARROW;
    let (state, sets) = (&mut memory.state, &mut memory.sets);
    let Some(start) = finder.next_match(request, state, cursor, sets, shows)? else {
        return Ok(false);
    };
    if shows {
        write_row(&memory.state, rows, at, width);
    } else {
        write_span(start.position(), request.start(), rows, at, width);
    }
    Ok(true)
}

/// Writes the remaining matches, row by row, until there is no room for one more row, or no match.
pub fn write_spans<S: Haystack>(
    finder: &mut SpanFinder<'_>,
    request: &mut Request<'_, S>,
    memory: &mut Memory,
    width: usize,
    rows: &mut [usize],
    walked: &mut SreWalked,
) -> Status
    requires own { finder.old.code ≡ code_of request.old }
    requires sets { SetsOf (items_of (code_of request.old)) memory.old.sets }
    requires none { walked.old.count ≡ 0 }
    ensures rows { Writes result request.old walked.old.steps width walked.new rows.new }
    ensures steps { walked.new.steps ≡ walked.old.steps }
    ensures code { finder.new.code ≡ finder.old.code }
    ensures sets { SetsOf (items_of (code_of request.old)) memory.new.sets }
{
    let mut at = 0;
    finder.begin_walk();
    let mut cursor = request.string().create_cursor(request.start());
    note_next(request, walked);
    'matches: while width > 0 && width <= rows.len() - at {
        walked.steps_before = walked.steps;
        match write_next(finder, request, memory, &mut cursor, rows, at, width) {
            Ok(true) => {}
            Ok(false) => return Status::No,
            Err(SreError::Memory) => return Status::Memory,
        }
        at += width;
        walked.count += 1;
        note_next(request, walked);
    }
    Status::NoRoom
}
