//! The iteration over matches, which writes them in rows.

ghost use Rattle.std.specs.Prelude.{◌≡◌, ◌<◌, ◌≤◌, ◌+◌, ◌*◌, ℕ, length, slice_index, IfNone};
ghost use Rattle.sre_c.specs.Terms.{items_of, SetsOf, string_of, start_of, end_of, code_of, stands_in, match_shown};
ghost use Rattle.sre_c.specs.Terms.{must_advance_of};
ghost use Rattle.sre_c.specs.Known.{table_in};
ghost use Rattle.sre_c.specs.Walked.{index_number, entry_of, begun_of, IsRow, Walks};
ghost use Rattle.sre_c.specs.Rows.{Searched, WritesNext, WritesRows};
ghost use Rattle.sre_c.specs.Answered.{no_limit};

use crate::answer::{mark_number, request};
use crate::asks::{Asks, NO_LIMIT, answered};
use crate::check;
use crate::code::SreCode;
use crate::status::Status;
use crate::table::table;
use crate::types::{SreAsked, SreWalked};
use sre_engine::engine::{Starts, step_admitted, step_limited};
use sre_engine::{CodeError, LentTable, Request, SreError, State, StrDrive, StringCursor};
use sre_finder::Memory;
use std::alloc::Global;

// The last group as a number.
fn index_number(last: isize) -> usize
    ensures { result ≡ index_number last }
{
    if last < 0 { usize::MAX } else { last as usize }
}

// One number of the row of the match that a state shows.
fn entry(state: &State<Global>, place: usize) -> usize
    ensures { result ≡ entry_of (match_shown state.now) place }
{
    match place {
        0 => state.start(),
        1 => state.cursor().position(),
        2 => index_number(state.marks().last_index()),
        _ => {
            let marks = state.marks().raw();
            if place - 3 < marks.len() {
                mark_number(marks[place - 3])
            } else {
                usize::MAX
            }
        }
    }
}

/// Writes the row of the match that a state shows.
pub fn write_row(state: &State<Global>, rows: &mut [usize], at: usize, width: usize)
    requires { at + width ≤ length rows.old }
    ensures row { IsRow (match_shown state.now) at width rows.new }
    ensures before { (i : ℕ) → i < at → slice_index rows.new i ≡ slice_index rows.old i }
{
    for place in 0..width {
        rows[at + place] = entry(state, place);
    }
}

/// Notes where and how the iteration continues.
pub fn note_next<S: StrDrive>(request: &Request<'_, S>, walked: &mut SreWalked)
    ensures next { walked.new ≡ record walked.old {
      start = start_of request.now;
      must_advance = must_advance_of request.now;
    } }
    ensures inside { start_of request.now ≤ end_of request.now }
{
    walked.start = request.start();
    walked.must_advance = request.must_advance();
}

// The next match within a budget of steps, which the memory's state shows. The search skips the starts that the
// prefilter excludes. Without a limit no step is charged.
fn next_match<S: StrDrive, F: Starts<S>>(
    request: &mut Request<'_, S>,
    memory: &mut Memory,
    cursor: &mut StringCursor,
    starts: &mut F,
    steps: &mut u64,
) -> Result<Option<bool>, SreError>
    requires stands { stands_in request.old cursor.old (start_of request.old) }
    requires suits { F.suits starts.old (string_of request.old) (code_of request.old) }
    requires sets { SetsOf (items_of (code_of request.old)) memory.old.sets }
    ensures here { stands_in request.new cursor.new (start_of request.new) }
    ensures suits { F.suits starts.new (string_of request.new) (code_of request.new) }
    ensures sets { SetsOf (items_of (code_of request.new)) memory.new.sets }
    ensures searched { Searched request.old result memory.new.state request.new steps.old steps.new }
{
    memory.sets.note_step(request);
    let (state, sets) = (&mut memory.state, &memory.sets);
    if *steps < NO_LIMIT {
        return step_limited(request, state, cursor, steps, starts, sets);
    }
    answered(step_admitted(request, state, cursor, starts, sets))
}

// Writes the row of the next match, or returns why there is none.
#[inline(always)]
fn write_next<S: StrDrive, F: Starts<S>>(
    request: &mut Request<'_, S>,
    memory: &mut Memory,
    cursor: &mut StringCursor,
    starts: &mut F,
    rows: &mut [usize],
    at: usize,
    width: usize,
    walked: &mut SreWalked,
) -> Option<Status>
    requires stands { stands_in request.old cursor.old (start_of request.old) }
    requires suits { F.suits starts.old (string_of request.old) (code_of request.old) }
    requires sets { SetsOf (items_of (code_of request.old)) memory.old.sets }
    requires room { at + width ≤ length rows.old }
    requires place { at ≡ walked.old.count * width }
    requires wide { 0 < width }
    ensures here { stands_in request.new cursor.new (start_of request.new) }
    ensures suits { F.suits starts.new (string_of request.new) (code_of request.new) }
    ensures sets { SetsOf (items_of (code_of request.new)) memory.new.sets }
    ensures count { IfNone result (walked.new.count ≡ walked.old.count + 1) }
    ensures rows { WritesNext result request.old request.new width walked.old walked.new rows.old rows.new }
{
    walked.steps_before = walked.steps;
    match next_match(request, memory, cursor, starts, &mut walked.steps) {
        Ok(Some(true)) => {}
        Ok(Some(false)) => return Some(Status::No),
        Ok(None) => return Some(Status::StepLimit),
        Err(SreError::Memory) => return Some(Status::Memory),
    }
    write_row(&memory.state, rows, at, width);
    walked.count += 1;
    note_next(request, walked);
    None
}

/// Writes the remaining matches, row by row, until there is no room for one more row, or no match. The searches skip
/// the starts that the prefilter excludes.
#[tactic(auto, using(crate::proofs::Rows::none_kept))]
pub fn write_rows<S: StrDrive, F: Starts<S>>(
    request: &mut Request<'_, S>,
    memory: &mut Memory,
    starts: &mut F,
    width: usize,
    rows: &mut [usize],
    walked: &mut SreWalked,
) -> Status
    requires suits { F.suits starts.old (string_of request.old) (code_of request.old) }
    requires sets { SetsOf (items_of (code_of request.old)) memory.old.sets }
    requires none { walked.old.count ≡ 0 }
    ensures rows { WritesRows result request.old request.new walked.old.steps width walked.new rows.new }
    ensures steps { walked.new.steps ≤ walked.old.steps }
    ensures unlimited { walked.old.steps ≡ no_limit → walked.new.steps ≡ walked.old.steps }
    ensures suits { F.suits starts.new (string_of request.new) (code_of request.new) }
    ensures sets { SetsOf (items_of (code_of request.new)) memory.new.sets }
{
    let mut at = 0;
    let mut cursor = request.string().create_cursor(request.start());
    note_next(request, walked);
    'matches: while width > 0 && width <= rows.len() - at {
        if let Some(status) = write_next(
            request,
            memory,
            &mut cursor,
            starts,
            rows,
            at,
            width,
            walked,
        ) {
            return status;
        }
        at += width;
    }
    Status::NoRoom
}

// Writes the matches of a code whose table is at hand.
fn walk_by<'a, S: StrDrive, H: Asks<S>>(
    alloc: Global,
    how: &mut H,
    code: &'a SreCode<'a>,
    uni: &'a LentTable<'a>,
    text: S,
    asked: &SreAsked,
    width: usize,
    rows: &mut [usize],
    walked: &mut SreWalked,
) -> Status
    requires table { uni.now ≡ table_in code.now.table.now }
    requires begun { walked.old ≡ begun_of asked.now }
    requires suits { H.suits how.old code.now.words.now (table_in code.now.table.now) }
    ensures walks { Walks result code.now (S.text text) asked.now width walked.new rows.new }
    ensures steps { walked.new.steps ≤ asked.now.steps }
    ensures unlimited { asked.now.steps ≡ no_limit → walked.new.steps ≡ asked.now.steps }
    ensures suits { H.suits how.new code.now.words.now (table_in code.now.table.now) }
{
    let code = match check::code(alloc, code, uni) {
        Ok(code) => code,
        Err(CodeError::Memory) => return Status::Memory,
        Err(_) => return Status::NoCode,
    };
    let mut request = request(text, asked, code);
    how.write(alloc, &mut request, width, rows, walked)
}

/// Writes the matches, each in `width` numbers, and how to continue.
pub fn walk<'c, S: StrDrive, H: Asks<S>>(
    alloc: Global,
    how: &mut H,
    code: &'c SreCode<'c>,
    text: S,
    asked: &SreAsked,
    width: usize,
    rows: &mut [usize],
    walked: &mut SreWalked,
) -> Status
    requires suits { H.suits how.old code.now.words.now (table_in code.now.table.now) }
    ensures walks { Walks result code.now (S.text text) asked.now width walked.new rows.new }
    ensures steps { walked.new.steps ≤ asked.now.steps }
    ensures unlimited { asked.now.steps ≡ no_limit → walked.new.steps ≡ asked.now.steps }
    ensures suits { H.suits how.new code.now.words.now (table_in code.now.table.now) }
{
    *walked = begun(asked);
    match table(alloc, code.table) {
        Some(uni) => walk_by(alloc, how, code, &uni, text, asked, width, rows, walked),
        None => Status::FaultyTable,
    }
}

/// The state of an iteration without rows.
pub fn begun(asked: &SreAsked) -> SreWalked
    ensures { result ≡ begun_of asked.now }
{
    SreWalked {
        count: 0,
        start: asked.start,
        steps: asked.steps,
        steps_before: asked.steps,
        must_advance: asked.must_advance,
    }
}
