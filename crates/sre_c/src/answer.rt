//! The answer for a code, a request and a text of any type.

ghost use Rattle.std.specs.Prelude.{◌≡◌, ◌<◌, ◌≤◌, ℕ, length, slice_index, slice_index_or, None, true, false, OnErr};
ghost use Rattle.sre_c.specs.Terms.{Refused, behind_block, SetsOf, uni_of, items_of, asked_of, code_of, match_shown};
ghost use Rattle.sre_c.specs.Terms.{words_of};
ghost use Rattle.sre_c.specs.Known.{table_in};
ghost use Rattle.sre_c.specs.Given.{asked_in};
ghost use Rattle.sre_c.specs.Answered.{no_limit, mark_number, IsFound, IsTold, Answers};
ghost use Rattle.sre_c.specs.Replies.{Finds, IsReply, Replies};

use crate::asks::{Asks, NO_LIMIT, answered};
use crate::check;
use crate::code::SreCode;
use crate::status::Status;
use crate::table::table;
use crate::types::{SreAsked, SreFound};
use sre_engine::{Code, CodeError, EmptyRule, LentTable, Request, SreError, State, StrDrive};
use sre_finder::Memory;
use std::alloc::Global;

/// The request for a code over a text.
pub fn request<'a, S: StrDrive>(text: S, asked: &SreAsked, code: Code<'a>) -> Request<'a, S>
    ensures asked { asked_of result ≡ asked_in asked.now (uni_of code.entry) (S.text text) }
    ensures code { code_of result ≡ code.entry }
{
    let mut request = Request::new(text, asked.start, asked.end, code, asked.match_all);
    request.set_must_advance(asked.must_advance);
    if asked.non_boundary {
        request.set_empty_rule(EmptyRule::NonBoundary);
    }
    request
}

/// A capture slot as a number; an unset one is the greatest number.
#[inline(always)]
pub fn mark_number(mark: Option<usize>) -> usize
    ensures { result ≡ mark_number mark }
{
    match mark {
        Some(position) => position,
        None => usize::MAX,
    }
}

// Copies capture slots, and returns whether they fit.
fn copy_marks(from: &[Option<usize>], marks: &mut [usize]) -> bool
    ensures room { result ≡ false → length marks.old < length from.now }
    ensures copied { result ≡ true → (q : ℕ) → q < length from.now
        → slice_index marks.new q ≡ mark_number (slice_index_or from.now q None) }
{
    if marks.len() < from.len() {
        return false;
    }
    for i in 0..from.len() {
        marks[i] = mark_number(from[i]);
    }
    true
}

// Whether there is a match at the start of the range, or with `search` at any start in it.
#[tactic(auto, using(crate::proofs::Matches::searched))]
fn ask<S: StrDrive, H: Asks<S>>(
    alloc: Global,
    how: &mut H,
    state: &mut State<Global>,
    request: Request<'_, S>,
    search: bool,
    steps: &mut u64,
) -> Result<Option<bool>, SreError>
    requires suits { H.suits how.old (words_of (code_of request)) (uni_of (code_of request)) }
    ensures finds { Finds (words_of (code_of request.entry)) (asked_of request.entry) search result state.new steps.old
        steps.new }
    ensures suits { H.suits how.new (words_of (code_of request.entry)) (uni_of (code_of request.entry)) }
{
    if search {
        how.search(alloc, state, &request, steps)
    } else if *steps == NO_LIMIT {
        answered(state.pymatch(&request))
    } else {
        state.match_within(&request, steps)
    }
}

// Copies the match that a state shows, and returns whether its captures fit.
fn show(state: &State<Global>, found: &mut SreFound, marks: &mut [usize]) -> bool
    ensures found { IsFound (match_shown state.now) found.new }
    ensures told { result ≡ true → IsTold (match_shown state.now) found.new marks.new }
    ensures room { result ≡ false → length marks.old < found.new.marks }
    ensures steps { found.new.steps ≡ found.old.steps }
{
    found.start = state.start();
    found.end = state.cursor().position();
    found.last_index = state.marks().last_index();
    found.marks = state.marks().raw().len();
    copy_marks(state.marks().raw(), marks)
}

// Copies the match that a state shows if there is one, and returns the status.
#[inline(always)]
fn tell(
    told: Result<Option<bool>, SreError>,
    state: &State<Global>,
    found: &mut SreFound,
    marks: &mut [usize],
) -> Status
    requires memory { OnErr told (Refused Global) }
    ensures reply { IsReply result told (match_shown state.now) (length marks.old) found.new marks.new }
    ensures steps { found.new.steps ≡ found.old.steps }
{
    match told {
        Ok(Some(true)) => {
            if show(state, found, marks) {
                Status::Yes
            } else {
                Status::NoRoom
            }
        }
        Ok(Some(false)) => Status::No,
        Ok(None) => Status::StepLimit,
        Err(SreError::Memory) => Status::Memory,
    }
}

// The match of a request, as `answer` returns it.
#[inline(always)]
fn reply<S: StrDrive, H: Asks<S>>(
    alloc: Global,
    how: &mut H,
    memory: &mut Memory,
    request: Request<'_, S>,
    asked: &SreAsked,
    found: &mut SreFound,
    marks: &mut [usize],
) -> Status
    requires suits { H.suits how.old (words_of (code_of request)) (uni_of (code_of request)) }
    requires sets { SetsOf (items_of (code_of request)) memory.old.sets }
    ensures replies { Replies (words_of (code_of request.entry)) (asked_of request.entry) asked.now.search result
        asked.now.steps (length marks.old) found.new marks.new }
    ensures steps { found.new.steps ≤ asked.now.steps }
    ensures unlimited { asked.now.steps ≡ no_limit → found.new.steps ≡ asked.now.steps }
    ensures suits { H.suits how.new (words_of (code_of request.entry)) (uni_of (code_of request.entry)) }
    ensures sets { SetsOf (items_of (code_of request.entry)) memory.new.sets }
{
    memory.sets.note_step(&request);
    let request = request.with_admitted(memory.sets.list());
    let mut steps = asked.steps;
    let told = ask(
        alloc,
        how,
        &mut memory.state,
        request,
        asked.search,
        &mut steps,
    );
    found.steps = steps;
    tell(told, &memory.state, found, marks)
}

// The match of a code whose table is at hand, as `answer` returns it.
fn answer_by<'a, S: StrDrive, H: Asks<S>>(
    alloc: Global,
    how: &mut H,
    memory: &mut Memory,
    code: &'a SreCode<'a>,
    uni: &'a LentTable<'a>,
    text: S,
    asked: &SreAsked,
    found: &mut SreFound,
    marks: &mut [usize],
) -> Status
    requires table { uni.now ≡ table_in code.now.table.now }
    requires steps { found.old.steps ≡ asked.now.steps }
    requires sets { SetsOf (behind_block code.now.words.now) memory.old.sets }
    requires suits { H.suits how.old code.now.words.now (table_in code.now.table.now) }
    ensures answers { Answers result code.now (S.text text) asked.now (length marks.old) found.new marks.new }
    ensures steps { found.new.steps ≤ asked.now.steps }
    ensures unlimited { asked.now.steps ≡ no_limit → found.new.steps ≡ asked.now.steps }
    ensures suits { H.suits how.new code.now.words.now (table_in code.now.table.now) }
    ensures sets { SetsOf (behind_block code.now.words.now) memory.new.sets }
{
    let code = match check::code(alloc, code, uni) {
        Ok(code) => code,
        Err(CodeError::Memory) => return Status::Memory,
        Err(_) => return Status::NoCode,
    };
    let request = request(text, asked, code);
    reply(alloc, how, memory, request, asked, found, marks)
}

/// Writes the match, its captures if there is room for them, and the steps that are left.
pub fn answer<'c, S: StrDrive, H: Asks<S>>(
    alloc: Global,
    how: &mut H,
    code: &'c SreCode<'c>,
    text: S,
    asked: &SreAsked,
    found: &mut SreFound,
    marks: &mut [usize],
) -> Status
    requires suits { H.suits how.old code.now.words.now (table_in code.now.table.now) }
    ensures answers { Answers result code.now (S.text text) asked.now (length marks.old) found.new marks.new }
    ensures steps { found.new.steps ≤ asked.now.steps }
    ensures unlimited { asked.now.steps ≡ no_limit → found.new.steps ≡ asked.now.steps }
    ensures suits { H.suits how.new code.now.words.now (table_in code.now.table.now) }
{
    let mut memory = Memory::new(alloc);
    answer_in(alloc, how, &mut memory, code, text, asked, found, marks)
}

/// `answer`, with the memory of earlier calls by this code.
pub fn answer_in<'c, S: StrDrive, H: Asks<S>>(
    alloc: Global,
    how: &mut H,
    memory: &mut Memory,
    code: &'c SreCode<'c>,
    text: S,
    asked: &SreAsked,
    found: &mut SreFound,
    marks: &mut [usize],
) -> Status
    requires suits { H.suits how.old code.now.words.now (table_in code.now.table.now) }
    requires sets { SetsOf (behind_block code.now.words.now) memory.old.sets }
    ensures answers { Answers result code.now (S.text text) asked.now (length marks.old) found.new marks.new }
    ensures steps { found.new.steps ≤ asked.now.steps }
    ensures unlimited { asked.now.steps ≡ no_limit → found.new.steps ≡ asked.now.steps }
    ensures suits { H.suits how.new code.now.words.now (table_in code.now.table.now) }
    ensures sets { SetsOf (behind_block code.now.words.now) memory.new.sets }
{
    found.steps = asked.steps;
    match table(alloc, code.table) {
        Some(uni) => answer_by(alloc, how, memory, code, &uni, text, asked, found, marks),
        None => Status::FaultyTable,
    }
}
