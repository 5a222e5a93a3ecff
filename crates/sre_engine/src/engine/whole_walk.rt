//! The list of all matches.

ghost use Rattle.std.specs.Prelude.{◌≡◌, ◌<◌, ◌≤◌, ◌+◌, ◌-◌, ◌++◌, map, IfOk, OnErr};
ghost use Rattle.sre_engine.specs.Terms.{vec_len, Tree, Whole, no_marks, walk, most_matches, AreInOrder, items_of};
ghost use Rattle.sre_engine.specs.Terms.{words_of, string_of, start_of, end_of, code_of, asked_of, stands_in, Refused};
ghost use Rattle.sre_engine.specs.Counts.{StepsCount, CountsOfWalk};
ghost use Rattle.sre_engine.specs.FirstSets.{SetsOf};
ghost use Rattle.sre_engine.specs.Searches.{Stepped};
ghost use Rattle.sre_engine.specs.Answers.{match_shown};
ghost use Rattle.sre_engine.specs.Listed.{match_of};

use crate::engine::first_sets::FirstSets;
use crate::engine::state::{SreError, State};
use crate::engine::told::{Nobody, Starts};
use crate::engine::walk::step_admitted;
use sre_chars::string::{StrDrive, StringCursor};
use sre_growth::Refusal;
use sre_request::Request;
use std::alloc::{Allocator, Global};

/// A match: its start and end in characters, its capture slots as `Marks::raw` returns them, and the number of the
/// group that was closed last, counted from 1, or -1 if there is none.
#[derive(Drop)]
pub struct Found<A: Allocator = Global> {
    pub start: usize,
    pub end: usize,
    pub marks: Vec<Option<usize>, A>,
    pub last_index: isize,
}

// The match that a state shows.
fn found_in<A: Allocator + Copy>(state: &State<A>) -> Result<Found<A>, Refusal<A>>
    ensures { IfOk result (λ found. match_of found ≡ match_shown state.now) }
{
    let marks = state.marks();
    Ok(Found {
        start: state.start(),
        end: state.cursor().position(),
        marks: sre_growth::from_slice(state.allocator(), marks.raw())?,
        last_index: marks.last_index(),
    })
}

// The counts of an iteration's steps together.
#[derive(Drop)]
struct Tally {
    started: u64,
    compared: u64,
}

// One step of the iteration, which adds its counts to the tally.
fn counted_step<S: StrDrive, A: Allocator + Copy, F: Starts<S>>(
    req: &mut Request<'_, S>,
    state: &mut State<A>,
    cursor: &mut StringCursor,
    starts: &mut F,
    tally: &mut Tally,
    sets: &FirstSets<A>,
) -> Result<bool, SreError>
    requires stands { stands_in req.old cursor.old (start_of req.old) }
    requires suits { F.suits starts.old (string_of req.old) (code_of req.old) }
    requires sets { SetsOf (items_of (code_of req.old)) sets.now }
    ensures suits { F.suits starts.new (string_of req.new) (code_of req.new) }
    ensures stepped { Stepped req.old result state.new req.new }
    ensures here { stands_in req.new cursor.new (start_of req.new) }
    ensures refused { OnErr result (Refused A) }
    ensures once { state.new.restarted ≡ 0 }
    ensures started { tally.new.started ≤ tally.old.started + state.new.started }
    ensures compared { tally.new.compared ≤ tally.old.compared + state.new.compared }
{
    let found = step_admitted(req, state, cursor, starts, sets);
    tally.started = tally.started.saturating_add(state.started());
    tally.compared = tally.compared.saturating_add(state.compared());
    found
}

// Appends all matches, and adds up the counts of the steps.
fn add_matches<S: StrDrive, A: Allocator + Copy, F: Starts<S>>(
    mut req: Request<'_, S>,
    state: &mut State<A>,
    all: &mut Vec<Found<A>, A>,
    starts: &mut F,
    tally: &mut Tally,
) -> Result<(), SreError>
    requires suits { F.suits starts.old (string_of req) (code_of req) }
    requires unstarted { tally.old.started ≡ 0 }
    requires uncompared { tally.old.compared ≡ 0 }
    ensures suits { F.suits starts.new (string_of req.entry) (code_of req.entry) }
    ensures ok { (t : Tree) → Whole (words_of (code_of req.entry)) t → IfOk result
        (λ _. map match_of all.new.items ≡ map match_of all.old.items ++ walk (asked_of req.entry) t) }
    ensures after { IfOk result (λ _. state.new.marks ≡ no_marks) }
    ensures refused { OnErr result (Refused A) }
    ensures counts { StepsCount (asked_of req.entry) (code_of req.entry) (end_of req.entry + 1) (end_of req.entry)
        (most_matches (asked_of req.entry)) tally.new.started tally.new.compared }
    ensures by_matches { IfOk result (λ _. StepsCount (asked_of req.entry) (code_of req.entry)
        (end_of req.entry + 1) (end_of req.entry) (vec_len all.new - vec_len all.old) tally.new.started
        tally.new.compared) }
    ensures once { state.new.restarted ≡ 0 }
{
    let mut cursor = req.string().create_cursor(req.start());
    let mut sets = FirstSets::new(state);
    'step: while counted_step(&mut req, state, &mut cursor, starts, tally, &sets)? {
        let found = found_in(state)?;
        sre_growth::push(all, found)?;
        sets.note_step(&req);
    }
    Ok(())
}

/// All matches in a range, in order: the items of a `SearchIter`, as a list.
///
/// The list comes from the state's allocator. A range of n characters has at most 2n + 1 matches, or 2n if the request
/// must advance. No match starts before the end of the one before it.
///
/// The state then counts all searches together, after an error too. They begin at most one run for each start that the
/// confirmed hints allow, and one more for each match. They compare each character at most twice on average with a
/// confirmed prefix.
///
/// Afterwards the state has no captures, on an error too, and start and cursor are unspecified. The state can be
/// reused, with a text of any type.
///
/// ```
/// // The bytecode of `a`.
/// let code = Code::check(alloc, &[16, 97, 1], &uni)?;
/// let all = all_matches(Request::whole("aba", code), &mut State::new(alloc))?;
/// assert!(all.len() == 2 && all[1].start == 2 && all[1].end == 3);
/// ```
///
/// # Errors
///
/// [`SreError::Memory`] if an allocation fails.
pub fn all_matches<S: StrDrive, A: Allocator + Copy>(
    req: Request<'_, S>,
    state: &mut State<A>,
) -> Result<Vec<Found<A>, A>, SreError>
    ensures ok { (t : Tree) → Whole (words_of (code_of req.entry)) t
        → IfOk result (λ all. map match_of all.items ≡ walk (asked_of req.entry) t) }
    ensures bound { IfOk result (λ all. vec_len all ≤ most_matches (asked_of req.entry)) }
    ensures order { IfOk result (λ all. AreInOrder (start_of req.entry) (map match_of all.items)) }
    ensures counts { CountsOfWalk (asked_of req.entry) (code_of req.entry)
        (most_matches (asked_of req.entry)) state.new }
    ensures by_matches { IfOk result
        (λ all. CountsOfWalk (asked_of req.entry) (code_of req.entry) (vec_len all) state.new) }
    ensures once { state.new.restarted ≡ 0 }
    ensures after { state.new.marks ≡ no_marks }
    ensures refused { OnErr result (Refused A) }
{
    all_matches_by(req, state, &mut Nobody)
}

/// All matches as `all_matches` returns them. The search skips the starts that the prefilter excludes.
///
/// # Errors
///
/// [`SreError::Memory`] if an allocation fails.
pub fn all_matches_by<S: StrDrive, A: Allocator + Copy, F: Starts<S>>(
    req: Request<'_, S>,
    state: &mut State<A>,
    starts: &mut F,
) -> Result<Vec<Found<A>, A>, SreError>
    requires suits { F.suits starts.old (string_of req) (code_of req) }
    ensures suits { F.suits starts.new (string_of req.entry) (code_of req.entry) }
    ensures ok { (t : Tree) → Whole (words_of (code_of req.entry)) t
        → IfOk result (λ all. map match_of all.items ≡ walk (asked_of req.entry) t) }
    ensures bound { IfOk result (λ all. vec_len all ≤ most_matches (asked_of req.entry)) }
    ensures order { IfOk result (λ all. AreInOrder (start_of req.entry) (map match_of all.items)) }
    ensures counts { CountsOfWalk (asked_of req.entry) (code_of req.entry)
        (most_matches (asked_of req.entry)) state.new }
    ensures by_matches { IfOk result
        (λ all. CountsOfWalk (asked_of req.entry) (code_of req.entry) (vec_len all) state.new) }
    ensures once { state.new.restarted ≡ 0 }
    ensures after { state.new.marks ≡ no_marks }
    ensures refused { OnErr result (Refused A) }
{
    let mut all = Vec::new(state.allocator());
    let mut tally = Tally {
        started: 0,
        compared: 0,
    };
    let added = add_matches(req, state, &mut all, starts, &mut tally);
    state.show_counts(tally.started, tally.compared);
    match added {
        Ok(()) => Ok(all),
        Err(error) => {
            state.forget(); // the list has no room for this match
            Err(error)
        }
    }
}
