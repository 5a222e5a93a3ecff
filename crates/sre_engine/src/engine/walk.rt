//! One step of an iteration: the next match, and the request after it.

ghost use Rattle.std.specs.Prelude.{◌≡◌, ◌≤◌, OnErr};
ghost use Rattle.sre_engine.specs.Terms.{items_of, string_of, start_of, code_of, asked_of, stands_in, is_limited};
ghost use Rattle.sre_engine.specs.Terms.{Refused};
ghost use Rattle.sre_engine.specs.Answers.{MayTakeMemory};
ghost use Rattle.sre_engine.specs.Costs.{Charged};
ghost use Rattle.sre_engine.specs.Counts.{BeginsAgain, KeepsToSteps, runs_of};
ghost use Rattle.sre_engine.specs.FirstSets.{SetsOf};
ghost use Rattle.sre_engine.specs.Searches.{Answered, Stepped, RunsOnceAnchored, given_up};

use crate::engine::first_sets::FirstSets;
use crate::engine::state::{SreError, State};
use crate::engine::told::Starts;
use sre_chars::string::{StrDrive, StringCursor};
use sre_machine::allowance::Allowance;
use sre_machine::turns::Halt;
use sre_request::Request;
use std::alloc::Allocator;

// Searches as `State::search_from` does, with the FIRST sets of the code if they are computed.
#[inline(always)]
fn search_admitted<S: StrDrive, A: Allocator + Copy, F: Starts<S>>(
    req: &Request<'_, S>,
    state: &mut State<A>,
    from: StringCursor,
    allowed: &mut Allowance,
    starts: &mut F,
    sets: &FirstSets<A>,
) -> Result<bool, Halt<A>>
    requires stands { stands_in req.now from (start_of req.now) }
    requires suits { F.suits starts.old (string_of req.now) (code_of req.now) }
    requires sets { SetsOf (items_of (code_of req.now)) sets.now }
    ensures suits { F.suits starts.new (string_of req.now) (code_of req.now) }
    ensures answers { Answered req.now result state.new }
    ensures again { BeginsAgain (is_limited allowed.old) state.new }
    ensures charged { Charged req.now result state.new.started (runs_of state.new) allowed.old allowed.new }
    ensures anchored { RunsOnceAnchored req.now state.new }
    ensures literal { OnErr result (MayTakeMemory (code_of req.now)) }
{
    let admitted = sets.list();
    if admitted.is_empty() {
        return state.search_from(req, from, allowed, starts, sets);
    }
    let asked = req.with_admitted(admitted);
    state.search_from(&asked, from, allowed, starts, sets)
}

/// Searches from a cursor at the start of the range. After a match, which the state shows, the request and the cursor
/// are at its end. The request must advance exactly if the match was empty. So no step counts characters from the start
/// of the text.
///
/// Without a match, and after an error, there are no captures, and the request is unchanged. Steps of the machine are
/// charged to the limit.
pub(crate) fn step_within<S: StrDrive, A: Allocator + Copy, F: Starts<S>>(
    req: &mut Request<'_, S>,
    state: &mut State<A>,
    cursor: &mut StringCursor,
    allowed: &mut Allowance,
    starts: &mut F,
    sets: &FirstSets<A>,
) -> Result<bool, Halt<A>>
    requires stands { stands_in req.old cursor.old (start_of req.old) }
    requires suits { F.suits starts.old (string_of req.old) (code_of req.old) }
    requires sets { SetsOf (items_of (code_of req.old)) sets.now }
    ensures suits { F.suits starts.new (string_of req.new) (code_of req.new) }
    ensures stepped { Stepped req.old result state.new req.new }
    ensures here { stands_in req.new cursor.new (start_of req.new) }
    ensures again { BeginsAgain (is_limited allowed.old) state.new }
    ensures charged { Charged req.old result state.new.started (runs_of state.new) allowed.old allowed.new }
    ensures anchored { RunsOnceAnchored req.old state.new }
    ensures literal { OnErr result (MayTakeMemory (code_of req.old)) }
{
    if !search_admitted(req, state, *cursor, allowed, starts, sets)? {
        return Ok(false);
    }
    *cursor = state.cursor();
    let end = cursor.position();
    req.set_must_advance(end == state.start());
    req.set_start(end);
    Ok(true)
}

/// One step of an iteration: searches from a cursor at the start of the range, and returns whether there is a match.
/// The search skips the starts that the prefilter excludes.
///
/// After a match, which the state shows, the request and the cursor are at its end. The request must advance exactly if
/// the match was empty. Without a match, and after an error, there are no captures, and the request is unchanged.
///
/// # Errors
///
/// [`SreError::Memory`] if an allocation fails.
pub fn step_by<S: StrDrive, A: Allocator + Copy, F: Starts<S>>(
    req: &mut Request<'_, S>,
    state: &mut State<A>,
    cursor: &mut StringCursor,
    starts: &mut F,
) -> Result<bool, SreError>
    requires stands { stands_in req.old cursor.old (start_of req.old) }
    requires suits { F.suits starts.old (string_of req.old) (code_of req.old) }
    ensures suits { F.suits starts.new (string_of req.new) (code_of req.new) }
    ensures stepped { Stepped req.old result state.new req.new }
    ensures here { stands_in req.new cursor.new (start_of req.new) }
    ensures refused { OnErr result (Refused A) }
    ensures anchored { RunsOnceAnchored req.old state.new }
    ensures once { state.new.restarted ≡ 0 }
    ensures literal { OnErr result (MayTakeMemory (code_of req.old)) }
{
    let sets = FirstSets::new(state);
    step_admitted(req, state, cursor, starts, &sets)
}

/// One step as `step_by` takes it, with the FIRST sets of the code, as far as they are computed. They change no answer.
///
/// # Errors
///
/// [`SreError::Memory`] if an allocation fails.
pub fn step_admitted<S: StrDrive, A: Allocator + Copy, F: Starts<S>>(
    req: &mut Request<'_, S>,
    state: &mut State<A>,
    cursor: &mut StringCursor,
    starts: &mut F,
    sets: &FirstSets<A>,
) -> Result<bool, SreError>
    requires stands { stands_in req.old cursor.old (start_of req.old) }
    requires suits { F.suits starts.old (string_of req.old) (code_of req.old) }
    requires sets { SetsOf (items_of (code_of req.old)) sets.now }
    ensures suits { F.suits starts.new (string_of req.new) (code_of req.new) }
    ensures stepped { Stepped req.old result state.new req.new }
    ensures here { stands_in req.new cursor.new (start_of req.new) }
    ensures refused { OnErr result (Refused A) }
    ensures anchored { RunsOnceAnchored req.old state.new }
    ensures once { state.new.restarted ≡ 0 }
    ensures literal { OnErr result (MayTakeMemory (code_of req.old)) }
{
    match step_within(req, state, cursor, &mut Allowance::Unlimited, starts, sets) {
        Ok(found) => Ok(found),
        Err(Halt::Refused(refusal)) => Err(SreError::from(refusal)),
        Err(Halt::UsedUp) => unreachable!(),
    }
}

/// One step as `step_admitted` takes it, within a budget of steps. Returns `None` if the step limit is exceeded.
/// `State::match_within` defines a step, and says which budgets suffice for one match.
///
/// `steps` then holds the steps that are left. After `None` there are no captures, and the request is unchanged.
///
/// # Errors
///
/// [`SreError::Memory`] if an allocation fails.
pub fn step_limited<S: StrDrive, A: Allocator + Copy, F: Starts<S>>(
    req: &mut Request<'_, S>,
    state: &mut State<A>,
    cursor: &mut StringCursor,
    steps: &mut u64,
    starts: &mut F,
    sets: &FirstSets<A>,
) -> Result<Option<bool>, SreError>
    requires stands { stands_in req.old cursor.old (start_of req.old) }
    requires suits { F.suits starts.old (string_of req.old) (code_of req.old) }
    requires sets { SetsOf (items_of (code_of req.old)) sets.now }
    ensures suits { F.suits starts.new (string_of req.new) (code_of req.new) }
    ensures stepped { Stepped req.old (given_up result) state.new req.new }
    ensures here { stands_in req.new cursor.new (start_of req.new) }
    ensures refused { OnErr result (Refused A) }
    ensures steps { KeepsToSteps A (asked_of req.old) (code_of req.old) result (runs_of state.new) steps.old steps.new }
    ensures anchored { RunsOnceAnchored req.old state.new }
    ensures again { state.new.restarted ≤ state.new.started }
    ensures literal { OnErr (given_up result) (MayTakeMemory (code_of req.old)) }
{
    let mut allowed = Allowance::Turns(*steps);
    let told = step_within(req, state, cursor, &mut allowed, starts, sets);
    *steps = allowed.left();
    match told {
        Ok(found) => Ok(Some(found)),
        Err(Halt::Refused(refusal)) => Err(SreError::from(refusal)),
        Err(Halt::UsedUp) => Ok(None),
    }
}
