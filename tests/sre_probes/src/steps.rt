//! The fewest steps in which a call, and each step of an iteration, returns an answer.

use crate::shown::has_none;
use sre_engine::{Request, SearchIter, SreError, State, StrDrive};
use sre_lines::line::Finding;
use std::alloc::{AllocError, Allocator};

// More steps than any line's call takes.
const MOST: u64 = 1000;

// A copy of a request: the checker cannot copy one over a generic type of text.
fn again<'a, S: StrDrive>(req: &Request<'a, S>) -> Request<'a, S> {
    let code = req.pattern_codes();
    let mut copy = Request::new(req.string(), req.start(), req.end(), code, req.match_all());
    copy.set_must_advance(req.must_advance());
    copy.set_empty_rule(req.empty_rule());
    copy
}

// The answer of a call within a step limit, and the unused steps.
fn within<S: StrDrive, A: Allocator + Copy>(
    req: &Request<'_, S>,
    finding: Finding,
    state: &mut State<A>,
    steps: u64,
) -> Result<(Option<bool>, u64), SreError> {
    let mut left = steps;
    let told = match finding {
        Finding::Match => state.match_within(req, &mut left)?,
        Finding::Search | Finding::Walk => state.search_within(again(req), &mut left)?,
    };
    Ok((told, left))
}

// The fewest steps in which a call returns an answer. Each smaller limit is exceeded, with no step left and no
// captures; each greater one has the same answer.
fn fewest<S: StrDrive, A: Allocator + Copy>(
    req: &Request<'_, S>,
    finding: Finding,
    state: &mut State<A>,
) -> Result<Option<(bool, u64)>, SreError> {
    for steps in 0..MOST {
        let (told, left) = within(req, finding, state, steps)?;
        if let Some(found) = told {
            let more = within(req, finding, state, steps.saturating_add(7))?;
            let agrees = more == (told, left.saturating_add(7));
            return Ok(if agrees {
                Some((found, steps.saturating_sub(left)))
            } else {
                None
            });
        }
        if left != 0 || !has_none(state) {
            return Ok(None);
        }
    }
    Ok(None)
}

/// Appends whether there is a match, and the fewest steps to find out. For an iteration, does so for each match.
pub(crate) fn push_fewest<S: StrDrive, A: Allocator + Copy>(
    heap: A,
    state: &mut State<A>,
    finding: Finding,
    req: Request<'_, S>,
    answer: &mut String,
) -> Result<(), AllocError> {
    if let Finding::Walk = finding {
        return push_each(&mut SearchIter::new(req, State::new(heap)), answer);
    }
    match fewest(&req, finding, state) {
        Ok(Some((found, steps))) => write!(answer, "{found} in {steps}"),
        Ok(None) => answer.push_str("otherwise"),
        Err(SreError::Memory) => Err(AllocError),
    }
}

// The fewest steps in which the next match of an iteration is found. A call that exceeds its limit does not change the
// iteration.
fn fewest_of_next<S: StrDrive, A: Allocator + Copy>(
    walk: &mut SearchIter<'_, S, A>,
) -> Result<Option<(bool, u64)>, SreError> {
    for steps in 0..MOST {
        let mut left = steps;
        if let Some(found) = walk.next_within(&mut left)? {
            return Ok(Some((found, steps.saturating_sub(left))));
        }
        if left != 0 || !has_none(walk.state()) {
            return Ok(None);
        }
    }
    Ok(None)
}

// Appends each match of an iteration with its fewest steps, and those of the call that finds no more.
fn push_each<S: StrDrive, A: Allocator + Copy>(
    walk: &mut SearchIter<'_, S, A>,
    answer: &mut String,
) -> Result<(), AllocError> {
    for _ in 0..MOST {
        match fewest_of_next(walk) {
            Ok(Some((true, steps))) => {
                let (start, end) = (walk.state().start(), walk.state().cursor().position());
                write!(answer, "{start}..{end} in {steps}; ")?;
            }
            Ok(Some((false, steps))) => {
                // after its end an iteration takes no steps
                let is_over = walk.next_within(&mut 0) == Ok(Some(false));
                let end = if is_over { "end" } else { "pause" };
                return write!(answer, "{end} in {steps}");
            }
            Ok(None) => return answer.push_str("otherwise"),
            Err(SreError::Memory) => return Err(AllocError),
        }
    }
    answer.push_str("no end")
}
