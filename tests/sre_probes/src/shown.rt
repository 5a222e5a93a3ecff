//! What a state shows of a match, of all matches of an iteration, and of a list.

use sre_engine::{Found, Request, SearchIter, State, StrDrive, admitted_by_place, all_matches};
use sre_lines::answer::push_match;
use sre_lines::line::Finding;
use std::alloc::{AllocError, Allocator};

/// Appends what a state shows of a match.
pub(crate) fn push_state<A: Allocator + Copy>(
    state: &State<A>,
    answer: &mut String,
) -> Result<(), AllocError> {
    let (end, marks) = (state.cursor(), state.marks());
    push_match(
        answer,
        state.start(),
        end.position(),
        marks.last_index(),
        marks.raw(),
    )?;
    write!(answer, " offset {}", end.offset())
}

/// Whether a state has no captures, as after each call without a match or with an error.
pub(crate) fn has_none<A: Allocator + Copy>(state: &State<A>) -> bool {
    state.marks().raw().is_empty() && state.marks().last_index() == -1
}

/// Appends the result of a call.
pub(crate) fn push_answer<A: Allocator + Copy, E: Drop>(
    state: &State<A>,
    found: Result<bool, E>,
    answer: &mut String,
) -> Result<(), AllocError> {
    match found {
        Ok(true) => push_state(state, answer),
        Ok(false) if has_none(state) => answer.push_str("no"),
        Err(_) if has_none(state) => Err(AllocError),
        _ => answer.push_str("marks are left"),
    }
}

/// Appends the result of a call, or each match of an iteration.
pub(crate) fn push_shown<S: StrDrive, A: Allocator + Copy>(
    heap: A,
    state: &mut State<A>,
    finding: Finding,
    req: Request<'_, S>,
    answer: &mut String,
) -> Result<(), AllocError> {
    let found = match finding {
        Finding::Match => state.pymatch(&req),
        Finding::Search => state.search(req),
        Finding::Walk => return push_walk(&mut SearchIter::new(req, State::new(heap)), answer),
    };
    push_answer(state, found, answer)
}

// Whether the next request of an iteration starts at the end of the match, and must advance after an empty one.
fn goes_on<S: StrDrive, A: Allocator + Copy>(walk: &SearchIter<'_, S, A>) -> bool {
    let (start, end) = (walk.state().start(), walk.state().cursor().position());
    walk.req().start() == end && walk.req().must_advance() == (start == end)
}

// Whether an iteration has ended for good, without captures.
fn stays_ended<S: StrDrive, A: Allocator + Copy>(walk: &mut SearchIter<'_, S, A>) -> bool {
    for _ in 0..3 {
        if !has_none(walk.state()) || walk.next().is_some() {
            return false;
        }
    }
    true
}

// Appends each match of an iteration, as its state shows it.
fn push_walk<S: StrDrive, A: Allocator + Copy>(
    walk: &mut SearchIter<'_, S, A>,
    answer: &mut String,
) -> Result<(), AllocError> {
    'matches: while let Some(item) = walk.next() {
        if item.is_err() {
            let is_over = stays_ended(walk);
            return if is_over {
                Err(AllocError)
            } else {
                answer.push_str("goes on")
            };
        }
        push_state(walk.state(), answer)?;
        answer.push_str(if goes_on(walk) { "; " } else { "; elsewhere " })?;
    }
    answer.push_str(if stays_ended(walk) { "end" } else { "goes on" })
}

/// Appends the result of a call, or each match of an iteration, with a list of FIRST sets by address.
pub(crate) fn push_told<S: StrDrive, A: Allocator + Copy>(
    heap: A,
    state: &mut State<A>,
    finding: Finding,
    req: Request<'_, S>,
    answer: &mut String,
) -> Result<(), AllocError> {
    let Ok(list) = admitted_by_place(heap, req.pattern_codes().items()) else {
        return Err(AllocError);
    };
    push_shown(heap, state, finding, req.with_admitted(&list), answer)
}

// Appends some matches.
fn push_all<A: Allocator>(all: &[Found<A>], answer: &mut String) -> Result<(), AllocError> {
    for found in all {
        let marks = found.marks.as_slice();
        push_match(answer, found.start, found.end, found.last_index, marks)?;
        answer.push_str("; ")?;
    }
    answer.push_str("end")
}

/// Appends each match of a list.
pub(crate) fn push_list<S: StrDrive, A: Allocator + Copy>(
    state: &mut State<A>,
    req: Request<'_, S>,
    answer: &mut String,
) -> Result<(), AllocError> {
    let listed = all_matches(req, state);
    if !has_none(state) {
        return answer.push_str("marks are left");
    }
    match listed {
        Ok(all) => push_all(all.as_slice(), answer),
        Err(_) => Err(AllocError),
    }
}

/// Appends the result of a call within a step limit.
pub(crate) fn push_within<S: StrDrive, A: Allocator + Copy>(
    state: &mut State<A>,
    finding: Finding,
    req: Request<'_, S>,
    steps: u64,
    answer: &mut String,
) -> Result<(), AllocError> {
    let mut left = steps;
    let told = match finding {
        Finding::Match => state.match_within(&req, &mut left),
        Finding::Search | Finding::Walk => state.search_within(req, &mut left),
    };
    match told {
        Ok(Some(found)) => push_answer(state, Ok::<bool, AllocError>(found), answer),
        Ok(None) if left == 0 && has_none(state) => answer.push_str("step limit exceeded"),
        Ok(None) => answer.push_str("step limit exceeded with steps or marks left"),
        Err(_) if has_none(state) => Err(AllocError),
        Err(_) => answer.push_str("marks are left"),
    }
}
