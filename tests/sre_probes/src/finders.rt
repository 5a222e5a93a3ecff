//! The matches that a finder finds: by DFAs that find starts, or spans. Both answer as `shown` does, which uses the
//! machine alone.

ghost use Rattle.std.specs.Prelude.{◌≡◌};
ghost use Rattle.sre_finder.specs.SpanIters.{request_of, has_ended};

use crate::shown::{push_answer, push_state};
use sre_engine::{Request, State, StrDrive};
use sre_finder::{Encoding, Finder, FinderIter, Haystack, SpanFinder, SpanIter};
use sre_lines::line::Finding;
use std::alloc::{AllocError, Allocator, Global};

// Appends each match of an iteration with a prefilter.
fn push_starts<S: Haystack, A: Allocator + Copy>(
    walk: &mut FinderIter<'_, '_, S, A>,
    answer: &mut String,
) -> Result<(), AllocError> {
    'matches: while let Some(item) = walk.next() {
        if item.is_err() {
            return Err(AllocError);
        }
        push_state(walk.state(), answer)?;
        answer.push_str("; ")?;
    }
    answer.push_str("end")
}

/// Appends the result of a call, or each match of an iteration, with a prefilter.
pub(crate) fn push_by_finder<S: Haystack, A: Allocator + Copy>(
    alloc: Global,
    heap: A,
    state: &mut State<A>,
    finding: Finding,
    encoding: Encoding,
    req: Request<'_, S>,
    answer: &mut String,
) -> Result<(), AllocError> {
    let mut finder = Finder::new(alloc, req.pattern_codes(), encoding);
    let found = match finding {
        Finding::Match => state.pymatch(&req),
        Finding::Search => finder.search(req, state),
        Finding::Walk => return push_starts(&mut finder.walk(req, State::new(heap)), answer),
    };
    push_answer(state, found, answer)
}

// Appends the match of the last span, as `show` finds it by a run of the machine.
fn push_span<S: Haystack, A: Allocator + Copy>(
    walk: &mut SpanIter<'_, '_, S, A>,
    start: usize,
    end: usize,
    answer: &mut String,
) -> Result<(), AllocError>
    ensures req { request_of walk.new ≡ request_of walk.old }
    ensures ended { has_ended walk.new ≡ has_ended walk.old }
{
    let Ok(is_shown) = walk.show() else {
        return Err(AllocError);
    };
    let state = walk.state();
    if !is_shown || state.start() != start || state.cursor().position() != end {
        return answer.push_str("another span");
    }
    push_state(state, answer)
}

// Appends each match of an iteration over spans.
fn push_spans<S: Haystack, A: Allocator + Copy>(
    walk: &mut SpanIter<'_, '_, S, A>,
    answer: &mut String,
) -> Result<(), AllocError> {
    'matches: while let Some(item) = walk.next() {
        let Ok(span) = item else {
            return Err(AllocError);
        };
        push_span(walk, span.start, span.end, answer)?;
        answer.push_str("; ")?;
    }
    answer.push_str("end")
}

// Appends the first match of an iteration over spans.
fn push_first<S: Haystack, A: Allocator + Copy>(
    walk: &mut SpanIter<'_, '_, S, A>,
    answer: &mut String,
) -> Result<(), AllocError> {
    match walk.next() {
        Some(Ok(span)) => push_span(walk, span.start, span.end, answer),
        Some(Err(_)) => Err(AllocError),
        None => answer.push_str("no"),
    }
}

// Appends the first match of an iteration over spans, or all. A separate function, so that the iteration is dropped at
// one place.
fn push_told<S: Haystack, A: Allocator + Copy>(
    walk: &mut SpanIter<'_, '_, S, A>,
    finding: Finding,
    answer: &mut String,
) -> Result<(), AllocError> {
    match finding {
        Finding::Search => push_first(walk, answer),
        _ => push_spans(walk, answer),
    }
}

/// Appends the result of a call, or each match of an iteration, with DFAs that find spans.
pub(crate) fn push_by_spans<S: Haystack, A: Allocator + Copy>(
    alloc: Global,
    heap: A,
    state: &mut State<A>,
    finding: Finding,
    encoding: Encoding,
    req: Request<'_, S>,
    answer: &mut String,
) -> Result<(), AllocError> {
    if let Finding::Match = finding {
        let found = state.pymatch(&req);
        return push_answer(state, found, answer);
    }
    let finder = SpanFinder::new(alloc, req.pattern_codes(), encoding);
    let mut walk = finder.walk(req, State::new(heap));
    push_told(&mut walk, finding, answer)
}
