//! Start and end cursors of the matches of an iteration.

ghost use Rattle.std.specs.Prelude.{◌≡◌, ◌+◌, ◌<◌, ◌≤◌, length, IfOk, OnErr, MatchOption, IsSome};
ghost use Rattle.sre_recipes.specs.Terms.{string_of, request_of, shown_of, IsOver, Gives, most_items, Refused};
ghost use Rattle.sre_recipes.specs.Spans.{IsSpan, StandsAt};

use sre_engine::{SearchIter, SreError, State, StrDrive, StringCursor};
use std::alloc::Allocator;

/// The cursors at the start and the end of a match.
#[derive(Clone, Copy)]
pub(crate) struct Span {
    pub start: StringCursor,
    pub end: StringCursor,
}

// Moves a cursor back to an earlier position, or to its own.
pub(crate) fn back_to<S: StrDrive>(text: S, from: &StringCursor, position: usize) -> StringCursor
    requires at { S.stands text from.now from.now.position }
    requires before { position ≤ from.now.position }
    ensures stands { S.stands text result result.position }
    ensures position { result.position ≡ position }
{
    let mut cursor = *from;
    text.back_skip(&mut cursor, from.position() - position);
    cursor
}

// Moves a cursor forward by a number of characters.
pub(crate) fn on_by<S: StrDrive>(text: S, from: &StringCursor, several: usize) -> StringCursor
    requires at { S.stands text from.now from.now.position }
    requires within { from.now.position + several ≤ length (S.text text) }
    ensures stands { S.stands text result result.position }
    ensures position { result.position ≡ from.now.position + several }
{
    let mut cursor = *from;
    text.skip(&mut cursor, several);
    cursor
}

// The span between two positions at or behind a cursor.
pub(crate) fn span_behind<S: StrDrive>(
    text: S,
    cursor: &StringCursor,
    from: usize,
    to: usize,
) -> Span
    requires at { S.stands text cursor.now cursor.now.position }
    requires behind { cursor.now.position ≤ from }
    requires forward { from ≤ to }
    requires inside { to ≤ length (S.text text) }
    ensures start { StandsAt (S.stands text) result.start from }
    ensures end { StandsAt (S.stands text) result.end to }
{
    let start = on_by(text, cursor, from - cursor.position());
    let end = on_by(text, &start, to - from);
    Span { start, end }
}

// The span of the state's match. The start is reached backwards from the end.
pub(crate) fn span_of<S: StrDrive, A: Allocator + Copy>(text: S, state: &State<A>) -> Span
    requires stands { S.stands text state.now.cursor state.now.cursor.position }
    requires forward { state.now.start ≤ state.now.cursor.position }
    ensures { IsSpan (S.stands text) state.now result.start result.end }
{
    let end = state.cursor();
    let start = back_to(text, &end, state.start());
    Span { start, end }
}

// The span of the next match, or `None` at the end of the iteration.
pub(crate) fn next_span<S: StrDrive, A: Allocator + Copy>(
    walk: &mut SearchIter<'_, S, A>,
) -> Result<Option<Span>, SreError>
    ensures gives { IfOk result (λ next. MatchOption next (IsOver walk.old) (λ span. Gives walk.old walk.new
        × IsSpan (S.stands (string_of (request_of walk.old))) (shown_of walk.new) span.start span.end)) }
    ensures falls { IfOk result (λ next. IsSome next → most_items walk.new < most_items walk.old) }
    ensures refused { OnErr result (Refused A) }
{
    match walk.next() {
        None => Ok(None),
        Some(Err(error)) => Err(error),
        Some(Ok(())) => Ok(Some(span_of(walk.req().string(), walk.state()))),
    }
}
