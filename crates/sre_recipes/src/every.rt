//! All matches of a text, by an iteration over the spans that DFAs find.

ghost use Rattle.std.specs.Prelude.{◌≡◌, ◌<◌, ◌≤◌, ◌++◌, ℕ, true, false, map, IfOk, IsSome, MatchOption, OnErr};
ghost use Rattle.sre_recipes.specs.Terms.{Refused, Tree, Whole, words_of, string_of, start_of, end_of, code_of};
ghost use Rattle.sre_recipes.specs.Terms.{has_ended, most_spans};
ghost use Rattle.sre_finder.specs.SpanIters.{request_of, left_of, IsOver};
ghost use Rattle.sre_recipes.specs.Matches.{match_seen, placed_match, placed_groups, groups_seen};
ghost use Rattle.sre_recipes.specs.Spans.{StandsAt};
ghost use Rattle.sre_recipes.specs.Nexts.{FindsNext};

use crate::collects::Collects;
use crate::groups::CapturesOf;
use crate::matches::{Match, match_between, match_groups};
use crate::span::{Span, span_behind, span_of};
use crate::texts::Text;
use sre_engine::{SreError, State, StrDrive, StringCursor};
use sre_finder::{Haystack, SpanIter};
use std::alloc::Global;

// The span of the next match, or `None` at the end of the iteration. The state shows the match if `captures`, and else
// the span is reached from the cursor at the end of the last match.
fn next_found<S: Haystack>(
    walk: &mut SpanIter<'_, '_, S, Global>,
    last: &StringCursor,
    captures: bool,
) -> Result<Option<Span>, SreError>
    requires { StandsAt (S.stands (string_of (request_of walk.old))) last.now (start_of (request_of walk.old)) }
    ensures gives { IfOk result (λ next. MatchOption next (IsOver walk.old) (λ span.
        FindsNext captures walk.old span.start span.end walk.new)) }
    ensures falls { IfOk result (λ next. IsSome next → most_spans walk.new < most_spans walk.old) }
    ensures code { code_of (request_of walk.new) ≡ code_of (request_of walk.old) }
    ensures refused { OnErr result (Refused Global) }
{
    let found = match walk.next() {
        None => return Ok(None),
        Some(Err(error)) => return Err(error),
        Some(Ok(found)) => found,
    };
    if !captures {
        let text = walk.req().string();
        return Ok(Some(span_behind(text, last, found.start, found.end)));
    }
    if walk.show()? {
        Ok(Some(span_of(walk.req().string(), walk.state())))
    } else {
        Ok(None)
    }
}

// Gathers something of each remaining match of an iteration, by what reads captures or not.
pub(crate) fn collect_spans<S: Text + Haystack, C: Collects<S, Global>>(
    walk: &mut SpanIter<'_, '_, S, Global>,
    captures: bool,
    all: &mut C,
) -> Result<(), SreError>
    requires captures { captures ≡ C.captures }
    requires begun { has_ended walk.old ≡ false }
    requires waits { (p : ℕ) → start_of (request_of walk.old) ≤ p
        → C.waits (string_of (request_of walk.old)) p all.old }
    ensures ok { (t : Tree) → Whole (words_of (code_of (request_of walk.old))) t → IfOk result (λ _.
        C.gathers (string_of (request_of walk.old)) (end_of (request_of walk.old)) all.old (left_of walk.old t)
        all.new) }
    ensures waits { IfOk result (λ _.
        C.waits (string_of (request_of walk.old)) (end_of (request_of walk.old)) all.new) }
    ensures code { code_of (request_of walk.new) ≡ code_of (request_of walk.old) }
    ensures refused { C.trusts → OnErr result (Refused Global) }
{
    let (text, stop) = (walk.req().string(), walk.req().end());
    let mut last = text.create_cursor(walk.req().start());
    'walk: while let Some(span) = next_found(walk, &last, captures)? {
        all.add(text, walk.state(), &span)?;
        last = span.end;
    }
    all.finish(text, stop)
}

/// Matches with their byte offsets.
#[derive(Drop)]
pub(crate) struct Matched<S> {
    pub(crate) all: Vec<Match<S>>,
}

impl<S: Text + Haystack> Collects<S, Global> for Matched<S> {
    ghost gathers = { λ text stop before ms after. map (match_seen S.text) after.all.items
        ≡ map (match_seen S.text) before.all.items ++ map (placed_match (S.text text) (S.place text)) ms };

    fn add(&mut self, text: S, _state: &State<Global>, span: &Span) -> Result<(), SreError> {
        Ok(sre_growth::push(&mut self.all, match_between(text, &span.start, &span.end))?)
    }

    fn finish(&mut self, _text: S, _stop: usize) -> Result<(), SreError> {
        Ok(())
    }
}

/// Matches with their groups.
#[derive(Drop)]
pub(crate) struct Grouped<S> {
    pub(crate) alloc: Global,
    pub(crate) all: Vec<CapturesOf<Match<S>, Global>>,
}

impl<S: Text + Haystack> Collects<S, Global> for Grouped<S> {
    ghost captures = { true };

    ghost gathers = { λ text stop before ms after. map (groups_seen S.text) after.all.items
        ≡ map (groups_seen S.text) before.all.items ++ map (placed_groups (S.text text) (S.place text)) ms };

    fn add(&mut self, text: S, state: &State<Global>, span: &Span) -> Result<(), SreError> {
        let captures = match_groups(self.alloc, text, state, span)?;
        Ok(sre_growth::push(&mut self.all, captures)?)
    }

    fn finish(&mut self, _text: S, _stop: usize) -> Result<(), SreError> {
        Ok(())
    }
}
