//! Limits of a recipe: a number of matches, or a number of steps.

ghost use Rattle.std.specs.Prelude.{◌≡◌, ◌<◌, false, None, Some, IfOk, OnErr, MatchOption, IsSome};
ghost use Rattle.sre_recipes.specs.Terms.{string_of, request_of, shown_of, Gives, most_items, Refused};
ghost use Rattle.sre_recipes.specs.Spans.{IsSpan};
ghost use Rattle.sre_recipes.specs.Limits.{one_less, Takes, Stops, Goes, Ends};

use crate::span::{Span, next_span, span_of};
use sre_engine::{SearchIter, SreError, StrDrive};
use std::alloc::Allocator;

/// The limits of a recipe, which each call updates.
#[derive(Clone, Copy, PartialEq, Eq, Debug)]
pub struct Bounds {
    /// The greatest number of matches, or `None` for all. The call subtracts the matches that it used.
    pub most: Option<usize>,
    /// The greatest number of machine steps, or `None` for no limit. The call leaves the unused steps here.
    pub steps: Option<u64>,
    /// Whether the last call exceeded the step limit.
    pub limit_exceeded: bool,
}

impl Bounds {
    /// Limits a recipe to the first `most` matches, as Python's `count` and `maxsplit` do above 0. **0 means no match**
    /// here; in Python it means all.
    pub fn first(most: usize) -> Bounds
        ensures most { result.most ≡ Some most }
        ensures steps { result.steps ≡ None }
        ensures limit_exceeded { result.limit_exceeded ≡ false }
    {
        Bounds {
            most: Some(most),
            steps: None,
            limit_exceeded: false,
        }
    }

    /// Limits a recipe to a number of machine steps, for all matches together.
    pub fn within(steps: u64) -> Bounds
        ensures most { result.most ≡ None }
        ensures steps { result.steps ≡ Some steps }
        ensures limit_exceeded { result.limit_exceeded ≡ false }
    {
        Bounds {
            most: None,
            steps: Some(steps),
            limit_exceeded: false,
        }
    }

    // No limits.
    pub(crate) fn none() -> Bounds
        ensures most { result.most ≡ None }
        ensures steps { result.steps ≡ None }
        ensures limit_exceeded { result.limit_exceeded ≡ false }
    {
        Bounds {
            most: None,
            steps: None,
            limit_exceeded: false,
        }
    }
}

// The span of the next match, within the step limit if there is one.
fn next_limited<S: StrDrive, A: Allocator + Copy>(
    walk: &mut SearchIter<'_, S, A>,
    bounds: &mut Bounds,
) -> Result<Option<Span>, SreError>
    requires { bounds.old.limit_exceeded ≡ false }
    ensures gives { IfOk result (λ next. MatchOption next (Ends walk.old bounds.old bounds.new) (λ span.
        Gives walk.old walk.new
        × IsSpan (S.stands (string_of (request_of walk.old))) (shown_of walk.new) span.start span.end
        × Goes walk.old walk.new bounds.old bounds.new)) }
    ensures refused { OnErr result (Refused A) }
{
    let Some(steps) = bounds.steps else {
        return next_span(walk);
    };
    let mut left = steps;
    let found = walk.next_within(&mut left)?;
    bounds.steps = Some(left);
    match found {
        Some(true) => Ok(Some(span_of(walk.req().string(), walk.state()))),
        Some(false) => Ok(None),
        None => {
            bounds.limit_exceeded = true;
            Ok(None)
        }
    }
}

// The limit on matches after one more match.
fn one_less(most: Option<usize>) -> Option<usize>
    ensures { result ≡ one_less most }
{
    match most {
        None => None,
        Some(more) => Some(more.saturating_sub(1)),
    }
}

// The span of the next match within both limits. `None` if the iteration ended or a limit was reached.
pub(crate) fn next_bounded<S: StrDrive, A: Allocator + Copy>(
    walk: &mut SearchIter<'_, S, A>,
    bounds: &mut Bounds,
) -> Result<Option<Span>, SreError>
    requires { bounds.old.limit_exceeded ≡ false }
    ensures gives { IfOk result (λ next. MatchOption next (Stops walk.old bounds.old bounds.new) (λ span.
        Gives walk.old walk.new
        × IsSpan (S.stands (string_of (request_of walk.old))) (shown_of walk.new) span.start span.end
        × Takes walk.old walk.new bounds.old bounds.new)) }
    ensures falls { IfOk result (λ next. IsSome next → most_items walk.new < most_items walk.old) }
    ensures refused { OnErr result (Refused A) }
{
    if bounds.most == Some(0) {
        return Ok(None);
    }
    let Some(span) = next_limited(walk, bounds)? else {
        return Ok(None);
    };
    bounds.most = one_less(bounds.most);
    Ok(Some(span))
}
