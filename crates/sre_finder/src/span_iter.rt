//! The iterator over the spans of all matches.

ghost use Rattle.std.specs.Prelude.{◌≡◌, ◌≤◌, ◌<◌, nat_eq, true, false, Some, IfOk, IfSome, OnErr, ◌&&◌};
ghost use Rattle.sre_finder.specs.Terms.{Refused, Tree, Whole, no_marks, found, items_of, words_of, string_of};
ghost use Rattle.sre_finder.specs.Terms.{start_of, end_of, code_of, asked_of, stands_in, answer_of, match_shown};
ghost use Rattle.sre_finder.specs.Terms.{SetsOf};
ghost use Rattle.sre_engine.specs.OneSetsOf.{one_sets_of};
ghost use Rattle.sre_finder.specs.Finders.{EndStands};

use crate::haystack::Haystack;
use crate::searched::show_at;
use crate::span_finder::SpanFinder;
use sre_chars::string::{StrDrive, StringCursor};
use sre_engine::engine::{FirstSets, SreError, State};
use sre_request::Request;
use std::alloc::Allocator;

/// Start and end of a match, as positions: both count characters.
#[derive(Clone, Copy, PartialEq, Eq, Debug)]
pub struct Span {
    pub start: usize,
    pub end: usize,
}

/// Iterator over the spans of a range's matches, in the order of a `SearchIter`. If the DFAs return a span, the machine
/// is not run.
///
/// The state is used by `show`, and for the steps for which the DFAs return no span. After `next`, what it shows is
/// unspecified.
///
/// An item is an error only if an allocation failed. It ends the iteration.
pub struct SpanIter<'c, 'a, S: StrDrive, A: Allocator + Copy> {
    finder: SpanFinder<'c>,
    req: Request<'a, S>,
    state: State<A>,
    cursor: StringCursor,
    // the last match: its start, and whether an empty match was excluded there
    at: StringCursor,
    advances: bool,
    // whether the state shows it
    is_shown: bool,
    ended: bool,
    sets: FirstSets<A>,
    ghost own: { finder.code ≡ code_of req },
    ghost known: { ∥ EndStands (S.stands (string_of req)) finder.end ∥₁ },
    ghost here: { ∥ (stands_in req cursor (start_of req)) ∥₁ },
    ghost last: { ∥ (stands_in req at at.position) ∥₁ },
    ghost inside: { at.position ≤ end_of req },
    ghost shown: { is_shown ≡ true → (t : Tree) → Whole (words_of (code_of req)) t
        → found (record (asked_of req) { start = at.position; must_advance = advances }) t
        ≡ Some (match_shown state) },
    ghost ends: { is_shown ≡ true → ∥ (stands_in req state.cursor state.cursor.position) ∥₁ },
    ghost first_sets: { SetsOf (items_of (code_of req)) sets } by { one_sets_of },
}

// Custom `Drop`, as that of `Finder`.
impl<'c, 'a, S: StrDrive, A: Allocator + Copy> Drop for SpanIter<'c, 'a, S, A> {
    fn drop(self) {
        let SpanIter {
            finder,
            req: _,
            state,
            cursor: _,
            at: _,
            advances: _,
            is_shown: _,
            ended: _,
            sets,
        } = self;
        drop((finder, state, sets));
    }
}

impl<'c> SpanFinder<'c> {
    ghost use Rattle.sre_request.specs.Requests.{code_of};
    ghost use Rattle.sre_request.specs.Requests.{asked_of};
    ghost use Rattle.sre_finder.specs.SpanIters.{request_of, shown_of, has_ended, last_asked, encoding_of};

    /// Starts an iteration over the spans of the matches in the request's range. The state is unchanged until the first
    /// item.
    pub fn walk<'a, S: Haystack, A: Allocator + Copy>(
        self,
        req: Request<'a, S>,
        state: State<A>,
    ) -> SpanIter<'c, 'a, S, A>
        requires { self.code ≡ code_of req }
        ensures req { request_of result ≡ req.entry }
        ensures state { shown_of result ≡ state }
        ensures open { has_ended result ≡ false }
        ensures last { last_asked result ≡ asked_of req.entry }
        ensures encoding { encoding_of result ≡ self.entry.encoding }
    {
        let mut finder = self;
        finder.begin_walk();
        let cursor = req.string().create_cursor(req.start());
        let advances = req.must_advance();
        let sets = FirstSets::new(&state);
        SpanIter {
            finder,
            req,
            state,
            cursor,
            at: cursor,
            advances,
            is_shown: false,
            ended: false,
            sets,
        }
    }
}

impl<'c, 'a, S: StrDrive, A: Allocator + Copy> SpanIter<'c, 'a, S, A> {
    ghost use Rattle.sre_finder.specs.SpanIters.{request_of, shown_of, has_ended, last_asked, encoding_of};

    /// Returns the request of the remaining range. Until the iteration has ended, the remaining items are its matches.
    pub fn req(&self) -> &Request<'a, S>
        ensures { result.now ≡ request_of self.now }
    {
        &self.req
    }

    /// Returns the state. After `show` it shows the last item's match.
    pub fn state(&self) -> &State<A>
        ensures { result.now ≡ shown_of self.now }
    {
        &self.state
    }

    /// Makes the state show the last item's match with its captures. If DFAs found the match, the machine runs from its
    /// start. Returns whether there is such a match: always `true` after an item, and after the end of an iteration
    /// that had one. Before the first item, it searches for the first match instead.
    ///
    /// # Errors
    ///
    /// [`SreError::Memory`] if an allocation failed. Then the state has no captures, and the iteration can go on.
    pub fn show(&mut self) -> Result<bool, SreError>
        ensures answer { (t : Tree) → Whole (words_of (code_of (request_of self.old))) t
            → IfOk result (λ b. answer_of b (shown_of self.new) ≡ found (last_asked self.old) t) }
        ensures cursor { IfOk result (λ b. b ≡ true → let end = (shown_of self.new).cursor in
            stands_in (request_of self.old) end end.position) }
        ensures no { IfOk result (λ b. b ≡ false → (shown_of self.new).marks ≡ no_marks) }
        ensures err { OnErr result ((shown_of self.new).marks ≡ no_marks) }
        ensures refused { OnErr result (Refused A) }
        ensures req { request_of self.new ≡ request_of self.old }
        ensures last { last_asked self.new ≡ last_asked self.old }
        ensures ended { has_ended self.new ≡ has_ended self.old }
        ensures encoding { encoding_of self.new ≡ encoding_of self.old }
    {
        if self.is_shown {
            return Ok(true);
        }
        self.finder.note_shown();
        self.sets.note_step(&self.req);
        show_at(
            &self.req,
            &mut self.state,
            self.at,
            self.advances,
            &self.sets,
        )
    }

    /// Drops the iteration and returns the finder, for use with another text.
    pub fn into_finder(self) -> SpanFinder<'c>
        ensures code { result.code ≡ code_of (request_of self.entry) }
        ensures encoding { result.encoding ≡ encoding_of self.entry }
    {
        let SpanIter {
            finder,
            req: _,
            state,
            cursor: _,
            at: _,
            advances: _,
            is_shown: _,
            ended: _,
            sets,
        } = self;
        drop((state, sets));
        finder
    }
}

// Whether an empty match is excluded at `start`: only at the range's start `from`, if the request must advance.
#[inline(always)]
pub(crate) fn bars(must_advance: bool, start: usize, from: usize) -> bool
    ensures { result ≡ (must_advance && nat_eq start from) }
{
    must_advance && start == from
}

impl<'c, 'a, S: Haystack, A: Allocator + Copy> SpanIter<'c, 'a, S, A> {
    ghost use Rattle.sre_finder.specs.SpanIters.{NextSpan, most_spans};

    // Returns the span of the next match.
    fn next_span(&mut self) -> Option<Result<Span, SreError>>
        ensures gives { NextSpan self.old result self.new }
        ensures falls { IfSome result (λ _. most_spans self.new < most_spans self.old) }
    {
        if self.ended {
            return None;
        }
        let from = self.req.start();
        let must_advance = self.req.must_advance();
        match self.finder.step(
            &mut self.req,
            &mut self.state,
            &mut self.cursor,
            &mut self.sets,
        ) {
            Ok(Some(step)) => {
                self.at = step.start;
                self.is_shown = step.is_shown;
                let start = step.start.position();
                self.advances = bars(must_advance, start, from);
                let end = self.req.start();
                Some(Ok(Span { start, end }))
            }
            Ok(None) => {
                (self.is_shown, self.ended) = (false, true);
                None
            }
            Err(error) => {
                (self.is_shown, self.ended) = (false, true);
                Some(Err(error))
            }
        }
    }
}

impl<'c, 'a, S: Haystack, A: Allocator + Copy> Iterator for SpanIter<'c, 'a, S, A> {
    ghost use Rattle.std.specs.Iterator.{at_most};
    ghost use Rattle.sre_finder.specs.SpanIters.{NextSpan, most_spans};

    type Item = Result<Span, SreError>;

    ghost next_gives = { NextSpan };

    ghost remaining = { λ it. at_most (most_spans it) };

    fn next(&mut self) -> Option<Result<Span, SreError>> {
        self.next_span()
    }
}
