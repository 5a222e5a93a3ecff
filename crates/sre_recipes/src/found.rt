//! An iterator over the texts of all matches, with a prefilter.

ghost use Rattle.std.specs.Prelude.{◌≡◌, ◌<◌, false, IfSome};
ghost use Rattle.sre_recipes.specs.Terms.{start_of, code_of, stands_in, has_ended, most_spans};
ghost use Rattle.sre_finder.specs.SpanIters.{request_of};

use crate::span::{Span, span_behind};
use crate::texts::Text;
use sre_engine::{Request, SreError, State, StrDrive, StringCursor};
use sre_finder::{Haystack, SpanFinder, SpanIter};
use std::alloc::Allocator;

/// Iterator over the texts of a range's matches, in the order of `find_all`. If the finder's DFAs return spans, the
/// machine is not run. If they return candidate starts only, the machine is run from those starts alone.
///
/// An item is an error only if an allocation failed. It ends the iteration.
pub struct FoundTexts<'c, 'a, S: StrDrive, A: Allocator + Copy> {
    walk: SpanIter<'c, 'a, S, A>,
    // the start of the next request
    cursor: StringCursor,
    ghost here: { ∥ (stands_in (request_of walk) cursor (start_of (request_of walk))) ∥₁ },
}

// Custom `Drop`, so that callers contain one call instead of the drop of each field.
impl<'c, 'a, S: StrDrive, A: Allocator + Copy> Drop for FoundTexts<'c, 'a, S, A> {
    fn drop(self) {
        let FoundTexts { walk, cursor: _ } = self;
        drop(walk);
    }
}

impl<'c, 'a, S: Text + Haystack, A: Allocator + Copy> FoundTexts<'c, 'a, S, A> {
    ghost use Rattle.sre_recipes.specs.FoundTexts.{walk_of, NextText};

    /// Starts an iteration over the texts of the matches in the request's range. The state is used for the steps for
    /// which the DFAs return no span.
    ///
    /// ```
    /// // Bytecode of `a`.
    /// let code = Code::check(alloc, &[16, 97, 1], &uni)?;
    /// let finder = SpanFinder::new(alloc, code, Encoding::Utf8);
    /// let mut texts = FoundTexts::new(finder, Request::whole("éab", code), State::new(alloc));
    /// assert!(matches!(texts.next(), Some(Ok("a"))) && texts.next().is_none());
    /// ```
    pub fn new(
        finder: SpanFinder<'c>,
        req: Request<'a, S>,
        state: State<A>,
    ) -> FoundTexts<'c, 'a, S, A>
        requires { finder.code ≡ code_of req }
        ensures req { request_of (walk_of result) ≡ req.entry }
        ensures open { has_ended (walk_of result) ≡ false }
    {
        let cursor = req.string().create_cursor(req.start());
        FoundTexts {
            walk: finder.walk(req, state),
            cursor,
        }
    }

    // Returns the text of the next match.
    fn next_text(&mut self) -> Option<Result<S, SreError>>
        ensures gives { NextText self.old result self.new }
        ensures falls { IfSome result (λ _. most_spans (walk_of self.new) < most_spans (walk_of self.old)) }
    {
        match self.walk.next() {
            None => None,
            Some(Err(error)) => Some(Err(error)),
            Some(Ok(span)) => {
                let text = self.walk.req().string();
                let Span { start, end } = span_behind(text, &self.cursor, span.start, span.end);
                self.cursor = end;
                Some(Ok(text.between(&start, &end)))
            }
        }
    }
}

impl<'c, 'a, S: StrDrive, A: Allocator + Copy> FoundTexts<'c, 'a, S, A> {
    ghost use Rattle.sre_recipes.specs.FoundTexts.{walk_of};

    /// Returns the request of the remaining range. Until the iteration has ended, the remaining items are the texts of
    /// its matches.
    pub fn req(&self) -> &Request<'a, S>
        ensures { result.now ≡ request_of (walk_of self.now) }
    {
        self.walk.req()
    }

    /// Drops the iteration and returns the finder, for use with another text.
    pub fn into_finder(self) -> SpanFinder<'c>
        ensures { result.code ≡ code_of (request_of (walk_of self.entry)) }
    {
        let FoundTexts { walk, cursor: _ } = self;
        walk.into_finder()
    }
}

impl<'c, 'a, S: Text + Haystack, A: Allocator + Copy> Iterator for FoundTexts<'c, 'a, S, A> {
    ghost use Rattle.std.specs.Iterator.{at_most};
    ghost use Rattle.sre_recipes.specs.Terms.{most_spans};
    ghost use Rattle.sre_recipes.specs.FoundTexts.{walk_of, NextText};

    type Item = Result<S, SreError>;

    ghost next_gives = { NextText };

    ghost remaining = { λ it. at_most (most_spans (walk_of it)) };

    fn next(&mut self) -> Option<Result<S, SreError>> {
        self.next_text()
    }
}
