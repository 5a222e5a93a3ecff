//! [`SearchIter`]: the iteration over all matches.

ghost use Rattle.std.specs.Prelude.{◌≡◌, ◌<◌, true, false, IfSome, IfOk, None, Some};
ghost use Rattle.sre_engine.specs.Terms.{no_marks, items_of, string_of, start_of, code_of, asked_of, stands_in};
ghost use Rattle.sre_engine.specs.FirstSets.{SetsOf};
ghost use Rattle.sre_engine.specs.OneSetsOf.{one_sets_of};

use crate::engine::first_sets::FirstSets;
use crate::engine::state::{SreError, State};
use crate::engine::told::{Nobody, Starts};
use crate::engine::walk::{step_admitted, step_limited};
use sre_chars::string::{StrDrive, StringCursor};
use sre_request::Request;
use std::alloc::{Allocator, Global};

/// The iteration over the matches in a range, each searched from the end of the one before.
///
/// An item `Ok(())` is a match, which `state` shows. `req` then starts at its end, and must advance exactly if the
/// match was empty, so no empty match comes twice. The iteration ends with `None`, which `next_within` returns as
/// `Some(false)`, or with an error if an allocation failed. From then on there are no items and no captures, and `req`
/// is unchanged. A range of n characters has at most 2n + 1 matches. No call counts characters from the start of the
/// text.
///
/// If the code has a branch of three or more alternatives, the iteration computes a FIRST set for each address: after
/// eight steps if 256 characters of the range are left, and else after 64. The list comes from the state's allocator.
/// It takes up to 64 bytes a code word, since it grows by doubling, and up to 48 more while it is computed. A code of
/// more than 4,096 words gets no list. If its allocation fails, the iteration continues without it. After eight steps
/// it has read what must come first in each match, so later steps may run the machine at fewer starts.
///
/// ```
/// // The bytecode of `a`.
/// let code = Code::check(alloc, &[16, 97, 1], &uni)?;
/// let mut walk = SearchIter::new(Request::whole("aba", code), State::new(alloc));
/// let mut starts = 0;
/// 'walk: while let Some(item) = walk.next() {
///     item?;
///     starts += walk.state().start();
/// }
/// assert!(starts == 0 + 2);
/// ```
pub struct SearchIter<'a, S: StrDrive, A: Allocator + Copy = Global> {
    req: Request<'a, S>,
    state: State<A>,
    cursor: StringCursor,
    ended: bool,
    sets: FirstSets<A>,
    ghost here: { ∥ (stands_in req cursor (start_of req)) ∥₁ },
    ghost over: { ended ≡ true → state.marks ≡ no_marks },
    ghost first_sets: { SetsOf (items_of (code_of req)) sets } by { one_sets_of },
}

// Custom, as that of `State`.
impl<'a, S: StrDrive, A: Allocator + Copy> Drop for SearchIter<'a, S, A> {
    fn drop(self) {
        let SearchIter {
            req: _,
            state,
            cursor: _,
            ended: _,
            sets,
        } = self;
        drop((state, sets));
    }
}

impl<'a, S: StrDrive, A: Allocator + Copy> SearchIter<'a, S, A> {
    ghost use Rattle.sre_engine.specs.Iterators.{request_of, shown_of, has_ended, most_items, NextGives, NextWithin};
    ghost use Rattle.sre_engine.specs.Counts.{KeepsToSteps, runs_of};
    ghost use Rattle.sre_growth.specs.Refusal.{Refused};

    /// An iteration over the request's range. Until the first item, the state shows what it showed before.
    pub fn new(req: Request<'a, S>, state: State<A>) -> SearchIter<'a, S, A>
        ensures req { request_of result ≡ req.entry }
        ensures state { shown_of result ≡ state }
        ensures open { has_ended result ≡ false }
    {
        let sets = FirstSets::new(&state);
        let cursor = req.string().create_cursor(req.start());
        SearchIter {
            req,
            state,
            cursor,
            ended: false,
            sets,
        }
    }

    /// The request for the next item: the remaining matches are those of its iteration. After the end there are none.
    pub fn req(&self) -> &Request<'a, S>
        ensures { result.now ≡ request_of self.now }
    {
        &self.req
    }

    /// Whether there is a next match, as `next` finds it, within a budget of steps. Returns `None` if the step limit is
    /// exceeded. `State::match_within` defines a step, and says which budgets suffice for one match.
    ///
    /// `steps` then holds the steps that are left, so one budget can bound a whole iteration. After `None` there are no
    /// captures, and the iterator is as before the call. `next`, or this call with more steps, searches the match anew.
    ///
    /// # Errors
    ///
    /// [`SreError::Memory`] if an allocation fails; the iteration has then ended.
    pub fn next_within(&mut self, steps: &mut u64) -> Result<Option<bool>, SreError>
        ensures gives { NextWithin self.old result self.new }
        ensures steps { KeepsToSteps A (asked_of (request_of self.old)) (code_of (request_of self.old)) result
            (runs_of (shown_of self.new)) steps.old steps.new }
        ensures falls { IfOk result (λ found. found ≡ Some true → most_items self.new < most_items self.old) }
    {
        self.next_within_by(steps, &mut Nobody)
    }

    /// Whether there is a next match, within a budget of steps, as `next_within` finds it. The search skips the starts
    /// that the prefilter excludes.
    ///
    /// # Errors
    ///
    /// [`SreError::Memory`] if an allocation fails; the iteration has then ended.
    pub fn next_within_by<F: Starts<S>>(
        &mut self,
        steps: &mut u64,
        starts: &mut F,
    ) -> Result<Option<bool>, SreError>
        requires suits { F.suits starts.old (string_of (request_of self.old)) (code_of (request_of self.old)) }
        ensures suits { F.suits starts.new (string_of (request_of self.new)) (code_of (request_of self.new)) }
        ensures gives { NextWithin self.old result self.new }
        ensures steps { KeepsToSteps A (asked_of (request_of self.old)) (code_of (request_of self.old)) result
            (runs_of (shown_of self.new)) steps.old steps.new }
        ensures falls { IfOk result (λ found. found ≡ Some true → most_items self.new < most_items self.old) }
    {
        if self.ended {
            return Ok(Some(false));
        }
        self.sets.note_step(&self.req);
        let (req, state, cursor) = (&mut self.req, &mut self.state, &mut self.cursor);
        match step_limited(req, state, cursor, steps, starts, &self.sets) {
            Ok(Some(true)) => Ok(Some(true)),
            Ok(Some(false)) => {
                self.ended = true;
                Ok(Some(false))
            }
            Ok(None) => Ok(None),
            Err(error) => {
                self.ended = true;
                Err(error)
            }
        }
    }

    /// The next item, as `next` returns it. The search skips the starts that the prefilter excludes.
    pub fn next_by<F: Starts<S>>(&mut self, starts: &mut F) -> Option<Result<(), SreError>>
        requires suits { F.suits starts.old (string_of (request_of self.old)) (code_of (request_of self.old)) }
        ensures suits { F.suits starts.new (string_of (request_of self.new)) (code_of (request_of self.new)) }
        ensures gives { NextGives self.old result self.new }
        ensures falls { IfSome result (λ _. most_items self.new < most_items self.old) }
    {
        if self.ended {
            return None;
        }
        self.sets.note_step(&self.req);
        let (req, state, cursor) = (&mut self.req, &mut self.state, &mut self.cursor);
        match step_admitted(req, state, cursor, starts, &self.sets) {
            Ok(true) => Some(Ok(())),
            Ok(false) => {
                self.ended = true;
                None
            }
            Err(error) => {
                self.ended = true;
                Some(Err(error))
            }
        }
    }

    /// The state, which shows the match of the last item.
    pub fn state(&self) -> &State<A>
        ensures { result.now ≡ shown_of self.now }
    {
        &self.state
    }
}

impl<'a, S: StrDrive, A: Allocator + Copy> Iterator for SearchIter<'a, S, A> {
    ghost use Rattle.std.specs.Iterator.{at_most};
    ghost use Rattle.sre_engine.specs.Iterators.{NextGives, most_items};

    type Item = Result<(), SreError>;

    ghost next_gives = { NextGives };

    ghost remaining = { λ it. at_most (most_items it) };

    fn next(&mut self) -> Option<Result<(), SreError>> {
        self.next_by(&mut Nobody)
    }
}
