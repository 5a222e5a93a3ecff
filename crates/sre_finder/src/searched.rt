//! The search by a finder of spans, and the run of the machine that shows a span's match.

ghost use Rattle.std.specs.Prelude.{◌≡◌, ◌≤◌, true, false, IfOk, IfSome, OnErr, None};
ghost use Rattle.sre_finder.specs.Terms.{Refused, Tree, Whole, no_marks, found, items_of, words_of, uni_of, SetsOf};
ghost use Rattle.sre_finder.specs.Terms.{string_of, start_of, end_of, code_of, asked_of, stands_in, answer_of};
ghost use Rattle.sre_finder.specs.Terms.{Answered, AnsweredWithin};
ghost use Rattle.sre_engine.specs.Counts.{KeepsToSteps, runs_of};
ghost use Rattle.sre_finder.specs.Finders.{EndStands};
ghost use Rattle.sre_finder.specs.Kepts.{Suits};
ghost use Rattle.sre_finder.specs.Spans.{StepsFrom, ShowsStep, FindsNone};

use crate::haystack::Haystack;
use crate::kept::Kept;
use crate::span_finder::SpanFinder;
use crate::span_iter::bars;
use sre_chars::string::{StrDrive, StringCursor};
use sre_engine::engine::{FirstSets, Nobody, SreError, Starts, State, step_admitted};
use sre_request::Request;
use std::alloc::{Allocator, Global};

// Makes the state show the first match of a request that starts at a cursor, by the machine.
pub(crate) fn show_at<S: StrDrive, A: Allocator + Copy>(
    req: &Request<'_, S>,
    state: &mut State<A>,
    at: StringCursor,
    must_advance: bool,
    sets: &FirstSets<A>,
) -> Result<bool, SreError>
    requires stands { stands_in req.now at at.position }
    requires inside { at.position ≤ end_of req.now }
    requires sets { SetsOf (items_of (code_of req.now)) sets.now }
    ensures answer { (t : Tree) → Whole (words_of (code_of req.now)) t → IfOk result (λ b.
        answer_of b state.new
        ≡ found (record (asked_of req.now) { start = at.position; must_advance = must_advance }) t) }
    ensures cursor { IfOk result (λ b. b ≡ true → stands_in req.now state.new.cursor state.new.cursor.position) }
    ensures no { IfOk result (λ b. b ≡ false → state.new.marks ≡ no_marks) }
    ensures err { OnErr result (state.new.marks ≡ no_marks) }
    ensures refused { OnErr result (Refused A) }
{
    let Ok(mut req) = req.clone() else {
        unreachable!(); // it does not allocate
    };
    req.set_must_advance(must_advance);
    req.set_start(at.position());
    let mut cursor = at;
    let shown = step_admitted(&mut req, state, &mut cursor, &mut Nobody, sets)?;
    Ok(shown)
}

impl<'c> SpanFinder<'c> {
    /// Searches the range, and returns whether there is a match, which the state then shows. If DFAs find its span, the
    /// machine runs from its start alone. Without a match the state has no captures. What it counts is unspecified.
    ///
    /// # Errors
    ///
    /// [`SreError::Memory`] if an allocation failed.
    pub fn search<S: Haystack, A: Allocator + Copy>(
        &mut self,
        req: Request<'_, S>,
        state: &mut State<A>,
    ) -> Result<bool, SreError>
        requires { self.old.code ≡ code_of req }
        ensures answer { (t : Tree) → Whole (words_of (code_of req.entry)) t
            → IfOk result (λ b. answer_of b state.new ≡ found (asked_of req.entry) t) }
        ensures cursor { IfOk result
            (λ b. b ≡ true → stands_in req.entry state.new.cursor state.new.cursor.position) }
        ensures no { IfOk result (λ b. b ≡ false → state.new.marks ≡ no_marks) }
        ensures err { OnErr result (state.new.marks ≡ no_marks) }
        ensures refused { OnErr result (Refused A) }
        ensures code { self.new.code ≡ self.old.code }
        ensures encoding { self.new.encoding ≡ self.old.encoding }
    {
        if self.spans.debt.is_due() {
            return self.search_by_machine(req, state);
        }
        self.reset();
        let mut req = req;
        let mut cursor = req.string().create_cursor(req.start());
        let mut sets = FirstSets::new(state);
        match self.next_match(&mut req, state, &mut cursor, &mut sets, true) {
            Ok(Some(_)) => Ok(true),
            Ok(None) => {
                state.reset(&req, 0); // captures of an earlier search
                Ok(false)
            }
            Err(error) => {
                state.reset(&req, 0);
                Err(error)
            }
        }
    }

    /// One step of an iteration: the next match, from a cursor at the start of the range. Returns a cursor at its
    /// start, or `None` if there is none. If `shows`, the state then shows the match with its captures.
    ///
    /// After a match, the request and the cursor are at its end, and the request must advance exactly if the match was
    /// empty. Without a match the request is unchanged, and what the state shows is unspecified. `begin_walk` comes
    /// before the first step in a text.
    ///
    /// # Errors
    ///
    /// [`SreError::Memory`] if an allocation failed, maybe after the match was found. Where the request then starts is
    /// unspecified.
    #[inline(always)]
    pub fn next_match<S: Haystack, A: Allocator + Copy>(
        &mut self,
        req: &mut Request<'_, S>,
        state: &mut State<A>,
        cursor: &mut StringCursor,
        sets: &mut FirstSets<A>,
        shows: bool,
    ) -> Result<Option<StringCursor>, SreError>
        requires own { self.old.code ≡ code_of req.old }
        requires sets { SetsOf (items_of (code_of req.old)) sets.old }
        requires known { EndStands (S.stands (string_of req.old)) self.old.end }
        requires stands { stands_in req.old cursor.old (start_of req.old) }
        ensures own { self.new.code ≡ code_of req.new }
        ensures code { self.new.code ≡ self.old.code }
        ensures encoding { self.new.encoding ≡ self.old.encoding }
        ensures sets { SetsOf (items_of (code_of req.new)) sets.new }
        ensures known { EndStands (S.stands (string_of req.new)) self.new.end }
        ensures some { IfOk result (λ o. IfSome o (λ start. StepsFrom req.old start req.new)) }
        ensures shows { shows ≡ true → IfOk result (λ o. IfSome o (λ start. ShowsStep req.old state.new req.new)) }
        ensures none { IfOk result (λ o. o ≡ None → (req.new ≡ req.old) × FindsNone req.old) }
        ensures here { stands_in req.new cursor.new (start_of req.new) }
        ensures refused { OnErr result (Refused A) }
    {
        let (from, must_advance) = (req.start(), req.must_advance());
        let Some(step) = self.step(req, state, cursor, sets)? else {
            return Ok(None);
        };
        if step.is_shown || !shows {
            return Ok(Some(step.start));
        }
        self.note_shown();
        sets.note_step(req);
        let advances = bars(must_advance, step.start.position(), from);
        let _shown = show_at(req, state, step.start, advances, sets)?;
        Ok(Some(step.start))
    }

    // `search` by the machine, with the prefilter.
    fn search_by_machine<S: Haystack, A: Allocator + Copy>(
        &mut self,
        req: Request<'_, S>,
        state: &mut State<A>,
    ) -> Result<bool, SreError>
        requires { self.old.code ≡ code_of req }
        ensures answers { Answered req.entry result state.new }
        ensures refused { OnErr result (Refused A) }
        ensures code { self.new.code ≡ self.old.code }
        ensures encoding { self.new.encoding ≡ self.old.encoding }
    {
        let (start, end) = (req.start(), req.end());
        self.starts.reset();
        let found = state.search_by(req, &mut self.starts);
        let reached = match found {
            Ok(true) => state.cursor().position(),
            _ => end,
        };
        self.spans
            .debt
            .pay(state.started(), reached.saturating_sub(start));
        found
    }

    /// Searches the range within a budget of steps, as `State::search_within` does. The prefilter excludes starts.
    ///
    /// # Errors
    ///
    /// Those of [`Finder::search_within`](crate::Finder::search_within).
    pub fn search_within<S: Haystack, A: Allocator + Copy>(
        &mut self,
        req: Request<'_, S>,
        state: &mut State<A>,
        steps: &mut u64,
    ) -> Result<Option<bool>, SreError>
        requires { self.old.code ≡ code_of req }
        ensures answers { AnsweredWithin req.entry result state.new }
        ensures steps { KeepsToSteps A (asked_of req.entry) (code_of req.entry) result (runs_of state.new) steps.old
            steps.new }
        ensures refused { OnErr result (Refused A) }
        ensures code { self.new.code ≡ self.old.code }
        ensures encoding { self.new.encoding ≡ self.old.encoding }
    {
        self.starts.reset();
        state.search_within_by(req, steps, &mut self.starts)
    }
}

impl Kept {
    /// Searches the range, and returns whether there is a match, which the state then shows. It skips starts that the
    /// prefilter excludes. The machine alone searches a short range as long as it is probably faster. Without a match
    /// the state has no captures. What it counts is unspecified.
    ///
    /// # Errors
    ///
    /// [`SreError::Memory`] if an allocation failed.
    pub fn search<S: Haystack, A: Allocator + Copy>(
        &mut self,
        alloc: Global,
        req: Request<'_, S>,
        state: &mut State<A>,
    ) -> Result<bool, SreError>
        requires { Suits (words_of (code_of req)) (uni_of (code_of req)) self.old }
        ensures answer { (t : Tree) → Whole (words_of (code_of req.entry)) t
            → IfOk result (λ b. answer_of b state.new ≡ found (asked_of req.entry) t) }
        ensures cursor { IfOk result
            (λ b. b ≡ true → stands_in req.entry state.new.cursor state.new.cursor.position) }
        ensures no { IfOk result (λ b. b ≡ false → state.new.marks ≡ no_marks) }
        ensures err { OnErr result (state.new.marks ≡ no_marks) }
        ensures refused { OnErr result (Refused A) }
        ensures suits { Suits (words_of (code_of req.entry)) (uni_of (code_of req.entry)) self.new }
    {
        let (start, end) = (req.start(), req.end());
        let characters = end.saturating_sub(start);
        if self.is_alone(&req) {
            let found = state.search_by(req, &mut Nobody);
            self.note_alone(state.started(), characters);
            return found;
        }
        self.begin(alloc, req.string().encoding(end));
        let found = state.search_by(req, self);
        let reached = match found {
            Ok(true) => state.cursor().position(),
            _ => end,
        };
        self.spans
            .note_search(state.started(), reached.saturating_sub(start));
        found
    }

    /// Searches the range within a budget of steps, as `State::search_within` does. It skips starts that the prefilter
    /// excludes, and `steps` then holds the steps that are left. The prefilter charges none.
    ///
    /// # Errors
    ///
    /// [`SreError::Memory`] if an allocation failed. Never if a confirmed prefix is the whole code.
    pub fn search_within<S: Haystack, A: Allocator + Copy>(
        &mut self,
        alloc: Global,
        req: Request<'_, S>,
        state: &mut State<A>,
        steps: &mut u64,
    ) -> Result<Option<bool>, SreError>
        requires { Suits (words_of (code_of req)) (uni_of (code_of req)) self.old }
        ensures answers { AnsweredWithin req.entry result state.new }
        ensures steps { KeepsToSteps A (asked_of req.entry) (code_of req.entry) result (runs_of state.new) steps.old
            steps.new }
        ensures refused { OnErr result (Refused A) }
        ensures suits { Suits (words_of (code_of req.entry)) (uni_of (code_of req.entry)) self.new }
    {
        self.begin(alloc, req.string().encoding(req.end()));
        state.search_within_by(req, steps, self)
    }
}

/// What is kept excludes starts by its prefilter.
impl<S: Haystack> Starts<S> for Kept {
    ghost suits = { λ kept string code. Suits (words_of code) (uni_of code) kept
        × EndStands (S.stands string) kept.starts.end };

    #[inline(always)]
    fn beyond(&mut self, req: &Request<'_, S>, from: StringCursor) -> Option<StringCursor> {
        self.starts.beyond(req, from)
    }

    #[inline(always)]
    fn tells(&self) -> bool {
        Starts::<S>::tells(&self.starts)
    }

    #[inline(always)]
    fn note_failed(&mut self) {
        self.starts.fail();
    }
}

/// Its prefilter excludes starts, before and after its DFAs find spans.
impl<'c, S: Haystack> Starts<S> for SpanFinder<'c> {
    ghost suits = { λ f string code. (f.code ≡ code) × EndStands (S.stands string) f.end };

    #[inline(always)]
    fn beyond(&mut self, req: &Request<'_, S>, from: StringCursor) -> Option<StringCursor> {
        self.starts.beyond(req, from)
    }

    #[inline(always)]
    fn tells(&self) -> bool {
        Starts::<S>::tells(&self.starts)
    }

    #[inline(always)]
    fn note_failed(&mut self) {
        self.starts.fail();
    }
}
