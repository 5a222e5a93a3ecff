//! [`State`]: runs a match or a search, and shows the match.

ghost use Rattle.std.specs.Prelude.{◌≡◌, ◌+◌, ◌-◌, ◌*◌, ◌<◌, ◌≤◌, length, IfOk, OnErr, true, false, Some, None, IfSome};
ghost use Rattle.std.specs.Prelude.{◌≢◌};
ghost use Rattle.sre_engine.specs.Terms.{Tree, Whole, no_marks, matched, found, is_anchored, words_of, string_of};
ghost use Rattle.sre_engine.specs.Terms.{start_of, end_of, code_of, asked_of, stands_in, Refused};
ghost use Rattle.sre_engine.specs.Answers.{answer_of, Spans, MayTakeMemory};
ghost use Rattle.sre_engine.specs.Counts.{CountsUpTo, BeginsAgain, KeepsToSteps, runs_of};
ghost use Rattle.sre_engine.specs.Searches.{Answered, CountsAll, has_found, RunsOnceAnchored};
ghost use Rattle.sre_engine.specs.Within.{AnsweredWithin};

use crate::engine::first_sets::FirstSets;
use crate::engine::told::{Nobody, Starts};
use sre_board::Marks;
use sre_chars::string::{StrDrive, StringCursor};
use sre_growth::Refusal;
use sre_machine::allowance::Allowance;
use sre_machine::runner::Runner;
use sre_machine::turns::{Begun, Halt};
use sre_request::Request;
use std::alloc::{AllocError, AllocFailed, Allocator, Global};
use std::marker::Model;
use thiserror::Error;

mod search;

/// Why a call failed.
#[derive(Clone, Copy, PartialEq, Eq, Debug, Error)]
pub enum SreError {
    /// An allocation for the search failed.
    #[error("out of memory")]
    Memory,
}

impl SreError {
    /// The number of this error, 1.
    pub fn number(&self) -> u32
        ensures { result ≡ 1 }
    {
        1
    }
}

impl<A: Allocator> From<Refusal<A>> for SreError {
    fn from(_refusal: Refusal<A>) -> SreError {
        SreError::Memory
    }
}

// For callers that grow lists of their own. The contracts of the calls here say that an allocation of the call failed,
// which these conversions cannot state.
impl From<AllocError> for SreError {
    fn from(_refused: AllocError) -> SreError {
        SreError::Memory
    }
}

impl<T: Drop> From<AllocFailed<T>> for SreError {
    fn from(_refused: AllocFailed<T>) -> SreError {
        SreError::Memory
    }
}

/// Captures, start and end of a match, the counts of a search, and the memory in which it runs.
///
/// A state serves any number of searches, over texts of any type. It reuses its memory from one to the next.
pub struct State<A: Allocator + Copy = Global> {
    runner: Runner<A>,
    start: usize,
    cursor: StringCursor,
    compared: u64,
}

// Custom, so that each drop of a state is one call. A derived `Drop` is expanded at each drop, field by field.
impl<A: Allocator + Copy> Drop for State<A> {
    fn drop(self) {
        let State {
            runner,
            start: _,
            cursor: _,
            compared: _,
        } = self;
        drop(runner);
    }
}

impl<A: Allocator + Copy> Model for State<A> {
    ghost use Rattle.std.specs.Prelude.{◌≡◌, false};
    ghost use Rattle.sre_engine.specs.Answers.{Shown};

    ghost Value = { Shown };

    ghost view = { λ s. record {
      marks = s.runner.board.marks;
      start = s.start;
      cursor = s.cursor;
      compared = s.compared;
      started = s.runner.started;
      restarted = s.runner.restarted;
    } };
}

impl<A: Allocator + Copy> State<A> {
    /// A state without captures: start 0, the default cursor, all counts 0. It allocates nothing.
    pub fn new(alloc: A) -> State<A>
        ensures { result ≡ record {
          marks = no_marks;
          start = 0;
          cursor = record { position = 0; offset = 0 };
          compared = 0;
          started = 0;
          restarted = 0;
        } }
    {
        State {
            runner: Runner::new(alloc),
            start: 0,
            cursor: StringCursor::default(),
            compared: 0,
        }
    }

    /// The captures of the match. There are none if the last search found no match, exceeded its step limit or failed.
    pub fn marks(&self) -> &Marks<A>
        ensures { result.now ≡ self.now.marks }
    {
        self.runner.marks()
    }

    /// The position at which the match starts, in characters. Unspecified if the last search found none.
    pub fn start(&self) -> usize
        ensures { result ≡ self.now.start }
    {
        self.start // of the match
    }

    /// The cursor at the end of the match. Unspecified if the last search found none.
    pub fn cursor(&self) -> StringCursor
        ensures { result ≡ self.now.cursor }
    {
        self.cursor
    }

    /// How many times the last search compared a character with a word of a confirmed prefix, even if it exceeded its
    /// step limit. Only a search counts. `all_matches` adds up the counts of its searches.
    pub fn compared(&self) -> u64
        ensures { result ≡ self.now.compared }
    {
        self.compared
    }

    /// At how many starts the last search began a run of the machine, even if it exceeded its step limit. Only a search
    /// counts. `all_matches` adds up the counts of its searches, of which two may begin a run at the same start.
    pub fn started(&self) -> u64
        ensures { result ≡ self.now.started }
    {
        self.runner.begun().started
    }

    /// How many of these runs restarted when memoization began. Only a search with a step limit restarts a run. The sum
    /// of `started` and this is the number of all runs of the last search.
    pub fn restarted(&self) -> u64
        ensures { result ≡ self.now.restarted }
    {
        self.runner.begun().restarted
    }

    /// Drops the captures and sets start and cursor to a position of the request's text, in characters.
    pub fn reset<S: StrDrive>(&mut self, req: &Request<'_, S>, start: usize)
        requires { start ≤ length (S.text (string_of req.now)) }
        ensures marks { self.new.marks ≡ no_marks }
        ensures start { self.new.start ≡ start }
        ensures cursor { S.stands (string_of req.now) self.new.cursor start }
        ensures compared { self.new.compared ≡ self.old.compared }
        ensures started { self.new.started ≡ self.old.started }
        ensures restarted { self.new.restarted ≡ self.old.restarted }
    {
        self.runner.clear();
        (self.start, self.cursor) = (start, req.string().create_cursor(start));
    }

    /// Drops the captures, and all memory if there is much of it, so that a state can be kept for the next text. Start,
    /// cursor and counts are unspecified then.
    ///
    /// ```
    /// // The bytecode of `(a)b`.
    /// let code = Code::check(alloc, &[17, 0, 16, 97, 17, 1, 16, 98, 1], &uni)?;
    /// assert!(state.pymatch(&Request::whole("ab", code))?);
    /// state.renew();
    /// assert!(state.marks().get(0) == (None, None));
    /// ```
    pub fn renew(&mut self)
        ensures marks { self.new.marks ≡ no_marks }
    {
        self.runner.renew();
    }

    /// Matches at the start of the range, and returns whether there is a match. The state then shows it.
    ///
    /// The match is the first match path, in the order of CPython's `_sre`, that the request's flags accept. It lies
    /// within the range. Requests with equal characters, tables, ranges, flags and trees have equal answers, whatever
    /// their text types.
    ///
    /// After `Ok(false)` or an error there are no captures, and start and cursor are unspecified. The state can be
    /// reused, with a text of any type.
    ///
    /// ```
    /// // The bytecode of `(a)b`.
    /// let code = Code::check(alloc, &[17, 0, 16, 97, 17, 1, 16, 98, 1], &uni)?;
    /// let mut state = State::new(alloc);
    /// assert!(state.pymatch(&Request::whole("abc", code))?);
    /// assert!(state.start() == 0 && state.cursor().position() == 2);
    /// assert!(state.marks().get(0) == (Some(0), Some(1)));
    /// assert!(!state.pymatch(&Request::whole("cab", code))?);
    /// ```
    ///
    /// # Errors
    ///
    /// [`SreError::Memory`] if an allocation fails.
    pub fn pymatch<S: StrDrive>(&mut self, req: &Request<'_, S>) -> Result<bool, SreError>
        ensures answer { (t : Tree) → Whole (words_of (code_of req.now)) t
            → IfOk result (λ b. answer_of b self.new ≡ matched (asked_of req.now) t) }
        ensures cursor { IfOk result (λ b. b ≡ true → stands_in req.now self.new.cursor self.new.cursor.position) }
        ensures span { IfOk result (λ b. b ≡ true → Spans (start_of req.now) (end_of req.now) self.new) }
        ensures no { IfOk result (λ b. b ≡ false → self.new.marks ≡ no_marks) }
        ensures err { OnErr result (self.new.marks ≡ no_marks) }
        ensures refused { OnErr result (Refused A) }
        ensures compared { self.new.compared ≡ self.old.compared }
        ensures started { self.new.started ≡ self.old.started }
        ensures restarted { self.new.restarted ≡ self.old.restarted }
    {
        let start = req.string().create_cursor(req.start());
        match self.match_from(req, start, &mut Allowance::Unlimited) {
            Ok(found) => Ok(found),
            Err(Halt::Refused(refusal)) => Err(SreError::from(refusal)),
            Err(Halt::UsedUp) => unreachable!(),
        }
    }

    /// Matches at the start of the range as `pymatch` does, within a budget of steps. Returns `None`, without captures,
    /// if the step limit is exceeded.
    ///
    /// `steps` then holds the steps that are left. A step is one instruction, or one return to a saved choice. If it
    /// scans 64 characters or more, it costs one step more for each 8 of them. That concerns single-character repeats,
    /// back-references, lookbehinds and the scan for what a long repeat needs next. The time of a step grows with the
    /// code. Once a search, the memo also makes passes over the bytecode, and it allocates rows of bits for the whole
    /// range.
    ///
    /// If the code meets the conditions of a step bound (`IsRemembered`), the call takes at most `step_bound` steps,
    /// whatever the budget and the answer are, unless an allocation fails. So a budget above it is exceeded only if an
    /// allocation fails. `Code::step_bound` computes such a budget.
    ///
    /// ```
    /// // The bytecode of `a`.
    /// let code = Code::check(alloc, &[16, 97, 1], &uni)?;
    /// let mut steps = 1000;
    /// assert!(state.match_within(&Request::whole("ab", code), &mut steps)? == Some(true));
    /// assert!(state.match_within(&Request::whole("ab", code), &mut 0)?.is_none());
    /// ```
    ///
    /// # Errors
    ///
    /// [`SreError::Memory`] if an allocation fails.
    pub fn match_within<S: StrDrive>(
        &mut self,
        req: &Request<'_, S>,
        steps: &mut u64,
    ) -> Result<Option<bool>, SreError>
        ensures answer { (t : Tree) → Whole (words_of (code_of req.now)) t → IfOk result
            (λ told. IfSome told (λ b. answer_of b self.new ≡ matched (asked_of req.now) t)) }
        ensures cursor { IfOk result
            (λ told. told ≡ Some true → stands_in req.now self.new.cursor self.new.cursor.position) }
        ensures span { IfOk result (λ told. told ≡ Some true → Spans (start_of req.now) (end_of req.now) self.new) }
        ensures no { IfOk result (λ told. told ≢ Some true → self.new.marks ≡ no_marks) }
        ensures steps { KeepsToSteps A (asked_of req.now) (code_of req.now) result 2 steps.old steps.new }
        ensures err { OnErr result (self.new.marks ≡ no_marks) }
        ensures refused { OnErr result (Refused A) }
        ensures compared { self.new.compared ≡ self.old.compared }
        ensures started { self.new.started ≡ self.old.started }
        ensures restarted { self.new.restarted ≡ self.old.restarted }
    {
        let start = req.string().create_cursor(req.start());
        let mut allowed = Allowance::Turns(*steps);
        let told = self.match_from(req, start, &mut allowed);
        *steps = allowed.left();
        match told {
            Ok(found) => Ok(Some(found)),
            Err(Halt::Refused(refusal)) => Err(SreError::from(refusal)),
            Err(Halt::UsedUp) => Ok(None),
        }
    }

    /// Searches the range for the least start that has a match, and returns whether there is one. The state then shows
    /// that match, which lies within the range.
    ///
    /// An empty match at the end of the range counts. With `must_advance`, an empty match at the start of the range
    /// does not. Requests with equal characters, tables, ranges, flags and trees have equal answers, whatever their
    /// text types.
    ///
    /// The search skips starts that the code's confirmed hints exclude:
    ///
    /// - a start after which the least width does not fit;
    /// - with a prefix, a start where it does not occur;
    /// - with a first set, a start whose character is not a member.
    ///
    /// It runs the machine at most once at each other start (`started`). It compares each character at most twice on
    /// average with a confirmed prefix (`compared`). If the prefix is the whole code, there is no run and no error.
    ///
    /// After `Ok(false)` or an error there are no captures, and start and cursor are unspecified. The state can be
    /// reused, with a text of any type.
    ///
    /// ```
    /// // The bytecode of `a`.
    /// let code = Code::check(alloc, &[16, 97, 1], &uni)?;
    /// let mut state = State::new(alloc);
    /// assert!(state.search(Request::whole("éa", code))?);
    /// assert!(state.start() == 1); // positions count characters
    /// assert!(state.cursor().position() == 2 && state.cursor().offset() == 3); // offsets count bytes
    /// ```
    ///
    /// # Errors
    ///
    /// [`SreError::Memory`] if an allocation fails.
    pub fn search<S: StrDrive>(&mut self, req: Request<'_, S>) -> Result<bool, SreError>
        ensures answer { (t : Tree) → Whole (words_of (code_of req.entry)) t
            → IfOk result (λ b. answer_of b self.new ≡ found (asked_of req.entry) t) }
        ensures cursor { IfOk result (λ b. b ≡ true → stands_in req.entry self.new.cursor self.new.cursor.position) }
        ensures span { IfOk result
            (λ b. b ≡ true → (start_of req.entry ≤ self.new.start) × Spans self.new.start (end_of req.entry) self.new) }
        ensures no { IfOk result (λ b. b ≡ false → self.new.marks ≡ no_marks) }
        ensures err { OnErr result (self.new.marks ≡ no_marks) }
        ensures refused { OnErr result (Refused A) }
        ensures counts { CountsUpTo (asked_of req.entry) (code_of req.entry) (end_of req.entry + 1) (end_of req.entry)
            self.new }
        ensures up_to_match { IfOk result (λ b. b ≡ true → CountsUpTo (asked_of req.entry) (code_of req.entry)
            (self.new.start + 1) self.new.cursor.position self.new) }
        ensures anchored { (t : Tree) → Whole (words_of (code_of req.entry)) t
            → is_anchored t ≡ true → self.new.started ≤ 1 }
        ensures once { self.new.restarted ≡ 0 }
        ensures literal { OnErr result (MayTakeMemory (code_of req.entry)) }
    {
        self.search_by(req, &mut Nobody)
    }

    /// Searches the range as `search` does, but skips the starts that the prefilter excludes.
    ///
    /// # Errors
    ///
    /// [`SreError::Memory`] if an allocation fails.
    pub fn search_by<S: StrDrive, F: Starts<S>>(
        &mut self,
        req: Request<'_, S>,
        starts: &mut F,
    ) -> Result<bool, SreError>
        requires suits { F.suits starts.old (string_of req) (code_of req) }
        ensures suits { F.suits starts.new (string_of req.entry) (code_of req.entry) }
        ensures answers { Answered req.entry result self.new }
        ensures refused { OnErr result (Refused A) }
        ensures anchored { RunsOnceAnchored req.entry self.new }
        ensures once { self.new.restarted ≡ 0 }
        ensures literal { OnErr result (MayTakeMemory (code_of req.entry)) }
    {
        let start = req.string().create_cursor(req.start());
        let sets = FirstSets::new(self);
        match self.search_from(&req, start, &mut Allowance::Unlimited, starts, &sets) {
            Ok(found) => Ok(found),
            Err(Halt::Refused(refusal)) => Err(SreError::from(refusal)),
            Err(Halt::UsedUp) => unreachable!(),
        }
    }

    /// Searches the range as `search` does, within one budget of steps for all its starts. Returns `None`, without
    /// captures, if the step limit is exceeded. `match_within` defines a step, and says which budgets suffice.
    ///
    /// `steps` then holds the steps that are left, so one budget can bound several searches. The search for the next
    /// possible start costs no step. The code alone bounds its time for each character of the range.
    ///
    /// ```
    /// // The bytecode of `a`.
    /// let code = Code::check(alloc, &[16, 97, 1], &uni)?;
    /// let mut steps = 1000;
    /// assert!(state.search_within(Request::whole("ba", code), &mut steps)? == Some(true));
    /// ```
    ///
    /// # Errors
    ///
    /// [`SreError::Memory`] if an allocation fails.
    pub fn search_within<S: StrDrive>(
        &mut self,
        req: Request<'_, S>,
        steps: &mut u64,
    ) -> Result<Option<bool>, SreError>
        ensures answer { (t : Tree) → Whole (words_of (code_of req.entry)) t → IfOk result
            (λ told. IfSome told (λ b. answer_of b self.new ≡ found (asked_of req.entry) t)) }
        ensures cursor { IfOk result
            (λ told. told ≡ Some true → stands_in req.entry self.new.cursor self.new.cursor.position) }
        ensures span { IfOk result (λ told. told ≡ Some true
            → (start_of req.entry ≤ self.new.start) × Spans self.new.start (end_of req.entry) self.new) }
        ensures no { IfOk result (λ told. told ≢ Some true → self.new.marks ≡ no_marks) }
        ensures steps { KeepsToSteps A (asked_of req.entry) (code_of req.entry) result (runs_of self.new) steps.old
            steps.new }
        ensures again { BeginsAgain true self.new }
        ensures err { OnErr result (self.new.marks ≡ no_marks) }
        ensures refused { OnErr result (Refused A) }
        ensures counts { CountsAll req.entry (has_found result) self.new }
        ensures literal { (OnErr result (MayTakeMemory (code_of req.entry)))
            × IfOk result (λ told. told ≡ None → MayTakeMemory (code_of req.entry)) }
    {
        self.search_within_by(req, steps, &mut Nobody)
    }

    /// Searches within a budget of steps as `search_within` does, but skips the starts that the prefilter excludes.
    ///
    /// # Errors
    ///
    /// [`SreError::Memory`] if an allocation fails.
    #[tactic(auto, using(crate::proofs::Carrying::within_laws))]
    pub fn search_within_by<S: StrDrive, F: Starts<S>>(
        &mut self,
        req: Request<'_, S>,
        steps: &mut u64,
        starts: &mut F,
    ) -> Result<Option<bool>, SreError>
        requires suits { F.suits starts.old (string_of req) (code_of req) }
        ensures suits { F.suits starts.new (string_of req.entry) (code_of req.entry) }
        ensures answers { AnsweredWithin req.entry result self.new }
        ensures steps { KeepsToSteps A (asked_of req.entry) (code_of req.entry) result (runs_of self.new) steps.old
            steps.new }
        ensures refused { OnErr result (Refused A) }
    {
        let start = req.string().create_cursor(req.start());
        let mut allowed = Allowance::Turns(*steps);
        let sets = FirstSets::new(self);
        let told = self.search_from(&req, start, &mut allowed, starts, &sets);
        *steps = allowed.left();
        match told {
            Ok(found) => Ok(Some(found)),
            Err(Halt::Refused(refusal)) => Err(SreError::from(refusal)),
            Err(Halt::UsedUp) => Ok(None),
        }
    }

    // The allocator of its memory.
    pub(crate) fn allocator(&self) -> A {
        self.runner.allocator()
    }

    // Drops the captures, and keeps the memory for reuse.
    pub(crate) fn forget(&mut self)
        ensures marks { self.new.marks ≡ no_marks }
        ensures compared { self.new.compared ≡ self.old.compared }
        ensures started { self.new.started ≡ self.old.started }
        ensures restarted { self.new.restarted ≡ self.old.restarted }
    {
        self.runner.clear();
    }

    // Shows these counts instead of those of the last search.
    pub(crate) fn show_counts(&mut self, started: u64, compared: u64)
        ensures marks { self.new.marks ≡ self.old.marks }
        ensures compared { self.new.compared ≡ compared }
        ensures started { self.new.started ≡ started }
        ensures restarted { self.new.restarted ≡ self.old.restarted }
    {
        let restarted = self.runner.begun().restarted;
        self.runner.count(Begun { started, restarted });
        self.compared = compared;
    }
}
