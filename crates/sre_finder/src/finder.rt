//! [`Finder`]: a code with its prefilter.

ghost use Rattle.std.specs.Prelude.{◌≡◌, ◌≤◌, IfOk, OnErr, None, map};
ghost use Rattle.sre_finder.specs.Terms.{Refused, Tree, Whole, no_marks, walk, most_matches, words_of, start_of};
ghost use Rattle.sre_finder.specs.Terms.{code_of, asked_of, MayTakeMemory, Answered, AnsweredWithin, AreInOrder};
ghost use Rattle.sre_finder.specs.Terms.{RunsOnceAnchored};
ghost use Rattle.sre_engine.specs.Counts.{KeepsToSteps, runs_of, CountsOfWalk};
ghost use Rattle.std.specs.Vec.{vec_len};
ghost use Rattle.sre_engine.specs.Listed.{match_of};
ghost use Rattle.sre_finder.specs.Finders.{EndStands};

use crate::haystack::Haystack;
use crate::prefilter::Prefilter;
use sre_chars::string::StringCursor;
use sre_code::Code;
use sre_engine::engine::{Found, SreError, Starts, State, all_matches_by};
use sre_patterns::Encoding;
use sre_request::Request;
use std::alloc::{Allocator, Global};
use std::marker::Model;

/// Prefilter for searches of a code. It has DFAs only where they probably save time.
#[derive(Drop)]
pub struct Finder<'c> {
    code: Code<'c>,
    starts: Prefilter,
}

impl<'c> Model for Finder<'c> {
    ghost use Rattle.sre_finder.specs.Finders.{FinderValue, Filters};

    ghost Value = { FinderValue };

    ghost view = { λ f. record { code = f.code; encoding = f.starts.encoding; end = f.starts.end } };

    ghost invariant = { λ f. Filters f.code f.starts };
}

impl<'c> Finder<'c> {
    /// Creates the prefilter of a code. `encoding` is how its texts are read: `Encoding::Bytes` for bytes,
    /// `Encoding::Utf8` for a `str`, and `Encoding::Ascii` for a `str` that is ASCII up to the end of the range. In any
    /// other text the prefilter excludes no start.
    ///
    /// The call never fails. The prefilter has no DFAs and excludes no start if the search by a confirmed prefix is as
    /// fast (two characters or more, or the whole code), a match can be empty, the pattern is too large, or an
    /// allocation failed.
    pub fn new(alloc: Global, code: Code<'c>, encoding: Encoding) -> Finder<'c>
        ensures code { result.code ≡ code.entry }
        ensures encoding { result.encoding ≡ encoding }
        ensures end { result.end ≡ None }
    {
        let mut finder = Finder::on_demand(alloc, code, encoding);
        finder.starts.make(code);
        finder
    }

    /// As `new`, but builds the DFAs only once the machine has spent about as much time as that takes. A search that
    /// matches near the start of the range builds nothing.
    pub fn on_demand(alloc: Global, code: Code<'c>, encoding: Encoding) -> Finder<'c>
        ensures code { result.code ≡ code.entry }
        ensures encoding { result.encoding ≡ encoding }
        ensures end { result.end ≡ None }
    {
        let mut starts = Prefilter::new(encoding);
        starts.begin(alloc);
        Finder { code, starts }
    }

    /// Returns whether the DFAs exist. With `on_demand` that is whether they were built.
    pub fn has_automata(&self) -> bool {
        self.starts.has_automata()
    }

    /// Forgets the last text. `search`, `all_matches` and `walk` do this themselves.
    pub fn reset(&mut self)
        ensures code { self.new.code ≡ self.old.code }
        ensures encoding { self.new.encoding ≡ self.old.encoding }
        ensures end { self.new.end ≡ None }
    {
        self.starts.reset();
    }
}

impl<'c, S: Haystack> Starts<S> for Finder<'c> {
    ghost suits = { λ f string code. (f.code ≡ code) × EndStands (S.stands string) f.end };

    #[inline(always)]
    fn beyond(&mut self, req: &Request<'_, S>, from: StringCursor) -> Option<StringCursor> {
        self.starts.beyond(req, from)
    }

    #[inline(always)]
    fn tells(&self) -> bool {
        Starts::<S>::tells(&self.starts)
    }

    #[inline(always)]
    fn note_failed(&mut self) {
        self.starts.fail();
    }
}

impl<'c> Finder<'c> {
    /// Searches the range and returns whether there is a match, as `State::search` does. It skips starts that the
    /// prefilter excludes.
    ///
    /// # Errors
    ///
    /// [`SreError::Memory`] if an allocation failed. Never if a confirmed prefix is the whole code.
    pub fn search<S: Haystack, A: Allocator + Copy>(
        &mut self,
        req: Request<'_, S>,
        state: &mut State<A>,
    ) -> Result<bool, SreError>
        requires { self.old.code ≡ code_of req }
        ensures answers { Answered req.entry result state.new }
        ensures refused { OnErr result (Refused A) }
        ensures anchored { RunsOnceAnchored req.entry state.new }
        ensures once { state.new.restarted ≡ 0 }
        ensures literal { OnErr result (MayTakeMemory (code_of req.entry)) }
        ensures code { self.new.code ≡ self.old.code }
    {
        self.reset();
        state.search_by(req, self)
    }

    /// Searches the range within a budget of steps, as `State::search_within` does. It skips starts that the prefilter
    /// excludes, and `steps` then holds the steps that are left. The prefilter charges none.
    ///
    /// # Errors
    ///
    /// [`SreError::Memory`] if an allocation failed. Never if a confirmed prefix is the whole code.
    pub fn search_within<S: Haystack, A: Allocator + Copy>(
        &mut self,
        req: Request<'_, S>,
        state: &mut State<A>,
        steps: &mut u64,
    ) -> Result<Option<bool>, SreError>
        requires { self.old.code ≡ code_of req }
        ensures answers { AnsweredWithin req.entry result state.new }
        ensures steps { KeepsToSteps A (asked_of req.entry) (code_of req.entry) result (runs_of state.new) steps.old
            steps.new }
        ensures refused { OnErr result (Refused A) }
        ensures code { self.new.code ≡ self.old.code }
    {
        self.reset();
        state.search_within_by(req, steps, self)
    }

    /// Returns all matches in the range, as `all_matches` of `sre_engine` does. It skips starts that the prefilter
    /// excludes.
    ///
    /// # Errors
    ///
    /// [`SreError::Memory`] if an allocation failed.
    pub fn all_matches<S: Haystack, A: Allocator + Copy>(
        &mut self,
        req: Request<'_, S>,
        state: &mut State<A>,
    ) -> Result<Vec<Found<A>, A>, SreError>
        requires { self.old.code ≡ code_of req }
        ensures ok { (t : Tree) → Whole (words_of (code_of req.entry)) t
            → IfOk result (λ all. map match_of all.items ≡ walk (asked_of req.entry) t) }
        ensures bound { IfOk result (λ all. vec_len all ≤ most_matches (asked_of req.entry)) }
        ensures order { IfOk result (λ all. AreInOrder (start_of req.entry) (map match_of all.items)) }
        ensures counts { CountsOfWalk (asked_of req.entry) (code_of req.entry)
            (most_matches (asked_of req.entry)) state.new }
        ensures by_matches { IfOk result
            (λ all. CountsOfWalk (asked_of req.entry) (code_of req.entry) (vec_len all) state.new) }
        ensures once { state.new.restarted ≡ 0 }
        ensures after { state.new.marks ≡ no_marks }
        ensures refused { OnErr result (Refused A) }
        ensures code { self.new.code ≡ self.old.code }
    {
        self.reset();
        all_matches_by(req, state, self)
    }
}
