//! Matches and searches from a cursor. A search tries candidate after candidate, of the kind that the confirmed hints
//! select.

ghost use Rattle.std.specs.Prelude.{◌≡◌, ◌≤◌, true, false, IfOk, OnErr};
ghost use Rattle.sre_engine.specs.Terms.{Tree, Whole, no_marks, matched, string_of, start_of, end_of, code_of};
ghost use Rattle.sre_engine.specs.Terms.{asked_of, stands_in, run_of, items_of, words_of, is_limited};
ghost use Rattle.sre_engine.specs.Answers.{answer_of, Spans, MayTakeMemory};
ghost use Rattle.sre_engine.specs.Counts.{CountsStay, BeginsAgain, runs_of};
ghost use Rattle.sre_engine.specs.Prefixed.{IsPrefix};
ghost use Rattle.sre_engine.specs.Costs.{Charged};
ghost use Rattle.sre_engine.specs.FirstSets.{SetsOf};
ghost use Rattle.sre_engine.specs.Searches.{Answered, AnsweredAtOnce, RunsOnceAnchored};

use crate::engine::anchors::is_anchored;
use crate::engine::candidates::Candidates;
use crate::engine::candidates::doubles::Doubles;
use crate::engine::candidates::members::Members;
use crate::engine::candidates::only_start::OnlyStart;
use crate::engine::candidates::openings::Openings;
use crate::engine::candidates::places::Places;
use crate::engine::doubled::is_doubled;
use crate::engine::first_sets::FirstSets;
use crate::engine::prefix::{Prefix, Spot, confirmed_prefix, find, go_on, may_end, prefix_start};
use crate::engine::state::State;
use crate::engine::told::Starts;
use crate::engine::widths::{is_past, last_start};
use sre_chars::string::{StrDrive, StringCursor};
use sre_machine::allowance::Allowance;
use sre_machine::turns::{Begun, Halt};
use sre_request::Request;
use std::alloc::Allocator;

impl<A: Allocator + Copy> State<A> {
    // Matches as `pymatch` does, from a cursor at the start of the range. The counts of the last search do not change.
    pub(crate) fn match_from<S: StrDrive>(
        &mut self,
        req: &Request<'_, S>,
        from: StringCursor,
        allowed: &mut Allowance,
    ) -> Result<bool, Halt<A>>
        requires { stands_in req.now from (start_of req.now) }
        ensures answer { (t : Tree) → Whole (words_of (code_of req.now)) t
            → IfOk result (λ b. answer_of b self.new ≡ matched (asked_of req.now) t) }
        ensures cursor { IfOk result (λ b. b ≡ true → stands_in req.now self.new.cursor self.new.cursor.position) }
        ensures span { IfOk result (λ b. b ≡ true → Spans (start_of req.now) (end_of req.now) self.new) }
        ensures no { IfOk result (λ b. b ≡ false → self.new.marks ≡ no_marks) }
        ensures err { OnErr result (self.new.marks ≡ no_marks) }
        ensures charged { Charged req.now result 1 2 allowed.old allowed.new }
        ensures counts { CountsStay self.old self.new }
    {
        let counted = self.runner.begun();
        self.runner.begin(req, allowed.is_limited());
        let told = self.runner.attempt(req, 0, from, allowed);
        self.runner.count(counted);
        match told? {
            Some(end) => {
                (self.start, self.cursor) = (req.start(), end);
                Ok(true)
            }
            None => Ok(false),
        }
    }

    // Searches as `search` does, from a cursor at the start of the range. The kinds are tried in this order, since a
    // prefix skips more starts than a first set does, and a first set more than FIRST sets.
    #[tactic(auto, using(crate::proofs::Carrying::at_once))]
    pub(crate) fn search_from<S: StrDrive, F: Starts<S>>(
        &mut self,
        req: &Request<'_, S>,
        from: StringCursor,
        allowed: &mut Allowance,
        starts: &mut F,
        sets: &FirstSets<A>,
    ) -> Result<bool, Halt<A>>
        requires stands { stands_in req.now from (start_of req.now) }
        requires suits { F.suits starts.old (string_of req.now) (code_of req.now) }
        requires sets { SetsOf (items_of (code_of req.now)) sets.now }
        ensures suits { F.suits starts.new (string_of req.now) (code_of req.now) }
        ensures answers { Answered req.now result self.new }
        ensures again { BeginsAgain (is_limited allowed.old) self.new }
        ensures charged { Charged req.now result self.new.started (runs_of self.new) allowed.old allowed.new }
        ensures anchored { RunsOnceAnchored req.now self.new }
        ensures literal { OnErr result (MayTakeMemory (code_of req.now)) }
    {
        if let Some(prefix) = confirmed_prefix(req, sets.rarest()) {
            if prefix.whole {
                return Ok(self.search_whole(req, &prefix, from));
            }
            return self.search_along(req, &mut Places::new(&prefix, from), allowed, starts);
        }
        if is_doubled(req) {
            return self.search_along(req, &mut Doubles { start: from }, allowed, starts);
        }
        if req.pattern_codes().hints().first_set {
            return self.search_along(req, &mut Members::new(from), allowed, starts);
        }
        if is_anchored(req) {
            return self.search_along(req, &mut OnlyStart { start: from }, allowed, starts);
        }
        self.search_along(
            req,
            &mut Openings::new(req, from, sets.opening()),
            allowed,
            starts,
        )
    }

    // Searches for a prefix that is the whole code.
    fn search_whole<S: StrDrive>(
        &mut self,
        req: &Request<'_, S>,
        prefix: &Prefix<'_>,
        from: StringCursor,
    ) -> bool
        requires stands { stands_in req.now from (start_of req.now) }
        requires is { IsPrefix (code_of req.now) prefix.now.words.now prefix.now.literals prefix.now.whole }
        requires all { prefix.now.whole ≡ true }
        ensures answers { AnsweredAtOnce req.now result self.new }
        ensures none { runs_of self.new ≡ 0 }
    {
        self.runner.clear(); // captures of an earlier search
        self.runner.count(Begun::none());
        self.compared = 0;
        let mut spot = Spot {
            cursor: from,
            matched: 0,
        };
        'place: while find(req, prefix, &mut self.compared, &mut spot) {
            if may_end(req, spot.cursor) {
                (self.start, self.cursor) = (prefix_start(prefix, spot), spot.cursor);
                return true;
            }
            spot = go_on(req, prefix, &self.compared, spot);
        }
        false
    }

    // Tries candidate after candidate, until one has a match.
    #[inline(always)]
    fn search_along<S: StrDrive, C: Candidates<S>, F: Starts<S>>(
        &mut self,
        req: &Request<'_, S>,
        candidates: &mut C,
        allowed: &mut Allowance,
        starts: &mut F,
    ) -> Result<bool, Halt<A>>
        requires looks { C.looks candidates.old (run_of req.now) (asked_of req.now) (code_of req.now) 0 }
        requires front { C.front candidates.old ≡ start_of req.now }
        requires suits { F.suits starts.old (string_of req.now) (code_of req.now) }
        ensures suits { F.suits starts.new (string_of req.now) (code_of req.now) }
        ensures answers { Answered req.now result self.new }
        ensures again { BeginsAgain (is_limited allowed.old) self.new }
        ensures charged { Charged req.now result self.new.started (runs_of self.new) allowed.old allowed.new }
        ensures single { C.single ≡ true → self.new.started ≤ 1 }
    {
        self.runner.begin(req, allowed.is_limited());
        self.compared = 0;
        let last = last_start(req);
        'candidate: while let Some(candidate) = candidates.next(req, &mut self.compared, starts) {
            if is_past(last, candidate.start) {
                return Ok(false);
            }
            let (literals, cursor) = (candidate.literals, candidate.cursor);
            if let Some(end) = self.runner.attempt(req, literals, cursor, allowed)? {
                (self.start, self.cursor) = (candidate.start, end);
                return Ok(true);
            }
            starts.note_failed();
            if !candidates.pass(req, self.compared, candidate) {
                return Ok(false);
            }
        }
        Ok(false)
    }
}
