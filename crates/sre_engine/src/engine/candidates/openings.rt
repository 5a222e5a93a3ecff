//! Candidates without a confirmed prefix or first set: the starts that the FIRST set of the first items allows.

ghost use Rattle.std.specs.Prelude.{◌≡◌, ◌≤◌, IfSome};
ghost use Rattle.sre_engine.specs.Terms.{Tree, WholeItems, RunStands, end_of, asked_of, run_of, Standing};
ghost use Rattle.sre_engine.specs.FirstSets.{Opens};
ghost use Rattle.sre_engine.specs.Starts.{Bars, TestsThere, PassesTo};

use crate::engine::candidates::{Candidate, Candidates};
use crate::engine::first_characters::{First, Wanted};
use crate::engine::leading_run::{LeadingRun, leading_run, pass_start};
use crate::engine::opening::Opening;
use crate::engine::told::{Starts, next_start_allowed};
use sre_chars::string::{StrDrive, StringCursor};
use sre_request::Request;

// With fewer characters left, reading how alternatives and repeats begin costs more than it saves.
const FEW_FOR_ALTERNATIVES: usize = 8;

// With fewer characters left, reading which characters a set takes costs more than it saves.
const FEW_FOR_SETS: usize = 20;

/// The starts from a cursor on, and what was read of the code. Some reads pay only after the first failed start: the
/// characters of a set, the FIRST sets of alternatives and leading repeats, and whether a repeat leads. Most steps of
/// an iteration end at the first start.
#[derive(Clone, Copy)]
pub(crate) struct Openings {
    first: First,
    lead: Option<LeadingRun>,
    is_read: bool,
    start: StringCursor,
}

impl Openings {
    /// The starts of a request from a cursor on, and how its matches begin, if that was read before.
    #[inline(always)]
    pub(crate) fn new<S: StrDrive>(
        req: &Request<'_, S>,
        from: StringCursor,
        known: Option<Opening>,
    ) -> Openings
        requires { IfSome known (Opens (run_of req.now).words) }
        ensures start { result.start ≡ from }
        ensures test { TestsThere (run_of req.now).words result.first.wanted }
        ensures bars { Bars (run_of req.now).words result.first }
        ensures lead { (t : Tree) → WholeItems (run_of req.now).words t
            → IfSome result.lead (λ run. RunStands (run_of req.now).words t run.first run.test) }
    {
        if let Some(opening) = known {
            return Openings {
                first: opening.first,
                lead: opening.lead,
                is_read: true,
                start: from,
            };
        }
        let reads_sets = false;
        Openings {
            first: First::of_items(req.pattern_codes().items(), reads_sets),
            lead: None,
            is_read: false,
            start: from,
        }
    }

    // Reads the characters of sets and the FIRST sets of alternatives and repeats, if enough of the range is left.
    fn read_sets<S: StrDrive>(&mut self, req: &Request<'_, S>)
        requires test { TestsThere (run_of req.now).words self.old.first.wanted }
        requires bars { Bars (run_of req.now).words self.old.first }
        ensures same { self.new ≡ record self.old { first = self.new.first } }
        ensures test { TestsThere (run_of req.now).words self.new.first.wanted }
        ensures bars { Bars (run_of req.now).words self.new.first }
    {
        let few = match self.first.wanted {
            Wanted::Anything => FEW_FOR_ALTERNATIVES,
            _ => FEW_FOR_SETS,
        };
        let left = req.end().saturating_sub(self.start.position());
        if left >= few {
            let reads_sets = true;
            self.first = First::of_items(req.pattern_codes().items(), reads_sets);
        }
    }

    // Passes the first start that failed, and does the reads that pay from then on. It is out of line, since most
    // searches end before.
    #[inline(never)]
    fn pass_first<S: StrDrive>(&mut self, req: &Request<'_, S>, start: StringCursor) -> bool
        requires test { TestsThere (run_of req.now).words self.old.first.wanted }
        requires bars { Bars (run_of req.now).words self.old.first }
        requires stands { Standing req.now start }
        requires inside { start.position ≤ end_of req.now }
        ensures passes { PassesTo (run_of req.now) (asked_of req.now) start.position result self.new.start }
        ensures test { TestsThere (run_of req.now).words self.new.first.wanted }
        ensures bars { Bars (run_of req.now).words self.new.first }
        ensures lead { (t : Tree) → WholeItems (run_of req.now).words t
            → IfSome self.new.lead (λ run. RunStands (run_of req.now).words t run.first run.test) }
    {
        self.is_read = true;
        self.lead = leading_run(req);
        self.start = start;
        let is_further = pass_start(req, &self.lead, &mut self.start);
        if is_further {
            self.read_sets(req);
        }
        is_further
    }
}

impl<S: StrDrive> Candidates<S> for Openings {
    ghost use Rattle.std.specs.Prelude.{false};
    ghost use Rattle.sre_engine.specs.Candidates.{Reads, IsBare};

    ghost front = { λ o. o.start.position };

    ghost looks = { λ o r a code n. Reads o r code n };

    ghost is_at = { λ o r a code c n. Reads o r code n × IsBare c };

    ghost single = { false };

    #[inline(always)]
    fn next<F: Starts<S>>(
        &mut self,
        req: &Request<'_, S>,
        _compared: &mut u64,
        starts: &mut F,
    ) -> Option<Candidate> {
        let cursor = next_start_allowed(req, &self.first, self.start, starts)?;
        Some(Candidate::at(cursor))
    }

    #[inline(always)]
    fn pass(&mut self, req: &Request<'_, S>, _compared: u64, candidate: Candidate) -> bool {
        if !self.is_read {
            return self.pass_first(req, candidate.cursor);
        }
        self.start = candidate.cursor;
        pass_start(req, &self.lead, &mut self.start)
    }
}
