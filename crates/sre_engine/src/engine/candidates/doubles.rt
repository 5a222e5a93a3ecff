//! Candidates: the starts at which a character comes twice, for codes that begin with a group of one character and a
//! back-reference to it.

use crate::engine::candidates::{Candidate, Candidates};
use crate::engine::doubled::next_double;
use crate::engine::leading_run::pass_start;
use crate::engine::told::Starts;
use sre_chars::string::{StrDrive, StringCursor};
use sre_request::Request;

/// Such starts from a cursor on.
#[derive(Clone, Copy)]
pub(crate) struct Doubles {
    pub(crate) start: StringCursor,
}

impl<S: StrDrive> Candidates<S> for Doubles {
    ghost use Rattle.std.specs.Prelude.{false};
    ghost use Rattle.sre_engine.specs.Candidates.{SeeksDoubles, IsBare};

    ghost front = { λ d. d.start.position };

    ghost looks = { λ d r a code n. SeeksDoubles d r code n };

    ghost is_at = { λ d r a code c n. SeeksDoubles d r code n × IsBare c };

    ghost single = { false };

    #[inline(always)]
    fn next<F: Starts<S>>(
        &mut self,
        req: &Request<'_, S>,
        _compared: &mut u64,
        starts: &mut F,
    ) -> Option<Candidate> {
        let told = starts.beyond(req, self.start)?;
        let cursor = next_double(req, told)?;
        Some(Candidate::at(cursor))
    }

    #[inline(always)]
    fn pass(&mut self, req: &Request<'_, S>, _compared: u64, candidate: Candidate) -> bool {
        self.start = candidate.cursor;
        pass_start(req, &None, &mut self.start)
    }
}
