//! Candidates: the members of a confirmed first set.

ghost use Rattle.std.specs.Prelude.{◌≡◌, None};

use crate::engine::candidates::{Candidate, Candidates};
use crate::engine::leading_run::{leading_run, pass_start};
use crate::engine::told::{Starts, next_member_allowed};
use sre_chars::string::{StrDrive, StringCursor};
use sre_code::ascii_set::AsciiSet;
use sre_request::Request;

/// The members from a cursor on.
#[derive(Clone, Copy)]
pub(crate) struct Members {
    start: StringCursor,
    // The ASCII members, once they are told.
    told: Option<AsciiSet>,
}

impl Members {
    #[inline(always)]
    pub(crate) fn new(start: StringCursor) -> Members
        ensures start { result.start ≡ start }
        ensures told { result.told ≡ None }
    {
        Members { start, told: None }
    }
}

impl<S: StrDrive> Candidates<S> for Members {
    ghost use Rattle.std.specs.Prelude.{false};
    ghost use Rattle.sre_engine.specs.Candidates.{Seeks, IsBare};

    ghost front = { λ m. m.start.position };

    ghost looks = { λ m r a code n. Seeks m r code n };

    ghost is_at = { λ m r a code c n. Seeks m r code n × IsBare c };

    ghost single = { false };

    #[inline(always)]
    fn next<F: Starts<S>>(
        &mut self,
        req: &Request<'_, S>,
        _compared: &mut u64,
        starts: &mut F,
    ) -> Option<Candidate> {
        let cursor = next_member_allowed(req, &mut self.told, self.start, starts)?;
        Some(Candidate::at(cursor))
    }

    #[inline(always)]
    fn pass(&mut self, req: &Request<'_, S>, _compared: u64, candidate: Candidate) -> bool {
        self.start = candidate.cursor;
        pass_start(req, &leading_run(req), &mut self.start)
    }
}
