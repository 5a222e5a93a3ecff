//! The start of the range as the only candidate, for codes that are anchored at the start of the text.

use crate::engine::candidates::{Candidate, Candidates};
use crate::engine::told::Starts;
use sre_chars::string::{StrDrive, StringCursor};
use sre_request::Request;

/// The start of the range.
#[derive(Clone, Copy)]
pub(crate) struct OnlyStart {
    pub(crate) start: StringCursor,
}

impl<S: StrDrive> Candidates<S> for OnlyStart {
    ghost use Rattle.std.specs.Prelude.{true};
    ghost use Rattle.sre_engine.specs.Candidates.{IsAnchored, IsBare};

    ghost front = { λ o. o.start.position };

    ghost looks = { λ o r a code n. IsAnchored r code o.start n };

    ghost is_at = { λ o r a code c n. IsAnchored r code o.start n × IsBare c };

    ghost single = { true };

    #[inline(always)]
    fn next<F: Starts<S>>(
        &mut self,
        _req: &Request<'_, S>,
        _compared: &mut u64,
        _starts: &mut F,
    ) -> Option<Candidate> {
        Some(Candidate::at(self.start))
    }

    #[inline(always)]
    fn pass(&mut self, _req: &Request<'_, S>, _compared: u64, _candidate: Candidate) -> bool {
        false
    }
}
