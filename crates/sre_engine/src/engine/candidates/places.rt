//! Candidates: the occurrences of a confirmed prefix. The machine begins after its first literals.

ghost use Rattle.std.specs.Prelude.{◌≡◌, false};

use crate::engine::candidates::{Candidate, Candidates};
use crate::engine::prefix::{Prefix, Spot, behind_literals, go_on, prefix_start};
use crate::engine::told::{Starts, find_allowed};
use sre_chars::string::{StrDrive, StringCursor};
use sre_request::Request;

/// A scan for a prefix that is not the whole code.
#[derive(Clone, Copy)]
pub(crate) struct Places<'a> {
    prefix: &'a Prefix<'a>,
    spot: Spot,
}

impl<'a> Places<'a> {
    /// The occurrences from a cursor on.
    #[inline(always)]
    pub(crate) fn new(prefix: &'a Prefix<'a>, from: StringCursor) -> Places<'a>
        ensures prefix { result.prefix.now ≡ prefix.now }
        ensures cursor { result.spot.cursor ≡ from }
        ensures matched { result.spot.matched ≡ 0 }
    {
        let spot = Spot {
            cursor: from,
            matched: 0,
        };
        Places { prefix, spot }
    }
}

impl<'a, S: StrDrive> Candidates<S> for Places<'a> {
    ghost use Rattle.std.specs.Prelude.{false};
    ghost use Rattle.sre_engine.specs.Candidates.{place_of, Scans, ScansBehind};

    ghost front = { place_of };

    ghost looks = { Scans };

    ghost is_at = { ScansBehind };

    ghost single = { false };

    #[inline(always)]
    fn next<F: Starts<S>>(
        &mut self,
        req: &Request<'_, S>,
        compared: &mut u64,
        starts: &mut F,
    ) -> Option<Candidate> {
        if !find_allowed(req, self.prefix, compared, &mut self.spot, starts) {
            return None;
        }
        Some(Candidate {
            start: prefix_start(self.prefix, self.spot),
            literals: self.prefix.literals,
            cursor: behind_literals(req, self.prefix, self.spot),
        })
    }

    #[inline(always)]
    fn pass(&mut self, req: &Request<'_, S>, compared: u64, _candidate: Candidate) -> bool {
        self.spot = go_on(req, self.prefix, &compared, self.spot);
        true
    }
}
