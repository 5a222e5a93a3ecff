//! Candidates: the starts that a search tries in order, as the confirmed hints of its code allow.
//!
//! A search takes a candidate, runs the machine there, and passes the candidate if the run fails. There is one search
//! loop, and a type for each kind: occurrences of a prefix, members of a first set, starts that the FIRST set allows,
//! and the start of the range alone.

ghost use Rattle.std.specs.Prelude.{◌≡◌, ◌≤◌, ◌<◌, ◌+◌, ℕ, IfSome, None, Bool, true, false};
ghost use Rattle.sre_engine.specs.Terms.{Run, Asked, Code, string_of, start_of, end_of, code_of, asked_of, run_of};
ghost use Rattle.sre_engine.specs.Terms.{Standing};
ghost use Rattle.sre_engine.specs.declared.engine.candidates.Candidate.{Candidate};
ghost use Rattle.sre_engine.specs.Scans.{NoMatch};
ghost use Rattle.sre_engine.specs.Candidates.{bare_candidate, IsCandidate, ComparesFew, Failed};

use crate::engine::told::Starts;
use sre_chars::string::{StrDrive, StringCursor};
use sre_request::Request;

pub(crate) mod doubles;
pub(crate) mod members;
pub(crate) mod only_start;
pub(crate) mod openings;
pub(crate) mod places;

/// A start to try: how many literals of the code are already compared there, and the cursor after them.
#[derive(Clone, Copy)]
pub(crate) struct Candidate {
    pub(crate) start: usize,
    pub(crate) literals: usize,
    pub(crate) cursor: StringCursor,
}

impl Candidate {
    /// The start at a cursor, with no literal compared.
    #[inline(always)]
    pub(crate) fn at(cursor: StringCursor) -> Candidate
        ensures { result ≡ bare_candidate cursor }
    {
        Candidate {
            start: cursor.position(),
            literals: 0,
            cursor,
        }
    }
}

/// A source of candidates.
pub(crate) trait Candidates<S: StrDrive> {
    // The start from which it searches on.
    ghost front: { Self → ℕ };

    // Whether it is at its front, after so many comparisons.
    ghost looks: { Self → Run → Asked → Code → ℕ → Type 0 };

    // Whether it is at a candidate.
    ghost is_at: { Self → Run → Asked → Code → Candidate → ℕ → Type 0 };

    // Whether it has a single candidate.
    ghost single: { Bool };

    /// The next start to try, or `None` if none is left.
    fn next<F: Starts<S>>(
        &mut self,
        req: &Request<'_, S>,
        compared: &mut u64,
        starts: &mut F,
    ) -> Option<Candidate>
        requires looks { looks self.old (run_of req.now) (asked_of req.now) (code_of req.now) compared.old }
        requires from { start_of req.now ≤ front self.old }
        requires inside { front self.old ≤ end_of req.now }
        requires suits { F.suits starts.old (string_of req.now) (code_of req.now) }
        ensures suits { F.suits starts.new (string_of req.now) (code_of req.now) }
        ensures some { IfSome result (λ c. IsCandidate (run_of req.now) (asked_of req.now) (code_of req.now)
            (front self.old) c compared.new) }
        ensures is_at { IfSome result
            (λ c. is_at self.new (run_of req.now) (asked_of req.now) (code_of req.now) c compared.new) }
        ensures none { result ≡ None → NoMatch (asked_of req.now) (code_of req.now) (front self.old)
            (end_of req.now + 1) }
        ensures few { ComparesFew (asked_of req.now) (code_of req.now) compared.new };

    /// Passes the candidate, which has no match. Returns whether there may be another one.
    fn pass(&mut self, req: &Request<'_, S>, compared: u64, candidate: Candidate) -> bool
        requires is_at { is_at self.old (run_of req.now) (asked_of req.now) (code_of req.now) candidate compared }
        requires stands { Standing req.now candidate.cursor }
        requires inside { candidate.cursor.position ≤ end_of req.now }
        requires from { start_of req.now ≤ candidate.start }
        requires failed { Failed (asked_of req.now) (code_of req.now) candidate.start }
        ensures looks { result ≡ true
            → looks self.new (run_of req.now) (asked_of req.now) (code_of req.now) compared }
        ensures further { result ≡ true
            → (candidate.start < front self.new) × (front self.new ≤ end_of req.now) }
        ensures passed { result ≡ true
            → NoMatch (asked_of req.now) (code_of req.now) candidate.start (front self.new) }
        ensures none { result ≡ false
            → NoMatch (asked_of req.now) (code_of req.now) candidate.start (end_of req.now + 1) }
        ensures single { single ≡ true → result ≡ false };
}
