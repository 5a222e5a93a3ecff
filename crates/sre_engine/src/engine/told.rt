//! Prefilters: they exclude starts without a match, which a search then skips without a run.

ghost use Rattle.std.specs.Prelude.{◌≡◌, ◌≤◌, ◌+◌, ◌-◌, length, IfSome, None, true, false, ⊤};
ghost use Rattle.sre_engine.specs.Terms.{Tree, Whole, AreTold, words_of, hints_of, Code, string_of, end_of, code_of};
ghost use Rattle.sre_engine.specs.Terms.{asked_of, run_of, Standing};
ghost use Rattle.sre_engine.specs.Members.{IsMemberFrom};
ghost use Rattle.sre_engine.specs.Prefixed.{IsPrefix};
ghost use Rattle.sre_engine.specs.Scans.{ScanIsAt, MovesOn, NoMatch};
ghost use Rattle.sre_engine.specs.Starts.{Bars, TestsThere, NoneUntil, StartFrom};

use crate::engine::first_characters::First;
use crate::engine::members::next_member;
use crate::engine::next_start::{looked_at, next_start};
use crate::engine::prefix::{Prefix, Spot, find};
use sre_chars::string::{StrDrive, StringCursor};
use sre_code::ascii_set::AsciiSet;
use sre_request::Request;

/// A prefilter: it excludes starts that have no match.
pub trait Starts<S: StrDrive> {
    // Whether it suits a code and a text.
    ghost suits: { Self → S → Code → Type 0 };

    /// Skips starts without a match. The result is a cursor in the range, from the given one on; no start before it has
    /// a match. `None`: no start from the given one on has a match. A search calls this at the start of its range, and
    /// after each start that failed.
    fn beyond(&mut self, req: &Request<'_, S>, from: StringCursor) -> Option<StringCursor>
        requires suits { suits self.old (string_of req.now) (code_of req.now) }
        requires stands { Standing req.now from }
        requires inside { from.position ≤ end_of req.now }
        ensures suits { suits self.new (string_of req.now) (code_of req.now) }
        ensures next { IfSome result (λ next. StartFrom (run_of req.now) from.position next) }
        ensures none { (t : Tree) → Whole (words_of (code_of req.now)) t
            → NoneUntil (asked_of req.now) t from.position result };

    /// Whether `beyond` may skip any start. If not, a search need not find the start that it would pass to `beyond`.
    fn tells(&self) -> bool {
        true
    }

    /// Notes that the machine's run at the last candidate failed.
    fn note_failed(&mut self)
        ensures { (string : S) (code : Code) → suits self.old string code → suits self.new string code };
}

/// The prefilter that skips nothing.
#[derive(Clone, Copy, Debug)]
pub struct Nobody;

impl<S: StrDrive> Starts<S> for Nobody {
    ghost suits = { λ _ _ _. ⊤ };

    #[inline(always)]
    fn beyond(&mut self, _req: &Request<'_, S>, from: StringCursor) -> Option<StringCursor> {
        Some(from)
    }

    #[inline(always)]
    fn tells(&self) -> bool {
        false
    }

    #[inline(always)]
    fn note_failed(&mut self) {}
}

// Where the scan for a prefix continues, after the prefilter's skip. If words are matched, the next start is before the
// scan's cursor. The scan never goes back: it moves to a start from its cursor on, or stays. So it compares nothing
// again.
#[inline(always)]
#[tactic(auto, using(crate::proofs::Looking::stays, crate::proofs::Looking::none_passed))]
fn spot_allowed<S: StrDrive, F: Starts<S>>(
    req: &Request<'_, S>,
    spot: Spot,
    starts: &mut F,
) -> Option<Spot>
    requires stands { Standing req.now spot.cursor }
    requires inside { spot.cursor.position ≤ end_of req.now }
    requires past { spot.matched ≤ spot.cursor.position }
    requires suits { F.suits starts.old (string_of req.now) (code_of req.now) }
    ensures suits { F.suits starts.new (string_of req.now) (code_of req.now) }
    ensures stands { IfSome result (λ next. Standing req.now next.cursor) }
    ensures inside { IfSome result (λ next. next.cursor.position ≤ end_of req.now) }
    ensures on { IfSome result (λ next. MovesOn spot.cursor.position spot.matched next.cursor.position next.matched) }
    ensures next { IfSome result (λ next. NoMatch (asked_of req.now) (code_of req.now)
        (spot.cursor.position - spot.matched) (next.cursor.position - next.matched)) }
    ensures none { result ≡ None → NoMatch (asked_of req.now) (code_of req.now)
        (spot.cursor.position - spot.matched) (end_of req.now + 1) }
{
    if !starts.tells() {
        return Some(spot);
    }
    let cursor = starts.beyond(req, looked_at(req, spot.cursor, spot.matched))?;
    if cursor.position() < spot.cursor.position() {
        return Some(spot);
    }
    Some(Spot { cursor, matched: 0 })
}

/// Finds the next occurrence of the prefix that the prefilter does not exclude, and moves past it.
#[inline(always)]
#[tactic(auto, using(crate::proofs::Steps::here_on))]
pub(crate) fn find_allowed<S: StrDrive, F: Starts<S>>(
    req: &Request<'_, S>,
    prefix: &Prefix<'_>,
    compared: &mut u64,
    spot: &mut Spot,
    starts: &mut F,
) -> bool
    requires is { IsPrefix (code_of req.now) prefix.now.words.now prefix.now.literals prefix.now.whole }
    requires stands { Standing req.now spot.old.cursor }
    requires here { ScanIsAt req.now prefix.now.words.now spot.old.cursor.position spot.old.matched compared.old }
    requires suits { F.suits starts.old (string_of req.now) (code_of req.now) }
    ensures suits { F.suits starts.new (string_of req.now) (code_of req.now) }
    ensures stands { Standing req.now spot.new.cursor }
    ensures here { ScanIsAt req.now prefix.now.words.now spot.new.cursor.position spot.new.matched compared.new }
    ensures found { result ≡ true → (spot.new.matched ≡ length prefix.now.words.now)
        × NoMatch (asked_of req.now) (code_of req.now)
        (spot.old.cursor.position - spot.old.matched) (spot.new.cursor.position - spot.new.matched) }
    ensures none { result ≡ false → NoMatch (asked_of req.now) (code_of req.now)
        (spot.old.cursor.position - spot.old.matched) (end_of req.now + 1) }
{
    let Some(next) = spot_allowed(req, *spot, starts) else {
        return false;
    };
    *spot = next;
    find(req, prefix, compared, spot)
}

/// The first member of the confirmed first set, from a cursor on, that the prefilter does not exclude.
#[inline(always)]
pub(crate) fn next_member_allowed<S: StrDrive, F: Starts<S>>(
    req: &Request<'_, S>,
    told: &mut Option<AsciiSet>,
    start: StringCursor,
    starts: &mut F,
) -> Option<StringCursor>
    requires set { (hints_of (code_of req.now)).first_set ≡ true }
    requires told { AreTold (words_of (code_of req.now)) 5 told.old }
    requires stands { Standing req.now start }
    requires inside { start.position ≤ end_of req.now }
    requires suits { F.suits starts.old (string_of req.now) (code_of req.now) }
    ensures suits { F.suits starts.new (string_of req.now) (code_of req.now) }
    ensures told { AreTold (words_of (code_of req.now)) 5 told.new }
    ensures stands { IfSome result (λ next. Standing req.now next) }
    ensures next { IfSome result
        (λ next. IsMemberFrom (asked_of req.now) (words_of (code_of req.now)) start.position next) }
    ensures none { (t : Tree) → Whole (words_of (code_of req.now)) t
        → NoneUntil (asked_of req.now) t start.position result }
{
    let beyond = starts.beyond(req, start)?;
    next_member(req, told, beyond)
}

/// The first cursor, from a given one on, at which a match may begin and which the prefilter does not exclude.
#[inline(always)]
pub(crate) fn next_start_allowed<S: StrDrive, F: Starts<S>>(
    req: &Request<'_, S>,
    first: &First,
    start: StringCursor,
    starts: &mut F,
) -> Option<StringCursor>
    requires test { TestsThere (run_of req.now).words first.now.wanted }
    requires bars { Bars (run_of req.now).words first.now }
    requires stands { Standing req.now start }
    requires inside { start.position ≤ end_of req.now }
    requires suits { F.suits starts.old (string_of req.now) (code_of req.now) }
    ensures suits { F.suits starts.new (string_of req.now) (code_of req.now) }
    ensures next { IfSome result (λ next. StartFrom (run_of req.now) start.position next) }
    ensures none { (t : Tree) → Whole (words_of (code_of req.now)) t
        → NoneUntil (asked_of req.now) t start.position result }
{
    let told = starts.beyond(req, start)?;
    next_start(req, first, told)
}
