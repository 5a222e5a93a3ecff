//! The prefilter without its code: it finds the next start at which a match can begin.
//!
//! It searches for a byte pattern that covers the code: first for a required literal, then by DFAs.

ghost use Rattle.std.specs.Prelude.{◌≡◌, ◌≤◌, length, IfSome, true, None};
ghost use Rattle.sre_finder.specs.Terms.{Tree, Whole, words_of, string_of, end_of, code_of, asked_of, meaning, Tells};
ghost use Rattle.sre_request.specs.Runs.{run_of, Standing};
ghost use Rattle.sre_engine.specs.Starts.{NoneUntil, StartFrom};
ghost use Rattle.sre_finder.specs.Finders.{EndStands, CoveringAny, Filters, SamePatterns, NoneLeftOfAny};

use crate::haystack::Haystack;
use crate::pace::{Pace, Reads, is_anchored, is_found_along};
use sre_automata::{Seeker, Told};
use sre_chars::string::{StrDrive, StringCursor};
use sre_code::Code;
use sre_engine::engine::Starts;
use sre_patterns::{Encoding, hir_of, starts_of};
use sre_request::Request;
use std::alloc::Global;

/// Limit on the size of the NFA from which the DFAs are built, in bytes.
pub(crate) const SIZE_LIMIT: usize = 1 << 16;

/// What a prefilter has built for a code, and where it is in a text.
pub(crate) struct Prefilter {
    // nothing is built without it
    alloc: Option<Global>,
    pub(crate) encoding: Encoding,
    // whether the code was translated to a pattern
    is_read: bool,
    pub(crate) seeker: Option<Seeker>,
    // for a code with back-references: finds a required literal of the whole pattern
    pub(crate) whole: Option<Seeker>,
    pace: Pace,
    // whether it excludes no further start in this text
    is_silent: bool,
    pub(crate) end: Option<StringCursor>,
    // how much the DFAs have read of this text
    reads: Reads,
}

// Custom `Drop`, so that callers contain one call instead of the drop of each field.
impl Drop for Prefilter {
    fn drop(self) {
        let Prefilter {
            alloc: _,
            encoding: _,
            is_read: _,
            seeker,
            whole,
            pace: _,
            is_silent: _,
            end: _,
            reads: _,
        } = self;
        drop((seeker, whole));
    }
}

impl Prefilter {
    /// Nothing is built yet.
    #[inline(always)]
    pub(crate) fn new(encoding: Encoding) -> Prefilter
        ensures encoding { result.encoding ≡ encoding }
        ensures seeker { result.seeker ≡ None }
        ensures whole { result.whole ≡ None }
        ensures end { result.end ≡ None }
    {
        Prefilter {
            alloc: None,
            encoding,
            is_read: false,
            seeker: None,
            whole: None,
            pace: Pace::new(),
            is_silent: false,
            end: None,
            reads: Reads::new(),
        }
    }

    /// Begins another text, for which it may build DFAs.
    #[inline(always)]
    pub(crate) fn begin(&mut self, alloc: Global)
        ensures same { SamePatterns self.old self.new }
        ensures end { self.new.end ≡ None }
    {
        self.alloc = Some(alloc);
        self.reset();
    }

    /// Forgets the last text.
    pub(crate) fn reset(&mut self)
        ensures same { SamePatterns self.old self.new }
        ensures end { self.new.end ≡ None }
    {
        self.end = None;
        self.reads = Reads::new();
        self.pace.begin_text();
        self.is_silent = self.has_no_patterns();
        if let Some(seeker) = &mut self.seeker {
            seeker.reset();
        }
        if let Some(whole) = &mut self.whole {
            whole.reset();
        }
    }

    /// Returns whether the code was translated, and there is no pattern to search for.
    #[inline(always)]
    pub(crate) fn has_no_patterns(&self) -> bool {
        self.is_read && self.seeker.is_none() && self.whole.is_none()
    }

    /// Returns whether the DFAs exist.
    pub(crate) fn has_automata(&self) -> bool {
        match &self.seeker {
            Some(seeker) => seeker.has_automata(),
            None => false,
        }
    }

    /// Builds the DFAs on first use from now on.
    pub(crate) fn hurry(&mut self)
        ensures same { SamePatterns self.old self.new }
        ensures end { self.new.end ≡ self.old.end }
    {
        self.pace.hurry();
    }

    /// Records a failed run of the machine.
    #[inline(always)]
    pub(crate) fn fail(&mut self)
        ensures same { SamePatterns self.old self.new }
        ensures end { self.new.end ≡ self.old.end }
    {
        self.pace.note_failed();
    }

    /// Pays for what the machine has spent without the prefilter.
    #[inline(always)]
    pub(crate) fn pay(&mut self, runs: u64, characters: usize)
        ensures same { SamePatterns self.old self.new }
        ensures end { self.new.end ≡ self.old.end }
    {
        self.pace.pay(runs, characters);
    }

    /// Builds the DFAs, if there is a pattern for them.
    pub(crate) fn make(&mut self, code: Code<'_>)
        requires { Filters code self.old }
        ensures own { Filters code.entry self.new }
        ensures encoding { self.new.encoding ≡ self.old.encoding }
        ensures end { self.new.end ≡ self.old.end }
    {
        self.know(code);
        self.hurry();
        if let Some(seeker) = &mut self.seeker {
            seeker.make();
        }
    }
}

// The search for a pattern that covers the starts of a code. `None` if it would not save time.
fn seeker_of(alloc: Global, code: Code<'_>, encoding: Encoding) -> Option<Seeker>
    ensures { CoveringAny encoding code.entry result }
{
    if is_found_along(&code) {
        return None; // the search by its prefix is as fast
    }
    let Ok(Some(hir)) = starts_of(alloc, &code, encoding) else {
        return None;
    };
    if hir.min_len() == 0 || is_anchored(&hir) {
        return None; // it can match anywhere, or only in one place
    }
    Seeker::new(alloc, hir, SIZE_LIMIT)
}

// The search for a required literal of a code with back-references. The pattern of its starts ends at the first
// back-reference, so it may lack a literal that follows.
fn whole_of(alloc: Global, code: Code<'_>, encoding: Encoding) -> Option<Seeker>
    ensures { CoveringAny encoding code.entry result }
{
    if !code.refers() || is_found_along(&code) {
        return None;
    }
    let Ok(Some(hir)) = hir_of(alloc, &code, encoding) else {
        return None;
    };
    Seeker::new(alloc, hir, SIZE_LIMIT)
}

// Whether no match is left from `start` on, because a required literal is missing. `false` without a pattern.
fn is_over(whole: &mut Option<Seeker>, hay: &[u8], start: usize) -> bool
    requires { start ≤ length hay.now }
    ensures over { result ≡ true → NoneLeftOfAny hay.now whole.old start }
    ensures same { whole.new ≡ whole.old }
{
    match whole {
        Some(whole) => whole.has_none_left(hay, start),
        None => false,
    }
}

// Where the next match can begin, at `at` or after it. Looks for the required literal first, then runs the DFAs if
// they may read more.
fn next_possible(
    seeker: &mut Seeker,
    pace: &mut Pace,
    reads: &mut Reads,
    hay: &[u8],
    at: usize,
) -> Told
    requires { at ≤ length hay.now }
    ensures told { Tells hay.now (meaning seeker.old) at result }
    ensures same { seeker.new ≡ seeker.old }
{
    if seeker.has_none_left(hay, at) {
        return Told::Nothing;
    }
    if !pace.may_read(reads, at, seeker.read()) {
        return Told::From(at);
    }
    seeker.make();
    seeker.next_from(hay, at)
}

impl Prefilter {
    // The cursor at the end of the range. It is found once for each text, from a cursor in the range.
    #[inline(always)]
    pub(crate) fn end_in<S: StrDrive>(
        &mut self,
        req: &Request<'_, S>,
        from: StringCursor,
    ) -> StringCursor
        requires known { EndStands (S.stands (string_of req.now)) self.old.end }
        requires stands { Standing req.now from }
        requires inside { from.position ≤ end_of req.now }
        ensures end { result.position ≡ end_of req.now }
        ensures stands { Standing req.now result }
        ensures same { SamePatterns self.old self.new }
        ensures known { EndStands (S.stands (string_of req.now)) self.new.end }
    {
        if let Some(end) = self.end {
            if end.position() == req.end() {
                return end;
            }
        }
        let mut end = from;
        req.string().skip(&mut end, req.end() - from.position());
        self.end = Some(end);
        end
    }

    // Whether no match begins at a cursor or after it, because a required literal is missing. `false` if none is known.
    pub(crate) fn lacks_literal<S: Haystack>(
        &mut self,
        req: &Request<'_, S>,
        from: StringCursor,
    ) -> bool
        requires own { Filters (code_of req.now) self.old }
        requires known { EndStands (S.stands (string_of req.now)) self.old.end }
        requires stands { Standing req.now from }
        requires inside { from.position ≤ end_of req.now }
        ensures same { SamePatterns self.old self.new }
        ensures known { EndStands (S.stands (string_of req.now)) self.new.end }
        ensures none { result ≡ true → (t : Tree) → Whole (words_of (code_of req.now)) t
            → NoneUntil (asked_of req.now) t from.position None }
    {
        let end = self.end_in(req, from);
        let text = req.string();
        let Some(hay) = text.hay(self.encoding, end) else {
            return false;
        };
        is_over(&mut self.seeker, hay, text.place_of(from))
    }

    // Translates the code to a pattern, if that was not tried before.
    #[inline(always)]
    pub(crate) fn know(&mut self, code: Code<'_>)
        requires { Filters code self.old }
        ensures own { Filters code.entry self.new }
        ensures encoding { self.new.encoding ≡ self.old.encoding }
        ensures end { self.new.end ≡ self.old.end }
    {
        if !self.is_read {
            self.read(code);
        }
    }

    // Translates the code to a pattern. Not inlined: it is called once, and its large frame is cleared at each call.
    #[inline(never)]
    fn read(&mut self, code: Code<'_>)
        requires { Filters code self.old }
        ensures own { Filters code.entry self.new }
        ensures encoding { self.new.encoding ≡ self.old.encoding }
        ensures end { self.new.end ≡ self.old.end }
    {
        let Some(alloc) = self.alloc else {
            return;
        };
        self.is_read = true;
        self.seeker = seeker_of(alloc, code, self.encoding);
        self.whole = whole_of(alloc, code, self.encoding);
    }

    // The first start at or after a cursor that may have a match. `None` if there is none.
    #[inline(never)]
    fn ask<S: Haystack>(&mut self, req: &Request<'_, S>, from: StringCursor) -> Option<StringCursor>
        requires own { Filters (code_of req.now) self.old }
        requires known { EndStands (S.stands (string_of req.now)) self.old.end }
        requires stands { Standing req.now from }
        requires inside { from.position ≤ end_of req.now }
        ensures own { Filters (code_of req.now) self.new }
        ensures encoding { self.new.encoding ≡ self.old.encoding }
        ensures known { EndStands (S.stands (string_of req.now)) self.new.end }
        ensures next { IfSome result (λ next. StartFrom (run_of req.now) from.position next) }
        ensures none { (t : Tree) → Whole (words_of (code_of req.now)) t
            → NoneUntil (asked_of req.now) t from.position result }
    {
        self.know(req.pattern_codes());
        let end = self.end_in(req, from);
        let text = req.string();
        let Some(hay) = text.hay(self.encoding, end) else {
            return Some(from);
        };
        let start = text.place_of(from);
        if is_over(&mut self.whole, hay, start) {
            return None;
        }
        let Some(seeker) = &mut self.seeker else {
            self.is_silent = true;
            return Some(from);
        };
        let told = next_possible(seeker, &mut self.pace, &mut self.reads, hay, start);
        self.is_silent = seeker.lacks_automata();
        match told {
            Told::Nothing => None,
            Told::From(offset) => Some(text.cursor_up_to(from, offset, end)),
        }
    }
}

impl<S: Haystack> Starts<S> for Prefilter {
    ghost suits = { λ p string code. Filters code p × EndStands (S.stands string) p.end };

    #[inline(always)]
    fn beyond(&mut self, req: &Request<'_, S>, from: StringCursor) -> Option<StringCursor> {
        if self.is_silent || !self.pace.asks(from.position()) {
            return Some(from);
        }
        self.ask(req, from)
    }

    #[inline(always)]
    fn tells(&self) -> bool {
        !self.is_silent
    }

    #[inline(always)]
    fn note_failed(&mut self) {
        self.fail();
    }
}
