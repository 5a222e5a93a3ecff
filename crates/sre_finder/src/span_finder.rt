//! The finder of spans: its DFAs find where the next match begins and ends, if they try match paths in the code's
//! order.

ghost use Rattle.std.specs.Prelude.{◌≡◌, true, IfOk, IfSome, OnErr, None};
ghost use Rattle.sre_finder.specs.Terms.{Refused, items_of, words_of, uni_of, string_of, start_of, code_of, stands_in};
ghost use Rattle.sre_finder.specs.Terms.{MayTakeMemory, SetsOf};
ghost use Rattle.sre_finder.specs.Finders.{EndStands};
ghost use Rattle.sre_finder.specs.Kepts.{Suits};
ghost use Rattle.sre_finder.specs.Spans.{ExactlyAny, Knows, Between, StepsFrom, ShowsStep, FindsNone};

use crate::haystack::Haystack;
use crate::kept::{Kept, Spans};
use crate::pace::{Debt, Reads, is_anchored};
use crate::prefilter::{Prefilter, SIZE_LIMIT};
use sre_automata::{FirstMatch, Seeker};
use sre_chars::string::{StrDrive, StringCursor};
use sre_code::Code;
use sre_engine::engine::{FirstSets, SreError, State, step_admitted};
use sre_patterns::{Encoding, ways_of};
use sre_request::Request;
use std::alloc::{Allocator, Global};
use std::marker::Model;
use std::mem::replace;

// The match of a step: its start, and whether the state shows it.
#[derive(Clone, Copy)]
pub(crate) struct Step {
    pub(crate) start: StringCursor,
    pub(crate) is_shown: bool,
}

// What the DFAs know of the next match.
enum Known {
    // There is none.
    Nothing,
    // Its start and its end.
    Between(StringCursor, StringCursor),
    Unknown,
}

/// DFAs that find the spans of a code's matches. If the code has no such DFAs, a [`Finder`](crate::Finder), which only
/// skips starts.
#[derive(Drop)]
pub struct SpanFinder<'c> {
    pub(crate) alloc: Global,
    pub(crate) code: Code<'c>,
    pub(crate) starts: Prefilter,
    pub(crate) spans: Spans,
    // how much its DFAs have read of this text
    pub(crate) reads: Reads,
    // whether nothing was searched in this text
    pub(crate) is_new: bool,
}

impl<'c> Model for SpanFinder<'c> {
    ghost use Rattle.sre_finder.specs.Finders.{FinderValue, Filters};
    ghost use Rattle.sre_finder.specs.Spans.{ExactlyAny};

    ghost Value = { FinderValue };

    ghost view = { λ f. record { code = f.code; encoding = f.spans.encoding; end = f.starts.end } };

    ghost invariant = { λ f. Filters f.code f.starts × ExactlyAny f.spans.encoding f.code f.spans.exact };
}

impl<'c> SpanFinder<'c> {
    /// Creates the finder of a code's spans. `encoding` is how its texts are read: `Encoding::Bytes` for bytes,
    /// `Encoding::Utf8` for a `str`, and `Encoding::Ascii` for a `str` that is ASCII up to the end of the range. In any
    /// other text the machine finds each span.
    ///
    /// The call never fails. If no DFAs find spans, it is a [`Finder`](crate::Finder) of the code, which may have no
    /// DFAs either.
    pub fn new(alloc: Global, code: Code<'c>, encoding: Encoding) -> SpanFinder<'c>
        ensures code { result.code ≡ code.entry }
        ensures encoding { result.encoding ≡ encoding }
        ensures end { result.end ≡ None }
    {
        let mut finder = SpanFinder::on_demand(alloc, code, encoding);
        finder.make();
        finder
    }

    /// As `new`, but builds the DFAs only once the machine has spent about as much time as that takes. Until then the
    /// machine finds each span. So the iteration over a short text builds nothing.
    pub fn on_demand(alloc: Global, code: Code<'c>, encoding: Encoding) -> SpanFinder<'c>
        ensures code { result.code ≡ code.entry }
        ensures encoding { result.encoding ≡ encoding }
        ensures end { result.end ≡ None }
    {
        Kept::new(encoding).into_finder(alloc, code)
    }

    // Builds the DFAs that find spans, if there are any. Then the prefilter only looks for a required literal. Without
    // them, it builds its own DFAs.
    #[inline(never)]
    fn make(&mut self)
        ensures code { self.new.code ≡ self.old.code }
        ensures encoding { self.new.encoding ≡ self.old.encoding }
        ensures end { self.new.end ≡ self.old.end }
    {
        self.spans.debt = Debt::none();
        self.spans.is_made = true;
        self.spans.exact = exact_of(self.alloc, self.code, self.spans.encoding);
        if self.spans.exact.is_none() {
            self.starts.hurry();
        } else {
            self.starts.know(self.code);
        }
    }

    // Records that the machine was run to show a span.
    #[inline(always)]
    pub(crate) fn note_shown(&mut self)
        ensures { self.new ≡ self.old }
    {
        self.spans.alone.note_shown();
    }

    /// Drops the finder, and returns what it has built for its code.
    #[inline(always)]
    pub fn into_kept(self) -> Kept
        ensures encoding { result.spans.encoding ≡ self.entry.encoding }
        ensures suits { Suits (words_of self.entry.code) (uni_of self.entry.code) result }
    {
        let SpanFinder {
            alloc: _,
            code: _,
            starts,
            spans,
            reads: _,
            is_new: _,
        } = self;
        Kept {
            starts,
            spans,
            memory: None,
        }
    }

    /// Returns whether it has DFAs that find spans. With `on_demand` that is whether they were built.
    pub fn tells_spans(&self) -> bool {
        self.spans.exact.is_some()
    }

    /// Forgets the last text. `walk` does this itself.
    pub fn reset(&mut self)
        ensures code { self.new.code ≡ self.old.code }
        ensures encoding { self.new.encoding ≡ self.old.encoding }
        ensures end { self.new.end ≡ None }
    {
        self.starts.reset();
        self.reads = Reads::new();
        self.is_new = true;
        if let Some(exact) = &mut self.spans.exact {
            exact.reset();
        }
    }

    /// Forgets the last text, before an iteration that may show no match. `walk` does this itself.
    pub fn begin_walk(&mut self)
        ensures code { self.new.code ≡ self.old.code }
        ensures encoding { self.new.encoding ≡ self.old.encoding }
        ensures end { self.new.end ≡ None }
    {
        self.reset();
        self.spans.alone.begin_walk();
    }
}

// The search for a pattern that tries the match paths of a code in their order. `None` if there is none, or if it would
// not save time.
fn exact_of(alloc: Global, code: Code<'_>, encoding: Encoding) -> Option<Seeker>
    ensures { ExactlyAny encoding code.entry result }
{
    if code.hints().prefix.is_some() {
        return None; // the search by its prefix is as fast
    }
    let Ok(Some(hir)) = ways_of(alloc, &code, encoding) else {
        return None;
    };
    if hir.min_len() == 0 || is_anchored(&hir) {
        return None; // an empty match can be excluded, which DFAs cannot express
    }
    let mut exact = Seeker::new(alloc, hir, SIZE_LIMIT)?;
    exact.make();
    if !exact.has_automata() {
        return None;
    }
    Some(exact)
}

impl<'c> SpanFinder<'c> {
    // What the DFAs know of the next match, from a cursor at the start of the range.
    fn known<S: Haystack>(&mut self, req: &Request<'_, S>, from: StringCursor) -> Known
        requires own { self.old.code ≡ code_of req.now }
        requires known { EndStands (S.stands (string_of req.now)) self.old.end }
        requires stands { stands_in req.now from (start_of req.now) }
        ensures code { self.new.code ≡ self.old.code }
        ensures encoding { self.new.encoding ≡ self.old.encoding }
        ensures known { EndStands (S.stands (string_of req.now)) self.new.end }
        ensures knows { Knows req.now result }
    {
        let _start = req.start(); // it is in the range
        if self.spans.exact.is_none() || req.match_all() {
            return Known::Unknown;
        }
        let end = self.starts.end_in(req, from);
        let text = req.string();
        let Some(hay) = text.hay(self.spans.encoding, end) else {
            return Known::Unknown;
        };
        let Some(exact) = &mut self.spans.exact else {
            return Known::Unknown;
        };
        let place = text.place_of(from);
        if !self.reads.may_match(place, exact.read()) {
            return Known::Unknown; // they read far beyond each match
        }
        match exact.first_match(hay, place) {
            FirstMatch::Nothing => Known::Nothing,
            FirstMatch::Between(first, last) => {
                let start = text.cursor_up_to(from, first, end);
                Known::Between(start, text.cursor_up_to(start, last, end))
            }
            FirstMatch::Unknown => Known::Unknown,
        }
    }

    // `step` by the machine, with the prefilter. After a match the state shows it.
    fn run<S: Haystack, A: Allocator + Copy>(
        &mut self,
        req: &mut Request<'_, S>,
        state: &mut State<A>,
        cursor: &mut StringCursor,
        sets: &mut FirstSets<A>,
    ) -> Result<Option<Step>, SreError>
        requires own { self.old.code ≡ code_of req.old }
        requires sets { SetsOf (items_of (code_of req.old)) sets.old }
        requires known { EndStands (S.stands (string_of req.old)) self.old.end }
        requires stands { stands_in req.old cursor.old (start_of req.old) }
        ensures own { self.new.code ≡ code_of req.new }
        ensures encoding { self.new.encoding ≡ self.old.encoding }
        ensures sets { SetsOf (items_of (code_of req.new)) sets.new }
        ensures known { EndStands (S.stands (string_of req.new)) self.new.end }
        ensures some { IfOk result (λ o. IfSome o (λ step. StepsFrom req.old step.start req.new)) }
        ensures shows { IfOk result (λ o. IfSome o (λ step.
            step.is_shown ≡ true → ShowsStep req.old state.new req.new)) }
        ensures none { IfOk result (λ o. o ≡ None → (req.new ≡ req.old) × FindsNone req.old) }
        ensures here { stands_in req.new cursor.new (start_of req.new) }
        ensures err { OnErr result (req.new ≡ req.old) }
        ensures refused { OnErr result (Refused A) }
        ensures literal { OnErr result (MayTakeMemory (code_of req.old)) }
    {
        let from = *cursor;
        sets.note_step(req);
        let is_found = step_admitted(req, state, cursor, &mut self.starts, sets)?;
        let reached = if is_found {
            cursor.position()
        } else {
            req.end()
        };
        self.spans
            .debt
            .pay(state.started(), reached.saturating_sub(from.position()));
        self.spans.alone.note_runs(state.started());
        if !is_found {
            return Ok(None);
        }
        let mut start = from;
        req.string()
            .skip(&mut start, state.start() - from.position());
        Ok(Some(Step {
            start,
            is_shown: true,
        }))
    }

    // Returns the next match, or `None` if there is none. Moves `cursor` and the request's start to the match's end.
    pub(crate) fn step<S: Haystack, A: Allocator + Copy>(
        &mut self,
        req: &mut Request<'_, S>,
        state: &mut State<A>,
        cursor: &mut StringCursor,
        sets: &mut FirstSets<A>,
    ) -> Result<Option<Step>, SreError>
        requires own { self.old.code ≡ code_of req.old }
        requires sets { SetsOf (items_of (code_of req.old)) sets.old }
        requires known { EndStands (S.stands (string_of req.old)) self.old.end }
        requires stands { stands_in req.old cursor.old (start_of req.old) }
        ensures own { self.new.code ≡ code_of req.new }
        ensures encoding { self.new.encoding ≡ self.old.encoding }
        ensures sets { SetsOf (items_of (code_of req.new)) sets.new }
        ensures known { EndStands (S.stands (string_of req.new)) self.new.end }
        ensures some { IfOk result (λ o. IfSome o (λ step. StepsFrom req.old step.start req.new)) }
        ensures shows { IfOk result (λ o. IfSome o (λ step.
            step.is_shown ≡ true → ShowsStep req.old state.new req.new)) }
        ensures none { IfOk result (λ o. o ≡ None → (req.new ≡ req.old) × FindsNone req.old) }
        ensures here { stands_in req.new cursor.new (start_of req.new) }
        ensures err { OnErr result (req.new ≡ req.old) }
        ensures refused { OnErr result (Refused A) }
        ensures literal { OnErr result (MayTakeMemory (code_of req.old)) }
    {
        if self.spans.debt.is_due() {
            return self.run(req, state, cursor, sets);
        }
        if !self.spans.is_made {
            self.make();
        }
        if self.spans.exact.is_none() || self.spans.alone.is_alone() {
            return self.run(req, state, cursor, sets);
        }
        // a missing literal is found before DFAs read the text
        let is_first = replace(&mut self.is_new, false);
        if is_first && self.starts.lacks_literal(req, *cursor) {
            return Ok(None);
        }
        match self.known(req, *cursor) {
            Known::Nothing => Ok(None),
            Known::Between(start, end) => {
                *cursor = end;
                req.set_must_advance(end.position() == start.position());
                req.set_start(end.position());
                Ok(Some(Step {
                    start,
                    is_shown: false,
                }))
            }
            Known::Unknown => self.run(req, state, cursor, sets),
        }
    }
}
