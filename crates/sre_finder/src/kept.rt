//! What a pattern keeps from text to text, without the code that it borrows.

ghost use Rattle.std.specs.Prelude.{◌≡◌, ℕ, List, None, IfSome};
ghost use Rattle.sre_finder.specs.Terms.{behind_block, words_of, uni_of, SetsOf, no_sets};
ghost use Rattle.sre_chars.specs.Tables.{Table};
ghost use Rattle.sre_finder.specs.Kepts.{Suits, encoding_beside};

use crate::pace::{Alone, Debt, FEW_CHARACTERS, Reads};
use crate::prefilter::Prefilter;
use crate::span_finder::SpanFinder;
use sre_automata::Seeker;
use sre_chars::string::StrDrive;
use sre_code::Code;
use sre_engine::engine::{FirstSets, State};
use sre_patterns::Encoding;
use sre_request::Request;
use std::alloc::Global;
use std::mem::replace;

/// The DFAs of a code, what the machine has still to spend before they are built, and the machine's memory. A pattern
/// that is kept for many texts owns its code and this, and takes a [`SpanFinder`] out for each text.
#[derive(Drop)]
pub struct Kept {
    pub(crate) starts: Prefilter,
    pub(crate) spans: Spans,
    pub(crate) memory: Option<Box<Memory>>,
}

/// The machine's memory for the calls of one code, and the FIRST sets of the code's addresses.
#[derive(Drop)]
pub struct Memory {
    pub state: State<Global>,
    pub sets: FirstSets<Global>,
}

impl Memory {
    /// No memory yet, and no FIRST sets. It allocates nothing.
    pub fn new(alloc: Global) -> Memory
        ensures none { result.sets ≡ no_sets }
        ensures suits { (ws : List ℕ) → SetsOf ws result.sets }
    {
        let state = State::new(alloc);
        let sets = FirstSets::new(&state);
        Memory { state, sets }
    }
}

// DFAs that find spans, if they are built.
#[derive(Drop)]
pub(crate) struct Spans {
    pub(crate) encoding: Encoding,
    pub(crate) exact: Option<Seeker>,
    // what the machine has still to spend before the DFAs are built
    pub(crate) debt: Debt,
    // whether it was tried to build them
    pub(crate) is_made: bool,
    pub(crate) alone: Alone,
}

impl Spans {
    // Records how many runs and characters a search took that found no span by DFAs.
    #[inline(always)]
    pub(crate) fn note_search(&mut self, runs: u64, characters: usize)
        ensures encoding { self.new.encoding ≡ self.old.encoding }
        ensures exact { self.new.exact ≡ self.old.exact }
    {
        self.debt.pay(runs, characters);
        self.alone.note_search(runs);
    }
}

// In which encoding a text is read, beside others that were read in one.
#[inline(always)]
fn encoding_beside(before: Encoding, encoding: Encoding) -> Encoding
    ensures { result ≡ encoding_beside before encoding }
{
    match (before, encoding) {
        (Encoding::Utf8, Encoding::Ascii) => Encoding::Utf8,
        _ => encoding,
    }
}

impl Kept {
    /// Nothing is built yet. It suits any code.
    #[inline(always)]
    pub fn new(encoding: Encoding) -> Kept
        ensures encoding { result.spans.encoding ≡ encoding }
        ensures suits { (ws : List ℕ) (uni : Table) → Suits ws uni result }
    {
        Kept {
            starts: Prefilter::new(encoding),
            spans: Spans {
                encoding,
                exact: None,
                debt: Debt::of_building(),
                is_made: false,
                alone: Alone::new(),
            },
            memory: None,
        }
    }

    /// Takes out the memory of earlier calls, if it is kept.
    #[inline(always)]
    pub fn take_memory(&mut self) -> Option<Box<Memory>>
        ensures suits { (ws : List ℕ) (uni : Table) → Suits ws uni self.old → Suits ws uni self.new }
        ensures serves { (ws : List ℕ) (uni : Table) → Suits ws uni self.old
            → IfSome result (λ m. SetsOf (behind_block ws) m.value.sets) }
    {
        replace(&mut self.memory, None)
    }

    /// Keeps the memory of a call, but frees much of it.
    #[inline(always)]
    pub fn put_memory(&mut self, memory: Box<Memory>)
        ensures suits { (ws : List ℕ) (uni : Table) → Suits ws uni self.old
            → SetsOf (behind_block ws) memory.value.sets → Suits ws uni self.new }
    {
        let mut memory = memory;
        memory.state.renew();
        self.memory = Some(memory);
    }

    /// Whether the machine alone is to search a range, which then is so short that it cannot lose much: for a literal
    /// or a code with back-references, before the DFAs are built, if there are none, and while it has found the last
    /// matches at their first starts.
    #[inline(always)]
    pub fn is_alone<S: StrDrive>(&mut self, req: &Request<'_, S>) -> bool
        ensures suits { (ws : List ℕ) (uni : Table) → Suits ws uni self.old → Suits ws uni self.new }
    {
        if req.end().saturating_sub(req.start()) > FEW_CHARACTERS {
            return false;
        }
        let code = req.pattern_codes();
        if code.refers() || code.hints().literal {
            return true;
        }
        self.spans.debt.is_due() || self.has_no_dfas() || self.spans.alone.is_alone()
    }

    // Whether it was tried to build DFAs, and there are none.
    #[inline(always)]
    fn has_no_dfas(&self) -> bool {
        let spans = &self.spans;
        spans.is_made && spans.exact.is_none() && self.starts.has_no_patterns()
    }

    /// Records how many runs and characters a search by the machine alone took.
    #[inline(always)]
    pub fn note_alone(&mut self, runs: u64, characters: usize)
        ensures suits { (ws : List ℕ) (uni : Table) → Suits ws uni self.old → Suits ws uni self.new }
    {
        self.starts.pay(runs, characters);
        self.spans.debt.pay(runs, characters);
        self.spans.alone.note_runs(runs);
    }

    /// Begins a text that is read in an encoding, in which this is then the prefilter. DFAs that read another encoding
    /// are dropped, as `take` drops them, and so is memory that is kept beside them.
    #[inline(always)]
    pub fn begin(&mut self, alloc: Global, encoding: Encoding)
        ensures suits { (ws : List ℕ) (uni : Table) → Suits ws uni self.old → Suits ws uni self.new }
        ensures end { self.new.starts.end ≡ None }
    {
        let encoding = encoding_beside(self.spans.encoding, encoding);
        if self.spans.encoding != encoding {
            self.restart(encoding);
        }
        self.starts.begin(alloc);
    }

    // Not inlined, since few calls need it, and what it moves is large.
    #[inline(never)]
    fn restart(&mut self, encoding: Encoding)
        ensures suits { (ws : List ℕ) (uni : Table) → Suits ws uni self.new }
    {
        *self = Kept::new(encoding);
    }

    /// Takes out what is kept, and returns the finder of a code with it, for a text that is read in an encoding. DFAs
    /// that read another encoding are dropped, and the finder builds its own later. But once a `str` was not ASCII, all
    /// are read as UTF-8. [`SpanFinder::into_kept`] returns what to put back.
    #[inline(always)]
    pub fn take<'c>(&mut self, alloc: Global, code: Code<'c>, encoding: Encoding) -> SpanFinder<'c>
        requires { Suits (words_of code) (uni_of code) self.old }
        ensures code { result.code ≡ code.entry }
        ensures encoding { result.encoding ≡ encoding_beside self.old.spans.encoding encoding }
        ensures end { result.end ≡ None }
        ensures suits { (ws : List ℕ) (uni : Table) → Suits ws uni self.new }
    {
        let encoding = encoding_beside(self.spans.encoding, encoding);
        let before = replace(self, Kept::new(encoding));
        let kept = if before.spans.encoding == encoding {
            before
        } else {
            Kept::new(encoding)
        };
        kept.into_finder(alloc, code)
    }

    // The finder of a code with these DFAs, or with those that it builds later.
    #[inline(always)]
    pub(crate) fn into_finder(self, alloc: Global, code: Code<'_>) -> SpanFinder<'_>
        requires { Suits (words_of code) (uni_of code) self }
        ensures code { result.code ≡ code.entry }
        ensures encoding { result.encoding ≡ self.spans.encoding }
        ensures end { result.end ≡ None }
    {
        let Kept {
            starts,
            spans,
            memory: _,
        } = self;
        let mut starts = starts;
        starts.begin(alloc);
        SpanFinder {
            alloc,
            code,
            starts,
            spans,
            reads: Reads::new(),
            is_new: true,
        }
    }
}
