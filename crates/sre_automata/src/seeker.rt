//! The search for a pattern: first for a required literal, then by DFAs, which are built on first use.

ghost use Rattle.std.specs.Prelude.{◌≡◌, ◌≤◌, length, true, IfSome};
ghost use Rattle.sre_automata.specs.Terms.{meaning};
ghost use Rattle.sre_automata.specs.Told.{Tells, FindsFirst, NoneLeft};

use crate::needle::{Needle, lacks};
use crate::{Automata, FirstMatch, Told};
use regex_hir::Hir;
use std::alloc::Global;
use std::marker::Model;

/// A pattern to search for, with its required literal and its DFAs. It is small, and what it has is in a box.
pub struct Seeker {
    parts: Box<Parts>,
}

struct Parts {
    alloc: Global,
    hir: Hir,
    size_limit: usize,
    needle: Option<Needle>,
    is_made: bool,
    automata: Option<Automata>,
}

// Custom `Drop`, so that callers contain one call. A derived one would drop each table in each caller.
impl Drop for Parts {
    fn drop(self) {
        let Parts {
            alloc: _,
            hir,
            size_limit: _,
            needle,
            is_made: _,
            automata,
        } = self;
        drop((hir, needle, automata));
    }
}

// As that of `Parts`.
impl Drop for Seeker {
    fn drop(self) {
        let Seeker { parts } = self;
        drop(parts);
    }
}

impl Model for Seeker {
    ghost use Rattle.std.specs.Coded.{codes};
    ghost use Rattle.regex_hir.specs.contracts.hir.Hir as pattern;
    ghost use Rattle.regex_hir.specs.declared.hir.Hir.{Hir};
    ghost use Rattle.std.specs.Prelude.{IfSome};
    ghost use Rattle.regex_hir.specs.Meaning.{meaning};
    ghost use Rattle.sre_automata.specs.Told.{ContainsAny, Seeks};

    ghost Value = { Hir };

    ghost coded = { Prim.hlevel (codes, pattern.the_row.coded) };

    ghost view = { λ s. s.parts.value.hir };

    ghost invariant = { λ s. let parts = s.parts.value in ContainsAny (meaning parts.hir) parts.needle
        × IfSome parts.automata (Seeks (meaning parts.hir)) };
}

impl Seeker {
    /// Prepares the search for a pattern. No DFA is built yet. The NFA from which they are built later takes at most
    /// `size_limit` bytes. `None` if an allocation failed.
    pub fn new(alloc: Global, hir: Hir, size_limit: usize) -> Option<Seeker>
        ensures { IfSome result (λ seeker. seeker ≡ hir) }
    {
        let needle = Needle::of(alloc, &hir);
        let parts = Parts {
            alloc,
            hir,
            size_limit,
            needle,
            is_made: false,
            automata: None,
        };
        match Box::new(alloc, parts) {
            Ok(parts) => Some(Seeker { parts }),
            Err(_) => None,
        }
    }

    /// Builds the DFAs if that was not tried before. There are none if the NFA would be too large, or if an allocation
    /// failed.
    #[inline(always)]
    pub fn make(&mut self)
        ensures { self.new ≡ self.old }
    {
        if !self.parts.is_made {
            self.make_now();
        }
    }

    // Not inlined: its frame is large, and cleared at each call.
    #[inline(never)]
    fn make_now(&mut self)
        ensures { self.new ≡ self.old }
    {
        let parts = &mut *self.parts;
        parts.is_made = true;
        parts.automata = Automata::new(parts.alloc, &parts.hir, parts.size_limit);
    }

    /// Returns whether the DFAs are built.
    #[inline(always)]
    pub fn has_automata(&self) -> bool {
        self.parts.automata.is_some()
    }

    /// Returns whether building the DFAs was tried and failed.
    #[inline(always)]
    pub fn lacks_automata(&self) -> bool {
        self.parts.is_made && self.parts.automata.is_none()
    }

    /// Returns the number of bytes that the DFAs have read, in all searches together.
    #[inline(always)]
    pub fn read(&self) -> usize {
        match &self.parts.automata {
            Some(automata) => automata.read(),
            None => 0,
        }
    }

    /// Forgets the last text.
    pub fn reset(&mut self)
        ensures { self.new ≡ self.old }
    {
        if let Some(needle) = &mut self.parts.needle {
            needle.reset();
        }
    }

    /// Returns `true` if no match begins at the offset `start` or after it, because the required literal does not
    /// occur. `false` says nothing.
    #[inline(always)]
    pub fn has_none_left(&mut self, hay: &[u8], start: usize) -> bool
        requires { start ≤ length hay.now }
        ensures none { result ≡ true → NoneLeft hay.now (meaning self.old) start }
        ensures same { self.new ≡ self.old }
    {
        lacks(&mut self.parts.needle, hay, start)
    }

    /// Returns where the next match can begin, at the offset `start` or after it. Without DFAs that is `start`.
    #[inline(always)]
    pub fn next_from(&mut self, hay: &[u8], start: usize) -> Told
        requires { start ≤ length hay.now }
        ensures told { Tells hay.now (meaning self.old) start result }
        ensures same { self.new ≡ self.old }
    {
        match &mut self.parts.automata {
            Some(automata) => automata.next_from(hay, start),
            None => Told::From(start),
        }
    }

    /// Returns the leftmost match that begins at the offset `start` or after it, if the literal and the DFAs determine
    /// it.
    #[inline(always)]
    pub fn first_match(&mut self, hay: &[u8], start: usize) -> FirstMatch
        requires { start ≤ length hay.now }
        ensures finds { FindsFirst hay.now (meaning self.old) start result }
        ensures same { self.new ≡ self.old }
    {
        if self.has_none_left(hay, start) {
            return FirstMatch::Nothing;
        }
        match &mut self.parts.automata {
            Some(automata) => automata.first_match(hay, start),
            None => FirstMatch::Unknown,
        }
    }
}
