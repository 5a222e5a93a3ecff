//! The lazy DFAs of a byte pattern: where its next match can begin, and which match that is.
//!
//! They are the kit's. A forward DFA finds the end of the leftmost match, and a reverse DFA the least start of a match
//! with that end. Both are built while they read, with bounded memory. If that does not suffice or an allocation fails,
//! the answer is that nothing is known.
#![tactic(auto)]

ghost use Rattle.std.specs.Prelude.{◌≡◌, ◌≤◌, IfSome, length};
ghost use Rattle.sre_automata.specs.Terms.{Re, meaning, Implements, HasPaths};
ghost use Rattle.sre_automata.specs.Told.{Tells, FindsFirst, NoneBetween, EndsAt};

use regex_compile::compile;
use regex_dfa::{Dfa, End, Forward, Reverse, Start};
use regex_hir::Hir;
use std::alloc::Global;
use std::marker::Model;

mod needle;
mod seeker;

pub use needle::Needle;
pub use seeker::Seeker;

/// Where the next match of a pattern can begin, as far as its DFAs know. Offsets count bytes.
#[derive(Clone, Copy)]
pub enum Told {
    /// No match is left.
    Nothing,
    /// No match begins before this offset.
    From(usize),
}

/// The first match of a pattern, as far as its DFAs know. Offsets count bytes.
#[derive(Clone, Copy)]
pub enum FirstMatch {
    /// There is none.
    Nothing,
    /// It goes from the first offset to the second.
    Between(usize, usize),
    /// The DFAs do not know.
    Unknown,
}

/// The lazy DFAs of a pattern, with the states that are built so far.
pub struct Automata {
    dfa: Dfa,
    forward: Forward,
    reverse: Reverse,
    read: usize,
    // number of next starts to try one by one, before a search
    beside: usize,
}

// A match that begins less than so many bytes behind the last one is beside it.
const BESIDE: usize = 2;

// Custom `Drop`, so that callers contain one call. A derived one would drop each table in each caller.
impl Drop for Automata {
    fn drop(self) {
        let Automata {
            dfa,
            forward,
            reverse,
            read: _,
            beside: _,
        } = self;
        drop((dfa, forward, reverse));
    }
}

impl Model for Automata {
    ghost use Rattle.regex_nfa.specs.declared.nfa.Nfa.{Nfa};
    ghost use Rattle.regex_dfa.specs.Search.{IsForwardFor, IsReverseFor};

    ghost Value = { Nfa };

    ghost view = { λ a. a.dfa.nfa };

    ghost invariant = { λ a. IsForwardFor a.forward a.dfa × IsReverseFor a.reverse a.dfa };
}

impl Automata {
    ghost use Rattle.std.specs.Prelude.{false};
    ghost use Rattle.regex_nfa.specs.Paths.{Accepts};
    ghost use Rattle.regex_dfa.specs.Search.{IsEnd, IsLeast, end_from, entry};

    /// Compiles a pattern to an NFA and prepares its DFAs. Returns `None` if the NFA takes more than `size_limit`
    /// bytes, or if an allocation failed.
    pub fn new(alloc: Global, hir: &Hir, size_limit: usize) -> Option<Automata>
        ensures paths { IfSome result (λ automata. HasPaths automata (meaning hir.now)) }
        ensures matches { IfSome result (λ automata. Implements automata (meaning hir.now)) }
    {
        let Ok(nfa) = compile(alloc, hir, 1, size_limit) else {
            return None;
        };
        let Ok(dfa) = Dfa::new(alloc, nfa) else {
            return None;
        };
        let stops_when_idle = false;
        let Ok(forward) = Forward::new(alloc, &dfa, stops_when_idle) else {
            drop(dfa);
            return None;
        };
        let Ok(reverse) = Reverse::new(alloc, &dfa) else {
            drop((dfa, forward));
            return None;
        };
        Some(Automata {
            dfa,
            forward,
            reverse,
            read: 0,
            beside: 0,
        })
    }

    /// Returns the number of bytes read, in all searches together.
    pub fn read(&self) -> usize {
        self.read
    }

    /// The end of the leftmost match that begins at or after an offset; if `anchored`, of the one that begins there.
    fn end_of(&mut self, hay: &[u8], start: usize, anchored: bool) -> End
        requires { start ≤ length hay.now }
        ensures end { IsEnd self.old hay.now start (length hay.now) anchored false
            (end_from self.old hay.now (length hay.now) (entry self.old anchored) start) result }
        ensures same { self.new ≡ self.old }
    {
        let earliest = false;
        let end = self
            .forward
            .find_end(&self.dfa, hay, start, hay.len(), anchored, earliest);
        self.read = self
            .read
            .saturating_add(self.forward.reached().saturating_sub(start));
        end
    }

    /// The least start, from `start` on, of a match that ends at `end`.
    fn least_start(&mut self, hay: &[u8], start: usize, end: usize) -> Start
        requires ordered { start ≤ end }
        requires within { end ≤ length hay.now }
        ensures least { IsLeast (Accepts self.old hay.now end end self.old.start) start end result }
        ensures same { self.new ≡ self.old }
    {
        let found = self.reverse.find_start(&self.dfa, hay, start, end);
        self.read = self.read.saturating_add(end - start);
        found
    }

    // Tries the next `beside` offsets one by one. Returns the first at which a match begins, and the end of that match;
    // else an offset before which none begins.
    fn end_beside(&mut self, hay: &[u8], start: usize) -> (usize, Option<usize>)
        requires { start ≤ length hay.now }
        ensures inside { result.0 ≤ length hay.now }
        ensures none { NoneBetween self.old hay.now start result.0 }
        ensures end { IfSome result.1 (EndsAt self.old hay.now result.0) }
        ensures same { self.new ≡ self.old }
    {
        let last = start.saturating_add(self.beside).min(hay.len());
        let mut at = start;
        'beside: while at < last {
            match self.end_of(hay, at, true) {
                End::At(end) => return (at, Some(end)),
                End::NoMatch => at += 1,
                _ => break,
            }
        }
        (at, None)
    }

    /// Returns where the next match can begin, at the offset `start` or after it.
    pub fn next_from(&mut self, hay: &[u8], start: usize) -> Told
        requires { start ≤ length hay.now }
        ensures told { (re : Re) → HasPaths self.old re → Tells hay.now re start result }
        ensures same { self.new ≡ self.old }
    {
        match self.end_of(hay, start, false) {
            End::NoMatch => Told::Nothing,
            End::At(end) => match self.least_start(hay, start, end) {
                Start::At(from) => Told::From(from),
                _ => Told::From(start),
            },
            _ => Told::From(start),
        }
    }

    /// Returns the leftmost match that begins at the offset `start` or after it. The DFAs must implement the pattern;
    /// it does not suffice that they find all its matches.
    pub fn first_match(&mut self, hay: &[u8], start: usize) -> FirstMatch
        requires { start ≤ length hay.now }
        ensures finds { (re : Re) → Implements self.old re → FindsFirst hay.now re start result }
        ensures same { self.new ≡ self.old }
    {
        let (at, beside) = self.end_beside(hay, start);
        if let Some(end) = beside {
            self.beside = at - start + 1;
            return FirstMatch::Between(at, end);
        }
        match self.end_of(hay, at, false) {
            End::NoMatch => FirstMatch::Nothing,
            End::At(end) => match self.least_start(hay, at, end) {
                Start::At(from) => {
                    let gap = from - start;
                    self.beside = if gap < BESIDE { gap + 1 } else { 0 };
                    FirstMatch::Between(from, end)
                }
                _ => FirstMatch::Unknown,
            },
            _ => FirstMatch::Unknown,
        }
    }
}
