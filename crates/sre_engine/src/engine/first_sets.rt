//! FIRST sets of a code, computed in the course of an iteration.
//!
//! A search need not read the first code words anew if it is known what must come first in each match. With the FIRST
//! sets of all addresses the machine rejects an alternative by one character. Computing them takes the time of some
//! steps. So an iteration does it after its first steps if much of the text is left, and else after many steps. These
//! may be those of many texts.

ghost use Rattle.std.specs.Prelude.{◌≡◌, ℕ, ◌<◌, List, length};
ghost use Rattle.sre_engine.specs.Terms.{items_of, code_of};
ghost use Rattle.sre_engine.specs.FirstSets.{SetsOf, no_sets};

use crate::engine::opening::Opening;
use crate::engine::prefix::rarest_in;
use crate::engine::state::State;
use sre_chars::constants::SreOpcode;
use sre_chars::string::StrDrive;
use sre_machine::admitting::admitted_by_place;
use sre_request::{Admitted, Request};
use std::alloc::{Allocator, Global};
use std::marker::Model;

// After so many steps the first code words are read. The sets are computed then if so many characters are left in the
// range.
const FEW_STEPS: u32 = 8;

const FEW_CHARACTERS: usize = 256;

// Else the sets are computed after so many steps.
const MANY_STEPS: u32 = 64;

// They are not computed for a code of more words, so that the list takes little memory.
const MANY_WORDS: usize = 4096;

/// The FIRST sets of a code, once they are computed, and the number of the first steps so far.
#[derive(Drop)]
pub struct FirstSets<A: Allocator + Copy = Global> {
    // by address
    list: Vec<Admitted, A>,
    // how each match begins, if no hint says it
    opening: Option<Opening>,
    // the index of a confirmed prefix's rarest word
    rarest: Option<usize>,
    steps: u32,
}

impl<A: Allocator + Copy> Model for FirstSets<A> {
    ghost use Rattle.sre_engine.specs.FirstSets.{Sets};

    ghost Value = { Sets };

    ghost view = { λ sets. record { admitted = sets.list.items; opening = sets.opening } };
}

// The length word of the next alternative, if the one at this length word exists.
fn next_length(words: &[u32], place: usize) -> Option<usize> {
    let length = *words.get(place)?;
    if length == 0 {
        return None;
    }
    let _length = words.len(); // a slice has few items, so no address overflows
    Some(place + length as usize)
}

// Whether three alternatives begin at a length word.
fn has_three(words: &[u32], first: usize) -> bool {
    let Some(second) = next_length(words, first) else {
        return false;
    };
    let Some(third) = next_length(words, second) else {
        return false;
    };
    next_length(words, third).is_some()
}

// Whether there is a branch of three alternatives. Only branches read the list, and two alternatives are tested as
// quickly by their own code words. An operand may be taken for a BRANCH, which costs a list that nothing reads.
fn has_many_alternatives(words: &[u32]) -> bool {
    'place: for place in 0..words.len() {
        if words[place] == SreOpcode::BRANCH as u32 && has_three(words, place + 1) {
            return true;
        }
    }
    false
}

impl<A: Allocator + Copy> FirstSets<A> {
    /// No sets. It allocates nothing now, and later uses the state's allocator.
    pub fn new(state: &State<A>) -> FirstSets<A>
        ensures none { result ≡ no_sets }
        ensures known { (ws : List ℕ) → SetsOf ws result }
    {
        FirstSets {
            list: Vec::new(state.allocator()),
            opening: None,
            rarest: None,
            steps: 0,
        }
    }

    /// The FIRST set of each address, or an empty list if they are not computed.
    #[inline(always)]
    pub fn list(&self) -> &[Admitted]
        ensures { result.now ≡ self.now.admitted }
    {
        &self.list
    }

    // How each match begins, if that is computed.
    #[inline(always)]
    pub(crate) fn opening(&self) -> Option<Opening>
        ensures { result ≡ self.now.opening }
    {
        self.opening
    }

    // The index of a confirmed prefix's rarest word, if that is computed.
    #[inline(always)]
    pub(crate) fn rarest(&self) -> Option<usize> {
        self.rarest
    }

    /// Notes the next step of an iteration, or the next call over a text, and computes the sets after the first steps.
    #[inline(always)]
    pub fn note_step<S: StrDrive>(&mut self, req: &Request<'_, S>)
        requires { SetsOf (items_of (code_of req.now)) self.old }
        ensures { SetsOf (items_of (code_of req.now)) self.new }
    {
        if self.steps < MANY_STEPS {
            self.begin_step(req);
        }
    }

    // Notes one of the first steps. It is out of line, since there are few.
    #[inline(never)]
    fn begin_step<S: StrDrive>(&mut self, req: &Request<'_, S>)
        requires { SetsOf (items_of (code_of req.now)) self.old }
        ensures { SetsOf (items_of (code_of req.now)) self.new }
    {
        let window = req.end().saturating_sub(req.start());
        self.steps = self.steps.saturating_add(1);
        if self.steps == FEW_STEPS {
            self.open(req);
        }
        if self.steps == MANY_STEPS || (self.steps > FEW_STEPS && window >= FEW_CHARACTERS) {
            self.steps = MANY_STEPS;
            self.tell(req);
        }
    }

    // Reads what must come first in each match.
    fn open<S: StrDrive>(&mut self, req: &Request<'_, S>)
        requires { SetsOf (items_of (code_of req.now)) self.old }
        ensures { SetsOf (items_of (code_of req.now)) self.new }
    {
        let hints = req.pattern_codes().hints();
        if hints.prefix.is_some() {
            self.rarest = rarest_in(req);
        } else if !hints.first_set {
            self.opening = Some(Opening::of_code(req));
        }
    }

    // Computes the sets of all addresses if that pays. If an allocation fails the iteration continues without them.
    fn tell<S: StrDrive>(&mut self, req: &Request<'_, S>)
        requires { SetsOf (items_of (code_of req.now)) self.old }
        ensures { SetsOf (items_of (code_of req.now)) self.new }
    {
        let words = req.pattern_codes().items();
        if words.len() > MANY_WORDS || !has_many_alternatives(words) {
            return;
        }
        if let Ok(list) = admitted_by_place(*self.list.allocator(), words) {
            self.list = list;
        }
    }
}
