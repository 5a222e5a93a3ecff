//! Checked bytecode as a view: [`Code`].
//!
//! A [`Code`] is a view of bytecode to which the grammar (`Grammar` of sre_model) relates a tree, and of Unicode
//! tables. The grammar relates at most one tree to it, and demands only a valid skip of an INFO block.
//!
//! [`Code::check`] reads the items once from left to right, with an explicit stack of open parts. On the way it adds up
//! the least width of a match. A scan without a stack then computes [`Code::refers`], [`Code::asked_from`] and
//! [`Code::longest_lookbehind`]. At last the claims of the INFO block are compared with the first items.

ghost use Rattle.std.specs.Prelude.{◌≡◌, ◌≢◌, ◌≤◌, ◌-◌, ◌^◌, false, length, IfOk, IfErr, OnOk, IfSome, None, min};
ghost use Rattle.sre_code.specs.Terms.{Tree, Whole, marks_in_regions, IsCode, behind_block, Refused};
ghost use Rattle.sre_model.specs.References as references;
ghost use Rattle.sre_model.specs.LooksBehind as looks_behind;
ghost use Rattle.sre_code.specs.Hinted.{Confirmed};
ghost use Rattle.sre_code.specs.Scans.{IsSummary};
ghost use Rattle.sre_model.specs.Grammar.{AreItems, HasOneTree};
ghost use Rattle.sre_code.specs.Refusals.{place_of};
ghost use Rattle.sre_code.specs.StepBounds.{IsStepBound, HasNoStepBound};
ghost use Rattle.sre_code.specs.MostSlots.{AreMostSlots, HasTooManySlots};

mod block;
pub(crate) mod borders;
mod bounds;
mod branch;
mod character;
pub(crate) mod check;
mod claims;
mod condition;
mod descent;
mod error;
mod first_set;
mod item;
mod part;
mod prefix;
mod prices;
mod region;
mod repeat;
mod set;
mod slots;
mod step;
mod summary;
mod words;

use check::check_in;
pub use error::CodeError;
use sre_chars::string::{LentTable, UniTable};
use std::alloc::Global;
use summary::{Summary, summarize};

/// Search hints: what the INFO block claims and the tree confirms. A hint is present exactly if it is confirmed.
#[derive(Clone, Copy, PartialEq, Eq, Debug)]
pub struct Hints {
    /// The least width that the block claims: no match has fewer characters.
    pub width: Option<u32>,
    /// The length of the literal prefix of each match, and how many of its characters a match need not test again.
    pub prefix: Option<(u32, u32)>,
    /// Whether the whole code is that prefix.
    pub literal: bool,
    /// Whether each match begins with a character of the set in the INFO block.
    pub first_set: bool,
}

/// A view of checked bytecode and Unicode tables, with confirmed hints.
#[derive(Clone, Copy)]
pub struct Code<'a> {
    words: &'a [u32],
    items: &'a [u32],
    uni: &'a LentTable<'a>,
    hints: Hints,
    refers: bool,
    asked_from: u32,
    longest_lookbehind: u32,
    ghost behind: { items.now ≡ behind_block words.now },
    ghost scanned: { (tree : Tree) → Whole words.now tree → refers ≡ references.refers tree },
    ghost asked: { (tree : Tree) → Whole words.now tree → asked_from ≡ references.asked_from tree },
    ghost counted: { (tree : Tree) → Whole words.now tree → references.refers tree ≡ false
        → longest_lookbehind ≡ looks_behind.longest_lookbehind tree },
    pub ghost checked: { ∥ ((tree : Tree) × Whole words.now tree × Confirmed words.now uni.now tree hints) ∥₁ },
}

impl<'a> Code<'a> {
    ghost use Rattle.sre_code.specs.Codes.{words_of, items_of, uni_of, hints_of};

    /// Checks bytecode against the grammar.
    ///
    /// It returns `Ok` only if the grammar relates a tree to `words`, and an error other than [`CodeError::Memory`]
    /// only if it relates none.
    ///
    /// ```
    /// // The bytecode of `a`: a literal, and SUCCESS.
    /// let uni = UniTable::ascii(alloc);
    /// let code = Code::check(alloc, &[16, 97, 1], &uni)?;
    /// assert!(code.items().len() == 3 && !code.refers());
    /// assert!(Code::check(alloc, &[16], &uni).is_err());
    /// ```
    ///
    /// # Errors
    ///
    /// [`CodeError`] names a fault and the address of the word at which it was seen; if there are several, any of them.
    /// [`CodeError::Memory`], if an allocation for the check's stack failed.
    pub fn check(alloc: Global, words: &'a [u32], uni: &'a UniTable) -> Result<Code<'a>, CodeError>
        ensures words { IfOk result (λ code. words_of code ≡ words.now) }
        ensures uni { IfOk result (λ code. uni_of code ≡ uni.now) }
        ensures tree { OnOk result (IsCode words.now) }
        ensures refused { IfErr result (λ e. e ≢ CodeError.Memory → (tree : Tree) → ¬ (Whole words.now tree)) }
        ensures place { IfErr result (λ e. place_of e ≤ length words.now) }
        ensures grows { IfErr result (λ e. e ≡ CodeError.Memory → Refused Global) }
    {
        Code::check_lent(alloc, words, uni)
    }

    /// Checks bytecode as [`Code::check`] does, with Unicode tables whose lists the caller lends.
    ///
    /// # Errors
    ///
    /// Those of [`Code::check`].
    pub fn check_lent(
        alloc: Global,
        words: &'a [u32],
        uni: &'a LentTable<'a>,
    ) -> Result<Code<'a>, CodeError>
        ensures words { IfOk result (λ code. words_of code ≡ words.now) }
        ensures uni { IfOk result (λ code. uni_of code ≡ uni.now) }
        ensures tree { OnOk result (IsCode words.now) }
        ensures refused { IfErr result (λ e. e ≢ CodeError.Memory → (tree : Tree) → ¬ (Whole words.now tree)) }
        ensures place { IfErr result (λ e. place_of e ≤ length words.now) }
        ensures grows { IfErr result (λ e. e ≡ CodeError.Memory → Refused Global) }
    {
        check_in(alloc, words, uni)
    }

    /// A view of bytecode that a check accepted before, built from the results of that check. It checks nothing, in
    /// constant time.
    ///
    /// `hints`, `refers`, `asked_from` and `longest_lookbehind` are what [`Code::hints`], [`Code::refers`],
    /// [`Code::asked_from`] and [`Code::longest_lookbehind`] returned for a code of the same bytecode and an equal
    /// table.
    #[inline]
    pub fn from_checked(
        words: &'a [u32],
        uni: &'a LentTable<'a>,
        hints: Hints,
        refers: bool,
        asked_from: u32,
        longest_lookbehind: u32,
    ) -> Code<'a>
        requires checked { ∥ ((tree : Tree) × Whole words.now tree × Confirmed words.now uni.now tree hints) ∥₁ }
        requires scanned { (tree : Tree) → Whole words.now tree → refers ≡ references.refers tree }
        requires asked { (tree : Tree) → Whole words.now tree → asked_from ≡ references.asked_from tree }
        requires counted { (tree : Tree) → Whole words.now tree → references.refers tree ≡ false
            → longest_lookbehind ≡ looks_behind.longest_lookbehind tree }
        ensures words { words_of result ≡ words.now }
        ensures uni { uni_of result ≡ uni.now }
        ensures hints { hints_of result ≡ hints }
    {
        let items = match block::length(words) {
            Ok(length) => words.split_at(length).1,
            Err(_) => words,
        };
        Code {
            words,
            items,
            uni,
            hints,
            refers,
            asked_from,
            longest_lookbehind,
        }
    }

    /// The bytecode, to which the grammar relates exactly one tree.
    #[inline(always)]
    pub fn words(&self) -> &'a [u32]
        ensures same { result.now ≡ words_of self.now }
        ensures tree { IsCode result.now }
        ensures one { HasOneTree result.now }
        ensures cut { (tree : Tree) → Whole result.now tree → Whole (behind_block result.now) tree }
    {
        self.words
    }

    /// The bytecode after the INFO block, or all of it if there is no block. By itself it is a code of the same tree.
    #[inline(always)]
    pub fn items(&self) -> &'a [u32]
        ensures same { result.now ≡ items_of self.now }
        ensures tree { AreItems result.now }
    {
        self.items
    }

    /// The Unicode tables.
    #[inline(always)]
    pub fn uni(&self) -> &'a LentTable<'a>
        ensures { result.now ≡ uni_of self.now }
    {
        self.uni
    }

    /// The search hints, exactly those that the tree confirms.
    #[inline(always)]
    pub fn hints(&self) -> Hints
        ensures same { result ≡ hints_of self.now }
        ensures confirmed { (tree : Tree) → Whole (words_of self.now) tree
            → Confirmed (words_of self.now) (uni_of self.now) tree result }
    {
        self.hints
    }

    /// Whether the code has a back-reference or a conditional. If it has none, the captures at a position do not change
    /// what the items match from there.
    #[inline(always)]
    pub fn refers(&self) -> bool
        ensures { (tree : Tree) → Whole (words_of self.now) tree → result ≡ references.refers tree }
    {
        self.refers
    }

    /// The least group that a back-reference of the code refers to, counted from 0. It is 0 if the code has a
    /// conditional, and 4294967295 if it has neither. Captures of lesser groups, which are the slots below twice this
    /// number, do not change what the items match.
    #[inline(always)]
    pub fn asked_from(&self) -> u32
        ensures { (tree : Tree) → Whole (words_of self.now) tree → result ≡ references.asked_from tree }
    {
        self.asked_from
    }

    // What one scan computes of the items.
    #[inline(always)]
    fn summary(&self) -> Summary
        ensures { (tree : Tree) → Whole (words_of self.now) tree → IsSummary tree result }
    {
        summarize(self.items())
    }

    /// The greatest group that a back-reference of the code refers to, counted from 0. It is 4294967295 if the code has
    /// a conditional, and 0 if it has neither.
    ///
    /// Each call scans the bytecode, in linear time. The machine calls it at most once a search, when it first memoizes
    /// failures under live captures.
    ///
    /// ```
    /// // The bytecode of `(a)(b)\1`, which refers to the first of its two groups.
    /// let words = [17, 0, 16, 97, 17, 1, 17, 2, 16, 98, 17, 3, 11, 0, 1];
    /// let code = Code::check(alloc, &words, &uni)?;
    /// assert!(code.asked_from() == 0 && code.asked_to() == 0);
    /// ```
    pub fn asked_to(&self) -> u32
        ensures { (tree : Tree) → Whole (words_of self.now) tree
            → result ≡ min references.no_group (references.asked_to tree) }
    {
        self.summary().to
    }

    /// The length, in characters, of the longest lookbehind of the code; 0 if it has none. It means nothing if the code
    /// refers to groups.
    ///
    /// ```
    /// // The bytecode of `(?<=ab)(?<!c)`.
    /// let words = [4, 7, 2, 16, 97, 16, 98, 1, 5, 5, 1, 16, 99, 1, 1];
    /// assert_eq!(Code::check(alloc, &words, &uni)?.longest_lookbehind(), 2);
    /// ```
    #[inline(always)]
    pub fn longest_lookbehind(&self) -> u32
        ensures { (tree : Tree) → Whole (words_of self.now) tree → references.refers tree ≡ false
            → result ≡ looks_behind.longest_lookbehind tree }
    {
        self.longest_lookbehind
    }

    /// Whether a capture is set inside an atomic scope: an atomic group, a lookaround or a possessive loop. `false` is
    /// always right. `true` may be wrong only if the code has a back-reference or a conditional: then an operand may be
    /// taken for an atomic scope or for a MARK.
    ///
    /// Each call scans the bytecode, in linear time. The machine calls it at most once a search, before it memoizes the
    /// ends of atomic scopes.
    ///
    /// ```
    /// // The bytecode of `(?>(a))`, with a group inside an atomic one, and of `((?>a))`, with a group around one.
    /// let inside = Code::check(alloc, &[27, 8, 17, 0, 16, 97, 17, 1, 1, 1], &uni)?;
    /// let around = Code::check(alloc, &[17, 0, 27, 4, 16, 97, 1, 17, 1, 1], &uni)?;
    /// assert!(inside.regions_set_marks() && !around.regions_set_marks());
    /// ```
    pub fn regions_set_marks(&self) -> bool
        ensures none { result ≡ false → (tree : Tree) → Whole (words_of self.now) tree → marks_in_regions tree ≡ false }
        ensures told { (tree : Tree) → Whole (words_of self.now) tree → references.refers tree ≡ false
            → result ≡ marks_in_regions tree }
    {
        summary::regions_set_marks(self.items())
    }

    /// The sum of the distances, in characters, that the lookbehinds of the code go back, at most 2^64 - 1. From no
    /// position does the code read further back. The sum means nothing if the code refers to groups.
    ///
    /// Each call scans the bytecode, in linear time. The machine calls it at most once a search, before it memoizes
    /// failures.
    ///
    /// ```
    /// // The bytecode of `(?<=ab)(?<!c)`.
    /// let words = [4, 7, 2, 16, 97, 16, 98, 1, 5, 5, 1, 16, 99, 1, 1];
    /// assert_eq!(Code::check(alloc, &words, &uni)?.looks_back(), 3);
    /// ```
    pub fn looks_back(&self) -> usize
        ensures { (tree : Tree) → Whole (words_of self.now) tree → references.refers tree ≡ false
            → result ≡ min (looks_behind.backs tree) (2 ^ 64 - 1) }
    {
        self.summary().backs
    }

    /// The greatest number of counter states at an address: the product of the states of the loops around it. Those of
    /// a possessive loop are not multiplied with those of loops inside it, since its body is matched apart. A loop has
    /// two states for each count from 0 to its greatest count, or to its least count if there is no limit. Failures are
    /// memoized for up to 16,777,216 counter states.
    ///
    /// Returns `None` if there are more, or if the code has a back-reference or a conditional. Also if it has a
    /// possessive loop, or an atomic group or lookaround with a branch, a single-character repeat or a loop inside, and
    /// an atomic scope sets a capture (`regions_set_marks`). Each call scans the bytecode.
    ///
    /// ```
    /// // The bytecode of `(?:(?:ab)+c){1,5}`, whose loops have 4 and 12 counter states.
    /// assert_eq!(code.most_slots(), Some(48));
    /// // The bytecode of `(?:(?=a).)+`: the lookahead has no branch, repeat or loop, and the loop has 4 states.
    /// let words = [23, 10, 1, 4294967295, 4, 5, 0, 16, 97, 1, 2, 18, 1];
    /// assert_eq!(Code::check(alloc, &words, &uni)?.most_slots(), Some(4));
    /// // The bytecode of `(?>(?:ab)+)`, and of `(?>(a)b+)`, which sets a capture inside.
    /// let words = [27, 11, 23, 7, 1, 4294967295, 16, 97, 16, 98, 18, 1, 1];
    /// assert_eq!(Code::check(alloc, &words, &uni)?.most_slots(), Some(4));
    /// let words = [27, 15, 17, 0, 16, 97, 17, 1, 24, 6, 1, 4294967295, 16, 98, 1, 1, 1];
    /// assert_eq!(Code::check(alloc, &words, &uni)?.most_slots(), None);
    /// ```
    pub fn most_slots(&self) -> Option<u32>
        ensures some { IfSome result (λ n. (tree : Tree) → Whole (words_of self.now) tree → AreMostSlots n tree) }
        ensures none { result ≡ None → (tree : Tree) → Whole (words_of self.now) tree → HasTooManySlots tree }
    {
        bounds::most_slots(self.items())
    }

    /// A step budget that suffices for a match, a search or a step of an iteration over any range of a text of at most
    /// `characters` characters, unless an allocation fails. It is one more than `step_bound` of the whole text. It is
    /// computed from the code alone, without memory, in a time that grows with the code.
    ///
    /// Returns `None` if no such number is known:
    ///
    /// - the code has a back-reference or a conditional;
    /// - it has a possessive loop, or an atomic group or lookaround that may branch, and a capture is set inside an
    ///   atomic scope (`regions_set_marks`);
    /// - not all failures may be memoized: the loops have more than 16,777,216 counter states within each other
    ///   (`most_slots`), or there is no room for so many characters, which with more than 4,096 states is less;
    /// - items are nested more than 100 deep;
    /// - the number takes more than 64 bits.
    ///
    /// ```
    /// // The bytecode of `(?:x+x+)+y`, which takes exponential time in an engine that does not memoize.
    /// assert_eq!(code.step_bound(100), Some(8687));
    /// ```
    pub fn step_bound(&self, characters: usize) -> Option<u64>
        ensures enough { IfSome result (λ steps. (tree : Tree) → Whole (words_of self.now) tree
            → IsStepBound (length (items_of self.now)) tree characters steps) }
        ensures none { result ≡ None → (tree : Tree) → Whole (words_of self.now) tree
            → HasNoStepBound (length (items_of self.now)) tree characters }
    {
        bounds::step_bound(self.items(), self.longest_lookbehind(), characters)
    }
}
