//! The structs that cross to C, field by field as in `include/sre.h`.
//!
//! The field `checked` says that a check accepted the struct, and carries that as a fact. A caller in C passes the
//! struct back, and so guarantees that the fact still holds.

ghost use Rattle.std.specs.Prelude.{◌≡◌, true, None};
ghost use Rattle.sre_c.specs.Terms.{lent_table, lists_fault};

use sre_engine::UniPair;

/// The lists of a table of cases, alphanumerics and digits past ASCII. If all are empty, it is that of ASCII.
#[repr(C)]
#[derive(Clone, Copy)]
pub struct SreTable<'a> {
    pub lower: &'a [UniPair],
    pub upper: &'a [UniPair],
    pub alnum: &'a [UniPair],
    pub digits: &'a [UniPair],
    /// The number of the first fault that the check found, or 0.
    pub error: u32,
    /// Whether the check accepted the lists.
    pub checked: bool,
    ghost lawful: { checked ≡ true
        → lists_fault (lent_table lower.now upper.now alnum.now digits.now) ≡ None },
}

/// The confirmed search hints of the INFO block, and three numbers of the tree.
#[repr(C)]
#[derive(Clone, Copy)]
pub struct SreHints {
    /// The least width of a match in characters, if `has_width`.
    pub width: u32,
    /// The length of the literal prefix of each match in characters, if `has_prefix`.
    pub prefix: u32,
    /// How many of these characters a match need not test again.
    pub prefix_skip: u32,
    /// The greatest number up to which the length of a single-character repeat or lookbehind matters, unless `refers`.
    pub longest_lookbehind: u32,
    /// The least group that a back-reference refers to, counted from 0. It is 0 with a conditional, and 4294967295 with
    /// neither.
    pub asked_from: u32,
    pub has_width: bool,
    pub has_prefix: bool,
    /// Whether the whole code is the prefix.
    pub literal: bool,
    /// Whether each match begins with a character of the set in the INFO block.
    pub first_set: bool,
    /// Whether the code has a back-reference or a conditional.
    pub refers: bool,
}

/// A request: a range of characters, the step limit, and flags.
#[repr(C)]
#[derive(Clone, Copy)]
pub struct SreAsked {
    pub start: usize,
    pub end: usize,
    pub steps: u64,
    /// Whether to search for the least start with a match, or to match only at the start of the range.
    pub search: bool,
    pub match_all: bool,
    pub must_advance: bool,
    /// Whether a non-boundary matches in an empty text.
    pub non_boundary: bool,
}

/// A match: start and end, the group that was closed last, and the number of its capture slots; and the steps that are
/// left.
#[repr(C)]
#[derive(Clone, Copy)]
pub struct SreFound {
    pub start: usize,
    pub end: usize,
    pub last_index: isize,
    pub marks: usize,
    pub steps: u64,
}

/// The state of an iteration: the number of rows, the steps that are left and those that were left before the last
/// match was searched, and where and how to continue.
#[repr(C)]
#[derive(Clone, Copy)]
pub struct SreWalked {
    pub count: usize,
    pub start: usize,
    pub steps: u64,
    pub steps_before: u64,
    pub must_advance: bool,
}
