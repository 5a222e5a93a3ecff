//! Parts: trees that a caller makes.
//!
//! Counts are at most 4294967295, which as a greatest count means no limit. Groups count from 0, and group `g` has the
//! capture slots `2 * g` for its start and `2 * g + 1` for its end. Characters are numbers: scalar values in a `&str`,
//! bytes in a `&[u8]`.

use sre_chars::constants::{SreAtCode, SreCatCode};

/// Items, one after the other. A part without items matches the empty string at every position.
#[derive(Drop)]
#[cycle(parts)]
pub struct Part {
    pub items: Vec<Item>,
}

/// An item of a part.
#[derive(Drop)]
#[cycle(parts)]
pub enum Item {
    /// FAILURE: never matches.
    Fail,
    /// A test of one character.
    One(OneChar),
    /// AT: a test of the position.
    At(SreAtCode),
    /// MARK: sets the capture slot of that number to the position.
    Mark(u32),
    /// BRANCH: at least one alternative, tried in order.
    Branch(Vec<Part>),
    /// REPEAT: a part, from `min` to `max` times. Greedy tries the most first, lazy the fewest.
    Loop {
        lazy: bool,
        min: u32,
        max: u32,
        body: Part,
    },
    /// A single-character repeat, from `min` to `max` times: REPEAT_ONE, MIN_REPEAT_ONE or POSSESSIVE_REPEAT_ONE.
    Run {
        kind: RunKind,
        min: u32,
        max: u32,
        test: OneChar,
    },
    /// POSSESSIVE_REPEAT: a part, as many times as possible, without backtracking into it.
    PossLoop {
        min: u32,
        max: u32,
        body: Part,
    },
    /// ATOMIC_GROUP: the first match path of a part, without backtracking into it.
    Atomic(Part),
    /// ASSERT and ASSERT_NOT: a lookaround, whose body matches from `back` characters before the position. The position
    /// does not change.
    Look {
        positive: bool,
        back: u32,
        body: Part,
    },
    /// GROUPREF and its folded forms: a back-reference to the text of a group.
    Ref {
        fold: Fold,
        group: u32,
    },
    /// GROUPREF_EXISTS: a conditional. It matches `yes` if the group took part, else `no`, or nothing without a `no`.
    Exists {
        group: u32,
        yes: Part,
        no: Option<Part>,
    },
}

/// A test of one character.
#[derive(Drop)]
pub enum OneChar {
    /// ANY: any character but a line feed.
    Any,
    /// ANY_ALL: any character.
    AnyAll,
    /// CATEGORY: a character of a category.
    Category(SreCatCode),
    /// LITERAL and NOT_LITERAL: the character of that number, or if it is negated, any other one.
    Literal {
        negated: bool,
        fold: Fold,
        value: u32,
    },
    /// IN: a set. The first item that holds for a character decides: the character is in the set, or after an odd
    /// number of NEGATE items it is not. If none holds, it is the reverse.
    In {
        fold: Fold,
        set: Vec<SetItem>,
    },
}

/// An item of a set.
#[derive(Drop)]
pub enum SetItem {
    /// One character.
    Literal(u32),
    /// The characters from the first to the second, both included.
    Range(u32, u32),
    /// As `Range`, for a character or its upper case in the Unicode table.
    RangeUniIgnore(u32, u32),
    /// The characters of a category.
    Category(SreCatCode),
    /// A bitmap of the characters below 256, least significant bit first.
    Charset([u32; 8]),
    /// A block number for each of 256 blocks of 256 characters, and the bitmaps of the numbered blocks, 8 words each.
    BigCharset { numbers: Vec<u8>, bits: Vec<u32> },
    /// Inverts the result.
    Negate,
}

/// Which counts a single-character repeat tries.
#[derive(Clone, Copy, PartialEq, Eq, Debug)]
pub enum RunKind {
    /// REPEAT_ONE: the greatest first, then fewer.
    Greedy,
    /// MIN_REPEAT_ONE: the least first, then more.
    Lazy,
    /// POSSESSIVE_REPEAT_ONE: the greatest only.
    Possessive,
}

/// The case folding before characters are compared, by the opcode's suffix.
#[derive(Clone, Copy, PartialEq, Eq, Debug)]
pub enum Fold {
    /// No folding.
    Plain,
    /// IGNORE: ASCII lower case.
    Ascii,
    /// LOC_IGNORE: the cases of the C locale, which are those of ASCII.
    Locale,
    /// UNI_IGNORE: lower case by the Unicode table.
    Unicode,
}
