//! The numbers in the bytecode of a pattern.
//!
//! Bytecode is a list of 32-bit words. Opcodes, position codes and category codes have the numbers of CPython's `_sre`
//! and of the crate `rustpython-sre_engine`. `TryFrom<u32>` converts a word to a code.

ghost use Rattle.std.specs.Prelude.{◌≡◌, ◌==◌};
ghost use Rattle.std.specs.Cmp.Rules.{comparing};
ghost use Rattle.std.specs.Ordering.{on};
ghost use Rattle.std.proofs.Common.{rules};
ghost use Rattle.sre_chars.specs.Numbers.{IsCodeOf, at_number, category_number, opcode_number, rule_number};

pub use sre_flags::{SreFlag, SreInfo};
use std::convert::TryFrom;
use thiserror::Error;

/// The magic number of the bytecode that this engine runs, as in CPython's `_sre` and in `rustpython-sre_engine`.
/// CPython changes it with the numbers and layouts. No code here reads it, and no word holds it.
pub const SRE_MAGIC: usize = 20221023;

/// The number of bytes of a code word.
pub const CODESIZE: usize = 4;

/// The greatest count of a repeat that has no limit.
pub const MAXREPEAT: usize = 4294967295;

/// The greatest number of groups of a pattern in `rustpython-sre_engine`. No code here reads it.
pub const MAXGROUPS: usize = 2147483647;

/// The error of a word that is no code's number. It holds the word.
#[derive(Clone, Copy, PartialEq, Eq, Debug, Error)]
#[error("unknown code {0}")]
pub struct UnknownCode(pub u32);

impl UnknownCode {
    /// The number of this error, always 1.
    pub fn number(&self) -> u32
        ensures { result ≡ 1 }
    {
        match self {
            UnknownCode(_) => 1,
        }
    }
}

/// Whether a non-boundary (`\B`) matches at position 0 of a range that ends at 0. A boundary never does.
///
/// Two rules are equal exactly if their numbers are.
#[derive(Clone, Copy, Eq, Debug)]
pub enum EmptyRule {
    /// It does not, as in CPython 3.11 to 3.13 and in `rustpython-sre_engine`.
    Never = 0,
    /// It does, as CPython's documentation says of 3.14.
    NonBoundary = 1,
}

impl PartialEq for EmptyRule {
    ghost eq = { on rule_number ◌==◌ };

    ghost laws = { Prim.search (comparing, rules) };

    fn eq(&self, other: &EmptyRule) -> bool {
        *self as u32 == *other as u32
    }
}

/// What an instruction or a set item does.
///
/// `SreOpcode::try_from(word)` returns the opcode with that number, from 0 to 42, and `Err` for a greater word. Two
/// opcodes are equal exactly if their numbers are.
#[derive(Clone, Copy, Eq, Debug)]
pub enum SreOpcode {
    FAILURE = 0,
    SUCCESS = 1,
    ANY = 2,
    ANY_ALL = 3,
    ASSERT = 4,
    ASSERT_NOT = 5,
    AT = 6,
    BRANCH = 7,
    CATEGORY = 8,
    CHARSET = 9,
    BIGCHARSET = 10,
    GROUPREF = 11,
    GROUPREF_EXISTS = 12,
    IN = 13,
    INFO = 14,
    JUMP = 15,
    LITERAL = 16,
    MARK = 17,
    MAX_UNTIL = 18,
    MIN_UNTIL = 19,
    NOT_LITERAL = 20,
    NEGATE = 21,
    RANGE = 22,
    REPEAT = 23,
    REPEAT_ONE = 24,
    SUBPATTERN = 25,
    MIN_REPEAT_ONE = 26,
    ATOMIC_GROUP = 27,
    POSSESSIVE_REPEAT = 28,
    POSSESSIVE_REPEAT_ONE = 29,
    GROUPREF_IGNORE = 30,
    IN_IGNORE = 31,
    LITERAL_IGNORE = 32,
    NOT_LITERAL_IGNORE = 33,
    GROUPREF_LOC_IGNORE = 34,
    IN_LOC_IGNORE = 35,
    LITERAL_LOC_IGNORE = 36,
    NOT_LITERAL_LOC_IGNORE = 37,
    GROUPREF_UNI_IGNORE = 38,
    IN_UNI_IGNORE = 39,
    LITERAL_UNI_IGNORE = 40,
    NOT_LITERAL_UNI_IGNORE = 41,
    RANGE_UNI_IGNORE = 42,
}

impl PartialEq for SreOpcode {
    ghost eq = { on opcode_number ◌==◌ };

    ghost laws = { Prim.search (comparing, rules) };

    fn eq(&self, other: &SreOpcode) -> bool {
        *self as u32 == *other as u32
    }
}

impl TryFrom<u32> for SreOpcode {
    type Error = UnknownCode;

    ghost try_from_gives = { λ n r. IsCodeOf opcode_number 43 n r };

    fn try_from(word: u32) -> Result<SreOpcode, UnknownCode> {
        match word {
            0 => Ok(SreOpcode::FAILURE),
            1 => Ok(SreOpcode::SUCCESS),
            2 => Ok(SreOpcode::ANY),
            3 => Ok(SreOpcode::ANY_ALL),
            4 => Ok(SreOpcode::ASSERT),
            5 => Ok(SreOpcode::ASSERT_NOT),
            6 => Ok(SreOpcode::AT),
            7 => Ok(SreOpcode::BRANCH),
            8 => Ok(SreOpcode::CATEGORY),
            9 => Ok(SreOpcode::CHARSET),
            10 => Ok(SreOpcode::BIGCHARSET),
            11 => Ok(SreOpcode::GROUPREF),
            12 => Ok(SreOpcode::GROUPREF_EXISTS),
            13 => Ok(SreOpcode::IN),
            14 => Ok(SreOpcode::INFO),
            15 => Ok(SreOpcode::JUMP),
            16 => Ok(SreOpcode::LITERAL),
            17 => Ok(SreOpcode::MARK),
            18 => Ok(SreOpcode::MAX_UNTIL),
            19 => Ok(SreOpcode::MIN_UNTIL),
            20 => Ok(SreOpcode::NOT_LITERAL),
            21 => Ok(SreOpcode::NEGATE),
            22 => Ok(SreOpcode::RANGE),
            23 => Ok(SreOpcode::REPEAT),
            24 => Ok(SreOpcode::REPEAT_ONE),
            25 => Ok(SreOpcode::SUBPATTERN),
            26 => Ok(SreOpcode::MIN_REPEAT_ONE),
            27 => Ok(SreOpcode::ATOMIC_GROUP),
            28 => Ok(SreOpcode::POSSESSIVE_REPEAT),
            29 => Ok(SreOpcode::POSSESSIVE_REPEAT_ONE),
            30 => Ok(SreOpcode::GROUPREF_IGNORE),
            31 => Ok(SreOpcode::IN_IGNORE),
            32 => Ok(SreOpcode::LITERAL_IGNORE),
            33 => Ok(SreOpcode::NOT_LITERAL_IGNORE),
            34 => Ok(SreOpcode::GROUPREF_LOC_IGNORE),
            35 => Ok(SreOpcode::IN_LOC_IGNORE),
            36 => Ok(SreOpcode::LITERAL_LOC_IGNORE),
            37 => Ok(SreOpcode::NOT_LITERAL_LOC_IGNORE),
            38 => Ok(SreOpcode::GROUPREF_UNI_IGNORE),
            39 => Ok(SreOpcode::IN_UNI_IGNORE),
            40 => Ok(SreOpcode::LITERAL_UNI_IGNORE),
            41 => Ok(SreOpcode::NOT_LITERAL_UNI_IGNORE),
            42 => Ok(SreOpcode::RANGE_UNI_IGNORE),
            _ => Err(UnknownCode(word)),
        }
    }
}

/// What AT, which consumes no character, tests of a position.
///
/// `SreAtCode::try_from(word)` returns the code with that number, from 0 to 11, and `Err` for a greater word. Two codes
/// are equal exactly if their numbers are. The `LOC` and `UNI` forms have their own word characters.
#[derive(Clone, Copy, Eq, Debug)]
pub enum SreAtCode {
    BEGINNING = 0,
    BEGINNING_LINE = 1,
    BEGINNING_STRING = 2,
    BOUNDARY = 3,
    NON_BOUNDARY = 4,
    END = 5,
    END_LINE = 6,
    END_STRING = 7,
    LOC_BOUNDARY = 8,
    LOC_NON_BOUNDARY = 9,
    UNI_BOUNDARY = 10,
    UNI_NON_BOUNDARY = 11,
}

impl PartialEq for SreAtCode {
    ghost eq = { on at_number ◌==◌ };

    ghost laws = { Prim.search (comparing, rules) };

    fn eq(&self, other: &SreAtCode) -> bool {
        *self as u32 == *other as u32
    }
}

impl TryFrom<u32> for SreAtCode {
    type Error = UnknownCode;

    ghost try_from_gives = { λ n r. IsCodeOf at_number 12 n r };

    fn try_from(word: u32) -> Result<SreAtCode, UnknownCode> {
        match word {
            0 => Ok(SreAtCode::BEGINNING),
            1 => Ok(SreAtCode::BEGINNING_LINE),
            2 => Ok(SreAtCode::BEGINNING_STRING),
            3 => Ok(SreAtCode::BOUNDARY),
            4 => Ok(SreAtCode::NON_BOUNDARY),
            5 => Ok(SreAtCode::END),
            6 => Ok(SreAtCode::END_LINE),
            7 => Ok(SreAtCode::END_STRING),
            8 => Ok(SreAtCode::LOC_BOUNDARY),
            9 => Ok(SreAtCode::LOC_NON_BOUNDARY),
            10 => Ok(SreAtCode::UNI_BOUNDARY),
            11 => Ok(SreAtCode::UNI_NON_BOUNDARY),
            _ => Err(UnknownCode(word)),
        }
    }
}

/// A category of characters; `category` tests whether a character is in it.
///
/// `SreCatCode::try_from(word)` returns the code with that number, from 0 to 17, and `Err` for a greater word. Two
/// codes are equal exactly if their numbers are.
#[derive(Clone, Copy, Eq, Debug)]
pub enum SreCatCode {
    DIGIT = 0,
    NOT_DIGIT = 1,
    SPACE = 2,
    NOT_SPACE = 3,
    WORD = 4,
    NOT_WORD = 5,
    LINEBREAK = 6,
    NOT_LINEBREAK = 7,
    LOC_WORD = 8,
    LOC_NOT_WORD = 9,
    UNI_DIGIT = 10,
    UNI_NOT_DIGIT = 11,
    UNI_SPACE = 12,
    UNI_NOT_SPACE = 13,
    UNI_WORD = 14,
    UNI_NOT_WORD = 15,
    UNI_LINEBREAK = 16,
    UNI_NOT_LINEBREAK = 17,
}

impl PartialEq for SreCatCode {
    ghost eq = { on category_number ◌==◌ };

    ghost laws = { Prim.search (comparing, rules) };

    fn eq(&self, other: &SreCatCode) -> bool {
        *self as u32 == *other as u32
    }
}

impl TryFrom<u32> for SreCatCode {
    type Error = UnknownCode;

    ghost try_from_gives = { λ n r. IsCodeOf category_number 18 n r };

    fn try_from(word: u32) -> Result<SreCatCode, UnknownCode> {
        match word {
            0 => Ok(SreCatCode::DIGIT),
            1 => Ok(SreCatCode::NOT_DIGIT),
            2 => Ok(SreCatCode::SPACE),
            3 => Ok(SreCatCode::NOT_SPACE),
            4 => Ok(SreCatCode::WORD),
            5 => Ok(SreCatCode::NOT_WORD),
            6 => Ok(SreCatCode::LINEBREAK),
            7 => Ok(SreCatCode::NOT_LINEBREAK),
            8 => Ok(SreCatCode::LOC_WORD),
            9 => Ok(SreCatCode::LOC_NOT_WORD),
            10 => Ok(SreCatCode::UNI_DIGIT),
            11 => Ok(SreCatCode::UNI_NOT_DIGIT),
            12 => Ok(SreCatCode::UNI_SPACE),
            13 => Ok(SreCatCode::UNI_NOT_SPACE),
            14 => Ok(SreCatCode::UNI_WORD),
            15 => Ok(SreCatCode::UNI_NOT_WORD),
            16 => Ok(SreCatCode::UNI_LINEBREAK),
            17 => Ok(SreCatCode::UNI_NOT_LINEBREAK),
            _ => Err(UnknownCode(word)),
        }
    }
}
