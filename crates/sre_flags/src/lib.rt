//! Flags of Python's patterns and of the INFO block, as sets of named bits.
//!
//! Both types implement the trait `Flags` of `bitflags`, with its contracts: `bits` returns the set as a number,
//! `contains` whether it has every bit of another set, and `from_bits_truncate` drops bits without a constant. Names
//! and bits are those of CPython's `_constants.py` and of the crate `rustpython-sre_engine`.
#![tactic(auto)]

ghost use Rattle.std.specs.Prelude.{⊤};
ghost use Rattle.sre_flags.specs.Flags.{block_flags, flag_number, info_number, pattern_flags};

use bitflags::{Flag, Flags};

/// How a pattern is to be compiled: a set of bits of a 16-bit number.
///
/// Only a compiler of patterns uses them, not the engine. Two sets are equal exactly if their numbers are.
#[derive(Clone, Copy, PartialEq, Eq, Debug)]
pub struct SreFlag {
    bits: u16,
}

impl SreFlag {
    /// Template mode, which has no effect any more.
    pub const TEMPLATE: SreFlag = SreFlag { bits: 1 };

    /// Letters match in either case.
    pub const IGNORECASE: SreFlag = SreFlag { bits: 2 };

    /// Letters are those of the locale.
    pub const LOCALE: SreFlag = SreFlag { bits: 4 };

    /// `^` and `$` match at each line.
    pub const MULTILINE: SreFlag = SreFlag { bits: 8 };

    /// `.` also matches a newline.
    pub const DOTALL: SreFlag = SreFlag { bits: 16 };

    /// Letters are those of Unicode.
    pub const UNICODE: SreFlag = SreFlag { bits: 32 };

    /// Whitespace and comments in a pattern are ignored.
    pub const VERBOSE: SreFlag = SreFlag { bits: 64 };

    /// The compiler prints the compiled pattern.
    pub const DEBUG: SreFlag = SreFlag { bits: 128 };

    /// Letters are those of ASCII.
    pub const ASCII: SreFlag = SreFlag { bits: 256 };

    const FLAGS: &'static [Flag<SreFlag>] = &[
        Flag {
            name: "TEMPLATE",
            value: SreFlag::TEMPLATE,
        },
        Flag {
            name: "IGNORECASE",
            value: SreFlag::IGNORECASE,
        },
        Flag {
            name: "LOCALE",
            value: SreFlag::LOCALE,
        },
        Flag {
            name: "MULTILINE",
            value: SreFlag::MULTILINE,
        },
        Flag {
            name: "DOTALL",
            value: SreFlag::DOTALL,
        },
        Flag {
            name: "UNICODE",
            value: SreFlag::UNICODE,
        },
        Flag {
            name: "VERBOSE",
            value: SreFlag::VERBOSE,
        },
        Flag {
            name: "DEBUG",
            value: SreFlag::DEBUG,
        },
        Flag {
            name: "ASCII",
            value: SreFlag::ASCII,
        },
    ];
}

impl Flags for SreFlag {
    type Bits = u16;

    ghost exact = { ⊤ };

    ghost table = { pattern_flags };

    ghost set_of = { flag_number };

    fn flags<'a>() -> &'a [Flag<SreFlag>] {
        SreFlag::FLAGS
    }

    fn bits(&self) -> u16 {
        self.bits
    }

    fn from_bits_retain(bits: u16) -> SreFlag {
        SreFlag { bits }
    }
}

/// What the INFO block claims: a set of bits of a word.
///
/// Two sets are equal exactly if their numbers are.
#[derive(Clone, Copy, PartialEq, Eq, Debug)]
pub struct SreInfo {
    bits: u32,
}

impl SreInfo {
    /// Every match begins with the literals of the block's prefix.
    pub const PREFIX: SreInfo = SreInfo { bits: 1 };

    /// The whole pattern is those literals.
    pub const LITERAL: SreInfo = SreInfo { bits: 2 };

    /// Every match begins with a character of the block's set.
    pub const CHARSET: SreInfo = SreInfo { bits: 4 };

    const FLAGS: &'static [Flag<SreInfo>] = &[
        Flag {
            name: "PREFIX",
            value: SreInfo::PREFIX,
        },
        Flag {
            name: "LITERAL",
            value: SreInfo::LITERAL,
        },
        Flag {
            name: "CHARSET",
            value: SreInfo::CHARSET,
        },
    ];
}

impl Flags for SreInfo {
    type Bits = u32;

    ghost exact = { ⊤ };

    ghost table = { block_flags };

    ghost set_of = { info_number };

    fn flags<'a>() -> &'a [Flag<SreInfo>] {
        SreInfo::FLAGS
    }

    fn bits(&self) -> u32 {
        self.bits
    }

    fn from_bits_retain(bits: u32) -> SreInfo {
        SreInfo { bits }
    }
}
