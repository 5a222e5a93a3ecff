//! The flag types by the calls of `Flags`: the bits of the constants, and which bits are dropped.

use bitflags::Flags;
use sre_flags::{SreFlag, SreInfo};

// The constants with their names and bits in CPython's `_constants.py`, lowest bit first.
static PATTERN_FLAGS: [(SreFlag, &str, u16); 9] = [
    (SreFlag::TEMPLATE, "TEMPLATE", 1),
    (SreFlag::IGNORECASE, "IGNORECASE", 2),
    (SreFlag::LOCALE, "LOCALE", 4),
    (SreFlag::MULTILINE, "MULTILINE", 8),
    (SreFlag::DOTALL, "DOTALL", 16),
    (SreFlag::UNICODE, "UNICODE", 32),
    (SreFlag::VERBOSE, "VERBOSE", 64),
    (SreFlag::DEBUG, "DEBUG", 128),
    (SreFlag::ASCII, "ASCII", 256),
];

// A word, the bits that remain of it, and whether PREFIX, LITERAL and CHARSET are among them.
static CLAIMS: [(u32, u32, (bool, bool, bool)); 8] = [
    (0, 0, (false, false, false)),
    (1, 1, (true, false, false)),
    (2, 2, (false, true, false)),
    (3, 3, (true, true, false)),
    (4, 4, (false, false, true)),
    (8, 0, (false, false, false)),
    (9, 1, (true, false, false)),
    (u32::MAX, 7, (true, true, true)),
];

// Whether a flag has its name.
fn is_named(flag: SreFlag, name: &str) -> bool {
    SreFlag::from_name(name) == Some(flag)
}

// Whether these bits remain of a number, and whether the flag is among them.
fn keeps(number: u16, flag: SreFlag, bits: u16, has_flag: bool) -> bool {
    let set = SreFlag::from_bits_truncate(number);
    set.bits() == bits && set.contains(flag) == has_flag
}

#[test]
fn pattern_flags_have_their_names_and_bits(rt: HostRuntime) {
    for row in &PATTERN_FLAGS {
        let (flag, name, bits) = *row;
        assert!(rt; flag.bits() == bits && is_named(flag, name), "{name}");
        assert!(rt; keeps(bits | 0xFE00, flag, bits, true), "{name}");
        assert!(rt; keeps(!bits, flag, 511 ^ bits, false), "{name}");
    }
}

#[test]
fn claims_are_kept_and_other_bits_are_dropped(rt: HostRuntime) {
    for row in &CLAIMS {
        let (word, bits, (prefix, literal, charset)) = *row;
        let set = SreInfo::from_bits_truncate(word);
        assert!(rt; set.bits() == bits, "{word}");
        assert!(rt; set.contains(SreInfo::PREFIX) == prefix, "{word}");
        assert!(rt; set.contains(SreInfo::LITERAL) == literal, "{word}");
        assert!(rt; set.contains(SreInfo::CHARSET) == charset, "{word}");
    }
    assert!(rt; SreInfo::from_bits_truncate(9) == SreInfo::PREFIX);
}

#[test]
fn a_set_contains_another_where_it_has_all_its_bits(rt: HostRuntime) {
    let both = SreInfo::from_bits_truncate(3);
    assert!(rt; both.contains(SreInfo::PREFIX) && both.contains(both));
    assert!(rt; !SreInfo::PREFIX.contains(both) && both != SreInfo::PREFIX);
}
