//! Decimal digits past ASCII: those of Unicode are those of CPython.

use sre_engine::engine::{Found, all_matches};
use sre_engine::{Code, Request, State, UniTable};
use std::alloc::Global;
use std::test::Fail;
use ucd_perl::digit_ranges;

// The digits of CPython 3.13, as `tools/unicode.py --digits` writes them.
#[rattlefmt::skip]
static OF_CPYTHON: [(u32, u32); 64] = [
    (0x30, 0x39), (0x660, 0x669), (0x6f0, 0x6f9), (0x7c0, 0x7c9),
    (0x966, 0x96f), (0x9e6, 0x9ef), (0xa66, 0xa6f), (0xae6, 0xaef),
    (0xb66, 0xb6f), (0xbe6, 0xbef), (0xc66, 0xc6f), (0xce6, 0xcef),
    (0xd66, 0xd6f), (0xde6, 0xdef), (0xe50, 0xe59), (0xed0, 0xed9),
    (0xf20, 0xf29), (0x1040, 0x1049), (0x1090, 0x1099), (0x17e0, 0x17e9),
    (0x1810, 0x1819), (0x1946, 0x194f), (0x19d0, 0x19d9), (0x1a80, 0x1a89),
    (0x1a90, 0x1a99), (0x1b50, 0x1b59), (0x1bb0, 0x1bb9), (0x1c40, 0x1c49),
    (0x1c50, 0x1c59), (0xa620, 0xa629), (0xa8d0, 0xa8d9), (0xa900, 0xa909),
    (0xa9d0, 0xa9d9), (0xa9f0, 0xa9f9), (0xaa50, 0xaa59), (0xabf0, 0xabf9),
    (0xff10, 0xff19), (0x104a0, 0x104a9), (0x10d30, 0x10d39), (0x11066, 0x1106f),
    (0x110f0, 0x110f9), (0x11136, 0x1113f), (0x111d0, 0x111d9), (0x112f0, 0x112f9),
    (0x11450, 0x11459), (0x114d0, 0x114d9), (0x11650, 0x11659), (0x116c0, 0x116c9),
    (0x11730, 0x11739), (0x118e0, 0x118e9), (0x11950, 0x11959), (0x11c50, 0x11c59),
    (0x11d50, 0x11d59), (0x11da0, 0x11da9), (0x11f50, 0x11f59), (0x16a60, 0x16a69),
    (0x16ac0, 0x16ac9), (0x16b50, 0x16b59), (0x1d7ce, 0x1d7ff), (0x1e140, 0x1e149),
    (0x1e2f0, 0x1e2f9), (0x1e4f0, 0x1e4f9), (0x1e950, 0x1e959), (0x1fbf0, 0x1fbf9),
];

// Digits added to Unicode after version 15.1, which is that of CPython 3.13.
#[rattlefmt::skip]
static LATER: [(u32, u32); 8] = [
    (0x10d40, 0x10d49), (0x116d0, 0x116e3), (0x11bf0, 0x11bf9), (0x11de0, 0x11de9),
    (0x16130, 0x16139), (0x16d70, 0x16d79), (0x1ccf0, 0x1ccf9), (0x1e5f1, 0x1e5fa),
];

const UNI_DIGIT: &[u32] = &[8, 10, 1];

// All scalar values in order.
fn scalar_values(alloc: Global) -> Result<String, Fail> {
    let mut text = String::new(alloc);
    for number in 0..0x110000u32 {
        if let Some(character) = char::from_u32(number) {
            text.push(character)?;
        }
    }
    Ok(text)
}

// The position of a scalar value among all of them, which include no surrogates.
fn position_of(number: u32) -> usize {
    if number < 0xd800 {
        number as usize
    } else {
        number.saturating_sub(0x800) as usize
    }
}

// Whether a match starts at a position.
fn is_start(all: &[Found<Global>], position: usize) -> bool {
    for found in all {
        if found.start == position {
            return true;
        }
    }
    false
}

// Whether a match starts at the position of each number in some ranges.
fn are_found(all: &[Found<Global>], ranges: &[(u32, u32)]) -> bool {
    for &(low, high) in ranges {
        for number in low..=high {
            if !is_start(all, position_of(number)) {
                return false;
            }
        }
    }
    true
}

// With the digits of Unicode, `\d` matches the same scalar values as in CPython's `re`, and those added later.
#[test]
fn unicode_digits_are_those_of_cpython(rt: HostRuntime) -> Result<(), Fail> {
    let alloc = rt.alloc();
    let mut uni = UniTable::from_std(alloc)?;
    let ranges = digit_ranges(alloc)?;
    uni.set_digits(ranges.get(1..).unwrap_or_default())?;
    let code = Code::check(alloc, UNI_DIGIT, &uni)?;
    let text = scalar_values(alloc)?;
    let req = Request::whole(text.as_str(), code);
    let all = all_matches(req, &mut State::new(alloc))?;
    assert!(rt; all.len() == 770 && are_found(&all, &OF_CPYTHON) && are_found(&all, &LATER));
    Ok(())
}
