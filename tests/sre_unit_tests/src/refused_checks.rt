//! The check with each allocation failed in turn.

use crate::samples::SAMPLES;
use crate::shown::is_shown;
use sre_chars::string::UniTable;
use sre_code::check_in;
use sre_code::code::CodeError;
use sre_failing_allocator::Refusing;
use std::alloc::{AllocError, Global};
use std::convert::TryFrom;

// A part with items: its opcode, what its skip counts in addition to the items, the words after the skip, and the words
// after the items.
type Around = (u32, u32, &'static [u32], &'static [u32]);

// A branch, a lookaround, a loop and an atomic group.
static PARTS: [Around; 4] = [
    (7, 3, &[], &[15, 2, 0]),
    (4, 3, &[0], &[1]),
    (23, 3, &[0, 1], &[18]),
    (27, 2, &[], &[1]),
];

// Appends items inside one more part.
fn push_inside(part: &Around, items: &[u32], words: &mut Vec<u32>) -> Result<(), AllocError> {
    let (opcode, beside, front, end) = *part;
    let length = u32::try_from(items.len()).unwrap_or(0);
    words.extend_from_slice(&[opcode, length.saturating_add(beside)])?;
    words.extend_from_slice(front)?;
    words.extend_from_slice(items)?;
    words.extend_from_slice(end)
}

// Puts items inside one more part.
fn put_inside(alloc: Global, part: &Around, items: &mut Vec<u32>) -> Result<(), AllocError> {
    let mut words = Vec::new(alloc);
    push_inside(part, items.as_slice(), &mut words)?;
    *items = words;
    Ok(())
}

// Puts an opcode with an operand inside 40 parts of the four kinds, and words after them.
fn put_nested(
    alloc: Global,
    opcode: u32,
    behind: &[u32],
    words: &mut Vec<u32>,
) -> Result<(), AllocError> {
    words.extend_from_slice(&[opcode, 97])?;
    for _ in 0..10 {
        for part in &PARTS {
            put_inside(alloc, part, words)?;
        }
    }
    words.extend_from_slice(behind)
}

// Whether the allocation of a number fails during a check. If it is not reached, the check must report the given error;
// `None` for any other result.
fn is_refused(
    alloc: Global,
    words: &[u32],
    uni: &UniTable,
    fault: Option<CodeError>,
    refused: u64,
) -> Option<bool> {
    let heap = Refusing::new(alloc, refused);
    let error = check_in(&heap, words, uni).err();
    let is_refused = heap.left() == 0;
    let wanted = if is_refused {
        Some(CodeError::Memory)
    } else {
        fault
    };
    if error == wanted {
        Some(is_refused)
    } else {
        None
    }
}

// Fails each allocation of a check in turn, until it makes fewer. Returns whether there were at least so many, and
// whether the check then reports the given error.
fn fails_each_time(
    alloc: Global,
    words: &[u32],
    uni: &UniTable,
    fault: Option<CodeError>,
    growths: u64,
) -> bool {
    for refused in 1..20u64 {
        match is_refused(alloc, words, uni, fault, refused) {
            Some(true) => {}
            Some(false) => return refused > growths,
            None => return false,
        }
    }
    false
}

// The same for nested parts.
fn fails_nested(
    alloc: Global,
    uni: &UniTable,
    opcode: u32,
    behind: &[u32],
    fault: Option<CodeError>,
) -> bool {
    let mut words = Vec::new(alloc);
    put_nested(alloc, opcode, behind, &mut words).is_ok()
        && fails_each_time(alloc, words.as_slice(), uni, fault, 4)
}

// An opcode inside 40 parts, which have 170 words beside it, the words after them, and the error.
static NESTED: [(u32, &[u32], Option<CodeError>); 3] = [
    (16, &[1], None),
    (16, &[1, 1], Some(CodeError::TrailingWords(173))),
    (43, &[1], Some(CodeError::UnknownOpcode(110))),
];

#[test]
fn a_check_fails_where_memory_is_refused(rt: HostRuntime) {
    let uni = UniTable::ascii(rt.alloc());
    for &(opcode, behind, fault) in &NESTED {
        assert!(rt;
            fails_nested(rt.alloc(), &uni, opcode, behind, fault),
            "{fault:?}"
        );
    }
    assert!(rt;
        fails_each_time(
            rt.alloc(),
            &[43],
            &uni,
            Some(CodeError::UnknownOpcode(0)),
            1
        )
    );
    for words in &SAMPLES {
        assert!(rt;
            fails_each_time(rt.alloc(), words, &uni, None, 1),
            "{words:?}"
        );
    }
}

#[test]
fn a_refused_check_is_told(rt: HostRuntime) {
    let error = CodeError::Memory;
    assert!(rt; error.number() == 1 && is_shown(rt.alloc(), &error, "out of memory"));
}
