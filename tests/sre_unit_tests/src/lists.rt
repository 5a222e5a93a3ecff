//! The Unicode tables of std, and lists with failed allocations.

use sre_chars::constants::SreCatCode;
use sre_chars::lists::{Lists, checked_lists, checked_ranges, std_lists};
use sre_chars::string::UniError::AsciiEntry;
use sre_chars::string::{UniError, UniTable, category, lower_unicode, upper_unicode};
use sre_failing_allocator::Refusing;
use std::alloc::{Allocator, Global};

// Whether a character has these lower and upper cases in a table.
fn has_cases(table: &UniTable, ch: u32, lower: u32, upper: u32) -> bool {
    lower_unicode(table, ch) == lower && upper_unicode(table, ch) == upper
}

// Whether a character has these cases in a table, and is or is not a word character.
fn has_row(table: &UniTable, ch: u32, lower: u32, upper: u32, is_word: bool) -> bool {
    has_cases(table, ch, lower, upper) && category(table, SreCatCode::UNI_WORD, ch) == is_word
}

// Whether a table has std's entries of a character.
fn is_as_in_std(table: &UniTable, code: u32) -> bool {
    match char::from_u32(code) {
        Some(ch) => {
            let lower = ch.to_lowercase().next().unwrap_or(ch) as u32;
            let upper = ch.to_uppercase().next().unwrap_or(ch) as u32;
            has_row(table, code, lower, upper, ch.is_alphanumeric() || ch == '_')
        }
        None => has_row(table, code, code, code, false),
    }
}

// The table has std's entries of every character.
#[test]
fn stds_table_is_unicodes(rt: HostRuntime) {
    let table = match UniTable::from_std(rt.alloc()) {
        Ok(table) => table,
        Err(_) => UniTable::ascii(rt.alloc()),
    };
    for code in 0..0x120000u32 {
        assert!(rt; is_as_in_std(&table, code), "{code}");
    }
}

// The three lists of a table.
type Rows<'a> = (&'a [(u32, u32)], &'a [(u32, u32)], &'a [(u32, u32)]);

// Whether lists are the wanted ones.
fn are<A: Allocator + Copy>(lists: &Lists<A>, (lower, upper, alnum): Rows<'_>) -> bool {
    lists.lower.as_slice() == lower
        && lists.upper.as_slice() == upper
        && lists.alnum.as_slice() == alnum
}

// Whether there is an error exactly if an allocation failed, and otherwise the wanted lists.
fn are_as_refused(
    heap: &Refusing<Global>,
    lists: Result<Lists<&Refusing<Global>>, UniError>,
    wanted: Rows<'_>,
) -> bool {
    match lists {
        Ok(lists) => heap.left() != 0 && are(&lists, wanted),
        Err(error) => heap.left() == 0 && error == UniError::Memory,
    }
}

const LOWER: &[(u32, u32)] = &[(201, 233)];

const UPPER: &[(u32, u32)] = &[(233, 201)];

const ALNUM: &[(u32, u32)] = &[(201, 201), (233, 233)];

// Each list is allocated once.
#[test]
fn new_fails_where_a_request_is_refused(rt: HostRuntime) {
    for refused in 1..6u64 {
        let heap = Refusing::new(rt.alloc(), refused);
        let lists = checked_lists(&heap, LOWER, UPPER, ALNUM);
        assert!(rt;
            are_as_refused(&heap, lists, (LOWER, UPPER, ALNUM)),
            "{refused}"
        );
        assert!(rt; heap.left() == refused.saturating_sub(3), "{refused}");
    }
}

// Whether ranges are copied, or their allocation failed.
fn are_copied(heap: &Refusing<Global>, digits: &[(u32, u32)]) -> bool {
    match checked_ranges(heap, digits) {
        Ok(ranges) => heap.left() == 1 && ranges.as_slice() == digits,
        Err(error) => heap.left() == 0 && error == UniError::Memory,
    }
}

// Digits are allocated once.
#[test]
fn digits_fail_where_a_request_is_refused(rt: HostRuntime) {
    for refused in 1..3u64 {
        let heap = Refusing::new(rt.alloc(), refused);
        assert!(rt;
            are_copied(&heap, &[(1632, 1641), (1776, 1785)]),
            "{refused}"
        );
    }
}

// Lists and digits are checked before they are copied.
#[test]
fn faults_ask_for_no_memory(rt: HostRuntime) {
    let heap = Refusing::new(rt.alloc(), 1);
    let fault = checked_lists(&heap, LOWER, UPPER, &[(48, 57)]).err();
    assert!(rt; fault == Some(AsciiEntry) && heap.left() == 1);
    let fault = checked_ranges(&heap, &[(48, 57)]).err();
    assert!(rt; fault == Some(AsciiEntry) && heap.left() == 1);
}

// Whether std's lists are the wanted ones with the allocation of a number failed, or that failure is reported.
fn are_stds(alloc: Global, refused: u64, wanted: Rows<'_>) -> bool {
    let heap = Refusing::new(alloc, refused);
    let lists = std_lists(&heap);
    are_as_refused(&heap, lists, wanted)
}

// The same for several numbers: the first allocations, some in the middle, and one that is never reached.
fn fail_where_refused(alloc: Global, ample: &Lists<Global>) -> bool {
    let wanted = (
        ample.lower.as_slice(),
        ample.upper.as_slice(),
        ample.alnum.as_slice(),
    );
    for refused in &[1, 2, 12, 20, 1000] {
        if !are_stds(alloc, *refused, wanted) {
            return false;
        }
    }
    true
}

#[test]
fn from_std_fails_where_a_request_is_refused(rt: HostRuntime) {
    let are_stds = match std_lists(rt.alloc()) {
        Ok(ample) => fail_where_refused(rt.alloc(), &ample),
        Err(_) => false,
    };
    assert!(rt; are_stds);
}
