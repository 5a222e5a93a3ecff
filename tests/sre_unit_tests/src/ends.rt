//! Memoized ends of atomic scopes: each stays known until all are forgotten, whatever the order of their pages. A
//! failed growth, which no clause covers, can be tried again.

use crate::growths::was_refused;
use sre_board::Ends;
use sre_chars::string::StringCursor;
use sre_failing_allocator::Refusing;
use std::alloc::{Allocator, Global};

// A cursor for each number, different from those of its neighbours.
fn end_of(number: usize) -> StringCursor {
    StringCursor::new(number / 2, number)
}

// Memoizes the end of a number. Returns whether it is known then.
fn tells<A: Allocator>(ends: &mut Ends<A>, number: usize) -> bool {
    ends.keep(number, end_of(number)).is_ok() && ends.end(number) == Some(end_of(number))
}

// How many of the numbers below another have a known end.
fn count_told<A: Allocator>(ends: &Ends<A>, numbers: usize) -> u32 {
    let mut told = 0u32;
    for number in 0..numbers {
        if ends.end(number) == Some(end_of(number)) {
            told = told.saturating_add(1);
        }
    }
    told
}

#[test]
fn an_end_is_told_behind_its_keeping(rt: HostRuntime) {
    let mut ends = Ends::new(rt.alloc());
    for number in 0..2000usize {
        assert!(rt; ends.end(number).is_none(), "{number}");
        assert!(rt; tells(&mut ends, number), "{number}");
    }
    assert!(rt; count_told(&ends, 2000) == 2000);
    ends.forget();
    assert!(rt; count_told(&ends, 2000) == 0);
}

// Memoizes the end of each number in an arithmetic sequence up to a maximum, the greatest first. Returns whether all
// are known.
fn keeps_down<A: Allocator>(ends: &mut Ends<A>, first: usize, step: usize) -> bool {
    for round in 0..50usize {
        let number = first.saturating_sub(round.saturating_mul(step));
        if !tells(ends, number) {
            return false;
        }
    }
    true
}

#[test]
fn pages_come_in_any_order(rt: HostRuntime) {
    let mut ends = Ends::new(rt.alloc());
    for step in 1..200usize {
        assert!(rt; keeps_down(&mut ends, 9999, step), "{step}");
    }
    // one that was memoized, one before all pages, and one after them
    assert!(rt; ends.end(9998).is_some());
    assert!(rt; ends.end(0).is_none());
    assert!(rt; ends.end(10_000).is_none());
    assert!(rt; count_told(&ends, 10_000) > 2000);
}

// How many of two numbers have a known end after both were memoized, the second twice.
fn count_of_two(alloc: Global, first: usize, second: usize) -> Option<u32> {
    let mut ends = Ends::new(alloc);
    ends.keep(first, end_of(first)).ok()?;
    ends.keep(second, end_of(second)).ok()?;
    if !tells(&mut ends, second) {
        return None;
    }
    Some(if ends.end(first) == Some(end_of(first)) {
        2
    } else {
        1
    })
}

#[test]
fn neighbours_have_places_of_their_own(rt: HostRuntime) {
    for number in 0..100usize {
        let told = count_of_two(rt.alloc(), number, number.saturating_add(1));
        assert!(rt; told == Some(2), "{number}");
    }
}

// Whether each end is memoized exactly if no allocation fails, and otherwise at the next try.
fn keeps_all(heap: &Refusing<Global>, ends: &mut Ends<&Refusing<Global>>) -> bool {
    for number in 0..100usize {
        let left = heap.left();
        let is_kept = tells(ends, number);
        if is_kept == was_refused(heap, left) || !is_kept && !tells(ends, number) {
            return false;
        }
    }
    true
}

// The same with the allocation of a number failed, and whether there was one.
fn are_kept(alloc: Global, refused: u64) -> (bool, bool) {
    let heap = Refusing::new(alloc, refused);
    let mut ends: Ends<&Refusing<Global>> = Ends::new(&heap);
    let are_kept = keeps_all(&heap, &mut ends) && count_told(&ends, 100) == 100;
    (are_kept, heap.left() == 0)
}

#[test]
fn a_refused_growth_leaves_a_table(rt: HostRuntime) {
    let mut refusals = 0u64;
    for refused in 1..12u64 {
        let (are_kept, is_refused) = are_kept(rt.alloc(), refused);
        assert!(rt; are_kept, "{refused}");
        if is_refused {
            refusals = refusals.saturating_add(1);
        }
    }
    assert!(rt; refusals > 2);
}
