//! Each growth is failed in turn: there is an error exactly if an allocation failed, and otherwise all items are there.

use sre_failing_allocator::Refusing;
use sre_growth::{from_slice, push, resize};
use std::alloc::Global;

// Whether an allocation failed since `left` were left up to the one that fails.
pub(crate) fn was_refused(heap: &Refusing<Global>, left: u64) -> bool {
    left != 0 && heap.left() == 0
}

// Whether a push fails exactly if an allocation does, and then succeeds at the next try.
fn takes(heap: &Refusing<Global>, list: &mut Vec<u64, &Refusing<Global>>, item: u64) -> bool {
    let left = heap.left();
    let is_refused = push(list, item).is_err();
    is_refused == was_refused(heap, left) && (!is_refused || push(list, item).is_ok())
}

// Whether the list has all numbers below its length, in order.
fn is_counted(list: &[u64]) -> bool {
    for (i, item) in list.iter().enumerate() {
        if *item != i as u64 {
            return false;
        }
    }
    true
}

#[test]
fn pushes_fail_where_they_are_refused(rt: HostRuntime) {
    for refused in 0..12u64 {
        let heap = Refusing::new(rt.alloc(), refused);
        let mut list: Vec<u64, &Refusing<Global>> = Vec::new(&heap);
        for item in 0..1000u64 {
            assert!(rt; takes(&heap, &mut list, item), "{refused}, {item}");
        }
        assert!(rt; list.len() == 1000 && is_counted(&list), "{refused}");
    }
}

// Whether a slice is copied, or an allocation failed.
fn copies(heap: &Refusing<Global>, items: &[u32]) -> bool {
    let left = heap.left();
    match from_slice(heap, items) {
        Ok(list) => !was_refused(heap, left) && list.as_slice() == items,
        Err(_) => was_refused(heap, left),
    }
}

#[test]
fn copies_fail_where_they_are_refused(rt: HostRuntime) {
    let items = [7u32; 1000];
    for refused in 0..5u64 {
        let heap = Refusing::new(rt.alloc(), refused);
        assert!(rt; copies(&heap, &items), "{refused}");
    }
}

// Whether a resize fails exactly if an allocation does, and succeeds at the next try.
fn lengthens(heap: &Refusing<Global>, list: &mut Vec<u32, &Refusing<Global>>, length: u32) -> bool {
    let left = heap.left();
    let is_refused = resize(list, length as usize, 7).is_err();
    is_refused == was_refused(heap, left)
        && (!is_refused || resize(list, length as usize, 7).is_ok())
        && list.len() == length as usize
}

// The same for lengths that grow and shrink. Then the list has the value alone.
fn lengthens_often(heap: &Refusing<Global>, list: &mut Vec<u32, &Refusing<Global>>) -> bool {
    for length in &[0, 1, 1000, 10] {
        if !lengthens(heap, list, *length) {
            return false;
        }
    }
    list.as_slice() == [7; 10].as_slice()
}

#[test]
fn other_growths_fail_where_they_are_refused(rt: HostRuntime) {
    for refused in 0..5u64 {
        let heap = Refusing::new(rt.alloc(), refused);
        let mut list: Vec<u32, &Refusing<Global>> = Vec::new(&heap);
        assert!(rt; lengthens_often(&heap, &mut list), "{refused}");
    }
}
