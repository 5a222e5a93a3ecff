//! The allocator that fails one allocation.

use sre_failing_allocator::Refusing;
use std::alloc::Global;

// Whether an allocation for a list succeeds.
fn is_served(heap: &Refusing<Global>) -> bool {
    let mut list: Vec<u64, &Refusing<Global>> = Vec::new(heap);
    list.push(7).is_ok()
}

// Whether an allocation succeeds exactly if it is not the one to fail, and `left` counts down to that one.
fn is_served_but(heap: &Refusing<Global>, request: u64, refused: u64) -> bool {
    is_served(heap) == (request != refused) && heap.left() == refused.saturating_sub(request)
}

#[test]
fn one_request_is_refused(rt: HostRuntime) {
    for refused in 0..6u64 {
        let heap = Refusing::new(rt.alloc(), refused);
        for request in 1..5u64 {
            assert!(rt;
                is_served_but(&heap, request, refused),
                "{request} of {refused}"
            );
        }
    }
}

#[test]
fn an_owned_heap(rt: HostRuntime) {
    let mut list: Vec<u64, Refusing<Global>> = Vec::new(Refusing::new(rt.alloc(), 1));
    assert!(rt; list.push(1).is_err() && list.push(1).is_ok());
    assert!(rt; list.allocator().left() == 0);
}
