//! Growths of lists, whose failure is a value that nothing else makes.
//!
//! A [`Refusal`] carries the fact `Refused A`: a list whose allocator has the type `A` could not grow. The fact is
//! sealed in the crate `sre_refusal_seal`, which only this crate uses. The three functions here state it only if std's
//! own growth of the list failed. So a call whose error has the fact returns an error only if an allocation by an `A`
//! failed. A call that is generic in `A` has no other `A` than its caller's, and copies of it.
//!
//! Each function is a match on std's call that grows the list, which `push` makes only if the list is full. A reader
//! has to trust no more than that.
#![tactic(auto)]

ghost use Rattle.std.specs.Prelude.{◌≡◌, ◌+◌, ◌-◌, ◌^◌, ◌<◌, ◌≤◌, ◌++◌, ◌∷◌, []};
ghost use Rattle.std.specs.Prelude.{is_ok, take, replicate, if◌then◌else◌, OnErr, IfOk};
ghost use Rattle.std.specs.Vec.{vec_len, vec_capacity};
ghost use Rattle.sre_growth.specs.Refusal.{Refused, one_refused};
ghost use prog.Memory.{size};
ghost use denote.Param.{layout};

use std::alloc::{AllocError, Allocator};
use std::marker::PhantomData;

/// The failure of an allocation by an `A`. It carries the fact that one failed.
#[derive(Drop)]
pub struct Refusal<A: Allocator> {
    cause: AllocError,
    of: PhantomData<A>,
    pub ghost refused: { Refused A } by { one_refused A },
}

/// Appends an item to a list.
///
/// # Errors
///
/// [`Refusal`], if the list was full and could not grow. The list is unchanged.
#[inline(always)]
pub fn push<T: Drop, A: Allocator>(list: &mut Vec<T, A>, item: T) -> Result<(), Refusal<A>>
    ensures items { list.new.items ≡ (if is_ok result then list.old.items ++ item ∷ [] else list.old.items) }
    ensures len { vec_len list.new ≡ (if is_ok result then vec_len list.old + 1 else vec_len list.old) }
    ensures full { OnErr result (vec_capacity list.old ≤ vec_len list.old) }
{
    // Reserve, then write: std's `push` passes each item through memory, to return it on failure. Most lists have room,
    // which is tested here, since std's own test is a call.
    if list.len() < list.capacity() {
        list.push_reserved(item);
        return Ok(());
    }
    match list.reserve(1) {
        Ok(()) => {
            list.push_reserved(item);
            Ok(())
        }
        Err(cause) => Err(Refusal {
            cause,
            of: PhantomData,
        }),
    }
}

/// Truncates a list to `length` items, or extends it to that many with `value`.
///
/// `length` is at most 2^32, one item for each 32-bit number, and an item has at most 16 bytes. Otherwise a caller
/// could make the allocation fail by requesting an absurdly long list.
///
/// # Errors
///
/// [`Refusal`], if the list has no room for so many and could not grow. The list is unchanged.
#[inline(always)]
pub fn resize<T: Copy, A: Allocator>(
    list: &mut Vec<T, A>,
    length: usize,
    value: T,
) -> Result<(), Refusal<A>>
    requires few { length ≤ 2 ^ 32 }
    requires small { size (layout T.row) ≤ 16 }
    ensures items { list.new.items ≡ (if is_ok result
        then take length list.old.items ++ replicate (length - vec_len list.old) value
        else list.old.items) }
    ensures len { vec_len list.new ≡ (if is_ok result then length else vec_len list.old) }
    ensures full { OnErr result (vec_capacity list.old < length) }
{
    match list.resize(length, value) {
        Ok(()) => Ok(()),
        Err(cause) => Err(Refusal {
            cause,
            of: PhantomData,
        }),
    }
}

/// A new list with the items of a slice. An item has at most 16 bytes.
///
/// # Errors
///
/// [`Refusal`], if the allocation of the new list failed.
#[inline(always)]
pub fn from_slice<T: Copy, A: Allocator>(alloc: A, items: &[T]) -> Result<Vec<T, A>, Refusal<A>>
    requires small { size (layout T.row) ≤ 16 }
    ensures { IfOk result (λ list. list.items ≡ items.now) }
{
    match Vec::from_slice(alloc, items) {
        Ok(list) => Ok(list),
        Err(cause) => Err(Refusal {
            cause,
            of: PhantomData,
        }),
    }
}
