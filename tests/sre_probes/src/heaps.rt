//! Probes with each allocation failed in turn, and on a heap of a fixed size.

use crate::counts::{Bounds, push_count, two_bounds_of};
use crate::probe::{Desk, cut, number_of, push_plain};
use linked_list_allocator::LocalHeap;
use sre_engine::UniTable;
use sre_failing_allocator::Refusing;
use sre_lines::line::split_once;
use std::alloc::{AllocError, Allocator, Global};

// More allocations than any line makes.
pub(crate) const MOST_REQUESTS: u64 = 1000;

// Appends the answer to a probe, or `memory`.
fn push_outcome<A: Allocator + Copy>(
    desk: &mut Desk<A>,
    table: &UniTable,
    probe: &[u8],
    answer: &mut String,
) -> Result<(), AllocError> {
    let mut said = String::new(desk.alloc);
    match push_plain(desk, table, probe, &mut said) {
        Ok(()) => answer.push_str(said.as_str()),
        Err(AllocError) => answer.push_str("memory"),
    }
}

// Appends the answers to probes, which are separated by `|`.
fn push_outcomes<A: Allocator + Copy>(
    desk: &mut Desk<A>,
    table: &UniTable,
    probes: &[u8],
    answer: &mut String,
) -> Result<(), AllocError> {
    let mut left = Some(probes);
    for _ in 0..probes.len().saturating_add(1) {
        let Some(several) = left else {
            return Ok(());
        };
        let (probe, others) = cut(several, b'|');
        push_outcome(desk, table, probe, answer)?;
        answer.push_str("|")?;
        left = others;
    }
    Ok(())
}

/// Appends the answers to probes by a state on a heap of so many bytes.
pub(crate) fn push_on_heap(
    alloc: Global,
    table: &UniTable,
    rest: &[u8],
    answer: &mut String,
) -> Result<(), AllocError> {
    let Some((size, probes)) = split_once(rest, b' ') else {
        return answer.push_str("no probe");
    };
    let Some(size) = number_of(size) else {
        return answer.push_str("no size");
    };
    let heap = LocalHeap::new(alloc, size as usize)?;
    push_outcomes(&mut Desk::new(alloc, &heap), table, probes, answer)
}

// How often a probe with a failed allocation was answered `memory`, and how often as without failures.
#[derive(Clone, Copy)]
struct Fates {
    memory: u64,
    same: u64,
}

// A probe and the probes after it, with their answers without failures.
#[derive(Clone, Copy)]
struct Refused<'a> {
    first: &'a [u8],
    others: &'a [u8],
    wanted: &'a str,
    behind: &'a str,
}

// Answers a probe and, if one of its allocations was failed, the others. Returns whether it made fewer allocations.
fn ask(
    heap: &Refusing<Global>,
    desk: &mut Desk<&Refusing<Global>>,
    table: &UniTable,
    probes: Refused<'_>,
    told: &mut String,
    again: &mut String,
) -> Result<bool, AllocError> {
    push_outcome(desk, table, probes.first, told)?;
    if heap.left() > 0 {
        return Ok(true);
    }
    push_outcomes(desk, table, probes.others, again)?;
    Ok(false)
}

// Counts the outcome of a probe with a failed allocation, and of the others. Returns whether it is one of the two.
fn count(fates: &mut Fates, probes: Refused<'_>, told: &str, again: &str) -> bool {
    if told == probes.wanted {
        fates.same = fates.same.saturating_add(1);
        return again == probes.behind;
    }
    fates.memory = fates.memory.saturating_add(1);
    told == "memory" && again == probes.behind
}

/// The outcome of failing one allocation.
#[derive(Clone, Copy)]
pub(crate) enum Refusal {
    Counted,
    Otherwise,
    NoRequest,
}

// Fails the allocation with a number, and counts the outcome.
fn refuse(
    alloc: Global,
    table: &UniTable,
    probes: Refused<'_>,
    refused: u64,
    fates: &mut Fates,
) -> Result<Refusal, AllocError> {
    let heap = Refusing::new(alloc, refused);
    let (mut told, mut again) = (String::new(alloc), String::new(alloc));
    let mut desk = Desk::new(alloc, &heap);
    match ask(&heap, &mut desk, table, probes, &mut told, &mut again) {
        Ok(true) if told.as_str() == probes.wanted => Ok(Refusal::NoRequest),
        Ok(true) => Ok(Refusal::Otherwise),
        Ok(false) if count(fates, probes, told.as_str(), again.as_str()) => Ok(Refusal::Counted),
        Ok(false) => Ok(Refusal::Otherwise),
        Err(error) => Err(error),
    }
}

// Appends the answer to a probe, with each allocation failed in turn, and any count that is out of bounds.
fn push_one_by_one(
    alloc: Global,
    table: &UniTable,
    probes: Refused<'_>,
    (of_memory, of_same): (Bounds, Bounds),
    answer: &mut String,
) -> Result<(), AllocError> {
    answer.push_str(probes.wanted)?;
    let mut fates = Fates { memory: 0, same: 0 };
    for refused in 1..MOST_REQUESTS {
        match refuse(alloc, table, probes, refused, &mut fates)? {
            Refusal::Counted => {}
            Refusal::Otherwise => return write!(answer, " and otherwise without request {refused}"),
            Refusal::NoRequest => {
                push_count("memory", fates.memory, of_memory, answer)?;
                return push_count("same", fates.same, of_same, answer);
            }
        }
    }
    answer.push_str(" with no end")
}

// Appends the answers to a probe and to the probes after it, each to a text of its own.
fn push_both(
    desk: &mut Desk<Global>,
    table: &UniTable,
    (first, others): (&[u8], &[u8]),
    wanted: &mut String,
    behind: &mut String,
) -> Result<(), AllocError> {
    push_outcome(desk, table, first, wanted)?;
    push_outcomes(desk, table, others, behind)
}

/// Appends the answer to a probe. Then each of its allocations is failed in turn: the answer is `memory` or the same. A
/// count of either that is out of bounds is appended. Probes after it, which are separated by `|`, are answered each
/// time by the same state, as without failures.
pub(crate) fn push_refused(
    alloc: Global,
    table: &UniTable,
    rest: &[u8],
    answer: &mut String,
) -> Result<(), AllocError> {
    let Some((field, probes)) = split_once(rest, b' ') else {
        return answer.push_str("no probe");
    };
    let (Some(bounds), Some((first, others))) = (two_bounds_of(field), split_once(probes, b'|'))
    else {
        return answer.push_str("no probe");
    };
    let (mut wanted, mut behind) = (String::new(alloc), String::new(alloc));
    let mut ample = Desk::new(alloc, alloc);
    match push_both(&mut ample, table, (first, others), &mut wanted, &mut behind) {
        Ok(()) => {
            let probes = Refused {
                first,
                others,
                wanted: wanted.as_str(),
                behind: behind.as_str(),
            };
            push_one_by_one(alloc, table, probes, bounds, answer)
        }
        Err(error) => Err(error),
    }
}
