//! Lines as `sre_cases` answers them, with each allocation failed in turn.

use crate::counts::{Bounds, push_count, two_bounds_of};
use crate::heaps::{MOST_REQUESTS, Refusal};
use crate::probe::cut;
use sre_failing_allocator::Refusing;
use sre_lines::cases::{CaseFault, answer_lines};
use sre_lines::line::split_once;
use std::alloc::{AllocError, Global};

// A run over some lines: how it ends, its answers, and whether an allocation was failed.
#[derive(Drop)]
struct Run {
    end: Result<(), CaseFault>,
    answers: Vec<u8>,
    is_refused: bool,
}

// Answers lines with the allocation of a number failed. With number 0 none fails.
fn run_refused(alloc: Global, refused: u64, lines: &[u8]) -> Run {
    let heap = Refusing::new(alloc, refused);
    let mut answers = Vec::new(alloc);
    let end = answer_lines(alloc, &heap, lines, &mut answers);
    Run {
        end,
        answers,
        is_refused: refused > 0 && heap.left() == 0,
    }
}

// The first of some lines, and the lines after it.
fn first_and_rest(lines: &[u8]) -> (&[u8], &[u8]) {
    match split_once(lines, b'\n') {
        Some(parts) => parts,
        None => lines.split_at(lines.len()),
    }
}

// The number of answers that are `memory` instead of the wanted ones. `None` if another answer differs.
fn memories(answers: &[u8], wanted: &[u8]) -> Option<u64> {
    let (mut left, mut others, mut found) = (answers, wanted, 0u64);
    for _ in 0..MOST_REQUESTS {
        let (line, rest) = first_and_rest(left);
        let (other, behind) = first_and_rest(others);
        if line != other {
            if line != b"memory".as_slice() {
                return None;
            }
            found = found.saturating_add(1);
        }
        (left, others) = (rest, behind);
    }
    Some(found)
}

// How often a line was not read to its end, and how often an answer was `memory`.
#[derive(Clone, Copy)]
struct Fates {
    reading: u64,
    memory: u64,
}

// Counts the outcome of lines with a failed allocation. Returns whether it is one of the two.
fn count(fates: &mut Fates, ran: &Run, ample: &Run) -> bool {
    let (answers, wanted) = (ran.answers.as_slice(), ample.answers.as_slice());
    if ran.end == Err(CaseFault::NoMemory) {
        fates.reading = fates.reading.saturating_add(1);
        return wanted.starts_with(answers);
    }
    fates.memory = fates.memory.saturating_add(1);
    ran.end == ample.end && memories(answers, wanted) == Some(1)
}

// Whether two runs have the same end and answers.
fn is_same(ran: &Run, ample: &Run) -> bool {
    ran.end == ample.end && ran.answers.as_slice() == ample.answers.as_slice()
}

// Fails the allocation with a number, and counts the outcome of the lines.
fn refuse(alloc: Global, refused: u64, lines: &[u8], ample: &Run, fates: &mut Fates) -> Refusal {
    let ran = run_refused(alloc, refused, lines);
    if !ran.is_refused && is_same(&ran, ample) {
        Refusal::NoRequest
    } else if ran.is_refused && count(fates, &ran, ample) {
        Refusal::Counted
    } else {
        Refusal::Otherwise
    }
}

// Fails each allocation in turn, until the lines make fewer. Returns the outcomes.
fn fates_of(alloc: Global, lines: &[u8], ample: &Run) -> Option<Fates> {
    let mut fates = Fates {
        reading: 0,
        memory: 0,
    };
    for refused in 1..MOST_REQUESTS {
        match refuse(alloc, refused, lines, ample, &mut fates) {
            Refusal::Counted => {}
            Refusal::Otherwise => return None,
            Refusal::NoRequest => return Some(fates),
        }
    }
    None
}

// Appends the lines of a probe, which separates them by `|`, as a file has them.
fn push_divided(field: &[u8], lines: &mut Vec<u8>) -> Result<(), AllocError> {
    for byte in field {
        lines.push(if *byte == b'|' { b'\n' } else { *byte })?;
    }
    Ok(())
}

// Appends lines, each as text.
fn push_each(lines: &[u8], answer: &mut String) -> Result<(), AllocError> {
    let mut left = Some(lines);
    for _ in 0..lines.len().saturating_add(1) {
        let Some(several) = left else {
            return Ok(());
        };
        let (line, others) = cut(several, b'\n');
        answer.push_str(str::from_utf8(line).unwrap_or("no text"))?;
        answer.push_str("|")?;
        left = others;
    }
    Ok(())
}

// Appends answers, and the fault after them.
fn push_run(run: &Run, answer: &mut String) -> Result<(), AllocError> {
    push_each(run.answers.as_slice(), answer)?;
    match run.end {
        Ok(()) => Ok(()),
        Err(fault) => write!(answer, "{fault:?}"),
    }
}

// Appends the answers to lines, with each allocation failed in turn, and any count that is out of bounds.
fn push_one_by_one(
    alloc: Global,
    lines: &[u8],
    ample: &Run,
    (of_reading, of_memory): (Bounds, Bounds),
    answer: &mut String,
) -> Result<(), AllocError> {
    push_run(ample, answer)?;
    let Some(fates) = fates_of(alloc, lines, ample) else {
        return answer.push_str(" and otherwise where memory is refused");
    };
    push_count("reading", fates.reading, of_reading, answer)?;
    push_count("memory", fates.memory, of_memory, answer)
}

// The same, with the run in which no allocation fails.
fn push_refused(
    alloc: Global,
    lines: &[u8],
    bounds: (Bounds, Bounds),
    answer: &mut String,
) -> Result<(), AllocError> {
    let ample = run_refused(alloc, 0, lines);
    push_one_by_one(alloc, lines, &ample, bounds, answer)
}

/// Appends the answers to lines, which are separated by `|`, and their fault. Then each allocation is failed in turn:
/// either a line is not read to its end, or an answer is `memory`. A count of either that is out of bounds is appended.
pub(crate) fn push_lines(
    alloc: Global,
    rest: &[u8],
    answer: &mut String,
) -> Result<(), AllocError> {
    let Some((field, lines)) = split_once(rest, b' ') else {
        return answer.push_str("no probe");
    };
    let Some(bounds) = two_bounds_of(field) else {
        return answer.push_str("no bounds");
    };
    let mut divided = Vec::new(alloc);
    match push_divided(lines, &mut divided) {
        Ok(()) => push_refused(alloc, divided.as_slice(), bounds, answer),
        Err(error) => Err(error),
    }
}
