//! The texts of answers.

ghost use Rattle.std.specs.Prelude.{◌≡◌, ◌++◌, codes, OnOk, string_bytes};
ghost use Rattle.sre_lines.specs.Terms.{decimal, signed_decimal, place_of};
ghost use Rattle.sre_lines.specs.Answers.{hints_text, marks_text, number_text, yes_no_text, refusal_name, refusal_text};

use sre_engine::code::{CodeError, Hints};
use std::alloc::{AllocError, Allocator};

/// Appends the answer to a `check` of bytecode that passes.
pub fn push_hints<A: Allocator>(answer: &mut String<A>, hints: &Hints) -> Result<(), AllocError>
    ensures { OnOk result (string_bytes answer.new ≡ string_bytes answer.old
        ++ hints_text hints.now.width hints.now.prefix hints.now.literal hints.now.first_set) }
{
    answer.push_str("ok width ")?;
    match hints.width {
        Some(width) => write!(answer, "{width}")?,
        None => answer.push_str("-")?,
    }
    answer.push_str(" prefix ")?;
    match hints.prefix {
        Some((length, skip)) => write!(answer, "{length},{skip}")?,
        None => answer.push_str("-")?,
    }
    let literal = yes_or_no(hints.literal);
    let first_set = yes_or_no(hints.first_set);
    write!(answer, " literal {literal} set {first_set}")
}

fn yes_or_no(holds: bool) -> &'static str
    ensures { result.now ≡ yes_no_text holds }
{
    if holds { "yes" } else { "no" }
}

/// Appends that bytecode is rejected, with the cause and the address at which the check found it.
pub fn push_refusal<A: Allocator>(
    answer: &mut String<A>,
    error: CodeError,
) -> Result<(), AllocError>
    ensures { OnOk result (string_bytes answer.new ≡ string_bytes answer.old ++ refusal_text error) }
{
    let (name, place) = name_and_place(error);
    write!(answer, "refused {name} {place}")
}

// The name of a cause, and its address.
fn name_and_place(error: CodeError) -> (&'static str, usize)
    ensures name { result.0.now ≡ refusal_name error }
    ensures place { result.1 ≡ place_of error }
{
    match error {
        CodeError::Memory => ("Memory", 0),
        CodeError::Truncated(place) => ("Truncated", place),
        CodeError::UnknownOpcode(place) => ("UnknownOpcode", place),
        CodeError::UnknownAt(place) => ("UnknownAt", place),
        CodeError::UnknownCategory(place) => ("UnknownCategory", place),
        CodeError::BadSkip(place) => ("BadSkip", place),
        CodeError::BadCounts(place) => ("BadCounts", place),
        CodeError::BadItem(place) => ("BadItem", place),
        CodeError::BadSet(place) => ("BadSet", place),
        CodeError::BadInfo(place) => ("BadInfo", place),
        CodeError::TrailingWords(place) => ("TrailingWords", place),
    }
}

/// Appends the start and the end of a match. Positions count characters.
pub fn push_span<A: Allocator>(
    answer: &mut String<A>,
    start: usize,
    end: usize,
) -> Result<(), AllocError>
    ensures { OnOk result
        (string_bytes answer.new ≡ string_bytes answer.old ++ (decimal start ++ codes ".." ++ decimal end)) }
{
    write!(answer, "{start}..{end}")
}

/// Appends a match from `start` to `end`, with its last index and its capture slots. Positions count characters.
pub fn push_match<A: Allocator>(
    answer: &mut String<A>,
    start: usize,
    end: usize,
    last_index: isize,
    marks: &[Option<usize>],
) -> Result<(), AllocError>
    ensures { OnOk result
        (string_bytes answer.new ≡ string_bytes answer.old ++ (codes "yes " ++ decimal start ++ codes ".."
        ++ decimal end ++ codes " last " ++ signed_decimal last_index ++ codes " marks " ++ marks_text marks.now)) }
{
    write!(answer, "yes {start}..{end} last {last_index} marks ")?;
    push_marks(answer, marks)
}

// Appends capture slots separated by commas, or `none` if there are none.
fn push_marks<A: Allocator>(
    answer: &mut String<A>,
    marks: &[Option<usize>],
) -> Result<(), AllocError>
    ensures { OnOk result (string_bytes answer.new ≡ string_bytes answer.old ++ marks_text marks.now) }
{
    let Some((first, others)) = marks.split_first() else {
        return answer.push_str("none");
    };
    push_mark(answer, *first)?;
    for mark in others {
        answer.push_str(",")?;
        push_mark(answer, *mark)?;
    }
    Ok(())
}

// Appends the position in a capture slot, or `-` if it is not set.
fn push_mark<A: Allocator>(answer: &mut String<A>, mark: Option<usize>) -> Result<(), AllocError>
    ensures { OnOk result (string_bytes answer.new ≡ string_bytes answer.old ++ number_text mark) }
{
    match mark {
        Some(position) => write!(answer, "{position}"),
        None => answer.push_str("-"),
    }
}
