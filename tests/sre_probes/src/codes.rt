//! The check of bytecode, and the Unicode tables' entries of a character.

use crate::probe::{Desk, number_of, word_of};
use sre_engine::string::{category, lower_ascii, lower_unicode, upper_ascii, upper_unicode};
use sre_engine::{Code, CodeError, SreCatCode, UniTable};
use sre_lines::answer::push_hints;
use sre_lines::line::{Case, read_case, split_once};
use std::alloc::{AllocError, Global};

/// Appends what a code reports about its bytecode, or why the check rejects it.
pub(crate) fn push_code(
    desk: &mut Desk<Global>,
    table: &UniTable,
    case: &[u8],
    answer: &mut String,
) -> Result<(), AllocError> {
    let Ok(Case::Check) = read_case(case, &mut desk.operands) else {
        return answer.push_str("no case");
    };
    match Code::check(desk.alloc, desk.operands.words.as_slice(), table) {
        Ok(code) => {
            push_hints(answer, &code.hints())?;
            let (items, refers, longest) =
                (code.items().len(), code.refers(), code.longest_lookbehind());
            write!(
                answer,
                " items {items} refers {refers} lookbehind {longest} asked {} to {}",
                code.asked_from(),
                code.asked_to()
            )
        }
        Err(error) => write!(answer, "{error}, number {}", error.number()),
    }
}

/// Appends the step bound of a code for a text of so many characters, if one is known.
pub(crate) fn push_enough(
    desk: &mut Desk<Global>,
    table: &UniTable,
    rest: &[u8],
    answer: &mut String,
) -> Result<(), AllocError> {
    let Some((field, case)) = split_once(rest, b' ') else {
        return answer.push_str("no case");
    };
    let Some(characters) = number_of(field) else {
        return answer.push_str("no number");
    };
    let Ok(Case::Check) = read_case(case, &mut desk.operands) else {
        return answer.push_str("no case");
    };
    let Ok(code) = Code::check(desk.alloc, desk.operands.words.as_slice(), table) else {
        return answer.push_str("refused");
    };
    match code.step_bound(characters as usize) {
        Some(steps) => write!(answer, "{steps}"),
        None => answer.push_str("none"),
    }
}

// Why bytecode is rejected.
fn refusal(alloc: Global, words: &[u32], table: &UniTable) -> Option<CodeError> {
    Code::check(alloc, words, table).err()
}

// Whether each proper prefix of the bytecode is rejected as truncated, and a longer list for its trailing words.
fn are_whole(desk: &mut Desk<Global>, table: &UniTable) -> Result<bool, AllocError> {
    let length = desk.operands.words.len();
    for cut in 0..length {
        let front = &desk.operands.words.as_slice()[..cut];
        if refusal(desk.alloc, front, table) != Some(CodeError::Truncated(cut)) {
            return Ok(false);
        }
    }
    desk.operands.words.push(1)?;
    let longer = refusal(desk.alloc, desk.operands.words.as_slice(), table);
    Ok(longer == Some(CodeError::TrailingWords(length)))
}

/// Appends whether bytecode is rejected as `Truncated` wherever it is cut, and as `TrailingWords` with one more word.
pub(crate) fn push_cuts(
    desk: &mut Desk<Global>,
    table: &UniTable,
    case: &[u8],
    answer: &mut String,
) -> Result<(), AllocError> {
    let Ok(Case::Check) = read_case(case, &mut desk.operands) else {
        return answer.push_str("no case");
    };
    answer.push_str(if are_whole(desk, table)? {
        "whole"
    } else {
        "otherwise"
    })
}

/// Appends the other cases of a character by ASCII and by the tables, and whether the tables have it as alphanumeric.
pub(crate) fn push_letter(
    table: &UniTable,
    field: &[u8],
    answer: &mut String,
) -> Result<(), AllocError> {
    let Some(ch) = word_of(field) else {
        return answer.push_str("no number");
    };
    let (lower, upper) = (lower_unicode(table, ch), upper_unicode(table, ch));
    let word = category(table, SreCatCode::UNI_WORD, ch);
    let other = category(table, SreCatCode::UNI_NOT_WORD, ch);
    write!(
        answer,
        "{} {} {lower} {upper} {word} {other}",
        lower_ascii(ch),
        upper_ascii(ch)
    )
}
