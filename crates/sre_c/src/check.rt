//! The check of a caller's bytecode.

ghost use Rattle.std.specs.Prelude.{◌≡◌, ◌≢◌, IfOk, IfErr, OnOk};
ghost use Rattle.sre_c.specs.Terms.{Tree, Whole, IsCode, Refused, words_of, place_of, uni_of};
ghost use Rattle.sre_c.specs.Known.{table_in, hints_told, AreHints};
ghost use Rattle.sre_c.specs.Checked.{CodeChecked};

use crate::code::SreCode;
use crate::status::Status;
use crate::table::table;
use crate::types::SreHints;
use sre_engine::{Code, CodeError, Hints, LentTable};
use std::alloc::Global;

// The hints of a code, as they cross to C.
fn hints(code: &Code<'_>) -> SreHints
    ensures { (t : Tree) → Whole (words_of code.now) t → AreHints (words_of code.now) (uni_of code.now) t result }
{
    let hints = code.hints();
    let (prefix, prefix_skip) = hints.prefix.unwrap_or((0, 0));
    SreHints {
        width: hints.width.unwrap_or(0),
        prefix,
        prefix_skip,
        longest_lookbehind: code.longest_lookbehind(),
        asked_from: code.asked_from(),
        has_width: hints.width.is_some(),
        has_prefix: hints.prefix.is_some(),
        literal: hints.literal,
        first_set: hints.first_set,
        refers: code.refers(),
    }
}

// The address at which an error was seen.
fn place(error: CodeError) -> usize
    ensures { result ≡ place_of error }
{
    match error {
        CodeError::Memory => 0,
        CodeError::Truncated(place) => place,
        CodeError::UnknownOpcode(place) => place,
        CodeError::UnknownAt(place) => place,
        CodeError::UnknownCategory(place) => place,
        CodeError::BadSkip(place) => place,
        CodeError::BadCounts(place) => place,
        CodeError::BadItem(place) => place,
        CodeError::BadSet(place) => place,
        CodeError::BadInfo(place) => place,
        CodeError::TrailingWords(place) => place,
    }
}

// The hints of a code, from those of C.
#[inline]
fn hints_told(hints: SreHints) -> Hints
    ensures { result ≡ hints_told hints }
{
    Hints {
        width: if hints.has_width {
            Some(hints.width)
        } else {
            None
        },
        prefix: if hints.has_prefix {
            Some((hints.prefix, hints.prefix_skip))
        } else {
            None
        },
        literal: hints.literal,
        first_set: hints.first_set,
    }
}

/// The code of a caller's bytecode, which is read only if it is not `checked`.
///
/// # Errors
///
/// Those of [`Code::check_lent`], and only if the bytecode is not `checked`.
#[inline]
pub fn code<'a>(
    alloc: Global,
    given: &SreCode<'a>,
    uni: &'a LentTable<'a>,
) -> Result<Code<'a>, CodeError>
    requires table { uni.now ≡ table_in given.now.table.now }
    ensures words { IfOk result (λ code. words_of code ≡ given.now.words.now) }
    ensures uni { IfOk result (λ code. uni_of code ≡ table_in given.now.table.now) }
    ensures tree { OnOk result (IsCode given.now.words.now) }
    ensures refused { IfErr result (λ e. e ≢ CodeError.Memory → (t : Tree) → ¬ (Whole given.now.words.now t)) }
    ensures grows { IfErr result (λ e. e ≡ CodeError.Memory → Refused Global) }
{
    if given.checked {
        let hints = given.hints;
        return Ok(Code::from_checked(
            given.words,
            uni,
            hints_told(hints),
            hints.refers,
            hints.asked_from,
            hints.longest_lookbehind,
        ));
    }
    Code::check_lent(alloc, given.words, uni)
}

/// Checks bytecode, and fills in hints and `checked`, or `error` and `place`.
pub fn check_code(alloc: Global, code: &mut SreCode<'_>) -> Status
    ensures checked { CodeChecked result code.new }
    ensures words { code.new.words.now ≡ code.old.words.now }
    ensures table { code.new.table.now ≡ code.old.table.now }
{
    code.checked = false;
    let Some(uni) = table(alloc, code.table) else {
        return Status::FaultyTable;
    };
    match Code::check_lent(alloc, code.words, &uni) {
        Ok(checked) => {
            *code = SreCode {
                words: code.words,
                table: code.table,
                place: code.place,
                error: 0,
                hints: hints(&checked),
                checked: true,
            };
            Status::Yes
        }
        Err(CodeError::Memory) => Status::Memory,
        Err(error) => {
            code.error = error.number();
            code.place = place(error);
            Status::NoCode
        }
    }
}
