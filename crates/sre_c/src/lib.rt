//! The engine for callers in C. Bytecode, tables and texts belong to the caller.
//!
//! `include/sre.h` declares the exports, and says what a caller owes. No export has a `requires`: for all numbers the
//! result is that of a status, and the clause says what that status implies. `sre_abi` alone returns another number.
//! `sre_answer_*` and `sre_walk_*` check bytecode and lists whose `checked` is not set; if it is set, the struct
//! carries the result as a fact.
#![tactic(auto)]

ghost use Rattle.std.specs.Prelude.{◌≡◌, ◌≤◌, length, None};
ghost use Rattle.sre_c.specs.Answered.{Tells, Answers, no_limit};
ghost use Rattle.sre_c.specs.Known.{table_in};
ghost use Rattle.sre_c.specs.Checked.{TableChecked, CodeChecked};
ghost use Rattle.sre_c.specs.Given.{InUtf8};
ghost use Rattle.sre_c.specs.Walked.{begun_of, Walks};
ghost use Rattle.sre_c.specs.Bounded.{Bounds};
ghost use Rattle.sre_c.specs.Beginnings.{Begins};

mod answer;
mod asks;
mod beginnings;
mod check;
mod code;
mod keep;
mod numbers;
mod pattern;
mod spans;
mod status;
mod step_bound;
mod table;
mod types;
mod utf8;
mod walk;

use answer::answer;
use asks::{Machine, Once};
use beginnings::begins;
use check::check_code;
use code::SreCode;
use keep::{answer_by_pattern, take, walk_by_pattern};
use numbers::{Points, Units};
use pattern::SrePattern;
use status::Status;
use std::alloc::Global;
use step_bound::step_bound;
use table::check_table;
use types::{SreAsked, SreFound, SreTable, SreWalked};
use utf8::{Utf8, read_utf8};
use walk::{begun, walk};

/// The number of the declarations of `include/sre.h`, which are these statuses, structs and functions
/// (`tools/header.py`).
#[unsafe(no_mangle)]
pub extern "C" fn sre_abi() -> u32
    ensures { result ≡ 849984695 }
{
    849_984_695
}

/// Checks the lists of a table, and sets `checked` and `error`.
#[unsafe(no_mangle)]
pub extern "C" fn sre_check_table(alloc: Global, table: &mut SreTable<'_>) -> u32
    ensures checked { Tells result (λ status. TableChecked status table.new) }
    ensures table { table_in table.new ≡ table_in table.old }
{
    check_table(alloc, table).number()
}

/// Checks bytecode, and fills in hints and `checked`, or `error` and `place`.
#[unsafe(no_mangle)]
pub extern "C" fn sre_check_code(alloc: Global, code: &mut SreCode<'_>) -> u32
    ensures checked { Tells result (λ status. CodeChecked status code.new) }
    ensures words { code.new.words.now ≡ code.old.words.now }
    ensures table { code.new.table.now ≡ code.old.table.now }
{
    check_code(alloc, code).number()
}

/// The step bound of a code for texts of so many characters: a step limit that suffices for any range, unless an
/// allocation fails. Writes 0 if there is none.
#[unsafe(no_mangle)]
pub extern "C" fn sre_step_bound(
    alloc: Global,
    code: &SreCode<'_>,
    characters: usize,
    steps: &mut u64,
) -> u32
    ensures bounds { Tells result (λ status. Bounds status code.now characters steps.new) }
{
    step_bound(alloc, code, characters, steps).number()
}

/// Writes for each character below the number of flags whether a match may begin with it, if that is known. Then no
/// match begins at the end of a range. With a character without a flag one may begin. Also writes whether a match
/// begins only at the start of the text or after a newline.
#[unsafe(no_mangle)]
pub extern "C" fn sre_begins(
    alloc: Global,
    code: &SreCode<'_>,
    flags: &mut [bool],
    at_line_start: &mut bool,
) -> u32
    ensures begins { Tells result (λ status. Begins status code.now flags.new at_line_start.new) }
{
    begins(alloc, code, flags, at_line_start).number()
}

/// The match in bytes, each of which is a character. Positions are byte offsets.
#[unsafe(no_mangle)]
pub extern "C" fn sre_answer_bytes(
    alloc: Global,
    code: &SreCode<'_>,
    text: &[u8],
    asked: &SreAsked,
    found: &mut SreFound,
    marks: &mut [usize],
) -> u32
    ensures answers { Tells result (λ status.
        Answers status code.now text.now asked.now (length marks.old) found.new marks.new) }
    ensures steps { found.new.steps ≤ asked.now.steps }
    ensures unlimited { asked.now.steps ≡ no_limit → found.new.steps ≡ asked.now.steps }
{
    answer(alloc, &mut Once, code, text, asked, found, marks).number()
}

/// The match in UTF-8, whose code points are the characters.
#[unsafe(no_mangle)]
pub extern "C" fn sre_answer_utf8(
    alloc: Global,
    code: &SreCode<'_>,
    text: &[u8],
    asked: &SreAsked,
    found: &mut SreFound,
    marks: &mut [usize],
) -> u32
    ensures answers { Tells result (λ status.
        InUtf8 status text.now (λ chars.
        Answers status code.now chars asked.now (length marks.old) found.new marks.new)
        (found.new.steps ≡ asked.now.steps)) }
    ensures steps { found.new.steps ≤ asked.now.steps }
    ensures unlimited { asked.now.steps ≡ no_limit → found.new.steps ≡ asked.now.steps }
{
    let status = match read_utf8(text, true) {
        Utf8::Ascii(text) => answer(alloc, &mut Once, code, text, asked, found, marks),
        Utf8::Text(text) => answer(alloc, &mut Once, code, text, asked, found, marks),
        Utf8::Invalid => {
            found.steps = asked.steps;
            Status::NotUtf8
        }
    };
    status.number()
}

/// The match in code points of 32 bits, surrogates included.
#[unsafe(no_mangle)]
pub extern "C" fn sre_answer_points(
    alloc: Global,
    code: &SreCode<'_>,
    text: &[u32],
    asked: &SreAsked,
    found: &mut SreFound,
    marks: &mut [usize],
) -> u32
    ensures answers { Tells result (λ status.
        Answers status code.now text.now asked.now (length marks.old) found.new marks.new) }
    ensures steps { found.new.steps ≤ asked.now.steps }
    ensures unlimited { asked.now.steps ≡ no_limit → found.new.steps ≡ asked.now.steps }
{
    answer(
        alloc,
        &mut Machine,
        code,
        Points { points: text },
        asked,
        found,
        marks,
    )
    .number()
}

/// The match in code units of 16 bits, each of which is a character.
#[unsafe(no_mangle)]
pub extern "C" fn sre_answer_units(
    alloc: Global,
    code: &SreCode<'_>,
    text: &[u16],
    asked: &SreAsked,
    found: &mut SreFound,
    marks: &mut [usize],
) -> u32
    ensures answers { Tells result (λ status.
        Answers status code.now text.now asked.now (length marks.old) found.new marks.new) }
    ensures steps { found.new.steps ≤ asked.now.steps }
    ensures unlimited { asked.now.steps ≡ no_limit → found.new.steps ≡ asked.now.steps }
{
    answer(
        alloc,
        &mut Machine,
        code,
        Units { units: text },
        asked,
        found,
        marks,
    )
    .number()
}

/// All matches in bytes, each of which is a character, in rows. Positions are byte offsets.
#[unsafe(no_mangle)]
pub extern "C" fn sre_walk_bytes(
    alloc: Global,
    code: &SreCode<'_>,
    text: &[u8],
    asked: &SreAsked,
    width: usize,
    rows: &mut [usize],
    walked: &mut SreWalked,
) -> u32
    ensures walks { Tells result (λ status.
        Walks status code.now text.now asked.now width walked.new rows.new) }
    ensures steps { walked.new.steps ≤ asked.now.steps }
    ensures unlimited { asked.now.steps ≡ no_limit → walked.new.steps ≡ asked.now.steps }
{
    walk(alloc, &mut Once, code, text, asked, width, rows, walked).number()
}

/// All matches in UTF-8, whose code points are the characters, in rows.
#[unsafe(no_mangle)]
pub extern "C" fn sre_walk_utf8(
    alloc: Global,
    code: &SreCode<'_>,
    text: &[u8],
    asked: &SreAsked,
    width: usize,
    rows: &mut [usize],
    walked: &mut SreWalked,
) -> u32
    ensures walks { Tells result (λ status.
        InUtf8 status text.now (λ chars. Walks status code.now chars asked.now width walked.new rows.new)
        (walked.new ≡ begun_of asked.now)) }
    ensures steps { walked.new.steps ≤ asked.now.steps }
    ensures unlimited { asked.now.steps ≡ no_limit → walked.new.steps ≡ asked.now.steps }
{
    let status = match read_utf8(text, true) {
        Utf8::Ascii(text) => walk(alloc, &mut Once, code, text, asked, width, rows, walked),
        Utf8::Text(text) => walk(alloc, &mut Once, code, text, asked, width, rows, walked),
        Utf8::Invalid => {
            *walked = begun(asked);
            Status::NotUtf8
        }
    };
    status.number()
}

/// All matches in code points of 32 bits, surrogates included, in rows.
#[unsafe(no_mangle)]
pub extern "C" fn sre_walk_points(
    alloc: Global,
    code: &SreCode<'_>,
    text: &[u32],
    asked: &SreAsked,
    width: usize,
    rows: &mut [usize],
    walked: &mut SreWalked,
) -> u32
    ensures walks { Tells result (λ status.
        Walks status code.now text.now asked.now width walked.new rows.new) }
    ensures steps { walked.new.steps ≤ asked.now.steps }
    ensures unlimited { asked.now.steps ≡ no_limit → walked.new.steps ≡ asked.now.steps }
{
    walk(
        alloc,
        &mut Machine,
        code,
        Points { points: text },
        asked,
        width,
        rows,
        walked,
    )
    .number()
}

/// All matches in code units of 16 bits, each of which is a character, in rows.
#[unsafe(no_mangle)]
pub extern "C" fn sre_walk_units(
    alloc: Global,
    code: &SreCode<'_>,
    text: &[u16],
    asked: &SreAsked,
    width: usize,
    rows: &mut [usize],
    walked: &mut SreWalked,
) -> u32
    ensures walks { Tells result (λ status.
        Walks status code.now text.now asked.now width walked.new rows.new) }
    ensures steps { walked.new.steps ≤ asked.now.steps }
    ensures unlimited { asked.now.steps ≡ no_limit → walked.new.steps ≡ asked.now.steps }
{
    walk(
        alloc,
        &mut Machine,
        code,
        Units { units: text },
        asked,
        width,
        rows,
        walked,
    )
    .number()
}

/// `sre_answer_bytes` for the code of a pattern, which keeps the DFAs that its calls build.
#[unsafe(no_mangle)]
pub extern "C" fn sre_pattern_answer_bytes(
    alloc: Global,
    pattern: &mut SrePattern<'_>,
    text: &[u8],
    asked: &SreAsked,
    found: &mut SreFound,
    marks: &mut [usize],
) -> u32
    ensures answers { Tells result (λ status.
        Answers status pattern.old.code text.now asked.now (length marks.old) found.new marks.new) }
    ensures steps { found.new.steps ≤ asked.now.steps }
    ensures unlimited { asked.now.steps ≡ no_limit → found.new.steps ≡ asked.now.steps }
    ensures code { pattern.new.code ≡ pattern.old.code }
{
    answer_by_pattern(alloc, pattern, text, asked, found, marks).number()
}

/// `sre_answer_utf8` for the code of a pattern, which keeps the DFAs that its calls build.
#[unsafe(no_mangle)]
pub extern "C" fn sre_pattern_answer_utf8(
    alloc: Global,
    pattern: &mut SrePattern<'_>,
    text: &[u8],
    asked: &SreAsked,
    found: &mut SreFound,
    marks: &mut [usize],
) -> u32
    ensures answers { Tells result (λ status.
        InUtf8 status text.now (λ chars.
        Answers status pattern.old.code chars asked.now (length marks.old) found.new marks.new)
        (found.new.steps ≡ asked.now.steps)) }
    ensures steps { found.new.steps ≤ asked.now.steps }
    ensures unlimited { asked.now.steps ≡ no_limit → found.new.steps ≡ asked.now.steps }
    ensures code { pattern.new.code ≡ pattern.old.code }
{
    let status = match read_utf8(text, !pattern.reads_utf8) {
        Utf8::Ascii(text) => answer_by_pattern(alloc, pattern, text, asked, found, marks),
        Utf8::Text(text) => {
            pattern.reads_utf8 = true;
            answer_by_pattern(alloc, pattern, text, asked, found, marks)
        }
        Utf8::Invalid => {
            found.steps = asked.steps;
            Status::NotUtf8
        }
    };
    status.number()
}

/// `sre_walk_bytes` for the code of a pattern, which keeps the DFAs that its calls build.
#[unsafe(no_mangle)]
pub extern "C" fn sre_pattern_walk_bytes(
    alloc: Global,
    pattern: &mut SrePattern<'_>,
    text: &[u8],
    asked: &SreAsked,
    width: usize,
    rows: &mut [usize],
    walked: &mut SreWalked,
) -> u32
    ensures walks { Tells result (λ status.
        Walks status pattern.old.code text.now asked.now width walked.new rows.new) }
    ensures steps { walked.new.steps ≤ asked.now.steps }
    ensures unlimited { asked.now.steps ≡ no_limit → walked.new.steps ≡ asked.now.steps }
    ensures code { pattern.new.code ≡ pattern.old.code }
{
    walk_by_pattern(alloc, pattern, text, asked, width, rows, walked).number()
}

/// `sre_walk_utf8` for the code of a pattern, which keeps the DFAs that its calls build.
#[unsafe(no_mangle)]
pub extern "C" fn sre_pattern_walk_utf8(
    alloc: Global,
    pattern: &mut SrePattern<'_>,
    text: &[u8],
    asked: &SreAsked,
    width: usize,
    rows: &mut [usize],
    walked: &mut SreWalked,
) -> u32
    ensures walks { Tells result (λ status.
        InUtf8 status text.now (λ chars. Walks status pattern.old.code chars asked.now width walked.new rows.new)
        (walked.new ≡ begun_of asked.now)) }
    ensures steps { walked.new.steps ≤ asked.now.steps }
    ensures unlimited { asked.now.steps ≡ no_limit → walked.new.steps ≡ asked.now.steps }
    ensures code { pattern.new.code ≡ pattern.old.code }
{
    let status = match read_utf8(text, !pattern.reads_utf8) {
        Utf8::Ascii(text) => walk_by_pattern(alloc, pattern, text, asked, width, rows, walked),
        Utf8::Text(text) => {
            pattern.reads_utf8 = true;
            walk_by_pattern(alloc, pattern, text, asked, width, rows, walked)
        }
        Utf8::Invalid => {
            *walked = begun(asked);
            Status::NotUtf8
        }
    };
    status.number()
}

/// Frees what a pattern keeps. It can be used again, and then builds anew.
#[unsafe(no_mangle)]
pub extern "C" fn sre_pattern_free(alloc: Global, pattern: &mut SrePattern<'_>)
    ensures code { pattern.new.code ≡ pattern.old.code }
    ensures empty { pattern.new.kept.code ≡ None }
{
    drop(take(alloc, pattern));
}
