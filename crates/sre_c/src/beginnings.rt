//! Where a match of a caller's bytecode may begin.

ghost use Rattle.std.specs.Prelude.{◌≡◌, ◌<◌, ◌||◌, ℕ, nat_le, false, length, slice_index_or};
ghost use Rattle.sre_c.specs.Terms.{contains};
ghost use Rattle.sre_c.specs.Known.{table_in};
ghost use Rattle.sre_c.specs.Beginnings.{Begins};

use crate::check;
use crate::code::SreCode;
use crate::status::Status;
use crate::table::table;
use sre_code::ascii_set::AsciiSet;
use sre_engine::engine::Beginnings;
use sre_engine::{CodeError, LentTable};
use std::alloc::Global;

// Writes which characters are in a set, or past ASCII.
fn write_flags(set: AsciiSet, flags: &mut [bool])
    ensures { (c : ℕ) → c < length flags.new → slice_index_or flags.new c false ≡ (nat_le 128 c || contains set c) }
{
    for c in 0..flags.len() {
        flags[c] = c >= 128 || set.contains(c as u32);
    }
}

// The same of a code whose table is at hand, and whether a match begins only at the start of a line.
fn begins_by<'a>(
    alloc: Global,
    code: &'a SreCode<'a>,
    uni: &'a LentTable<'a>,
    flags: &mut [bool],
    at_line_start: &mut bool,
) -> Status
    requires table { uni.now ≡ table_in code.now.table.now }
    requires none { at_line_start.old ≡ false }
    ensures begins { Begins result code.now flags.new at_line_start.new }
{
    let code = match check::code(alloc, code, uni) {
        Ok(code) => code,
        Err(CodeError::Memory) => return Status::Memory,
        Err(_) => return Status::NoCode,
    };
    let beginnings = Beginnings::of_code(&code);
    *at_line_start = beginnings.at_line_start;
    match beginnings.ascii {
        Some(characters) => {
            write_flags(characters, flags);
            Status::Yes
        }
        None => Status::No,
    }
}

/// Writes for each character with a flag whether a match may begin with it, if that is known, and whether it begins
/// only at the start of a line.
pub fn begins<'c>(
    alloc: Global,
    code: &'c SreCode<'c>,
    flags: &mut [bool],
    at_line_start: &mut bool,
) -> Status
    ensures begins { Begins result code.now flags.new at_line_start.new }
{
    *at_line_start = false;
    match table(alloc, code.table) {
        Some(uni) => begins_by(alloc, code, &uni, flags, at_line_start),
        None => Status::FaultyTable,
    }
}
