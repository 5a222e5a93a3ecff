//! The step bound of a caller's bytecode.

ghost use Rattle.std.specs.Prelude.{◌≡◌};
ghost use Rattle.sre_c.specs.Known.{table_in};
ghost use Rattle.sre_c.specs.Bounded.{Bounds};

use crate::check;
use crate::code::SreCode;
use crate::status::Status;
use crate::table::table;
use sre_engine::{CodeError, LentTable};
use std::alloc::Global;

// The step bound of a code whose table is at hand.
fn bound_by<'a>(
    alloc: Global,
    code: &'a SreCode<'a>,
    uni: &'a LentTable<'a>,
    characters: usize,
    steps: &mut u64,
) -> Status
    requires table { uni.now ≡ table_in code.now.table.now }
    requires none { steps.old ≡ 0 }
    ensures bounds { Bounds result code.now characters steps.new }
{
    let code = match check::code(alloc, code, uni) {
        Ok(code) => code,
        Err(CodeError::Memory) => return Status::Memory,
        Err(_) => return Status::NoCode,
    };
    match code.step_bound(characters) {
        Some(bound) => {
            *steps = bound;
            Status::Yes
        }
        None => Status::No,
    }
}

/// Writes the step bound of a code for texts of so many characters, or 0 if there is none.
pub fn step_bound<'c>(
    alloc: Global,
    code: &'c SreCode<'c>,
    characters: usize,
    steps: &mut u64,
) -> Status
    ensures bounds { Bounds result code.now characters steps.new }
{
    *steps = 0;
    match table(alloc, code.table) {
        Some(uni) => bound_by(alloc, code, &uni, characters, steps),
        None => Status::FaultyTable,
    }
}
