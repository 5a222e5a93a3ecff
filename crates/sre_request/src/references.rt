//! Back-references: whether the characters of a group repeat at a cursor, and where they differ.
//!
//! The opcode is matched once, before a loop of its own that folds case as the opcode does.

ghost use Rattle.std.specs.Prelude.{◌≡◌, ◌+◌, ◌≤◌, length, is_ok, IfOk};
ghost use Rattle.sre_request.specs.Terms.{Fold, folded};
ghost use Rattle.sre_model.specs.Grammar.{reference_opcode};
ghost use Rattle.sre_model.specs.Subject.{same_folded};
ghost use Rattle.sre_model.specs.Roles.{ToRefer, role};
ghost use Rattle.sre_request.specs.Requests.{end_of};
ghost use Rattle.sre_request.specs.Runs.{run_of, Standing};

use crate::Request;
use crate::text::{read, read_in_text};
use sre_chars::constants::SreOpcode;
use sre_chars::string::{LentTable, StrDrive, StringCursor, lower_ascii, lower_unicode};

/// A character, folded as a back-reference's opcode folds it.
#[inline(always)]
pub fn folded(uni: &LentTable, opcode: SreOpcode, character: u32) -> u32
    requires { role opcode ≡ ToRefer }
    ensures { (fold : Fold) → opcode ≡ reference_opcode fold → result ≡ folded uni.now fold character }
{
    match opcode {
        SreOpcode::GROUPREF => character,
        SreOpcode::GROUPREF_IGNORE => lower_ascii(character),
        SreOpcode::GROUPREF_LOC_IGNORE => lower_ascii(character),
        SreOpcode::GROUPREF_UNI_IGNORE => lower_unicode(uni, character),
        _ => unreachable!(),
    }
}

// The same as `is_repeated`, if the opcode is a constant.
#[inline(always)]
fn is_repeated_folded<S: StrDrive>(
    req: &Request<'_, S>,
    opcode: SreOpcode,
    start: StringCursor,
    cursor: StringCursor,
    count: usize,
) -> Result<StringCursor, usize>
    requires opcode { role opcode ≡ ToRefer }
    requires group { Standing req.now start }
    requires stands { Standing req.now cursor }
    requires in_text { start.position + count ≤ length (run_of req.now).subject.text }
    requires in_window { cursor.position + count ≤ end_of req.now }
    ensures repeated { (fold : Fold) → opcode ≡ reference_opcode fold
        → is_ok result ≡ same_folded (run_of req.now).subject fold count start.position cursor.position }
    ensures position { IfOk result (λ behind. behind.position ≡ cursor.position + count) }
    ensures stands { IfOk result (λ behind. Standing req.now behind) }
{
    let uni = req.pattern_codes().uni();
    let mut of_group = start;
    let mut here = cursor;
    let mut passed = 0;
    'character: while passed < count {
        let (expected, after_expected) = read_in_text(req, of_group);
        let (character, after) = read(req, here);
        if folded(uni, opcode, expected) != folded(uni, opcode, character) {
            return Err(passed);
        }
        of_group = after_expected;
        here = after;
        passed += 1;
    }
    Ok(here)
}

/// The cursor after so many characters of the range from a cursor on, if they equal those of a group from its start on,
/// both folded as the opcode folds them. Otherwise the number of characters before the first that differ.
pub fn is_repeated<S: StrDrive>(
    req: &Request<'_, S>,
    opcode: SreOpcode,
    start: StringCursor,
    cursor: StringCursor,
    count: usize,
) -> Result<StringCursor, usize>
    requires opcode { role opcode ≡ ToRefer }
    requires group { Standing req.now start }
    requires stands { Standing req.now cursor }
    requires in_text { start.position + count ≤ length (run_of req.now).subject.text }
    requires in_window { cursor.position + count ≤ end_of req.now }
    ensures repeated { (fold : Fold) → opcode ≡ reference_opcode fold
        → is_ok result ≡ same_folded (run_of req.now).subject fold count start.position cursor.position }
    ensures position { IfOk result (λ behind. behind.position ≡ cursor.position + count) }
    ensures stands { IfOk result (λ behind. Standing req.now behind) }
{
    // An arm for each opcode, so that each loop knows its own.
    macro_rules! repeated_each {
        ($($opcode:ident)*) => {
            match opcode {
                $(SreOpcode::$opcode => {
                    is_repeated_folded(req, SreOpcode::$opcode, start, cursor, count)
                })*
                _ => unreachable!(),
            }
        };
    }
    repeated_each!(GROUPREF GROUPREF_IGNORE GROUPREF_LOC_IGNORE GROUPREF_UNI_IGNORE)
}
