//! The repeat at the front of a code: if no match starts at its start, none starts inside it.
//!
//! A repeat from a start inside ends at the same position. So it leads to no end that the repeat from its start has not
//! tried. A search that continues after the repeat passes each character once.

ghost use Rattle.std.specs.Prelude.{◌≡◌, ◌+◌, ◌^◌, ◌<◌, ◌≤◌, length, true, IfSome, MatchOption, None};
ghost use Rattle.sre_engine.specs.Terms.{Tree, WholeItems, at_start, RunStands, end_of, asked_of, run_of, Standing};
ghost use Rattle.sre_engine.specs.Terms.{OpcodeAt};
ghost use Rattle.sre_engine.specs.Starts.{NoneUntil, PassesTo};

use crate::engine::first_characters::is_test;
use sre_chars::constants::{MAXREPEAT, SreOpcode};
use sre_chars::string::{StrDrive, StringCursor};
use sre_request::Request;
use sre_request::one_character::{opcode, takes, test_end};
use sre_request::runs::longest_run;
use sre_request::text::read;
use sre_request::words::{operand, word};
use std::convert::TryFrom;

/// A repeat without a greatest count at the front of the bytecode: the address of its test, and that of the single test
/// before it, if there is one.
#[derive(Clone, Copy)]
pub(crate) struct LeadingRun {
    first: Option<usize>,
    test: usize,
}

// The opcode at an address, if there is one.
#[inline(always)]
fn opcode_at<S: StrDrive>(req: &Request<'_, S>, place: usize) -> Option<SreOpcode>
    requires { place < length (run_of req.now).words }
    ensures opcode { IfSome result (λ opcode. OpcodeAt req.now place opcode) }
    ensures room { place + 2 ^ 33 < 2 ^ 64 }
{
    SreOpcode::try_from(word(req, place)).ok()
}

/// The repeat at the front of the bytecode, if it has no greatest count. At most one test of a character may be before
/// it, and MARKs if the code has no back-reference or conditional.
pub(crate) fn leading_run<S: StrDrive>(req: &Request<'_, S>) -> Option<LeadingRun>
    ensures { (t : Tree) → WholeItems (run_of req.now).words t
        → IfSome result (λ lead. RunStands (run_of req.now).words t lead.first lead.test) }
{
    let mut place = 0;
    let mut first = None;
    'item: loop {
        let opcode = opcode_at(req, place)?;
        match opcode {
            SreOpcode::MARK => {
                if req.pattern_codes().refers() {
                    return None;
                }
                place += 2;
            }
            SreOpcode::REPEAT_ONE | SreOpcode::MIN_REPEAT_ONE | SreOpcode::POSSESSIVE_REPEAT_ONE =>
                {
                    if operand(req, place, 3) as usize != MAXREPEAT {
                        return None;
                    }
                    let test = place + 4;
                    return Some(LeadingRun { first, test });
                }
            _ => {
                if first.is_some() || !is_test(opcode) {
                    return None;
                }
                first = Some(place);
                place = test_end(req, place, opcode);
            }
        }
    }
}

// The cursor one character on, if that is within the range.
#[inline(always)]
fn one_on<S: StrDrive>(req: &Request<'_, S>, start: StringCursor) -> Option<StringCursor>
    requires stands { Standing req.now start }
    ensures next { MatchOption result (end_of req.now ≤ start.position)
        (λ next. (next.position ≡ start.position + 1) × (next.position ≤ end_of req.now)) }
    ensures stands { IfSome result (λ next. Standing req.now next) }
{
    if start.position() >= req.end() {
        return None;
    }
    Some(read(req, start).1)
}

// The next start that may have a match, after a start that has none and the repeat from there.
fn past_run<S: StrDrive>(
    req: &Request<'_, S>,
    lead: &LeadingRun,
    start: StringCursor,
) -> Option<StringCursor>
    requires stands { Standing req.now start }
    requires inside { start.position ≤ end_of req.now }
    requires lead { (t : Tree) → WholeItems (run_of req.now).words t
        → RunStands (run_of req.now).words t lead.now.first lead.now.test }
    ensures next { IfSome result (λ next. (start.position < next.position) × (next.position ≤ end_of req.now)) }
    ensures stands { IfSome result (λ next. Standing req.now next) }
    ensures none { (t : Tree) → WholeItems (run_of req.now).words t
        → at_start (asked_of req.now) t start.position ≡ None
        → NoneUntil (asked_of req.now) t start.position result }
{
    let Some(first) = lead.first else {
        let run = longest_run(req, lead.test, MAXREPEAT as u32, start);
        return one_on(req, run.end);
    };
    if start.position() >= req.end() {
        return None;
    }
    let (character, after) = read(req, start);
    if !takes(req, first, opcode(req, first), character) {
        return Some(after);
    }
    let run = longest_run(req, lead.test, MAXREPEAT as u32, after);
    Some(run.end)
}

/// Moves from a start without a match to the next one that may have one: one character on, or past the leading repeat.
/// Returns whether there is one.
#[inline(always)]
pub(crate) fn pass_start<S: StrDrive>(
    req: &Request<'_, S>,
    lead: &Option<LeadingRun>,
    start: &mut StringCursor,
) -> bool
    requires stands { Standing req.now start.old }
    requires inside { start.old.position ≤ end_of req.now }
    requires lead { (t : Tree) → WholeItems (run_of req.now).words t
        → IfSome lead.now (λ run. RunStands (run_of req.now).words t run.first run.test) }
    ensures { PassesTo (run_of req.now) (asked_of req.now) start.old.position result start.new }
{
    let next = match lead {
        None => match one_on(req, *start) {
            None => return false,
            Some(next) => next,
        },
        Some(run) => match past_run(req, run, *start) {
            None => return false,
            Some(next) => next,
        },
    };
    *start = next;
    true
}
