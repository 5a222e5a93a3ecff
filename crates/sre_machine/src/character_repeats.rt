//! Single-character repeats: `REPEAT_ONE skip least greatest test SUCCESS`, greedy, and in the same layout the lazy
//! MIN_REPEAT_ONE and POSSESSIVE_REPEAT_ONE.
//!
//! A greedy repeat tries the longest count first, then the shorter ones. A lazy one tries the least count first, then
//! the longer ones, each of which takes one more character. If the words show the tail's first character, the counts
//! after which it is missing are skipped in one step. A possessive one has the longest count only.

ghost use Rattle.std.specs.Prelude.{◌≡◌, ◌+◌, ◌≤◌, ◌≢◌, ◌⊎◌, MatchOption, true, IfOk, ⊤, ◌<◌, ◌||◌, nat_eq, nat_lt};
ghost use Rattle.sre_machine.specs.Terms.{Instruction, end_of, word, run_of, TestAt, BoardValue, OpcodeAt, Excludes};
ghost use Rattle.sre_machine.specs.Terms.{Shorter, unlimited, skip, Longer};
ghost use Rattle.sre_machine.specs.EndlessRuns.{AreOperands};
ghost use Rattle.sre_machine.specs.Turns.{At, scan_at, Turn, AtPoint, DemandedAt, SkipsBothAt, TurnAt};
ghost use Rattle.sre_model.specs.TreePrices as prices;

use crate::long_repeats::is_in_vain;
use crate::machine::{choose, first_literal, is_elsewhere, lacks, opcode, refuses};
use sre_board::Board;
use sre_chars::constants::{MAXREPEAT, SreOpcode};
use sre_chars::string::{StrDrive, StringCursor};
use sre_growth::Refusal;
use sre_request::one_character::takes;
use sre_request::runs::{longest_run, run_up_to};
use sre_request::text::{back_one, back_over, read};
use sre_request::words::{operand, word};
use sre_request::{Request, one_character};
use sre_turns::{Next, Point};
use std::alloc::Allocator;

/// The address of the repeat's tail, and the least and the greatest count of its characters.
#[derive(Clone, Copy)]
pub(super) struct RunOperands {
    pub(super) tail: usize,
    pub(super) least: usize,
    pub(super) greatest: u32,
}

/// The operands of the repeat at an address.
#[tactic(auto, using(sre_turns::proofs::semantics::StepsInRuns::operands_within))]
#[inline(always)]
pub(super) fn run_operands<S: StrDrive>(req: &Request<'_, S>, place: usize) -> RunOperands
    requires { TestAt req.now (place + 4) }
    ensures { AreOperands req.now place result }
{
    let skip = operand(req, place, 1) as usize;
    RunOperands {
        tail: place + 1 + skip,
        least: operand(req, place, 2) as usize,
        greatest: operand(req, place, 3),
    }
}

// What a repeat with these counts is charged for its scan of a range up to `end`.
#[inline(always)]
fn counted_price(least: usize, greatest: u32, end: usize) -> u64
    ensures { result ≡ prices.scan_price end least greatest }
{
    let counted = if greatest as usize == MAXREPEAT {
        least
    } else {
        least.max(greatest as usize)
    };
    counted.min(end) as u64 / 8
}

// What the repeat at an address is charged for its scan.
#[inline(always)]
fn run_price<S: StrDrive>(req: &Request<'_, S>, place: usize) -> u64
    requires { TestAt req.now (place + 4) }
    ensures { result ≡ prices.scan_price (end_of req.now) (word (run_of req.now).words (place + 2))
        (word (run_of req.now).words (place + 3)) }
{
    let operands = run_operands(req, place);
    counted_price(operands.least, operands.greatest, req.end())
}

/// What the instruction at an address is charged for its scan at most, beside its step: 1 for each 8 characters that
/// the counts of a single-character repeat allow, and nothing for another instruction.
#[inline(never)]
pub(super) fn scan_price<S: StrDrive>(
    req: &Request<'_, S>,
    place: usize,
    cursor: StringCursor,
) -> u64
    requires { At req.now place cursor }
    ensures { result ≤ scan_at req.now (Instruction place) }
{
    match opcode(req, place, cursor) {
        SreOpcode::REPEAT_ONE => run_price(req, place),
        SreOpcode::MIN_REPEAT_ONE => run_price(req, place),
        SreOpcode::POSSESSIVE_REPEAT_ONE => run_price(req, place),
        _ => 0,
    }
}

// One of the shorter counts of a repeat: how many are shorter still, and the cursor after its characters.
#[derive(Clone, Copy)]
pub(super) struct ShorterRun {
    pub(super) left: usize,
    pub(super) end: StringCursor,
}

// The first of the shorter counts of a repeat after which the tail may match, if there is one. No character is known
// that must follow, but the tail may be a position code, as in `.*$`.
#[inline(always)]
fn first_in_place<S: StrDrive>(
    req: &Request<'_, S>,
    tail: usize,
    count: usize,
    start: StringCursor,
) -> Option<ShorterRun>
    requires more { count ≢ 0 }
    requires stands { AtPoint req.now (Shorter tail count) start }
    ensures { MatchOption result
        ((b : BoardValue) → TurnAt req.now (Shorter tail count) start b Next.Back b)
        (λ x. SkipsBothAt req.now (Shorter tail count) start (Instruction tail) (Shorter tail x.left) x.end) }
{
    let mut left = count - 1;
    let mut cursor = back_one(req, start);
    if opcode(req, tail, cursor) != SreOpcode::AT {
        return Some(ShorterRun { left, end: cursor });
    }
    'count: while is_elsewhere(req, tail, cursor) {
        if left == 0 {
            return None;
        }
        left -= 1;
        cursor = back_one(req, cursor);
    }
    Some(ShorterRun { left, end: cursor })
}

// The first of the shorter counts of a repeat after which the tail may match, if there is one.
#[inline(always)]
fn first_shorter<S: StrDrive>(
    req: &Request<'_, S>,
    tail: usize,
    wanted: Option<u32>,
    count: usize,
    start: StringCursor,
) -> Option<ShorterRun>
    requires wanted { DemandedAt req.now tail wanted }
    requires stands { AtPoint req.now (Shorter tail count) start }
    ensures { MatchOption result
        ((b : BoardValue) → TurnAt req.now (Shorter tail count) start b Next.Back b)
        (λ x. SkipsBothAt req.now (Shorter tail count) start (Instruction tail) (Shorter tail x.left) x.end) }
{
    if count == 0 {
        return None;
    }
    let Some(value) = wanted else {
        return first_in_place(req, tail, count, start);
    };
    let mut cursor = start;
    let mut left = count;
    'count: loop {
        if left == 0 {
            return None;
        }
        left -= 1;
        let step = back_over(req, cursor, value);
        cursor = step.1;
        if step.0 {
            return Some(ShorterRun { left, end: cursor });
        }
    }
}

/// The shorter counts of a repeat, each followed by the tail. `wanted` is the tail's first character, if it is known.
#[inline(always)]
fn shorter<S: StrDrive, A: Allocator>(
    req: &Request<'_, S>,
    board: &mut Board<A>,
    tail: usize,
    wanted: Option<u32>,
    count: usize,
    start: StringCursor,
) -> Result<Next, Refusal<A>>
    requires wanted { DemandedAt req.now tail wanted }
    requires stands { AtPoint req.now (Shorter tail count) start }
    ensures { IfOk result (λ next. TurnAt req.now (Shorter tail count) start board.old next board.new) }
{
    let Some(found) = first_shorter(req, tail, wanted, count, start) else {
        board.note_vain(count);
        return Ok(Next::Back);
    };
    if found.left == 0 {
        return Ok(Next::At(tail, found.end));
    }
    Ok(choose(
        req,
        board,
        tail,
        Point::Shorter(tail, found.left),
        found.end,
    )?)
}

/// The shorter counts of a repeat that were saved.
#[inline(always)]
pub(super) fn shorter_saved<S: StrDrive, A: Allocator>(
    req: &Request<'_, S>,
    board: &mut Board<A>,
    tail: usize,
    count: usize,
    start: StringCursor,
) -> Result<Next, Refusal<A>>
    requires { AtPoint req.now (Shorter tail count) start }
    ensures { IfOk result (λ next. TurnAt req.now (Shorter tail count) start board.old next board.new) }
{
    if count == 0 {
        return Ok(Next::Back);
    }
    let nearest = back_one(req, start);
    let wanted = first_literal(req, tail, nearest);
    Ok(shorter(req, board, tail, wanted, count, start)?)
}

// Whether only the longest count of a repeat must be tried. Either no other is left, or the repeat's test does not take
// the character that the tail needs, so none of the repeat's own characters is that one. The latter is tested for a
// NOT_LITERAL only, as in `[^>]*>`, where one comparison decides it.
#[inline(always)]
fn is_only_count<S: StrDrive>(
    req: &Request<'_, S>,
    test: usize,
    wanted: Option<u32>,
    left: usize,
) -> bool
    requires { TestAt req.now test }
    ensures { result ≡ true → (left ≡ 0) ⊎ Excludes (run_of req.now).words test wanted }
{
    if left == 0 {
        return true;
    }
    let Some(character) = wanted else {
        return false;
    };
    word(req, test) == SreOpcode::NOT_LITERAL as u32 && operand(req, test, 1) == character
}

/// `REPEAT_ONE skip least greatest test SUCCESS`: the longest repeat of the test, then the shorter ones.
#[inline(always)]
pub(super) fn repeat_one<S: StrDrive, A: Allocator>(
    req: &Request<'_, S>,
    board: &mut Board<A>,
    place: usize,
    cursor: StringCursor,
) -> Result<Next, Refusal<A>>
    requires opcode { OpcodeAt req.now place SreOpcode.REPEAT_ONE }
    requires stands { At req.now place cursor }
    ensures { IfOk result (λ next. Turn req.now place cursor board.old next board.new) }
{
    let operands = run_operands(req, place);
    if is_in_vain(req, board, place + 4, operands.tail, cursor) {
        return Ok(Next::Back);
    }
    let run = longest_run(req, place + 4, operands.greatest, cursor);
    board.pass(run.count);
    if run.count < operands.least {
        return Ok(Next::Back);
    }
    let tail = operands.tail;
    let left = run.count - operands.least;
    let wanted = first_literal(req, tail, run.end);
    let is_only = is_only_count(req, place + 4, wanted, left);
    if lacks(req, wanted, run.end) {
        if is_only {
            return Ok(Next::Back);
        }
        return Ok(shorter(req, board, tail, wanted, left, run.end)?);
    }
    if is_only {
        return Ok(Next::At(tail, run.end));
    }
    Ok(choose(req, board, tail, Point::Shorter(tail, left), run.end)?)
}

// Whether a repeat may be longer than so many characters.
#[inline(always)]
fn may_grow(greatest: u32, count: usize) -> bool
    ensures { result ≡ (nat_eq greatest unlimited || nat_lt count greatest) }
{
    greatest as usize == MAXREPEAT || count < greatest as usize
}

// The cursor after one more character of a repeat, which has `count` of them, if it may be longer.
#[inline(always)]
pub(super) fn one_longer<S: StrDrive>(
    req: &Request<'_, S>,
    place: usize,
    operands: RunOperands,
    opcode: SreOpcode,
    count: usize,
    cursor: StringCursor,
) -> Option<StringCursor>
    requires read { AreOperands req.now place operands }
    requires opcode { OpcodeAt req.now (place + 4) opcode }
    requires stands { AtPoint req.now (Longer place count) cursor }
    ensures longer { MatchOption result
        ((b : BoardValue) → TurnAt req.now (Longer place count) cursor b Next.Back b)
        (λ after. SkipsBothAt req.now (Longer place count) cursor (Instruction operands.tail)
        (Longer place (count + 1)) after) }
    ensures inside { MatchOption result ⊤
        (λ after. (cursor.position < (run_of req.now).subject.end) × (after.position ≡ cursor.position + 1)) }
{
    if !may_grow(operands.greatest, count) {
        return None;
    }
    if cursor.position() >= req.end() {
        return None;
    }
    let (character, after) = read(req, cursor);
    if takes(req, place + 4, opcode, character) {
        Some(after)
    } else {
        None
    }
}

// How far a lazy repeat goes: after how many of its characters, and the cursor there if the tail may match.
#[derive(Clone, Copy)]
struct Reach {
    count: usize,
    end: Option<StringCursor>,
}

// The first of the longer counts after which the tail may match, if there is one. If BRIEF is set, a scan ends after 63
// characters, at a count after which the tail may fail. It is out of line, so that its loop has the registers to
// itself.
#[inline(never)]
fn first_longer<S: StrDrive, const BRIEF: bool>(
    req: &Request<'_, S>,
    place: usize,
    tail: usize,
    least: usize,
    start: StringCursor,
) -> Reach
    requires tail { tail ≡ skip (run_of req.now).words (place + 1) }
    requires stands { AtPoint req.now (Longer place least) start }
    ensures { MatchOption result.end
        ((b : BoardValue) → TurnAt req.now (Longer place least) start b Next.Back b)
        (λ end. SkipsBothAt req.now (Longer place least) start (Instruction tail) (Longer place result.count)
        end) }
{
    let operands = run_operands(req, place);
    let opcode = one_character::opcode(req, place + 4);
    let Some(nearest) = one_longer(req, place, operands, opcode, least, start) else {
        return Reach {
            count: least,
            end: None,
        };
    };
    let wanted = first_literal(req, tail, nearest);
    let mut cursor = nearest;
    let mut count = least + 1;
    'count: loop {
        if !lacks(req, wanted, cursor) {
            return Reach {
                count,
                end: Some(cursor),
            };
        }
        if BRIEF && count.saturating_sub(least) >= 63 {
            return Reach {
                count,
                end: Some(cursor),
            };
        }
        let Some(after) = one_longer(req, place, operands, opcode, count, cursor) else {
            return Reach { count, end: None };
        };
        cursor = after;
        count += 1;
    }
}

/// The longer counts of a repeat, after so many characters, each followed by the tail. If BRIEF is set, the step scans
/// less than 64 characters, for which nothing is charged.
#[inline(always)]
pub(super) fn longer<S: StrDrive, A: Allocator, const BRIEF: bool>(
    req: &Request<'_, S>,
    board: &mut Board<A>,
    place: usize,
    count: usize,
    start: StringCursor,
) -> Result<Next, Refusal<A>>
    requires { AtPoint req.now (Longer place count) start }
    ensures { IfOk result (λ next. TurnAt req.now (Longer place count) start board.old next board.new) }
{
    let tail = run_operands(req, place).tail;
    let reach = first_longer::<S, BRIEF>(req, place, tail, count, start);
    board.pass(reach.count.saturating_sub(count));
    let Some(end) = reach.end else {
        return Ok(Next::Back);
    };
    Ok(choose(req, board, tail, Point::Longer(place, reach.count), end)?)
}

/// The least count, then the longer ones. If the tail fails after the least count, the longer ones are tried in the
/// same step.
#[inline(always)]
pub(super) fn min_repeat_one<S: StrDrive, A: Allocator>(
    req: &Request<'_, S>,
    board: &mut Board<A>,
    place: usize,
    cursor: StringCursor,
) -> Result<Next, Refusal<A>>
    requires opcode { OpcodeAt req.now place SreOpcode.MIN_REPEAT_ONE }
    requires stands { At req.now place cursor }
    ensures { IfOk result (λ next. Turn req.now place cursor board.old next board.new) }
{
    let operands = run_operands(req, place);
    let tail = operands.tail;
    let least = operands.least;
    if req.end().saturating_sub(cursor.position()) < least {
        return Ok(Next::Back);
    }
    let run = run_up_to(req, place + 4, least, cursor);
    board.pass(run.count);
    if run.count < least {
        return Ok(Next::Back);
    }
    if refuses(req, tail, run.end) {
        return Ok(longer::<S, A, false>(req, board, place, least, run.end)?);
    }
    Ok(choose(req, board, tail, Point::Longer(place, least), run.end)?)
}

/// Continues after the longest repeat, if that is long enough.
#[inline(always)]
pub(super) fn possessive_repeat_one<S: StrDrive, A: Allocator>(
    req: &Request<'_, S>,
    board: &mut Board<A>,
    place: usize,
    cursor: StringCursor,
) -> Next
    requires opcode { OpcodeAt req.now place SreOpcode.POSSESSIVE_REPEAT_ONE }
    requires stands { At req.now place cursor }
    ensures { Turn req.now place cursor board.old result board.new }
{
    let operands = run_operands(req, place);
    let run = longest_run(req, place + 4, operands.greatest, cursor);
    board.pass(run.count);
    if run.count < operands.least {
        return Next::Back;
    }
    Next::At(operands.tail, run.end)
}
