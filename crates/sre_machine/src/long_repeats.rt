//! Long single-character repeats, over whose characters a search would go again and again.
//!
//! A repeat must fail if the LITERAL that its tail needs is nowhere in the rest of the range. Searching for it costs
//! less than a repeat over as many characters, and yet much if the repeat is short. So it is searched only after
//! repeats have failed over much of the text, as at each step of an iteration of `[a-z]*b|a` over letters a.
//!
//! With an open memo, a repeat without a greatest count goes step by step. Its outcomes are those of the same repeat
//! one character later, and those after its own first end. Of a possessive one they are those of the later repeat
//! alone, if there is one. So the machine continues at that later repeat, which is looked up and tried like any
//! instruction. Each end is tried once, wherever the repeat began.

ghost use Rattle.std.specs.Prelude.{◌≡◌, ℕ, ◌<◌, ◌≤◌, true, length, None, ◌+◌, ◌-◌, ◌^◌, MatchOption, IfOk, false};
ghost use Rattle.sre_machine.specs.Terms.{Opcode, Standing, TestAt, unlimited, Longer, end_of, OpcodeAt, WordAt};
ghost use Rattle.sre_machine.specs.Turns.{RefusesAt, DemandedAt, At, TurnOnce, AtPoint, TurnAt};
ghost use Rattle.sre_machine.specs.EndlessRuns.{TakenAt, NotTakenAt, LacksLeast, EndsFirst, BeginsLater, IsEndlessRun};
ghost use Rattle.sre_machine.specs.EndlessRuns.{HasOtherEnds};

use crate::character_repeats::{longer, one_longer, run_operands};
use crate::machine::{opcode, refuses};
use sre_board::{Board, LOOK_SPEED};
use sre_chars::constants::{MAXREPEAT, SreOpcode};
use sre_chars::string::{StrDrive, StringCursor};
use sre_growth::Refusal;
use sre_request::one_character::takes;
use sre_request::runs::{longest_run, run_up_to};
use sre_request::text::read;
use sre_request::words::{operand, word, word_at};
use sre_request::{Request, one_character};
use sre_turns::{Next, Point};
use std::alloc::Allocator;
use std::convert::TryFrom;

// Whether an opcode is at an address.
#[inline(always)]
fn stands_at(words: &[u32], place: usize, opcode: SreOpcode) -> bool
    ensures { result ≡ true → (Opcode words.now place opcode) × (place < length words.now) }
{
    match word_at(words, place) {
        Some(word) => word == opcode as u32,
        None => false,
    }
}

// The character that must come next at an address, if a LITERAL gives it, after MARKs. The machine may never reach the
// address, so the bytecode may end before it.
fn demanded_at<S: StrDrive>(req: &Request<'_, S>, start: usize) -> Option<u32>
    ensures { DemandedAt req.now start result }
{
    let words = req.pattern_codes().items();
    let _length = words.len(); // a slice has few items, so no address overflows
    let mut place = start;
    'mark: while stands_at(words, place, SreOpcode::MARK) {
        place += 2;
    }
    if !stands_at(words, place, SreOpcode::LITERAL) {
        return None;
    }
    word_at(words, place + 1)
}

// Whether the code at an address fails from a cursor on, because its LITERAL is nowhere up to the end of the range.
fn is_nowhere<S: StrDrive>(req: &Request<'_, S>, place: usize, cursor: StringCursor) -> bool
    requires { Standing req.now cursor }
    ensures { result ≡ true → (q : ℕ) → cursor.position ≤ q → RefusesAt req.now place q }
{
    if cursor.position() >= req.end() {
        return false;
    }
    let Some(character) = demanded_at(req, place) else {
        return false;
    };
    let mut found = cursor;
    !req.string().seek(&mut found, character, req.end())
}

// Whether the tail of a repeat fails so, if the repeat takes at least 1 in `LOOK_SPEED` of the remaining characters.
#[inline(never)]
fn lacks_what_follows<S: StrDrive>(
    req: &Request<'_, S>,
    test: usize,
    tail: usize,
    cursor: StringCursor,
) -> bool
    requires test { TestAt req.now test }
    requires stands { Standing req.now cursor }
    ensures { result ≡ true → (q : ℕ) → cursor.position ≤ q → RefusesAt req.now tail q }
{
    let left = req.end().saturating_sub(cursor.position());
    let part = u32::try_from(left / LOOK_SPEED).unwrap_or(u32::MAX);
    longest_run(req, test, part, cursor).count >= part as usize && is_nowhere(req, tail, cursor)
}

/// Whether the tail of a repeat is known to fail from a cursor on. It is tested only if the last failed repeat was
/// long, and this one is, too. The test counts as scanning twice the part that the repeat covers, since it scans the
/// rest much faster.
#[inline(always)]
pub(super) fn is_in_vain<S: StrDrive, A: Allocator>(
    req: &Request<'_, S>,
    board: &mut Board<A>,
    test: usize,
    tail: usize,
    cursor: StringCursor,
) -> bool
    requires test { TestAt req.now test }
    requires stands { Standing req.now cursor }
    ensures told { result ≡ true → (q : ℕ) → cursor.position ≤ q → RefusesAt req.now tail q }
    ensures board { board.new ≡ board.old }
{
    if !board.ran_long_in_vain() {
        return false;
    }
    let left = req.end().saturating_sub(cursor.position());
    if !board.is_look_worth(left) {
        return false;
    }
    board.pass(left / (LOOK_SPEED / 2));
    lacks_what_follows(req, test, tail, cursor)
}

/// Whether a repeat without a greatest count is at an address.
#[inline(always)]
pub(super) fn is_endless_run<S: StrDrive>(
    req: &Request<'_, S>,
    place: usize,
    cursor: StringCursor,
) -> bool
    requires { At req.now place cursor }
    ensures on { result ≡ true → IsEndlessRun req.now place }
    ensures off { result ≡ false → IsEndlessRun req.now place → ⊥ }
{
    match opcode(req, place, cursor) {
        SreOpcode::REPEAT_ONE => operand(req, place, 3) as usize == MAXREPEAT,
        SreOpcode::MIN_REPEAT_ONE => operand(req, place, 3) as usize == MAXREPEAT,
        SreOpcode::POSSESSIVE_REPEAT_ONE => operand(req, place, 3) as usize == MAXREPEAT,
        _ => false,
    }
}

// Whether the repeat at an address is possessive. If not, it has other ends beside its longest.
#[inline(always)]
fn gives_nothing_back<S: StrDrive>(req: &Request<'_, S>, place: usize) -> bool
    requires { IsEndlessRun req.now place }
    ensures possessive { result ≡ true → OpcodeAt req.now place SreOpcode.POSSESSIVE_REPEAT_ONE }
    ensures others { result ≡ false → HasOtherEnds req.now place }
{
    word(req, place) == SreOpcode::POSSESSIVE_REPEAT_ONE as u32
}

// Whether only MARKs come between an address and a SUCCESS, so that nothing fails there.
fn only_ends<S: StrDrive>(req: &Request<'_, S>, start: usize) -> bool {
    let words = req.pattern_codes().items();
    let _length = words.len(); // a slice has few items, so no address overflows
    let mut place = start;
    'mark: while stands_at(words, place, SreOpcode::MARK) {
        place += 2;
    }
    stands_at(words, place, SreOpcode::SUCCESS)
}

/// Whether a repeat should scan at once in any case, inside an atomic scope whose ends are not memoized. It should if
/// it is possessive, or if the scope ends after it, since only its first end then counts.
#[inline(always)]
pub(super) fn is_better_at_once<S: StrDrive>(req: &Request<'_, S>, place: usize) -> bool
    requires { IsEndlessRun req.now place }
{
    if gives_nothing_back(req, place) {
        return true;
    }
    only_ends(req, run_operands(req, place).tail)
}

// Whether the repeat at an address is lazy. If not, it is greedy.
#[inline(always)]
fn is_lazy<S: StrDrive>(req: &Request<'_, S>, place: usize) -> bool
    requires { HasOtherEnds req.now place }
    ensures lazy { result ≡ true → OpcodeAt req.now place SreOpcode.MIN_REPEAT_ONE }
    ensures greedy { result ≡ false → OpcodeAt req.now place SreOpcode.REPEAT_ONE }
{
    word(req, place) == SreOpcode::MIN_REPEAT_ONE as u32
}

// Whether the test at an address takes the next character of the range.
#[inline(always)]
fn takes_next<S: StrDrive>(
    req: &Request<'_, S>,
    place: usize,
    test: SreOpcode,
    cursor: StringCursor,
) -> bool
    requires opcode { OpcodeAt req.now place test }
    requires test { TestAt req.now place }
    requires stands { Standing req.now cursor }
    ensures taken { result ≡ true → TakenAt req.now place cursor.position }
    ensures inside { result ≡ true → cursor.position < end_of req.now }
    ensures not_taken { result ≡ false → NotTakenAt req.now place cursor.position }
{
    if cursor.position() >= req.end() {
        return false;
    }
    let (character, _after) = read(req, cursor);
    takes(req, place, test, character)
}

// The first end of a repeat, after its least count, and where the repeat with the other ends begins: one character
// later, if there are any.
#[derive(Clone, Copy)]
struct FirstEnd {
    end: StringCursor,
    later: Option<StringCursor>,
}

// The first end of a repeat without a greatest count, if it has one.
#[inline(always)]
fn first_end<S: StrDrive, A: Allocator>(
    req: &Request<'_, S>,
    board: &mut Board<A>,
    place: usize,
    least: usize,
    start: StringCursor,
) -> Option<FirstEnd>
    requires test { TestAt req.now (place + 4) }
    requires room { place + 2 ^ 33 < 2 ^ 64 }
    requires stands { Standing req.now start }
    ensures ends { MatchOption result
        (LacksLeast req.now place least start.position)
        (λ x. EndsFirst req.now place least start.position x.end x.later) }
    ensures board { board.new ≡ board.old }
{
    if req.end().saturating_sub(start.position()) < least {
        return None;
    }
    let run = run_up_to(req, place + 4, least, start);
    board.pass(run.count);
    if run.count < least {
        return None;
    }
    let end = run.end;
    let test = one_character::opcode(req, place + 4);
    if !takes_next(req, place + 4, test, end) {
        return Some(FirstEnd { end, later: None });
    }
    let (_character, after) = read(req, start);
    Some(FirstEnd {
        end,
        later: Some(after),
    })
}

/// A repeat without a greatest count, with an open memo: its first end, and the same repeat one character later. For a
/// possessive one it is the later repeat alone, or the end if there is no later one.
#[inline(always)]
pub(super) fn endless_run<S: StrDrive, A: Allocator>(
    req: &Request<'_, S>,
    board: &mut Board<A>,
    place: usize,
    cursor: StringCursor,
) -> Result<Next, Refusal<A>>
    requires on { IsEndlessRun req.now place }
    requires stands { At req.now place cursor }
    ensures { IfOk result (λ next. TurnOnce req.now place cursor board.old next board.new) }
{
    let operands = run_operands(req, place);
    let Some(first) = first_end(req, board, place, operands.least, cursor) else {
        return Ok(Next::Back);
    };
    let end = first.end;
    let Some(later) = first.later else {
        return Ok(Next::At(operands.tail, end));
    };
    if gives_nothing_back(req, place) {
        return Ok(Next::At(place, later));
    }
    if refuses(req, operands.tail, end) {
        return Ok(Next::At(place, later));
    }
    if is_lazy(req, place) {
        board.save(Point::Instruction(place), later)?;
        return Ok(Next::At(operands.tail, end));
    }
    board.save(Point::Instruction(operands.tail), end)?;
    Ok(Next::At(place, later))
}

// Whether the repeat at an address is lazy and has no greatest count.
#[inline(always)]
fn goes_on_lazily<S: StrDrive>(req: &Request<'_, S>, place: usize) -> bool
    requires { TestAt req.now (place + 4) }
    ensures lazy { result ≡ true → OpcodeAt req.now place SreOpcode.MIN_REPEAT_ONE }
    ensures greatest { result ≡ true → WordAt req.now (place + 3) unlimited }
{
    if word(req, place) != SreOpcode::MIN_REPEAT_ONE as u32 {
        return false;
    }
    operand(req, place, 3) as usize == MAXREPEAT
}

// Where the repeat with the ends after a given one begins, if there are any.
#[inline(always)]
fn later_start<S: StrDrive>(
    req: &Request<'_, S>,
    place: usize,
    least: usize,
    end: StringCursor,
) -> Option<StringCursor>
    requires test { TestAt req.now (place + 4) }
    requires room { place + 2 ^ 33 < 2 ^ 64 }
    requires least { least ≤ 1 }
    requires stands { Standing req.now end }
    ensures { MatchOption result
        (NotTakenAt req.now (place + 4) end.position)
        (λ later. BeginsLater req.now place least end.position later) }
{
    let test = one_character::opcode(req, place + 4);
    if !takes_next(req, place + 4, test, end) {
        return None;
    }
    if least == 1 {
        return Some(end);
    }
    let (_character, after) = read(req, end);
    Some(after)
}

/// The longer counts of a repeat that were saved. If they were saved before the memo opened, and the repeat has no
/// greatest count: the next of them, and the same repeat from later on for the others. So these are looked up and tried
/// as those of any repeat. All others are tried in brief steps, so that no step costs more than one.
#[inline(never)]
pub(super) fn later_run<S: StrDrive, A: Allocator>(
    req: &Request<'_, S>,
    board: &mut Board<A>,
    place: usize,
    count: usize,
    start: StringCursor,
) -> Result<Next, Refusal<A>>
    requires { AtPoint req.now (Longer place count) start }
    ensures { IfOk result (λ next. TurnAt req.now (Longer place count) start board.old next board.new) }
{
    let operands = run_operands(req, place);
    let least = operands.least;
    if least > 1 {
        return longer::<S, A, true>(req, board, place, count, start);
    }
    if !goes_on_lazily(req, place) {
        return longer::<S, A, true>(req, board, place, count, start);
    }
    let test = one_character::opcode(req, place + 4);
    let Some(end) = one_longer(req, place, operands, test, count, start) else {
        return Ok(Next::Back);
    };
    let Some(later) = later_start(req, place, least, end) else {
        return Ok(Next::At(operands.tail, end));
    };
    board.save(Point::Instruction(place), later)?;
    Ok(Next::At(operands.tail, end))
}
