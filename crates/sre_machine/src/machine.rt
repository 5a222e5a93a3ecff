//! The machine: one step of a backtracking run over the bytecode, without recursion.
//!
//! It rests on two facts: the text is lawful, and the bytecode has a tree. So it has no test for malformed bytecode.
//! The contract of each opcode's function says that the accepted outcomes of the run stay the same, with one step less.
//! Choices wait on the backtrack stack. A choice that is known to fail is not pushed.

ghost use Rattle.std.specs.Prelude.{◌≡◌, ℕ, ◌+◌, ◌^◌, ◌<◌, IfOk, MatchOption, true, nat_le};
ghost use Rattle.sre_machine.specs.Terms.{BoardValue, Instruction, Longer, Point, IsBack, Chooses, begins_test, Test};
ghost use Rattle.sre_machine.specs.Terms.{run_of, OpcodeAt, TestAt, Standing, TestStandsAt, test_takes, role};
ghost use Rattle.sre_model.specs.Roles.{ToRefer};
ghost use Rattle.sre_machine.specs.Memos.{RecallsOf};
ghost use Rattle.sre_machine.specs.Turns.{At, AtPoint, AtOnBoard, Turn, TurnAt, DemandedAt, RefusesAt, Retreats};
ghost use Rattle.sre_machine.specs.Turns.{Finishes};

use crate::branches::{alternatives, branch};
use crate::character_repeats::{
    longer, min_repeat_one, possessive_repeat_one, repeat_one, shorter_saved,
};
use crate::long_repeats::later_run;
use crate::loops::{max_until, min_until, repeat};
use crate::memo::Memo;
use crate::scopes::{assert, assert_not, atomic_group, possessive_repeat, without_outcome};
use crate::trying::keep;
use sre_board::{Board, LOOK_SPEED};
use sre_chars::constants::{SreAtCode, SreOpcode};
use sre_chars::string::{StrDrive, StringCursor};
use sre_growth::Refusal;
use sre_request::Request;
use sre_request::one_character::{takes, takes_seldom, test_end};
use sre_request::position::holds_at;
use sre_request::references::is_repeated;
use sre_request::text::{cursor_at, read};
use sre_request::words::{operand, word};
use sre_turns::{Next, Point};
use std::alloc::Allocator;
use std::convert::TryFrom;

// The opcode at the machine's address.
#[inline(always)]
pub(super) fn opcode<S: StrDrive>(
    req: &Request<'_, S>,
    place: usize,
    cursor: StringCursor,
) -> SreOpcode
    requires { At req.now place cursor }
    ensures code { OpcodeAt req.now place result }
    ensures room { place + 2 ^ 33 < 2 ^ 64 }
{
    match SreOpcode::try_from(word(req, place)) {
        Ok(opcode) => opcode,
        Err(_) => unreachable!(),
    }
}

// Whether the test at an address takes a character. The test is out of line if it is rare.
#[inline(always)]
fn takes_either<S: StrDrive, const SELDOM: bool>(
    req: &Request<'_, S>,
    place: usize,
    opcode: SreOpcode,
    character: u32,
) -> bool
    requires code { OpcodeAt req.now place opcode }
    requires stands { TestAt req.now place }
    ensures { (j : ℕ) (t : Test) → TestStandsAt req.now place j t
        → result ≡ test_takes req.now t character }
{
    if SELDOM {
        takes_seldom(req, place, opcode, character)
    } else {
        takes(req, place, opcode, character)
    }
}

/// A test of one character, which passes if it takes the next one. Rare tests share one read of the character.
#[inline(always)]
fn test<S: StrDrive, const SELDOM: bool>(
    req: &Request<'_, S>,
    opcode: SreOpcode,
    place: usize,
    cursor: StringCursor,
) -> Next
    requires opcode { OpcodeAt req.now place opcode }
    requires tests { begins_test opcode ≡ true }
    requires stands { At req.now place cursor }
    ensures { (b : BoardValue) → Turn req.now place cursor b result b }
{
    if cursor.position() >= req.end() {
        return Next::Back;
    }
    let (character, after) = read(req, cursor);
    if takes_either::<S, SELDOM>(req, place, opcode, character) {
        Next::At(test_end(req, place, opcode), after)
    } else {
        Next::Back
    }
}

/// `AT code`: continues if the position code holds at the cursor.
#[inline(always)]
fn position_code<S: StrDrive>(req: &Request<'_, S>, place: usize, cursor: StringCursor) -> Next
    requires opcode { OpcodeAt req.now place SreOpcode.AT }
    requires stands { At req.now place cursor }
    ensures { (b : BoardValue) → Turn req.now place cursor b result b }
{
    match SreAtCode::try_from(operand(req, place, 1)) {
        Ok(code) => {
            if holds_at(req, code, cursor) {
                Next::At(place + 2, cursor)
            } else {
                Next::Back
            }
        }
        Err(_) => unreachable!(),
    }
}

/// `MARK n`: sets capture slot n to the position.
#[inline(always)]
fn mark<S: StrDrive, A: Allocator>(
    req: &Request<'_, S>,
    board: &mut Board<A>,
    place: usize,
    cursor: StringCursor,
) -> Result<Next, Refusal<A>>
    requires opcode { OpcodeAt req.now place SreOpcode.MARK }
    requires stands { At req.now place cursor }
    ensures { IfOk result (λ next. Turn req.now place cursor board.old next board.new) }
{
    let n = operand(req, place, 1);
    board.set(n, cursor.position())?;
    Ok(Next::At(place + 2, cursor))
}

/// `JUMP skip`: continues at the target of the skip.
#[inline(always)]
fn jump<S: StrDrive>(req: &Request<'_, S>, place: usize, cursor: StringCursor) -> Next
    requires opcode { OpcodeAt req.now place SreOpcode.JUMP }
    requires stands { At req.now place cursor }
    ensures { (b : BoardValue) → Turn req.now place cursor b result b }
{
    let skip = operand(req, place, 1);
    Next::At(place + 1 + skip as usize, cursor)
}

// Whether so many characters from a position on end within the range.
#[inline(always)]
fn is_inside(position: usize, count: usize, end: usize) -> bool
    ensures { result ≡ nat_le (position + count) end }
{
    position <= end && count <= end - position
}

/// `GROUPREF group` and its foldings: passes the characters of the group, folded on both sides.
#[inline(always)]
fn reference<S: StrDrive, A: Allocator>(
    req: &Request<'_, S>,
    board: &mut Board<A>,
    opcode: SreOpcode,
    place: usize,
    cursor: StringCursor,
) -> Next
    requires opcode { OpcodeAt req.now place opcode }
    requires refers { role opcode ≡ ToRefer }
    requires stands { AtOnBoard req.now (Instruction place) cursor board.old }
    ensures { Turn req.now place cursor board.old result board.new }
{
    let number = operand(req, place, 1);
    let Some((start, end)) = board.group(number) else {
        return Next::Back;
    };
    let count = end - start;
    if !is_inside(cursor.position(), count, req.end()) {
        return Next::Back;
    }
    // The way to the group and the equal characters are charged, and not the characters after the first that differ.
    board.pass(cursor.position().saturating_sub(start) / LOOK_SPEED);
    let group = cursor_at(req, cursor, start);
    match is_repeated(req, opcode, group, cursor, count) {
        Ok(after) => {
            board.pass(count);
            Next::At(place + 2, after)
        }
        Err(equal) => {
            board.pass(equal);
            Next::Back
        }
    }
}

/// `GROUPREF_EXISTS group skip yes` or `GROUPREF_EXISTS group skip yes JUMP skip no`: continues with the yes part if
/// the group is set, else at the target of the skip, counted from the group's word.
#[inline(always)]
fn condition<S: StrDrive, A: Allocator>(
    req: &Request<'_, S>,
    board: &Board<A>,
    place: usize,
    cursor: StringCursor,
) -> Next
    requires opcode { OpcodeAt req.now place SreOpcode.GROUPREF_EXISTS }
    requires stands { At req.now place cursor }
    ensures { Turn req.now place cursor board.now result board.now }
{
    let number = operand(req, place, 1);
    let skip = operand(req, place, 2);
    match board.group(number) {
        Some(_) => Next::At(place + 3, cursor),
        None => Next::At(place + 1 + skip as usize, cursor),
    }
}

// The character that must come next at an address, if a LITERAL gives it, after MARKs.
#[inline(always)]
pub(super) fn first_literal<S: StrDrive>(
    req: &Request<'_, S>,
    start: usize,
    cursor: StringCursor,
) -> Option<u32>
    requires { At req.now start cursor }
    ensures { DemandedAt req.now start result }
{
    let mut place = start;
    'mark: loop {
        match opcode(req, place, cursor) {
            SreOpcode::MARK => {
                let _number = operand(req, place, 1);
                place += 2;
            }
            SreOpcode::LITERAL => return Some(operand(req, place, 1)),
            _ => return None,
        }
    }
}

// Whether a required character, if it is known, is missing.
#[inline(always)]
pub(super) fn lacks<S: StrDrive>(
    req: &Request<'_, S>,
    wanted: Option<u32>,
    cursor: StringCursor,
) -> bool
    requires { Standing req.now cursor }
    ensures { result ≡ true
        → (i : ℕ) → DemandedAt req.now i wanted → RefusesAt req.now i cursor.position }
{
    let Some(value) = wanted else {
        return false;
    };
    if cursor.position() >= req.end() {
        return true;
    }
    let found = read(req, cursor);
    if found.0 == value {
        return false;
    }
    true
}

// Whether an instruction fails because of the next character.
#[inline(always)]
pub(super) fn refuses<S: StrDrive>(req: &Request<'_, S>, place: usize, cursor: StringCursor) -> bool
    requires { At req.now place cursor }
    ensures { result ≡ true → RefusesAt req.now place cursor.position }
{
    let wanted = first_literal(req, place, cursor);
    lacks(req, wanted, cursor)
}

// Whether the position code of an AT does not hold.
#[inline(never)]
pub(super) fn is_elsewhere<S: StrDrive>(
    req: &Request<'_, S>,
    place: usize,
    cursor: StringCursor,
) -> bool
    requires opcode { OpcodeAt req.now place SreOpcode.AT }
    requires stands { At req.now place cursor }
    ensures { result ≡ true → RefusesAt req.now place cursor.position }
{
    let Ok(code) = SreAtCode::try_from(operand(req, place, 1)) else {
        unreachable!()
    };
    !holds_at(req, code, cursor)
}

// Whether a loop's end fails because of the next character, or because of a position code there.
#[inline(always)]
pub(super) fn ends_in_vain<S: StrDrive>(
    req: &Request<'_, S>,
    place: usize,
    cursor: StringCursor,
) -> bool
    requires { At req.now place cursor }
    ensures { result ≡ true → RefusesAt req.now place cursor.position }
{
    match opcode(req, place, cursor) {
        SreOpcode::AT => is_elsewhere(req, place, cursor),
        _ => refuses(req, place, cursor),
    }
}

// Continues at an instruction, and saves another point.
#[inline(always)]
pub(super) fn choose<S: StrDrive, A: Allocator>(
    req: &Request<'_, S>,
    board: &mut Board<A>,
    place: usize,
    other: Point,
    cursor: StringCursor,
) -> Result<Next, Refusal<A>>
    ensures { IfOk result (λ next. Chooses (run_of req.now) (Instruction place) other cursor board.old next board.new) }
{
    board.save(other, cursor)?;
    Ok(Next::At(place, cursor))
}

// The longer counts of a repeat that were saved, with or without an open memo.
#[inline(always)]
fn longer_saved<S: StrDrive, A: Allocator, const KEEPS: bool>(
    req: &Request<'_, S>,
    board: &mut Board<A>,
    memo: &Memo<A>,
    place: usize,
    count: usize,
    start: StringCursor,
) -> Result<Next, Refusal<A>>
    requires { AtPoint req.now (Longer place count) start }
    ensures { IfOk result (λ next. TurnAt req.now (Longer place count) start board.old next board.new) }
{
    if KEEPS && memo.is_open() {
        return later_run(req, board, place, count, start);
    }
    longer::<S, A, false>(req, board, place, count, start)
}

/// Continues with the newest choice, if there is one. Markers of tried instructions are popped: these failed, which is
/// memoized if the memo is open.
#[inline(always)]
pub(super) fn back<S: StrDrive, A: Allocator, const KEEPS: bool>(
    req: &Request<'_, S>,
    board: &mut Board<A>,
    memo: &mut Memo<A>,
) -> Result<Option<Next>, Refusal<A>>
    requires stands { IsBack (run_of req.now) board.old }
    requires remembers { RecallsOf req.now memo.old }
    ensures next { IfOk result (λ found. MatchOption found
        (Finishes A req.now KEEPS board.old memo.old memo.new)
        (λ next. Retreats A req.now KEEPS board.old memo.old next board.new memo.new)) }
    ensures remembers { RecallsOf req.now memo.new }
    ensures same { IfOk result (λ _. memo.new ≡ record memo.old { kept = memo.new.kept; marked = memo.new.marked }) }
{
    board.ask_allocator()?;
    'choice: loop {
        let Some(choice) = board.back() else {
            return Ok(None);
        };
        match choice.0 {
            Point::Instruction(place) => return Ok(Some(Next::At(place, choice.1))),
            Point::Alternatives(place) => {
                return Ok(Some(alternatives(req, board, place, choice.1)?));
            }
            Point::Shorter(tail, count) => {
                return Ok(Some(shorter_saved(req, board, tail, count, choice.1)?));
            }
            Point::Longer(place, count) => {
                return Ok(Some(longer_saved::<S, A, KEEPS>(
                    req, board, memo, place, count, choice.1,
                )?));
            }
            Point::Again => return Ok(Some(Next::Again(choice.1))),
            Point::Inside(region) => return Ok(Some(without_outcome(board, region, choice.1))),
            Point::Tried(place) => {
                if KEEPS {
                    keep(req, board, memo, Point::Instruction(place), choice.1);
                }
            }
            Point::TriedAgain => {
                if KEEPS {
                    keep(req, board, memo, Point::Again, choice.1);
                }
            }
        }
    }
}

/// Executes one instruction, which may batch loop iterations if `STRIDES` is set. Each loop of steps has its own
/// instance, by its parameters for batches and limits. So each has one caller, and is inlined there.
#[tactic(auto, using(sre_turns::proofs::semantics::Moving::on_board))]
#[inline(always)]
pub(super) fn instruction<S: StrDrive, A: Allocator, const STRIDES: bool, const LIMITED: bool>(
    req: &Request<'_, S>,
    board: &mut Board<A>,
    place: usize,
    cursor: StringCursor,
) -> Result<Next, Refusal<A>>
    requires { AtOnBoard req.now (Instruction place) cursor board.old }
    ensures { IfOk result (λ next. Turn req.now place cursor board.old next board.new) }
{
    let code = opcode(req, place, cursor);
    // An arm for each frequent test and each back-reference, so that each knows its opcode.
    macro_rules! by_opcode {
        ($($test:ident)*; $($seldom:ident)*; $($reference:ident)*) => {
            match code {
                SreOpcode::FAILURE => Ok(Next::Back),
                SreOpcode::SUCCESS => Ok(Next::Done(cursor)),
                SreOpcode::AT => Ok(position_code(req, place, cursor)),
                SreOpcode::BRANCH => branch(req, board, place, cursor),
                SreOpcode::JUMP => Ok(jump(req, place, cursor)),
                SreOpcode::MARK => mark(req, board, place, cursor),
                SreOpcode::REPEAT_ONE => repeat_one(req, board, place, cursor),
                SreOpcode::MIN_REPEAT_ONE => min_repeat_one(req, board, place, cursor),
                SreOpcode::POSSESSIVE_REPEAT_ONE => {
                    Ok(possessive_repeat_one(req, board, place, cursor))
                },
                SreOpcode::REPEAT => repeat::<S, A, STRIDES>(req, board, place, cursor),
                SreOpcode::MAX_UNTIL => max_until::<S, A, STRIDES>(req, board, place, cursor),
                SreOpcode::MIN_UNTIL => min_until(req, board, place, cursor),
                SreOpcode::POSSESSIVE_REPEAT => possessive_repeat(req, board, place, cursor),
                SreOpcode::ATOMIC_GROUP => atomic_group(req, board, place, cursor),
                SreOpcode::ASSERT => assert(req, board, place, cursor),
                SreOpcode::ASSERT_NOT => assert_not(req, board, place, cursor),
                SreOpcode::GROUPREF_EXISTS => Ok(condition(req, board, place, cursor)),
                $(SreOpcode::$test => Ok(test::<S, false>(req, SreOpcode::$test, place, cursor)),)*
                $(SreOpcode::$seldom)|* => Ok(test::<S, true>(req, code, place, cursor)),
                $(SreOpcode::$reference => {
                    Ok(reference(req, board, SreOpcode::$reference, place, cursor))
                })*
                SreOpcode::CHARSET => unreachable!(),
                SreOpcode::BIGCHARSET => unreachable!(),
                SreOpcode::INFO => unreachable!(),
                SreOpcode::NEGATE => unreachable!(),
                SreOpcode::RANGE => unreachable!(),
                SreOpcode::SUBPATTERN => unreachable!(),
                SreOpcode::RANGE_UNI_IGNORE => unreachable!(),
            }
        };
    }
    by_opcode!(
        ANY ANY_ALL LITERAL LITERAL_UNI_IGNORE NOT_LITERAL IN IN_UNI_IGNORE;
        CATEGORY LITERAL_IGNORE LITERAL_LOC_IGNORE
        NOT_LITERAL_IGNORE NOT_LITERAL_LOC_IGNORE NOT_LITERAL_UNI_IGNORE
        IN_IGNORE IN_LOC_IGNORE;
        GROUPREF GROUPREF_IGNORE GROUPREF_LOC_IGNORE GROUPREF_UNI_IGNORE
    )
}
