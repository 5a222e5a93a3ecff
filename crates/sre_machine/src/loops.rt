//! Loops: `REPEAT skip least greatest body`, with MAX_UNTIL or MIN_UNTIL after the body, where the skip leads.
//!
//! The stack has the loops in progress. A body that must fail is not begun, and an end that must fail is not saved. So
//! a loop that the next character decides saves nothing. The first body of a greedy loop is tried in the step of its
//! REPEAT. After an empty body the loop's end is next, so the same end, saved before that body, is dropped. Otherwise
//! nested loops would save the square of their depth.

ghost use Rattle.std.specs.Prelude.{◌≡◌, ◌+◌, IfOk};
ghost use Rattle.sre_machine.specs.Terms.{Instruction, next_frame, MayRepeat, run_of, OpcodeAt, may_repeat};
ghost use Rattle.sre_machine.specs.Terms.{with_loop};
ghost use Rattle.sre_machine.specs.Turns.{Turn, AtOnBoard};

use crate::machine::{ends_in_vain, opcode, refuses};
use crate::strides::{may_stride, strided};
use sre_board::Board;
use sre_chars::constants::{MAXREPEAT, SreOpcode};
use sre_chars::string::{StrDrive, StringCursor};
use sre_growth::Refusal;
use sre_request::Request;
use sre_request::words::operand;
use sre_turns::{Frame, Next, Point};
use std::alloc::Allocator;

/// Whether a further body may be tried at a cursor.
#[inline(always)]
pub(super) fn may_repeat(greatest: u32, frame: Frame, cursor: StringCursor) -> bool
    ensures { result ≡ may_repeat greatest frame.count frame.last cursor.position }
{
    let is_below = greatest as usize == MAXREPEAT || frame.count < greatest;
    match frame.last {
        None => is_below,
        Some(last) => is_below && last != cursor.position(),
    }
}

/// The frame with one more body; the count saturates.
#[inline(always)]
pub(super) fn next_frame(frame: Frame, last: Option<usize>) -> Frame
    ensures { result ≡ next_frame frame last }
{
    Frame {
        repeat: frame.repeat,
        count: frame.count.saturating_add(1),
        last,
    }
}

/// `REPEAT skip least greatest body`: begins a loop at its end, and tries a greedy loop's first body at once.
#[inline(always)]
pub(super) fn repeat<S: StrDrive, A: Allocator, const STRIDES: bool>(
    req: &Request<'_, S>,
    board: &mut Board<A>,
    place: usize,
    cursor: StringCursor,
) -> Result<Next, Refusal<A>>
    requires opcode { OpcodeAt req.now place SreOpcode.REPEAT }
    requires stands { AtOnBoard req.now (Instruction place) cursor board.old }
    ensures { IfOk result (λ next. Turn req.now place cursor board.old next board.new) }
{
    let skip = operand(req, place, 1);
    let end = place + 1 + skip as usize;
    let frame = Frame {
        repeat: place,
        count: 0,
        last: None,
    };
    match opcode(req, end, cursor) {
        SreOpcode::MAX_UNTIL => Ok(further::<S, A, STRIDES>(req, board, end, frame, cursor)?),
        _ => {
            board.enter(frame)?;
            Ok(Next::At(end, cursor))
        }
    }
}

/// A further body of a greedy loop whose frame is off the stack, if one may be tried, or the loop's end.
#[tactic(auto, using(sre_turns::proofs::semantics::StepsInLoops::until_operands))]
#[inline(always)]
pub(super) fn body_or_end<S: StrDrive, A: Allocator>(
    req: &Request<'_, S>,
    board: &mut Board<A>,
    place: usize,
    frame: Frame,
    cursor: StringCursor,
) -> Result<Next, Refusal<A>>
    requires opcode { OpcodeAt req.now place SreOpcode.MAX_UNTIL }
    requires more { MayRepeat (run_of req.now).words frame cursor.position }
    requires stands { AtOnBoard req.now (Instruction place) cursor (with_loop frame board.old) }
    ensures { IfOk result
        (λ next. Turn req.now place cursor (with_loop frame board.old) next board.new) }
{
    let _opcode = operand(req, place, 0);
    let _greatest = operand(req, frame.repeat, 3);
    let body = frame.repeat + 4;
    if refuses(req, body, cursor) {
        return Ok(Next::At(place + 1, cursor));
    }
    let next = next_frame(frame, Some(cursor.position()));
    if ends_in_vain(req, place + 1, cursor) {
        board.enter(next)?;
        return Ok(Next::At(body, cursor));
    }
    board.save(Point::Instruction(place + 1), cursor)?;
    board.enter(next)?;
    Ok(Next::At(body, cursor))
}

// A required body, or, once there are enough, a further body or the end.
#[inline(always)]
fn further<S: StrDrive, A: Allocator, const STRIDES: bool>(
    req: &Request<'_, S>,
    board: &mut Board<A>,
    place: usize,
    frame: Frame,
    cursor: StringCursor,
) -> Result<Next, Refusal<A>>
    requires opcode { OpcodeAt req.now place SreOpcode.MAX_UNTIL }
    requires stands { AtOnBoard req.now (Instruction place) cursor (with_loop frame board.old) }
    ensures { IfOk result
        (λ next. Turn req.now place cursor (with_loop frame board.old) next board.new) }
{
    let _opcode = operand(req, place, 0);
    let least = operand(req, frame.repeat, 2);
    let greatest = operand(req, frame.repeat, 3);
    if frame.count < least {
        board.enter(next_frame(frame, frame.last))?;
        return Ok(Next::At(frame.repeat + 4, cursor));
    }
    if !may_repeat(greatest, frame, cursor) {
        let refers = req.pattern_codes().refers();
        board.drop_same(place + 1, cursor, refers);
        return Ok(Next::At(place + 1, cursor));
    }
    if may_stride::<S, STRIDES>(req, frame.repeat + 4, greatest, frame, cursor) {
        return strided(req, board, place, greatest, frame, cursor);
    }
    Ok(body_or_end(req, board, place, frame, cursor)?)
}

/// MAX_UNTIL: a further body first, then the loop's end.
#[inline(always)]
pub(super) fn max_until<S: StrDrive, A: Allocator, const STRIDES: bool>(
    req: &Request<'_, S>,
    board: &mut Board<A>,
    place: usize,
    cursor: StringCursor,
) -> Result<Next, Refusal<A>>
    requires opcode { OpcodeAt req.now place SreOpcode.MAX_UNTIL }
    requires stands { AtOnBoard req.now (Instruction place) cursor board.old }
    ensures { IfOk result (λ next. Turn req.now place cursor board.old next board.new) }
{
    let frame = board.top();
    board.leave();
    Ok(further::<S, A, STRIDES>(req, board, place, frame, cursor)?)
}

/// MIN_UNTIL: the loop's end first, then a further body.
#[inline(always)]
pub(super) fn min_until<S: StrDrive, A: Allocator>(
    req: &Request<'_, S>,
    board: &mut Board<A>,
    place: usize,
    cursor: StringCursor,
) -> Result<Next, Refusal<A>>
    requires opcode { OpcodeAt req.now place SreOpcode.MIN_UNTIL }
    requires stands { AtOnBoard req.now (Instruction place) cursor board.old }
    ensures { IfOk result (λ next. Turn req.now place cursor board.old next board.new) }
{
    let _opcode = operand(req, place, 0);
    let frame = board.top();
    let least = operand(req, frame.repeat, 2);
    let greatest = operand(req, frame.repeat, 3);
    let body = frame.repeat + 4;
    board.leave();
    if frame.count < least {
        board.enter(next_frame(frame, frame.last))?;
        return Ok(Next::At(body, cursor));
    }
    if !may_repeat(greatest, frame, cursor) {
        return Ok(Next::At(place + 1, cursor));
    }
    if refuses(req, body, cursor) {
        return Ok(Next::At(place + 1, cursor));
    }
    board.enter(next_frame(frame, Some(cursor.position())))?;
    if ends_in_vain(req, place + 1, cursor) {
        return Ok(Next::At(body, cursor));
    }
    board.save(Point::Instruction(body), cursor)?;
    board.leave();
    Ok(Next::At(place + 1, cursor))
}
