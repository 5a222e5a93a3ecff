//! Atomic scopes: `ATOMIC_GROUP skip body SUCCESS`, `ASSERT skip back body SUCCESS`, ASSERT_NOT in the same layout, and
//! the bodies of `POSSESSIVE_REPEAT skip least greatest body SUCCESS`, where the skip leads to the SUCCESS.
//!
//! A scope is on the backtrack stack while its body is in progress, and the loops around it are set aside. Only the
//! first outcome of its body counts. So the choices inside are dropped as soon as the body ends. A possessive loop
//! continues from there, and its count is raised before a body begins, so the body's end finds it counted.
//!
//! If no atomic scope sets a capture, that outcome is its end position. So ends are memoized, for each instruction and
//! possessive loop that was tried inside: from an equivalent configuration the machine goes to the end at once.

ghost use Rattle.std.specs.Prelude.{◌≡◌, ◌-◌, [], true, IfOk, MatchOption, ◌⊎◌, IfSome, IfNone, false};
ghost use Rattle.sre_machine.specs.Terms.{is_inside, run_of, OpcodeAt, from_region, Closes, after_outcome};
ghost use Rattle.sre_machine.specs.Terms.{without_outcome, without_loop, Again, Refused, HoldsOpenMore, KeepsOpenEnds};
ghost use Rattle.sre_machine.specs.Terms.{HoldsOpenEnds};
ghost use Rattle.sre_machine.specs.Turns.{At, Turn, AtOnBoard, TurnAt, AtPoint, IsKeeping, EndsThere, BodyEnds};
ghost use Rattle.sre_machine.specs.Turns.{KeepsEndsHere, ForksThere, NoEndTold};
ghost use Rattle.sre_machine.specs.Memos.{RecallsOf};

use crate::loops::{may_repeat, next_frame};
use crate::memo::Memo;
use crate::trying::{Keeping, is_unmarked, may_branch_at};
use sre_board::Board;
use sre_chars::constants::SreOpcode;
use sre_chars::string::{StrDrive, StringCursor};
use sre_growth::Refusal;
use sre_request::Request;
use sre_request::text::back_by;
use sre_request::words::operand;
use sre_turns::{Frame, Next, Point, Region};
use std::alloc::Allocator;

/// `ATOMIC_GROUP skip body SUCCESS`: the first outcome of the body alone.
#[inline(always)]
pub(super) fn atomic_group<S: StrDrive, A: Allocator>(
    req: &Request<'_, S>,
    board: &mut Board<A>,
    place: usize,
    cursor: StringCursor,
) -> Result<Next, Refusal<A>>
    requires opcode { OpcodeAt req.now place SreOpcode.ATOMIC_GROUP }
    requires stands { At req.now place cursor }
    ensures { IfOk result (λ next. Turn req.now place cursor board.old next board.new) }
{
    let skip = operand(req, place, 1);
    board.begin_region(Region::AtomicGroup(place + 1 + skip as usize), cursor)?;
    Ok(Next::At(place + 2, cursor))
}

/// `ASSERT skip back body SUCCESS`: continues here if the body matches so many characters before.
#[inline(always)]
pub(super) fn assert<S: StrDrive, A: Allocator>(
    req: &Request<'_, S>,
    board: &mut Board<A>,
    place: usize,
    cursor: StringCursor,
) -> Result<Next, Refusal<A>>
    requires opcode { OpcodeAt req.now place SreOpcode.ASSERT }
    requires stands { At req.now place cursor }
    ensures { IfOk result (λ next. Turn req.now place cursor board.old next board.new) }
{
    let skip = operand(req, place, 1);
    let back = operand(req, place, 2) as usize;
    if cursor.position() < back {
        return Ok(Next::Back);
    }
    board.begin_region(Region::Ahead(place + 1 + skip as usize), cursor)?;
    board.pass(back);
    Ok(Next::At(place + 3, back_by(req, cursor, back)))
}

/// `ASSERT_NOT skip back body SUCCESS`: continues here unless the body matches so many characters before.
#[inline(always)]
pub(super) fn assert_not<S: StrDrive, A: Allocator>(
    req: &Request<'_, S>,
    board: &mut Board<A>,
    place: usize,
    cursor: StringCursor,
) -> Result<Next, Refusal<A>>
    requires opcode { OpcodeAt req.now place SreOpcode.ASSERT_NOT }
    requires stands { At req.now place cursor }
    ensures { IfOk result (λ next. Turn req.now place cursor board.old next board.new) }
{
    let skip = operand(req, place, 1);
    let back = operand(req, place, 2) as usize;
    let tail = place + 1 + skip as usize;
    if cursor.position() < back {
        return Ok(Next::At(tail, cursor));
    }
    board.begin_region(Region::NotAhead(tail), cursor)?;
    board.pass(back);
    Ok(Next::At(place + 3, back_by(req, cursor, back)))
}

/// Ends the innermost atomic scope, if there is one, at a cursor: its body has an outcome.
#[inline(always)]
pub(super) fn end<S: StrDrive, A: Allocator>(
    req: &Request<'_, S>,
    board: &mut Board<A>,
    cursor: StringCursor,
) -> Option<Next>
    ensures { MatchOption result
        ((from_region board.old.choices ≡ []) × (board.new ≡ board.old))
        (λ next. (is_inside board.old.choices ≡ true) × Closes (run_of req.now) cursor board.old next board.new) }
{
    let (region, entered) = board.cut()?;
    Some(after_outcome(region, cursor, entered))
}

// What follows a scope whose body has an outcome at a cursor.
#[inline(always)]
fn after_outcome(region: Region, cursor: StringCursor, entered: StringCursor) -> Next
    ensures { result ≡ after_outcome region cursor entered }
{
    match region {
        Region::AtomicGroup(tail) => Next::At(tail, cursor),
        Region::Ahead(tail) => Next::At(tail, entered),
        Region::NotAhead(_) => Next::Back,
        Region::Owed | Region::Further(_) => Next::Again(cursor),
    }
}

/// What follows a scope whose body has no outcome. A possessive loop ends if a further body has none.
#[inline(always)]
pub(super) fn without_outcome<A: Allocator>(
    board: &mut Board<A>,
    region: Region,
    entered: StringCursor,
) -> Next
    ensures next { result ≡ without_outcome region entered }
    ensures board { board.new ≡ without_loop region board.old }
{
    match region {
        Region::AtomicGroup(_) => Next::Back,
        Region::Ahead(_) => Next::Back,
        Region::NotAhead(tail) => Next::At(tail, entered),
        Region::Owed => Next::Back,
        Region::Further(tail) => {
            board.leave();
            Next::At(tail, entered)
        }
    }
}

/// `POSSESSIVE_REPEAT skip least greatest body SUCCESS`: begins a loop, before its first body.
#[inline(always)]
pub(super) fn possessive_repeat<S: StrDrive, A: Allocator>(
    req: &Request<'_, S>,
    board: &mut Board<A>,
    place: usize,
    cursor: StringCursor,
) -> Result<Next, Refusal<A>>
    requires opcode { OpcodeAt req.now place SreOpcode.POSSESSIVE_REPEAT }
    requires stands { At req.now place cursor }
    ensures { IfOk result (λ next. Turn req.now place cursor board.old next board.new) }
{
    board.enter(Frame {
        repeat: place,
        count: 0,
        last: None,
    })?;
    Ok(Next::Again(cursor))
}

/// A further body of the innermost loop, which is possessive, or its end.
#[inline(always)]
pub(super) fn again<S: StrDrive, A: Allocator>(
    req: &Request<'_, S>,
    board: &mut Board<A>,
    cursor: StringCursor,
) -> Result<Next, Refusal<A>>
    requires { AtOnBoard req.now Again cursor board.old }
    ensures { IfOk result (λ next. TurnAt req.now Again cursor board.old next board.new) }
{
    let frame = board.top();
    let least = operand(req, frame.repeat, 2);
    let greatest = operand(req, frame.repeat, 3);
    let skip = operand(req, frame.repeat, 1) as usize;
    let tail = frame.repeat + 1 + skip + 1;
    board.leave();
    if frame.count < least {
        board.enter(next_frame(frame, frame.last))?;
        board.begin_region(Region::Owed, cursor)?;
        return Ok(Next::At(frame.repeat + 4, cursor));
    }
    if !may_repeat(greatest, frame, cursor) {
        return Ok(Next::At(tail, cursor));
    }
    board.enter(next_frame(frame, Some(cursor.position())))?;
    board.begin_region(Region::Further(tail), cursor)?;
    Ok(Next::At(frame.repeat + 4, cursor))
}

/// The memoized end of the innermost atomic scope's body from a point inside, if there is one.
#[inline(always)]
pub(super) fn known_end<S: StrDrive, A: Allocator>(
    req: &Request<'_, S>,
    board: &Board<A>,
    memo: &Memo<A>,
    keeping: Keeping,
    point: Point,
    cursor: StringCursor,
) -> Option<StringCursor>
    requires stands { AtPoint req.now point cursor }
    requires remembers { RecallsOf req.now memo.now }
    requires keeping { IsKeeping req.now keeping point board.now memo.now }
    ensures told { IfSome result (λ end. EndsThere req.now point cursor board.now end) }
    ensures none { IfNone result (keeping ≡ Keeping.Unmarked → ForksThere req.now point
        → NoEndTold req.now point cursor board.now memo.now) }
{
    if keeping != Keeping::Unmarked || !board.is_inside() || !memo.keeps_ends() {
        return None;
    }
    if !may_branch_at(req, point, cursor) {
        return None;
    }
    memo.end(req.pattern_codes().items(), board, point, cursor.position())
}

/// The body of the innermost atomic scope, if there is one, ends at a cursor. With an open memo that end is memoized
/// for each point that is being tried inside. If an allocation fails the memo closes.
#[inline(always)]
pub(super) fn keep_ends<S: StrDrive, A: Allocator>(
    req: &Request<'_, S>,
    board: &Board<A>,
    memo: &mut Memo<A>,
    cursor: StringCursor,
)
    requires ends { BodyEnds req.now cursor board.now }
    requires remembers { RecallsOf req.now memo.old }
    ensures remembers { RecallsOf req.now memo.new }
    ensures more { HoldsOpenMore memo.old.kept (run_of req.now).words board.now.choices cursor memo.old.ends
        memo.new.ends }
    ensures kept { KeepsOpenEnds memo.old.kept (run_of req.now).words board.now.choices cursor memo.old.ends
        memo.new.ends }
    ensures held { KeepsEndsHere req.now board.now memo.old → memo.new.stopped ≡ false
        → HoldsOpenEnds memo.old.kept (run_of req.now).words board.now.choices cursor memo.new.ends }
    ensures failures { memo.new.kept ≡ memo.old.kept }
    ensures closed { memo.old.is_open ≡ false → memo.new ≡ memo.old }
    ensures same { memo.new.stopped ≡ false → memo.new ≡ record memo.old { ends = memo.new.ends } }
    ensures stopped { memo.old.stopped ≡ true → memo.new.stopped ≡ true }
    ensures refused { memo.new.stopped ≡ true → Refused A }
    ensures still { memo.old.is_open ≡ true → memo.new.is_open ≡ true ⊎ Refused A }
{
    if memo.is_open() && memo.keeps_ends() && board.is_inside() && is_unmarked(req, board) {
        memo.keep_ends(req.pattern_codes().items(), board, cursor);
    } else {
        memo.note_end();
    }
}
