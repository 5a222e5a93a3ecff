//! The steps of a run with an open memo: failures are memoized, and at a memoized failure the machine backtracks at
//! once.

ghost use Rattle.std.specs.Prelude.{ℕ, ◌≡◌, ◌≢◌, ◌⊎◌, IfOk, true, false};
ghost use Rattle.sre_machine.specs.Terms.{Marks, no_marks, Instruction, Again, is_inside, spot, run_of, Refused};
ghost use Rattle.sre_machine.specs.Terms.{MayBeTried, Unmarked, attempt};
ghost use Rattle.sre_machine.specs.Paying.{HoldsTried};
ghost use Rattle.sre_machine.specs.Memos.{RecallsOf};
ghost use Rattle.sre_machine.specs.EndlessRuns.{IsEndlessRun};
ghost use Rattle.sre_machine.specs.Turns.{At, AtPoint, AtOnBoard, Fails, Takes, TriesOn, IsKeeping, LeavesOrStays};
ghost use Rattle.sre_machine.specs.Turns.{RefersToGroups, UnaskedMarks, AlikeMarks, ForksThere};
ghost use Rattle.sre_machine.specs.Turns.{ServesThere, IdleThere};
ghost use Rattle.sre_machine.specs.Turns.{BringsNoTolls, NoEndTold, RunsOnAt, RunsAtOnce, TriesKnown};

use crate::character_repeats::scan_price;
use crate::long_repeats::{endless_run, is_better_at_once, is_endless_run};
use crate::machine::{instruction, opcode};
use crate::memo::Memo;
use crate::scopes::{again, known_end};
use sre_board::{Board, Known};
use sre_chars::constants::SreOpcode;
use sre_chars::string::{StrDrive, StringCursor};
use sre_growth::Refusal;
use sre_request::Request;
use sre_turns::{Next, Point};
use std::alloc::Allocator;

/// Whether the machine may branch at an address, or may continue at that address itself. Between two such addresses
/// nothing branches, so failures are memoized only there.
#[inline(always)]
pub(super) fn may_branch<S: StrDrive>(
    req: &Request<'_, S>,
    place: usize,
    cursor: StringCursor,
) -> bool
    requires { At req.now place cursor }
    ensures free { result ≡ false → BringsNoTolls req.now (Instruction place) }
    ensures forks { result ≡ true → ForksThere req.now (Instruction place) }
{
    matches!(
        opcode(req, place, cursor),
        SreOpcode::BRANCH
            | SreOpcode::REPEAT
            | SreOpcode::MAX_UNTIL
            | SreOpcode::MIN_UNTIL
            | SreOpcode::REPEAT_ONE
            | SreOpcode::MIN_REPEAT_ONE
            | SreOpcode::POSSESSIVE_REPEAT
            | SreOpcode::POSSESSIVE_REPEAT_ONE
    )
}

/// Whether the machine may branch at a point. A possessive loop may continue with a further body, or end.
#[inline(always)]
pub(super) fn may_branch_at<S: StrDrive>(
    req: &Request<'_, S>,
    point: Point,
    cursor: StringCursor,
) -> bool
    requires { AtPoint req.now point cursor }
    ensures free { result ≡ false → BringsNoTolls req.now point }
    ensures forks { result ≡ true → ForksThere req.now point }
{
    match point {
        Point::Instruction(place) => may_branch(req, place, cursor),
        Point::Again => true,
        Point::Alternatives(_) => false,
        Point::Shorter(_, _) => false,
        Point::Longer(_, _) => false,
        Point::Inside(_) => false,
        Point::Tried(_) => false,
        Point::TriedAgain => false,
    }
}

/// Whether no live capture is set: those that are set end before the first group that the code reads.
#[inline(always)]
pub(super) fn is_unmarked<S: StrDrive, A: Allocator>(req: &Request<'_, S>, board: &Board<A>) -> bool
    ensures unmarked { result ≡ true → UnaskedMarks req.now board.now.marks }
    ensures marked { result ≡ false → RefersToGroups req.now }
{
    let code = req.pattern_codes();
    if !code.refers() {
        return true;
    }
    let first = 2 * code.asked_from() as usize;
    board.marks().raw().len() <= first
}

// Whether the live captures are those under which the memo has failures.
#[inline(always)]
fn is_marked_so<S: StrDrive, A: Allocator>(
    req: &Request<'_, S>,
    board: &Board<A>,
    memo: &Memo<A>,
) -> bool
    requires { RecallsOf req.now memo.now }
    ensures { result ≡ true → AlikeMarks req.now memo.now.marked.marks board.now.marks }
{
    let first = 2 * req.pattern_codes().asked_from() as usize;
    memo.marked().agrees(board.marks().raw(), first)
}

// Whether no capture is live at a point, as far as that is known.
#[inline(always)]
fn is_idle<S: StrDrive, A: Allocator>(
    req: &Request<'_, S>,
    board: &Board<A>,
    memo: &Memo<A>,
    point: Point,
) -> bool
    requires { RecallsOf req.now memo.now }
    ensures { result ≡ true → IdleThere req.now point board.now }
{
    match point {
        Point::Instruction(place) => memo.marked().is_idle(board, place),
        _ => false,
    }
}

// Whether a failure may be memoized without captures: none that the code reads is set, or none is live here.
#[inline(always)]
fn serves_unmarked<S: StrDrive, A: Allocator>(
    req: &Request<'_, S>,
    board: &Board<A>,
    memo: &Memo<A>,
    point: Point,
) -> bool
    requires { RecallsOf req.now memo.now }
    ensures serves { (p : ℕ) → result ≡ true → ServesThere req.now no_marks point p board.now }
    ensures marked { result ≡ false → RefersToGroups req.now }
{
    if is_unmarked(req, board) {
        return true;
    }
    is_idle(req, board, memo, point)
}

/// The kind of captures under which failures are memoized at a point.
#[derive(Clone, Copy, PartialEq, Eq)]
pub(super) enum Keeping {
    // None: nothing is memoized.
    Nothing,
    // No capture that the code reads is set.
    Unmarked,
    // No capture is live here.
    Idle,
    // The live captures are those of the memo.
    Marked,
}

// Under which captures failures are memoized at a point. Under live captures that is only where the machine may branch.
#[inline(always)]
fn keeping_at<S: StrDrive, A: Allocator>(
    req: &Request<'_, S>,
    board: &Board<A>,
    memo: &Memo<A>,
    point: Point,
    cursor: StringCursor,
) -> Keeping
    requires stands { AtPoint req.now point cursor }
    requires remembers { RecallsOf req.now memo.now }
    ensures { IsKeeping req.now result point board.now memo.now }
{
    if !memo.is_open() {
        return Keeping::Nothing;
    }
    if is_unmarked(req, board) {
        return Keeping::Unmarked;
    }
    if !may_branch_at(req, point, cursor) {
        return Keeping::Nothing;
    }
    if is_idle(req, board, memo, point) {
        return Keeping::Idle;
    }
    if is_marked_so(req, board, memo) {
        return Keeping::Marked;
    }
    Keeping::Nothing
}

// Memoizes a failure under the present live captures, if they are the memo's.
#[inline(never)]
fn keep_marked<S: StrDrive, A: Allocator>(
    req: &Request<'_, S>,
    board: &Board<A>,
    memo: &mut Memo<A>,
    point: Point,
    cursor: StringCursor,
)
    requires failed { (m : Marks) → ServesThere req.now m point cursor.position board.now
        → Fails req.now point cursor.position m board.now }
    requires remembers { RecallsOf req.now memo.old }
    ensures remembers { RecallsOf req.now memo.new }
    ensures same { memo.new ≡ record memo.old { marked = memo.new.marked } }
{
    if is_marked_so(req, board, memo) {
        let words = req.pattern_codes().items();
        memo.keep_marked(words, board, point, cursor.position());
    }
}

// Memoizes that a point failed.
#[inline(never)]
pub(super) fn keep<S: StrDrive, A: Allocator>(
    req: &Request<'_, S>,
    board: &Board<A>,
    memo: &mut Memo<A>,
    point: Point,
    cursor: StringCursor,
)
    requires failed { (m : Marks) → ServesThere req.now m point cursor.position board.now
        → Fails req.now point cursor.position m board.now }
    requires remembers { RecallsOf req.now memo.old }
    ensures remembers { RecallsOf req.now memo.new }
    ensures same { memo.new ≡ record memo.old { kept = memo.new.kept; marked = memo.new.marked } }
    ensures account { HoldsTried req.now (attempt board.now.choices (spot point cursor board.now))
        memo.old.kept memo.new.kept }
{
    if serves_unmarked(req, board, memo, point) {
        let words = req.pattern_codes().items();
        memo.keep(words, board, point, cursor.position());
    } else {
        keep_marked(req, board, memo, point, cursor);
    }
}

// Whether a point is left, by what is known of it. If not, its marker is pushed, so that its failure is memoized. A
// configuration without a bit gets no marker, since markers of nested loops would take the square of their depth.
#[inline(always)]
fn is_left<A: Allocator>(
    board: &mut Board<A>,
    known: Known,
    point: Point,
    cursor: StringCursor,
) -> bool
    requires { MayBeTried point }
    ensures { TriesKnown A known point cursor result board.old board.new }
{
    match known {
        Known::Failed => true,
        Known::Open => {
            let _made = board.begin_trying(point, cursor);
            false
        }
        Known::NoBit => false,
    }
}

// Whether a point is known to fail. If not, its marker is pushed.
#[tactic(auto, using(crate::proofs::Opening::open_or_refused))]
#[inline(never)]
fn has_failed<S: StrDrive, A: Allocator>(
    req: &Request<'_, S>,
    board: &mut Board<A>,
    memo: &mut Memo<A>,
    point: Point,
    cursor: StringCursor,
) -> bool
    requires remembers { RecallsOf req.now memo.old }
    requires forks { ForksThere req.now point }
    requires tried { MayBeTried point }
    requires opened { memo.old.is_open ≡ true }
    requires serves { ServesThere req.now no_marks point cursor.position board.old }
    requires no_end { RefersToGroups req.now ⊎ NoEndTold req.now point cursor board.old memo.old }
    ensures remembers { RecallsOf req.now memo.new }
    ensures leaves { LeavesOrStays A req.now point cursor result board.old memo.old board.new memo.new }
    ensures tries { result ≡ false → TriesOn A req.now point cursor board.old memo.old board.new memo.new }
    ensures still { memo.new.is_open ≡ true ⊎ Refused A }
{
    let words = req.pattern_codes().items();
    memo.prepare(words, board, point, req.end());
    let known = memo
        .failures()
        .known(words, board, point, cursor.position());
    is_left(board, known, point, cursor)
}

// Whether a point is known to fail under live captures, which are the memo's. If not, its marker is pushed.
#[inline(never)]
fn has_failed_marked<S: StrDrive, A: Allocator>(
    req: &Request<'_, S>,
    board: &mut Board<A>,
    memo: &mut Memo<A>,
    point: Point,
    cursor: StringCursor,
) -> bool
    requires remembers { RecallsOf req.now memo.old }
    requires marked { AlikeMarks req.now memo.old.marked.marks board.old.marks }
    requires refers { RefersToGroups req.now }
    requires tried { MayBeTried point }
    ensures remembers { RecallsOf req.now memo.new }
    ensures leaves { LeavesOrStays A req.now point cursor result board.old memo.old board.new memo.new }
    ensures tries { result ≡ false → TriesOn A req.now point cursor board.old memo.old board.new memo.new }
    ensures still { memo.old.is_open ≡ true → memo.new.is_open ≡ true ⊎ Refused A }
{
    let words = req.pattern_codes().items();
    memo.prepare_marked(words, board, point, req.end());
    let known = memo.marked().known(words, board, point, cursor.position());
    is_left(board, known, point, cursor)
}

// Notes other live captures than the memo's, at a point whose failure might be memoized.
#[inline(always)]
fn meet_marks<S: StrDrive, A: Allocator>(
    req: &Request<'_, S>,
    board: &Board<A>,
    memo: &mut Memo<A>,
    point: Point,
    cursor: StringCursor,
)
    requires stands { AtPoint req.now point cursor }
    requires remembers { RecallsOf req.now memo.old }
    ensures remembers { RecallsOf req.now memo.new }
    ensures closed { memo.old.is_open ≡ false → memo.new ≡ memo.old }
    ensures still { memo.old.is_open ≡ true → memo.new.is_open ≡ true ⊎ Refused A }
{
    if memo.is_open() && may_branch_at(req, point, cursor) {
        memo.meets(&req.pattern_codes(), board.marks().raw());
    }
}

// Whether the memo is open and a point is known to fail. If not, the machine is still there.
#[inline(always)]
fn is_hopeless<S: StrDrive, A: Allocator>(
    req: &Request<'_, S>,
    board: &mut Board<A>,
    memo: &mut Memo<A>,
    keeping: Keeping,
    point: Point,
    cursor: StringCursor,
) -> bool
    requires stands { AtPoint req.now point cursor }
    requires remembers { RecallsOf req.now memo.old }
    requires keeping { IsKeeping req.now keeping point board.old memo.old }
    requires tried { MayBeTried point }
    requires no_end { keeping ≡ Keeping.Unmarked → ForksThere req.now point
        → NoEndTold req.now point cursor board.old memo.old }
    ensures remembers { RecallsOf req.now memo.new }
    ensures leaves { LeavesOrStays A req.now point cursor result board.old memo.old board.new memo.new }
    ensures tries { result ≡ false → keeping ≢ Keeping.Nothing → RunsOnAt (run_of req.now).words point
        → TriesOn A req.now point cursor board.old memo.old board.new memo.new }
    ensures closed { memo.old.is_open ≡ false → memo.new ≡ memo.old }
    ensures still { memo.old.is_open ≡ true → memo.new.is_open ≡ true ⊎ Refused A }
{
    match keeping {
        Keeping::Nothing => {
            meet_marks(req, board, memo, point, cursor);
            false
        }
        Keeping::Unmarked => {
            if !may_branch_at(req, point, cursor) {
                return false;
            }
            has_failed(req, board, memo, point, cursor)
        }
        Keeping::Idle => has_failed(req, board, memo, point, cursor),
        Keeping::Marked => has_failed_marked(req, board, memo, point, cursor),
    }
}

// Whether the machine is inside an atomic scope whose end is not memoized.
#[inline(always)]
fn keeps_no_end<A: Allocator>(board: &Board<A>, memo: &Memo<A>, keeping: Keeping) -> bool
    ensures inside { result ≡ true → is_inside board.now.choices ≡ true }
    ensures none { result ≡ true → keeping ≡ Keeping.Unmarked → memo.now.keeps_ends ≡ false }
{
    board.is_inside() && (keeping != Keeping::Unmarked || !memo.keeps_ends())
}

// Whether an address has a repeat without a greatest count that goes step by step, as such repeats do with an open
// memo. Inside an atomic scope whose ends are not memoized, a repeat scans at once if that is better. Step by step,
// each of its positions would be tried again after each body, which takes many times as long. But if the scope fails,
// step by step is better, since each position is then known to fail. With a step limit a repeat never scans at once,
// because a step would scan more characters than it counts.
#[inline(always)]
fn goes_on_endlessly<S: StrDrive, A: Allocator, const LIMITED: bool>(
    req: &Request<'_, S>,
    board: &Board<A>,
    memo: &Memo<A>,
    keeping: Keeping,
    place: usize,
    cursor: StringCursor,
) -> bool
    requires { At req.now place cursor }
    ensures keeps { result ≡ true → keeping ≢ Keeping.Nothing }
    ensures on { result ≡ true → IsEndlessRun req.now place }
    ensures off { result ≡ false → keeping ≢ Keeping.Nothing → (IsEndlessRun req.now place → ⊥)
        ⊎ RunsAtOnce req.now (Instruction place) keeping board.now memo.now }
{
    if keeping == Keeping::Nothing || !is_endless_run(req, place, cursor) {
        return false;
    }
    if LIMITED || !keeps_no_end(board, memo, keeping) {
        return true;
    }
    !memo.is_hopeful() && !is_better_at_once(req, place)
}

/// One instruction. The machine backtracks at once if it is known to fail, and ends the scope at once if its end is
/// known. `scan` is set to the price of its scan, if the instruction is executed with a step limit.
#[tactic(auto, using(sre_turns::proofs::semantics::Moving::on_board))]
#[inline(always)]
pub(super) fn instruction_or_back<S: StrDrive, A: Allocator, const LIMITED: bool>(
    req: &Request<'_, S>,
    board: &mut Board<A>,
    memo: &mut Memo<A>,
    place: usize,
    cursor: StringCursor,
    scan: &mut u64,
) -> Result<Next, Refusal<A>>
    requires stands { AtOnBoard req.now (Instruction place) cursor board.old }
    requires remembers { RecallsOf req.now memo.old }
    ensures turn { IfOk result (λ next.
        Takes A scan.new req.now (Instruction place) cursor board.old memo.old next board.new memo.new) }
    ensures remembers { RecallsOf req.now memo.new }
    ensures closed { memo.old.is_open ≡ false → memo.new ≡ memo.old }
    ensures still { memo.old.is_open ≡ true → memo.new.is_open ≡ true ⊎ Refused A }
{
    *scan = 0;
    let point = Point::Instruction(place);
    let keeping = keeping_at(req, board, memo, point, cursor);
    if let Some(end) = known_end(req, board, memo, keeping, point, cursor) {
        return Ok(Next::Done(end));
    }
    if is_hopeless(req, board, memo, keeping, point, cursor) {
        return Ok(Next::Back);
    }
    if LIMITED && memo.is_open() {
        *scan = scan_price(req, place, cursor);
    }
    if goes_on_endlessly::<S, A, LIMITED>(req, board, memo, keeping, place, cursor) {
        return endless_run(req, board, place, cursor);
    }
    instruction::<S, A, false, LIMITED>(req, board, place, cursor)
}

/// A further body of the innermost loop, which is possessive, or its end. As for an instruction, a known failure or end
/// is used at once.
#[tactic(auto, using(sre_turns::proofs::semantics::Moving::on_board))]
#[inline(always)]
pub(super) fn again_or_back<S: StrDrive, A: Allocator>(
    req: &Request<'_, S>,
    board: &mut Board<A>,
    memo: &mut Memo<A>,
    cursor: StringCursor,
) -> Result<Next, Refusal<A>>
    requires stands { AtOnBoard req.now Again cursor board.old }
    requires remembers { RecallsOf req.now memo.old }
    ensures turn { IfOk result (λ next. Takes A 0 req.now Again cursor board.old memo.old next board.new memo.new) }
    ensures remembers { RecallsOf req.now memo.new }
    ensures closed { memo.old.is_open ≡ false → memo.new ≡ memo.old }
    ensures still { memo.old.is_open ≡ true → memo.new.is_open ≡ true ⊎ Refused A }
{
    let keeping = keeping_at(req, board, memo, Point::Again, cursor);
    if let Some(end) = known_end(req, board, memo, keeping, Point::Again, cursor) {
        return Ok(Next::Done(end));
    }
    if is_hopeless(req, board, memo, keeping, Point::Again, cursor) {
        return Ok(Next::Back);
    }
    again(req, board, cursor)
}
