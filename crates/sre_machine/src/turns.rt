//! The machine's loops: steps until the run is decided.

ghost use Rattle.std.specs.Prelude.{◌≡◌, ◌≢◌, ℕ, ◌+◌, ◌-◌, ◌*◌, ◌^◌, ◌<◌, ◌≤◌, [], List, IfOk, IfErr, true, false};
ghost use Rattle.sre_machine.specs.Terms.{Way, most_each, Decides, asked_of, run_of, SaysAccepted};
ghost use Rattle.sre_machine.specs.Spending.{is_limited, left_of, TurnsDecide, Spends, TurnsCost, end_if, decision_of};
ghost use Rattle.sre_machine.specs.Spending.{told_of};
ghost use Rattle.sre_machine.specs.Memos.{RecallsOf};
ghost use Rattle.sre_machine.specs.Paying.{Remembering, each_of, Stops};
ghost use Rattle.sre_machine.specs.Turns.{WithinTurns};

use crate::allowance::Allowance;
use crate::machine::{back, instruction};
use crate::memo::Memo;
use crate::scopes::{again, end, keep_ends};
use crate::trying::{again_or_back, instruction_or_back};
use sre_board::Board;
use sre_chars::string::{StrDrive, StringCursor};
use sre_growth::Refusal;
use sre_request::Request;
use sre_turns::Next;
use std::alloc::Allocator;
use std::marker::{Brand, Model};
use std::sync::ledger::{Blank, Book, Ledger, Share};

// Whether the flags accept an end, whatever the captures are.
#[inline(always)]
fn is_accepted<S: StrDrive>(req: &Request<'_, S>, stop: usize) -> bool
    ensures { SaysAccepted (run_of req.now) stop result }
{
    (!req.match_all() || stop == req.end()) && (!req.must_advance() || stop != req.start())
}

// The number of steps taken. It takes no bytes, and only `tick` changes it.
#[derive(Drop)]
struct Turned<L: Ledger> {
    book: Book<L>,
    share: Share<L>,
}

impl<L: Ledger> Model for Turned<L> {
    ghost use Rattle.std.specs.Prelude.{ℕ, ◌<◌};

    ghost Value = { ℕ };

    ghost view = { λ t. t.book.total };

    ghost invariant = { λ t. 0 < t.share.parts };
}

impl<L: Ledger> Turned<L> {
    #[inline(always)]
    fn tick(&mut self)
        ensures { self.new ≡ self.old + 1 }
    {
        self.book.add(&mut self.share, 1);
    }
}

// What the accepted outcomes of a run begin with, and the most steps that it takes.
pub(crate) trait Plan {
    ghost all: { List Way };

    ghost limit: { ℕ };
}

impl Plan for Brand {
    ghost all = { [] };

    ghost limit = { 0 };
}

/// How many runs of the machine began.
#[derive(Clone, Copy)]
pub struct Begun {
    /// Those that began at a start.
    pub started: u64,
    /// Those that restarted at their start, because the memo opened during a run with a step limit.
    pub restarted: u64,
}

impl Begun {
    /// No run.
    pub fn none() -> Begun
        ensures started { result.started ≡ 0 }
        ensures restarted { result.restarted ≡ 0 }
    {
        Begun {
            started: 0,
            restarted: 0,
        }
    }
}

/// Why a run ended without an answer.
#[derive(Drop)]
pub enum Halt<A: Allocator> {
    /// An allocation failed.
    Refused(Refusal<A>),
    /// The step limit is exceeded.
    UsedUp,
}

impl<A: Allocator> From<Refusal<A>> for Halt<A> {
    ghost use Rattle.std.specs.Prelude.{◌≢◌};
    ghost use Rattle.sre_machine.specs.declared.turns.Halt.TheVariants.{UsedUp};

    ghost from_gives = { λ _ halt. halt ≢ UsedUp };

    fn from(refusal: Refusal<A>) -> Halt<A> {
        Halt::Refused(refusal)
    }
}

// How a loop of steps ends.
#[derive(Clone, Copy)]
pub(crate) enum Decision {
    // The run is decided: the cursor at the end of the first accepted outcome, if there is one.
    Decided(Option<StringCursor>),
    // The memo is to open, so a run with a step limit must restart.
    Opened,
}

// The cost of the next step: 1, plus 1 for each 8 characters of the long stretches that the step before scanned. These
// count at most as many characters as the range has. With an open memo they also count at most those of the longest
// lookbehind, or `scan`, the price of the scan of the repeat that was executed: the step scanned no more. Without a
// limit the cost is 0.
#[inline(always)]
fn turns_due<S: StrDrive, A: Allocator, const LIMITED: bool>(
    req: &Request<'_, S>,
    board: &mut Board<A>,
    memo: &Memo<A>,
    scan: u64,
) -> u64
    ensures board { board.new ≡ board.old }
    ensures least { LIMITED ≡ true → 1 ≤ result }
    ensures most { result ≤ most_each (asked_of req.now) }
    ensures each { memo.now.is_open ≡ true → (pl : Remembering req.now) → result ≤ each_of req.now pl + scan }
{
    if !LIMITED {
        return 0;
    }
    let window = req.end().saturating_sub(req.start());
    let passed = board.take_passed().min(window) as u64 / 8;
    if memo.is_open() {
        let longest = req.pattern_codes().longest_lookbehind() as u64 / 8;
        return 1 + passed.min(longest.max(scan));
    }
    1 + passed
}

// Charges a cost to the limit. Returns whether so many steps were left. Without a limit it charges nothing.
#[inline(always)]
fn takes_turns<const LIMITED: bool>(turns: u64, allowed: &mut Allowance) -> bool
    requires limits { LIMITED ≡ is_limited allowed.old }
    ensures limited { is_limited allowed.new ≡ is_limited allowed.old }
    ensures spent { left_of allowed.old ≤ left_of allowed.new + turns }
    ensures fewer { left_of allowed.new ≤ left_of allowed.old }
    ensures taken { result ≡ true → is_limited allowed.old ≡ true → left_of allowed.old ≡ left_of allowed.new + turns }
    ensures used { result ≡ false → (is_limited allowed.old ≡ true) × (left_of allowed.new ≡ 0) }
{
    if !LIMITED {
        return true;
    }
    let Allowance::Turns(left) = allowed else {
        return true;
    };
    if *left < turns {
        *left = 0;
        return false;
    }
    *left -= turns;
    true
}

// Whether steps count towards opening the memo: they are limited, and the memo is closed.
#[inline(always)]
fn may_wait<A: Allocator, const LIMITED: bool>(memo: &Memo<A>) -> bool
    ensures limited { result ≡ true → LIMITED ≡ true }
    ensures closed { result ≡ true → memo.now.is_open ≡ false }
    ensures waits { LIMITED ≡ true → memo.now.is_open ≡ false → result ≡ true }
{
    LIMITED && !memo.is_open()
}

// Whether steps of this cost may be taken before the memo opens.
#[inline(always)]
fn waits_on<A: Allocator>(memo: &mut Memo<A>, waits: bool, turns: u64) -> bool
    ensures same { memo.new ≡ record memo.old { waits = memo.new.waits } }
    ensures waited { result ≡ true → waits ≡ true → memo.new.waits + turns ≤ memo.old.waits }
    ensures kept { waits ≡ false → (result ≡ true) × (memo.new ≡ memo.old) }
{
    if !waits {
        return true;
    }
    memo.waits_for(turns)
}

// The loop with a memo: steps until the run is decided. Some steps may already be taken. If the memo is open at first,
// failures are memoized. If it is closed, a loop with a limit ends when the memo is to open.
#[inline(never)]
fn remembering_turns<L: Ledger, K: Plan, S: StrDrive, A: Allocator, const LIMITED: bool>(
    req: &Request<'_, S>,
    board: &mut Board<A>,
    memo: &mut Memo<A>,
    first: Next,
    turned: &mut Turned<L>,
    allowed: &mut Allowance,
) -> Result<Decision, Halt<A>>
    requires limits { LIMITED ≡ is_limited allowed.old }
    requires within { turned.old ≤ K.limit }
    requires stands { WithinTurns req.now K.all (K.limit - turned.old) first board.old }
    requires remembers { RecallsOf req.now memo.old }
    ensures decides { TurnsDecide req.now K.all result board.new memo.old allowed.old }
    ensures remembers { RecallsOf req.now memo.new }
    ensures spends { Spends result allowed.old allowed.new }
    ensures costs { TurnsCost req.now K.all K.limit first board.old memo.old memo.new turned.old result allowed.old
        allowed.new }
    ensures stops { is_limited allowed.old ≡ true → Stops A req.now K.all first board.old memo.old turned.old
        (left_of allowed.old) (left_of allowed.new) }
{
    let waits = may_wait::<A, LIMITED>(memo);
    let mut next = first;
    let mut scan = 0;
    'turn: loop {
        let turns = turns_due::<S, A, LIMITED>(req, board, memo, scan);
        scan = 0;
        if !waits_on(memo, waits, turns) {
            return Ok(Decision::Opened);
        }
        if !takes_turns::<LIMITED>(turns, allowed) {
            return Err(Halt::UsedUp);
        }
        turned.tick();
        match next {
            Next::At(place, cursor) => {
                next = instruction_or_back::<S, A, LIMITED>(
                    req, board, memo, place, cursor, &mut scan,
                )?;
            }
            Next::Again(cursor) => next = again_or_back(req, board, memo, cursor)?,
            Next::Back => match back::<S, A, true>(req, board, memo)? {
                Some(after) => next = after,
                None => return Ok(Decision::Decided(None)),
            },
            Next::Done(cursor) => {
                keep_ends(req, board, memo, cursor);
                match end(req, board, cursor) {
                    Some(after) => next = after,
                    None => {
                        if is_accepted(req, cursor.position()) {
                            return Ok(Decision::Decided(Some(cursor)));
                        }
                        next = Next::Back;
                    }
                }
            }
        }
    }
}

// The rest of a run without a limit, once the memo is open. Returns whether there is an accepted outcome, and writes
// its end.
#[inline(never)]
fn turns_on<L: Ledger, K: Plan, S: StrDrive, A: Allocator>(
    req: &Request<'_, S>,
    board: &mut Board<A>,
    memo: &mut Memo<A>,
    first: Next,
    turned: &mut Turned<L>,
    ended: &mut StringCursor,
) -> Result<bool, Halt<A>>
    requires within { turned.old ≤ K.limit }
    requires stands { WithinTurns req.now K.all (K.limit - turned.old) first board.old }
    requires remembers { RecallsOf req.now memo.old }
    ensures decides { IfOk result (λ found.
        Decides (run_of req.now) K.all (end_if found ended.new) board.new.marks) }
    ensures remembers { RecallsOf req.now memo.new }
    ensures used { IfErr result (λ halt. halt ≡ Halt.UsedUp → ⊥) }
{
    let allowed = &mut Allowance::Unlimited;
    match remembering_turns::<L, K, S, A, false>(req, board, memo, first, turned, allowed)? {
        Decision::Decided(Some(cursor)) => {
            *ended = cursor;
            Ok(true)
        }
        Decision::Decided(None) => Ok(false),
        Decision::Opened => unreachable!(),
    }
}

// The loop without a memo and without a limit, from an instruction on. After each backtrack and each end of an atomic
// scope it tests whether the memo opens. Then `turns_on` continues: each choice saved before is resumed at most once,
// and failures after that are memoized. Only this loop batches loop iterations, since failures at the positions between
// are not memoized. It is a single function out of line, whatever its size, so that `Runner::attempt` is inlined into
// the search. Most starts fail, so the end of an accepted outcome is written apart from the result.
#[inline(never)]
fn turns<L: Ledger, K: Plan, S: StrDrive, A: Allocator>(
    req: &Request<'_, S>,
    board: &mut Board<A>,
    memo: &mut Memo<A>,
    place: usize,
    start: StringCursor,
    turned: &mut Turned<L>,
    ended: &mut StringCursor,
) -> Result<bool, Halt<A>>
    requires new { turned.old ≡ 0 }
    requires stands { WithinTurns req.now K.all K.limit (Next.At place start) board.old }
    requires remembers { RecallsOf req.now memo.old }
    ensures decides { IfOk result (λ found.
        Decides (run_of req.now) K.all (end_if found ended.new) board.new.marks) }
    ensures remembers { RecallsOf req.now memo.new }
    ensures used { IfErr result (λ halt. halt ≡ Halt.UsedUp → ⊥) }
{
    let mut next = Next::At(place, start);
    'turn: loop {
        match next {
            Next::At(place, cursor) => {
                turned.tick();
                next = instruction::<S, A, true, false>(req, board, place, cursor)?;
            }
            Next::Again(cursor) => {
                turned.tick();
                next = again(req, board, cursor)?;
            }
            Next::Back => {
                if memo.opens(req, board) {
                    return turns_on::<L, K, S, A>(req, board, memo, Next::Back, turned, ended);
                }
                turned.tick();
                match back::<S, A, false>(req, board, memo)? {
                    Some(after) => next = after,
                    None => return Ok(false),
                }
            }
            Next::Done(cursor) => {
                turned.tick();
                match end(req, board, cursor) {
                    Some(after) => {
                        if memo.opens(req, board) {
                            return turns_on::<L, K, S, A>(req, board, memo, after, turned, ended);
                        }
                        next = after;
                    }
                    None => {
                        if is_accepted(req, cursor.position()) {
                            *ended = cursor;
                            return Ok(true);
                        }
                        next = Next::Back;
                    }
                }
            }
        }
    }
}

// How a run ended.
#[derive(Clone, Copy)]
pub(crate) enum Ending {
    // There is an accepted outcome, whose end is written elsewhere.
    Found,
    // There is none.
    Failed,
    // The memo is to open, so a run with a step limit must restart.
    Opened,
}

// Splits a decision: returns how the run ended, and writes the end if there is one.
#[inline(always)]
fn taken_apart(told: Decision, ended: &mut StringCursor) -> Ending
    ensures { decision_of result ended.new ≡ told }
{
    match told {
        Decision::Decided(Some(cursor)) => {
            *ended = cursor;
            Ending::Found
        }
        Decision::Decided(None) => Ending::Failed,
        Decision::Opened => Ending::Opened,
    }
}

// Picks the loop of steps for a run, and starts it at the address after some literals. No step is taken before.
#[inline(always)]
pub(crate) fn turns_from<L: Ledger, K: Plan, S: StrDrive, A: Allocator>(
    req: &Request<'_, S>,
    board: &mut Board<A>,
    memo: &mut Memo<A>,
    literals: usize,
    start: StringCursor,
    blank: Blank,
    allowed: &mut Allowance,
    ended: &mut StringCursor,
) -> Result<Ending, Halt<A>>
    requires name { blank.name ≡ L.name }
    requires parts { blank.parts ≡ L.parts }
    requires some { 0 < blank.parts }
    requires room { 2 * literals < 2 ^ 64 }
    requires stands { WithinTurns req.now K.all K.limit (Next.At (2 * literals) start) board.old }
    requires remembers { RecallsOf req.now memo.old }
    ensures decides { TurnsDecide req.now K.all (told_of result ended.new) board.new memo.old allowed.old }
    ensures remembers { RecallsOf req.now memo.new }
    ensures spends { Spends result allowed.old allowed.new }
    ensures costs { TurnsCost req.now K.all K.limit (Next.At (2 * literals) start) board.old memo.old memo.new 0
        (told_of result ended.new) allowed.old allowed.new }
    ensures stops { is_limited allowed.old ≡ true → Stops A req.now K.all (Next.At (2 * literals) start) board.old
        memo.old 0 (left_of allowed.old) (left_of allowed.new) }
{
    let (book, share) = blank.open::<L>();
    let mut turned = Turned { book, share };
    let (turned, place) = (&mut turned, 2 * literals);
    let first = Next::At(place, start);
    if allowed.is_limited() {
        let told = remembering_turns::<L, K, S, A, true>(req, board, memo, first, turned, allowed)?;
        return Ok(taken_apart(told, ended));
    }
    if memo.is_open() {
        let told = remembering_turns::<L, K, S, A, false>(
            req, board, memo, first, turned, allowed,
        )?;
        return Ok(taken_apart(told, ended));
    }
    if turns::<L, K, S, A>(req, board, memo, place, start, turned, ended)? {
        return Ok(Ending::Found);
    }
    Ok(Ending::Failed)
}
