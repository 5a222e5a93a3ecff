//! The memo of a search: its failures and ends of atomic scopes, and when memoization begins.
//!
//! Memoization costs time at each instruction, and most searches gain little by it. So a search begins without it, and
//! counts events: returns to saved choices, bodies of loops that begin, and bodies of atomic scopes that end. Eight
//! characters of a long stretch count as one event. The memo opens at 16 events for each position of the range. A
//! search with a step limit counts its steps instead, and its memo opens after 32 for each position. The current run
//! then continues with the memo, but restarts if it has a step limit.

ghost use Rattle.std.specs.Prelude.{[], ◌≡◌, ◌⊎◌, ◌+◌, ◌-◌, ◌*◌, ◌≤◌, IfSome, IfNone, true, false};
ghost use Rattle.sre_machine.specs.Terms.{is_inside, spot_at, Refused, HoldsNone, Laid, kept_of, TellsEnd};
ghost use Rattle.sre_machine.specs.Terms.{HoldsOpenMore, KeepsOpenEnds, HoldsOpenEnds, StringCursor, MarklessRegions};
ghost use Rattle.sre_machine.specs.Terms.{run_of, start_of, end_of, KeepsSpot, repeats};
ghost use Rattle.sre_machine.specs.Memos.{MakesRoom, RecallsOf, EndsStay, FailuresStay, IsBlankMemo, KeepsEndsOf};
ghost use Rattle.sre_machine.specs.Memos.{KeepsFrom};

use crate::marked::Marked;
use sre_board::{Board, Ends, Failures};
use sre_chars::string::{StrDrive, StringCursor};
use sre_code::operands::know_words;
use sre_growth::Refusal;
use sre_request::Request;
use sre_turns::Point;
use std::alloc::Allocator;
use std::marker::Model;

mod live_captures;

// So many events are counted one by one between two checks of their total.
const STRIDE: usize = 32;

// How many steps for each position a search with a limit takes before its memo opens.
const TURNS_EACH: usize = 32;

// The most ends of scopes that are counted, and how many of them one failure inside scopes takes off.
const MOST_HOPE: usize = 16;

const HOPE_LOST: usize = 4;

// How many steps a search takes before its memo opens, if it has a limit.
#[inline(always)]
fn turns_waited<S: StrDrive>(req: &Request<'_, S>, limited: bool) -> usize
    ensures { result ≤ 32 * (end_of req.now - start_of req.now + 1) }
{
    if !limited {
        return 0;
    }
    let window = req.end().saturating_sub(req.start());
    window.saturating_add(1).saturating_mul(TURNS_EACH)
}

/// The memoized failures of a search, and when its memo opens.
#[derive(Drop)]
pub struct Memo<A: Allocator> {
    failures: Failures<A>,
    // failures under live captures
    marked: Marked<A>,
    // ends of atomic scopes, by the configurations that were tried inside
    ends: Ends<A>,
    // whether such ends are memoized: no atomic scope of the code sets a capture
    keeps_ends: bool,
    // the first position for which failures are memoized
    first: usize,
    // how many scopes ended lately whose ends are not memoized, less what failed inside
    hope: usize,
    // how many events are left before the next check
    patience: usize,
    // how many there were up to that check
    waited: usize,
    // how many steps a search with a limit may take before its memo opens
    waits: usize,
    // whether the memo is open
    is_open: bool,
    // why it closed: an allocation failed
    refused: Option<Refusal<A>>,
    // whether anything may be memoized; if not, all is as at the start of a search
    is_used: bool,
}

impl<A: Allocator> Model for Memo<A> {
    ghost use Rattle.sre_machine.specs.Memos.{MemoValue, memo_of, IsMemo};

    ghost Value = { MemoValue };

    ghost view = { λ m.
        memo_of m.failures m.marked m.ends m.keeps_ends m.first m.patience m.waited m.waits m.is_open m.refused };

    ghost invariant = { λ m.
        IsMemo m.is_open m.is_used m.patience m.failures m.marked m.ends m.keeps_ends };
}

impl<A: Allocator + Copy> Memo<A> {
    /// An empty memo. It allocates nothing.
    pub fn new(alloc: A) -> Memo<A>
        ensures none { HoldsNone result.kept }
        ensures unmarked { HoldsNone result.marked.kept }
        ensures opened { result.is_open ≡ false }
        ensures stopped { result.stopped ≡ false }
    {
        Memo {
            failures: Failures::new(alloc),
            marked: Marked::new(alloc),
            ends: Ends::new(alloc),
            keeps_ends: false,
            first: 0,
            hope: 0,
            patience: STRIDE,
            waited: STRIDE,
            waits: 0,
            is_open: false,
            refused: None,
            is_used: false,
        }
    }
}

impl<A: Allocator> Memo<A> {
    /// Begins a search: drops all failures, and the stretches noted by an earlier search. The lists keep their memory.
    #[inline(always)]
    pub fn begin<S: StrDrive>(&mut self, req: &Request<'_, S>, board: &mut Board<A>, limited: bool)
        ensures remembers { RecallsOf req.now self.new }
        ensures none { HoldsNone self.new.kept }
        ensures empty { self.new.kept ≡ kept_of [] [] [] }
        ensures opened { self.new.is_open ≡ false }
        ensures stopped { self.new.stopped ≡ false }
        ensures waits { self.new.waits ≤ 32 * (end_of req.now - start_of req.now + 1) }
        ensures board { board.new ≡ board.old }
    {
        let _counted = (board.take_passed(), board.take_entered());
        know_words(req.pattern_codes().items());
        self.forget_used();
        self.patience = STRIDE;
        self.waited = STRIDE;
        self.waits = turns_waited(req, limited);
        self.is_open = false;
        self.refused = None;
    }

    /// Whether anything may be memoized.
    pub(crate) fn is_used(&self) -> bool {
        self.is_used
    }

    // Drops what is memoized, if anything may be.
    #[inline(always)]
    fn forget_used(&mut self)
        ensures { IsBlankMemo self.new }
    {
        if self.is_used {
            self.forget_all();
        }
    }

    // Drops all that is memoized. It is out of line, since few searches memoize anything.
    #[inline(never)]
    fn forget_all(&mut self)
        ensures { IsBlankMemo self.new }
    {
        self.failures.forget();
        self.marked.begin();
        self.ends.forget();
        self.keeps_ends = false;
        self.is_used = false;
    }

    /// Ends a run, and drops its allocation error.
    #[inline(always)]
    pub fn rest(&mut self)
        ensures same { self.new ≡ record self.old { stopped = false } }
        ensures kept { self.new.kept ≡ self.old.kept }
        ensures stopped { self.new.stopped ≡ false }
    {
        self.refused = None;
    }

    /// Opens the memo, without failures.
    #[inline(never)]
    pub(crate) fn open<S: StrDrive>(&mut self, req: &Request<'_, S>)
        ensures opened { self.new.is_open ≡ true }
        ensures empty { self.new.kept ≡ kept_of [] [] [] }
        ensures first { KeepsFrom req.now self.new }
        ensures ends { KeepsEndsOf req.now self.new }
        ensures recalls { RecallsOf req.now self.old → RecallsOf req.now self.new }
        ensures stopped { self.new.stopped ≡ self.old.stopped }
    {
        self.failures.forget();
        self.marked.forget();
        self.ends.forget();
        self.patience = 0;
        self.begin_keeping(req);
    }

    // Opens the memo for positions from as far before the range as lookbehinds may go back. It also memoizes the ends
    // of atomic scopes, if none of them sets a capture.
    #[inline(always)]
    fn begin_keeping<S: StrDrive>(&mut self, req: &Request<'_, S>)
        requires { self.old.patience ≡ 0 }
        ensures same { self.new
            ≡ record self.old { is_open = true; keeps_ends = self.new.keeps_ends; first = self.new.first } }
        ensures markless { self.new.keeps_ends ≡ true → MarklessRegions (run_of req.now).words }
        ensures first { KeepsFrom req.now self.new }
        ensures ends { KeepsEndsOf req.now self.new }
    {
        self.is_used = true;
        self.is_open = true;
        let code = req.pattern_codes();
        self.first = req.start().saturating_sub(code.looks_back());
        self.keeps_ends = !code.regions_set_marks();
        self.hope = MOST_HOPE;
    }

    // Notes that the body of an atomic scope ended, if its end is not memoized.
    #[inline(always)]
    pub(crate) fn note_end(&mut self)
        ensures { self.new ≡ self.old }
    {
        if self.hope < MOST_HOPE {
            self.hope += 1;
        }
    }

    // Notes that something failed inside an atomic scope.
    #[inline(always)]
    fn note_failure(&mut self, board: &Board<A>)
        ensures { self.new ≡ self.old }
    {
        if board.is_inside() {
            self.hope = self.hope.saturating_sub(HOPE_LOST);
        }
    }

    // Whether bodies of atomic scopes mostly ended lately. A repeat inside one then scans its characters at once.
    #[inline(always)]
    pub(crate) fn is_hopeful(&self) -> bool {
        self.hope >= MOST_HOPE / 2
    }

    // Whether the memo is open.
    #[inline(always)]
    pub(crate) fn is_open(&self) -> bool
        ensures opened { result ≡ self.now.is_open }
        ensures refused { self.now.stopped ≡ true → Refused A }
    {
        self.is_open
    }

    // Takes so many steps off those before the memo opens, if there are as many.
    #[inline(always)]
    pub(crate) fn waits_for(&mut self, turns: u64) -> bool
        ensures same { self.new ≡ record self.old { waits = self.new.waits } }
        ensures waits { result ≡ true → self.new.waits + turns ≤ self.old.waits }
    {
        if turns > self.waits as u64 {
            return false;
        }
        self.waits -= turns as usize;
        true
    }

    // Notes an event, and returns whether the memo is open from now on.
    #[inline(always)]
    pub(crate) fn opens<S: StrDrive>(&mut self, req: &Request<'_, S>, board: &mut Board<A>) -> bool
        ensures failures { FailuresStay self.old self.new }
        ensures recalls { RecallsOf req.now self.old → RecallsOf req.now self.new }
        ensures stopped { self.new.stopped ≡ self.old.stopped }
        ensures opened { self.new.is_open ≡ result }
        ensures board { board.new ≡ board.old }
    {
        if self.patience > 0 {
            self.patience -= 1;
            return false;
        }
        self.looks(req, board)
    }

    // Adds up all events so far and the long stretches, of which eight characters count as one, and returns whether the
    // memo opens.
    #[inline(never)]
    fn looks<S: StrDrive>(&mut self, req: &Request<'_, S>, board: &mut Board<A>) -> bool
        requires { self.old.patience ≡ 0 }
        ensures failures { FailuresStay self.old self.new }
        ensures recalls { RecallsOf req.now self.old → RecallsOf req.now self.new }
        ensures stopped { self.new.stopped ≡ self.old.stopped }
        ensures opened { self.new.is_open ≡ result }
        ensures board { board.new ≡ board.old }
    {
        if self.is_open {
            return true;
        }
        let window = req.end().saturating_sub(req.start());
        let bodies = self.waited.saturating_add(board.take_entered());
        self.waited = bodies.saturating_add(board.take_passed() / 8);
        if self.waited / 16 > window {
            self.begin_keeping(req);
            return true;
        }
        self.waited = self.waited.saturating_add(STRIDE);
        self.patience = STRIDE;
        false
    }

    // Makes room for the failures of a point, if there is none. If an allocation fails the search continues without a
    // memo.
    #[inline(always)]
    pub(crate) fn prepare(&mut self, words: &[u32], board: &Board<A>, point: Point, end: usize)
        ensures makes { MakesRoom words.now self.old.first end point (repeats board.now.frames) self.old self.new }
        ensures marked { self.new.marked ≡ self.old.marked }
        ensures ends { EndsStay self.old self.new }
        ensures same { self.new.stopped ≡ false → self.new ≡ record self.old { kept = self.new.kept } }
        ensures stopped { self.old.stopped ≡ true → self.new.stopped ≡ true }
        ensures refused { self.new.stopped ≡ true → Refused A }
    {
        self.is_used = true;
        if let Err(refusal) = self.failures.prepare(words, board, point, self.first, end) {
            self.close(refusal);
        }
    }

    // Closes the memo, because an allocation failed.
    #[inline(always)]
    fn close(&mut self, refusal: Refusal<A>)
        ensures kept { self.new.kept ≡ self.old.kept }
        ensures marked { self.new.marked ≡ self.old.marked }
        ensures ends { EndsStay self.old self.new }
        ensures stopped { self.new.stopped ≡ true }
        ensures refused { Refused A }
    {
        self.patience = usize::MAX;
        self.waits = usize::MAX;
        self.is_open = false;
        self.refused = Some(refusal);
    }

    // The failures that are memoized without captures.
    #[inline(always)]
    pub(crate) fn failures(&self) -> &Failures<A>
        ensures { result.now ≡ self.now.kept }
    {
        &self.failures
    }

    // Memoizes that a point fails at a position, under the present stack.
    #[inline(always)]
    pub(crate) fn keep(&mut self, words: &[u32], board: &Board<A>, point: Point, position: usize)
        ensures kept { KeepsSpot words.now (is_inside board.now.choices)
            (spot_at point board.now.frames position board.now.marks) self.old.kept self.new.kept }
        ensures same { self.new ≡ record self.old { kept = self.new.kept } }
    {
        self.note_failure(board);
        self.is_used = true;
        self.failures.keep(words, board, point, position);
    }

    // Whether ends of atomic scopes are memoized.
    #[inline(always)]
    pub(crate) fn keeps_ends(&self) -> bool
        ensures { result ≡ self.now.keeps_ends }
    {
        self.keeps_ends
    }

    // The end of the innermost atomic scope's body, from a point inside at a position under the present stack, if it is
    // memoized.
    #[inline(never)]
    pub(crate) fn end(
        &self,
        words: &[u32],
        board: &Board<A>,
        point: Point,
        position: usize,
    ) -> Option<StringCursor>
        ensures told { IfSome result (λ end. TellsEnd self.now.kept self.now.ends words.now
            (is_inside board.now.choices)
            (spot_at point board.now.frames position board.now.marks) end) }
        ensures none { IfNone result ((end : StringCursor) → TellsEnd self.now.kept self.now.ends words.now
            (is_inside board.now.choices)
            (spot_at point board.now.frames position board.now.marks) end → ⊥) }
        ensures laid { Laid self.now.kept }
    {
        let number = self.failures.number(words, board, point, position)?;
        self.ends.end(number)
    }

    // Memoizes the end of the innermost atomic scope's body for each point that is being tried inside. If an allocation
    // fails the search continues without a memo.
    #[inline(never)]
    pub(crate) fn keep_ends(&mut self, words: &[u32], board: &Board<A>, end: StringCursor)
        ensures more { HoldsOpenMore self.old.kept words.now board.now.choices end self.old.ends self.new.ends }
        ensures kept { KeepsOpenEnds self.old.kept words.now board.now.choices end self.old.ends self.new.ends }
        ensures held { self.new.stopped ≡ false
            → HoldsOpenEnds self.old.kept words.now board.now.choices end self.new.ends }
        ensures failures { self.new.kept ≡ self.old.kept }
        ensures marked { self.new.marked ≡ self.old.marked }
        ensures keeps { self.new.keeps_ends ≡ self.old.keeps_ends }
        ensures same { self.new.stopped ≡ false → self.new ≡ record self.old { ends = self.new.ends } }
        ensures stopped { self.old.stopped ≡ true → self.new.stopped ≡ true }
        ensures refused { self.new.stopped ≡ true → Refused A }
        ensures still { self.old.is_open ≡ true → self.new.is_open ≡ true ⊎ Refused A }
    {
        self.is_used = true;
        if let Err(refusal) = self.ends.keep_open(&self.failures, words, board, end) {
            self.close(refusal);
        }
    }
}
