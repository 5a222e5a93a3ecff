//! A runner: the memory in which the machine runs, and the number of its runs.

ghost use Rattle.std.specs.Prelude.{◌≡◌, ◌≤◌, ◌+◌, ◌*◌, ◌^◌, ◌<◌, IfErr, false};
ghost use Rattle.sre_machine.specs.Terms.{Tree, WholeItems, no_marks, ReadsBehind, bare, start_of, end_of, run_of};
ghost use Rattle.sre_machine.specs.Terms.{Standing};
ghost use Rattle.sre_machine.specs.Spending.{Halted, is_limited, RunDecides, Spends, RunCosts, AnewCosts, found_of};
ghost use Rattle.sre_machine.specs.Spending.{told_of};
ghost use Rattle.sre_machine.specs.Memos.{Recalls, Begins, RecallsOf};
ghost use Rattle.sre_machine.specs.Runners.{IsReady, MayRun, Began, AttemptDecides, ClearsUnfound, AttemptCosts};

use crate::allowance::Allowance;
use crate::memo::Memo;
use crate::turns::{Begun, Ending, Halt, turns_from};
use sre_board::{Board, Marks};
use sre_chars::string::{StrDrive, StringCursor};
use sre_code::operands::know_words;
use sre_request::Request;
use std::alloc::Allocator;
use std::marker::{Brand, Model};
use std::sync::ledger::Blank;

/// The backtrack stack of the machine, the memo of its failures, and how many runs began.
#[derive(Drop)]
pub struct Runner<A: Allocator> {
    board: Board<A>,
    memo: Memo<A>,
    begun: Begun,
}

impl<A: Allocator> Model for Runner<A> {
    ghost use Rattle.std.specs.Prelude.{◌≡◌, false};
    ghost use Rattle.sre_machine.specs.Runners.{RunnerValue};

    ghost Value = { RunnerValue };

    ghost view = { λ r. record {
      board = r.board;
      memo = r.memo;
      started = r.begun.started;
      restarted = r.begun.restarted;
    } };

    // No allocation error of an earlier run is left.
    ghost invariant = { λ r. r.memo.stopped ≡ false };
}

impl<A: Allocator + Copy> Runner<A> {
    /// A runner without captures and runs. It allocates nothing.
    pub fn new(alloc: A) -> Runner<A>
        ensures board { result.board ≡ bare no_marks }
        ensures started { result.started ≡ 0 }
        ensures restarted { result.restarted ≡ 0 }
    {
        Runner {
            board: Board::new(alloc),
            memo: Memo::new(alloc),
            begun: Begun::none(),
        }
    }

    /// The allocator of its memory.
    pub fn allocator(&self) -> A {
        self.board.allocator()
    }

    /// Drops the captures, and the memory too if there is much of it or failures are memoized in it.
    pub fn renew(&mut self)
        ensures board { self.new.board ≡ bare no_marks }
    {
        if self.memo.is_used() || self.board.is_large() {
            *self = Runner::new(self.allocator());
        } else {
            self.board.clear();
        }
    }
}

impl<A: Allocator> Runner<A> {
    /// The captures of the last match path that was found. There are none if the last attempt found none.
    pub fn marks(&self) -> &Marks<A>
        ensures { result.now ≡ self.now.board.marks }
    {
        self.board.marks()
    }

    /// How many runs began.
    pub fn begun(&self) -> Begun
        ensures started { result.started ≡ self.now.started }
        ensures restarted { result.restarted ≡ self.now.restarted }
    {
        self.begun
    }

    /// Replaces the number of runs that began.
    #[inline(always)]
    pub fn count(&mut self, begun: Begun)
        ensures { self.new ≡ record self.old { started = begun.started; restarted = begun.restarted } }
    {
        self.begun = begun;
    }

    /// Drops the captures, and keeps the memory.
    pub fn clear(&mut self)
        ensures { self.new ≡ record self.old { board = bare no_marks } }
    {
        self.board.clear();
    }

    /// Begins a search: without captures and failures, and with no run counted.
    #[inline(always)]
    pub fn begin<S: StrDrive>(&mut self, req: &Request<'_, S>, limited: bool)
        ensures ready { IsReady req.now self.new }
        ensures begins { Begins (start_of req.now) (end_of req.now) self.new.memo }
        ensures started { self.new.started ≡ 0 }
        ensures restarted { self.new.restarted ≡ 0 }
    {
        self.board.clear();
        self.memo.begin(req, &mut self.board, limited);
        self.begun = Begun::none();
    }

    /// Attempts a match of what follows some literals, from a cursor. Returns the cursor at the end of the first
    /// accepted path, whose captures the runner then has, or `None` if there is none. It charges its steps to the
    /// limit, and ends if none is left. Failures stay memoized for later attempts of the search.
    ///
    /// No other function begins runs of the machine, and this one counts those that it begins.
    #[inline(always)]
    pub fn attempt<S: StrDrive>(
        &mut self,
        req: &Request<'_, S>,
        literals: usize,
        start: StringCursor,
        allowed: &mut Allowance,
    ) -> Result<Option<StringCursor>, Halt<A>>
        requires stands { Standing req.now start }
        requires inside { start.position ≤ end_of req.now }
        requires behind { (t : Tree) → WholeItems (run_of req.now).words t
            → ReadsBehind (run_of req.now).words literals t }
        requires few { 2 * literals < 2 ^ 64 }
        requires ready { IsReady req.now self.old }
        ensures began { Began (is_limited allowed.old) self.old self.new }
        ensures remembers { Recalls (run_of req.now) self.new.memo }
        ensures decides { AttemptDecides req.now literals start.position result self.new.board }
        ensures clears { ClearsUnfound result self.new.board }
        ensures costs { AttemptCosts req.now literals start result self.old self.new allowed.old allowed.new }
        ensures halted { IfErr result (Halted allowed.new) }
    {
        let mut ended = start;
        match self.run_from(req, literals, start, allowed, &mut ended) {
            Ok(true) => Ok(Some(ended)),
            Ok(false) => {
                self.board.clear();
                Ok(None)
            }
            Err(halt) => {
                self.board.clear();
                Err(halt)
            }
        }
    }

    // If the memo opens during a run, the run continues with its saved choices, or restarts if steps are limited. All
    // steps count, those before a restart too. The result says whether there is an accepted path, and its end is
    // written apart: most starts fail, and then nothing else is returned.
    #[inline(always)]
    fn run_from<S: StrDrive>(
        &mut self,
        req: &Request<'_, S>,
        literals: usize,
        start: StringCursor,
        allowed: &mut Allowance,
        ended: &mut StringCursor,
    ) -> Result<bool, Halt<A>>
        requires may { MayRun req.now literals start }
        requires ready { IsReady req.now self.old }
        ensures began { Began (is_limited allowed.old) self.old self.new }
        ensures remembers { RecallsOf req.now self.new.memo }
        ensures decides { AttemptDecides req.now literals start.position (found_of result ended.new) self.new.board }
        ensures costs { AttemptCosts req.now literals start (found_of result ended.new) self.old self.new
            allowed.old allowed.new }
        ensures halted { IfErr result (Halted allowed.new) }
    {
        self.begun.started += 1;
        match self.run_once(req, literals, start, allowed, ended)? {
            Ending::Found => Ok(true),
            Ending::Failed => Ok(false),
            Ending::Opened => self.run_anew(req, literals, start, allowed, ended),
        }
    }

    // A run that restarts on an empty stack with its memo open, and is counted. It is out of line, since few runs
    // restart.
    #[inline(never)]
    fn run_anew<S: StrDrive>(
        &mut self,
        req: &Request<'_, S>,
        literals: usize,
        start: StringCursor,
        allowed: &mut Allowance,
        ended: &mut StringCursor,
    ) -> Result<bool, Halt<A>>
        requires may { MayRun req.now literals start }
        requires room { self.old.restarted + 1 < 2 ^ 64 }
        requires remembers { RecallsOf req.now self.old.memo }
        ensures started { self.new.started ≡ self.old.started }
        ensures restarted { self.new.restarted ≡ self.old.restarted + 1 }
        ensures remembers { RecallsOf req.now self.new.memo }
        ensures decides { AttemptDecides req.now literals start.position (found_of result ended.new) self.new.board }
        ensures spends { Spends result allowed.old allowed.new }
        ensures costs { AnewCosts req.now literals start self.new.memo (found_of result ended.new)
            allowed.old allowed.new }
    {
        self.board.clear();
        self.memo.open(req);
        self.begun.restarted += 1;
        match self.run_once(req, literals, start, allowed, ended)? {
            Ending::Found => Ok(true),
            Ending::Failed => Ok(false),
            Ending::Opened => unreachable!(),
        }
    }

    // A run on an empty stack, until it is decided or must restart with its memo open.
    #[inline(always)]
    fn run_once<S: StrDrive>(
        &mut self,
        req: &Request<'_, S>,
        literals: usize,
        start: StringCursor,
        allowed: &mut Allowance,
        ended: &mut StringCursor,
    ) -> Result<Ending, Halt<A>>
        requires may { MayRun req.now literals start }
        requires fresh { self.old.board ≡ bare no_marks }
        requires remembers { RecallsOf req.now self.old.memo }
        ensures same { self.new ≡ record self.old { board = self.new.board; memo = self.new.memo } }
        ensures remembers { RecallsOf req.now self.new.memo }
        ensures decides { RunDecides req.now literals start.position (told_of result ended.new) self.new.board
            self.old.memo allowed.old }
        ensures spends { Spends result allowed.old allowed.new }
        ensures costs { RunCosts req.now literals start self.old.memo self.new.memo (told_of result ended.new)
            allowed.old allowed.new }
    {
        know_words(req.pattern_codes().items());
        let (board, memo) = (&mut self.board, &mut self.memo);
        let blank = Blank::new(1);
        let told = turns_from::<Brand, Brand, S, A>(
            req, board, memo, literals, start, blank, allowed, ended,
        );
        self.memo.rest();
        told
    }
}
