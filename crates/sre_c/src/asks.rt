//! How a text is searched: by the machine, and with DFAs where the text's type allows it.

ghost use Rattle.std.specs.Prelude.{◌≡◌, ◌≤◌, ℕ, List, true, IfSome, ⊤};
ghost use Rattle.sre_c.specs.Terms.{Table, uni_of, SetsOf, asked_of, code_of, items_of, behind_block, Suits, words_of};
ghost use Rattle.sre_c.specs.Answered.{no_limit};
ghost use Rattle.sre_c.specs.Replies.{told_of, Finds};
ghost use Rattle.sre_c.specs.Rows.{Writes};

use crate::spans::write_spans;
use crate::status::Status;
use crate::types::SreWalked;
use crate::walk::write_rows;
use sre_engine::engine::{Nobody, Starts};
use sre_engine::{Request, SreError, State, StrDrive, StringCursor};
use sre_finder::{Encoding, FEW_CHARACTERS, Haystack, Kept, Memory};
use std::alloc::Global;

/// The budget of a call without a step limit.
pub const NO_LIMIT: u64 = u64::MAX;

/// The result of a call without a step limit, which cannot exceed it.
pub fn answered(found: Result<bool, SreError>) -> Result<Option<bool>, SreError>
    ensures { result ≡ told_of found }
{
    match found {
        Ok(found) => Ok(Some(found)),
        Err(error) => Err(error),
    }
}

/// What searches texts of one type.
pub trait Asks<S: StrDrive> {
    // What it has built is of a code with these words and this table.
    ghost suits: { Self → List ℕ → Table → Type 0 };

    /// Searches a range, and returns whether there is a match, within a budget of steps.
    fn search(
        &mut self,
        alloc: Global,
        state: &mut State<Global>,
        request: &Request<'_, S>,
        steps: &mut u64,
    ) -> Result<Option<bool>, SreError>
        requires suits { suits self.old (words_of (code_of request.now)) (uni_of (code_of request.now)) }
        ensures finds { Finds (words_of (code_of request.now)) (asked_of request.now) true result state.new steps.old
            steps.new }
        ensures suits { suits self.new (words_of (code_of request.now)) (uni_of (code_of request.now)) };

    /// Writes the matches of a range, row by row, until there is no room for one more row, or no match.
    fn write(
        &mut self,
        alloc: Global,
        request: &mut Request<'_, S>,
        width: usize,
        rows: &mut [usize],
        walked: &mut SreWalked,
    ) -> Status
        requires suits { suits self.old (words_of (code_of request.old)) (uni_of (code_of request.old)) }
        requires none { walked.old.count ≡ 0 }
        ensures rows { Writes result request.old walked.old.steps width walked.new rows.new }
        ensures steps { walked.new.steps ≤ walked.old.steps }
        ensures unlimited { walked.old.steps ≡ no_limit → walked.new.steps ≡ walked.old.steps }
        ensures suits { suits self.new (words_of (code_of request.old)) (uni_of (code_of request.old)) };
}

/// The machine alone, for texts of any type.
#[derive(Clone, Copy)]
pub struct Machine;

impl<S: StrDrive> Asks<S> for Machine {
    ghost suits = { λ _ words table. ⊤ };

    fn search(
        &mut self,
        _alloc: Global,
        state: &mut State<Global>,
        request: &Request<'_, S>,
        steps: &mut u64,
    ) -> Result<Option<bool>, SreError> {
        let Ok(request) = request.clone() else {
            unreachable!(); // it takes no memory
        };
        if *steps == NO_LIMIT {
            return answered(state.search(request));
        }
        state.search_within(request, steps)
    }

    fn write(
        &mut self,
        alloc: Global,
        request: &mut Request<'_, S>,
        width: usize,
        rows: &mut [usize],
        walked: &mut SreWalked,
    ) -> Status {
        let mut memory = Memory::new(alloc);
        write_rows(request, &mut memory, &mut Nobody, width, rows, walked)
    }
}

// How many characters a range has.
#[inline(always)]
fn range<S: StrDrive>(request: &Request<'_, S>) -> usize {
    request.end().saturating_sub(request.start())
}

/// The machine and DFAs, for a single call over bytes or UTF-8.
#[derive(Clone, Copy)]
pub struct Once;

impl<S: Haystack> Asks<S> for Once {
    ghost suits = { λ _ words table. ⊤ };

    fn search(
        &mut self,
        alloc: Global,
        state: &mut State<Global>,
        request: &Request<'_, S>,
        steps: &mut u64,
    ) -> Result<Option<bool>, SreError> {
        if range(request) <= FEW_CHARACTERS {
            return Machine.search(alloc, state, request, steps);
        }
        let mut kept = Kept::new(Encoding::Bytes);
        Asks::search(&mut kept, alloc, state, request, steps)
    }

    fn write(
        &mut self,
        alloc: Global,
        request: &mut Request<'_, S>,
        width: usize,
        rows: &mut [usize],
        walked: &mut SreWalked,
    ) -> Status {
        if range(request) <= FEW_CHARACTERS {
            return Machine.write(alloc, request, width, rows, walked);
        }
        let mut kept = Kept::new(Encoding::Bytes);
        let mut memory = Memory::new(alloc);
        write_in(alloc, &mut kept, &mut memory, request, width, rows, walked)
    }
}

/// The machine and DFAs, for bytes and UTF-8. DFAs are built once the machine has spent as much as that costs.
impl<S: Haystack> Asks<S> for Kept {
    ghost suits = { λ kept words table. Suits words table kept };

    fn search(
        &mut self,
        alloc: Global,
        state: &mut State<Global>,
        request: &Request<'_, S>,
        steps: &mut u64,
    ) -> Result<Option<bool>, SreError> {
        let Ok(request) = request.clone() else {
            unreachable!(); // it takes no memory
        };
        if *steps == NO_LIMIT {
            return answered(self.search(alloc, request, state));
        }
        self.search_within(alloc, request, state, steps)
    }

    fn write(
        &mut self,
        alloc: Global,
        request: &mut Request<'_, S>,
        width: usize,
        rows: &mut [usize],
        walked: &mut SreWalked,
    ) -> Status {
        let Some(mut memory) = memory_in(alloc, self) else {
            return Machine.write(alloc, request, width, rows, walked);
        };
        let status = write_in(alloc, self, &mut *memory, request, width, rows, walked);
        self.put_memory(memory);
        status
    }
}

/// Takes out the memory that is kept, or allocates one. `None` if that fails.
#[inline(always)]
pub fn memory_in(alloc: Global, kept: &mut Kept) -> Option<Box<Memory>>
    ensures suits { (ws : List ℕ) (uni : Table) → Suits ws uni kept.old → Suits ws uni kept.new }
    ensures sets { (ws : List ℕ) (uni : Table) → Suits ws uni kept.old
        → IfSome result (λ m. SetsOf (behind_block ws) m.value.sets) }
{
    match kept.take_memory() {
        Some(memory) => Some(memory),
        None => Box::new(alloc, Memory::new(alloc)).ok(),
    }
}

// Whether the machine alone is to search a range, without a limit.
#[inline(always)]
fn is_alone<S: StrDrive>(kept: &mut Kept, request: &Request<'_, S>, steps: u64) -> bool
    ensures suits { (ws : List ℕ) (uni : Table) → Suits ws uni kept.old → Suits ws uni kept.new }
{
    steps == NO_LIMIT && kept.is_alone(request)
}

// The prefilter that skips nothing, and counts the runs that failed.
#[derive(Clone, Copy)]
struct Failures {
    runs: u64,
}

impl<S: StrDrive> Starts<S> for Failures {
    ghost suits = { λ _ _ _. ⊤ };

    #[inline(always)]
    fn beyond(&mut self, _req: &Request<'_, S>, from: StringCursor) -> Option<StringCursor> {
        Some(from)
    }

    #[inline(always)]
    fn tells(&self) -> bool {
        false
    }

    #[inline(always)]
    fn note_failed(&mut self) {
        self.runs = self.runs.wrapping_add(1);
    }
}

// Writes the matches with the DFAs that are kept and the memory of earlier calls. Within a limit the machine finds each
// match, with a prefilter. It is out of line, since it has large values, and few short ranges need it.
#[inline(never)]
fn write_by_dfas<S: Haystack>(
    alloc: Global,
    kept: &mut Kept,
    memory: &mut Memory,
    request: &mut Request<'_, S>,
    width: usize,
    rows: &mut [usize],
    walked: &mut SreWalked,
) -> Status
    requires suits { Suits (words_of (code_of request.old)) (uni_of (code_of request.old)) kept.old }
    requires sets { SetsOf (items_of (code_of request.old)) memory.old.sets }
    requires none { walked.old.count ≡ 0 }
    ensures rows { Writes result request.old walked.old.steps width walked.new rows.new }
    ensures steps { walked.new.steps ≤ walked.old.steps }
    ensures unlimited { walked.old.steps ≡ no_limit → walked.new.steps ≡ walked.old.steps }
    ensures suits { Suits (words_of (code_of request.old)) (uni_of (code_of request.old)) kept.new }
    ensures sets { SetsOf (items_of (code_of request.old)) memory.new.sets }
{
    let encoding = request.string().encoding(request.end());
    if walked.steps < NO_LIMIT {
        // captures of a span, and what DFAs leave open, cost steps that nothing counts
        kept.begin(alloc, encoding);
        return write_rows(request, memory, kept, width, rows, walked);
    }
    let mut finder = kept.take(alloc, request.pattern_codes(), encoding);
    let status = write_spans(&mut finder, request, memory, width, rows, walked);
    *kept = finder.into_kept();
    status
}

// Writes the matches with the memory of earlier calls: by the machine alone, or with the DFAs that are kept.
fn write_in<S: Haystack>(
    alloc: Global,
    kept: &mut Kept,
    memory: &mut Memory,
    request: &mut Request<'_, S>,
    width: usize,
    rows: &mut [usize],
    walked: &mut SreWalked,
) -> Status
    requires suits { Suits (words_of (code_of request.old)) (uni_of (code_of request.old)) kept.old }
    requires sets { SetsOf (items_of (code_of request.old)) memory.old.sets }
    requires none { walked.old.count ≡ 0 }
    ensures rows { Writes result request.old walked.old.steps width walked.new rows.new }
    ensures steps { walked.new.steps ≤ walked.old.steps }
    ensures unlimited { walked.old.steps ≡ no_limit → walked.new.steps ≡ walked.old.steps }
    ensures suits { Suits (words_of (code_of request.old)) (uni_of (code_of request.old)) kept.new }
    ensures sets { SetsOf (items_of (code_of request.old)) memory.new.sets }
{
    if !is_alone(kept, request, walked.steps) {
        return write_by_dfas(alloc, kept, memory, request, width, rows, walked);
    }
    let characters = range(request);
    let mut failures = Failures { runs: 0 };
    let status = write_rows(request, memory, &mut failures, width, rows, walked);
    kept.note_alone(failures.runs.saturating_add(1), characters);
    status
}
