//! What no clause says of memoized failures: a failure is found again in each equivalent configuration, and a row that
//! cannot be allocated or is too large does no harm.

use crate::growths::was_refused;
use crate::scripts::{Change, SCRIPTS, Step};
use sre_board::{Board, Failures, Known};
use sre_chars::string::StringCursor;
use sre_failing_allocator::Refusing;
use sre_growth::Refusal;
use sre_turns::{Frame, Point, Region};
use std::alloc::{Allocator, Global};

const NO_LIMIT: u32 = u32::MAX;

// (?:ab)*(?:ab)+(?:ab){2,5}(?:ab){1,9000000}
const WORDS: &[u32] = &[
    23, 7, 0, NO_LIMIT, 16, 97, 16, 98, 18, 23, 7, 1, NO_LIMIT, 16, 97, 16, 98, 18, 23, 7, 2, 5,
    16, 97, 16, 98, 18, 23, 7, 1, 9000000, 16, 97, 16, 98, 18, 1,
];

// the addresses of its loops
pub(crate) const STAR: usize = 0;

pub(crate) const PLUS: usize = 9;

pub(crate) const COUNTED: usize = 18;

pub(crate) const FAR: usize = 27;

// the address of memoized configurations, and all addresses at which they are counted
const PLACE: usize = 4;

const PLACES: [usize; 4] = [3, 4, 5, 36];

// A loop in progress: its address, its iterations so far, and the start of the last one.
pub(crate) type Loop = (usize, u32, Option<usize>);

// Loops in progress, outermost first. Those that are equivalent at position 12 have the same number.
static LOOPS: [(u32, &[Loop]); 31] = [
    (0, &[]),
    // one more iteration is always possible
    (1, &[(STAR, 0, None)]),
    (1, &[(STAR, 3, None)]),
    (1, &[(STAR, 7, Some(11))]),
    (1, &[(STAR, NO_LIMIT, Some(0))]),
    // the last iteration began here
    (2, &[(STAR, 3, Some(12))]),
    (2, &[(STAR, 7, Some(12))]),
    // one iteration is still required, or none
    (3, &[(PLUS, 0, None)]),
    (4, &[(PLUS, 1, None)]),
    (4, &[(PLUS, 2, Some(11))]),
    (4, &[(PLUS, NO_LIMIT, Some(3))]),
    (5, &[(PLUS, 1, Some(12))]),
    (5, &[(PLUS, 2, Some(12))]),
    // each count up to the maximum is distinct
    (6, &[(COUNTED, 0, None)]),
    (7, &[(COUNTED, 1, None)]),
    (8, &[(COUNTED, 2, None)]),
    (8, &[(COUNTED, 2, Some(11))]),
    (9, &[(COUNTED, 2, Some(12))]),
    (10, &[(COUNTED, 4, None)]),
    (11, &[(COUNTED, 5, None)]),
    (11, &[(COUNTED, 6, Some(1))]),
    (12, &[(COUNTED, 5, Some(12))]),
    // nested loops
    (13, &[(STAR, 1, None), (COUNTED, 2, None)]),
    (13, &[(STAR, 4, Some(2)), (COUNTED, 2, Some(5))]),
    (14, &[(STAR, 1, None), (COUNTED, 3, None)]),
    (15, &[(STAR, 4, Some(12)), (COUNTED, 2, None)]),
    (16, &[(STAR, 4, None), (COUNTED, 2, Some(12))]),
    (17, &[(COUNTED, 2, None), (STAR, 1, None)]),
    (18, &[(STAR, 1, None), (STAR, 1, None)]),
    (19, &[(STAR, 1, None), (STAR, 1, Some(12))]),
    (20, &[(STAR, 1, Some(12)), (STAR, 1, None)]),
];

// Begins loops, outermost first.
fn enter_all<A: Allocator>(board: &mut Board<A>, loops: &[Loop]) -> Result<(), Refusal<A>> {
    for &(repeat, count, last) in loops {
        board.enter(Frame {
            repeat,
            count,
            last,
        })?;
    }
    Ok(())
}

// Calls of failures with the bytecode as a parameter. If a contract names a constant, a check computes with all of it.
fn prepare_in<A: Allocator>(
    failures: &mut Failures<A>,
    words: &[u32],
    board: &Board<A>,
    place: usize,
    first: usize,
    end: usize,
) -> Result<(), Refusal<A>> {
    failures.prepare(words, board, Point::Instruction(place), first, end)
}

fn keep_in<A: Allocator>(
    failures: &mut Failures<A>,
    words: &[u32],
    board: &Board<A>,
    place: usize,
    position: usize,
) -> bool {
    failures.keep(words, board, Point::Instruction(place), position)
}

fn is_kept_in<A: Allocator>(
    failures: &Failures<A>,
    words: &[u32],
    board: &Board<A>,
    place: usize,
    position: usize,
) -> bool {
    matches!(failures.known(words, board, Point::Instruction(place), position), Known::Failed)
}

// Whether a failure that is memoized under some loops is known under others, with a row up to a position.
fn tells(
    failures: &mut Failures<Global>,
    board: &mut Board<Global>,
    words: &[u32],
    kept: &[Loop],
    asked: &[Loop],
    end: usize,
) -> Result<bool, Refusal<Global>> {
    enter_all(board, kept)?;
    prepare_in(failures, words, board, PLACE, 10, end)?;
    keep_in(failures, words, board, PLACE, 12);
    board.clear();
    enter_all(board, asked)?;
    Ok(is_kept_in(failures, words, board, PLACE, 12))
}

// The same with new failures.
fn is_told(
    alloc: Global,
    words: &[u32],
    kept: &[Loop],
    asked: &[Loop],
    end: usize,
) -> Result<bool, Refusal<Global>> {
    let mut failures = Failures::new(alloc);
    let mut board = Board::new(alloc);
    tells(&mut failures, &mut board, words, kept, asked, end)
}

#[test]
fn a_spot_is_told_under_loops_that_are_alike(rt: HostRuntime) {
    for &(kind, kept) in &LOOPS {
        for &(other, asked) in &LOOPS {
            let told = is_told(rt.alloc(), WORDS, kept, asked, 20).ok();
            assert!(rt; told == Some(kind == other), "{kept:?} {asked:?}");
        }
    }
}

// The maxima of two loops, whether both are in progress, the row's last position, and whether the last counter state is
// memoized. A loop has 2 (n + 1) counter states, and there are 2^24 at most in all. A row for many has 2^30 bits.
static COUNTS: [(u32, u32, bool, usize, bool); 9] = [
    (2047, 1, false, 20, true),
    (3000, 1, false, 20, true),
    (8388607, 1, false, 20, true),
    (8388607, 1, false, 100, false),
    (8388608, 1, false, 20, false),
    (4294967294, 1, false, 20, false),
    (2047, 2047, true, 20, true),
    (2047, 2048, true, 20, false),
    (4294967294, 4294967294, true, 20, false),
];

// Whether the last counter state of two loops, or of the first alone, has a bit in a row up to a position.
fn has_last_slot(alloc: Global, first: u32, second: u32, both: bool, end: usize) -> Option<bool> {
    let words = [
        23, 7, 0, first, 16, 97, 16, 98, 18, 23, 7, 0, second, 16, 97, 16, 98, 18, 1,
    ];
    let loops = [(0, first, Some(12)), (9, second, Some(12))];
    if both {
        is_told(alloc, &words, &loops, &loops, end).ok()
    } else {
        is_told(alloc, &words, &loops[..1], &loops[..1], end).ok()
    }
}

#[test]
fn a_row_has_bits_for_as_many_slots_as_it_may(rt: HostRuntime) {
    for &(first, second, both, end, wanted) in &COUNTS {
        let told = has_last_slot(rt.alloc(), first, second, both, end);
        assert!(rt; told == Some(wanted), "{first} {second} {end}");
    }
}

// Memoizes a failure. Returns whether it is known then.
fn keeps<A: Allocator>(
    failures: &mut Failures<A>,
    board: &Board<A>,
    place: usize,
    position: usize,
) -> bool {
    keep_in(failures, WORDS, board, place, position);
    is_kept_in(failures, WORDS, board, place, position)
}

// Prepares a row for an address. Returns whether the allocation succeeded.
fn prepares<A: Allocator>(
    failures: &mut Failures<A>,
    board: &Board<A>,
    place: usize,
    first: usize,
    end: usize,
) -> bool {
    prepare_in(failures, WORDS, board, place, first, end).is_ok()
}

// The number of known failures at an address, at positions below 40.
fn count_at(failures: &Failures<Global>, board: &Board<Global>, place: usize) -> u32 {
    let mut told = 0u32;
    for position in 0..40 {
        if is_kept_in(failures, WORDS, board, place, position) {
            told = told.saturating_add(1);
        }
    }
    told
}

// The number of known failures at all addresses.
fn count_on(failures: &Failures<Global>, board: &Board<Global>) -> u32 {
    let mut told = 0u32;
    for place in &PLACES {
        told = told.saturating_add(count_at(failures, board, *place));
    }
    told
}

// Changes a board. Returns whether that succeeded.
fn change(board: &mut Board<Global>, step: Change) -> bool {
    match step {
        Change::Set(mark) => board.set(mark, 7).is_ok(),
        Change::Save => board
            .save(Point::Instruction(36), StringCursor::new(12, 12))
            .is_ok(),
        Change::Enter(loops) => enter_all(board, loops).is_ok(),
        Change::Begin => board
            .begin_region(Region::Owed, StringCursor::new(12, 12))
            .is_ok(),
        Change::Leave => {
            board.leave();
            true
        }
        Change::Cut => board.cut().is_some(),
        Change::Back => board.back().is_some(),
        Change::Clear => {
            board.clear();
            true
        }
    }
}

// Takes a step. Returns whether it has the expected result.
fn takes(failures: &mut Failures<Global>, board: &mut Board<Global>, step: Step) -> bool {
    match step {
        Step::To(change_of_board) => change(board, change_of_board),
        Step::Row(place, first, end) => prepares(failures, board, place, first, end),
        Step::Keep(place, position, wanted) => keeps(failures, board, place, position) == wanted,
        Step::Told(wanted) => is_kept_in(failures, WORDS, board, PLACE, 12) == wanted,
        Step::Count(wanted) => count_on(failures, board) == wanted,
        Step::Forget => {
            failures.forget();
            true
        }
    }
}

// The number of steps with the expected result, up to the first without.
fn count_taken(
    failures: &mut Failures<Global>,
    board: &mut Board<Global>,
    steps: &[Step],
) -> usize {
    let mut taken = 0usize;
    for step in steps {
        if !takes(failures, board, *step) {
            return taken;
        }
        taken = taken.saturating_add(1);
    }
    taken
}

// The same with a new board and new failures.
fn taken_by_new(alloc: Global, steps: &[Step]) -> usize {
    let mut failures = Failures::new(alloc);
    let mut board = Board::new(alloc);
    count_taken(&mut failures, &mut board, steps)
}

#[test]
fn spots_are_told_as_the_board_stands(rt: HostRuntime) {
    for (number, steps) in SCRIPTS.iter().enumerate() {
        let taken = taken_by_new(rt.alloc(), steps);
        assert!(rt; taken == steps.len(), "step {taken} of {number}");
    }
}

// Whether a row fails exactly if an allocation does and succeeds at the next try, and then memoizes a failure.
fn makes_room<A: Allocator>(
    heap: &Refusing<Global>,
    failures: &mut Failures<A>,
    board: &Board<A>,
    place: usize,
) -> bool {
    let left = heap.left();
    let is_made = prepares(failures, board, place, 10, 20);
    if is_made == was_refused(heap, left) || keeps(failures, board, place, 12) != is_made {
        return false;
    }
    is_made || prepares(failures, board, place, 10, 20) && keeps(failures, board, place, 12)
}

// Whether the failure is known at all addresses below another.
fn tell_all<A: Allocator>(failures: &Failures<A>, board: &Board<A>, places: usize) -> bool {
    for place in 0..places {
        if !is_kept_in(failures, WORDS, board, place, 12) {
            return false;
        }
    }
    true
}

// Prepares a row for each address, with one allocation failed. Returns whether each succeeds at last, and all earlier
// failures stay known.
fn makes_all<A: Allocator>(
    heap: &Refusing<Global>,
    failures: &mut Failures<A>,
    board: &mut Board<A>,
) -> bool {
    // if the board cannot enter its loop, nothing is left to test
    if enter_all(board, &[(STAR, 3, None)]).is_err() {
        return heap.left() == 0;
    }
    for place in 0..37 {
        if !makes_room(heap, failures, board, place) || !tell_all(failures, board, place) {
            return false;
        }
    }
    tell_all(failures, board, 37)
}

// The same with the allocation of a number failed, and whether there was one.
fn are_made(alloc: Global, refused: u64) -> (bool, bool) {
    let heap = Refusing::new(alloc, refused);
    let mut board: Board<&Refusing<Global>> = Board::new(&heap);
    let mut failures = Failures::new(&heap);
    let are_made = makes_all(&heap, &mut failures, &mut board);
    (are_made, heap.left() == 0)
}

#[test]
fn a_row_fails_where_memory_is_refused(rt: HostRuntime) {
    let mut refusals = 0u64;
    for refused in 1..40u64 {
        let (are_made, is_refused) = are_made(rt.alloc(), refused);
        assert!(rt; are_made, "{refused}");
        if is_refused {
            refusals = refusals.saturating_add(1);
        }
    }
    // the loop of the board, the numbers, the rows, the addresses of the loops and the bits
    assert!(rt; refusals >= 5);
}
