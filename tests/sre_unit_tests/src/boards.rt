//! The memory of the board, which no clause covers.

use crate::growths::was_refused;
use sre_board::{Board, Change, Saved};
use sre_chars::string::StringCursor;
use sre_failing_allocator::Refusing;
use sre_growth::Refusal;
use sre_turns::Point;
use std::alloc::{Allocator, Global};

// Sets two capture slots to positions.
fn set_both<A: Allocator>(
    board: &mut Board<A>,
    first: (u32, usize),
    second: (u32, usize),
) -> Result<(), Refusal<A>> {
    board.set(first.0, first.1)?;
    board.set(second.0, second.1)
}

// Captures set over two choices. The second slot of each pair is set before the first, and one slot twice.
fn set_over_choices<A: Allocator>(board: &mut Board<A>) -> Result<(), Refusal<A>> {
    board.set(1, 7)?;
    board.save(Point::Instruction(4), StringCursor::new(1, 2))?;
    set_both(board, (0, 5), (3, 9))?;
    board.save(Point::Shorter(6, 3), StringCursor::new(8, 16))?;
    set_both(board, (3, 8), (5, 2))
}

// Whether there is an error exactly if an allocation failed, and the cleared board can be reused.
fn is_left(heap: &Refusing<Global>, board: &mut Board<&Refusing<Global>>) -> bool {
    let left = heap.left();
    if set_over_choices(board).is_err() != was_refused(heap, left) {
        return false;
    }
    board.clear();
    let is_empty = board.marks().raw().is_empty() && board.marks().last_index() == -1;
    is_empty && set_over_choices(board).is_ok() && board.marks().last_index() == 3
}

// The same with the allocation of a number failed, and whether there was one.
fn is_left_by(alloc: Global, refused: u64) -> (bool, bool) {
    let heap = Refusing::new(alloc, refused);
    let mut board: Board<&Refusing<Global>> = Board::new(&heap);
    (is_left(&heap, &mut board), heap.left() == 0)
}

// Each allocation is failed in turn.
#[test]
fn a_refused_growth_leaves_a_board(rt: HostRuntime) {
    let mut refusals = 0u64;
    for refused in 1..16u64 {
        let (is_left, is_refused) = is_left_by(rt.alloc(), refused);
        assert!(rt; is_left, "{refused}");
        if is_refused {
            refusals = refusals.saturating_add(1);
        }
    }
    assert!(rt; refusals > 2);
}

#[test]
fn what_is_kept_of_a_choice_is_small(rt: HostRuntime) {
    assert!(rt; size_of::<Change>() == 24);
    assert!(rt; size_of::<Saved>() == 64);
}

// Sets captures on a cleared board many times, over choices and without a choice that saves them.
fn set_often<A: Allocator>(board: &mut Board<A>) -> Result<(), Refusal<A>> {
    for position in 0..100 {
        board.clear();
        set_over_choices(board)?;
        board.clear();
        set_both(board, (5, position), (0, position))?;
    }
    Ok(())
}

// Whether a board allocates at first, and not when captures are set again.
fn keeps_memory(heap: &Refusing<Global>, board: &mut Board<&Refusing<Global>>) -> bool {
    let first = heap.left();
    let is_set = set_over_choices(board).is_ok();
    let left = heap.left();
    is_set && left < first && set_often(board).is_ok() && heap.left() == left
}

// A new or a cleared board does not allocate, and neither do captures that no choice saves.
#[test]
fn memory_is_kept(rt: HostRuntime) {
    let heap = Refusing::new(rt.alloc(), 1_000_000);
    let mut board: Board<&Refusing<Global>> = Board::new(&heap);
    assert!(rt; heap.left() == 1_000_000);
    assert!(rt; keeps_memory(&heap, &mut board));
}
