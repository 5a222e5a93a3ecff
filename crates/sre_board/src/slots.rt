//! A slot: the counter states of the loops in progress as one number. Of each loop it has the count, and whether the
//! last body began at this position.
//!
//! A row belongs to a list of loop addresses, innermost first. It has as many slots as these loops have such states, or
//! the list has no row.

ghost use Rattle.std.specs.Prelude.{◌≡◌, ℕ, ◌+◌, ◌*◌, ◌^◌, ◌<◌, ◌≤◌, List, [], ◌++◌, length, MatchOption, IfOk};
ghost use Rattle.std.specs.Prelude.{slice_index_or};
ghost use Rattle.sre_board.specs.Terms.{repeats, slots};
ghost use Rattle.sre_turns.specs.Alike.{is_last};
ghost use Rattle.sre_board.specs.Failures.{HasSlot, HasShape, IsPassed, AreRead, WordsThere, counted_at, digit, radix};

use crate::chains::{Chains, frame_of};
use crate::failures::Row;
use sre_growth::Refusal;
use sre_turns::Frame;
use std::alloc::Allocator;

// The most slots of a row.
const MOST_SLOTS: usize = 16777216;

// The number up to which the bodies of a loop are counted, if its words exist.
#[inline(always)]
fn counted_at(words: &[u32], repeat: usize) -> Option<usize>
    ensures { MatchOption result (length words.now ≤ repeat + 3)
        (λ n. (n ≡ counted_at words.now repeat) × (n < 2 ^ 32) × (repeat + 3 < length words.now)) }
{
    if words.len() < 4 || repeat > words.len() - 4 {
        return None;
    }
    let low = words[repeat + 2];
    let high = words[repeat + 3];
    if high == u32::MAX {
        return Some(low as usize);
    }
    Some(low.max(high) as usize)
}

// Whether a loop's last body began at a position. `None` if it began after it.
#[inline(always)]
fn is_here(last: Option<usize>, position: usize) -> Option<bool>
    ensures { MatchOption result (IsPassed last position → ⊥)
        (λ here. IsPassed last position × (here ≡ is_last last position)) }
{
    match last {
        None => Some(false),
        Some(last) if last > position => None,
        Some(last) => Some(last == position),
    }
}

// The slot with one more loop, from that of the loops inside it, if there is one.
#[inline(always)]
fn with_loop(words: &[u32], frame: Frame, position: usize, slot: usize) -> Option<usize>
    requires { slot < 2 ^ 24 }
    ensures { MatchOption result
        (frame.repeat + 3 < length words.now → IsPassed frame.last position
        → 2 ^ 24 ≤ slot * radix words.now frame.repeat + digit words.now position frame)
        (λ n. (n < 2 ^ 24) × IsPassed frame.last position × (frame.repeat + 3 < length words.now)
        × (n ≡ slot * radix words.now frame.repeat + digit words.now position frame)) }
{
    let counted = counted_at(words, frame.repeat)?;
    let here = is_here(frame.last, position)?;
    let count = counted.min(frame.count as usize);
    let inner = slot * ((counted + 1) * 2);
    let next = inner + (count * 2 + usize::from(here));
    if next >= MOST_SLOTS {
        return None;
    }
    Some(next)
}

// The slot of the loops in progress, if they are those of a row.
#[inline(always)]
pub(crate) fn slot_of<A: Allocator>(
    words: &[u32],
    shapes: &[usize],
    row: Row,
    chains: &Chains<A>,
    innermost: usize,
    position: usize,
) -> Option<usize>
    requires { innermost < length chains.now }
    ensures { let frames = slice_index_or chains.now innermost [] in MatchOption result
        ((slot : ℕ) → slot < 2 ^ 24 → AreRead words.now frames
        → HasSlot words.now position shapes.now row.end row.shape 0 frames slot → ⊥)
        (λ slot. (slot < 2 ^ 24) × AreRead words.now frames
        × HasSlot words.now position shapes.now row.end row.shape 0 frames slot) }
{
    let mut id = innermost;
    let mut at = row.shape;
    let mut slot = 0;
    'walk: while !chains.is_empty(id) {
        let node = chains.node(id);
        if at >= shapes.len() || shapes[at] != node.repeat {
            return None;
        }
        slot = with_loop(words, frame_of(node), position, slot)?;
        at += 1;
        id = node.parent;
    }
    if at != row.end {
        return None;
    }
    Some(slot)
}

// The number of slots with one more loop; 0 if they are too many, or the loop's words do not exist.
#[inline(always)]
fn more_slots(words: &[u32], repeat: usize, slots: usize) -> usize
    ensures few { result ≤ 2 ^ 24 }
    ensures all { repeat + 3 < length words.now → slots * radix words.now repeat ≤ 2 ^ 24
        → result ≡ slots * radix words.now repeat }
{
    let Some(counted) = counted_at(words, repeat) else {
        return 0;
    };
    let all = slots.saturating_mul((counted + 1) * 2);
    if all > MOST_SLOTS { 0 } else { all }
}

// Appends the addresses of the loops in progress, innermost first, and returns their number of slots. If these are too
// many it returns 0 and appends nothing. Otherwise the addresses of nested loops would take the square of their depth.
#[inline(always)]
pub(crate) fn add_shape<A: Allocator>(
    shapes: &mut Vec<usize, A>,
    words: &[u32],
    chains: &Chains<A>,
    innermost: usize,
) -> Result<usize, Refusal<A>>
    requires { innermost < length chains.now }
    ensures more { (more : List ℕ) × (shapes.new.items ≡ shapes.old.items ++ more) }
    ensures few { IfOk result (λ n. n ≤ 2 ^ 24) }
    ensures shape { IfOk result (λ n. 1 ≤ n
        → HasShape shapes.new.items (length shapes.new.items) (length shapes.old.items)
        (repeats (slice_index_or chains.now innermost []))) }
    ensures slots { IfOk result (λ n. WordsThere words.now (repeats (slice_index_or chains.now innermost []))
        → slots words.now (repeats (slice_index_or chains.now innermost [])) ≤ 2 ^ 24
        → n ≡ slots words.now (repeats (slice_index_or chains.now innermost []))) }
{
    let held = shapes.len();
    let mut id = innermost;
    let mut slots = 1;
    'walk: while !chains.is_empty(id) {
        let node = chains.node(id);
        slots = more_slots(words, node.repeat, slots);
        if slots == 0 {
            shapes.truncate(held);
            return Ok(0);
        }
        sre_growth::push(shapes, node.repeat)?;
        id = node.parent;
    }
    Ok(slots)
}
