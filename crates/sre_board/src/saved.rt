//! What a choice stores, and what the choices of a stack need.

ghost use Rattle.std.specs.Prelude.{◌≡◌, ℕ, ◌<◌, ◌≤◌, List, [], ◌∷◌, reverse, MatchOption, true, false};
ghost use Rattle.sre_board.specs.Terms.{Frame, StringCursor, choice, Trying, MayBeTried, Instruction, Inside};
ghost use Rattle.sre_board.specs.Choices.{Fits, regions_of, is_tried, down_to_region};
ghost use Rattle.sre_model.specs.Marks as values;

use sre_chars::string::StringCursor;
use sre_turns::{Frame, Point, Region};
use std::alloc::Allocator;

/// A choice: where to continue, the loops in progress, and how many changes and chains there were when it was saved.
#[derive(Clone, Copy)]
pub struct Saved {
    pub point: Point,
    pub cursor: StringCursor,
    pub frame: usize,
    pub chains: usize,
    pub changes: usize,
}

/// How many chains and how many changes the choices need.
#[inline(always)]
pub(crate) fn needs(saved: &[Saved]) -> (usize, usize)
    ensures chains { (n more changes : ℕ) → result.0 < n → Fits (reverse saved.now) more changes
        → Fits (reverse saved.now) n changes }
    ensures changes { (n changes : ℕ) → Fits (reverse saved.now) n changes
        → (result.1 ≤ changes) × Fits (reverse saved.now) n result.1 }
{
    if saved.is_empty() {
        return (0, 0);
    }
    let newest = saved[saved.len() - 1];
    (newest.chains, newest.changes)
}

/// The number of atomic scopes that a choice is, 0 or 1.
#[inline(always)]
pub(crate) fn regions_of(point: Point) -> usize
    ensures { result ≡ regions_of point }
{
    match point {
        Point::Inside(_) => 1,
        _ => 0,
    }
}

/// The marker on the stack that a point is tried.
#[inline(always)]
pub(crate) fn mark_of(point: Point) -> Point
    requires { MayBeTried point }
    ensures { (fs : List Frame) (c : StringCursor) (m : values.Marks) → choice result fs c m ≡ Trying point fs c m }
{
    match point {
        Point::Instruction(place) => Point::Tried(place),
        Point::Again => Point::TriedAgain,
        _ => unreachable!(),
    }
}

/// The point that a choice marks as tried, if it is a marker.
#[inline(always)]
pub(crate) fn tried_of(point: Point) -> Option<Point>
    ensures { MatchOption result (is_tried point ≡ false)
        (λ tried. (fs : List Frame) (c : StringCursor) (m : values.Marks) → choice point fs c m ≡ Trying tried fs c m) }
{
    match point {
        Point::Tried(place) => Some(Point::Instruction(place)),
        Point::TriedAgain => Some(Point::Again),
        _ => None,
    }
}

/// Whether a choice continues at an instruction and a cursor, with the loops of a chain, and, if captures matter, after
/// so many changes.
#[inline(always)]
pub(crate) fn goes_on_at(
    saved: Saved,
    place: usize,
    cursor: StringCursor,
    frame: usize,
    changes: usize,
    marks_matter: bool,
) -> bool
    ensures { result ≡ true → (saved.point ≡ Instruction place) × (saved.cursor ≡ cursor)
        × (saved.frame ≡ frame) × (marks_matter ≡ true → saved.changes ≡ changes) }
{
    matches!(saved.point, Point::Instruction(at) if at == place)
        && saved.cursor == cursor
        && saved.frame == frame
        && (!marks_matter || saved.changes == changes)
}

/// Pops the choices down to the innermost atomic scope, and that too.
#[inline(always)]
pub(crate) fn innermost<A: Allocator>(choices: &mut Vec<Saved, A>) -> Option<(Region, Saved)>
    ensures { MatchOption result
        (down_to_region (reverse choices.old.items) ≡ [])
        (λ x.
        (x.1.point ≡ Inside x.0) × (down_to_region (reverse choices.old.items) ≡ x.1 ∷ reverse choices.new.items)) }
{
    'choice: loop {
        let saved = choices.pop()?;
        if let Point::Inside(region) = saved.point {
            return Some((region, saved));
        }
    }
}
