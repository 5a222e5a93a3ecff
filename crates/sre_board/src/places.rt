//! The address under which a point is memoized, so that each address has at most one row. An instruction has its own. A
//! possessive loop, before a body or its end, has that of its first operand, where no instruction is. Also what a list
//! says of the addresses at which the bodies of the loops in progress begin.

ghost use Rattle.std.specs.Prelude.{◌≡◌, ℕ, ◌+◌, ◌<◌, [], length, MatchOption, Some, true, slice_get, slice_index_or};
ghost use Rattle.sre_board.specs.Terms.{repeats, place_under, is_again, Again};
ghost use Rattle.sre_turns.specs.Asked.{SaysOfBodies};
ghost use Rattle.sre_board.specs.Failures.{AreRead};

use crate::board::Board;
use crate::chains::Chains;
use sre_turns::Point;
use std::alloc::Allocator;

/// Whether a point is that of a possessive loop.
#[inline(always)]
pub(crate) fn is_again(point: Point) -> bool
    ensures { result ≡ is_again point }
{
    match point {
        Point::Again => true,
        _ => false,
    }
}

// The address of the innermost loop's first operand, if a loop is in progress and its words exist.
#[inline(always)]
fn loop_place<A: Allocator>(words: &[u32], chains: &Chains<A>, innermost: usize) -> Option<usize>
    requires { innermost < length chains.now }
    ensures { let frames = slice_index_or chains.now innermost [] in MatchOption result
        ((n : ℕ) → place_under Again (repeats frames) ≡ Some n → AreRead words.now frames → ⊥)
        (λ n. place_under Again (repeats frames) ≡ Some n) }
{
    let _words = words.len(); // within which the loops' words lie
    if chains.is_empty(innermost) {
        return None;
    }
    chains.node(innermost).repeat.checked_add(1)
}

/// The address of a point under the loops of a chain, if it has one and its words exist.
#[inline(always)]
pub(crate) fn place_under<A: Allocator>(
    words: &[u32],
    point: Point,
    chains: &Chains<A>,
    innermost: usize,
) -> Option<usize>
    requires { innermost < length chains.now }
    ensures { let frames = slice_index_or chains.now innermost [] in MatchOption result
        ((n : ℕ) → place_under point (repeats frames) ≡ Some n → AreRead words.now frames → ⊥)
        (λ n. place_under point (repeats frames) ≡ Some n) }
{
    match point {
        Point::Instruction(place) => Some(place),
        Point::Again => loop_place(words, chains, innermost),
        _ => None,
    }
}

// Whether a list has `true` for the address at which a body of a loop begins.
#[inline(always)]
fn says_of_body(list: &[bool], repeat: usize) -> bool
    ensures { result ≡ true → slice_get list.now (repeat + 4) ≡ Some true }
{
    let Some(body) = repeat.checked_add(4) else {
        return false;
    };
    matches!(list.get(body), Some(true))
}

// Whether it has that for each loop of a chain.
#[inline(always)]
fn says_of_bodies<A: Allocator>(list: &[bool], chains: &Chains<A>, innermost: usize) -> bool
    requires { innermost < length chains.now }
    ensures { result ≡ true → SaysOfBodies list.now (slice_index_or chains.now innermost []) }
{
    let mut id = innermost;
    'walk: while !chains.is_empty(id) {
        let node = chains.node(id);
        if !says_of_body(list, node.repeat) {
            return false;
        }
        id = node.parent;
    }
    true
}

impl<A: Allocator> Board<A> {
    /// Whether a list has `true` for the address at which the body of each loop in progress begins.
    #[inline(always)]
    pub fn are_bodies_in(&self, list: &[bool]) -> bool
        ensures { result ≡ true → SaysOfBodies list.now self.now.frames }
    {
        let (chains, innermost) = self.loops();
        says_of_bodies(list, chains, innermost)
    }
}
