//! The step bound of a code for texts of so many characters, if it is known.
//!
//! A summary tells whether an atomic scope may branch and whether one sets a capture. If not both, a second scan counts
//! the counter states.

ghost use Rattle.std.specs.Prelude.{◌≡◌, ◌+◌, ℕ, ◌-◌, ◌*◌, ◌^◌, length, min, true, false, IfSome, ◌≤◌, nat_le};
ghost use Rattle.sre_code.specs.Terms.{Tree, WholeItems, refers, longest_lookbehind};
ghost use Rattle.sre_code.specs.MostSlots.{SlotsTold};
ghost use Rattle.sre_code.specs.Bounds.{CountedTold, BoundTold, NumberBy, AreWhole, room_by, bound_by, bound_of};
ghost use Rattle.sre_code.specs.Prices.{AreHeld, Held};

use crate::code::prices::{Prices, cost_before, prices_of};
use crate::code::slots::scan;
use crate::code::summary::summarize;

/// The most counter states of an address at which failures are memoized.
const MOST_SLOTS: u64 = 1 << 24;

/// With more counter states, all bits of an address are stored only if they fit the words of one part.
const FEW_SLOTS: u64 = 4096;

/// The words of one part of an address's bits.
const MOST_WORDS_IN_PART: u64 = 1 << 24;

/// The most words of bits in a memo.
const MOST_WORDS: u64 = 1 << 30;

/// How deep items may be nested: the scan of a body is a recursive call.
const MOST_NESTED: u32 = 100;

/// The most counter states at an address, and the number of sides of a configuration: inside atomic scopes and outside,
/// or one if no atomic scope may branch.
#[derive(Clone, Copy)]
struct Counted {
    slots: u64,
    sides: u64,
}

/// The number of bits of an address, or the greatest 64-bit number if there are more.
fn bits_by(positions: u64, slots: u64) -> u64
    ensures { Held (slots * 2 * positions) result }
{
    slots.saturating_mul(2).saturating_mul(positions)
}

/// Whether all bits of an address are stored.
fn are_whole(positions: u64, slots: u64) -> bool
    ensures yes { result ≡ true → AreWhole positions slots }
    ensures no { result ≡ false → AreWhole positions slots → ⊥ }
{
    if slots <= FEW_SLOTS {
        return true;
    }
    bits_by(positions, slots) / 64 < MOST_WORDS_IN_PART
}

/// Whether the memo has room for so many addresses, each with these positions and counter states.
fn has_room(places: u64, positions: u64, slots: u64) -> bool
    ensures { result ≡ nat_le (room_by places positions slots) (2 ^ 30) }
{
    let words = places.saturating_mul(bits_by(positions, slots) / 64 + 1);
    words <= MOST_WORDS
}

/// The step bound from its parts, or the greatest 64-bit number if it is more.
fn bound_by(positions: u64, most: u64, cost: u64, longest: u64) -> u64
    ensures { (x y : ℕ) → Held x most → Held y cost → Held (bound_by positions x y longest) result }
{
    let each = most.saturating_add(cost).saturating_add(1);
    let long = each.saturating_mul(longest / 8 + 1);
    positions.saturating_mul(long.saturating_add(32))
}

/// The step bound from the prices of the items.
fn bound_of(prices: Prices, sides: u64, longest: u64, positions: u64) -> u64
    ensures { (x : Prices) → AreHeld x prices → Held (bound_of x sides longest positions) result }
{
    let most = prices.since.saturating_add(2).max(prices.most);
    let cost = cost_before(prices.all, 2).saturating_add(prices.all.apart);
    bound_by(positions, most, cost.saturating_mul(sides), longest)
}

/// One more than the step bound for a text of so many characters. `None` if the memo has no room for all failures, or
/// if the number takes more than 64 bits.
fn number(
    places: u64,
    counted: Counted,
    prices: Prices,
    longest: u64,
    characters: u64,
) -> Option<u64>
    ensures { (x : Prices) → AreHeld x prices → NumberBy places counted.slots
        (bound_of x counted.sides (min longest characters) (characters + 1)) characters result }
{
    let positions = characters.checked_add(1)?;
    if !has_room(places, positions, counted.slots) || !are_whole(positions, counted.slots) {
        return None;
    }
    bound_of(prices, counted.sides, longest.min(characters), positions).checked_add(1)
}

/// The counter states and sides of the items. `None` if there is a back-reference or a conditional, if an atomic scope
/// may branch and one sets a capture, or if there are too many counter states.
fn count(items: &[u32]) -> Option<Counted>
    ensures told { (tree : Tree) → WholeItems items.now tree → CountedTold tree result }
    ensures few { IfSome result (λ c. c.slots ≤ 2 ^ 24) }
{
    let sum = summarize(items);
    if sum.refers || (sum.forks && sum.marks) {
        return None;
    }
    match scan(items, 0, items.len().saturating_sub(1), MOST_SLOTS) {
        Some(slots) => Some(Counted {
            slots,
            sides: if sum.forks { 2 } else { 1 },
        }),
        None => None,
    }
}

/// The most counter states at an address; `None` if they are not known, or are more than the memo can tell apart.
pub fn most_slots(items: &[u32]) -> Option<u32>
    ensures { (tree : Tree) → WholeItems items.now tree → SlotsTold tree result }
{
    match count(items) {
        Some(counted) => Some(counted.slots as u32),
        None => None,
    }
}

/// One more than the step bound of the items for a text of so many characters. `longest` is their longest lookbehind.
/// `None` if it is not known, or takes more than 64 bits.
pub fn step_bound(items: &[u32], longest: u32, characters: usize) -> Option<u64>
    ensures { (tree : Tree) → WholeItems items.now tree → (refers tree ≡ false → longest ≡ longest_lookbehind tree)
        → BoundTold (length items.now) tree characters result }
{
    let counted = count(items)?;
    let end = items.len().saturating_sub(1);
    let prices = prices_of(items, 0, end, MOST_NESTED, characters as u64)?;
    number(
        items.len() as u64,
        counted,
        prices,
        longest as u64,
        characters as u64,
    )
}
