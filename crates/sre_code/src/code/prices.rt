//! Prices: what items cost in steps, from which the step bound is computed.
//!
//! The cost of an item is linear in the number of steps that follow it, and in the counter states of the loops around
//! it. So a few numbers describe it, and two prices compose. A scan adds up the prices of the items of one level, and
//! calls itself for each body.

ghost use Rattle.std.specs.Prelude.{ℕ, ◌≡◌, ◌<◌, ◌≤◌, ◌+◌, ◌*◌, ◌^◌, length, Some, IfSome, false, cond};
ghost use Rattle.sre_code.specs.Terms.{Opcode, role, scan_price};
ghost use Rattle.sre_code.specs.Prices.{Held, IsHeld, AreHeld, steps_at, cost_at, joined, passed, kind_of};
ghost use Rattle.sre_code.specs.Prices.{straight_price, run_ends, scope_price, loop_price, possessive_price};
ghost use Rattle.sre_code.specs.Prices.{with_alternative, BodyPriced, ArePriced, StraightPriced, RunPriced, LoopPriced};
ghost use Rattle.sre_code.specs.Prices.{PossessivePriced, ScopePriced, BranchPriced, PricedAt};

use crate::code::slots::{counted_to, loop_slots};
use crate::code::summary::next;
use crate::code::words;
use crate::operands::word_or_zero;
use sre_chars::constants::SreOpcode;

/// The cost of items if `b` steps follow them, inside loops with `s` counter states. Up to the next instruction that
/// may branch they take `steps` steps, and `b` more if `is_open`. Those that may branch cost `s * (cost + each * b) +
/// apart`. All numbers saturate at 64 bits.
#[derive(Clone, Copy)]
pub struct Price {
    pub steps: u64,
    pub is_open: bool,
    pub cost: u64,
    pub each: u64,
    /// The cost of the bodies of atomic scopes, which count as outside of all loops.
    pub apart: u64,
}

/// The price of items, the most steps from one of them up to an instruction that may branch, and the steps since the
/// last such instruction.
#[derive(Clone, Copy)]
pub struct Prices {
    pub all: Price,
    pub most: u64,
    pub since: u64,
}

/// An item, or an instruction without a body: the address after it, and its price.
#[derive(Clone, Copy)]
struct PricedItem {
    behind: usize,
    price: Price,
}

/// What an instruction begins.
#[derive(Clone, Copy)]
enum Kind {
    Fail,
    Run,
    PossessiveRun,
    Branch,
    Loop,
    PossessiveLoop,
    AtomicGroup,
    /// A lookahead or a lookbehind.
    Look,
    Other,
}

fn kind_of(code: SreOpcode) -> Kind
    ensures { result ≡ kind_of (role code) }
{
    match code {
        SreOpcode::FAILURE => Kind::Fail,
        SreOpcode::REPEAT_ONE | SreOpcode::MIN_REPEAT_ONE => Kind::Run,
        SreOpcode::POSSESSIVE_REPEAT_ONE => Kind::PossessiveRun,
        SreOpcode::BRANCH => Kind::Branch,
        SreOpcode::REPEAT => Kind::Loop,
        SreOpcode::POSSESSIVE_REPEAT => Kind::PossessiveLoop,
        SreOpcode::ATOMIC_GROUP => Kind::AtomicGroup,
        SreOpcode::ASSERT | SreOpcode::ASSERT_NOT => Kind::Look,
        _ => Kind::Other,
    }
}

/// The price of a test, a position or a MARK, which take one step, and of no items, which take none.
fn straight(steps: u64) -> Price
    ensures { result ≡ straight_price steps }
{
    Price {
        steps,
        is_open: true,
        cost: 0,
        each: 0,
        apart: 0,
    }
}

/// The price of an instruction that may branch.
fn closed(cost: u64, each: u64, apart: u64) -> Price
    ensures { result ≡ record { steps = 1; is_open = false; cost = cost; each = each; apart = apart } }
{
    Price {
        steps: 1,
        is_open: false,
        cost,
        each,
        apart,
    }
}

/// The steps of items up to the next instruction that may branch, if `behind` steps follow them.
fn steps_before(price: Price, behind: u64) -> u64
    ensures { (x : Price) (b : ℕ) → IsHeld x price → Held b behind → Held (steps_at x b) result }
{
    if price.is_open {
        return price.steps.saturating_add(behind);
    }
    price.steps
}

/// The cost of items inside loops with one counter state, without bodies of atomic scopes, if `behind` steps follow.
pub fn cost_before(price: Price, behind: u64) -> u64
    ensures { (x : Price) (b : ℕ) → IsHeld x price → Held b behind → Held (cost_at x b) result }
{
    price.cost.saturating_add(price.each.saturating_mul(behind))
}

/// A number, or 0 if the items are not open.
fn where_open(price: Price, number: u64) -> u64
    ensures { result ≡ cond price.is_open number 0 }
{
    if price.is_open {
        return number;
    }
    0
}

/// The price of items followed by other items.
fn joined(price: Price, next: Price) -> Price
    ensures { (x y : Price) → IsHeld x price → IsHeld y next → IsHeld (joined x y) result }
{
    Price {
        steps: steps_before(price, next.steps),
        is_open: price.is_open && next.is_open,
        cost: cost_before(price, next.steps).saturating_add(next.cost),
        each: next.each.saturating_add(where_open(next, price.each)),
        apart: price.apart.saturating_add(next.apart),
    }
}

/// The prices of items followed by one more item.
fn passed(prices: Prices, next: Price) -> Prices
    ensures { (x : Prices) (y : Price) → AreHeld x prices → IsHeld y next → AreHeld (passed x y) result }
{
    let since = prices.since.saturating_add(next.steps);
    let all = joined(prices.all, next);
    if next.is_open {
        return Prices {
            all,
            most: prices.most,
            since,
        };
    }
    Prices {
        all,
        most: since.max(prices.most),
        since: 0,
    }
}

/// The price of an atomic group or a lookaround, by that of its body.
fn scope_price(body: Price) -> Price
    ensures { (x : Price) → IsHeld x body → IsHeld (scope_price x) result }
{
    Price {
        steps: steps_before(body, 2).saturating_add(2),
        is_open: true,
        cost: 0,
        each: 0,
        apart: cost_before(body, 2).saturating_add(body.apart),
    }
}

/// The price of a loop, by its counter states and the price of its body.
fn loop_price(slots: u64, body: Price) -> Price
    ensures { (x : Price) → IsHeld x body → IsHeld (loop_price slots x) result }
{
    let inside = steps_before(body, 1);
    let state = cost_before(body, 1)
        .saturating_add(inside)
        .saturating_add(1);
    let cost = slots.saturating_mul(state).saturating_add(inside);
    closed(cost.saturating_add(2), slots.saturating_add(1), body.apart)
}

/// The price of a possessive loop, by its counter states and the price of its body.
fn possessive_price(slots: u64, body: Price) -> Price
    ensures { (x : Price) → IsHeld x body → IsHeld (possessive_price slots x) result }
{
    let state = steps_before(body, 2).saturating_add(1);
    let apart = cost_before(body, 2).saturating_add(body.apart);
    closed(slots.saturating_mul(state).saturating_add(1), slots, apart)
}

/// The price of a branch with one more alternative, which takes two steps besides its own.
fn with_alternative(branch: Price, alternative: Price) -> Price
    ensures { (x y : Price) → IsHeld x branch → IsHeld y alternative → IsHeld (with_alternative x y) result }
{
    let own = alternative
        .steps
        .saturating_add(2)
        .saturating_add(alternative.cost);
    let each = alternative.each.saturating_add(where_open(alternative, 1));
    closed(
        branch.cost.saturating_add(own),
        branch.each.saturating_add(each),
        branch.apart.saturating_add(alternative.apart),
    )
}

/// A test, a position or a MARK; `None` for a conditional.
fn one_step(words: &[u32], place: usize, code: SreOpcode) -> Option<PricedItem>
    requires { Opcode words.now place code }
    ensures told { StraightPriced words.now place result }
    ensures forward { IfSome result (λ p. place < p.behind) }
{
    match next(words, place, code) {
        Some(behind) => Some(PricedItem {
            behind,
            price: straight(1),
        }),
        None => None,
    }
}

/// How many ends a repeat of one character has on a text of so many: one if it is possessive.
fn run_ends(low: u32, high: u32, is_possessive: bool, characters: u64) -> u64
    ensures ends { result ≡ run_ends characters is_possessive low high }
    ensures few { result ≤ 2 ^ 32 }
{
    if is_possessive || high == u32::MAX {
        return 1;
    }
    (high as u64).min(characters).saturating_sub(low as u64) + 1
}

/// What a repeat of one character is charged for a scan of a text of so many, beside its step.
fn scan_price(low: u32, high: u32, characters: u64) -> u64
    ensures price { result ≡ scan_price characters low high }
    ensures few { result < 2 ^ 32 }
{
    (counted_to(low, high) as u64).min(characters) / 8
}

/// The repeat of one character at `place`.
fn run(words: &[u32], place: usize, is_possessive: bool, characters: u64) -> PricedItem
    requires here { place < length words.now }
    ensures told { RunPriced characters is_possessive words.now place (Some result) }
    ensures forward { place < result.behind }
{
    let low = word_or_zero(words, place + 2);
    let high = word_or_zero(words, place + 3);
    let ends = run_ends(low, high, is_possessive, characters);
    let scan = scan_price(low, high, characters);
    PricedItem {
        behind: place + 1 + word_or_zero(words, place + 1) as usize,
        price: closed(ends * 2 + scan, ends, 0),
    }
}

/// The price of the body from `start` up to `end`; `None` if it is nested too deep.
#[cycle(prices)]
fn body_price(words: &[u32], start: usize, end: usize, depth: u32, characters: u64) -> Option<Price>
    ensures { BodyPriced characters depth words.now start end result }
{
    if depth == 0 {
        return None;
    }
    match prices_of(words, start, end, depth - 1, characters) {
        Some(prices) => Some(prices.all),
        None => None,
    }
}

/// The atomic group or lookaround at `place`, whose body begins at `body`.
#[cycle(prices)]
fn scope(
    words: &[u32],
    place: usize,
    body: usize,
    depth: u32,
    characters: u64,
) -> Option<PricedItem>
    requires here { place < length words.now }
    ensures told { ScopePriced characters depth words.now place body result }
    ensures forward { IfSome result (λ p. place < p.behind) }
{
    let end = place + word_or_zero(words, place + 1) as usize;
    match body_price(words, body, end, depth, characters) {
        Some(price) => Some(PricedItem {
            behind: end + 1,
            price: scope_price(price),
        }),
        None => None,
    }
}

/// The loop at `place`.
#[cycle(prices)]
fn looped(words: &[u32], place: usize, depth: u32, characters: u64) -> Option<PricedItem>
    requires here { place < length words.now }
    ensures told { LoopPriced characters depth words.now place result }
    ensures forward { IfSome result (λ p. place < p.behind) }
{
    let end = place + 1 + word_or_zero(words, place + 1) as usize;
    let slots = loop_slots(
        word_or_zero(words, place + 2),
        word_or_zero(words, place + 3),
    );
    match body_price(words, place + 4, end, depth, characters) {
        Some(price) => Some(PricedItem {
            behind: end + 1,
            price: loop_price(slots, price),
        }),
        None => None,
    }
}

/// The possessive loop at `place`.
#[cycle(prices)]
fn possessive(words: &[u32], place: usize, depth: u32, characters: u64) -> Option<PricedItem>
    requires here { place < length words.now }
    ensures told { PossessivePriced characters depth words.now place result }
    ensures forward { IfSome result (λ p. place < p.behind) }
{
    let end = place + 1 + word_or_zero(words, place + 1) as usize;
    let slots = loop_slots(
        word_or_zero(words, place + 2),
        word_or_zero(words, place + 3),
    );
    match body_price(words, place + 4, end, depth, characters) {
        Some(price) => Some(PricedItem {
            behind: end + 1,
            price: possessive_price(slots, price),
        }),
        None => None,
    }
}

/// The branch whose first length is at `first`.
#[cycle(prices)]
fn branch(words: &[u32], first: usize, depth: u32, characters: u64) -> Option<PricedItem>
    ensures told { BranchPriced characters depth words.now first result }
    ensures forward { IfSome result (λ p. first < p.behind) }
{
    let mut place = first;
    let mut price = closed(1, 0, 0);
    'alternative: while place < words.len() {
        let skip = words[place] as usize;
        if skip == 0 {
            return Some(PricedItem {
                behind: place + 1,
                price,
            });
        }
        let end = (place + skip).saturating_sub(2);
        let Some(alternative) = body_price(words, place + 1, end, depth, characters) else {
            return None;
        };
        place += skip;
        price = with_alternative(price, joined(alternative, straight(1)));
    }
    None
}

/// The item at `place`; `None` for a back-reference or a conditional, or if items are nested deeper than `depth`.
#[cycle(prices)]
fn part(words: &[u32], place: usize, depth: u32, characters: u64) -> Option<PricedItem>
    ensures told { PricedAt characters depth words.now place result }
    ensures forward { IfSome result (λ p. place < p.behind) }
{
    let Ok(code) = words::opcode(words, place) else {
        return None;
    };
    match kind_of(code) {
        Kind::Fail => Some(PricedItem {
            behind: place + 1,
            price: closed(0, 0, 0),
        }),
        Kind::Run => Some(run(words, place, false, characters)),
        Kind::PossessiveRun => Some(run(words, place, true, characters)),
        Kind::Branch => branch(words, place + 1, depth, characters),
        Kind::Loop => looped(words, place, depth, characters),
        Kind::PossessiveLoop => possessive(words, place, depth, characters),
        Kind::AtomicGroup => scope(words, place, place + 2, depth, characters),
        Kind::Look => scope(words, place, place + 3, depth, characters),
        Kind::Other => one_step(words, place, code),
    }
}

/// The prices of the items from `start` up to `end` on a text of so many characters. `None` if there is a
/// back-reference or a conditional, or if items are nested deeper than `depth`.
#[cycle(prices)]
pub fn prices_of(
    words: &[u32],
    start: usize,
    end: usize,
    depth: u32,
    characters: u64,
) -> Option<Prices>
    ensures { ArePriced characters depth words.now start end result }
{
    let mut place = start;
    let mut prices = Prices {
        all: straight(0),
        most: 0,
        since: 0,
    };
    'part: while place < end {
        let Some(next) = part(words, place, depth, characters) else {
            return None;
        };
        place = next.behind;
        prices = passed(prices, next.price);
    }
    Some(prices)
}
