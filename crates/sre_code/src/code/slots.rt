//! The most counter states of nested loops: a scan from one instruction to the next, into each alternative and each
//! loop's body.
//!
//! The scan calls itself for the body of each loop. The counter states of nested loops are multiplied, each loop has at
//! least two, and the product has a limit: so few calls are nested.
//!
//! It goes into the body of each atomic scope, and past the SUCCESS that ends it, so nested scopes need no nested
//! calls. The counter states of a possessive loop are not multiplied with those inside, since its bodies are matched
//! apart. A conditional ends the scan.

ghost use Rattle.std.specs.Prelude.{◌≡◌, ◌<◌, ◌≤◌, length, IfSome};
ghost use Rattle.sre_code.specs.Terms.{Opcode, role, loop_slots, counted_to};
ghost use Rattle.sre_code.specs.Scans.{kind_of, AreTold, LoopTold, OtherTold, PossessiveTold, ToldAt};

use crate::code::summary::next;
use crate::code::words;
use crate::operands::word_or_zero;
use sre_chars::constants::SreOpcode;

/// The address after what was passed, and the most counter states of its nested loops.
#[derive(Clone, Copy)]
struct Passed {
    behind: usize,
    slots: u64,
}

/// What an instruction begins.
#[derive(Clone, Copy)]
enum Kind {
    Loop,
    PossessiveLoop,
    Other,
}

/// The greatest count of a repeat or a loop that makes a difference, by its least and greatest.
pub fn counted_to(low: u32, high: u32) -> u32
    ensures { result ≡ counted_to low high }
{
    if high == u32::MAX {
        return low;
    }
    low.max(high)
}

fn kind_of(code: SreOpcode) -> Kind
    ensures { result ≡ kind_of (role code) }
{
    match code {
        SreOpcode::REPEAT => Kind::Loop,
        SreOpcode::POSSESSIVE_REPEAT => Kind::PossessiveLoop,
        _ => Kind::Other,
    }
}

/// The number of counter states of a loop that differ, by its least and its greatest count.
pub fn loop_slots(low: u32, high: u32) -> u64
    ensures { result ≡ loop_slots low high }
{
    (counted_to(low, high) as u64 + 1) * 2
}

/// Passes an instruction that is no loop; `None` for a conditional.
fn other(words: &[u32], place: usize, code: SreOpcode) -> Option<Passed>
    requires { Opcode words.now place code }
    ensures told { OtherTold words.now place result }
    ensures forward { IfSome result (λ p. place < p.behind) }
    ensures one { IfSome result (λ p. p.slots ≡ 1) }
{
    match next(words, place, code) {
        Some(behind) => Some(Passed { behind, slots: 1 }),
        None => None,
    }
}

/// Passes the words before the body of the possessive loop at `place`. `None` if this loop alone has more counter
/// states than `most`.
fn possessive(words: &[u32], place: usize, most: u64) -> Option<Passed>
    requires here { place < length words.now }
    ensures told { PossessiveTold most words.now place result }
    ensures forward { IfSome result (λ p. place < p.behind) }
    ensures few { IfSome result (λ p. p.slots ≤ most) }
{
    let slots = loop_slots(
        word_or_zero(words, place + 2),
        word_or_zero(words, place + 3),
    );
    if most < slots {
        return None;
    }
    Some(Passed {
        behind: place + 4,
        slots,
    })
}

/// Passes the loop at `place`, its body and what ends it; `None` if the scan of its body fails.
#[cycle(plain)]
fn looped(words: &[u32], place: usize, most: u64) -> Option<Passed>
    requires here { place < length words.now }
    requires some { 1 ≤ most }
    ensures told { LoopTold most words.now place result }
    ensures forward { IfSome result (λ p. place < p.behind) }
    ensures few { IfSome result (λ p. p.slots ≤ most) }
{
    let end = place + 1 + word_or_zero(words, place + 1) as usize;
    let slots = loop_slots(
        word_or_zero(words, place + 2),
        word_or_zero(words, place + 3),
    );
    let left = most / slots;
    if left == 0 {
        return None;
    }
    match scan(words, place + 4, end, left) {
        Some(body) => Some(Passed {
            behind: end + 1,
            slots: slots * body,
        }),
        None => None,
    }
}

/// Passes the instruction at `place`, with its body if it is a loop. `None` for a conditional, or if a loop has too
/// many states.
#[cycle(plain)]
fn part(words: &[u32], place: usize, most: u64) -> Option<Passed>
    requires some { 1 ≤ most }
    ensures told { ToldAt most words.now place result }
    ensures forward { IfSome result (λ p. place < p.behind) }
    ensures few { IfSome result (λ p. p.slots ≤ most) }
{
    let Ok(code) = words::opcode(words, place) else {
        return None;
    };
    match kind_of(code) {
        Kind::Loop => looped(words, place, most),
        Kind::PossessiveLoop => possessive(words, place, most),
        Kind::Other => other(words, place, code),
    }
}

/// The most counter states of the items from `start` up to `end`. `None` if there are more than `most`, or if a
/// conditional ends the scan.
#[cycle(plain)]
pub fn scan(words: &[u32], start: usize, end: usize, most: u64) -> Option<u64>
    requires some { 1 ≤ most }
    ensures told { AreTold most words.now start end result }
    ensures few { IfSome result (λ n. n ≤ most) }
{
    let mut place = start;
    let mut slots = 1;
    'part: while place < end {
        let Some(next) = part(words, place, most) else {
            return None;
        };
        place = next.behind;
        slots = next.slots.max(slots);
    }
    Some(slots)
}
