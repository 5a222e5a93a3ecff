//! Scans of the items from one instruction to the next, into each body: a summary of the items, and whether an atomic
//! scope sets a capture.
//!
//! A scan needs no stack, since what ends a body is passed like any other instruction. A JUMP ends an alternative, and
//! the next one, or the end of the branch, follows the length word after it. A conditional ends the scan.
//!
//! An atomic scope is an atomic group, a lookaround or a possessive loop. After its opcode comes a skip, which leads to
//! the SUCCESS that ends the body, or past it. Such scopes nest, so an instruction is inside of one exactly if the
//! farthest end of those that have begun is behind it.

ghost use Rattle.std.specs.Prelude.{◌≡◌, ◌<◌, ◌≤◌, ◌+◌, ℕ, false, length};
ghost use Rattle.sre_code.specs.Terms.{Tree, word, Opcode, WholeItems, role, marks_in_regions, refers};
ghost use Rattle.sre_chars.specs.declared.constants.SreOpcode.TheVariants as opcode;
ghost use Rattle.sre_code.specs.Scans.{own_words, NextAt, noted, IsSummary, closing_place, RegionWord};

use crate::code::{character, words};
use crate::operands::word_or_zero;
use sre_chars::constants::SreOpcode;

/// The number of words from an instruction with this opcode to its body, or to the next instruction. The length word
/// after a BRANCH or a JUMP counts. `None` for a test or a conditional.
fn own_words(code: SreOpcode) -> Option<usize>
    ensures { result ≡ own_words (role code) }
{
    match code {
        SreOpcode::FAILURE | SreOpcode::SUCCESS | SreOpcode::MAX_UNTIL | SreOpcode::MIN_UNTIL => {
            Some(1)
        }
        SreOpcode::AT
        | SreOpcode::MARK
        | SreOpcode::BRANCH
        | SreOpcode::ATOMIC_GROUP
        | SreOpcode::GROUPREF
        | SreOpcode::GROUPREF_IGNORE
        | SreOpcode::GROUPREF_LOC_IGNORE
        | SreOpcode::GROUPREF_UNI_IGNORE => Some(2),
        SreOpcode::JUMP | SreOpcode::ASSERT | SreOpcode::ASSERT_NOT => Some(3),
        SreOpcode::REPEAT
        | SreOpcode::POSSESSIVE_REPEAT
        | SreOpcode::REPEAT_ONE
        | SreOpcode::MIN_REPEAT_ONE
        | SreOpcode::POSSESSIVE_REPEAT_ONE => Some(4),
        _ => None,
    }
}

/// The address of the instruction after the one at `place`, whose opcode is `code`. `None` for a conditional.
pub fn next(words: &[u32], place: usize, code: SreOpcode) -> Option<usize>
    requires { Opcode words.now place code }
    ensures { NextAt words.now place result }
{
    match own_words(code) {
        Some(count) => Some(place + count),
        None => match character::test(words, place, code) {
            Ok(behind) => Some(behind),
            Err(_) => None,
        },
    }
}

/// No group: no pattern has so many.
const NO_GROUP: u32 = u32::MAX;

/// What a scan computes of the items.
#[derive(Clone, Copy)]
pub struct Summary {
    /// Whether there is a back-reference or a conditional.
    pub refers: bool,
    /// The least and the greatest group that is referred to. With a conditional they are group 0 and no group, and
    /// with neither no group and group 0.
    pub from: u32,
    pub to: u32,
    /// How far the lookbehinds go back, at most and together.
    pub longest: u32,
    pub backs: usize,
    /// Whether there is a MARK inside an atomic scope.
    pub marks: bool,
    /// Whether there is a branch, a repeat or a loop inside an atomic scope, or a possessive loop.
    pub forks: bool,
    /// Where the farthest atomic scope ends that has begun.
    farthest: usize,
}

/// The summary with the instruction at `place`.
#[inline(always)]
fn noted(sum: Summary, words: &[u32], place: usize, code: SreOpcode) -> Summary
    requires { place < length words.now }
    ensures { result ≡ noted (role code) place (word words.now (place + 1)) (word words.now (place + 2)) sum }
{
    match code {
        SreOpcode::MARK => Summary {
            marks: place < sum.farthest || sum.marks,
            ..sum
        },
        SreOpcode::BRANCH
        | SreOpcode::REPEAT_ONE
        | SreOpcode::MIN_REPEAT_ONE
        | SreOpcode::POSSESSIVE_REPEAT_ONE
        | SreOpcode::REPEAT => Summary {
            forks: place < sum.farthest || sum.forks,
            ..sum
        },
        SreOpcode::POSSESSIVE_REPEAT => Summary {
            forks: true,
            farthest: sum
                .farthest
                .max(place + 1 + word_or_zero(words, place + 1) as usize),
            ..sum
        },
        SreOpcode::ATOMIC_GROUP => Summary {
            farthest: sum
                .farthest
                .max(place + word_or_zero(words, place + 1) as usize),
            ..sum
        },
        SreOpcode::ASSERT | SreOpcode::ASSERT_NOT => {
            let back = word_or_zero(words, place + 2);
            Summary {
                farthest: sum
                    .farthest
                    .max(place + word_or_zero(words, place + 1) as usize),
                longest: sum.longest.max(back),
                backs: sum.backs.saturating_add(back as usize),
                ..sum
            }
        }
        SreOpcode::GROUPREF
        | SreOpcode::GROUPREF_IGNORE
        | SreOpcode::GROUPREF_LOC_IGNORE
        | SreOpcode::GROUPREF_UNI_IGNORE => {
            let group = word_or_zero(words, place + 1);
            Summary {
                refers: true,
                from: sum.from.min(group),
                to: sum.to.max(group),
                ..sum
            }
        }
        _ => sum,
    }
}

/// Nothing is known of the items, as behind a conditional.
const UNKNOWN: Summary = Summary {
    refers: true,
    from: 0,
    to: NO_GROUP,
    longest: 0,
    backs: 0,
    marks: true,
    forks: true,
    farthest: 0,
};

/// The summary of the items; SUCCESS is the last word.
#[inline(always)]
pub fn summarize(words: &[u32]) -> Summary
    ensures { (tree : Tree) → WholeItems words.now tree → IsSummary tree result }
{
    let end = words.len().saturating_sub(1);
    let mut place = 0;
    let mut sum = Summary {
        refers: false,
        from: NO_GROUP,
        to: 0,
        longest: 0,
        backs: 0,
        marks: false,
        forks: false,
        farthest: 0,
    };
    'instruction: while place < end {
        let Ok(code) = words::opcode(words, place) else {
            return UNKNOWN;
        };
        let Some(behind) = next(words, place, code) else {
            return UNKNOWN;
        };
        sum = noted(sum, words, place, code);
        place = behind;
    }
    sum
}

/// The address of the SUCCESS that ends the body of a scope with this opcode, whose skip leads to `tail`. `None` if no
/// atomic scope has this opcode.
fn closing_place(code: SreOpcode, tail: usize) -> Option<usize>
    ensures { result ≡ closing_place (role code) tail }
{
    match code {
        SreOpcode::POSSESSIVE_REPEAT => Some(tail),
        SreOpcode::ATOMIC_GROUP | SreOpcode::ASSERT | SreOpcode::ASSERT_NOT => {
            Some(tail.saturating_sub(1))
        }
        _ => None,
    }
}

/// The address of that SUCCESS if the word at `place` may begin an atomic scope, else 0.
#[tactic(auto, using(sre_model::proofs::Opcodes::word_of))]
fn closing_at(words: &[u32], place: usize) -> usize
    requires { place < length words.now }
    ensures { (end : ℕ) → RegionWord words.now place end → end ≤ result }
{
    let Ok(code) = words::opcode(words, place) else {
        return 0;
    };
    let tail = place + 1 + word_or_zero(words, place + 1) as usize;
    let Some(end) = closing_place(code, tail) else {
        return 0;
    };
    if word_or_zero(words, end) != SreOpcode::SUCCESS as u32 {
        return 0;
    }
    end
}

/// Whether the word at `place` has the number of MARK, and `place` is before `end`.
#[tactic(auto, using(sre_model::proofs::Opcodes::word_of))]
fn is_mark_before(words: &[u32], place: usize, end: usize) -> bool
    ensures { result ≡ false → place < end → Opcode words.now place opcode.MARK → ⊥ }
{
    place < end && word_or_zero(words, place) == SreOpcode::MARK as u32
}

/// Whether an atomic scope may set a capture, word by word; SUCCESS is the last word. It may take operands for a scope
/// or a MARK, but it misses none.
fn may_set_marks(items: &[u32]) -> bool
    ensures { result ≡ false → (tree : Tree) → WholeItems items.now tree → marks_in_regions tree ≡ false }
{
    let last = items.len().saturating_sub(1);
    let mut place = 0;
    let mut farthest = 0;
    'word: while place < last {
        farthest = farthest.max(closing_at(items, place));
        // no body begins before the second word after its opcode
        if is_mark_before(items, place + 2, farthest) {
            return true;
        }
        place += 1;
    }
    false
}

/// Whether an atomic scope sets a capture; SUCCESS is the last word. It may be `true` without one if the items refer to
/// groups, since the scan of a summary cannot pass a conditional.
pub fn regions_set_marks(items: &[u32]) -> bool
    ensures none { result ≡ false → (tree : Tree) → WholeItems items.now tree → marks_in_regions tree ≡ false }
    ensures told { (tree : Tree) → WholeItems items.now tree → refers tree ≡ false
        → result ≡ marks_in_regions tree }
{
    summarize(items).marks && may_set_marks(items)
}
