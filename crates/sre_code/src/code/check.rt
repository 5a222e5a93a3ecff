//! The check, generic in the allocator of its stack.

ghost use Rattle.std.specs.Prelude.{◌≡◌, ◌≢◌, ◌≤◌, length, IfOk, IfErr, OnOk};
ghost use Rattle.sre_code.specs.Terms.{Tree, Whole, IsCode, Refused};
ghost use Rattle.sre_code.specs.Refusals.{place_of};
ghost use Rattle.sre_code.specs.Codes.{words_of, uni_of};

use crate::code::descent::descend;
use crate::code::summary::summarize;
use crate::code::{Code, CodeError, block, claims};
use sre_chars::string::LentTable;
use std::alloc::Allocator;

/// As [`Code::check`], with an allocator for the stack: a test can make it fail.
#[tactic(auto, using(crate::proofs::Descending::front_laws))]
pub fn check_in<'a, A: Allocator + Copy>(
    alloc: A,
    words: &'a [u32],
    uni: &'a LentTable<'a>,
) -> Result<Code<'a>, CodeError>
    ensures words { IfOk result (λ code. words_of code ≡ words.now) }
    ensures uni { IfOk result (λ code. uni_of code ≡ uni.now) }
    ensures tree { OnOk result (IsCode words.now) }
    ensures refused { IfErr result (λ e. e ≢ CodeError.Memory → (tree : Tree) → ¬ (Whole words.now tree)) }
    ensures place { IfErr result (λ e. place_of e ≤ length words.now) }
    ensures grows { IfErr result (λ e. e ≡ CodeError.Memory → Refused A) }
{
    let length = block::length(words)?;
    let items = words.split_at(length).1;
    let least = match descend(alloc, items, 0) {
        Ok(least) => least,
        Err(error) => return Err(error.moved(length)),
    };
    let sum = summarize(items);
    Ok(Code {
        words,
        items,
        uni,
        hints: claims::confirmed(words, length, uni, items, least),
        refers: sum.refers,
        asked_from: sum.from,
        longest_lookbehind: if sum.refers { u32::MAX } else { sum.longest },
    })
}
