//! A code that owns its bytecode and tables, and lends a [`Code`].

ghost use Rattle.std.specs.Prelude.{◌≡◌, ◌≢◌, ◌≤◌, false, length, IfOk, IfErr, OnOk};
ghost use Rattle.sre_code.specs.Terms.{Tree, Whole, IsCode, Refused};
ghost use Rattle.sre_model.specs.References as references;
ghost use Rattle.sre_model.specs.LooksBehind as looks_behind;
ghost use Rattle.sre_code.specs.Hinted.{Confirmed};
ghost use Rattle.sre_code.specs.Refusals.{place_of};

use crate::code::{Code, CodeError, Hints};
use sre_chars::string::UniTable;
use std::alloc::Global;

/// Owned bytecode and Unicode tables, with the results of their check: for a cache of patterns or a service. Requests
/// take the [`Code`] that it lends, and nothing is checked again.
///
/// It owns its tables. Those from [`UniTable::ascii`], or from `UniTable::lent` with static lists, take no memory.
#[derive(Drop)]
pub struct OwnedCode {
    words: Vec<u32>,
    uni: UniTable,
    hints: Hints,
    refers: bool,
    asked_from: u32,
    longest_lookbehind: u32,
    ghost checked: { ∥ ((tree : Tree) × Whole words.items tree × Confirmed words.items uni tree hints) ∥₁ },
    ghost scanned: { (tree : Tree) → Whole words.items tree → refers ≡ references.refers tree },
    ghost asked: { (tree : Tree) → Whole words.items tree → asked_from ≡ references.asked_from tree },
    ghost counted: { (tree : Tree) → Whole words.items tree → references.refers tree ≡ false
        → longest_lookbehind ≡ looks_behind.longest_lookbehind tree },
}

// A copy of the bytecode.
fn copied(alloc: Global, words: &[u32]) -> Result<Vec<u32>, CodeError>
    ensures items { IfOk result (λ list. list.items ≡ words.now) }
    ensures memory { IfErr result (λ e. e ≡ CodeError.Memory) }
    ensures grows { IfErr result (λ _. Refused Global) }
{
    match sre_growth::from_slice(alloc, words) {
        Ok(list) => Ok(list),
        Err(refusal) => Err(CodeError::from(refusal)),
    }
}

// A copy of the bytecode, and the results of its check.
#[derive(Drop)]
struct CheckedCopy {
    words: Vec<u32>,
    hints: Hints,
    refers: bool,
    asked_from: u32,
    longest_lookbehind: u32,
    ghost scanned: { (tree : Tree) → Whole words.items tree → refers ≡ references.refers tree },
    ghost asked: { (tree : Tree) → Whole words.items tree → asked_from ≡ references.asked_from tree },
    ghost counted: { (tree : Tree) → Whole words.items tree → references.refers tree ≡ false
        → longest_lookbehind ≡ looks_behind.longest_lookbehind tree },
}

// Checks the bytecode, and copies it.
fn checked_copy(alloc: Global, words: &[u32], uni: &UniTable) -> Result<CheckedCopy, CodeError>
    ensures words { IfOk result (λ copy. copy.words.items ≡ words.now) }
    ensures checked { IfOk result
        (λ copy. ∥ ((tree : Tree) × Whole words.now tree × Confirmed words.now uni.now tree copy.hints) ∥₁) }
    ensures tree { OnOk result (IsCode words.now) }
    ensures refused { IfErr result (λ e. e ≢ CodeError.Memory → (tree : Tree) → ¬ (Whole words.now tree)) }
    ensures place { IfErr result (λ e. place_of e ≤ length words.now) }
    ensures grows { IfErr result (λ e. e ≡ CodeError.Memory → Refused Global) }
{
    let code = Code::check(alloc, words, uni)?;
    let copy = copied(alloc, words)?;
    Ok(CheckedCopy {
        words: copy,
        hints: code.hints(),
        refers: code.refers(),
        asked_from: code.asked_from(),
        longest_lookbehind: code.longest_lookbehind(),
    })
}

impl OwnedCode {
    ghost use Rattle.sre_code.specs.Codes.{words_of, uni_of};
    ghost use Rattle.sre_code.specs.Owned.{words_kept, uni_kept};

    /// Checks bytecode as [`Code::check`] does, and stores a copy of it.
    ///
    /// ```
    /// // The bytecode of `a`.
    /// let kept = OwnedCode::new(alloc, &[16, 97, 1], UniTable::ascii(alloc))?;
    /// assert!(State::new(alloc).search(Request::whole("ba", kept.code()))?);
    /// ```
    ///
    /// # Errors
    ///
    /// Those of [`Code::check`]. [`CodeError::Memory`] also if the allocation of the copy failed.
    pub fn new(alloc: Global, words: &[u32], uni: UniTable) -> Result<OwnedCode, CodeError>
        ensures words { IfOk result (λ code. words_kept code ≡ words.now) }
        ensures uni { IfOk result (λ code. uni_kept code ≡ uni.entry) }
        ensures tree { OnOk result (IsCode words.now) }
        ensures refused { IfErr result (λ e. e ≢ CodeError.Memory → (tree : Tree) → ¬ (Whole words.now tree)) }
        ensures place { IfErr result (λ e. place_of e ≤ length words.now) }
        ensures grows { IfErr result (λ e. e ≡ CodeError.Memory → Refused Global) }
    {
        match checked_copy(alloc, words, &uni) {
            Ok(copy) => {
                let CheckedCopy {
                    words,
                    hints,
                    refers,
                    asked_from,
                    longest_lookbehind,
                } = copy;
                Ok(OwnedCode {
                    words,
                    uni,
                    hints,
                    refers,
                    asked_from,
                    longest_lookbehind,
                })
            }
            Err(error) => Err(error),
        }
    }

    /// The code: a view of the owned bytecode and tables, in constant time.
    pub fn code(&self) -> Code<'_>
        ensures words { words_of result ≡ words_kept self.now }
        ensures uni { uni_of result ≡ uni_kept self.now }
    {
        Code::from_checked(
            self.words.as_slice(),
            &self.uni,
            self.hints,
            self.refers,
            self.asked_from,
            self.longest_lookbehind,
        )
    }
}
