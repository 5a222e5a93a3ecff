//! Calls by a pattern, with what earlier ones have built.

ghost use Rattle.std.specs.Prelude.{◌≡◌, ◌≤◌, ℕ, List, length, IfSome, None};
ghost use Rattle.sre_c.specs.Terms.{Table, Suits};
ghost use Rattle.sre_c.specs.Known.{table_in};
ghost use Rattle.sre_c.specs.Answered.{Answers, no_limit};
ghost use Rattle.sre_c.specs.Walked.{Walks};

use crate::answer::{answer, answer_in};
use crate::asks::{Once, memory_in};
use crate::code::SreCode;
use crate::pattern::SrePattern;
use crate::status::Status;
use crate::types::{SreAsked, SreFound, SreWalked};
use crate::walk::walk;
use sre_finder::{Encoding, Haystack, Kept};
use sre_handle::{KeptSlot, RawBox};
use std::alloc::Global;
use std::mem::replace;

/// Takes out what is kept, and leaves the pattern empty.
pub fn take(alloc: Global, pattern: &mut SrePattern<'_>) -> Option<Box<Kept>>
    ensures suits { IfSome result
        (λ kept. Suits pattern.old.code.words.now (table_in pattern.old.code.table.now) kept.value) }
    ensures empty { pattern.new.kept.code ≡ None }
    ensures code { pattern.new.code ≡ pattern.old.code }
{
    let slot = replace(&mut pattern.kept, KeptSlot::empty());
    let was_kept = replace(&mut pattern.is_kept, false);
    if was_kept {
        Some(slot.into_raw_box().into_box(alloc))
    } else {
        slot.discard();
        None
    }
}

// Takes out what is kept, or makes a box for what this call builds. `None` if that cannot be allocated.
fn take_or_new(alloc: Global, pattern: &mut SrePattern<'_>) -> Option<Box<Kept>>
    ensures suits { IfSome result
        (λ kept. Suits pattern.old.code.words.now (table_in pattern.old.code.table.now) kept.value) }
    ensures empty { pattern.new.kept.code ≡ None }
    ensures code { pattern.new.code ≡ pattern.old.code }
{
    if let Some(kept) = take(alloc, pattern) {
        return Some(kept);
    }
    match Box::new(alloc, Kept::new(Encoding::Bytes)) {
        Ok(kept) => Some(kept),
        Err(_) => None,
    }
}

// Puts a box into an empty pattern, whose code is `of`.
fn put(pattern: &mut SrePattern<'_>, kept: Box<Kept>)
    ghost of: { List ℕ × Table }
    requires own { of ≡ (pattern.old.code.words.now, table_in pattern.old.code.table.now) }
    requires suits { Suits of.0 of.1 kept.value }
    requires empty { pattern.old.kept.code ≡ None }
    ensures code { pattern.new.code ≡ pattern.old.code }
{
    let slot = KeptSlot::of(RawBox::of(kept));
    replace(&mut pattern.kept, slot).discard();
    pattern.is_kept = true;
}

// `answer`, with what is kept.
fn answer_kept<'c, S: Haystack>(
    alloc: Global,
    kept: &mut Kept,
    code: &'c SreCode<'c>,
    text: S,
    asked: &SreAsked,
    found: &mut SreFound,
    marks: &mut [usize],
) -> Status
    requires suits { Suits code.now.words.now (table_in code.now.table.now) kept.old }
    ensures answers { Answers result code.now (S.text text) asked.now (length marks.old) found.new marks.new }
    ensures steps { found.new.steps ≤ asked.now.steps }
    ensures unlimited { asked.now.steps ≡ no_limit → found.new.steps ≡ asked.now.steps }
    ensures suits { Suits code.now.words.now (table_in code.now.table.now) kept.new }
{
    let Some(mut memory) = memory_in(alloc, kept) else {
        return answer(alloc, kept, code, text, asked, found, marks);
    };
    let status = answer_in(alloc, kept, &mut *memory, code, text, asked, found, marks);
    kept.put_memory(memory);
    status
}

/// `answer`, for the code of a pattern.
pub fn answer_by_pattern<S: Haystack>(
    alloc: Global,
    pattern: &mut SrePattern<'_>,
    text: S,
    asked: &SreAsked,
    found: &mut SreFound,
    marks: &mut [usize],
) -> Status
    ensures answers { Answers result pattern.old.code (S.text text) asked.now (length marks.old) found.new marks.new }
    ensures steps { found.new.steps ≤ asked.now.steps }
    ensures unlimited { asked.now.steps ≡ no_limit → found.new.steps ≡ asked.now.steps }
    ensures code { pattern.new.code ≡ pattern.old.code }
{
    let Some(mut kept) = take_or_new(alloc, pattern) else {
        return answer(alloc, &mut Once, &pattern.code, text, asked, found, marks);
    };
    let status = answer_kept(alloc, &mut *kept, &pattern.code, text, asked, found, marks);
    put(pattern, kept);
    status
}

/// `walk`, for the code of a pattern.
pub fn walk_by_pattern<S: Haystack>(
    alloc: Global,
    pattern: &mut SrePattern<'_>,
    text: S,
    asked: &SreAsked,
    width: usize,
    rows: &mut [usize],
    walked: &mut SreWalked,
) -> Status
    ensures walks { Walks result pattern.old.code (S.text text) asked.now width walked.new rows.new }
    ensures steps { walked.new.steps ≤ asked.now.steps }
    ensures unlimited { asked.now.steps ≡ no_limit → walked.new.steps ≡ asked.now.steps }
    ensures code { pattern.new.code ≡ pattern.old.code }
{
    let Some(mut kept) = take_or_new(alloc, pattern) else {
        return walk(
            alloc,
            &mut Once,
            &pattern.code,
            text,
            asked,
            width,
            rows,
            walked,
        );
    };
    let status = walk(
        alloc,
        &mut *kept,
        &pattern.code,
        text,
        asked,
        width,
        rows,
        walked,
    );
    put(pattern, kept);
    status
}
