//! The INFO block before the bytecode of a tree: the least width, and a prefix if the tree begins with plain literals.

ghost use Rattle.std.specs.Prelude.{◌≡◌, ◌+◌, ◌<◌, ◌≤◌, ◌∷◌, ◌++◌, IfOk, length, map, nat_eq, cond};
ghost use Rattle.sre_emit.specs.Emitting.{width, item_of, in_order, plain, is_mark, leading, spread};
ghost use Rattle.sre_emit.specs.Emitting.{has_literals_alone, block, block_words, Wrote};

use crate::error::EmitError;
use crate::part::{Fold, Item, OneChar};
use crate::writer::Writer;
use sre_chars::constants::{MAXREPEAT, SreOpcode};
use sre_growth::Refusal;
use std::alloc::Allocator;

// The longest prefix. The skip of a block with a longer one would not fit a word.
const LONGEST: usize = 2147483644;

// The greatest width in a block: none.
const NO_LIMIT: u32 = MAXREPEAT as u32;

// The character of an item, if it is a plain literal.
fn plain(item: &Item) -> Option<u32>
    ensures { result ≡ plain (item_of item.now) }
{
    match item {
        Item::One(
            OneChar::Literal {
                negated: false,
                fold: Fold::Plain,
                value,
            },
        ) => Some(*value),
        _ => None,
    }
}

// Whether an item is a MARK.
fn is_mark(item: &Item) -> bool
    ensures { result ≡ is_mark (item_of item.now) }
{
    matches!(item, Item::Mark(_))
}

// The number of plain literals at the front.
fn leading(items: &[Item]) -> usize
    ensures count { result ≡ leading (in_order (map item_of items.now)) }
    ensures all { nat_eq result (length items.now) ≡ has_literals_alone (in_order (map item_of items.now)) }
{
    let mut count = 0;
    for item in items {
        if plain(item).is_none() {
            return count;
        }
        count += 1;
    }
    count
}

// The plain literals at the front, with MARK items between them skipped.
fn spread<A: Allocator>(alloc: A, items: &[Item]) -> Result<Vec<u32, A>, Refusal<A>>
    ensures { IfOk result (λ words. words.items ≡ spread (in_order (map item_of items.now))) }
{
    let mut words = Vec::new(alloc);
    for item in items {
        if let Some(value) = plain(item) {
            sre_growth::push(&mut words, value)?;
            continue;
        }
        if !is_mark(item) {
            return Ok(words);
        }
    }
    Ok(words)
}

// PREFIX, and LITERAL if the prefix is the whole part.
fn prefix_flags(all: bool) -> u32
    ensures { result ≡ cond all 3 1 }
{
    if all { 3 } else { 1 }
}

impl<A: Allocator> Writer<A> {
    // Writes a block with a prefix: its words, the first `adjacent` of which follow each other directly, and the
    // overlap table.
    fn put_prefix(
        &mut self,
        flags: u32,
        width: u32,
        adjacent: usize,
        words: &[u32],
        overlaps: &[u32],
    )
        requires few { length words.now ≤ 2147483644 }
        requires same { length overlaps.now ≡ length words.now }
        ensures { Wrote A self.old self.new
            (block flags width (length words.now ∷ adjacent ∷ (words.now ++ overlaps.now))) }
    {
        self.put_all(overlaps);
        self.put_all(words);
        self.put_count(adjacent);
        self.put_count(words.len());
        self.put_all(&[flags, width, NO_LIMIT]);
        self.put_count(words.len() + overlaps.len() + 6);
        self.put(SreOpcode::INFO as u32);
    }
}

impl<A: Allocator + Copy> Writer<A> {
    /// Writes the INFO block of items of that least width. All that it claims is true of their tree, and it claims no
    /// set.
    #[tactic(auto, using(crate::proofs::Blocks::block_laws))]
    pub fn put_block(&mut self, alloc: A, items: &[Item], least: u32)
        requires { least ≡ width (in_order (map item_of items.now)) }
        ensures { Wrote A self.old self.new (block_words (in_order (map item_of items.now))) }
    {
        let adjacent = leading(items);
        if adjacent == 0 {
            self.put_all(&[SreOpcode::INFO as u32, 4, 0, least, NO_LIMIT]);
            return;
        }
        let words = match spread(alloc, items) {
            Ok(words) => words,
            Err(refusal) => {
                self.fail(EmitError::from(refusal));
                return;
            }
        };
        if words.len() > LONGEST {
            self.fail(EmitError::TooLong);
            return;
        }
        let flags = prefix_flags(adjacent == items.len());
        match sre_code::border_lengths(alloc, &words) {
            Ok(overlaps) => self.put_prefix(flags, least, adjacent, &words, &overlaps),
            Err(refusal) => self.fail(EmitError::from(refusal)),
        }
    }
}
