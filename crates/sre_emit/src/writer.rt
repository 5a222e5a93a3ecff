//! The writer of bytecode, from the last word to the first. What a skip jumps over is then written before the skip.

ghost use Rattle.std.specs.Prelude.{◌≡◌, ◌+◌, ◌*◌, ◌-◌, ◌<◌, ◌^◌, ◌∷◌, [], Some, None, IfOk, IfErr, map, length};
ghost use Rattle.std.specs.Prelude.{reverse};
ghost use Rattle.sre_emit.specs.Emitting.{set_item_of, packed, set_item_words, set_words, Wrote};

use crate::error::EmitError;
use crate::part::SetItem;
use sre_chars::constants::SreOpcode;
use std::alloc::Allocator;
use std::marker::Model;

/// The words so far, the last one first, and the first failure.
#[derive(Drop)]
pub struct Writer<A: Allocator> {
    words: Vec<u32, A>,
    failure: Option<EmitError>,
}

impl<A: Allocator> Model for Writer<A> {
    ghost use Rattle.sre_emit.specs.Writing.{Held};

    ghost Value = { Held };

    ghost view = { λ w. record { words = w.words.items; failure = w.failure } };
}

impl<A: Allocator> Writer<A> {
    /// A writer without words.
    pub fn new(alloc: A) -> Writer<A>
        ensures words { result.words ≡ [] }
        ensures failure { result.failure ≡ None }
    {
        Writer {
            words: Vec::new(alloc),
            failure: None,
        }
    }

    /// The number of words so far.
    pub fn len(&self) -> usize
        ensures words { result ≡ length self.now.words }
        ensures bound { result < 2 ^ 63 }
    {
        self.words.len()
    }

    /// Writes a word, unless the writer has failed.
    #[tactic(auto, using(crate::proofs::Written::one_word))]
    pub fn put(&mut self, word: u32)
        ensures { Wrote A self.old self.new (word ∷ []) }
    {
        if self.failure.is_none() {
            if let Err(refusal) = sre_growth::push(&mut self.words, word) {
                self.failure = Some(EmitError::from(refusal));
            }
        }
    }

    /// Records a failure, unless there is one.
    pub fn fail(&mut self, error: EmitError)
        ensures words { self.new.words ≡ self.old.words }
        ensures first { self.old.failure ≡ None → self.new.failure ≡ Some error }
        ensures kept { (e : EmitError) → self.old.failure ≡ Some e → self.new.failure ≡ Some e }
    {
        if self.failure.is_none() {
            self.failure = Some(error);
        }
    }

    /// Writes a count. It fails with `TooLong` above 4294967295.
    #[tactic(auto, using(crate::proofs::Written::long_word))]
    pub fn put_count(&mut self, count: usize)
        ensures { Wrote A self.old self.new (count ∷ []) }
    {
        if count > 4294967295 {
            self.fail(EmitError::TooLong);
        } else {
            self.put(count as u32);
        }
    }

    /// The words, from the first to the last, or the failure.
    pub fn finish(self) -> Result<Vec<u32, A>, EmitError>
        ensures words { IfOk result (λ words. (self.failure ≡ None) × (words.items ≡ reverse self.words)) }
        ensures failure { IfErr result (λ e. self.failure ≡ Some e) }
    {
        if let Some(failure) = self.failure {
            return Err(failure);
        }
        let mut words = self.words;
        words.reverse();
        Ok(words)
    }

    /// Writes words.
    pub fn put_all(&mut self, words: &[u32])
        ensures { Wrote A self.old self.new words.now }
    {
        for at in (0..words.len()).rev() {
            self.put(words[at]);
        }
    }

    /// Writes block numbers, four a word.
    fn put_numbers(&mut self, numbers: &[u8])
        ensures { Wrote A self.old self.new (packed numbers.now) }
    {
        for at in (0..numbers.len() / 4).rev() {
            let i = 4 * at;
            self.put(word_of_four(numbers[i], numbers[i + 1], numbers[i + 2], numbers[i + 3]));
        }
    }

    /// Writes an item of a set.
    fn put_set_item(&mut self, item: &SetItem)
        ensures { Wrote A self.old self.new (set_item_words (set_item_of item.now)) }
    {
        match item {
            SetItem::Literal(value) => self.put_all(&[SreOpcode::LITERAL as u32, *value]),
            SetItem::Range(low, high) => self.put_all(&[SreOpcode::RANGE as u32, *low, *high]),
            SetItem::RangeUniIgnore(low, high) => {
                self.put_all(&[SreOpcode::RANGE_UNI_IGNORE as u32, *low, *high]);
            }
            SetItem::Category(category) => {
                self.put_all(&[SreOpcode::CATEGORY as u32, *category as u32]);
            }
            SetItem::Charset(bits) => {
                self.put_all(bits);
                self.put(SreOpcode::CHARSET as u32);
            }
            SetItem::BigCharset { numbers, bits } => {
                self.put_all(bits);
                self.put_numbers(numbers);
                self.put_count(bits.len() / 8);
                self.put(SreOpcode::BIGCHARSET as u32);
            }
            SetItem::Negate => self.put(SreOpcode::NEGATE as u32),
        }
    }

    /// Writes the items of a set.
    pub fn put_set(&mut self, set: &[SetItem])
        ensures { Wrote A self.old self.new (set_words (map set_item_of set.now)) }
    {
        for at in (0..set.len()).rev() {
            self.put_set_item(&set[at]);
        }
    }
}

/// A word of four bytes, the least significant first.
fn word_of_four(a: u8, b: u8, c: u8, d: u8) -> u32
    ensures { result ≡ a + 256 * b + 65536 * c + 16777216 * d }
{
    u32::from(a) + 256 * u32::from(b) + 65536 * u32::from(c) + 16777216 * u32::from(d)
}
