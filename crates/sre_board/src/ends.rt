//! Memoized ends of the bodies of atomic scopes, by the number of the bit of a configuration inside.
//!
//! The numbers are in pages of 64, one for each word of bits. A page is added when its first end is stored, and has an
//! entry for each of its numbers. Nothing moves, and no single end is dropped. So a lookup takes two reads.

ghost use Rattle.std.specs.Prelude.{◌≡◌, ◌+◌, ◌/◌, ◌^◌, ◌<◌, ◌≤◌, [], ℕ, length, slice_index_or, IfOk, IfErr};
ghost use Rattle.sre_board.specs.Terms.{Marks, spot_at};
ghost use Rattle.sre_board.specs.Ends.{HoldsEnd, HoldsNoEnd, HoldsOneEndMore, HoldsOpenMore, HoldsSpotMore, KeepsEnds};
ghost use Rattle.sre_board.specs.Ends.{KeepsOpenEnds, HoldsOpenEnds, KeepsSpotEnds, HasEnd, end_at, page_at, SameEnds};
ghost use Rattle.sre_board.specs.Ends.{PutsEnd};

use crate::board::Board;
use crate::chains::Chains;
use crate::failures::Failures;
use crate::saved::{Saved, tried_of};
use sre_chars::string::StringCursor;
use sre_growth::Refusal;
use sre_turns::Point;
use std::alloc::Allocator;
use std::marker::Model;

/// Ends of scopes, by number.
#[derive(Drop)]
pub struct Ends<A: Allocator> {
    // by word of bits: one more than the index of the page's first entry, or 0 if it has no page
    pages: Vec<usize, A>,
    // the entries of all pages
    ends: Vec<Option<StringCursor>, A>,
}

impl<A: Allocator> Model for Ends<A> {
    ghost use Rattle.std.specs.Prelude.{length};
    ghost use Rattle.sre_board.specs.Ends.{EndsTable, table_of, IsPaged};

    ghost Value = { EndsTable };

    ghost view = { λ e. table_of e.pages.items e.ends.items };

    ghost invariant = { λ e. IsPaged e.pages.items (length e.ends.items) };
}

// The entries of a page, one for each bit of a word.
const PLACES: usize = 64;

// Lengthens a list to so many items, one by one, since an item may be larger than `resize` allows.
#[inline(always)]
fn lengthen<T: Copy, A: Allocator>(
    list: &mut Vec<T, A>,
    least: usize,
    item: T,
) -> Result<(), Refusal<A>>
    ensures same { (i : ℕ) → slice_index_or list.new.items i item ≡ slice_index_or list.old.items i item }
    ensures still { length list.old.items ≤ length list.new.items }
    ensures length { IfOk result (λ _. least ≤ length list.new.items) }
{
    'more: while list.len() < least {
        sre_growth::push(list, item)?;
    }
    Ok(())
}

impl<A: Allocator + Copy> Ends<A> {
    /// No ends. It allocates nothing.
    #[inline(always)]
    pub fn new(alloc: A) -> Ends<A>
        ensures none { HoldsNoEnd result }
    {
        Ends {
            pages: Vec::new(alloc),
            ends: Vec::new(alloc),
        }
    }
}

impl<A: Allocator> Ends<A> {
    /// Drops all ends, and keeps the memory.
    #[inline(always)]
    pub fn forget(&mut self)
        ensures none { HoldsNoEnd self.new }
    {
        self.pages.clear();
        self.ends.clear();
    }

    /// The end that is stored for a number, if there is one.
    #[inline(always)]
    pub fn end(&self, number: usize) -> Option<StringCursor>
        ensures { result ≡ end_at self.now number }
    {
        let _places = self.ends.len(); // within which the pages lie
        let word = number / PLACES;
        if word >= self.pages.len() {
            return None;
        }
        let page = self.pages[word];
        if page == 0 {
            return None;
        }
        self.ends[page - 1 + number % PLACES]
    }

    /// Stores an end for a number, instead of the one stored before.
    ///
    /// # Errors
    ///
    /// [`Refusal`] if an allocation fails. This end is not stored then, and all others stay.
    #[inline(always)]
    pub fn keep(&mut self, number: usize, end: StringCursor) -> Result<(), Refusal<A>>
        ensures more { HoldsOneEndMore number end self.old self.new }
        ensures kept { KeepsEnds number end self.old self.new }
        ensures held { IfOk result (λ _. HoldsEnd self.new number end) }
        ensures refused { IfErr result (λ _. SameEnds self.old self.new) }
    {
        let page = self.page(number / PLACES)?;
        self.put(page, number, end);
        Ok(())
    }

    /// Stores one end for each configuration that is being tried in the innermost atomic scope of a stack, if it has a
    /// number.
    ///
    /// # Errors
    ///
    /// [`Refusal`] if an allocation fails. The end is then stored for some of the configurations.
    #[inline(never)]
    pub fn keep_open(
        &mut self,
        failures: &Failures<A>,
        words: &[u32],
        board: &Board<A>,
        end: StringCursor,
    ) -> Result<(), Refusal<A>>
        ensures more { HoldsOpenMore failures.now words.now board.now.choices end self.old self.new }
        ensures kept { KeepsOpenEnds failures.now words.now board.now.choices end self.old self.new }
        ensures held { IfOk result (λ _. HoldsOpenEnds failures.now words.now board.now.choices end self.new) }
    {
        let mut depth = 0;
        'choice: while let Some((chains, saved)) = board.saved(depth) {
            if let Point::Inside(_) = saved.point {
                return Ok(());
            }
            if let Some(tried) = tried_of(saved.point) {
                self.keep_spot(failures, words, chains, saved, tried, end)?;
            }
            depth += 1;
        }
        Ok(())
    }

    // Stores an end for a configuration that is being tried inside a scope, by the choice that marks it.
    #[inline(always)]
    fn keep_spot(
        &mut self,
        failures: &Failures<A>,
        words: &[u32],
        chains: &Chains<A>,
        saved: Saved,
        point: Point,
        end: StringCursor,
    ) -> Result<(), Refusal<A>>
        requires { saved.frame < length chains.now }
        ensures more { (m : Marks) → HoldsSpotMore failures.now words.now
            (spot_at point (slice_index_or chains.now saved.frame []) saved.cursor.position m) end
            self.old self.new }
        ensures kept { (m : Marks) → KeepsSpotEnds failures.now words.now
            (spot_at point (slice_index_or chains.now saved.frame []) saved.cursor.position m) end
            self.old self.new }
        ensures held { IfOk result (λ _. (m : Marks) → HasEnd failures.now words.now end self.new
            (spot_at point (slice_index_or chains.now saved.frame []) saved.cursor.position m)) }
    {
        let position = saved.cursor.position();
        match failures.bit_under(words, chains, saved.frame, true, point, position) {
            Some(number) => self.keep(number, end),
            None => Ok(()),
        }
    }

    // The page of a word, which is added if there is none.
    #[inline(always)]
    fn page(&mut self, word: usize) -> Result<usize, Refusal<A>>
        requires { word + 1 < 2 ^ 64 }
        ensures same { SameEnds self.old self.new }
        ensures page { IfOk result (λ page. (0 < page) × (page_at self.new.pages word ≡ page)) }
    {
        lengthen(&mut self.pages, word + 1, 0)?;
        let page = self.pages[word];
        if page > 0 {
            return Ok(page);
        }
        self.add_page(word)
    }

    // Adds the page of a word that has none.
    #[inline(never)]
    fn add_page(&mut self, word: usize) -> Result<usize, Refusal<A>>
        requires there { word < length self.old.pages }
        requires none { page_at self.old.pages word ≡ 0 }
        ensures same { SameEnds self.old self.new }
        ensures page { IfOk result (λ page. (0 < page) × (page_at self.new.pages word ≡ page)) }
    {
        let page = self.ends.len() + 1;
        lengthen(&mut self.ends, page - 1 + PLACES, None)?;
        self.pages[word] = page;
        Ok(page)
    }

    // Writes an end into the entry of its number.
    #[inline(always)]
    fn put(&mut self, page: usize, number: usize, end: StringCursor)
        requires some { 0 < page }
        requires page { page_at self.old.pages (number / 64) ≡ page }
        ensures { PutsEnd number end self.old self.new }
    {
        self.ends[page - 1 + number % PLACES] = Some(end);
    }
}
