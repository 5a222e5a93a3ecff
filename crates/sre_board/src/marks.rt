//! [`Marks`]: the captures of a match.

ghost use Rattle.std.specs.Prelude.{◌≡◌, ℕ, ◌+◌, ◌*◌, ◌^◌, ◌<◌, ◌≤◌, length, Option, None, Some, IfOk, true};
ghost use Rattle.std.specs.Prelude.{slice_index_or, slice_set};
ghost use Rattle.sre_board.specs.Terms.{no_marks, set_mark, mark_at, lengthened};
ghost use Rattle.sre_board.specs.Choices.{restored, undo};

use sre_growth::Refusal;
use std::alloc::Allocator;
use std::marker::Model;

/// The positions of the capture slots that a match has set, and the group that was closed last.
///
/// Slots `2 * g` and `2 * g + 1` are the start and the end of group `g`, counted from 0. Positions count characters.
#[derive(Drop)]
pub struct Marks<A: Allocator> {
    raw: Vec<Option<usize>, A>,
    // 0 if no group was closed
    last: u32,
}

/// What a capture slot held before it was set.
#[derive(Clone, Copy)]
pub enum Former {
    /// Nothing: the list ended before it, and had this length.
    Past(usize),
    /// An absent entry.
    Absent,
    /// A position.
    At(usize),
}

/// The undo record of a slot's setting: what the slot held, and the last index, or 0 if there was none.
#[derive(Clone, Copy)]
pub struct Change {
    pub former: Former,
    pub mark: u32,
    pub last: u32,
}

impl<A: Allocator> Model for Marks<A> {
    ghost use Rattle.sre_model.specs.Marks.{Marks, index_of};

    ghost Value = { Marks };

    ghost view = { λ m. record { raw = m.raw.items; last = index_of m.last } };
}

// What an entry holds.
#[inline(always)]
fn former_at(raw: &[Option<usize>], entry: usize) -> Former
    ensures { (value : Option ℕ) → restored result entry (slice_set (lengthened entry raw.now) entry value) ≡ raw.now }
{
    if entry >= raw.len() {
        return Former::Past(raw.len());
    }
    match raw[entry] {
        None => Former::Absent,
        Some(position) => Former::At(position),
    }
}

// Restores what an entry held.
#[inline(always)]
fn restore<A: Allocator>(raw: &mut Vec<Option<usize>, A>, entry: usize, former: Former)
    ensures { raw.new.items ≡ restored former entry raw.old.items }
{
    match former {
        Former::Past(length) => raw.truncate(length),
        Former::Absent => put(raw, entry, None),
        Former::At(position) => put(raw, entry, Some(position)),
    }
}

// Sets an entry, if there is one.
#[inline(always)]
fn put<A: Allocator>(raw: &mut Vec<Option<usize>, A>, entry: usize, value: Option<usize>)
    ensures { raw.new.items ≡ slice_set raw.old.items entry value }
{
    if entry < raw.len() {
        raw[entry] = value;
    }
}

// Sets an entry, and pads a shorter list with absent ones. On an error the list is unchanged. Most slots are set in
// order, so the entry is mostly the next one.
#[inline(always)]
fn set_entry<A: Allocator>(
    raw: &mut Vec<Option<usize>, A>,
    entry: usize,
    position: usize,
) -> Result<(), Refusal<A>>
    requires { entry < 2 ^ 32 }
    ensures { IfOk result (λ _. raw.new.items ≡ slice_set (lengthened entry raw.old.items) entry (Some position)) }
{
    if raw.len() == entry {
        sre_growth::push(raw, Some(position))?;
        return Ok(());
    }
    if raw.len() < entry {
        sre_growth::resize(raw, entry + 1, None)?;
    }
    raw[entry] = Some(position);
    Ok(())
}

impl<A: Allocator> Marks<A> {
    /// No captures: an empty list, and the last index -1. It allocates nothing.
    pub fn new(alloc: A) -> Marks<A>
        ensures { result ≡ no_marks }
    {
        Marks {
            raw: Vec::new(alloc),
            last: 0,
        }
    }

    /// The position of each capture slot up to the last one that is set; `None` for a slot before it that is not set.
    pub fn raw(&self) -> &[Option<usize>]
        ensures { result.now ≡ self.now.raw }
    {
        self.raw.as_slice()
    }

    /// The number of the group that was closed last, counted from 1; -1 if there is none.
    pub fn last_index(&self) -> isize
        ensures { result ≡ self.now.last }
    {
        if self.last == 0 {
            -1
        } else {
            self.last as isize
        }
    }

    /// Start and end of group `group`: two `None` if its end is past the list.
    ///
    /// **Groups count from 0 here**: number 0 is the pattern's first group, which Python and `last_index` number 1.
    pub fn get(&self, group: usize) -> (Option<usize>, Option<usize>)
        ensures there { 2 * group + 1 < length self.now.raw
            → (result.0 ≡ slice_index_or self.now.raw (2 * group) None)
            × (result.1 ≡ slice_index_or self.now.raw (2 * group + 1) None) }
        ensures absent { length self.now.raw ≤ 2 * group + 1 → result ≡ (None, None) }
    {
        let marks = self.raw.as_slice();
        if group < marks.len() / 2 {
            (marks[2 * group], marks[2 * group + 1])
        } else {
            (None, None)
        }
    }

    // How many slots there is room for.
    pub(crate) fn capacity(&self) -> usize {
        self.raw.capacity()
    }

    // Whether slot `n` is set to `position`.
    #[inline(always)]
    pub(crate) fn stands_at(&self, n: u32, position: usize) -> bool
        ensures { result ≡ true → mark_at self.now n ≡ Some position }
    {
        let entry = n as usize;
        entry < self.raw.len() && self.raw[entry] == Some(position)
    }

    // Drops all captures, and keeps the memory.
    #[inline(always)]
    pub(crate) fn clear(&mut self)
        ensures { self.new ≡ no_marks }
    {
        self.raw.clear();
        self.last = 0;
    }

    // Sets slot `n` to `position`. On an error the captures are unchanged.
    #[inline(always)]
    pub(crate) fn set(&mut self, n: u32, position: usize) -> Result<(), Refusal<A>>
        ensures { IfOk result (λ _. self.new ≡ set_mark self.old n position) }
    {
        set_entry(&mut self.raw, n as usize, position)?;
        if n % 2 == 1 {
            self.last = (n - 1) / 2 + 1;
        }
        Ok(())
    }

    // The undo record for setting slot `n`.
    #[inline(always)]
    pub(crate) fn change(&self, n: u32) -> Change
        ensures { (position : ℕ) → undo result (set_mark self.now n position) ≡ self.now }
    {
        Change {
            former: former_at(&self.raw, n as usize),
            mark: n,
            last: self.last,
        }
    }

    // Undoes a change.
    #[inline(always)]
    pub(crate) fn undo(&mut self, change: Change)
        ensures { self.new ≡ undo change self.old }
    {
        restore(&mut self.raw, change.mark as usize, change.former);
        self.last = change.last;
    }
}
