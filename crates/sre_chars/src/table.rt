//! Unicode tables: case maps, alphanumerics and decimal digits.
//!
//! ASCII is fixed in the code. For the other characters a table has four sorted lists, two of pairs (from, to) and two
//! of ranges (low, high), with binary search.

ghost use Rattle.std.specs.Prelude.{◌≡◌, [], None, Some, IfOk, OnOk, IfErr, IsOkUnless, OnErr};
ghost use Rattle.std.specs.Option.{option_or};
ghost use Rattle.sre_chars.specs.Tables.{ascii_table, table_of, lower_ascii, upper_ascii, lower_of, upper_of};
ghost use Rattle.sre_chars.specs.Tables.{is_alphanumeric, is_ascii_alphanumeric, is_in_ranges, mapped};
ghost use Rattle.sre_chars.specs.Errors.{list_fault, table_fault};
ghost use Rattle.sre_chars.specs.Lists.{entries_in, lent_table, lists_fault};
ghost use Rattle.sre_growth.specs.Refusal.{Refused};

mod entries;
pub mod lists;

use entries::Entries;
pub use entries::UniPair;
use lists::{Lists, check_lent, checked_lists, checked_ranges, std_lists};
use sre_growth::Refusal;
use std::alloc::{AllocError, AllocFailed, Allocator, Global};
use std::marker::Model;
use thiserror::Error;

/// Why the lists of a table were rejected.
#[derive(Clone, Copy, PartialEq, Eq, Debug, Error)]
pub enum UniError {
    /// An allocation failed.
    #[error("out of memory")]
    Memory,
    /// A map's entry is not above the previous one, a range does not begin above the end of the previous one, or the
    /// high end of a range is below its low end.
    #[error("Unsorted")]
    Unsorted,
    /// A map's entry is for a character below 128, or the low end of a range is below 128: ASCII is fixed.
    #[error("AsciiEntry")]
    AsciiEntry,
    /// A number in an entry is no Unicode scalar value, or a range includes surrogates.
    #[error("NotScalar")]
    NotScalar,
}

impl UniError {
    ghost use Rattle.sre_chars.specs.Errors.{uni_error_number};

    /// The number of this error, from 1 (`Memory`) to 4 (`NotScalar`).
    pub fn number(&self) -> u32
        ensures { result ≡ uni_error_number self.now }
    {
        match self {
            UniError::Memory => 1,
            UniError::Unsorted => 2,
            UniError::AsciiEntry => 3,
            UniError::NotScalar => 4,
        }
    }
}

impl<A: Allocator> From<Refusal<A>> for UniError {
    ghost use Rattle.std.specs.Prelude.{◌≡◌};
    ghost use Rattle.sre_chars.specs.declared.table.UniError.TheVariants.{Memory};

    ghost from_gives = { λ _ error. error ≡ Memory };

    fn from(_refusal: Refusal<A>) -> UniError {
        UniError::Memory
    }
}

// For functions of callers that grow lists of their own.
impl From<AllocError> for UniError {
    ghost use Rattle.std.specs.Prelude.{◌≡◌};
    ghost use Rattle.sre_chars.specs.declared.table.UniError.TheVariants.{Memory};

    ghost from_gives = { λ _ error. error ≡ Memory };

    fn from(_refused: AllocError) -> UniError {
        UniError::Memory
    }
}

impl<T: Drop> From<AllocFailed<T>> for UniError {
    ghost use Rattle.std.specs.Prelude.{◌≡◌};
    ghost use Rattle.sre_chars.specs.declared.table.UniError.TheVariants.{Memory};

    ghost from_gives = { λ _ error. error ≡ Memory };

    fn from(_refused: AllocFailed<T>) -> UniError {
        UniError::Memory
    }
}

// The kind of a list: pairs (from, to) of a map, or ranges (low, high).
#[derive(Clone, Copy)]
enum Listing {
    Map,
    Ranges,
}

/// Unicode tables: a lower-case map, an upper-case map, the alphanumerics and the decimal digits.
///
/// ASCII is fixed: A to Z and a to z are each other's cases, letters and digits are alphanumeric, and 0 to 9 are
/// digits. Past ASCII a character without an entry is its own lower and upper case. One in no range of the
/// alphanumerics is not alphanumeric, and one in no range of the digits is no digit.
///
/// The table owns its lists, as [`UniTable`] always does, or a caller lends them for `'t`.
pub struct LentTable<'t> {
    lower: Entries<'t>,
    upper: Entries<'t>,
    alnum: Entries<'t>,
    digits: Entries<'t>,
    alloc: Global,
}

// A custom `Drop`, so that whoever drops a table calls this. A derived one would be inlined there, list by list.
impl<'t> Drop for LentTable<'t> {
    fn drop(self) {
        let LentTable {
            lower,
            upper,
            alnum,
            digits,
            alloc: _,
        } = self;
        drop((lower, upper, alnum, digits));
    }
}

/// A table without a borrow: it owns its lists, or they are static.
pub type UniTable = LentTable<'static>;

impl<'t> Model for LentTable<'t> {
    ghost use Rattle.std.specs.Prelude.{◌≡◌, None};
    ghost use Rattle.sre_chars.specs.Tables.{Table, table_of};
    ghost use Rattle.sre_chars.specs.Errors.{table_fault, list_fault};
    ghost use Rattle.sre_chars.specs.Lists.{entries_in, table_with};
    ghost use Rattle.sre_chars.specs.declared.table.Listing.TheVariants.{Ranges};

    ghost Value = { Table };

    ghost view = { λ t.
        table_with (entries_in t.lower) (entries_in t.upper) (entries_in t.alnum) (entries_in t.digits) };

    ghost invariant = { λ t.
        (table_fault (table_of (entries_in t.lower) (entries_in t.upper) (entries_in t.alnum)) ≡ None)
        × (list_fault Ranges 0 (entries_in t.digits) ≡ None) };
}

impl<'t> LentTable<'t> {
    /// The table that knows only ASCII. It takes no memory.
    pub fn ascii(alloc: Global) -> LentTable<'t>
        ensures { result ≡ ascii_table }
    {
        LentTable {
            lower: Entries::Lent(&[]),
            upper: Entries::Lent(&[]),
            alnum: Entries::Lent(&[]),
            digits: Entries::Lent(&[]),
            alloc,
        }
    }

    /// The table of three lists, which it copies. It has no digits past ASCII.
    ///
    /// `lower` and `upper` are pairs (from, to), each `from` above the previous one. `alnum` has ranges (low, high),
    /// both ends included, each `low` at most its `high` and above the previous `high`. All numbers are Unicode scalar
    /// values, also those inside a range. No `from` or `low` is below 128; a `to` may be.
    ///
    /// ```
    /// // é and É are each other's cases, and both are letters.
    /// let uni = UniTable::new(alloc, &[(201, 233)], &[(233, 201)], &[(201, 201), (233, 233)])?;
    /// ```
    ///
    /// # Errors
    ///
    /// The first fault, in the order of the parameters, entry by entry. For one entry [`UniError::NotScalar`] comes
    /// before [`UniError::AsciiEntry`], and that before [`UniError::Unsorted`]. [`UniError::Memory`], if the lists have
    /// no fault and an allocation failed. It allocates at most once a list, after the check.
    pub fn new(
        alloc: Global,
        lower: &[(u32, u32)],
        upper: &[(u32, u32)],
        alnum: &[(u32, u32)],
    ) -> Result<LentTable<'t>, UniError>
        ensures table { IfOk result (λ table. table ≡ table_of lower.now upper.now alnum.now) }
        ensures lawful { OnOk result (table_fault (table_of lower.now upper.now alnum.now) ≡ None) }
        ensures refused { IfErr result (λ error.
            option_or (table_fault (table_of lower.now upper.now alnum.now)) (Some UniError.Memory) ≡ Some error) }
        ensures grows { table_fault (table_of lower.now upper.now alnum.now) ≡ None → OnErr result (Refused Global) }
    {
        let Lists {
            lower,
            upper,
            alnum,
        } = checked_lists(alloc, lower, upper, alnum)?;
        Ok(LentTable {
            lower: Entries::Kept(lower),
            upper: Entries::Kept(upper),
            alnum: Entries::Kept(alnum),
            digits: Entries::Lent(&[]),
            alloc,
        })
    }

    /// The table of Unicode as std knows it.
    ///
    /// A character maps to the first character of its `char::to_lowercase` or `char::to_uppercase`. The alphanumerics
    /// are those of `char::is_alphanumeric`. Surrogates and numbers above 0x10FFFF map to themselves, and are not
    /// alphanumeric. There are no digits past ASCII, since std has no list of them: `set_digits` takes one. It scans
    /// all scalar values three times, so a program should make it once.
    ///
    /// It is not the table of any Python, whose `\w` has no combining marks: `tools/unicode.py` writes that one.
    ///
    /// # Errors
    ///
    /// [`UniError::Memory`], if an allocation failed.
    pub fn from_std(alloc: Global) -> Result<LentTable<'t>, UniError>
        ensures digits { IfOk result (λ table. table.digits ≡ []) }
        ensures refused { IsOkUnless result UniError.Memory }
        ensures grows { OnErr result (Refused Global) }
    {
        let Lists {
            lower,
            upper,
            alnum,
        } = std_lists(alloc)?;
        Ok(LentTable {
            lower: Entries::Kept(lower),
            upper: Entries::Kept(upper),
            alnum: Entries::Kept(alnum),
            digits: Entries::Lent(&[]),
            alloc,
        })
    }

    /// The table of four lists that a caller lends. It takes no memory.
    ///
    /// The lists are as in [`LentTable::new`] and [`LentTable::set_digits`]. They are checked in linear time. To avoid
    /// that, store the table, or call [`LentTable::lent_faultless`] with lists that are known to have no fault.
    ///
    /// # Errors
    ///
    /// The first fault of the lists, in the order of the parameters, as in [`LentTable::new`]. Never
    /// [`UniError::Memory`].
    pub fn lent(
        alloc: Global,
        lower: &'t [UniPair],
        upper: &'t [UniPair],
        alnum: &'t [UniPair],
        digits: &'t [UniPair],
    ) -> Result<LentTable<'t>, UniError>
        ensures table { IfOk result (λ table. table ≡ lent_table lower.now upper.now alnum.now digits.now) }
        ensures lawful { OnOk result (lists_fault (lent_table lower.now upper.now alnum.now digits.now) ≡ None) }
        ensures refused { IfErr result (λ error.
            lists_fault (lent_table lower.now upper.now alnum.now digits.now) ≡ Some error) }
    {
        check_lent(lower, upper, alnum, digits)?;
        Ok(LentTable::lent_faultless(alloc, lower, upper, alnum, digits))
    }

    /// The table of four lists that a caller lends, and that are known to have no fault. It takes no memory and
    /// constant time.
    #[inline(always)]
    pub fn lent_faultless(
        alloc: Global,
        lower: &'t [UniPair],
        upper: &'t [UniPair],
        alnum: &'t [UniPair],
        digits: &'t [UniPair],
    ) -> LentTable<'t>
        requires lawful { lists_fault (lent_table lower.now upper.now alnum.now digits.now) ≡ None }
        ensures { result ≡ lent_table lower.now upper.now alnum.now digits.now }
    {
        LentTable {
            lower: Entries::Lent(lower),
            upper: Entries::Lent(upper),
            alnum: Entries::Lent(alnum),
            digits: Entries::Lent(digits),
            alloc,
        }
    }

    /// Replaces the decimal digits past ASCII by the given ranges, which it copies. 0 to 9 are always digits.
    ///
    /// `digits` has ranges (low, high), as the alphanumerics of [`LentTable::new`]. The other lists do not change: a
    /// digit is alphanumeric only if they have it. With the ranges of Unicode's general category Nd, UNI_DIGIT is `\d`
    /// of Python's `re`. The memory comes from the allocator that the table was made with.
    ///
    /// # Errors
    ///
    /// The first fault of the ranges, as in [`LentTable::new`]; else [`UniError::Memory`], if an allocation failed.
    /// After an error the table is unchanged.
    pub fn set_digits(&mut self, digits: &[(u32, u32)]) -> Result<(), UniError>
        ensures table { OnOk result (self.new ≡ record self.old { digits = digits.now }) }
        ensures lawful { OnOk result (list_fault Listing.Ranges 0 digits.now ≡ None) }
        ensures unchanged { OnErr result (self.new ≡ self.old) }
        ensures refused { IfErr result (λ error.
            option_or (list_fault Listing.Ranges 0 digits.now) (Some UniError.Memory) ≡ Some error) }
        ensures grows { list_fault Listing.Ranges 0 digits.now ≡ None → OnErr result (Refused Global) }
    {
        self.digits = Entries::Kept(checked_ranges(self.alloc, digits)?);
        Ok(())
    }

    // Whether a character is a digit past ASCII.
    pub(crate) fn has_digit(&self, ch: u32) -> bool
        ensures { result ≡ is_in_ranges self.now.digits ch }
    {
        is_in_ranges(&self.digits, ch)
    }

    // Whether a character is a letter or a digit.
    pub(crate) fn is_alphanumeric(&self, ch: u32) -> bool
        ensures { result ≡ is_alphanumeric self.now ch }
    {
        if ch < 128 {
            is_ascii_alphanumeric(ch)
        } else {
            is_in_ranges(&self.alnum, ch)
        }
    }
}

/// The lower case of an ASCII capital: 65 to 90 become 97 to 122, and other characters stay the same.
#[inline]
pub fn lower_ascii(ch: u32) -> u32
    ensures { result ≡ lower_ascii ch }
{
    if 65 <= ch && ch <= 90 { ch + 32 } else { ch }
}

/// The upper case of an ASCII small letter: 97 to 122 become 65 to 90, and other characters stay the same.
#[inline]
pub fn upper_ascii(ch: u32) -> u32
    ensures { result ≡ upper_ascii ch }
{
    if 97 <= ch && ch <= 122 { ch - 32 } else { ch }
}

/// The lower case of a character: that of ASCII below 128, else by the table.
#[inline]
pub fn lower_unicode(table: &LentTable, ch: u32) -> u32
    ensures { result ≡ lower_of table.now ch }
{
    if ch < 128 {
        lower_ascii(ch)
    } else {
        mapped(&table.lower, ch)
    }
}

/// The upper case of a character: that of ASCII below 128, else by the table.
#[inline]
pub fn upper_unicode(table: &LentTable, ch: u32) -> u32
    ensures { result ≡ upper_of table.now ch }
{
    if ch < 128 {
        upper_ascii(ch)
    } else {
        mapped(&table.upper, ch)
    }
}

// Whether a character is an ASCII letter or digit.
#[inline]
pub(crate) fn is_ascii_alphanumeric(ch: u32) -> bool
    ensures { result ≡ is_ascii_alphanumeric ch }
{
    matches!(ch, 48..=57 | 65..=90 | 97..=122)
}

// The character to which a map takes a character.
fn mapped(entries: &Entries<'_>, ch: u32) -> u32
    requires { list_fault Listing.Map 0 (entries_in entries.now) ≡ None }
    ensures { result ≡ mapped (entries_in entries.now) ch }
{
    match entries.last_up_to(ch) {
        Some((from, to)) => if from == ch { to } else { ch },
        None => ch,
    }
}

// Whether a character is in one of the ranges.
fn is_in_ranges(entries: &Entries<'_>, ch: u32) -> bool
    requires { list_fault Listing.Ranges 0 (entries_in entries.now) ≡ None }
    ensures { result ≡ is_in_ranges (entries_in entries.now) ch }
{
    match entries.last_up_to(ch) {
        Some((_, high)) => ch <= high,
        None => false,
    }
}
