//! The lists of a table: those of a caller, and those of std.
//!
//! A caller's lists are checked before any memory is allocated. Those of std are written in order, so they have no
//! fault.

ghost use Rattle.std.specs.Prelude.{◌≡◌, true, IsTrue, None, Some, IfSome, IfNone, map};
ghost use Rattle.std.specs.Prelude.{IfOk, OnOk, IfErr, OnErr, IsOkUnless};
ghost use Rattle.std.specs.Option.{option_or};
ghost use Rattle.sre_chars.specs.Tables.{table_of, is_scalar};
ghost use Rattle.sre_growth.specs.Refusal.{Refused};
ghost use Rattle.sre_chars.specs.Lists.{lent_table, lists_fault};
ghost use Rattle.sre_chars.specs.Errors.{last_of, is_scalar_entry, entry_fault, list_fault, table_fault};

use super::entries::{Entry, UniPair};
use super::{Listing, UniError};
use std::alloc::Allocator;

/// The lists of a table.
#[derive(Drop)]
pub struct Lists<A: Allocator + Copy> {
    pub lower: Vec<(u32, u32), A>,
    pub upper: Vec<(u32, u32), A>,
    pub alnum: Vec<(u32, u32), A>,
}

// The case to which a character is mapped.
#[derive(Clone, Copy)]
enum Case {
    Lower,
    Upper,
}

/// Copies of three lists, after a check that they have no fault.
pub fn checked_lists<A: Allocator + Copy>(
    alloc: A,
    lower: &[(u32, u32)],
    upper: &[(u32, u32)],
    alnum: &[(u32, u32)],
) -> Result<Lists<A>, UniError>
    ensures lists { IfOk result (λ lists.
        table_of lists.lower.items lists.upper.items lists.alnum.items ≡ table_of lower.now upper.now alnum.now) }
    ensures lawful { OnOk result (table_fault (table_of lower.now upper.now alnum.now) ≡ None) }
    ensures refused { IfErr result (λ error.
        option_or (table_fault (table_of lower.now upper.now alnum.now)) (Some UniError.Memory) ≡ Some error) }
    ensures grows { table_fault (table_of lower.now upper.now alnum.now) ≡ None → OnErr result (Refused A) }
{
    check(Listing::Map, lower)?;
    check(Listing::Map, upper)?;
    check(Listing::Ranges, alnum)?;
    Ok(Lists {
        lower: sre_growth::from_slice(alloc, lower)?,
        upper: sre_growth::from_slice(alloc, upper)?,
        alnum: sre_growth::from_slice(alloc, alnum)?,
    })
}

/// A copy of ranges, after a check that they have no fault.
pub fn checked_ranges<A: Allocator>(
    alloc: A,
    ranges: &[(u32, u32)],
) -> Result<Vec<(u32, u32), A>, UniError>
    ensures ranges { IfOk result (λ list. list.items ≡ ranges.now) }
    ensures lawful { OnOk result (list_fault Listing.Ranges 0 ranges.now ≡ None) }
    ensures refused { IfErr result (λ error.
        option_or (list_fault Listing.Ranges 0 ranges.now) (Some UniError.Memory) ≡ Some error) }
    ensures grows { list_fault Listing.Ranges 0 ranges.now ≡ None → OnErr result (Refused A) }
{
    check(Listing::Ranges, ranges)?;
    Ok(sre_growth::from_slice(alloc, ranges)?)
}

/// Checks four lists that a caller lends. The error is their first fault.
pub fn check_lent(
    lower: &[UniPair],
    upper: &[UniPair],
    alnum: &[UniPair],
    digits: &[UniPair],
) -> Result<(), UniError>
    ensures lawful { OnOk result (lists_fault (lent_table lower.now upper.now alnum.now digits.now) ≡ None) }
    ensures refused { IfErr result (λ error.
        lists_fault (lent_table lower.now upper.now alnum.now digits.now) ≡ Some error) }
{
    check(Listing::Map, lower)?;
    check(Listing::Map, upper)?;
    check(Listing::Ranges, alnum)?;
    check(Listing::Ranges, digits)
}

/// The lists of std past ASCII: both case maps, and the alphanumerics.
pub fn std_lists<A: Allocator + Copy>(alloc: A) -> Result<Lists<A>, UniError>
    ensures lawful { IfOk result (λ lists.
        table_fault (table_of lists.lower.items lists.upper.items lists.alnum.items) ≡ None) }
    ensures refused { IsOkUnless result UniError.Memory }
    ensures grows { OnErr result (Refused A) }
{
    Ok(Lists {
        lower: std_map(alloc, Case::Lower)?,
        upper: std_map(alloc, Case::Upper)?,
        alnum: std_ranges(alloc)?,
    })
}

// Checks a list. The error is its first fault.
fn check<E: Entry>(kind: Listing, entries: &[E]) -> Result<(), UniError>
    ensures lawful { OnOk result (list_fault kind 0 (map E.pair entries.now) ≡ None) }
    ensures refused { IfErr result (λ error. list_fault kind 0 (map E.pair entries.now) ≡ Some error) }
{
    let mut next = 0;
    for item in entries {
        let entry = item.pair();
        if let Some(fault) = entry_fault(kind, next, entry) {
            return Err(fault);
        }
        next = last_of(kind, entry) + 1;
    }
    Ok(())
}

// The fault of an entry, if it has one; numbers below `next` are taken by earlier entries.
fn entry_fault(kind: Listing, next: u32, entry: (u32, u32)) -> Option<UniError>
    ensures { result ≡ entry_fault kind next entry }
{
    let first = entry.0;
    let last = last_of(kind, entry);
    if !is_scalar_entry(kind, entry) {
        Some(UniError::NotScalar)
    } else if first < 128 {
        Some(UniError::AsciiEntry)
    } else if first < next || last < first {
        Some(UniError::Unsorted)
    } else {
        None
    }
}

// The greatest number that an entry takes.
fn last_of(kind: Listing, entry: (u32, u32)) -> u32
    ensures { result ≡ last_of kind entry }
{
    match kind {
        Listing::Map => entry.0,
        Listing::Ranges => entry.1,
    }
}

// Whether both numbers of an entry are scalar values, and for a range all those between, too.
fn is_scalar_entry(kind: Listing, entry: (u32, u32)) -> bool
    ensures { result ≡ is_scalar_entry kind entry }
{
    let are_scalar = is_scalar(entry.0) && is_scalar(entry.1);
    match kind {
        Listing::Map => are_scalar,
        Listing::Ranges => are_scalar && !(entry.0 < 0xD800 && 0xDFFF < entry.1),
    }
}

// Whether a number is a Unicode scalar value.
fn is_scalar(ch: u32) -> bool
    ensures { result ≡ is_scalar ch }
{
    matches!(ch, 0..=0xD7FF | 0xE000..=0x10FFFF)
}

// The characters past ASCII that std maps to another one, with that one.
fn std_map<A: Allocator>(alloc: A, case: Case) -> Result<Vec<(u32, u32), A>, UniError>
    ensures lawful { IfOk result (λ entries. list_fault Listing.Map 0 entries.items ≡ None) }
    ensures refused { IsOkUnless result UniError.Memory }
    ensures grows { OnErr result (Refused A) }
{
    let mut entries = Vec::new(alloc);
    for from in 128..0x110000u32 {
        if let Some(ch) = char::from_u32(from) {
            let to = in_case(case, ch);
            if to != ch {
                sre_growth::push(&mut entries, (from, to as u32))?;
            }
        }
    }
    Ok(entries)
}

// The first character to which std maps a character.
fn in_case(case: Case, ch: char) -> char
    ensures scalar { is_scalar result ≡ true }
{
    let mut changed = match case {
        Case::Lower => ch.to_lowercase(),
        Case::Upper => ch.to_uppercase(),
    };
    changed.next().unwrap_or(ch)
}

// The ranges of characters past ASCII that std calls alphanumeric.
fn std_ranges<A: Allocator>(alloc: A) -> Result<Vec<(u32, u32), A>, UniError>
    ensures lawful { IfOk result (λ ranges. list_fault Listing.Ranges 0 ranges.items ≡ None) }
    ensures refused { IsOkUnless result UniError.Memory }
    ensures grows { OnErr result (Refused A) }
{
    let mut ranges = Vec::new(alloc);
    let mut run = None;
    for code in 128..0x110000u32 {
        if is_std_alphanumeric(code) {
            run = Some(extended(run, code));
        } else if let Some(range) = run {
            sre_growth::push(&mut ranges, range)?;
            run = None;
        }
    }
    if let Some(range) = run {
        sre_growth::push(&mut ranges, range)?;
    }
    Ok(ranges)
}

// A range with one more number, or the range of that number alone.
fn extended(run: Option<(u32, u32)>, code: u32) -> (u32, u32)
    ensures alone { IfNone run (result ≡ (code, code)) }
    ensures longer { IfSome run (λ range. result ≡ (range.0, code)) }
{
    match run {
        Some((low, _)) => (low, code),
        None => (code, code),
    }
}

// Whether std calls the character of that number alphanumeric.
fn is_std_alphanumeric(code: u32) -> bool
    ensures scalar { IsTrue result → is_scalar code ≡ true }
{
    match char::from_u32(code) {
        Some(ch) => ch.is_alphanumeric(),
        None => false,
    }
}
