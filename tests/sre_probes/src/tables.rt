//! Unicode tables that a line sets for the lines after it.

use crate::probe::{cut, word_of};
use sre_engine::{UniError, UniTable};
use sre_lines::line::split_once;
use std::alloc::{AllocError, Global};

// The two numbers of a pair, if it has them.
fn pair_of(pair: &[u8]) -> Option<(u32, u32)> {
    let (low, high) = split_once(pair, b'-')?;
    Some((word_of(low)?, word_of(high)?))
}

// Appends the pairs of a field of the form `A-B,A-B`, or none for `-`.
fn push_pairs(field: &[u8], pairs: &mut Vec<(u32, u32)>) -> Result<(), AllocError> {
    let mut left = Some(field);
    for _ in 0..field.len().saturating_add(1) {
        let Some(several) = left else {
            return Ok(());
        };
        let (pair, others) = cut(several, b',');
        if let Some(numbers) = pair_of(pair) {
            pairs.push(numbers)?;
        }
        left = others;
    }
    Ok(())
}

// Appends that a table was created, or why it was not.
fn push_outcome(outcome: Result<(), UniError>, answer: &mut String) -> Result<(), AllocError> {
    match outcome {
        Ok(()) => answer.push_str("ok"),
        Err(error) => write!(answer, "{error} {}", error.number()),
    }
}

// The lists of a table: lower case, upper case and alphanumerics.
#[derive(Drop)]
struct Lists {
    lower: Vec<(u32, u32)>,
    upper: Vec<(u32, u32)>,
    alnum: Vec<(u32, u32)>,
}

// Appends the pairs of three fields to the lists. A missing field has none.
fn push_lists(fields: &[u8], lists: &mut Lists) -> Result<(), AllocError> {
    let Some((lower, rest)) = split_once(fields, b' ') else {
        return push_pairs(fields, &mut lists.lower);
    };
    push_pairs(lower, &mut lists.lower)?;
    let Some((upper, alnum)) = split_once(rest, b' ') else {
        return push_pairs(rest, &mut lists.upper);
    };
    push_pairs(upper, &mut lists.upper)?;
    push_pairs(alnum, &mut lists.alnum)
}

// The table of three fields.
fn table_of(alloc: Global, fields: &[u8]) -> Result<UniTable, UniError> {
    let mut lists = Lists {
        lower: Vec::new(alloc),
        upper: Vec::new(alloc),
        alnum: Vec::new(alloc),
    };
    match push_lists(fields, &mut lists) {
        Ok(()) => UniTable::new(
            alloc,
            lists.lower.as_slice(),
            lists.upper.as_slice(),
            lists.alnum.as_slice(),
        ),
        Err(AllocError) => Err(UniError::Memory),
    }
}

// The table of ASCII, that of std, or that of three fields.
fn named_table(alloc: Global, name: &[u8]) -> Result<UniTable, UniError> {
    if name == b"ascii".as_slice() {
        return Ok(UniTable::ascii(alloc));
    }
    if name == b"std".as_slice() {
        return UniTable::from_std(alloc);
    }
    table_of(alloc, name)
}

/// Sets the table to that of ASCII, that of std, or that of three lists. If these have a fault, the table is unchanged.
pub(crate) fn push_table(
    alloc: Global,
    lists: &[u8],
    table: &mut UniTable,
    answer: &mut String,
) -> Result<(), AllocError> {
    match named_table(alloc, lists) {
        Ok(new) => {
            *table = new;
            answer.push_str("ok")
        }
        Err(error) => push_outcome(Err(error), answer),
    }
}

/// Sets the table's digits past ASCII. If the ranges have a fault, they are unchanged.
pub(crate) fn push_digits(
    alloc: Global,
    ranges: &[u8],
    table: &mut UniTable,
    answer: &mut String,
) -> Result<(), AllocError> {
    let mut pairs = Vec::new(alloc);
    match push_pairs(ranges, &mut pairs) {
        Ok(()) => push_outcome(table.set_digits(pairs.as_slice()), answer),
        Err(error) => Err(error),
    }
}
