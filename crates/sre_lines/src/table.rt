//! Reads Unicode tables from a file of four lines: `lower`, `upper`, `alnum` and `digits`, each with the numbers of a
//! list.
//!
//! The name and a space are followed by numbers in the form of WORDS, two for each entry. An entry is a character and
//! its other case, or the first and the last character of a range.

ghost use Rattle.std.specs.Prelude.{◌≡◌, ◌≢◌, ◌++◌, ℕ, List, Err, Some, IfOk, IfSome, IfNone};
ghost use Rattle.sre_lines.specs.Terms.{Refused, Table, lists_fault, table_with};
ghost use Rattle.sre_lines.specs.Fields.{words_text, AreWords};
ghost use Rattle.sre_lines.specs.TableFiles.{list_text, table_text, numbers_of, IsNoTable, LacksList, LeavesList};

use crate::line::{LineFault, read_words, split_once};
use sre_engine::{UniError, UniTable};
use std::alloc::Global;

/// Why a file is no table.
#[derive(Clone, Copy)]
pub enum TableFault {
    /// It does not consist of the four lines of a table.
    Form,
    /// The first fault of its lists, never `UniError::Memory`.
    Lists(UniError),
    /// An allocation failed.
    NoMemory,
}

/// Reads the table that a file contains.
pub fn read_table(alloc: Global, file: &[u8]) -> Result<UniTable, TableFault>
    ensures read { IfOk result (λ table. table_text table ≡ file.now) }
    ensures lists { (error : UniError) → result ≡ Err (TableFault.Lists error) → (table : Table)
        × (table_text table ≡ file.now) × (lists_fault table ≡ Some error) }
    ensures form { result ≡ Err TableFault.Form → IsNoTable file.now }
    ensures memory { result ≡ Err TableFault.NoMemory → Refused Global }
{
    let (lower, rest) = read_list(alloc, file, b"lower ")?;
    let (upper, rest) = read_list(alloc, rest, b"upper ")?;
    let (alnum, rest) = read_list(alloc, rest, b"alnum ")?;
    let (digits, rest) = read_list(alloc, rest, b"digits ")?;
    if !rest.is_empty() {
        return Err(TableFault::Form);
    }
    table_of(
        alloc,
        lower.as_slice(),
        upper.as_slice(),
        alnum.as_slice(),
        digits.as_slice(),
    )
}

// The table of four lists.
fn table_of(
    alloc: Global,
    lower: &[(u32, u32)],
    upper: &[(u32, u32)],
    alnum: &[(u32, u32)],
    digits: &[(u32, u32)],
) -> Result<UniTable, TableFault>
    ensures table { IfOk result (λ table. table ≡ table_with lower.now upper.now alnum.now digits.now) }
    ensures lists { (error : UniError) → result ≡ Err (TableFault.Lists error)
        → lists_fault (table_with lower.now upper.now alnum.now digits.now) ≡ Some error }
    ensures form { result ≢ Err TableFault.Form }
    ensures memory { result ≡ Err TableFault.NoMemory → Refused Global }
{
    let mut table = match UniTable::new(alloc, lower, upper, alnum) {
        Ok(table) => table,
        Err(error) => return Err(fault_of(error)),
    };
    match table.set_digits(digits) {
        Ok(()) => Ok(table),
        Err(error) => Err(fault_of(error)),
    }
}

// Why the lists of a file are no table.
fn fault_of(error: UniError) -> TableFault
    ensures memory { error ≡ UniError.Memory → result ≡ TableFault.NoMemory }
    ensures other { error ≢ UniError.Memory → result ≡ TableFault.Lists error }
    ensures only { result ≡ TableFault.NoMemory → error ≡ UniError.Memory }
    ensures form { result ≢ TableFault.Form }
{
    match error {
        UniError::Memory => TableFault::NoMemory,
        _ => TableFault::Lists(error),
    }
}

// Reads the list with a name, and returns the rest of the file after its line. A space ends the name.
fn read_list<'f>(
    alloc: Global,
    file: &'f [u8],
    name: &[u8],
) -> Result<(Vec<(u32, u32)>, &'f [u8]), TableFault>
    ensures read { IfOk result (λ found. list_text name.now found.0.items found.1.now ≡ file.now) }
    ensures left { IfOk result (λ found. LeavesList name.now file.now found.1.now) }
    ensures form { result ≡ Err TableFault.Form → LacksList name.now file.now }
    ensures memory { result ≡ Err TableFault.NoMemory → Refused Global }
    ensures only { (error : UniError) → result ≢ Err (TableFault.Lists error) }
{
    let Some(list) = after(file, name) else {
        return Err(TableFault::Form);
    };
    let Some((field, rest)) = split_once(list, b'\n') else {
        return Err(TableFault::Form);
    };
    match read_pairs(alloc, field) {
        Ok(pairs) => Ok((pairs, rest)),
        Err(LineFault::NotACase) => Err(TableFault::Form),
        Err(LineFault::NoMemory) => Err(TableFault::NoMemory),
    }
}

// What follows `front` in a file that begins with it.
fn after<'f>(file: &'f [u8], front: &[u8]) -> Option<&'f [u8]>
    ensures rest { IfSome result (λ rest. front.now ++ rest.now ≡ file.now) }
    ensures none { IfNone result ((rest : List ℕ) → front.now ++ rest ≢ file.now) }
{
    file.strip_prefix(front)
}

// Reads pairs, from a field with the numbers of all of them.
fn read_pairs(alloc: Global, field: &[u8]) -> Result<Vec<(u32, u32)>, LineFault>
    ensures read { IfOk result (λ pairs. words_text (numbers_of pairs.items) ≡ field.now) }
    ensures refused { result ≡ Err LineFault.NotACase → (pairs : List (ℕ × ℕ)) → AreWords (numbers_of pairs)
        → words_text (numbers_of pairs) ≢ field.now }
    ensures memory { result ≡ Err LineFault.NoMemory → Refused Global }
{
    let mut words = Vec::new(alloc);
    read_words(field, &mut words)?;
    let numbers = words.as_slice();
    if numbers.len() % 2 != 0 {
        return Err(LineFault::NotACase);
    }
    let mut pairs = Vec::new(alloc);
    for i in 0..numbers.len() / 2 {
        sre_growth::push(&mut pairs, (numbers[2 * i], numbers[2 * i + 1]))?;
    }
    Ok(pairs)
}
