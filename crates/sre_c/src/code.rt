//! The struct of a code; `types.rt` has the others.

ghost use Rattle.std.specs.Prelude.{◌≡◌, true};
ghost use Rattle.sre_c.specs.Known.{table_in, IsKnown};

use crate::types::{SreHints, SreTable};

/// Bytecode, its table, and the results of the check.
#[repr(C)]
#[derive(Clone, Copy)]
pub struct SreCode<'a> {
    pub words: &'a [u32],
    pub table: &'a SreTable<'a>,
    /// The address at which the check found the fault, at most the number of words.
    pub place: usize,
    /// The number of the error, or 0 if the check accepted the bytecode.
    pub error: u32,
    pub hints: SreHints,
    /// Whether the check accepted the bytecode.
    pub checked: bool,
    ghost known: { checked ≡ true → ∥ IsKnown words.now (table_in table.now) hints ∥₁ },
}
