//! The struct of a pattern, which keeps what its searches build.

ghost use Rattle.std.specs.Prelude.{◌≡◌, true, false, Some, None};
ghost use Rattle.sre_c.specs.Known.{table_in};

use crate::code::SreCode;
use sre_handle::KeptSlot;

/// A code, and the DFAs and the memory of calls by this pattern. They are of the code's words and table.
#[repr(C)]
pub struct SrePattern<'a> {
    pub code: SreCode<'a>,
    pub kept: KeptSlot,
    /// Whether something is kept.
    pub is_kept: bool,
    /// Whether a text was not ASCII. Then ASCII is read as UTF-8, too, since DFAs of bytes would be dropped.
    pub reads_utf8: bool,
    ghost full: { is_kept ≡ true → kept.code ≡ Some (code.words.now, table_in code.table.now) },
    ghost empty: { is_kept ≡ false → kept.code ≡ None },
}
