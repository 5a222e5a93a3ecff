//! [`Admitted`]: the FIRST sets of an address.

use sre_code::ascii_set::AsciiSet;

/// The FIRST sets of an address of the bytecode, in ASCII: of the instruction there, and of the alternatives from there
/// on, if the address is that of an alternative's length word.
#[derive(Clone, Copy)]
pub struct Admitted {
    pub instruction: AsciiSet,
    pub alternatives: AsciiSet,
}
