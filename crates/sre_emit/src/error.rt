//! Why no bytecode is written.

ghost use Rattle.std.specs.Prelude.{◌≡◌};
ghost use Rattle.sre_emit.specs.Errors.{emit_error_number};

use sre_growth::Refusal;
use std::alloc::Allocator;
use thiserror::Error;

/// Why no bytecode is written for a part. If several causes apply, any of them may be named.
#[derive(Clone, Copy, PartialEq, Eq, Debug, Error)]
pub enum EmitError {
    /// An allocation failed. It may come before any other cause.
    #[error("out of memory")]
    Memory,
    /// A count or a skip would be above 4294967295.
    #[error("TooLong")]
    TooLong,
    /// A part is inside more than 1000 items.
    #[error("TooDeep")]
    TooDeep,
    /// A least count above the greatest one, a branch without parts, or an incomplete table of a set.
    #[error("BadPart")]
    BadPart,
}

impl<A: Allocator> From<Refusal<A>> for EmitError {
    ghost use Rattle.sre_emit.specs.declared.error.EmitError.TheVariants.{Memory};

    ghost from_gives = { λ _ e. e ≡ Memory };

    fn from(_refusal: Refusal<A>) -> EmitError {
        EmitError::Memory
    }
}

impl EmitError {
    /// The number of this error, from 1 (`Memory`) to 4 (`BadPart`).
    pub fn number(&self) -> u32
        ensures { result ≡ emit_error_number self.now }
    {
        match self {
            EmitError::Memory => 1,
            EmitError::TooLong => 2,
            EmitError::TooDeep => 3,
            EmitError::BadPart => 4,
        }
    }
}
