//! Why the check rejects bytecode.

ghost use Rattle.std.specs.Prelude.{◌≡◌, ◌≤◌};

use sre_growth::Refusal;
use std::alloc::{AllocError, AllocFailed, Allocator};
use thiserror::Error;

/// Why bytecode was rejected. Each cause but `Memory` carries the address at which the fault was seen, which is at most
/// the number of words. If several causes apply, any of them may be named.
#[derive(Clone, Copy, PartialEq, Eq, Debug, Error)]
pub enum CodeError {
    /// An allocation failed. It may come before any other cause.
    #[error("out of memory")]
    Memory,
    /// The bytecode, or a part, ends before an item, a set, the INFO block or the last SUCCESS is complete.
    #[error("Truncated {0}")]
    Truncated(usize),
    /// A word above 42 where an opcode is read.
    #[error("UnknownOpcode {0}")]
    UnknownOpcode(usize),
    /// A word above 11 as the position code of an AT.
    #[error("UnknownAt {0}")]
    UnknownAt(usize),
    /// A word above 17 as a category code.
    #[error("UnknownCategory {0}")]
    UnknownCategory(usize),
    /// A skip, a length or a JUMP leads elsewhere than its layout demands.
    #[error("BadSkip {0}")]
    BadSkip(usize),
    /// The least count of a repeat is above its greatest count.
    #[error("BadCounts {0}")]
    BadCounts(usize),
    /// A known opcode where no such item may be, a wrong end of a part, or a BRANCH without alternatives.
    #[error("BadItem {0}")]
    BadItem(usize),
    /// A set has another opcode, no FAILURE at its end, or a block number that is not below the block count.
    #[error("BadSet {0}")]
    BadSet(usize),
    /// An INFO block is not at address 0, or its skip is below 4 or leads past the last word.
    #[error("BadInfo {0}")]
    BadInfo(usize),
    /// There are words after the SUCCESS that ends the code.
    #[error("TrailingWords {0}")]
    TrailingWords(usize),
}

impl<A: Allocator> From<Refusal<A>> for CodeError {
    ghost use Rattle.sre_code.specs.declared.code.error.CodeError.TheVariants.{Memory};

    ghost from_gives = { λ _ e. e ≡ Memory };

    fn from(_refusal: Refusal<A>) -> CodeError {
        CodeError::Memory
    }
}

// For functions of callers that grow lists of their own.
impl From<AllocError> for CodeError {
    ghost use Rattle.sre_code.specs.declared.code.error.CodeError.TheVariants.{Memory};

    ghost from_gives = { λ _ e. e ≡ Memory };

    fn from(_refused: AllocError) -> CodeError {
        CodeError::Memory
    }
}

impl<T: Drop> From<AllocFailed<T>> for CodeError {
    ghost use Rattle.sre_code.specs.declared.code.error.CodeError.TheVariants.{Memory};

    ghost from_gives = { λ _ e. e ≡ Memory };

    fn from(_refused: AllocFailed<T>) -> CodeError {
        CodeError::Memory
    }
}

impl CodeError {
    ghost use Rattle.std.specs.Prelude.{◌≢◌, ◌+◌, ◌<◌, ◌^◌};
    ghost use Rattle.sre_code.specs.Refusals.{refusal_number, place_of};
    ghost use Rattle.sre_code.specs.declared.code.error.CodeError.TheVariants.{Memory};

    // The same cause, at an address that is so many words further on.
    pub(super) fn moved(self, words: usize) -> CodeError
        requires { place_of self + words < 2 ^ 64 }
        ensures memory { self ≡ Memory → result ≡ Memory }
        ensures other { result ≡ Memory → self ≡ Memory }
        ensures cause { refusal_number result ≡ refusal_number self }
        ensures place { place_of result ≤ place_of self + words }
        ensures moved { self ≢ Memory → place_of result ≡ place_of self + words }
    {
        match self {
            CodeError::Memory => CodeError::Memory,
            CodeError::Truncated(place) => CodeError::Truncated(place + words),
            CodeError::UnknownOpcode(place) => CodeError::UnknownOpcode(place + words),
            CodeError::UnknownAt(place) => CodeError::UnknownAt(place + words),
            CodeError::UnknownCategory(place) => CodeError::UnknownCategory(place + words),
            CodeError::BadSkip(place) => CodeError::BadSkip(place + words),
            CodeError::BadCounts(place) => CodeError::BadCounts(place + words),
            CodeError::BadItem(place) => CodeError::BadItem(place + words),
            CodeError::BadSet(place) => CodeError::BadSet(place + words),
            CodeError::BadInfo(place) => CodeError::BadInfo(place + words),
            CodeError::TrailingWords(place) => CodeError::TrailingWords(place + words),
        }
    }

    /// The number of this cause, from 1 (`Memory`) to 11 (`TrailingWords`).
    pub fn number(&self) -> u32
        ensures { result ≡ refusal_number self.now }
    {
        match self {
            CodeError::Memory => 1,
            CodeError::Truncated(_) => 2,
            CodeError::UnknownOpcode(_) => 3,
            CodeError::UnknownAt(_) => 4,
            CodeError::UnknownCategory(_) => 5,
            CodeError::BadSkip(_) => 6,
            CodeError::BadCounts(_) => 7,
            CodeError::BadItem(_) => 8,
            CodeError::BadSet(_) => 9,
            CodeError::BadInfo(_) => 10,
            CodeError::TrailingWords(_) => 11,
        }
    }
}
