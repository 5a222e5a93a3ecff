//! Why a translation failed.

use std::alloc::{AllocError, AllocFailed};

/// Why a translation failed.
#[derive(Clone, Copy)]
pub(crate) enum Fault {
    /// Items are nested too deeply.
    TooDeep,
    /// No pattern tries the match paths of an item in their order.
    OutOfOrder,
    /// An allocation failed.
    Memory,
}

impl From<AllocError> for Fault {
    fn from(_error: AllocError) -> Fault {
        Fault::Memory
    }
}

impl<T: Drop> From<AllocFailed<T>> for Fault {
    fn from(_error: AllocFailed<T>) -> Fault {
        Fault::Memory
    }
}
