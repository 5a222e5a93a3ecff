//! The raw pointer to what a finder has built, of a type that C may hold.

ghost use Rattle.std.specs.Prelude.{◌≡◌, ℕ, List, Option, None, Some, IsSome, IfSome};
ghost use Rattle.sre_chars.specs.Tables.{Table};
ghost use Rattle.sre_finder.specs.Kepts.{Suits};
ghost use Rattle.sre_handle.specs.Slots.{held, coded_code};

use crate::raw_box::RawBox;
use sre_finder::Kept;
use std::marker::Model;
use std::ptr::null_mut;

/// Owns a box, whose content suits the words and the table of a code; or nothing. It has no `Drop`, since C has none,
/// and is dropped by `discard` alone, which requires that it owns nothing.
#[repr(C)]
pub struct KeptSlot {
    at: *mut u8,
    pub ghost code: { Option (List ℕ × Table) } by { coded_code },
}

impl Model for KeptSlot {
    ghost also_owns = { λ s. held s.at s.code };
}

impl KeptSlot {
    /// Owns nothing.
    pub fn empty() -> KeptSlot
        ensures { result.code ≡ None }
    {
        KeptSlot { at: null_mut() }
    }

    /// Owns what the pointer owned, which suits a code.
    pub fn of(kept: RawBox<Kept>) -> KeptSlot
        ghost code: { List ℕ × Table }
        requires { Suits code.0 code.1 kept.value }
        ensures { result.code ≡ Some code }
    {
        let RawBox { at } = kept;
        KeptSlot { at: at as *mut u8 }
    }

    /// The pointer to the box.
    pub fn into_raw_box(self) -> RawBox<Kept>
        requires { IsSome self.code }
        ensures { IfSome self.code (λ code. Suits code.0 code.1 result.value) }
    {
        let KeptSlot { at } = self;
        RawBox {
            at: at as *mut Kept,
        }
    }

    /// Drops a slot that owns nothing.
    pub fn discard(self)
        requires { self.code ≡ None }
    {
        let KeptSlot { at: _ } = self;
    }
}
