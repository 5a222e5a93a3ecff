//! The raw pointers by which a struct of C owns what a finder has built.
#![tactic(auto)]

mod kept_slot;
mod raw_box;

pub use kept_slot::KeptSlot;
pub use raw_box::RawBox;
