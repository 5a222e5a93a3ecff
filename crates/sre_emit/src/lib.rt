//! Bytecode from trees: a [`Part`] is what a code is to match, and [`emit`] writes its bytecode.
#![tactic(auto)]

mod block;
mod check;
mod codes;
mod emission;
pub mod error;
mod items;
pub mod part;
mod writer;

pub use emission::{emit, emit_in};
pub use error::EmitError;
pub use part::{Fold, Item, OneChar, Part, RunKind, SetItem};
