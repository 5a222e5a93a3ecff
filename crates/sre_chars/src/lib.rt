//! Opcode numbers, texts and cursors, categories and Unicode tables of the SRE engine.
#![tactic(auto)]

mod bytes;
mod category;
pub mod constants;
pub mod string;
mod table;
mod text;

pub use table::lists;
