//! Translates bytecode to a byte pattern that matches wherever the bytecode does.
//!
//! The pattern is an `Hir` of the kit's crate `regex_hir`, from which other crates of the kit build DFAs. The pattern
//! of `hir_of` covers each match path of the tree, with the same start and end. That of `starts_of` covers the starts
//! alone. What a pattern cannot express becomes wider: captures and lookarounds always pass, and a back-reference takes
//! any characters. So a search for the pattern misses no match, and the machine confirms each candidate. For fewer
//! codes, `ways_of` returns a pattern that tries the match paths in the tree's order: its match is the match of the
//! code.
#![tactic(auto)]

mod classes;
mod encoding;
mod fault;
mod joining;
mod positions;
mod repeats;
mod settled;
mod task;
mod translate;
mod words;

pub use encoding::Encoding;
pub use repeats::KEPT;
pub use translate::{DEPTH, hir_of, starts_of, ways_of};
