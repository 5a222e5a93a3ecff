//! [`Request`]: a text, a range of it, a code, two flags and a rule. And what the machine reads of one: code words,
//! characters of the text, tests of one character and their repeats, positions, back-references.
//!
//! Each function that reads requires that its instruction is at the given address, and returns what the definitions say
//! of it.
#![tactic(auto)]

mod admitted;
pub mod ascii;
pub mod one_character;
pub mod position;
pub mod references;
mod request;
pub mod runs;
mod takers;
pub mod text;
pub mod words;

pub use admitted::Admitted;
pub use request::Request;
