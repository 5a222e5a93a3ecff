//! Checked bytecode: the check against the grammar, and what is computed from a code.
#![tactic(auto)]

pub mod ascii_members;
pub mod ascii_set;
pub mod code;
pub mod members;
pub mod operands;
pub mod owned;

pub use code::Code;
pub use code::borders::border_lengths;
pub use code::check::check_in;
pub use owned::OwnedCode;
