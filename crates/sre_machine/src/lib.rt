//! The machine: one backtracking run over the bytecode, from one start.
//!
//! Each step executes an instruction or returns to a saved choice. The relation `Moves` of the specification says what
//! a step does. [`runner::Runner::attempt`] returns the first accepted match path.
//!
//! A search that has backtracked much memoizes its failures and the ends of atomic scopes ([`memo::Memo`]), and skips
//! equivalent configurations. The answer is the same.
#![tactic(auto)]

pub mod admitting;
pub mod allowance;
mod asked_places;
mod branches;
mod character_repeats;
mod long_repeats;
mod loops;
mod machine;
mod marked;
pub mod memo;
pub mod runner;
mod scopes;
mod set_members;
mod strides;
mod trying;
pub mod turns;
