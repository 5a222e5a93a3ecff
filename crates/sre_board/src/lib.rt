//! The backtrack stack of a run: the loops in progress, the captures, and the choices that are still to be tried.
//!
//! All choices share one list of captures with an undo trail, and one table of loop frames. So a choice is a record of
//! fixed size, and backtracking allocates nothing.
//!
//! Beside the stack are two tables of a search: memoized failures, so that the machine tries no equivalent
//! configuration twice, and memoized ends of atomic scopes.
#![tactic(auto)]

mod board;
mod chains;
mod ends;
mod failures;
mod marks;
mod places;
mod requests;
mod saved;
mod slots;
mod trail;

pub use board::{Board, LOOK_SPEED};
pub use ends::Ends;
pub use failures::{Failures, Known};
pub use marks::{Change, Marks};
pub use saved::Saved;
