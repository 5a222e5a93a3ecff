//! The program: a file of cases, and an answer to each.
#![tactic(auto)]

pub mod answer;
pub mod cases;
pub mod cause;
pub mod line;
mod number;
mod output;
pub mod program;
pub mod table;
