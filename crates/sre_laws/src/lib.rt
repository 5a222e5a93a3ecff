//! Laws over several calls of the engine. Each is a function that is only proved: nothing calls it.
#![tactic(auto)]

pub mod laws;
