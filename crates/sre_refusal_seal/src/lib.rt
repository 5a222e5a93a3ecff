//! What a growth alone says: that it was refused. Only `sre_growth` stands on this crate.
#![tactic(auto)]
