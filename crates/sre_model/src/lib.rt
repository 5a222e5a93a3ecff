//! What a code means.
//!
//! `specs/` has the meaning: the tree of a code, its ways, the match that is found, the walk; and the grammar, by which
//! words are a tree's. `proofs/` has their laws. Nothing here knows of a machine.
#![tactic(auto)]
