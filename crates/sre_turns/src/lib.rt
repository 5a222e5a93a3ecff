//! What a machine over the bytecode does step by step, and that it finds the match paths of the code.
//!
//! `specs/` defines the machine's states and what one step does to them. `proofs/` shows that the bytecode of a tree
//! has the tree's match paths, and what each step preserves. The machine is proved against these. This file has only
//! the few types that both use.
#![tactic(auto)]

use sre_chars::string::StringCursor;

/// An atomic scope whose body is in progress, with the address after it if the machine continues there.
#[derive(Clone, Copy)]
pub enum Region {
    /// An atomic group.
    AtomicGroup(usize),
    /// A positive lookaround.
    Ahead(usize),
    /// A negative lookaround.
    NotAhead(usize),
    /// A body of a possessive loop within its least count.
    Owed,
    /// A body of a possessive loop beyond its least count.
    Further(usize),
}

/// Where the machine can continue. Addresses count words.
#[derive(Clone, Copy)]
pub enum Point {
    /// At an instruction's address.
    Instruction(usize),
    /// At the address of an alternative's length word.
    Alternatives(usize),
    /// With the counts of a repeat that are shorter than the one at the cursor: the tail's address, and their number.
    Shorter(usize, usize),
    /// With the counts of a lazy repeat that are longer than the one at the cursor: the repeat's address, and that
    /// count.
    Longer(usize, usize),
    /// After an atomic scope whose body is in progress.
    Inside(Region),
    /// At the innermost loop, a possessive one, before a body or its end.
    Again,
    /// The marker below the choices of an instruction that is being tried, with its address. The machine never
    /// continues there: when the marker is popped, the instruction has failed.
    Tried(usize),
    /// The marker of the innermost loop, a possessive one, that is being tried before a body or its end.
    TriedAgain,
}

/// A loop in progress: the address of its REPEAT, the number of its bodies so far, which saturates at 4294967295, and
/// the position at which the last one beyond the least count began.
#[derive(Clone, Copy)]
pub struct Frame {
    pub repeat: usize,
    pub count: u32,
    pub last: Option<usize>,
}

/// What follows a step: an instruction, a body or the end of a possessive loop, the newest choice, or the end of the
/// innermost atomic scope.
#[derive(Clone, Copy)]
pub enum Next {
    At(usize, StringCursor),
    Again(StringCursor),
    Back,
    Done(StringCursor),
}
