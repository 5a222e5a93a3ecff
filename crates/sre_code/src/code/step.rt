//! The state of the check's pass: open parts, and the results of its steps.

/// A part whose items are being read, and what ends it.
#[derive(Clone, Copy)]
pub enum Part {
    /// The whole code: SUCCESS as the last word.
    Whole,
    /// An alternative of a BRANCH: a JUMP at `end` leads to `tail`. `least` is the least width of those before.
    Alternative { end: usize, tail: usize, least: u32 },
    /// The body of a REPEAT: MAX_UNTIL or MIN_UNTIL at `end`. `least` is the least count.
    Body { end: usize, least: u32 },
    /// The body of a possessive loop, an atomic group or a lookaround: SUCCESS at `end`. Its least width counts `least`
    /// times.
    Region { end: usize, least: u32 },
    /// The first part of a conditional: it ends at `tail`, or with a JUMP two words before, after which the second part
    /// begins at `tail`.
    There { tail: usize },
    /// The second part of a conditional: it ends at `end`. `least` is the least width of the first part.
    Absent { end: usize, least: u32 },
}

/// An open part, and the least width of its items so far.
#[derive(Clone, Copy)]
pub struct Open {
    pub part: Part,
    pub width: u32,
}

/// What a step read.
#[derive(Clone, Copy)]
pub enum Step {
    /// A whole item: the address after it, and its least width.
    Past { place: usize, width: u32 },
    /// The front of an item with a part, whose items begin at `place`.
    Opens { part: Part, place: usize },
}

/// The address up to which the bytecode has been read, and the least width of the item that ends there.
#[derive(Clone, Copy)]
pub struct Reached {
    pub place: usize,
    pub width: u32,
}

/// The address of an alternative's JUMP, and the address to which it leads.
#[derive(Clone, Copy)]
pub struct Bounds {
    pub end: usize,
    pub tail: usize,
}
