//! The results of calls, as numbers.

/// The statuses, whose numbers `include/sre.h` names.
#[derive(Clone, Copy)]
pub enum Status {
    /// There is no match, or an iteration has ended.
    No,
    /// There is a match, or a check accepted bytecode or lists.
    Yes,
    /// The step limit was exceeded.
    StepLimit,
    /// An allocation failed.
    Memory,
    /// The bytecode has no tree.
    NoCode,
    /// There is no room for the captures of a match, or for one more row.
    NoRoom,
    /// The text is not valid UTF-8.
    NotUtf8,
    /// A list of the table has a fault.
    FaultyTable,
}

impl Status {
    ghost use Rattle.std.specs.Prelude.{◌≡◌};
    ghost use Rattle.sre_c.specs.Answered.{status_number};

    /// The number of this status.
    pub fn number(self) -> u32
        ensures { result ≡ status_number self }
    {
        match self {
            Status::No => 0,
            Status::Yes => 1,
            Status::StepLimit => 2,
            Status::Memory => 3,
            Status::NoCode => 4,
            Status::NoRoom => 5,
            Status::NotUtf8 => 6,
            Status::FaultyTable => 7,
        }
    }
}
