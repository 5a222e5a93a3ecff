//! [`Allowance`]: the step limit of a call.

ghost use Rattle.std.specs.Prelude.{◌≡◌};
ghost use Rattle.sre_machine.specs.Spending.{is_limited, left_of};

/// How many steps are left.
#[derive(Clone, Copy)]
pub enum Allowance {
    /// No limit: steps are not counted.
    Unlimited,
    /// So many.
    Turns(u64),
}

impl Allowance {
    /// Whether there is a limit.
    #[inline(always)]
    pub fn is_limited(&self) -> bool
        ensures { result ≡ is_limited self.now }
    {
        matches!(self, Allowance::Turns(_))
    }

    /// How many steps are left; 0 if there is no limit.
    #[inline(always)]
    pub fn left(&self) -> u64
        ensures { result ≡ left_of self.now }
    {
        match self {
            Allowance::Unlimited => 0,
            Allowance::Turns(left) => *left,
        }
    }
}
