//! What is translated to a pattern, and what the pattern is for.

ghost use Rattle.std.specs.Prelude.{OnOk};
ghost use Rattle.sre_patterns.specs.Purposes.{OnlyCovers};

use crate::encoding::Encoding;
use crate::fault::Fault;
use sre_code::Code;
use std::alloc::Global;

/// What a pattern is for.
#[derive(Clone, Copy)]
pub(crate) enum Purpose {
    /// To cover the match paths. If only starts matter, all repetitions are lazy.
    Cover { lazy: bool },
    /// To try the match paths in the tree's order.
    InOrder,
}

/// What is translated to a pattern.
#[derive(Drop)]
pub(crate) struct Task<'a> {
    pub(crate) alloc: Global,
    pub(crate) code: Code<'a>,
    pub(crate) encoding: Encoding,
    pub(crate) purpose: Purpose,
}

/// Returns an error if the match paths are to be tried in their order. For items whose paths no pattern tries so.
pub(crate) fn only_covers(purpose: Purpose) -> Result<(), Fault>
    ensures { OnOk result (OnlyCovers purpose) }
{
    match purpose {
        Purpose::Cover { lazy: _ } => Ok(()),
        Purpose::InOrder => Err(Fault::OutOfOrder),
    }
}
