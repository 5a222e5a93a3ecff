//! How a code begins, read once for many searches.

ghost use Rattle.sre_engine.specs.Terms.{run_of};
ghost use Rattle.sre_engine.specs.FirstSets.{Opens};

use crate::engine::first_characters::First;
use crate::engine::leading_run::{LeadingRun, leading_run};
use sre_chars::string::StrDrive;
use sre_request::Request;

/// What must come first in each match of a code, and the repeat at its front.
#[derive(Clone, Copy)]
pub(crate) struct Opening {
    pub(crate) first: First,
    pub(crate) lead: Option<LeadingRun>,
}

impl Opening {
    /// Read from the first code words, with the characters of sets and the FIRST sets of alternatives and repeats.
    pub(crate) fn of_code<S: StrDrive>(req: &Request<'_, S>) -> Opening
        ensures { Opens (run_of req.now).words result }
    {
        let reads_sets = true;
        Opening {
            first: First::of_items(req.pattern_codes().items(), reads_sets),
            lead: leading_run(req),
        }
    }
}
