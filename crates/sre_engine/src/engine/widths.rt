//! The last start with room for the confirmed least width.

ghost use Rattle.std.specs.Prelude.{◌≡◌, true, false};
ghost use Rattle.sre_engine.specs.Terms.{code_of, asked_of};
ghost use Rattle.sre_engine.specs.Prefixed.{IsLast, FitsAt};

use sre_chars::string::StrDrive;
use sre_request::Request;

/// The last start at which the least width fits, if there is one.
#[inline(always)]
pub(crate) fn last_start<S: StrDrive>(req: &Request<'_, S>) -> Option<usize>
    ensures { IsLast (asked_of req.now) (code_of req.now) result }
{
    match req.pattern_codes().hints().width {
        None => Some(req.end()),
        Some(width) => req.end().checked_sub(width as usize),
    }
}

/// Whether a start is after the last one.
#[inline(always)]
pub(crate) fn is_past(last: Option<usize>, start: usize) -> bool
    ensures fits { result ≡ false → FitsAt last start }
    ensures past { result ≡ true → ¬ (FitsAt last start) }
{
    match last {
        None => true,
        Some(last) => start > last,
    }
}
