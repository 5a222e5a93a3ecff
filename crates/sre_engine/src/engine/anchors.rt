//! Codes that match at the start of the text only.

ghost use Rattle.std.specs.Prelude.{◌≡◌};
ghost use Rattle.sre_engine.specs.Terms.{Tree, WholeItems, is_anchored, run_of};

use sre_chars::constants::{SreAtCode, SreOpcode};
use sre_chars::string::StrDrive;
use sre_code::operands::word;
use sre_request::Request;

/// Whether a code's first item is a position code that holds only at position 0.
#[inline(always)]
pub(crate) fn is_anchored<S: StrDrive>(req: &Request<'_, S>) -> bool
    ensures { (t : Tree) → WholeItems (run_of req.now).words t → result ≡ is_anchored t }
{
    let words = req.pattern_codes().items();
    if word(words, 0) != SreOpcode::AT as u32 {
        return false;
    }
    let code = word(words, 1);
    code == SreAtCode::BEGINNING as u32 || code == SreAtCode::BEGINNING_STRING as u32
}
