//! Positions of AT instructions, as assertions (`Look`) of the kit's patterns.

ghost use Rattle.std.specs.Prelude.{◌≡◌};
ghost use Rattle.sre_patterns.specs.Looks as looks;
ghost use Rattle.sre_patterns.specs.Patterns as patterns;
ghost use Rattle.sre_patterns.specs.Purposes as purposes;

use crate::encoding::Encoding;
use crate::task::Purpose;
use regex_hir::Look;
use sre_chars::constants::SreAtCode;

/// An equivalent position for texts of this encoding. In ASCII all tables have the same word characters.
pub(crate) fn position_in(code: SreAtCode, encoding: Encoding) -> SreAtCode
    ensures { result ≡ patterns.position_in encoding code }
{
    let Encoding::Ascii = encoding else {
        return code;
    };
    match code {
        SreAtCode::UNI_BOUNDARY => SreAtCode::BOUNDARY,
        SreAtCode::UNI_NON_BOUNDARY => SreAtCode::NON_BOUNDARY,
        _ => code,
    }
}

/// An assertion for the position: of a pattern that tries match paths in order, one that holds exactly there.
pub(crate) fn look_for(purpose: Purpose, code: SreAtCode) -> Option<Look>
    ensures { result ≡ purposes.look_for purpose code }
{
    match purpose {
        Purpose::Cover { lazy: _ } => look_of(code),
        Purpose::InOrder => exact_look(code),
    }
}

// An assertion that holds wherever the position does. `None` if a Unicode table decides what a word character is.
fn look_of(code: SreAtCode) -> Option<Look>
    ensures { result ≡ looks.look_of code }
{
    match code {
        SreAtCode::BEGINNING | SreAtCode::BEGINNING_STRING => Some(Look::Start),
        SreAtCode::BEGINNING_LINE => Some(Look::StartLf),
        SreAtCode::END_STRING => Some(Look::End),
        SreAtCode::END | SreAtCode::END_LINE => Some(Look::EndLf),
        SreAtCode::BOUNDARY | SreAtCode::LOC_BOUNDARY => Some(Look::WordAscii),
        SreAtCode::NON_BOUNDARY | SreAtCode::LOC_NON_BOUNDARY => Some(Look::WordAsciiNegate),
        SreAtCode::UNI_BOUNDARY | SreAtCode::UNI_NON_BOUNDARY => None,
    }
}

// An assertion that holds exactly where the position does. `None` if there is none, or if a Unicode table decides what
// a word character is.
fn exact_look(code: SreAtCode) -> Option<Look>
    ensures { result ≡ looks.exact_look code }
{
    match code {
        SreAtCode::BEGINNING | SreAtCode::BEGINNING_STRING => Some(Look::Start),
        SreAtCode::BEGINNING_LINE => Some(Look::StartLf),
        SreAtCode::END_STRING => Some(Look::End),
        SreAtCode::END_LINE => Some(Look::EndLf),
        SreAtCode::BOUNDARY | SreAtCode::LOC_BOUNDARY => Some(Look::WordAscii),
        SreAtCode::END => None, // it also holds before a final line break
        SreAtCode::NON_BOUNDARY | SreAtCode::LOC_NON_BOUNDARY => None, // `EmptyRule` can exclude it on an empty text
        SreAtCode::UNI_BOUNDARY | SreAtCode::UNI_NON_BOUNDARY => None,
    }
}
