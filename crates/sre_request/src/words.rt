//! Single code words: of a request, at addresses that a proof knows to exist, and of a slice, where there may be none.

ghost use Rattle.std.specs.Prelude.{◌+◌, ◌<◌, ◌^◌, IfSome};
ghost use Rattle.sre_request.specs.Terms.{Word};
ghost use Rattle.sre_request.specs.Reads.{HasWordAt, WordAt};

use crate::Request;
use sre_chars::string::StrDrive;
use sre_code::operands;

/// The word at an address.
#[inline(always)]
pub fn word<S: StrDrive>(req: &Request<'_, S>, place: usize) -> u32
    requires { HasWordAt req.now place }
    ensures word { WordAt req.now place result }
    ensures room { place + 2 ^ 33 < 2 ^ 64 }
{
    operands::word(req.pattern_codes().items(), place)
}

/// The word at an offset from an address.
#[inline(always)]
pub fn operand<S: StrDrive>(req: &Request<'_, S>, place: usize, offset: usize) -> u32
    requires { HasWordAt req.now (place + offset) }
    ensures word { WordAt req.now (place + offset) result }
    ensures room { place + 2 ^ 33 < 2 ^ 64 }
{
    operands::operand(req.pattern_codes().items(), place, offset)
}

/// The word at an address, if there is one.
#[inline(always)]
pub fn word_at(words: &[u32], place: usize) -> Option<u32>
    ensures { IfSome result (λ w. Word words.now place w) }
{
    match words.get(place) {
        Some(word) => Some(*word),
        None => None,
    }
}
