//! Conditionals. With one part: `<GROUPREF_EXISTS> <group> <skip> <items>`, whose skip leads past the items. With two:
//! `<GROUPREF_EXISTS> <group> <skip> <items> <JUMP> <skip> <items>`. Its first skip leads to the second items, and the
//! JUMP past them. The first skip counts from the group's word.

ghost use Rattle.std.specs.Prelude.{◌≡◌, ◌+◌, ℕ, List, Ok};
ghost use Rattle.sre_code.specs.Terms.{Opcode};
ghost use Rattle.sre_code.specs.Steps.{Gives, ItemAt, EndGives, Closes, Closing};

use crate::code::error::CodeError;
use crate::code::step::{Part, Step};
use crate::code::words;
use sre_chars::constants::SreOpcode;

/// Reads the item, which opens its first part.
#[tactic(auto, using(crate::proofs::ReadBranches::condition_laws))]
pub fn condition(words: &[u32], place: usize) -> Result<Step, CodeError>
    requires { Opcode words.now place SreOpcode.GROUPREF_EXISTS }
    ensures { Gives words.now place (ItemAt words.now place) result }
{
    let tail = words::skip(words, place + 2)? - 1;
    if tail < place + 3 {
        return Err(CodeError::BadSkip(place + 2));
    }
    Ok(Step::Opens {
        part: Part::There { tail },
        place: place + 3,
    })
}

/// Reads the JUMP after a first part of least width `width`; it opens the second part.
#[tactic(auto, using(crate::proofs::ReadBranches::else_exactly))]
fn jump(words: &[u32], place: usize, tail: usize, width: u32) -> Result<Step, CodeError>
    requires opcode { Opcode words.now place SreOpcode.JUMP }
    requires tail { place + 2 ≡ tail }
    ensures { EndGives words.now place (Closes words.now (Part.There tail) place width) result }
{
    let end = words::skip(words, place + 1)?;
    if end < tail {
        return Err(CodeError::BadSkip(place + 1));
    }
    Ok(Step::Opens {
        part: Part::Absent { end, least: width },
        place: tail,
    })
}

/// The end of a first part, if it is at `place`. Without a second part the conditional may match nothing.
#[tactic(auto, using(crate::proofs::ReadBranches::there_laws))]
pub fn there(
    words: &[u32],
    place: usize,
    tail: usize,
    width: u32,
) -> Result<Option<Step>, CodeError>
    ensures { Closing words.now (Part.There tail) place width result }
{
    if place == tail {
        return Ok(Some(Step::Past {
            place: tail,
            width: 0,
        }));
    }
    match words::opcode(words, place)? {
        SreOpcode::JUMP => {
            if place + 2 != tail {
                return Ok(None);
            }
            Ok(Some(jump(words, place, tail, width)?))
        }
        _ => Ok(None),
    }
}

/// The end of a second part, if it is at `place`.
#[tactic(auto, using(crate::proofs::ReadBranches::absent_laws))]
pub fn absent(place: usize, end: usize, least: u32, width: u32) -> Option<Step>
    ensures { (ws : List ℕ) → Closing ws (Part.Absent end least) place width (Ok result) }
{
    if place != end {
        return None;
    }
    Some(Step::Past {
        place: end,
        width: least.min(width),
    })
}
