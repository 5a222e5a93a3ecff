//! Loops: `<REPEAT> <skip> <least count> <greatest count> <items>`, then MAX_UNTIL or MIN_UNTIL, to which the skip
//! leads.

ghost use Rattle.sre_model.specs.Grammar.{Opcode};
ghost use Rattle.sre_code.specs.Steps.{Gives, ItemAt, Closing};

use crate::code::error::CodeError;
use crate::code::step::{Part, Step};
use crate::code::words;
use sre_chars::constants::SreOpcode;

/// Reads the item, which opens its body.
#[tactic(auto, using(crate::proofs::ReadBodies::repeat_laws))]
pub fn repeat(words: &[u32], place: usize) -> Result<Step, CodeError>
    requires { Opcode words.now place SreOpcode.REPEAT }
    ensures { Gives words.now place (ItemAt words.now place) result }
{
    let end = words::skip(words, place + 1)?;
    let least = words::operand(words, place + 2)?;
    let greatest = words::operand(words, place + 3)?;
    if least > greatest {
        return Err(CodeError::BadCounts(place + 2));
    }
    Ok(Step::Opens {
        part: Part::Body { end, least },
        place: place + 4,
    })
}

/// The end of a body, if it is at `place`.
#[tactic(auto, using(crate::proofs::ReadBodies::until_laws))]
pub fn until(
    words: &[u32],
    place: usize,
    end: usize,
    least: u32,
    width: u32,
) -> Result<Option<Step>, CodeError>
    ensures { Closing words.now (Part.Body end least) place width result }
{
    if place != end {
        return Ok(None);
    }
    match words::opcode(words, place)? {
        SreOpcode::MAX_UNTIL => Ok(Some(Step::Past {
            place: place + 1,
            width: least.saturating_mul(width),
        })),
        SreOpcode::MIN_UNTIL => Ok(Some(Step::Past {
            place: place + 1,
            width: least.saturating_mul(width),
        })),
        _ => Err(CodeError::BadItem(place)),
    }
}
