//! Atomic scopes. The skip of `<ATOMIC_GROUP> <skip> <items> <SUCCESS>` and of `<ASSERT> <skip> <back> <items>
//! <SUCCESS>`, also with ASSERT_NOT, leads past the SUCCESS. That of `<POSSESSIVE_REPEAT> <skip> <least count>
//! <greatest count> <items> <SUCCESS>` leads to it.

ghost use Rattle.sre_model.specs.Grammar.{Opcode};
ghost use Rattle.sre_code.specs.Steps.{Gives, ItemAt, LookAt, Closing};

use crate::code::error::CodeError;
use crate::code::step::{Part, Step};
use crate::code::words;
use sre_chars::constants::SreOpcode;

/// Reads the item, which opens its body.
#[tactic(auto, using(crate::proofs::ReadBodies::atomic_group_laws))]
pub fn atomic_group(words: &[u32], place: usize) -> Result<Step, CodeError>
    requires { Opcode words.now place SreOpcode.ATOMIC_GROUP }
    ensures { Gives words.now place (ItemAt words.now place) result }
{
    let tail = words::skip(words, place + 1)?;
    if tail < place + 3 {
        return Err(CodeError::BadSkip(place + 1));
    }
    Ok(Step::Opens {
        part: Part::Region {
            end: tail - 1,
            least: 1,
        },
        place: place + 2,
    })
}

/// Reads the item, which opens its body. The body's least width counts as often as the least count says.
#[tactic(auto, using(crate::proofs::ReadBodies::possessive_repeat_laws))]
pub fn possessive_repeat(words: &[u32], place: usize) -> Result<Step, CodeError>
    requires { Opcode words.now place SreOpcode.POSSESSIVE_REPEAT }
    ensures { Gives words.now place (ItemAt words.now place) result }
{
    let end = words::skip(words, place + 1)?;
    let least = words::operand(words, place + 2)?;
    let greatest = words::operand(words, place + 3)?;
    if least > greatest {
        return Err(CodeError::BadCounts(place + 2));
    }
    Ok(Step::Opens {
        part: Part::Region { end, least },
        place: place + 4,
    })
}

/// Reads the item, which opens its body. A lookaround has width 0.
#[tactic(auto, using(crate::proofs::ReadBodies::look_laws))]
pub fn look(words: &[u32], place: usize) -> Result<Step, CodeError>
    requires { LookAt words.now place }
    ensures { Gives words.now place (ItemAt words.now place) result }
{
    let tail = words::skip(words, place + 1)?;
    if tail < place + 4 {
        return Err(CodeError::BadSkip(place + 1));
    }
    Ok(Step::Opens {
        part: Part::Region {
            end: tail - 1,
            least: 0,
        },
        place: place + 3,
    })
}

/// The end of a body, if it is at `place`.
#[tactic(auto, using(crate::proofs::ReadBodies::end_laws))]
pub fn end(
    words: &[u32],
    place: usize,
    end: usize,
    least: u32,
    width: u32,
) -> Result<Option<Step>, CodeError>
    ensures { Closing words.now (Part.Region end least) place width result }
{
    if place != end {
        return Ok(None);
    }
    match words::opcode(words, place)? {
        SreOpcode::SUCCESS => Ok(Some(Step::Past {
            place: place + 1,
            width: least.saturating_mul(width),
        })),
        _ => Err(CodeError::BadItem(place)),
    }
}
