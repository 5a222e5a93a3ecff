//! Branches: `<BRANCH>`, the alternatives as `<length> <items> <JUMP> <skip>`, then 0 instead of a further length. Each
//! JUMP leads past that 0.

ghost use Rattle.std.specs.Prelude.{◌≡◌};
ghost use Rattle.sre_code.specs.Terms.{Opcode};
ghost use Rattle.sre_code.specs.Steps.{Gives, ItemAt, EndGives, BoundsAt, MoreAt, Closes, Closing};

use crate::code::error::CodeError;
use crate::code::step::{Bounds, Part, Step};
use crate::code::words;
use sre_chars::constants::SreOpcode;

/// The bounds of the alternative whose length is at `place`.
#[tactic(auto, using(crate::proofs::ReadBranches::bounds_laws))]
fn bounds(words: &[u32], place: usize) -> Result<Bounds, CodeError>
    ensures { BoundsAt words.now place result }
{
    let next = words::skip(words, place)?;
    if next < place + 3 {
        return Err(CodeError::BadItem(place));
    }
    let tail = words::skip(words, next - 1)?;
    Ok(Bounds {
        end: next - 2,
        tail,
    })
}

/// Reads the item, which opens its first alternative.
#[tactic(auto, using(crate::proofs::ReadBranches::branch_exactly, crate::proofs::ReadBranches::branch_nowhere))]
pub fn branch(words: &[u32], place: usize) -> Result<Step, CodeError>
    requires { Opcode words.now place SreOpcode.BRANCH }
    ensures { Gives words.now place (ItemAt words.now place) result }
{
    let Bounds { end, tail } = bounds(words, place + 1)?;
    Ok(Step::Opens {
        part: Part::Alternative {
            end,
            tail,
            least: u32::MAX,
        },
        place: place + 2,
    })
}

/// What follows an alternative, from the next length on.
#[tactic(auto, using(crate::proofs::ReadBranches::another_laws))]
fn another(words: &[u32], place: usize, tail: usize, least: u32) -> Result<Step, CodeError>
    ensures { EndGives words.now place (MoreAt words.now place tail least) result }
{
    if words::operand(words, place)? == 0 {
        if tail != place + 1 {
            return Err(CodeError::BadSkip(place));
        }
        return Ok(Step::Past {
            place: tail,
            width: least,
        });
    }
    let next = bounds(words, place)?;
    if next.tail != tail {
        return Err(CodeError::BadSkip(place));
    }
    Ok(Step::Opens {
        part: Part::Alternative {
            end: next.end,
            tail,
            least,
        },
        place: place + 1,
    })
}

/// Reads the JUMP at the end of an alternative, and what follows.
#[tactic(auto, using(crate::proofs::ReadBranches::jump_laws))]
fn jump(
    words: &[u32],
    place: usize,
    bounds: Bounds,
    least: u32,
    width: u32,
) -> Result<Step, CodeError>
    requires { place ≡ bounds.end }
    ensures { EndGives words.now place
        (Closes words.now (Part.Alternative bounds.end bounds.tail least) place width) result }
{
    let SreOpcode::JUMP = words::opcode(words, place)? else {
        return Err(CodeError::BadItem(place));
    };
    if words::skip(words, place + 1)? != bounds.tail {
        return Err(CodeError::BadSkip(place + 1));
    }
    another(words, place + 2, bounds.tail, least.min(width))
}

/// The end of an alternative, if it is at `place`.
#[tactic(auto, using(crate::proofs::ReadBranches::alternative_end))]
pub fn alternative(
    words: &[u32],
    place: usize,
    bounds: Bounds,
    least: u32,
    width: u32,
) -> Result<Option<Step>, CodeError>
    ensures { Closing words.now (Part.Alternative bounds.end bounds.tail least) place width result }
{
    if place != bounds.end {
        return Ok(None);
    }
    Ok(Some(jump(words, place, bounds, least, width)?))
}
