//! Open parts: what closes each of them.

ghost use Rattle.sre_code.specs.Steps.{Closing};

use crate::code::error::CodeError;
use crate::code::step::{Bounds, Part, Step};
use crate::code::{branch, condition, region, repeat, words};
use sre_chars::constants::SreOpcode;

/// Reads the SUCCESS that is the last word.
#[tactic(auto, using(crate::proofs::ReadBranches::whole_laws))]
fn whole(words: &[u32], place: usize, width: u32) -> Result<Option<Step>, CodeError>
    ensures { Closing words.now Part.Whole place width result }
{
    match words::opcode(words, place)? {
        SreOpcode::SUCCESS => {
            if place + 1 != words.len() {
                return Err(CodeError::TrailingWords(place + 1));
            }
            Ok(Some(Step::Past {
                place: place + 1,
                width,
            }))
        }
        _ => Ok(None),
    }
}

/// The step that closes the part at `place`, where its items so far have the least width `width`. `None` if the part
/// goes on.
pub fn close(words: &[u32], place: usize, part: Part, width: u32) -> Result<Option<Step>, CodeError>
    ensures { Closing words.now part place width result }
{
    match part {
        Part::Whole => whole(words, place, width),
        Part::Alternative { end, tail, least } => {
            branch::alternative(words, place, Bounds { end, tail }, least, width)
        }
        Part::Body { end, least } => repeat::until(words, place, end, least, width),
        Part::Region { end, least } => region::end(words, place, end, least, width),
        Part::There { tail } => condition::there(words, place, tail, width),
        Part::Absent { end, least } => Ok(condition::absent(place, end, least, width)),
    }
}
