//! Single words: operands, skips and the numbers of codes.

ghost use Rattle.sre_chars.specs.Numbers.{opcode_number, at_number, category_number};
ghost use Rattle.sre_code.specs.Reading.{OperandAt, SkipAt, CodeAt};

use crate::code::error::CodeError;
use sre_chars::constants::{SreAtCode, SreCatCode, SreOpcode};
use std::convert::TryFrom;

/// The word at `place`, or `Truncated` past the end.
pub fn operand(words: &[u32], place: usize) -> Result<u32, CodeError>
    ensures { OperandAt words.now place result }
{
    match words.get(place) {
        Some(word) => Ok(*word),
        None => Err(CodeError::Truncated(words.len())),
    }
}

/// The address to which the skip at `place` leads.
pub fn skip(words: &[u32], place: usize) -> Result<usize, CodeError>
    ensures { SkipAt words.now place result }
{
    let skip = operand(words, place)?;
    Ok(place + skip as usize)
}

/// The opcode at `place`.
#[tactic(auto, using(crate::proofs::ReadItems::opcode_laws))]
pub fn opcode(words: &[u32], place: usize) -> Result<SreOpcode, CodeError>
    ensures { CodeAt opcode_number words.now place result }
{
    let word = operand(words, place)?;
    match SreOpcode::try_from(word) {
        Ok(opcode) => Ok(opcode),
        Err(_) => Err(CodeError::UnknownOpcode(place)),
    }
}

/// The position code at `place`.
#[tactic(auto, using(crate::proofs::ReadItems::position_laws))]
pub fn position(words: &[u32], place: usize) -> Result<SreAtCode, CodeError>
    ensures { CodeAt at_number words.now place result }
{
    let word = operand(words, place)?;
    match SreAtCode::try_from(word) {
        Ok(position) => Ok(position),
        Err(_) => Err(CodeError::UnknownAt(place)),
    }
}

/// The category code at `place`.
#[tactic(auto, using(crate::proofs::ReadItems::category_laws))]
pub fn category(words: &[u32], place: usize) -> Result<SreCatCode, CodeError>
    ensures { CodeAt category_number words.now place result }
{
    let word = operand(words, place)?;
    match SreCatCode::try_from(word) {
        Ok(category) => Ok(category),
        Err(_) => Err(CodeError::UnknownCategory(place)),
    }
}
