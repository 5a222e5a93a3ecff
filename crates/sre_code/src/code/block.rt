//! The INFO block: `<INFO> <skip> <flags> <least width> <greatest width> ..`.
//!
//! Its skip leads past it. What follows the skip is read only for search hints (`claims`).

ghost use Rattle.sre_code.specs.Hints.{BlockAt};

use crate::code::error::CodeError;
use crate::code::words;
use sre_chars::constants::SreOpcode;

/// The length of the block in words, 0 if there is none.
pub fn length(words: &[u32]) -> Result<usize, CodeError>
    ensures { BlockAt words.now result }
{
    if words.is_empty() || words[0] != SreOpcode::INFO as u32 {
        return Ok(0);
    }
    let skip = words::operand(words, 1)?;
    if skip < 4 {
        return Err(CodeError::BadInfo(1));
    }
    let length = skip as usize + 1;
    if length >= words.len() {
        return Err(CodeError::BadInfo(1));
    }
    Ok(length)
}
