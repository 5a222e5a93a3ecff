//! Sets: items, one after the other.

ghost use Rattle.std.specs.Prelude.{◌≤◌, ◌⊎◌, length, IsTrue, ◌↔◌};
ghost use Rattle.sre_code.specs.Terms.{Opcode, BytesBelow, BlocksBelow};
ghost use Rattle.sre_code.specs.Reading.{SetItemEnds, SetFills};

use crate::code::error::CodeError;
use crate::code::words;
use sre_chars::constants::SreOpcode;

/// `<LITERAL> <value>`
#[tactic(auto, using(crate::proofs::ReadSets::single_item, crate::proofs::ReadSets::single_cut))]
fn literal(words: &[u32], place: usize) -> Result<usize, CodeError>
    requires { Opcode words.now place SreOpcode.LITERAL }
    ensures { SetItemEnds words.now place result }
{
    words::operand(words, place + 1)?;
    Ok(place + 2)
}

/// `<RANGE> <low> <high>`, and the same with RANGE_UNI_IGNORE
#[tactic(auto, using(crate::proofs::ReadSets::range_item, crate::proofs::ReadSets::range_cut))]
fn range(words: &[u32], place: usize) -> Result<usize, CodeError>
    requires { Opcode words.now place SreOpcode.RANGE ⊎ Opcode words.now place SreOpcode.RANGE_UNI_IGNORE }
    ensures { SetItemEnds words.now place result }
{
    words::operand(words, place + 2)?;
    Ok(place + 3)
}

/// `<CATEGORY> <category>`
#[tactic(auto, using(crate::proofs::ReadSets::category_item, crate::proofs::ReadSets::category_cut))]
fn category(words: &[u32], place: usize) -> Result<usize, CodeError>
    requires { Opcode words.now place SreOpcode.CATEGORY }
    ensures { SetItemEnds words.now place result }
{
    words::category(words, place + 1)?;
    Ok(place + 2)
}

/// `<CHARSET> <8 words of bits>`
#[tactic(auto, using(crate::proofs::ReadSets::charset_item, crate::proofs::ReadSets::charset_cut))]
fn charset(words: &[u32], place: usize) -> Result<usize, CodeError>
    requires { Opcode words.now place SreOpcode.CHARSET }
    ensures { SetItemEnds words.now place result }
{
    words::operand(words, place + 8)?;
    Ok(place + 9)
}

/// Whether each byte of a word is below the count.
fn bytes_below(word: u32, count: u32) -> bool
    ensures { IsTrue result ↔ BytesBelow count word }
{
    word % 256 < count
        && word / 256 % 256 < count
        && word / 65536 % 256 < count
        && word / 16777216 % 256 < count
}

/// Whether each block number is below the count.
fn blocks_below(blocks: &[u32], count: u32) -> bool
    ensures { IsTrue result ↔ BlocksBelow count blocks.now }
{
    for block in blocks {
        if !bytes_below(*block, count) {
            return false;
        }
    }
    true
}

/// `<BIGCHARSET> <count> <64 words of block numbers> <8 words of bits for each block>`
#[tactic(auto, using(crate::proofs::ReadSets::big_charset_laws, sre_model::proofs::Opcodes::opcode_within))]
fn big_charset(words: &[u32], place: usize) -> Result<usize, CodeError>
    requires { Opcode words.now place SreOpcode.BIGCHARSET }
    ensures { SetItemEnds words.now place result }
{
    if words.len() < place + 66 {
        return Err(CodeError::Truncated(words.len()));
    }
    let count = words[place + 1];
    if !blocks_below(&words[place + 2..place + 66], count) {
        return Err(CodeError::BadSet(place));
    }
    let end = place + 66 + count as usize * 8;
    if words.len() < end {
        return Err(CodeError::Truncated(words.len()));
    }
    Ok(end)
}

/// The address after the set item at `place`.
#[tactic(auto, using(crate::proofs::ReadSets::item_laws))]
fn item(words: &[u32], place: usize) -> Result<usize, CodeError>
    ensures { SetItemEnds words.now place result }
{
    let code = words::opcode(words, place)?;
    match code {
        SreOpcode::LITERAL => literal(words, place),
        SreOpcode::RANGE | SreOpcode::RANGE_UNI_IGNORE => range(words, place),
        SreOpcode::CATEGORY => category(words, place),
        SreOpcode::CHARSET => charset(words, place),
        SreOpcode::BIGCHARSET => big_charset(words, place),
        SreOpcode::NEGATE => Ok(place + 1),
        _ => Err(CodeError::BadSet(place)),
    }
}

/// Checks that items of a set fill the words from `start` to `end`.
#[tactic(auto, using(crate::proofs::ReadSets::items_laws))]
pub fn items(words: &[u32], start: usize, end: usize) -> Result<(), CodeError>
    requires { end ≤ length words.now }
    ensures { SetFills words.now start end result }
{
    let mut place = start;
    'items: while place < end {
        place = item(words, place)?;
    }
    if place != end {
        return Err(CodeError::BadSet(end));
    }
    Ok(())
}
