//! Tests of one character.

ghost use Rattle.sre_model.specs.Grammar.{Opcode, literal_opcode, not_literal_opcode, set_opcode};
ghost use Rattle.sre_code.specs.Reading.{FoldedAt, TestEnds};

use crate::code::error::CodeError;
use crate::code::{set, words};
use sre_chars::constants::SreOpcode;

/// `<CATEGORY> <category>`
#[tactic(auto, using(crate::proofs::ReadItems::category_exactly, crate::proofs::ReadItems::category_cut))]
fn category(words: &[u32], place: usize) -> Result<usize, CodeError>
    requires { Opcode words.now place SreOpcode.CATEGORY }
    ensures { TestEnds words.now place result }
{
    words::category(words, place + 1)?;
    Ok(place + 2)
}

/// `<LITERAL> <value>`, under each folding
#[tactic(auto, using(crate::proofs::ReadItems::literal_exactly, crate::proofs::ReadItems::literal_cut))]
fn literal(words: &[u32], place: usize) -> Result<usize, CodeError>
    requires { FoldedAt literal_opcode words.now place }
    ensures { TestEnds words.now place result }
{
    words::operand(words, place + 1)?;
    Ok(place + 2)
}

/// `<NOT_LITERAL> <value>`, under each folding
#[tactic(auto, using(crate::proofs::ReadItems::not_literal_laws))]
fn not_literal(words: &[u32], place: usize) -> Result<usize, CodeError>
    requires { FoldedAt not_literal_opcode words.now place }
    ensures { TestEnds words.now place result }
{
    words::operand(words, place + 1)?;
    Ok(place + 2)
}

/// `<IN> <skip> <set> <FAILURE>`, under each folding
fn in_set(words: &[u32], place: usize) -> Result<usize, CodeError>
    requires { FoldedAt set_opcode words.now place }
    ensures { TestEnds words.now place result }
{
    let tail = words::skip(words, place + 1)?;
    if tail < place + 3 {
        return Err(CodeError::BadSkip(place + 1));
    }
    let SreOpcode::FAILURE = words::opcode(words, tail - 1)? else {
        return Err(CodeError::BadSet(tail - 1));
    };
    set::items(words, place + 2, tail - 1)?;
    Ok(tail)
}

/// The address after the test of one character that begins at `place` with the opcode `code`.
#[tactic(auto, using(crate::proofs::ReadItems::test_laws))]
pub fn test(words: &[u32], place: usize, code: SreOpcode) -> Result<usize, CodeError>
    requires { Opcode words.now place code }
    ensures { TestEnds words.now place result }
{
    match code {
        SreOpcode::ANY => Ok(place + 1),
        SreOpcode::ANY_ALL => Ok(place + 1),
        SreOpcode::CATEGORY => category(words, place),
        SreOpcode::LITERAL
        | SreOpcode::LITERAL_IGNORE
        | SreOpcode::LITERAL_LOC_IGNORE
        | SreOpcode::LITERAL_UNI_IGNORE => literal(words, place),
        SreOpcode::NOT_LITERAL
        | SreOpcode::NOT_LITERAL_IGNORE
        | SreOpcode::NOT_LITERAL_LOC_IGNORE
        | SreOpcode::NOT_LITERAL_UNI_IGNORE => not_literal(words, place),
        SreOpcode::IN
        | SreOpcode::IN_IGNORE
        | SreOpcode::IN_LOC_IGNORE
        | SreOpcode::IN_UNI_IGNORE => in_set(words, place),
        _ => Err(CodeError::BadItem(place)),
    }
}
