//! Items, by their opcodes.

ghost use Rattle.sre_model.specs.Grammar.{Opcode, reference_opcode};
ghost use Rattle.sre_code.specs.Reading.{FoldedAt};
ghost use Rattle.sre_code.specs.Steps.{Gives, ItemAt, ItemGives, OnlyTests, RunAt};

use crate::code::error::CodeError;
use crate::code::step::Step;
use crate::code::{branch, character, condition, region, repeat, words};
use sre_chars::constants::SreOpcode;

/// `<AT> <position>`
#[tactic(auto, using(crate::proofs::ReadItems::at_exactly, crate::proofs::ReadItems::at_cut))]
fn at(words: &[u32], place: usize) -> Result<Step, CodeError>
    requires { Opcode words.now place SreOpcode.AT }
    ensures { Gives words.now place (ItemAt words.now place) result }
{
    words::position(words, place + 1)?;
    Ok(Step::Past {
        place: place + 2,
        width: 0,
    })
}

/// `<MARK> <number>`
#[tactic(auto, using(crate::proofs::ReadItems::mark_exactly, crate::proofs::ReadItems::mark_cut))]
fn mark(words: &[u32], place: usize) -> Result<Step, CodeError>
    requires { Opcode words.now place SreOpcode.MARK }
    ensures { Gives words.now place (ItemAt words.now place) result }
{
    words::operand(words, place + 1)?;
    Ok(Step::Past {
        place: place + 2,
        width: 0,
    })
}

/// `<GROUPREF> <group>`, under each folding
#[tactic(auto, using(crate::proofs::ReadItems::reference_exactly, crate::proofs::ReadItems::reference_cut))]
fn reference(words: &[u32], place: usize) -> Result<Step, CodeError>
    requires { FoldedAt reference_opcode words.now place }
    ensures { Gives words.now place (ItemAt words.now place) result }
{
    words::operand(words, place + 1)?;
    Ok(Step::Past {
        place: place + 2,
        width: 0,
    })
}

/// `<REPEAT_ONE> <skip> <least count> <greatest count> <test> <SUCCESS>`, also with MIN_REPEAT_ONE and
/// POSSESSIVE_REPEAT_ONE
fn run(words: &[u32], place: usize) -> Result<Step, CodeError>
    requires { RunAt words.now place }
    ensures { Gives words.now place (ItemAt words.now place) result }
{
    let tail = words::skip(words, place + 1)?;
    let low = words::operand(words, place + 2)?;
    let high = words::operand(words, place + 3)?;
    if low > high {
        return Err(CodeError::BadCounts(place + 2));
    }
    let test = words::opcode(words, place + 4)?;
    let end = character::test(words, place + 4, test)?;
    let SreOpcode::SUCCESS = words::opcode(words, end)? else {
        return Err(CodeError::BadItem(end));
    };
    if tail != end + 1 {
        return Err(CodeError::BadSkip(place + 1));
    }
    Ok(Step::Past {
        place: tail,
        width: low,
    })
}

/// A test of one character with the opcode `code`.
#[tactic(auto, using(crate::proofs::ReadItems::one_exactly, crate::proofs::ReadItems::one_nowhere))]
fn one(words: &[u32], place: usize, code: SreOpcode) -> Result<Step, CodeError>
    requires opcode { Opcode words.now place code }
    requires only { OnlyTests words.now place }
    ensures { Gives words.now place (ItemAt words.now place) result }
{
    Ok(Step::Past {
        place: character::test(words, place, code)?,
        width: 1,
    })
}

/// Reads the item at `place`.
#[tactic(auto, using(crate::proofs::ReadBodies::item_laws))]
pub fn item(words: &[u32], place: usize) -> Result<Step, CodeError>
    ensures { ItemGives words.now place result }
{
    let code = words::opcode(words, place)?;
    match code {
        SreOpcode::FAILURE => Ok(Step::Past {
            place: place + 1,
            width: 0,
        }),
        SreOpcode::AT => at(words, place),
        SreOpcode::MARK => mark(words, place),
        SreOpcode::BRANCH => branch::branch(words, place),
        SreOpcode::REPEAT_ONE => run(words, place),
        SreOpcode::MIN_REPEAT_ONE => run(words, place),
        SreOpcode::POSSESSIVE_REPEAT_ONE => run(words, place),
        SreOpcode::REPEAT => repeat::repeat(words, place),
        SreOpcode::POSSESSIVE_REPEAT => region::possessive_repeat(words, place),
        SreOpcode::ATOMIC_GROUP => region::atomic_group(words, place),
        SreOpcode::ASSERT => region::look(words, place),
        SreOpcode::ASSERT_NOT => region::look(words, place),
        SreOpcode::GROUPREF
        | SreOpcode::GROUPREF_IGNORE
        | SreOpcode::GROUPREF_LOC_IGNORE
        | SreOpcode::GROUPREF_UNI_IGNORE => reference(words, place),
        SreOpcode::GROUPREF_EXISTS => condition::condition(words, place),
        SreOpcode::INFO => Err(CodeError::BadInfo(place)),
        _ => one(words, place, code),
    }
}
