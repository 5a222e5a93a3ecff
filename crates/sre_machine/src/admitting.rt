//! FIRST sets by address: the ASCII characters that may come next, computed in one pass.
//!
//! The set of an instruction follows from the sets of the addresses that it leads to. So one pass from the last word to
//! the first computes all. Nothing is assumed of the bytecode. The sets of an address hold for the instruction there,
//! if the machine can reach it, and for the alternatives whose length words begin there.
//!
//! At the end of an atomic scope or of a loop's body any character is allowed: the bytecode alone does not show what
//! follows.

ghost use Rattle.std.specs.Prelude.{◌≡◌, ◌+◌, ◌<◌, ◌≤◌, length, true, IfOk};
ghost use Rattle.sre_machine.specs.Terms.{Opcode, word, skip, contains, Instruction, Alternatives, Order, until_opcode};
ghost use Rattle.sre_machine.specs.Terms.{AdmitsOnly, TestsOnly, HasAll, RepeatsOnly, RunsOnly, AllAdmitted};
ghost use Rattle.sre_machine.specs.AskedLists.{AllTold};

use crate::set_members::{filled, members_at, set_members};
use sre_chars::constants::{SreCatCode, SreOpcode};
use sre_code::ascii_set::AsciiSet;
use sre_code::operands;
use sre_growth::Refusal;
use sre_request::Admitted;
use sre_request::ascii::ascii_taken;
use sre_request::words::word_at;
use std::alloc::Allocator;
use std::convert::TryFrom;

// Every ASCII character.
#[inline(always)]
fn all() -> AsciiSet
    ensures { HasAll (contains result) }
{
    AsciiSet::new().complement()
}

/// The target of the skip word at an address.
pub(crate) fn leads(words: &[u32], place: usize) -> usize
    requires { place ≤ length words.now + 4 }
    ensures { result ≡ skip words.now place }
{
    let _length = words.len(); // a slice has few items, so no address overflows
    place + operands::word_or_zero(words, place) as usize
}

// The FIRST set of the instruction at an address, from the list.
fn instruction_at(words: &[u32], list: &[Admitted], place: usize) -> AsciiSet
    requires { AllAdmitted words.now list.now }
    ensures { AdmitsOnly words.now (Instruction place) (contains result) }
{
    match list.get(place) {
        Some(admitted) => admitted.instruction,
        None => all(),
    }
}

// The FIRST set of the alternatives whose length words begin at an address, from the list.
fn alternatives_at(words: &[u32], list: &[Admitted], place: usize) -> AsciiSet
    requires { AllAdmitted words.now list.now }
    ensures { AdmitsOnly words.now (Alternatives place) (contains result) }
{
    match list.get(place) {
        Some(admitted) => admitted.alternatives,
        None => all(),
    }
}

// The ASCII characters that a test takes, if its words exist and show them, else all.
fn taken(words: &[u32], place: usize, opcode: SreOpcode) -> AsciiSet
    requires { Opcode words.now place opcode }
    ensures { TestsOnly words.now place (contains result) }
{
    let _length = words.len(); // a slice has few items, so no address overflows
    let Some(operand) = word_at(words, place + 1) else {
        return all();
    };
    let told = match opcode {
        SreOpcode::CATEGORY => match SreCatCode::try_from(operand) {
            Ok(_code) => ascii_taken(words, place),
            Err(_) => None,
        },
        SreOpcode::ANY
        | SreOpcode::LITERAL
        | SreOpcode::LITERAL_IGNORE
        | SreOpcode::LITERAL_UNI_IGNORE
        | SreOpcode::NOT_LITERAL => ascii_taken(words, place),
        _ => None,
    };
    match told {
        Some(taken) => taken,
        None => all(),
    }
}

// The ASCII characters that any test takes, with those of sets known from a list.
fn test(words: &[u32], members: &[Option<AsciiSet>], place: usize) -> AsciiSet
    requires { AllTold words.now members.now }
    ensures { TestsOnly words.now place (contains result) }
{
    let _length = words.len(); // a slice has few items, so no address overflows
    let Some(word) = word_at(words, place) else {
        return all();
    };
    let Ok(opcode) = SreOpcode::try_from(word) else {
        return all();
    };
    if opcode != SreOpcode::IN {
        return taken(words, place, opcode);
    }
    match members_at(words, members, place + 2) {
        Some(taken) => taken,
        None => all(),
    }
}

// The FIRST set of a repeat: what its test takes, and that of its tail if the least count is 0.
fn run(words: &[u32], members: &[Option<AsciiSet>], list: &[Admitted], place: usize) -> AsciiSet
    requires there { place < length words.now }
    requires told { AllTold words.now members.now }
    requires admitted { AllAdmitted words.now list.now }
    ensures { RunsOnly words.now place (contains result) }
{
    let _length = words.len(); // a slice has few items, so no address overflows
    let own = test(words, members, place + 4);
    if operands::word_or_zero(words, place + 2) > 0 {
        return own;
    }
    let tail = leads(words, place + 1);
    own.union(instruction_at(words, list, tail))
}

// The FIRST set of a loop: that of its body, and that after it if the least count is 0.
fn repeat(words: &[u32], list: &[Admitted], place: usize) -> AsciiSet
    requires there { place < length words.now }
    requires admitted { AllAdmitted words.now list.now }
    ensures { RepeatsOnly words.now place (contains result) }
{
    let _length = words.len(); // a slice has few items, so no address overflows
    let body = instruction_at(words, list, place + 4);
    if operands::word_or_zero(words, place + 2) > 0 {
        return body;
    }
    let end = leads(words, place + 1);
    body.union(instruction_at(words, list, end + 1))
}

// Whether MAX_UNTIL or MIN_UNTIL is at an address.
fn ends_bodies(words: &[u32], place: usize) -> bool
    ensures { result ≡ true → (o : Order) × Opcode words.now place (until_opcode o) }
{
    match word_at(words, place) {
        Some(word) => word == SreOpcode::MAX_UNTIL as u32 || word == SreOpcode::MIN_UNTIL as u32,
        None => false,
    }
}

// The FIRST set of a conditional: that of both parts.
fn condition(words: &[u32], list: &[Admitted], place: usize) -> AsciiSet
    requires there { place < length words.now }
    requires admitted { AllAdmitted words.now list.now }
    ensures present { AdmitsOnly words.now (Instruction (place + 3)) (contains result) }
    ensures absent { AdmitsOnly words.now (Instruction (place + 1 + word words.now (place + 2))) (contains result) }
{
    let _length = words.len(); // a slice has few items, so no address overflows
    let present = instruction_at(words, list, place + 3);
    let skip = operands::word_or_zero(words, place + 2) as usize;
    present.union(instruction_at(words, list, place + 1 + skip))
}

// The FIRST set of the instruction at an address, from those of the addresses that it leads to.
fn instruction(
    words: &[u32],
    members: &[Option<AsciiSet>],
    list: &[Admitted],
    place: usize,
) -> AsciiSet
    requires there { place < length words.now }
    requires told { AllTold words.now members.now }
    requires admitted { AllAdmitted words.now list.now }
    ensures { AdmitsOnly words.now (Instruction place) (contains result) }
{
    let Ok(opcode) = SreOpcode::try_from(operands::word(words, place)) else {
        return all();
    };
    match opcode {
        SreOpcode::FAILURE => AsciiSet::new(),
        SreOpcode::MARK | SreOpcode::AT | SreOpcode::ATOMIC_GROUP => {
            instruction_at(words, list, place + 2)
        }
        SreOpcode::JUMP | SreOpcode::ASSERT | SreOpcode::ASSERT_NOT => {
            instruction_at(words, list, leads(words, place + 1))
        }
        SreOpcode::BRANCH => alternatives_at(words, list, place + 1),
        SreOpcode::REPEAT_ONE | SreOpcode::MIN_REPEAT_ONE | SreOpcode::POSSESSIVE_REPEAT_ONE => {
            run(words, members, list, place)
        }
        SreOpcode::REPEAT => {
            if ends_bodies(words, leads(words, place + 1)) {
                repeat(words, list, place)
            } else {
                all()
            }
        }
        SreOpcode::POSSESSIVE_REPEAT => repeat(words, list, place),
        SreOpcode::GROUPREF_EXISTS => condition(words, list, place),
        SreOpcode::ANY
        | SreOpcode::LITERAL
        | SreOpcode::LITERAL_IGNORE
        | SreOpcode::LITERAL_UNI_IGNORE
        | SreOpcode::NOT_LITERAL
        | SreOpcode::CATEGORY
        | SreOpcode::IN => test(words, members, place),
        _ => all(),
    }
}

// The FIRST set of the alternatives whose length words begin at an address.
fn alternatives(words: &[u32], list: &[Admitted], place: usize) -> AsciiSet
    requires there { place < length words.now }
    requires admitted { AllAdmitted words.now list.now }
    ensures { AdmitsOnly words.now (Alternatives place) (contains result) }
{
    let length = operands::word(words, place) as usize;
    if length == 0 {
        return AsciiSet::new();
    }
    let first = instruction_at(words, list, place + 1);
    first.union(alternatives_at(words, list, place + length))
}

/// The FIRST sets of each address of the bytecode (`Code::items`), for every text: 32 bytes a word. For many texts of
/// one code, compute the list once and pass it to each request (`Request::with_admitted`). An iteration over a long
/// text computes its own.
///
/// # Errors
///
/// [`Refusal`] if an allocation fails.
pub fn admitted_by_place<A: Allocator + Copy>(
    alloc: A,
    words: &[u32],
) -> Result<Vec<Admitted, A>, Refusal<A>>
    ensures { IfOk result (λ list. AllAdmitted words.now list.items) }
{
    let members = set_members(alloc, words)?;
    let anything = Admitted {
        instruction: all(),
        alternatives: all(),
    };
    let mut list = filled(alloc, words.len(), anything)?;
    let mut place = words.len();
    'place: while place > 0 {
        place -= 1;
        list[place] = Admitted {
            instruction: instruction(words, &members, &list, place),
            alternatives: alternatives(words, &list, place),
        };
    }
    Ok(list)
}
