//! Liveness analysis of captures: the slots that may be read from each address on, computed in one pass.
//!
//! A back-reference or a conditional reads the slots of its group. A MARK sets its slot, so the value before it is dead
//! there. Any other instruction reads what is read where it continues. So one pass from the last word to the first
//! computes all. Nothing is assumed of the bytecode. The result for an address holds for the instruction there, and for
//! the alternatives whose length words begin there.
//!
//! The live slots are a range, so a dead slot between live ones counts as live. A loop reads what its body reads and
//! what comes after it. At the end of a body only what comes after the loop counts; what a further body reads is in the
//! entry at the loop's start.

ghost use Rattle.std.specs.Prelude.{◌≡◌, ◌+◌, ◌<◌, ◌≤◌, length, true, Some, slice_get, IfOk};
ghost use Rattle.sre_machine.specs.Terms.{Opcode, word, skip, AreIdle, GroupLies, MarkLeads, GroupAsked};
ghost use Rattle.sre_machine.specs.Terms.{AlternativesAsk};
ghost use Rattle.sre_machine.specs.AskedLists.{range_of, any_marks, asks_of, AllAsked, AreMarks, HaveAll, LetGo};
ghost use Rattle.sre_machine.specs.AskedLists.{InstructionAsks};

use crate::admitting::leads;
use crate::set_members::fill;
use sre_chars::constants::SreOpcode;
use sre_code::operands;
use sre_growth::Refusal;
use std::alloc::Allocator;
use std::convert::TryFrom;

/// The slots from one on, up to another; none if the range is empty.
#[derive(Clone, Copy)]
pub(crate) struct AskedMarks {
    pub from: usize,
    pub end: usize,
}

/// The slots that may be read from an address on: by the instruction there, and by the alternatives whose length words
/// begin there.
#[derive(Clone, Copy)]
pub(crate) struct AskedPlace {
    pub instruction: AskedMarks,
    pub alternatives: AskedMarks,
}

// No slot.
#[inline(always)]
fn none() -> AskedMarks {
    AskedMarks { from: 0, end: 0 }
}

// Any slot of a group that a word can name.
#[inline(always)]
fn any() -> AskedMarks
    ensures { result ≡ any_marks }
{
    AskedMarks {
        from: 0,
        end: usize::MAX,
    }
}

// The two slots of a group.
fn of_group(group: u32) -> AskedMarks
    ensures { GroupLies (λ k. ⊥) (range_of result) group }
{
    let start = 2 * group as usize;
    AskedMarks {
        from: start,
        end: start + 2,
    }
}

// The least range that contains both. An empty one adds nothing, wherever it is.
fn union(one: AskedMarks, other: AskedMarks) -> AskedMarks
    ensures one { HaveAll result (range_of one) }
    ensures other { HaveAll result (range_of other) }
{
    if one.from >= one.end {
        return other;
    }
    if other.from >= other.end {
        return one;
    }
    AskedMarks {
        from: one.from.min(other.from),
        end: one.end.max(other.end),
    }
}

// The range without a slot, if that is its first or its last one.
fn without(marks: AskedMarks, mark: usize) -> AskedMarks
    ensures { LetGo mark result marks }
{
    if marks.from >= marks.end {
        return marks;
    }
    if mark == marks.from {
        return AskedMarks {
            from: mark + 1,
            end: marks.end,
        };
    }
    if mark == marks.end - 1 {
        return AskedMarks {
            from: marks.from,
            end: mark,
        };
    }
    marks
}

// The live slots of the instruction at an address, from the list.
fn instruction_at(list: &[AskedPlace], place: usize) -> AskedMarks
    ensures { HaveAll result ((asks_of list.now).instruction place) }
{
    match list.get(place) {
        Some(asked) => asked.instruction,
        None => any(),
    }
}

// The live slots of the alternatives whose length words begin at an address, from the list.
fn alternatives_at(list: &[AskedPlace], place: usize) -> AskedMarks
    ensures { HaveAll result ((asks_of list.now).alternatives place) }
{
    match list.get(place) {
        Some(asked) => asked.alternatives,
        None => any(),
    }
}

// The live slots of the instructions at two addresses.
fn both(list: &[AskedPlace], one: usize, other: usize) -> AskedMarks
    ensures one { HaveAll result ((asks_of list.now).instruction one) }
    ensures other { HaveAll result ((asks_of list.now).instruction other) }
{
    union(instruction_at(list, one), instruction_at(list, other))
}

// The live slots at a MARK.
#[tactic(auto, using(crate::proofs::Analyses::mark_leads))]
fn mark(words: &[u32], list: &[AskedPlace], place: usize) -> AskedMarks
    requires { place < length words.now }
    ensures { MarkLeads words.now (asks_of list.now) (range_of result) place }
{
    let _length = words.len(); // a slice has few items, so no address overflows
    let number = operands::word_or_zero(words, place + 1) as usize;
    without(instruction_at(list, place + 2), number)
}

// The live slots at a back-reference.
fn reference(words: &[u32], list: &[AskedPlace], place: usize) -> AskedMarks
    requires { place < length words.now }
    ensures group { GroupAsked (λ k. ⊥) words.now (range_of result) place }
    ensures next { HaveAll result ((asks_of list.now).instruction (place + 2)) }
{
    let _length = words.len(); // a slice has few items, so no address overflows
    let own = of_group(operands::word_or_zero(words, place + 1));
    union(own, instruction_at(list, place + 2))
}

// The live slots at a conditional.
#[tactic(auto, using(crate::proofs::Analyses::had_at))]
fn condition(words: &[u32], list: &[AskedPlace], place: usize) -> AskedMarks
    requires { place < length words.now }
    ensures group { GroupAsked (λ k. ⊥) words.now (range_of result) place }
    ensures absent { HaveAll result ((asks_of list.now).instruction (place + 1 + word words.now (place + 2))) }
    ensures present { HaveAll result ((asks_of list.now).instruction (place + 3)) }
{
    let _length = words.len(); // a slice has few items, so no address overflows
    let own = of_group(operands::word_or_zero(words, place + 1));
    let skip = operands::word_or_zero(words, place + 2) as usize;
    union(own, both(list, place + 1 + skip, place + 3))
}

// The live slots at an instruction that continues at one address and sets no slot: a test, at the address after its
// words.
fn onward(words: &[u32], list: &[AskedPlace], place: usize, opcode: SreOpcode) -> AskedMarks
    requires there { Opcode words.now place opcode }
    requires within { AreMarks list.now }
    ensures { InstructionAsks words.now list.now place result }
{
    let _length = words.len(); // a slice has few items, so no address overflows
    match opcode {
        SreOpcode::ANY | SreOpcode::ANY_ALL | SreOpcode::MAX_UNTIL | SreOpcode::MIN_UNTIL => {
            instruction_at(list, place + 1)
        }
        SreOpcode::AT
        | SreOpcode::CATEGORY
        | SreOpcode::LITERAL
        | SreOpcode::LITERAL_IGNORE
        | SreOpcode::LITERAL_LOC_IGNORE
        | SreOpcode::LITERAL_UNI_IGNORE
        | SreOpcode::NOT_LITERAL
        | SreOpcode::NOT_LITERAL_IGNORE
        | SreOpcode::NOT_LITERAL_LOC_IGNORE
        | SreOpcode::NOT_LITERAL_UNI_IGNORE => instruction_at(list, place + 2),
        SreOpcode::JUMP
        | SreOpcode::IN
        | SreOpcode::IN_IGNORE
        | SreOpcode::IN_LOC_IGNORE
        | SreOpcode::IN_UNI_IGNORE
        | SreOpcode::REPEAT_ONE
        | SreOpcode::MIN_REPEAT_ONE
        | SreOpcode::POSSESSIVE_REPEAT_ONE => instruction_at(list, leads(words, place + 1)),
        _ => any(),
    }
}

// The live slots at an instruction, from those of the addresses where it continues.
fn instruction(words: &[u32], list: &[AskedPlace], place: usize) -> AskedMarks
    requires there { place < length words.now }
    requires within { AreMarks list.now }
    ensures { InstructionAsks words.now list.now place result }
{
    let Ok(opcode) = SreOpcode::try_from(operands::word(words, place)) else {
        return any();
    };
    match opcode {
        SreOpcode::FAILURE | SreOpcode::SUCCESS => none(),
        SreOpcode::MARK => mark(words, list, place),
        SreOpcode::BRANCH => alternatives_at(list, place + 1),
        SreOpcode::REPEAT => both(list, leads(words, place + 1), place + 4),
        SreOpcode::POSSESSIVE_REPEAT => both(list, leads(words, place + 1) + 1, place + 4),
        SreOpcode::ATOMIC_GROUP => both(list, leads(words, place + 1), place + 2),
        SreOpcode::ASSERT | SreOpcode::ASSERT_NOT => {
            both(list, leads(words, place + 1), place + 3)
        }
        SreOpcode::GROUPREF
        | SreOpcode::GROUPREF_IGNORE
        | SreOpcode::GROUPREF_LOC_IGNORE
        | SreOpcode::GROUPREF_UNI_IGNORE => reference(words, list, place),
        SreOpcode::GROUPREF_EXISTS => condition(words, list, place),
        _ => onward(words, list, place, opcode),
    }
}

// The live slots of alternatives whose length words begin at an address.
fn alternatives(words: &[u32], list: &[AskedPlace], place: usize) -> AskedMarks
    requires { place < length words.now }
    ensures { AlternativesAsk words.now (asks_of list.now) (range_of result) place }
{
    let length = operands::word(words, place) as usize;
    if length == 0 {
        return none();
    }
    union(
        instruction_at(list, place + 1),
        alternatives_at(list, place + length),
    )
}

/// Lists the live slots of each address of the bytecode (`Code::items`): 32 bytes a word. The list's memory is reused.
///
/// # Errors
///
/// [`Refusal`] if an allocation fails.
fn ask_places<A: Allocator>(words: &[u32], list: &mut Vec<AskedPlace, A>) -> Result<(), Refusal<A>>
    ensures { IfOk result (λ _. AllAsked words.now list.new.items) }
{
    operands::know_words(words);
    let marks = any();
    let anything = AskedPlace {
        instruction: marks,
        alternatives: marks,
    };
    fill(list, words.len(), anything)?;
    let mut place = words.len();
    'place: while place > 0 {
        place -= 1;
        list[place] = AskedPlace {
            instruction: instruction(words, list.as_slice(), place),
            alternatives: alternatives(words, list.as_slice(), place),
        };
    }
    Ok(())
}

// Whether a range has no slot.
#[inline(always)]
fn is_empty(marks: AskedMarks) -> bool
    ensures { result ≡ true → marks.end ≤ marks.from }
{
    marks.from >= marks.end
}

/// Lists for each address of the bytecode whether no slot is live there. `asked` has the live slots meanwhile. The
/// memory of both lists is reused.
///
/// # Errors
///
/// [`Refusal`] if an allocation fails. What is listed by then is right.
pub(crate) fn list_idle<A: Allocator>(
    words: &[u32],
    asked: &mut Vec<AskedPlace, A>,
    idle: &mut Vec<bool, A>,
) -> Result<(), Refusal<A>>
    ensures { AreIdle words.now idle.new.items }
{
    idle.clear();
    ask_places(words, asked)?;
    let mut place = 0;
    'place: while place < asked.len() {
        let marks = instruction_at(asked.as_slice(), place);
        sre_growth::push(idle, is_empty(marks))?;
        place += 1;
    }
    Ok(())
}

/// Whether a list has `true` for an address.
#[inline(always)]
pub(crate) fn says_of(list: &[bool], place: usize) -> bool
    ensures { result ≡ true → slice_get list.now place ≡ Some true }
{
    match list.get(place) {
        Some(&says) => says,
        None => false,
    }
}
