//! Translates items, with the items nested in them.
//!
//! A pattern that covers an item has a match along each of its match paths. One that tries the paths in their order has
//! the first match path as its first match, so DFAs find spans and not only starts. No pattern does so for lookarounds,
//! back-references, conditionals, atomic groups, possessive repeats and some positions. None does so for a loop whose
//! body can be empty, since SRE ends such a loop differently. Counts must be within the limit `KEPT`. Over UTF-8, it
//! must be known which of all characters a test accepts.

ghost use Rattle.std.specs.Prelude.{◌≡◌, IfOk, Some};
ghost use Rattle.sre_patterns.specs.Terms.{meaning, empty, Tree, Opcode, HasTest, items_of, uni_of};
ghost use Rattle.sre_model.specs.Grammar.{WholeItems};
ghost use Rattle.sre_patterns.specs.Covers.{Covers, CoversStart, ExactTree};
ghost use Rattle.sre_patterns.specs.Patterns.{view_of, HasItems, HasItem, AtItems, AtItem, CoversFrontAt, HasRun};
ghost use Rattle.sre_patterns.specs.Patterns.{HasLoop, HasAtomic, HasCondition, HasBranch};
ghost use Rattle.sre_patterns.specs.Purposes.{Serves, ServesFor, ServesItem};

use crate::classes::{anything, end_of_test, pattern_of};
use crate::encoding::Encoding;
use crate::fault::Fault;
use crate::joining::{add, either, joined};
use crate::positions::{look_for, position_in};
use crate::repeats::{any_number, counts_at, greedy_loop, greedy_run, iterates, repeated};
use crate::task::{Purpose, Task, only_covers};
use crate::words::{at_code, item_opcode, skip, word};
use regex_class::Class;
use regex_hir::Hir;
use sre_chars::constants::SreOpcode;
use sre_code::Code;
use std::alloc::{AllocError, Global};

/// Limit on the nesting of items, the innermost included.
pub const DEPTH: u32 = 64;

/// The pattern of a part, and the address at which the part ends.
#[derive(Drop)]
pub(crate) struct Part {
    pub(crate) hir: Hir,
    pub(crate) end: usize,
}

/// Returns a pattern that covers the code: for each match path of the tree it has a match with the same start and end.
/// Returns `None` if items are nested deeper than `DEPTH`, and an error if an allocation failed. When either occurs is
/// not proved.
pub fn hir_of(alloc: Global, code: &Code<'_>, encoding: Encoding) -> Result<Option<Hir>, AllocError>
    ensures { IfOk result (λ o. (h : Hir) → o ≡ Some h → (t : Tree) → WholeItems (items_of code.now) t
        → Covers (view_of encoding) (uni_of code.now) (meaning h) t) }
{
    translated(alloc, code, encoding, Purpose::Cover { lazy: false })
}

/// Returns a pattern that has a match from the start of each match path of the tree. Where its matches end is
/// unrelated: it is lazy, and omits everything from the first back-reference on. `None` and errors are as for `hir_of`.
pub fn starts_of(
    alloc: Global,
    code: &Code<'_>,
    encoding: Encoding,
) -> Result<Option<Hir>, AllocError>
    ensures { IfOk result (λ o. (h : Hir) → o ≡ Some h → (t : Tree) → WholeItems (items_of code.now) t
        → CoversStart (view_of encoding) (uni_of code.now) (meaning h) t) }
{
    let end = code.items().len() - 1;
    match front(alloc, code, encoding, end) {
        Ok(hir) => Ok(Some(hir)),
        Err(Fault::Memory) => Err(AllocError),
        Err(_) => Ok(None),
    }
}

/// Returns a pattern that tries the match paths of the tree in their order: what follows the code is tried from the end
/// of each match path in turn, and from nowhere else. Returns `None` if no such pattern is known or items are nested
/// deeper than `DEPTH`, and an error if an allocation failed. When either occurs is not proved.
pub fn ways_of(
    alloc: Global,
    code: &Code<'_>,
    encoding: Encoding,
) -> Result<Option<Hir>, AllocError>
    ensures { IfOk result (λ o. (h : Hir) → o ≡ Some h → (t : Tree) → WholeItems (items_of code.now) t
        → ExactTree (view_of encoding) (uni_of code.now) (meaning h) t) }
{
    translated(alloc, code, encoding, Purpose::InOrder)
}

// The pattern of a code for a purpose.
fn translated(
    alloc: Global,
    code: &Code<'_>,
    encoding: Encoding,
    purpose: Purpose,
) -> Result<Option<Hir>, AllocError>
    ensures { IfOk result (λ o. (h : Hir) → o ≡ Some h → (t : Tree) → WholeItems (items_of code.now) t
        → ServesFor purpose (view_of encoding) (uni_of code.now) (meaning h) t) }
{
    let end = code.items().len() - 1;
    let task = Task {
        alloc,
        code: *code,
        encoding,
        purpose,
    };
    match sequence(&task, 0, end, DEPTH) {
        Ok(part) => Ok(Some(part.hir)),
        Err(Fault::Memory) => Err(AllocError),
        Err(_) => Ok(None),
    }
}

// The pattern of the first items, up to `end` or to a back-reference before it.
fn front(alloc: Global, code: &Code<'_>, encoding: Encoding, end: usize) -> Result<Hir, Fault>
    requires { HasItems (items_of code.now) 0 end }
    ensures { IfOk result (λ h.
        CoversFrontAt (view_of encoding) (uni_of code.now) (items_of code.now) 0 end (meaning h)) }
{
    let task = Task {
        alloc,
        code: *code,
        encoding,
        purpose: Purpose::Cover { lazy: true },
    };
    let mut parts: Vec<Hir> = Vec::new(alloc);
    let mut place = 0;
    'each: while place < end {
        let first = word(code, place);
        if first == SreOpcode::JUMP as u32 {
            break;
        }
        if is_reference(first) {
            break;
        }
        let Part { hir, end: behind } = item(&task, place, DEPTH)?;
        place = behind;
        add(task.purpose, &mut parts, hir)?;
    }
    Ok(joined(task.purpose, parts))
}

// Whether a code word is the opcode of a back-reference.
fn is_reference(word: u32) -> bool {
    word == SreOpcode::GROUPREF as u32
        || word == SreOpcode::GROUPREF_IGNORE as u32
        || word == SreOpcode::GROUPREF_LOC_IGNORE as u32
        || word == SreOpcode::GROUPREF_UNI_IGNORE as u32
}

// The pattern of the items from an address to `end`, or to a JUMP before it.
#[cycle(items)]
fn sequence(task: &Task<'_>, start: usize, end: usize, depth: u32) -> Result<Part, Fault>
    requires { HasItems (items_of task.now.code) start end }
    ensures { IfOk result (λ p. AtItems (items_of task.now.code) start end p.end (Serves task.now (meaning p.hir))) }
{
    let mut parts: Vec<Hir> = Vec::new(task.alloc);
    let mut place = start;
    'each: while place < end {
        if word(&task.code, place) == SreOpcode::JUMP as u32 {
            break;
        }
        let Part { hir, end: behind } = item(task, place, depth)?;
        place = behind;
        add(task.purpose, &mut parts, hir)?;
    }
    Ok(Part {
        hir: joined(task.purpose, parts),
        end: place,
    })
}

// The pattern of the item at an address.
#[cycle(items)]
fn item(task: &Task<'_>, place: usize, depth: u32) -> Result<Part, Fault>
    requires { HasItem (items_of task.now.code) place }
    ensures { IfOk result (λ p. AtItem (items_of task.now.code) place p.end (ServesItem task.now (meaning p.hir))) }
{
    if depth == 0 {
        return Err(Fault::TooDeep);
    }
    let depth = depth - 1;
    let opcode = item_opcode(&task.code, place);
    match opcode {
        SreOpcode::FAILURE => Ok(Part {
            hir: Hir::Bytes(Class::empty(task.alloc)),
            end: place + 1,
        }),
        SreOpcode::MARK => Ok(nothing(place + 2)),
        SreOpcode::AT => position(task, place),
        SreOpcode::BRANCH => branch(task, place, depth),
        SreOpcode::REPEAT | SreOpcode::POSSESSIVE_REPEAT => counted(task, place, depth),
        SreOpcode::REPEAT_ONE | SreOpcode::MIN_REPEAT_ONE | SreOpcode::POSSESSIVE_REPEAT_ONE => {
            run(task, place, opcode)
        }
        SreOpcode::ATOMIC_GROUP => atomic(task, place, depth),
        SreOpcode::ASSERT | SreOpcode::ASSERT_NOT => {
            only_covers(task.purpose)?;
            Ok(nothing(skip(&task.code, place, 1)))
        }
        SreOpcode::GROUPREF
        | SreOpcode::GROUPREF_IGNORE
        | SreOpcode::GROUPREF_LOC_IGNORE
        | SreOpcode::GROUPREF_UNI_IGNORE => {
            only_covers(task.purpose)?;
            Ok(Part {
                hir: any_number(task.alloc, anything(task.alloc, task.encoding)?)?,
                end: place + 2,
            })
        }
        SreOpcode::GROUPREF_EXISTS => condition(task, place, depth),
        _ => one(task, place),
    }
}

// The empty pattern, for an item that is ignored.
fn nothing(end: usize) -> Part
    ensures hir { meaning result.hir ≡ empty }
    ensures end { result.end ≡ end }
{
    Part {
        hir: Hir::Empty,
        end,
    }
}

// The pattern of the position at an address. It is empty if no assertion covers the position.
fn position(task: &Task<'_>, place: usize) -> Result<Part, Fault>
    requires opcode { Opcode (items_of task.now.code) place SreOpcode.AT }
    requires item { HasItem (items_of task.now.code) place }
    ensures { IfOk result (λ p. AtItem (items_of task.now.code) place p.end (ServesItem task.now (meaning p.hir))) }
{
    let number = at_code(&task.code, place);
    match look_for(task.purpose, position_in(number, task.encoding)) {
        Some(look) => Ok(Part {
            hir: Hir::Look(look),
            end: place + 2,
        }),
        None => {
            only_covers(task.purpose)?;
            Ok(nothing(place + 2))
        }
    }
}

// The pattern of the single-character test at an address.
fn one(task: &Task<'_>, place: usize) -> Result<Part, Fault>
    requires { HasTest (items_of task.now.code) place }
    ensures { IfOk result (λ p. AtItem (items_of task.now.code) place p.end (ServesItem task.now (meaning p.hir))) }
{
    let hir = pattern_of(task, place)?;
    Ok(Part {
        hir,
        end: end_of_test(&task.code, place),
    })
}

// The pattern of the single-character repeat at an address.
fn run(task: &Task<'_>, place: usize, opcode: SreOpcode) -> Result<Part, Fault>
    requires { HasRun (items_of task.now.code) place opcode }
    ensures { IfOk result (λ p. AtItem (items_of task.now.code) place p.end (ServesItem task.now (meaning p.hir))) }
{
    let end = skip(&task.code, place, 1);
    let counts = counts_at(task, place)?;
    let greedy = greedy_run(task.purpose, opcode)?;
    let hir = pattern_of(task, place + 4)?;
    Ok(Part {
        hir: repeated(task.alloc, counts, greedy, hir)?,
        end,
    })
}

// The pattern of the loop at an address, possessive or not.
#[cycle(items)]
fn counted(task: &Task<'_>, place: usize, depth: u32) -> Result<Part, Fault>
    requires { HasLoop (items_of task.now.code) place }
    ensures { IfOk result (λ p. AtItem (items_of task.now.code) place p.end (ServesItem task.now (meaning p.hir))) }
{
    let until = skip(&task.code, place, 1);
    let counts = counts_at(task, place)?;
    let greedy = greedy_loop(task, until)?;
    let body = sequence(task, place + 4, until, depth)?;
    if !iterates(task.purpose, &body.hir) {
        return Err(Fault::OutOfOrder);
    }
    Ok(Part {
        hir: repeated(task.alloc, counts, greedy, body.hir)?,
        end: until + 1,
    })
}

// The pattern of the atomic group at an address.
#[cycle(items)]
fn atomic(task: &Task<'_>, place: usize, depth: u32) -> Result<Part, Fault>
    requires { HasAtomic (items_of task.now.code) place }
    ensures { IfOk result (λ p. AtItem (items_of task.now.code) place p.end (ServesItem task.now (meaning p.hir))) }
{
    only_covers(task.purpose)?;
    let end = skip(&task.code, place, 1);
    let body = sequence(task, place + 2, end - 1, depth)?;
    Ok(Part { hir: body.hir, end })
}

// The pattern of the conditional at an address: either of its parts.
#[cycle(items)]
fn condition(task: &Task<'_>, place: usize, depth: u32) -> Result<Part, Fault>
    requires { HasCondition (items_of task.now.code) place }
    ensures { IfOk result (λ p. AtItem (items_of task.now.code) place p.end (ServesItem task.now (meaning p.hir))) }
{
    only_covers(task.purpose)?;
    let behind = skip(&task.code, place, 2);
    let Part { hir, end: stop } = sequence(task, place + 3, behind, depth)?;
    if stop == behind {
        return Ok(Part {
            hir: either(task.alloc, hir, Hir::Empty)?,
            end: behind,
        });
    }
    let end = skip(&task.code, stop, 1);
    let absent = sequence(task, behind, end, depth)?;
    Ok(Part {
        hir: either(task.alloc, hir, absent.hir)?,
        end,
    })
}

// The pattern of the branch at an address.
#[cycle(items)]
fn branch(task: &Task<'_>, place: usize, depth: u32) -> Result<Part, Fault>
    requires { HasBranch (items_of task.now.code) place }
    ensures { IfOk result (λ p. AtItem (items_of task.now.code) place p.end (ServesItem task.now (meaning p.hir))) }
{
    let words = task.code.items();
    let _length = words.len(); // a slice is short enough that no address overflows
    let mut all: Vec<Hir> = Vec::new(task.alloc);
    let mut at = place + 1;
    'alternative: loop {
        let long = word(&task.code, at);
        if long == 0 {
            break;
        }
        let behind = at + long as usize;
        let part = sequence(task, at + 1, behind - 2, depth)?;
        all.push(part.hir)?;
        at = behind;
    }
    Ok(Part {
        hir: Hir::Alternation(all),
        end: at + 1,
    })
}
