//! Single-character tests, as classes of bytes or characters.

ghost use Rattle.std.specs.Prelude.{encode_utf8, ◌≡◌, ◌<◌, ℕ, IfOk, IfSome, Some, [], ◌∷◌};
ghost use Rattle.sre_patterns.specs.Terms.{literal, meaning, Test, Opcode, TestStands, HasTest, items_of, uni_of};
ghost use Rattle.sre_patterns.specs.Terms.{holds, Table, Plain};
ghost use Rattle.sre_model.specs.Tree.{AnyAll, Literal};
ghost use Rattle.sre_request.specs.AsciiSets.{TakesAscii};
ghost use Rattle.sre_patterns.specs.Covers.{CoversTest};
ghost use Rattle.sre_patterns.specs.Patterns.{view_of, AtTest, HasBelow, HasJust};
ghost use Rattle.sre_patterns.specs.Purposes.{ServesTest, HasFor};
ghost use Rattle.sre_patterns.specs.Settling.{SettledFrom};

use crate::encoding::Encoding;
use crate::fault::Fault;
use crate::settled::settled_from;
use crate::task::{Purpose, Task};
use crate::words::{operand, test_opcode};
use regex_class::Class;
use regex_hir::Hir;
use sre_chars::constants::SreOpcode;
use sre_code::Code;
use sre_code::ascii_set::AsciiSet;
use sre_request::Request;
use sre_request::ascii::ascii_taken;
use sre_request::one_character::{takes, test_end};
use std::alloc::{AllocError, Global};

// Ranges of characters, each with its last one.
type Ranges = Vec<(u32, u32)>;

// The number of characters: one more than the greatest.
const CHARACTERS: u32 = 0x11_0000;

// Each character below takes at most two bytes in UTF-8. Each is tested where a table decides.
const NEAR: u32 = 0x800;

// Up to which character each result of a test is computed to try match paths in order. Unicode's white space is below.
const FAR: u32 = 0x4000;

/// The pattern of the test at an address: the bytes of a literal, or a class. To try match paths in order, it is a
/// class of exactly the characters that the test accepts, if these are known.
pub(crate) fn pattern_of(task: &Task<'_>, place: usize) -> Result<Hir, Fault>
    requires { HasTest (items_of task.now.code) place }
    ensures { IfOk result (λ h. AtTest (items_of task.now.code) place (ServesTest task.now (meaning h))) }
{
    let opcode = test_opcode(&task.code, place);
    let SreOpcode::LITERAL = opcode else {
        return class_of(task, place, opcode);
    };
    let Purpose::Cover { lazy: _ } = task.purpose else {
        return class_of(task, place, opcode);
    };
    let value = operand(&task.code, place, 1);
    match literal_of(task.alloc, task.encoding, value)? {
        Some(hir) => Ok(hir),
        None => class_of(task, place, opcode),
    }
}

// The bytes of a literal. `None` if no byte or character has this number.
fn literal_of(alloc: Global, encoding: Encoding, value: u32) -> Result<Option<Hir>, AllocError>
    ensures { IfOk result (λ o. (h : Hir) → o ≡ Some h → (table : Table)
        → CoversTest (view_of encoding) table (meaning h) (Literal Plain value)) }
{
    match encoding {
        Encoding::Bytes => Ok(literal_byte(alloc, value)?),
        Encoding::Ascii => Ok(literal_byte(alloc, value)?),
        Encoding::Utf8 => Ok(literal_character(alloc, value)?),
    }
}

// One byte.
fn literal_byte(alloc: Global, value: u32) -> Result<Option<Hir>, AllocError>
    ensures { IfOk result (λ o. (h : Hir) → o ≡ Some h → meaning h ≡ literal (value ∷ [])) }
{
    if value >= 256 {
        return Ok(None);
    }
    let mut bytes: Vec<u8> = Vec::new(alloc);
    bytes.push(value as u8)?;
    Ok(Some(Hir::Literal(bytes)))
}

// The UTF-8 of one character.
fn literal_character(alloc: Global, value: u32) -> Result<Option<Hir>, AllocError>
    ensures { IfOk result (λ o. (h : Hir) → o ≡ Some h → meaning h ≡ literal (encode_utf8 value)) }
{
    let Some(character) = char::from_u32(value) else {
        return Ok(None);
    };
    let mut text = String::new(alloc);
    text.push(character)?;
    Ok(Some(Hir::Literal(text.into_bytes())))
}

// The class of the test at an address.
fn class_of(task: &Task<'_>, place: usize, opcode: SreOpcode) -> Result<Hir, Fault>
    requires code { Opcode (items_of task.now.code) place opcode }
    requires stands { HasTest (items_of task.now.code) place }
    ensures { IfOk result (λ h. AtTest (items_of task.now.code) place (ServesTest task.now (meaning h))) }
{
    match task.encoding {
        Encoding::Bytes => {
            let ranges = taken_at(task, place, opcode, 256)?;
            Ok(Hir::Bytes(Class::new(ranges)?))
        }
        Encoding::Ascii => {
            let ranges = taken_at(task, place, opcode, 128)?;
            Ok(Hir::Bytes(Class::new(ranges)?))
        }
        Encoding::Utf8 => {
            let ranges = ranges_of(task, place, opcode)?;
            Ok(Hir::Chars(Class::new(ranges)?))
        }
    }
}

// The characters that the test at an address accepts, as ranges. To try match paths in order they are exact, if the
// test's results are constant from `FAR` on.
fn ranges_of(task: &Task<'_>, place: usize, opcode: SreOpcode) -> Result<Ranges, Fault>
    requires code { Opcode (items_of task.now.code) place opcode }
    requires stands { HasTest (items_of task.now.code) place }
    ensures { IfOk result (λ r. AtTest (items_of task.now.code) place
        (λ t. HasFor task.now.purpose 1114112 (holds (uni_of task.now.code) t) r.items)) }
{
    let Purpose::InOrder = task.purpose else {
        return Ok(characters_of(task, place, opcode)?);
    };
    if opcode == SreOpcode::LITERAL {
        return Ok(taken_at(task, place, opcode, CHARACTERS)?);
    }
    let Some(from) = settled_from(&task.code, place, opcode) else {
        return Err(Fault::OutOfOrder);
    };
    if from > FAR {
        return Err(Fault::OutOfOrder);
    }
    Ok(taken_and_on(task, place, opcode, from, CHARACTERS)?)
}

// The characters that the test at an address accepts, as ranges. From `NEAR` on it may be all characters.
fn characters_of(task: &Task<'_>, place: usize, opcode: SreOpcode) -> Result<Ranges, AllocError>
    requires code { Opcode (items_of task.now.code) place opcode }
    requires stands { HasTest (items_of task.now.code) place }
    ensures { IfOk result (λ r. AtTest (items_of task.now.code) place
        (λ t. HasBelow 1114112 (holds (uni_of task.now.code) t) r.items)) }
{
    if let Some(from) = settled_from(&task.code, place, opcode) {
        if from <= NEAR {
            return Ok(taken_and_on(task, place, opcode, from, CHARACTERS)?);
        }
    }
    let mut ranges = taken_below(task, place, opcode, NEAR)?;
    ranges.push((NEAR, CHARACTERS - 1))?;
    Ok(ranges)
}

// Whether the test at an address accepts a character. `told` are the ASCII characters that it accepts, if these are
// known.
fn is_taken(
    code: &Code<'_>,
    told: Option<AsciiSet>,
    place: usize,
    opcode: SreOpcode,
    character: u32,
) -> bool
    requires code { Opcode (items_of code.now) place opcode }
    requires stands { HasTest (items_of code.now) place }
    requires told { IfSome told (λ set. TakesAscii (items_of code.now) place set) }
    ensures { (j : ℕ) (t : Test) → TestStands (items_of code.now) place j t
        → result ≡ holds (uni_of code.now) t character }
{
    if let Some(set) = told {
        if character < 128 {
            return set.contains(character);
        }
    }
    let req = Request::new(b"".as_slice(), 0, 0, *code, false);
    takes(&req, place, opcode, character)
}

// The numbers below a bound that the test at an address accepts. Its results are constant from `from` on.
fn taken_and_on(
    task: &Task<'_>,
    place: usize,
    opcode: SreOpcode,
    from: u32,
    bound: u32,
) -> Result<Ranges, AllocError>
    requires code { Opcode (items_of task.now.code) place opcode }
    requires stands { HasTest (items_of task.now.code) place }
    requires inside { from < bound }
    requires settled { AtTest (items_of task.now.code) place (λ t. SettledFrom from (holds (uni_of task.now.code) t)) }
    ensures { IfOk result (λ r. AtTest (items_of task.now.code) place
        (λ t. HasJust bound (holds (uni_of task.now.code) t) r.items)) }
{
    let mut ranges = taken_below(task, place, opcode, from)?;
    if is_taken(&task.code, None, place, opcode, from) {
        ranges.push((from, bound - 1))?;
    }
    Ok(ranges)
}

// The numbers below a bound that the test at an address accepts, each as a range.
fn taken_at(
    task: &Task<'_>,
    place: usize,
    opcode: SreOpcode,
    bound: u32,
) -> Result<Ranges, AllocError>
    requires code { Opcode (items_of task.now.code) place opcode }
    requires stands { HasTest (items_of task.now.code) place }
    ensures { IfOk result (λ r. AtTest (items_of task.now.code) place
        (λ t. HasJust bound (holds (uni_of task.now.code) t) r.items)) }
{
    let SreOpcode::LITERAL = opcode else {
        return match settled_from(&task.code, place, opcode) {
            Some(from) if from < bound => taken_and_on(task, place, opcode, from, bound),
            _ => taken_below(task, place, opcode, bound),
        };
    };
    let value = operand(&task.code, place, 1);
    let mut ranges: Ranges = Vec::new(task.alloc);
    if value < bound {
        ranges.push((value, value))?;
    }
    Ok(ranges)
}

// The numbers below a bound that the test at an address accepts, each as a range. Each number is tested.
fn taken_below(
    task: &Task<'_>,
    place: usize,
    opcode: SreOpcode,
    bound: u32,
) -> Result<Ranges, AllocError>
    requires code { Opcode (items_of task.now.code) place opcode }
    requires stands { HasTest (items_of task.now.code) place }
    ensures { IfOk result (λ r. AtTest (items_of task.now.code) place
        (λ t. HasJust bound (holds (uni_of task.now.code) t) r.items)) }
{
    let told = ascii_taken(task.code.items(), place);
    let mut ranges: Ranges = Vec::new(task.alloc);
    for character in 0..bound {
        if is_taken(&task.code, told, place, opcode, character) {
            ranges.push((character, character))?;
        }
    }
    Ok(ranges)
}

/// Any character.
pub(crate) fn anything(alloc: Global, encoding: Encoding) -> Result<Hir, AllocError>
    ensures { IfOk result (λ h. (table : Table) → CoversTest (view_of encoding) table (meaning h) AnyAll) }
{
    match encoding {
        Encoding::Bytes => Ok(Hir::Bytes(Class::from_ranges(alloc, &[(0, 255)])?)),
        Encoding::Ascii => Ok(Hir::Bytes(Class::from_ranges(alloc, &[(0, 127)])?)),
        Encoding::Utf8 => Ok(Hir::Chars(Class::from_ranges(alloc, &[(0, 0x10_FFFF)])?)),
    }
}

/// The address after the test at an address.
pub(crate) fn end_of_test(code: &Code<'_>, place: usize) -> usize
    requires { HasTest (items_of code.now) place }
    ensures { (j : ℕ) (t : Test) → TestStands (items_of code.now) place j t → result ≡ j }
{
    let req = Request::new(b"".as_slice(), 0, 0, *code, false);
    test_end(&req, place, test_opcode(code, place))
}
