//! Branches: `BRANCH length body JUMP skip ... 0`.
//!
//! The character at the cursor is read once for all alternatives. An alternative that must begin with another character
//! is skipped. Of one that begins with a test, only the rest is left. A choice is saved only if an alternative after
//! the first may match. At the end of the range no character decides, so each alternative is tried.
//!
//! If the request carries FIRST sets, an ASCII character is looked up there. Then the words of an alternative are read
//! only if it may match. An empty list excludes nothing.

ghost use Rattle.std.specs.Prelude.{◌≡◌, ℕ, ◌+◌, ◌<◌, ◌^◌, true, false, IfOk, IfSome, MatchOption};
ghost use Rattle.sre_machine.specs.Terms.{Test, word, Instruction, Alternatives, Point, Chooses, Exhausted};
ghost use Rattle.sre_machine.specs.Terms.{begins_test, end_of, run_of, OpcodeAt, TestAt, TestStandsAt, test_takes};
ghost use Rattle.sre_machine.specs.Terms.{character_at, YieldsTo, contains};
ghost use Rattle.sre_turns.specs.Admitting.{IsOutside};
ghost use Rattle.sre_machine.specs.Turns.{At, Turn, AtPoint, ContinuesTo, ReadAt, RefusesAt, TurnAt};

use crate::machine::{choose, opcode};
use sre_board::Board;
use sre_chars::constants::SreOpcode;
use sre_chars::string::{StrDrive, StringCursor};
use sre_code::ascii_set::AsciiSet;
use sre_growth::Refusal;
use sre_request::one_character::{takes, test_end};
use sre_request::text::read;
use sre_request::words::{operand, word};
use sre_request::{Request, one_character};
use sre_turns::{Next, Point};
use std::alloc::Allocator;

// Whether a test of one character does not take the one at the cursor.
#[inline(always)]
fn misses<S: StrDrive>(
    req: &Request<'_, S>,
    opcode: SreOpcode,
    place: usize,
    character: u32,
    cursor: StringCursor,
) -> bool
    requires opcode { OpcodeAt req.now place opcode }
    requires tests { begins_test opcode ≡ true }
    requires stands { At req.now place cursor }
    requires inside { cursor.position < end_of req.now }
    requires character { character ≡ character_at req.now cursor.position }
    ensures { result ≡ true → RefusesAt req.now place cursor.position }
{
    !takes(req, place, opcode, character)
}

// Whether a test may take a character. For a test that is rare in repeats it is `true` without a test.
#[inline(always)]
fn may_take<S: StrDrive>(req: &Request<'_, S>, place: usize, character: u32) -> bool
    requires { TestAt req.now place }
    ensures { result ≡ false → (j : ℕ) (t : Test) → TestStandsAt req.now place j t
        → test_takes req.now t character ≡ false }
{
    match one_character::opcode(req, place) {
        SreOpcode::IN => takes(req, place, SreOpcode::IN, character),
        SreOpcode::LITERAL => takes(req, place, SreOpcode::LITERAL, character),
        SreOpcode::NOT_LITERAL => takes(req, place, SreOpcode::NOT_LITERAL, character),
        _ => true,
    }
}

// Whether a repeat that may not be empty has no first character.
#[inline(always)]
fn misses_run<S: StrDrive>(
    req: &Request<'_, S>,
    place: usize,
    character: u32,
    cursor: StringCursor,
) -> bool
    requires opcode { OpcodeAt req.now place SreOpcode.REPEAT_ONE }
    requires stands { At req.now place cursor }
    requires inside { cursor.position < end_of req.now }
    requires character { character ≡ character_at req.now cursor.position }
    ensures { result ≡ true → RefusesAt req.now place cursor.position }
{
    let least = operand(req, place, 2);
    if least == 0 {
        return false;
    }
    !may_take(req, place + 4, character)
}

// Whether an instruction fails because it is a test or a repeat, after MARKs, that does not take the character at the
// cursor.
#[inline(never)]
fn begins_otherwise<S: StrDrive>(
    req: &Request<'_, S>,
    start: usize,
    character: u32,
    cursor: StringCursor,
) -> bool
    requires stands { At req.now start cursor }
    requires inside { cursor.position < end_of req.now }
    requires character { character ≡ character_at req.now cursor.position }
    ensures { result ≡ true → RefusesAt req.now start cursor.position }
{
    let mut place = start;
    macro_rules! by_opcode {
        ($($test:ident)*) => {
            'mark: loop {
                match opcode(req, place, cursor) {
                    SreOpcode::MARK => {
                        let _number = operand(req, place, 1);
                        place += 2;
                    }
                    SreOpcode::REPEAT_ONE => return misses_run(req, place, character, cursor),
                    $(SreOpcode::$test => {
                        return misses(req, SreOpcode::$test, place, character, cursor);
                    })*
                    _ => return false,
                }
            }
        };
    }
    by_opcode!(LITERAL LITERAL_IGNORE LITERAL_UNI_IGNORE IN IN_UNI_IGNORE)
}

// Whether a character is ASCII and not in a set.
#[inline(always)]
fn is_outside(set: AsciiSet, character: u32) -> bool
    ensures { result ≡ true → IsOutside (contains set) character }
{
    character < 128 && !set.contains(character)
}

// Whether the instruction at an address fails before a character, by FIRST sets.
#[inline(always)]
fn bars<S: StrDrive>(
    req: &Request<'_, S>,
    place: usize,
    character: u32,
    cursor: StringCursor,
) -> bool
    requires { character ≡ character_at req.now cursor.position }
    ensures { result ≡ true → RefusesAt req.now place cursor.position }
{
    match req.admitted().get(place) {
        Some(admitted) => is_outside(admitted.instruction, character),
        None => false,
    }
}

// Whether the alternatives from a length word on fail before a character, by FIRST sets.
#[inline(always)]
fn bars_alternatives<S: StrDrive>(
    req: &Request<'_, S>,
    place: usize,
    character: u32,
    cursor: StringCursor,
) -> bool
    requires { character ≡ character_at req.now cursor.position }
    ensures { result ≡ true → Exhausted (run_of req.now) (Alternatives place) cursor.position }
{
    match req.admitted().get(place) {
        Some(admitted) => is_outside(admitted.alternatives, character),
        None => false,
    }
}

// Where the machine continues: an instruction's address, and a cursor.
#[derive(Clone, Copy)]
struct Onward {
    place: usize,
    cursor: StringCursor,
}

// The address and cursor after a test of one character, if it takes the one at the cursor.
#[inline(always)]
fn behind_test<S: StrDrive>(
    req: &Request<'_, S>,
    opcode: SreOpcode,
    place: usize,
    character: u32,
    after: StringCursor,
    cursor: StringCursor,
) -> Option<Onward>
    requires opcode { OpcodeAt req.now place opcode }
    requires tests { begins_test opcode ≡ true }
    requires stands { At req.now place cursor }
    requires read { ReadAt req.now cursor character after }
    ensures { MatchOption result (RefusesAt req.now place cursor.position)
        (λ x. ContinuesTo req.now (Instruction place) cursor (Instruction x.place) x.cursor) }
{
    if takes(req, place, opcode, character) {
        Some(Onward {
            place: test_end(req, place, opcode),
            cursor: after,
        })
    } else {
        None
    }
}

// The target of a JUMP if there is one at an address, else the address.
#[inline(always)]
fn behind_jump<S: StrDrive>(req: &Request<'_, S>, place: usize, cursor: StringCursor) -> usize
    requires { At req.now place cursor }
    ensures { ContinuesTo req.now (Instruction place) cursor (Instruction result) cursor }
{
    if word(req, place) == SreOpcode::JUMP as u32 {
        let skip = operand(req, place, 1);
        return place + 1 + skip as usize;
    }
    place
}

// Continues after a set that takes the character at the cursor, and after the JUMP that ends an alternative of one
// character.
#[inline(always)]
fn behind_set<S: StrDrive>(
    req: &Request<'_, S>,
    place: usize,
    character: u32,
    after: StringCursor,
    cursor: StringCursor,
) -> Option<Onward>
    requires opcode { OpcodeAt req.now place SreOpcode.IN }
    requires stands { At req.now place cursor }
    requires read { ReadAt req.now cursor character after }
    ensures { MatchOption result (RefusesAt req.now place cursor.position)
        (λ x. ContinuesTo req.now (Instruction place) cursor (Instruction x.place) x.cursor) }
{
    let Some(behind) = behind_test(req, SreOpcode::IN, place, character, after, cursor) else {
        return None;
    };
    Some(Onward {
        place: behind_jump(req, behind.place, behind.cursor),
        cursor: behind.cursor,
    })
}

// Where the machine continues from an instruction that may match: after a LITERAL or an IN that takes the character,
// else at the instruction itself. FIRST sets decide whether others may match. Without them the words do, and the
// machine also continues after a NOT_LITERAL or a LITERAL_UNI_IGNORE.
#[inline(always)]
fn begin<S: StrDrive, const ADMITTED: bool>(
    req: &Request<'_, S>,
    place: usize,
    character: u32,
    after: StringCursor,
    cursor: StringCursor,
) -> Option<Onward>
    requires stands { At req.now place cursor }
    requires read { ReadAt req.now cursor character after }
    ensures { MatchOption result (RefusesAt req.now place cursor.position)
        (λ x. ContinuesTo req.now (Instruction place) cursor (Instruction x.place) x.cursor) }
{
    if ADMITTED && bars(req, place, character, cursor) {
        return None;
    }
    if word(req, place) == SreOpcode::LITERAL as u32 {
        return behind_test(req, SreOpcode::LITERAL, place, character, after, cursor);
    }
    match opcode(req, place, cursor) {
        SreOpcode::IN => behind_set(req, place, character, after, cursor),
        SreOpcode::NOT_LITERAL if !ADMITTED => {
            behind_test(req, SreOpcode::NOT_LITERAL, place, character, after, cursor)
        }
        SreOpcode::LITERAL_UNI_IGNORE if !ADMITTED => {
            behind_test(
                req,
                SreOpcode::LITERAL_UNI_IGNORE,
                place,
                character,
                after,
                cursor,
            )
        }
        _ => {
            if !ADMITTED && begins_otherwise(req, place, character, cursor) {
                None
            } else {
                Some(Onward { place, cursor })
            }
        }
    }
}

// An alternative that may match: its length word, and where the machine continues in it.
#[derive(Clone, Copy)]
struct Alternative {
    length_word: usize,
    place: usize,
    cursor: StringCursor,
}

// The first alternative from a length word on that may match, if there is one.
#[inline(always)]
fn first_alternative<S: StrDrive, const ADMITTED: bool>(
    req: &Request<'_, S>,
    start: usize,
    character: u32,
    after: StringCursor,
    cursor: StringCursor,
) -> Option<Alternative>
    requires stands { AtPoint req.now (Alternatives start) cursor }
    requires read { ReadAt req.now cursor character after }
    ensures { MatchOption result (Exhausted (run_of req.now) (Alternatives start) cursor.position)
        (λ x. AtPoint req.now (Alternatives x.length_word) cursor
        × (0 < word (run_of req.now).words x.length_word)
        × ContinuesTo req.now (Alternatives start) cursor (Alternatives x.length_word) cursor
        × ContinuesTo req.now (Instruction (x.length_word + 1)) cursor (Instruction x.place) x.cursor) }
{
    let mut place = start;
    'alternative: loop {
        let length = word(req, place) as usize;
        if length == 0 {
            return None;
        }
        let first = begin::<S, ADMITTED>(req, place + 1, character, after, cursor);
        if let Some(begun) = first {
            return Some(Alternative {
                length_word: place,
                place: begun.place,
                cursor: begun.cursor,
            });
        }
        place += length;
    }
}

/// The cursor after the only alternative from a length word on that may match. `None` unless exactly one may, and that
/// is a test, and perhaps a JUMP, that leads to the address `end`.
#[inline(always)]
pub(super) fn only_alternative<S: StrDrive>(
    req: &Request<'_, S>,
    start: usize,
    end: usize,
    character: u32,
    after: StringCursor,
    cursor: StringCursor,
) -> Option<StringCursor>
    requires stands { AtPoint req.now (Alternatives start) cursor }
    requires read { ReadAt req.now cursor character after }
    ensures { IfSome result (λ behind. YieldsTo (run_of req.now) (Alternatives start) cursor (Instruction end) behind) }
{
    let first = first_alternative::<S, false>(req, start, character, after, cursor)?;
    let length = word(req, first.length_word) as usize;
    if behind_jump(req, first.place, first.cursor) != end {
        return None;
    }
    let following = first.length_word + length;
    match first_alternative::<S, false>(req, following, character, after, cursor) {
        Some(_) => None,
        None => Some(first.cursor),
    }
}

// The alternatives from a length word on, at the end of the range, where no character decides.
#[inline(never)]
fn alternatives_at_end<S: StrDrive, A: Allocator>(
    req: &Request<'_, S>,
    board: &mut Board<A>,
    place: usize,
    cursor: StringCursor,
) -> Result<Next, Refusal<A>>
    requires { AtPoint req.now (Alternatives place) cursor }
    ensures { IfOk result (λ next. TurnAt req.now (Alternatives place) cursor board.old next board.new) }
{
    let length = word(req, place) as usize;
    if length == 0 {
        return Ok(Next::Back);
    }
    Ok(choose(
        req,
        board,
        place + 1,
        Point::Alternatives(place + length),
        cursor,
    )?)
}

// Continues in an alternative, and saves the others from a length word on.
#[inline(always)]
fn choose_alternative<S: StrDrive, A: Allocator>(
    req: &Request<'_, S>,
    board: &mut Board<A>,
    first: Alternative,
    others: usize,
    cursor: StringCursor,
) -> Result<Next, Refusal<A>>
    requires { ContinuesTo req.now (Instruction (first.length_word + 1)) cursor
        (Instruction first.place) first.cursor }
    ensures { IfOk result (λ next.
        Chooses (run_of req.now) (Instruction (first.length_word + 1)) (Alternatives others) cursor
        board.old next board.new) }
{
    board.save(Point::Alternatives(others), cursor)?;
    Ok(Next::At(first.place, first.cursor))
}

// The first alternative from a length word on that may match, by FIRST sets or by the code words.
#[inline(always)]
fn other_alternative<S: StrDrive, const ADMITTED: bool>(
    req: &Request<'_, S>,
    start: usize,
    character: u32,
    after: StringCursor,
    cursor: StringCursor,
) -> Option<Alternative>
    requires stands { AtPoint req.now (Alternatives start) cursor }
    requires read { ReadAt req.now cursor character after }
    ensures { MatchOption result (Exhausted (run_of req.now) (Alternatives start) cursor.position)
        (λ x. ContinuesTo req.now (Alternatives start) cursor (Alternatives x.length_word) cursor) }
{
    if ADMITTED && bars_alternatives(req, start, character, cursor) {
        return None;
    }
    first_alternative::<S, ADMITTED>(req, start, character, after, cursor)
}

// The alternatives from a length word on, before a character.
#[inline(always)]
fn alternatives_before<S: StrDrive, A: Allocator, const ADMITTED: bool>(
    req: &Request<'_, S>,
    board: &mut Board<A>,
    start: usize,
    character: u32,
    after: StringCursor,
    cursor: StringCursor,
) -> Result<Next, Refusal<A>>
    requires stands { AtPoint req.now (Alternatives start) cursor }
    requires read { ReadAt req.now cursor character after }
    ensures { IfOk result (λ next. TurnAt req.now (Alternatives start) cursor board.old next board.new) }
{
    let Some(first) = first_alternative::<S, ADMITTED>(req, start, character, after, cursor) else {
        return Ok(Next::Back);
    };
    let length = word(req, first.length_word) as usize;
    let following = first.length_word + length;
    let others = other_alternative::<S, ADMITTED>(req, following, character, after, cursor);
    let Some(other) = others else {
        return Ok(Next::At(first.place, first.cursor));
    };
    Ok(choose_alternative(req, board, first, other.length_word, cursor)?)
}

/// The alternatives of a BRANCH from a length word on: `length body JUMP skip ... 0`.
#[inline(always)]
pub(super) fn alternatives<S: StrDrive, A: Allocator>(
    req: &Request<'_, S>,
    board: &mut Board<A>,
    start: usize,
    cursor: StringCursor,
) -> Result<Next, Refusal<A>>
    requires { AtPoint req.now (Alternatives start) cursor }
    ensures { IfOk result (λ next. TurnAt req.now (Alternatives start) cursor board.old next board.new) }
{
    if cursor.position() >= req.end() {
        return Ok(alternatives_at_end(req, board, start, cursor)?);
    }
    let (character, after) = read(req, cursor);
    if character < 128 && !req.admitted().is_empty() {
        return alternatives_before::<S, A, true>(req, board, start, character, after, cursor);
    }
    alternatives_before::<S, A, false>(req, board, start, character, after, cursor)
}

/// `BRANCH length body JUMP skip ... 0`: the first alternative, then the others.
#[inline(always)]
pub(super) fn branch<S: StrDrive, A: Allocator>(
    req: &Request<'_, S>,
    board: &mut Board<A>,
    place: usize,
    cursor: StringCursor,
) -> Result<Next, Refusal<A>>
    requires opcode { OpcodeAt req.now place SreOpcode.BRANCH }
    requires room { place + 2 ^ 33 < 2 ^ 64 }
    requires stands { At req.now place cursor }
    ensures { IfOk result (λ next. Turn req.now place cursor board.old next board.new) }
{
    Ok(alternatives(req, board, place + 1, cursor)?)
}
