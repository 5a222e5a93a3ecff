//! Batched loop iterations: many bodies of a loop in one step.
//!
//! A loop over alternatives, as in `"(?:[^"\\]|\\.)*"`, mostly takes a body by the only alternative that takes the next
//! character. That alternative is a single test, and the loop's end must fail there. So there is nothing to save, and
//! the frame is written once, after all of them. Each counts as a body that began.
//!
//! In a long batch one set decides the next characters, instead of the alternatives. It has the ASCII characters with
//! which exactly one alternative begins, which is a single test.

ghost use Rattle.std.specs.Prelude.{◌≡◌, ◌⊎◌, ◌+◌, ℕ, true, false, IfOk, IfSome, ◌<◌, ◌≤◌, Some};
ghost use Rattle.sre_machine.specs.Terms.{Word, Opcode, begins_test, contains, TellsBodies, Alternatives, run_of};
ghost use Rattle.sre_machine.specs.Terms.{OpcodeAt, TellsTest, unlimited, next_frame, MayRepeat, end_of, Instruction};
ghost use Rattle.sre_machine.specs.Terms.{with_loop};
ghost use Rattle.sre_machine.specs.Turns.{At, AtPoint, AtOnBoard, DemandedAt, Turn};
ghost use Rattle.sre_turns.specs.Strides.{EndsBody, Strides};

use crate::branches::only_alternative;
use crate::loops::{body_or_end, next_frame};
use crate::machine::{first_literal, opcode};
use sre_board::Board;
use sre_chars::constants::{MAXREPEAT, SreOpcode};
use sre_chars::string::{StrDrive, StringCursor};
use sre_code::ascii_set::AsciiSet;
use sre_growth::Refusal;
use sre_request::Request;
use sre_request::ascii::ascii_taken;
use sre_request::one_character::test_end;
use sre_request::text::read;
use sre_request::words::{operand, word, word_at};
use sre_turns::{Frame, Next};
use std::alloc::Allocator;

// The ASCII characters that a test takes, and where the machine continues: after the JUMP that ends the alternative, if
// the test is all of it.
#[derive(Clone, Copy)]
struct KnownTest {
    taken: AsciiSet,
    behind: usize,
}

// The target of a JUMP if there is one at an address, else the address. The machine may never reach the address, so the
// bytecode may end there. If it does reach it, `behind_jump` returns the same without that test.
fn behind_jump_at(words: &[u32], place: usize) -> usize
    ensures { (result ≡ place) ⊎ ((v : ℕ) × (Opcode words.now place SreOpcode.JUMP × (Word words.now (place + 1) v
        × (result ≡ place + 1 + v)))) }
{
    let Some(word) = word_at(words, place) else {
        return place;
    };
    if word != SreOpcode::JUMP as u32 {
        return place;
    }
    let _length = words.len(); // a slice has few items, so no address overflows
    match word_at(words, place + 1) {
        Some(skip) => place + 1 + skip as usize,
        None => place,
    }
}

// The test at an address with a known opcode, if its characters are known.
fn known_by<S: StrDrive>(
    req: &Request<'_, S>,
    opcode: SreOpcode,
    place: usize,
    cursor: StringCursor,
) -> Option<KnownTest>
    requires opcode { OpcodeAt req.now place opcode }
    requires tests { begins_test opcode ≡ true }
    requires stands { At req.now place cursor }
    ensures { IfSome result (λ told. TellsTest (run_of req.now) place (contains told.taken) told.behind) }
{
    let words = req.pattern_codes().items();
    let taken = ascii_taken(words, place)?;
    let end = test_end(req, place, opcode);
    Some(KnownTest {
        taken,
        behind: behind_jump_at(words, end),
    })
}

// The test that an alternative begins with, if its characters are known.
fn known_test<S: StrDrive>(
    req: &Request<'_, S>,
    place: usize,
    cursor: StringCursor,
) -> Option<KnownTest>
    requires { At req.now place cursor }
    ensures { IfSome result (λ told. TellsTest (run_of req.now) place (contains told.taken) told.behind) }
{
    match opcode(req, place, cursor) {
        SreOpcode::LITERAL => known_by(req, SreOpcode::LITERAL, place, cursor),
        SreOpcode::NOT_LITERAL => known_by(req, SreOpcode::NOT_LITERAL, place, cursor),
        SreOpcode::IN => known_by(req, SreOpcode::IN, place, cursor),
        SreOpcode::ANY => known_by(req, SreOpcode::ANY, place, cursor),
        _ => None,
    }
}

// The ASCII characters with which exactly one alternative begins that leads to an address, once one more alternative is
// added. Before it, none begins with a character of `none`, and exactly one with each of `only`.
#[inline(always)]
fn with_test(none: AsciiSet, only: AsciiSet, test: KnownTest, place: usize) -> AsciiSet
    ensures { (ch : ℕ) → contains result ch ≡ true
        → ((contains only ch ≡ true) × (contains test.taken ch ≡ false))
        ⊎ ((contains none ch ≡ true) × ((contains test.taken ch ≡ true) × (test.behind ≡ place))) }
{
    let others = only.difference(test.taken);
    if test.behind != place {
        return others;
    }
    others.union(none.difference(none.difference(test.taken)))
}

/// The ASCII characters with which exactly one alternative from a length word on begins, and which are all of it, so
/// that it leads to an address. The set is empty if an alternative does not begin with a test whose characters are
/// known.
#[inline(never)]
fn known_bodies<S: StrDrive>(
    req: &Request<'_, S>,
    place: usize,
    start: usize,
    cursor: StringCursor,
) -> AsciiSet
    requires { AtPoint req.now (Alternatives start) cursor }
    ensures { TellsBodies (run_of req.now) start place (contains result) }
{
    let mut none = AsciiSet::new().complement();
    let mut only = AsciiSet::new();
    let mut at = start;
    'alternative: loop {
        let length = word(req, at) as usize;
        if length == 0 {
            return only;
        }
        let Some(test) = known_test(req, at + 1, cursor) else {
            return AsciiSet::new();
        };
        only = with_test(none, only, test, place);
        none = none.difference(test.taken);
        at += length;
    }
}

// The most iterations of a batch, so that a run makes its memory requests between batches.
const MOST_BODIES: usize = 65536;

// The end of a loop's body: the loop's frame, and the cursor.
#[derive(Clone, Copy)]
struct BodyEnd {
    frame: Frame,
    cursor: StringCursor,
}

// The end of the next body, if it is one character and nothing else may match here.
#[inline(always)]
fn next_body<S: StrDrive>(
    req: &Request<'_, S>,
    place: usize,
    alternatives: usize,
    wanted: u32,
    told: AsciiSet,
    frame: Frame,
    cursor: StringCursor,
) -> Option<StringCursor>
    requires opcode { OpcodeAt req.now place SreOpcode.MAX_UNTIL }
    requires branch { OpcodeAt req.now (frame.repeat + 4) SreOpcode.BRANCH }
    requires alternatives { alternatives ≡ frame.repeat + 4 + 1 }
    requires wanted { DemandedAt req.now (place + 1) (Some wanted) }
    requires told { TellsBodies (run_of req.now) alternatives place (contains told) }
    requires more { MayRepeat (run_of req.now).words frame cursor.position }
    requires ends { EndsBody (run_of req.now) place frame cursor }
    requires inside { cursor.position < end_of req.now }
    ensures strides { IfSome result (λ end.
        Strides (run_of req.now) place frame cursor (next_frame frame (Some cursor.position)) end) }
    ensures moves { IfSome result (λ end. cursor.position < end.position) }
{
    let (character, after) = read(req, cursor);
    if character == wanted {
        return None;
    }
    if character < 128 && told.contains(character) {
        return Some(after);
    }
    let behind = only_alternative(req, alternatives, place, character, after, cursor)?;
    if behind.position() <= cursor.position() {
        return None;
    }
    Some(behind)
}

// The ASCII characters that are whole bodies, unless no body follows: at the end of the range, or before the literal
// after the loop.
#[inline(always)]
fn known_before<S: StrDrive>(
    req: &Request<'_, S>,
    place: usize,
    alternatives: usize,
    wanted: u32,
    cursor: StringCursor,
) -> AsciiSet
    requires { AtPoint req.now (Alternatives alternatives) cursor }
    ensures { TellsBodies (run_of req.now) alternatives place (contains result) }
{
    if cursor.position() >= req.end() || read(req, cursor).0 == wanted {
        return AsciiSet::new();
    }
    known_bodies(req, place, alternatives, cursor)
}

// Bodies of one character from a cursor on, as long as nothing else may match.
#[inline(never)]
fn stride<S: StrDrive>(
    req: &Request<'_, S>,
    place: usize,
    alternatives: usize,
    wanted: u32,
    first: Frame,
    start: StringCursor,
) -> BodyEnd
    requires opcode { OpcodeAt req.now place SreOpcode.MAX_UNTIL }
    requires branch { OpcodeAt req.now (first.repeat + 4) SreOpcode.BRANCH }
    requires alternatives { alternatives ≡ first.repeat + 4 + 1 }
    requires unlimited { Word (run_of req.now).words (first.repeat + 3) unlimited }
    requires wanted { DemandedAt req.now (place + 1) (Some wanted) }
    requires more { MayRepeat (run_of req.now).words first start.position }
    requires ends { EndsBody (run_of req.now) place first start }
    ensures strides { Strides (run_of req.now) place first start result.frame result.cursor }
    ensures more { MayRepeat (run_of req.now).words result.frame result.cursor.position }
    ensures on { start.position ≤ result.cursor.position }
{
    let end = req.end().min(start.position().saturating_add(MOST_BODIES));
    let told = known_before(req, place, alternatives, wanted, start);
    let mut frame = first;
    let mut cursor = start;
    'body: while cursor.position() < end {
        let Some(after) = next_body(req, place, alternatives, wanted, told, frame, cursor) else {
            break;
        };
        frame = next_frame(frame, Some(cursor.position()));
        cursor = after;
    }
    BodyEnd { frame, cursor }
}

// Whether the body that ends at a cursor, if one does, began one character before it.
#[inline(always)]
fn had_one_character(frame: Frame, cursor: StringCursor) -> bool {
    match frame.last {
        Some(last) => cursor.position().wrapping_sub(last) == 1,
        None => true,
    }
}

// Whether a BRANCH is at an address.
#[inline(always)]
fn is_branch<S: StrDrive>(req: &Request<'_, S>, place: usize) -> bool {
    match word_at(req.pattern_codes().items(), place) {
        Some(word) => word == SreOpcode::BRANCH as u32,
        None => false,
    }
}

/// Whether iterations of a loop may be batched: batches are wanted, the loop has no greatest count, and its body has
/// alternatives. It does not try a batch after a longer body, since most bodies are like the one before.
#[inline(always)]
pub(super) fn may_stride<S: StrDrive, const STRIDES: bool>(
    req: &Request<'_, S>,
    body: usize,
    greatest: u32,
    frame: Frame,
    cursor: StringCursor,
) -> bool {
    STRIDES
        && greatest as usize == MAXREPEAT
        && had_one_character(frame, cursor)
        && is_branch(req, body)
}

// Batches bodies of one character each, in a loop without a greatest count over alternatives, with a literal after it.
#[tactic(auto, using(std::proofs::lemmas::Grind::elements))]
#[inline(always)]
fn stride_on<S: StrDrive, A: Allocator>(
    req: &Request<'_, S>,
    board: &mut Board<A>,
    place: usize,
    greatest: u32,
    frame: Frame,
    cursor: StringCursor,
) -> BodyEnd
    requires opcode { OpcodeAt req.now place SreOpcode.MAX_UNTIL }
    requires greatest { Word (run_of req.now).words (frame.repeat + 3) greatest }
    requires more { MayRepeat (run_of req.now).words frame cursor.position }
    requires ends { EndsBody (run_of req.now) place frame cursor }
    ensures board { board.new ≡ board.old }
    ensures strides { Strides (run_of req.now) place frame cursor result.frame result.cursor }
    ensures more { MayRepeat (run_of req.now).words result.frame result.cursor.position }
{
    let here = BodyEnd { frame, cursor };
    if greatest as usize != MAXREPEAT {
        return here;
    }
    let _opcode = operand(req, place, 0);
    let _greatest = operand(req, frame.repeat, 3);
    let body = frame.repeat + 4;
    if word(req, body) != SreOpcode::BRANCH as u32 {
        return here;
    }
    let Some(wanted) = first_literal(req, place + 1, cursor) else {
        return here;
    };
    let there = stride(req, place, body + 1, wanted, frame, cursor);
    board.note_bodies(there.cursor.position() - cursor.position());
    there
}

/// The same as `body_or_end`, after a batch of bodies. It is out of line, so that only batches pass values through
/// memory.
#[inline(never)]
pub(super) fn strided<S: StrDrive, A: Allocator>(
    req: &Request<'_, S>,
    board: &mut Board<A>,
    place: usize,
    greatest: u32,
    frame: Frame,
    cursor: StringCursor,
) -> Result<Next, Refusal<A>>
    requires opcode { OpcodeAt req.now place SreOpcode.MAX_UNTIL }
    requires greatest { Word (run_of req.now).words (frame.repeat + 3) greatest }
    requires more { MayRepeat (run_of req.now).words frame cursor.position }
    requires stands { AtOnBoard req.now (Instruction place) cursor (with_loop frame board.old) }
    ensures { IfOk result
        (λ next. Turn req.now place cursor (with_loop frame board.old) next board.new) }
{
    let end = stride_on(req, board, place, greatest, frame, cursor);
    Ok(body_or_end(req, board, place, end.frame, end.cursor)?)
}
