//! Single-character repeats: how many characters in a row a test takes.
//!
//! The opcode is matched once, before a loop of its own that has the operands at hand.

ghost use Rattle.std.specs.Prelude.{◌≡◌, ℕ, ◌+◌, ◌-◌, ◌<◌, ◌≤◌, Bool, true, false, cond, IfSome};
ghost use Rattle.sre_request.specs.Terms.{Test};
ghost use Rattle.sre_model.specs.Subject.{passes};
ghost use Rattle.sre_model.specs.Ways.{most_from, run_length, longest_run};
ghost use Rattle.sre_request.specs.Requests.{end_of};
ghost use Rattle.sre_request.specs.Runs.{run_of, OpcodeAt, Standing, TestAt};
ghost use Rattle.sre_request.specs.Reads.{IsLongest, SaysOtherwiseOf, GoesUpTo, GoesOnTo, TestStandsAt, test_takes};

use crate::Request;
use crate::one_character::{opcode, takes};
use crate::takers::{Between, Bits, OfCategory, OfSet, Taker};
use crate::text::{back_one, read};
use sre_chars::constants::{MAXREPEAT, SreOpcode};
use sre_chars::string::{StrDrive, StringCursor};
use sre_code::ascii_members::ascii_members;
use sre_code::ascii_set::AsciiSet;
use sre_code::operands::{category_code, operand, word};

/// Some characters from a cursor on: their number, and the cursor after them.
#[derive(Clone, Copy)]
pub struct Stretch {
    pub count: usize,
    pub end: StringCursor,
}

// The most characters of a repeat from a cursor on: those left in the range, up to the greatest count.
#[inline(always)]
fn most<S: StrDrive>(req: &Request<'_, S>, high: u32, cursor: StringCursor) -> usize
    ensures { result ≡ most_from (run_of req.now).subject high cursor.position }
{
    let left = req.end().saturating_sub(cursor.position());
    let high = high as usize;
    if high == MAXREPEAT || left < high {
        left
    } else {
        high
    }
}

// A repeat of any characters, each of which is taken.
#[inline(always)]
fn run_any<S: StrDrive, const WANTED: bool>(
    req: &Request<'_, S>,
    most: usize,
    start: StringCursor,
) -> Stretch
    requires stands { Standing req.now start }
    requires most { most ≤ end_of req.now - start.position }
    ensures count { result.count ≡ cond WANTED most 0 }
    ensures position { result.end.position ≡ start.position + result.count }
    ensures stands { Standing req.now result.end }
{
    if !WANTED {
        return Stretch {
            count: 0,
            end: start,
        };
    }
    let mut after = start;
    req.string().skip(&mut after, most);
    Stretch {
        count: most,
        end: after,
    }
}

// The longest repeat of characters for which the test at an address answers `WANTED`.
#[inline(always)]
fn run_tested<S: StrDrive, const WANTED: bool>(
    req: &Request<'_, S>,
    place: usize,
    opcode: SreOpcode,
    most: usize,
    start: StringCursor,
) -> Stretch
    requires code { OpcodeAt req.now place opcode }
    requires test { TestAt req.now place }
    requires stands { Standing req.now start }
    requires most { most ≤ end_of req.now - start.position }
    ensures { IsLongest req.now place WANTED most start result }
{
    let end = start.position() + most;
    let mut cursor = start;
    'character: while cursor.position() < end {
        let (character, after) = read(req, cursor);
        if takes(req, place, opcode, character) != WANTED {
            break;
        }
        cursor = after;
    }
    Stretch {
        count: cursor.position() - start.position(),
        end: cursor,
    }
}

// The single character for which the test at an address does not answer `WANTED`, if there is only one.
#[tactic(auto, using(std::proofs::lemmas::Grind::elements))]
#[inline(always)]
fn only_other<S: StrDrive, const WANTED: bool>(
    req: &Request<'_, S>,
    place: usize,
    opcode: SreOpcode,
) -> Option<u32>
    requires code { OpcodeAt req.now place opcode }
    requires test { TestAt req.now place }
    ensures { IfSome result (λ other. SaysOtherwiseOf req.now place WANTED other) }
{
    let words = req.pattern_codes().items();
    match opcode {
        SreOpcode::ANY if WANTED => Some(10),
        SreOpcode::NOT_LITERAL if WANTED => Some(operand(words, place, 1)),
        SreOpcode::LITERAL if !WANTED => Some(operand(words, place, 1)),
        _ => None,
    }
}

// A stretch up to the next such character, or of the most characters if there is none among them.
#[inline(always)]
fn stretch_to<S: StrDrive>(
    req: &Request<'_, S>,
    character: u32,
    most: usize,
    start: StringCursor,
) -> Stretch
    requires stands { Standing req.now start }
    requires inside { start.position ≤ end_of req.now }
    requires most { most ≤ end_of req.now - start.position }
    ensures { GoesUpTo req.now character most start result }
{
    let end = start.position() + most;
    let mut cursor = start;
    if req.string().seek(&mut cursor, character, end) {
        cursor = back_one(req, cursor);
    }
    Stretch {
        count: cursor.position() - start.position(),
        end: cursor,
    }
}

// A stretch of so many characters up to a cursor, continued up to the next such character or to the most. It is out of
// line, since most repeats are short.
#[inline(never)]
fn stretch_on<S: StrDrive>(
    req: &Request<'_, S>,
    character: u32,
    most: usize,
    count: usize,
    near: StringCursor,
) -> Stretch
    requires stands { Standing req.now near }
    requires inside { near.position ≤ end_of req.now }
    requires count { count ≤ most }
    requires most { most - count ≤ end_of req.now - near.position }
    ensures { GoesOnTo req.now character most count near result }
{
    let far = stretch_to(req, character, most - count, near);
    Stretch {
        count: count + far.count,
        end: far.end,
    }
}

// How many characters of a repeat are tested one by one before the rest is searched: `few` of the text, or all if they
// are less than twice as many.
#[inline(always)]
fn most_near<S: StrDrive>(req: &Request<'_, S>, most: usize) -> usize
    ensures { result ≤ most }
{
    let few = req.string().few();
    if most / 2 < few { most } else { few }
}

// The longest repeat of characters for which the test at an address answers `WANTED`, if only one character does not.
#[inline(always)]
fn run_but<S: StrDrive, const WANTED: bool>(
    req: &Request<'_, S>,
    place: usize,
    opcode: SreOpcode,
    other: u32,
    most: usize,
    start: StringCursor,
) -> Stretch
    requires code { OpcodeAt req.now place opcode }
    requires test { TestAt req.now place }
    requires other { SaysOtherwiseOf req.now place WANTED other }
    requires stands { Standing req.now start }
    requires most { most ≤ end_of req.now - start.position }
    ensures { IsLongest req.now place WANTED most start result }
{
    let first = most_near(req, most);
    let near = run_tested::<S, WANTED>(req, place, opcode, first, start);
    if near.count < first || near.count == most {
        return near;
    }
    stretch_on(req, other, most, near.count, near.end)
}

// The longest repeat of characters for which the test at an address answers `WANTED`, for any test.
#[inline(always)]
fn run_by<S: StrDrive, const WANTED: bool>(
    req: &Request<'_, S>,
    place: usize,
    opcode: SreOpcode,
    most: usize,
    start: StringCursor,
) -> Stretch
    requires code { OpcodeAt req.now place opcode }
    requires test { TestAt req.now place }
    requires stands { Standing req.now start }
    requires most { most ≤ end_of req.now - start.position }
    ensures { IsLongest req.now place WANTED most start result }
{
    match only_other::<S, WANTED>(req, place, opcode) {
        Some(other) => run_but::<S, WANTED>(req, place, opcode, other, most, start),
        None => run_tested::<S, WANTED>(req, place, opcode, most, start),
    }
}

// The longest such repeat for a test whose operands are at hand.
#[inline(always)]
fn run_while<S: StrDrive, T: Taker, const WANTED: bool>(
    req: &Request<'_, S>,
    place: usize,
    taker: &T,
    most: usize,
    start: StringCursor,
) -> Stretch
    requires fits { T.fits taker.now }
    requires taker { (j c : ℕ) (taken : Bool) (t : Test) → TestStandsAt req.now place j t
        → T.says taker.now c taken → taken ≡ test_takes req.now t c }
    requires stands { Standing req.now start }
    requires most { most ≤ end_of req.now - start.position }
    ensures { IsLongest req.now place WANTED most start result }
{
    let end = start.position() + most;
    let mut cursor = start;
    'character: while cursor.position() < end {
        let (character, after) = read(req, cursor);
        if taker.takes(character) != WANTED {
            break;
        }
        cursor = after;
    }
    Stretch {
        count: cursor.position() - start.position(),
        end: cursor,
    }
}

// The longest such repeat for an IN with any items.
#[inline(always)]
fn run_in_items<S: StrDrive, const WANTED: bool>(
    req: &Request<'_, S>,
    place: usize,
    most: usize,
    start: StringCursor,
) -> Stretch
    requires code { OpcodeAt req.now place SreOpcode.IN }
    requires test { TestAt req.now place }
    requires stands { Standing req.now start }
    requires most { most ≤ end_of req.now - start.position }
    ensures { IsLongest req.now place WANTED most start result }
{
    let (words, set) = (req.pattern_codes().items(), place + 2);
    let Some(ascii) = ascii_members(words, set) else {
        return run_tested::<S, WANTED>(req, place, SreOpcode::IN, most, start);
    };
    let uni = req.pattern_codes().uni();
    let of_set = OfSet {
        words,
        uni,
        set,
        ascii,
    };
    run_while::<S, OfSet<'_>, WANTED>(req, place, &of_set, most, start)
}

// The longest such repeat for an IN. A set of one RANGE, CATEGORY or CHARSET is recognized by its length and first
// word, and has a loop of its own.
#[tactic(auto, using(std::proofs::lemmas::Grind::elements))]
#[inline(always)]
fn run_in_set<S: StrDrive, const WANTED: bool>(
    req: &Request<'_, S>,
    place: usize,
    most: usize,
    start: StringCursor,
) -> Stretch
    requires code { OpcodeAt req.now place SreOpcode.IN }
    requires test { TestAt req.now place }
    requires stands { Standing req.now start }
    requires most { most ≤ end_of req.now - start.position }
    ensures { IsLongest req.now place WANTED most start result }
{
    let words = req.pattern_codes().items();
    let (skip, set) = (operand(words, place, 1), place + 2);
    let first = word(words, set);
    if skip == 5 && first == SreOpcode::RANGE as u32 {
        let low = operand(words, set, 1);
        let high = operand(words, set, 2);
        return run_while::<S, Between, WANTED>(req, place, &Between { low, high }, most, start);
    }
    if skip == 4 && first == SreOpcode::CATEGORY as u32 {
        let (uni, code) = (req.pattern_codes().uni(), category_code(words, set + 1));
        let ascii = AsciiSet::of_category(code);
        return run_while::<S, OfCategory<'_>, WANTED>(
            req,
            place,
            &OfCategory { uni, code, ascii },
            most,
            start,
        );
    }
    if skip == 11 && first == SreOpcode::CHARSET as u32 {
        let bits = Bits { words, place: set };
        return run_while::<S, Bits<'_>, WANTED>(req, place, &bits, most, start);
    }
    run_in_items::<S, WANTED>(req, place, most, start)
}

// The longest repeat of characters for which the test at an address answers `WANTED`, from a cursor on, up to `most`
// characters of the range.
#[inline(always)]
fn run_wanted<S: StrDrive, const WANTED: bool>(
    req: &Request<'_, S>,
    place: usize,
    most: usize,
    start: StringCursor,
) -> Stretch
    requires test { TestAt req.now place }
    requires stands { Standing req.now start }
    requires most { most ≤ end_of req.now - start.position }
    ensures { IsLongest req.now place WANTED most start result }
{
    // An arm for each opcode, so that each loop knows its own.
    macro_rules! run_each {
        ($($opcode:ident)*) => {
            match opcode(req, place) {
                SreOpcode::ANY_ALL => run_any::<S, WANTED>(req, most, start),
                SreOpcode::IN => run_in_set::<S, WANTED>(req, place, most, start),
                $(SreOpcode::$opcode => {
                    run_by::<S, WANTED>(req, place, SreOpcode::$opcode, most, start)
                })*
                _ => unreachable!(),
            }
        };
    }
    run_each!(
        ANY CATEGORY
        LITERAL LITERAL_IGNORE LITERAL_LOC_IGNORE LITERAL_UNI_IGNORE
        NOT_LITERAL NOT_LITERAL_IGNORE NOT_LITERAL_LOC_IGNORE NOT_LITERAL_UNI_IGNORE
        IN_IGNORE IN_LOC_IGNORE IN_UNI_IGNORE
    )
}

/// The longest repeat of the test at an address from a cursor on, up to `most` characters of the range.
#[inline(always)]
pub fn run_up_to<S: StrDrive>(
    req: &Request<'_, S>,
    place: usize,
    most: usize,
    start: StringCursor,
) -> Stretch
    requires test { TestAt req.now place }
    requires stands { Standing req.now start }
    requires most { most ≤ end_of req.now - start.position }
    ensures count { (j : ℕ) (t : Test) → TestStandsAt req.now place j t
        → result.count ≡ run_length (run_of req.now).subject t most start.position }
    ensures position { result.end.position ≡ start.position + result.count }
    ensures stands { Standing req.now result.end }
{
    run_wanted::<S, true>(req, place, most, start)
}

/// The longest repeat of the test at an address from a cursor on, within the range and up to `high` characters, where
/// 4294967295 means no limit.
pub fn longest_run<S: StrDrive>(
    req: &Request<'_, S>,
    place: usize,
    high: u32,
    start: StringCursor,
) -> Stretch
    requires test { TestAt req.now place }
    requires stands { Standing req.now start }
    ensures count { (j : ℕ) (t : Test) → TestStandsAt req.now place j t
        → result.count ≡ longest_run (run_of req.now).subject t high start.position }
    ensures position { result.end.position ≡ start.position + result.count }
    ensures stands { Standing req.now result.end }
{
    let most = most(req, high, start);
    run_up_to(req, place, most, start)
}

/// The first cursor, from a given one on, whose character the test at an address takes, or the one at the end of the
/// range.
#[inline(never)]
pub fn first_taken<S: StrDrive>(
    req: &Request<'_, S>,
    place: usize,
    start: StringCursor,
) -> StringCursor
    requires test { TestAt req.now place }
    requires stands { Standing req.now start }
    requires inside { start.position ≤ end_of req.now }
    ensures passed { (j q : ℕ) (t : Test) → TestStandsAt req.now place j t → start.position ≤ q
        → q < result.position → passes (run_of req.now).subject t q ≡ false }
    ensures taken { result.position < end_of req.now → (j : ℕ) (t : Test)
        → TestStandsAt req.now place j t
        → passes (run_of req.now).subject t result.position ≡ true }
    ensures from { start.position ≤ result.position }
    ensures inside { result.position ≤ end_of req.now }
    ensures stands { Standing req.now result }
{
    let left = req.end().saturating_sub(start.position());
    run_wanted::<S, false>(req, place, left, start).end
}
