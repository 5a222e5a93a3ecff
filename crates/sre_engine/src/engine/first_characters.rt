//! What must come first in each match, read from the first code words.

ghost use Rattle.std.specs.Prelude.{◌≡◌, ◌⊎◌, ◌+◌, ◌-◌, ◌^◌, ◌<◌, ◌≤◌, ℕ, length, true, false, IfSome, None, Some};
ghost use Rattle.std.specs.Prelude.{IsSomeAnd};
ghost use Rattle.sre_engine.specs.Terms.{at_number, Tree, Trees, Test, Subject, holds_at, Word, ReadsBranch, HasTest};
ghost use Rattle.sre_engine.specs.Terms.{NoWay, NoneOf, NotPassed, Leads, TreeStands, HasTree, HasAlternatives};
ghost use Rattle.sre_engine.specs.Terms.{begins_test, TakesAscii, words_of, BEGINNING_LINE, AreItems};
ghost use Rattle.sre_engine.specs.Beginnings.{BeginsIn, BeginsAtLines, KnowsTest, KnowsLines, first_test, has_ascii};
ghost use Rattle.sre_engine.specs.Beginnings.{IsAsciiOf, is_line_start};
ghost use Rattle.sre_engine.specs.Leading.{IsPast, LeadsToTest, LeadsToCode, IsTestAt, Wants, WantsFirst};
ghost use Rattle.sre_engine.specs.Starts.{IsElsewhere, NotAmong, IsLacking, Bars, TestsThere, PassesRun};

use sre_chars::constants::{SreAtCode, SreOpcode};
use sre_code::Code;
use sre_code::ascii_set::AsciiSet;
use sre_code::operands::{operand, word};
use sre_request::ascii::ascii_taken;
use std::convert::TryFrom;

/// What is required of the character at a position.
#[derive(Clone, Copy)]
pub(crate) enum Wanted {
    /// Nothing is known.
    Anything,
    /// The test at this address takes it.
    Test(usize),
    /// The set at this address takes it. The second part are the ASCII characters of the set.
    Set(usize, AsciiSet),
    /// It is one of these, or past ASCII.
    Characters(AsciiSet),
}

/// What must come first in each match of a code.
#[derive(Clone, Copy)]
pub(crate) struct First {
    // How many characters before the start the wanted one is.
    pub(super) back: usize,
    // The position code that holds at the start.
    pub(super) at: Option<SreAtCode>,
    // What is wanted of that character.
    pub(super) wanted: Wanted,
}

impl First {
    /// What a code's items require. With `reads_sets` it includes the ASCII characters of sets, and the FIRST sets of
    /// alternatives and leading repeats.
    pub(crate) fn of_items(words: &[u32], reads_sets: bool) -> First
        requires { AreItems words.now }
        ensures bars { Bars words.now result }
        ensures test { TestsThere words.now result.wanted }
        ensures first { WantsFirst words.now result }
    {
        let reached = follow(words, 0);
        First {
            back: reached.back,
            at: reached.at,
            wanted: wanted_at(words, reached.place, reads_sets),
        }
    }
}

/// Where a match of a code may begin.
///
/// Both fields come from the code alone, and hold for each text and range. A character is its code point, or a byte of
/// a text in bytes; ASCII are those below 128.
///
/// ```
/// // The bytecode of `(?m)^a`: at the start of a line, the letter a, success.
/// let code = Code::check(alloc, &[6, 1, 16, 97, 1], &uni)?;
/// let beginnings = Beginnings::of_code(&code);
/// assert!(beginnings.ascii == Some(AsciiSet::of_character(97)));
/// assert!(beginnings.at_line_start);
/// ```
#[derive(Clone, Copy)]
pub struct Beginnings {
    /// The ASCII characters with which one may begin, if they are known. Then none begins at the end of the range, nor
    /// with another ASCII character. With a character past ASCII one may begin.
    ///
    /// They are known at least if the first item, behind capture slots and position codes, is ANY, a category, a
    /// literal that the locale does not fold, or a negated literal that nothing folds, or is a repeat of one of these
    /// with a least count of at least 1.
    pub ascii: Option<AsciiSet>,
    /// Whether each begins at the start of the text, or after a newline. It is true at least if the first item, behind
    /// capture slots, is BEGINNING, BEGINNING_LINE or BEGINNING_STRING.
    pub at_line_start: bool,
}

impl Beginnings {
    /// Where a match of a code may begin, read from the first code words.
    pub fn of_code(code: &Code<'_>) -> Beginnings
        ensures ascii { IfSome result.ascii (λ set. BeginsIn (words_of code.now) set) }
        ensures lines { result.at_line_start ≡ true → BeginsAtLines (words_of code.now) }
        ensures known { KnowsTest (words_of code.now) result.ascii }
        ensures known_lines { KnowsLines (words_of code.now) result.at_line_start }
    {
        let words = code.items();
        let first = First::of_items(words, true);
        Beginnings {
            ascii: first_ascii(words, first),
            at_line_start: is_at_line_start(first.at),
        }
    }
}

// The ASCII characters with which a match may begin, if what is wanted is at its start.
fn first_ascii(words: &[u32], first: First) -> Option<AsciiSet>
    requires test { TestsThere words.now first.wanted }
    ensures lacks { IfSome result (λ set. (s : Subject) (p : ℕ) → NotAmong s set p
        → IsLacking words.now s first.wanted (p - first.back)) }
    ensures known { (test : Test) → Wants words.now first.wanted test → first.back ≡ 0 → has_ascii test ≡ true
        → IsSomeAnd result (λ set. IsAsciiOf test set) }
{
    if first.back > 0 {
        return None;
    }
    match first.wanted {
        Wanted::Anything => None,
        Wanted::Test(place) => ascii_taken(words, place),
        Wanted::Set(_, characters) => Some(characters),
        Wanted::Characters(characters) => Some(characters),
    }
}

// Whether a position code holds only at the start of a line.
fn is_at_line_start(at: Option<SreAtCode>) -> bool
    ensures elsewhere { result ≡ true → (s : Subject) (p : ℕ) → holds_at s BEGINNING_LINE p ≡ false
        → IsElsewhere s at p }
    ensures known { IfSome at (λ code. result ≡ is_line_start code) }
{
    match at {
        Some(SreAtCode::BEGINNING) => true,
        Some(SreAtCode::BEGINNING_LINE) => true,
        Some(SreAtCode::BEGINNING_STRING) => true,
        _ => false,
    }
}

// The address that every path from the first code words reaches.
#[derive(Clone, Copy)]
struct Reached {
    place: usize,
    // How many characters before the start a tree at that address begins.
    back: usize,
    // The first position code on the path, if no lookbehind comes before it.
    at: Option<SreAtCode>,
}

// The address that the words from a given one lead to. They lead past MARKs and position codes, and into atomic groups,
// positive lookarounds and loops with a least count of at least 1.
fn follow(words: &[u32], start: usize) -> Reached
    requires { HasTree words.now start }
    ensures leads { (t : Tree) → TreeStands words.now start t → Leads words.now t result.place result.back }
    ensures on { start ≤ result.place }
    ensures at { (t : Tree) → TreeStands words.now start t → (s : Subject) (p : ℕ) → IsElsewhere s result.at p
        → NoWay s t p }
    ensures test { LeadsToTest words.now start result.place result.back }
    ensures code { LeadsToCode words.now start result.place result.back result.at }
    ensures past { IsPast words.now result.place }
{
    let mut reached = Reached {
        place: start,
        back: 0,
        at: None,
    };
    'item: loop {
        let place = reached.place;
        let Ok(opcode) = SreOpcode::try_from(word(words, place)) else {
            return reached;
        };
        match opcode {
            SreOpcode::MARK => reached.place = place + 2,
            SreOpcode::ATOMIC_GROUP => reached.place = place + 2,
            SreOpcode::ASSERT => {
                let far = operand(words, place, 2) as usize;
                let Some(back) = reached.back.checked_add(far) else {
                    return reached;
                };
                reached.back = back;
                reached.place = place + 3;
            }
            SreOpcode::AT => {
                reached.at = first_position(words, reached);
                reached.place = place + 2;
            }
            SreOpcode::REPEAT | SreOpcode::POSSESSIVE_REPEAT => {
                if operand(words, place, 2) == 0 {
                    return reached;
                }
                reached.place = place + 4;
            }
            _ => return reached,
        }
    }
}

// The first position code after an AT: the one known before, else its own, unless it applies further back.
fn first_position(words: &[u32], reached: Reached) -> Option<SreAtCode>
    requires { reached.place + 1 < length words.now }
    ensures bars { (result ≡ reached.at) ⊎ ((reached.back ≡ 0)
        × IfSome result (λ code. Word words.now (reached.place + 1) (at_number code))) }
    ensures kept { IfSome reached.at (λ code. result ≡ Some code) }
    ensures own { reached.at ≡ None → reached.back ≡ 0 → (code : SreAtCode)
        → Word words.now (reached.place + 1) (at_number code) → result ≡ Some code }
{
    if reached.back > 0 || reached.at.is_some() {
        return reached.at;
    }
    match SreAtCode::try_from(operand(words, reached.place, 1)) {
        Ok(code) => Some(code),
        Err(_) => None,
    }
}

// The address of the test that takes the first character of a tree: its own, or that of a repeat with a least count of
// at least 1.
fn wanted_test(words: &[u32], place: usize) -> Option<usize>
    requires { HasTree words.now place }
    ensures bars { (t : Tree) → TreeStands words.now place t
        → IfSome result (λ test. (s : Subject) (p : ℕ) → NotPassed words.now s test p → NoWay s t p) }
    ensures test { IfSome result (λ test. HasTest words.now test) }
    ensures own { (t : Tree) (test : Test) → TreeStands words.now place t → first_test t ≡ Some test
        → IsPast words.now place → IsSomeAnd result (λ i. IsTestAt words.now i test) }
{
    let opcode = SreOpcode::try_from(word(words, place)).ok()?;
    match opcode {
        SreOpcode::REPEAT_ONE | SreOpcode::MIN_REPEAT_ONE | SreOpcode::POSSESSIVE_REPEAT_ONE => {
            if operand(words, place, 2) > 0 {
                return Some(place + 4);
            }
            None
        }
        _ => {
            if is_test(opcode) {
                return Some(place);
            }
            None
        }
    }
}

// What is wanted if a test must take a character. It includes the ASCII characters of a set if they are to be read.
fn wanted_by(words: &[u32], test: usize, reads_sets: bool) -> Wanted
    requires { HasTest words.now test }
    ensures bars { (s : Subject) (p : ℕ) → IsLacking words.now s result p → NotPassed words.now s test p }
    ensures test { TestsThere words.now result }
    ensures wants { (t : Test) → IsTestAt words.now test t → Wants words.now result t }
{
    if !reads_sets || word(words, test) != SreOpcode::IN as u32 {
        return Wanted::Test(test);
    }
    match ascii_taken(words, test) {
        Some(characters) if characters != AsciiSet::new() => Wanted::Set(test, characters),
        _ => Wanted::Test(test),
    }
}

// The ASCII characters with which a tree may begin, if its alternatives define them, or its leading optional repeats
// and what follows them.
fn characters_at(words: &[u32], place: usize) -> Option<AsciiSet>
    requires { HasTree words.now place }
    ensures { (t : Tree) → TreeStands words.now place t
        → IfSome result (λ set. (s : Subject) (p : ℕ) → NotAmong s set p → NoWay s t p) }
{
    if word(words, place) != SreOpcode::BRANCH as u32 {
        return beyond_runs(words, place);
    }
    let characters = first_characters(words, place + 1)?;
    Some(characters)
}

// What is wanted of the first character of a tree: what a test requires, or, if sets are to be read, its FIRST set.
fn wanted_at(words: &[u32], place: usize, reads_sets: bool) -> Wanted
    requires { HasTree words.now place }
    ensures bars { (t : Tree) → TreeStands words.now place t → (s : Subject) (p : ℕ) → IsLacking words.now s result p
        → NoWay s t p }
    ensures test { TestsThere words.now result }
    ensures wants { (t : Tree) (test : Test) → TreeStands words.now place t → first_test t ≡ Some test
        → IsPast words.now place → Wants words.now result test }
{
    if let Some(test) = wanted_test(words, place) {
        return wanted_by(words, test, reads_sets);
    }
    if !reads_sets {
        return Wanted::Anything;
    }
    match characters_at(words, place) {
        Some(characters) => Wanted::Characters(characters),
        None => Wanted::Anything,
    }
}

// The address after a repeat with least count 0, if there is one here.
fn behind_run(words: &[u32], place: usize) -> Option<usize>
    requires { HasTree words.now place }
    ensures passes { (t : Tree) → TreeStands words.now place t
        → IfSome result (λ behind. PassesRun words.now t (place + 4) behind) }
    ensures test { IfSome result (λ _. HasTest words.now (place + 4)) }
    ensures on { IfSome result (λ behind. (place < behind) × (place + 2 ^ 33 < 2 ^ 64)) }
{
    let opcode = SreOpcode::try_from(word(words, place)).ok()?;
    match opcode {
        SreOpcode::REPEAT_ONE | SreOpcode::MIN_REPEAT_ONE | SreOpcode::POSSESSIVE_REPEAT_ONE => {
            if operand(words, place, 2) > 0 {
                return None;
            }
            let skip = operand(words, place, 1) as usize;
            Some(place + 1 + skip)
        }
        _ => None,
    }
}

// The ASCII characters with which a tree may begin if optional repeats are first: what the repeats and the test after
// them take.
fn beyond_runs(words: &[u32], start: usize) -> Option<AsciiSet>
    requires { HasTree words.now start }
    ensures { (t : Tree) → TreeStands words.now start t
        → IfSome result (λ set. (s : Subject) (p : ℕ) → NotAmong s set p → NoWay s t p) }
{
    let mut place = start;
    let mut characters = AsciiSet::new();
    'run: loop {
        let reached = follow(words, place);
        if reached.back > 0 {
            return None;
        }
        if let Some(test) = wanted_test(words, reached.place) {
            let own = ascii_taken(words, test)?;
            return Some(characters.union(own));
        }
        let behind = behind_run(words, reached.place)?;
        let own = ascii_taken(words, reached.place + 4)?;
        characters = characters.union(own);
        place = behind;
    }
}

/// Whether an opcode is a test of one character.
pub(crate) fn is_test(opcode: SreOpcode) -> bool
    ensures { result ≡ begins_test opcode }
{
    match opcode {
        SreOpcode::ANY
        | SreOpcode::ANY_ALL
        | SreOpcode::CATEGORY
        | SreOpcode::LITERAL
        | SreOpcode::LITERAL_IGNORE
        | SreOpcode::LITERAL_LOC_IGNORE
        | SreOpcode::LITERAL_UNI_IGNORE
        | SreOpcode::NOT_LITERAL
        | SreOpcode::NOT_LITERAL_IGNORE
        | SreOpcode::NOT_LITERAL_LOC_IGNORE
        | SreOpcode::NOT_LITERAL_UNI_IGNORE
        | SreOpcode::IN
        | SreOpcode::IN_IGNORE
        | SreOpcode::IN_LOC_IGNORE
        | SreOpcode::IN_UNI_IGNORE => true,
        _ => false,
    }
}

// The ASCII characters that the test at an address takes, if they are known. Most alternatives begin with a LITERAL,
// which takes no call.
#[inline(always)]
fn taken_at(words: &[u32], test: usize) -> Option<AsciiSet>
    requires { HasTest words.now test }
    ensures { IfSome result (λ taken. TakesAscii words.now test taken) }
{
    if word(words, test) == SreOpcode::LITERAL as u32 {
        return Some(AsciiSet::of_character(operand(words, test, 1)));
    }
    ascii_taken(words, test)
}

// The ASCII characters with which the alternatives from a length word on may begin, if each begins with a test whose
// characters are known.
fn first_characters(words: &[u32], start: usize) -> Option<AsciiSet>
    requires { HasAlternatives words.now start }
    ensures { (j : ℕ) (ts : Trees) → ReadsBranch words.now start j ts
        → IfSome result (λ set. (s : Subject) (p : ℕ) → NotAmong s set p → NoneOf s ts p) }
{
    let mut place = start;
    let mut characters = AsciiSet::new();
    'alternative: loop {
        let length = word(words, place) as usize;
        let reached = follow(words, place + 1);
        if reached.back > 0 {
            return None;
        }
        let test = wanted_test(words, reached.place)?;
        let own = taken_at(words, test)?;
        characters = characters.union(own);
        place += length;
        if word(words, place) == 0 {
            return Some(characters);
        }
    }
}
