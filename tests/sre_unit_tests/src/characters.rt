//! Worked examples, and what no clause says: printed texts, and the trait through its bound.

use crate::shown::is_shown;
use sre_chars::constants::{
    CODESIZE, MAXGROUPS, MAXREPEAT, SreAtCode, SreCatCode, SreOpcode, UnknownCode,
};
use sre_chars::string::{StrDrive, StringCursor, UniError, UniTable, category};
use std::alloc::Global;

// Words and the codes with these numbers, as in CPython's `_constants.py`.
static CODES: [(
    u32,
    Option<SreOpcode>,
    Option<SreAtCode>,
    Option<SreCatCode>,
); 13] = [
    (
        0,
        Some(SreOpcode::FAILURE),
        Some(SreAtCode::BEGINNING),
        Some(SreCatCode::DIGIT),
    ),
    (
        1,
        Some(SreOpcode::SUCCESS),
        Some(SreAtCode::BEGINNING_LINE),
        Some(SreCatCode::NOT_DIGIT),
    ),
    (
        7,
        Some(SreOpcode::BRANCH),
        Some(SreAtCode::END_STRING),
        Some(SreCatCode::NOT_LINEBREAK),
    ),
    (
        9,
        Some(SreOpcode::CHARSET),
        Some(SreAtCode::LOC_NON_BOUNDARY),
        Some(SreCatCode::LOC_NOT_WORD),
    ),
    (
        11,
        Some(SreOpcode::GROUPREF),
        Some(SreAtCode::UNI_NON_BOUNDARY),
        Some(SreCatCode::UNI_NOT_DIGIT),
    ),
    (
        12,
        Some(SreOpcode::GROUPREF_EXISTS),
        None,
        Some(SreCatCode::UNI_SPACE),
    ),
    (
        17,
        Some(SreOpcode::MARK),
        None,
        Some(SreCatCode::UNI_NOT_LINEBREAK),
    ),
    (18, Some(SreOpcode::MAX_UNTIL), None, None),
    (25, Some(SreOpcode::SUBPATTERN), None, None),
    (42, Some(SreOpcode::RANGE_UNI_IGNORE), None, None),
    (43, None, None, None),
    (44, None, None, None),
    (4294967295, None, None, None),
];

// Whether a word converts to these codes.
fn becomes(
    word: u32,
    opcode: Option<SreOpcode>,
    at: Option<SreAtCode>,
    category: Option<SreCatCode>,
) -> bool {
    SreOpcode::try_from(word).ok() == opcode
        && SreAtCode::try_from(word).ok() == at
        && SreCatCode::try_from(word).ok() == category
}

#[test]
fn words_become_codes(rt: HostRuntime) {
    assert!(rt; CODESIZE == 4 && MAXREPEAT == 4294967295 && MAXGROUPS == 2147483647);
    for &(word, opcode, at, category) in &CODES {
        assert!(rt; becomes(word, opcode, at, category), "{word}");
    }
    assert!(rt; SreOpcode::try_from(43).err() == Some(UnknownCode(43)));
}

static ERRORS: [(UniError, u32, &str); 4] = [
    (UniError::Memory, 1, "out of memory"),
    (UniError::Unsorted, 2, "Unsorted"),
    (UniError::AsciiEntry, 3, "AsciiEntry"),
    (UniError::NotScalar, 4, "NotScalar"),
];

#[test]
fn errors_have_numbers_and_words(rt: HostRuntime) {
    for &(error, number, words) in &ERRORS {
        assert!(rt; error.number() == number && is_shown(rt.alloc(), &error, words));
    }
    let refusal = UnknownCode(43);
    assert!(rt; refusal.number() == 1 && is_shown(rt.alloc(), &refusal, "unknown code 43"));
}

// Whether two cursors are equal.
fn same(one: StringCursor, other: StringCursor) -> bool {
    one.position() == other.position() && one.offset() == other.offset()
}

// Whether every call reaches the cursor of a character.
fn is_reached<S: StrDrive>(text: S, i: usize) -> bool {
    let n = text.count();
    if i >= n {
        return false;
    }
    let place = text.create_cursor(i);
    let mut skipped = text.create_cursor(0);
    text.skip(&mut skipped, i);
    let mut back = text.create_cursor(n);
    text.back_skip(&mut back, n - i);
    let mut adjusted = StringCursor::new(n, 1);
    text.adjust_cursor(&mut adjusted, i);
    same(skipped, place) && same(back, place) && same(adjusted, place)
}

// Whether a character is read from both sides.
fn is_read<S: StrDrive>(text: S, i: usize, character: u32) -> bool {
    if i >= text.count() {
        return false;
    }
    let mut cursor = text.create_cursor(i);
    if text.peek(&cursor) != character || text.advance(&mut cursor) != character {
        return false;
    }
    if text.back_peek(&cursor) != character || !same(cursor, text.create_cursor(i + 1)) {
        return false;
    }
    text.back_advance(&mut cursor) == character && same(cursor, text.create_cursor(i))
}

// Whether a text consists of these characters, each read from both sides, and each cursor reached by every call.
fn is_text_of<S: StrDrive>(text: S, chars: &[u32]) -> bool {
    for (i, character) in chars.iter().enumerate() {
        if !is_reached(text, i) || !is_read(text, i, *character) {
            return false;
        }
    }
    text.count() == chars.len()
}

static TEXTS: [(&str, &[u32]); 5] = [
    ("", &[]),
    ("a", &[97]),
    ("é€", &[233, 8364]),
    ("aé€😀", &[97, 233, 8364, 128512]),
    (
        "\u{0}\u{7f}\u{80}\u{7ff}\u{800}\u{d7ff}\u{e000}\u{ffff}\u{10000}\u{10ffff}",
        &[0, 127, 128, 2047, 2048, 55295, 57344, 65535, 65536, 1114111],
    ),
];

// Whether a text consists of these characters, with both repeated so many times.
fn is_repeated(alloc: Global, text: &str, chars: &[u32], times: usize) -> bool {
    match (text.repeat(alloc, times), chars.repeat(alloc, times)) {
        (Ok(text), Ok(chars)) => is_text_of(text.as_str(), chars.as_slice()),
        _ => false,
    }
}

// Each `str` is repeated to be longer than several blocks of bytes, whose edges then cut characters of each width.
#[test]
fn texts_are_their_characters(rt: HostRuntime) {
    let bytes = [0u8, 7, 9, 127, 128, 195, 169, 255];
    assert!(rt; is_text_of(bytes.as_slice(), &[0, 7, 9, 127, 128, 195, 169, 255]));
    for &(text, chars) in &TEXTS {
        assert!(rt; is_repeated(rt.alloc(), text, chars, 1));
        assert!(rt; is_repeated(rt.alloc(), text, chars, 70));
    }
}

// The ranges are CPython's. Of its Unicode word characters only ASCII is here, since the table has no others.
static CATEGORIES: [(SreCatCode, SreCatCode, &[(u32, u32)]); 9] = [
    (SreCatCode::DIGIT, SreCatCode::NOT_DIGIT, DIGITS),
    (
        SreCatCode::SPACE,
        SreCatCode::NOT_SPACE,
        &[(9, 13), (32, 32)],
    ),
    (SreCatCode::WORD, SreCatCode::NOT_WORD, WORDS),
    (
        SreCatCode::LINEBREAK,
        SreCatCode::NOT_LINEBREAK,
        &[(10, 10)],
    ),
    (SreCatCode::LOC_WORD, SreCatCode::LOC_NOT_WORD, WORDS),
    (SreCatCode::UNI_DIGIT, SreCatCode::UNI_NOT_DIGIT, DIGITS),
    (
        SreCatCode::UNI_SPACE,
        SreCatCode::UNI_NOT_SPACE,
        &[
            (9, 13),
            (28, 32),
            (133, 133),
            (160, 160),
            (5760, 5760),
            (8192, 8202),
            (8232, 8233),
            (8239, 8239),
            (8287, 8287),
            (12288, 12288),
        ],
    ),
    (SreCatCode::UNI_WORD, SreCatCode::UNI_NOT_WORD, WORDS),
    (
        SreCatCode::UNI_LINEBREAK,
        SreCatCode::UNI_NOT_LINEBREAK,
        &[(10, 13), (28, 30), (133, 133), (8232, 8233)],
    ),
];

const DIGITS: &[(u32, u32)] = &[(48, 57)];

const WORDS: &[(u32, u32)] = &[(48, 57), (65, 90), (95, 95), (97, 122)];

// Whether a character is in one of some ranges.
fn is_in(runs: &[(u32, u32)], ch: u32) -> bool {
    for &(low, high) in runs {
        if low <= ch && ch <= high {
            return true;
        }
    }
    false
}

#[test]
fn categories_are_those_of_cpython(rt: HostRuntime) {
    let table = UniTable::ascii(rt.alloc());
    for &(plain, negated, runs) in &CATEGORIES {
        for ch in 0..12300 {
            let is_member = is_in(runs, ch);
            assert!(rt; category(&table, plain, ch) == is_member, "{ch}");
            assert!(rt; category(&table, negated, ch) != is_member, "not {ch}");
        }
    }
}
