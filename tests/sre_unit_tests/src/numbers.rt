//! The numbers of codes, as a cast returns them: a code has the number of the word from which it was converted.

use sre_chars::constants::{SreAtCode, SreCatCode, SreOpcode};
use std::convert::TryFrom;

// Whether a word has an opcode exactly if it is below their count, and that opcode has the word as its number.
fn has_opcode(word: u32) -> bool {
    match SreOpcode::try_from(word) {
        Ok(code) => code as u32 == word && word < 43,
        Err(_) => word >= 43,
    }
}

// The same for the codes of positions.
fn has_at_code(word: u32) -> bool {
    match SreAtCode::try_from(word) {
        Ok(code) => code as u32 == word && word < 12,
        Err(_) => word >= 12,
    }
}

// The same for the codes of categories.
fn has_category_code(word: u32) -> bool {
    match SreCatCode::try_from(word) {
        Ok(code) => code as u32 == word && word < 18,
        Err(_) => word >= 18,
    }
}

#[test]
fn codes_have_their_numbers(rt: HostRuntime) {
    for word in 0..100u32 {
        assert!(rt; has_opcode(word), "{word}");
        assert!(rt; has_at_code(word), "{word}");
        assert!(rt; has_category_code(word), "{word}");
    }
}
