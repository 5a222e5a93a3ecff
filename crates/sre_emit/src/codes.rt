//! The opcodes of tests, repeats and back-references, by folding or kind.

ghost use Rattle.std.specs.Prelude.{◌≡◌};
ghost use Rattle.sre_emit.specs.Parts.{fold_of, kind_of, order_of, sign_of};
ghost use Rattle.sre_model.specs.Grammar as grammar;

use crate::part::{Fold, RunKind};
use sre_chars::constants::SreOpcode;

pub fn literal_opcode(fold: Fold) -> SreOpcode
    ensures { result ≡ grammar.literal_opcode (fold_of fold) }
{
    match fold {
        Fold::Plain => SreOpcode::LITERAL,
        Fold::Ascii => SreOpcode::LITERAL_IGNORE,
        Fold::Locale => SreOpcode::LITERAL_LOC_IGNORE,
        Fold::Unicode => SreOpcode::LITERAL_UNI_IGNORE,
    }
}

pub fn not_literal_opcode(fold: Fold) -> SreOpcode
    ensures { result ≡ grammar.not_literal_opcode (fold_of fold) }
{
    match fold {
        Fold::Plain => SreOpcode::NOT_LITERAL,
        Fold::Ascii => SreOpcode::NOT_LITERAL_IGNORE,
        Fold::Locale => SreOpcode::NOT_LITERAL_LOC_IGNORE,
        Fold::Unicode => SreOpcode::NOT_LITERAL_UNI_IGNORE,
    }
}

pub fn set_opcode(fold: Fold) -> SreOpcode
    ensures { result ≡ grammar.set_opcode (fold_of fold) }
{
    match fold {
        Fold::Plain => SreOpcode::IN,
        Fold::Ascii => SreOpcode::IN_IGNORE,
        Fold::Locale => SreOpcode::IN_LOC_IGNORE,
        Fold::Unicode => SreOpcode::IN_UNI_IGNORE,
    }
}

pub fn reference_opcode(fold: Fold) -> SreOpcode
    ensures { result ≡ grammar.reference_opcode (fold_of fold) }
{
    match fold {
        Fold::Plain => SreOpcode::GROUPREF,
        Fold::Ascii => SreOpcode::GROUPREF_IGNORE,
        Fold::Locale => SreOpcode::GROUPREF_LOC_IGNORE,
        Fold::Unicode => SreOpcode::GROUPREF_UNI_IGNORE,
    }
}

pub fn run_opcode(kind: RunKind) -> SreOpcode
    ensures { result ≡ grammar.run_opcode (kind_of kind) }
{
    match kind {
        RunKind::Greedy => SreOpcode::REPEAT_ONE,
        RunKind::Lazy => SreOpcode::MIN_REPEAT_ONE,
        RunKind::Possessive => SreOpcode::POSSESSIVE_REPEAT_ONE,
    }
}

pub fn until_opcode(lazy: bool) -> SreOpcode
    ensures { result ≡ grammar.until_opcode (order_of lazy) }
{
    if lazy {
        SreOpcode::MIN_UNTIL
    } else {
        SreOpcode::MAX_UNTIL
    }
}

pub fn look_opcode(positive: bool) -> SreOpcode
    ensures { result ≡ grammar.look_opcode (sign_of positive) }
{
    if positive {
        SreOpcode::ASSERT
    } else {
        SreOpcode::ASSERT_NOT
    }
}
