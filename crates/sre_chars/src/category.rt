//! The categories of characters.
//!
//! The plain forms and the locale forms know only ASCII. The Unicode forms have fixed lists of whitespace and of line
//! breaks, and use the tables for letters and digits past ASCII.

ghost use Rattle.std.specs.Prelude.{◌≡◌};
ghost use Rattle.sre_chars.specs.Numbers.{category_number};
ghost use Rattle.sre_chars.specs.Categories.{category, is_digit, is_space, is_word, is_linebreak};
ghost use Rattle.sre_chars.specs.Categories.{is_unicode_digit, is_unicode_space, is_unicode_word};
ghost use Rattle.sre_chars.specs.Categories.{is_unicode_linebreak};

use crate::constants::SreCatCode;
use crate::table::{LentTable, is_ascii_alphanumeric};

/// Whether a character is in a category.
///
/// A `NOT` form has exactly the characters that its plain form lacks. The lists are those of CPython's `_sre`, with the
/// alphanumerics and digits of `table` instead of its database.
#[inline(always)]
pub fn category(table: &LentTable, code: SreCatCode, ch: u32) -> bool
    ensures { result ≡ category table.now (category_number code) ch }
{
    match code {
        SreCatCode::DIGIT => is_digit(ch),
        SreCatCode::NOT_DIGIT => !is_digit(ch),
        SreCatCode::SPACE => is_space(ch),
        SreCatCode::NOT_SPACE => !is_space(ch),
        SreCatCode::WORD | SreCatCode::LOC_WORD => is_word(ch),
        SreCatCode::NOT_WORD | SreCatCode::LOC_NOT_WORD => !is_word(ch),
        SreCatCode::LINEBREAK => is_linebreak(ch),
        SreCatCode::NOT_LINEBREAK => !is_linebreak(ch),
        SreCatCode::UNI_DIGIT => is_unicode_digit(table, ch),
        SreCatCode::UNI_NOT_DIGIT => !is_unicode_digit(table, ch),
        SreCatCode::UNI_SPACE => is_unicode_space(ch),
        SreCatCode::UNI_NOT_SPACE => !is_unicode_space(ch),
        SreCatCode::UNI_WORD => is_unicode_word(table, ch),
        SreCatCode::UNI_NOT_WORD => !is_unicode_word(table, ch),
        SreCatCode::UNI_LINEBREAK => is_unicode_linebreak(ch),
        SreCatCode::UNI_NOT_LINEBREAK => !is_unicode_linebreak(ch),
    }
}

#[inline]
fn is_digit(ch: u32) -> bool
    ensures { result ≡ is_digit ch }
{
    matches!(ch, 48..=57)
}

fn is_unicode_digit(table: &LentTable, ch: u32) -> bool
    ensures { result ≡ is_unicode_digit table.now ch }
{
    if ch < 128 {
        is_digit(ch)
    } else {
        table.has_digit(ch)
    }
}

#[inline]
fn is_space(ch: u32) -> bool
    ensures { result ≡ is_space ch }
{
    matches!(ch, 9..=13 | 32)
}

#[inline]
fn is_word(ch: u32) -> bool
    ensures { result ≡ is_word ch }
{
    ch == 95 || is_ascii_alphanumeric(ch)
}

#[inline]
fn is_linebreak(ch: u32) -> bool
    ensures { result ≡ is_linebreak ch }
{
    ch == 10
}

fn is_unicode_space(ch: u32) -> bool
    ensures { result ≡ is_unicode_space ch }
{
    matches!(ch, 9..=13 | 28..=32 | 133 | 160 | 5760 | 8192..=8202 | 8232..=8233 | 8239 | 8287 | 12288)
}

fn is_unicode_word(table: &LentTable, ch: u32) -> bool
    ensures { result ≡ is_unicode_word table.now ch }
{
    ch == 95 || table.is_alphanumeric(ch)
}

fn is_unicode_linebreak(ch: u32) -> bool
    ensures { result ≡ is_unicode_linebreak ch }
{
    matches!(ch, 10..=13 | 28..=30 | 133 | 8232..=8233)
}
