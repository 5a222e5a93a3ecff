//! Parses a line as a case, field by field.
//!
//! A case is `check WORDS`, or `match`, `search` or `walk` with WORDS TEXT WINDOW FLAGS. Fields are separated by one
//! space. The whole line is read before its bytecode is checked, and any other line is rejected.

ghost use Rattle.std.specs.Prelude.{◌≡◌, ◌≢◌, ℕ, ◌^◌, ◌<◌, ◌++◌, ◌∷◌, List, All, Contains, IfSome, IfNone, IfOk, OnOk};
ghost use Rattle.std.specs.Prelude.{[]};
ghost use Rattle.sre_lines.specs.Terms.{decimal, Refused};
ghost use Rattle.sre_lines.specs.Fields.{verb_text, words_text, window_text, IsWindow, flags_text, form_text};
ghost use Rattle.sre_lines.specs.Fields.{bytes_text, subject_text, case_text, IsText, AreWords, IsSubject, IsCase};

use crate::number::{decimal_number, read_hex};
use sre_engine::EmptyRule;
use sre_growth::Refusal;
use std::alloc::Allocator;

/// Why a line could not be read as a case.
#[derive(Clone, Copy)]
pub enum LineFault {
    /// The line is no case.
    NotACase,
    /// An allocation failed before the line was known to be a case.
    NoMemory,
}

impl<A: Allocator> From<Refusal<A>> for LineFault {
    ghost use Rattle.std.specs.Prelude.{◌≡◌};
    ghost use Rattle.sre_lines.specs.declared.line.LineFault.TheVariants.{NoMemory};

    ghost from_gives = { λ _ fault. fault ≡ NoMemory };

    fn from(_refusal: Refusal<A>) -> LineFault {
        LineFault::NoMemory
    }
}

/// The command of a case.
#[derive(Clone, Copy)]
pub(crate) enum Verb {
    Check,
    Find(Finding),
}

/// A case. Its bytecode and its text are in [`Operands`].
#[derive(Clone, Copy)]
pub enum Case {
    /// `check`: whether the bytecode passes the check, and its hints.
    Check,
    /// One match, or all.
    Find(Finding, Subject),
}

/// Where a match may start, and how many matches are wanted.
#[derive(Clone, Copy)]
pub enum Finding {
    /// `match`: at the start of the range.
    Match,
    /// `search`: anywhere in the range; the least start wins.
    Search,
    /// `walk`: all matches, each search from the end of the match before.
    Walk,
}

/// How the text of a case is searched.
#[derive(Clone, Copy)]
pub struct Subject {
    pub text: TextForm,
    pub window: Window,
    pub flags: Flags,
}

/// The form of a text.
#[derive(Clone, Copy)]
pub enum TextForm {
    /// `b:`, each byte a character.
    Bytes,
    /// `s:`, UTF-8 (RFC 3629).
    Utf8,
}

/// The range of a case in positions, which a request limits to the text.
#[derive(Clone, Copy)]
pub enum Window {
    /// `all`, the whole text.
    Whole,
    /// `START..END`
    Span { start: usize, end: usize },
}

/// The flags of a case, `-` for none.
#[derive(Clone, Copy)]
pub struct Flags {
    /// `f`: the match must end at the end of the range.
    pub match_all: bool,
    /// `a`: the match must end after the start of the range.
    pub must_advance: bool,
    /// `n`: `\B` matches an empty text.
    pub empty_rule: EmptyRule,
}

/// The bytecode and the text of the line that was read last. Their memory is reused for each line.
#[derive(Drop)]
pub struct Operands<A: Allocator> {
    pub words: Vec<u32, A>,
    pub text: Vec<u8, A>,
}

/// Reads a line, and stores its bytecode and its text in `operands`.
pub fn read_case<A: Allocator>(line: &[u8], operands: &mut Operands<A>) -> Result<Case, LineFault>
    ensures read { IfOk result (λ case. case_text case operands.new.words.items operands.new.text.items ≡ line.now) }
    ensures lawful { IfOk result (λ case. IsCase case operands.new.words.items operands.new.text.items) }
    ensures refused { result ≡ Err LineFault.NotACase → (case : Case) (words text : List ℕ) → IsCase case words text
        → case_text case words text ≢ line.now }
    ensures memory { result ≡ Err LineFault.NoMemory → Refused A }
{
    let Some((verb, fields)) = split_once(line, b' ') else {
        return Err(LineFault::NotACase);
    };
    match verb_of(verb) {
        Some(Verb::Check) => {
            read_words(fields, &mut operands.words)?;
            Ok(Case::Check)
        }
        Some(Verb::Find(finding)) => Ok(Case::Find(finding, read_subject(fields, operands)?)),
        None => Err(LineFault::NotACase),
    }
}

/// The command that a field denotes.
pub(crate) fn verb_of(field: &[u8]) -> Option<Verb>
    ensures written { IfSome result (λ verb. verb_text verb ≡ field.now) }
    ensures refused { IfNone result ((verb : Verb) → verb_text verb ≢ field.now) }
{
    match field {
        b"check" => Some(Verb::Check),
        b"match" => Some(Verb::Find(Finding::Match)),
        b"search" => Some(Verb::Find(Finding::Search)),
        b"walk" => Some(Verb::Find(Finding::Walk)),
        _ => None,
    }
}

// Reads the fields WORDS TEXT WINDOW FLAGS, first those that need no allocation.
fn read_subject<A: Allocator>(
    fields: &[u8],
    operands: &mut Operands<A>,
) -> Result<Subject, LineFault>
    ensures read { IfOk result (λ subject. words_text operands.new.words.items
        ++ subject_text subject operands.new.text.items ≡ fields.now) }
    ensures words { OnOk result (AreWords operands.new.words.items) }
    ensures subject { IfOk result (λ subject. IsSubject subject operands.new.text.items) }
    ensures refused { result ≡ Err LineFault.NotACase → (subject : Subject) (words text : List ℕ) → AreWords words
        → IsSubject subject text → words_text words ++ subject_text subject text ≢ fields.now }
    ensures memory { result ≡ Err LineFault.NoMemory → Refused A }
{
    let Some((words, fields)) = split_once(fields, b' ') else {
        return Err(LineFault::NotACase);
    };
    let Some((text, fields)) = split_once(fields, b' ') else {
        return Err(LineFault::NotACase);
    };
    let Some((window, flags)) = split_once(fields, b' ') else {
        return Err(LineFault::NotACase);
    };
    let Some(window) = window_of(window) else {
        return Err(LineFault::NotACase);
    };
    let Some(flags) = flags_of(flags) else {
        return Err(LineFault::NotACase);
    };
    read_words(words, &mut operands.words)?;
    let text = read_text(text, &mut operands.text)?;
    Ok(Subject {
        text,
        window,
        flags,
    })
}

/// Reads numbers up to 4294967295 separated by commas, or `-` for none.
pub(crate) fn read_words<A: Allocator>(
    field: &[u8],
    words: &mut Vec<u32, A>,
) -> Result<(), LineFault>
    ensures read { OnOk result (words_text words.new.items ≡ field.now) }
    ensures fit { OnOk result (AreWords words.new.items) }
    ensures refused { result ≡ Err LineFault.NotACase → (ws : List ℕ) → AreWords ws → words_text ws ≢ field.now }
    ensures memory { result ≡ Err LineFault.NoMemory → Refused A }
{
    words.clear();
    if field == b"-".as_slice() {
        return Ok(());
    }
    let mut left = field;
    'words: loop {
        let Some((digits, others)) = split_once(left, b',') else {
            return push_word(left, words);
        };
        push_word(digits, words)?;
        left = others;
    }
}

// Reads one more code word.
#[tactic(auto, using(crate::proofs::Numbers::too_large_is_not_written))]
fn push_word<A: Allocator>(digits: &[u8], words: &mut Vec<u32, A>) -> Result<(), LineFault>
    ensures read { OnOk result
        ((w : ℕ) × (decimal w ≡ digits.now) × (words.new.items ≡ words.old.items ++ w ∷ []) × (w < 2 ^ 32)) }
    ensures refused { result ≡ Err LineFault.NotACase → (w : ℕ) → w < 2 ^ 32 → decimal w ≢ digits.now }
    ensures memory { result ≡ Err LineFault.NoMemory → Refused A }
{
    match decimal_number(digits) {
        Some(number) if number <= u64::from(u32::MAX) => {
            sre_growth::push(words, number as u32)?;
            Ok(())
        }
        _ => Err(LineFault::NotACase),
    }
}

// Reads the form of a text and its bytes.
fn read_text<A: Allocator>(field: &[u8], text: &mut Vec<u8, A>) -> Result<TextForm, LineFault>
    ensures read { IfOk result (λ form. bytes_text form text.new.items ≡ field.now) }
    ensures fit { OnOk result (All (λ b. b < 256) text.new.items) }
    ensures is_text { IfOk result (λ form. IsText form text.new.items) }
    ensures refused { result ≡ Err LineFault.NotACase → (form : TextForm) (bytes : List ℕ) → All (λ b. b < 256) bytes
        → IsText form bytes → bytes_text form bytes ≢ field.now }
    ensures memory { result ≡ Err LineFault.NoMemory → Refused A }
{
    let Some((form, digits)) = split_once(field, b':') else {
        return Err(LineFault::NotACase);
    };
    let Some(form) = form_of(form) else {
        return Err(LineFault::NotACase);
    };
    read_hex(digits, text)?;
    match form {
        TextForm::Utf8 if str::from_utf8(text.as_slice()).is_err() => Err(LineFault::NotACase),
        _ => Ok(form),
    }
}

/// The form of a text that a letter denotes.
pub(crate) fn form_of(letter: &[u8]) -> Option<TextForm>
    ensures written { IfSome result (λ form. form_text form ≡ letter.now) }
    ensures refused { IfNone result ((form : TextForm) → form_text form ≢ letter.now) }
{
    match letter {
        b"b" => Some(TextForm::Bytes),
        b"s" => Some(TextForm::Utf8),
        _ => None,
    }
}

/// The range that a field denotes.
pub(crate) fn window_of(field: &[u8]) -> Option<Window>
    ensures written { IfSome result (λ window. window_text window ≡ field.now) }
    ensures fits { IfSome result IsWindow }
    ensures refused { IfNone result ((window : Window) → IsWindow window → window_text window ≢ field.now) }
{
    if field == b"all".as_slice() {
        return Some(Window::Whole);
    }
    let (start, rest) = split_once(field, b'.')?;
    let (between, end) = split_once(rest, b'.')?;
    if !between.is_empty() {
        return None;
    }
    Some(Window::Span {
        start: decimal_number(start)? as usize,
        end: decimal_number(end)? as usize,
    })
}

/// The flags that a field denotes.
pub(crate) fn flags_of(field: &[u8]) -> Option<Flags>
    ensures written { IfSome result (λ flags. flags_text flags ≡ field.now) }
    ensures refused { IfNone result ((flags : Flags) → flags_text flags ≢ field.now) }
{
    let (match_all, must_advance, empty_rule) = match field {
        b"-" => (false, false, EmptyRule::Never),
        b"f" => (true, false, EmptyRule::Never),
        b"a" => (false, true, EmptyRule::Never),
        b"fa" => (true, true, EmptyRule::Never),
        b"n" => (false, false, EmptyRule::NonBoundary),
        b"fn" => (true, false, EmptyRule::NonBoundary),
        b"an" => (false, true, EmptyRule::NonBoundary),
        b"fan" => (true, true, EmptyRule::NonBoundary),
        _ => return None,
    };
    Some(Flags {
        match_all,
        must_advance,
        empty_rule,
    })
}

/// Splits a field at the first byte `at`, which neither part contains. `None` if there is no such byte.
pub fn split_once(field: &[u8], at: u8) -> Option<(&[u8], &[u8])>
    ensures parts { IfSome result (λ parts. parts.0.now ++ at ∷ parts.1.now ≡ field.now) }
    ensures first { IfSome result (λ parts. ¬ (Contains parts.0.now at)) }
    ensures none { IfNone result (¬ (Contains field.now at)) }
{
    let i = field.iter().position(|byte| *byte == at)?;
    Some((&field[..i], &field[i + 1..]))
}
