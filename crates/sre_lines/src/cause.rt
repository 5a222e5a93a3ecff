//! Why a line is no case: the faulty field, and what is wrong with it.
//!
//! The line is parsed again without allocation. The first fault from the left is reported, with one exception: a text
//! that is not UTF-8 is reported only if the line has no other fault.

ghost use Rattle.std.specs.Prelude.{◌≡◌, ◌≢◌, ℕ, ◌+◌, ◌<◌, ◌++◌, ◌∷◌, List, [], All, IfSome, IfNone, IsTrue, ◌↔◌};
ghost use Rattle.std.specs.Prelude.{codes, IsFalse};
ghost use Rattle.sre_lines.specs.Terms.{decimal, IsNumeral};
ghost use Rattle.sre_lines.specs.Fields.{AreWords, IsSubject, words_text, subject_text, verb_text};
ghost use Rattle.sre_lines.specs.Lines.{IsNoCase, IsLineAt};
ghost use Rattle.sre_lines.specs.Causes.{IsCause, IsCauseOf, IsNoSubject, fields_of, cause_text, IsWords, IsWordsFault};
ghost use Rattle.sre_lines.specs.Causes.{IsNumberFault, IsBytes, IsTextFault, IsHexDigit, HasOther, IsWindowField};
ghost use Rattle.sre_lines.specs.Causes.{IsWindowFault, IsFlagsField, IsFlag, IsFlagsFault};
ghost use Rattle.sre_lines.specs.declared.line.Finding.{Finding};
ghost use Rattle.sre_lines.specs.declared.line.Subject.{Subject};

use crate::line::{Verb, flags_of, form_of, split_once, verb_of};
use crate::number::{decimal_number, hex_digit};

/// Why a line is no case.
#[derive(Clone, Copy)]
pub enum Cause {
    /// COMMAND: it is none of the four.
    UnknownCommand,
    /// The line has fewer fields than its command takes.
    FieldMissing,
    /// The line has more fields than its command takes, or two adjacent spaces.
    FieldTooMany,
    /// WORDS: the fault of the first part that is no number up to 4294967295.
    Words(NumberFault),
    /// TEXT
    Text(TextFault),
    /// WINDOW
    Window(WindowFault),
    /// FLAGS
    Flags(FlagsFault),
    /// TEXT: the bytes after `s:` are not UTF-8, and the line has no other fault.
    NotUtf8,
}

/// Why digits denote no number of a field.
#[derive(Clone, Copy)]
pub enum NumberFault {
    /// There are none, or some are no digits.
    NoNumber,
    /// There are several, and the first is zero.
    LeadingZero,
    /// The number is above the greatest that the field takes.
    TooLarge,
}

/// Why a field denotes no text.
#[derive(Clone, Copy)]
pub enum TextFault {
    /// It begins neither with `b:` nor with `s:`.
    NoForm,
    /// The number of digits is odd.
    OddDigits,
    /// A digit is not lower-case hexadecimal.
    NoHexDigit,
}

/// Why a field denotes no range.
#[derive(Clone, Copy)]
pub enum WindowFault {
    /// It is neither `all` nor `START..END`.
    NoWindow,
    /// START, or else END, is no number up to 18446744073709551615.
    Number(NumberFault),
}

/// Why a field denotes no flags.
#[derive(Clone, Copy)]
pub enum FlagsFault {
    /// It is empty.
    NoFlag,
    /// A letter is none of `f`, `a` and `n`.
    UnknownFlag,
    /// The letters are out of order, or one occurs twice.
    OutOfOrder,
}

impl Cause {
    /// The rest of a fault's line: the field, and what is wrong with it.
    pub(crate) fn told(self) -> &'static str
        ensures { result.now ≡ codes ": " ++ cause_text self ++ 10 ∷ [] }
    {
        match self {
            Cause::UnknownCommand => ": COMMAND: unknown command\n",
            Cause::FieldMissing => ": the line: a field is missing\n",
            Cause::FieldTooMany => ": the line: a field too many\n",
            Cause::Words(NumberFault::NoNumber) => ": WORDS: no number\n",
            Cause::Words(NumberFault::LeadingZero) => ": WORDS: a leading zero\n",
            Cause::Words(NumberFault::TooLarge) => ": WORDS: a number above 4294967295\n",
            Cause::Text(TextFault::NoForm) => ": TEXT: neither b: nor s:\n",
            Cause::Text(TextFault::OddDigits) => ": TEXT: an odd number of digits\n",
            Cause::Text(TextFault::NoHexDigit) => ": TEXT: no hexadecimal digit\n",
            Cause::NotUtf8 => ": TEXT: no UTF-8\n",
            Cause::Window(WindowFault::NoWindow) => ": WINDOW: neither all nor START..END\n",
            Cause::Window(WindowFault::Number(NumberFault::NoNumber)) => ": WINDOW: no number\n",
            Cause::Window(WindowFault::Number(NumberFault::LeadingZero)) =>
                ": WINDOW: a leading zero\n",
            Cause::Window(WindowFault::Number(NumberFault::TooLarge)) => {
                ": WINDOW: a number above 18446744073709551615\n"
            }
            Cause::Flags(FlagsFault::NoFlag) => ": FLAGS: neither - nor flags\n",
            Cause::Flags(FlagsFault::UnknownFlag) => ": FLAGS: an unknown flag\n",
            Cause::Flags(FlagsFault::OutOfOrder) => ": FLAGS: flags out of order or twice\n",
        }
    }
}

/// Returns the line with this number in a file. All lines count, from 1.
pub fn line_at(file: &[u8], number: u64) -> &[u8]
    requires { (line : List ℕ) × IsLineAt file.now number line }
    ensures { IsLineAt file.now number result.now }
{
    let mut left = file;
    for _ in 1..number {
        let Some((_line, others)) = split_once(left, b'\n') else {
            unreachable!()
        };
        left = others;
    }
    match split_once(left, b'\n') {
        Some((line, _others)) => line,
        None => left,
    }
}

/// Returns why a line is no case. The line must be none.
pub fn cause_of(line: &[u8]) -> Cause
    requires { IsNoCase line.now }
    ensures { IsCause line.now result }
{
    let Some((command, fields)) = split_once(line, b' ') else {
        return lone_cause(line);
    };
    match verb_of(command) {
        Some(Verb::Check) => check_cause(fields),
        Some(Verb::Find(_finding)) => find_cause(fields),
        None => Cause::UnknownCommand,
    }
}

// Why a line of one field is no case.
fn lone_cause(command: &[u8]) -> Cause
    ensures { IsCauseOf command.now [] result }
{
    match verb_of(command) {
        Some(_) => Cause::FieldMissing,
        None => Cause::UnknownCommand,
    }
}

// Why the fields after `check` make no case.
fn check_cause(fields: &[u8]) -> Cause
    requires { (words : List ℕ) → AreWords words → words_text words ≢ fields.now }
    ensures { IsCauseOf (verb_text Verb.Check) (fields_of fields.now) result }
{
    if let Some((_words, _others)) = split_once(fields, b' ') {
        return Cause::FieldTooMany;
    }
    match words_fault(fields) {
        Some(fault) => Cause::Words(fault),
        None => unreachable!(),
    }
}

// Why the fields after a command that finds matches make no case.
fn find_cause(fields: &[u8]) -> Cause
    requires { (subject : Subject) (words text : List ℕ) → AreWords words → IsSubject subject text
        → words_text words ++ subject_text subject text ≢ fields.now }
    ensures { (finding : Finding) → IsCauseOf (verb_text (Verb.Find finding)) (fields_of fields.now) result }
{
    let Some((words, fields)) = split_once(fields, b' ') else {
        return Cause::FieldMissing;
    };
    let Some((text, fields)) = split_once(fields, b' ') else {
        return Cause::FieldMissing;
    };
    let Some((window, flags)) = split_once(fields, b' ') else {
        return Cause::FieldMissing;
    };
    if let Some((_flags, _others)) = split_once(flags, b' ') {
        return Cause::FieldTooMany;
    }
    field_cause(words, text, window, flags)
}

// Why four fields make no case: the first fault from the left, or that the text is not UTF-8.
fn field_cause(words: &[u8], text: &[u8], window: &[u8], flags: &[u8]) -> Cause
    requires { IsNoSubject words.now text.now window.now flags.now }
    ensures { (finding : Finding) → IsCauseOf (verb_text (Verb.Find finding))
        (words.now ∷ text.now ∷ window.now ∷ flags.now ∷ []) result }
{
    if let Some(fault) = words_fault(words) {
        return Cause::Words(fault);
    }
    if let Some(fault) = text_fault(text) {
        return Cause::Text(fault);
    }
    if let Some(fault) = window_fault(window) {
        return Cause::Window(fault);
    }
    if let Some(fault) = flags_fault(flags) {
        return Cause::Flags(fault);
    }
    Cause::NotUtf8
}

// The fault of the first part of a field that is no code word, if there is one.
fn words_fault(field: &[u8]) -> Option<NumberFault>
    ensures none { IfNone result (IsWords field.now) }
    ensures fault { IfSome result (IsWordsFault field.now) }
{
    if field == b"-".as_slice() {
        return None;
    }
    let mut left = field;
    'words: loop {
        let Some((digits, others)) = split_once(left, b',') else {
            return number_fault(left, 4294967295);
        };
        if let Some(fault) = number_fault(digits, 4294967295) {
            return Some(fault);
        }
        left = others;
    }
}

// The fault of digits that denote no number up to `most`.
fn number_fault(digits: &[u8], most: u64) -> Option<NumberFault>
    ensures none { IfNone result ((n : ℕ) × (n < most + 1) × (decimal n ≡ digits.now)) }
    ensures fault { IfSome result (IsNumberFault (most + 1) digits.now) }
{
    if !is_numeral(digits) {
        return Some(NumberFault::NoNumber);
    }
    if digits.len() > 1 && digits[0] == b'0' {
        return Some(NumberFault::LeadingZero);
    }
    match decimal_number(digits) {
        Some(number) if number <= most => None,
        _ => Some(NumberFault::TooLarge),
    }
}

// Whether there are digits and nothing else.
fn is_numeral(digits: &[u8]) -> bool
    ensures { IsTrue result ↔ IsNumeral 10 digits.now }
{
    if digits.is_empty() {
        return false;
    }
    for digit in digits {
        if !digit.is_ascii_digit() {
            return false;
        }
    }
    true
}

// The fault of a text's form or digits.
fn text_fault(field: &[u8]) -> Option<TextFault>
    ensures none { IfNone result (IsBytes field.now) }
    ensures fault { IfSome result (IsTextFault field.now) }
{
    let Some((form, digits)) = split_once(field, b':') else {
        return Some(TextFault::NoForm);
    };
    let Some(_form) = form_of(form) else {
        return Some(TextFault::NoForm);
    };
    if digits.len() % 2 != 0 {
        return Some(TextFault::OddDigits);
    }
    if !are_hex_digits(digits) {
        return Some(TextFault::NoHexDigit);
    }
    None
}

// Whether all digits are lower-case hexadecimal.
fn are_hex_digits(digits: &[u8]) -> bool
    ensures all { IsTrue result → All IsHexDigit digits.now }
    ensures other { IsFalse result → HasOther IsHexDigit digits.now }
{
    for digit in digits {
        if hex_digit(*digit).is_none() {
            return false;
        }
    }
    true
}

// The fault of a range.
fn window_fault(field: &[u8]) -> Option<WindowFault>
    ensures none { IfNone result (IsWindowField field.now) }
    ensures fault { IfSome result (IsWindowFault field.now) }
{
    if field == b"all".as_slice() {
        return None;
    }
    let Some((start, rest)) = split_once(field, b'.') else {
        return Some(WindowFault::NoWindow);
    };
    let Some((between, end)) = split_once(rest, b'.') else {
        return Some(WindowFault::NoWindow);
    };
    if !between.is_empty() {
        return Some(WindowFault::NoWindow);
    }
    if let Some(fault) = number_fault(start, u64::MAX) {
        return Some(WindowFault::Number(fault));
    }
    match number_fault(end, u64::MAX) {
        Some(fault) => Some(WindowFault::Number(fault)),
        None => None,
    }
}

// The fault of flags.
fn flags_fault(field: &[u8]) -> Option<FlagsFault>
    ensures none { IfNone result (IsFlagsField field.now) }
    ensures fault { IfSome result (IsFlagsFault field.now) }
{
    if flags_of(field).is_some() {
        return None;
    }
    if field.is_empty() {
        return Some(FlagsFault::NoFlag);
    }
    if are_flags(field) {
        Some(FlagsFault::OutOfOrder)
    } else {
        Some(FlagsFault::UnknownFlag)
    }
}

// Whether all letters are those of flags.
fn are_flags(letters: &[u8]) -> bool
    ensures all { IsTrue result → All IsFlag letters.now }
    ensures other { IsFalse result → HasOther IsFlag letters.now }
{
    for letter in letters {
        if !matches!(*letter, b'f' | b'a' | b'n') {
            return false;
        }
    }
    true
}
