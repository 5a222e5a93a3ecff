//! Answers the cases of a file.

ghost use Rattle.std.specs.Prelude.{◌≡◌, ◌≤◌, ◌++◌, ◌∷◌, [], ℕ, List, IfErr, OnErr, OnOk, string_bytes};
ghost use Rattle.sre_lines.specs.Terms.{Appends, ascii_table, Tree, Whole, words_of, asked_of, code_of, uni_of};
ghost use Rattle.sre_lines.specs.Answers.{fault_text, IsFaultOfCases};
ghost use Rattle.sre_lines.specs.Cases.{IsAnswer, IsAnswerOf, asked, found_text};
ghost use Rattle.sre_lines.specs.Fields.{IsCase};
ghost use Rattle.sre_lines.specs.Lines.{lines_of, Answered, IsNoCase, IsBegun, StopsAt};
ghost use Rattle.sre_lines.specs.Output.{AppendsPart};

mod searched;
mod walked;

use crate::answer::{push_hints, push_match, push_refusal};
use crate::cases::searched::search;
use crate::cases::walked::push_matches;
use crate::line::{
    Case, Finding, LineFault, Operands, Subject, TextForm, Window, read_case, split_once,
};
use crate::output::{write_both, write_whole};
use itoa::Buffer;
use sre_engine::code::CodeError;
use sre_engine::engine::{SreError, State};
use sre_engine::{Code, Request, StrDrive, UniTable};
use sre_finder::Haystack;
use std::alloc::{AllocError, Allocator, Global};
use std::io::{self, Write};

/// Why the program ends with status 1.
#[derive(Clone, Copy, PartialEq, Eq, Debug)]
pub enum CaseFault {
    /// The arguments are not of the program's form, or one is not UTF-8.
    Usage,
    /// The file cannot be read.
    CannotRead,
    /// The file after `--table` is no table.
    NotATable,
    /// The line with this number is no case. All lines count, from 1.
    NotACase(u64),
    /// An allocation failed outside a case.
    NoMemory,
    /// A write failed.
    OutputFailed,
}

/// How much to print about a fault or rejected bytecode.
#[derive(Clone, Copy)]
pub enum Detail {
    /// That there is one.
    Plain,
    /// Its cause as well.
    Explained,
}

/// Writes one line for each case of a file, in order. Lines end at byte 10, which the last line may lack. Empty lines
/// and lines that begin with `#` are no cases. The Unicode tables are those of ASCII.
///
/// The faults are `NotACase`, `NoMemory` and `OutputFailed`. Before a fault, the answers to all earlier lines are
/// written. After a failed write, a part of the next answer may follow them. If an allocation for a case fails, the
/// answer is `memory` instead.
pub fn run_cases<W: Write>(alloc: Global, file: &[u8], out: &mut W) -> Result<(), CaseFault>
    ensures answers { OnOk result (Answered Detail.Plain ascii_table (W.contents out.old) (W.contents out.new)
        (lines_of file.now)) }
    ensures faults { IfErr result (IsFaultOfCases Global) }
    ensures stopped { IfErr result (StopsAt Detail.Plain ascii_table (W.contents out.old) (W.contents out.new)
        (lines_of file.now)) }
{
    answer_lines(alloc, alloc, file, out)
}

/// As [`run_cases`]. The check of bytecode allocates on `alloc`, everything else on `heap`.
pub fn answer_lines<A: Allocator + Copy, W: Write>(
    alloc: Global,
    heap: A,
    file: &[u8],
    out: &mut W,
) -> Result<(), CaseFault>
    ensures answers { OnOk result (Answered Detail.Plain ascii_table (W.contents out.old) (W.contents out.new)
        (lines_of file.now)) }
    ensures faults { IfErr result (IsFaultOfCases A) }
    ensures stopped { IfErr result (StopsAt Detail.Plain ascii_table (W.contents out.old) (W.contents out.new)
        (lines_of file.now)) }
{
    answer_lines_by(
        alloc,
        heap,
        Detail::Plain,
        UniTable::ascii(alloc),
        file,
        out,
    )
}

/// As [`answer_lines`], with the given Unicode tables. With `Detail::Explained`, `check` prints why bytecode is
/// rejected.
pub fn answer_lines_by<A: Allocator + Copy, W: Write>(
    alloc: Global,
    heap: A,
    detail: Detail,
    table: UniTable,
    file: &[u8],
    out: &mut W,
) -> Result<(), CaseFault>
    ensures answers { OnOk result (Answered detail table.entry (W.contents out.old) (W.contents out.new)
        (lines_of file.now)) }
    ensures faults { IfErr result (IsFaultOfCases A) }
    ensures stopped { IfErr result (StopsAt detail table.entry (W.contents out.old) (W.contents out.new)
        (lines_of file.now)) }
{
    let mut desk = Desk {
        alloc,
        detail,
        table,
        operands: Operands {
            words: Vec::new(heap),
            text: Vec::new(heap),
        },
        state: State::new(heap),
        answer: String::new(heap),
    };
    let mut number = 0u64;
    let mut left = file;
    let _bytes = file.len();
    'lines: loop {
        number += 1;
        let Some((line, others)) = split_once(left, b'\n') else {
            return answer_line(&mut desk, left, number, out);
        };
        match answer_line(&mut desk, line, number, out) {
            Ok(()) => left = others,
            Err(fault) => return Err(fault),
        }
    }
}

// Buffers and the state, which are reused for all lines.
struct Desk<A: Allocator + Copy> {
    alloc: Global,
    detail: Detail,
    table: UniTable,
    operands: Operands<A>,
    state: State<A>,
    answer: String<A>,
}

// Custom `Drop`, so that callers contain one call instead of the drop of each field.
impl<A: Allocator + Copy> Drop for Desk<A> {
    fn drop(self) {
        let Desk {
            alloc: _,
            detail: _,
            table,
            operands,
            state,
            answer,
        } = self;
        drop((table, operands, state, answer));
    }
}

// Answers one line if it is a case.
fn answer_line<A: Allocator + Copy, W: Write>(
    desk: &mut Desk<A>,
    line: &[u8],
    number: u64,
    out: &mut W,
) -> Result<(), CaseFault>
    requires number { 1 ≤ number }
    ensures table { desk.new.table ≡ desk.old.table }
    ensures detail { desk.new.detail ≡ desk.old.detail }
    ensures answers { OnOk result (Answered desk.old.detail desk.old.table (W.contents out.old) (W.contents out.new)
        (line.now ∷ [])) }
    ensures faults { IfErr result (IsFaultOfCases A) }
    ensures begun { IfErr result (λ fault. (part : List ℕ) × IsBegun desk.old.detail desk.old.table fault line.now part
        × Appends (W.contents out.old) (W.contents out.new) part) }
    ensures no_case { IfErr result
        (λ fault. (n : ℕ) → fault ≡ CaseFault.NotACase n → (n ≡ number) × IsNoCase line.now) }
{
    if line.is_empty() || line[0] == b'#' {
        return Ok(());
    }
    let case = match read_case(line, &mut desk.operands) {
        Ok(case) => case,
        Err(LineFault::NotACase) => return Err(CaseFault::NotACase(number)),
        Err(LineFault::NoMemory) => return Err(CaseFault::NoMemory),
    };
    let Ok(()) = write_answer(desk, case, out) else {
        return Err(CaseFault::OutputFailed);
    };
    Ok(())
}

// Writes the answer to the case that was read last, as a line.
fn write_answer<A: Allocator + Copy, W: Write>(
    desk: &mut Desk<A>,
    case: Case,
    out: &mut W,
) -> io::Result<()>
    requires { IsCase case desk.old.operands.words.items desk.old.operands.text.items }
    ensures table { desk.new.table ≡ desk.old.table }
    ensures detail { desk.new.detail ≡ desk.old.detail }
    ensures answer { OnOk result ((said : List ℕ)
        × IsAnswer desk.old.detail desk.old.table case desk.old.operands.words.items desk.old.operands.text.items said
        × Appends (W.contents out.old) (W.contents out.new) (said ++ 10 ∷ [])) }
    ensures part { OnErr result ((said part rest : List ℕ)
        × IsAnswer desk.old.detail desk.old.table case desk.old.operands.words.items desk.old.operands.text.items said
        × (part ++ rest ≡ said ++ 10 ∷ []) × Appends (W.contents out.old) (W.contents out.new) part) }
{
    desk.answer.clear();
    let answered = push_answer(
        desk.alloc,
        desk.detail,
        &desk.table,
        case,
        &desk.operands,
        &mut desk.state,
        &mut desk.answer,
    );
    match answered {
        Ok(()) => write_whole(desk.answer.as_bytes(), out),
        Err(AllocError) => write_whole(b"memory\n", out),
    }
}

// Appends the answer to a case, as a line.
fn push_answer<A: Allocator + Copy>(
    alloc: Global,
    detail: Detail,
    table: &UniTable,
    case: Case,
    operands: &Operands<A>,
    state: &mut State<A>,
    answer: &mut String<A>,
) -> Result<(), AllocError>
    requires { IsCase case operands.now.words.items operands.now.text.items }
    ensures { OnOk result
        ((said : List ℕ) × IsAnswer detail table.now case operands.now.words.items operands.now.text.items said
        × (string_bytes answer.new ≡ string_bytes answer.old ++ (said ++ 10 ∷ []))) }
{
    push_verdict(alloc, detail, table, case, operands, state, answer)?;
    answer.push('\n')
}

// Appends the answer to a case.
fn push_verdict<A: Allocator + Copy>(
    alloc: Global,
    detail: Detail,
    table: &UniTable,
    case: Case,
    operands: &Operands<A>,
    state: &mut State<A>,
    answer: &mut String<A>,
) -> Result<(), AllocError>
    requires { IsCase case operands.now.words.items operands.now.text.items }
    ensures { OnOk result
        ((said : List ℕ) × IsAnswer detail table.now case operands.now.words.items operands.now.text.items said
        × (string_bytes answer.new ≡ string_bytes answer.old ++ said)) }
{
    let heap = *operands.words.allocator();
    match Code::check(alloc, operands.words.as_slice(), table) {
        Ok(code) => {
            let text = operands.text.as_slice();
            push_code_answer(alloc, heap, code, case, text, state, answer)
        }
        Err(CodeError::Memory) => Err(AllocError),
        // `check` tells the cause if that is wanted.
        Err(error) => match (detail, case) {
            (Detail::Explained, Case::Check) => push_refusal(answer, error),
            _ => answer.push_str("refused"),
        },
    }
}

// Appends the answer to a case whose bytecode passed the check.
fn push_code_answer<A: Allocator + Copy>(
    alloc: Global,
    heap: A,
    code: Code<'_>,
    case: Case,
    text: &[u8],
    state: &mut State<A>,
    answer: &mut String<A>,
) -> Result<(), AllocError>
    requires { IsCase case (words_of code) text.now }
    ensures { (t : Tree) → Whole (words_of code.entry) t → OnOk result ((said : List ℕ)
        × IsAnswerOf t (uni_of code.entry) case (words_of code.entry) text.now said
        × (string_bytes answer.new ≡ string_bytes answer.old ++ said)) }
{
    match case {
        Case::Check => push_hints(answer, &code.hints()),
        Case::Find(finding, subject) => match subject.text {
            TextForm::Bytes => {
                let request = request(text, subject, code);
                push_found(alloc, heap, finding, request, state, answer)
            }
            TextForm::Utf8 => {
                let Ok(text) = str::from_utf8(text) else {
                    unreachable!()
                };
                let request = request(text, subject, code);
                push_found(alloc, heap, finding, request, state, answer)
            }
        },
    }
}

// The request of a case.
fn request<'a, S: StrDrive>(text: S, subject: Subject, code: Code<'a>) -> Request<'a, S>
    ensures asked { asked_of result ≡ asked subject (uni_of code.entry) (S.text text) }
    ensures code { code_of result ≡ code.entry }
{
    let (start, end) = match subject.window {
        Window::Whole => (0, text.count()),
        Window::Span { start, end } => (start, end),
    };
    let mut request = Request::new(text, start, end, code, subject.flags.match_all);
    request.set_must_advance(subject.flags.must_advance);
    request.set_empty_rule(subject.flags.empty_rule);
    request
}

// Appends the match or `no`; for `walk`, all matches, with a state of their own on `heap`. DFAs use `alloc`.
fn push_found<S: Haystack, A: Allocator + Copy>(
    alloc: Global,
    heap: A,
    finding: Finding,
    request: Request<'_, S>,
    state: &mut State<A>,
    answer: &mut String<A>,
) -> Result<(), AllocError>
    ensures { (t : Tree) → Whole (words_of (code_of request.entry)) t
        → OnOk result (string_bytes answer.new ≡ string_bytes answer.old
        ++ found_text finding (asked_of request.entry) t) }
{
    let found = match finding {
        Finding::Match => state.pymatch(&request),
        Finding::Search => search(alloc, request, state),
        Finding::Walk => return push_matches(alloc, heap, request, answer),
    };
    match found {
        Ok(true) => {
            let end = state.cursor().position();
            let marks = state.marks();
            push_match(answer, state.start(), end, marks.last_index(), marks.raw())
        }
        Ok(false) => answer.push_str("no"),
        Err(SreError::Memory) => Err(AllocError),
    }
}

/// Writes the line of a fault, with `name` as the file's name. If a write fails, a part of the line may be written.
pub fn write_fault<W: Write>(fault: &CaseFault, name: &str, out: &mut W) -> Result<(), CaseFault>
    ensures line { OnOk result (Appends (W.contents out.old) (W.contents out.new)
        (fault_text fault.now name.now ++ 10 ∷ [])) }
    ensures part { OnErr result (AppendsPart (W.contents out.old) (W.contents out.new)
        (fault_text fault.now name.now ++ 10 ∷ [])) }
    ensures failed { IfErr result (λ failure. failure ≡ CaseFault.OutputFailed) }
{
    match write_line(fault, name, b"\n", out) {
        Ok(()) => Ok(()),
        Err(_) => Err(CaseFault::OutputFailed),
    }
}

/// Writes the text of a fault followed by `end`, with `name` as the file's name.
#[tactic(auto, using(crate::proofs::Parts::in_parts))]
pub(crate) fn write_line<W: Write>(
    fault: &CaseFault,
    name: &str,
    end: &[u8],
    out: &mut W,
) -> io::Result<()>
    ensures line { OnOk result (Appends (W.contents out.old) (W.contents out.new)
        (fault_text fault.now name.now ++ end.now)) }
    ensures part { OnErr result (AppendsPart (W.contents out.old) (W.contents out.new)
        (fault_text fault.now name.now ++ end.now)) }
{
    write_text(*fault, name, out)?;
    write_whole(end, out)
}

// Writes the text of a fault.
fn write_text<W: Write>(fault: CaseFault, name: &str, out: &mut W) -> io::Result<()>
    ensures text { OnOk result (Appends (W.contents out.old) (W.contents out.new) (fault_text fault name.now)) }
    ensures part { OnErr result (AppendsPart (W.contents out.old) (W.contents out.new) (fault_text fault name.now)) }
{
    match fault {
        CaseFault::Usage => write_whole(b"usage: sre_cases FILE", out),
        CaseFault::CannotRead => write_both(name.as_bytes(), b": cannot be read", out),
        CaseFault::NotATable => write_both(name.as_bytes(), b": not a table", out),
        CaseFault::NotACase(line) => {
            let mut digits = Buffer::new();
            write_whole(b"line ", out)?;
            write_both(digits.format(line).as_bytes(), b": not a case", out)
        }
        CaseFault::NoMemory => write_whole(b"no memory", out),
        CaseFault::OutputFailed => write_whole(b"output failed", out),
    }
}
