//! A probe: a word that says what to test, perhaps numbers, and a case as `sre_cases` reads it.

use crate::codes::{push_code, push_cuts, push_enough, push_letter};
use crate::counts::{push_counts, push_reads};
use crate::finders::{push_by_finder, push_by_spans};
use crate::heaps::{push_on_heap, push_refused};
use crate::lines::push_lines;
use crate::recipes::{Recipe, push_recipe};
use crate::shown::{push_list, push_shown, push_told, push_within};
use crate::steps::push_fewest;
use sre_engine::{Code, Request, State, StrDrive, UniTable};
use sre_finder::{Encoding, Haystack};
use sre_lines::line::{Case, Finding, Operands, Subject, TextForm, Window, read_case, split_once};
use std::alloc::{AllocError, Allocator, Global};

/// Buffers and the state, which are reused for all probes. The state allocates on the heap.
pub(crate) struct Desk<A: Allocator + Copy> {
    pub(crate) alloc: Global,
    pub(crate) heap: A,
    pub(crate) operands: Operands<Global>,
    pub(crate) state: State<A>,
}

// Custom `Drop`, so that callers contain one call instead of the drop of each field.
impl<A: Allocator + Copy> Drop for Desk<A> {
    fn drop(self) {
        let Desk {
            alloc: _,
            heap: _,
            operands,
            state,
        } = self;
        drop((operands, state));
    }
}

impl<A: Allocator + Copy> Desk<A> {
    pub(crate) fn new(alloc: Global, heap: A) -> Desk<A> {
        Desk {
            alloc,
            heap,
            operands: Operands {
                words: Vec::new(alloc),
                text: Vec::new(alloc),
            },
            state: State::new(heap),
        }
    }
}

/// What to test with a case.
#[derive(Clone, Copy)]
pub(crate) enum Asked<'a> {
    /// What the state shows of the match, with the offset of its end. For an iteration, the same for each match.
    Shown,
    /// The same, with a list of FIRST sets by address from the start on.
    Told,
    /// All matches, as a list.
    Listed,
    /// The same within a step limit.
    Within(u64),
    /// The fewest steps that suffice.
    Fewest,
    /// Whether the counts are within the bounds in a field.
    Counted(&'a [u8]),
    /// The match or matches, with a prefilter.
    Finder,
    /// The match or matches, with DFAs that find spans.
    Spans,
    Recipe(Recipe<'a>),
}

/// Splits parts at the first divider: the first part, and the rest.
pub(crate) fn cut(parts: &[u8], divider: u8) -> (&[u8], Option<&[u8]>) {
    match split_once(parts, divider) {
        Some((first, others)) => (first, Some(others)),
        None => (parts, None),
    }
}

/// The number that a field denotes, if any.
pub(crate) fn number_of(field: &[u8]) -> Option<u64> {
    let text = str::from_utf8(field).ok()?;
    text.parse::<u64>().ok()
}

/// The code word that a field denotes as a number, if any.
pub(crate) fn word_of(field: &[u8]) -> Option<u32> {
    u32::try_from(number_of(field)?).ok()
}

/// The request of a case.
pub(crate) fn request<'a, S: StrDrive>(
    text: S,
    subject: Subject,
    code: Code<'a>,
) -> Request<'a, S> {
    let (start, end) = match subject.window {
        Window::Whole => (0, usize::MAX),
        Window::Span { start, end } => (start, end),
    };
    let mut request = Request::new(text, start, end, code, subject.flags.match_all);
    request.set_must_advance(subject.flags.must_advance);
    request.set_empty_rule(subject.flags.empty_rule);
    request
}

// The kind of a probe that does more than test one thing of a case, or that has no case.
#[derive(Clone, Copy)]
enum Kind {
    Refuse,
    Lines,
    Heap,
    Code,
    Cuts,
    Enough,
    Reads,
    Letter,
}

static KINDS: [(&[u8], Kind); 8] = [
    (b"refuse", Kind::Refuse),
    (b"lines", Kind::Lines),
    (b"heap", Kind::Heap),
    (b"code", Kind::Code),
    (b"cuts", Kind::Cuts),
    (b"enough", Kind::Enough),
    (b"reads", Kind::Reads),
    (b"letter", Kind::Letter),
];

// The kind of a probe by its word, and the rest of the probe.
fn kind_of(probe: &[u8]) -> Option<(Kind, &[u8])> {
    let (word, rest) = split_once(probe, b' ')?;
    for &(name, kind) in &KINDS {
        if word == name {
            return Some((kind, rest));
        }
    }
    None
}

/// Appends the answer to a probe that may contain another one, with failed allocations or a bounded heap.
pub(crate) fn push_probe(
    desk: &mut Desk<Global>,
    table: &UniTable,
    probe: &[u8],
    answer: &mut String,
) -> Result<(), AllocError> {
    let Some((kind, rest)) = kind_of(probe) else {
        return push_plain(desk, table, probe, answer);
    };
    match kind {
        Kind::Refuse => push_refused(desk.alloc, table, rest, answer),
        Kind::Lines => push_lines(desk.alloc, rest, answer),
        Kind::Heap => push_on_heap(desk.alloc, table, rest, answer),
        Kind::Code => push_code(desk, table, rest, answer),
        Kind::Cuts => push_cuts(desk, table, rest, answer),
        Kind::Enough => push_enough(desk, table, rest, answer),
        Kind::Reads => push_reads(desk, table, rest, answer),
        Kind::Letter => push_letter(table, rest, answer),
    }
}

/// Appends the answer to a probe that tests one thing of a case.
pub(crate) fn push_plain<A: Allocator + Copy>(
    desk: &mut Desk<A>,
    table: &UniTable,
    probe: &[u8],
    answer: &mut String,
) -> Result<(), AllocError> {
    let Some((asked, case)) = asked_of(probe) else {
        return answer.push_str("no probe");
    };
    let Ok(Case::Find(finding, subject)) = read_case(case, &mut desk.operands) else {
        return answer.push_str("no case");
    };
    let Ok(code) = Code::check(desk.alloc, desk.operands.words.as_slice(), table) else {
        return answer.push_str("refused");
    };
    let (heap, state, bytes) = (desk.heap, &mut desk.state, desk.operands.text.as_slice());
    match (subject.text, str::from_utf8(bytes)) {
        (TextForm::Utf8, Ok(text)) => {
            let req = request(text, subject, code);
            match asked {
                Asked::Recipe(recipe) => push_recipe(heap, state, recipe, finding, req, answer),
                _ => push_found(
                    desk.alloc,
                    heap,
                    state,
                    asked,
                    finding,
                    seen(text),
                    req,
                    answer,
                ),
            }
        }
        _ => push_found(
            desk.alloc,
            heap,
            state,
            asked,
            finding,
            Encoding::Bytes,
            request(bytes, subject, code),
            answer,
        ),
    }
}

// The encoding of a text for DFAs.
fn seen(text: &str) -> Encoding {
    if text.is_ascii() {
        Encoding::Ascii
    } else {
        Encoding::Utf8
    }
}

// The words that are directly before a case.
static ALONE: [(&[u8], Asked<'static>); 10] = [
    (b"shown", Asked::Shown),
    (b"told", Asked::Told),
    (b"list", Asked::Listed),
    (b"fewest", Asked::Fewest),
    (b"finder", Asked::Finder),
    (b"spans", Asked::Spans),
    (b"find", Asked::Recipe(Recipe::Find)),
    (b"split", Asked::Recipe(Recipe::Split)),
    (b"tokens", Asked::Recipe(Recipe::Tokens)),
    (b"groups", Asked::Recipe(Recipe::Groups)),
];

// What to test by a word alone.
fn asked_alone(word: &[u8]) -> Option<Asked<'static>> {
    for &(name, asked) in &ALONE {
        if word == name {
            return Some(asked);
        }
    }
    None
}

// What to test by a word and the field after it.
fn asked_with<'a>(word: &[u8], field: &'a [u8]) -> Option<Asked<'a>> {
    if word == b"within".as_slice() {
        return Some(Asked::Within(number_of(field)?));
    }
    if word == b"counts".as_slice() {
        return Some(Asked::Counted(field));
    }
    if word == b"replace".as_slice() {
        return Some(Asked::Recipe(Recipe::Replace(field)));
    }
    None
}

// What a probe tests, and its case.
fn asked_of(probe: &[u8]) -> Option<(Asked<'_>, &[u8])> {
    let (word, rest) = split_once(probe, b' ')?;
    if let Some(asked) = asked_alone(word) {
        return Some((asked, rest));
    }
    let (field, case) = split_once(rest, b' ')?;
    Some((asked_with(word, field)?, case))
}

// Appends the answer for a text.
fn push_found<S: Haystack, A: Allocator + Copy>(
    alloc: Global,
    heap: A,
    state: &mut State<A>,
    asked: Asked<'_>,
    finding: Finding,
    encoding: Encoding,
    req: Request<'_, S>,
    answer: &mut String,
) -> Result<(), AllocError> {
    match asked {
        Asked::Shown => push_shown(heap, state, finding, req, answer),
        Asked::Told => push_told(heap, state, finding, req, answer),
        Asked::Listed => push_list(state, req, answer),
        Asked::Within(steps) => push_within(state, finding, req, steps, answer),
        Asked::Fewest => push_fewest(heap, state, finding, req, answer),
        Asked::Counted(bounds) => push_counts(state, finding, req, bounds, answer),
        Asked::Finder => push_by_finder(alloc, heap, state, finding, encoding, req, answer),
        Asked::Spans => push_by_spans(alloc, heap, state, finding, encoding, req, answer),
        Asked::Recipe(_) => answer.push_str("no text"),
    }
}
