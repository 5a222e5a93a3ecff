//! What a search counts, and how many characters it reads.

use crate::counted::Counted;
use crate::probe::{Desk, number_of, request};
use crate::shown::{push_answer, push_list};
use sre_engine::{Code, Request, State, StrDrive, UniTable};
use sre_lines::line::{Case, Finding, read_case, split_once};
use std::alloc::{AllocError, Allocator, Global};
use std::cell::Cell;

/// The least and the greatest accepted count.
#[derive(Clone, Copy)]
pub(crate) struct Bounds {
    least: u64,
    most: u64,
}

// The bounds in a field of the form `LEAST..MOST`.
fn bounds_of(field: &[u8]) -> Option<Bounds> {
    let (least, rest) = split_once(field, b'.')?;
    let most = number_of(rest.strip_prefix(b".".as_slice())?)?;
    let least = number_of(least)?;
    Some(Bounds { least, most })
}

/// The two bounds in a field, separated by a comma.
pub(crate) fn two_bounds_of(field: &[u8]) -> Option<(Bounds, Bounds)> {
    let (first, second) = split_once(field, b',')?;
    Some((bounds_of(first)?, bounds_of(second)?))
}

/// Appends a count that is out of bounds.
pub(crate) fn push_count(
    what: &str,
    count: u64,
    Bounds { least, most }: Bounds,
    answer: &mut String,
) -> Result<(), AllocError> {
    if least <= count && count <= most {
        return Ok(());
    }
    write!(answer, " {what} {count}")
}

/// Appends the result of a search, or all matches of an iteration. Appends the numbers of runs and of comparisons if
/// they are out of the bounds in a field.
pub(crate) fn push_counts<S: StrDrive, A: Allocator + Copy>(
    state: &mut State<A>,
    finding: Finding,
    req: Request<'_, S>,
    field: &[u8],
    answer: &mut String,
) -> Result<(), AllocError> {
    let Some((runs, comparisons)) = two_bounds_of(field) else {
        return answer.push_str("no bounds");
    };
    match finding {
        Finding::Walk => push_list(state, req, answer)?,
        Finding::Match | Finding::Search => {
            let found = state.search(req);
            push_answer(state, found, answer)?;
        }
    }
    push_count("started", state.started(), runs, answer)?;
    push_count("compared", state.compared(), comparisons, answer)
}

/// Appends the result of a search over bytes, and how many characters it reads if that is out of bounds.
pub(crate) fn push_reads(
    desk: &mut Desk<Global>,
    table: &UniTable,
    rest: &[u8],
    answer: &mut String,
) -> Result<(), AllocError> {
    let Some((field, case)) = split_once(rest, b' ') else {
        return answer.push_str("no probe");
    };
    let (Some(bounds), Ok(Case::Find(_, subject))) = (
        bounds_of(field),
        read_case(case, &mut desk.operands),
    ) else {
        return answer.push_str("no probe");
    };
    let Ok(code) = Code::check(desk.alloc, desk.operands.words.as_slice(), table) else {
        return answer.push_str("refused");
    };
    let read = Cell::new(0);
    let text = Counted {
        bytes: desk.operands.text.as_slice(),
        read: &read,
    };
    let found = desk.state.search(request(text, subject, code));
    push_answer(&desk.state, found, answer)?;
    push_count("read", read.get(), bounds, answer)
}
