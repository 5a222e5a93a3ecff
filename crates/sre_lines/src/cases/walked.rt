//! All matches of a case, one after the other.

ghost use Rattle.std.specs.Prelude.{◌≡◌, ◌++◌, OnOk, string_bytes};
ghost use Rattle.sre_lines.specs.Terms.{Tree, Whole, walk, words_of, asked_of, code_of};
ghost use Rattle.sre_finder.specs.SpanIters.{request_of, left_of};
ghost use Rattle.sre_lines.specs.Cases.{gap_text, walk_text};

use crate::answer::push_span;
use sre_engine::{Request, State};
use sre_finder::{Haystack, SpanFinder, SpanIter};
use std::alloc::{AllocError, Allocator, Global};

/// Appends the spans of all matches, separated by spaces, or `none`. The matches are not stored. DFAs use `alloc`. If
/// they have no memory, the machine finds all matches.
pub fn push_matches<S: Haystack, A: Allocator + Copy>(
    alloc: Global,
    heap: A,
    request: Request<'_, S>,
    answer: &mut String<A>,
) -> Result<(), AllocError>
    ensures { (t : Tree) → Whole (words_of (code_of request.entry)) t → OnOk result
        (string_bytes answer.new ≡ string_bytes answer.old ++ walk_text (walk (asked_of request.entry) t)) }
{
    let encoding = request.string().encoding(request.end());
    let finder = SpanFinder::on_demand(alloc, request.pattern_codes(), encoding);
    let mut matches = finder.walk(request, State::new(heap));
    push_left(&mut matches, answer)
}

// Appends the remaining spans of an iteration, or `none`. A separate function, so that the iteration is dropped at one
// place.
fn push_left<S: Haystack, A: Allocator + Copy>(
    matches: &mut SpanIter<'_, '_, S, A>,
    answer: &mut String<A>,
) -> Result<(), AllocError>
    ensures { (t : Tree) → Whole (words_of (code_of (request_of matches.old))) t → OnOk result
        (string_bytes answer.new ≡ string_bytes answer.old ++ walk_text (left_of matches.old t)) }
{
    let mut first = true;
    'matches: while let Some(found) = matches.next() {
        let Ok(span) = found else {
            return Err(AllocError);
        };
        push_gap(answer, first)?;
        push_span(answer, span.start, span.end)?;
        first = false;
    }
    if first {
        return answer.push_str("none");
    }
    Ok(())
}

// Appends the separator before a span.
fn push_gap<A: Allocator>(answer: &mut String<A>, first: bool) -> Result<(), AllocError>
    ensures { OnOk result (string_bytes answer.new ≡ string_bytes answer.old ++ gap_text first) }
{
    if first {
        return Ok(());
    }
    answer.push(' ')
}
