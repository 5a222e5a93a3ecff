//! A match with its byte offsets and its text, and those of its groups.

ghost use Rattle.std.specs.Prelude.{◌≡◌, ◌≤◌, ◌+◌, ◌++◌, true, map, IfOk, OnErr};
ghost use Rattle.sre_recipes.specs.Terms.{range_with_len, option_map, match_shown, answer_of, Refused};
ghost use Rattle.sre_recipes.specs.Matches.{match_seen, placed, placed_match, placed_group, placed_groups, groups_seen};
ghost use Rattle.sre_recipes.specs.Spans.{IsSpan};

use crate::groups::CapturesOf;
use crate::slice::moved_to;
use crate::span::{Span, back_to, span_of};
use crate::texts::Text;
use sre_engine::{SreError, State, StringCursor};
use sre_finder::Haystack;
use std::alloc::Global;
use std::ops::Range;

/// A match of a [`Pattern`](crate::Pattern), or a group of one: its text, and the byte offsets at which that begins and
/// ends. Those of a `str` are at character boundaries.
#[derive(Clone, Copy, PartialEq, Eq, Debug)]
pub struct Match<S> {
    start: usize,
    end: usize,
    text: S,
}

impl<S: Copy> Match<S> {
    ghost use Rattle.sre_recipes.specs.Matches.{start_in, end_in, text_in};

    /// Returns the byte offset at which it begins.
    pub fn start(&self) -> usize
        ensures { result ≡ start_in self.now }
    {
        self.start
    }

    /// Returns the byte offset at which it ends.
    pub fn end(&self) -> usize
        ensures { result ≡ end_in self.now }
    {
        self.end
    }

    /// Returns both byte offsets, by which the text can be sliced.
    pub fn range(&self) -> Range<usize>
        ensures start { result.start ≡ start_in self.now }
        ensures end { result.end ≡ end_in self.now }
    {
        self.start..self.end
    }

    /// Returns its text, a slice of the text that was searched.
    pub fn text(&self) -> S
        ensures { result ≡ text_in self.now }
    {
        self.text
    }
}

// The match between two cursors.
pub(crate) fn match_between<S: Text + Haystack>(
    text: S,
    start: &StringCursor,
    end: &StringCursor,
) -> Match<S>
    requires start { S.stands text start.now start.now.position }
    requires end { S.stands text end.now end.now.position }
    requires forward { start.now.position ≤ end.now.position }
    ensures { match_seen S.text result ≡ placed (S.text text) (S.place text) start.now.position end.now.position }
{
    Match {
        start: text.place_of(*start),
        end: text.place_of(*end),
        text: text.between(start, end),
    }
}

// The state's match if one was found.
pub(crate) fn match_if<S: Text + Haystack>(
    found: bool,
    text: S,
    state: &State<Global>,
) -> Option<Match<S>>
    requires stands { found ≡ true → S.stands text state.now.cursor state.now.cursor.position }
    requires forward { found ≡ true → state.now.start ≤ state.now.cursor.position }
    ensures { option_map (match_seen S.text) result
        ≡ option_map (placed_match (S.text text) (S.place text)) (answer_of found state.now) }
{
    if found {
        let span = span_of(text, state);
        Some(match_between(text, &span.start, &span.end))
    } else {
        None
    }
}

// A group of the state's match, whose number 0 is the match. `None` if one of a group's capture slots is not set, they
// are out of order, or the second is beyond the text's end.
fn group_match<S: Text + Haystack>(
    text: S,
    state: &State<Global>,
    span: &Span,
    number: usize,
) -> Option<Match<S>>
    requires { IsSpan (S.stands text) state.now span.now.start span.now.end }
    ensures { option_map (match_seen S.text) result
        ≡ placed_group (S.text text) (S.place text) (match_shown state.now) number }
{
    if number == 0 {
        return Some(match_between(text, &span.start, &span.end));
    }
    let (Some(from), Some(to)) = state.marks().get(number - 1) else {
        return None;
    };
    if to < from {
        return None;
    }
    let end = moved_to(text, &state.cursor(), to)?;
    let start = back_to(text, &end, from);
    Some(match_between(text, &start, &end))
}

// Appends the first `several` groups of the state's match, from the match itself on.
fn add_group_matches<S: Text + Haystack>(
    groups: &mut Vec<Option<Match<S>>>,
    text: S,
    state: &State<Global>,
    span: &Span,
    several: usize,
) -> Result<(), SreError>
    requires { IsSpan (S.stands text) state.now span.now.start span.now.end }
    ensures ok { IfOk result (λ _. map (option_map (match_seen S.text)) groups.new.items
        ≡ map (option_map (match_seen S.text)) groups.old.items
        ++ map (placed_group (S.text text) (S.place text) (match_shown state.now)) (range_with_len 0 several)) }
    ensures refused { OnErr result (Refused Global) }
{
    let mut count = 0;
    'group: while count < several {
        sre_growth::push(groups, group_match(text, state, span, count))?;
        count += 1;
    }
    Ok(())
}

// The state's match with its groups.
pub(crate) fn match_groups<S: Text + Haystack>(
    alloc: Global,
    text: S,
    state: &State<Global>,
    span: &Span,
) -> Result<CapturesOf<Match<S>, Global>, SreError>
    requires { IsSpan (S.stands text) state.now span.now.start span.now.end }
    ensures ok { IfOk result (λ all. groups_seen S.text all
        ≡ placed_groups (S.text text) (S.place text) (match_shown state.now)) }
    ensures refused { OnErr result (Refused Global) }
{
    let mut groups = Vec::new(alloc);
    let several = state.marks().raw().len() / 2 + 1;
    add_group_matches(&mut groups, text, state, span, several)?;
    Ok(CapturesOf { groups })
}
