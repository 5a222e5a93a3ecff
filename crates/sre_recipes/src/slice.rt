//! The texts of a match and of its groups, reached from the cursor at the match's end.

ghost use Rattle.std.specs.Prelude.{◌≡◌, ◌+◌, ◌<◌, ◌≤◌, length, slice_range, MatchOption};
ghost use Rattle.sre_recipes.specs.Terms.{option_map, match_shown};
ghost use Rattle.sre_recipes.specs.Slices.{slice_of, group_of, numbered_group};

use crate::span::{back_to, on_by, span_of};
use crate::texts::Text;
use sre_engine::{State, StrDrive, StringCursor};
use std::alloc::Allocator;

// The slice from a cursor to a position at or after it.
pub(crate) fn up_to<S: Text>(text: S, start: &StringCursor, position: usize) -> S
    requires start { S.stands text start.now start.now.position }
    requires forward { start.now.position ≤ position }
    requires within { position ≤ length (S.text text) }
    ensures { S.text result ≡ slice_range (S.text text) start.now.position position }
{
    let end = on_by(text, start, position - start.position());
    text.between(start, &end)
}

// Moves a cursor to a position, in either direction. `None` if the text ends before that position.
pub(crate) fn moved_to<S: Text>(
    text: S,
    from: &StringCursor,
    position: usize,
) -> Option<StringCursor>
    requires { S.stands text from.now from.now.position }
    ensures { MatchOption result (length (S.text text) < position)
        (λ to. S.stands text to to.position × (to.position ≡ position)) }
{
    if position <= from.position() {
        return Some(back_to(text, from, position));
    }
    let mut cursor = *from;
    'forward: while cursor.position() < position {
        if text.is_end(&cursor) {
            return None;
        }
        cursor = on_by(text, &cursor, 1);
    }
    Some(cursor)
}

/// Returns the text of the state's match. The state must show a match in `text`, as it does after `search_text`,
/// `match_text` or an item of an iteration over that text.
pub fn matched_text<S: Text, A: Allocator + Copy>(text: S, state: &State<A>) -> S
    requires stands { S.stands text state.now.cursor state.now.cursor.position }
    requires forward { state.now.start ≤ state.now.cursor.position }
    ensures { S.text result ≡ slice_range (S.text text) state.now.start state.now.cursor.position }
{
    let span = span_of(text, state);
    text.between(&span.start, &span.end)
}

/// Returns the cursor at the start of the state's match, for a text of any type. `position()` counts characters and
/// `offset()` counts bytes. `State::cursor` is the cursor at the match's end.
///
/// ```
/// // Bytecode of `b`, in `éb`.
/// let start = match_start(text, &state);
/// assert!(start.position() == 1 && start.offset() == 2);
/// ```
pub fn match_start<S: StrDrive, A: Allocator + Copy>(text: S, state: &State<A>) -> StringCursor
    requires stands { S.stands text state.now.cursor state.now.cursor.position }
    requires forward { state.now.start ≤ state.now.cursor.position }
    ensures stands { S.stands text result state.now.start }
{
    back_to(text, &state.cursor(), state.start())
}

// The text of the group with capture slots 2 `group` and 2 `group` + 1. `None` if one of them is not set, they are out
// of order, or the second is beyond the text's end.
fn marked_text<S: Text, A: Allocator + Copy>(text: S, state: &State<A>, group: usize) -> Option<S>
    requires { S.stands text state.now.cursor state.now.cursor.position }
    ensures { option_map S.text result ≡ group_of (S.text text) state.now.marks group }
{
    let (Some(from), Some(to)) = state.marks().get(group) else {
        return None;
    };
    if to < from {
        return None;
    }
    let end = moved_to(text, &state.cursor(), to)?;
    let start = back_to(text, &end, from);
    Some(text.between(&start, &end))
}

// The text of the state's match. If the state's start is after its end, the empty text.
fn whole_text<S: Text, A: Allocator + Copy>(text: S, state: &State<A>) -> S
    requires { S.stands text state.now.cursor state.now.cursor.position }
    ensures { S.text result ≡ slice_of (S.text text) (match_shown state.now) }
{
    if state.start() <= state.cursor().position() {
        matched_text(text, state)
    } else {
        text.between(&state.cursor(), &state.cursor())
    }
}

/// Returns the text of a group of the state's match. Groups are numbered as in Python: 0 is the match itself and 1 the
/// first group. `None` if the group did not participate, or does not exist. A group inside a lookaround can be before
/// or after the match.
///
/// **`Marks::get` numbers groups differently**: its number 0 is the first group.
///
/// ```
/// // Bytecode of `(\w)=(\w)`, in `x=y`.
/// assert!(group_text(text, &state, 0) == Some("x=y"));
/// assert!(group_text(text, &state, 2) == Some("y"));
/// ```
pub fn group_text<S: Text, A: Allocator + Copy>(
    text: S,
    state: &State<A>,
    number: usize,
) -> Option<S>
    requires { S.stands text state.now.cursor state.now.cursor.position }
    ensures { option_map S.text result ≡ numbered_group (S.text text) (match_shown state.now) number }
{
    if number == 0 {
        Some(whole_text(text, state))
    } else {
        marked_text(text, state, number - 1)
    }
}
