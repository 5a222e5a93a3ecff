//! Matches with the texts of their groups.

ghost use Rattle.std.specs.Prelude.{◌≡◌, ◌≤◌, ◌+◌, ◌++◌, true, None, length, map, is_none, is_some, IfOk, IfSome};
ghost use Rattle.std.specs.Prelude.{OnErr, IsSome, ◌^◌, slice_index_or};
ghost use Rattle.sre_recipes.specs.Terms.{range_with_len, option_map, Tree, Whole, no_marks, matched, found, walk};
ghost use Rattle.sre_recipes.specs.Terms.{words_of, string_of, code_of, asked_of, match_shown, answer_of, Refused};
ghost use Rattle.sre_recipes.specs.Slices.{numbered_group, captured};
ghost use Rattle.sre_recipes.specs.Captured.{captures_shown};
ghost use Rattle.sre_recipes.specs.Bounded.{first_of, AreLeft, Outlast};
ghost use Rattle.sre_recipes.specs.Followed.{Followed};

use crate::bounds::Bounds;
use crate::collects::{Collects, collect, complete};
use crate::find::{match_text, search_text};
use crate::slice::group_text;
use crate::span::Span;
use crate::texts::Text;
use sre_engine::{Request, SreError, State};
use std::alloc::Allocator;

/// A match with its groups. They are numbered as in Python: 0 is the match and 1 the first group.
#[derive(Drop)]
#[derive_where(Debug; S)]
pub struct CapturesOf<S, A: Allocator> {
    /// The text of the match, then of each group up to the last that participated. `None` for an earlier group that did
    /// not.
    pub groups: Vec<Option<S>, A>,
}

/// The match and groups of a `&str`.
pub type Captures<'t, A> = CapturesOf<&'t str, A>;

impl<S: Copy, A: Allocator> CapturesOf<S, A> {
    /// Returns 1 plus the number of the last group that participated. Later groups of the pattern are not counted.
    pub fn len(&self) -> usize
        ensures { result ≡ length self.now.groups.items }
    {
        self.groups.as_slice().len()
    }

    /// Returns the text of a group, or of the match for number 0. `None` if the group did not participate, or does not
    /// exist.
    pub fn get(&self, number: usize) -> Option<S>
        ensures { result ≡ slice_index_or self.now.groups.items number None }
    {
        let groups = self.groups.as_slice();
        if number < groups.len() {
            groups[number]
        } else {
            None
        }
    }
}

// Appends the texts of `several` groups of the state's match, from the number `first` on.
pub(crate) fn add_groups<S: Text, A: Allocator + Copy>(
    groups: &mut Vec<Option<S>, A>,
    text: S,
    state: &State<A>,
    first: usize,
    several: usize,
) -> Result<(), SreError>
    requires stands { S.stands text state.now.cursor state.now.cursor.position }
    requires numbers { first + several ≤ 2 ^ 64 }
    ensures ok { IfOk result (λ _. map (option_map S.text) groups.new.items ≡ map (option_map S.text) groups.old.items
        ++ map (numbered_group (S.text text) (match_shown state.now)) (range_with_len first several)) }
    ensures refused { OnErr result (Refused A) }
{
    let mut count = 0;
    'group: while count < several {
        sre_growth::push(groups, group_text(text, state, first + count))?;
        count += 1;
    }
    Ok(())
}

// The state's match with its groups.
pub(crate) fn shown_captures<S: Text, A: Allocator + Copy>(
    alloc: A,
    text: S,
    state: &State<A>,
) -> Result<CapturesOf<S, A>, SreError>
    requires { S.stands text state.now.cursor state.now.cursor.position }
    ensures ok { IfOk result (λ all. captures_shown S.text all ≡ captured (S.text text) (match_shown state.now)) }
    ensures refused { OnErr result (Refused A) }
{
    let mut groups = Vec::new(alloc);
    let several = state.marks().raw().len() / 2 + 1;
    add_groups(&mut groups, text, state, 0, several)?;
    Ok(CapturesOf { groups })
}

/// Searches the range, as `State::search` does. Returns the match with the least start and its groups. The state then
/// shows the match, so `group_text` can follow. Returns `None` if there is none, and the state then has no captures.
///
/// # Errors
///
/// [`SreError::Memory`] if an allocation failed.
pub fn search_captures<S: Text, A: Allocator + Copy>(
    alloc: A,
    req: &Request<'_, S>,
    state: &mut State<A>,
) -> Result<Option<CapturesOf<S, A>>, SreError>
    ensures ok { (t : Tree) → Whole (words_of (code_of req.now)) t → IfOk result (λ all.
        option_map (captures_shown S.text) all
        ≡ option_map (captured (S.text (string_of req.now))) (found (asked_of req.now) t)) }
    ensures answer { (t : Tree) → Whole (words_of (code_of req.now)) t
        → IfOk result (λ all. answer_of (is_some all) state.new ≡ found (asked_of req.now) t) }
    ensures stands { IfOk result (λ all. IsSome all
        → S.stands (string_of req.now) state.new.cursor state.new.cursor.position) }
    ensures forward { IfOk result (λ all. IsSome all → state.new.start ≤ state.new.cursor.position) }
    ensures no { IfOk result (λ all. all ≡ None → state.new.marks ≡ no_marks) }
    ensures refused { OnErr result (Refused A) }
{
    if search_text(req, state)?.is_none() {
        return Ok(None);
    }
    Ok(Some(shown_captures(alloc, req.string(), state)?))
}

/// Matches at the start of the range, as `State::pymatch` does. Returns the match and its groups. The state then shows
/// the match, so `group_text` can follow. Returns `None` if there is none, and the state then has no captures.
///
/// # Errors
///
/// [`SreError::Memory`] if an allocation failed.
pub fn match_captures<S: Text, A: Allocator + Copy>(
    alloc: A,
    req: &Request<'_, S>,
    state: &mut State<A>,
) -> Result<Option<CapturesOf<S, A>>, SreError>
    ensures ok { (t : Tree) → Whole (words_of (code_of req.now)) t → IfOk result (λ all.
        option_map (captures_shown S.text) all
        ≡ option_map (captured (S.text (string_of req.now))) (matched (asked_of req.now) t)) }
    ensures answer { (t : Tree) → Whole (words_of (code_of req.now)) t
        → IfOk result (λ all. answer_of (is_some all) state.new ≡ matched (asked_of req.now) t) }
    ensures stands { IfOk result (λ all. IsSome all
        → S.stands (string_of req.now) state.new.cursor state.new.cursor.position) }
    ensures forward { IfOk result (λ all. IsSome all → state.new.start ≤ state.new.cursor.position) }
    ensures no { IfOk result (λ all. all ≡ None → state.new.marks ≡ no_marks) }
    ensures refused { OnErr result (Refused A) }
{
    if match_text(req, state)?.is_none() {
        return Ok(None);
    }
    Ok(Some(shown_captures(alloc, req.string(), state)?))
}

// Matches with their groups.
#[derive(Drop)]
struct AllCaptures<S, A: Allocator> {
    alloc: A,
    all: Vec<CapturesOf<S, A>, A>,
}

impl<S: Text, A: Allocator + Copy> Collects<S, A> for AllCaptures<S, A> {
    ghost captures = { true };

    ghost gathers = { λ text stop before ms after. map (captures_shown S.text) after.all.items
        ≡ map (captures_shown S.text) before.all.items ++ map (captured (S.text text)) ms };

    fn add(&mut self, text: S, state: &State<A>, _span: &Span) -> Result<(), SreError> {
        let captures = shown_captures(self.alloc, text, state)?;
        Ok(sre_growth::push(&mut self.all, captures)?)
    }

    fn finish(&mut self, _text: S, _stop: usize) -> Result<(), SreError> {
        Ok(())
    }
}

/// Returns all matches in the range with their groups, in order, as Python's `finditer` does.
///
/// ```
/// // Bytecode of `(a)|b`.
/// let words = [7, 9, 17, 0, 16, 97, 17, 1, 15, 7, 5, 16, 98, 15, 2, 0, 1];
/// let code = Code::check(alloc, &words, &uni)?;
/// for found in &all_captures(alloc, &Request::whole("éab", code))? {
///     println!(rt; "{:?}", (found.get(0), found.get(1)))?; // (Some("a"), Some("a")), and (Some("b"), None)
/// }
/// ```
///
/// # Errors
///
/// [`SreError::Memory`] if an allocation failed.
pub fn all_captures<S: Text, A: Allocator + Copy>(
    alloc: A,
    req: &Request<'_, S>,
) -> Result<Vec<CapturesOf<S, A>, A>, SreError>
    ensures ok { (t : Tree) → Whole (words_of (code_of req.now)) t → IfOk result (λ all.
        map (captures_shown S.text) all.items
        ≡ map (captured (S.text (string_of req.now))) (walk (asked_of req.now) t)) }
    ensures refused { OnErr result (Refused A) }
{
    Ok(complete(captures_bounded(alloc, req, &mut Bounds::none())?))
}

/// `all_captures` within bounds: returns the first `bounds.most` matches, or `None` if the step limit is exceeded.
///
/// # Errors
///
/// [`SreError::Memory`] if an allocation failed.
pub fn captures_bounded<S: Text, A: Allocator + Copy>(
    alloc: A,
    req: &Request<'_, S>,
    bounds: &mut Bounds,
) -> Result<Option<Vec<CapturesOf<S, A>, A>>, SreError>
    ensures ok { (t : Tree) → Whole (words_of (code_of req.now)) t → IfOk result (λ told. IfSome told (λ all.
        map (captures_shown S.text) all.items
        ≡ map (captured (S.text (string_of req.now))) (first_of bounds.old.most (walk (asked_of req.now) t)))) }
    ensures used { IfOk result (λ told. told ≡ None → bounds.new.steps ≡ Some 0) }
    ensures steps { IfOk result (λ _. AreLeft bounds.old.steps bounds.new.steps) }
    ensures lasts { Outlast (asked_of req.now) (code_of req.now) bounds.old.steps → IfOk result IsSome }
    ensures unlimited { bounds.old.steps ≡ None → IfOk result IsSome }
    ensures exceeded { IfOk result (λ told. bounds.new.limit_exceeded ≡ is_none told) }
    ensures followed { IfOk result (λ _.
        Followed A (asked_of req.now) (code_of req.now) bounds.old.most bounds.old.steps bounds.new) }
    ensures refused { OnErr result (Refused A) }
{
    let mut captures = AllCaptures {
        alloc,
        all: Vec::new(alloc),
    };
    Ok(collect(alloc, req, bounds, &mut captures)?.then_some(captures.all))
}
