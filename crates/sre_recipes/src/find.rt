//! The text of one match, and the texts of all matches.

ghost use Rattle.std.specs.Prelude.{◌≡◌, ◌≤◌, ◌++◌, true, false, None, Some, map, slice_range, is_none, is_some};
ghost use Rattle.std.specs.Prelude.{IsSome, IfSome, IfOk, OnErr};
ghost use Rattle.sre_recipes.specs.Terms.{Tree, Whole, no_marks, matched, found, walk, words_of, string_of, start_of};
ghost use Rattle.sre_recipes.specs.Terms.{end_of, code_of, asked_of, stands_in, answer_of, Refused, Spans};
ghost use Rattle.sre_recipes.specs.Slices.{slice_of, to_the_end};
ghost use Rattle.sre_recipes.specs.Bounded.{first_of, AreLeft, Outlast};
ghost use Rattle.sre_recipes.specs.Followed.{Followed};

use crate::bounds::Bounds;
use crate::collects::{Collects, collect, complete};
use crate::slice::matched_text;
use crate::span::Span;
use crate::texts::Text;
use sre_engine::{Request, SreError, State, StrDrive};
use std::alloc::Allocator;

// The same request by value, as the engine's calls take it. It allocates nothing.
pub(crate) fn copied<'a, S: StrDrive>(req: &Request<'a, S>) -> Request<'a, S>
    ensures { result ≡ req.now }
{
    let Ok(req) = req.clone() else {
        unreachable!();
    };
    req
}

// The texts of matches.
#[derive(Drop)]
struct Texts<S, A: Allocator> {
    all: Vec<S, A>,
}

impl<S: Text, A: Allocator + Copy> Collects<S, A> for Texts<S, A> {
    ghost gathers = { λ text stop before ms after. map S.text after.all.items
        ≡ map S.text before.all.items ++ map (slice_of (S.text text)) ms };

    fn add(&mut self, text: S, _state: &State<A>, span: &Span) -> Result<(), SreError> {
        Ok(sre_growth::push(&mut self.all, text.between(&span.start, &span.end))?)
    }

    fn finish(&mut self, _text: S, _stop: usize) -> Result<(), SreError> {
        Ok(())
    }
}

/// Returns the texts of all matches in the range, in order, as Python's `findall` does for a pattern without groups.
///
/// ```
/// // Bytecode of `a`.
/// let code = Code::check(alloc, &[16, 97, 1], &uni)?;
/// let all = find_all(alloc, &Request::whole("éaba", code))?;
/// assert!(all.as_slice() == ["a", "a"].as_slice());
/// ```
///
/// # Errors
///
/// [`SreError::Memory`] if an allocation failed.
pub fn find_all<S: Text, A: Allocator + Copy>(
    alloc: A,
    req: &Request<'_, S>,
) -> Result<Vec<S, A>, SreError>
    ensures ok { (t : Tree) → Whole (words_of (code_of req.now)) t → IfOk result (λ all.
        map S.text all.items
        ≡ map (slice_of (S.text (string_of req.now))) (walk (asked_of req.now) t)) }
    ensures refused { OnErr result (Refused A) }
{
    Ok(complete(find_bounded(alloc, req, &mut Bounds::none())?))
}

/// `find_all` within bounds: returns the texts of the first `bounds.most` matches, or `None` if the step limit is
/// exceeded.
///
/// ```
/// // Bytecode of `a`.
/// let code = Code::check(alloc, &[16, 97, 1], &uni)?;
/// let whole = Request::whole("éaba", code);
/// if let Some(one) = find_bounded(alloc, &whole, &mut Bounds::first(1))? {
///     assert!(one.as_slice() == ["a"].as_slice());
/// }
/// ```
///
/// # Errors
///
/// [`SreError::Memory`] if an allocation failed.
pub fn find_bounded<S: Text, A: Allocator + Copy>(
    alloc: A,
    req: &Request<'_, S>,
    bounds: &mut Bounds,
) -> Result<Option<Vec<S, A>>, SreError>
    ensures ok { (t : Tree) → Whole (words_of (code_of req.now)) t → IfOk result (λ told. IfSome told (λ all.
        map S.text all.items
        ≡ map (slice_of (S.text (string_of req.now))) (first_of bounds.old.most (walk (asked_of req.now) t)))) }
    ensures used { IfOk result (λ told. told ≡ None → bounds.new.steps ≡ Some 0) }
    ensures steps { IfOk result (λ _. AreLeft bounds.old.steps bounds.new.steps) }
    ensures lasts { Outlast (asked_of req.now) (code_of req.now) bounds.old.steps → IfOk result IsSome }
    ensures unlimited { bounds.old.steps ≡ None → IfOk result IsSome }
    ensures exceeded { IfOk result (λ told. bounds.new.limit_exceeded ≡ is_none told) }
    ensures followed { IfOk result (λ _.
        Followed A (asked_of req.now) (code_of req.now) bounds.old.most bounds.old.steps bounds.new) }
    ensures refused { OnErr result (Refused A) }
{
    let mut texts = Texts {
        all: Vec::new(alloc),
    };
    Ok(collect(alloc, req, bounds, &mut texts)?.then_some(texts.all))
}

/// Matches at the start of the range, as `State::pymatch` does. Returns the text of the match, which the state then
/// shows, or `None` if there is none. After `None` or an error the state has no captures.
///
/// # Errors
///
/// [`SreError::Memory`] if an allocation failed.
pub fn match_text<S: Text, A: Allocator + Copy>(
    req: &Request<'_, S>,
    state: &mut State<A>,
) -> Result<Option<S>, SreError>
    ensures answer { (t : Tree) → Whole (words_of (code_of req.now)) t
        → IfOk result (λ text. answer_of (is_some text) state.new ≡ matched (asked_of req.now) t) }
    ensures text { IfOk result (λ text. IfSome text (λ s. S.text s
        ≡ slice_range (S.text (string_of req.now)) state.new.start state.new.cursor.position)) }
    ensures stands { IfOk result (λ text. IsSome text
        → S.stands (string_of req.now) state.new.cursor state.new.cursor.position) }
    ensures forward { IfOk result (λ text. IsSome text → state.new.start ≤ state.new.cursor.position) }
    ensures no { IfOk result (λ text. text ≡ None → state.new.marks ≡ no_marks) }
    ensures err { OnErr result (state.new.marks ≡ no_marks) }
    ensures refused { OnErr result (Refused A) }
{
    let _words = req.pattern_codes().words(); // has a tree
    if !state.pymatch(req)? {
        return Ok(None);
    }
    Ok(Some(matched_text(req.string(), state)))
}

/// Searches the range, as `State::search` does. Returns the text of the match with the least start, which the state
/// then shows, or `None` if there is none. After `None` or an error the state has no captures.
///
/// # Errors
///
/// [`SreError::Memory`] if an allocation failed.
pub fn search_text<S: Text, A: Allocator + Copy>(
    req: &Request<'_, S>,
    state: &mut State<A>,
) -> Result<Option<S>, SreError>
    ensures answer { (t : Tree) → Whole (words_of (code_of req.now)) t
        → IfOk result (λ text. answer_of (is_some text) state.new ≡ found (asked_of req.now) t) }
    ensures text { IfOk result (λ text. IfSome text (λ s. S.text s
        ≡ slice_range (S.text (string_of req.now)) state.new.start state.new.cursor.position)) }
    ensures stands { IfOk result (λ text. IsSome text
        → S.stands (string_of req.now) state.new.cursor state.new.cursor.position) }
    ensures forward { IfOk result (λ text. IsSome text → state.new.start ≤ state.new.cursor.position) }
    ensures no { IfOk result (λ text. text ≡ None → state.new.marks ≡ no_marks) }
    ensures err { OnErr result (state.new.marks ≡ no_marks) }
    ensures refused { OnErr result (Refused A) }
{
    let _words = req.pattern_codes().words(); // has a tree
    if !state.search(copied(req))? {
        return Ok(None);
    }
    Ok(Some(matched_text(req.string(), state)))
}

/// Returns whether the range has a match, for a text of any type.
///
/// ```
/// // Bytecode of `b`.
/// let code = Code::check(alloc, &[16, 98, 1], &uni)?;
/// assert!(is_match(alloc, &Request::whole("abc", code))?);
/// ```
///
/// # Errors
///
/// [`SreError::Memory`] if an allocation failed.
pub fn is_match<S: StrDrive, A: Allocator + Copy>(
    alloc: A,
    req: &Request<'_, S>,
) -> Result<bool, SreError>
    ensures ok { (t : Tree) → Whole (words_of (code_of req.now)) t
        → IfOk result (λ b. b ≡ is_some (found (asked_of req.now) t)) }
    ensures refused { OnErr result (Refused A) }
{
    let mut state = State::new(alloc);
    state.search(copied(req))
}

/// Returns whether a match goes from the start of the range to its end, as Python's `fullmatch` does, for a text of any
/// type. The state then shows the match, and after `false` or an error it has no captures. The call ignores the
/// request's `match_all`.
///
/// # Errors
///
/// [`SreError::Memory`] if an allocation failed.
pub fn full_match<S: StrDrive, A: Allocator + Copy>(
    req: &Request<'_, S>,
    state: &mut State<A>,
) -> Result<bool, SreError>
    ensures answer { (t : Tree) → Whole (words_of (code_of req.now)) t
        → IfOk result (λ b. answer_of b state.new ≡ matched (to_the_end (asked_of req.now)) t) }
    ensures cursor { IfOk result (λ b. b ≡ true → stands_in req.now state.new.cursor state.new.cursor.position) }
    ensures span { IfOk result (λ b. b ≡ true → Spans (start_of req.now) (end_of req.now) state.new) }
    ensures no { IfOk result (λ b. b ≡ false → state.new.marks ≡ no_marks) }
    ensures err { OnErr result (state.new.marks ≡ no_marks) }
    ensures refused { OnErr result (Refused A) }
{
    let mut req = copied(req);
    req.set_match_all(true);
    state.pymatch(&req)
}
