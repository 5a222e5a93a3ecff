//! Splitting: the pieces of text between matches.

ghost use Rattle.std.specs.Prelude.{◌≡◌, ◌++◌, true, None, Some, map, is_none, IfOk, IfSome, IsSome, OnErr};
ghost use Rattle.sre_recipes.specs.Terms.{option_map, Tree, Whole, walk, words_of, string_of, start_of, end_of};
ghost use Rattle.sre_recipes.specs.Terms.{code_of, asked_of, Refused};
ghost use Rattle.sre_recipes.specs.Spans.{StandsBy};
ghost use Rattle.sre_recipes.specs.Pieces.{pieces_between, pieces_and_groups};
ghost use Rattle.sre_recipes.specs.Bounded.{first_of, AreLeft, Outlast};
ghost use Rattle.sre_recipes.specs.Followed.{Followed};

use crate::bounds::Bounds;
use crate::collects::{Collects, collect, complete};
use crate::groups::add_groups;
use crate::slice::up_to;
use crate::span::Span;
use crate::texts::Text;
use sre_engine::{Request, SreError, State, StrDrive, StringCursor};
use std::alloc::Allocator;

// The pieces of a text before matches, and the cursor at the end of the last match.
#[derive(Drop)]
pub(crate) struct Pieces<S, A: Allocator> {
    pub(crate) pieces: Vec<S, A>,
    pub(crate) last: StringCursor,
}

impl<S: Text, A: Allocator + Copy> Collects<S, A> for Pieces<S, A> {
    ghost waits = { λ text p c. StandsBy (S.stands text) c.last p };

    ghost gathers = { λ text stop before ms after. map S.text after.pieces.items
        ≡ map S.text before.pieces.items ++ pieces_between (S.text text) before.last.position stop ms };

    fn add(&mut self, text: S, _state: &State<A>, span: &Span) -> Result<(), SreError> {
        sre_growth::push(&mut self.pieces, text.between(&self.last, &span.start))?;
        self.last = span.end;
        Ok(())
    }

    fn finish(&mut self, text: S, stop: usize) -> Result<(), SreError> {
        Ok(sre_growth::push(&mut self.pieces, up_to(text, &self.last, stop))?)
    }
}

/// Returns the pieces of the range between its matches, as Python's `split` does for a pattern without groups. There is
/// one piece more than there are matches, and pieces can be empty. An empty match splits, too.
///
/// ```
/// // Bytecode of `,`.
/// let code = Code::check(alloc, &[16, 44, 1], &uni)?;
/// let pieces = split(alloc, &Request::whole("é,,b", code))?;
/// assert!(pieces.as_slice() == ["é", "", "b"].as_slice());
/// ```
///
/// # Errors
///
/// [`SreError::Memory`] if an allocation failed.
pub fn split<S: Text, A: Allocator + Copy>(
    alloc: A,
    req: &Request<'_, S>,
) -> Result<Vec<S, A>, SreError>
    ensures ok { (t : Tree) → Whole (words_of (code_of req.now)) t → IfOk result (λ pieces.
        map S.text pieces.items
        ≡ pieces_between (S.text (string_of req.now)) (start_of req.now) (end_of req.now)
        (walk (asked_of req.now) t)) }
    ensures refused { OnErr result (Refused A) }
{
    Ok(complete(split_bounded(alloc, req, &mut Bounds::none())?))
}

/// `split` within bounds: splits only at the first `bounds.most` matches, as Python's `split` does with `maxsplit`. The
/// last piece is then all that follows them. Returns `None` if the step limit is exceeded.
///
/// ```
/// // Bytecode of `,`.
/// let code = Code::check(alloc, &[16, 44, 1], &uni)?;
/// let whole = Request::whole("é,b,c", code);
/// if let Some(two) = split_bounded(alloc, &whole, &mut Bounds::first(1))? {
///     assert!(two.as_slice() == ["é", "b,c"].as_slice());
/// }
/// ```
///
/// # Errors
///
/// [`SreError::Memory`] if an allocation failed.
pub fn split_bounded<S: Text, A: Allocator + Copy>(
    alloc: A,
    req: &Request<'_, S>,
    bounds: &mut Bounds,
) -> Result<Option<Vec<S, A>>, SreError>
    ensures ok { (t : Tree) → Whole (words_of (code_of req.now)) t → IfOk result (λ told. IfSome told (λ pieces.
        map S.text pieces.items
        ≡ pieces_between (S.text (string_of req.now)) (start_of req.now) (end_of req.now)
        (first_of bounds.old.most (walk (asked_of req.now) t)))) }
    ensures used { IfOk result (λ told. told ≡ None → bounds.new.steps ≡ Some 0) }
    ensures steps { IfOk result (λ _. AreLeft bounds.old.steps bounds.new.steps) }
    ensures lasts { Outlast (asked_of req.now) (code_of req.now) bounds.old.steps → IfOk result IsSome }
    ensures unlimited { bounds.old.steps ≡ None → IfOk result IsSome }
    ensures exceeded { IfOk result (λ told. bounds.new.limit_exceeded ≡ is_none told) }
    ensures followed { IfOk result (λ _.
        Followed A (asked_of req.now) (code_of req.now) bounds.old.most bounds.old.steps bounds.new) }
    ensures refused { OnErr result (Refused A) }
{
    let mut all = Pieces {
        pieces: Vec::new(alloc),
        last: req.string().create_cursor(req.start()),
    };
    Ok(collect(alloc, req, bounds, &mut all)?.then_some(all.pieces))
}

// The same pieces, each but the last followed by so many groups of the match behind it.
#[derive(Drop)]
struct PiecesAndGroups<S, A: Allocator> {
    pieces: Vec<Option<S>, A>,
    last: StringCursor,
    groups: usize,
}

impl<S: Text, A: Allocator + Copy> Collects<S, A> for PiecesAndGroups<S, A> {
    ghost captures = { true };

    ghost waits = { λ text p c. StandsBy (S.stands text) c.last p };

    ghost gathers = { λ text stop before ms after. map (option_map S.text) after.pieces.items
        ≡ map (option_map S.text) before.pieces.items
        ++ pieces_and_groups (S.text text) before.groups before.last.position stop ms };

    fn add(&mut self, text: S, state: &State<A>, span: &Span) -> Result<(), SreError> {
        sre_growth::push(
            &mut self.pieces,
            Some(text.between(&self.last, &span.start)),
        )?;
        add_groups(&mut self.pieces, text, state, 1, self.groups)?;
        self.last = span.end;
        Ok(())
    }

    fn finish(&mut self, text: S, stop: usize) -> Result<(), SreError> {
        Ok(sre_growth::push(&mut self.pieces, Some(up_to(text, &self.last, stop)))?)
    }
}

/// Returns the pieces of the range between its matches, as Python's `split` does for a pattern with groups. Each piece
/// but the last is followed by the texts of the match's groups 1 to `groups`, `None` for one that did not participate.
/// `groups` should be the number of groups in the pattern.
///
/// ```
/// // Bytecode of `(,)|;`.
/// let words = [7, 9, 17, 0, 16, 44, 17, 1, 15, 7, 5, 16, 59, 15, 2, 0, 1];
/// let code = Code::check(alloc, &words, &uni)?;
/// let pieces = split_groups(alloc, &Request::whole("é,b;c", code), 1)?;
/// assert!(pieces.as_slice() == [Some("é"), Some(","), Some("b"), None, Some("c")].as_slice());
/// ```
///
/// # Errors
///
/// [`SreError::Memory`] if an allocation failed.
pub fn split_groups<S: Text, A: Allocator + Copy>(
    alloc: A,
    req: &Request<'_, S>,
    groups: usize,
) -> Result<Vec<Option<S>, A>, SreError>
    ensures ok { (t : Tree) → Whole (words_of (code_of req.now)) t → IfOk result (λ pieces.
        map (option_map S.text) pieces.items
        ≡ pieces_and_groups (S.text (string_of req.now)) groups (start_of req.now) (end_of req.now)
        (walk (asked_of req.now) t)) }
    ensures refused { OnErr result (Refused A) }
{
    Ok(complete(split_groups_bounded(alloc, req, groups, &mut Bounds::none())?))
}

/// `split_groups` within bounds: splits only at the first `bounds.most` matches. Returns `None` if the step limit is
/// exceeded.
///
/// # Errors
///
/// [`SreError::Memory`] if an allocation failed.
pub fn split_groups_bounded<S: Text, A: Allocator + Copy>(
    alloc: A,
    req: &Request<'_, S>,
    groups: usize,
    bounds: &mut Bounds,
) -> Result<Option<Vec<Option<S>, A>>, SreError>
    ensures ok { (t : Tree) → Whole (words_of (code_of req.now)) t → IfOk result (λ told. IfSome told (λ pieces.
        map (option_map S.text) pieces.items
        ≡ pieces_and_groups (S.text (string_of req.now)) groups (start_of req.now) (end_of req.now)
        (first_of bounds.old.most (walk (asked_of req.now) t)))) }
    ensures used { IfOk result (λ told. told ≡ None → bounds.new.steps ≡ Some 0) }
    ensures steps { IfOk result (λ _. AreLeft bounds.old.steps bounds.new.steps) }
    ensures lasts { Outlast (asked_of req.now) (code_of req.now) bounds.old.steps → IfOk result IsSome }
    ensures unlimited { bounds.old.steps ≡ None → IfOk result IsSome }
    ensures exceeded { IfOk result (λ told. bounds.new.limit_exceeded ≡ is_none told) }
    ensures followed { IfOk result (λ _.
        Followed A (asked_of req.now) (code_of req.now) bounds.old.most bounds.old.steps bounds.new) }
    ensures refused { OnErr result (Refused A) }
{
    let mut all = PiecesAndGroups {
        pieces: Vec::new(alloc),
        last: req.string().create_cursor(req.start()),
        groups,
    };
    Ok(collect(alloc, req, bounds, &mut all)?.then_some(all.pieces))
}
