//! Replacement of all matches by a template.

ghost use Rattle.std.specs.Prelude.{◌≡◌, ◌++◌, true, None, Some, is_none, IfOk, IfSome, IsSome, OnErr};
ghost use Rattle.sre_recipes.specs.Terms.{chars, Tree, Whole, walk, words_of, string_of, start_of, end_of, code_of};
ghost use Rattle.sre_recipes.specs.Terms.{asked_of, match_shown, Refused, string_bytes};
ghost use Rattle.sre_recipes.specs.Spans.{IsSpan, StandsBy};
ghost use Rattle.sre_recipes.specs.Templates.{piece_of, written, replaced};
ghost use Rattle.sre_recipes.specs.Bounded.{first_of, AreLeft, Outlast};
ghost use Rattle.sre_recipes.specs.Followed.{Followed};

use crate::bounds::Bounds;
use crate::collects::{Collects, collect, complete};
use crate::slice::{group_text, up_to};
use crate::span::Span;
use crate::texts::Text;
use sre_engine::{Request, SreError, State, StrDrive, StringCursor};
use std::alloc::Allocator;

/// A piece of a replacement template.
#[derive(Clone, Copy, PartialEq, Eq, Debug)]
pub enum PieceOf<S> {
    /// This text, literally.
    Text(S),
    /// The text of the match.
    Match,
    /// The text of a group, empty if the group did not participate or does not exist. Groups are numbered as in Python:
    /// 0 is the match and 1 the first group.
    Group(usize),
}

/// A piece for a `&str`.
pub type Piece<'a> = PieceOf<&'a str>;

// The text that a piece inserts.
fn piece_text<S: Text, A: Allocator + Copy>(
    text: S,
    state: &State<A>,
    span: &Span,
    piece: PieceOf<S>,
) -> S
    requires { IsSpan (S.stands text) state.now span.now.start span.now.end }
    ensures { S.text result ≡ piece_of S.text (S.text text) (match_shown state.now) piece }
{
    match piece {
        PieceOf::Text(literal) => literal,
        PieceOf::Match => text.between(&span.start, &span.end),
        PieceOf::Group(group) => match group_text(text, state, group) {
            Some(part) => part,
            None => text.between(&span.end, &span.end),
        },
    }
}

// Appends the text that a piece inserts.
fn append_piece<S: Text, A: Allocator + Copy>(
    output: &mut Vec<u8, A>,
    text: S,
    state: &State<A>,
    span: &Span,
    piece: PieceOf<S>,
) -> Result<(), SreError>
    requires span { IsSpan (S.stands text) state.now span.now.start span.now.end }
    requires written { S.IsText output.old.items }
    ensures ok { IfOk result (λ _.
        S.characters output.new.items
        ≡ S.characters output.old.items ++ piece_of S.text (S.text text) (match_shown state.now) piece) }
    ensures written { IfOk result (λ _. S.IsText output.new.items) }
    ensures refused { OnErr result (Refused A) }
{
    piece_text(text, state, span, piece).append_to(output)
}

// Appends the expansion of a template for the state's match.
fn append_replacement<S: Text, A: Allocator + Copy>(
    output: &mut Vec<u8, A>,
    text: S,
    state: &State<A>,
    span: &Span,
    template: &[PieceOf<S>],
) -> Result<(), SreError>
    requires span { IsSpan (S.stands text) state.now span.now.start span.now.end }
    requires written { S.IsText output.old.items }
    ensures ok { IfOk result (λ _.
        S.characters output.new.items
        ≡ S.characters output.old.items ++ written S.text (S.text text) template.now (match_shown state.now)) }
    ensures written { IfOk result (λ _. S.IsText output.new.items) }
    ensures refused { OnErr result (Refused A) }
{
    'piece: for piece in template {
        append_piece(output, text, state, span, *piece)?;
    }
    Ok(())
}

// A text in which matches are replaced by the expansion of a template, and the cursor at the end of the last match.
#[derive(Drop)]
pub(crate) struct Expanded<'t, S, A: Allocator> {
    pub(crate) template: &'t [PieceOf<S>],
    pub(crate) last: StringCursor,
    pub(crate) output: Vec<u8, A>,
}

impl<'t, S: Text, A: Allocator + Copy> Collects<S, A> for Expanded<'t, S, A> {
    ghost captures = { true };

    ghost waits = { λ text p c. StandsBy (S.stands text) c.last p × S.IsText c.output.items };

    ghost gathers = { λ text stop before ms after. S.characters after.output.items
        ≡ S.characters before.output.items ++ replaced (S.text text)
        (written S.text (S.text text) before.template.now) before.last.position stop ms };

    fn add(&mut self, text: S, state: &State<A>, span: &Span) -> Result<(), SreError> {
        text.between(&self.last, &span.start)
            .append_to(&mut self.output)?;
        append_replacement(&mut self.output, text, state, span, self.template)?;
        self.last = span.end;
        Ok(())
    }

    fn finish(&mut self, text: S, stop: usize) -> Result<(), SreError> {
        up_to(text, &self.last, stop).append_to(&mut self.output)
    }
}

/// Returns the text of the range with each match replaced by the expansion of a template, as Python's `sub` does. Empty
/// matches are replaced, too. Text outside the range is not included.
///
/// ```
/// // Bytecode of `(a)`.
/// let code = Code::check(alloc, &[17, 0, 16, 97, 17, 1, 1], &uni)?;
/// let template = [Piece::Text("<"), Piece::Group(1), Piece::Text(">")];
/// let new = replace_all(alloc, &Request::whole("éab", code), &template)?;
/// assert!(new.as_str() == "é<a>b");
/// ```
///
/// # Errors
///
/// [`SreError::Memory`] if an allocation failed.
pub fn replace_all<A: Allocator + Copy>(
    alloc: A,
    req: &Request<'_, &str>,
    template: &[Piece<'_>],
) -> Result<String<A>, SreError>
    ensures ok { (t : Tree) → Whole (words_of (code_of req.now)) t → IfOk result (λ new.
        chars (string_bytes new)
        ≡ replaced (chars (string_of req.now).now)
        (written (λ s. chars s.now) (chars (string_of req.now).now) template.now)
        (start_of req.now) (end_of req.now) (walk (asked_of req.now) t)) }
    ensures refused { OnErr result (Refused A) }
{
    Ok(complete(replace_bounded(alloc, req, &mut Bounds::none(), template)?))
}

/// `replace_all` within bounds: replaces only the first `bounds.most` matches, as Python's `sub` does with `count`.
/// Returns `None` if the step limit is exceeded.
///
/// ```
/// // Bytecode of `a`.
/// let code = Code::check(alloc, &[16, 97, 1], &uni)?;
/// let whole = Request::whole("aéa", code);
/// if let Some(new) = replace_bounded(alloc, &whole, &mut Bounds::first(1), &[Piece::Text("b")])? {
///     assert!(new.as_str() == "béa");
/// }
/// ```
///
/// # Errors
///
/// [`SreError::Memory`] if an allocation failed.
pub fn replace_bounded<A: Allocator + Copy>(
    alloc: A,
    req: &Request<'_, &str>,
    bounds: &mut Bounds,
    template: &[Piece<'_>],
) -> Result<Option<String<A>>, SreError>
    ensures ok { (t : Tree) → Whole (words_of (code_of req.now)) t → IfOk result (λ told. IfSome told (λ new.
        chars (string_bytes new)
        ≡ replaced (chars (string_of req.now).now)
        (written (λ s. chars s.now) (chars (string_of req.now).now) template.now)
        (start_of req.now) (end_of req.now) (first_of bounds.old.most (walk (asked_of req.now) t)))) }
    ensures used { IfOk result (λ told. told ≡ None → bounds.new.steps ≡ Some 0) }
    ensures steps { IfOk result (λ _. AreLeft bounds.old.steps bounds.new.steps) }
    ensures lasts { Outlast (asked_of req.now) (code_of req.now) bounds.old.steps → IfOk result IsSome }
    ensures unlimited { bounds.old.steps ≡ None → IfOk result IsSome }
    ensures exceeded { IfOk result (λ told. bounds.new.limit_exceeded ≡ is_none told) }
    ensures followed { IfOk result (λ _.
        Followed A (asked_of req.now) (code_of req.now) bounds.old.most bounds.old.steps bounds.new) }
    ensures refused { OnErr result (Refused A) }
{
    let mut new = Expanded {
        template,
        last: req.string().create_cursor(req.start()),
        output: Vec::new(alloc),
    };
    if collect(alloc, req, bounds, &mut new)? {
        Ok(Some(String::from_utf8(new.output).unwrap()))
    } else {
        Ok(None)
    }
}

/// `replace_all` for bytes.
///
/// ```
/// // Bytecode of `(a)`.
/// let code = Code::check(alloc, &[17, 0, 16, 97, 17, 1, 1], &uni)?;
/// let text = b"\xffab".as_slice();
/// let template = [PieceOf::Text(b"<".as_slice()), PieceOf::Group(1)];
/// let new = replace_all_bytes(alloc, &Request::whole(text, code), &template)?;
/// assert!(new.as_slice() == b"\xff<ab".as_slice());
/// ```
///
/// # Errors
///
/// [`SreError::Memory`] if an allocation failed.
pub fn replace_all_bytes<A: Allocator + Copy>(
    alloc: A,
    req: &Request<'_, &[u8]>,
    template: &[PieceOf<&[u8]>],
) -> Result<Vec<u8, A>, SreError>
    ensures ok { (t : Tree) → Whole (words_of (code_of req.now)) t → IfOk result (λ new.
        new.items
        ≡ replaced (string_of req.now).now (written (λ s. s.now) (string_of req.now).now template.now)
        (start_of req.now) (end_of req.now) (walk (asked_of req.now) t)) }
    ensures refused { OnErr result (Refused A) }
{
    Ok(complete(replace_bounded_bytes(alloc, req, &mut Bounds::none(), template)?))
}

/// `replace_bounded` for bytes.
///
/// # Errors
///
/// [`SreError::Memory`] if an allocation failed.
pub fn replace_bounded_bytes<A: Allocator + Copy>(
    alloc: A,
    req: &Request<'_, &[u8]>,
    bounds: &mut Bounds,
    template: &[PieceOf<&[u8]>],
) -> Result<Option<Vec<u8, A>>, SreError>
    ensures ok { (t : Tree) → Whole (words_of (code_of req.now)) t → IfOk result (λ told. IfSome told (λ new.
        new.items
        ≡ replaced (string_of req.now).now (written (λ s. s.now) (string_of req.now).now template.now)
        (start_of req.now) (end_of req.now) (first_of bounds.old.most (walk (asked_of req.now) t)))) }
    ensures used { IfOk result (λ told. told ≡ None → bounds.new.steps ≡ Some 0) }
    ensures steps { IfOk result (λ _. AreLeft bounds.old.steps bounds.new.steps) }
    ensures lasts { Outlast (asked_of req.now) (code_of req.now) bounds.old.steps → IfOk result IsSome }
    ensures unlimited { bounds.old.steps ≡ None → IfOk result IsSome }
    ensures exceeded { IfOk result (λ told. bounds.new.limit_exceeded ≡ is_none told) }
    ensures followed { IfOk result (λ _.
        Followed A (asked_of req.now) (code_of req.now) bounds.old.most bounds.old.steps bounds.new) }
    ensures refused { OnErr result (Refused A) }
{
    let mut new = Expanded {
        template,
        last: req.string().create_cursor(req.start()),
        output: Vec::new(alloc),
    };
    Ok(collect(alloc, req, bounds, &mut new)?.then_some(new.output))
}
