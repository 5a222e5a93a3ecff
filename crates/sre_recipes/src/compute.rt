//! Replacement of all matches by the results of a closure.

ghost use Rattle.std.specs.Prelude.{◌≡◌, ◌++◌, true, None, Some, Err, is_none, IfOk, IfSome, IsSome, OnErr};
ghost use Rattle.sre_recipes.specs.Terms.{Tree, Whole, walk, words_of, string_of, start_of, end_of, code_of, asked_of};
ghost use Rattle.sre_recipes.specs.Terms.{Refused};
ghost use Rattle.std.specs.Global.{Global};
ghost use Rattle.sre_recipes.specs.Computed.{Computes, ReplacedInOrder};
ghost use Rattle.sre_recipes.specs.Spans.{StandsBy};
ghost use Rattle.sre_recipes.specs.Bounded.{first_of, AreLeft, Outlast};
ghost use Rattle.sre_recipes.specs.Followed.{Followed};

use crate::bounds::Bounds;
use crate::collects::{Collects, collect, complete};
use crate::groups::{CapturesOf, shown_captures};
use crate::slice::up_to;
use crate::span::Span;
use crate::texts::{Rewritten, Text};
use sre_engine::{Request, SreError, State, StrDrive, StringCursor};
use std::alloc::{AllocError, Global};

// A text in which matches are replaced by what a closure gives, and the cursor at the end of the last match.
#[derive(Drop)]
struct Replacing<F> {
    alloc: Global,
    compute: F,
    last: StringCursor,
    output: Vec<u8>,
}

impl<S, F> Collects<S, Global> for Replacing<F>
where
    S: Rewritten,
    F: FnMut(&CapturesOf<S, Global>) -> Result<S::New, AllocError>,
{
    ghost captures = { true };

    ghost waits = { λ text p c.
        StandsBy (S.stands text) c.last p × S.IsText c.output.items × F.IsAlwaysCallable c.compute };

    ghost gathers = { λ text stop before ms after. (new : _)
        × (S.characters after.output.items ≡ S.characters before.output.items ++ new)
        × ReplacedInOrder (Computes S.text (λ f c r g. F.step f c r g) (λ r. S.shown r) (S.text text)) (S.text text)
        before.compute before.last.position stop ms new };

    ghost trusts = { (f : _) (c : _) (e : _) (g : _) → F.step f c (Err e) g → Refused Global };

    fn add(&mut self, text: S, state: &State<Global>, span: &Span) -> Result<(), SreError> {
        let captures = shown_captures(self.alloc, text, state)?;
        let Ok(new) = (self.compute)(&captures) else {
            return Err(SreError::Memory);
        };
        text.between(&self.last, &span.start)
            .append_to(&mut self.output)?;
        S::append_new(&new, &mut self.output)?;
        self.last = span.end;
        Ok(())
    }

    fn finish(&mut self, text: S, stop: usize) -> Result<(), SreError> {
        up_to(text, &self.last, stop).append_to(&mut self.output)
    }
}

/// Returns the text of the range with each match replaced by the result of a closure, as Python's `sub` does for a
/// function. The closure is called once for each match, in order, with the match's captures. It can change its own
/// state.
///
/// ```
/// // Bytecode of `a`.
/// let code = Code::check(alloc, &[16, 97, 1], &uni)?;
/// let mut several = 0;
/// let new = replace_with(alloc, &Request::whole("éaba", code), |found| {
///     several += 1;
///     format!(in alloc; "<{several}{}>", found.get(0).unwrap_or_default())
/// })?;
/// assert!(new.as_str() == "é<1a>b<2a>");
/// ```
///
/// # Errors
///
/// [`SreError::Memory`] if an allocation failed, or the closure returned an error.
pub fn replace_with<S, F>(
    alloc: Global,
    req: &Request<'_, S>,
    compute: F,
) -> Result<S::New, SreError>
where
    S: Rewritten,
    F: FnMut(&CapturesOf<S, Global>) -> Result<S::New, AllocError>,
    requires { F.IsAlwaysCallable compute }
    ensures ok { (t : Tree) → Whole (words_of (code_of req.now)) t → IfOk result (λ new. ReplacedInOrder
        (Computes S.text (λ f c r g. F.step f c r g) (λ r. S.shown r) (S.text (string_of req.now)))
        (S.text (string_of req.now)) compute (start_of req.now) (end_of req.now)
        (walk (asked_of req.now) t) (S.shown new)) }
    ensures refused { ((f : _) (c : _) (e : _) (g : _) → F.step f c (Err e) g → Refused Global)
        → OnErr result (Refused Global) }
{
    Ok(complete(replace_with_bounded(alloc, req, &mut Bounds::none(), compute)?))
}

/// `replace_with` within bounds: replaces only the first `bounds.most` matches. Returns `None` if the step limit is
/// exceeded.
///
/// # Errors
///
/// [`SreError::Memory`] if an allocation failed, or the closure returned an error.
pub fn replace_with_bounded<S, F>(
    alloc: Global,
    req: &Request<'_, S>,
    bounds: &mut Bounds,
    compute: F,
) -> Result<Option<S::New>, SreError>
where
    S: Rewritten,
    F: FnMut(&CapturesOf<S, Global>) -> Result<S::New, AllocError>,
    requires { F.IsAlwaysCallable compute }
    ensures ok { (t : Tree) → Whole (words_of (code_of req.now)) t → IfOk result (λ told. IfSome told (λ new.
        ReplacedInOrder
        (Computes S.text (λ f c r g. F.step f c r g) (λ r. S.shown r) (S.text (string_of req.now)))
        (S.text (string_of req.now)) compute (start_of req.now) (end_of req.now)
        (first_of bounds.old.most (walk (asked_of req.now) t)) (S.shown new))) }
    ensures used { IfOk result (λ told. told ≡ None → bounds.new.steps ≡ Some 0) }
    ensures steps { IfOk result (λ _. AreLeft bounds.old.steps bounds.new.steps) }
    ensures lasts { Outlast (asked_of req.now) (code_of req.now) bounds.old.steps → IfOk result IsSome }
    ensures unlimited { bounds.old.steps ≡ None → IfOk result IsSome }
    ensures exceeded { IfOk result (λ told. bounds.new.limit_exceeded ≡ is_none told) }
    ensures followed { IfOk result (λ _.
        Followed Global (asked_of req.now) (code_of req.now) bounds.old.most bounds.old.steps bounds.new) }
    ensures refused { ((f : _) (c : _) (e : _) (g : _) → F.step f c (Err e) g → Refused Global)
        → OnErr result (Refused Global) }
{
    let mut new = Replacing {
        alloc,
        compute,
        last: req.string().create_cursor(req.start()),
        output: Vec::new(alloc),
    };
    if collect(alloc, req, bounds, &mut new)? {
        Ok(Some(S::from_output(new.output)))
    } else {
        Ok(None)
    }
}
