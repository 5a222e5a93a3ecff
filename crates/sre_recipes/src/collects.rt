//! Collectors: what gathers something of each match of an iteration. There is one loop over the matches of a
//! `SearchIter` within bounds here, and one over those of a `SpanIter` in `every`.

ghost use Rattle.std.specs.Prelude.{⊤, ◌≡◌, ◌≤◌, ◌∷◌, [], ℕ, List, Bool, true, false, None, Some, length, IfOk, IsSome};
ghost use Rattle.std.specs.Prelude.{OnErr, not};
ghost use Rattle.sre_recipes.specs.Terms.{Tree, Whole, Match, walk, words_of, string_of, start_of, end_of, code_of};
ghost use Rattle.sre_recipes.specs.Terms.{asked_of, Refused};
ghost use Rattle.sre_recipes.specs.Spans.{IsFound, Shows};
ghost use Rattle.sre_recipes.specs.Bounded.{first_of, AreLeft, Outlast};
ghost use Rattle.sre_recipes.specs.Followed.{Followed};

use crate::bounds::{Bounds, next_bounded};
use crate::find::copied;
use crate::span::Span;
use crate::texts::Text;
use sre_engine::{Request, SearchIter, SreError, State};
use std::alloc::Allocator;

/// What gathers something of each match of an iteration, and of the end of its range.
pub(crate) trait Collects<S: Text, A: Allocator + Copy> {
    // Whether it reads captures, which the state then shows.
    ghost captures: { Bool } = { false };

    // Whether it can go on from a position of a text.
    ghost waits: { S → ℕ → Self → Type 0 } = { λ _ _ _. ⊤ };

    // Whether some matches of a text, and the end of the range behind them, lead from what it has to what it has then.
    ghost gathers: { S → ℕ → Self → List Match → Self → Type 0 };

    // What has to hold so that it fails only if an allocation failed.
    ghost trusts: { Type 0 } = { ⊤ };

    /// Adds a match.
    fn add(&mut self, text: S, state: &State<A>, span: &Span) -> Result<(), SreError>
        requires waits { waits text span.now.start.position self.old }
        requires found { IsFound (S.stands text) captures state.now span.now.start span.now.end }
        ensures waits { IfOk result (λ _. (p : ℕ) → span.now.end.position ≤ p → waits text p self.new) }
        ensures gathers { IfOk result (λ _. (m : Match) → Shows captures state.now span.now.start span.now.end m
            → (stop : ℕ) (ms : List Match) (last : Self)
            → gathers text stop self.new ms last → gathers text stop self.old (m ∷ ms) last) }
        ensures refused { trusts → OnErr result (Refused A) };

    /// Adds the end of the range.
    fn finish(&mut self, text: S, stop: usize) -> Result<(), SreError>
        requires waits { waits text stop self.old }
        requires inside { stop ≤ length (S.text text) }
        ensures waits { IfOk result (λ _. waits text stop self.new) }
        ensures gathers { IfOk result (λ _. gathers text stop self.old [] self.new) }
        ensures refused { trusts → OnErr result (Refused A) };
}

// Gathers something of each match of a range, within bounds. Returns `false` if the step limit is exceeded.
pub(crate) fn collect<S: Text, A: Allocator + Copy, C: Collects<S, A>>(
    alloc: A,
    req: &Request<'_, S>,
    bounds: &mut Bounds,
    all: &mut C,
) -> Result<bool, SreError>
    requires { (p : ℕ) → start_of req.now ≤ p → C.waits (string_of req.now) p all.old }
    ensures ok { (t : Tree) → Whole (words_of (code_of req.now)) t → IfOk result (λ complete. complete ≡ true
        → C.gathers (string_of req.now) (end_of req.now) all.old
        (first_of bounds.old.most (walk (asked_of req.now) t)) all.new) }
    ensures waits { IfOk result (λ _. C.waits (string_of req.now) (end_of req.now) all.new) }
    ensures used { IfOk result (λ complete. complete ≡ false → bounds.new.steps ≡ Some 0) }
    ensures steps { IfOk result (λ _. AreLeft bounds.old.steps bounds.new.steps) }
    ensures lasts { Outlast (asked_of req.now) (code_of req.now) bounds.old.steps
        → IfOk result (λ complete. complete ≡ true) }
    ensures unlimited { bounds.old.steps ≡ None → IfOk result (λ complete. complete ≡ true) }
    ensures exceeded { IfOk result (λ complete. bounds.new.limit_exceeded ≡ not complete) }
    ensures followed { IfOk result (λ _.
        Followed A (asked_of req.now) (code_of req.now) bounds.old.most bounds.old.steps bounds.new) }
    ensures refused { C.trusts → OnErr result (Refused A) }
{
    bounds.limit_exceeded = false;
    let mut walk = SearchIter::new(copied(req), State::new(alloc));
    let text = req.string();
    'walk: while let Some(span) = next_bounded(&mut walk, bounds)? {
        all.add(text, walk.state(), &span)?;
    }
    all.finish(text, req.end())?;
    Ok(!bounds.limit_exceeded)
}

// What a call without a step limit returns.
pub(crate) fn complete<T>(told: Option<T>) -> T
    requires { IsSome told }
    ensures { told ≡ Some result }
{
    let Some(all) = told else {
        unreachable!();
    };
    all
}
