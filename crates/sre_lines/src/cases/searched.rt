//! The search of a case, with a prefilter.

ghost use Rattle.std.specs.Prelude.{◌≡◌, true, IfOk};
ghost use Rattle.sre_lines.specs.Terms.{Tree, Whole, found, words_of, asked_of, code_of, stands_in};
ghost use Rattle.sre_engine.specs.Answers.{answer_of};

use sre_engine::engine::SreError;
use sre_engine::{Request, State};
use sre_finder::{Finder, Haystack};
use std::alloc::{Allocator, Global};

/// Searches the range, with the result of `State::search`. DFAs use `alloc`. If they have no memory, the machine tries
/// all starts.
pub fn search<S: Haystack, A: Allocator + Copy>(
    alloc: Global,
    request: Request<'_, S>,
    state: &mut State<A>,
) -> Result<bool, SreError>
    ensures answer { (t : Tree) → Whole (words_of (code_of request.entry)) t
        → IfOk result (λ b. answer_of b state.new ≡ found (asked_of request.entry) t) }
    ensures cursor { IfOk result
        (λ b. b ≡ true → stands_in request.entry state.new.cursor state.new.cursor.position) }
{
    let encoding = request.string().encoding(request.end());
    let mut finder = Finder::on_demand(alloc, request.pattern_codes(), encoding);
    finder.search(request, state)
}
