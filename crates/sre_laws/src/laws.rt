//! Laws over several clauses or calls: requests over texts of two types have equal answers, and emitted bytecode passes
//! the check. Others say what holds after a search or an iteration that finds no match, fails or has a step limit.

ghost use Rattle.std.specs.Prelude.{◌<◌, ◌+◌, ◌-◌, ◌*◌, ℕ, length, ◌≡◌, ◌≢◌, ◌≤◌, IfOk, IfErr, OnErr, Some, true};
ghost use Rattle.std.specs.Prelude.{false, None, Ok, Err, cond, ◌&&◌, map};
ghost use Rattle.std.specs.Vec.{vec_len};
ghost use Rattle.sre_growth.specs.Refusal.{Refused};
ghost use Rattle.sre_engine.specs.Tree.{Tree};
ghost use Rattle.sre_engine.specs.Grammar.{Whole, behind_block};
ghost use Rattle.sre_engine.specs.Codes.{words_of, hints_of};
ghost use Rattle.sre_engine.specs.Requests.{asked_of, code_of, start_of, end_of};
ghost use Rattle.sre_engine.specs.Answers.{answer_of, Spans};
ghost use Rattle.sre_engine.specs.Marks.{no_marks};
ghost use Rattle.sre_engine.specs.TurnBounds.{RunsWithin};
ghost use Rattle.sre_engine.specs.Counts.{AreEnough};
ghost use Rattle.sre_engine.specs.Iterators.{request_of};
ghost use Rattle.sre_engine.specs.WalkBounds.{most_matches, AreInOrder};
ghost use Rattle.sre_engine.specs.Listed.{match_of};
ghost use Rattle.sre_engine.specs.Width.{width};
ghost use Rattle.sre_emit.specs.Parts.{tree_of};
ghost use Rattle.sre_laws.specs.TwoRuns.{words_of_two_runs};
ghost use Rattle.sre_emit.specs.Block.{block_prefix, is_all_literals};
ghost use Rattle.sre_emit.specs.Emitted.{Emitted};

use sre_emit::Part;
use sre_engine::code::CodeError;
use sre_engine::engine::{Found, SreError, all_matches};
use sre_engine::{Code, Request, SearchIter, State, StrDrive, UniTable};
use sre_recipes::{Bounds, Text, find_bounded};
use std::alloc::Global;

/// Two requests with equal parameters, for codes with the same tree, have equal answers from `pymatch`.
pub fn both_matched<S: StrDrive, T: StrDrive>(
    one: &Request<'_, S>,
    other: &Request<'_, T>,
    first: &mut State<Global>,
    second: &mut State<Global>,
) -> Result<(bool, bool), SreError>
    requires same { asked_of other.now ≡ asked_of one.now }
    requires tree { (t : Tree) → Whole (words_of (code_of one.now)) t → Whole (words_of (code_of other.now)) t }
    ensures { IfOk result (λ answers. answer_of answers.1 second.new ≡ answer_of answers.0 first.new) }
{
    let _words = one.pattern_codes().words(); // has a tree
    let matched = first.pymatch(one)?;
    let again = second.pymatch(other)?;
    Ok((matched, again))
}

/// The same for `search`.
pub fn both_searched<S: StrDrive, T: StrDrive>(
    one: Request<'_, S>,
    other: Request<'_, T>,
    first: &mut State<Global>,
    second: &mut State<Global>,
) -> Result<(bool, bool), SreError>
    requires same { asked_of other ≡ asked_of one }
    requires tree { (t : Tree) → Whole (words_of (code_of one)) t → Whole (words_of (code_of other)) t }
    ensures { IfOk result (λ answers. answer_of answers.1 second.new ≡ answer_of answers.0 first.new) }
{
    let _words = one.pattern_codes().words(); // has a tree
    let found = first.search(one)?;
    let again = second.search(other)?;
    Ok((found, again))
}

/// A code has the same answers from `pymatch` without its INFO block.
pub fn matched_without_its_block<S: StrDrive, T: StrDrive>(
    one: &Request<'_, S>,
    cut: &Request<'_, T>,
    first: &mut State<Global>,
    second: &mut State<Global>,
) -> Result<(bool, bool), SreError>
    requires same { asked_of cut.now ≡ asked_of one.now }
    requires behind { words_of (code_of cut.now) ≡ behind_block (words_of (code_of one.now)) }
    ensures { IfOk result (λ answers. answer_of answers.1 second.new ≡ answer_of answers.0 first.new) }
{
    let _words = one.pattern_codes().words(); // has the tree of the code words after the block
    both_matched(one, cut, first, second)
}

/// The same for `search`.
pub fn searched_without_its_block<S: StrDrive, T: StrDrive>(
    one: Request<'_, S>,
    cut: Request<'_, T>,
    first: &mut State<Global>,
    second: &mut State<Global>,
) -> Result<(bool, bool), SreError>
    requires same { asked_of cut ≡ asked_of one }
    requires behind { words_of (code_of cut) ≡ behind_block (words_of (code_of one)) }
    ensures { IfOk result (λ answers. answer_of answers.1 second.new ≡ answer_of answers.0 first.new) }
{
    let _words = one.pattern_codes().words(); // has the tree of the code words after the block
    both_searched(one, cut, first, second)
}

/// Emitted bytecode fails the check only if an allocation failed. The code's only tree is that of the part, and the
/// claims of its INFO block are confirmed.
pub fn checked<'a>(
    alloc: Global,
    part: &Part,
    with_block: bool,
    words: &'a [u32],
    uni: &'a UniTable,
) -> Result<Code<'a>, CodeError>
    requires { Emitted part.now with_block words.now }
    ensures memory { IfErr result (λ e. e ≡ CodeError.Memory → Refused Global) }
    ensures alone { IfErr result (λ e. e ≢ CodeError.Memory → ⊥) }
    ensures tree { IfOk result (λ code. Whole (words_of code) (tree_of part.now)) }
    ensures one { IfOk result (λ code. (t : Tree) → Whole (words_of code) t → t ≡ tree_of part.now) }
    ensures width { IfOk result (λ code.
        (hints_of code).width ≡ cond with_block (Some (width (tree_of part.now))) None) }
    ensures prefix { IfOk result (λ code.
        (hints_of code).prefix ≡ cond with_block (block_prefix (tree_of part.now)) None) }
    ensures literal { IfOk result (λ code.
        (hints_of code).literal ≡ (with_block && is_all_literals (tree_of part.now))) }
{
    let code = Code::check(alloc, words, uni)?;
    let _words = code.words(); // has one tree
    let _hints = code.hints(); // the tree confirms them
    Ok(code)
}

/// A match of `pymatch` begins at the start of the range and ends within the range.
pub fn matched_in_window<S: StrDrive>(
    req: &Request<'_, S>,
    state: &mut State<Global>,
) -> Result<bool, SreError>
    ensures { IfOk result (λ b. b ≡ true → Spans (start_of req.now) (end_of req.now) state.new) }
{
    state.pymatch(req)
}

/// A match of `search` is within the range. Without a match there are no captures. An error means that an allocation
/// failed.
pub fn searched_in_window<S: StrDrive>(
    req: Request<'_, S>,
    state: &mut State<Global>,
) -> Result<bool, SreError>
    ensures span { IfOk result (λ b. b ≡ true → (start_of req.entry ≤ state.new.start)
        × Spans state.new.start (end_of req.entry) state.new) }
    ensures no { IfOk result (λ b. b ≡ false → state.new.marks ≡ no_marks) }
    ensures err { OnErr result (state.new.marks ≡ no_marks) }
    ensures refused { OnErr result (Refused Global) }
{
    state.search(req)
}

/// A search returns an answer if its limit is above the steps of all its runs, where each run may restart once.
pub fn searched_within<S: StrDrive>(
    req: Request<'_, S>,
    state: &mut State<Global>,
    steps: &mut u64,
) -> Result<Option<bool>, SreError>
    requires { (t : Tree) → Whole (words_of (code_of req)) t
        → (most : ℕ) × RunsWithin (asked_of req) t most × (2 * (end_of req + 1 - start_of req) * most < steps.old) }
    ensures told { IfOk result (λ told. told ≢ None) }
    ensures refused { OnErr result (Refused Global) }
{
    let _words = req.pattern_codes().words(); // has a tree
    state.search_within(req, steps)
}

/// A search with a sufficient step budget returns an answer, unless an allocation failed.
pub fn searched_with_enough<S: StrDrive>(
    req: Request<'_, S>,
    state: &mut State<Global>,
    steps: &mut u64,
) -> Result<Option<bool>, SreError>
    requires { AreEnough (asked_of req) (code_of req) steps.old }
    ensures { IfOk result (λ told. told ≡ None → Refused Global) }
{
    state.search_within(req, steps)
}

/// So 86,087 steps suffice to search for `(?:a+a+)+b` in any text of up to 1,000 characters.
pub fn two_runs_searched<S: StrDrive>(
    text: S,
    code: Code<'_>,
    state: &mut State<Global>,
) -> Result<Option<bool>, SreError>
    requires words { words_of code ≡ words_of_two_runs }
    requires short { length (S.text text) ≤ 1000 }
    ensures { IfOk result (λ told. told ≡ None → Refused Global) }
{
    let mut steps = 86_087;
    state.search_within(Request::new(text, 0, usize::MAX, code, false), &mut steps)
}

/// The number that `Code::step_bound` returns suffices for a search of any text of up to that length, in any range.
pub fn searched_with_its_number<S: StrDrive>(
    req: Request<'_, S>,
    characters: usize,
    state: &mut State<Global>,
) -> Option<Result<Option<bool>, SreError>>
    requires { end_of req ≤ characters }
    ensures { result ≡ Some (Ok None) → Refused Global }
{
    let code = req.pattern_codes();
    let _words = code.words(); // has a tree
    let _start = req.start(); // at most the range's end
    let mut steps = code.step_bound(characters)?;
    Some(state.search_within(req, &mut steps))
}

/// That number for each search suffices for a recipe over all matches, which makes at most 2n + 2 searches in a text of
/// n characters, unless an allocation failed.
pub fn found_with_their_number<S: Text>(
    alloc: Global,
    req: &Request<'_, S>,
    characters: usize,
) -> Option<Result<Option<Vec<S>>, SreError>>
    requires { end_of req.now ≤ characters }
    ensures { result ≡ Some (Ok None) → Refused Global }
{
    let code = req.pattern_codes();
    let _start = req.start(); // at most the range's end
    let bound = code.step_bound(characters)?;
    let searches = (characters as u64).checked_mul(2)?.checked_add(2)?;
    let mut bounds = Bounds::within(searches.checked_mul(bound)?);
    Some(find_bounded(alloc, req, &mut bounds))
}

/// The step of an iteration returns an answer with a sufficient step budget, unless an allocation failed.
pub fn stepped_with_enough<S: StrDrive>(
    walk: &mut SearchIter<'_, S, Global>,
    steps: &mut u64,
) -> Result<Option<bool>, SreError>
    requires { AreEnough (asked_of (request_of walk.old)) (code_of (request_of walk.old)) steps.old }
    ensures { IfOk result (λ told. told ≡ None → Refused Global) }
{
    walk.next_within(steps)
}

/// The step of an iteration returns an error only if an allocation failed.
pub fn stepped<S: StrDrive>(walk: &mut SearchIter<'_, S, Global>) -> Option<Result<(), SreError>>
    ensures { (e : SreError) → result ≡ Some (Err e) → Refused Global }
{
    walk.next()
}

/// The matches of a list are in order and limited in number. An error means that an allocation failed.
pub fn listed<S: StrDrive>(
    req: Request<'_, S>,
    state: &mut State<Global>,
) -> Result<Vec<Found<Global>>, SreError>
    ensures few { IfOk result (λ all. vec_len all ≤ most_matches (asked_of req.entry)) }
    ensures order { IfOk result (λ all. AreInOrder (start_of req.entry) (map match_of all.items)) }
    ensures refused { OnErr result (Refused Global) }
{
    all_matches(req, state)
}
