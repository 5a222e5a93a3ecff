//! Tokens: matches each of which begins where the previous one ends.

ghost use Rattle.std.specs.Prelude.{◌≡◌, ◌<◌, ◌++◌, map, IfOk, OnErr, MatchOption, IsSome};
ghost use Rattle.sre_recipes.specs.Terms.{Tree, Whole, words_of, string_of, start_of, code_of, asked_of, match_shown};
ghost use Rattle.sre_recipes.specs.Terms.{request_of, shown_of, most_items, Refused};
ghost use Rattle.sre_recipes.specs.Lexed.{token_matches, reached, lexeme_of, lexeme_shown};
ghost use Rattle.sre_recipes.specs.Spans.{IsSpan, StandsAt};
ghost use Rattle.sre_recipes.specs.Adjoining.{unless_empty, Adjoins, NoneAdjoins};

use crate::find::copied;
use crate::span::{Span, next_span};
use crate::texts::Text;
use sre_engine::{Request, SearchIter, SreError, State, StrDrive, StringCursor};
use std::alloc::Allocator;

/// A token: its kind and its text. The kind is the number of the group that was closed last, counted from 1, or -1 if
/// no group was closed.
#[derive(Clone, Copy, PartialEq, Eq, Debug)]
pub struct TokenOf<S> {
    pub kind: isize,
    pub text: S,
}

/// A token of a `&str`.
pub type Token<'t> = TokenOf<&'t str>;

/// The tokens at the start of a range, and the cursor after the last token.
#[derive(Drop)]
#[derive_where(Debug; S)]
pub struct TokensOf<S, A: Allocator> {
    pub tokens: Vec<TokenOf<S>, A>,
    pub end: StringCursor,
}

/// The tokens of a `&str`.
pub type Tokens<'t, A> = TokensOf<&'t str, A>;

// The next match if it begins at the cursor `end`, else `None`.
fn next_adjoining<S: Text, A: Allocator + Copy>(
    walk: &mut SearchIter<'_, S, A>,
    end: &StringCursor,
) -> Result<Option<Span>, SreError>
    requires { end.now.position ≡ start_of (request_of walk.old) }
    ensures gives { IfOk result (λ next. MatchOption next (NoneAdjoins walk.old) (λ span. Adjoins walk.old walk.new
        × IsSpan (S.stands (string_of (request_of walk.old))) (shown_of walk.new) span.start span.end)) }
    ensures falls { IfOk result (λ next. IsSome next → most_items walk.new < most_items walk.old) }
    ensures refused { OnErr result (Refused A) }
{
    let Some(span) = next_span(walk)? else {
        return Ok(None);
    };
    if span.start.position() != end.position() {
        return Ok(None);
    }
    Ok(Some(span))
}

// Appends a match as a token and moves the end past it. An empty match is skipped.
fn add_token<S: Text, A: Allocator + Copy>(
    all: &mut TokensOf<S, A>,
    text: S,
    state: &State<A>,
    span: &Span,
) -> Result<(), SreError>
    requires end { StandsAt (S.stands text) all.old.end state.now.start }
    requires span { IsSpan (S.stands text) state.now span.now.start span.now.end }
    ensures ok { IfOk result (λ _. map (lexeme_shown S.text) all.new.tokens.items
        ≡ map (lexeme_shown S.text) all.old.tokens.items
        ++ map (lexeme_of (S.text text)) (unless_empty (match_shown state.now))) }
    ensures end { IfOk result (λ _. StandsAt (S.stands text) all.new.end state.now.cursor.position) }
    ensures refused { OnErr result (Refused A) }
{
    if span.start.position() == span.end.position() {
        return Ok(());
    }
    let token = TokenOf {
        kind: state.marks().last_index(),
        text: text.between(&span.start, &span.end),
    };
    sre_growth::push(&mut all.tokens, token)?;
    all.end = span.end;
    Ok(())
}

/// Returns the tokens at the start of the range. Each is the first match path that is not empty at the position where
/// the previous token ends. `end` is the first position at which no token begins. It is the end of the range exactly if
/// the tokens cover the range.
///
/// The pattern should be a branch of groups, one for each kind of token. Where no token begins, the search runs on to
/// the next match in the range, which can cost time up to the range's end.
///
/// # Errors
///
/// [`SreError::Memory`] if an allocation failed.
pub fn tokens_of<S: Text, A: Allocator + Copy>(
    alloc: A,
    req: &Request<'_, S>,
) -> Result<TokensOf<S, A>, SreError>
    ensures ok { (t : Tree) → Whole (words_of (code_of req.now)) t → IfOk result (λ all.
        map (lexeme_shown S.text) all.tokens.items
        ≡ map (lexeme_of (S.text (string_of req.now))) (token_matches (asked_of req.now) t)) }
    ensures end { (t : Tree) → Whole (words_of (code_of req.now)) t → IfOk result (λ all.
        S.stands (string_of req.now) all.end
        (reached (start_of req.now) (token_matches (asked_of req.now) t))) }
    ensures refused { OnErr result (Refused A) }
{
    let text = req.string();
    let mut all = TokensOf {
        tokens: Vec::new(alloc),
        end: text.create_cursor(req.start()),
    };
    let mut walk = SearchIter::new(copied(req), State::new(alloc));
    'walk: while let Some(span) = next_adjoining(&mut walk, &all.end)? {
        add_token(&mut all, text, walk.state(), &span)?;
    }
    Ok(all)
}
