//! The results of recipes.

use crate::probe::cut;
use sre_engine::{Request, SreError, State, StringCursor};
use sre_lines::line::Finding;
use sre_recipes::{
    Piece, Token, find_all, group_text, match_text, replace_all, search_text, split, tokens_of,
};
use std::alloc::{AllocError, Allocator};

/// Which recipe to test.
#[derive(Clone, Copy)]
pub(crate) enum Recipe<'a> {
    Find,
    Split,
    Tokens,
    Groups,
    /// With a template, whose pieces are separated by `+`: `$m` is the match, `$N` group N, and all else text.
    Replace(&'a [u8]),
}

// Appends texts, each in brackets.
fn push_texts(texts: &[&str], answer: &mut String) -> Result<(), AllocError> {
    for text in texts {
        write!(answer, "[{text}]")?;
    }
    answer.push_str(".")
}

// The group that a part of a template names.
fn group_of(part: &[u8]) -> Option<usize> {
    let number = str::from_utf8(part.strip_prefix(b"$".as_slice())?).ok()?;
    number.parse::<usize>().ok()
}

// The piece that a part of a template denotes.
fn piece_of(part: &[u8]) -> Piece<'_> {
    if part == b"$m".as_slice() {
        return Piece::Match;
    }
    match (group_of(part), str::from_utf8(part)) {
        (Some(group), _) => Piece::Group(group),
        (None, Ok(text)) => Piece::Text(text),
        (None, Err(_)) => Piece::Text(""),
    }
}

// Appends the pieces that a template denotes.
fn push_pieces<'a, A: Allocator>(
    template: &'a [u8],
    pieces: &mut Vec<Piece<'a>, A>,
) -> Result<(), AllocError> {
    let mut left = Some(template);
    for _ in 0..template.len().saturating_add(1) {
        let Some(several) = left else {
            return Ok(());
        };
        let (part, others) = cut(several, b'+');
        if !part.is_empty() {
            pieces.push(piece_of(part))?;
        }
        left = others;
    }
    Ok(())
}

// Appends a text with its matches replaced by pieces.
fn push_replaced_by<A: Allocator + Copy>(
    heap: A,
    req: Request<'_, &str>,
    pieces: &[Piece<'_>],
    answer: &mut String,
) -> Result<(), AllocError> {
    match replace_all(heap, &req, pieces) {
        Ok(text) => write!(answer, "[{}]", text.as_str()),
        Err(SreError::Memory) => Err(AllocError),
    }
}

// Appends a text with its matches replaced by a template.
fn push_replaced<A: Allocator + Copy>(
    heap: A,
    req: Request<'_, &str>,
    template: &[u8],
    answer: &mut String,
) -> Result<(), AllocError> {
    let mut pieces = Vec::new(heap);
    match push_pieces(template, &mut pieces) {
        Ok(()) => push_replaced_by(heap, req, pieces.as_slice(), answer),
        Err(error) => Err(error),
    }
}

// Appends tokens with their kinds.
fn push_each(tokens: &[Token<'_>], answer: &mut String) -> Result<(), AllocError> {
    for token in tokens {
        write!(answer, "{}[{}]", token.kind, token.text)?;
    }
    Ok(())
}

// Appends tokens with their kinds, and the cursor at their end.
fn push_lexed(
    tokens: &[Token<'_>],
    end: StringCursor,
    answer: &mut String,
) -> Result<(), AllocError> {
    push_each(tokens, answer)?;
    write!(answer, " to {} offset {}", end.position(), end.offset())
}

// Appends the tokens of a text.
fn push_tokens<A: Allocator + Copy>(
    heap: A,
    req: Request<'_, &str>,
    answer: &mut String,
) -> Result<(), AllocError> {
    match tokens_of(heap, &req) {
        Ok(lexed) => push_lexed(lexed.tokens.as_slice(), lexed.end, answer),
        Err(SreError::Memory) => Err(AllocError),
    }
}

// Appends the texts of a match and of its groups.
fn push_groups<A: Allocator + Copy>(
    state: &mut State<A>,
    finding: Finding,
    req: Request<'_, &str>,
    answer: &mut String,
) -> Result<(), AllocError> {
    let text = req.string();
    let found = match finding {
        Finding::Match => match_text(&req, state),
        Finding::Search | Finding::Walk => search_text(&req, state),
    };
    let Ok(found) = found else {
        return Err(AllocError);
    };
    let Some(whole) = found else {
        return answer.push_str("no");
    };
    write!(answer, "[{whole}]")?;
    for group in 1..5 {
        match group_text(text, state, group) {
            Some(part) => write!(answer, " {group}[{part}]")?,
            None => write!(answer, " {group}-")?,
        }
    }
    Ok(())
}

/// Appends the result of a recipe.
pub(crate) fn push_recipe<A: Allocator + Copy>(
    heap: A,
    state: &mut State<A>,
    recipe: Recipe<'_>,
    finding: Finding,
    req: Request<'_, &str>,
    answer: &mut String,
) -> Result<(), AllocError> {
    let texts = match recipe {
        Recipe::Find => find_all(heap, &req),
        Recipe::Split => split(heap, &req),
        Recipe::Tokens => return push_tokens(heap, req, answer),
        Recipe::Groups => return push_groups(state, finding, req, answer),
        Recipe::Replace(template) => return push_replaced(heap, req, template, answer),
    };
    match texts {
        Ok(texts) => push_texts(texts.as_slice(), answer),
        Err(SreError::Memory) => Err(AllocError),
    }
}
