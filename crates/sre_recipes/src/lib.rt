//! Recipes over the regex engine: the texts of matches and groups, splitting, replacement and tokens.
//!
//! The text is a `&str`, a `&[u8]` or your own type that implements [`Text`]. Results are slices of it; only
//! replacement allocates a new `String` or `Vec<u8>`. No call scans from the text's start for each match: it moves the
//! cursor back from the match's end.
//!
//! ```
//! // Bytecode of `(a)|b`.
//! let uni = UniTable::ascii(alloc);
//! let words = [7, 9, 17, 0, 16, 97, 17, 1, 15, 7, 5, 16, 98, 15, 2, 0, 1];
//! let code = Code::check(alloc, &words, &uni)?;
//! let whole = Request::whole("xaéb", code);
//! assert!(find_all(alloc, &whole)?.as_slice() == ["a", "b"].as_slice());
//! assert!(split(alloc, &whole)?.as_slice() == ["x", "é", ""].as_slice());
//! let template = [Piece::Text("<"), Piece::Group(1), Piece::Text(">")];
//! assert!(replace_all(alloc, &whole, &template)?.as_str() == "x<a>é<>");
//! assert!(is_match(alloc, &whole)? && all_captures(alloc, &whole)?.len() == 2);
//! ```
#![tactic(auto)]

mod bounds;
mod collects;
mod compute;
mod divide;
mod every;
mod find;
mod found;
mod groups;
mod lexer;
mod matches;
mod pattern;
mod replace;
mod slice;
mod span;
mod texts;

pub use bounds::Bounds;
pub use compute::{replace_with, replace_with_bounded};
pub use divide::{split, split_bounded, split_groups, split_groups_bounded};
pub use find::{find_all, find_bounded, full_match, is_match, match_text, search_text};
pub use found::FoundTexts;
pub use groups::{
    Captures, CapturesOf, all_captures, captures_bounded, match_captures, search_captures,
};
pub use lexer::{Token, TokenOf, Tokens, TokensOf, tokens_of};
pub use matches::Match;
pub use pattern::Pattern;
pub use replace::{
    Piece, PieceOf, replace_all, replace_all_bytes, replace_bounded, replace_bounded_bytes,
};
pub use slice::{group_text, match_start, matched_text};
pub use texts::{Rewritten, Text};
