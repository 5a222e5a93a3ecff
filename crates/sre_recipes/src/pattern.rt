//! A compiled pattern that owns all that it needs, for many texts.

ghost use Rattle.std.specs.Prelude.{◌≡◌, ◌≤◌, ◌<◌, ℕ, None, length, true, false, is_some, map, IfOk, OnErr};
ghost use Rattle.std.specs.Prelude.{MatchOption, ◌≢◌, IfErr, OnOk};
ghost use Rattle.sre_recipes.specs.Terms.{option_map, Refused, Tree, Whole, no_marks, found, walk, words_of, answer_of};
ghost use Rattle.sre_recipes.specs.Terms.{IsCode, uni_of};
ghost use Rattle.sre_engine.specs.Refusals.{place_of};
ghost use Rattle.sre_finder.specs.Kepts.{Suits};
ghost use Rattle.sre_recipes.specs.Pieces.{pieces_between};
ghost use Rattle.sre_recipes.specs.Templates.{written, replaced};
ghost use Rattle.sre_recipes.specs.Matches.{match_seen, placed_match, placed_groups, groups_seen};
ghost use Rattle.sre_recipes.specs.Patterns.{search_of, rest_of, FirstFrom};

use crate::collects::Collects;
use crate::divide::Pieces;
use crate::every::{Grouped, Matched, collect_spans};
use crate::groups::CapturesOf;
use crate::matches::{Match, match_groups, match_if};
use crate::replace::{Expanded, PieceOf};
use crate::span::span_of;
use crate::texts::{Rewritten, Text};
use sre_engine::{
    Code, CodeError, OwnedCode, Request, SreError, State, StrDrive, StringCursor, UniTable,
};
use sre_finder::{Encoding, Haystack, Kept};
use std::alloc::Global;
use std::marker::Model;

/// A compiled pattern that owns its bytecode, its Unicode tables, its DFAs and the memory of a search. DFAs are built
/// once all its searches together have spent as much as that costs, so a service that searches many short texts has
/// them, too.
///
/// Its calls take a `&str` or a `&[u8]`. **Offsets count bytes**; only `search` and `state` count characters.
///
/// ```
/// // The bytecode of `a`.
/// let mut pattern = Pattern::new(alloc, &[16, 97, 1], UniTable::ascii(alloc))?;
/// assert!(pattern.is_match("éab")?);
/// assert!(pattern.find("éab")?.is_some_and(|found| found.range() == (2..3)));
/// assert!(pattern.find_at("éab", 3)?.is_none());
/// ```
pub struct Pattern {
    alloc: Global,
    code: OwnedCode,
    kept: Kept,
    state: State<Global>,
}

// Custom `Drop`, so that callers contain one call instead of the drop of each field.
impl Drop for Pattern {
    fn drop(self) {
        let Pattern {
            alloc: _,
            code,
            kept,
            state,
        } = self;
        drop((code, kept, state));
    }
}

impl Model for Pattern {
    ghost use Rattle.sre_engine.specs.Owned.{words_kept, uni_kept};
    ghost use Rattle.sre_finder.specs.Kepts.{Suits};
    ghost use Rattle.sre_recipes.specs.Patterns.{PatternValue};

    ghost Value = { PatternValue };

    ghost view = { λ p. record { words = words_kept p.code; table = uni_kept p.code; shown = p.state } };

    ghost invariant = { λ p. Suits (words_kept p.code) (uni_kept p.code) p.kept };
}

impl Pattern {
    /// Checks bytecode as `Code::check` does, and stores a copy of it.
    ///
    /// # Errors
    ///
    /// Those of `Code::check`. [`CodeError::Memory`] also if the allocation of the copy failed.
    pub fn new(alloc: Global, words: &[u32], uni: UniTable) -> Result<Pattern, CodeError>
        ensures words { IfOk result (λ pattern. pattern.words ≡ words.now) }
        ensures uni { IfOk result (λ pattern. pattern.table ≡ uni.entry) }
        ensures tree { OnOk result (IsCode words.now) }
        ensures refused { IfErr result (λ e. e ≢ CodeError.Memory → (tree : Tree) → ¬ (Whole words.now tree)) }
        ensures place { IfErr result (λ e. place_of e ≤ length words.now) }
        ensures grows { IfErr result (λ e. e ≡ CodeError.Memory → Refused Global) }
    {
        let code = OwnedCode::new(alloc, words, uni)?;
        Ok(Pattern {
            alloc,
            code,
            kept: Kept::new(Encoding::Ascii),
            state: State::new(alloc),
        })
    }

    /// The code, a view of the owned bytecode and tables.
    pub fn code(&self) -> Code<'_>
        ensures words { words_of result ≡ self.now.words }
        ensures uni { uni_of result ≡ self.now.table }
    {
        self.code.code()
    }

    /// The state, which shows the match of the last search.
    pub fn state(&self) -> &State<Global>
        ensures { result.now ≡ self.now.shown }
    {
        &self.state
    }

    /// Searches a text from one position to another, and returns whether there is a match, which the state then shows.
    /// Without a match it has no captures. Both positions count characters, and are clamped to the text.
    ///
    /// # Errors
    ///
    /// [`SreError::Memory`] if an allocation failed.
    pub fn search<S: Haystack>(
        &mut self,
        text: S,
        start: usize,
        end: usize,
    ) -> Result<bool, SreError>
        ensures answer { (t : Tree) → Whole self.old.words t → IfOk result (λ b.
            answer_of b self.new.shown ≡ found (search_of (S.text text) self.old.table start end) t) }
        ensures cursor { IfOk result (λ b. b ≡ true
            → S.stands text self.new.shown.cursor self.new.shown.cursor.position) }
        ensures no { IfOk result (λ b. b ≡ false → self.new.shown.marks ≡ no_marks) }
        ensures err { OnErr result (self.new.shown.marks ≡ no_marks) }
        ensures refused { OnErr result (Refused Global) }
        ensures words { self.new.words ≡ self.old.words }
        ensures uni { self.new.table ≡ self.old.table }
    {
        let request = Request::new(text, start, end, self.code.code(), false);
        self.kept.search(self.alloc, request, &mut self.state)
    }

    /// Returns whether a text has a match.
    ///
    /// # Errors
    ///
    /// [`SreError::Memory`] if an allocation failed.
    pub fn is_match<S: Haystack>(&mut self, text: S) -> Result<bool, SreError>
        ensures ok { (t : Tree) → Whole self.old.words t
            → IfOk result (λ b. b ≡ is_some (found (rest_of (S.text text) self.old.table 0) t)) }
        ensures refused { OnErr result (Refused Global) }
        ensures words { self.new.words ≡ self.old.words }
        ensures uni { self.new.table ≡ self.old.table }
    {
        self.search_from(text, 0)
    }

    /// Returns the first match of a text.
    ///
    /// # Errors
    ///
    /// [`SreError::Memory`] if an allocation failed.
    pub fn find<S: Text + Haystack>(&mut self, text: S) -> Result<Option<Match<S>>, SreError>
        ensures ok { (t : Tree) → Whole self.old.words t → IfOk result (λ one.
            option_map (match_seen S.text) one ≡ option_map (placed_match (S.text text) (S.place text))
            (found (rest_of (S.text text) self.old.table 0) t)) }
        ensures refused { OnErr result (Refused Global) }
        ensures words { self.new.words ≡ self.old.words }
        ensures uni { self.new.table ≡ self.old.table }
    {
        let found = self.search_from(text, 0)?;
        Ok(match_if(found, text, &self.state))
    }

    /// Returns the first match that begins at a byte offset or after it. The text before that offset is seen by `^`,
    /// `\b` and lookbehinds. `None` if the text has fewer bytes.
    ///
    /// A `&str` is read from its start to count its characters, so a loop over all matches should be `find_all`.
    ///
    /// # Errors
    ///
    /// [`SreError::Memory`] if an allocation failed.
    pub fn find_at<S: Text + Haystack>(
        &mut self,
        text: S,
        offset: usize,
    ) -> Result<Option<Match<S>>, SreError>
        ensures ok { (t : Tree) → Whole self.old.words t → (p : ℕ)
            → FirstFrom (S.place text) (length (S.text text)) offset p → IfOk result (λ one.
            option_map (match_seen S.text) one ≡ option_map (placed_match (S.text text) (S.place text))
            (found (rest_of (S.text text) self.old.table p) t)) }
        ensures beyond { S.place text (length (S.text text)) < offset → IfOk result (λ one. one ≡ None) }
        ensures refused { OnErr result (Refused Global) }
        ensures words { self.new.words ≡ self.old.words }
        ensures uni { self.new.table ≡ self.old.table }
    {
        let Some(start) = cursor_from(text, offset) else {
            return Ok(None);
        };
        let found = self.search_from(text, start.position())?;
        Ok(match_if(found, text, &self.state))
    }

    /// Returns the first match of a text with its groups: `get(0)` is the match, and `get(1)` the first group.
    ///
    /// ```
    /// // The bytecode of `(a)b`.
    /// let mut pattern = Pattern::new(alloc, &[17, 0, 16, 97, 17, 1, 16, 98, 1], UniTable::ascii(alloc))?;
    /// if let Some(found) = pattern.captures("éab")? {
    ///     assert!(found.get(1).is_some_and(|group| group.text() == "a" && group.start() == 2));
    /// }
    /// ```
    ///
    /// # Errors
    ///
    /// [`SreError::Memory`] if an allocation failed.
    pub fn captures<S: Text + Haystack>(
        &mut self,
        text: S,
    ) -> Result<Option<CapturesOf<Match<S>, Global>>, SreError>
        ensures ok { (t : Tree) → Whole self.old.words t → IfOk result (λ one.
            option_map (groups_seen S.text) one ≡ option_map (placed_groups (S.text text) (S.place text))
            (found (rest_of (S.text text) self.old.table 0) t)) }
        ensures refused { OnErr result (Refused Global) }
        ensures words { self.new.words ≡ self.old.words }
        ensures uni { self.new.table ≡ self.old.table }
    {
        if self.search_from(text, 0)? {
            Ok(Some(match_groups(self.alloc, text, &self.state, &span_of(text, &self.state))?))
        } else {
            Ok(None)
        }
    }

    /// Returns all matches of a text, in order, as an iteration finds them. After an empty match, the next one begins
    /// later or is not empty.
    ///
    /// # Errors
    ///
    /// [`SreError::Memory`] if an allocation failed.
    pub fn find_all<S: Text + Haystack>(&mut self, text: S) -> Result<Vec<Match<S>>, SreError>
        ensures ok { (t : Tree) → Whole self.old.words t → IfOk result (λ all.
            map (match_seen S.text) all.items ≡ map (placed_match (S.text text) (S.place text))
            (walk (rest_of (S.text text) self.old.table 0) t)) }
        ensures refused { OnErr result (Refused Global) }
        ensures words { self.new.words ≡ self.old.words }
        ensures uni { self.new.table ≡ self.old.table }
    {
        let mut matches = Matched {
            all: Vec::new(self.alloc),
        };
        self.collect(text, false, &mut matches)?;
        Ok(matches.all)
    }

    /// Returns all matches of a text with their groups.
    ///
    /// # Errors
    ///
    /// [`SreError::Memory`] if an allocation failed.
    pub fn all_captures<S: Text + Haystack>(
        &mut self,
        text: S,
    ) -> Result<Vec<CapturesOf<Match<S>, Global>>, SreError>
        ensures ok { (t : Tree) → Whole self.old.words t → IfOk result (λ all.
            map (groups_seen S.text) all.items ≡ map (placed_groups (S.text text) (S.place text))
            (walk (rest_of (S.text text) self.old.table 0) t)) }
        ensures refused { OnErr result (Refused Global) }
        ensures words { self.new.words ≡ self.old.words }
        ensures uni { self.new.table ≡ self.old.table }
    {
        let mut captures = Grouped {
            alloc: self.alloc,
            all: Vec::new(self.alloc),
        };
        self.collect(text, true, &mut captures)?;
        Ok(captures.all)
    }

    /// Returns the pieces of a text between its matches. There is one piece more than there are matches, and pieces can
    /// be empty.
    ///
    /// ```
    /// // The bytecode of `,`.
    /// let mut pattern = Pattern::new(alloc, &[16, 44, 1], UniTable::ascii(alloc))?;
    /// assert!(pattern.split("é,,b")?.as_slice() == ["é", "", "b"].as_slice());
    /// ```
    ///
    /// # Errors
    ///
    /// [`SreError::Memory`] if an allocation failed.
    pub fn split<S: Text + Haystack>(&mut self, text: S) -> Result<Vec<S>, SreError>
        ensures ok { (t : Tree) → Whole self.old.words t → IfOk result (λ pieces.
            map S.text pieces.items ≡ pieces_between (S.text text) 0 (length (S.text text))
            (walk (rest_of (S.text text) self.old.table 0) t)) }
        ensures refused { OnErr result (Refused Global) }
        ensures words { self.new.words ≡ self.old.words }
        ensures uni { self.new.table ≡ self.old.table }
    {
        let mut all = Pieces {
            pieces: Vec::new(self.alloc),
            last: text.create_cursor(0),
        };
        self.collect(text, false, &mut all)?;
        Ok(all.pieces)
    }

    /// Returns a text with each match replaced by the expansion of a template: a `String` for a `&str`, and a
    /// `Vec<u8>` for a `&[u8]`.
    ///
    /// ```
    /// // The bytecode of `(a)`.
    /// let mut pattern = Pattern::new(alloc, &[17, 0, 16, 97, 17, 1, 1], UniTable::ascii(alloc))?;
    /// let new = pattern.replace_all("éab", &[Piece::Text("<"), Piece::Group(1), Piece::Text(">")])?;
    /// assert!(new.as_str() == "é<a>b");
    /// ```
    ///
    /// # Errors
    ///
    /// [`SreError::Memory`] if an allocation failed.
    pub fn replace_all<S: Rewritten + Haystack>(
        &mut self,
        text: S,
        template: &[PieceOf<S>],
    ) -> Result<S::New, SreError>
        ensures ok { (t : Tree) → Whole self.old.words t → IfOk result (λ new.
            S.shown new ≡ replaced (S.text text) (written S.text (S.text text) template.now) 0 (length (S.text text))
            (walk (rest_of (S.text text) self.old.table 0) t)) }
        ensures refused { OnErr result (Refused Global) }
        ensures words { self.new.words ≡ self.old.words }
        ensures uni { self.new.table ≡ self.old.table }
    {
        let mut new = Expanded {
            template,
            last: text.create_cursor(0),
            output: Vec::new(self.alloc),
        };
        self.collect(text, true, &mut new)?;
        Ok(S::from_output(new.output))
    }

    // Gathers something of each match of a text, by what reads captures or not.
    fn collect<S: Text + Haystack, C: Collects<S, Global>>(
        &mut self,
        text: S,
        captures: bool,
        all: &mut C,
    ) -> Result<(), SreError>
        requires captures { captures ≡ C.captures }
        requires waits { (p : ℕ) → C.waits text p all.old }
        ensures ok { (t : Tree) → Whole self.old.words t → IfOk result (λ _. C.gathers text (length (S.text text))
            all.old (walk (rest_of (S.text text) self.old.table 0) t) all.new) }
        ensures waits { IfOk result (λ _. C.waits text (length (S.text text)) all.new) }
        ensures refused { C.trusts → OnErr result (Refused Global) }
        ensures words { self.new.words ≡ self.old.words }
        ensures uni { self.new.table ≡ self.old.table }
    {
        let request = Request::whole(text, self.code.code());
        let encoding = text.encoding(request.end());
        let finder = self
            .kept
            .take(self.alloc, request.pattern_codes(), encoding);
        let mut walk = finder.walk(request, State::new(self.alloc));
        let collected = collect_spans(&mut walk, captures, all);
        self.kept = walk.into_finder().into_kept();
        collected
    }

    // Searches a text from a position to its end.
    fn search_from<S: Haystack>(&mut self, text: S, start: usize) -> Result<bool, SreError>
        requires { start ≤ length (S.text text) }
        ensures answer { (t : Tree) → Whole self.old.words t → IfOk result (λ b.
            answer_of b self.new.shown ≡ found (rest_of (S.text text) self.old.table start) t) }
        ensures cursor { IfOk result (λ b. b ≡ true
            → S.stands text self.new.shown.cursor self.new.shown.cursor.position) }
        ensures forward { IfOk result (λ b. b ≡ true → self.new.shown.start ≤ self.new.shown.cursor.position) }
        ensures refused { OnErr result (Refused Global) }
        ensures words { self.new.words ≡ self.old.words }
        ensures uni { self.new.table ≡ self.old.table }
    {
        let mut request = Request::whole(text, self.code.code());
        request.set_start(start);
        self.kept.search(self.alloc, request, &mut self.state)
    }
}

// The cursor at the first character that begins at a byte offset or after it. `None` if the text has fewer bytes.
fn cursor_from<S: Haystack>(text: S, offset: usize) -> Option<StringCursor>
    ensures { MatchOption result (S.place text (length (S.text text)) < offset)
        (λ at. S.stands text at at.position
        × FirstFrom (S.place text) (length (S.text text)) offset at.position) }
{
    let end = text.create_cursor(text.count());
    if text.place_of(end) < offset {
        return None;
    }
    let start = text.create_cursor(0);
    if offset <= text.place_of(start) {
        return Some(start);
    }
    let mut cursor = text.cursor_up_to(start, offset, end);
    'inside: while text.place_of(cursor) < offset {
        text.skip(&mut cursor, 1); // no character begins at the offset
    }
    Some(cursor)
}
