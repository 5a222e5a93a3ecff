//! The scan for occurrences of a confirmed prefix.
//!
//! It goes over the range once. Its state is the number of prefix words that end at the cursor, the longest such front.
//! If the next character differs, it continues with a shorter front by the overlap words (as Knuth, Morris and Pratt
//! do). So it compares each character at most twice on average. If no word is matched, the text seeks the one of the
//! first words that is probably the rarest. The scan then goes back to the start of that occurrence, and reads only the
//! characters between twice.

ghost use Rattle.std.specs.Prelude.{◌≡◌, ◌↔◌, ◌+◌, ◌-◌, ◌*◌, ◌^◌, ◌<◌, ◌≤◌, length, true, false, IsTrue, None, IfSome};
ghost use Rattle.std.specs.Prelude.{not, ◌||◌, nat_eq};
ghost use Rattle.sre_engine.specs.Terms.{hints_of, end_of, code_of, run_of, Standing, match_all_of};
ghost use Rattle.sre_engine.specs.Prefixed.{IsPrefix};
ghost use Rattle.sre_engine.specs.Scans.{Overlapping, FirstSame, ScanIsAt, ScanGoesTo, NoPlaceBetween};

use crate::engine::next_start::looked_at;
use sre_chars::string::{StrDrive, StringCursor};
use sre_request::Request;
use sre_request::text::{back_by, read};

/// The words of a prefix and their overlap words.
#[derive(Clone, Copy)]
pub(crate) struct Prefix<'a> {
    pub(super) words: &'a [u32],
    pub(super) overlaps: &'a [u32],
    // How many of them are consecutive literals, which need not be matched again.
    pub(super) literals: usize,
    // Whether nothing follows them.
    pub(super) whole: bool,
    // The index of the word that is sought.
    sought: usize,
    ghost confirmed: { Overlapping words.now overlaps.now },
    ghost among: { sought < length words.now },
}

/// The position of a scan, and how many words end there.
#[derive(Clone, Copy)]
pub(crate) struct Spot {
    pub(super) cursor: StringCursor,
    pub(super) matched: usize,
}

// Among so many words the one that is sought is chosen.
const LOOKED_AT: usize = 16;

// In a range of so few characters the first word is sought, since choosing one takes longer.
const FEW: usize = 64;

// A rough rank of how common a character is in prose, programs and logs. Past ASCII a `str` seeks more slowly.
#[inline(always)]
fn commonness(character: u32) -> u32 {
    match character {
        // the space, and a, e, h, i, n, o, r, s and t
        32 | 97 | 101 | 104 | 105 | 110 | 111 | 114..=116 => 4,
        // c, d, l, m and u
        99 | 100 | 108 | 109 | 117 => 3,
        // b, f, g, p, w and y, and punctuation that joins and separates words
        98 | 102 | 103 | 112 | 119 | 121 | 10 | 34 | 44..=47 | 95 => 2,
        // other letters, and digits
        48..=57 | 65..=90 | 97..=122 => 1,
        0..=127 => 0,
        _ => 5,
    }
}

// The index of the rarest of the first words, and of these the first.
#[inline(never)]
fn rarest(words: &[u32]) -> usize
    requires { 0 < length words.now }
    ensures { result < length words.now }
{
    let mut place = 0;
    let mut least = commonness(words[0]);
    let mut next = 1;
    'word: while next < words.len() && next < LOOKED_AT {
        let own = commonness(words[next]);
        if own < least {
            (place, least) = (next, own);
        }
        next += 1;
    }
    place
}

// The index of the word to seek in a range of so many characters. `known` is that of the rarest, if it was chosen.
#[inline(always)]
fn sought(words: &[u32], characters: usize, known: Option<usize>) -> usize
    requires { 0 < length words.now }
    ensures { result < length words.now }
{
    if characters <= FEW {
        return 0;
    }
    match known {
        Some(place) if place < words.len() => place,
        _ => rarest(words),
    }
}

/// The index of the rarest of the first words of a prefix, if one is confirmed.
pub(crate) fn rarest_in<S: StrDrive>(req: &Request<'_, S>) -> Option<usize> {
    let prefix = confirmed_prefix(req, None)?;
    Some(rarest(prefix.words))
}

/// The prefix, if one is confirmed. `known` is the index of its rarest word, if it was chosen.
pub(crate) fn confirmed_prefix<'a, S: StrDrive>(
    req: &Request<'a, S>,
    known: Option<usize>,
) -> Option<Prefix<'a>>
    ensures none { result ≡ None → (hints_of (code_of req.now)).prefix ≡ None }
    ensures some { IfSome result (λ prefix. IsPrefix (code_of req.now) prefix.words.now prefix.literals prefix.whole) }
{
    let code = req.pattern_codes();
    let hints = code.hints();
    let Some((length, literals)) = hints.prefix else {
        return None;
    };
    let words = code.words();
    let length = length as usize;
    let prefix = &words[7..7 + length];
    Some(Prefix {
        words: prefix,
        overlaps: &words[7 + length..7 + length + length],
        literals: literals as usize,
        whole: hints.literal,
        sought: sought(prefix, req.end().saturating_sub(req.start()), known),
    })
}

/// The start of the occurrence that a scan has just passed.
#[inline(always)]
pub(crate) fn prefix_start(prefix: &Prefix<'_>, spot: Spot) -> usize
    requires { length prefix.now.words.now ≤ spot.cursor.position }
    ensures { result ≡ spot.cursor.position - length prefix.now.words.now }
{
    spot.cursor.position() - prefix.words.len()
}

/// Whether a match may end at a cursor: anywhere, or with `match_all` at the end of the range only.
#[inline(always)]
pub(crate) fn may_end<S: StrDrive>(req: &Request<'_, S>, cursor: StringCursor) -> bool
    ensures { result ≡ (not (match_all_of req.now) || nat_eq cursor.position (end_of req.now)) }
{
    !req.match_all() || cursor.position() == req.end()
}

/// The cursor after the first literals of the occurrence that a scan has just passed.
#[inline(always)]
pub(crate) fn behind_literals<S: StrDrive>(
    req: &Request<'_, S>,
    prefix: &Prefix<'_>,
    spot: Spot,
) -> StringCursor
    requires stands { Standing req.now spot.cursor }
    requires past { length prefix.now.words.now ≤ spot.cursor.position }
    requires few { prefix.now.literals ≤ length prefix.now.words.now }
    ensures position { result.position
        ≡ spot.cursor.position - length prefix.now.words.now + prefix.now.literals }
    ensures stands { Standing req.now result }
{
    looked_at(req, spot.cursor, prefix.words.len() - prefix.literals)
}

// Compares a character with a word of a prefix. Only this function and `behind_next` compare, and count what they
// compare.
#[inline(always)]
fn is_same(compared: &mut u64, character: u32, word: u32) -> bool
    requires { compared.old + 1 < 2 ^ 64 }
    ensures same { IsTrue result ↔ character ≡ word }
    ensures counted { compared.new ≡ compared.old + 1 }
{
    *compared += 1;
    character == word
}

// Moves past the next character that equals the word, or to the end of the range. Each character passed is compared
// once.
#[inline(always)]
#[tactic(auto, using(crate::proofs::Steps::first_sought))]
fn behind_next<S: StrDrive>(
    req: &Request<'_, S>,
    word: u32,
    start: StringCursor,
    compared: &mut u64,
) -> (bool, StringCursor)
    requires stands { Standing req.now start }
    requires inside { start.position ≤ end_of req.now }
    requires room { compared.old + (end_of req.now - start.position) < 2 ^ 64 }
    ensures first { FirstSame (run_of req.now) word start result.0 result.1 }
    ensures counted { compared.new ≡ compared.old + (result.1.position - start.position) }
{
    let mut cursor = start;
    let is_there = req.string().seek(&mut cursor, word, req.end());
    *compared += (cursor.position() - start.position()) as u64;
    (is_there, cursor)
}

// Moves, with no word matched, to where the next sought word would have the prefix begin, and past the first character
// there.
#[inline(never)]
#[tactic(auto, using(crate::proofs::Steps::sought_laws))]
fn behind_sought<S: StrDrive>(
    req: &Request<'_, S>,
    prefix: &Prefix<'_>,
    start: StringCursor,
    compared: &mut u64,
) -> (bool, Spot)
    requires stands { Standing req.now start }
    requires before { start.position < end_of req.now }
    requires here { ScanIsAt req.now prefix.now.words.now start.position 0 compared.old }
    ensures stands { Standing req.now result.1.cursor }
    ensures goes { ScanGoesTo req.now prefix.now.words.now start.position result.0
        result.1.cursor.position result.1.matched compared.new }
{
    if req.end() - start.position() <= prefix.sought {
        return (
            false,
            Spot {
                cursor: start,
                matched: 0,
            },
        );
    }
    let mut ahead = start;
    req.string().skip(&mut ahead, prefix.sought);
    let (is_there, behind) = behind_next(req, prefix.words[prefix.sought], ahead, compared);
    if !is_there {
        return (
            false,
            Spot {
                cursor: behind,
                matched: 0,
            },
        );
    }
    let (character, cursor) = read(req, back_by(req, behind, prefix.sought + 1));
    if is_same(compared, character, prefix.words[0]) {
        return (true, Spot { cursor, matched: 1 });
    }
    (true, Spot { cursor, matched: 0 })
}

// Moves, with no word matched, past the next first word; or as `behind_sought` does, if that is not the sought one.
#[inline(always)]
#[tactic(auto, using(crate::proofs::Steps::first_laws))]
fn behind_none<S: StrDrive>(
    req: &Request<'_, S>,
    prefix: &Prefix<'_>,
    start: StringCursor,
    compared: &mut u64,
) -> (bool, Spot)
    requires stands { Standing req.now start }
    requires before { start.position < end_of req.now }
    requires here { ScanIsAt req.now prefix.now.words.now start.position 0 compared.old }
    ensures stands { Standing req.now result.1.cursor }
    ensures goes { ScanGoesTo req.now prefix.now.words.now start.position result.0
        result.1.cursor.position result.1.matched compared.new }
{
    if prefix.sought > 0 {
        return behind_sought(req, prefix, start, compared);
    }
    let (is_there, cursor) = behind_next(req, prefix.words[0], start, compared);
    if is_there {
        return (true, Spot { cursor, matched: 1 });
    }
    (false, Spot { cursor, matched: 0 })
}

// Moves past the next character, to the longest front of the prefix that ends there.
#[inline(always)]
#[tactic(auto, using(crate::proofs::Steps::pass_laws))]
fn pass<S: StrDrive>(
    req: &Request<'_, S>,
    prefix: &Prefix<'_>,
    compared: &mut u64,
    spot: Spot,
) -> Spot
    requires stands { Standing req.now spot.cursor }
    requires before { spot.cursor.position < end_of req.now }
    requires short { spot.matched < length prefix.now.words.now }
    requires here { ScanIsAt req.now prefix.now.words.now spot.cursor.position spot.matched compared.old }
    ensures stands { Standing req.now result.cursor }
    ensures at { result.cursor.position ≡ spot.cursor.position + 1 }
    ensures here { ScanIsAt req.now prefix.now.words.now result.cursor.position result.matched compared.new }
    ensures passed { NoPlaceBetween req.now prefix.now.words.now
        (spot.cursor.position - spot.matched) (result.cursor.position - result.matched) }
{
    let (character, cursor) = read(req, spot.cursor);
    let _end = req.end();
    let mut matched = spot.matched;
    'front: while !is_same(compared, character, prefix.words[matched]) {
        if matched == 0 {
            return Spot { cursor, matched: 0 };
        }
        matched = prefix.overlaps[matched - 1] as usize;
    }
    Spot {
        cursor,
        matched: matched + 1,
    }
}

/// Finds the next occurrence of the prefix, and moves past it.
#[inline(always)]
#[tactic(auto, using(crate::proofs::Steps::find_laws))]
pub(crate) fn find<S: StrDrive>(
    req: &Request<'_, S>,
    prefix: &Prefix<'_>,
    compared: &mut u64,
    spot: &mut Spot,
) -> bool
    requires stands { Standing req.now spot.old.cursor }
    requires here { ScanIsAt req.now prefix.now.words.now spot.old.cursor.position spot.old.matched compared.old }
    ensures stands { Standing req.now spot.new.cursor }
    ensures here { ScanIsAt req.now prefix.now.words.now spot.new.cursor.position spot.new.matched compared.new }
    ensures found { result ≡ true → (spot.new.matched ≡ length prefix.now.words.now)
        × NoPlaceBetween req.now prefix.now.words.now
        (spot.old.cursor.position - spot.old.matched) (spot.new.cursor.position - spot.new.matched) }
    ensures none { result ≡ false → NoPlaceBetween req.now prefix.now.words.now
        (spot.old.cursor.position - spot.old.matched) (end_of req.now + 1) }
{
    'spot: while spot.matched < prefix.words.len() {
        if spot.cursor.position() >= req.end() {
            return false;
        }
        if spot.matched == 0 {
            let (is_there, next) = behind_none(req, prefix, spot.cursor, compared);
            *spot = next;
            if !is_there {
                return false;
            }
        } else {
            *spot = pass(req, prefix, compared, *spot);
        }
    }
    true
}

/// Continues after an occurrence of the prefix, from the longest overlap.
#[inline(always)]
#[tactic(auto, using(crate::proofs::Steps::onward, crate::proofs::Steps::onward_less))]
pub(crate) fn go_on<S: StrDrive>(
    req: &Request<'_, S>,
    prefix: &Prefix<'_>,
    compared: &u64,
    spot: Spot,
) -> Spot
    requires all { spot.matched ≡ length prefix.now.words.now }
    requires here { ScanIsAt req.now prefix.now.words.now spot.cursor.position spot.matched compared.now }
    ensures here { ScanIsAt req.now prefix.now.words.now result.cursor.position result.matched compared.now }
    ensures passed { NoPlaceBetween req.now prefix.now.words.now
        (spot.cursor.position - spot.matched + 1) (result.cursor.position - result.matched) }
    ensures further { result.matched < spot.matched }
    ensures at { result.cursor ≡ spot.cursor }
{
    Spot {
        cursor: spot.cursor,
        matched: prefix.overlaps[spot.matched - 1] as usize,
    }
}
