//! Required literals: bytes that each match of a pattern contains. If they do not occur, no match is left.

ghost use Rattle.std.specs.Prelude.{◌≡◌, ◌≤◌, IfSome, length, map, true};
ghost use Rattle.sre_automata.specs.Terms.{Re, meaning, cat_all};
ghost use Rattle.sre_automata.specs.Told.{NoneLeft, Contains, ContainsAny};

use memchr::memmem;
use regex_hir::Hir;
use std::alloc::Global;
use std::marker::Model;

/// A literal found within this number of bytes is too common to be searched again in this text.
const NEAR: usize = 256;

/// Bytes that each match of a pattern contains.
#[derive(Drop)]
pub struct Needle {
    bytes: Vec<u8>,
    // the offset of the last occurrence found in this text; up to there no search is needed
    found: Option<usize>,
    is_common: bool,
}

impl Model for Needle {
    ghost use Rattle.std.specs.Prelude.{ℕ, List};

    ghost Value = { List ℕ };

    ghost view = { λ needle. needle.bytes.items };
}

// How well a literal excludes a match: a longer one better, and of two as long one that begins with a byte that is
// probably rare in prose, programs and logs.
fn rank(bytes: &[u8]) -> usize {
    let is_rare = match bytes.first() {
        Some(b'0'..=b'9' | b'A'..=b'Z' | b'a'..=b'z' | b'_') => false,
        Some(b' ' | b'\n' | b'"' | b','..=b'/' | b':' | b'=') => false,
        _ => true,
    };
    bytes
        .len()
        .saturating_mul(2)
        .saturating_add(usize::from(is_rare))
}

// The best literal of a sequence, and the last of several. The search for starts finds a literal at the front anyway.
fn best_literal(parts: &[Hir]) -> Option<&[u8]>
    ensures { IfSome result (λ bytes. Contains (cat_all (map meaning parts.now)) bytes.now) }
{
    let mut best: Option<&[u8]> = None;
    let mut most = 0;
    'part: for part in parts {
        if let Hir::Literal(bytes) = part {
            let own = rank(bytes);
            if own >= most {
                most = own;
                best = Some(bytes);
            }
        }
    }
    best
}

impl Needle {
    /// Returns the longest literal in the sequence that a pattern is, and the probably rarest of several: each match
    /// contains it.
    /// `None` if the pattern is no literal and has none in sequence, or if an allocation failed.
    pub fn of(alloc: Global, hir: &Hir) -> Option<Needle>
        ensures { IfSome result (λ needle. Contains (meaning hir.now) needle) }
    {
        let bytes = match hir {
            Hir::Literal(bytes) => bytes,
            Hir::Concat(parts) => best_literal(parts)?,
            _ => return None,
        };
        let Ok(bytes) = Vec::from_slice(alloc, bytes) else {
            return None;
        };
        Some(Needle {
            bytes,
            found: None,
            is_common: false,
        })
    }

    /// Forgets the last text.
    pub fn reset(&mut self)
        ensures { self.new ≡ self.old }
    {
        self.found = None;
        self.is_common = false;
    }

    /// Returns whether the bytes do not occur at `start` or after it, so that no match begins there. If they are common
    /// in this text, it returns `false` without a search.
    #[inline(always)]
    pub fn is_lacking(&mut self, hay: &[u8], start: usize) -> bool
        requires { start ≤ length hay.now }
        ensures lacking { result ≡ true → (re : Re) → Contains re self.old → NoneLeft hay.now re start }
        ensures same { self.new ≡ self.old }
    {
        if self.is_common {
            return false;
        }
        if let Some(found) = self.found {
            if start <= found {
                return false;
            }
        }
        self.is_absent(hay, start)
    }

    // Searches for the bytes from an offset on.
    #[inline(never)]
    fn is_absent(&mut self, hay: &[u8], start: usize) -> bool
        requires { start ≤ length hay.now }
        ensures lacking { result ≡ true → (re : Re) → Contains re self.old → NoneLeft hay.now re start }
        ensures same { self.new ≡ self.old }
    {
        let Some(ahead) = memmem::find(&hay[start..], &self.bytes) else {
            return true;
        };
        self.is_common = ahead < NEAR;
        self.found = Some(start + ahead);
        false
    }
}

/// Returns whether a literal does not occur at `start` or after it. `false` without a literal.
#[inline(always)]
pub fn lacks(needle: &mut Option<Needle>, hay: &[u8], start: usize) -> bool
    requires { start ≤ length hay.now }
    ensures lacking { result ≡ true → (re : Re) → ContainsAny re needle.old → NoneLeft hay.now re start }
    ensures same { needle.new ≡ needle.old }
{
    match needle {
        Some(needle) => needle.is_lacking(hay, start),
        None => false,
    }
}
