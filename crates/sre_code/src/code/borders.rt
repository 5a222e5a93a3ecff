//! Border lengths. That of a list is the length of its longest proper prefix that is also a suffix.
//!
//! A border of the first `n + 1` words is a border of the first `n`, or a border of that border and so on, with the
//! next word after it. So the claimed border lengths, each confirmed before it is used, lead to the next one: in linear
//! time and without memory.

ghost use Rattle.std.specs.Prelude.{◌≡◌, ◌+◌, ◌^◌, ◌<◌, ◌≤◌, ◌↔◌, IsTrue, IfOk, length, true};
ghost use Rattle.sre_code.specs.Terms.{are_overlaps};
ghost use Rattle.sre_code.specs.Hints.{Longest, RightUpTo, Right};

use sre_growth::Refusal;
use std::alloc::Allocator;

/// The border length of the first `n + 1` words of the prefix.
fn next_border(prefix: &[u32], overlaps: &[u32], n: usize) -> usize
    requires some { 0 < n }
    requires within { n < length prefix.now }
    requires long { length overlaps.now ≡ length prefix.now }
    requires right { RightUpTo prefix.now overlaps.now n }
    ensures { Longest prefix.now (n + 1) result }
{
    let mut border = overlaps[n - 1] as usize;
    'border: while border > 0 && prefix[border] != prefix[n] {
        border = overlaps[border - 1] as usize;
    }
    if prefix[border] == prefix[n] {
        border + 1
    } else {
        0
    }
}

/// Whether `overlaps` has the border length of each nonempty beginning of the prefix.
#[tactic(auto, using(crate::proofs::Borders::overlaps_laws))]
fn are_borders(prefix: &[u32], overlaps: &[u32]) -> bool
    requires some { 0 < length prefix.now }
    requires long { length overlaps.now ≡ length prefix.now }
    ensures { IsTrue result ↔ Right prefix.now overlaps.now }
{
    if overlaps[0] != 0 {
        return false;
    }
    'front: for n in 1..prefix.len() {
        if overlaps[n] as usize != next_border(prefix, overlaps, n) {
            return false;
        }
    }
    true
}

/// The same, as the specification of search hints states it.
#[tactic(auto, using(crate::proofs::Borders::overlaps_told))]
pub fn are_overlaps(prefix: &[u32], overlaps: &[u32]) -> bool
    requires some { 0 < length prefix.now }
    requires long { length overlaps.now ≡ length prefix.now }
    ensures { result ≡ are_overlaps prefix.now 1 overlaps.now }
{
    are_borders(prefix, overlaps)
}

/// The border lengths of the first word, of the first two words, and so on, up to all.
///
/// # Errors
///
/// [`Refusal`], if the allocation of the list failed.
#[tactic(auto, using(crate::proofs::Borders::lengths_laws))]
pub fn border_lengths<A: Allocator>(alloc: A, words: &[u32]) -> Result<Vec<u32, A>, Refusal<A>>
    requires some { 0 < length words.now }
    requires few { length words.now ≤ 2 ^ 32 }
    ensures length { IfOk result (λ lengths. length lengths.items ≡ length words.now) }
    ensures right { IfOk result (λ lengths. are_overlaps words.now 1 lengths.items ≡ true) }
{
    let mut lengths = Vec::new(alloc);
    sre_growth::resize(&mut lengths, words.len(), 0)?;
    'front: for n in 1..words.len() {
        lengths[n] = next_border(words, &lengths, n) as u32;
    }
    Ok(lengths)
}
