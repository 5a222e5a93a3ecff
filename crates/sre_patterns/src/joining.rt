//! Concatenation and alternation of patterns.

ghost use Rattle.std.specs.Prelude.{OnOk, IfOk, map};
ghost use Rattle.sre_patterns.specs.Terms.{Re, cat, alt, empty, literal, meaning};
ghost use Rattle.sre_patterns.specs.Covers.{IsWider};
ghost use Rattle.sre_patterns.specs.Patterns.{cat_onto};
ghost use Rattle.sre_patterns.specs.Purposes.{Replaces};

use crate::task::Purpose;
use regex_hir::Hir;
use std::alloc::{AllocError, Global};

/// Appends a pattern to a sequence. If the order of match paths does not matter, an empty pattern is omitted, and
/// adjacent literals are merged.
pub(crate) fn add(purpose: Purpose, parts: &mut Vec<Hir>, hir: Hir) -> Result<(), AllocError>
    ensures { OnOk result ((b : Re)
        → Replaces purpose (cat_onto (map meaning parts.old.items) (cat (meaning hir) b))
        (cat_onto (map meaning parts.new.items) b)) }
{
    let Purpose::Cover { lazy: _ } = purpose else {
        parts.push(hir)?;
        return Ok(());
    };
    match hir {
        Hir::Empty => Ok(()),
        Hir::Literal(bytes) => Ok(add_literal(parts, bytes)?),
        other => {
            parts.push(other)?;
            Ok(())
        }
    }
}

// Appends a literal, merged with a literal before it.
fn add_literal(parts: &mut Vec<Hir>, bytes: Vec<u8>) -> Result<(), AllocError>
    ensures { OnOk result ((b : Re)
        → IsWider (cat_onto (map meaning parts.old.items) (cat (literal bytes.items) b))
        (cat_onto (map meaning parts.new.items) b)) }
{
    match parts.pop() {
        Some(Hir::Literal(mut before)) => {
            before.extend_from_slice(bytes.as_slice())?;
            parts.push(Hir::Literal(before))?;
            Ok(())
        }
        Some(other) => {
            parts.push(other)?;
            parts.push(Hir::Literal(bytes))?;
            Ok(())
        }
        None => {
            parts.push(Hir::Literal(bytes))?;
            Ok(())
        }
    }
}

/// The concatenation of all parts.
pub(crate) fn joined(purpose: Purpose, mut parts: Vec<Hir>) -> Hir
    ensures { Replaces purpose (cat_onto (map meaning parts.items) empty) (meaning result) }
{
    let Purpose::Cover { lazy: _ } = purpose else {
        return Hir::Concat(parts);
    };
    if parts.len() > 1 {
        return Hir::Concat(parts);
    }
    match parts.pop() {
        Some(only) => only,
        None => Hir::Empty,
    }
}

/// The alternation of two patterns.
pub(crate) fn either(alloc: Global, first: Hir, second: Hir) -> Result<Hir, AllocError>
    ensures { IfOk result (λ h. IsWider (alt (meaning first) (meaning second)) (meaning h)) }
{
    let mut both: Vec<Hir> = Vec::new(alloc);
    both.push(first)?;
    both.push(second)?;
    Ok(Hir::Alternation(both))
}
