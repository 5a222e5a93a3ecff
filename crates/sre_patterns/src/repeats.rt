//! Repetitions, whose counts are exact up to a limit.

ghost use Rattle.std.specs.Prelude.{◌≡◌, ◌≤◌, ◌+◌, ◌<◌, ◌^◌, IfOk, length, true, None};
ghost use Rattle.sre_patterns.specs.Terms.{meaning, repeat, Word, items_of, IsMinLen};
ghost use Rattle.sre_patterns.specs.Covers.{AreKept};
ghost use Rattle.sre_patterns.specs.Purposes.{WhenInOrder, RunsSo, LoopsSo};
ghost use Rattle.sre_patterns.specs.Patterns as repetitions;

use crate::fault::Fault;
use crate::task::{Purpose, Task, only_covers};
use crate::words::{operand, word};
use regex_hir::Hir;
use sre_chars::constants::SreOpcode;
use std::alloc::{AllocError, Global};

/// The greatest count in a pattern. A greater minimum is lowered to it. If a count is greater, the maximum is dropped.
pub const KEPT: u32 = 1000;

/// How often a repetition iterates.
#[derive(Clone, Copy)]
pub(crate) struct Counts {
    pub(crate) low: u32,
    pub(crate) high: u32,
}

/// The counts of the repetition at an address. They must be within `KEPT` for a pattern that tries paths in order.
pub(crate) fn counts_at(task: &Task<'_>, place: usize) -> Result<Counts, Fault>
    requires { place + 3 < length (items_of task.now.code) }
    ensures low { IfOk result (λ c. Word (items_of task.now.code) (place + 2) c.low) }
    ensures high { IfOk result (λ c. Word (items_of task.now.code) (place + 3) c.high) }
    ensures kept { IfOk result (λ c. WhenInOrder task.now.purpose (c.low ≤ c.high → AreKept KEPT c.low c.high)) }
{
    let low = operand(&task.code, place, 2);
    let high = operand(&task.code, place, 3);
    let Purpose::InOrder = task.purpose else {
        return Ok(Counts { low, high });
    };
    if low > KEPT || (high > KEPT && high != u32::MAX) {
        return Err(Fault::OutOfOrder);
    }
    Ok(Counts { low, high })
}

/// Whether a pattern can iterate this one. To try match paths in order, each of its matches must read a byte.
pub(crate) fn iterates(purpose: Purpose, hir: &Hir) -> bool
    ensures { result ≡ true → WhenInOrder purpose (IsMinLen (meaning hir.now) 1) }
{
    match purpose {
        Purpose::Cover { lazy: _ } => true,
        Purpose::InOrder => hir.min_len() != 0,
    }
}

// Whether a repetition in a pattern is greedy, if the one in the bytecode is `as_written`.
fn is_greedy(purpose: Purpose, as_written: bool) -> bool
    ensures { WhenInOrder purpose (result ≡ as_written) }
{
    match purpose {
        Purpose::Cover { lazy } => as_written && !lazy,
        Purpose::InOrder => as_written,
    }
}

/// Whether the single-character repeat of an opcode is greedy in a pattern. No pattern tries a possessive one in order.
pub(crate) fn greedy_run(purpose: Purpose, opcode: SreOpcode) -> Result<bool, Fault>
    ensures { IfOk result (λ greedy. WhenInOrder purpose (RunsSo opcode greedy)) }
{
    match opcode {
        SreOpcode::REPEAT_ONE => Ok(is_greedy(purpose, true)),
        SreOpcode::MIN_REPEAT_ONE => Ok(is_greedy(purpose, false)),
        _ => {
            only_covers(purpose)?;
            Ok(is_greedy(purpose, true))
        }
    }
}

/// Whether the loop whose body ends at the address `until` is greedy in a pattern. No pattern tries a possessive one in
/// order.
pub(crate) fn greedy_loop(task: &Task<'_>, until: usize) -> Result<bool, Fault>
    requires { until < length (items_of task.now.code) }
    ensures greedy { IfOk result (λ g. WhenInOrder task.now.purpose (LoopsSo (items_of task.now.code) until g)) }
    ensures room { until + 2 ^ 33 < 2 ^ 64 }
{
    let end = word(&task.code, until);
    if end == SreOpcode::SUCCESS as u32 {
        only_covers(task.purpose)?;
        return Ok(is_greedy(task.purpose, true));
    }
    Ok(is_greedy(task.purpose, end != SreOpcode::MIN_UNTIL as u32))
}

/// The repetition of a pattern, with counts limited by `KEPT`.
pub(crate) fn repeated(
    alloc: Global,
    counts: Counts,
    greedy: bool,
    sub: Hir,
) -> Result<Hir, AllocError>
    ensures { IfOk result (λ h.
        meaning h ≡ repetitions.repeated KEPT counts.low counts.high greedy (meaning sub)) }
{
    let Counts { low, high } = counts;
    let max = if low > KEPT || high > KEPT {
        None
    } else {
        Some(high)
    };
    Ok(Hir::Repetition {
        min: low.min(KEPT),
        max,
        greedy,
        sub: Box::new(alloc, sub)?,
    })
}

/// The greedy repetition of a pattern without limits.
pub(crate) fn any_number(alloc: Global, sub: Hir) -> Result<Hir, AllocError>
    ensures { IfOk result (λ h. meaning h ≡ repeat 0 None true (meaning sub)) }
{
    Ok(Hir::Repetition {
        min: 0,
        max: None,
        greedy: true,
        sub: Box::new(alloc, sub)?,
    })
}
