//! The check's single pass over the bytecode, with a stack of open parts.

ghost use Rattle.sre_code.specs.Descent.{Pushes, ReadsOn, Descends};

use crate::code::error::CodeError;
use crate::code::step::{Open, Part, Reached, Step};
use crate::code::{item, part};
use std::alloc::Allocator;

/// Pushes the part that a step opens, if it opens one, and returns the address from which to read on.
fn follow<A: Allocator>(parts: &mut Vec<Open, A>, step: Step) -> Result<Reached, CodeError>
    ensures { Pushes A step parts.old.items parts.new.items result }
{
    match step {
        Step::Past { place, width } => Ok(Reached { place, width }),
        Step::Opens { part, place } => {
            sre_growth::push(parts, Open { part, width: 0 })?;
            Ok(Reached { place, width: 0 })
        }
    }
}

/// One step: closes the innermost part, which was popped, or reads an item of it.
#[tactic(auto, using(crate::proofs::Descending::read_on_laws))]
fn read_on<A: Allocator>(
    words: &[u32],
    reached: Reached,
    top: Open,
    parts: &mut Vec<Open, A>,
) -> Result<Reached, CodeError>
    ensures { ReadsOn A words.now reached top parts.old.items parts.new.items result }
{
    let width = top.width.saturating_add(reached.width);
    if let Some(step) = part::close(words, reached.place, top.part, width)? {
        return follow(parts, step);
    }
    let step = item::item(words, reached.place)?;
    let left = Open {
        part: top.part,
        width,
    };
    sre_growth::push(parts, left)?;
    follow(parts, step)
}

/// The least width of the tree whose items begin at `start`; SUCCESS is the last word.
#[tactic(auto, using(crate::proofs::Descending::descend_laws))]
pub fn descend<A: Allocator + Copy>(alloc: A, words: &[u32], start: usize) -> Result<u32, CodeError>
    ensures { Descends A words.now start result }
{
    let mut parts = Vec::new(alloc);
    let mut reached = follow(
        &mut parts,
        Step::Opens {
            part: Part::Whole,
            place: start,
        },
    )?;
    'part: while let Some(top) = parts.pop() {
        reached = read_on(words, reached, top, &mut parts)?;
    }
    Ok(reached.width)
}
