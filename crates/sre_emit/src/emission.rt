//! [`emit`]: the bytecode of a part, or why there is none.

ghost use Rattle.std.specs.Prelude.{◌≡◌, IfOk, IfErr, true};
ghost use Rattle.sre_emit.specs.Emitting.{code_words, width, tree_of, has_alternatives, front, Emitted, Cause, Wrote};

use crate::check::check_part;
use crate::error::EmitError;
use crate::part::Part;
use crate::writer::Writer;
use sre_chars::constants::SreOpcode;
use std::alloc::{Allocator, Global};

impl<A: Allocator> Writer<A> {
    // Writes a part, and the SUCCESS that ends a code.
    fn put_code(&mut self, part: &Part)
        requires { has_alternatives part.now ≡ true }
        ensures { Wrote A self.old self.new (code_words (tree_of part.now)) }
    {
        self.put(SreOpcode::SUCCESS as u32);
        self.put_part(part);
    }
}

impl<A: Allocator + Copy> Writer<A> {
    // Writes the INFO block of a part, if it is wanted.
    fn put_front(&mut self, alloc: A, part: &Part, least: u32, with_block: bool)
        requires { least ≡ width (tree_of part.now) }
        ensures { Wrote A self.old self.new (front with_block (tree_of part.now)) }
    {
        if with_block {
            self.put_block(alloc, &part.items, least);
        }
    }
}

/// The bytecode of a part's tree: an INFO block if `with_block`, the items, and SUCCESS.
///
/// No other bytecode without a block has that tree. The block has the least width, and no greatest one. If the part
/// begins with a literal of plain folding, the block has a prefix: these literals, up to the first item that is neither
/// such a literal nor a MARK, with their overlap table. It has the flag LITERAL if the part has no other items. It has
/// no set. `Code::check` confirms all that it claims.
///
/// Time and memory are linear in the bytecode. Lists grow by doubling.
///
/// # Errors
///
/// [`EmitError`], with a cause that applies.
pub fn emit(alloc: Global, part: &Part, with_block: bool) -> Result<Vec<u32>, EmitError>
    ensures emitted { IfOk result (λ words. Emitted part.now with_block words.items) }
    ensures cause { IfErr result (Cause Global part.now with_block) }
{
    emit_in(alloc, part, with_block)
}

/// As [`emit`], with any allocator.
///
/// # Errors
///
/// [`EmitError`], with a cause that applies.
pub fn emit_in<A: Allocator + Copy>(
    alloc: A,
    part: &Part,
    with_block: bool,
) -> Result<Vec<u32, A>, EmitError>
    ensures emitted { IfOk result (λ words. Emitted part.now with_block words.items) }
    ensures cause { IfErr result (Cause A part.now with_block) }
{
    let least = check_part(part, 0)?;
    let mut writer = Writer::new(alloc);
    writer.put_code(part);
    writer.put_front(alloc, part, least, with_block);
    writer.finish()
}
