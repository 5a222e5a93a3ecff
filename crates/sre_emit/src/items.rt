//! Writing tests, items and parts.

ghost use Rattle.std.specs.Prelude.{◌≡◌, ◌+◌, ◌-◌, ◌≤◌, ◌∷◌, [], length, map, true};
ghost use Rattle.sre_emit.specs.Emitting.{opcode_number, test_of, tree_of, item_of, alternatives, in_order};
ghost use Rattle.sre_emit.specs.Emitting.{has_alternatives, item_has_alternatives, all, some_parts, test_words};
ghost use Rattle.sre_emit.specs.Emitting.{repeated, tree_words, item_words, branch_words, Wrote, closed, guarded};

use crate::codes;
use crate::part::{Item, OneChar, Part};
use crate::writer::Writer;
use sre_chars::constants::SreOpcode;
use std::alloc::Allocator;

impl<A: Allocator> Writer<A> {
    /// Writes an opcode.
    pub fn put_opcode(&mut self, code: SreOpcode)
        ensures { Wrote A self.old self.new (opcode_number code ∷ []) }
    {
        self.put(code as u32);
    }

    /// Writes the number of words since `start` with `extra` added, and operands behind it.
    fn put_skip(&mut self, start: usize, extra: usize, operands: &[u32])
        requires since { start ≤ length self.old.words }
        requires few { extra ≤ 4 }
        ensures { Wrote A self.old self.new ((length self.old.words - start + extra) ∷ operands.now) }
    {
        let count = self.len() - start + extra;
        self.put_all(operands);
        self.put_count(count);
    }

    /// Writes a test.
    fn put_test(&mut self, test: &OneChar)
        ensures { Wrote A self.old self.new (test_words (test_of test.now)) }
    {
        match test {
            OneChar::Any => self.put_opcode(SreOpcode::ANY),
            OneChar::AnyAll => self.put_opcode(SreOpcode::ANY_ALL),
            OneChar::Category(category) => {
                self.put_all(&[SreOpcode::CATEGORY as u32, *category as u32]);
            }
            OneChar::Literal {
                negated,
                fold,
                value,
            } => {
                if *negated {
                    self.put_all(&[codes::not_literal_opcode(*fold) as u32, *value]);
                } else {
                    self.put_all(&[codes::literal_opcode(*fold) as u32, *value]);
                }
            }
            OneChar::In { fold, set } => {
                self.put_opcode(SreOpcode::FAILURE);
                let start = self.len();
                self.put_set(set);
                self.put_skip(start, 2, &[]);
                self.put_opcode(codes::set_opcode(*fold));
            }
        }
    }

    /// Writes a single-character repeat.
    fn put_run(&mut self, code: SreOpcode, min: u32, max: u32, test: &OneChar)
        ensures { Wrote A self.old self.new
            (opcode_number code
            ∷ repeated 4 min max (test_words (test_of test.now)) (opcode_number SreOpcode.SUCCESS)) }
    {
        self.put_opcode(SreOpcode::SUCCESS);
        let start = self.len();
        self.put_test(test);
        self.put_skip(start, 4, &[min, max]);
        self.put_opcode(code);
    }

    /// Writes the items of a part.
    #[cycle(put)]
    pub fn put_part(&mut self, part: &Part)
        requires { has_alternatives part.now ≡ true }
        ensures { Wrote A self.old self.new (tree_words (tree_of part.now)) }
    {
        self.put_items(&part.items);
    }

    /// Writes items.
    #[cycle(put)]
    fn put_items(&mut self, items: &[Item])
        requires { all (map item_has_alternatives items.now) ≡ true }
        ensures { Wrote A self.old self.new (tree_words (in_order (map item_of items.now))) }
    {
        for at in (0..items.len()).rev() {
            self.put_item(&items[at]);
        }
    }

    /// Writes an opcode, a skip of `extra` more than a body's length, operands, the body, and the opcode that ends it.
    #[cycle(put)]
    fn put_closed(
        &mut self,
        code: SreOpcode,
        extra: usize,
        operands: &[u32],
        body: &Part,
        end: SreOpcode,
    )
        requires alternatives { has_alternatives body.now ≡ true }
        requires few { extra ≤ 4 }
        ensures { Wrote A self.old self.new
            (closed (opcode_number code) extra operands.now (tree_words (tree_of body.now)) (opcode_number end)) }
    {
        self.put_opcode(end);
        let start = self.len();
        self.put_part(body);
        self.put_skip(start, extra, operands);
        self.put_opcode(code);
    }

    /// Writes a part behind its length with `extra` added, and a JUMP over all words since `start`.
    #[cycle(put)]
    fn put_before(&mut self, start: usize, extra: usize, part: &Part)
        requires since { start ≤ length self.old.words }
        requires alternatives { has_alternatives part.now ≡ true }
        requires few { extra ≤ 4 }
        ensures { Wrote A self.old self.new
            (guarded extra (tree_words (tree_of part.now)) (length self.old.words - start)) }
    {
        self.put_skip(start, 1, &[]);
        self.put_opcode(SreOpcode::JUMP);
        let start = self.len();
        self.put_part(part);
        self.put_skip(start, extra, &[]);
    }

    /// Writes a BRANCH, its alternatives, and the 0 after them.
    #[cycle(put)]
    fn put_parts(&mut self, parts: &[Part])
        requires { some_parts (map has_alternatives parts.now) ≡ true }
        ensures { Wrote A self.old self.new
            (opcode_number SreOpcode.BRANCH ∷ branch_words (alternatives (map tree_of parts.now))) }
    {
        let start = self.len();
        self.put(0);
        for at in (0..parts.len()).rev() {
            self.put_before(start, 3, &parts[at]);
        }
        self.put_opcode(SreOpcode::BRANCH);
    }

    /// Writes an item.
    #[cycle(put)]
    fn put_item(&mut self, item: &Item)
        requires { item_has_alternatives item.now ≡ true }
        ensures { Wrote A self.old self.new (item_words (item_of item.now)) }
    {
        let end = SreOpcode::SUCCESS;
        match item {
            Item::Fail => self.put_opcode(SreOpcode::FAILURE),
            Item::One(test) => self.put_test(test),
            Item::At(position) => self.put_all(&[SreOpcode::AT as u32, *position as u32]),
            Item::Mark(number) => self.put_all(&[SreOpcode::MARK as u32, *number]),
            Item::Branch(parts) => self.put_parts(parts),
            Item::Loop {
                lazy,
                min,
                max,
                body,
            } => {
                let until = codes::until_opcode(*lazy);
                self.put_closed(SreOpcode::REPEAT, 3, &[*min, *max], body, until);
            }
            Item::PossLoop { min, max, body } => {
                self.put_closed(SreOpcode::POSSESSIVE_REPEAT, 3, &[*min, *max], body, end);
            }
            Item::Atomic(body) => self.put_closed(SreOpcode::ATOMIC_GROUP, 2, &[], body, end),
            Item::Look {
                positive,
                back,
                body,
            } => self.put_closed(codes::look_opcode(*positive), 3, &[*back], body, end),
            Item::Run {
                kind,
                min,
                max,
                test,
            } => self.put_run(codes::run_opcode(*kind), *min, *max, test),
            Item::Ref { fold, group } => {
                self.put_all(&[codes::reference_opcode(*fold) as u32, *group]);
            }
            Item::Exists { group, yes, no } => {
                let start = self.len();
                match no {
                    None => {
                        self.put_part(yes);
                        self.put_skip(start, 2, &[]);
                        self.put_all(&[SreOpcode::GROUPREF_EXISTS as u32, *group]);
                    }
                    Some(no) => {
                        self.put_part(no);
                        self.put_before(start, 4, yes);
                        self.put_all(&[SreOpcode::GROUPREF_EXISTS as u32, *group]);
                    }
                }
            }
        }
    }
}
