//! Bytecode from trees: worked rows with each allocation failed in turn, the deepest part, and printed causes. That a
//! tree has this bytecode is a clause of `emit`, and rows of it are beside its definitions.

use crate::shown::is_shown;
use sre_emit::{EmitError, Fold, Item, OneChar, Part, RunKind, emit_in};
use sre_failing_allocator::Refusing;
use std::alloc::{AllocError, Global};

const NO_LIMIT: u32 = u32::MAX;

// An item of a part by a number: a literal, or a capture slot.
#[derive(Clone, Copy)]
enum Step {
    Letter(u32),
    Mark(u32),
}

fn item(step: Step) -> Item {
    match step {
        Step::Letter(value) => Item::One(OneChar::Literal {
            negated: false,
            fold: Fold::Plain,
            value,
        }),
        Step::Mark(number) => Item::Mark(number),
    }
}

// Literals and capture slots, whether to write an INFO block, the bytecode, and the least number of allocations.
type Row = (&'static [Step], bool, &'static [u32], u64);

static ROWS: [Row; 9] = [
    (&[], false, &[1], 1),
    (&[], true, &[14, 4, 0, 0, NO_LIMIT, 1], 1),
    (&[Step::Letter(97)], false, &[16, 97, 1], 1),
    (
        &[Step::Letter(97)],
        true,
        &[14, 8, 3, 1, NO_LIMIT, 1, 1, 97, 0, 16, 97, 1],
        1,
    ),
    // ab(cd)
    (
        &[
            Step::Letter(97),
            Step::Letter(98),
            Step::Mark(0),
            Step::Letter(99),
            Step::Letter(100),
            Step::Mark(1),
        ],
        true,
        &[
            14, 14, 1, 4, NO_LIMIT, 4, 2, 97, 98, 99, 100, 0, 0, 0, 0, 16, 97, 16, 98, 17, 0, 16,
            99, 16, 100, 17, 1, 1,
        ],
        1,
    ),
    (
        &[Step::Letter(97), Step::Mark(0)],
        true,
        &[14, 8, 1, 1, NO_LIMIT, 1, 1, 97, 0, 16, 97, 17, 0, 1],
        1,
    ),
    // aabaaa, whose overlap words rise and fall
    (
        &[
            Step::Letter(97),
            Step::Letter(97),
            Step::Letter(98),
            Step::Letter(97),
            Step::Letter(97),
            Step::Letter(97),
        ],
        true,
        &[
            14, 18, 3, 6, NO_LIMIT, 6, 6, 97, 97, 98, 97, 97, 97, 0, 1, 0, 1, 2, 2, 16, 97, 16, 97,
            16, 98, 16, 97, 16, 97, 16, 97, 1,
        ],
        1,
    ),
    // a 16 times
    (
        &[Step::Letter(97); 16],
        false,
        &[
            16, 97, 16, 97, 16, 97, 16, 97, 16, 97, 16, 97, 16, 97, 16, 97, 16, 97, 16, 97, 16, 97,
            16, 97, 16, 97, 16, 97, 16, 97, 16, 97, 1,
        ],
        5,
    ),
    // the literals and the overlap words are lists, too
    (
        &[Step::Letter(97); 16],
        true,
        &[
            14, 38, 3, 16, NO_LIMIT, 16, 16, 97, 97, 97, 97, 97, 97, 97, 97, 97, 97, 97, 97, 97,
            97, 97, 97, 0, 1, 2, 3, 4, 5, 6, 7, 8, 9, 10, 11, 12, 13, 14, 15, 16, 97, 16, 97, 16,
            97, 16, 97, 16, 97, 16, 97, 16, 97, 16, 97, 16, 97, 16, 97, 16, 97, 16, 97, 16, 97, 16,
            97, 16, 97, 16, 97, 1,
        ],
        9,
    ),
];

// Appends the items of steps.
fn push_items(steps: &[Step], items: &mut Vec<Item>) -> bool {
    for step in steps {
        if items.push(item(*step)).is_err() {
            return false;
        }
    }
    true
}

// Whether the allocation of a number fails while a part is emitted. `None` for other bytecode, or for an error without
// a failed allocation.
fn is_refused(
    alloc: Global,
    part: &Part,
    with_block: bool,
    wanted: &[u32],
    refused: u64,
) -> Option<bool> {
    let heap = Refusing::new(alloc, refused);
    let (is_right, is_refused) = match emit_in(&heap, part, with_block) {
        Ok(words) => (words.as_slice() == wanted, false),
        Err(error) => (error == EmitError::Memory, true),
    };
    if is_right && is_refused == (heap.left() == 0) {
        Some(is_refused)
    } else {
        None
    }
}

// Fails each allocation in turn. Returns whether there are at least so many, and whether the bytecode is then right.
fn is_emitted(alloc: Global, part: &Part, with_block: bool, wanted: &[u32], least: u64) -> bool {
    for refused in 1..40u64 {
        match is_refused(alloc, part, with_block, wanted, refused) {
            Some(true) => {}
            Some(false) => return refused > least,
            None => return false,
        }
    }
    false
}

// The same for a row's part.
fn has_words(alloc: Global, row: &Row) -> bool {
    let (steps, with_block, wanted, least) = *row;
    let mut part = Part {
        items: Vec::new(alloc),
    };
    push_items(steps, &mut part.items) && is_emitted(alloc, &part, with_block, wanted, least)
}

#[test]
fn parts_have_their_words_or_memory_is_refused(rt: HostRuntime) {
    for row in &ROWS {
        assert!(rt; has_words(rt.alloc(), row), "{:?}", row.2);
    }
}

// A part of one item.
fn single(alloc: Global, item: Item) -> Result<Part, AllocError> {
    let mut items = Vec::new(alloc);
    match items.push(item) {
        Ok(()) => Ok(Part { items }),
        Err(_) => Err(AllocError),
    }
}

// The letter a inside so many atomic groups.
fn nested(alloc: Global, depth: u32) -> Result<Part, AllocError> {
    let mut inner = single(alloc, item(Step::Letter(97)))?;
    for _ in 0..depth {
        inner = single(alloc, Item::Atomic(inner))?;
    }
    Ok(inner)
}

// Whether a part has so many words or this error, after each allocation was failed in turn.
fn is_answered(alloc: Global, part: &Part, wanted: Result<usize, EmitError>) -> bool {
    let with_block = false;
    for refused in 1..40u64 {
        let heap = Refusing::new(alloc, refused);
        let answer = match emit_in(&heap, part, with_block) {
            Ok(words) => Ok(words.len()),
            Err(error) => Err(error),
        };
        if heap.left() != 0 {
            return answer == wanted;
        }
        if answer != Err(EmitError::Memory) {
            return false;
        }
    }
    false
}

// The same for the letter inside so many groups.
fn is_nested(alloc: Global, depth: u32, wanted: Result<usize, EmitError>) -> bool {
    match nested(alloc, depth) {
        Ok(part) => is_answered(alloc, &part, wanted),
        Err(_) => false,
    }
}

#[test]
fn parts_lie_inside_a_thousand_items(rt: HostRuntime) {
    assert!(rt; is_nested(rt.alloc(), 1000, Ok(3003)));
    assert!(rt; is_nested(rt.alloc(), 1001, Err(EmitError::TooDeep)));
}

// Whether a part of one item is rejected as bad.
fn is_bad(alloc: Global, item: Item) -> bool {
    match single(alloc, item) {
        Ok(part) => is_answered(alloc, &part, Err(EmitError::BadPart)),
        Err(_) => false,
    }
}

#[test]
fn bad_parts_have_no_words(rt: HostRuntime) {
    let run = Item::Run {
        kind: RunKind::Greedy,
        min: 2,
        max: 1,
        test: OneChar::Any,
    };
    assert!(rt; is_bad(rt.alloc(), run));
    assert!(rt; is_bad(rt.alloc(), Item::Branch(Vec::new(rt.alloc()))));
}

// A branch of nothing and the letter a: whether there is an INFO block, and the bytecode.
static BRANCHES: [(bool, &[u32]); 2] = [
    (false, &[7, 3, 15, 7, 5, 16, 97, 15, 2, 0, 1]),
    (
        true,
        &[14, 4, 0, 0, NO_LIMIT, 7, 3, 15, 7, 5, 16, 97, 15, 2, 0, 1],
    ),
];

// The part of such a branch.
fn nothing_or_letter(alloc: Global) -> Result<Part, AllocError> {
    let letter = single(alloc, item(Step::Letter(97)))?;
    let nothing = Part {
        items: Vec::new(alloc),
    };
    let mut alternatives = Vec::new(alloc);
    if alternatives.push(nothing).is_err() || alternatives.push(letter).is_err() {
        return Err(AllocError);
    }
    single(alloc, Item::Branch(alternatives))
}

// Whether it has this bytecode, after each allocation was failed in turn.
fn has_branch_words(alloc: Global, with_block: bool, wanted: &[u32]) -> bool {
    match nothing_or_letter(alloc) {
        Ok(part) => is_emitted(alloc, &part, with_block, wanted, 1),
        Err(_) => false,
    }
}

#[test]
fn branches_have_their_words_or_memory_is_refused(rt: HostRuntime) {
    for &(with_block, wanted) in &BRANCHES {
        assert!(rt; has_branch_words(rt.alloc(), with_block, wanted));
    }
}

static CAUSES: [(EmitError, u32, &str); 4] = [
    (EmitError::Memory, 1, "out of memory"),
    (EmitError::TooLong, 2, "TooLong"),
    (EmitError::TooDeep, 3, "TooDeep"),
    (EmitError::BadPart, 4, "BadPart"),
];

#[test]
fn causes_are_told(rt: HostRuntime) {
    for &(error, number, text) in &CAUSES {
        assert!(rt; error.number() == number && is_shown(rt.alloc(), &error, text));
    }
}
