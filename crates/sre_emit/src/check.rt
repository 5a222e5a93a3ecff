//! The check of a part before anything is written, and its least width.

ghost use Rattle.std.specs.Prelude.{◌≡◌, ◌+◌, ◌≤◌, ◌<◌, IsTrue, ◌↔◌, IfOk, length, map};
ghost use Rattle.sre_emit.specs.Emitting.{set_item_of, test_of, tree_of, item_of, in_order, alternatives, depth};
ghost use Rattle.sre_emit.specs.Emitting.{item_depth, HasTree, HasItemTree, NumbersBelow, LawfulSetItem, LawfulSet};
ghost use Rattle.sre_emit.specs.Emitting.{LawfulTest, width, item_width, least_width, Checks, HaveTrees};
ghost use Rattle.sre_emit.specs.Emitting.{HaveAlternatives, items_depth, parts_depth};

use crate::error::EmitError;
use crate::part::{Item, OneChar, Part, SetItem};

/// Checks that the least count is at most the greatest one.
fn check_counts(min: u32, max: u32) -> Result<(), EmitError>
    ensures { Checks 0 (min ≤ max) result }
{
    if min > max {
        return Err(EmitError::BadPart);
    }
    Ok(())
}

/// Whether each block number is below the count.
fn numbers_below(numbers: &[u8], count: usize) -> bool
    ensures { IsTrue result ↔ NumbersBelow count numbers.now }
{
    for number in numbers {
        if usize::from(*number) >= count {
            return false;
        }
    }
    true
}

/// States that a bitmap has 8 words.
fn has_eight(bits: &[u32; 8])
    ensures { length bits.now ≡ 8 }
{
    let _words = bits.len();
}

/// Checks that the tables of a set item are complete.
fn check_set_item(item: &SetItem) -> Result<(), EmitError>
    ensures { Checks 0 (LawfulSetItem (set_item_of item.now)) result }
{
    match item {
        SetItem::BigCharset { numbers, bits } => {
            if numbers.len() != 256
                || bits.len() % 8 != 0
                || !numbers_below(numbers, bits.len() / 8)
            {
                return Err(EmitError::BadPart);
            }
            Ok(())
        }
        SetItem::Charset(bits) => {
            has_eight(bits);
            Ok(())
        }
        _ => Ok(()),
    }
}

/// Checks that the tables of all items of a set are complete.
fn check_set(set: &[SetItem]) -> Result<(), EmitError>
    ensures { Checks 0 (LawfulSet (map set_item_of set.now)) result }
{
    for item in set {
        check_set_item(item)?;
    }
    Ok(())
}

/// Checks the set of a test, if it has one.
fn check_test(test: &OneChar) -> Result<(), EmitError>
    ensures { Checks 0 (LawfulTest (test_of test.now)) result }
{
    match test {
        OneChar::In { fold: _, set } => check_set(set),
        _ => Ok(()),
    }
}

/// Checks that each item has a tree, and that parts are not nested too deep. The items are inside `inside` items.
/// Returns their least width in characters, saturated at 4294967295.
#[cycle(check)]
#[tactic(auto, using(crate::proofs::ItemsChecked::wide))]
fn check_items(items: &[Item], inside: u32) -> Result<u32, EmitError>
    requires { inside ≤ 1000 }
    ensures checked { Checks (inside + items_depth items.now) (HaveTrees items.now) result }
    ensures width { IfOk result (λ n. n ≡ width (in_order (map item_of items.now))) }
{
    let mut least = 0u32;
    for item in items {
        least = least.saturating_add(check_item(item, inside)?);
    }
    Ok(least)
}

/// The same for the parts of a branch, which has at least one. Returns the smallest of their least widths.
#[cycle(check)]
#[tactic(auto, using(crate::proofs::ItemsChecked::narrow))]
fn check_parts(parts: &[Part], inside: u32) -> Result<u32, EmitError>
    requires { inside ≤ 1000 }
    ensures checked { Checks (inside + parts_depth parts.now) (HaveAlternatives parts.now) result }
    ensures width { IfOk result (λ n. n ≡ least_width (alternatives (map tree_of parts.now))) }
{
    if parts.is_empty() {
        return Err(EmitError::BadPart);
    }
    let mut least = 4294967295u32;
    for part in parts {
        least = least.min(check_part(part, inside + 1)?);
    }
    Ok(least)
}

/// Checks that a part has a tree, and that parts are not nested too deep. The part is inside `inside` items.
/// Returns its least width in characters, saturated at 4294967295.
#[cycle(check)]
pub fn check_part(part: &Part, inside: u32) -> Result<u32, EmitError>
    requires { inside ≤ 1001 }
    ensures checked { Checks (inside + depth part.now) (HasTree part.now) result }
    ensures width { IfOk result (λ n. n ≡ width (tree_of part.now)) }
{
    if inside > 1000 {
        return Err(EmitError::TooDeep);
    }
    check_items(&part.items, inside)
}

/// The same for an item.
#[cycle(check)]
fn check_item(item: &Item, inside: u32) -> Result<u32, EmitError>
    requires { inside ≤ 1000 }
    ensures checked { Checks (inside + item_depth item.now) (HasItemTree item.now) result }
    ensures width { IfOk result (λ n. n ≡ item_width (item_of item.now)) }
{
    match item {
        Item::Fail | Item::At(_) | Item::Mark(_) | Item::Ref { .. } => Ok(0),
        Item::One(test) => {
            check_test(test)?;
            Ok(1)
        }
        Item::Run { min, max, test, .. } => {
            check_counts(*min, *max)?;
            check_test(test)?;
            Ok(*min)
        }
        Item::Branch(parts) => check_parts(parts, inside),
        Item::Atomic(body) => check_part(body, inside + 1),
        Item::Loop { min, max, body, .. } | Item::PossLoop { min, max, body } => {
            check_counts(*min, *max)?;
            Ok(min.saturating_mul(check_part(body, inside + 1)?))
        }
        Item::Look { body, .. } => {
            check_part(body, inside + 1)?;
            Ok(0)
        }
        Item::Exists { yes, no, .. } => {
            let least = check_part(yes, inside + 1)?;
            match no {
                Some(no) => Ok(least.min(check_part(no, inside + 1)?)),
                None => Ok(0),
            }
        }
    }
}
