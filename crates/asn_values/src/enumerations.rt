//! ENUMERATED: which items there may be, and which indexes are those of items.
ghost use Rattle.std.specs.Prelude.{◌≡◌, ◌↔◌, ◌++◌, ◌==◌, IsTrue, length, take, List, [], ℤ, MatchOption};
ghost use Rattle.std.specs.List.{list_any, list_all};
ghost use Rattle.std.specs.Int.RustNames.{int_lt};
ghost use Rattle.asn_values.specs.Datum.{item};
ghost use Rattle.asn_values.specs.Shape.{enumerated, more_labels};
ghost use Rattle.asn_values.specs.Fits.{Fits};
ghost use Rattle.asn_values.specs.Profile.{duplicate_name, bad_enumeration, too_many_here, good_default, has_twice, int_eq, is_not_32_bits, is_rising};
ghost use Rattle.asn_values.specs.View.{more_labels_of, labels_seen, numbers_seen, enumerated_seen};

use crate::names;
use crate::profile::{MAX_ITEM_ADDITIONS, MAX_ITEMS};
use crate::tables::is_number_twice;
use crate::types::Item;
use std::alloc::Global;

/// The additions: none where there is no extension marker.
fn additions(ext: &Option<Vec<Item>>) -> &[Item]
    ensures { labels_seen result.now ≡ more_labels (more_labels_of ext.now) }
{
    match ext {
        Some(items) => items,
        None => &[],
    }
}

/// Whether no item stands before the extension marker.
pub(crate) fn is_empty(root: &[Item]) -> bool
    ensures { result ≡ (length (labels_seen root.now) == 0) }
{
    root.is_empty()
}

/// Whether a name stands twice among the items, or one is no identifier.
pub(crate) fn has_bad_names(alloc: Global, root: &[Item], ext: &Option<Vec<Item>>) -> bool
    ensures { result ≡ duplicate_name (enumerated_seen root.now ext.now) }
{
    names::are_bad(alloc, root, additions(ext))
}

/// Whether a number stands twice or is not of 32 signed bits, or an addition's is not above those of
/// the additions before it.
pub(crate) fn has_bad_numbers(alloc: Global, root: &[Item], ext: &Option<Vec<Item>>) -> bool
    ensures { result ≡ bad_enumeration (enumerated_seen root.now ext.now) }
{
    let additions = additions(ext);
    has_number_twice(alloc, root, additions)
        || has_large_number(root)
        || has_large_number(additions)
        || !is_rising(additions)
}

/// Whether there are more items than the profile allows.
pub(crate) fn is_too_many(root: &[Item], ext: &Option<Vec<Item>>) -> bool
    ensures { result ≡ too_many_here (enumerated_seen root.now ext.now) }
{
    let added = additions(ext).len();
    MAX_ITEM_ADDITIONS < added || MAX_ITEMS - added < root.len()
}

/// Whether an item has this index, the items counted from 0 as they are written, the additions last (X.680,
/// "enumerated type").
pub fn item_fits(root: &[Item], ext: &Option<Vec<Item>>, index: u32) -> bool
    ensures { IsTrue result ↔ Fits (enumerated_seen root.now ext.now) (item index) }
{
    let index = index as usize;
    index < root.len() || index - root.len() < additions(ext).len()
}

/// Whether the item with this index may be a DEFAULT: it is one of several, and there is no
/// extension marker.
pub(crate) fn is_good_item(root: &[Item], ext: &Option<Vec<Item>>, index: u32) -> bool
    ensures { result ≡ good_default (enumerated_seen root.now ext.now) (item index) }
{
    ext.is_none() && (index as usize) < root.len() && 1 < root.len()
}

/// Whether two of the items have the same number.
fn has_number_twice(alloc: Global, root: &[Item], additions: &[Item]) -> bool
    ensures { result ≡ has_twice int_eq (numbers_seen root.now ++ numbers_seen additions.now) }
{
    if MAX_ITEMS < root.len() || MAX_ITEMS < additions.len() {
        // a list longer than the profile has; without memory for a table its numbers are compared by pairs
        if let Ok(is_twice) = is_number_twice(alloc, root, additions) {
            return is_twice;
        }
    }
    has_number_twice_by_pairs(root, additions)
}

/// The same, each number being compared with those after it.
fn has_number_twice_by_pairs(root: &[Item], additions: &[Item]) -> bool
    ensures { result ≡ has_twice int_eq (numbers_seen root.now ++ numbers_seen additions.now) }
{
    for (index, item) in root.iter().enumerate() {
        if has_number(&root[index + 1..], item.number) || has_number(additions, item.number) {
            return true;
        }
    }
    for (index, item) in additions.iter().enumerate() {
        if has_number(&additions[index + 1..], item.number) {
            return true;
        }
    }
    false
}

/// Whether one of the items has this number.
fn has_number(items: &[Item], number: i64) -> bool
    ensures { result ≡ list_any (int_eq number) (numbers_seen items.now) }
{
    for item in items {
        if number == item.number {
            return true;
        }
    }
    false
}

/// Whether one of the numbers is not of 32 signed bits.
fn has_large_number(items: &[Item]) -> bool
    ensures { result ≡ list_any is_not_32_bits (numbers_seen items.now) }
{
    for item in items {
        if item.number < i64::from(i32::MIN) || i64::from(i32::MAX) < item.number {
            return true;
        }
    }
    false
}

/// Whether each number is above those before it.
fn is_rising(items: &[Item]) -> bool
    ensures { result ≡ is_rising (numbers_seen items.now) }
{
    for (index, item) in items.iter().enumerate() {
        if !is_below_first(item.number, &items[index + 1..]) {
            return false;
        }
    }
    true
}

/// Whether the number is below that of the first item, if there is one.
fn is_below_first(number: i64, items: &[Item]) -> bool
    ensures { result ≡ list_all (int_lt number) (take 1 (numbers_seen items.now)) }
{
    match items.first() {
        Some(first) => number < first.number,
        None => true,
    }
}
