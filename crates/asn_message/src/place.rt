//! Values in slots, or as trees where they are the DEFAULT of a type, and what is left of their parts.
ghost use Rattle.std.specs.Prelude.{◌≡◌, drop, option_map};
ghost use Rattle.asn_view.specs.Seen.{entry_seen};
ghost use Rattle.asn_view.specs.Typed.{first_entry};
ghost use Rattle.asn_message.specs.Places.{place_value, entries_of_left, values_of_left};
ghost use Rattle.asn_message.specs.Rows.{first_of_values, row_value};

use crate::left::{Left, next_entry, next_value};
use crate::row::Row;
use asn_values::Value;

/// A value.
#[derive(Clone, Copy)]
pub(crate) enum Place<'a> {
    /// In slots.
    Slots(Row<'a>),
    /// As a tree.
    Tree(&'a Value),
}

/// The entries of a SEQUENCE that are left.
#[derive(Clone, Copy)]
pub(crate) enum EntriesLeft<'a> {
    Slots(Left<'a>),
    Tree(&'a [Option<Value>]),
}

/// The elements of a SEQUENCE OF that are left.
#[derive(Clone, Copy)]
pub(crate) enum ElementsLeft<'a> {
    Slots(Left<'a>),
    Tree(&'a [Value]),
}

/// A value in slots, if there is one.
fn in_slots<'a>(row: Option<Row<'a>>) -> Option<Place<'a>>
    ensures { option_map place_value result ≡ option_map row_value row.entry }
{
    match row {
        Some(row) => Some(Place::Slots(row)),
        None => None,
    }
}

/// A value as a tree, if there is one.
fn in_tree<'a>(value: Option<&'a Value>) -> Option<Place<'a>>
    ensures { option_map place_value result ≡ entry_seen value.entry }
{
    match value {
        Some(value) => Some(Place::Tree(value)),
        None => None,
    }
}

/// The value of the next entry, if it is present, and the entries that are left after it.
pub(crate) fn take_entry<'a>(left: EntriesLeft<'a>) -> (Option<Place<'a>>, EntriesLeft<'a>)
    ensures first { option_map place_value result.0 ≡ first_entry (entries_of_left left.entry) }
    ensures others { entries_of_left result.1 ≡ drop 1 (entries_of_left left.entry) }
{
    match left {
        EntriesLeft::Slots(slots) => {
            let (row, others) = next_entry(slots);
            (in_slots(row), EntriesLeft::Slots(others))
        }
        EntriesLeft::Tree(entries) => match entries.split_first() {
            Some((entry, others)) => (in_tree(entry.as_ref()), EntriesLeft::Tree(others)),
            None => (None, left),
        },
    }
}

/// The next element, and those that are left after it.
pub(crate) fn take_element<'a>(left: ElementsLeft<'a>) -> (Option<Place<'a>>, ElementsLeft<'a>)
    ensures first { option_map place_value result.0 ≡ first_of_values (values_of_left left.entry) }
    ensures others { values_of_left result.1 ≡ drop 1 (values_of_left left.entry) }
{
    match left {
        ElementsLeft::Slots(slots) => {
            let (row, others) = next_value(slots);
            (in_slots(row), ElementsLeft::Slots(others))
        }
        ElementsLeft::Tree(values) => match values.split_first() {
            Some((value, others)) => (Some(Place::Tree(value)), ElementsLeft::Tree(others)),
            None => (None, left),
        },
    }
}
