//! The entries that are left of a SEQUENCE, and the elements that are left of a SEQUENCE OF.
ghost use Rattle.std.specs.Prelude.{◌≡◌, ℕ, [], IfSome, drop, option_map, take};
ghost use Rattle.asn_view.specs.Typed.{first_entry};
ghost use Rattle.asn_message.specs.Slots.{entries_in, values_of};
ghost use Rattle.asn_message.specs.Rows.{row_value, left_entries, first_of_values};

use crate::row::Row;

/// The entries that are left: how many they are, and how many of them are absent before the first value of the row.
#[derive(Clone, Copy)]
pub(crate) struct Left<'a> {
    pub(crate) row: Row<'a>,
    pub(crate) count: u32,
    pub(crate) absent: u32,
}

/// The first of the entries in the row, this many.
#[inline(always)]
pub(crate) fn first_entries<'a>(row: Row<'a>, count: u32) -> Left<'a>
    ensures entries { left_entries result ≡ take count (entries_in row.entry.octets.now row.entry.slots.now []) }
    ensures row { result.row ≡ row.entry }
{
    let absent = row.absent_before();
    Left { row, count, absent }
}

/// The next entry, if it is present, and those that are left after it.
#[inline(always)]
pub(crate) fn next_entry<'a>(left: Left<'a>) -> (Option<Row<'a>>, Left<'a>)
    ensures first { option_map row_value result.0 ≡ first_entry (left_entries left.entry) }
    ensures here { IfSome result.0 (λ row. row ≡ left.entry.row) }
    ensures last { (n : ℕ) × (result.1.row.slots.now ≡ drop n left.entry.row.slots.now) }
    ensures octets { result.1.row.octets.now ≡ left.entry.row.octets.now }
    ensures others { left_entries result.1 ≡ drop 1 (left_entries left.entry) }
{
    let Left { row, count, absent } = left;
    if count == 0 {
        return (None, left);
    }
    let count = count - 1;
    if absent > 0 {
        let absent = absent - 1;
        return (None, Left { row, count, absent });
    }
    if row.slots.is_empty() {
        return (None, left);
    }
    let next = first_entries(row.after(), count);
    (Some(row), next)
}

/// The next entry that is present, and those that are left after it.
#[inline(always)]
pub(crate) fn next_value<'a>(left: Left<'a>) -> (Option<Row<'a>>, Left<'a>)
    ensures first { option_map row_value result.0 ≡ first_of_values (values_of (left_entries left.entry)) }
    ensures here { IfSome result.0 (λ row. row ≡ left.entry.row) }
    ensures last { (n : ℕ) × (result.1.row.slots.now ≡ drop n left.entry.row.slots.now) }
    ensures octets { result.1.row.octets.now ≡ left.entry.row.octets.now }
    ensures others { values_of (left_entries result.1) ≡ drop 1 (values_of (left_entries left.entry)) }
{
    let Left { row, count, absent } = left;
    if count <= absent || row.slots.is_empty() {
        return (None, left);
    }
    let next = first_entries(row.after(), count - absent - 1);
    (Some(row), next)
}
