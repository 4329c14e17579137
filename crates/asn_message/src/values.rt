//! Values put into slots.
ghost use Rattle.std.specs.Prelude.{IsSome, map};
ghost use Rattle.asn_values.specs.Datum.{components, components_of, elements, elements_of};
ghost use Rattle.asn_values.specs.View.{datum_of, entries_seen};
ghost use Rattle.asn_message.specs.Building.{IsPut};

use crate::flat::{Flat, put_alone};
use crate::slots::{Content, Room};
use asn_plan::Build;
use asn_values::Value;

/// Puts a value into slots. It gives up where memory is wanting, past 2^32 slots or octets, and at a value that fits no
/// type.
#[cycle(put)]
pub(crate) fn put(room: &mut Room, value: &Value) -> Option<()>
    ensures { IsSome result → IsPut room.old room.new (datum_of value.now) }
{
    match value {
        Value::Seq(entries) => put_entries(room, entries),
        Value::List(elements) => put_elements(room, elements),
        Value::Choice(tag, chosen) => {
            let begun = room.begin()?;
            put(room, chosen)?;
            room.close(begun, Content::Choice(*tag))
        }
        _ => put_alone(room, value),
    }
}

/// Puts a SEQUENCE with these entries into slots.
#[cycle(put)]
fn put_entries(room: &mut Room, entries: &Vec<Option<Value>>) -> Option<()>
    ensures { IsSome result
        → IsPut room.old room.new (components (components_of (entries_seen entries.now.items))) }
{
    let alloc = *entries.allocator();
    let mut begun = Flat::entries(alloc, room, 0)?;
    for entry in entries {
        match entry {
            None => Flat::absent(room, &mut begun)?,
            Some(value) => {
                put(room, value)?;
                Flat::present(room, &mut begun, ())?;
            }
        }
    }
    Flat::sequence(room, begun)
}

/// Puts a SEQUENCE OF with these elements into slots.
#[cycle(put)]
fn put_elements(room: &mut Room, row: &Vec<Value>) -> Option<()>
    ensures { IsSome result
        → IsPut room.old room.new (elements (elements_of (map datum_of row.now.items))) }
{
    let alloc = *row.allocator();
    let mut begun = Flat::elements(alloc, room)?;
    for element in row {
        put(room, element)?;
        Flat::element(room, &mut begun, ())?;
    }
    Flat::list(room, begun)
}
