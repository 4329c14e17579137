//! A builder that puts values into slots.
ghost use Rattle.std.specs.Prelude.{◌≡◌, ◌++◌, ℕ, pos, Bool, List, map, Option, IfSome, IsSome};
ghost use Rattle.asn_values.specs.Datum.{Datum, truth, number, bit_list, octet_list};
ghost use Rattle.asn_values.specs.View.{datum_of};
ghost use Rattle.asn_bits.specs.Numbers.{bits, octets};
ghost use Rattle.asn_bits.specs.Sink.{bit_of};
ghost use Rattle.asn_walk.specs.Integers.{IsOfProfile};
ghost use Rattle.asn_message.specs.declared.slots.Room.{Room};
ghost use Rattle.asn_message.specs.Building.{IsPut, AreEntries, AreElements, IsBegun, Grows};
ghost use Rattle.asn_message.specs.Slots.{entries_inside, value_at};

use crate::slots::{Content, Room};
use asn_plan::{Build, FixedString};
use asn_values::Value;
use asn_values::profile::{HIGHEST_INTEGER, LOWEST_INTEGER};
use std::alloc::Global;

/// Puts values into slots.
pub struct Flat;

/// A SEQUENCE whose entries are not all there.
#[derive(Drop)]
pub struct Entries {
    /// Where its slot is.
    pub(crate) at: usize,
    /// How many entries there are, modulo 2^64: each present one has a slot, before which fewer than 2^32 are absent, and
    /// a value has no more than 2^32 slots.
    pub(crate) count: u64,
}

/// A SEQUENCE OF whose elements are not all there.
#[derive(Drop)]
pub struct Elements {
    /// Where its slot is.
    pub(crate) at: usize,
    /// How many elements there are, modulo 2^32: each has a slot.
    pub(crate) count: u32,
}

impl Build for Flat {
    type Room = Room;

    type Part = ();

    type Entries = Entries;

    type Elements = Elements;

    type Chosen = usize;

    ghost built = { λ s r p d. IsPut s r d };

    ghost listed = { AreEntries };

    ghost rowed = { AreElements };

    ghost opened = { IsBegun };

    #[inline(always)]
    fn number(room: &mut Room, integer: i128) -> Option<()> {
        put_number(room, integer)
    }

    #[inline(always)]
    fn truth(room: &mut Room, is_true: bool) -> Option<()> {
        put_truth(room, is_true)
    }

    #[inline(always)]
    fn item(room: &mut Room, position: u32) -> Option<()> {
        put_slot(room, Content::Item(position))
    }

    #[inline(always)]
    fn takes_strings() -> bool {
        true
    }

    #[inline(always)]
    fn string(room: &mut Room, fixed: &FixedString, number: u64) -> Option<()> {
        if fixed.of_octets {
            put_low_octets(room, fixed.length, number)?;
            return Some(());
        }
        put_low_bits(room, fixed.length, number)?;
        Some(())
    }

    #[inline(always)]
    fn value(room: &mut Room, value: Value) -> Option<()> {
        put_alone(room, &value)
    }

    #[inline(always)]
    fn kept(room: &mut Room, value: &Value) -> Option<()> {
        put_alone(room, value)
    }

    #[inline(always)]
    fn entries(_alloc: Global, room: &mut Room, _count: usize) -> Option<Entries> {
        let at = room.begin()?;
        Some(Entries { at, count: 0 })
    }

    #[inline(always)]
    fn absent(room: &mut Room, entries: &mut Entries) -> Option<()> {
        room.absent = room.absent.checked_add(1)?;
        entries.count = entries.count.wrapping_add(1);
        Some(())
    }

    #[inline(always)]
    fn present(_room: &mut Room, entries: &mut Entries, _part: ()) -> Option<()> {
        entries.count = entries.count.wrapping_add(1);
        Some(())
    }

    /// The components that are absent after the last present one are those that no slot has passed yet.
    #[inline(always)]
    fn sequence(room: &mut Room, entries: Entries) -> Option<()> {
        let absent = room.absent;
        let taken = u32::try_from(entries.count.wrapping_sub(u64::from(absent))).ok()?;
        room.absent = 0;
        room.close(entries.at, Content::Sequence { taken, absent })?;
        Some(())
    }

    #[inline(always)]
    fn elements(_alloc: Global, room: &mut Room) -> Option<Elements> {
        let at = room.begin()?;
        Some(Elements { at, count: 0 })
    }

    #[inline(always)]
    fn element(_room: &mut Room, row: &mut Elements, _part: ()) -> Option<()> {
        row.count = row.count.wrapping_add(1);
        Some(())
    }

    #[inline(always)]
    fn list(room: &mut Room, row: Elements) -> Option<()> {
        room.close(row.at, Content::List(row.count))?;
        Some(())
    }

    #[inline(always)]
    fn choosing(room: &mut Room, _place: usize) -> Option<usize> {
        let chosen = room.begin()?;
        Some(chosen)
    }

    #[inline(always)]
    fn choice(
        _alloc: Global,
        room: &mut Room,
        chosen: usize,
        place: usize,
        _part: (),
    ) -> Option<()> {
        room.close(chosen, Content::Choice(place as u32))?;
        Some(())
    }
}

/// Puts a value into a slot that has no others inside it.
#[inline(always)]
fn put_slot(room: &mut Room, content: Content) -> Option<()>
    ensures { IsSome result → (r : Room) (d : Datum) → Grows r room.old → room.old.slots ≡ r.slots
        → room.old.absent ≡ r.absent → entries_inside content ≡ 0
        → ((more : List ℕ) (es : List (Option Datum)) → value_at (room.old.octets.items ++ more) content es ≡ d)
        → IsPut r room.new d }
{
    room.push(content)
}

/// Puts a BOOLEAN into a slot.
#[inline(never)]
fn put_truth(room: &mut Room, is_true: bool) -> Option<()>
    ensures { IsSome result → IsPut room.old room.new (truth is_true) }
{
    put_slot(room, Content::Truth(is_true))
}

/// Puts an INTEGER into a slot.
#[inline(always)]
fn put_number(room: &mut Room, integer: i128) -> Option<()>
    requires { IsOfProfile integer }
    ensures { IsSome result → IsPut room.old room.new (number integer) }
{
    if integer > i64::MAX as i128 {
        return put_large(room, integer as u64);
    }
    put_slot(room, Content::Number(integer as i64))
}

/// Puts an INTEGER that does not have 64 bits with a sign into a slot.
#[cold]
#[inline(never)]
fn put_large(room: &mut Room, integer: u64) -> Option<()>
    ensures { IsSome result → IsPut room.old room.new (number (pos integer)) }
{
    put_slot(room, Content::Large(integer))
}

/// Puts a BIT STRING of the last `count` bits of a number into a slot.
#[inline(never)]
fn put_low_bits(room: &mut Room, count: u32, number: u64) -> Option<()>
    ensures { IsSome result → (bs : List Bool) → map bit_of bs ≡ bits count number
        → IsPut room.old room.new (bit_list bs) }
{
    if count > 64 {
        return None;
    }
    let span = room.push_low_bits(count, number)?;
    put_slot(room, Content::Bits(span))
}

/// Puts an OCTET STRING of the last `count` octets of a number into a slot.
#[inline(never)]
fn put_low_octets(room: &mut Room, count: u32, number: u64) -> Option<()>
    ensures { IsSome result → IsPut room.old room.new (octet_list (octets count number)) }
{
    if count > 8 {
        return None;
    }
    let span = room.push_low_octets(count, number)?;
    put_slot(room, Content::Octets(span))
}

/// Puts a value without parts into a slot.
#[inline(always)]
pub(crate) fn put_alone(room: &mut Room, value: &Value) -> Option<()>
    ensures { IsSome result → IsPut room.old room.new (datum_of value.now) }
{
    match value {
        Value::Bool(truth) => put_truth(room, *truth),
        Value::Int(number) => {
            let number = of_profile(number)?;
            put_number(room, number)
        }
        Value::Enum(index) => put_slot(room, Content::Item(*index)),
        _ => put_string(room, value),
    }
}

/// Puts a string into a slot, or NULL.
#[inline(never)]
fn put_string(room: &mut Room, value: &Value) -> Option<()>
    ensures { IsSome result → IsPut room.old room.new (datum_of value.now) }
{
    match value {
        Value::Null => put_slot(room, Content::Null),
        Value::Bits(bits) => {
            let span = room.push_bits(bits)?;
            put_slot(room, Content::Bits(span))
        }
        Value::Octets(octets) => {
            let span = room.push_octets(octets)?;
            put_slot(room, Content::Octets(span))
        }
        Value::Text(codes) => {
            let span = room.push_octets(codes)?;
            put_slot(room, Content::Text(span))
        }
        Value::Utf8(text) => {
            let span = room.push_octets(text.as_bytes())?;
            put_slot(room, Content::Utf8(span))
        }
        _ => None,
    }
}

/// The integer, where it is one of the profile.
fn of_profile(integer: &i128) -> Option<i128>
    ensures { IfSome result (λ n. (n ≡ integer.now) × IsOfProfile n) }
{
    if *integer < LOWEST_INTEGER || *integer > HIGHEST_INTEGER {
        return None;
    }
    Some(*integer)
}
