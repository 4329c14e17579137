//! The components of a SEQUENCE, each read into its entry: those of the root and the extension additions.
ghost use Rattle.std.specs.Prelude.{◌≡◌, ◌≤◌, ◌<◌, true, false, IfOk, IfErr, IfSome, OnOk, length};
ghost use Rattle.std.specs.Option.{option_map};
ghost use Rattle.asn_values.specs.Profile.{InProfile};
ghost use Rattle.asn_values.specs.Parts.{AreOfProfile, IsGoodDemand};
ghost use Rattle.asn_values.specs.View.{datum_of, part_of_field, fields_seen, entries_seen};
ghost use Rattle.asn_rules.specs.Listed.{bitmap_length};
ghost use Rattle.asn_walk.specs.Reading.{Reads, ReadsEntry, ReadsRootOf, StopsAt, StopsInRoot, EntryOf, ComponentsOf, OpenFieldsOf, ExtensionsOf};

use crate::entries::{make_present, read_other_into, set_absent, set_integer};
use crate::reader::{read_into, read_open_into};
use asn_bits::BitCursor;
use asn_rules::internal::Stop;
use asn_values::{AsnType, Field, Need, Value};
use asn_walk::{PresenceBits, ReadLeaves, bitmap_width};
use asn_walk_read::try_integer;
use std::alloc::Global;

/// Reads the root of a SEQUENCE: its preamble and its components. Gives the extension bit.
#[inline(always)]
#[cycle(reader)]
pub(crate) fn read_root_into<R: ReadLeaves>(
    alloc: Global,
    root: &[Field],
    additions: Option<usize>,
    entries: &mut [Option<Value>],
    units: &mut BitCursor<'_>,
) -> Result<bool, Stop>
    requires at_unit { R.rules.at_unit units.old }
    requires of_profile { AreOfProfile (fields_seen root.now) }
    requires few { length root.now ≤ 64 }
    requires few_additions { IfSome additions (λ n. n ≤ 64) }
    requires each { length entries.old ≡ length root.now }
    ensures at_unit { OnOk result (R.rules.at_unit units.new) }
    ensures done { IfOk result (λ extended.
        ReadsRootOf R.rules root.now additions extended entries.new units.old units.new) }
    ensures stop { IfErr result (λ why. StopsInRoot R.rules (fields_seen root.now) additions units.old why) }
{
    R::keep_laws();
    let width = bitmap_width(root);
    let preamble = R::read_preamble(width, additions, units)?;
    let presence = PresenceBits {
        bitmap: preamble.bitmap,
        left: width,
    };
    read_components_into::<R>(alloc, root, presence, entries, units)?;
    Ok(preamble.extended)
}

/// Reads the components of a root that the presence bits tell, in order, each into its entry. A component with a
/// DEFAULT that is absent has that value.
#[inline(always)]
#[cycle(reader)]
fn read_components_into<R: ReadLeaves>(
    alloc: Global,
    fields: &[Field],
    presence: PresenceBits,
    entries: &mut [Option<Value>],
    units: &mut BitCursor<'_>,
) -> Result<(), Stop>
    requires at_unit { R.rules.at_unit units.old }
    requires of_profile { AreOfProfile (fields_seen fields.now) }
    requires width { presence.left ≡ bitmap_length (fields_seen fields.now) }
    requires few { presence.left ≤ 64 }
    requires each { length entries.old ≡ length fields.now }
    ensures at_unit { OnOk result (R.rules.at_unit units.new) }
    ensures done { OnOk result
        (Reads R.rules (ComponentsOf R.rules fields.now presence) (entries_seen entries.new) units.old units.new) }
    ensures stop { IfErr result (λ why. StopsAt R.rules (ComponentsOf R.rules fields.now presence) units.old why) }
{
    R::keep_laws();
    let mut presence = presence;
    let mut at = 0;
    for field in fields {
        let entry = &mut entries[at];
        at += 1;
        if !presence.next_of(field) {
            set_absent(field, entry);
            continue;
        }
        if try_entry_into::<R>(field, entry, units) {
            continue;
        }
        make_present(entry);
        let Some(value) = entry else { unreachable!() };
        match &field.need {
            Need::Default(default) => {
                match read_other_into::<R>(&field.ty, default, units, value) {
                    Ok(()) => continue,
                    Err(stop) => return Err(stop),
                }
            }
            Need::Must | Need::Optional => match read_into::<R>(alloc, &field.ty, units, value) {
                Ok(()) => continue,
                Err(stop) => return Err(stop),
            },
        }
    }
    Ok(())
}

/// Fast path: the INTEGER, BOOLEAN, ENUMERATED, BIT STRING or OCTET STRING of a component that is present and has no
/// DEFAULT, where its units are at hand; otherwise takes nothing, and leaves some entry.
#[inline(always)]
fn try_entry_into<R: ReadLeaves>(
    field: &Field,
    entry: &mut Option<Value>,
    units: &mut BitCursor<'_>,
) -> bool
    requires at_unit { R.rules.at_unit units.old }
    requires of_profile { InProfile (part_of_field field.now).shape }
    ensures at_unit { R.rules.at_unit units.new }
    ensures done { result ≡ true
        → ReadsEntry R.rules field.now true (option_map datum_of entry.new) units.old units.new }
    ensures none { result ≡ false → units.new ≡ units.old }
{
    match &field.need {
        Need::Default(_) => return false,
        Need::Must | Need::Optional => {}
    }
    if let AsnType::Int(_) = &field.ty {
        let Some(number) = try_integer::<R>(&field.ty, units) else {
            return false;
        };
        set_integer(entry, number);
        return true;
    }
    match &field.ty {
        AsnType::Bool | AsnType::Enum { .. } | AsnType::Bits(_) | AsnType::Octets(_) => {
            let Some(value) = entry else {
                return false;
            };
            R::try_simple_into(&field.ty, units, value)
        }
        AsnType::Int(_)
        | AsnType::Null
        | AsnType::Text(..)
        | AsnType::Utf8
        | AsnType::Seq { .. }
        | AsnType::SeqOf(..)
        | AsnType::Choice { .. } => false,
    }
}

/// Reads the extension additions of a SEQUENCE of which one at least is present, each into its entry.
#[cycle(reader)]
pub(crate) fn read_additions_into<R: ReadLeaves>(
    alloc: Global,
    fields: &[Field],
    entries: &mut [Option<Value>],
    units: &mut BitCursor<'_>,
) -> Result<(), Stop>
    requires at_unit { R.rules.at_unit units.old }
    requires of_profile { AreOfProfile (fields_seen fields.now) }
    requires some { 0 < length fields.now }
    requires few { length fields.now ≤ 64 }
    requires each { length entries.old ≡ length fields.now }
    ensures at_unit { OnOk result (R.rules.at_unit units.new) }
    ensures done { OnOk result
        (Reads R.rules (ExtensionsOf R.rules fields.now) (entries_seen entries.new) units.old units.new) }
    ensures stop { IfErr result (λ why. StopsAt R.rules (ExtensionsOf R.rules fields.now) units.old why) }
{
    R::keep_laws();
    let count = fields.len() as u32;
    let bitmap = R::read_addition_bitmap(count, units)?;
    let presence = PresenceBits {
        bitmap,
        left: count,
    };
    read_open_fields_into::<R>(alloc, fields, presence, entries, units)
}

/// Reads the extension additions that the presence bits tell, each an open type field, into their entries.
#[cycle(reader)]
fn read_open_fields_into<R: ReadLeaves>(
    alloc: Global,
    fields: &[Field],
    presence: PresenceBits,
    entries: &mut [Option<Value>],
    units: &mut BitCursor<'_>,
) -> Result<(), Stop>
    requires at_unit { R.rules.at_unit units.old }
    requires of_profile { AreOfProfile (fields_seen fields.now) }
    requires width { presence.left ≡ length fields.now }
    requires few { presence.left ≤ 64 }
    requires each { length entries.old ≡ length fields.now }
    ensures at_unit { OnOk result (R.rules.at_unit units.new) }
    ensures done { OnOk result
        (Reads R.rules (OpenFieldsOf R.rules fields.now presence) (entries_seen entries.new) units.old units.new) }
    ensures stop { IfErr result (λ why. StopsAt R.rules (OpenFieldsOf R.rules fields.now presence) units.old why) }
{
    R::keep_laws();
    let mut presence = presence;
    let mut at = 0;
    for field in fields {
        let entry = &mut entries[at];
        at += 1;
        if !presence.next() {
            *entry = None;
            continue;
        }
        make_present(entry);
        let Some(value) = entry else { unreachable!() };
        read_open_into::<R>(alloc, &field.ty, units, value)?;
    }
    Ok(())
}
