//! The components of a SEQUENCE: the readers of its root and of its extension additions, which keep no entry.
ghost use Rattle.std.specs.Prelude.{◌≡◌, ◌≤◌, ◌<◌, IfOk, IfErr, OnOk, IfSome, length};
ghost use Rattle.asn_values.specs.Profile.{InProfile};
ghost use Rattle.asn_values.specs.Parts.{AreOfProfile, IsGoodDemand};
ghost use Rattle.asn_values.specs.View.{part_of_field, fields_seen};
ghost use Rattle.asn_rules.specs.Listed.{bitmap_length};
ghost use Rattle.asn_walk.specs.Reading.{StopsAt, StopsInRoot, EntryOf, ComponentsOf, OpenFieldsOf, ExtensionsOf};
ghost use Rattle.asn_walk_check.specs.Checked.{ReadsSome, ReadsSomeRoot};

use crate::reader::{read_open_field, read_value};
use asn_bits::BitCursor;
use asn_rules::internal::Stop;
use asn_values::{Field, Need};
use asn_walk::{PresenceBits, ReadLeaves, bitmap_width};
use asn_walk_read::try_bounded;
use std::alloc::Global;

/// Reads the root of a SEQUENCE: its preamble and its components. Gives the extension bit.
#[cycle(reader)]
pub(crate) fn read_root<R: ReadLeaves>(
    alloc: Global,
    root: &[Field],
    additions: Option<usize>,
    units: &mut BitCursor<'_>,
) -> Result<bool, Stop>
    requires at_unit { R.rules.at_unit units.old }
    requires of_profile { AreOfProfile (fields_seen root.now) }
    requires few { length root.now ≤ 64 }
    requires few_additions { IfSome additions (λ n. n ≤ 64) }
    ensures at_unit { OnOk result (R.rules.at_unit units.new) }
    ensures done { IfOk result (λ extended.
        ReadsSomeRoot R.rules (fields_seen root.now) additions extended units.old units.new) }
    ensures stop { IfErr result (λ why. StopsInRoot R.rules (fields_seen root.now) additions units.old why) }
{
    R::keep_laws();
    let width = bitmap_width(root);
    let preamble = R::read_preamble(width, additions, units)?;
    let presence = PresenceBits {
        bitmap: preamble.bitmap,
        left: width,
    };
    read_components::<R>(alloc, root, presence, units)?;
    Ok(preamble.extended)
}

/// Reads the components of a root that the presence bits tell, in order.
#[cycle(reader)]
fn read_components<R: ReadLeaves>(
    alloc: Global,
    fields: &[Field],
    presence: PresenceBits,
    units: &mut BitCursor<'_>,
) -> Result<(), Stop>
    requires at_unit { R.rules.at_unit units.old }
    requires of_profile { AreOfProfile (fields_seen fields.now) }
    requires width { presence.left ≡ bitmap_length (fields_seen fields.now) }
    requires few { presence.left ≤ 64 }
    ensures at_unit { OnOk result (R.rules.at_unit units.new) }
    ensures done { OnOk result (ReadsSome R.rules (ComponentsOf R.rules fields.now presence) units.old units.new) }
    ensures stop { IfErr result (λ why. StopsAt R.rules (ComponentsOf R.rules fields.now presence) units.old why) }
{
    R::keep_laws();
    let mut presence = presence;
    for field in fields {
        if let Some(_) = try_bounded::<R>(field, units) {
            continue;
        }
        let present = presence.next_of(field);
        read_entry::<R>(alloc, field, present, units)?;
    }
    Ok(())
}

/// Reads the entry of a component, of which `present` says whether it is there.
#[inline(always)]
#[cycle(reader)]
fn read_entry<R: ReadLeaves>(
    alloc: Global,
    field: &Field,
    present: bool,
    units: &mut BitCursor<'_>,
) -> Result<(), Stop>
    requires at_unit { R.rules.at_unit units.old }
    requires of_profile { InProfile (part_of_field field.now).shape }
    requires good { IsGoodDemand (part_of_field field.now).demand (part_of_field field.now).shape }
    ensures at_unit { OnOk result (R.rules.at_unit units.new) }
    ensures done { OnOk result
        (ReadsSome R.rules (EntryOf R.rules (part_of_field field.now) present) units.old units.new) }
    ensures stop { IfErr result (λ why.
        StopsAt R.rules (EntryOf R.rules (part_of_field field.now) present) units.old why) }
{
    if !present {
        return Ok(());
    }
    match &field.need {
        Need::Default(default) => {
            R::read_other(&field.ty, default, units)?;
            Ok(())
        }
        Need::Must | Need::Optional => {
            if let Some(_) = R::try_simple(alloc, &field.ty, units) {
                return Ok(());
            }
            read_value::<R>(alloc, &field.ty, units)
        }
    }
}

/// Reads the extension additions of a SEQUENCE of which one at least is present.
#[cycle(reader)]
pub(crate) fn read_additions<R: ReadLeaves>(
    alloc: Global,
    fields: &[Field],
    units: &mut BitCursor<'_>,
) -> Result<(), Stop>
    requires at_unit { R.rules.at_unit units.old }
    requires of_profile { AreOfProfile (fields_seen fields.now) }
    requires some { 0 < length fields.now }
    requires few { length fields.now ≤ 64 }
    ensures at_unit { OnOk result (R.rules.at_unit units.new) }
    ensures done { OnOk result (ReadsSome R.rules (ExtensionsOf R.rules fields.now) units.old units.new) }
    ensures stop { IfErr result (λ why. StopsAt R.rules (ExtensionsOf R.rules fields.now) units.old why) }
{
    R::keep_laws();
    let count = fields.len() as u32;
    let bitmap = R::read_addition_bitmap(count, units)?;
    let presence = PresenceBits {
        bitmap,
        left: count,
    };
    read_open_fields::<R>(alloc, fields, presence, units)
}

/// Reads the extension additions that the presence bits tell, each an open type field.
#[cycle(reader)]
fn read_open_fields<R: ReadLeaves>(
    alloc: Global,
    fields: &[Field],
    presence: PresenceBits,
    units: &mut BitCursor<'_>,
) -> Result<(), Stop>
    requires at_unit { R.rules.at_unit units.old }
    requires of_profile { AreOfProfile (fields_seen fields.now) }
    requires width { presence.left ≡ length fields.now }
    requires few { presence.left ≤ 64 }
    ensures at_unit { OnOk result (R.rules.at_unit units.new) }
    ensures done { OnOk result (ReadsSome R.rules (OpenFieldsOf R.rules fields.now presence) units.old units.new) }
    ensures stop { IfErr result (λ why. StopsAt R.rules (OpenFieldsOf R.rules fields.now presence) units.old why) }
{
    R::keep_laws();
    let mut presence = presence;
    for field in fields {
        if presence.next() {
            read_open_field::<R>(alloc, &field.ty, units)?;
        }
    }
    Ok(())
}
