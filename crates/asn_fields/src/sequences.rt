//! The fields of a SEQUENCE.
ghost use Rattle.std.specs.Prelude.{◌≡◌, ◌≤◌, OnOk, length};
ghost use Rattle.asn_values.specs.Parts.{AreOfProfile, IsGoodDemand};
ghost use Rattle.asn_values.specs.Profile.{InProfile};
ghost use Rattle.asn_values.specs.View.{fields_seen, part_of_field};
ghost use Rattle.asn_rules.specs.Listed.{bitmap_length};

use crate::field::FieldKind;
use crate::telling::{Step, Walk};
use crate::walk::{open_type, value};
use asn_bits::BitCursor;
use asn_rules::internal::Stop;
use asn_values::{Field, Need};
use asn_walk::{PresenceBits, ReadLeaves, bitmap_width};

/// Tells the fields of the root of a SEQUENCE: the extension bit, which it gives, the presence bitmap, and the components.
#[cycle(walk)]
pub(crate) fn root_fields<'t, R: ReadLeaves>(
    walk: &mut Walk<'t>,
    root: &'t [Field],
    additions: Option<usize>,
    units: &mut BitCursor<'_>,
) -> Result<bool, Stop>
    requires at_unit { R.rules.at_unit units.old }
    requires of_profile { AreOfProfile (fields_seen root.now) }
    requires few { length root.now ≤ 64 }
    ensures { OnOk result (R.rules.at_unit units.new) }
{
    let width = bitmap_width(root);
    let preamble = R::read_preamble(width, additions, units)?;
    let to = walk.place::<R>(units);
    let presence = PresenceBits {
        bitmap: preamble.bitmap,
        left: width,
    };
    walk.tell_preamble(additions.is_some(), preamble.extended, presence, to)?;
    components::<R>(walk, root, presence, units)?;
    Ok(preamble.extended)
}

/// The same of the components of a root, of which the presence bits tell which are there.
#[cycle(walk)]
fn components<'t, R: ReadLeaves>(
    walk: &mut Walk<'t>,
    fields: &'t [Field],
    presence: PresenceBits,
    units: &mut BitCursor<'_>,
) -> Result<(), Stop>
    requires at_unit { R.rules.at_unit units.old }
    requires of_profile { AreOfProfile (fields_seen fields.now) }
    requires width { presence.left ≡ bitmap_length (fields_seen fields.now) }
    requires few { presence.left ≤ 64 }
    ensures { OnOk result (R.rules.at_unit units.new) }
{
    let mut presence = presence;
    for field in fields {
        if presence.next_of(field) {
            component::<R>(walk, field, units)?;
        } else {
            walk.tell_absent(field)?;
        }
    }
    Ok(())
}

/// The same of a component that is present: one with a DEFAULT is read as another value than that.
#[cycle(walk)]
fn component<'t, R: ReadLeaves>(
    walk: &mut Walk<'t>,
    field: &'t Field,
    units: &mut BitCursor<'_>,
) -> Result<(), Stop>
    requires at_unit { R.rules.at_unit units.old }
    requires of_profile { InProfile (part_of_field field.now).shape }
    requires good { IsGoodDemand (part_of_field field.now).demand (part_of_field field.now).shape }
    ensures { OnOk result (R.rules.at_unit units.new) }
{
    walk.enter(Step::Name(field.name.as_str()))?;
    match &field.need {
        Need::Must | Need::Optional => value::<R>(walk, &field.ty, units)?,
        Need::Default(default) => {
            let read = R::read_other(&field.ty, default, units)?;
            let to = walk.place::<R>(units);
            walk.tell_value(&field.ty, read, to)?;
        }
    }
    walk.leave();
    Ok(())
}

/// The same of the extension additions, of which one at least is present.
#[cycle(walk)]
pub(crate) fn added_fields<'t, R: ReadLeaves>(
    walk: &mut Walk<'t>,
    fields: &'t [Field],
    units: &mut BitCursor<'_>,
) -> Result<(), Stop>
    requires at_unit { R.rules.at_unit units.old }
    requires of_profile { AreOfProfile (fields_seen fields.now) }
    requires few { length fields.now ≤ 64 }
    ensures { OnOk result (R.rules.at_unit units.new) }
{
    if fields.is_empty() {
        return Ok(());
    }
    let count = fields.len() as u32;
    let bitmap = R::read_addition_bitmap(count, units)?;
    let to = walk.place::<R>(units);
    let mut presence = PresenceBits {
        bitmap,
        left: count,
    };
    walk.tell_addition_bitmap(presence, to)?;
    for field in fields {
        if presence.next() {
            addition::<R>(walk, field, units)?;
        } else {
            walk.tell_absent(field)?;
        }
    }
    Ok(())
}

/// The same of an extension addition that is present, which is in an open type field.
#[cycle(walk)]
fn addition<'t, R: ReadLeaves>(
    walk: &mut Walk<'t>,
    field: &'t Field,
    units: &mut BitCursor<'_>,
) -> Result<(), Stop>
    requires at_unit { R.rules.at_unit units.old }
    requires of_profile { InProfile (part_of_field field.now).shape }
    ensures { OnOk result (R.rules.at_unit units.new) }
{
    walk.enter(Step::Name(field.name.as_str()))?;
    open_type::<R>(walk, &field.ty, units)?;
    walk.leave();
    Ok(())
}
